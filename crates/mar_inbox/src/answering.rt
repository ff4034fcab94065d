//! What callers ask, and are answered from what stands: nothing changes but the answers.
ghost use Rattle.std.specs.Option.{option_or};
ghost use Rattle.std.specs.Prelude.{◌≡◌, ◌+◌, ◌++◌, ◌<◌, IfErr, IfNone, IfOk, IfSome, List, OnErr, OnOk, Some, option_map, ℕ};
ghost use Rattle.mar_cert.specs.Block.{Block};
ghost use Rattle.mar_cert.specs.Finalization.{Finalization};
ghost use Rattle.mar_inbox.specs.Answers.{told};
ghost use Rattle.mar_inbox.specs.Asking.{backed_value};
ghost use Rattle.mar_inbox.specs.Views.{identifier_of, query_of, value_of};
ghost use Rattle.mar_key.specs.Processed.{anchor_of};
ghost use Rattle.mar_key.specs.Views.{processed_of};
ghost use Rattle.mar_model.specs.Answers.{anchor, block_info, bytes_of, certificate_info, finalization_value, info, or_none, processed_value};
ghost use Rattle.mar_model.specs.Event.{message_told};
ghost use Rattle.mar_model.specs.Held.{GoesOn, IsReadFault, IsUsual, nothing_written};
ghost use Rattle.mar_model.specs.Queries.{answers_found, block_found, cached_by_digest, value_found};
ghost use Rattle.mar_model.specs.Stored.{block_of};
ghost use Rattle.mar_model.specs.Messages.{of_height};
ghost use Rattle.mar_model.specs.Views.{entry_of, fault_of};

use crate::answers::AnswerTable;
use crate::identifier::Identifier;
use crate::query::Query;
use crate::value::Value;
use mar_block::Buffer;
use mar_cert::{AsFinalization, CommitsTo, Variant};
use mar_key::Processed;
use mar_model::{BlockName, Fault, Holds, block_at_hand, newest_certificate};
use mar_types::Height;

/// Answers a query from what stands.
pub fn answer<V: Variant, S: Holds<V>, B: Buffer<V>>(
    stores: &mut S,
    ticket: u64,
    query: Query<V::Digest>,
    buffer: &B,
    answers: &mut AnswerTable<Value<V::Digest, V::Block, S::Finalization>>,
) -> Result<(), Fault<V::Commitment>>
    ensures answered { OnOk result (told (value_of V.Digest.bytes V.plain S.Finalization.plain) answers.new
        ≡ told (value_of V.Digest.bytes V.plain S.Finalization.plain) answers.old
        ++ answers_found V.inner (S.held stores.old) (B.blocks buffer.now) (message_told (Some ticket) (query_of V.Digest.bytes query))) }
    ensures unanswered { OnErr result (answers.new ≡ answers.old) }
    ensures same { OnOk result (S.held stores.new ≡ record (S.held stores.old) { watches = (S.held stores.new).watches }) }
    ensures goes_on { GoesOn (fault_of V.Commitment.bytes) (S.held stores.old) nothing_written (S.held stores.new) result }
    ensures read { IfErr result (λ e. IsReadFault (fault_of V.Commitment.bytes e)) }
    ensures usual { IfErr result (λ e. IsUsual (fault_of V.Commitment.bytes e)) }
{
    let value = value_for::<V, S, B>(stores, query, buffer)?;
    match answers.put(ticket, value) {
        Ok(()) => Ok(()),
        Err(_) => Err(Fault::Memory),
    }
}

/// What a query is answered.
fn value_for<V: Variant, S: Holds<V>, B: Buffer<V>>(
    stores: &mut S,
    query: Query<V::Digest>,
    buffer: &B,
) -> Result<Value<V::Digest, V::Block, S::Finalization>, Fault<V::Commitment>>
    ensures found { IfOk result (λ r. value_found V.inner (S.held stores.old) (B.blocks buffer.now) (query_of V.Digest.bytes query)
        ≡ Some (value_of V.Digest.bytes V.plain S.Finalization.plain r)) }
    ensures same { OnOk result (S.held stores.new ≡ record (S.held stores.old) { watches = (S.held stores.new).watches }) }
    ensures goes_on { GoesOn (fault_of V.Commitment.bytes) (S.held stores.old) nothing_written (S.held stores.new) result }
    ensures read { IfErr result (λ e. IsReadFault (fault_of V.Commitment.bytes e)) }
    ensures usual { IfErr result (λ e. IsUsual (fault_of V.Commitment.bytes e)) }
{
    match query {
        Query::Info(identifier) => info_of::<V, S>(stores, identifier),
        Query::Block(identifier) => match block_for::<V, S, B>(stores, identifier, buffer) {
            Ok(block) => Ok(of_block(block)),
            Err(ended) => Err(ended),
        },
        Query::Finalization(height) => match stores.certificate_at(height) {
            Ok(finalization) => Ok(of_finalization(finalization)),
            Err(ended) => Err(ended),
        },
        Query::Processed => {
            let processed = stores.floor().processed();
            Ok(of_processed(processed))
        }
        Query::Anchor => backing_block::<V, S>(stores),
        Query::Verified(round) => match stores.cached_verified(round) {
            Ok(block) => Ok(of_block(block)),
            Err(ended) => Err(ended),
        },
    }
}

/// Height and digest of the finalized block that is asked for.
fn info_of<V: Variant, S: Holds<V>>(
    stores: &mut S,
    identifier: Identifier<V::Digest>,
) -> Result<Value<V::Digest, V::Block, S::Finalization>, Fault<V::Commitment>>
    ensures found { IfOk result (λ r. or_none (info V.inner (S.held stores.old).blocks.held (S.held stores.old).certs.held
        (identifier_of V.Digest.bytes identifier))
        ≡ value_of V.Digest.bytes V.plain S.Finalization.plain r) }
    ensures same { OnOk result (S.held stores.new ≡ record (S.held stores.old) { watches = (S.held stores.new).watches }) }
    ensures goes_on { GoesOn (fault_of V.Commitment.bytes) (S.held stores.old) nothing_written (S.held stores.new) result }
    ensures read { IfErr result (λ e. IsReadFault (fault_of V.Commitment.bytes e)) }
    ensures usual { IfErr result (λ e. IsUsual (fault_of V.Commitment.bytes e)) }
{
    match identifier {
        Identifier::Height(height) => info_at::<V, S>(stores, height),
        Identifier::Digest(digest) => match stores.block_of(&digest) {
            Ok(block) => Ok(info_of_block::<V, S>(block)),
            Err(ended) => Err(ended),
        },
        Identifier::Latest => match newest_certificate::<V, S>(stores) {
            Ok(newest) => Ok(info_of_certificate::<V, S>(newest)),
            Err(ended) => Err(ended),
        },
    }
}

/// Height and digest of the block that is finalized at a height: by its certificate, or else by the block itself.
fn info_at<V: Variant, S: Holds<V>>(
    stores: &mut S,
    height: Height,
) -> Result<Value<V::Digest, V::Block, S::Finalization>, Fault<V::Commitment>>
    ensures found { IfOk result (λ r. or_none (info V.inner (S.held stores.old).blocks.held (S.held stores.old).certs.held (of_height height))
        ≡ value_of V.Digest.bytes V.plain S.Finalization.plain r) }
    ensures same { OnOk result (S.held stores.new ≡ record (S.held stores.old) { watches = (S.held stores.new).watches }) }
    ensures goes_on { GoesOn (fault_of V.Commitment.bytes) (S.held stores.old) nothing_written (S.held stores.new) result }
    ensures read { IfErr result (λ e. IsReadFault (fault_of V.Commitment.bytes e)) }
    ensures usual { IfErr result (λ e. IsUsual (fault_of V.Commitment.bytes e)) }
{
    match stores.certificate_at(height) {
        Ok(found) => match found {
            Some(certificate) => {
                let found = Some((height, certificate));
                Ok(info_of_certificate::<V, S>(found))
            }
            None => match stores.block_at(height) {
                Ok(block) => Ok(info_of_block::<V, S>(block)),
                Err(ended) => Err(ended),
            },
        },
        Err(ended) => Err(ended),
    }
}

/// The block that is asked for.
fn block_for<V: Variant, S: Holds<V>, B: Buffer<V>>(
    stores: &mut S,
    identifier: Identifier<V::Digest>,
    buffer: &B,
) -> Result<Option<V::Block>, Fault<V::Commitment>>
    ensures found { IfOk result (λ r. option_map V.plain r
        ≡ block_found V.inner (S.held stores.old) (B.blocks buffer.now) (identifier_of V.Digest.bytes identifier)) }
    ensures same { OnOk result (S.held stores.new ≡ record (S.held stores.old) { watches = (S.held stores.new).watches }) }
    ensures goes_on { GoesOn (fault_of V.Commitment.bytes) (S.held stores.old) nothing_written (S.held stores.new) result }
    ensures read { IfErr result (λ e. IsReadFault (fault_of V.Commitment.bytes e)) }
    ensures usual { IfErr result (λ e. IsUsual (fault_of V.Commitment.bytes e)) }
{
    match identifier {
        Identifier::Height(height) => stores.block_at(height),
        Identifier::Digest(digest) => match buffer.find_by_digest(&digest) {
            Ok(Some(block)) => Ok(Some(block)),
            Ok(None) => kept_block::<V, S>(stores, digest),
            Err(_) => Err(Fault::Memory),
        },
        Identifier::Latest => match newest_certificate::<V, S>(stores) {
            Ok(newest) => match newest {
                None => Ok(None),
                Some((_height, finalization)) => {
                    block_at_hand::<V, S, B>(stores, finalization.payload(), buffer)
                }
            },
            Err(ended) => Err(ended),
        },
    }
}

/// The block of a digest: from the cache, or from the store.
fn kept_block<V: Variant, S: Holds<V>>(
    stores: &mut S,
    digest: V::Digest,
) -> Result<Option<V::Block>, Fault<V::Commitment>>
    ensures found { IfOk result (λ r. option_map V.plain r ≡ option_or (cached_by_digest (V.Digest.bytes digest) (S.held stores.old).cache.kept.held)
        (block_of (S.held stores.old).blocks.held (V.Digest.bytes digest))) }
    ensures same { OnOk result (S.held stores.new ≡ record (S.held stores.old) { watches = (S.held stores.new).watches }) }
    ensures goes_on { GoesOn (fault_of V.Commitment.bytes) (S.held stores.old) nothing_written (S.held stores.new) result }
    ensures read { IfErr result (λ e. IsReadFault (fault_of V.Commitment.bytes e)) }
    ensures usual { IfErr result (λ e. IsUsual (fault_of V.Commitment.bytes e)) }
{
    match stores.cached_block(BlockName::Digest(digest)) {
        Ok(Some(block)) => Ok(Some(block)),
        Ok(None) => stores.block_of(&digest),
        Err(ended) => Err(ended),
    }
}

/// The processed height and the block that backs it.
fn backing_block<V: Variant, S: Holds<V>>(
    stores: &mut S,
) -> Result<Value<V::Digest, V::Block, S::Finalization>, Fault<V::Commitment>>
    ensures found { IfOk result (λ r. or_none (anchor (S.held stores.old).blocks.held (S.held stores.old).processed)
        ≡ value_of V.Digest.bytes V.plain S.Finalization.plain r) }
    ensures same { OnOk result (S.held stores.new ≡ record (S.held stores.old) { watches = (S.held stores.new).watches }) }
    ensures goes_on { GoesOn (fault_of V.Commitment.bytes) (S.held stores.old) nothing_written (S.held stores.new) result }
    ensures read { IfErr result (λ e. IsReadFault (fault_of V.Commitment.bytes e)) }
    ensures usual { IfErr result (λ e. IsUsual (fault_of V.Commitment.bytes e)) }
{
    match anchor_height::<V, S>(stores) {
        None => Ok(Value::None),
        Some(height) => match stores.block_at(height) {
            Ok(block) => {
                let processed = stores.floor().processed();
                Ok(of_anchor(processed, block))
            }
            Err(ended) => Err(ended),
        },
    }
}

/// The height of the block that backs the processed height, where one at or below the last block may.
fn anchor_height<V: Variant, S: Holds<V>>(stores: &S) -> Option<Height>
    ensures found { IfSome result (λ h. option_map anchor_of (S.held stores.now).processed ≡ Some h) }
    ensures none { IfNone result (anchor (S.held stores.now).blocks.held (S.held stores.now).processed ≡ None) }
{
    match stores.floor().processed() {
        None => None,
        Some(processed) => match stores.last_block() {
            None => None,
            Some(last) => backing_height(processed, last),
        },
    }
}

/// The height of the block that backs a processed height, unless it is past this last one.
fn backing_height(processed: Processed, last: Height) -> Option<Height>
    ensures found { IfSome result (λ h. h ≡ anchor_of (processed_of processed)) }
    ensures none { IfNone result (last < anchor_of (processed_of processed)) }
{
    match processed {
        Processed::Block(height) => Some(height),
        Processed::Absent(height) => next_upto(height, last),
    }
}

/// The next height, where it is at or below this last one.
fn next_upto(height: Height, last: Height) -> Option<Height>
    ensures found { IfSome result (λ h. h ≡ height + 1) }
    ensures none { IfNone result (last < height + 1) }
{
    if height.get() < last.get() {
        Some(height.next())
    } else {
        None
    }
}

// A block, if there is one.
fn of_block<D, B, F>(block: Option<B>) -> Value<D, B, F>
    ensures { (digest : D → List ℕ) (plain : B → Block) (finalization : F → Finalization)
        → bytes_of (option_map plain block) ≡ value_of digest plain finalization result }
{
    match block {
        None => Value::None,
        Some(block) => Value::Block(block),
    }
}

// A finalization, if there is one.
fn of_finalization<D, B, F>(found: Option<F>) -> Value<D, B, F>
    ensures { (digest : D → List ℕ) (plain : B → Block) (finalization : F → Finalization)
        → finalization_value (option_map finalization found) ≡ value_of digest plain finalization result }
{
    match found {
        None => Value::None,
        Some(found) => Value::Finalization(found),
    }
}

// A processed height, if there is one.
fn of_processed<D, B, F>(processed: Option<Processed>) -> Value<D, B, F>
    ensures { (digest : D → List ℕ) (plain : B → Block) (finalization : F → Finalization)
        → or_none (option_map processed_value (option_map processed_of processed)) ≡ value_of digest plain finalization result }
{
    match processed {
        None => Value::None,
        Some(processed) => Value::Processed(processed),
    }
}

// A processed height with the block that backs it, if there are both.
fn of_anchor<D, B: Drop, F>(processed: Option<Processed>, block: Option<B>) -> Value<D, B, F>
    ensures { (digest : D → List ℕ) (plain : B → Block) (finalization : F → Finalization)
        → or_none (backed_value (option_map processed_of processed) (option_map plain block)) ≡ value_of digest plain finalization result }
{
    match (processed, block) {
        (Some(processed), Some(block)) => Value::Anchor { processed, block },
        (_processed, _block) => Value::None,
    }
}

// Height and digest of a block, if there is one.
fn info_of_block<V: Variant, S: Holds<V>>(
    block: Option<V::Block>,
) -> Value<V::Digest, V::Block, S::Finalization>
    ensures { or_none (option_map block_info (option_map V.plain block)) ≡ value_of V.Digest.bytes V.plain S.Finalization.plain result }
{
    match block {
        None => Value::None,
        Some(block) => Value::Info {
            height: V::height(&block),
            digest: V::digest(&block),
        },
    }
}

// Height and digest of the block that a certificate finalizes, if there is one.
fn info_of_certificate<V: Variant, S: Holds<V>>(
    found: Option<(Height, S::Finalization)>,
) -> Value<V::Digest, V::Block, S::Finalization>
    ensures { or_none (option_map (certificate_info V.inner) (option_map (entry_of S.Finalization.plain) found))
        ≡ value_of V.Digest.bytes V.plain S.Finalization.plain result }
{
    match found {
        None => Value::None,
        Some((height, certificate)) => Value::Info {
            height,
            digest: V::commitment_to_inner(certificate.payload()),
        },
    }
}
