//! How long the payloads may be that a node sends.
ghost use Rattle.std.specs.Prelude.{IfErr, IfOk, length, max, ◌<◌, ◌^◌, ◌≡◌, ◌≤◌};
ghost use Rattle.mar_block.specs.PayloadSizes.{AreEnough, IsShortFinalization, IsShortNotarization, IsTooLong};
ghost use Rattle.mar_block.specs.PayloadSizes.{longest_answered, longest_backfill, longest_exchanged, longest_value};
ghost use Rattle.mar_block.specs.PayloadSizes.{spelled_finalization, spelled_notarization, value_limit};

use crate::blocks::BoundedBlock;
use crate::wire_variant::WireVariant;
use mar_cert::{Finalization, Notarization, Scheme};
use mar_key::Key;
use mar_types::{Digest, MaxEncodeSize, Read, Write};

// The bytes that a request takes beside its key.
const REQUEST_OVERHEAD: u64 = 11;

// The bytes that an answer takes beside its value.
const ANSWER_OVERHEAD: u64 = 16;

// The greatest length that a value in an answer may have.
const VALUE_LIMIT: u64 = 4_294_967_295;

/// A value in an answer may be this long, in bytes, which is too long to be sent; the last number stands for what is
/// above it.
#[derive(Clone, Copy, Debug, PartialEq, Eq)]
pub struct TooLarge(pub u64);

/// The most bytes of a request to peers or of an answer to them, with what the exchange adds, for so many members and
/// application blocks of at most so many bytes. An answer has a block, a notarization with its block, or a finalization
/// with its application block; where such a value may be longer than 4,294,967,295 bytes that length is refused.
pub fn max_backfill_size<V: WireVariant, S: Scheme>(
    participants: u32,
    application: u64,
) -> Result<u64, TooLarge>
where
    V::Commitment: Digest,
    ensures formula { IfOk result (λ n. n ≡ longest_exchanged
        V.Commitment.SIZE (S.max_size participants) (V.backfill_size application) application) }
    ensures fits { IfOk result (λ n. longest_answered
        V.Commitment.SIZE (S.max_size participants) (V.backfill_size application) application ≤ value_limit) }
    ensures too_large { IfErr result (λ e. IsTooLong (longest_answered
        V.Commitment.SIZE (S.max_size participants) (V.backfill_size application) application) e.0) }
    ensures enough { IfOk result (λ n. AreEnough ⟦<Key<V::Commitment> as Write>⟧.encoded
        (spelled_finalization V.Commitment.encoded S.Certificate.encoded)
        (IsShortFinalization S.Certificate.encoded (S.max_size participants))
        (spelled_notarization V.Commitment.encoded S.Certificate.encoded)
        (IsShortNotarization S.Certificate.encoded (S.max_size participants))
        V.ApplicationBlock.encoded V.commits V.made
        (λ a. length (V.ApplicationBlock.encoded a) ≤ application) n) }
{
    let signed = Finalization::<V::Commitment, S::Certificate>::max_encode_size::<S>(
        participants,
    ) as u64;
    let block = V::max_backfill_block_size(application as usize) as u64;
    let key = <Key<V::Commitment>>::MAX_ENCODE_SIZE as u64;
    backfill_size(key, signed, block, application)
}

/// The most bytes of what a node sends, for so many members and the application blocks that are read under that
/// configuration: a request, an answer, or a block by a buffer.
pub fn max_payload_size<V: WireVariant, S: Scheme>(
    participants: u32,
    cfg: &<V::ApplicationBlock as Read>::Cfg,
) -> Result<u64, TooLarge>
where
    V::Commitment: Digest,
    V::ApplicationBlock: BoundedBlock,
    requires { V.ApplicationBlock.max_size cfg.now < 2 ^ 64 }
    ensures formula { IfOk result (λ n. n ≡ max (longest_exchanged V.Commitment.SIZE (S.max_size participants)
        (V.backfill_size (V.ApplicationBlock.max_size cfg.now)) (V.ApplicationBlock.max_size cfg.now))
        (V.buffer_size participants (V.ApplicationBlock.max_size cfg.now))) }
    ensures fits { IfOk result (λ n. longest_answered V.Commitment.SIZE (S.max_size participants)
        (V.backfill_size (V.ApplicationBlock.max_size cfg.now)) (V.ApplicationBlock.max_size cfg.now) ≤ value_limit) }
    ensures too_large { IfErr result (λ e. IsTooLong (longest_answered V.Commitment.SIZE (S.max_size participants)
        (V.backfill_size (V.ApplicationBlock.max_size cfg.now)) (V.ApplicationBlock.max_size cfg.now)) e.0) }
    ensures enough { IfOk result (λ n. AreEnough ⟦<Key<V::Commitment> as Write>⟧.encoded
        (spelled_finalization V.Commitment.encoded S.Certificate.encoded)
        (IsShortFinalization S.Certificate.encoded (S.max_size participants))
        (spelled_notarization V.Commitment.encoded S.Certificate.encoded)
        (IsShortNotarization S.Certificate.encoded (S.max_size participants))
        V.ApplicationBlock.encoded V.commits V.made
        (λ a. V.ApplicationBlock.in_grammar cfg.now (V.ApplicationBlock.encoded a)) n) }
    ensures buffered { IfOk result (λ n. V.buffer_size participants (V.ApplicationBlock.max_size cfg.now) ≤ n) }
{
    let application = V::ApplicationBlock::max_encode_size(cfg);
    let backfill = max_backfill_size::<V, S>(participants, application as u64)?;
    let buffer = V::max_buffer_payload_size(participants, application) as u64;
    Ok(backfill.max(buffer))
}

// The most bytes of a request or an answer, by those of a key, of a certificate with its proposal, of a block in an
// answer and of an application block.
fn backfill_size(key: u64, signed: u64, block: u64, application: u64) -> Result<u64, TooLarge>
    requires { key < 2 ^ 63 }
    ensures formula { IfOk result (λ n. n ≡ longest_backfill key (longest_value signed block application)) }
    ensures fits { IfOk result (λ n. longest_value signed block application ≤ value_limit) }
    ensures too_large { IfErr result (λ e. IsTooLong (longest_value signed block application) e.0) }
{
    let notarized = signed.saturating_add(block);
    let finalized = signed.saturating_add(application);
    let value = block.max(notarized.max(finalized));
    if VALUE_LIMIT < value {
        return Err(TooLarge(value));
    }
    Ok((REQUEST_OVERHEAD + key).max(ANSWER_OVERHEAD + value))
}
