//! How blocks are kept in the cache for callers, each with a sync that is to make it sure. A call that fails ends the life.
ghost use Rattle.std.specs.Prelude.{◌≡◌, ◌∷◌, [], IfErr, IfOk, OnOk, Some, true};
ghost use Rattle.mar_store.specs.Sizes.{IsSmall};
ghost use Rattle.mar_model.specs.Cache.{certified_covers, is_verified_of, notarized_where};
ghost use Rattle.mar_model.specs.Cached.{notarized_entry, verified_entry};
ghost use Rattle.mar_model.specs.Acts.{IsKeepFault};
ghost use Rattle.mar_model.specs.Held.{GoesOn, IsUsual, nothing_written, written_entry};
ghost use Rattle.mar_model.specs.Moves.{KeepsFor, is_verified_in};
ghost use Rattle.mar_model.specs.Views.{fault_of};
ghost use Rattle.mar_rules.specs.Keeping.{IsUntaken, PutsCertified, joined_of, opened_for, ticket_for};

use mar_cert::Variant;
use mar_model::{Fault, Holds, Started, TicketKind};
use mar_types::Round;

/// Keeps a block that was verified in a round, and starts a sync of the verified blocks of its epoch. It gives the ticket of
/// that sync, which the holder of `answer` waits for, or `None` where there is nothing to wait for, since that epoch is below
/// the lowest. Where no ticket is left for that sync the life ends behind the put.
pub fn keep_verified<V: Variant, S: Holds<V>>(
    stores: &mut S,
    round: Round,
    block: V::Block,
    answer: u64,
) -> Result<Option<u64>, Fault<V::Commitment>>
    requires small { IsSmall (V.plain block).encoded }
    ensures keeps { IfOk result (λ t. KeepsFor round.epoch (verified_entry round (V.plain block) ∷ []) (is_verified_of round.epoch) (Some answer) t
        (S.held stores.old) (S.held stores.new)) }
    ensures goes_on { GoesOn (fault_of V.Commitment.bytes) (S.held stores.old) (written_entry (verified_entry round (V.plain block))) (S.held stores.new)
        result }
    ensures kind { IfErr result (λ e. IsKeepFault round.epoch (S.held stores.old) (fault_of V.Commitment.bytes e)) }
{
    match stores.put_verified(round, block) {
        Ok(started) => open_started(stores, started, Some(answer)),
        Err(fault) => Err(fault),
    }
}

/// Keeps a block that was certified in a round, and starts a sync of its archive and of the notarizations of its epoch as one.
/// A block that was verified in that round stays there, any other is kept as notarized. It gives the ticket of that sync,
/// which the holder of `answer` waits for, or `None` where there is nothing to wait for, since that epoch is below the lowest.
/// Where no ticket is left for that sync the life ends behind the put.
pub fn keep_certified<V: Variant, S: Holds<V>>(
    stores: &mut S,
    round: Round,
    block: V::Block,
    answer: u64,
) -> Result<Option<u64>, Fault<V::Commitment>>
    requires intact { (S.held stores.old).intact ≡ true }
    requires small { IsSmall (V.plain block).encoded }
    ensures keeps { IfOk result (λ t. KeepsFor round.epoch (notarized_where (is_verified_in (S.held stores.old) round (V.plain block)) round (V.plain block))
        (certified_covers round.epoch (is_verified_in (S.held stores.old) round (V.plain block))) (Some answer) t
        (S.held stores.old) (S.held stores.new)) }
    ensures goes_on { GoesOn (fault_of V.Commitment.bytes) (S.held stores.old) (written_entry (notarized_entry round (V.plain block))) (S.held stores.new)
        result }
    ensures kind { IfErr result (λ e. IsKeepFault round.epoch (S.held stores.old) (fault_of V.Commitment.bytes e)) }
{
    let started = match put_certified(stores, round, block) {
        Ok(started) => started,
        Err(fault) => return Err(fault),
    };
    match stores.start_sync_notarizations(round.epoch()) {
        Ok(others) => {
            stores.law();
            open_started(stores, joined(started, others), Some(answer))
        }
        Err(fault) => Err(fault),
    }
}

// Puts a certified block as notarized, unless it was verified in that round, and starts a sync of its archive.
fn put_certified<V: Variant, S: Holds<V>>(
    stores: &mut S,
    round: Round,
    block: V::Block,
) -> Result<Started, Fault<V::Commitment>>
    requires intact { (S.held stores.old).intact ≡ true }
    requires small { IsSmall (V.plain block).encoded }
    ensures puts { IfOk result (λ s. PutsCertified round (V.plain block) s (S.held stores.old) (S.held stores.new) (S.covers stores.old)
        (S.covers stores.new)) }
    ensures goes_on { GoesOn (fault_of V.Commitment.bytes) (S.held stores.old) (written_entry (notarized_entry round (V.plain block))) (S.held stores.new)
        result }
    ensures usual { IfErr result (λ e. IsUsual (fault_of V.Commitment.bytes e)) }
{
    stores.law();
    match stores.has_verified(round, V::digest(&block)) {
        Ok(true) => stores.start_sync_verified(round.epoch()),
        Ok(false) => stores.put_notarized(round, block),
        Err(fault) => Err(fault),
    }
}

// The sync of a block's archive, and that of others of its epoch where there are any, as one.
fn joined(block: Started, others: Started) -> Started
    ensures { result ≡ joined_of block others }
{
    match (block, others) {
        (Started::Ticket(block), Started::Ticket(others)) => Started::Ticket(block.join(others)),
        (block, _) => block,
    }
}

/// Takes in a sync that was started, where one was. Whom it answers as it has finished is given. Where none was started
/// no ticket is needed.
pub(crate) fn open_started<V: Variant, S: Holds<V>>(
    stores: &mut S,
    started: Started,
    answer: Option<u64>,
) -> Result<Option<u64>, Fault<V::Commitment>>
    ensures opened { OnOk result (S.held stores.new ≡ opened_for (S.covers stores.old) started answer (S.held stores.old)) }
    ensures ticket { IfOk result (λ t. t ≡ ticket_for started (S.held stores.old)) }
    ensures goes_on { GoesOn (fault_of V.Commitment.bytes) (S.held stores.old) nothing_written (S.held stores.new) result }
    ensures kind { IfErr result (λ e. IsUntaken started (S.held stores.old) (fault_of V.Commitment.bytes e)) }
{
    match started {
        Started::Ready => Ok(None),
        Started::Ticket(_) if !stores.writes().has_ticket() => {
            Err(Fault::TicketLimit(TicketKind::Sync))
        }
        Started::Ticket(sync) => match stores.open_cache_sync(sync, answer) {
            Ok(ticket) => Ok(Some(ticket)),
            Err(_) => Err(Fault::Memory),
        },
    }
}
