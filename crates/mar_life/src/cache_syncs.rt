//! The open syncs of the cache of a life.
ghost use Rattle.std.specs.Prelude.{◌≡◌, ◌-◌, ◌<◌, ◌^◌, ◌++◌, ◌∷◌, ◌==◌, [], IfErr, IfOk, OnErr, OnOk, filter, not};
ghost use Rattle.mar_model.specs.CacheCalls.{none_goes};
ghost use Rattle.mar_model.specs.Held.{Passes};
ghost use Rattle.mar_model.specs.OpenSyncs.{covered_by, syncs_by};
ghost use Rattle.mar_model.specs.Pool.{pool_ticketed, writing_of};
ghost use Rattle.mar_model.specs.Views.{fault_of};
ghost use Rattle.mar_life.specs.Caching.{FailsCache, FinishesInLife};
ghost use Rattle.mar_life.specs.Pooling.{OwnNumbers};

use crate::LifeCache;
use mar_block::Variant;
use mar_cert::CommitsTo;
use mar_model::{CacheTicket, Fault, OpenTicket, OpenTickets, Writes};
use std::alloc::AllocError;

/// Takes in a sync that was started, under the next ticket, which no sync of both archives has then. Where memory runs out
/// nothing changes.
pub fn open(
    syncs: &mut OpenTickets,
    writes: &mut Writes,
    sync: CacheTicket,
    answer: Option<u64>,
) -> Result<u64, AllocError>
    requires ticket { writes.old.next_sync < 2 ^ 64 - 1 }
    requires own { OwnNumbers (writing_of writes.old) syncs.old }
    ensures own { OwnNumbers (writing_of writes.new) syncs.new }
    ensures number { IfOk result (λ t. t ≡ writes.old.next_sync) }
    ensures opened { OnOk result (syncs.new ≡ syncs.old ++ record { number = writes.old.next_sync; sync = sync; answer = answer } ∷ []) }
    ensures ticketed { OnOk result (writes.new ≡ pool_ticketed writes.old) }
    ensures err { OnErr result ((syncs.new ≡ syncs.old) × (writes.new ≡ writes.old)) }
{
    writes.law();
    let ticket = OpenTicket {
        number: writes.next_ticket(),
        sync,
        answer,
    };
    if let Err(error) = syncs.open(ticket) {
        return Err(error);
    }
    Ok(writes.take_ticket())
}

/// Finishes the sync of a ticket, which is then open no longer. Where it isn't open nothing changes, and the cache isn't
/// asked.
pub fn finish<V: Variant, F: CommitsTo<V::Commitment>, H: LifeCache<V, F>>(
    cache: &mut H,
    syncs: &mut OpenTickets,
    ticket: u64,
) -> Result<(), Fault<V::Commitment>>
    ensures done { OnOk result (FinishesInLife (covered_by ticket (syncs_by (H.covers cache.old) syncs.old)) (H.held cache.old) (H.held cache.new)
        (H.covers cache.old) (H.covers cache.new)) }
    ensures stays { OnOk result ((H.lowest cache.new ≡ H.lowest cache.old) × (H.lowests cache.new ≡ H.lowests cache.old)
        × (H.intact cache.new ≡ H.intact cache.old)) }
    ensures closed { OnOk result (syncs.new ≡ filter (λ o. not (o.number == ticket)) syncs.old) }
    ensures unclosed { OnErr result (syncs.new ≡ syncs.old) }
    ensures passed { OnOk result (Passes (H.watch cache.old) (H.watch cache.new)) }
    ensures failed { IfErr result (λ e. FailsCache [] none_goes (H.held cache.old).kept (H.lowests cache.old) (H.watch cache.old)
        (H.held cache.new).kept (H.lowests cache.new) (H.watch cache.new) (fault_of V.Commitment.bytes e)) }
{
    let Some(open) = syncs.find(ticket) else {
        return Ok(());
    };
    cache.finish_sync(open.sync)?;
    syncs.close(ticket);
    Ok(())
}
