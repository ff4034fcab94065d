//! Syncs of both archives in their places.
ghost use Rattle.std.specs.Prelude.{◌≡◌, ◌⊎◌, ◌-◌, ◌^◌, IfErr, IfOk, OnErr, OnOk, false, true};
ghost use Rattle.mar_model.specs.Faults.{sync_kind, ticket_limit};
ghost use Rattle.mar_model.specs.Places.{is_open, kept_at};
ghost use Rattle.mar_model.specs.Pool.{syncs_of, writing_of};
ghost use Rattle.mar_model.specs.Writing.{IsOrdered, is_open_sync, with_all_covered, with_finished, with_started};
ghost use Rattle.mar_life.specs.Pooling.{AwaitsIn, FailsBoth, HoldsIn, SurerIn, of_blocks, of_certs};
ghost use Rattle.mar_model.specs.Views.{fault_of};

use crate::in_place;
use crate::keeps::Keeps;
use mar_model::{Fault, Place, StoreName, TicketKind, Writes};
use mar_types::Named;

/// Starts a sync of both archives that covers all writes, under the next ticket.
pub fn start<T, S: Keeps<T>, U, R: Keeps<U>, C: Named>(
    blocks: &mut Place<S, S::Wreck>,
    certs: &mut Place<R, R::Wreck>,
    writes: &mut Writes,
) -> Result<(), Fault<C>>
    requires blocks { AwaitsIn of_blocks S.stored S.number S.covers blocks.old writes.old }
    requires certs { AwaitsIn of_certs R.stored R.number R.covers certs.old writes.old }
    ensures blocks { AwaitsIn of_blocks S.stored S.number S.covers blocks.new writes.new }
    ensures certs { AwaitsIn of_certs R.stored R.number R.covers certs.new writes.new }
    ensures holds { HoldsIn S.stored blocks.old blocks.new }
    ensures started { OnOk result (writing_of writes.new ≡ with_started (writing_of writes.old)) }
    ensures unstarted { OnErr result (writes.new ≡ writes.old) }
    ensures same_blocks { OnOk result (kept_at S.stored S.Wreck.left blocks.new ≡ kept_at S.stored S.Wreck.left blocks.old) }
    ensures same_certs { OnOk result (kept_at R.stored R.Wreck.left certs.new ≡ kept_at R.stored R.Wreck.left certs.old) }
    ensures surer_blocks { OnOk result (SurerIn S.stored S.Wreck.left S.watch S.Wreck.watch blocks.old blocks.new) }
    ensures surer_certs { OnOk result (SurerIn R.stored R.Wreck.left R.watch R.Wreck.watch certs.old certs.new) }
    ensures failed { IfErr result (λ e. FailsBoth S.stored S.Wreck.left S.watch S.Wreck.watch R.stored R.Wreck.left R.watch R.Wreck.watch blocks.old blocks.new
        certs.old certs.new (fault_of C.bytes e)
        ⊎ (fault_of C.bytes e ≡ ticket_limit sync_kind) × (writes.old.next_sync ≡ 2 ^ 64 - 1) × (blocks.new ≡ blocks.old) × (certs.new ≡ certs.old)) }
{
    if !writes.has_ticket() {
        return Err(Fault::TicketLimit(TicketKind::Sync));
    }
    let of_blocks = in_place::start::<T, S, C>(blocks, StoreName::Blocks)?;
    let of_certs = in_place::start::<U, R, C>(certs, StoreName::Certs)?;
    if let Err(_) = writes.start(of_blocks, of_certs) {
        return Err(Fault::Memory);
    }
    Ok(())
}

/// Finishes the sync of a ticket, and says whether it was open.
pub fn finish<T, S: Keeps<T>, U, R: Keeps<U>, C: Named>(
    blocks: &mut Place<S, S::Wreck>,
    certs: &mut Place<R, R::Wreck>,
    writes: &mut Writes,
    ticket: u64,
) -> Result<bool, Fault<C>>
    requires blocks { AwaitsIn of_blocks S.stored S.number S.covers blocks.old writes.old }
    requires certs { AwaitsIn of_certs R.stored R.number R.covers certs.old writes.old }
    ensures blocks { AwaitsIn of_blocks S.stored S.number S.covers blocks.new writes.new }
    ensures certs { AwaitsIn of_certs R.stored R.number R.covers certs.new writes.new }
    ensures holds { HoldsIn S.stored blocks.old blocks.new }
    ensures ordered { IsOrdered (writing_of writes.new) }
    ensures was_open { IfOk result (λ r. r ≡ is_open_sync (syncs_of writes.old.pooled) ticket) }
    ensures finished { OnOk result (writing_of writes.new ≡ with_finished ticket (writing_of writes.old)) }
    ensures unfinished { OnErr result (writes.new ≡ writes.old) }
    ensures closed { IfOk result (λ r. r ≡ false → (blocks.new ≡ blocks.old) × (certs.new ≡ certs.old) × (writes.new ≡ writes.old)) }
    ensures surer_blocks { IfOk result (λ r. r ≡ true → SurerIn S.stored S.Wreck.left S.watch S.Wreck.watch blocks.old blocks.new) }
    ensures surer_certs { IfOk result (λ r. r ≡ true → SurerIn R.stored R.Wreck.left R.watch R.Wreck.watch certs.old certs.new) }
    ensures still_blocks { OnOk result (is_open blocks.new ≡ is_open blocks.old) }
    ensures still_certs { OnOk result (is_open certs.new ≡ is_open certs.old) }
    ensures of_open { IfErr result (λ e. is_open_sync (syncs_of writes.old.pooled) ticket ≡ true) }
    ensures failed { IfErr result (λ e. FailsBoth S.stored S.Wreck.left S.watch S.Wreck.watch R.stored R.Wreck.left R.watch R.Wreck.watch blocks.old blocks.new
        certs.old certs.new (fault_of C.bytes e)) }
{
    writes.law();
    let Some(sync) = writes.find(ticket) else {
        return Ok(false);
    };
    in_place::finish::<T, S, C>(blocks, sync.blocks, StoreName::Blocks)?;
    in_place::finish::<U, R, C>(certs, sync.certs, StoreName::Certs)?;
    writes.finish(ticket);
    writes.law();
    Ok(true)
}

/// Syncs both archives and waits for that, so that no write waits any more. The open syncs stay open.
pub fn sync_both<T, S: Keeps<T>, U, R: Keeps<U>, C: Named>(
    blocks: &mut Place<S, S::Wreck>,
    certs: &mut Place<R, R::Wreck>,
    writes: &mut Writes,
) -> Result<(), Fault<C>>
    requires blocks { AwaitsIn of_blocks S.stored S.number S.covers blocks.old writes.old }
    requires certs { AwaitsIn of_certs R.stored R.number R.covers certs.old writes.old }
    ensures blocks { AwaitsIn of_blocks S.stored S.number S.covers blocks.new writes.new }
    ensures certs { AwaitsIn of_certs R.stored R.number R.covers certs.new writes.new }
    ensures holds { HoldsIn S.stored blocks.old blocks.new }
    ensures ordered { OnOk result (IsOrdered (writing_of writes.new)) }
    ensures covered { OnOk result (writing_of writes.new ≡ with_all_covered (writing_of writes.old)) }
    ensures uncovered { OnErr result (writes.new ≡ writes.old) }
    ensures surer_blocks { OnOk result (SurerIn S.stored S.Wreck.left S.watch S.Wreck.watch blocks.old blocks.new) }
    ensures surer_certs { OnOk result (SurerIn R.stored R.Wreck.left R.watch R.Wreck.watch certs.old certs.new) }
    ensures failed { IfErr result (λ e. FailsBoth S.stored S.Wreck.left S.watch S.Wreck.watch
        R.stored R.Wreck.left R.watch R.Wreck.watch blocks.old blocks.new certs.old certs.new (fault_of C.bytes e)) }
{
    in_place::sync::<T, S, C>(blocks, StoreName::Blocks)?;
    in_place::sync::<U, R, C>(certs, StoreName::Certs)?;
    writes.clear();
    writes.law();
    Ok(())
}
