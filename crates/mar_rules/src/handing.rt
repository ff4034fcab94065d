//! What may be handed over: the block of a height, and what a finished sync lets go. A call that fails ends the life.
ghost use Rattle.std.specs.List.{AllByRecursion};
ghost use Rattle.std.specs.Prelude.{◌≡◌, ◌<◌, ◌≤◌, ◌⊎◌, ℕ, Contains, IfErr, IfNone, IfOk, IfSome, OnOk, false, true};
ghost use Rattle.mar_model.specs.Faults.{last_height};
ghost use Rattle.mar_model.specs.Held.{GoesOn, IsArchiveFault, nothing_written};
ghost use Rattle.mar_model.specs.Plans.{let_go_plan};
ghost use Rattle.mar_model.specs.Promise.{Heard};
ghost use Rattle.mar_model.specs.Ran.{Does};
ghost use Rattle.mar_model.specs.Scene.{Standing, Window, scene};
ghost use Rattle.mar_model.specs.Views.{fault_of};
ghost use Rattle.mar_model.specs.Writing.{is_open_sync};
ghost use Rattle.mar_rules.specs.Next.{IsReady, IsUnready};

use mar_cert::Variant;
use mar_model::{Fault, Holds, Writes};
use mar_types::Height;

/// Takes the block of a height, where it is below the last height, no write bars it and it is held.
pub fn take_ready<V: Variant, S: Holds<V>>(
    stores: &mut S,
    height: Height,
) -> Result<Option<V::Block>, Fault<V::Commitment>>
    ensures same { OnOk result (S.held stores.new ≡ record (S.held stores.old) { watches = (S.held stores.new).watches }) }
    ensures ready { IfOk result (λ r. IfSome r (λ b. IsReady (S.held stores.old) height (V.plain b))) }
    ensures unready { IfOk result (λ r. IfNone r (IsUnready (S.held stores.old) height)) }
    ensures goes_on { GoesOn (fault_of V.Commitment.bytes) (S.held stores.old) nothing_written (S.held stores.new) result }
    ensures archive { IfErr result (λ e. IsArchiveFault (fault_of V.Commitment.bytes e)) }
{
    if is_barred(stores.writes(), height) {
        return Ok(None);
    }
    stores.take_block(height)
}

/// Whether nothing may be handed over at a height: a write at or below it isn't covered by a finished sync, or it is the
/// last height.
fn is_barred(writes: &Writes, height: Height) -> bool
    ensures barred { result ≡ true → ((k : ℕ) × Contains writes.now.uncovered k × (k ≤ height)) ⊎ (last_height ≤ height) }
    ensures free { result ≡ false → (height < last_height) × AllByRecursion (λ k. height < k) writes.now.uncovered }
{
    match writes.barrier() {
        None => height.get() == u64::MAX,
        Some(barrier) => barrier <= height || height.get() == u64::MAX,
    }
}

/// Finishes the sync of a ticket, and says whether it lets anything go: the writes that it covers. A ticket that isn't open
/// lets nothing go, and changes nothing.
pub fn let_go<V: Variant, S: Holds<V>>(
    stores: &mut S,
    ticket: u64,
) -> Result<bool, Fault<V::Commitment>>
    requires intact { (S.held stores.old).intact ≡ true }
    ensures was_open { IfOk result (λ r. r ≡ is_open_sync (S.held stores.old).writes.syncs ticket) }
    ensures closed { IfOk result (λ r. r ≡ false → S.held stores.new ≡ S.held stores.old) }
    ensures failed { IfErr result (λ e. is_open_sync (S.held stores.old).writes.syncs ticket ≡ true) }
    ensures whole { OnOk result ((S.held stores.new).intact ≡ true) }
    ensures runs { (life : Window) (standing : Standing) (heard : Heard) → Does V.inner (fault_of V.Commitment.bytes)
        (let_go_plan (is_open_sync (S.held stores.old).writes.syncs ticket) ticket)
        (scene (S.held stores.old) life standing heard) (scene (S.held stores.new) life standing heard) result }
{
    let was_open = stores.finish_sync(ticket);
    stores.law();
    was_open
}
