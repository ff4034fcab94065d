//! Handing blocks over in height order.
ghost use Rattle.std.specs.Prelude.{Option, ◌≡◌, ◌<◌, ◌≤◌, ◌-◌, ◌^◌, ◌⊎◌, ◌∷◌, [], IfErr, IfNone, IfOk, IfSome, List, OnErr, OnOk, length, true};
ghost use Rattle.mar_key.specs.Hears.{Hears};
ghost use Rattle.mar_key.specs.Keys.{Call};
ghost use Rattle.mar_key.specs.Processed.{first_unprocessed};
ghost use Rattle.mar_model.specs.Answers.{Sent, TicketAnswer};
ghost use Rattle.mar_model.specs.Faults.{ack_kind, last_height, ticket_limit, want_of_memory};
ghost use Rattle.mar_model.specs.Held.{GoesOn, Held, IsArchiveFault, nothing_written};
ghost use Rattle.mar_model.specs.Moves.{IsNext, IsStill, next_in, with_handed};
ghost use Rattle.mar_model.specs.Promise.{heard_with};
ghost use Rattle.mar_model.specs.Ran.{Does, dispatches};
ghost use Rattle.mar_model.specs.Scene.{Standing, scene, windowed};
ghost use Rattle.mar_model.specs.Step.{handed_over};
ghost use Rattle.mar_model.specs.Views.{fault_of};

use crate::life::Window;
use crate::reporter::{Exact, Reporter, Update};
use mar_block::Variant;
use mar_model::{Fault, Holds, TicketKind};
use mar_rules::take_ready;
use mar_types::Height;

/// Hands over the next blocks until the window is full, a write bars the next block or it isn't held.
pub(crate) fn dispatch<V, S, A>(
    stores: &mut S,
    window: &mut Window,
    application: &mut A,
) -> Result<(), Fault<V::Commitment>>
where
    V: Variant,
    S: Holds<V>,
    A: Reporter<V>,
    requires intact { (S.held stores.old).intact ≡ true }
    ensures runs { (standing : Standing) (asks : Option (List Call)) (sends : Option (List Sent)) (answers : List TicketAnswer)
        → Does V.inner (fault_of V.Commitment.bytes) (dispatches ∷ [])
        (scene (S.held stores.old) window.old standing (heard_with (A.told application.old) asks sends answers))
        (scene (S.held stores.new) window.new standing (heard_with (A.told application.new) asks sends answers)) result }
{
    stores.law();
    'handing: for _handed in 0..window.acks.capacity() {
        match next_block::<V, S>(stores, window) {
            Ok(Some(block)) => match hand_over::<V, A>(window, block, application) {
                Ok(()) => {}
                Err(fault) => return Err(fault),
            },
            Ok(None) => return Ok(()),
            Err(fault) => return Err(fault),
        }
    }
    Ok(())
}

/// The next block to hand over, where there is room for one, no write bars it and it is held.
fn next_block<V: Variant, S: Holds<V>>(
    stores: &mut S,
    window: &Window,
) -> Result<Option<V::Block>, Fault<V::Commitment>>
    ensures same { OnOk result (S.held stores.new ≡ record (S.held stores.old) { watches = (S.held stores.new).watches }) }
    ensures found { IfOk result (λ r. IfSome r (λ b. IsNext (windowed (S.held stores.old) window.now) (V.plain b))) }
    ensures none { IfOk result (λ r. IfNone r (IsStill (windowed (S.held stores.old) window.now))) }
    ensures goes_on { GoesOn (fault_of V.Commitment.bytes) (S.held stores.old) nothing_written (S.held stores.new) result }
    ensures archive { IfErr result (λ e. IsArchiveFault (fault_of V.Commitment.bytes e)) }
{
    match next_height::<V, S>(stores, window) {
        None => Ok(None),
        Some(height) => take_ready::<V, S>(stores, height),
    }
}

/// The height of the next block, where there is room for one.
fn next_height<V: Variant, S: Holds<V>>(stores: &S, window: &Window) -> Option<Height>
    ensures found { IfSome result (λ h. (length window.now.out < window.now.sizes.window) × (h ≡ next_in (windowed (S.held stores.now) window.now))) }
    ensures none { IfNone result ((window.now.sizes.window ≤ length window.now.out) ⊎ (2 ^ 64 ≤ first_unprocessed (S.held stores.now).processed)) }
{
    if !window.acks.has_capacity() {
        return None;
    }
    let first = stores.floor().first_unprocessed()?;
    Some(window.acks.next_dispatch_height(first))
}

/// Hands over a block under a new ticket.
fn hand_over<V: Variant, A: Reporter<V>>(
    window: &mut Window,
    block: V::Block,
    application: &mut A,
) -> Result<(), Fault<V::Commitment>>
    requires room { length window.old.out < window.old.sizes.window }
    requires below { (V.plain block).height < last_height }
    ensures ok { OnOk result (Hears (A.told application.old) (handed_over window.old.next_ack (V.plain block) ∷ []) (A.told application.new)) }
    ensures err { OnErr result (Hears (A.told application.old) [] (A.told application.new)) }
    ensures same { OnOk result ((held : Held) → windowed held window.new
        ≡ with_handed (windowed held window.old) (record { ticket = window.old.next_ack; block = V.plain block } ∷ [])) }
    ensures kind { IfErr result (λ e. (fault_of V.Commitment.bytes e ≡ want_of_memory)
        ⊎ ((fault_of V.Commitment.bytes e ≡ ticket_limit ack_kind) × (window.old.next_ack ≡ 2 ^ 64 - 1))) }
{
    let height = V::height(&block);
    let ticket = window.next_ack;
    if ticket == u64::MAX {
        return Err(Fault::TicketLimit(TicketKind::Ack));
    }
    if application
        .report(Update::Block(block, Exact::handle(ticket)))
        .is_err()
    {
        return Err(Fault::Memory);
    }
    window.acks.enqueue(ticket, height);
    window.next_ack = ticket + 1;
    Ok(())
}
