//! Acknowledgements that are given or dropped, and what they let go.
ghost use Rattle.std.specs.Prelude.{◌≡◌, IfOk, List, OnOk, Option, is_some, true};
ghost use Rattle.mar_key.specs.Keys.{Call};
ghost use Rattle.mar_model.specs.Acks.{after_oldest, dropped_oldest, given_oldest, with_mark};
ghost use Rattle.mar_parts.specs.Views.{dropped_of, given_of, mark_of};
ghost use Rattle.mar_model.specs.Answers.{Sent, TicketAnswer};
ghost use Rattle.mar_model.specs.Plans.{ack_plan, drain_plan, next_plan, settle_plan};
ghost use Rattle.mar_model.specs.Promise.{heard_with};
ghost use Rattle.mar_model.specs.Ran.{Does};
ghost use Rattle.mar_model.specs.Scene.{Standing, in_epochs, scene};
ghost use Rattle.mar_model.specs.Step.{Report};
ghost use Rattle.mar_model.specs.Views.{fault_of};

use crate::dispatch::dispatch;
use crate::life::Window;
use crate::reporter::Reporter;
use mar_block::Variant;
use mar_key::Resolver;
use mar_model::{Fault, Holds};
use mar_parts::{Mark, Oldest};
use mar_rules::process;
use mar_types::Epocher;

/// Marks a block as acknowledged, or its acknowledgement as dropped. Where the oldest ones are given, they are processed
/// together: one sync of the metadata, then the next blocks are handed over. A dropped one behind them ends the life
/// before that sync, so that the processed height that it leaves is the one before.
pub(crate) fn acknowledge<V, S, E, R, A>(
    stores: &mut S,
    window: &mut Window,
    epocher: &E,
    ticket: u64,
    mark: Mark,
    resolver: &mut R,
    application: &mut A,
) -> Result<(), Fault<V::Commitment>>
where
    V: Variant,
    S: Holds<V>,
    E: Epocher,
    R: Resolver<V::Commitment>,
    A: Reporter<V>,
    requires intact { (S.held stores.old).intact ≡ true }
    ensures runs { (standing : Standing) (sends : Option (List Sent)) (answers : List TicketAnswer)
        → Does V.inner (fault_of V.Commitment.bytes) (ack_plan window.old.out ticket (mark_of mark))
        (scene (S.held stores.old) window.old (in_epochs (E.epochs epocher.now) standing)
        (heard_with (A.told application.old) (R.told resolver.old) sends answers))
        (scene (S.held stores.new) window.new (in_epochs (E.epochs epocher.now) standing)
        (heard_with (A.told application.new) (R.told resolver.new) sends answers)) result }
{
    set_mark(window, ticket, mark);
    match drain::<V, S, E, R>(stores, window, epocher, resolver) {
        Ok(true) => settle::<V, S, A>(stores, window, application),
        Ok(false) => Ok(()),
        Err(fault) => Err(fault),
    }
}

/// Marks the block of that ticket, where it has no mark yet.
fn set_mark(window: &mut Window, ticket: u64, mark: Mark)
    ensures { window.new ≡ record window.old { out = with_mark ticket (mark_of mark) window.old.out } }
{
    window.acks.mark(ticket, mark);
}

/// Makes durable what was processed, and hands over the next blocks.
fn settle<V, S, A>(
    stores: &mut S,
    window: &mut Window,
    application: &mut A,
) -> Result<(), Fault<V::Commitment>>
where
    V: Variant,
    S: Holds<V>,
    A: Reporter<V>,
    requires intact { (S.held stores.old).intact ≡ true }
    ensures runs { (standing : Standing) (asks : Option (List Call)) (sends : Option (List Sent)) (answers : List TicketAnswer)
        → Does V.inner (fault_of V.Commitment.bytes) (settle_plan true)
        (scene (S.held stores.old) window.old standing (heard_with (A.told application.old) asks sends answers))
        (scene (S.held stores.new) window.new standing (heard_with (A.told application.new) asks sends answers)) result }
{
    let synced = stores.sync_metadata();
    stores.law();
    match synced {
        Ok(()) => dispatch::<V, S, A>(stores, window, application),
        Err(fault) => Err(fault),
    }
}

/// Processes the acknowledged blocks at the front, and says whether there were any. A dropped one behind them ends the
/// life.
fn drain<V, S, E, R>(
    stores: &mut S,
    window: &mut Window,
    epocher: &E,
    resolver: &mut R,
) -> Result<bool, Fault<V::Commitment>>
where
    V: Variant,
    S: Holds<V>,
    E: Epocher,
    R: Resolver<V::Commitment>,
    requires intact { (S.held stores.old).intact ≡ true }
    ensures drained { IfOk result (λ r. r ≡ is_some (given_oldest window.old.out)) }
    ensures whole { OnOk result ((S.held stores.new).intact ≡ true) }
    ensures runs { (standing : Standing) (told : Option (List Report)) (sends : Option (List Sent)) (answers : List TicketAnswer)
        → Does V.inner (fault_of V.Commitment.bytes) (drain_plan window.old.out)
        (scene (S.held stores.old) window.old (in_epochs (E.epochs epocher.now) standing) (heard_with told (R.told resolver.old) sends answers))
        (scene (S.held stores.new) window.new (in_epochs (E.epochs epocher.now) standing) (heard_with told (R.told resolver.new) sends answers))
        result }
{
    let mut is_drained = false;
    'entries: for _drained in 0..window.acks.len() {
        match drain_next::<V, S, E, R>(stores, window, epocher, resolver) {
            Ok(true) => is_drained = true,
            Ok(false) => return Ok(is_drained),
            Err(fault) => return Err(fault),
        }
    }
    Ok(is_drained)
}

/// Processes the oldest block where it is acknowledged, and says whether it was. Where it is dropped the life ends.
fn drain_next<V, S, E, R>(
    stores: &mut S,
    window: &mut Window,
    epocher: &E,
    resolver: &mut R,
) -> Result<bool, Fault<V::Commitment>>
where
    V: Variant,
    S: Holds<V>,
    E: Epocher,
    R: Resolver<V::Commitment>,
    requires intact { (S.held stores.old).intact ≡ true }
    ensures drained { IfOk result (λ r. r ≡ is_some (given_oldest window.old.out)) }
    ensures left { OnOk result (window.new.out ≡ after_oldest window.old.out) }
    ensures whole { OnOk result ((S.held stores.new).intact ≡ true) }
    ensures runs { (standing : Standing) (told : Option (List Report)) (sends : Option (List Sent)) (answers : List TicketAnswer)
        → Does V.inner (fault_of V.Commitment.bytes) (next_plan window.old.out)
        (scene (S.held stores.old) window.old (in_epochs (E.epochs epocher.now) standing) (heard_with told (R.told resolver.old) sends answers))
        (scene (S.held stores.new) window.new (in_epochs (E.epochs epocher.now) standing) (heard_with told (R.told resolver.new) sends answers))
        result }
{
    let height = match pop(window) {
        Oldest::Given(ack) => ack.height,
        Oldest::Unresolved => return Ok(false),
        Oldest::Dropped(ack) => return Err(Fault::AckDropped(ack.height)),
    };
    let processed = process::<V, S, E, R>(stores, epocher, height, window.retention(), resolver);
    stores.law();
    match processed {
        Ok(()) => Ok(true),
        Err(fault) => Err(fault),
    }
}

/// Takes the oldest block out where it is acknowledged.
fn pop(window: &mut Window) -> Oldest
    ensures given { given_of result ≡ given_oldest window.old.out }
    ensures dropped { dropped_of result ≡ dropped_oldest window.old.out }
    ensures popped { window.new ≡ record window.old { out = after_oldest window.old.out } }
{
    window.acks.pop_ready()
}
