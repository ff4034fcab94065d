//! The start of a life.
ghost use Rattle.std.specs.Prelude.{◌≡◌, ◌∷◌, [], List, OnOk, Option, true};
ghost use Rattle.mar_key.specs.Keys.{Call};
ghost use Rattle.mar_model.specs.Acts.{caches, load_cache, stores as stores_act, sync_writes};
ghost use Rattle.mar_model.specs.Answers.{Sent, TicketAnswer};
ghost use Rattle.mar_model.specs.Plans.{newest_plan, start_plan};
ghost use Rattle.mar_model.specs.Promise.{Heard, heard_with};
ghost use Rattle.mar_model.specs.Ran.{Does, dispatches, does, repairs};
ghost use Rattle.mar_model.specs.Scene.{Standing, Window as PlainWindow, scene};
ghost use Rattle.mar_model.specs.Stored.{AreSmall, newest};
ghost use Rattle.mar_model.specs.Views.{fault_of};

use crate::dispatch::dispatch;
use crate::filling::fill_gaps;
use crate::life::Window;
use crate::report::report_tip;
use crate::reporter::Reporter;
use mar_block::{Buffer, Variant};
use mar_cert::{AsFinalization, CommitsTo};
use mar_key::Resolver;
use mar_model::{Fault, Holds, HoldsGaps, newest_certificate};
use std::alloc::Global;

/// Reports the newest stored finalization as the tip, takes up what a crash left of the cache, fills gaps, makes durable what that
/// stored, and hands over what may follow.
pub(crate) fn start<V, S, B, R, A>(
    alloc: Global,
    stores: &mut S,
    window: &mut Window,
    buffer: &B,
    resolver: &mut R,
    application: &mut A,
) -> Result<(), Fault<V::Commitment>>
where
    V: Variant,
    S: HoldsGaps<V>,
    B: Buffer<V>,
    R: Resolver<V::Commitment>,
    A: Reporter<V>,
    requires intact { (S.held stores.old).intact ≡ true }
    requires small_buffer { AreSmall (B.blocks buffer.now) }
    ensures runs { (standing : Standing) (sends : Option (List Sent)) (answers : List TicketAnswer)
        → Does V.inner (fault_of V.Commitment.bytes) (start_plan V.inner (B.blocks buffer.now) (S.held stores.old))
        (scene (S.held stores.old) window.old standing (heard_with (A.told application.old) (R.told resolver.old) sends answers))
        (scene (S.held stores.new) window.new standing (heard_with (A.told application.new) (R.told resolver.new) sends answers)) result }
{
    match report_newest::<V, S, A>(stores, window, application) {
        Ok(()) => {}
        Err(fault) => return Err(fault),
    }
    take_up::<V, S, B, R, A>(alloc, stores, window, buffer, resolver, application)
}

/// Takes up what a crash left of the cache, and goes on from there.
fn take_up<V, S, B, R, A>(
    alloc: Global,
    stores: &mut S,
    window: &mut Window,
    buffer: &B,
    resolver: &mut R,
    application: &mut A,
) -> Result<(), Fault<V::Commitment>>
where
    V: Variant,
    S: HoldsGaps<V>,
    B: Buffer<V>,
    R: Resolver<V::Commitment>,
    A: Reporter<V>,
    requires intact { (S.held stores.old).intact ≡ true }
    requires small_buffer { AreSmall (B.blocks buffer.now) }
    ensures runs { (standing : Standing) (sends : Option (List Sent)) (answers : List TicketAnswer)
        → Does V.inner (fault_of V.Commitment.bytes) (does (caches load_cache)
        ∷ repairs (B.blocks buffer.now) ∷ does (stores_act sync_writes) ∷ dispatches ∷ [])
        (scene (S.held stores.old) window.old standing (heard_with (A.told application.old) (R.told resolver.old) sends answers))
        (scene (S.held stores.new) window.new standing (heard_with (A.told application.new) (R.told resolver.new) sends answers)) result }
{
    let loaded = stores.load_cache();
    stores.law();
    match loaded {
        Ok(()) => fill_and_hand_over::<V, S, B, R, A>(
            alloc,
            stores,
            window,
            buffer,
            resolver,
            application,
        ),
        Err(fault) => Err(fault),
    }
}

/// Fills gaps, makes durable what that stored, and hands over what may follow.
fn fill_and_hand_over<V, S, B, R, A>(
    alloc: Global,
    stores: &mut S,
    window: &mut Window,
    buffer: &B,
    resolver: &mut R,
    application: &mut A,
) -> Result<(), Fault<V::Commitment>>
where
    V: Variant,
    S: HoldsGaps<V>,
    B: Buffer<V>,
    R: Resolver<V::Commitment>,
    A: Reporter<V>,
    requires intact { (S.held stores.old).intact ≡ true }
    requires small_buffer { AreSmall (B.blocks buffer.now) }
    ensures runs { (standing : Standing) (sends : Option (List Sent)) (answers : List TicketAnswer)
        → Does V.inner (fault_of V.Commitment.bytes) (repairs (B.blocks buffer.now) ∷ does (stores_act sync_writes) ∷ dispatches ∷ [])
        (scene (S.held stores.old) window.old standing (heard_with (A.told application.old) (R.told resolver.old) sends answers))
        (scene (S.held stores.new) window.new standing (heard_with (A.told application.new) (R.told resolver.new) sends answers)) result }
{
    match fill_gaps::<V, S, B, R, A>(alloc, stores, window, buffer, resolver, application) {
        Ok(()) => {}
        Err(fault) => return Err(fault),
    }
    match sync_filled::<V, S>(stores) {
        Ok(()) => dispatch::<V, S, A>(stores, window, application),
        Err(fault) => Err(fault),
    }
}

/// Makes durable what was filled in, where anything was: a life begins with no other write.
fn sync_filled<V: Variant, S: HoldsGaps<V>>(stores: &mut S) -> Result<(), Fault<V::Commitment>>
    requires intact { (S.held stores.old).intact ≡ true }
    ensures whole { OnOk result ((S.held stores.new).intact ≡ true) }
    ensures runs { (life : PlainWindow) (standing : Standing) (heard : Heard)
        → Does V.inner (fault_of V.Commitment.bytes) (does (stores_act sync_writes) ∷ [])
        (scene (S.held stores.old) life standing heard) (scene (S.held stores.new) life standing heard) result }
{
    stores.law();
    match stores.writes().barrier() {
        None => Ok(()),
        Some(_) => {
            let synced = stores.sync_archives();
            stores.law();
            synced
        }
    }
}

/// Reports the newest stored finalization, where there is one above the last reported tip.
fn report_newest<V: Variant, S: Holds<V>, A: Reporter<V>>(
    stores: &mut S,
    window: &mut Window,
    application: &mut A,
) -> Result<(), Fault<V::Commitment>>
    ensures runs { (standing : Standing) (asks : Option (List Call)) (sends : Option (List Sent)) (answers : List TicketAnswer)
        → Does V.inner (fault_of V.Commitment.bytes) (newest_plan V.inner (newest (S.held stores.old).certs.held))
        (scene (S.held stores.old) window.old standing (heard_with (A.told application.old) asks sends answers))
        (scene (S.held stores.new) window.new standing (heard_with (A.told application.new) asks sends answers)) result }
    ensures same { OnOk result (S.held stores.new ≡ record (S.held stores.old) { watches = (S.held stores.new).watches }) }
{
    match newest_certificate::<V, S>(stores) {
        Ok(None) => Ok(()),
        Ok(Some((height, finalization))) => {
            let digest = V::commitment_to_inner(finalization.payload());
            report_tip::<V, A>(window, finalization.round(), height, digest, application)
        }
        Err(fault) => Err(fault),
    }
}
