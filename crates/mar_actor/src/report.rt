//! Finalizations that consensus reports.
ghost use Rattle.std.specs.Prelude.{◌≡◌, ◌∷◌, [], List, None, OnOk, Option, map, true};
ghost use Rattle.mar_cert.specs.Finalization.{finalization_bytes};
ghost use Rattle.mar_key.specs.Keys.{Call};
ghost use Rattle.mar_store.specs.Sizes.{IsSmall};
ghost use Rattle.mar_model.specs.Answers.{Sent, TicketAnswer};
ghost use Rattle.mar_model.specs.Event.{message_told};
ghost use Rattle.mar_model.specs.Held.{Held};
ghost use Rattle.mar_model.specs.Messages.{report_finalization};
ghost use Rattle.mar_model.specs.Moves.{found_at_hand, lacks_finalization};
ghost use Rattle.mar_model.specs.Promise.{heard_with};
ghost use Rattle.mar_model.specs.SmallEntries.{AreSmallEntries};
ghost use Rattle.mar_model.specs.Stored.{AreSmall};
ghost use Rattle.mar_model.specs.Views.{fault_of};
ghost use Rattle.mar_model.specs.Writing.{IsOrdered};
ghost use Rattle.mar_model.specs.Acts.{says, start_sync, store as stored, stores as store_act, tell as tell_act};
ghost use Rattle.mar_model.specs.Plans.{DoesEvent, at_hand_plan, late_plan, note_plan, store_plan};
ghost use Rattle.mar_model.specs.Ran.{Does, does, repairs};
ghost use Rattle.mar_model.specs.Scene.{Standing, Window as PlainWindow, scene};
ghost use Rattle.mar_repair.specs.Walk.{at_tip};

use crate::filling::fill_gaps;
use crate::life::Window;
use crate::reporter::Reporter;
use crate::telling::tell;
use mar_block::{Buffer, Variant};
use mar_cert::{AsFinalization, CommitsTo};
use mar_key::Resolver;
use mar_model::{Fault, Holds, HoldsGaps, block_at_hand};
use mar_rules::{is_above, note_round, put, put_late, request, start};
use mar_types::{Height, Round};
use std::alloc::Global;

/// Caches a reported finalization before anything else. Its block is stored where it is at hand above the processed height, gaps are
/// filled, and a sync started that covers all of that; at or below that height the round is witnessed. Where the block isn't at hand it is requested.
pub(crate) fn report_finalization<V, S, B, R, A>(
    alloc: Global,
    stores: &mut S,
    window: &mut Window,
    finalization: &S::Finalization,
    buffer: &B,
    resolver: &mut R,
    application: &mut A,
) -> Result<(), Fault<V::Commitment>>
where
    V: Variant,
    S: HoldsGaps<V>,
    B: Buffer<V>,
    R: Resolver<V::Commitment>,
    A: Reporter<V>,
    requires intact { (S.held stores.old).intact ≡ true }
    requires small { IsSmall (finalization_bytes (S.Finalization.plain finalization.now)) }
    requires small_buffer { AreSmall (B.blocks buffer.now) }
    requires small_held { AreSmall (map (λ x. x.value) (S.held stores.old).blocks.held) }
    requires ordered { IsOrdered (S.held stores.old).writes }
    ensures runs { (standing : Standing) (sends : Option (List Sent)) (answers : List TicketAnswer)
        → DoesEvent V.inner (fault_of V.Commitment.bytes) (B.blocks buffer.now)
        (message_told None (report_finalization (S.Finalization.plain finalization.now)))
        (scene (S.held stores.old) window.old standing (heard_with (A.told application.old) (R.told resolver.old) sends answers))
        (scene (S.held stores.new) window.new standing (heard_with (A.told application.new) (R.told resolver.new) sends answers)) result }
{
    stores.cache_finalization(finalization)?;
    stores.law();
    take_cached::<V, S, B, R, A>(
        alloc,
        stores,
        window,
        finalization,
        buffer,
        resolver,
        application,
    )
}

/// Takes a finalization that was cached: stores its block, or takes note of it, or requests it.
fn take_cached<V, S, B, R, A>(
    alloc: Global,
    stores: &mut S,
    window: &mut Window,
    finalization: &S::Finalization,
    buffer: &B,
    resolver: &mut R,
    application: &mut A,
) -> Result<(), Fault<V::Commitment>>
where
    V: Variant,
    S: HoldsGaps<V>,
    B: Buffer<V>,
    R: Resolver<V::Commitment>,
    A: Reporter<V>,
    requires intact { (S.held stores.old).intact ≡ true }
    requires small { IsSmall (finalization_bytes (S.Finalization.plain finalization.now)) }
    requires small_buffer { AreSmall (B.blocks buffer.now) }
    requires small_cached { AreSmallEntries (S.held stores.old).cache.kept.held }
    requires small_held { AreSmall (map (λ x. x.value) (S.held stores.old).blocks.held) }
    requires ordered { IsOrdered (S.held stores.old).writes }
    ensures runs { (standing : Standing) (sends : Option (List Sent)) (answers : List TicketAnswer)
        → Does V.inner (fault_of V.Commitment.bytes) (at_hand_plan (B.blocks buffer.now) (S.held stores.old) (S.Finalization.plain finalization.now)
        (found_at_hand V.inner (B.blocks buffer.now) (S.held stores.old).cache.kept.held (S.held stores.old).blocks.held
        (S.Finalization.plain finalization.now).payload))
        (scene (S.held stores.old) window.old standing (heard_with (A.told application.old) (R.told resolver.old) sends answers))
        (scene (S.held stores.new) window.new standing (heard_with (A.told application.new) (R.told resolver.new) sends answers)) result }
{
    match block_at_hand::<V, S, B>(stores, finalization.payload(), buffer)? {
        None => request::<V, S, R>(stores, finalization, resolver),
        Some(block) => {
            if is_above::<V, S>(stores, &block) {
                store_above::<V, S, B, R, A>(
                    alloc,
                    stores,
                    window,
                    finalization,
                    block,
                    buffer,
                    resolver,
                    application,
                )
            } else {
                take_note::<V, S, R, A>(stores, window, finalization, &block, resolver, application)
            }
        }
    }
}

/// Stores a block above the processed height with its finalization, fills gaps, and starts a sync that covers all of that. The
/// block is handed over once that sync has finished.
fn store_above<V, S, B, R, A>(
    alloc: Global,
    stores: &mut S,
    window: &mut Window,
    finalization: &S::Finalization,
    block: V::Block,
    buffer: &B,
    resolver: &mut R,
    application: &mut A,
) -> Result<(), Fault<V::Commitment>>
where
    V: Variant,
    S: HoldsGaps<V>,
    B: Buffer<V>,
    R: Resolver<V::Commitment>,
    A: Reporter<V>,
    requires small { IsSmall (finalization_bytes (S.Finalization.plain finalization.now)) }
    requires small_block { IsSmall (V.plain block).encoded }
    requires small_buffer { AreSmall (B.blocks buffer.now) }
    requires intact { (S.held stores.old).intact ≡ true }
    requires ordered { IsOrdered (S.held stores.old).writes }
    ensures runs { (standing : Standing) (sends : Option (List Sent)) (answers : List TicketAnswer)
        → Does V.inner (fault_of V.Commitment.bytes) (store_plan (B.blocks buffer.now) (S.Finalization.plain finalization.now) (V.plain block))
        (scene (S.held stores.old) window.old standing (heard_with (A.told application.old) (R.told resolver.old) sends answers))
        (scene (S.held stores.new) window.new standing (heard_with (A.told application.new) (R.told resolver.new) sends answers)) result }
{
    let height = V::height(&block);
    if height.get() == u64::MAX {
        return Err(Fault::HeightLimit(height));
    }
    put_above::<V, S, A>(stores, window, finalization, block, application)?;
    fill_and_start::<V, S, B, R, A>(alloc, stores, window, buffer, resolver, application)
}

/// Fills gaps, and starts a sync that covers what was stored and filled in.
fn fill_and_start<V, S, B, R, A>(
    alloc: Global,
    stores: &mut S,
    window: &mut Window,
    buffer: &B,
    resolver: &mut R,
    application: &mut A,
) -> Result<(), Fault<V::Commitment>>
where
    V: Variant,
    S: HoldsGaps<V>,
    B: Buffer<V>,
    R: Resolver<V::Commitment>,
    A: Reporter<V>,
    requires intact { (S.held stores.old).intact ≡ true }
    requires small_buffer { AreSmall (B.blocks buffer.now) }
    ensures runs { (standing : Standing) (sends : Option (List Sent)) (answers : List TicketAnswer)
        → Does V.inner (fault_of V.Commitment.bytes) (repairs (B.blocks buffer.now) ∷ does (store_act start_sync) ∷ [])
        (scene (S.held stores.old) window.old standing (heard_with (A.told application.old) (R.told resolver.old) sends answers))
        (scene (S.held stores.new) window.new standing (heard_with (A.told application.new) (R.told resolver.new) sends answers)) result }
{
    fill_gaps::<V, S, B, R, A>(alloc, stores, window, buffer, resolver, application)?;
    start::<V, S>(stores)
}

/// Puts a block with its finalization above the processed height, and reports the block where it is the newest.
fn put_above<V: Variant, S: Holds<V>, A: Reporter<V>>(
    stores: &mut S,
    window: &mut Window,
    finalization: &S::Finalization,
    block: V::Block,
    application: &mut A,
) -> Result<(), Fault<V::Commitment>>
    requires small { IsSmall (finalization_bytes (S.Finalization.plain finalization.now)) }
    requires small_block { IsSmall (V.plain block).encoded }
    requires intact { (S.held stores.old).intact ≡ true }
    requires ordered { IsOrdered (S.held stores.old).writes }
    ensures runs { (standing : Standing) (asks : Option (List Call)) (sends : Option (List Sent)) (answers : List TicketAnswer)
        → Does V.inner (fault_of V.Commitment.bytes) (does (store_act (stored (S.Finalization.plain finalization.now) (V.plain block)))
        ∷ does (says (tell_act (S.Finalization.plain finalization.now).round (V.plain block).height (V.plain block).digest)) ∷ [])
        (scene (S.held stores.old) window.old standing (heard_with (A.told application.old) asks sends answers))
        (scene (S.held stores.new) window.new standing (heard_with (A.told application.new) asks sends answers)) result }
    ensures whole { OnOk result ((S.held stores.new).intact ≡ true) }
{
    let height = V::height(&block);
    let digest = V::digest(&block);
    put::<V, S>(stores, finalization, block)?;
    report_tip::<V, A>(window, finalization.round(), height, digest, application)
}

/// Reports a finalized block as the tip where it is above the last one reported.
pub(crate) fn report_tip<V: Variant, A: Reporter<V>>(
    window: &mut Window,
    round: Round,
    height: Height,
    digest: V::Digest,
    application: &mut A,
) -> Result<(), Fault<V::Commitment>>
    ensures runs { (held : Held) (standing : Standing) (asks : Option (List Call)) (sends : Option (List Sent)) (answers : List TicketAnswer)
        → Does V.inner (fault_of V.Commitment.bytes) (does (says (tell_act round height (V.Digest.bytes digest))) ∷ [])
        (scene held window.old standing (heard_with (A.told application.old) asks sends answers))
        (scene held window.new standing (heard_with (A.told application.new) asks sends answers)) result }
{
    tell_tip::<V, A>(&mut window.tip, round, height, digest, application)
}

/// Reports a finalized block as the tip where it is above that one.
fn tell_tip<V: Variant, A: Reporter<V>>(
    tip: &mut Height,
    round: Round,
    height: Height,
    digest: V::Digest,
    application: &mut A,
) -> Result<(), Fault<V::Commitment>>
    ensures runs { (held : Held) (life : PlainWindow) (standing : Standing) (asks : Option (List Call))
        (sends : Option (List Sent)) (answers : List TicketAnswer)
        → Does V.inner (fault_of V.Commitment.bytes) (does (says (tell_act round height (V.Digest.bytes digest))) ∷ [])
        (at_tip held life tip.old standing (heard_with (A.told application.old) asks sends answers))
        (at_tip held life tip.new standing (heard_with (A.told application.new) asks sends answers)) result }
{
    match tell::<V, A>(tip, round, height, digest, application) {
        Ok(()) => Ok(()),
        Err(_) => Err(Fault::Memory),
    }
}

/// Takes note of a finalized block at or below the processed height: its round is witnessed, and its finalization stored
/// where it is missing.
fn take_note<V, S, R, A>(
    stores: &mut S,
    window: &mut Window,
    finalization: &S::Finalization,
    block: &V::Block,
    resolver: &mut R,
    application: &mut A,
) -> Result<(), Fault<V::Commitment>>
where
    V: Variant,
    S: Holds<V>,
    R: Resolver<V::Commitment>,
    A: Reporter<V>,
    requires intact { (S.held stores.old).intact ≡ true }
    requires small { IsSmall (finalization_bytes (S.Finalization.plain finalization.now)) }
    ensures runs { (standing : Standing) (sends : Option (List Sent)) (answers : List TicketAnswer)
        → Does V.inner (fault_of V.Commitment.bytes) (note_plan (S.held stores.old) (S.Finalization.plain finalization.now) (V.plain block.now))
        (scene (S.held stores.old) window.old standing (heard_with (A.told application.old) (R.told resolver.old) sends answers))
        (scene (S.held stores.new) window.new standing (heard_with (A.told application.new) (R.told resolver.new) sends answers)) result }
{
    note_round::<V, S, R>(stores, finalization.round(), window.retention(), resolver)?;
    late::<V, S, A>(stores, window, finalization, block, application)
}

/// Stores the missing finalization of a held block, makes it durable, and reports the block where it is the newest.
fn late<V: Variant, S: Holds<V>, A: Reporter<V>>(
    stores: &mut S,
    window: &mut Window,
    finalization: &S::Finalization,
    block: &V::Block,
    application: &mut A,
) -> Result<(), Fault<V::Commitment>>
    requires small { IsSmall (finalization_bytes (S.Finalization.plain finalization.now)) }
    requires intact { (S.held stores.old).intact ≡ true }
    ensures runs { (standing : Standing) (asks : Option (List Call)) (sends : Option (List Sent)) (answers : List TicketAnswer)
        → Does V.inner (fault_of V.Commitment.bytes) (late_plan (lacks_finalization (S.held stores.old) (V.plain block.now))
        (S.Finalization.plain finalization.now) (V.plain block.now))
        (scene (S.held stores.old) window.old standing (heard_with (A.told application.old) asks sends answers))
        (scene (S.held stores.new) window.new standing (heard_with (A.told application.new) asks sends answers)) result }
{
    if !put_late::<V, S>(stores, finalization, block)? {
        return Ok(());
    }
    let height = V::height(block);
    let digest = V::digest(block);
    report_tip::<V, A>(window, finalization.round(), height, digest, application)
}
