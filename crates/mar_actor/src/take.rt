//! What one event does: each is handed to its rule.
ghost use Rattle.std.specs.Prelude.{◌≡◌, ◌≤◌, ◌+◌, [], ℕ, IsTrue, Ok, OnErr, OnOk, false, map, true};
ghost use Rattle.mar_model.specs.SmallEntries.{AreSmallEntries};
ghost use Rattle.mar_store.specs.Changes.{IsNested};
ghost use Rattle.mar_block.specs.Sent.{Sends};
ghost use Rattle.mar_model.specs.Event.{is_query, sync_finished};
ghost use Rattle.mar_model.specs.Held.{AreCached};
ghost use Rattle.mar_model.specs.Plans.{DoesEvent};
ghost use Rattle.mar_model.specs.Scene.{Standing, in_epochs, scene, window_of};
ghost use Rattle.mar_model.specs.OpenSyncs.{is_cache_sync};
ghost use Rattle.mar_inbox.specs.Answers.{told};
ghost use Rattle.mar_inbox.specs.Views.{sent_by, value_of};
ghost use Rattle.mar_model.specs.Promise.{IsSmallEvent, heard_with};
ghost use Rattle.mar_model.specs.Queries.{commitments_found};
ghost use Rattle.mar_model.specs.Stored.{AreSmall};
ghost use Rattle.mar_model.specs.Writing.{IsOrdered, is_open_sync};
ghost use Rattle.mar_model.specs.Views.{fault_of};
ghost use Rattle.mar_actor.specs.Known.{TakesNote};
ghost use Rattle.mar_actor.specs.Kept.{SendsFront};
ghost use Rattle.mar_actor.specs.Views.{event_of, sendings_of, sent_first};

use crate::acknowledge::acknowledge;
use crate::caching::{certify, propose, verify};
use crate::certified::learn;
use crate::event::Event;
use crate::life::Life;
use crate::messages::{Told, told_by};
use crate::notarize::notarize;
use crate::report::report_finalization;
use crate::reporter::Reporter;
use crate::send::send;
use crate::start::start;
use crate::sync::finish;
use mar_block::{Buffer, Variant};
use mar_cert::CommitsTo;
use mar_inbox::{AnswerTable, Value, answer};
use mar_key::TargetedResolver;
use mar_model::{Fault, HoldsNotarizations};
use mar_parts::{Certified, Mark};
use mar_rules::hint;
use mar_types::Epocher;
use std::alloc::Global;

/// Takes one event, in place.
pub(crate) fn take<V, S, P, E, B, R, A>(
    alloc: Global,
    stores: &mut S,
    life: &mut Life<P, E>,
    certified: &mut Certified<V::Commitment>,
    event: Event<V::Digest, V::Block, S::Notarization, S::Finalization>,
    answers: &mut AnswerTable<Value<V::Digest, V::Block, S::Finalization>>,
    buffer: &mut B,
    resolver: &mut R,
    application: &mut A,
) -> Result<(), Fault<V::Commitment>>
where
    V: Variant,
    S: HoldsNotarizations<V>,
    E: Epocher,
    B: Buffer<V>,
    R: TargetedResolver<V::Commitment>,
    A: Reporter<V>,
    requires intact { (S.held stores.old).intact ≡ true }
    requires blocks { IsNested (S.held stores.old).blocks }
    requires certs { IsNested (S.held stores.old).certs }
    requires small { AreSmall (map (λ x. x.value) (S.held stores.old).blocks.held) }
    requires small_cached { AreSmallEntries (S.held stores.old).cache.kept.held }
    requires ordered { IsOrdered (S.held stores.old).writes }
    requires cached { AreCached (S.held stores.old) }
    requires small_event { IsSmallEvent (event_of V.Digest.bytes V.plain S.Notarization.plain S.Finalization.plain event) }
    requires small_buffer { AreSmall (B.blocks buffer.old) }
    ensures runs { (standing : Standing) → DoesEvent V.inner (fault_of V.Commitment.bytes) (B.blocks buffer.old)
        (event_of V.Digest.bytes V.plain S.Notarization.plain S.Finalization.plain event)
        (scene (S.held stores.old) (window_of life.old) (in_epochs (E.epochs life.old.epocher) standing)
        (heard_with (A.told application.old) (R.told resolver.old) (sent_by (B.sent buffer.old))
        (told (value_of V.Digest.bytes V.plain S.Finalization.plain) answers.old)))
        (scene (S.held stores.new) (window_of life.new) (in_epochs (E.epochs life.old.epocher) standing)
        (heard_with (A.told application.new) (R.told resolver.new) (sent_by (B.sent buffer.new))
        (told (value_of V.Digest.bytes V.plain S.Finalization.plain) answers.new))) result }
    ensures given { (life.new.provider ≡ life.old.provider) × (life.new.epocher ≡ life.old.epocher) }
    ensures unanswered { OnErr result (answers.new ≡ answers.old) }
    ensures sends { OnOk result (Sends (B.sent buffer.old) (sendings_of V.plain event) (B.sent buffer.new)) }
    ensures unsent { OnErr result (SendsFront (B.sent buffer.old) (sent_first V.plain event) (B.sent buffer.new)) }
    ensures blocks { B.blocks buffer.new ≡ B.blocks buffer.old }
    ensures notifies { B.notifies buffer.new ≡ B.notifies buffer.old }
    ensures buffer { sendings_of V.plain event ≡ [] → buffer.new ≡ buffer.old }
    ensures idle { (t : ℕ) → event_of V.Digest.bytes V.plain S.Notarization.plain S.Finalization.plain event ≡ sync_finished t
        → is_open_sync (S.held stores.old).writes.syncs t ≡ false → is_cache_sync (S.held stores.old).cache.syncs t ≡ false
        → (result ≡ Ok tt) × (S.held stores.new ≡ S.held stores.old) × (life.new ≡ life.old) × (certified.new ≡ certified.old) }
    ensures notes { OnOk result ((tip : ℕ) → certified.old.min ≤ tip + 1 → TakesNote V.Commitment.bytes tip
        (commitments_found V.inner (S.held stores.old) (B.blocks buffer.old)
        (event_of V.Digest.bytes V.plain S.Notarization.plain S.Finalization.plain event)) certified.old certified.new) }
    ensures min { OnOk result (certified.new.min ≡ certified.old.min) }
    ensures unlearned { IsTrue (is_query (event_of V.Digest.bytes V.plain S.Notarization.plain S.Finalization.plain event))
        → (certified.new ≡ certified.old) × (life.new ≡ life.old) }
{
    match event {
        Event::Start => start::<V, S, B, R, A>(
            alloc,
            stores,
            &mut life.window,
            &*buffer,
            resolver,
            application,
        ),
        Event::Message(message) => match told_by(message) {
            Told::Reported(finalization) => report_finalization::<V, S, B, R, A>(
                alloc,
                stores,
                &mut life.window,
                &finalization,
                &*buffer,
                resolver,
                application,
            ),
            Told::Notarization(notarization) => {
                notarize::<V, S, B>(stores, notarization, &*buffer)
            }
            Told::Certification(certification) => {
                learn::<V, S, B>(stores, certification.payload(), &*buffer, certified)
            }
            Told::Asked(ticket, query) => {
                answer::<V, S, B>(stores, ticket, query, &*buffer, answers)
            }
            Told::Verified {
                ticket,
                round,
                block,
            } => verify::<V, S>(stores, ticket, round, block, answers),
            Told::Proposed {
                ticket,
                round,
                recipients,
                block,
            } => propose::<V, S, B>(stores, ticket, round, recipients, block, buffer, answers),
            Told::Prepared {
                round,
                recipients,
                block,
            } => send::<V, B>(buffer, round, block, recipients),
            Told::Certified {
                ticket,
                round,
                block,
            } => certify::<V, S>(stores, ticket, round, block, answers),
            Told::Hint(height, targets) => {
                hint::<V, S, R>(alloc, stores, height, targets.as_slice(), resolver)
            }
        },
        Event::Sync(ticket) => {
            finish::<V, S, A>(stores, &mut life.window, ticket, answers, application)
        }
        Event::Ack(ticket) => {
            acknowledge::<V, S, E, R, A>(
                stores,
                &mut life.window,
                &life.epocher,
                ticket,
                Mark::Given,
                resolver,
                application,
            )
        }
        Event::Dropped(ticket) => {
            acknowledge::<V, S, E, R, A>(
                stores,
                &mut life.window,
                &life.epocher,
                ticket,
                Mark::Dropped,
                resolver,
                application,
            )
        }
    }
}
