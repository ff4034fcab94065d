//! The node, which each of its steps consumes.
ghost use Rattle.std.specs.Prelude.{◌≡◌, ◌≤◌, ◌+◌, ◌&&◌, ◌||◌, ◌∷◌, ◌++◌, [], ℕ, IfErr, IfOk, IsTrue, Ok, OnErr, OnOk, false, map, nat_lt, not, true};
ghost use Rattle.std.specs.List.{list_any};
ghost use Rattle.mar_model.specs.SmallEntries.{AreSmallEntries};
ghost use Rattle.mar_store.specs.Changes.{IsNested};
ghost use Rattle.mar_block.specs.Sent.{Sends};
ghost use Rattle.mar_model.specs.Acks.{is_unmarked};
ghost use Rattle.mar_model.specs.Acts.{AreLawful};
ghost use Rattle.mar_model.specs.Event.{is_query, sync_finished};
ghost use Rattle.mar_model.specs.Held.{AreCached, ArePassed, AreWritten, IsEndedBy, remains_of, with_armed};
ghost use Rattle.mar_model.specs.Plans.{RunsPlan};
ghost use Rattle.mar_model.specs.Requests.{may_repair};
ghost use Rattle.mar_model.specs.Scene.{Standing, in_epochs, scene, window_of};
ghost use Rattle.mar_model.specs.Moves.{FindsInCache, KeepsInCache, KeepsTakenUp, RunsOut, syncs_at_most};
ghost use Rattle.mar_model.specs.OpenSyncs.{is_cache_sync};
ghost use Rattle.mar_inbox.specs.Answers.{told};
ghost use Rattle.mar_inbox.specs.Views.{sent_by, value_of};
ghost use Rattle.mar_model.specs.Promise.{IsSmallEvent, KeepsPromise, heard_with};
ghost use Rattle.mar_model.specs.Queries.{Learns, answers_found, commitments_found};
ghost use Rattle.mar_model.specs.Stored.{AreSmall};
ghost use Rattle.mar_model.specs.Writing.{is_open_sync};
ghost use Rattle.mar_model.specs.Views.{store_name_of};
ghost use Rattle.mar_actor.specs.Known.{seen_knowing};
ghost use Rattle.mar_model.specs.Due.{EndsWhereDue, due_fault};
ghost use Rattle.mar_model.specs.Told.{TellsInOrder, tips_of};
ghost use Rattle.mar_actor.specs.Kept.{SendsFront};
ghost use Rattle.mar_actor.specs.Views.{event_of, sendings_of, sent_first};

use crate::certified::forget;
use crate::event::Event;
use crate::life::Life;
use crate::reporter::Reporter;
use crate::take::take;
use mar_block::{Buffer, Variant};
use mar_inbox::{AnswerTable, Value};
use mar_key::TargetedResolver;
use mar_life::Stores;
use mar_model::{Ended, Holds, HoldsNotarizations, StoreName};
use mar_parts::Certified;
use mar_types::Epocher;
use std::alloc::{AllocError, Global};
use std::marker::{Model, PhantomData};

/// A node while a life runs: its stores, and what it remembers beside them.
#[derive(Drop)]
pub struct Node<V: Variant, S: Holds<V>, P: Drop, E: Epocher> {
    /// On the heap, so that a step, which takes the node and gives it back, moves little.
    pub(crate) stores: Box<S>,
    pub(crate) life: Life<P, E>,
    /// The commitments that are known as certified, above the tip.
    pub(crate) certified: Certified<V::Commitment>,
    pub(crate) of: PhantomData<V>,
}

/// A node over four stores: of finalized blocks, of their finalizations, of metadata, and the cache.
pub type Actor<V, F, P, E, FB, FC, M, H> = Node<V, Stores<V, F, FB, FC, M, H>, P, E>;

impl<V: Variant, S: Holds<V>, P: Drop, E: Epocher> Model for Node<V, S, P, E> {
    ghost use Rattle.std.specs.Prelude.{◌≡◌, true};
    ghost use Rattle.mar_model.specs.Held.{Seen};
    ghost use Rattle.mar_actor.specs.Known.{least_above, seen_knowing};

    ghost Value = { Seen P E };

    ghost view = { λ n. seen_knowing V.Commitment.bytes (S.held n.stores.value) n.life n.certified };

    ghost invariant = { λ n. ((S.held n.stores.value).intact ≡ true) × (n.certified.min ≡ least_above n.life.tip) };
}

impl<V: Variant, S: HoldsNotarizations<V>, P: Drop, E: Epocher> Node<V, S, P, E> {
    /// Takes one event, the first of a life being `Event::Start`. An end of the life says why and hands back what is left.
    /// On a lawful chain the step is a step of the node, or a cut; a second start in one life is promised nothing of the
    /// node. The buffer keeps its blocks: of a proposed and of a prepared one alone anything is sent, of a proposed one before it
    /// is kept. A start and a reported finalization fill gaps, for which `alloc` gives memory.
    ///
    /// The fault of a step is `StoreFault` only where that store has failed, `HeightLimit` where a finalized block stands
    /// at the last height and `AckDropped` where the lowest block that isn't acknowledged was dropped, each exactly where
    /// it is due unless a store or memory fails first, `TicketLimit` where no ticket of that kind is left, and `Memory`.
    /// What a step may store is small: at most 1,048,576 bytes each.
    /// The application is told of the event's own tip first, at most one, then of the tips of blocks that are filled in,
    /// by a start or a reported finalization alone, and then of the blocks that are handed over.
    pub fn step<B: Buffer<V>, R: TargetedResolver<V::Commitment>, A: Reporter<V>>(
        self,
        alloc: Global,
        event: Event<V::Digest, V::Block, S::Notarization, S::Finalization>,
        answers: &mut AnswerTable<Value<V::Digest, V::Block, S::Finalization>>,
        buffer: &mut B,
        resolver: &mut R,
        application: &mut A,
    ) -> Result<Self, Ended<V, S>>
        requires small_event { IsSmallEvent (event_of V.Digest.bytes V.plain S.Notarization.plain S.Finalization.plain event) }
        requires small_buffer { AreSmall (B.blocks buffer.old) }
        ensures ran { (standing : Standing) → RunsPlan V.inner (B.blocks buffer.old)
            (event_of V.Digest.bytes V.plain S.Notarization.plain S.Finalization.plain event)
            (scene self.held (window_of self.life) (in_epochs (E.epochs self.life.epocher) standing)
            (heard_with (A.told application.old) (R.told resolver.old) (sent_by (B.sent buffer.old))
            (told (value_of V.Digest.bytes V.plain S.Finalization.plain) answers.old)))
            (heard_with (A.told application.new) (R.told resolver.new) (sent_by (B.sent buffer.new))
            (told (value_of V.Digest.bytes V.plain S.Finalization.plain) answers.new)) result }
        ensures promise { KeepsPromise (event_of V.Digest.bytes V.plain S.Notarization.plain S.Finalization.plain event ∷ [])
            (E.epochs self.life.epocher) V.inner self (B.blocks buffer.old)
            (heard_with (A.told application.old) (R.told resolver.old) (sent_by (B.sent buffer.old))
            (told (value_of V.Digest.bytes V.plain S.Finalization.plain) answers.old))
            (heard_with (A.told application.new) (R.told resolver.new) (sent_by (B.sent buffer.new))
            (told (value_of V.Digest.bytes V.plain S.Finalization.plain) answers.new))
            result }
        ensures answered { KeepsInCache (event_of V.Digest.bytes V.plain S.Notarization.plain S.Finalization.plain event) self
            → OnOk result (told (value_of V.Digest.bytes V.plain S.Finalization.plain) answers.new
            ≡ told (value_of V.Digest.bytes V.plain S.Finalization.plain) answers.old
            ++ answers_found V.inner self.held (B.blocks buffer.old) (event_of V.Digest.bytes V.plain S.Notarization.plain S.Finalization.plain event)) }
        ensures sends { OnOk result (Sends (B.sent buffer.old) (sendings_of V.plain event) (B.sent buffer.new)) }
        ensures unsent { OnErr result (SendsFront (B.sent buffer.old) (sent_first V.plain event) (B.sent buffer.new)) }
        ensures blocks { B.blocks buffer.new ≡ B.blocks buffer.old }
        ensures notifies { B.notifies buffer.new ≡ B.notifies buffer.old }
        ensures buffer { sendings_of V.plain event ≡ [] → buffer.new ≡ buffer.old }
        ensures unanswered { OnErr result (answers.new ≡ answers.old) }
        ensures watches { IfOk result (λ n. ArePassed self.held.watches n.held.watches) }
        ensures cause { IfErr result (λ e. IsEndedBy self.held.watches e) }
        ensures idle { (t : ℕ) → event_of V.Digest.bytes V.plain S.Notarization.plain S.Finalization.plain event ≡ sync_finished t
            → is_open_sync self.held.writes.syncs t ≡ false → is_cache_sync self.held.cache.syncs t ≡ false → result ≡ Ok self }
        ensures by_value { FindsInCache (event_of V.Digest.bytes V.plain S.Notarization.plain S.Finalization.plain event) self
            → EndsWhereDue (due_fault V.inner self (B.blocks buffer.old)
            (event_of V.Digest.bytes V.plain S.Notarization.plain S.Finalization.plain event)) result }
        ensures tells { FindsInCache (event_of V.Digest.bytes V.plain S.Notarization.plain S.Finalization.plain event) self
            → TellsInOrder (may_repair (event_of V.Digest.bytes V.plain S.Notarization.plain S.Finalization.plain event))
            (A.told application.old)
            (tips_of V.inner self (B.blocks buffer.old) (event_of V.Digest.bytes V.plain S.Notarization.plain S.Finalization.plain event))
            (A.told application.new) result }
        ensures tickets { IfOk result (λ n. n.life.next_ack ≤ self.life.next_ack + self.life.sizes.window) }
        ensures sync_tickets { IfOk result (λ n. n.held.writes.next_sync ≤ self.held.writes.next_sync
            + syncs_at_most (event_of V.Digest.bytes V.plain S.Notarization.plain S.Finalization.plain event)) }
        ensures runs_out { IfErr result (RunsOut (syncs_at_most (event_of V.Digest.bytes V.plain S.Notarization.plain S.Finalization.plain event)) self) }
        ensures same_life { IfOk result (λ n. (n.life.provider ≡ self.life.provider) × (n.life.epocher ≡ self.life.epocher)
            × (n.life.sizes ≡ self.life.sizes)) }
        ensures loaded { IfOk result (KeepsTakenUp (event_of V.Digest.bytes V.plain S.Notarization.plain S.Finalization.plain event) self) }
        ensures rises { IfOk result (λ n. self.life.tip ≤ n.life.tip) }
        ensures certified { IfOk result (λ n. Learns self.certified (commitments_found V.inner self.held (B.blocks buffer.old)
            (event_of V.Digest.bytes V.plain S.Notarization.plain S.Finalization.plain event)) n.life.tip n.certified) }
        ensures unlearned { IsTrue (is_query (event_of V.Digest.bytes V.plain S.Notarization.plain S.Finalization.plain event))
            → IfOk result (λ n. n.certified ≡ self.certified) }
    {
        self.law();
        let Node {
            mut stores,
            mut life,
            mut certified,
            of,
        } = self;
        let tip = life.tip();
        match take::<V, S, P, E, B, R, A>(
            alloc,
            &mut stores,
            &mut life,
            &mut certified,
            event,
            answers,
            buffer,
            resolver,
            application,
        ) {
            Ok(()) => {
                forget(&mut certified, tip, life.tip());
                Ok(Node {
                    stores,
                    life,
                    certified,
                    of,
                })
            }
            Err(fault) => {
                let ruins = Box::into_inner(stores).wreck();
                Err(Ended { fault, ruins })
            }
        }
    }
}

impl<V: Variant, S: Holds<V>, P: Drop, E: Epocher> Node<V, S, P, E> {
    /// What the stores promise of what they hold; nothing is done.
    pub(crate) fn law(&self)
        ensures blocks { IsNested self.now.held.blocks }
        ensures certs { IsNested self.now.held.certs }
        ensures small { AreSmall (map (λ x. x.value) self.now.held.blocks.held) }
        ensures small_cached { AreSmallEntries self.now.held.cache.kept.held }
        ensures written { AreWritten self.now.held }
        ensures cached { AreCached self.now.held }
        ensures lawful { AreLawful self.now.held }
    {
        self.stores.law();
    }

    /// Makes the counted call of a store fail that is so many calls away, 1 being the next.
    pub fn arm(&mut self, store: StoreName, calls: u64) -> Result<(), AllocError>
        ensures armed { OnOk result (self.new ≡ record self.old {
          held = record self.old.held { watches = with_armed (store_name_of store) calls self.old.held.watches };
        }) }
        ensures unarmed { OnErr result (self.new ≡ self.old) }
    {
        self.stores.arm(store, calls)
    }

    /// Ends the life; what a crash now leaves is handed back.
    pub fn wreck(self) -> S::Ruins
        ensures left { S.Ruins.left result ≡ remains_of self.held }
        ensures blocks { IsNested self.held.blocks }
        ensures certs { IsNested self.held.certs }
    {
        self.law();
        Box::into_inner(self.stores).wreck()
    }

    /// Whether the application owes an acknowledgement under that ticket.
    pub fn owes_ack(&self, ticket: u64) -> bool
        ensures { result ≡ list_any (is_unmarked ticket) self.now.life.out }
    {
        self.life.window.acks.is_unmarked(ticket)
    }

    /// Whether the sync of that ticket is open, of finalized blocks or of the cache: it was started in this life and hasn't
    /// finished.
    pub fn awaits_sync(&self, ticket: u64) -> bool
        ensures { result ≡ (is_open_sync self.now.held.writes.syncs ticket || is_cache_sync self.now.held.cache.syncs ticket) }
    {
        self.stores.writes().is_open(ticket) || self.awaits_cache(ticket)
    }

    // Whether it is a sync of the cache, and open.
    fn awaits_cache(&self, ticket: u64) -> bool
        ensures { result ≡ is_cache_sync self.now.held.cache.syncs ticket }
    {
        self.stores.cache_syncs().is_open(ticket)
    }

    /// Whether the sync of that ticket was started in this life and has finished.
    pub fn finished(&self, ticket: u64) -> bool
        ensures { result ≡ (nat_lt ticket self.now.held.writes.next_sync
            && not (is_open_sync self.now.held.writes.syncs ticket || is_cache_sync self.now.held.cache.syncs ticket)) }
    {
        ticket < self.stores.writes().next_ticket() && !self.awaits_sync(ticket)
    }
}
