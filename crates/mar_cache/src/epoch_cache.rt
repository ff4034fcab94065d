//! The epoch cache as a node sees it: all its epochs as one list of entries.
ghost use Rattle.std.specs.Prelude.{◌&&◌, ◌==◌, ◌≡◌, ◌∷◌, ℕ, [], IfErr, IfOk, map, nat_lt, option_map, refl, true};
ghost use Rattle.mar_store.specs.Lost.{wreck_of};
ghost use Rattle.mar_store.specs.Watch.{Heeds, HeedsRead};
ghost use Rattle.mar_model.specs.AllEntries.{soonest};
ghost use Rattle.mar_model.specs.CacheCalls.{GoesOn, LeavesFailedPut, LosesCache, PutsAndStarts, PutsAndSyncs, is_ready, none_goes};
ghost use Rattle.mar_model.specs.Cached.{epoch_of};
ghost use Rattle.mar_model.specs.Entries.{cached_of, is_sought};
ghost use Rattle.mar_model.specs.SmallEntries.{IsSmallEntry};
ghost use Rattle.mar_epochs.specs.EpochStates.{IsBare, is_opened};
ghost use Rattle.mar_cache.specs.AsOne.{covers_of, greatest_highest, kept_of, left_of_ways, lowests_of};
ghost use Rattle.mar_cache.specs.Bounds.{bounds_of};
ghost use Rattle.mar_cache.specs.Finds.{finds_of};
ghost use Rattle.mar_cache.specs.Nested.{nested_cache, nested_left, opens_held};
ghost use Rattle.mar_cache.specs.Shelved.{shelf_watch};
ghost use Rattle.mar_cache.specs.SmallKept.{small_kept, small_left};
ghost use Rattle.mar_cache.specs.Stages.{IsAtStage, is_fresh, is_loaded};

use crate::manager::{Manager, ManagerWreck};
use crate::stage::Stage;
use mar_block::Variant;
use mar_cert::CommitsTo;
use mar_epochs::{Epochs, EpochsRuin, KeptEntry};
use mar_model::{Cache, CacheTicket, Entry, Section, Shelf, ShelfRuin, Sought, Started};
use mar_store::{Lost, Meta, MetaRuin, Miss};
use mar_types::{Epoch, Height, Round};
use std::alloc::AllocError;

/// The epoch cache over any epochs and any metadata store, and how far it has come since its reopening.
#[derive(Drop)]
pub struct EpochCache<S: Epochs, M: Meta> {
    manager: Manager<S, M>,
    stage: Stage,
    pub ghost staged: { IsAtStage stage (S.states manager.epochs) },
}

impl<S: Epochs, M: Meta> EpochCache<S, M> {
    /// A cache over epochs of which nothing is left, so that there is nothing to take up.
    pub fn new(manager: Manager<S, M>) -> Self
        requires bare { (k : ℕ) → IsBare (S.states manager.epochs k) }
        ensures manager { result.manager ≡ manager }
        ensures loaded { is_loaded result.stage ≡ true }
    {
        EpochCache {
            manager,
            stage: Stage::Loaded,
        }
    }
}

impl<S: Epochs, M: Meta> ShelfRuin for ManagerWreck<S, M> {
    ghost left = { λ w. left_of_ways (S.Wreck.left w.epochs) (map bounds_of (M.Wreck.left w.meta)) };

    ghost lowests = { λ w. lowests_of (map bounds_of (M.Wreck.left w.meta)) };

    ghost watch = { λ w. shelf_watch S.keeps w.alarm (S.Wreck.calm w.epochs && (M.Wreck.watch w.meta).only_armed) };

    ghost short = { λ w. w.short };

    ghost within = { λ w. nested_left (S.Wreck.left w.epochs) _ (S.nested_left w.epochs) };

    ghost small = { λ w. small_left (S.Wreck.left w.epochs) (greatest_highest (map bounds_of (M.Wreck.left w.meta))) (S.small_left w.epochs) };

    fn arm(&mut self, calls: u64) -> Result<(), AllocError> {
        ManagerWreck::arm(self, calls)
    }
}

impl<S: Epochs, M: Meta> Cache for EpochCache<S, M> {
    type Wreck = ManagerWreck<S, M>;

    ghost kept = { λ m. kept_of (S.states m.manager.epochs) (bounds_of (M.current m.manager.meta)).highest };

    ghost lowest = { λ m. (bounds_of (M.current m.manager.meta)).lowest };

    ghost loaded = { λ m. is_loaded m.stage };

    ghost is_open = { λ m e. is_opened (S.states m.manager.epochs e) };

    ghost fresh = { λ m. is_fresh m.stage };

    ghost finds = { λ m. finds_of (S.picks m.manager.epochs) (S.states m.manager.epochs) (bounds_of (M.current m.manager.meta)).highest };

    ghost covers = { λ m. covers_of (S.states m.manager.epochs) };

    ghost watch = { λ m. shelf_watch S.keeps m.manager.alarm (S.calm m.manager.epochs && (M.watch m.manager.meta).only_armed) };

    ghost nested = { λ m. nested_cache (S.states m.manager.epochs) (bounds_of (M.current m.manager.meta)) m.stage m.manager.within
        (S.nested m.manager.epochs) m.staged };

    ghost opens = { λ m. opens_held (S.states m.manager.epochs) (bounds_of (M.current m.manager.meta)) m.manager.within };

    ghost closed = { λ m. m.staged.fresh };

    ghost small = { λ m. small_kept (S.states m.manager.epochs) (bounds_of (M.current m.manager.meta)).highest (S.small m.manager.epochs) };

    ghost joins = { λ m e p q. refl };

    fn start_sync(
        self,
        epoch: Epoch,
        section: Section,
    ) -> Result<(Self, Started), Lost<ManagerWreck<S, M>>> {
        let EpochCache { manager, stage } = self;
        match manager.start(epoch.get(), section) {
            Ok((manager, started)) => {
                let cache = EpochCache { manager, stage };
                Ok((cache, started))
            }
            Err(lost) => Err(lost),
        }
    }

    fn finish(self, ticket: CacheTicket) -> Result<Self, Lost<ManagerWreck<S, M>>> {
        let EpochCache { manager, stage } = self;
        match manager.finish(ticket) {
            Ok(manager) => Ok(EpochCache { manager, stage }),
            Err(lost) => Err(lost),
        }
    }

    fn load_persisted_epochs(self) -> Result<Self, Lost<ManagerWreck<S, M>>> {
        match self.manager.load_persisted_epochs() {
            Ok(manager) => Ok(EpochCache {
                manager,
                stage: Stage::Loaded,
            }),
            Err(lost) => Err(lost),
        }
    }

    fn prune_by_height(self, height: Height) -> Result<Self, Lost<ManagerWreck<S, M>>> {
        let EpochCache { manager, stage } = self;
        match manager.prune_by_height(height) {
            Ok(manager) => Ok(EpochCache { manager, stage }),
            Err(lost) => Err(lost),
        }
    }

    fn prune_by_view(self, round: Round) -> Result<Self, Lost<ManagerWreck<S, M>>> {
        let EpochCache { manager, stage } = self;
        match manager.prune_by_view(round) {
            Ok(manager) => Ok(EpochCache { manager, stage }),
            Err(lost) => Err(lost),
        }
    }

    fn wreck(self) -> ManagerWreck<S, M> {
        self.manager.wreck()
    }

    fn reopen(wreck: ManagerWreck<S, M>, luck: u64) -> Result<Self, Lost<ManagerWreck<S, M>>> {
        match Manager::reopen(wreck, luck) {
            Ok(manager) => Ok(EpochCache {
                manager,
                stage: Stage::Fresh,
            }),
            Err(lost) => Err(lost),
        }
    }

    fn arm(&mut self, calls: u64) -> Result<(), AllocError> {
        self.manager.arm(calls)
    }
}

impl<V: Variant, F: CommitsTo<V::Commitment>, S: Epochs, M: Meta> Shelf<V, F> for EpochCache<S, M>
where
    S::Entry: KeptEntry<V, F>,
{
    type Notarization = <S::Entry as KeptEntry<V, F>>::Notarization;

    fn put_and_start(
        self,
        entry: Entry<V::Block, <S::Entry as KeptEntry<V, F>>::Notarization, F>,
    ) -> Result<(Self, Started), Lost<ManagerWreck<S, M>>>
        requires small { IsSmallEntry (cached_of V.plain S.Entry.Notarization.plain F.plain entry) }
        ensures puts { IfOk result (λ r. PutsAndStarts (cached_of V.plain S.Entry.Notarization.plain F.plain entry)
            (bounds_of (M.current self.manager.meta)).lowest (is_loaded self.stage)
            (kept_of (S.states self.manager.epochs) (bounds_of (M.current self.manager.meta)).highest)
            (kept_of (S.states r.0.manager.epochs) (bounds_of (M.current r.0.manager.meta)).highest)
            (covers_of (S.states r.0.manager.epochs)) r.1) }
        ensures ready { IfOk result (λ r. is_ready r.1 ≡ nat_lt (epoch_of (cached_of V.plain S.Entry.Notarization.plain F.plain entry))
            (bounds_of (M.current self.manager.meta)).lowest) }
        ensures goes_on { IfOk result (λ r. GoesOn ((cached_of V.plain S.Entry.Notarization.plain F.plain entry) ∷ []) none_goes
            (kept_of (S.states self.manager.epochs) (bounds_of (M.current self.manager.meta)).highest)
            (kept_of (S.states r.0.manager.epochs) (bounds_of (M.current r.0.manager.meta)).highest)
            (covers_of (S.states self.manager.epochs)) (covers_of (S.states r.0.manager.epochs))) }
        ensures stays { IfOk result (λ r. ((bounds_of (M.current r.0.manager.meta)).lowest ≡ (bounds_of (M.current self.manager.meta)).lowest)
            × (is_loaded r.0.stage ≡ is_loaded self.stage)) }
        ensures lost { IfErr result (λ l. LosesCache ((cached_of V.plain S.Entry.Notarization.plain F.plain entry) ∷ []) none_goes
            (kept_of (S.states self.manager.epochs) (bounds_of (M.current self.manager.meta)).highest) ((bounds_of (M.current self.manager.meta)).lowest ∷ [])
            (left_of_ways (S.Wreck.left (wreck_of l).epochs) (map bounds_of (M.Wreck.left (wreck_of l).meta)))
            (lowests_of (map bounds_of (M.Wreck.left (wreck_of l).meta)))) }
        ensures written { IfErr result (LeavesFailedPut (λ w. left_of_ways (S.Wreck.left w.epochs) (map bounds_of (M.Wreck.left w.meta))) (λ w. w.short)
            (cached_of V.plain S.Entry.Notarization.plain F.plain entry) (bounds_of (M.current self.manager.meta)).lowest (is_loaded self.stage)
            (shelf_watch S.keeps self.manager.alarm (S.calm self.manager.epochs && (M.watch self.manager.meta).only_armed))
            (kept_of (S.states self.manager.epochs) (bounds_of (M.current self.manager.meta)).highest)) }
        ensures watched { Heeds (λ r. shelf_watch S.keeps r.0.manager.alarm (S.calm r.0.manager.epochs && (M.watch r.0.manager.meta).only_armed))
            (λ w. shelf_watch S.keeps w.alarm (S.Wreck.calm w.epochs && (M.Wreck.watch w.meta).only_armed))
            (shelf_watch S.keeps self.manager.alarm (S.calm self.manager.epochs && (M.watch self.manager.meta).only_armed)) result }
    {
        let EpochCache { manager, stage } = self;
        match manager.put_and_start(S::Entry::of(entry)) {
            Ok((manager, started)) => {
                let cache = EpochCache {
                    manager,
                    stage: stage.after_put(),
                };
                Ok((cache, started))
            }
            Err(lost) => Err(lost),
        }
    }

    fn put_and_sync(
        self,
        entry: Entry<V::Block, <S::Entry as KeptEntry<V, F>>::Notarization, F>,
    ) -> Result<Self, Lost<ManagerWreck<S, M>>>
        requires small { IsSmallEntry (cached_of V.plain S.Entry.Notarization.plain F.plain entry) }
        ensures puts { IfOk result (λ r. PutsAndSyncs (cached_of V.plain S.Entry.Notarization.plain F.plain entry)
            (bounds_of (M.current self.manager.meta)).lowest (is_loaded self.stage)
            (kept_of (S.states self.manager.epochs) (bounds_of (M.current self.manager.meta)).highest)
            (kept_of (S.states r.manager.epochs) (bounds_of (M.current r.manager.meta)).highest)) }
        ensures goes_on { IfOk result (λ r. GoesOn ((cached_of V.plain S.Entry.Notarization.plain F.plain entry) ∷ []) none_goes
            (kept_of (S.states self.manager.epochs) (bounds_of (M.current self.manager.meta)).highest)
            (kept_of (S.states r.manager.epochs) (bounds_of (M.current r.manager.meta)).highest)
            (covers_of (S.states self.manager.epochs)) (covers_of (S.states r.manager.epochs))) }
        ensures stays { IfOk result (λ r. ((bounds_of (M.current r.manager.meta)).lowest ≡ (bounds_of (M.current self.manager.meta)).lowest)
            × (is_loaded r.stage ≡ is_loaded self.stage)) }
        ensures lost { IfErr result (λ l. LosesCache ((cached_of V.plain S.Entry.Notarization.plain F.plain entry) ∷ []) none_goes
            (kept_of (S.states self.manager.epochs) (bounds_of (M.current self.manager.meta)).highest) ((bounds_of (M.current self.manager.meta)).lowest ∷ [])
            (left_of_ways (S.Wreck.left (wreck_of l).epochs) (map bounds_of (M.Wreck.left (wreck_of l).meta)))
            (lowests_of (map bounds_of (M.Wreck.left (wreck_of l).meta)))) }
        ensures written { IfErr result (LeavesFailedPut (λ w. left_of_ways (S.Wreck.left w.epochs) (map bounds_of (M.Wreck.left w.meta))) (λ w. w.short)
            (cached_of V.plain S.Entry.Notarization.plain F.plain entry) (bounds_of (M.current self.manager.meta)).lowest (is_loaded self.stage)
            (shelf_watch S.keeps self.manager.alarm (S.calm self.manager.epochs && (M.watch self.manager.meta).only_armed))
            (kept_of (S.states self.manager.epochs) (bounds_of (M.current self.manager.meta)).highest)) }
        ensures watched { Heeds (λ r. shelf_watch S.keeps r.manager.alarm (S.calm r.manager.epochs && (M.watch r.manager.meta).only_armed))
            (λ w. shelf_watch S.keeps w.alarm (S.Wreck.calm w.epochs && (M.Wreck.watch w.meta).only_armed))
            (shelf_watch S.keeps self.manager.alarm (S.calm self.manager.epochs && (M.watch self.manager.meta).only_armed)) result }
    {
        let EpochCache { manager, stage } = self;
        match manager.put_and_sync(S::Entry::of(entry)) {
            Ok(manager) => Ok(EpochCache {
                manager,
                stage: stage.after_put(),
            }),
            Err(lost) => Err(lost),
        }
    }

    fn get(
        &mut self,
        epoch: Epoch,
        sought: Sought<V::Digest, V::Commitment>,
    ) -> Result<Option<Entry<V::Block, <S::Entry as KeptEntry<V, F>>::Notarization, F>>, Miss>
        ensures found { IfOk result (λ o. option_map (cached_of V.plain S.Entry.Notarization.plain F.plain) o
            ≡ soonest (λ y. epoch_of y == epoch && is_sought V.Digest.bytes V.Commitment.bytes V.inner sought y)
            (kept_of (S.states self.old.manager.epochs) (bounds_of (M.current self.old.manager.meta)).highest).held) }
        ensures same { ((kept_of (S.states self.new.manager.epochs) (bounds_of (M.current self.new.manager.meta)).highest)
            ≡ (kept_of (S.states self.old.manager.epochs) (bounds_of (M.current self.old.manager.meta)).highest))
            × ((bounds_of (M.current self.new.manager.meta)).lowest ≡ (bounds_of (M.current self.old.manager.meta)).lowest)
            × (is_loaded self.new.stage ≡ is_loaded self.old.stage) × (is_fresh self.new.stage ≡ is_fresh self.old.stage)
            × (finds_of (S.picks self.new.manager.epochs) (S.states self.new.manager.epochs) (bounds_of (M.current self.new.manager.meta)).highest
            ≡ finds_of (S.picks self.old.manager.epochs) (S.states self.old.manager.epochs) (bounds_of (M.current self.old.manager.meta)).highest)
            × ((covers_of (S.states self.new.manager.epochs)) ≡ (covers_of (S.states self.old.manager.epochs))) }
        ensures watched { HeedsRead (shelf_watch S.keeps self.old.manager.alarm (S.calm self.old.manager.epochs && (M.watch self.old.manager.meta).only_armed))
            (shelf_watch S.keeps self.new.manager.alarm (S.calm self.new.manager.epochs && (M.watch self.new.manager.meta).only_armed)) result }
    {
        let wanted = S::Entry::sought(sought);
        match self.manager.find_in(epoch.get(), &wanted) {
            Ok(Some(entry)) => Ok(Some(entry.into_entry())),
            Ok(None) => Ok(None),
            Err(miss) => Err(miss),
        }
    }

    fn search(
        &mut self,
        sought: Sought<V::Digest, V::Commitment>,
    ) -> Result<Option<Entry<V::Block, <S::Entry as KeptEntry<V, F>>::Notarization, F>>, Miss>
        ensures found { IfOk result (λ o. option_map (cached_of V.plain S.Entry.Notarization.plain F.plain) o
            ≡ soonest (is_sought V.Digest.bytes V.Commitment.bytes V.inner sought)
            (kept_of (S.states self.old.manager.epochs) (bounds_of (M.current self.old.manager.meta)).highest).held) }
        ensures same { ((kept_of (S.states self.new.manager.epochs) (bounds_of (M.current self.new.manager.meta)).highest)
            ≡ (kept_of (S.states self.old.manager.epochs) (bounds_of (M.current self.old.manager.meta)).highest))
            × ((bounds_of (M.current self.new.manager.meta)).lowest ≡ (bounds_of (M.current self.old.manager.meta)).lowest)
            × (is_loaded self.new.stage ≡ is_loaded self.old.stage) × (is_fresh self.new.stage ≡ is_fresh self.old.stage)
            × (finds_of (S.picks self.new.manager.epochs) (S.states self.new.manager.epochs) (bounds_of (M.current self.new.manager.meta)).highest
            ≡ finds_of (S.picks self.old.manager.epochs) (S.states self.old.manager.epochs) (bounds_of (M.current self.old.manager.meta)).highest)
            × ((covers_of (S.states self.new.manager.epochs)) ≡ (covers_of (S.states self.old.manager.epochs))) }
        ensures watched { HeedsRead (shelf_watch S.keeps self.old.manager.alarm (S.calm self.old.manager.epochs && (M.watch self.old.manager.meta).only_armed))
            (shelf_watch S.keeps self.new.manager.alarm (S.calm self.new.manager.epochs && (M.watch self.new.manager.meta).only_armed)) result }
    {
        let wanted = S::Entry::sought(sought);
        match self.manager.find(&wanted) {
            Ok(Some(entry)) => Ok(Some(entry.into_entry())),
            Ok(None) => Ok(None),
            Err(miss) => Err(miss),
        }
    }
}
