//! Prunes of a cache, by height and by view.
ghost use Rattle.std.specs.Prelude.{◌≡◌, ◌&&◌, ◌+◌, ◌-◌, ◌<◌, ◌++◌, ◌∷◌, ℕ, [], Contains, IfErr, IfOk, MatchResult, map};
ghost use Rattle.std.specs.List.{AllByRecursion};
ghost use Rattle.mar_store.specs.Changes.{Within};
ghost use Rattle.mar_store.specs.Lost.{wreck_of};
ghost use Rattle.mar_store.specs.Watch.{Heeds, IsCalm};
ghost use Rattle.mar_model.specs.Cache.{is_certified_below};
ghost use Rattle.mar_cache.specs.Bounds.{bounds_of};
ghost use Rattle.mar_epochs.specs.EpochStates.{ChangesEpoch, IsBare, IsLeftOrBare, left_of_epoch};
ghost use Rattle.mar_cache.specs.Shelved.{DropsOlder, LeavesEpochs, IsClear, ThinsEpoch, is_pruned_by, pruned_bounds, shelf_watch};

use crate::bounds::lowest;
use crate::losses::lost_epochs;
use crate::manager::{Manager, ManagerWreck};
use mar_epochs::{Change, Epochs, EpochsRuin};
use mar_store::{Lost, Meta, MetaRuin};
use mar_types::{Height, Round};

impl<S: Epochs, M: Meta> Manager<S, M> {
    /// The certified blocks below a height go, in each epoch that is open.
    pub fn prune_by_height(self, height: Height) -> Result<Self, Lost<ManagerWreck<S, M>>>
        ensures done { IfOk result (λ m. (k : ℕ) → ThinsEpoch (is_certified_below height) (S.states self.epochs k) (S.states m.epochs k)) }
        ensures clear { IfOk result (λ m. (k : ℕ) → IsClear (is_certified_below height) (S.states m.epochs k)) }
        ensures meta { IfOk result (λ m. m.meta ≡ self.meta) }
        ensures ways { IfErr result (λ l. AllByRecursion (LeavesEpochs (λ k. []) (λ k. is_certified_below height) (S.states self.epochs))
            (S.Wreck.left (wreck_of l).epochs)) }
        ensures bounds { IfErr result (λ l. M.Wreck.left (wreck_of l).meta ≡ M.left self.meta) }
        ensures watched { Heeds (λ m. shelf_watch S.keeps m.alarm (S.calm m.epochs && (M.watch m.meta).only_armed))
            (λ w. shelf_watch S.keeps w.alarm (S.Wreck.calm w.epochs && (M.Wreck.watch w.meta).only_armed))
            (shelf_watch S.keeps self.alarm (S.calm self.epochs && (M.watch self.meta).only_armed)) result }
    {
        let manager = self.begin()?;
        let (manager, listed) = manager.listed()?;
        manager.prune_all(&listed, height)
    }

    // The certified blocks below a height go, in each of these epochs.
    fn prune_all(self, listed: &[u64], height: Height) -> Result<Self, Lost<ManagerWreck<S, M>>>
        ensures done { IfOk result (λ m. (k : ℕ) → ThinsEpoch (is_certified_below height) (S.states self.epochs k) (S.states m.epochs k)) }
        ensures clear { (k : ℕ) → Contains listed.now k → IfOk result (λ m. IsClear (is_certified_below height) (S.states m.epochs k)) }
        ensures meta { IfOk result (λ m. m.meta ≡ self.meta) }
        ensures ways { IfErr result (λ l. AllByRecursion (LeavesEpochs (λ k. []) (λ k. is_certified_below height) (S.states self.epochs))
            (S.Wreck.left (wreck_of l).epochs)) }
        ensures bounds { IfErr result (λ l. M.Wreck.left (wreck_of l).meta ≡ M.left self.meta) }
        ensures watched { IsCalm (λ m. shelf_watch S.keeps m.alarm (S.calm m.epochs && (M.watch m.meta).only_armed))
            (λ w. shelf_watch S.keeps w.alarm (S.Wreck.calm w.epochs && (M.Wreck.watch w.meta).only_armed))
            (shelf_watch S.keeps self.alarm (S.calm self.epochs && (M.watch self.meta).only_armed)) result }
    {
        let mut manager = self;
        let mut place = 0;
        while place < listed.len() {
            manager = manager.change(listed[place], Change::PruneCertified(height))?;
            place += 1;
        }
        Ok(manager)
    }

    /// Destroys older epochs than the round's, makes that the lowest, and the highest where it is above, and prunes its
    /// entries by view below the round.
    pub fn prune_by_view(self, round: Round) -> Result<Self, Lost<ManagerWreck<S, M>>>
        ensures own { IfOk result (λ m. ChangesEpoch S.Entry.plain (Change.PruneBelow round)
            (S.states self.epochs round.epoch) (S.states m.epochs round.epoch)) }
        ensures newer { IfOk result (λ m. (k : ℕ) → round.epoch < k → S.states m.epochs k ≡ S.states self.epochs k) }
        ensures older { IfOk result (λ m. (k : ℕ) → k < round.epoch → IsBare (S.states m.epochs k)) }
        ensures raises { IfOk result (λ m. bounds_of (M.current m.meta) ≡ pruned_bounds round (bounds_of (M.current self.meta))) }
        ensures ways { IfErr result (λ l. AllByRecursion (LeavesEpochs (λ k. []) (is_pruned_by round) (S.states self.epochs))
            (S.Wreck.left (wreck_of l).epochs)) }
        ensures dropped { IfErr result (λ l. AllByRecursion (λ left. (k : ℕ) → k < round.epoch → IsLeftOrBare (S.states self.epochs k) (left k))
            (S.Wreck.left (wreck_of l).epochs)) }
        ensures bounds { IfErr result (λ l. Within (map bounds_of (M.Wreck.left (wreck_of l).meta))
            (map bounds_of (M.left self.meta) ++ pruned_bounds round (bounds_of (M.current self.meta)) ∷ [])) }
        ensures watched { Heeds (λ m. shelf_watch S.keeps m.alarm (S.calm m.epochs && (M.watch m.meta).only_armed))
            (λ w. shelf_watch S.keeps w.alarm (S.Wreck.calm w.epochs && (M.Wreck.watch w.meta).only_armed))
            (shelf_watch S.keeps self.alarm (S.calm self.epochs && (M.watch self.meta).only_armed)) result }
    {
        let manager = self.begin()?;
        let epoch = round.epoch().get();
        let manager = manager.destroy_older(epoch)?;
        let manager = manager.raise_lowest(round)?;
        manager.change(epoch, Change::PruneBelow(round))
    }

    // Destroys each epoch that is below another. None is where that isn't above the lowest.
    fn destroy_older(self, below: u64) -> Result<Self, Lost<ManagerWreck<S, M>>>
        ensures done { MatchResult result (λ m. DropsOlder below (S.states self.epochs) (S.states m.epochs))
            (λ l. AllByRecursion (DropsOlder below (λ k. left_of_epoch (S.states self.epochs k))) (S.Wreck.left (wreck_of l).epochs)) }
        ensures bare { IfOk result (λ m. (k : ℕ) → k < below → IsBare (S.states m.epochs k)) }
        ensures meta { IfOk result (λ m. m.meta ≡ self.meta) }
        ensures bounds { IfErr result (λ l. M.Wreck.left (wreck_of l).meta ≡ M.left self.meta) }
        ensures watched { IsCalm (λ m. shelf_watch S.keeps m.alarm (S.calm m.epochs && (M.watch m.meta).only_armed))
            (λ w. shelf_watch S.keeps w.alarm (S.Wreck.calm w.epochs && (M.Wreck.watch w.meta).only_armed))
            (shelf_watch S.keeps self.alarm (S.calm self.epochs && (M.watch self.meta).only_armed)) result }
    {
        if below <= lowest(&self.meta) {
            return Ok(self);
        }
        let (manager, listed) = self.listed()?;
        manager.destroy_all(&listed, below)
    }

    // Destroys an epoch that is below another.
    fn destroy_below(self, epoch: u64, below: u64) -> Result<Self, Lost<ManagerWreck<S, M>>>
        ensures done { MatchResult result (λ m. DropsOlder below (S.states self.epochs) (S.states m.epochs))
            (λ l. AllByRecursion (DropsOlder below (λ k. left_of_epoch (S.states self.epochs k))) (S.Wreck.left (wreck_of l).epochs)) }
        ensures bare { epoch < below → IfOk result (λ m. IsBare (S.states m.epochs epoch)) }
        ensures meta { IfOk result (λ m. m.meta ≡ self.meta) }
        ensures bounds { IfErr result (λ l. M.Wreck.left (wreck_of l).meta ≡ M.left self.meta) }
        ensures watched { IsCalm (λ m. shelf_watch S.keeps m.alarm (S.calm m.epochs && (M.watch m.meta).only_armed))
            (λ w. shelf_watch S.keeps w.alarm (S.Wreck.calm w.epochs && (M.Wreck.watch w.meta).only_armed))
            (shelf_watch S.keeps self.alarm (S.calm self.epochs && (M.watch self.meta).only_armed)) result }
    {
        if epoch >= below {
            return Ok(self);
        }
        let Manager {
            epochs,
            meta,
            alarm,
        } = self;
        match epochs.destroy(epoch) {
            Ok(epochs) => Ok(Manager {
                epochs,
                meta,
                alarm,
            }),
            Err(lost) => Err(lost_epochs(lost, meta, alarm)),
        }
    }

    // Destroys each of these epochs that is below another.
    fn destroy_all(self, listed: &[u64], below: u64) -> Result<Self, Lost<ManagerWreck<S, M>>>
        ensures done { MatchResult result (λ m. DropsOlder below (S.states self.epochs) (S.states m.epochs))
            (λ l. AllByRecursion (DropsOlder below (λ k. left_of_epoch (S.states self.epochs k))) (S.Wreck.left (wreck_of l).epochs)) }
        ensures bare { (k : ℕ) → Contains listed.now k → k < below → IfOk result (λ m. IsBare (S.states m.epochs k)) }
        ensures meta { IfOk result (λ m. m.meta ≡ self.meta) }
        ensures bounds { IfErr result (λ l. M.Wreck.left (wreck_of l).meta ≡ M.left self.meta) }
        ensures watched { IsCalm (λ m. shelf_watch S.keeps m.alarm (S.calm m.epochs && (M.watch m.meta).only_armed))
            (λ w. shelf_watch S.keeps w.alarm (S.Wreck.calm w.epochs && (M.Wreck.watch w.meta).only_armed))
            (shelf_watch S.keeps self.alarm (S.calm self.epochs && (M.watch self.meta).only_armed)) result }
    {
        let mut manager = self;
        let mut place = 0;
        while place < listed.len() {
            manager = manager.destroy_below(listed[place], below)?;
            place += 1;
        }
        Ok(manager)
    }
}
