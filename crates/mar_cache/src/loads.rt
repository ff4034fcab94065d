//! How a cache takes up what a crash left.
ghost use Rattle.std.specs.Prelude.{◌≡◌, ◌&&◌, ◌+◌, ◌-◌, ◌<◌, ℕ, [], true, false, Contains, IfErr, IfOk};
ghost use Rattle.std.specs.List.{AllByRecursion};
ghost use Rattle.mar_store.specs.Lost.{wreck_of};
ghost use Rattle.mar_store.specs.Watch.{Heeds, IsCalm};
ghost use Rattle.mar_cache.specs.Bounds.{bounds_of, includes};
ghost use Rattle.mar_epochs.specs.EpochStates.{KeepsOtherEpochs, HasSome, SameEpochs, is_opened, left_of_epoch};
ghost use Rattle.mar_epochs.specs.Picks.{PicksEpoch};
ghost use Rattle.mar_cache.specs.Shelved.{LeavesEpochs, OpensOrStays, nothing_gone, shelf_watch};

use crate::bounds::includes;
use crate::losses::{lost_epochs, lost_for};
use crate::manager::{Manager, ManagerWreck};
use mar_epochs::{Epochs, EpochsRuin};
use mar_store::{Lost, Meta, MetaRuin};

impl<S: Epochs, M: Meta> Manager<S, M> {
    // The epochs that are listed, among them each of which something is open or left; some may stand there twice.
    pub(crate) fn listed(self) -> Result<(Self, Vec<u64>), Lost<ManagerWreck<S, M>>>
        ensures found { IfOk result (λ r. (k : ℕ) → HasSome (S.states self.epochs k) → Contains r.1.items k) }
        ensures only { IfOk result (λ r. (k : ℕ) → Contains r.1.items k → S.lists self.epochs k ≡ true) }
        ensures same { IfOk result (λ r. SameEpochs (S.states self.epochs) (S.states r.0.epochs) × (r.0.meta ≡ self.meta)) }
        ensures picks { IfOk result (λ r. S.picks r.0.epochs ≡ S.picks self.epochs) }
        ensures ways { IfErr result (λ l. AllByRecursion (λ left. (k : ℕ) → left k ≡ left_of_epoch (S.states self.epochs k))
            (S.Wreck.left (wreck_of l).epochs)) }
        ensures bounds { IfErr result (λ l. M.Wreck.left (wreck_of l).meta ≡ M.left self.meta) }
        ensures watched { IsCalm (λ r. shelf_watch S.keeps r.0.alarm (S.calm r.0.epochs && (M.watch r.0.meta).only_armed))
            (λ w. shelf_watch S.keeps w.alarm (S.Wreck.calm w.epochs && (M.Wreck.watch w.meta).only_armed))
            (shelf_watch S.keeps self.alarm (S.calm self.epochs && (M.watch self.meta).only_armed)) result }
    {
        let Manager {
            mut epochs,
            meta,
            alarm,
        } = self;
        match epochs.list() {
            Ok(listed) => {
                let manager = Manager {
                    epochs,
                    meta,
                    alarm,
                };
                Ok((manager, listed))
            }
            Err(miss) => {
                let lost = lost_for(miss, epochs.wreck());
                Err(lost_epochs(lost, meta, alarm))
            }
        }
    }

    // Opens an epoch that lies from the lowest to the highest.
    fn open_within(self, epoch: u64) -> Result<Self, Lost<ManagerWreck<S, M>>>
        ensures done { IfOk result (λ m. OpensOrStays (S.states self.epochs epoch) (S.states m.epochs epoch)
            × KeepsOtherEpochs epoch (S.states self.epochs) (S.states m.epochs)) }
        ensures opened { includes (bounds_of (M.current self.meta)) epoch ≡ true → IfOk result (λ m. is_opened (S.states m.epochs epoch) ≡ true) }
        ensures picked { IfOk result (λ m. PicksEpoch (S.picks self.epochs) (S.states self.epochs epoch) (S.states m.epochs epoch)
            × (S.picks m.epochs ≡ S.picks self.epochs)) }
        ensures stays { includes (bounds_of (M.current self.meta)) epoch ≡ false → IfOk result (λ m. m.epochs ≡ self.epochs) }
        ensures meta { IfOk result (λ m. m.meta ≡ self.meta) }
        ensures ways { IfErr result (λ l. AllByRecursion (LeavesEpochs (λ k. []) nothing_gone (S.states self.epochs)) (S.Wreck.left (wreck_of l).epochs)) }
        ensures bounds { IfErr result (λ l. M.Wreck.left (wreck_of l).meta ≡ M.left self.meta) }
        ensures watched { IsCalm (λ m. shelf_watch S.keeps m.alarm (S.calm m.epochs && (M.watch m.meta).only_armed))
            (λ w. shelf_watch S.keeps w.alarm (S.Wreck.calm w.epochs && (M.Wreck.watch w.meta).only_armed))
            (shelf_watch S.keeps self.alarm (S.calm self.epochs && (M.watch self.meta).only_armed)) result }
    {
        if !includes(&self.meta, epoch) {
            return Ok(self);
        }
        self.open(epoch)
    }

    /// Opens each epoch of which something is left, which all lie from the lowest to the highest. One that isn't listed stays shut.
    pub fn load_persisted_epochs(self) -> Result<Self, Lost<ManagerWreck<S, M>>>
        ensures done { IfOk result (λ m. (k : ℕ) → OpensOrStays (S.states self.epochs k) (S.states m.epochs k)) }
        ensures opened { (k : ℕ) → HasSome (S.states self.epochs k) → IfOk result (λ m. is_opened (S.states m.epochs k) ≡ true) }
        ensures picked { IfOk result (λ m. (k : ℕ) → PicksEpoch (S.picks self.epochs) (S.states self.epochs k) (S.states m.epochs k)) }
        ensures stays { (k : ℕ) → includes (bounds_of (M.current self.meta)) k ≡ false → IfOk result (λ m. S.states m.epochs k ≡ S.states self.epochs k) }
        ensures shut { (k : ℕ) → S.lists self.epochs k ≡ false → IfOk result (λ m. S.states m.epochs k ≡ S.states self.epochs k) }
        ensures meta { IfOk result (λ m. m.meta ≡ self.meta) }
        ensures ways { IfErr result (λ l. AllByRecursion (LeavesEpochs (λ k. []) nothing_gone (S.states self.epochs)) (S.Wreck.left (wreck_of l).epochs)) }
        ensures bounds { IfErr result (λ l. M.Wreck.left (wreck_of l).meta ≡ M.left self.meta) }
        ensures watched { Heeds (λ m. shelf_watch S.keeps m.alarm (S.calm m.epochs && (M.watch m.meta).only_armed))
            (λ w. shelf_watch S.keeps w.alarm (S.Wreck.calm w.epochs && (M.Wreck.watch w.meta).only_armed))
            (shelf_watch S.keeps self.alarm (S.calm self.epochs && (M.watch self.meta).only_armed)) result }
    {
        let manager = self.begin()?;
        let (manager, listed) = manager.listed()?;
        manager.open_all(&listed)
    }

    // Opens each of these epochs that lies within the bounds.
    fn open_all(self, listed: &[u64]) -> Result<Self, Lost<ManagerWreck<S, M>>>
        ensures done { IfOk result (λ m. (k : ℕ) → OpensOrStays (S.states self.epochs k) (S.states m.epochs k)) }
        ensures opened { (k : ℕ) → includes (bounds_of (M.current self.meta)) k ≡ true → Contains listed.now k
            → IfOk result (λ m. is_opened (S.states m.epochs k) ≡ true) }
        ensures picked { IfOk result (λ m. (k : ℕ) → PicksEpoch (S.picks self.epochs) (S.states self.epochs k) (S.states m.epochs k)) }
        ensures stays { (k : ℕ) → includes (bounds_of (M.current self.meta)) k ≡ false → IfOk result (λ m. S.states m.epochs k ≡ S.states self.epochs k) }
        ensures others { (k : ℕ) → (Contains listed.now k → ⊥) → IfOk result (λ m. S.states m.epochs k ≡ S.states self.epochs k) }
        ensures meta { IfOk result (λ m. m.meta ≡ self.meta) }
        ensures ways { IfErr result (λ l. AllByRecursion (LeavesEpochs (λ k. []) nothing_gone (S.states self.epochs)) (S.Wreck.left (wreck_of l).epochs)) }
        ensures bounds { IfErr result (λ l. M.Wreck.left (wreck_of l).meta ≡ M.left self.meta) }
        ensures watched { IsCalm (λ m. shelf_watch S.keeps m.alarm (S.calm m.epochs && (M.watch m.meta).only_armed))
            (λ w. shelf_watch S.keeps w.alarm (S.Wreck.calm w.epochs && (M.Wreck.watch w.meta).only_armed))
            (shelf_watch S.keeps self.alarm (S.calm self.epochs && (M.watch self.meta).only_armed)) result }
    {
        let mut manager = self;
        let mut place = 0;
        while place < listed.len() {
            manager = manager.open_within(listed[place])?;
            place += 1;
        }
        Ok(manager)
    }
}
