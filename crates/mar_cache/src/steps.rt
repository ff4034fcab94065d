//! What the calls of a cache are made of: changes of one epoch, and of the bounds.
ghost use Rattle.std.specs.Prelude.{◌≡◌, ◌&&◌, ◌+◌, ◌-◌, ◌<◌, ◌++◌, ◌∷◌, ℕ, [], true, IfErr, IfOk, MatchResult, if◌then◌else◌, map, nat_le, not};
ghost use Rattle.std.specs.List.{AllByRecursion};
ghost use Rattle.mar_store.specs.Changes.{Within};
ghost use Rattle.mar_store.specs.Lost.{wreck_of};
ghost use Rattle.mar_store.specs.Watch.{IsCalm};
ghost use Rattle.mar_model.specs.Cached.{epoch_of};
ghost use Rattle.mar_cache.specs.Bounds.{LeavesBounds, bounds_of, includes};
ghost use Rattle.mar_epochs.specs.EpochStates.{ChangesEpoch, KeepsOtherEpochs, IsBare, IsSettledEpoch, LosesEpoch, OpensEpoch, left_of_epoch, none_gone};
ghost use Rattle.mar_epochs.specs.Picks.{PicksEpoch};
ghost use Rattle.mar_epochs.specs.EpochArchives.{is_kept, puts_of};
ghost use Rattle.mar_cache.specs.Shelved.{LieWithin, pruned_bounds, raised, shelf_watch};

use crate::bounds::{highest, lowest, write_bounds};
use crate::losses::{lost_epochs, lost_meta};
use crate::manager::{Manager, ManagerWreck};
use mar_epochs::{AsEntry, Change, Epochs, EpochsRuin};
use mar_store::{Lost, Meta, MetaRuin};
use mar_types::Round;

impl<S: Epochs, M: Meta> Manager<S, M> {
    // Makes the lowest and the highest epoch durable.
    pub(crate) fn keep_bounds(
        self,
        lowest: u64,
        highest: u64,
    ) -> Result<Self, Lost<ManagerWreck<S, M>>>
        requires within { LieWithin (S.states self.epochs) (record { lowest = lowest; highest = highest }) }
        ensures epochs { IfOk result (λ m. m.epochs ≡ self.epochs) }
        ensures done { MatchResult result
            (λ m. (bounds_of (M.current m.meta) ≡ record { lowest = lowest; highest = highest })
            × (map bounds_of (M.left m.meta) ≡ record { lowest = lowest; highest = highest } ∷ []))
            (λ l. LeavesBounds (map bounds_of (M.left self.meta)) (record { lowest = lowest; highest = highest } ∷ [])
            (map bounds_of (M.Wreck.left (wreck_of l).meta))) }
        ensures ways { IfErr result (λ l. AllByRecursion (λ left. (k : ℕ) → left k ≡ left_of_epoch (S.states self.epochs k))
            (S.Wreck.left (wreck_of l).epochs)) }
        ensures watched { IsCalm (λ m. shelf_watch S.keeps m.alarm (S.calm m.epochs && (M.watch m.meta).only_armed))
            (λ w. shelf_watch S.keeps w.alarm (S.Wreck.calm w.epochs && (M.Wreck.watch w.meta).only_armed))
            (shelf_watch S.keeps self.alarm (S.calm self.epochs && (M.watch self.meta).only_armed)) result }
    {
        let Manager {
            epochs,
            meta,
            alarm,
        } = self;
        match write_bounds(meta, lowest, highest) {
            Ok(meta) => Ok(Manager {
                epochs,
                meta,
                alarm,
            }),
            Err(lost) => Err(lost_meta(epochs, lost, alarm)),
        }
    }

    // Makes an epoch above the highest the highest.
    pub(crate) fn raise(self, epoch: u64) -> Result<Self, Lost<ManagerWreck<S, M>>>
        ensures epochs { IfOk result (λ m. m.epochs ≡ self.epochs) }
        ensures raises { IfOk result (λ m. (bounds_of (M.current m.meta) ≡ raised epoch (bounds_of (M.current self.meta)))
            × (map bounds_of (M.left m.meta) ≡ (if nat_le epoch (bounds_of (M.current self.meta)).highest
            then map bounds_of (M.left self.meta)
            else raised epoch (bounds_of (M.current self.meta)) ∷ []))) }
        ensures ways { IfErr result (λ l. AllByRecursion (λ left. (k : ℕ) → left k ≡ left_of_epoch (S.states self.epochs k))
            (S.Wreck.left (wreck_of l).epochs)) }
        ensures bounds { IfErr result (λ l. LeavesBounds (map bounds_of (M.left self.meta)) (raised epoch (bounds_of (M.current self.meta)) ∷ [])
            (map bounds_of (M.Wreck.left (wreck_of l).meta))) }
        ensures watched { IsCalm (λ m. shelf_watch S.keeps m.alarm (S.calm m.epochs && (M.watch m.meta).only_armed))
            (λ w. shelf_watch S.keeps w.alarm (S.Wreck.calm w.epochs && (M.Wreck.watch w.meta).only_armed))
            (shelf_watch S.keeps self.alarm (S.calm self.epochs && (M.watch self.meta).only_armed)) result }
    {
        let (low, high) = (lowest(&self.meta), highest(&self.meta));
        if epoch <= high {
            return Ok(self);
        }
        self.keep_bounds(low, epoch)
    }

    // Makes a round's epoch the lowest where it is above that, and the highest where it is above that.
    // Nothing is left of older epochs.
    pub(crate) fn raise_lowest(self, round: Round) -> Result<Self, Lost<ManagerWreck<S, M>>>
        requires older { (k : ℕ) → k < round.epoch → IsBare (S.states self.epochs k) }
        ensures epochs { IfOk result (λ m. m.epochs ≡ self.epochs) }
        ensures raises { IfOk result (λ m. bounds_of (M.current m.meta) ≡ pruned_bounds round (bounds_of (M.current self.meta))) }
        ensures ways { IfErr result (λ l. AllByRecursion (λ left. (k : ℕ) → left k ≡ left_of_epoch (S.states self.epochs k))
            (S.Wreck.left (wreck_of l).epochs)) }
        ensures bounds { IfErr result (λ l. Within (map bounds_of (M.Wreck.left (wreck_of l).meta))
            (map bounds_of (M.left self.meta) ++ pruned_bounds round (bounds_of (M.current self.meta)) ∷ [])) }
        ensures watched { IsCalm (λ m. shelf_watch S.keeps m.alarm (S.calm m.epochs && (M.watch m.meta).only_armed))
            (λ w. shelf_watch S.keeps w.alarm (S.Wreck.calm w.epochs && (M.Wreck.watch w.meta).only_armed))
            (shelf_watch S.keeps self.alarm (S.calm self.epochs && (M.watch self.meta).only_armed)) result }
    {
        let epoch = round.epoch().get();
        let (low, high) = (lowest(&self.meta), highest(&self.meta));
        if epoch <= low {
            return Ok(self);
        }
        self.keep_bounds(epoch, high.max(epoch))
    }

    // Opens an epoch that lies from the lowest to the highest, where it isn't open.
    pub(crate) fn open(self, epoch: u64) -> Result<Self, Lost<ManagerWreck<S, M>>>
        requires inside { includes (bounds_of (M.current self.meta)) epoch ≡ true }
        ensures done { MatchResult result
            (λ m. OpensEpoch (S.states self.epochs epoch) (S.states m.epochs epoch) × KeepsOtherEpochs epoch (S.states self.epochs) (S.states m.epochs))
            (λ l. AllByRecursion (LosesEpoch epoch (S.states self.epochs epoch) [] none_gone (S.states self.epochs)) (S.Wreck.left (wreck_of l).epochs)) }
        ensures picked { IfOk result (λ m. PicksEpoch (S.picks self.epochs) (S.states self.epochs epoch) (S.states m.epochs epoch)
            × (S.picks m.epochs ≡ S.picks self.epochs)) }
        ensures meta { IfOk result (λ m. m.meta ≡ self.meta) }
        ensures bounds { IfErr result (λ l. M.Wreck.left (wreck_of l).meta ≡ M.left self.meta) }
        ensures watched { IsCalm (λ m. shelf_watch S.keeps m.alarm (S.calm m.epochs && (M.watch m.meta).only_armed))
            (λ w. shelf_watch S.keeps w.alarm (S.Wreck.calm w.epochs && (M.Wreck.watch w.meta).only_armed))
            (shelf_watch S.keeps self.alarm (S.calm self.epochs && (M.watch self.meta).only_armed)) result }
    {
        if self.epochs.is_open(epoch) {
            return Ok(self);
        }
        let Manager {
            epochs,
            meta,
            alarm,
        } = self;
        match epochs.open(epoch) {
            Ok(epochs) => Ok(Manager {
                epochs,
                meta,
                alarm,
            }),
            Err(lost) => Err(lost_epochs(lost, meta, alarm)),
        }
    }

    // Changes an epoch, where it is open. What is put is of that epoch.
    pub(crate) fn change(
        self,
        epoch: u64,
        change: Change<S::Entry>,
    ) -> Result<Self, Lost<ManagerWreck<S, M>>>
        requires own { AllByRecursion (λ x. epoch_of x ≡ epoch) (puts_of S.Entry.plain change) }
        ensures done { MatchResult result
            (λ m. ChangesEpoch S.Entry.plain change (S.states self.epochs epoch) (S.states m.epochs epoch)
            × KeepsOtherEpochs epoch (S.states self.epochs) (S.states m.epochs))
            (λ l. AllByRecursion (LosesEpoch epoch (S.states self.epochs epoch) (puts_of S.Entry.plain change) (λ x. not (is_kept change x))
            (S.states self.epochs)) (S.Wreck.left (wreck_of l).epochs)) }
        ensures settled { IsSettledEpoch change (S.states self.epochs epoch) → IfOk result (λ m. S.states m.epochs epoch ≡ S.states self.epochs epoch) }
        ensures meta { IfOk result (λ m. m.meta ≡ self.meta) }
        ensures bounds { IfErr result (λ l. M.Wreck.left (wreck_of l).meta ≡ M.left self.meta) }
        ensures watched { IsCalm (λ m. shelf_watch S.keeps m.alarm (S.calm m.epochs && (M.watch m.meta).only_armed))
            (λ w. shelf_watch S.keeps w.alarm (S.Wreck.calm w.epochs && (M.Wreck.watch w.meta).only_armed))
            (shelf_watch S.keeps self.alarm (S.calm self.epochs && (M.watch self.meta).only_armed)) result }
    {
        let Manager {
            epochs,
            meta,
            alarm,
        } = self;
        match epochs.change(epoch, change) {
            Ok(epochs) => Ok(Manager {
                epochs,
                meta,
                alarm,
            }),
            Err(lost) => Err(lost_epochs(lost, meta, alarm)),
        }
    }
}
