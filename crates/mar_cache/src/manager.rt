//! The epoch cache over epochs and a metadata store.
ghost use Rattle.std.specs.Prelude.{◌≡◌, ◌&&◌, ◌-◌, ◌<◌, ◌∷◌, ℕ, [], option_map, false, Contains, OnErr, OnOk, IfErr, IfOk, length, map};
ghost use Rattle.std.specs.List.{AllByRecursion};
ghost use Rattle.mar_store.specs.Changes.{Within};
ghost use Rattle.mar_store.specs.Lost.{wreck_of};
ghost use Rattle.mar_store.specs.Watch.{Heeds, HeedsRead, IsCalm, armed};
ghost use Rattle.mar_model.specs.Sections.{first_found};
ghost use Rattle.mar_cache.specs.Bounds.{Bounds, bounds_of};
ghost use Rattle.mar_epochs.specs.EpochStates.{IsNewest, MightBe, held_in, is_opened, left_of_epoch};
ghost use Rattle.mar_epochs.specs.Picks.{picks_by};
ghost use Rattle.mar_cache.specs.Shelved.{AllLieWithin, LieWithin, shelf_watch};

use crate::losses::{alarm_after, lost_meta};
use mar_epochs::{AsEntry, Epochs, EpochsRuin, copied, lost_by, parts_of};
use mar_store::{Alarm, Lost, Meta, MetaRuin, Miss};
use std::alloc::{AllocError, Global};

/// The epoch cache: its epochs, and the lowest and the highest of them as a metadata store keeps them.
#[derive(Drop)]
pub struct Manager<S: Epochs, M: Meta> {
    pub(crate) epochs: S,
    pub(crate) meta: M,
    pub(crate) alarm: Alarm,
    pub ghost unchanged: { M.changed meta ≡ [] },
    pub ghost quiet: { (M.watch meta).due ≡ [] },
    pub ghost durable: { map bounds_of (M.left meta) ≡ bounds_of (M.current meta) ∷ [] },
    pub ghost within: { LieWithin (S.states epochs) (bounds_of (M.current meta)) },
}

/// What is left of the epoch cache.
#[derive(Drop)]
pub struct ManagerWreck<S: Epochs, M: Meta> {
    pub(crate) epochs: S::Wreck,
    pub(crate) meta: M::Wreck,
    pub(crate) alarm: Alarm,
    pub(crate) short: bool,
    pub ghost quiet: { (M.Wreck.watch meta).due ≡ [] },
    pub ghost within: { AllLieWithin (S.Wreck.left epochs) (map bounds_of (M.Wreck.left meta)) },
}

impl<S: Epochs, M: Meta> Manager<S, M> {
    /// The cache over epochs and a store whose changes are durable, and of which no call is armed. What there is of
    /// epochs lies from the lowest to the highest that the store keeps, and each entry is of the epoch where it stands.
    pub fn new(alloc: Global, epochs: S, meta: M) -> Self
        requires unchanged { M.changed meta ≡ [] }
        requires quiet { (M.watch meta).due ≡ [] }
        requires durable { map bounds_of (M.left meta) ≡ bounds_of (M.current meta) ∷ [] }
        requires within { LieWithin (S.states epochs) (bounds_of (M.current meta)) }
        ensures epochs { result.epochs ≡ epochs }
        ensures meta { result.meta ≡ meta }
        ensures alarm { (result.alarm.due.items ≡ []) × (result.alarm.faults ≡ 0) }
    {
        Manager {
            epochs,
            meta,
            alarm: Alarm::new(alloc),
        }
    }

    // Counts a call, which fails where it is armed.
    pub(crate) fn begin(self) -> Result<Self, Lost<ManagerWreck<S, M>>>
        ensures epochs { IfOk result (λ m. m.epochs ≡ self.epochs) }
        ensures meta { IfOk result (λ m. m.meta ≡ self.meta) }
        ensures ways { IfErr result (λ l. AllByRecursion (λ left. (k : ℕ) → left k ≡ left_of_epoch (S.states self.epochs k))
            (S.Wreck.left (wreck_of l).epochs)) }
        ensures bounds { IfErr result (λ l. M.Wreck.left (wreck_of l).meta ≡ M.left self.meta) }
        ensures watched { Heeds (λ m. shelf_watch S.keeps m.alarm (S.calm m.epochs && (M.watch m.meta).only_armed))
            (λ w. shelf_watch S.keeps w.alarm (S.Wreck.calm w.epochs && (M.Wreck.watch w.meta).only_armed))
            (shelf_watch S.keeps self.alarm (S.calm self.epochs && (M.watch self.meta).only_armed)) result }
    {
        let Manager {
            epochs,
            meta,
            mut alarm,
        } = self;
        let rings = alarm.rings();
        let manager = Manager {
            epochs,
            meta,
            alarm,
        };
        if rings {
            return Err(Lost::Fault(manager.wreck()));
        }
        Ok(manager)
    }

    /// The entry that is looked for in an epoch, where that is open.
    pub fn find_in(
        &mut self,
        epoch: u64,
        wanted: &<S::Entry as AsEntry>::Wanted,
    ) -> Result<Option<S::Entry>, Miss>
        ensures found { IfOk result (λ o. option_map S.Entry.plain o ≡ first_found (S.Entry.wants wanted.now) (held_in (S.states self.old.epochs epoch))) }
        ensures epochs { self.new.epochs ≡ self.old.epochs }
        ensures meta { self.new.meta ≡ self.old.meta }
        ensures watched { HeedsRead (shelf_watch S.keeps self.old.alarm (S.calm self.old.epochs && (M.watch self.old.meta).only_armed))
            (shelf_watch S.keeps self.new.alarm (S.calm self.new.epochs && (M.watch self.new.meta).only_armed)) result }
    {
        if self.alarm.rings() {
            return Err(Miss::Fault);
        }
        copied(self.epochs.find_in(epoch, wanted))
    }

    /// The entry that is looked for in the newest epoch that has it.
    pub fn find(&mut self, wanted: &<S::Entry as AsEntry>::Wanted) -> Result<Option<S::Entry>, Miss>
        ensures found { IfOk result (λ o. IsNewest (S.Entry.wants wanted.now) (S.states self.old.epochs) (option_map S.Entry.plain o)) }
        ensures epochs { self.new.epochs ≡ self.old.epochs }
        ensures meta { self.new.meta ≡ self.old.meta }
        ensures watched { HeedsRead (shelf_watch S.keeps self.old.alarm (S.calm self.old.epochs && (M.watch self.old.meta).only_armed))
            (shelf_watch S.keeps self.new.alarm (S.calm self.new.epochs && (M.watch self.new.meta).only_armed)) result }
    {
        if self.alarm.rings() {
            return Err(Miss::Fault);
        }
        copied(self.epochs.find(wanted))
    }

    /// What a crash now leaves.
    pub fn wreck(self) -> ManagerWreck<S, M>
        ensures ways { AllByRecursion (λ left. (k : ℕ) → left k ≡ left_of_epoch (S.states self.epochs k)) (S.Wreck.left result.epochs) }
        ensures one { length (S.Wreck.left result.epochs) ≡ 1 }
        ensures bounds { M.Wreck.left result.meta ≡ M.left self.meta }
        ensures watch { shelf_watch S.keeps result.alarm (S.Wreck.calm result.epochs && (M.Wreck.watch result.meta).only_armed)
            ≡ shelf_watch S.keeps self.alarm (S.calm self.epochs && (M.watch self.meta).only_armed) }
    {
        ManagerWreck {
            epochs: self.epochs.wreck(),
            meta: self.meta.wreck(),
            alarm: self.alarm,
            short: false,
        }
    }

    /// Takes up what a crash left; no epoch is open. Luck picks among what may be left, now and where an epoch is opened.
    pub fn reopen(wreck: ManagerWreck<S, M>, luck: u64) -> Result<Self, Lost<ManagerWreck<S, M>>>
        ensures states { IfOk result (λ m. MightBe (S.Wreck.left wreck.epochs) (S.states m.epochs)) }
        ensures shut { IfOk result (λ m. (k : ℕ) → is_opened (S.states m.epochs k) ≡ false) }
        ensures picks { IfOk result (λ m. S.picks m.epochs ≡ picks_by S.keeps luck) }
        ensures bounds { IfOk result (λ m. Contains (M.Wreck.left wreck.meta) (M.current m.meta) × (M.left m.meta ≡ M.current m.meta ∷ [])) }
        ensures ways { IfErr result (λ l. AllByRecursion (MightBe (S.Wreck.left wreck.epochs)) (S.Wreck.left (wreck_of l).epochs)) }
        ensures left { IfErr result (λ l. Within (M.Wreck.left (wreck_of l).meta) (M.Wreck.left wreck.meta)) }
        ensures watched { Heeds (λ m. shelf_watch S.keeps m.alarm (S.calm m.epochs && (M.watch m.meta).only_armed))
            (λ w. shelf_watch S.keeps w.alarm (S.Wreck.calm w.epochs && (M.Wreck.watch w.meta).only_armed))
            (shelf_watch S.keeps wreck.alarm (S.Wreck.calm wreck.epochs && (M.Wreck.watch wreck.meta).only_armed)) result }
    {
        let ManagerWreck {
            epochs,
            meta,
            mut alarm,
            short,
        } = wreck;
        if alarm.rings() {
            return Err(Lost::Fault(ManagerWreck {
                epochs,
                meta,
                alarm,
                short,
            }));
        }
        match S::reopen(epochs, luck) {
            Ok(epochs) => with_reopened(epochs, meta, alarm, luck),
            Err(lost) => {
                let (failed, epochs) = parts_of(lost);
                let wreck = ManagerWreck {
                    epochs,
                    meta,
                    alarm: alarm_after(alarm, failed),
                    short: false,
                };
                Err(lost_by(failed, wreck))
            }
        }
    }

    /// Makes the counted call fail that is so many calls away, 1 being the next. Each public call is counted, but for
    /// `wreck` and this one.
    pub fn arm(&mut self, calls: u64) -> Result<(), AllocError>
        ensures armed { OnOk result (shelf_watch S.keeps self.new.alarm (S.calm self.new.epochs && (M.watch self.new.meta).only_armed)
            ≡ armed calls (shelf_watch S.keeps self.old.alarm (S.calm self.old.epochs && (M.watch self.old.meta).only_armed))) }
        ensures unarmed { OnErr result (shelf_watch S.keeps self.new.alarm (S.calm self.new.epochs && (M.watch self.new.meta).only_armed)
            ≡ shelf_watch S.keeps self.old.alarm (S.calm self.old.epochs && (M.watch self.old.meta).only_armed)) }
        ensures epochs { self.new.epochs ≡ self.old.epochs }
        ensures meta { self.new.meta ≡ self.old.meta }
    {
        self.alarm.arm(calls)
    }
}

impl<S: Epochs, M: Meta> ManagerWreck<S, M> {
    /// Makes the counted call fail that is so many calls away, 1 being the next, which is the reopening.
    pub fn arm(&mut self, calls: u64) -> Result<(), AllocError>
        ensures armed { OnOk result (shelf_watch S.keeps self.new.alarm (S.Wreck.calm self.new.epochs && (M.Wreck.watch self.new.meta).only_armed)
            ≡ armed calls (shelf_watch S.keeps self.old.alarm (S.Wreck.calm self.old.epochs && (M.Wreck.watch self.old.meta).only_armed))) }
        ensures unarmed { OnErr result (shelf_watch S.keeps self.new.alarm (S.Wreck.calm self.new.epochs && (M.Wreck.watch self.new.meta).only_armed)
            ≡ shelf_watch S.keeps self.old.alarm (S.Wreck.calm self.old.epochs && (M.Wreck.watch self.old.meta).only_armed)) }
        ensures epochs { self.new.epochs ≡ self.old.epochs }
        ensures meta { self.new.meta ≡ self.old.meta }
        ensures short { self.new.short ≡ self.old.short }
    {
        self.alarm.arm(calls)
    }
}

// The cache over epochs that were reopened; its metadata is reopened too.
fn with_reopened<S: Epochs, M: Meta>(
    epochs: S,
    meta: M::Wreck,
    alarm: Alarm,
    luck: u64,
) -> Result<Manager<S, M>, Lost<ManagerWreck<S, M>>>
    requires quiet { (M.Wreck.watch meta).due ≡ [] }
    requires within { (b : Bounds) → Contains (map bounds_of (M.Wreck.left meta)) b → LieWithin (S.states epochs) b }
    ensures epochs { IfOk result (λ m. m.epochs ≡ epochs) }
    ensures bounds { IfOk result (λ m. Contains (M.Wreck.left meta) (M.current m.meta) × (M.left m.meta ≡ M.current m.meta ∷ [])) }
    ensures ways { IfErr result (λ l. AllByRecursion (λ left. (k : ℕ) → left k ≡ left_of_epoch (S.states epochs k)) (S.Wreck.left (wreck_of l).epochs)) }
    ensures left { IfErr result (λ l. Within (M.Wreck.left (wreck_of l).meta) (M.Wreck.left meta)) }
    ensures watched { IsCalm (λ m. shelf_watch S.keeps m.alarm (S.calm m.epochs && (M.watch m.meta).only_armed))
        (λ w. shelf_watch S.keeps w.alarm (S.Wreck.calm w.epochs && (M.Wreck.watch w.meta).only_armed))
        (shelf_watch S.keeps alarm (S.calm epochs && (M.Wreck.watch meta).only_armed)) result }
{
    match M::reopen(meta, luck) {
        Ok(meta) => Ok(Manager {
            epochs,
            meta,
            alarm,
        }),
        Err(lost) => Err(lost_meta(epochs, lost, alarm)),
    }
}
