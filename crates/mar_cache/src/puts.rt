//! Puts of a cache, and the syncs of its archives.
ghost use Rattle.std.specs.Prelude.{◌≡◌, ◌&&◌, ◌+◌, ◌-◌, ◌<◌, ◌≤◌, ◌++◌, ◌∷◌, [], true, false, IfErr, IfOk, if◌then◌else◌, map, nat_le};
ghost use Rattle.std.specs.List.{AllByRecursion};
ghost use Rattle.mar_store.specs.Changes.{Within};
ghost use Rattle.mar_store.specs.Lost.{wreck_of};
ghost use Rattle.mar_store.specs.Watch.{Heeds, IsCalm, armed};
ghost use Rattle.mar_model.specs.Cached.{epoch_of};
ghost use Rattle.mar_model.specs.Sections.{section_of};
ghost use Rattle.mar_cache.specs.Bounds.{bounds_of};
ghost use Rattle.mar_epochs.specs.EpochStates.{KeepsOtherEpochs};
ghost use Rattle.mar_epochs.specs.EpochArchives.{is_fault};
ghost use Rattle.mar_cache.specs.Shelved.{AllChanges, DoesAt, FailsAgain, IsDoneInPart, IsStarted, LeavesEpochs, at_epoch, finishes, nothing_gone, raised, shelf_watch};

use crate::bounds::lowest;
use crate::losses::cut_short;
use crate::manager::{Manager, ManagerWreck};
use mar_epochs::{AsEntry, Change, Epochs, EpochsRuin};
use mar_model::{CacheTicket, Section, SectionSync, Started};
use mar_store::{Lost, Meta, MetaRuin};

impl<S: Epochs, M: Meta> Manager<S, M> {
    // Puts an entry, into its epoch, which isn't below the lowest and is opened where it isn't open.
    fn put(self, entry: S::Entry) -> Result<Self, Lost<ManagerWreck<S, M>>>
        requires above { (bounds_of (M.current self.meta)).lowest ≤ epoch_of (S.Entry.plain entry) }
        ensures done { IfOk result (λ m. DoesAt S.Entry.plain (epoch_of (S.Entry.plain entry)) (Change.Put entry ∷ [])
            (S.states self.epochs) (S.states m.epochs)) }
        ensures raises { IfOk result (λ m. (bounds_of (M.current m.meta) ≡ raised (epoch_of (S.Entry.plain entry)) (bounds_of (M.current self.meta)))
            × (map bounds_of (M.left m.meta) ≡ (if nat_le (epoch_of (S.Entry.plain entry)) (bounds_of (M.current self.meta)).highest
            then map bounds_of (M.left self.meta)
            else raised (epoch_of (S.Entry.plain entry)) (bounds_of (M.current self.meta)) ∷ []))) }
        ensures ways { IfErr result (λ l. AllByRecursion
            (LeavesEpochs (at_epoch (epoch_of (S.Entry.plain entry)) (S.Entry.plain entry ∷ [])) nothing_gone (S.states self.epochs))
            (S.Wreck.left (wreck_of l).epochs)) }
        ensures bounds { IfErr result (λ l. Within (map bounds_of (M.Wreck.left (wreck_of l).meta))
            (map bounds_of (M.left self.meta) ++ raised (epoch_of (S.Entry.plain entry)) (bounds_of (M.current self.meta)) ∷ [])) }
        ensures watched { IsCalm (λ m. shelf_watch S.keeps m.alarm (S.calm m.epochs && (M.watch m.meta).only_armed))
            (λ w. shelf_watch S.keeps w.alarm (S.Wreck.calm w.epochs && (M.Wreck.watch w.meta).only_armed))
            (shelf_watch S.keeps self.alarm (S.calm self.epochs && (M.watch self.meta).only_armed)) result }
    {
        let epoch = entry.epoch().get();
        let manager = self.raise(epoch)?;
        let manager = manager.open(epoch)?;
        manager.change(epoch, Change::Put(entry))
    }

    // Counts a put, which fails where it is armed: then it is done, but for its sync.
    fn begin_put(self, entry: S::Entry) -> Result<(Self, S::Entry), Lost<ManagerWreck<S, M>>>
        ensures epochs { IfOk result (λ r. r.0.epochs ≡ self.epochs) }
        ensures meta { IfOk result (λ r. r.0.meta ≡ self.meta) }
        ensures entry { IfOk result (λ r. r.1 ≡ entry) }
        ensures ways { IfErr result (λ l. AllByRecursion
            (LeavesEpochs (at_epoch (epoch_of (S.Entry.plain entry)) (S.Entry.plain entry ∷ [])) nothing_gone (S.states self.epochs))
            (S.Wreck.left (wreck_of l).epochs)) }
        ensures bounds { IfErr result (λ l. Within (map bounds_of (M.Wreck.left (wreck_of l).meta))
            (map bounds_of (M.left self.meta) ++ raised (epoch_of (S.Entry.plain entry)) (bounds_of (M.current self.meta)) ∷ [])) }
        ensures written { IfErr result (λ l. (wreck_of l).short ≡ false → IsDoneInPart S.Entry.plain entry S.keeps (bounds_of (M.current self.meta))
            (S.states self.epochs) (S.Wreck.left (wreck_of l).epochs) (map bounds_of (M.Wreck.left (wreck_of l).meta))) }
        ensures watched { Heeds (λ r. shelf_watch S.keeps r.0.alarm (S.calm r.0.epochs && (M.watch r.0.meta).only_armed))
            (λ w. shelf_watch S.keeps w.alarm (S.Wreck.calm w.epochs && (M.Wreck.watch w.meta).only_armed))
            (shelf_watch S.keeps self.alarm (S.calm self.epochs && (M.watch self.meta).only_armed)) result }
    {
        let Manager {
            epochs,
            meta,
            mut alarm,
        } = self;
        let rings = alarm.rings();
        let manager = Manager {
            epochs,
            meta,
            alarm,
        };
        if rings {
            return Err(Lost::Fault(manager.put_in_part(entry)));
        }
        Ok((manager, entry))
    }

    // What an armed put leaves: it is done, but for its sync. Nothing is done where its epoch is below the lowest.
    fn put_in_part(self, entry: S::Entry) -> ManagerWreck<S, M>
        ensures ways { AllByRecursion
            (LeavesEpochs (at_epoch (epoch_of (S.Entry.plain entry)) (S.Entry.plain entry ∷ [])) nothing_gone (S.states self.epochs))
            (S.Wreck.left result.epochs) }
        ensures bounds { Within (map bounds_of (M.Wreck.left result.meta))
            (map bounds_of (M.left self.meta) ++ raised (epoch_of (S.Entry.plain entry)) (bounds_of (M.current self.meta)) ∷ []) }
        ensures written { result.short ≡ false → IsDoneInPart S.Entry.plain entry S.keeps (bounds_of (M.current self.meta))
            (S.states self.epochs) (S.Wreck.left result.epochs) (map bounds_of (M.Wreck.left result.meta)) }
        ensures watch { FailsAgain (shelf_watch S.keeps self.alarm (S.calm self.epochs && (M.watch self.meta).only_armed))
            (shelf_watch S.keeps result.alarm (S.Wreck.calm result.epochs && (M.Wreck.watch result.meta).only_armed)) }
    {
        let epoch = entry.epoch().get();
        if epoch < lowest(&self.meta) {
            return self.wreck();
        }
        match self.put(entry) {
            Ok(manager) => manager.wreck(),
            Err(lost) => cut_short(lost),
        }
    }

    // A sync of an archive that starts now, where its epoch is open.
    fn started(&self, epoch: u64, section: Section) -> Started
        ensures { IsStarted (S.states self.now.epochs epoch) epoch section result }
    {
        match self.epochs.ticket(epoch) {
            None => Started::Ready,
            Some(number) => Started::Ticket(CacheTicket {
                epoch,
                first: SectionSync { section, number },
                second: None,
            }),
        }
    }

    /// Puts an entry and starts a sync of its archive; nothing is done where its epoch is below the lowest.
    pub fn put_and_start(self, entry: S::Entry) -> Result<(Self, Started), Lost<ManagerWreck<S, M>>>
        ensures ready { (epoch_of (S.Entry.plain entry)) < (bounds_of (M.current self.meta)).lowest
            → IfOk result (λ r. (r.1 ≡ Started.Ready) × (r.0.epochs ≡ self.epochs) × (r.0.meta ≡ self.meta)) }
        ensures done { (bounds_of (M.current self.meta)).lowest ≤ (epoch_of (S.Entry.plain entry))
            → IfOk result (λ r. DoesAt S.Entry.plain (epoch_of (S.Entry.plain entry)) (Change.Put entry ∷ []) (S.states self.epochs) (S.states r.0.epochs)
            × IsStarted (S.states r.0.epochs (epoch_of (S.Entry.plain entry))) (epoch_of (S.Entry.plain entry)) (section_of (S.Entry.plain entry)) r.1) }
        ensures raises { (bounds_of (M.current self.meta)).lowest ≤ (epoch_of (S.Entry.plain entry))
            → IfOk result (λ r. (bounds_of (M.current r.0.meta) ≡ raised (epoch_of (S.Entry.plain entry)) (bounds_of (M.current self.meta)))
            × (map bounds_of (M.left r.0.meta) ≡ (if nat_le (epoch_of (S.Entry.plain entry)) (bounds_of (M.current self.meta)).highest
            then map bounds_of (M.left self.meta)
            else raised (epoch_of (S.Entry.plain entry)) (bounds_of (M.current self.meta)) ∷ []))) }
        ensures ways { IfErr result (λ l. AllByRecursion
            (LeavesEpochs (at_epoch (epoch_of (S.Entry.plain entry)) (S.Entry.plain entry ∷ [])) nothing_gone (S.states self.epochs))
            (S.Wreck.left (wreck_of l).epochs)) }
        ensures bounds { IfErr result (λ l. Within (map bounds_of (M.Wreck.left (wreck_of l).meta))
            (map bounds_of (M.left self.meta) ++ raised (epoch_of (S.Entry.plain entry)) (bounds_of (M.current self.meta)) ∷ [])) }
        ensures written { IfErr result (λ l. is_fault l ≡ true → (S.calm self.epochs && (M.watch self.meta).only_armed) ≡ true → (wreck_of l).short ≡ false
            → IsDoneInPart S.Entry.plain entry S.keeps (bounds_of (M.current self.meta)) (S.states self.epochs)
            (S.Wreck.left (wreck_of l).epochs) (map bounds_of (M.Wreck.left (wreck_of l).meta))) }
        ensures watched { Heeds (λ r. shelf_watch S.keeps r.0.alarm (S.calm r.0.epochs && (M.watch r.0.meta).only_armed))
            (λ w. shelf_watch S.keeps w.alarm (S.Wreck.calm w.epochs && (M.Wreck.watch w.meta).only_armed))
            (shelf_watch S.keeps self.alarm (S.calm self.epochs && (M.watch self.meta).only_armed)) result }
    {
        let (manager, entry) = self.begin_put(entry)?;
        let (epoch, section) = (entry.epoch().get(), entry.section());
        if epoch < lowest(&manager.meta) {
            return Ok((manager, Started::Ready));
        }
        let manager = manager.put(entry)?;
        let started = manager.started(epoch, section);
        Ok((manager, started))
    }

    /// Puts an entry and makes its archive sure; nothing is done where its epoch is below the lowest.
    pub fn put_and_sync(self, entry: S::Entry) -> Result<Self, Lost<ManagerWreck<S, M>>>
        ensures ready { (epoch_of (S.Entry.plain entry)) < (bounds_of (M.current self.meta)).lowest
            → IfOk result (λ m. (m.epochs ≡ self.epochs) × (m.meta ≡ self.meta)) }
        ensures done { (bounds_of (M.current self.meta)).lowest ≤ (epoch_of (S.Entry.plain entry))
            → IfOk result (λ m. DoesAt S.Entry.plain (epoch_of (S.Entry.plain entry)) (Change.Put entry ∷ Change.Sync (section_of (S.Entry.plain entry)) ∷ [])
            (S.states self.epochs) (S.states m.epochs)) }
        ensures raises { (bounds_of (M.current self.meta)).lowest ≤ (epoch_of (S.Entry.plain entry))
            → IfOk result (λ m. (bounds_of (M.current m.meta) ≡ raised (epoch_of (S.Entry.plain entry)) (bounds_of (M.current self.meta)))
            × (map bounds_of (M.left m.meta) ≡ (if nat_le (epoch_of (S.Entry.plain entry)) (bounds_of (M.current self.meta)).highest
            then map bounds_of (M.left self.meta)
            else raised (epoch_of (S.Entry.plain entry)) (bounds_of (M.current self.meta)) ∷ []))) }
        ensures ways { IfErr result (λ l. AllByRecursion
            (LeavesEpochs (at_epoch (epoch_of (S.Entry.plain entry)) (S.Entry.plain entry ∷ [])) nothing_gone (S.states self.epochs))
            (S.Wreck.left (wreck_of l).epochs)) }
        ensures bounds { IfErr result (λ l. Within (map bounds_of (M.Wreck.left (wreck_of l).meta))
            (map bounds_of (M.left self.meta) ++ raised (epoch_of (S.Entry.plain entry)) (bounds_of (M.current self.meta)) ∷ [])) }
        ensures written { IfErr result (λ l. is_fault l ≡ true → (S.calm self.epochs && (M.watch self.meta).only_armed) ≡ true → (wreck_of l).short ≡ false
            → IsDoneInPart S.Entry.plain entry S.keeps (bounds_of (M.current self.meta)) (S.states self.epochs)
            (S.Wreck.left (wreck_of l).epochs) (map bounds_of (M.Wreck.left (wreck_of l).meta))) }
        ensures watched { Heeds (λ m. shelf_watch S.keeps m.alarm (S.calm m.epochs && (M.watch m.meta).only_armed))
            (λ w. shelf_watch S.keeps w.alarm (S.Wreck.calm w.epochs && (M.Wreck.watch w.meta).only_armed))
            (shelf_watch S.keeps self.alarm (S.calm self.epochs && (M.watch self.meta).only_armed)) result }
    {
        let (manager, entry) = self.begin_put(entry)?;
        let (epoch, section) = (entry.epoch().get(), entry.section());
        if epoch < lowest(&manager.meta) {
            return Ok(manager);
        }
        let manager = manager.put(entry)?;
        manager.change(epoch, Change::Sync(section))
    }

    /// Starts a sync of an archive, where its epoch is open.
    pub fn start(
        self,
        epoch: u64,
        section: Section,
    ) -> Result<(Self, Started), Lost<ManagerWreck<S, M>>>
        ensures same { IfOk result (λ r. (r.0.epochs ≡ self.epochs) × (r.0.meta ≡ self.meta)) }
        ensures started { IfOk result (λ r. IsStarted (S.states self.epochs epoch) epoch section r.1) }
        ensures ways { IfErr result (λ l. AllByRecursion (LeavesEpochs (at_epoch epoch []) nothing_gone (S.states self.epochs))
            (S.Wreck.left (wreck_of l).epochs)) }
        ensures bounds { IfErr result (λ l. M.Wreck.left (wreck_of l).meta ≡ M.left self.meta) }
        ensures watched { Heeds (λ r. shelf_watch S.keeps r.0.alarm (S.calm r.0.epochs && (M.watch r.0.meta).only_armed))
            (λ w. shelf_watch S.keeps w.alarm (S.Wreck.calm w.epochs && (M.Wreck.watch w.meta).only_armed))
            (shelf_watch S.keeps self.alarm (S.calm self.epochs && (M.watch self.meta).only_armed)) result }
    {
        let manager = self.begin()?;
        let started = manager.started(epoch, section);
        Ok((manager, started))
    }

    /// Makes sure what a ticket covers; where all of that is sure, nothing changes. A ticket of an earlier life is none.
    pub fn finish(self, ticket: CacheTicket) -> Result<Self, Lost<ManagerWreck<S, M>>>
        ensures done { IfOk result (λ m. AllChanges S.Entry.plain (finishes ticket) (S.states self.epochs ticket.epoch) (S.states m.epochs ticket.epoch)
            × KeepsOtherEpochs ticket.epoch (S.states self.epochs) (S.states m.epochs)) }
        ensures meta { IfOk result (λ m. m.meta ≡ self.meta) }
        ensures ways { IfErr result (λ l. AllByRecursion (LeavesEpochs (at_epoch ticket.epoch []) nothing_gone (S.states self.epochs))
            (S.Wreck.left (wreck_of l).epochs)) }
        ensures bounds { IfErr result (λ l. M.Wreck.left (wreck_of l).meta ≡ M.left self.meta) }
        ensures watched { Heeds (λ m. shelf_watch S.keeps m.alarm (S.calm m.epochs && (M.watch m.meta).only_armed))
            (λ w. shelf_watch S.keeps w.alarm (S.Wreck.calm w.epochs && (M.Wreck.watch w.meta).only_armed))
            (shelf_watch S.keeps self.alarm (S.calm self.epochs && (M.watch self.meta).only_armed)) result }
    {
        let manager = self.begin()?;
        let CacheTicket {
            epoch,
            first,
            second,
        } = ticket;
        let manager = manager.change(epoch, Change::Finish(first.section, first.number))?;
        match second {
            None => Ok(manager),
            Some(part) => manager.change(epoch, Change::Finish(part.section, part.number)),
        }
    }
}
