//! A metadata store that is a journal.
ghost use Rattle.std.specs.Prelude.{◌≡◌, ◌<◌, ◌++◌, ◌∷◌, [], Contains, IfErr, IfOk, IfSome, List, MatchResult, ℕ, None, OnErr, OnOk, Some, length, map};
ghost use Rattle.mar_types.specs.Causes.{Rose};
ghost use Rattle.mar_store.specs.Lost.{wreck_of};
ghost use Rattle.mar_store.specs.Luck.{keeps_by, lucky_values};
ghost use Rattle.mar_store.specs.MemMeta.{values_of};
ghost use Rattle.mar_store.specs.Values.{LeavesValues, SetsValue, others_of, with_key};
ghost use Rattle.mar_store.specs.Watch.{Heeds, IsCalm, armed};
ghost use Rattle.mar_journal.specs.Disk.{LeavesOnly};
ghost use Rattle.mar_journal.specs.Format.{Stands};
ghost use Rattle.mar_journal.specs.Journal.{Adds, HasReason, IsOldOrNew};
ghost use Rattle.mar_journal.specs.MetaRecords.{IsMeta, meta_bytes, record_for, values_by};
ghost use Rattle.mar_journal_stores.specs.MetaStore.{IsMetaFile, IsMetaLeft, failed_entries, failed_in, left_by_meta, left_of_meta, left_watch, meta_watch, one_of_meta, some_of_meta, values_in};
ghost use Rattle.mar_journal_stores.specs.Watches.{CountsLost, HasFaultCause};

use crate::meta_map::{batch_of, open_maps, set, unset};
use crate::told::told_by;
use mar_journal::{Disk, MetaRecord, Unopened, append};
use mar_store::{Alarm, Lost, Meta, MetaRuin, Miss, greatest_key};
use std::alloc::{AllocError, Global};
use std::collections::BTreeMap;
use std::marker::Model;

/// A map in memory, beside it the one of the last sync, and the keys that were changed since. A sync writes one batch.
#[derive(Drop)]
pub struct JournalMeta<D: Disk> {
    alloc: Global,
    values: BTreeMap<u64, u64>,
    synced: BTreeMap<u64, u64>,
    changed: Vec<u64>,
    disk: D,
    end: usize,
    alarm: Alarm,
}

impl<D: Disk> Model for JournalMeta<D> {
    ghost use Rattle.mar_store.specs.MemMeta.{values_of};
    ghost use Rattle.mar_journal_stores.specs.MetaStore.{IsMetaStore, MetaView};

    ghost Value = { MetaView D };

    ghost view = { λ s. record {
      current = s.values.entries;
      synced = s.synced.entries;
      changed = s.changed.items;
      disk = s.disk;
      faults = s.alarm.faults;
      due = s.alarm.due.items;
    } };

    ghost invariant = { λ s. IsMetaStore D.seen D.may_leave s.disk s.end (values_of s.values) (values_of s.synced) s.changed.items };
}

/// What is left of a `JournalMeta`: a disk, the map of the last sync that succeeded, and that of one that failed since.
#[derive(Drop)]
pub struct JournalMetaWreck<D: Disk> {
    alloc: Global,
    synced: BTreeMap<u64, u64>,
    failed: Option<BTreeMap<u64, u64>>,
    disk: D,
    damage: Option<usize>,
    alarm: Alarm,
}

impl<D: Disk> Model for JournalMetaWreck<D> {
    ghost use Rattle.mar_store.specs.MemMeta.{values_of};
    ghost use Rattle.mar_journal_stores.specs.MetaStore.{IsMetaLeft, MetaLeft, failed_entries, failed_in, left_by_meta};

    ghost Value = { MetaLeft D };

    ghost view = { λ w. record {
      synced = w.synced.entries;
      failed = failed_entries w.failed;
      disk = w.disk;
      damage = w.damage;
      faults = w.alarm.faults;
      due = w.alarm.due.items;
    } };

    ghost invariant = { λ w. IsMetaLeft D.may_leave w.disk (left_by_meta (values_of w.synced) (failed_in (failed_entries w.failed))) };
}

impl<D: Disk> JournalMeta<D> {
    /// Opens the journal that a disk has. It gives the disk back with the reason where it can't.
    pub fn open(alloc: Global, disk: D) -> Result<Self, (Unopened, D)>
        ensures found { IfOk result (λ s. (records : List MetaRecord) × Stands meta_bytes IsMeta records (D.seen disk)
            × (values_in s.current ≡ values_by records) × (values_in s.synced ≡ values_by records) × (s.changed ≡ []) × (s.faults ≡ 0) × (s.due ≡ [])) }
        ensures reason { IfErr result (λ e. HasReason meta_bytes IsMeta (D.faults disk) (D.faults e.1) (D.seen disk) e.0) }
        ensures any_moment { MatchResult result
            (λ s. LeavesOnly D.moment D.left_since disk s.disk (IsOldOrNew (D.seen disk) (D.may_leave disk)))
            (λ e. LeavesOnly D.moment D.left_since disk e.1 (IsOldOrNew (D.seen disk) (D.may_leave disk))) }
    {
        let mut disk = disk;
        match open_maps(alloc, &mut disk) {
            Ok((values, synced, end)) => Ok(JournalMeta {
                alloc,
                values,
                synced,
                changed: Vec::new(alloc),
                disk,
                end,
                alarm: Alarm::new(alloc),
            }),
            Err(reason) => Err((reason, disk)),
        }
    }
}

impl<D: Disk> JournalMeta<D> {
    /// Its disk. What was changed since the last sync isn't on it.
    pub fn into_disk(self) -> D
        ensures { result ≡ self.disk }
    {
        let JournalMeta { disk, .. } = self;
        disk
    }
}

impl<D: Disk> JournalMeta<D> {
    // What is left where a sync wrote nothing.
    fn fallen(self) -> JournalMetaWreck<D>
        ensures { result ≡ record {
          synced = self.synced;
          failed = Some self.current;
          disk = self.disk;
          damage = None;
          faults = self.faults;
          due = self.due;
        } }
    {
        let JournalMeta {
            alloc,
            values,
            synced,
            disk,
            alarm,
            ..
        } = self;
        JournalMetaWreck::of(alloc, synced, Some(values), disk, alarm)
    }
}

impl<D: Disk> JournalMeta<D> {
    /// A law: at rest a crash leaves a file of the map that was synced last.
    pub fn at_rest(&self)
        ensures { LeavesOnly D.moment D.left_since self.now.disk self.now.disk (IsMetaFile (values_in self.now.synced ∷ [])) }
    {
        let _ = &self.disk;
    }
}

impl<D: Disk> JournalMetaWreck<D> {
    // What is left of these maps on a disk.
    fn of(
        alloc: Global,
        synced: BTreeMap<u64, u64>,
        failed: Option<BTreeMap<u64, u64>>,
        disk: D,
        alarm: Alarm,
    ) -> Self
        requires { IsMetaLeft D.may_leave disk (left_by_meta (values_of synced) (failed_in (failed_entries failed))) }
        ensures { result ≡ record {
          synced = synced.entries;
          failed = failed_entries failed;
          disk = disk;
          damage = None;
          faults = alarm.faults;
          due = alarm.due.items;
        } }
    {
        JournalMetaWreck {
            alloc,
            synced,
            failed,
            disk,
            damage: None,
            alarm,
        }
    }

    // How the store was lost. A fault is counted.
    fn lost_by(self, miss: Miss) -> Lost<Self>
        ensures kept { wreck_of result ≡ record self { faults = (wreck_of result).faults } }
        ensures counts { CountsLost (λ w. w.faults) self.faults result }
        ensures cause { (due : List ℕ) (before : ℕ) → (miss ≡ Miss.Fault → Rose before (D.faults self.disk))
            → HasFaultCause (λ w. D.faults w.disk) due before result }
    {
        let mut wreck = self;
        match miss {
            Miss::Fault => {
                wreck.alarm.fail();
                Lost::Fault(wreck)
            }
            Miss::Memory => Lost::Memory(wreck),
        }
    }

    /// Where the file was seen to be damaged, where the reopening that failed last saw that.
    pub fn damage(&self) -> Option<usize>
        ensures { result ≡ self.now.damage }
    {
        self.damage
    }
}

impl<D: Disk> MetaRuin for JournalMetaWreck<D> {
    ghost left = { λ w. left_of_meta w };

    ghost watch = { λ w. left_watch w };

    fn synced(&self, key: u64) -> Option<u64> {
        self.synced.get(&key).copied()
    }

    fn arm(&mut self, calls: u64) -> Result<(), AllocError> {
        self.alarm.arm(calls)
    }

    ghost some = { some_of_meta };
}

impl<D: Disk> Meta for JournalMeta<D> {
    type Wreck = JournalMetaWreck<D>;

    ghost current = { λ s. values_in s.current };

    ghost left = { λ s. values_in s.synced ∷ [] };

    ghost changed = { λ s. s.changed };

    ghost watch = { λ s. meta_watch s };

    ghost some = { one_of_meta };

    fn get(&self, key: u64) -> Option<u64> {
        self.values.get(&key).copied()
    }

    fn last_key(&self) -> Option<u64> {
        greatest_key(&self.values)
    }

    fn put(self, key: u64, value: u64) -> Result<Self, Lost<JournalMetaWreck<D>>>
        requires room { length (others_of key self.changed) < 2048 }
        ensures done { MatchResult result
            (λ s. SetsValue (values_in self.current) key (Some value) (values_in s.current))
            (λ l. LeavesValues (values_in self.synced ∷ []) [] (left_of_meta (wreck_of l))) }
        ensures durable { IfOk result (λ s. values_in s.synced ∷ [] ≡ values_in self.synced ∷ []) }
        ensures changes { IfOk result (λ s. s.changed ≡ with_key key self.changed) }
        ensures watched { IsCalm meta_watch left_watch (meta_watch self) result }
        ensures disk { MatchResult result (λ s. s.disk ≡ self.disk) (λ l. (wreck_of l).disk ≡ self.disk) }
    {
        let JournalMeta {
            alloc,
            mut values,
            synced,
            mut changed,
            disk,
            end,
            alarm,
        } = self;
        match set(&mut values, &mut changed, key, value) {
            Ok(()) => Ok(JournalMeta {
                alloc,
                values,
                synced,
                changed,
                disk,
                end,
                alarm,
            }),
            Err(_) => Err(Lost::Memory(JournalMetaWreck::of(alloc, synced, None, disk, alarm))),
        }
    }

    fn remove(self, key: u64) -> Result<Self, Lost<JournalMetaWreck<D>>>
        requires room { length (others_of key self.changed) < 2048 }
        ensures done { MatchResult result
            (λ s. SetsValue (values_in self.current) key None (values_in s.current))
            (λ l. LeavesValues (values_in self.synced ∷ []) [] (left_of_meta (wreck_of l))) }
        ensures durable { IfOk result (λ s. values_in s.synced ∷ [] ≡ values_in self.synced ∷ []) }
        ensures changes { IfOk result (λ s. s.changed ≡ with_key key self.changed) }
        ensures watched { IsCalm meta_watch left_watch (meta_watch self) result }
        ensures disk { MatchResult result (λ s. s.disk ≡ self.disk) (λ l. (wreck_of l).disk ≡ self.disk) }
    {
        let JournalMeta {
            alloc,
            mut values,
            synced,
            mut changed,
            disk,
            end,
            alarm,
        } = self;
        match unset(&mut values, &mut changed, key) {
            Ok(()) => Ok(JournalMeta {
                alloc,
                values,
                synced,
                changed,
                disk,
                end,
                alarm,
            }),
            Err(_) => Err(Lost::Memory(JournalMetaWreck::of(alloc, synced, None, disk, alarm))),
        }
    }

    fn sync(self) -> Result<Self, Lost<JournalMetaWreck<D>>>
        ensures done { MatchResult result
            (λ s. values_in s.synced ∷ [] ≡ values_in self.current ∷ [])
            (λ l. LeavesValues (values_in self.synced ∷ []) (values_in self.current ∷ []) (left_of_meta (wreck_of l))) }
        ensures failed { IfErr result (λ l. IfSome (meta_watch self).keeps
            (λ _. left_of_meta (wreck_of l) ≡ (values_in self.synced ∷ []) ++ values_in self.current ∷ [])) }
        ensures same { IfOk result (λ s. values_in s.current ≡ values_in self.current) }
        ensures changes { IfOk result (λ s. s.changed ≡ []) }
        ensures watched { Heeds meta_watch left_watch (meta_watch self) result }
        ensures any_moment { MatchResult result
            (λ s. LeavesOnly D.moment D.left_since self.disk s.disk (IsMetaFile (values_in self.synced ∷ values_in self.current ∷ [])))
            (λ l. LeavesOnly D.moment D.left_since self.disk (wreck_of l).disk (IsMetaFile (values_in self.synced ∷ values_in self.current ∷ []))) }
        ensures written { IfOk result (λ s. Adds meta_bytes IsMeta D.seen D.may_leave (map (record_for (values_in self.current)) self.changed)
            self.disk s.disk) }
        ensures cause { IfErr result (HasFaultCause (λ w. D.faults w.disk) self.due (D.faults self.disk)) }
        ensures idle { self.changed ≡ [] → MatchResult result (λ s. s.disk ≡ self.disk) (λ l. (wreck_of l).disk ≡ self.disk) }
    {
        let mut store = self;
        if store.alarm.rings() {
            return Err(Lost::Fault(store.fallen()));
        }
        if store.changed.is_empty() {
            return Ok(store);
        }
        let (records, copy) = match batch_of(store.alloc, &store.values, &store.changed) {
            Ok(batch) => batch,
            Err(_) => return Err(Lost::Memory(store.fallen())),
        };
        match append(store.alloc, &mut store.disk, store.end, &records) {
            Ok(end) => {
                store.end = end;
                store.synced = copy;
                store.changed.clear();
                Ok(store)
            }
            Err(miss) => {
                let JournalMeta {
                    alloc,
                    values,
                    synced,
                    disk,
                    alarm,
                    ..
                } = store;
                let wreck = JournalMetaWreck::of(alloc, synced, Some(values), disk, alarm);
                Err(wreck.lost_by(miss))
            }
        }
    }

    fn wreck(self) -> JournalMetaWreck<D>
        ensures left { left_of_meta result ≡ values_in self.synced ∷ [] }
        ensures watch { left_watch result ≡ meta_watch self }
        ensures disk { result.disk ≡ self.disk }
    {
        let JournalMeta {
            alloc,
            synced,
            disk,
            alarm,
            ..
        } = self;
        JournalMetaWreck::of(alloc, synced, None, disk, alarm)
    }

    fn reopen(wreck: JournalMetaWreck<D>, luck: u64) -> Result<Self, Lost<JournalMetaWreck<D>>>
        ensures done { MatchResult result
            (λ s. Contains (left_of_meta wreck) (values_in s.current))
            (λ l. LeavesValues (left_of_meta wreck) [] (left_of_meta (wreck_of l))) }
        ensures synced { IfOk result (λ s. values_in s.synced ∷ [] ≡ values_in s.current ∷ []) }
        ensures changes { IfOk result (λ s. s.changed ≡ []) }
        ensures lucky { IfOk result (λ s. IfSome (left_watch wreck).keeps
            (λ keeps. values_in s.current ≡ lucky_values (keeps_by keeps luck 0) (left_of_meta wreck))) }
        ensures watched { Heeds meta_watch left_watch (left_watch wreck) result }
        ensures found { IfOk result (λ s. (file : List ℕ) × (records : List MetaRecord) × D.may_leave wreck.disk file
            × Stands meta_bytes IsMeta records file × Stands meta_bytes IsMeta records (D.seen s.disk) × (values_in s.current ≡ values_by records)) }
        ensures cause { IfErr result (HasFaultCause (λ w. D.faults w.disk) wreck.due (D.faults wreck.disk)) }
        ensures undamaged { IfErr result (λ l. (wreck_of l).damage ≡ None) }
        ensures any_moment { MatchResult result
            (λ s. LeavesOnly D.moment D.left_since wreck.disk s.disk (IsMetaFile (left_of_meta wreck)))
            (λ l. LeavesOnly D.moment D.left_since wreck.disk (wreck_of l).disk (IsMetaFile (left_of_meta wreck))) }
    {
        let mut left = wreck;
        left.damage = None;
        if left.alarm.rings() {
            return Err(Lost::Fault(left));
        }
        if left.disk.crash(luck).is_err() {
            return Err(Lost::Memory(left));
        }
        match open_maps(left.alloc, &mut left.disk) {
            Ok((values, copy, end)) => {
                let JournalMetaWreck {
                    alloc,
                    disk,
                    alarm,
                    ..
                } = left;
                Ok(JournalMeta {
                    alloc,
                    values,
                    synced: copy,
                    changed: Vec::new(alloc),
                    disk,
                    end,
                    alarm,
                })
            }
            Err(reason) => {
                let told = told_by(reason);
                left.damage = told.1;
                Err(left.lost_by(told.0))
            }
        }
    }

    fn arm(&mut self, calls: u64) -> Result<(), AllocError>
        ensures armed { OnOk result (meta_watch self.new ≡ armed calls (meta_watch self.old)) }
        ensures unarmed { OnErr result (meta_watch self.new ≡ meta_watch self.old) }
        ensures current { values_in self.new.current ≡ values_in self.old.current }
        ensures left { values_in self.new.synced ∷ [] ≡ values_in self.old.synced ∷ [] }
        ensures changes { self.new.changed ≡ self.old.changed }
        ensures disk { self.new.disk ≡ self.old.disk }
    {
        self.alarm.arm(calls)
    }
}
