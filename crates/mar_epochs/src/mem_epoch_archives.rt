//! The archives of an epoch in memory.
ghost use Rattle.std.specs.Prelude.{◌≡◌, ◌++◌, ◌==◌, ◌∷◌, ◌≤◌, [], false, true, filter, if◌then◌else◌, length, map, nat_le, refl, IfErr, IfOk, MatchResult, Some};
ghost use Rattle.std.specs.Option.{ForSome};
ghost use Rattle.std.specs.List.{list_all, list_any};
ghost use Rattle.std.specs.BTreeMap.{get};
ghost use Rattle.mar_store.specs.Changes.{Within, left_of};
ghost use Rattle.mar_store.specs.Lost.{wreck_of};
ghost use Rattle.mar_store.specs.Watch.{by_half};
ghost use Rattle.mar_store.specs.declared.LuckHalf.TheVariants.{Low};
ghost use Rattle.mar_model.specs.Cached.{same_place};
ghost use Rattle.mar_epochs.specs.EntryLogs.{book_of, covered_in, drawn_in_all, entries, kept_in, log_of, with_mark};
ghost use Rattle.mar_epochs.specs.Spots.{spot_found};
ghost use Rattle.mar_epochs.specs.EpochArchives.{ChangesArchives, IsOfMemory, IsSettled, LosesArchives};
ghost use Rattle.mar_epochs.specs.Failures.{CountsFaults};
ghost use Rattle.mar_epochs.specs.Laws.{kept_nested, left_nested, nothing_logged};
ghost use Rattle.mar_epochs.specs.SmallStates.{small_log};

use crate::as_entry::KeyedEntry;
use crate::change::Change;
use crate::entry_log::EntryLog;
use crate::epoch_archives::{EpochArchives, EpochArchivesDepot, EpochArchivesRuin};
use crate::index::Index;
use crate::logged_entry::{index_of, note};
use mar_model::Section;
use mar_store::{EmptyStore, Lost, LuckHalf, MemDepot};
use std::alloc::{AllocError, Global};

/// Entries in memory, in the order of their puts, with an index of them. Of an archive's entries that aren't sure, numbered
/// from 0 in the order of their puts, a reopening keeps entry k where bit k mod 32 of luck is set.
#[derive(Drop)]
pub struct MemEpochArchives<E: KeyedEntry> {
    log: EntryLog<E>,
    index: Index<E::Key>,
    ghost indexed: { (k : E.Key) → get E.Key.cmp index.spots k ≡ spot_found (E.has k) (entries (log_of E.plain log.items.items)) },
}

/// What is left of a `MemEpochArchives`, with its index where memory didn't run out.
#[derive(Drop)]
pub struct MemEpochArchivesWreck<E: KeyedEntry> {
    log: EntryLog<E>,
    index: Option<Index<E::Key>>,
    ghost indexed: { ForSome index (λ i. (k : E.Key) → get E.Key.cmp i.spots k ≡ spot_found (E.has k) (entries (log_of E.plain log.items.items))) },
}

impl<E: KeyedEntry> MemEpochArchives<E> {
    // The entries with an index of them. They come back where memory runs out.
    fn of(log: EntryLog<E>) -> Result<Self, EntryLog<E>>
        ensures ok { IfOk result (λ s. s.log ≡ log) }
        ensures err { IfErr result (λ f. f ≡ log) }
    {
        match index_of(*log.items.allocator(), &log.items) {
            Ok(index) => Ok(MemEpochArchives { log, index }),
            Err(_) => Err(log),
        }
    }

    // Whether an entry of this one's place is there.
    fn holds(&self, entry: &E) -> bool
        ensures { result ≡ list_any (same_place (E.plain entry.now)) (entries (log_of E.plain self.now.log.items.items)) }
    {
        self.index.spot_of(&entry.keys().place).is_some()
    }

    // Puts an entry, but where one of its place is held. The entries alone come back where memory runs out.
    fn put(self, entry: E) -> Result<Self, EntryLog<E>>
        ensures ok { IfOk result (λ s. log_of E.plain s.log.items.items
            ≡ (if list_any (same_place (E.plain entry)) (entries (log_of E.plain self.log.items.items))
            then log_of E.plain self.log.items.items else log_of E.plain self.log.items.items
            ++ record { number = self.log.accepted; is_sure = false; entry = E.plain entry } ∷ [])) }
        ensures number { IfOk result (λ s. self.log.accepted ≤ s.log.accepted) }
        ensures err { IfErr result (λ f. log_of E.plain f.items.items ≡ log_of E.plain self.log.items.items) }
    {
        if self.holds(&entry) {
            return Ok(self);
        }
        let MemEpochArchives { log, mut index } = self;
        match note(&mut index, &entry, log.items.len()) {
            Err(_) => Err(log),
            Ok(()) => match log.push(entry) {
                Ok(log) => Ok(MemEpochArchives { log, index }),
                Err(log) => Err(log),
            },
        }
    }

    // Makes sure what the ticket of a number covers in an archive.
    fn marked(self, section: Section, number: u64) -> Self
        ensures log { log_of E.plain result.log.items.items
            ≡ map (with_mark section number) (log_of E.plain self.log.items.items) }
        ensures accepted { result.log.accepted ≡ self.log.accepted }
    {
        let MemEpochArchives { log, index } = self;
        MemEpochArchives {
            log: log.marked(section, number),
            index,
        }
    }

    // The same, where this life has given that ticket; another makes nothing sure.
    fn finished(self, section: Section, number: u64) -> Self
        ensures done { ChangesArchives E.plain (Change.Finish section number) (book_of self.log.accepted (log_of E.plain self.log.items.items))
            (book_of result.log.accepted (log_of E.plain result.log.items.items)) }
        ensures settled { Within (if nat_le number self.log.accepted then covered_in (log_of E.plain self.log.items.items) section number else [])
            (kept_in (log_of E.plain self.log.items.items)).sure → book_of result.log.accepted (log_of E.plain result.log.items.items)
            ≡ book_of self.log.accepted (log_of E.plain self.log.items.items) }
    {
        if number > self.log.accepted {
            return self;
        }
        self.marked(section, number)
    }

    // What is sure of these entries, with what the bits of `half` keep of the rest; all of it is sure.
    fn settled(log: &EntryLog<E>, half: u64) -> Result<Self, AllocError>
        ensures log { IfOk result (λ s. log_of E.plain s.log.items.items
            ≡ filter (λ f. f.is_sure) (drawn_in_all half (log_of E.plain log.now.items.items))) }
    {
        let log = log.try_clone()?.settled(half);
        let index = index_of(*log.items.allocator(), &log.items)?;
        Ok(MemEpochArchives { log, index })
    }
}

impl<E: KeyedEntry> MemEpochArchivesWreck<E> {
    // The archives as they were, where all their entries are sure and there is an index; else what is left.
    fn whole(self) -> Result<MemEpochArchives<E>, Self>
        ensures same { MatchResult result (λ s. s.log ≡ self.log) (λ w. w.log ≡ self.log) }
        ensures sure { IfOk result (λ s. list_all (λ e. e.is_sure) self.log.items.items ≡ true) }
    {
        if !self.log.is_sure() {
            return Err(self);
        }
        let MemEpochArchivesWreck { log, index } = self;
        match index {
            Some(index) => Ok(MemEpochArchives { log, index }),
            None => Err(MemEpochArchivesWreck { log, index: None }),
        }
    }
}

impl<E: KeyedEntry> EpochArchivesRuin for MemEpochArchivesWreck<E> {
    ghost left = { λ w. left_of (kept_in (log_of E.plain w.log.items.items)) };

    ghost faults = { λ w. 0 };
}

impl<E: KeyedEntry> EmptyStore for MemEpochArchivesWreck<E> {
    ghost is_empty = { λ w. length w.log.items.items == 0 };

    fn empty(alloc: Global) -> Self {
        MemEpochArchivesWreck {
            log: EntryLog::new(alloc),
            index: None,
        }
    }
}

impl<E: KeyedEntry> EpochArchives for MemEpochArchives<E> {
    type Entry = E;

    type Wreck = MemEpochArchivesWreck<E>;

    ghost book = { λ s. book_of s.log.accepted (log_of E.plain s.log.items.items) };

    ghost faults = { λ s. 0 };

    ghost unfailing = { true };

    ghost keeps = { Some (by_half Low) };

    ghost nested = { λ s. kept_nested s.log.accepted (log_of E.plain s.log.items.items) s.log.once };

    ghost nested_left = { λ w. left_nested (log_of E.plain w.log.items.items) };

    ghost small = { λ s. small_log E.plain E.small s.log.items.items };

    ghost whole = { λ s goes. refl };

    ghost small_left = { λ w. small_log E.plain E.small w.log.items.items };

    fn find(&self, wanted: &E::Wanted) -> Option<&E> {
        match self.index.spot_of(&E::key_of(wanted)) {
            Some(spot) => self.log.entry_at(spot.place),
            None => None,
        }
    }

    fn ticket(&self) -> u64 {
        self.log.accepted
    }

    fn change(self, change: Change<E>) -> Result<Self, Lost<MemEpochArchivesWreck<E>>>
        ensures done { MatchResult result
            (λ s. ChangesArchives E.plain change (book_of self.log.accepted (log_of E.plain self.log.items.items))
            (book_of s.log.accepted (log_of E.plain s.log.items.items)))
            (λ l. LosesArchives E.plain change (kept_in (log_of E.plain self.log.items.items))
            (left_of (kept_in (log_of E.plain (wreck_of l).log.items.items)))) }
        ensures settled { IsSettled change (book_of self.log.accepted (log_of E.plain self.log.items.items))
            → IfOk result (λ s. book_of s.log.accepted (log_of E.plain s.log.items.items)
            ≡ book_of self.log.accepted (log_of E.plain self.log.items.items)) }
        ensures counts { CountsFaults (λ s. 0) (λ w. 0) 0 result }
        ensures unfailing { IfErr result IsOfMemory }
    {
        match change {
            Change::Put(entry) => match self.put(entry) {
                Ok(archives) => Ok(archives),
                Err(log) => Err(Lost::Memory(MemEpochArchivesWreck { log, index: None })),
            },
            Change::Sync(section) => Ok(self.marked(section, u64::MAX)),
            Change::Finish(section, number) => Ok(self.finished(section, number)),
            Change::PruneBelow(round) => match MemEpochArchives::of(self.log.without_below(round)) {
                Ok(archives) => Ok(archives),
                Err(log) => Err(Lost::Memory(MemEpochArchivesWreck { log, index: None })),
            },
            Change::PruneCertified(height) => {
                match MemEpochArchives::of(self.log.without_certified(height)) {
                    Ok(archives) => Ok(archives),
                    Err(log) => Err(Lost::Memory(MemEpochArchivesWreck { log, index: None })),
                }
            }
        }
    }

    fn wreck(self) -> MemEpochArchivesWreck<E> {
        MemEpochArchivesWreck {
            log: self.log,
            index: Some(self.index),
        }
    }

    fn reopen(
        wreck: MemEpochArchivesWreck<E>,
        luck: u64,
    ) -> Result<Self, Lost<MemEpochArchivesWreck<E>>> {
        match wreck.whole() {
            Ok(archives) => Ok(archives),
            Err(wreck) => match MemEpochArchives::settled(&wreck.log, LuckHalf::Low.of(luck)) {
                Ok(archives) => Ok(archives),
                Err(_) => Err(Lost::Memory(wreck)),
            },
        }
    }
}

impl<E: KeyedEntry> EpochArchivesDepot<MemEpochArchivesWreck<E>>
    for MemDepot<MemEpochArchivesWreck<E>> {
    ghost is_certain = { true };

    ghost tells = { refl };

    ghost empties = { λ w empty. nothing_logged E.plain w.log.items.items empty };

    ghost one_way = { λ w is. refl };
}
