//! An archive that is a journal.
ghost use Rattle.std.specs.Prelude.{◌≡◌, ◌<◌, ◌≤◌, ◌+◌, max, ◌^◌, [], ◌++◌, ◌∷◌, List, ℕ, None, not, filter, map, nat_le, option_map, take, true, false, IfErr, IfOk, MatchResult, drop, length};
ghost use Rattle.std.specs.List.{AllByRecursion};
ghost use Rattle.mar_store.specs.Changes.{Fails, Finishes, IsReopened, Prunes, Puts, Syncs, heights, left_of};
ghost use Rattle.mar_store.specs.Entries.{covered_by, next_number, seen};
ghost use Rattle.mar_store.specs.Kept.{reopened_store};
ghost use Rattle.mar_store.specs.Lost.{wreck_of};
ghost use Rattle.mar_store.specs.Named.{is_taken};
ghost use Rattle.mar_store.specs.Ranges.{ranges, with_height};
ghost use Rattle.mar_store.specs.Tickets.{KeepsCovers};
ghost use Rattle.mar_store.specs.Watch.{IsCalm};
ghost use Rattle.mar_journal.specs.ArchiveRecords.{IsArchived, archive_bytes, kept_from};
ghost use Rattle.mar_journal.specs.Disk.{LeavesOnly};
ghost use Rattle.mar_journal.specs.Format.{Stands};
ghost use Rattle.mar_journal.specs.Journal.{Adds, HasReason, IsOldOrNew};
ghost use Rattle.mar_journal.specs.declared.ArchiveRecord.{ArchiveRecord};
ghost use Rattle.mar_types.specs.Causes.{Rose};
ghost use Rattle.mar_journal_stores.specs.ArchiveStore.{AreLeftRanges, IsArchiveLeft, IsBacked, IsMarked, LetsGo, SetsAside, StaysFound, archive_kept, archive_within, left_may, ranges_or, ranges_with};
ghost use Rattle.mar_journal_stores.specs.Watches.{CountsLost, HasFaultCause, journal_watch};

use crate::archive_drafts::mark_of;
use crate::archive_opening::open_entries;
use crate::aside::{Aside, ranges_after, ranges_left, set_aside};
use crate::log::Log;
use crate::told::told_by;
use mar_journal::{ArchiveRecord, Disk, JournalItem, Unopened};
use mar_store::{Alarm, ArchiveRuin, Entries, Entry, Lost, Miss, Pile, RangeSet};
use std::alloc::{AllocError, Global};

/// Values in memory and in a journal, and the records that wait until a sync writes them. What was pruned is kept aside, since
/// a crash may bring it back, until a sync has finished that was started later.
#[derive(Drop)]
pub struct JournalArchive<T: JournalItem, D: Disk> {
    pub(crate) entries: Entries<T>,
    pub(crate) aside: Aside<T>,
    pub(crate) log: Log<ArchiveRecord<T>, D>,
    pub(crate) alarm: Alarm,
    ghost may_is: { AreLeftRanges aside.may aside.gone.items entries.pile.items.items },
    ghost backed: { ∥ IsBacked T.name T.spelled T.fits D.seen D.may_leave log.disk log.end (take entries.pile.synced (map seen entries.pile.items.items))
        aside.gone.items entries.pile.items.items entries.pile.accepted log.waiting.items log.marks.items ∥₁ },
}

/// What is left of a `JournalArchive`: a disk, and what it may have.
#[derive(Drop)]
pub struct JournalArchiveWreck<T: JournalItem, D: Disk> {
    pub(crate) pile: Pile<T>,
    pub(crate) aside: Aside<T>,
    disk: D,
    pub(crate) damage: Option<usize>,
    pub(crate) alarm: Alarm,
    ghost may_is: { AreLeftRanges aside.may aside.gone.items pile.items.items },
    ghost is_left: { ∥ IsArchiveLeft T.name T.spelled T.fits D.may_leave disk (take pile.synced (map seen pile.items.items))
        (left_may aside.gone.items pile.items.items) ∥₁ },
}

impl<T: JournalItem, D: Disk> JournalArchive<T, D> {
    /// Opens the journal that a disk has. It gives the disk back with the reason where it can't.
    pub fn open(alloc: Global, disk: D) -> Result<Self, (Unopened, D)>
        ensures found { IfOk result (λ s. (records : List (ArchiveRecord T))
            × Stands (archive_bytes T.name T.spelled) (IsArchived T.fits T.spelled) records (D.seen disk)
            × (archive_kept s.aside.gone.items s.entries.pile.items.items s.entries.pile.synced ≡ reopened_store (kept_from T.name [] records))
            × (s.alarm.faults ≡ 0) × (s.alarm.due.items ≡ [])) }
        ensures counted { IfOk result (λ s. s.entries.pile.accepted ≤ 1) }
        ensures reason { IfErr result (λ e. HasReason (archive_bytes T.name T.spelled) (IsArchived T.fits T.spelled)
            (D.faults disk) (D.faults e.1) (D.seen disk) e.0) }
        ensures any_moment { MatchResult result
            (λ s. LeavesOnly D.moment D.left_since disk s.log.disk (IsOldOrNew (D.seen disk) (D.may_leave disk)))
            (λ e. LeavesOnly D.moment D.left_since disk e.1 (IsOldOrNew (D.seen disk) (D.may_leave disk))) }
    {
        let mut disk = disk;
        match open_entries(alloc, &mut disk) {
            Ok((entries, end)) => Ok(JournalArchive {
                entries,
                aside: Aside::new(alloc),
                log: Log::new(alloc, disk, end),
                alarm: Alarm::new(alloc),
            }),
            Err(reason) => Err((reason, disk)),
        }
    }

    /// Its disk. What waits isn't on it.
    pub fn into_disk(self) -> D
        ensures { result ≡ self.log.disk }
    {
        self.log.into_disk()
    }

    /// A law: at rest a crash leaves a file in which a reopening finds all that is sure, and nothing but what may be left.
    pub fn at_rest(&self)
        ensures { StaysFound T.name T.spelled T.fits D.moment D.left_since self.now.log.disk self.now.log.disk
            (take self.now.entries.pile.synced (map seen self.now.entries.pile.items.items))
            (left_may self.now.aside.gone.items self.now.entries.pile.items.items) }
    {
        let _ = &self.log;
    }

    // What is left where nothing was written.
    pub(crate) fn left(self) -> JournalArchiveWreck<T, D>
        ensures pile { result.pile ≡ self.entries.pile }
        ensures aside { result.aside ≡ self.aside }
        ensures alarm { result.alarm ≡ self.alarm }
        ensures disk { result.disk ≡ self.log.disk }
    {
        let JournalArchive {
            entries,
            aside,
            log,
            alarm,
        } = self;
        JournalArchiveWreck {
            pile: entries.into_pile(),
            aside,
            disk: log.into_disk(),
            damage: None,
            alarm,
        }
    }

    // Puts a value, whose record waits. It is given a copy of it for that.
    pub(crate) fn place(
        self,
        index: u64,
        item: T,
        copy: T,
        grown: Option<RangeSet>,
    ) -> Result<Self, Lost<JournalArchiveWreck<T, D>>>
        requires index { index < 2 ^ 64 }
        requires size { T.size item ≤ 1048576 }
        requires fits { T.fits index item ≡ true }
        requires copy { copy ≡ item }
        requires grown { grown ≡ option_map (with_height index) self.aside.may }
        ensures done { MatchResult result
            (λ s. Puts (is_taken T.name (map seen self.entries.pile.items.items) (record { height = index; value = item }))
            (archive_kept self.aside.gone.items self.entries.pile.items.items self.entries.pile.synced) (record { height = index; value = item })
            (archive_kept s.aside.gone.items s.entries.pile.items.items s.entries.pile.synced))
            (λ l. Fails (left_of (archive_kept self.aside.gone.items self.entries.pile.items.items self.entries.pile.synced))
            (record { height = index; value = item } ∷ [])
            (left_of (archive_kept (wreck_of l).aside.gone.items (wreck_of l).pile.items.items (wreck_of l).pile.synced))) }
        ensures unchanged { is_taken T.name (map seen self.entries.pile.items.items) (record { height = index; value = item }) ≡ true → MatchResult result
            (λ s. archive_kept s.aside.gone.items s.entries.pile.items.items s.entries.pile.synced
            ≡ archive_kept self.aside.gone.items self.entries.pile.items.items self.entries.pile.synced)
            (λ l. Fails (left_of (archive_kept self.aside.gone.items self.entries.pile.items.items self.entries.pile.synced)) []
            (left_of (archive_kept (wreck_of l).aside.gone.items (wreck_of l).pile.items.items (wreck_of l).pile.synced))) }
        ensures counted { MatchResult result (λ s. s.entries.pile.accepted ≤ self.entries.pile.accepted + 1)
            (λ l. (wreck_of l).pile.accepted ≤ self.entries.pile.accepted + 1) }
        ensures tickets { IfOk result (λ s. self.entries.pile.accepted ≤ s.entries.pile.accepted) }
        ensures covers { IfOk result (λ s. KeepsCovers self.entries.pile.accepted (covered_by self.entries.pile.items.items)
            (covered_by s.entries.pile.items.items)) }
        ensures ignored { IfOk result (λ s. is_taken T.name (map seen self.entries.pile.items.items) (record { height = index; value = item }) ≡ true
            → (s.log.waiting.items ≡ self.log.waiting.items) × (s.log.marks.items ≡ self.log.marks.items)) }
        ensures marked { IfOk result (λ s. is_taken T.name (map seen self.entries.pile.items.items) (record { height = index; value = item }) ≡ false
            → IsMarked self.entries.pile.accepted s.entries.pile.accepted (ArchiveRecord.Put index item) self.log.waiting.items self.log.marks.items
            s.log.waiting.items s.log.marks.items) }
        ensures watched { IsCalm (λ s. journal_watch s.alarm.faults s.alarm.due.items) (λ w. journal_watch w.alarm.faults w.alarm.due.items)
            (journal_watch self.alarm.faults self.alarm.due.items) result }
        ensures disk { MatchResult result (λ s. s.log.disk ≡ self.log.disk) (λ l. (wreck_of l).disk ≡ self.log.disk) }
        ensures cause { (due : List ℕ) (before : ℕ) → IfErr result (HasFaultCause (λ w. D.faults w.disk) due before) }
    {
        let JournalArchive {
            entries,
            mut aside,
            mut log,
            alarm,
        } = self;
        let count = entries.pile.items.len();
        match entries.put(index, item) {
            Err(pile) if pile.items.len() == count => Err(Lost::Memory(JournalArchiveWreck {
                pile,
                aside,
                disk: log.into_disk(),
                damage: None,
                alarm,
            })),
            Err(pile) => {
                aside.may = grown;
                Err(Lost::Memory(JournalArchiveWreck {
                    pile,
                    aside,
                    disk: log.into_disk(),
                    damage: None,
                    alarm,
                }))
            }
            Ok(entries) if entries.pile.items.len() == count => Ok(JournalArchive {
                entries,
                aside,
                log,
                alarm,
            }),
            Ok(entries) => {
                aside.may = grown;
                let mark = mark_of(&entries.pile.items);
                match log.add(ArchiveRecord::Put(index, copy), mark) {
                    Ok(()) => Ok(JournalArchive {
                        entries,
                        aside,
                        log,
                        alarm,
                    }),
                    Err(_) => Err(Lost::Memory(JournalArchiveWreck {
                        pile: entries.into_pile(),
                        aside,
                        disk: log.into_disk(),
                        damage: None,
                        alarm,
                    })),
                }
            }
        }
    }

    // Makes all sure that is held, when it is written.
    pub(crate) fn make_sure(self) -> Result<Self, Lost<JournalArchiveWreck<T, D>>>
        requires waiting { self.log.waiting.items ≡ [] }
        ensures done { MatchResult result
            (λ s. Syncs (archive_kept self.aside.gone.items self.entries.pile.items.items self.entries.pile.synced)
            (archive_kept s.aside.gone.items s.entries.pile.items.items s.entries.pile.synced))
            (λ l. Fails (left_of (archive_kept self.aside.gone.items self.entries.pile.items.items self.entries.pile.synced)) []
            (left_of (archive_kept (wreck_of l).aside.gone.items (wreck_of l).pile.items.items (wreck_of l).pile.synced))) }
        ensures items { IfOk result (λ s. s.entries.pile.items.items ≡ self.entries.pile.items.items) }
        ensures aside { IfOk result (λ s. s.aside.gone.items ≡ []) }
        ensures tickets { MatchResult result (λ s. s.entries.pile.accepted ≡ self.entries.pile.accepted)
            (λ l. (wreck_of l).pile.accepted ≡ self.entries.pile.accepted) }
        ensures log { IfOk result (λ s. s.log ≡ self.log) }
        ensures watched { IsCalm (λ s. journal_watch s.alarm.faults s.alarm.due.items) (λ w. journal_watch w.alarm.faults w.alarm.due.items)
            (journal_watch self.alarm.faults self.alarm.due.items) result }
        ensures disk { MatchResult result (λ s. s.log.disk ≡ self.log.disk) (λ l. (wreck_of l).disk ≡ self.log.disk) }
        ensures cause { (due : List ℕ) (before : ℕ) → IfErr result (HasFaultCause (λ w. D.faults w.disk) due before) }
    {
        let JournalArchive {
            entries,
            mut aside,
            log,
            alarm,
        } = self;
        match entries.sync() {
            Ok(entries) => {
                aside.let_all_go();
                Ok(JournalArchive {
                    entries,
                    aside,
                    log,
                    alarm,
                })
            }
            Err(pile) => Err(Lost::Memory(JournalArchiveWreck {
                pile,
                aside,
                disk: log.into_disk(),
                damage: None,
                alarm,
            })),
        }
    }

    // Makes sure what the ticket of a number covers, when it is written. Where that makes more sure, what was pruned before
    // goes; else nothing changes.
    pub(crate) fn make_covered_sure(
        self,
        number: u64,
    ) -> Result<Self, Lost<JournalArchiveWreck<T, D>>>
        requires later { AllByRecursion (λ n. number < n) self.log.marks.items }
        ensures done { MatchResult result
            (λ s. Finishes (covered_by self.entries.pile.items.items number)
            (archive_kept self.aside.gone.items self.entries.pile.items.items self.entries.pile.synced)
            (archive_kept s.aside.gone.items s.entries.pile.items.items s.entries.pile.synced))
            (λ l. Fails (left_of (archive_kept self.aside.gone.items self.entries.pile.items.items self.entries.pile.synced)) []
            (left_of (archive_kept (wreck_of l).aside.gone.items (wreck_of l).pile.items.items (wreck_of l).pile.synced))) }
        ensures items { IfOk result (λ s. s.entries.pile.items.items ≡ self.entries.pile.items.items) }
        ensures let_go { IfOk result (λ s. LetsGo number self.entries.pile.synced s.entries.pile.synced self.aside.gone.items s.aside.gone.items) }
        ensures tickets { MatchResult result (λ s. s.entries.pile.accepted ≡ self.entries.pile.accepted)
            (λ l. (wreck_of l).pile.accepted ≡ self.entries.pile.accepted) }
        ensures log { IfOk result (λ s. s.log ≡ self.log) }
        ensures watched { IsCalm (λ s. journal_watch s.alarm.faults s.alarm.due.items) (λ w. journal_watch w.alarm.faults w.alarm.due.items)
            (journal_watch self.alarm.faults self.alarm.due.items) result }
        ensures disk { MatchResult result (λ s. s.log.disk ≡ self.log.disk) (λ l. (wreck_of l).disk ≡ self.log.disk) }
        ensures cause { (due : List ℕ) (before : ℕ) → IfErr result (HasFaultCause (λ w. D.faults w.disk) due before) }
    {
        match ranges_after(&self.aside.gone, self.entries.pile.held(), number) {
            Err(_) => Err(Lost::Memory(self.left())),
            Ok(may) => self.finish_entries(number, may),
        }
    }

    // The same, with the ranges of what may be left where it lets go what was pruned before.
    fn finish_entries(
        self,
        number: u64,
        may: Option<RangeSet>,
    ) -> Result<Self, Lost<JournalArchiveWreck<T, D>>>
        requires later { AllByRecursion (λ n. number < n) self.log.marks.items }
        requires may { ranges_or (ranges (heights (map seen self.entries.pile.items.items))) may
            ≡ ranges_with (ranges (heights (map seen self.entries.pile.items.items))) number self.aside.gone.items }
        ensures done { MatchResult result
            (λ s. Finishes (covered_by self.entries.pile.items.items number)
            (archive_kept self.aside.gone.items self.entries.pile.items.items self.entries.pile.synced)
            (archive_kept s.aside.gone.items s.entries.pile.items.items s.entries.pile.synced))
            (λ l. Fails (left_of (archive_kept self.aside.gone.items self.entries.pile.items.items self.entries.pile.synced)) []
            (left_of (archive_kept (wreck_of l).aside.gone.items (wreck_of l).pile.items.items (wreck_of l).pile.synced))) }
        ensures items { IfOk result (λ s. s.entries.pile.items.items ≡ self.entries.pile.items.items) }
        ensures let_go { IfOk result (λ s. LetsGo number self.entries.pile.synced s.entries.pile.synced self.aside.gone.items s.aside.gone.items) }
        ensures tickets { MatchResult result (λ s. s.entries.pile.accepted ≡ self.entries.pile.accepted)
            (λ l. (wreck_of l).pile.accepted ≡ self.entries.pile.accepted) }
        ensures log { IfOk result (λ s. s.log ≡ self.log) }
        ensures watched { IsCalm (λ s. journal_watch s.alarm.faults s.alarm.due.items) (λ w. journal_watch w.alarm.faults w.alarm.due.items)
            (journal_watch self.alarm.faults self.alarm.due.items) result }
        ensures disk { MatchResult result (λ s. s.log.disk ≡ self.log.disk) (λ l. (wreck_of l).disk ≡ self.log.disk) }
        ensures cause { (due : List ℕ) (before : ℕ) → IfErr result (HasFaultCause (λ w. D.faults w.disk) due before) }
    {
        let JournalArchive {
            entries,
            mut aside,
            log,
            alarm,
        } = self;
        let sure = entries.pile.sure_count();
        match entries.finish(number) {
            Err(pile) => Err(Lost::Memory(JournalArchiveWreck {
                pile,
                aside,
                disk: log.into_disk(),
                damage: None,
                alarm,
            })),
            Ok(entries) => {
                aside.let_go(number, sure, entries.pile.sure_count(), may);
                Ok(JournalArchive {
                    entries,
                    aside,
                    log,
                    alarm,
                })
            }
        }
    }

    // Takes out what is below an index, and sets it aside. It is given copies of that, numbered by the prune's mark, and the
    // ranges of what may be left, which stay as they were.
    pub(crate) fn cut(
        self,
        min: u64,
        mark: u64,
        more: Vec<Entry<T>>,
        may: RangeSet,
    ) -> Result<Self, Lost<JournalArchiveWreck<T, D>>>
        requires min { min < 2 ^ 64 }
        requires mark { mark ≡ next_number self.entries.pile.accepted }
        requires more { map seen more.items ≡ map seen (filter (λ e. not (nat_le min e.index)) self.entries.pile.items.items) }
        requires numbered { AllByRecursion (λ e. e.number ≡ mark) more.items }
        requires may { may ≡ ranges (heights (left_may self.aside.gone.items self.entries.pile.items.items)) }
        ensures done { MatchResult result
            (λ s. Prunes min (archive_kept self.aside.gone.items self.entries.pile.items.items self.entries.pile.synced)
            (archive_kept s.aside.gone.items s.entries.pile.items.items s.entries.pile.synced))
            (λ l. Fails (left_of (archive_kept self.aside.gone.items self.entries.pile.items.items self.entries.pile.synced)) []
            (left_of (archive_kept (wreck_of l).aside.gone.items (wreck_of l).pile.items.items (wreck_of l).pile.synced))) }
        ensures cut { IfOk result (λ s. s.entries.pile.items.items ≡ filter (λ e. nat_le min e.index) self.entries.pile.items.items) }
        ensures aside { IfOk result (λ s. SetsAside min s.entries.pile.accepted self.entries.pile.items.items self.aside.gone.items s.aside.gone.items) }
        ensures tickets { IfOk result (λ s. s.entries.pile.accepted ≡ next_number self.entries.pile.accepted) }
        ensures counted { IfErr result (λ l. (wreck_of l).pile.accepted ≡ self.entries.pile.accepted) }
        ensures marked { IfOk result (λ s. IsMarked self.entries.pile.accepted s.entries.pile.accepted (ArchiveRecord.Prune min)
            self.log.waiting.items self.log.marks.items s.log.waiting.items s.log.marks.items) }
        ensures watched { IsCalm (λ s. journal_watch s.alarm.faults s.alarm.due.items) (λ w. journal_watch w.alarm.faults w.alarm.due.items)
            (journal_watch self.alarm.faults self.alarm.due.items) result }
        ensures disk { MatchResult result (λ s. s.log.disk ≡ self.log.disk) (λ l. (wreck_of l).disk ≡ self.log.disk) }
        ensures cause { (due : List ℕ) (before : ℕ) → IfErr result (HasFaultCause (λ w. D.faults w.disk) due before) }
    {
        let JournalArchive {
            entries,
            mut aside,
            mut log,
            alarm,
        } = self;
        let count = aside.gone.len();
        match set_aside(&mut log, &mut aside.gone, more, min, mark) {
            Err(_) => Err(Lost::Memory(JournalArchiveWreck {
                pile: entries.into_pile(),
                aside,
                disk: log.into_disk(),
                damage: None,
                alarm,
            })),
            Ok(()) => match entries.prune(min) {
                Ok(entries) => {
                    aside.may = Some(may);
                    Ok(JournalArchive {
                        entries: entries.count(),
                        aside,
                        log,
                        alarm,
                    })
                }
                Err(pile) => {
                    aside.gone.truncate(count);
                    Err(Lost::Memory(JournalArchiveWreck {
                        pile,
                        aside,
                        disk: log.into_disk(),
                        damage: None,
                        alarm,
                    }))
                }
            },
        }
    }

    // Writes so many of the records that wait, from the first on.
    pub(crate) fn flush(self, count: usize) -> Result<Self, Lost<JournalArchiveWreck<T, D>>>
        requires count { count ≤ length self.log.waiting.items }
        ensures entries { IfOk result (λ s. s.entries ≡ self.entries) }
        ensures aside { IfOk result (λ s. s.aside ≡ self.aside) }
        ensures waiting { IfOk result (λ s. s.log.waiting.items ≡ drop count self.log.waiting.items) }
        ensures marks { IfOk result (λ s. s.log.marks.items ≡ drop count self.log.marks.items) }
        ensures left { IfErr result (λ l. (wreck_of l).pile ≡ self.entries.pile) }
        ensures left_aside { IfErr result (λ l. (wreck_of l).aside ≡ self.aside) }
        ensures watched { IsCalm (λ s. journal_watch s.alarm.faults s.alarm.due.items) (λ w. journal_watch w.alarm.faults w.alarm.due.items)
            (journal_watch self.alarm.faults self.alarm.due.items) result }
        ensures cause { (due : List ℕ) → IfErr result (HasFaultCause (λ w. D.faults w.disk) due (D.faults self.log.disk)) }
        ensures any_moment { MatchResult result
            (λ s. StaysFound T.name T.spelled T.fits D.moment D.left_since self.log.disk s.log.disk
            (take self.entries.pile.synced (map seen self.entries.pile.items.items)) (left_may self.aside.gone.items self.entries.pile.items.items))
            (λ l. StaysFound T.name T.spelled T.fits D.moment D.left_since self.log.disk (wreck_of l).disk
            (take self.entries.pile.synced (map seen self.entries.pile.items.items)) (left_may self.aside.gone.items self.entries.pile.items.items)) }
        ensures written { IfOk result (λ s. ∥ Adds (archive_bytes T.name T.spelled) (IsArchived T.fits T.spelled) D.seen D.may_leave
            (take count self.log.waiting.items) self.log.disk s.log.disk ∥₁) }
        ensures idle { count ≡ 0 → MatchResult result (λ s. s.log.disk ≡ self.log.disk) (λ l. (wreck_of l).disk ≡ self.log.disk) }
    {
        let JournalArchive {
            entries,
            aside,
            mut log,
            alarm,
        } = self;
        match log.write(aside.alloc, count) {
            Ok(()) => Ok(JournalArchive {
                entries,
                aside,
                log,
                alarm,
            }),
            Err(miss) => {
                let wreck = JournalArchiveWreck {
                    pile: entries.into_pile(),
                    aside,
                    disk: log.into_disk(),
                    damage: None,
                    alarm,
                };
                Err(wreck.lost_by(miss))
            }
        }
    }
}

impl<T: JournalItem, D: Disk> JournalArchiveWreck<T, D> {
    /// Where the file was seen to be damaged, where the reopening that failed last saw that.
    pub fn damage(&self) -> Option<usize>
        ensures { result ≡ self.now.damage }
    {
        self.damage
    }
}

impl<T: JournalItem, D: Disk> JournalArchiveWreck<T, D> {
    // How the store was lost. A fault is counted.
    fn lost_by(self, miss: Miss) -> Lost<Self>
        ensures pile { (wreck_of result).pile ≡ self.pile }
        ensures aside { (wreck_of result).aside ≡ self.aside }
        ensures disk { (wreck_of result).disk ≡ self.disk }
        ensures damage { (wreck_of result).damage ≡ self.damage }
        ensures due { (wreck_of result).alarm.due.items ≡ self.alarm.due.items }
        ensures counts { CountsLost (λ w. w.alarm.faults) self.alarm.faults result }
        ensures cause { (due : List ℕ) (before : ℕ) → (miss ≡ Miss.Fault → Rose before (D.faults self.disk))
            → HasFaultCause (λ w. D.faults w.disk) due before result }
    {
        let mut wreck = self;
        match miss {
            Miss::Fault => {
                wreck.alarm.fail();
                Lost::Fault(wreck)
            }
            Miss::Memory => Lost::Memory(wreck),
        }
    }

    // Opens what a crash left, by its luck where that can be played.
    pub(crate) fn find(self, luck: u64) -> Result<JournalArchive<T, D>, Lost<Self>>
        requires undamaged { self.damage ≡ None }
        ensures done { MatchResult result
            (λ s. IsReopened (left_of (archive_kept self.aside.gone.items self.pile.items.items self.pile.synced))
            (archive_kept s.aside.gone.items s.entries.pile.items.items s.entries.pile.synced))
            (λ l. Fails (left_of (archive_kept self.aside.gone.items self.pile.items.items self.pile.synced)) []
            (left_of (archive_kept (wreck_of l).aside.gone.items (wreck_of l).pile.items.items (wreck_of l).pile.synced))) }
        ensures counted { MatchResult result (λ s. s.entries.pile.accepted ≤ 1) (λ l. (wreck_of l).pile.accepted ≡ self.pile.accepted) }
        ensures watched { IsCalm (λ s. journal_watch s.alarm.faults s.alarm.due.items) (λ w. journal_watch w.alarm.faults w.alarm.due.items)
            (journal_watch self.alarm.faults self.alarm.due.items) result }
        ensures cause { (due : List ℕ) → IfErr result (HasFaultCause (λ w. D.faults w.disk) due (D.faults self.disk)) }
        ensures found { IfOk result (λ s. (file : List ℕ) × (records : List (ArchiveRecord T)) × D.may_leave self.disk file
            × Stands (archive_bytes T.name T.spelled) (IsArchived T.fits T.spelled) records file
            × Stands (archive_bytes T.name T.spelled) (IsArchived T.fits T.spelled) records (D.seen s.log.disk)
            × (archive_kept s.aside.gone.items s.entries.pile.items.items s.entries.pile.synced ≡ reopened_store (kept_from T.name [] records))) }
        ensures undamaged { IfErr result (λ l. (wreck_of l).damage ≡ None) }
        ensures any_moment { MatchResult result
            (λ s. StaysFound T.name T.spelled T.fits D.moment D.left_since self.disk s.log.disk
            (take self.pile.synced (map seen self.pile.items.items)) (left_may self.aside.gone.items self.pile.items.items))
            (λ l. StaysFound T.name T.spelled T.fits D.moment D.left_since self.disk (wreck_of l).disk
            (take self.pile.synced (map seen self.pile.items.items)) (left_may self.aside.gone.items self.pile.items.items)) }
    {
        let mut wreck = self;
        if wreck.disk.crash(luck).is_err() {
            return Err(Lost::Memory(wreck));
        }
        match open_entries(wreck.aside.alloc, &mut wreck.disk) {
            Ok((entries, end)) => {
                let JournalArchiveWreck {
                    aside,
                    disk,
                    alarm,
                    ..
                } = wreck;
                Ok(JournalArchive {
                    entries,
                    aside: Aside::new(aside.alloc),
                    log: Log::new(aside.alloc, disk, end),
                    alarm,
                })
            }
            Err(reason) => {
                let told = told_by(reason);
                wreck.damage = told.1;
                Err(wreck.lost_by(told.0))
            }
        }
    }
}

impl<T: JournalItem, D: Disk> ArchiveRuin<T> for JournalArchiveWreck<T, D> {
    ghost left = { λ w. left_of (archive_kept w.aside.gone.items w.pile.items.items w.pile.synced) };

    ghost watch = { λ w. journal_watch w.alarm.faults w.alarm.due.items };

    ghost number = { λ w. w.pile.accepted };

    ghost short = { λ w. false };

    ghost front = { λ w. tt };

    ghost within = { λ w. archive_within w.aside.gone.items w.pile.items.items w.pile.synced };

    fn sure_ranges(&self) -> &RangeSet {
        self.pile.sure()
    }

    fn may_ranges(&self) -> &RangeSet {
        ranges_left(&self.aside.may, self.pile.held())
    }

    fn arm(&mut self, calls: u64) -> Result<(), AllocError> {
        self.alarm.arm(calls)
    }
}
