//! The calls of an archive, by a journal.
ghost use Rattle.std.specs.Prelude.{◌≡◌, ◌<◌, ◌≤◌, ◌+◌, max, false, [], ◌++◌, ◌∷◌, List, ℕ, None, is_some, map, take, true, IfErr, IfOk, IfSome, MatchResult, OnErr, OnOk, drop};
ghost use Rattle.std.specs.List.{AllByRecursion};
ghost use Rattle.mar_store.specs.Changes.{Fails, Finishes, IsReopened, IsStillOr, Prunes, Puts, Syncs, left_of, pruned_store};
ghost use Rattle.mar_store.specs.Entries.{covered_by, seen};
ghost use Rattle.mar_store.specs.Kept.{reopened_store};
ghost use Rattle.mar_store.specs.Lost.{LeavesPut, wreck_of};
ghost use Rattle.mar_store.specs.Luck.{keeps_by, lucky_found};
ghost use Rattle.mar_store.specs.Named.{is_taken, value_found};
ghost use Rattle.mar_store.specs.Nested.{covers_last};
ghost use Rattle.mar_store.specs.Tickets.{KeepsCovers, KeepsCoversFrom};
ghost use Rattle.mar_store.specs.Watch.{Heeds, HeedsRead, armed};
ghost use Rattle.mar_journal.specs.ArchiveRecords.{IsArchived, archive_bytes, kept_from};
ghost use Rattle.mar_journal_stores.specs.ArchiveStore.{IsFront, IsMarked, LetsGo, SetsAside, StaysFound, archive_kept, archive_nested, left_may};
ghost use Rattle.mar_journal.specs.Format.{Stands};
ghost use Rattle.mar_journal.specs.Journal.{Adds};
ghost use Rattle.mar_journal.specs.declared.ArchiveRecord.{ArchiveRecord};
ghost use Rattle.mar_journal_stores.specs.Watches.{HasFaultCause, journal_watch};

use crate::archive_drafts::{copies_below, front_of, newest, prepare_put};
use crate::aside::ranges_left;
use crate::{JournalArchive, JournalArchiveWreck};
use mar_journal::{Disk, JournalItem};
use mar_store::{Archive, Identifier, Lost, Miss, RangeSet, SyncTicket};
use std::alloc::AllocError;

impl<T: JournalItem, D: Disk> Archive<T> for JournalArchive<T, D> {
    type Wreck = JournalArchiveWreck<T, D>;

    ghost stored = { λ s. archive_kept s.aside.gone.items s.entries.pile.items.items s.entries.pile.synced };

    ghost watch = { λ s. journal_watch s.alarm.faults s.alarm.due.items };

    ghost number = { λ s. s.entries.pile.accepted };

    ghost covers = { λ s. covered_by s.entries.pile.items.items };

    ghost queued = { λ s. tt };

    ghost nested = { λ s. archive_nested s.aside.gone.items s.entries.pile.items.items s.entries.pile.synced s.entries.pile.once };

    ghost named = { λ s. s.entries.pile.named };

    ghost fitting = { λ s. s.entries.pile.fits };

    ghost last = { λ s. covers_last s.entries.pile.items.items };

    fn get(&mut self, identifier: Identifier<T::Key>) -> Result<Option<T>, Miss>
        ensures found { IfOk result (λ o. o ≡ value_found T.name T.Key.bytes (map seen self.old.entries.pile.items.items) identifier) }
        ensures same { archive_kept self.new.aside.gone.items self.new.entries.pile.items.items self.new.entries.pile.synced
            ≡ archive_kept self.old.aside.gone.items self.old.entries.pile.items.items self.old.entries.pile.synced }
        ensures tickets { self.new.entries.pile.accepted ≡ self.old.entries.pile.accepted }
        ensures covers { KeepsCovers self.old.entries.pile.accepted (covered_by self.old.entries.pile.items.items)
            (covered_by self.new.entries.pile.items.items) }
        ensures watched { HeedsRead (journal_watch self.old.alarm.faults self.old.alarm.due.items)
            (journal_watch self.new.alarm.faults self.new.alarm.due.items) result }
        ensures disk { self.new.log.disk ≡ self.old.log.disk }
    {
        if self.alarm.rings() {
            return Err(Miss::Fault);
        }
        match self.entries.find(&identifier) {
            None => Ok(None),
            Some(entry) => match entry.item.try_clone() {
                Ok(item) => Ok(Some(item)),
                Err(_) => Err(Miss::Memory),
            },
        }
    }

    fn has(&mut self, identifier: Identifier<T::Key>) -> Result<bool, Miss>
        ensures found { IfOk result (λ b. b ≡ is_some (value_found T.name T.Key.bytes (map seen self.old.entries.pile.items.items) identifier)) }
        ensures same { archive_kept self.new.aside.gone.items self.new.entries.pile.items.items self.new.entries.pile.synced
            ≡ archive_kept self.old.aside.gone.items self.old.entries.pile.items.items self.old.entries.pile.synced }
        ensures tickets { self.new.entries.pile.accepted ≡ self.old.entries.pile.accepted }
        ensures covers { KeepsCovers self.old.entries.pile.accepted (covered_by self.old.entries.pile.items.items)
            (covered_by self.new.entries.pile.items.items) }
        ensures watched { HeedsRead (journal_watch self.old.alarm.faults self.old.alarm.due.items)
            (journal_watch self.new.alarm.faults self.new.alarm.due.items) result }
        ensures disk { self.new.log.disk ≡ self.old.log.disk }
    {
        if self.alarm.rings() {
            return Err(Miss::Fault);
        }
        Ok(self.entries.find(&identifier).is_some())
    }

    fn put(self, index: u64, item: T) -> Result<Self, Lost<JournalArchiveWreck<T, D>>>
        requires size { T.size item ≤ 1048576 }
        requires fits { T.fits index item ≡ true }
        ensures done { MatchResult result
            (λ s. Puts (is_taken T.name (map seen self.entries.pile.items.items) (record { height = index; value = item }))
            (archive_kept self.aside.gone.items self.entries.pile.items.items self.entries.pile.synced) (record { height = index; value = item })
            (archive_kept s.aside.gone.items s.entries.pile.items.items s.entries.pile.synced))
            (λ l. Fails (left_of (archive_kept self.aside.gone.items self.entries.pile.items.items self.entries.pile.synced))
            (record { height = index; value = item } ∷ [])
            (left_of (archive_kept (wreck_of l).aside.gone.items (wreck_of l).pile.items.items (wreck_of l).pile.synced))) }
        ensures still { IfErr result (λ l. IfSome (journal_watch self.alarm.faults self.alarm.due.items).keeps
            (λ _. IsStillOr (left_of (archive_kept self.aside.gone.items self.entries.pile.items.items self.entries.pile.synced))
            (record { height = index; value = item })
            (left_of (archive_kept (wreck_of l).aside.gone.items (wreck_of l).pile.items.items (wreck_of l).pile.synced)))) }
        ensures written { IfErr result (λ l. IfSome (journal_watch self.alarm.faults self.alarm.due.items).keeps
            (λ _. LeavesPut (λ w. left_of (archive_kept w.aside.gone.items w.pile.items.items w.pile.synced)) (λ w. false)
            (is_taken T.name (map seen self.entries.pile.items.items) (record { height = index; value = item }))
            (left_of (archive_kept self.aside.gone.items self.entries.pile.items.items self.entries.pile.synced))
            (record { height = index; value = item }) l)) }
        ensures unchanged { is_taken T.name (map seen self.entries.pile.items.items) (record { height = index; value = item }) ≡ true → MatchResult result
            (λ s. archive_kept s.aside.gone.items s.entries.pile.items.items s.entries.pile.synced
            ≡ archive_kept self.aside.gone.items self.entries.pile.items.items self.entries.pile.synced)
            (λ l. Fails (left_of (archive_kept self.aside.gone.items self.entries.pile.items.items self.entries.pile.synced)) []
            (left_of (archive_kept (wreck_of l).aside.gone.items (wreck_of l).pile.items.items (wreck_of l).pile.synced))) }
        ensures counted { MatchResult result (λ s. s.entries.pile.accepted ≤ self.entries.pile.accepted + 1)
            (λ l. (wreck_of l).pile.accepted ≤ self.entries.pile.accepted + 1) }
        ensures tickets { IfOk result (λ s. self.entries.pile.accepted ≤ s.entries.pile.accepted) }
        ensures covers { IfOk result (λ s. KeepsCovers self.entries.pile.accepted (covered_by self.entries.pile.items.items)
            (covered_by s.entries.pile.items.items)) }
        ensures ignored { IfOk result (λ s. is_taken T.name (map seen self.entries.pile.items.items) (record { height = index; value = item }) ≡ true
            → (s.log.waiting.items ≡ self.log.waiting.items) × (s.log.marks.items ≡ self.log.marks.items)) }
        ensures marked { IfOk result (λ s. is_taken T.name (map seen self.entries.pile.items.items) (record { height = index; value = item }) ≡ false
            → IsMarked self.entries.pile.accepted s.entries.pile.accepted (ArchiveRecord.Put index item) self.log.waiting.items self.log.marks.items
            s.log.waiting.items s.log.marks.items) }
        ensures watched { Heeds (λ s. journal_watch s.alarm.faults s.alarm.due.items) (λ w. journal_watch w.alarm.faults w.alarm.due.items)
            (journal_watch self.alarm.faults self.alarm.due.items) result }
        ensures disk { MatchResult result (λ s. s.log.disk ≡ self.log.disk) (λ l. (wreck_of l).disk ≡ self.log.disk) }
        ensures cause { IfErr result (HasFaultCause (λ w. D.faults w.disk) self.alarm.due.items (D.faults self.log.disk)) }
    {
        let mut archive = self;
        if archive.alarm.rings() {
            return Err(Lost::Fault(archive.left()));
        }
        match prepare_put(&archive.aside.may, index, &item) {
            Err(_) => Err(Lost::Memory(archive.left())),
            Ok((copy, grown)) => archive.place(index, item, copy, grown),
        }
    }

    fn sync(self) -> Result<Self, Lost<JournalArchiveWreck<T, D>>>
        ensures done { MatchResult result
            (λ s. Syncs (archive_kept self.aside.gone.items self.entries.pile.items.items self.entries.pile.synced)
            (archive_kept s.aside.gone.items s.entries.pile.items.items s.entries.pile.synced))
            (λ l. Fails (left_of (archive_kept self.aside.gone.items self.entries.pile.items.items self.entries.pile.synced)) []
            (left_of (archive_kept (wreck_of l).aside.gone.items (wreck_of l).pile.items.items (wreck_of l).pile.synced))) }
        ensures still { IfErr result (λ l. IfSome (journal_watch self.alarm.faults self.alarm.due.items).keeps
            (λ _. left_of (archive_kept (wreck_of l).aside.gone.items (wreck_of l).pile.items.items (wreck_of l).pile.synced)
            ≡ left_of (archive_kept self.aside.gone.items self.entries.pile.items.items self.entries.pile.synced))) }
        ensures counted { MatchResult result (λ s. s.entries.pile.accepted ≤ self.entries.pile.accepted)
            (λ l. (wreck_of l).pile.accepted ≤ self.entries.pile.accepted) }
        ensures tickets { IfOk result (λ s. self.entries.pile.accepted ≤ s.entries.pile.accepted) }
        ensures covers { IfOk result (λ s. KeepsCovers self.entries.pile.accepted (covered_by self.entries.pile.items.items)
            (covered_by s.entries.pile.items.items)) }
        ensures watched { Heeds (λ s. journal_watch s.alarm.faults s.alarm.due.items) (λ w. journal_watch w.alarm.faults w.alarm.due.items)
            (journal_watch self.alarm.faults self.alarm.due.items) result }
        ensures any_moment { MatchResult result
            (λ s. StaysFound T.name T.spelled T.fits D.moment D.left_since self.log.disk s.log.disk
            (take self.entries.pile.synced (map seen self.entries.pile.items.items)) (left_may self.aside.gone.items self.entries.pile.items.items))
            (λ l. StaysFound T.name T.spelled T.fits D.moment D.left_since self.log.disk (wreck_of l).disk
            (take self.entries.pile.synced (map seen self.entries.pile.items.items)) (left_may self.aside.gone.items self.entries.pile.items.items)) }
        ensures written { IfOk result (λ s. ∥ Adds (archive_bytes T.name T.spelled) (IsArchived T.fits T.spelled) D.seen D.may_leave
            self.log.waiting.items self.log.disk s.log.disk ∥₁) }
        ensures none_waits { IfOk result (λ s. s.log.waiting.items ≡ []) }
        ensures none_aside { IfOk result (λ s. s.aside.gone.items ≡ []) }
        ensures idle { self.log.waiting.items ≡ [] → MatchResult result (λ s. s.log.disk ≡ self.log.disk) (λ l. (wreck_of l).disk ≡ self.log.disk) }
        ensures cause { IfErr result (HasFaultCause (λ w. D.faults w.disk) self.alarm.due.items (D.faults self.log.disk)) }
    {
        let mut archive = self;
        if archive.alarm.rings() {
            return Err(Lost::Fault(archive.left()));
        }
        let count = archive.log.waiting.len();
        match archive.flush(count) {
            Err(lost) => Err(lost),
            Ok(archive) => archive.make_sure(),
        }
    }

    fn start_sync(self) -> Result<(Self, SyncTicket), Lost<JournalArchiveWreck<T, D>>>
        ensures done { MatchResult result
            (λ s. archive_kept s.0.aside.gone.items s.0.entries.pile.items.items s.0.entries.pile.synced
            ≡ archive_kept self.aside.gone.items self.entries.pile.items.items self.entries.pile.synced)
            (λ l. Fails (left_of (archive_kept self.aside.gone.items self.entries.pile.items.items self.entries.pile.synced)) []
            (left_of (archive_kept (wreck_of l).aside.gone.items (wreck_of l).pile.items.items (wreck_of l).pile.synced))) }
        ensures still { IfErr result (λ l. IfSome (journal_watch self.alarm.faults self.alarm.due.items).keeps
            (λ _. left_of (archive_kept (wreck_of l).aside.gone.items (wreck_of l).pile.items.items (wreck_of l).pile.synced)
            ≡ left_of (archive_kept self.aside.gone.items self.entries.pile.items.items self.entries.pile.synced))) }
        ensures made { IfOk result (λ s. s.1.number ≤ s.0.entries.pile.accepted) }
        ensures covered { IfOk result (λ s. covered_by s.0.entries.pile.items.items s.1.number ≡ map seen self.entries.pile.items.items) }
        ensures waiting { IfOk result (λ s. (s.0.log.waiting ≡ self.log.waiting) × (s.0.log.marks ≡ self.log.marks)
            × AllByRecursion (λ n. n ≤ s.1.number) s.0.log.marks.items) }
        ensures aside { IfOk result (λ s. (s.0.aside.gone ≡ self.aside.gone)
            × AllByRecursion (λ e. e.number ≤ s.1.number) s.0.aside.gone.items) }
        ensures counted { MatchResult result (λ s. s.0.entries.pile.accepted ≤ self.entries.pile.accepted)
            (λ l. (wreck_of l).pile.accepted ≤ self.entries.pile.accepted) }
        ensures tickets { IfOk result (λ s. self.entries.pile.accepted ≤ s.0.entries.pile.accepted) }
        ensures covers { IfOk result (λ s. KeepsCovers self.entries.pile.accepted (covered_by self.entries.pile.items.items)
            (covered_by s.0.entries.pile.items.items)) }
        ensures watched { Heeds (λ s. journal_watch s.0.alarm.faults s.0.alarm.due.items) (λ w. journal_watch w.alarm.faults w.alarm.due.items)
            (journal_watch self.alarm.faults self.alarm.due.items) result }
        ensures disk { MatchResult result (λ s. s.0.log.disk ≡ self.log.disk) (λ l. (wreck_of l).disk ≡ self.log.disk) }
        ensures cause { IfErr result (HasFaultCause (λ w. D.faults w.disk) self.alarm.due.items (D.faults self.log.disk)) }
    {
        let mut archive = self;
        if archive.alarm.rings() {
            return Err(Lost::Fault(archive.left()));
        }
        let number = newest(&archive.log.marks, archive.entries.pile.ticket().number());
        Ok((archive, SyncTicket::new(number)))
    }

    fn finish(self, ticket: SyncTicket) -> Result<Self, Lost<JournalArchiveWreck<T, D>>>
        requires made { ticket.number ≤ self.entries.pile.accepted }
        ensures done { MatchResult result
            (λ s. Finishes (covered_by self.entries.pile.items.items ticket.number)
            (archive_kept self.aside.gone.items self.entries.pile.items.items self.entries.pile.synced)
            (archive_kept s.aside.gone.items s.entries.pile.items.items s.entries.pile.synced))
            (λ l. Fails (left_of (archive_kept self.aside.gone.items self.entries.pile.items.items self.entries.pile.synced)) []
            (left_of (archive_kept (wreck_of l).aside.gone.items (wreck_of l).pile.items.items (wreck_of l).pile.synced))) }
        ensures still { IfErr result (λ l. IfSome (journal_watch self.alarm.faults self.alarm.due.items).keeps
            (λ _. left_of (archive_kept (wreck_of l).aside.gone.items (wreck_of l).pile.items.items (wreck_of l).pile.synced)
            ≡ left_of (archive_kept self.aside.gone.items self.entries.pile.items.items self.entries.pile.synced))) }
        ensures counted { MatchResult result (λ s. s.entries.pile.accepted ≤ self.entries.pile.accepted)
            (λ l. (wreck_of l).pile.accepted ≤ self.entries.pile.accepted) }
        ensures tickets { IfOk result (λ s. self.entries.pile.accepted ≤ s.entries.pile.accepted) }
        ensures covers { IfOk result (λ s. KeepsCovers self.entries.pile.accepted (covered_by self.entries.pile.items.items)
            (covered_by s.entries.pile.items.items)) }
        ensures watched { Heeds (λ s. journal_watch s.alarm.faults s.alarm.due.items) (λ w. journal_watch w.alarm.faults w.alarm.due.items)
            (journal_watch self.alarm.faults self.alarm.due.items) result }
        ensures any_moment { MatchResult result
            (λ s. StaysFound T.name T.spelled T.fits D.moment D.left_since self.log.disk s.log.disk
            (take self.entries.pile.synced (map seen self.entries.pile.items.items)) (left_may self.aside.gone.items self.entries.pile.items.items))
            (λ l. StaysFound T.name T.spelled T.fits D.moment D.left_since self.log.disk (wreck_of l).disk
            (take self.entries.pile.synced (map seen self.entries.pile.items.items)) (left_may self.aside.gone.items self.entries.pile.items.items)) }
        ensures written { IfOk result (λ s. (count : ℕ) × IsFront ticket.number self.log.marks.items count
            × AllByRecursion (λ n. n ≤ ticket.number) (take count self.log.marks.items)
            × (s.log.waiting.items ≡ drop count self.log.waiting.items) × (s.log.marks.items ≡ drop count self.log.marks.items)
            × ∥ Adds (archive_bytes T.name T.spelled) (IsArchived T.fits T.spelled) D.seen D.may_leave (take count self.log.waiting.items)
            self.log.disk s.log.disk ∥₁) }
        ensures let_go { IfOk result (λ s. LetsGo ticket.number self.entries.pile.synced s.entries.pile.synced self.aside.gone.items s.aside.gone.items) }
        ensures idle { AllByRecursion (λ n. ticket.number < n) self.log.marks.items
            → MatchResult result (λ s. s.log.disk ≡ self.log.disk) (λ l. (wreck_of l).disk ≡ self.log.disk) }
        ensures cause { IfErr result (HasFaultCause (λ w. D.faults w.disk) self.alarm.due.items (D.faults self.log.disk)) }
    {
        let mut archive = self;
        if archive.alarm.rings() {
            return Err(Lost::Fault(archive.left()));
        }
        let number = ticket.number();
        let count = front_of(&archive.log.marks, number);
        match archive.flush(count) {
            Err(lost) => Err(lost),
            Ok(archive) => archive.make_covered_sure(number),
        }
    }

    fn prune(self, min: u64) -> Result<Self, Lost<JournalArchiveWreck<T, D>>>
        ensures done { MatchResult result
            (λ s. Prunes min (archive_kept self.aside.gone.items self.entries.pile.items.items self.entries.pile.synced)
            (archive_kept s.aside.gone.items s.entries.pile.items.items s.entries.pile.synced))
            (λ l. Fails (left_of (archive_kept self.aside.gone.items self.entries.pile.items.items self.entries.pile.synced)) []
            (left_of (archive_kept (wreck_of l).aside.gone.items (wreck_of l).pile.items.items (wreck_of l).pile.synced))) }
        ensures still { IfErr result (λ l. IfSome (journal_watch self.alarm.faults self.alarm.due.items).keeps
            (λ _. left_of (archive_kept (wreck_of l).aside.gone.items (wreck_of l).pile.items.items (wreck_of l).pile.synced)
            ≡ left_of (archive_kept self.aside.gone.items self.entries.pile.items.items self.entries.pile.synced))) }
        ensures exact { IfOk result (λ s. IfSome (journal_watch self.alarm.faults self.alarm.due.items).keeps
            (λ _. archive_kept s.aside.gone.items s.entries.pile.items.items s.entries.pile.synced
            ≡ pruned_store min (archive_kept self.aside.gone.items self.entries.pile.items.items self.entries.pile.synced))) }
        ensures counted { MatchResult result (λ s. s.entries.pile.accepted ≤ self.entries.pile.accepted + 1)
            (λ l. (wreck_of l).pile.accepted ≤ self.entries.pile.accepted + 1) }
        ensures tickets { IfOk result (λ s. self.entries.pile.accepted ≤ s.entries.pile.accepted) }
        ensures covers { IfOk result (λ s. KeepsCoversFrom min self.entries.pile.accepted (covered_by self.entries.pile.items.items)
            (covered_by s.entries.pile.items.items)) }
        ensures aside { IfOk result (λ s. SetsAside min s.entries.pile.accepted self.entries.pile.items.items self.aside.gone.items s.aside.gone.items) }
        ensures marked { IfOk result (λ s. IsMarked self.entries.pile.accepted s.entries.pile.accepted (ArchiveRecord.Prune min)
            self.log.waiting.items self.log.marks.items s.log.waiting.items s.log.marks.items) }
        ensures watched { Heeds (λ s. journal_watch s.alarm.faults s.alarm.due.items) (λ w. journal_watch w.alarm.faults w.alarm.due.items)
            (journal_watch self.alarm.faults self.alarm.due.items) result }
        ensures disk { MatchResult result (λ s. s.log.disk ≡ self.log.disk) (λ l. (wreck_of l).disk ≡ self.log.disk) }
        ensures cause { IfErr result (HasFaultCause (λ w. D.faults w.disk) self.alarm.due.items (D.faults self.log.disk)) }
    {
        let mut archive = self;
        if archive.alarm.rings() {
            return Err(Lost::Fault(archive.left()));
        }
        // A prune is counted, so that no ticket that was given out before it writes it or lets go what it takes out.
        let mark = archive.entries.pile.ticket().number().saturating_add(1);
        let may = match ranges_left(&archive.aside.may, archive.entries.pile.held()).try_clone() {
            Ok(may) => may,
            Err(_) => return Err(Lost::Memory(archive.left())),
        };
        match copies_below(archive.aside.alloc, &archive.entries.pile.items, min, mark) {
            Err(_) => Err(Lost::Memory(archive.left())),
            Ok(more) => archive.cut(min, mark, more, may),
        }
    }

    fn wreck(self) -> JournalArchiveWreck<T, D>
        ensures left { left_of (archive_kept result.aside.gone.items result.pile.items.items result.pile.synced)
            ≡ left_of (archive_kept self.aside.gone.items self.entries.pile.items.items self.entries.pile.synced) }
        ensures number { result.pile.accepted ≡ self.entries.pile.accepted }
        ensures watch { journal_watch result.alarm.faults result.alarm.due.items ≡ journal_watch self.alarm.faults self.alarm.due.items }
        ensures disk { result.disk ≡ self.log.disk }
    {
        self.left()
    }

    fn reopen(
        wreck: JournalArchiveWreck<T, D>,
        luck: u64,
    ) -> Result<Self, Lost<JournalArchiveWreck<T, D>>>
        ensures done { MatchResult result
            (λ s. IsReopened (left_of (archive_kept wreck.aside.gone.items wreck.pile.items.items wreck.pile.synced))
            (archive_kept s.aside.gone.items s.entries.pile.items.items s.entries.pile.synced))
            (λ l. Fails (left_of (archive_kept wreck.aside.gone.items wreck.pile.items.items wreck.pile.synced)) []
            (left_of (archive_kept (wreck_of l).aside.gone.items (wreck_of l).pile.items.items (wreck_of l).pile.synced))) }
        ensures still { IfErr result (λ l. IfSome (journal_watch wreck.alarm.faults wreck.alarm.due.items).keeps
            (λ _. left_of (archive_kept (wreck_of l).aside.gone.items (wreck_of l).pile.items.items (wreck_of l).pile.synced)
            ≡ left_of (archive_kept wreck.aside.gone.items wreck.pile.items.items wreck.pile.synced))) }
        ensures lucky { IfOk result (λ s. IfSome (journal_watch wreck.alarm.faults wreck.alarm.due.items).keeps
            (λ keeps. map seen s.entries.pile.items.items ≡ lucky_found (keeps_by keeps luck)
            (left_of (archive_kept wreck.aside.gone.items wreck.pile.items.items wreck.pile.synced)))) }
        ensures counted { MatchResult result (λ s. s.entries.pile.accepted ≤ max 1 wreck.pile.accepted)
            (λ l. (wreck_of l).pile.accepted ≤ wreck.pile.accepted) }
        ensures watched { Heeds (λ s. journal_watch s.alarm.faults s.alarm.due.items) (λ w. journal_watch w.alarm.faults w.alarm.due.items)
            (journal_watch wreck.alarm.faults wreck.alarm.due.items) result }
        ensures found { IfOk result (λ s. (file : List ℕ) × (records : List (ArchiveRecord T)) × D.may_leave wreck.disk file
            × Stands (archive_bytes T.name T.spelled) (IsArchived T.fits T.spelled) records file
            × Stands (archive_bytes T.name T.spelled) (IsArchived T.fits T.spelled) records (D.seen s.log.disk)
            × (archive_kept s.aside.gone.items s.entries.pile.items.items s.entries.pile.synced ≡ reopened_store (kept_from T.name [] records))) }
        ensures undamaged { IfErr result (λ l. (wreck_of l).damage ≡ None) }
        ensures any_moment { MatchResult result
            (λ s. StaysFound T.name T.spelled T.fits D.moment D.left_since wreck.disk s.log.disk
            (take wreck.pile.synced (map seen wreck.pile.items.items)) (left_may wreck.aside.gone.items wreck.pile.items.items))
            (λ l. StaysFound T.name T.spelled T.fits D.moment D.left_since wreck.disk (wreck_of l).disk
            (take wreck.pile.synced (map seen wreck.pile.items.items)) (left_may wreck.aside.gone.items wreck.pile.items.items)) }
        ensures cause { IfErr result (HasFaultCause (λ w. D.faults w.disk) wreck.alarm.due.items (D.faults wreck.disk)) }
    {
        let mut wreck = wreck;
        wreck.damage = None;
        if wreck.alarm.rings() {
            return Err(Lost::Fault(wreck));
        }
        wreck.find(luck)
    }

    fn arm(&mut self, calls: u64) -> Result<(), AllocError>
        ensures armed { OnOk result (journal_watch self.new.alarm.faults self.new.alarm.due.items
            ≡ armed calls (journal_watch self.old.alarm.faults self.old.alarm.due.items)) }
        ensures unarmed { OnErr result (journal_watch self.new.alarm.faults self.new.alarm.due.items
            ≡ journal_watch self.old.alarm.faults self.old.alarm.due.items) }
        ensures same { archive_kept self.new.aside.gone.items self.new.entries.pile.items.items self.new.entries.pile.synced
            ≡ archive_kept self.old.aside.gone.items self.old.entries.pile.items.items self.old.entries.pile.synced }
        ensures tickets { self.new.entries.pile.accepted ≡ self.old.entries.pile.accepted }
        ensures covers { KeepsCovers self.old.entries.pile.accepted (covered_by self.old.entries.pile.items.items)
            (covered_by self.new.entries.pile.items.items) }
        ensures disk { self.new.log.disk ≡ self.old.log.disk }
    {
        self.alarm.arm(calls)
    }

    fn last_index(&self) -> Option<u64> {
        self.entries.pile.last_index()
    }

    fn held_ranges(&self) -> &RangeSet {
        self.entries.pile.held()
    }

    fn sure_ranges(&self) -> &RangeSet {
        self.entries.pile.sure()
    }
}
