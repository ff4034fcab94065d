//! How an archive is read back from its journal.
ghost use Rattle.std.specs.Prelude.{◌≡◌, ◌≤◌, [], List, map, take, IfErr, IfOk};
ghost use Rattle.std.specs.List.{AllByRecursion};
ghost use Rattle.mar_store.specs.Entries.{seen};
ghost use Rattle.mar_journal.specs.ArchiveRecords.{IsArchived, archive_bytes, kept_by, kept_from};
ghost use Rattle.mar_journal.specs.Disk.{LeavesOnly};
ghost use Rattle.mar_journal.specs.Format.{Stands};
ghost use Rattle.mar_journal.specs.Journal.{HasReason, IsOldOrNew, IsSettled};
ghost use Rattle.mar_journal.specs.declared.ArchiveRecord.{ArchiveRecord};

use mar_journal::{ArchiveRecord, Disk, JournalItem, Unopened, open};
use mar_store::{Entries, Pile};
use std::alloc::Global;

// One record further.
fn apply<T: JournalItem>(
    entries: Entries<T>,
    change: ArchiveRecord<T>,
) -> Result<Entries<T>, Pile<T>>
    requires { IsArchived T.fits T.spelled change }
    ensures { IfOk result (λ s. map seen s.pile.items.items ≡ kept_by T.name (map seen entries.pile.items.items) change) }
{
    match change {
        ArchiveRecord::Put(index, item) => entries.put(index, item),
        ArchiveRecord::Prune(min) => entries.prune(min),
    }
}

// The entries that some records leave.
fn replay<T: JournalItem>(
    alloc: Global,
    records: Vec<ArchiveRecord<T>>,
) -> Result<Entries<T>, Pile<T>>
    requires { AllByRecursion (IsArchived T.fits T.spelled) records.items }
    ensures { IfOk result (λ s. map seen s.pile.items.items ≡ kept_from T.name [] records.items) }
{
    let mut entries = Entries::new(alloc);
    for change in records {
        entries = apply(entries, change)?;
    }
    Ok(entries)
}

// All of it made sure and numbered anew.
fn settled<T: JournalItem>(entries: Entries<T>) -> Result<Entries<T>, Pile<T>>
    ensures items { IfOk result (λ s. map seen s.pile.items.items ≡ map seen entries.pile.items.items) }
    ensures sure { IfOk result (λ s. take s.pile.synced (map seen s.pile.items.items) ≡ map seen s.pile.items.items) }
    ensures counted { IfOk result (λ s. s.pile.accepted ≤ 1) }
{
    match entries.sync() {
        Err(pile) => Err(pile),
        Ok(entries) => Ok(entries.restart()),
    }
}

/// Opens a journal. It gives the entries that its records leave, all of them sure, and the place of the closed
/// gate.
pub fn open_entries<T: JournalItem, D: Disk>(
    alloc: Global,
    disk: &mut D,
) -> Result<(Entries<T>, usize), Unopened>
    ensures done { IfOk result (λ o. (records : List (ArchiveRecord T))
        × IsSettled (archive_bytes T.name T.spelled) (IsArchived T.fits T.spelled) D.seen D.may_leave records o.1 disk.new
        × Stands (archive_bytes T.name T.spelled) (IsArchived T.fits T.spelled) records (D.seen disk.old)
        × (map seen o.0.pile.items.items ≡ kept_from T.name [] records)
        × (take o.0.pile.synced (map seen o.0.pile.items.items) ≡ map seen o.0.pile.items.items)) }
    ensures counted { IfOk result (λ o. o.0.pile.accepted ≤ 1) }
    ensures any_moment { LeavesOnly D.moment D.left_since disk.old disk.new (IsOldOrNew (D.seen disk.old) (D.may_leave disk.old)) }
    ensures reason { IfErr result (HasReason (archive_bytes T.name T.spelled) (IsArchived T.fits T.spelled)
        (D.faults disk.old) (D.faults disk.new) (D.seen disk.old)) }
{
    let opened = open::<ArchiveRecord<T>, D>(alloc, disk)?;
    let entries = match replay(alloc, opened.records) {
        Ok(entries) => entries,
        Err(_) => return Err(Unopened::Memory),
    };
    match settled(entries) {
        Ok(entries) => Ok((entries, opened.end)),
        Err(_) => Err(Unopened::Memory),
    }
}
