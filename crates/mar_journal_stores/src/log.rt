//! A journal, and the records that wait to be written to it.
ghost use Rattle.std.specs.Prelude.{◌≡◌, ◌<◌, ◌≤◌, ◌++◌, ◌∷◌, [], List, drop, length, take, OnOk};
ghost use Rattle.std.specs.List.{AllByRecursion};
ghost use Rattle.mar_journal.specs.Disk.{Answers, LeavesOnly};
ghost use Rattle.mar_journal.specs.Format.{StandsUpto};
ghost use Rattle.mar_journal.specs.Journal.{IsSettled};
ghost use Rattle.mar_journal.specs.Records.{IsWritable};

use mar_journal::{Disk, Record, write_all};
use mar_store::Miss;
use std::alloc::{AllocError, Global};

/// A disk with a journal, the place of its closed gate, and the records that wait until a sync writes them: beside each its
/// mark, the number of the first ticket that has it written.
#[derive(Drop)]
pub struct Log<R, D> {
    pub disk: D,
    pub end: usize,
    pub waiting: Vec<R>,
    pub marks: Vec<u64>,
}

impl<R: Drop, D: Drop> Log<R, D> {
    /// No record waits.
    pub fn new(alloc: Global, disk: D, end: usize) -> Self
        ensures disk { result.disk ≡ disk }
        ensures end { result.end ≡ end }
        ensures waiting { result.waiting.items ≡ [] }
        ensures marks { result.marks.items ≡ [] }
    {
        Log {
            disk,
            end,
            waiting: Vec::new(alloc),
            marks: Vec::new(alloc),
        }
    }

    /// Its disk. What waits isn't on it.
    pub fn into_disk(self) -> D
        ensures { result ≡ self.disk }
    {
        self.disk
    }

    /// Adds a record to those that wait, with its mark.
    pub fn add(&mut self, change: R, mark: u64) -> Result<(), AllocError>
        ensures waiting { OnOk result (self.new.waiting.items ≡ self.old.waiting.items ++ change ∷ []) }
        ensures marks { OnOk result (self.new.marks.items ≡ self.old.marks.items ++ mark ∷ []) }
        ensures disk { self.new.disk ≡ self.old.disk }
        ensures end { self.new.end ≡ self.old.end }
    {
        self.waiting.push(change)?;
        self.marks.push(mark)?;
        Ok(())
    }
}

impl<R: Record, D: Disk> Log<R, D> {
    /// Writes so many of the records that wait, from the first on. With none it makes no call of the disk.
    pub fn write(&mut self, alloc: Global, count: usize) -> Result<(), Miss>
        requires room { self.old.end < length (D.seen self.old.disk) }
        requires good { AllByRecursion (IsWritable R.spelled R.valid) self.old.waiting.items }
        requires count { count ≤ length self.old.waiting.items }
        requires marked { length self.old.waiting.items ≤ length self.old.marks.items }
        ensures done { (before : List R) → IsSettled R.spelled R.valid D.seen D.may_leave before self.old.end self.old.disk
            → OnOk result (IsSettled R.spelled R.valid D.seen D.may_leave (before ++ take count self.old.waiting.items) self.new.end self.new.disk) }
        ensures any_moment { (before : List R) → IsSettled R.spelled R.valid D.seen D.may_leave before self.old.end self.old.disk
            → LeavesOnly D.moment D.left_since self.old.disk self.new.disk (StandsUpto R.spelled R.valid before (take count self.old.waiting.items)) }
        ensures waiting { OnOk result (self.new.waiting.items ≡ drop count self.old.waiting.items) }
        ensures marks { OnOk result (self.new.marks.items ≡ drop count self.old.marks.items) }
        ensures idle { count ≡ 0 → self.new.disk ≡ self.old.disk }
        ensures cause { Answers (D.faults self.old.disk) (D.faults self.new.disk) result }
    {
        self.end = write_all(alloc, &mut self.disk, self.end, &self.waiting[..count])?;
        drop_front(&mut self.waiting, count);
        drop_front(&mut self.marks, count);
        Ok(())
    }
}

// Drops so many from the front.
fn drop_front<T: Drop>(items: &mut Vec<T>, count: usize)
    requires { count ≤ length items.old.items }
    ensures { items.new.items ≡ drop count items.old.items }
{
    let left = items.len() - count;
    items.rotate_left(count);
    items.truncate(left);
}
