//! Journals on a disk: one is opened, and batches are added.
ghost use Rattle.std.specs.Prelude.{◌≡◌, ◌<◌, ◌≤◌, ◌+◌, ◌⊎◌, ◌++◌, ◌∷◌, [], List, length, IfErr, IfOk, OnOk};
ghost use Rattle.std.specs.List.{AllByRecursion};
ghost use Rattle.mar_journal.specs.Disk.{Answers, LeavesOnly, Narrows, Only};
ghost use Rattle.mar_journal.specs.Format.{IsBatch, IsNew, Stands, StandsUpto, behind_gate, magic};
ghost use Rattle.mar_journal.specs.Records.{IsWritable};
ghost use Rattle.mar_journal.specs.Journal.{HasReason, IsOldOrNew, IsSettled, IsStaged};

use crate::file::{MAX_BATCH, Scan, read_file, staged};
use crate::{Disk, Record};
use mar_store::Miss;
use std::alloc::Global;

// How many bytes are read at once.
const PIECE: usize = 65_536;

// What a journal with no records has: the magic and a closed gate.
const FIRST: [u8; 5] = [0x4d, 0x4a, 0x31, 0x0a, 0];

/// Why a journal isn't opened.
#[derive(Clone, Copy, Debug, PartialEq, Eq)]
pub enum Unopened {
    /// The disk failed.
    Fault,
    /// Memory ran out.
    Memory,
    /// The file shows damage at this place.
    Damaged(usize),
}

/// A journal as it was opened.
#[derive(Drop)]
pub struct Opened<R> {
    /// All its records.
    pub records: Vec<R>,
    /// The place of the closed gate.
    pub end: usize,
}

// Writes a batch behind the closed gate at `end`, with a closed gate behind it, and makes it durable. It says how many bytes
// that takes. The gate stays closed.
fn stage<R: Record, D: Disk>(
    alloc: Global,
    disk: &mut D,
    end: usize,
    records: &[R],
) -> Result<usize, Miss>
    requires room { end < length (D.seen disk.old) }
    requires batch { IsBatch R.spelled R.valid records.now }
    ensures staged { OnOk result (IsStaged R.spelled records.now end (D.seen disk.new)) }
    ensures durable { OnOk result (Only (D.seen disk.new) (D.may_leave disk.new)) }
    ensures size { IfOk result (λ n. n ≡ length (behind_gate R.spelled records.now ++ 0 ∷ [])) }
    ensures room { IfOk result (λ n. end + n < length (D.seen disk.new)) }
    ensures same { OnOk result ((before : List R) → IsSettled R.spelled R.valid D.seen D.may_leave before end disk.old
        → IsSettled R.spelled R.valid D.seen D.may_leave before end disk.new) }
    ensures any_moment { (before : List R) → IsSettled R.spelled R.valid D.seen D.may_leave before end disk.old
        → LeavesOnly D.moment D.left_since disk.old disk.new (Stands R.spelled R.valid before) }
    ensures cause { Answers (D.faults disk.old) (D.faults disk.new) result }
{
    let bytes = match staged(alloc, records) {
        Ok(bytes) => bytes,
        Err(_) => return Err(Miss::Memory),
    };
    disk.write_at(end + 1, &bytes)?;
    disk.sync()?;
    Ok(bytes.len())
}

// Opens the closed gate at `end`, behind which these records stand already, and makes that durable.
fn open_gate<R: Record, D: Disk>(disk: &mut D, end: usize, records: &[R]) -> Result<(), Miss>
    requires room { end < length (D.seen disk.old) }
    requires batch { IsBatch R.spelled R.valid records.now }
    requires staged { IsStaged R.spelled records.now end (D.seen disk.old) }
    requires durable { Only (D.seen disk.old) (D.may_leave disk.old) }
    ensures done { (before : List R) → IsSettled R.spelled R.valid D.seen D.may_leave before end disk.old
        → OnOk result (IsSettled R.spelled R.valid D.seen D.may_leave (before ++ records.now)
        (end + length (behind_gate R.spelled records.now ++ 0 ∷ [])) disk.new) }
    ensures any_moment { (before : List R) → IsSettled R.spelled R.valid D.seen D.may_leave before end disk.old
        → LeavesOnly D.moment D.left_since disk.old disk.new
        (λ c. Stands R.spelled R.valid before c ⊎ Stands R.spelled R.valid (before ++ records.now) c) }
    ensures room { OnOk result (length (D.seen disk.old) ≤ length (D.seen disk.new)) }
    ensures cause { Answers (D.faults disk.old) (D.faults disk.new) result }
{
    let _ = records;
    disk.write_at(end, &[1])?;
    disk.sync()?;
    Ok(())
}

/// Adds a batch behind the closed gate at `end`, and says where the closed gate is then.
pub fn append<R: Record, D: Disk>(
    alloc: Global,
    disk: &mut D,
    end: usize,
    records: &[R],
) -> Result<usize, Miss>
    requires room { end < length (D.seen disk.old) }
    requires batch { IsBatch R.spelled R.valid records.now }
    ensures done { (before : List R) → IsSettled R.spelled R.valid D.seen D.may_leave before end disk.old
        → IfOk result (λ e. IsSettled R.spelled R.valid D.seen D.may_leave (before ++ records.now) e disk.new) }
    ensures any_moment { (before : List R) → IsSettled R.spelled R.valid D.seen D.may_leave before end disk.old
        → LeavesOnly D.moment D.left_since disk.old disk.new
        (λ c. Stands R.spelled R.valid before c ⊎ Stands R.spelled R.valid (before ++ records.now) c) }
    ensures room { IfOk result (λ e. e < length (D.seen disk.new)) }
    ensures cause { Answers (D.faults disk.old) (D.faults disk.new) result }
{
    let size = stage(alloc, disk, end, records)?;
    open_gate(disk, end, records)?;
    Ok(end + size)
}

/// Adds records as batches behind the closed gate at `end`, and says where the closed gate is then. With no records it
/// makes no call of the disk.
pub fn write_all<R: Record, D: Disk>(
    alloc: Global,
    disk: &mut D,
    end: usize,
    records: &[R],
) -> Result<usize, Miss>
    requires room { end < length (D.seen disk.old) }
    requires good { AllByRecursion (IsWritable R.spelled R.valid) records.now }
    ensures done { (before : List R) → IsSettled R.spelled R.valid D.seen D.may_leave before end disk.old
        → IfOk result (λ e. IsSettled R.spelled R.valid D.seen D.may_leave (before ++ records.now) e disk.new) }
    ensures any_moment { (before : List R) → IsSettled R.spelled R.valid D.seen D.may_leave before end disk.old
        → LeavesOnly D.moment D.left_since disk.old disk.new (StandsUpto R.spelled R.valid before records.now) }
    ensures idle { records.now ≡ [] → disk.new ≡ disk.old }
    ensures cause { Answers (D.faults disk.old) (D.faults disk.new) result }
{
    let mut end = end;
    let mut done = 0;
    'batches: while done < records.len() {
        let size = (records.len() - done).min(MAX_BATCH);
        end = append(alloc, disk, end, &records[done..done + size])?;
        done += size;
    }
    Ok(end)
}

// All bytes of a disk, read in pieces.
fn read_all<D: Disk>(alloc: Global, disk: &mut D) -> Result<Vec<u8>, Miss>
    ensures bytes { IfOk result (λ v. v.items ≡ D.seen disk.old) }
    ensures same { D.seen disk.new ≡ D.seen disk.old }
    ensures crash { Narrows (D.may_leave disk.old) (D.may_leave disk.new) }
    ensures any_moment { LeavesOnly D.moment D.left_since disk.old disk.new (D.may_leave disk.old) }
    ensures cause { Answers (D.faults disk.old) (D.faults disk.new) result }
{
    let size = disk.len()?;
    let mut bytes = Vec::new(alloc);
    'pieces: while bytes.len() < size {
        let piece = disk.read(alloc, bytes.len(), PIECE)?;
        match bytes.extend_from_slice(&piece) {
            Ok(()) => {}
            Err(_) => return Err(Miss::Memory),
        }
    }
    Ok(bytes)
}

// Makes durable what is there, and reads it.
fn settle<D: Disk>(alloc: Global, disk: &mut D) -> Result<Vec<u8>, Miss>
    ensures bytes { IfOk result (λ v. v.items ≡ D.seen disk.old) }
    ensures same { D.seen disk.new ≡ D.seen disk.old }
    ensures only { OnOk result (Only (D.seen disk.old) (D.may_leave disk.new)) }
    ensures any_moment { LeavesOnly D.moment D.left_since disk.old disk.new (D.may_leave disk.old) }
    ensures cause { Answers (D.faults disk.old) (D.faults disk.new) result }
{
    disk.sync()?;
    read_all(alloc, disk)
}

// Makes a new file a journal with no records. It says where the closed gate is.
fn begin<D: Disk>(disk: &mut D) -> Result<usize, Miss>
    requires new { IsNew (D.seen disk.old) }
    requires only { Only (D.seen disk.old) (D.may_leave disk.old) }
    ensures done { IfOk result (λ e. (e ≡ 4) × (D.seen disk.new ≡ magic ++ 0 ∷ []) × Only (D.seen disk.new) (D.may_leave disk.new)) }
    ensures any_moment { LeavesOnly D.moment D.left_since disk.old disk.new IsNew }
    ensures cause { Answers (D.faults disk.old) (D.faults disk.new) result }
{
    disk.write_at(0, &FIRST)?;
    disk.sync()?;
    Ok(4)
}

// The same, as an opening of it.
fn begin_empty<R: Record, D: Disk>(alloc: Global, disk: &mut D) -> Result<Opened<R>, Unopened>
    requires new { IsNew (D.seen disk.old) }
    requires only { Only (D.seen disk.old) (D.may_leave disk.old) }
    ensures done { IfOk result (λ o. (o.records.items ≡ [])
        × IsSettled R.spelled R.valid D.seen D.may_leave o.records.items o.end disk.new) }
    ensures any_moment { LeavesOnly D.moment D.left_since disk.old disk.new IsNew }
    ensures reason { IfErr result (HasReason R.spelled R.valid (D.faults disk.old) (D.faults disk.new) (D.seen disk.old)) }
{
    match begin(disk) {
        Ok(end) => Ok(Opened {
            records: Vec::new(alloc),
            end,
        }),
        Err(Miss::Fault) => Err(Unopened::Fault),
        Err(Miss::Memory) => Err(Unopened::Memory),
    }
}

/// Opens a journal that a crash may have left. It may crash too, at any moment, and then the file stands for the same
/// records.
pub fn open<R: Record, D: Disk>(alloc: Global, disk: &mut D) -> Result<Opened<R>, Unopened>
    ensures done { IfOk result (λ o. IsSettled R.spelled R.valid D.seen D.may_leave o.records.items o.end disk.new
        × Stands R.spelled R.valid o.records.items (D.seen disk.old)) }
    ensures any_moment { LeavesOnly D.moment D.left_since disk.old disk.new (IsOldOrNew (D.seen disk.old) (D.may_leave disk.old)) }
    ensures reason { IfErr result (HasReason R.spelled R.valid (D.faults disk.old) (D.faults disk.new) (D.seen disk.old)) }
{
    let bytes = match settle(alloc, disk) {
        Ok(bytes) => bytes,
        Err(Miss::Fault) => return Err(Unopened::Fault),
        Err(Miss::Memory) => return Err(Unopened::Memory),
    };
    if bytes.len() <= FIRST.len() {
        return begin_empty(alloc, disk);
    }
    match read_file(alloc, &bytes) {
        Ok(Scan::Found(records, end)) => Ok(Opened { records, end }),
        Ok(Scan::Damaged(at)) => Err(Unopened::Damaged(at)),
        Err(_) => Err(Unopened::Memory),
    }
}
