//! A disk in memory.
ghost use Rattle.std.specs.Prelude.{◌≡◌, ◌<◌, ◌≤◌, ◌^◌, ◌+◌, ◌-◌, ◌++◌, ◌∷◌, [], List, ℕ, true, false, length, max, IfOk, OnOk};
ghost use Rattle.mar_types.specs.Causes.{Rose};
ghost use Rattle.mar_journal.specs.Disk.{Follows, Narrows, Only, Torn};
ghost use Rattle.mar_cases.specs.Calls.{GoesOn, LeavesOf, LeftSince, crashed, keeps_write, overwritten, padded, seen_after};
ghost use Rattle.mar_cases.specs.CallLemmas.{leaves_seen, leaves_now, only_leaves};

use crate::disk_call::DiskCall;
use mar_journal::Disk;
use mar_store::{Alarm, Miss};
use std::alloc::{AllocError, Global};

/// Bytes in memory, with a record of all calls that wrote or synced. A crash by luck keeps of the writes since the last
/// sync, numbered from 0, write k whole where bit k mod 64 is set. Reads, writes and syncs are counted: one that is armed
/// fails, and each that comes after so many calls; a failed call does nothing.
#[derive(Drop)]
pub struct MemDisk {
    alloc: Global,
    first: Vec<u8>,
    calls: Vec<DiskCall>,
    bytes: Vec<u8>,
    alarm: Alarm,
    calls_left: u64,
    faults: u64,
    limit: usize,
    ghost read_is: { bytes.items ≡ seen_after first.items calls.items },
    ghost fits: { length bytes.items < 2 ^ 63 },
}

// Counts a call. Says whether it fails, and then counts a fault.
fn fails(alarm: &mut Alarm, calls_left: &mut u64, faults: &mut u64) -> bool
    ensures later { faults.old ≤ faults.new }
    ensures rose { result ≡ true → Rose faults.old faults.new }
    ensures calm { result ≡ false → faults.new ≡ faults.old }
{
    let armed = alarm.rings();
    let over = *calls_left == 0;
    *calls_left = calls_left.saturating_sub(1);
    let failed = armed || over;
    if failed {
        *faults = faults.saturating_add(1);
    }
    failed
}

// The bytes after a write.
fn overwrite(alloc: Global, old: &[u8], at: usize, bytes: &[u8]) -> Result<Vec<u8>, AllocError>
    ensures { IfOk result (λ v. v.items ≡ overwritten old.now at bytes.now) }
{
    let mut next = old.to_vec(alloc)?;
    next.resize(at, 0)?;
    next.extend_from_slice(bytes)?;
    if at < old.len() && bytes.len() < old.len() - at {
        next.extend_from_slice(&old[at + bytes.len()..])?;
    }
    Ok(next)
}

// The bytes, with zeros up to a length.
fn pad(alloc: Global, old: &[u8], size: usize) -> Result<Vec<u8>, AllocError>
    ensures { IfOk result (λ v. v.items ≡ padded old.now size) }
{
    let mut next = old.to_vec(alloc)?;
    if next.len() < size {
        next.resize(size, 0)?;
    }
    Ok(next)
}

// Writes bytes and notes the call: both, or neither where memory runs out.
fn write(
    alloc: Global,
    seen: &mut Vec<u8>,
    calls: &mut Vec<DiskCall>,
    at: usize,
    bytes: &[u8],
) -> Result<(), AllocError>
    ensures done { OnOk result (seen.new.items ≡ overwritten seen.old.items at bytes.now) }
    ensures read { (first : List ℕ) → seen.old.items ≡ seen_after first calls.old.items → seen.new.items ≡ seen_after first calls.new.items }
    ensures size { length seen.new.items ≤ max (length seen.old.items) (at + length bytes.now) }
    ensures crash { (first : List ℕ) → Follows (Torn at (length bytes.now)) (LeavesOf first calls.old.items) (LeavesOf first calls.new.items) }
    ensures time { (first : List ℕ) → GoesOn first calls.old.items calls.new.items }
{
    let next = overwrite(alloc, seen, at, bytes)?;
    let kept = bytes.to_vec(alloc)?;
    calls.push(DiskCall::Write(at, kept))?;
    *seen = next;
    Ok(())
}

// Notes a sync.
fn sync(calls: &mut Vec<DiskCall>) -> Result<(), AllocError>
    ensures read { (first : List ℕ) → seen_after first calls.new.items ≡ seen_after first calls.old.items }
    ensures durable { OnOk result ((first : List ℕ) → Only (seen_after first calls.old.items) (LeavesOf first calls.new.items)) }
    ensures crash { (first : List ℕ) → Narrows (LeavesOf first calls.old.items) (LeavesOf first calls.new.items) }
    ensures time { (first : List ℕ) → GoesOn first calls.old.items calls.new.items }
{
    calls.push(DiskCall::Sync)?;
    Ok(())
}

// Has a crash by a luck, and notes it: or neither where memory runs out.
fn crash(
    alloc: Global,
    first: &[u8],
    seen: &mut Vec<u8>,
    calls: &mut Vec<DiskCall>,
    luck: u64,
) -> Result<(), AllocError>
    requires { seen.old.items ≡ seen_after first.now calls.old.items }
    ensures read { seen.new.items ≡ seen_after first.now calls.new.items }
    ensures size { length seen.new.items ≡ length seen.old.items }
    ensures crash { Narrows (LeavesOf first.now calls.old.items) (LeavesOf first.now calls.new.items) }
    ensures time { GoesOn first.now calls.old.items calls.new.items }
{
    let left = crash_of(alloc, first, calls, luck)?;
    let kept = Vec::from_slice(alloc, &left)?;
    calls.push(DiskCall::Crash(kept))?;
    *seen = left;
    Ok(())
}

// Whether a luck keeps the write of a number.
const fn keeps(luck: u64, number: u64) -> bool
    ensures { result ≡ keeps_write luck number }
{
    (luck >> (number % 64)) % 2 == 1
}

// How far a crash is played: what is read after some calls, what a crash leaves of it, and how many writes came since the
// last sync.
#[derive(Drop)]
struct Played {
    seen: Vec<u8>,
    left: Vec<u8>,
    number: u64,
}

// One call further.
fn play(alloc: Global, played: Played, call: &DiskCall, luck: u64) -> Result<Played, AllocError>
    requires { played.number < 2 ^ 64 - 1 }
    ensures is { IfOk result (λ p. (rest : List DiskCall) → crashed luck p.number p.seen.items p.left.items rest
        ≡ crashed luck played.number played.seen.items played.left.items (call.now ∷ rest)) }
    ensures number { IfOk result (λ p. p.number ≤ played.number + 1) }
{
    match call {
        DiskCall::Write(at, bytes) => {
            let seen = overwrite(alloc, &played.seen, *at, bytes)?;
            let left = if keeps(luck, played.number) {
                overwrite(alloc, &played.left, *at, bytes)?
            } else {
                pad(alloc, &played.left, seen.len())?
            };
            Ok(Played {
                seen,
                left,
                number: played.number + 1,
            })
        }
        DiskCall::Sync => Ok(Played {
            left: played.seen.clone()?,
            seen: played.seen,
            number: 0,
        }),
        DiskCall::Crash(bytes) => Ok(Played {
            seen: bytes.clone()?,
            left: bytes.clone()?,
            number: 0,
        }),
    }
}

// What a crash leaves by a luck.
fn crash_of(
    alloc: Global,
    first: &[u8],
    calls: &[DiskCall],
    luck: u64,
) -> Result<Vec<u8>, AllocError>
    ensures { IfOk result (λ v. v.items ≡ crashed luck 0 first.now first.now calls.now) }
{
    let mut played = Played {
        seen: first.to_vec(alloc)?,
        left: first.to_vec(alloc)?,
        number: 0,
    };
    for call in calls {
        played = play(alloc, played, call, luck)?;
    }
    Ok(played.left)
}

impl MemDisk {
    /// A disk with no bytes.
    pub fn new(alloc: Global) -> Self
        ensures reads { result.bytes.items ≡ [] }
        ensures nothing { result.calls.items ≡ [] }
        ensures faults { result.faults ≡ 0 }
    {
        MemDisk {
            alloc,
            first: Vec::new(alloc),
            calls: Vec::new(alloc),
            bytes: Vec::new(alloc),
            alarm: Alarm::new(alloc),
            calls_left: u64::MAX,
            faults: 0,
            limit: 1 << 62,
        }
    }

    /// A disk that has these bytes, all of them durable.
    pub fn with_bytes(alloc: Global, bytes: &[u8]) -> Result<Self, AllocError>
        ensures reads { IfOk result (λ d. d.bytes.items ≡ bytes.now) }
        ensures nothing { IfOk result (λ d. d.calls.items ≡ []) }
        ensures faults { IfOk result (λ d. d.faults ≡ 0) }
    {
        let first = bytes.to_vec(alloc)?;
        let read = bytes.to_vec(alloc)?;
        Ok(MemDisk {
            alloc,
            first,
            calls: Vec::new(alloc),
            bytes: read,
            alarm: Alarm::new(alloc),
            calls_left: u64::MAX,
            faults: 0,
            limit: 1 << 62,
        })
    }

    /// Arms the counted call that is so many calls away, 1 being the next.
    pub fn arm(&mut self, calls: u64) -> Result<(), AllocError>
        ensures armed { OnOk result (self.new.alarm.due.items ≡ self.old.alarm.due.items ++ calls ∷ []) }
        ensures same { self.new.bytes ≡ self.old.bytes }
        ensures calls { self.new.calls ≡ self.old.calls }
    {
        self.alarm.arm(calls)
    }

    /// Has each counted call fail that comes after so many more.
    pub fn bound(&mut self, calls: u64)
        ensures bound { self.new.calls_left ≡ calls }
        ensures same { self.new.bytes ≡ self.old.bytes }
        ensures calls { self.new.calls ≡ self.old.calls }
    {
        self.calls_left = calls;
    }

    /// What it reads.
    pub fn bytes(&self) -> &[u8]
        ensures { result.now ≡ self.now.bytes.items }
    {
        &self.bytes
    }

    /// The calls that wrote or synced, and the crashes.
    pub fn calls(&self) -> &[DiskCall]
        ensures { result.now ≡ self.now.calls.items }
    {
        &self.calls
    }
}

impl Disk for MemDisk {
    ghost seen = { λ d. d.bytes.items };

    ghost may_leave = { λ d. LeavesOf d.first.items d.calls.items };

    ghost moment = { λ d. length d.calls.items };

    ghost left_since = { λ d. LeftSince d.first.items d.calls.items };

    ghost faults = { λ d. d.faults };

    ghost is_image = { λ d. leaves_seen d.first.items d.calls.items d.bytes.items d.read_is };

    ghost short = { λ d. d.fits };

    ghost counts_now = { λ d t c. leaves_now d.first.items d.calls.items t c };

    ghost only_now = { λ d c. only_leaves d.first.items d.calls.items c };

    fn len(&mut self) -> Result<usize, Miss> {
        Ok(self.bytes.len())
    }

    fn read(&mut self, alloc: Global, at: usize, size: usize) -> Result<Vec<u8>, Miss> {
        if fails(&mut self.alarm, &mut self.calls_left, &mut self.faults) {
            return Err(Miss::Fault);
        }
        let from = at.min(self.bytes.len());
        let count = size.min(self.bytes.len() - from);
        match self.bytes[from..from + count].to_vec(alloc) {
            Ok(bytes) => Ok(bytes),
            Err(_) => Err(Miss::Memory),
        }
    }

    fn write_at(&mut self, at: usize, bytes: &[u8]) -> Result<(), Miss> {
        if fails(&mut self.alarm, &mut self.calls_left, &mut self.faults) {
            return Err(Miss::Fault);
        }
        if bytes.len() > self.limit || at > self.limit - bytes.len() {
            self.faults = self.faults.saturating_add(1);
            return Err(Miss::Fault);
        }
        match write(self.alloc, &mut self.bytes, &mut self.calls, at, bytes) {
            Ok(()) => Ok(()),
            Err(_) => Err(Miss::Memory),
        }
    }

    fn sync(&mut self) -> Result<(), Miss> {
        if fails(&mut self.alarm, &mut self.calls_left, &mut self.faults) {
            return Err(Miss::Fault);
        }
        match sync(&mut self.calls) {
            Ok(()) => Ok(()),
            Err(_) => Err(Miss::Memory),
        }
    }

    fn crash(&mut self, luck: u64) -> Result<(), AllocError> {
        crash(
            self.alloc,
            &self.first,
            &mut self.bytes,
            &mut self.calls,
            luck,
        )
    }
}
