//! Plays a script on an archive, over a disk in memory.
use crate::archive::Marks;
use crate::marks::Mark;
use crate::mem_disk::MemDisk;
use crate::script::{Lists, Step};
use mar_journal::Disk;
use mar_store::Lost;
use std::alloc::{AllocError, Global};

// Puts a value, starts a sync, puts another, and finishes the sync.
fn ticket<S: Marks>(archive: S, first: u8, later: u8) -> Result<S, Lost<S::Wreck>> {
    let archive = archive.add(first as u64, Mark::of(first))?;
    let (archive, ticket) = archive.begin_save()?;
    let archive = archive.add(later as u64, Mark::of(later))?;
    archive.end_save(ticket)
}

fn take<S: Marks>(archive: S, step: Step) -> Result<S, Lost<S::Wreck>> {
    match step {
        Step::Put(byte) => archive.add(byte as u64, Mark::of(byte)),
        Step::Prune(min) => archive.cut(min as u64),
        Step::Ticket(first, later) => ticket(archive, first, later),
        Step::Sync => archive.save(),
    }
}

/// Plays the steps up to the first that fails. Where none does the store ends as a crash would end it.
pub(crate) fn play<S: Marks>(
    steps: &[Step],
    archive: S,
    lists: &mut Lists,
) -> Result<S::Wreck, AllocError> {
    let mut archive = archive;
    for step in steps {
        archive = match take(archive, *step) {
            Ok(archive) => archive,
            Err(Lost::Fault(wreck)) => return Ok(wreck),
            Err(Lost::Memory(_)) => return Err(AllocError),
        };
        lists.note(*step)?;
    }
    Ok(archive.end())
}

/// An empty disk whose call of this number fails.
pub(crate) fn disk_of(alloc: Global, call: u64) -> Result<MemDisk, AllocError> {
    let mut disk = MemDisk::new(alloc);
    disk.arm(call)?;
    Ok(disk)
}

/// What a crash leaves of a disk.
pub(crate) fn crashed(disk: MemDisk, luck: u64) -> Result<MemDisk, AllocError> {
    let mut disk = disk;
    disk.crash(luck)?;
    Ok(disk)
}
