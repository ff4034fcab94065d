//! So many records put in order, a sync behind each so many of them, and then crashes and openings.
use crate::archive::Marks;
use crate::marks::Mark;
use crate::mem_disk::MemDisk;
use crate::text::three_numbers;
use mar_store::Lost;
use std::alloc::{AllocError, Global};

fn filled<S: Marks>(archive: S, records: u64, each: u64) -> Result<S, Lost<S::Wreck>> {
    let mut archive = archive;
    for number in 0..records {
        archive = archive.add(number, Mark::numbered(number))?;
        if each > 0 && number % each == each - 1 {
            archive = archive.save()?;
        }
    }
    archive.save()
}

/// A new archive in which so many marks were put, a sync behind each so many of them and one behind all.
pub(crate) fn written<S: Marks>(alloc: Global, records: u64, each: u64) -> Option<S> {
    match S::open_on(alloc, MemDisk::new(alloc)) {
        Ok(archive) => filled(archive, records, each).ok(),
        Err(_) => None,
    }
}

fn reopened<S: Marks>(archive: S, openings: u64) -> Result<S, Lost<S::Wreck>> {
    let mut archive = archive;
    for _opening in 0..openings {
        archive = S::open_left(archive.end(), u64::MAX)?;
    }
    Ok(archive)
}

/// What is held and sure behind all that, how many bytes the disk has, and how many calls wrote, synced and crashed.
pub(crate) fn told<S: Marks>(alloc: Global, text: &str) -> Result<String, AllocError> {
    let Some((records, each, openings)) = three_numbers(text) else {
        return "no amount".to_string(alloc);
    };
    let Some(archive) = written::<S>(alloc, records, each) else {
        return "not written".to_string(alloc);
    };
    let archive = match reopened(archive, openings) {
        Ok(archive) => archive,
        Err(_) => return "not reopened".to_string(alloc),
    };
    let ranges = archive.ranges_text(alloc)?;
    let disk = archive.disk();
    let bytes = disk.bytes().len();
    let calls = disk.calls().len();
    format!(in alloc; "held {ranges}, {bytes} bytes, {calls} calls")
}
