//! What the bytes of a file open as, on a disk in memory, and in how many reads.
use crate::archive::Marks;
use crate::mem_disk::MemDisk;
use crate::records::written;
use crate::store::Store;
use crate::text::number_text;
use mar_gen::number;
use mar_journal::Unopened;
use std::alloc::{AllocError, Global};

fn opened<S: Store>(alloc: Global, bytes: &[u8]) -> Result<String, AllocError> {
    match S::open_on(alloc, MemDisk::with_bytes(alloc, bytes)?) {
        Ok(_) => "opened".to_string(alloc),
        Err((reason, _)) => format!(in alloc; "{reason:?}"),
    }
}

/// What these bytes in hexadecimal open as; `-` for none.
pub(crate) fn told<S: Store>(alloc: Global, text: &str) -> Result<String, AllocError> {
    if text == "-" {
        return opened::<S>(alloc, &[]);
    }
    match hex::decode(alloc, text) {
        Ok(bytes) => opened::<S>(alloc, bytes.as_slice()),
        Err(_) => "no bytes".to_string(alloc),
    }
}

// The last index of what these bytes open as, where the disk answers so many reads and no more.
fn last_within<S: Marks>(alloc: Global, bytes: &[u8], reads: u64) -> Result<String, AllocError> {
    let mut disk = MemDisk::with_bytes(alloc, bytes)?;
    // An opening syncs once before it reads.
    disk.bound(reads.saturating_add(1));
    match S::open_on(alloc, disk) {
        Ok(archive) => {
            let mut archive = archive;
            number_text(alloc, archive.last_from_first())
        }
        Err(_) => "-".to_string(alloc),
    }
}

/// The last index that is found of so many records with one read for each 64 KiB, and with one less.
pub(crate) fn told_reads<S: Marks>(alloc: Global, text: &str) -> Result<String, AllocError> {
    let Some(count) = number(text.as_bytes()) else {
        return "no number".to_string(alloc);
    };
    let Some(archive) = written::<S>(alloc, count, 0) else {
        return "not written".to_string(alloc);
    };
    let disk = archive.disk();
    let bytes = disk.bytes();
    let reads = (bytes.len() as u64).div_ceil(65_536);
    let enough = last_within::<S>(alloc, bytes, reads)?;
    let less = last_within::<S>(alloc, bytes, reads.saturating_sub(1))?;
    format!(in alloc; "{enough} in one read for each 64 KiB, {less} in one less")
}
