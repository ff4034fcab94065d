//! Each of the first calls of a disk fails by each of eight lucks: how often what was durable is found behind it, and how
//! often what the sync that failed was to make durable.
use crate::archive::Marks;
use crate::play::{crashed, disk_of, play};
use crate::script::{Lists, Step};
use std::alloc::{AllocError, Global};

// Half of them keep the first write since the last sync: the gate, where that is all there is.
const LUCKS: [u64; 8] = [0, 1, 2, 3, 6, 7, 0xffff_ffff_ffff_fffe, u64::MAX];

// What a crash left.
#[derive(Clone, Copy)]
enum Found {
    // What was durable, and no more.
    Before,
    // What the sync that failed was to make durable.
    After,
    // Another list, or none.
    Neither,
}

// Whether it holds just these.
fn has_just<S: Marks>(archive: &mut S, list: &[u8]) -> bool {
    for byte in 0..=u8::MAX {
        if archive.holds(byte) != Some(list.contains(&byte)) {
            return false;
        }
    }
    true
}

// What an archive holds, which is to be what was durable or what was held.
fn found_of<S: Marks>(archive: S, lists: &Lists) -> Found {
    let mut archive = archive;
    if has_just(&mut archive, &lists.durable) {
        return Found::Before;
    }
    if has_just(&mut archive, &lists.held) {
        return Found::After;
    }
    Found::Neither
}

// What is found where this call of the disk fails: one within the steps, or one of the first opening.
fn left_by<S: Marks>(
    alloc: Global,
    steps: &[Step],
    call: u64,
    luck: u64,
) -> Result<Found, AllocError> {
    let mut lists = Lists::new(alloc);
    let opened = match S::open_on(alloc, disk_of(alloc, call)?) {
        Ok(archive) => S::open_left(play(steps, archive, &mut lists)?, luck).ok(),
        Err((_, disk)) => S::open_on(alloc, crashed(disk, luck)?).ok(),
    };
    match opened {
        Some(archive) => Ok(found_of(archive, &lists)),
        None => Ok(Found::Neither),
    }
}

/// How many lucks leave what was durable where this call fails, and how many what was to be.
pub(crate) fn counts<S: Marks>(
    alloc: Global,
    steps: &[Step],
    call: u64,
) -> Result<(u64, u64), AllocError> {
    let mut before: u64 = 0;
    let mut after: u64 = 0;
    for luck in LUCKS {
        match left_by::<S>(alloc, steps, call, luck)? {
            Found::Before => before = before.saturating_add(1),
            Found::After => after = after.saturating_add(1),
            Found::Neither => {}
        }
    }
    Ok((before, after))
}
