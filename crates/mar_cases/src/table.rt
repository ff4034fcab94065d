//! What is found behind each call of a disk that fails, as one line: where it failed, what the wreck says is left and where
//! it saw damage, what is found, and the bytes that the disk then has.
ghost use Rattle.std.specs.Prelude.{◌≡◌, []};

use crate::mem_disk::MemDisk;
use crate::play::{crashed, disk_of};
use crate::script::Step;
use crate::store::Store;
use crate::text::bytes_text;
use mar_journal::Unopened;
use mar_store::Lost;
use std::alloc::{AllocError, Global};

/// A store that plays a script, and tells what is found and what is left.
pub trait Shown: Store {
    /// Plays the steps up to the first that fails, and then ends. It says how many went well, where it tells that.
    fn played(self, alloc: Global, steps: &[Step]) -> Result<(String, Self::Wreck), AllocError>
    where
        Self: Sized,
        requires { Self.changed self ≡ [] };

    /// What it holds.
    fn found_text(&mut self, alloc: Global) -> Result<String, AllocError>;

    /// What a crash may leave, and where the file was seen to be damaged.
    fn left_text(alloc: Global, wreck: &Self::Wreck) -> Result<String, AllocError>;
}

// What is left, and behind it what a store just opened holds and the bytes of its disk.
fn found_text<S: Shown>(alloc: Global, left: &str, store: S) -> Result<String, AllocError> {
    let mut store = store;
    let found = store.found_text(alloc)?;
    let disk = store.disk();
    let bytes = bytes_text(alloc, disk.bytes())?;
    format!(in alloc; "{left}; found {found};{bytes}")
}

// Opens what a crash left, behind what was told so far; a second time where the call that fails is one of the opening.
fn reopened_text<S: Shown>(
    alloc: Global,
    told: &str,
    wreck: S::Wreck,
    luck: u64,
) -> Result<String, AllocError> {
    let left = S::left_text(alloc, &wreck)?;
    let left = format!(in alloc; "{told}{left}")?;
    match S::open_left(wreck, luck) {
        Ok(store) => found_text(alloc, left.as_str(), store),
        Err(Lost::Fault(wreck)) => {
            let again = S::left_text(alloc, &wreck)?;
            let left = format!(in alloc; "{left}; not reopened, {again}")?;
            match S::open_left(wreck, luck) {
                Ok(store) => found_text(alloc, left.as_str(), store),
                Err(_) => "not reopened twice".to_string(alloc),
            }
        }
        Err(Lost::Memory(_)) => Err(AllocError),
    }
}

// Opens what a crash left of a disk that wasn't opened.
fn opened_text<S: Shown>(
    alloc: Global,
    reason: Unopened,
    disk: MemDisk,
    luck: u64,
) -> Result<String, AllocError> {
    let disk = crashed(disk, luck)?;
    let bytes = bytes_text(alloc, disk.bytes())?;
    let left = format!(in alloc; "not opened, {reason:?}; left{bytes}")?;
    match S::open_on(alloc, disk) {
        Ok(store) => found_text(alloc, left.as_str(), store),
        Err(_) => "not opened twice".to_string(alloc),
    }
}

/// What is found where this call of the disk fails.
pub(crate) fn row<S: Shown>(
    alloc: Global,
    steps: &[Step],
    call: u64,
    luck: u64,
) -> Result<String, AllocError> {
    match S::open_on(alloc, disk_of(alloc, call)?) {
        Ok(store) => {
            let (told, wreck) = store.played(alloc, steps)?;
            reopened_text::<S>(alloc, told.as_str(), wreck, luck)
        }
        Err((reason, disk)) => opened_text::<S>(alloc, reason, disk, luck),
    }
}
