//! A store on a disk in memory.
ghost use Rattle.std.specs.Prelude.{◌≡◌, [], List, ℕ, IfOk};

use crate::mem_disk::MemDisk;
use mar_journal::Unopened;
use mar_store::Lost;
use std::alloc::Global;

/// A store on a disk in memory. Of what it promises only what its own calls require is said here.
pub trait Store: Drop {
    /// What is left of one.
    type Wreck: Drop;

    /// The keys that were changed since the last sync, where such calls are bounded.
    ghost changed: { Self → List ℕ };

    /// Opens what a disk has. It gives the disk back with the reason where it can't.
    fn open_on(alloc: Global, disk: MemDisk) -> Result<Self, (Unopened, MemDisk)>
    where
        Self: Sized,
        ensures { IfOk result (λ s. changed s ≡ []) };

    /// Opens what a crash leaves by a luck.
    fn open_left(wreck: Self::Wreck, luck: u64) -> Result<Self, Lost<Self::Wreck>>
    where
        Self: Sized;

    /// What a crash now leaves.
    fn end(self) -> Self::Wreck
    where
        Self: Sized;

    /// Its disk.
    fn disk(self) -> MemDisk
    where
        Self: Sized;
}
