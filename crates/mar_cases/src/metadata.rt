//! A store of metadata on a disk in memory.
ghost use Rattle.std.specs.Prelude.{◌≡◌, ◌<◌, [], length, IfOk};
ghost use Rattle.mar_store.specs.Values.{others_of, with_key};

use crate::mem_disk::MemDisk;
use crate::store::Store;
use mar_journal::Unopened;
use mar_journal_stores::{JournalMeta, JournalMetaWreck};
use mar_store::{Lost, Meta};
use std::alloc::Global;

/// A store of metadata that is a journal.
pub type MetaOnDisk = JournalMeta<MemDisk>;

type Wreck = JournalMetaWreck<MemDisk>;

/// A store of metadata.
pub trait Numbers: Store {
    /// Gives a key a value.
    fn set(self, key: u64, value: u64) -> Result<Self, Lost<Self::Wreck>>
    where
        Self: Sized,
        requires { length (others_of key (Self.changed self)) < 2048 }
        ensures { IfOk result (λ s. Self.changed s ≡ with_key key (Self.changed self)) };

    /// Takes a key's value away.
    fn unset(self, key: u64) -> Result<Self, Lost<Self::Wreck>>
    where
        Self: Sized,
        requires { length (others_of key (Self.changed self)) < 2048 }
        ensures { IfOk result (λ s. Self.changed s ≡ with_key key (Self.changed self)) };

    /// Makes all durable.
    fn save(self) -> Result<Self, Lost<Self::Wreck>>
    where
        Self: Sized,
        ensures { IfOk result (λ s. Self.changed s ≡ []) };
}

/// Two keys in one batch, and both changed in another. No clause says what is left: the cases that call it look at that.
pub fn two_batches<S: Numbers>(store: S) -> Result<S, Lost<S::Wreck>>
    requires { S.changed store ≡ [] }
{
    let store = store.set(1, 10)?;
    let store = store.set(2, 20)?;
    let store = store.save()?;
    let store = store.set(1, 11)?;
    let store = store.unset(2)?;
    store.save()
}

impl Store for MetaOnDisk {
    type Wreck = Wreck;

    ghost changed = { λ s. s.changed };

    fn open_on(alloc: Global, disk: MemDisk) -> Result<Self, (Unopened, MemDisk)> {
        JournalMeta::open(alloc, disk)
    }

    fn open_left(wreck: Wreck, luck: u64) -> Result<Self, Lost<Wreck>> {
        MetaOnDisk::reopen(wreck, luck)
    }

    fn end(self) -> Wreck {
        self.wreck()
    }

    fn disk(self) -> MemDisk {
        self.into_disk()
    }
}

impl Numbers for MetaOnDisk {
    fn set(self, key: u64, value: u64) -> Result<Self, Lost<Wreck>> {
        self.put(key, value)
    }

    fn unset(self, key: u64) -> Result<Self, Lost<Wreck>> {
        self.remove(key)
    }

    fn save(self) -> Result<Self, Lost<Wreck>> {
        self.sync()
    }
}
