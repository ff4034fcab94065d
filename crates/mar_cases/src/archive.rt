//! An archive on a disk in memory.
ghost use Rattle.std.specs.Prelude.{◌≤◌, ℕ, [], IfOk};

use crate::marks::Mark;
use crate::mem_disk::MemDisk;
use crate::store::Store;
use crate::text::both_text;
use mar_journal::Unopened;
use mar_journal_stores::{JournalArchive, JournalArchiveWreck};
use mar_store::{Archive, Identifier, Lost, SyncTicket};
use std::alloc::{AllocError, Global};

/// An archive of marks that is a journal.
pub type OnDisk = JournalArchive<Mark, MemDisk>;

type Wreck = JournalArchiveWreck<Mark, MemDisk>;

/// An archive of marks.
pub trait Marks: Store {
    /// The greatest number that a ticket has.
    ghost accepted: { Self → ℕ };

    /// Puts a mark at an index.
    fn add(self, index: u64, mark: Mark) -> Result<Self, Lost<Self::Wreck>>
    where
        Self: Sized,
        ensures { IfOk result (λ s. accepted self ≤ accepted s) };

    /// Removes what is below an index.
    fn cut(self, min: u64) -> Result<Self, Lost<Self::Wreck>>
    where
        Self: Sized;

    /// Makes all durable.
    fn save(self) -> Result<Self, Lost<Self::Wreck>>
    where
        Self: Sized;

    /// Starts a sync.
    fn begin_save(self) -> Result<(Self, SyncTicket), Lost<Self::Wreck>>
    where
        Self: Sized,
        ensures { IfOk result (λ s. s.1.number ≤ accepted s.0) };

    /// Finishes the sync of a ticket.
    fn end_save(self, ticket: SyncTicket) -> Result<Self, Lost<Self::Wreck>>
    where
        Self: Sized,
        requires { ticket.number ≤ accepted self };

    /// Whether it holds the mark of a byte at the index of that number; none where it holds another there.
    fn holds(&mut self, byte: u8) -> Option<bool>;

    /// The greatest index that is held, where it holds a mark at 0.
    fn last_from_first(&mut self) -> Option<u64>;

    /// The indexes that are held, and those that are sure.
    fn ranges_text(&self, alloc: Global) -> Result<String, AllocError>;
}

impl Store for OnDisk {
    type Wreck = Wreck;

    ghost changed = { λ s. [] };

    fn open_on(alloc: Global, disk: MemDisk) -> Result<Self, (Unopened, MemDisk)> {
        JournalArchive::open(alloc, disk)
    }

    fn open_left(wreck: Wreck, luck: u64) -> Result<Self, Lost<Wreck>> {
        OnDisk::reopen(wreck, luck)
    }

    fn end(self) -> Wreck {
        self.wreck()
    }

    fn disk(self) -> MemDisk {
        self.into_disk()
    }
}

impl Marks for OnDisk {
    ghost accepted = { λ s. s.entries.pile.accepted };

    fn add(self, index: u64, mark: Mark) -> Result<Self, Lost<Wreck>> {
        self.put(index, mark)
    }

    fn cut(self, min: u64) -> Result<Self, Lost<Wreck>> {
        self.prune(min)
    }

    fn save(self) -> Result<Self, Lost<Wreck>> {
        self.sync()
    }

    fn begin_save(self) -> Result<(Self, SyncTicket), Lost<Wreck>> {
        self.start_sync()
    }

    fn end_save(self, ticket: SyncTicket) -> Result<Self, Lost<Wreck>> {
        self.finish(ticket)
    }

    fn holds(&mut self, byte: u8) -> Option<bool> {
        match self.get(Identifier::Index(byte as u64)) {
            Ok(Some(mark)) if mark.is_of(byte) => Some(true),
            Ok(None) => Some(false),
            _ => None,
        }
    }

    fn last_from_first(&mut self) -> Option<u64> {
        if self.has(Identifier::Index(0)) == Ok(true) {
            self.last_index()
        } else {
            None
        }
    }

    fn ranges_text(&self, alloc: Global) -> Result<String, AllocError> {
        both_text(alloc, self.held_ranges(), ", sure ", self.sure_ranges())
    }
}
