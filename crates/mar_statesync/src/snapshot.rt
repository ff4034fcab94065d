//! A ledger at a height, with the finalization of the next block.
ghost use Rattle.std.specs.Prelude.{◌≡◌, ◌+◌, ◌≤◌};
ghost use Rattle.mar_statesync.specs.Plain.{plain_finalization};

use mar_cert::MockFinalization;
use mar_ledger::Books;
use mar_types::Height;
use std::marker::Model;

/// The books of a ledger behind the block at a height, and the finalization of the block one above. No more transfers
/// were rejected than blocks were entered up to there. A contract sees a record of the three.
#[derive(Drop)]
pub struct Snapshot {
    height: Height,
    books: Books,
    finalization: MockFinalization,
}

impl Model for Snapshot {
    ghost use Rattle.std.specs.Prelude.{◌+◌, ◌≤◌};
    ghost use Rattle.mar_statesync.specs.Plain.{plain_finalization};
    ghost use Rattle.mar_statesync.specs.Snapshots.{Snapshot};

    ghost Value = { Snapshot };

    ghost view = { λ s. record {
      height = s.height;
      books = s.books;
      finalization = plain_finalization s.finalization;
    } };

    ghost invariant = { λ s. s.books.rejected ≤ s.height + 1 };
}

impl Snapshot {
    // Of these.
    pub(crate) fn of(height: Height, books: Books, finalization: MockFinalization) -> Self
        requires { books.rejected ≤ height + 1 }
        ensures { result ≡ record { height = height; books = books; finalization = plain_finalization finalization } }
    {
        Snapshot {
            height,
            books,
            finalization,
        }
    }

    /// The height of the last block that the ledger had entered.
    pub fn height(&self) -> Height
        ensures { result ≡ self.now.height }
    {
        self.height
    }

    /// The books behind that block.
    pub fn books(&self) -> &Books
        ensures value { result.now ≡ self.now.books }
        ensures entered { self.now.books.rejected ≤ self.now.height + 1 }
    {
        &self.books
    }

    /// The finalization of the block one above.
    pub fn finalization(&self) -> &MockFinalization
        ensures { plain_finalization result.now ≡ self.now.finalization }
    {
        &self.finalization
    }
}
