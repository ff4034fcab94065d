//! A ledger in a metadata store.
ghost use Rattle.std.specs.Prelude.{◌≡◌, ◌≤◌, ◌+◌, ◌∷◌, [], IfErr, IfOk, MatchResult, OnErr, OnOk, sum};
ghost use Rattle.mar_store.specs.Watch.{armed};
ghost use Rattle.mar_ledger.specs.Books.{IsTransfer, all_money};
ghost use Rattle.mar_ledger.specs.Ledger.{AreLedgers, IsLedger, delivered, entered, ledger_at, next_of};
ghost use Rattle.mar_ledger.specs.Ends.{EndsDelivery, EndsOpening, Enters, LosesLedger, OpensLedger, WritesLedger};

use crate::applied::Applied;
use crate::books::Books;
use crate::ends::{LedgerEnd, OpenEnd};
use crate::entry::Entry;
use crate::place::{Place, place_of};
use crate::reading::read;
use crate::transfer::Transfer;
use crate::writing::write;
use mar_store::{Lost, Meta};
use mar_types::Height;
use std::alloc::{AllocError, Global};
use std::marker::Model;

/// Sixteen accounts behind the blocks up to a height, each entered once, in a metadata store: all of it is durable.
/// Its keys 0 to 15 have the balances, 16 the height and 17 how many transfers were rejected; before any block it has
/// none. A contract sees a record of the ledger, and of what its store tells of its failures.
#[derive(Drop)]
pub struct Ledger<M: Meta> {
    meta: M,
    height: Option<Height>,
    books: Books,
}

impl<M: Meta> Model for Ledger<M> {
    ghost use Rattle.mar_ledger.specs.Ledger.{IsKept, KeptLedger};

    ghost Value = { KeptLedger };

    ghost view = { λ l. record {
      ledger = record { height = l.height; books = l.books };
      watch = M.watch l.meta;
    } };

    ghost invariant = { λ l. IsKept (M.current l.meta) (M.left l.meta) (M.changed l.meta)
        (record { height = l.height; books = l.books }) };
}

impl<M: Meta> Ledger<M> {
    /// Opens what a crash left of a ledger's store; luck picks among what may be left. A store whose keys are neither
    /// none nor just 0 to 17, whose balances don't hold 16,000,000 together, or whose rejected count is more than one
    /// above the height, is no ledger's: it is given back as it was found.
    pub fn open(_alloc: Global, wreck: M::Wreck, luck: u64) -> Result<Self, OpenEnd<M::Wreck>>
        ensures opened { IfOk result (OpensLedger (M.Wreck.left wreck) (M.Wreck.watch wreck) luck) }
        ensures ended { IfErr result (EndsOpening M.Wreck.left M.Wreck.watch wreck luck) }
    {
        let meta = match M::reopen(wreck, luck) {
            Ok(meta) => meta,
            Err(lost) => return Err(OpenEnd::Store(lost)),
        };
        match read(&meta) {
            Some((height, books)) => Ok(Ledger {
                meta,
                height,
                books,
            }),
            None => Err(OpenEnd::Foreign(meta.wreck())),
        }
    }

    /// Enters a block, with one sync of the store. Of one at or below the ledger's height nothing is done. One above
    /// the next height isn't entered: the ledger comes back as it was, with the height that it expected.
    pub fn deliver<B: Entry>(
        self,
        _alloc: Global,
        block: &B,
    ) -> Result<(Self, Applied), LedgerEnd<Self, M::Wreck>>
        ensures entered { IfOk result (λ p. delivered self.ledger (B.height_of block.now) (B.transfer block.now)
            ≡ entered p.0.ledger p.1) }
        ensures written { IfOk result (λ p. Enters self p.1 p.0) }
        ensures ended { IfErr result (EndsDelivery M.Wreck.left M.Wreck.watch self
            (delivered self.ledger (B.height_of block.now) (B.transfer block.now))) }
    {
        let height = block.height();
        match place_of(self.height, height) {
            Place::Before => Ok((self, Applied::Seen)),
            Place::Next => self.enter(height, block.entry()),
            Place::Above(expected) => Err(LedgerEnd::Gap(self, expected, height)),
        }
    }

    // Enters the next block.
    fn enter(
        self,
        height: Height,
        transfer: Transfer,
    ) -> Result<(Self, Applied), LedgerEnd<Self, M::Wreck>>
        requires next { height ≡ next_of self.ledger.height }
        requires is { IsTransfer transfer }
        ensures entered { IfOk result (λ p. delivered self.ledger height transfer ≡ entered p.0.ledger p.1) }
        ensures written { IfOk result (λ p. Enters self p.1 p.0) }
        ensures ended { IfErr result (EndsDelivery M.Wreck.left M.Wreck.watch self
            (delivered self.ledger height transfer)) }
    {
        let mut books = self.books.copy();
        let how = if books.post(transfer) {
            Applied::Applied
        } else {
            Applied::Rejected
        };
        match self.replace(height, books) {
            Ok(ledger) => Ok((ledger, how)),
            Err(lost) => Err(LedgerEnd::Store(lost)),
        }
    }

    /// Puts the books behind a block in place of its own, with one sync of the store.
    pub fn replace(self, height: Height, books: Books) -> Result<Self, Lost<M::Wreck>>
        requires { books.rejected ≤ height + 1 }
        ensures { MatchResult result
            (WritesLedger self (ledger_at height books))
            (LosesLedger M.Wreck.left M.Wreck.watch self (ledger_at height books)) }
    {
        match write(self.meta, height, &books) {
            Ok(meta) => Ok(Ledger {
                meta,
                height: Some(height),
                books,
            }),
            Err(lost) => Err(lost),
        }
    }

    /// The height of the last block that was entered, if any.
    pub fn height(&self) -> Option<Height>
        ensures { result ≡ self.now.ledger.height }
    {
        self.height
    }

    /// The balances, in the order of the accounts. They hold 16,000,000 together.
    pub fn balances(&self) -> [u64; 16]
        ensures value { result ≡ self.now.ledger.books.balances }
        ensures whole { sum result ≡ all_money }
    {
        self.books.balances()
    }

    /// How many transfers were rejected.
    pub fn rejected(&self) -> u64
        ensures { result ≡ self.now.ledger.books.rejected }
    {
        self.books.rejected()
    }

    /// The books.
    pub fn books(&self) -> &Books
        ensures books { result.now ≡ self.now.ledger.books }
        ensures is { IsLedger self.now.ledger }
    {
        &self.books
    }

    /// What a crash now leaves: the ledger.
    pub fn wreck(self) -> M::Wreck
        ensures left { AreLedgers (M.Wreck.left result) (self.ledger ∷ []) }
        ensures watch { M.Wreck.watch result ≡ self.watch }
    {
        let Ledger { meta, .. } = self;
        meta.wreck()
    }

    /// Makes the counted call of the store fail that is so many calls away, 1 being the next. Counted are a sync and a
    /// reopening. Where nothing can be armed it does nothing.
    pub fn arm(&mut self, calls: u64) -> Result<(), AllocError>
        ensures armed { OnOk result (self.new ≡ record self.old { watch = armed calls self.old.watch }) }
        ensures unarmed { OnErr result (self.new ≡ self.old) }
    {
        self.meta.arm(calls)
    }
}
