//! Books past any ledger, and which of the answers are equal.
use crate::words::numbers;
use mar_block::EmptyBlock;
use mar_follower::{Passed, Why};
use mar_ledger::{ACCOUNTS, ALL_MONEY, Applied, Books, Entry};
use mar_statesync::{DecodeError, Elsewhere};
use mar_types::{Digest, Epoch, Error, Height, Round, Sha256, Sha256Digest, View};
use std::alloc::{AllocError, Global};
use std::fmt::Debug;

// A block of that timestamp.
fn block_of(timestamp: u64) -> EmptyBlock<Sha256> {
    EmptyBlock::new(Sha256Digest::empty(), Height::zero(), timestamp)
}

// Enters the transfer of a timestamp, and says what it moves and whether it did.
fn post(alloc: Global, books: &mut Books, timestamp: u64) -> Result<String, AllocError> {
    let transfer = block_of(timestamp).entry();
    let moved = books.post(transfer);
    format!(in alloc; "{transfer:?} {moved}, ")
}

// Books of these balances, and of those where the first account has one more.
fn made_again(books: &Books) -> (bool, bool) {
    let mut balances = books.balances();
    let is_same = Books::of(balances, books.rejected()).is_some();
    balances[0] = balances[0].wrapping_add(1);
    (is_same, Books::of(balances, books.rejected()).is_some())
}

/// The books behind the transfers of these timestamps.
pub(crate) fn told_books(alloc: Global, text: &str) -> Result<String, AllocError> {
    let mut books = Books::new();
    let mut all = String::new(alloc);
    for timestamp in numbers(alloc, text)? {
        let part = post(alloc, &mut books, timestamp)?;
        all.push_str(part.as_str())?;
    }
    let (balances, rejected) = (books.balances(), books.rejected());
    let (is_made, is_off) = made_again(&books);
    format!(in alloc;
        "{all}{balances:?} r={rejected}, made again {is_made}, with one more {is_off}, {ACCOUNTS} hold {ALL_MONEY}"
    )
}

// A value, and whether it is equal to itself and to another one.
fn pair<T: Debug + PartialEq>(alloc: Global, value: &T, other: &T) -> Result<String, AllocError> {
    let (is_same, is_other) = (*value == *value, *value == *other);
    format!(in alloc; "\n  {value:?} {is_same} {other:?} {is_other}")
}

// What passed in a view of epoch 0.
fn passed_in(view: u64) -> Passed {
    Passed {
        top: Height::new(3),
        lowest: Height::new(1),
        round: Round::new(Epoch::new(0), View::new(view)),
    }
}

/// The answers that are compared, each with one that differs in its last part.
pub(crate) fn told(alloc: Global) -> Result<String, AllocError> {
    let (first, second) = (block_of(1313).entry(), block_of(1057).entry());
    let transfers = pair(alloc, &first, &second)?;
    let applied = pair(alloc, &Applied::Rejected, &Applied::Seen)?;
    let early = DecodeError::Part(Error::ExtraData);
    let late = DecodeError::Part(Error::EndOfBuffer);
    let errors = pair(alloc, &early, &late)?;
    let here = Elsewhere(Some(Height::new(1)));
    let nowhere = Elsewhere(None);
    let places = pair(alloc, &here, &nowhere)?;
    let passed = pair(alloc, &passed_in(3), &passed_in(4))?;
    let reasons = pair(alloc, &Why::Parent(1), &Why::Parent(2))?;
    format!(in alloc; "{transfers}{applied}{errors}{places}{passed}{reasons}")
}
