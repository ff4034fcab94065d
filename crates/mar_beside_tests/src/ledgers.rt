//! A ledger in a store of metadata in memory, by what it does and what is left of it.
use crate::snapshots::{snap, snapshot_of};
use crate::words::{bytes_of, front, number, number_front, number_text};
use mar_block::EmptyBlock;
use mar_ledger::{Ledger, LedgerEnd, OpenEnd};
use mar_statesync::Snapshot;
use mar_store::{Lost, MemMeta, MemMetaWreck, Meta, MetaRuin};
use mar_types::{Digest, Height, Sha256, Sha256Digest};
use std::alloc::{AllocError, Global};

/// A ledger, or what is left of its store.
#[derive(Drop)]
pub enum Kept {
    Open(Ledger<MemMeta>),
    Left(MemMetaWreck),
}

/// A ledger, and what is told of a step.
type Step = Result<(Kept, String), AllocError>;

impl Kept {
    /// A store with no values.
    pub(crate) fn empty(alloc: Global) -> Self {
        Kept::Left(MemMeta::new(alloc).wreck())
    }

    // What a crash now leaves.
    fn wreck(self) -> MemMetaWreck {
        match self {
            Kept::Open(ledger) => ledger.wreck(),
            Kept::Left(wreck) => wreck,
        }
    }
}

// What a lost store leaves.
fn lost(alloc: Global, lost: Lost<MemMetaWreck>) -> Step {
    match lost {
        Lost::Fault(wreck) => Ok((Kept::Left(wreck), "lost".to_string(alloc)?)),
        Lost::Memory(_) => Err(AllocError),
    }
}

// The balances of a ledger, its height and how many transfers were rejected.
fn text(alloc: Global, ledger: &Ledger<MemMeta>) -> Result<String, AllocError> {
    let balances = ledger.balances();
    let height = number_text(alloc, ledger.height())?;
    let rejected = ledger.rejected();
    format!(in alloc; "{balances:?} h={height} r={rejected}")
}

// What is left is opened; a ledger that stands there crashes before.
fn open(alloc: Global, kept: Kept, luck: u64) -> Step {
    match Ledger::open(alloc, kept.wreck(), luck) {
        Ok(ledger) => {
            let text = text(alloc, &ledger)?;
            Ok((Kept::Open(ledger), text))
        }
        Err(OpenEnd::Foreign(wreck)) => Ok((Kept::Left(wreck), "foreign".to_string(alloc)?)),
        Err(OpenEnd::Store(end)) => lost(alloc, end),
    }
}

// Puts a value under a key, past any ledger.
fn put(alloc: Global, kept: Kept, key: u64, value: u64) -> Step {
    let meta = match MemMeta::reopen(kept.wreck(), 0) {
        Ok(meta) => meta,
        Err(end) => return lost(alloc, end),
    };
    let meta = match meta.put(key, value) {
        Ok(meta) => meta,
        Err(end) => return lost(alloc, end),
    };
    match meta.sync() {
        Ok(meta) => Ok((Kept::Left(meta.wreck()), "put".to_string(alloc)?)),
        Err(end) => lost(alloc, end),
    }
}

// The counted call fails that is so many calls away.
fn fail(alloc: Global, kept: Kept, calls: u64) -> Step {
    let kept = match kept {
        Kept::Open(ledger) => {
            let mut ledger = ledger;
            ledger.arm(calls)?;
            Kept::Open(ledger)
        }
        Kept::Left(wreck) => {
            let mut wreck = wreck;
            wreck.arm(calls)?;
            Kept::Left(wreck)
        }
    };
    Ok((kept, "armed".to_string(alloc)?))
}

// Enters the block of a height and a timestamp.
fn deliver(alloc: Global, ledger: Ledger<MemMeta>, height: u64, timestamp: u64) -> Step {
    let parent = Sha256Digest::empty();
    let block: EmptyBlock<Sha256> = EmptyBlock::new(parent, Height::new(height), timestamp);
    match ledger.deliver(alloc, &block) {
        Ok((ledger, how)) => {
            let text = text(alloc, &ledger)?;
            let told = format!(in alloc; "{how:?} {text}")?;
            Ok((Kept::Open(ledger), told))
        }
        Err(LedgerEnd::Gap(ledger, expected, got)) => {
            let text = text(alloc, &ledger)?;
            let told = format!(in alloc; "gap {expected} {got} {text}")?;
            Ok((Kept::Open(ledger), told))
        }
        Err(LedgerEnd::Store(end)) => lost(alloc, end),
    }
}

// Begins where a snapshot stands.
fn begin(alloc: Global, ledger: Ledger<MemMeta>, snapshot: &Snapshot) -> Step {
    let books = snapshot.books().copy();
    match ledger.replace(snapshot.height(), books) {
        Ok(ledger) => {
            let text = text(alloc, &ledger)?;
            Ok((Kept::Open(ledger), text))
        }
        Err(end) => lost(alloc, end),
    }
}

// A step of a ledger that stands there.
fn step_open(alloc: Global, ledger: Ledger<MemMeta>, word: &str, rest: &str) -> Step {
    match word {
        "deliver" => {
            let (height, rest) = number_front(rest);
            deliver(alloc, ledger, height, number(rest))
        }
        "snap" => {
            let (finalization, block) = front(rest);
            let text = snap(alloc, &ledger, finalization, block)?;
            Ok((Kept::Open(ledger), text))
        }
        _ => match snapshot_of(alloc, bytes_of(alloc, rest).as_slice()) {
            Ok(snapshot) => begin(alloc, ledger, &snapshot),
            Err(error) => Ok((Kept::Open(ledger), format!(in alloc; "{error:?}")?)),
        },
    }
}

/// A step: `empty`, a store with no values; `open LUCK`; `put KEY VALUE`; `fail CALLS`; `deliver HEIGHT TIMESTAMP`;
/// `snap FINALIZATION BLOCK`; `begin SNAPSHOT`.
pub(crate) fn step(alloc: Global, kept: Kept, word: &str, rest: &str) -> Step {
    match word {
        "empty" => Ok((Kept::empty(alloc), "nothing".to_string(alloc)?)),
        "open" => open(alloc, kept, number(rest)),
        "put" => {
            let (key, rest) = number_front(rest);
            put(alloc, kept, key, number(rest))
        }
        "fail" => fail(alloc, kept, number(rest)),
        _ => match kept {
            Kept::Open(ledger) => step_open(alloc, ledger, word, rest),
            Kept::Left(wreck) => Ok((Kept::Left(wreck), "no ledger".to_string(alloc)?)),
        },
    }
}
