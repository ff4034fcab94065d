//! Why a life ends.
use mar_actor::Fault;
use mar_ledger::{Ledger, LedgerEnd};
use mar_store::{Lost, MemMeta, MemMetaWreck};
use mar_types::{Height, Sha256Digest};

/// Why a life ended.
#[derive(Debug, Drop)]
pub(crate) enum Why {
    /// The node could not go on.
    Node(Fault<Sha256Digest>),
    /// What the ledger's store holds is no ledger's.
    Foreign,
    /// The ledger expected a block of the first height, and was handed one of the second.
    Gap(Height, Height),
    /// A call of the ledger's store failed.
    Store,
    /// Memory ran out.
    Memory,
}

/// Why the service can't go on, and what is left of its ledger's store.
#[derive(Drop)]
pub(crate) struct Closed {
    pub(crate) why: Why,
    pub(crate) left: MemMetaWreck,
}

impl Closed {
    /// For this reason.
    pub(crate) fn new(why: Why, left: MemMetaWreck) -> Self {
        Closed { why, left }
    }

    /// Because the store is lost.
    pub(crate) fn of(lost: Lost<MemMetaWreck>) -> Self {
        match lost {
            Lost::Fault(left) => Closed::new(Why::Store, left),
            Lost::Memory(left) => Closed::new(Why::Memory, left),
        }
    }

    /// Because a block isn't entered.
    pub(crate) fn by(end: LedgerEnd<Ledger<MemMeta>, MemMetaWreck>) -> Self {
        match end {
            LedgerEnd::Gap(ledger, expected, got) => {
                Closed::new(Why::Gap(expected, got), ledger.wreck())
            }
            LedgerEnd::Store(lost) => Closed::of(lost),
        }
    }
}
