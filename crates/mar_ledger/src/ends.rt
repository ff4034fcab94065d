//! Why a call of a ledger has no ledger to give.

use mar_store::Lost;
use mar_types::Height;

/// Why no ledger is opened, with what is left of its store.
#[derive(Drop)]
pub enum OpenEnd<W> {
    /// What the store holds is no ledger's.
    Foreign(W),
    /// The store is lost.
    Store(Lost<W>),
}

/// Why a block isn't entered.
#[derive(Drop)]
pub enum LedgerEnd<L, W> {
    /// The ledger as it was, the height of the block that comes next, and that of the one which came.
    Gap(L, Height, Height),
    /// The ledger's store is lost.
    Store(Lost<W>),
}
