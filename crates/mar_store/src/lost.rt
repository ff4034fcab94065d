//! Why a store is lost, or a read has no answer.

/// Why a store is lost, with what is left of it.
#[derive(Drop)]
pub enum Lost<W> {
    /// The store failed; its count of faults rose.
    Fault(W),
    /// Memory ran out.
    Memory(W),
}

/// Why a read has no answer; the store is still there.
#[derive(Clone, Copy, Debug, PartialEq, Eq)]
pub enum Miss {
    /// The store failed; its count of faults rose.
    Fault,
    /// Memory ran out.
    Memory,
}
