//! Why a life ended.
ghost use Rattle.std.specs.Prelude.{◌≡◌};

use mar_types::Height;
use std::alloc::AllocError;

/// The stores of a node.
#[derive(Clone, Copy, Debug, PartialEq, Eq)]
pub enum StoreName {
    /// Finalized blocks.
    Blocks,
    /// Finalizations.
    Certs,
    /// The processed height and the cutoff.
    Meta,
    /// What isn't final yet.
    Cache,
}

/// What tickets are given for.
#[derive(Clone, Copy, Debug, PartialEq, Eq)]
pub enum TicketKind {
    /// Acknowledgements.
    Ack,
    /// Syncs, of the finalized archives and of the cache.
    Sync,
}

/// Why a life ended, with commitments of the kind `C`.
#[derive(Copy, Debug, PartialEq, Eq)]
pub enum Fault<C> {
    /// A call of this store failed.
    StoreFault(StoreName),
    /// The genesis block stands at this height, and not at zero.
    GenesisHeight(Height),
    /// The genesis block has the first commitment, and the stored block zero the second.
    GenesisMismatch(C, C),
    /// The block at this height, just above the processed one, has the first commitment, and its certificate names the
    /// second.
    Corrupt(Height, C, C),
    /// Neither the block at this height, the processed one, nor the one above it is stored.
    Unbacked(Height),
    /// This height, the last one, is stored or processed, or a finalized block stands there; it has no next.
    HeightLimit(Height),
    /// The application dropped the acknowledgement of the block at this height, the oldest one that it owed.
    AckDropped(Height),
    /// The last ticket of this kind was given.
    TicketLimit(TicketKind),
    /// Memory ran out.
    Memory,
}

impl<C: Copy> Clone for Fault<C> {
    ghost is_clone = { λ fault copy. copy ≡ fault };

    ghost is_infallible = { λ _. Unit {0} };

    fn clone(&self) -> Result<Self, AllocError> {
        Ok(*self)
    }
}
