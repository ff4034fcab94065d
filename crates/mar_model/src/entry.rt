//! The entries of a cache, and what is looked for among them.
ghost use Rattle.std.specs.Prelude.{◌≡◌};
ghost use Rattle.mar_model.specs.Entries.{block_in, finalization_in, notarization_in, sought_block};

use mar_types::{Epoch, Round};

/// What is put in a cache.
#[derive(Drop)]
pub enum Entry<B, N, F> {
    Finalization(F),
    /// A block that was verified in a round.
    Verified(Round, B),
    /// A block that was notarized in a round.
    Notarized(Round, B),
    /// A certified block of an epoch.
    Certified(Epoch, B),
    Notarization(N),
}

/// What is looked for in a cache.
#[derive(Clone, Copy)]
pub enum Sought<D, C> {
    /// The first block that was verified in a round.
    VerifiedAt(Round),
    /// The block of a digest that was verified in a round.
    VerifiedBlock(Round, D),
    NotarizationAt(Round),
    /// A finalization of the block of a digest.
    FinalizationFor(D),
    BlockOf(D),
    CommittedTo(C),
}

/// What names a block that is looked for.
#[derive(Clone, Copy)]
pub enum BlockName<D, C> {
    Digest(D),
    Commitment(C),
}

impl<B: Drop, N: Drop, F: Drop> Entry<B, N, F> {
    /// The block in it.
    pub fn into_block(self) -> Option<B>
        ensures { result ≡ block_in self }
    {
        match self {
            Entry::Verified(_, block) | Entry::Notarized(_, block) | Entry::Certified(_, block) => {
                Some(block)
            }
            _ => None,
        }
    }

    /// The notarization that it is.
    pub fn into_notarization(self) -> Option<N>
        ensures { result ≡ notarization_in self }
    {
        match self {
            Entry::Notarization(notarization) => Some(notarization),
            _ => None,
        }
    }

    /// The finalization that it is.
    pub fn into_finalization(self) -> Option<F>
        ensures { result ≡ finalization_in self }
    {
        match self {
            Entry::Finalization(finalization) => Some(finalization),
            _ => None,
        }
    }
}

/// What is looked for where that is a block of this name.
pub fn sought_block<D: Copy, C: Copy>(name: BlockName<D, C>) -> Sought<D, C>
    ensures { result ≡ sought_block name }
{
    match name {
        BlockName::Digest(digest) => Sought::BlockOf(digest),
        BlockName::Commitment(commitment) => Sought::CommittedTo(commitment),
    }
}
