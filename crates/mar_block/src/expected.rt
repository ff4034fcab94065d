//! The commitment that a decoded block is to have.
ghost use Rattle.std.specs.Prelude.{◌≡◌};

/// The commitment of a block that is to be decoded, and what vouches for it.
#[derive(Clone, Copy, Debug, PartialEq, Eq)]
pub enum ExpectedCommitment<C> {
    /// It was certified or finalized here, or is that of an ancestor of such a block.
    Trusted(C),
    /// Nothing vouches for it.
    Untrusted(C),
}

impl<C> ExpectedCommitment<C> {
    ghost use Rattle.mar_block.specs.Expected.{commitment_of};

    /// The commitment.
    pub fn into_commitment(self) -> C
        ensures { result ≡ commitment_of self }
    {
        match self {
            ExpectedCommitment::Trusted(commitment) => commitment,
            ExpectedCommitment::Untrusted(commitment) => commitment,
        }
    }
}
