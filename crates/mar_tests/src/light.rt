//! Blocks and finalizations without type parameters, which cost little to prove.
ghost use Rattle.std.specs.Prelude.{[], refl};
ghost use Rattle.mar_cert.specs.Finalization.{finalization_bytes};
ghost use Rattle.mar_store.specs.Sizes.{IsSmall};

use mar_block::Variant;
use mar_cert::{AsFinalization, CommitsTo};
use mar_types::{Hasher, Height, Named, Round, Sha256, Sha256Digest};
use std::alloc::AllocError;

// A block whose commitment is its digest.
#[derive(Clone, Copy, Drop)]
pub struct Plate {
    pub height: Height,
    pub digest: Sha256Digest,
}

// The block of a height, of whose digest each byte is the height.
pub(crate) fn plate_at(height: u8) -> Plate {
    Plate {
        height: Height::new(u64::from(height)),
        digest: Sha256::fill(height),
    }
}

pub struct Plates {}

impl Variant for Plates {
    type Block = Plate;

    type Digest = Sha256Digest;

    type Commitment = Sha256Digest;

    ghost plain = { λ b. record {
      digest = ⟦<Sha256Digest as Named>⟧.bytes b.digest;
      commitment = ⟦<Sha256Digest as Named>⟧.bytes b.digest;
      height = b.height;
      parent = [];
      parent_commitment = ⟦<Sha256Digest as Named>⟧.bytes b.digest;
      encoded = [];
    } };

    ghost inner = { λ commitment. commitment };

    fn height(block: &Plate) -> Height {
        block.height
    }

    fn digest(block: &Plate) -> Sha256Digest {
        block.digest
    }

    fn commitment(block: &Plate) -> Sha256Digest {
        block.digest
    }

    fn commitment_to_inner(commitment: Sha256Digest) -> Sha256Digest {
        commitment
    }

    fn parent_commitment(block: &Plate) -> Sha256Digest {
        block.digest
    }

    fn try_clone(block: &Plate) -> Result<Plate, AllocError> {
        Ok(*block)
    }

    ghost inner_is = { λ b. refl };
}

// A finalization.
#[derive(Clone, Copy, Drop)]
pub struct Vote {
    pub round: Round,
    pub payload: Sha256Digest,
}

// A finalization over the block of a height.
pub(crate) fn vote_over(round: Round, height: u8) -> Vote
    ensures small { IsSmall (finalization_bytes (⟦<Vote as AsFinalization>⟧.plain result)) }
{
    Vote {
        round,
        payload: Sha256::fill(height),
    }
}

impl AsFinalization for Vote {
    ghost plain = { λ v. record { round = v.round; parent = 0; payload = ⟦<Sha256Digest as Named>⟧.bytes v.payload; certificate = [] } };

    fn round(&self) -> Round {
        self.round
    }

    fn try_clone(&self) -> Result<Vote, AllocError> {
        Ok(*self)
    }
}

impl CommitsTo<Sha256Digest> for Vote {
    fn payload(&self) -> Sha256Digest {
        self.payload
    }
}
