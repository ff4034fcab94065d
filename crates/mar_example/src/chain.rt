//! What peers and consensus would bring: blocks, each over the one before it, and their finalizations.
ghost use Rattle.std.specs.Prelude.{IfSome};
ghost use Rattle.mar_cert.specs.Finalization.{finalization_bytes};
ghost use Rattle.mar_store.specs.Sizes.{IsSmall};

use mar_block::{EmptyBlock, StandardBlocks, Variant};
use mar_cert::{
    AsFinalization, Finalization, MockCertificate, MockFinalization, Proposal, Signer, Subject,
    mock_tag,
};
use mar_types::{Digest, Digested, EncodeSize, Epoch, Height, Round, Sha256, Sha256Digest, View};
use std::alloc::Global;

/// A block of the chain.
pub(crate) type Block = Digested<EmptyBlock<Sha256>>;

// How many bytes a value may have that a store takes.
const MOST: usize = 1_048_576;

/// The block of a height over its parent.
pub(crate) fn block(
    alloc: Global,
    parent: Sha256Digest,
    height: u64,
    timestamp: u64,
) -> Option<Block>
    ensures small { IfSome result (λ b. IsSmall (⟦<StandardBlocks as Variant>⟧.plain b).encoded) }
{
    let block = EmptyBlock::new(parent, Height::new(height), timestamp);
    let block = Digested::compute(alloc, block).ok()?;
    if block.inner().encode_size() <= MOST {
        Some(block)
    } else {
        None
    }
}

/// The block of height zero.
pub(crate) fn genesis(alloc: Global) -> Option<Block>
    ensures small { IfSome result (λ b. IsSmall (⟦<StandardBlocks as Variant>⟧.plain b).encoded) }
{
    block(alloc, Sha256Digest::empty(), 0, 0)
}

// What a member signs of a proposal.
fn signed(proposal: &Proposal<Sha256Digest>, member: u32) -> Signer {
    let subject = Subject::Finalize {
        proposal: proposal.copy(),
    };
    let tag = mock_tag(&subject, member);
    Signer { member, tag }
}

/// The finalization of a block by three of the four members, in the view of its height.
pub(crate) fn finalization(
    alloc: Global,
    height: u64,
    payload: Sha256Digest,
) -> Option<MockFinalization>
    ensures small { IfSome result (λ f. IsSmall (finalization_bytes (⟦<MockFinalization as AsFinalization>⟧.plain f))) }
{
    let proposal = Proposal {
        round: Round::new(Epoch::zero(), View::new(height)),
        parent: View::zero(),
        payload,
    };
    let mut signers = Vec::new(alloc);
    for member in 0..3 {
        signers.push(signed(&proposal, member)).ok()?;
    }
    let certificate = MockCertificate { signers };
    let finalization = Finalization {
        proposal,
        certificate,
    };
    let size = finalization.certificate.encode_size();
    if size <= MOST && finalization.encode_size() <= MOST {
        Some(finalization)
    } else {
        None
    }
}
