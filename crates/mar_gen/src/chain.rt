//! The blocks that a seed makes, and their finalizations.
ghost use Rattle.std.specs.Prelude.{◌≡◌, ◌≤◌, ℕ, IfOk, map};
ghost use Rattle.mar_gen.specs.Chain.{finalized, made_chain, made_finalization, made_blocks as blocks_made, plain_block, plain_finalization};
ghost use Rattle.mar_types.specs.Epochs.{fixed_epochs};
ghost use Rattle.mar_model.specs.Chain.{IsLawful};
ghost use Rattle.mar_cert.specs.Finalization.{finalize};
ghost use Rattle.mar_cert.specs.MockScheme.{Verifies, tag_over};
ghost use Rattle.mar_cert.specs.Views.{plain_subject, proposal_of, spelling_of};

use crate::draws::Draws;
use mar_block::EmptyBlock;
use mar_cert::{
    Finalization, MockCertificate, MockFinalization, Proposal, Signer, Subject, mock_tag,
};
use mar_types::{Digest, Digestible, Epoch, Height, Round, Sha256, Sha256Digest, View};
use std::alloc::{AllocError, Global};

/// Blocks 0 to `last`: each has the digest of the one before it as its parent and a draw as its timestamp, block 0 has
/// the seed.
pub fn made_blocks(
    alloc: Global,
    seed: u64,
    last: u64,
) -> Result<Vec<EmptyBlock<Sha256>>, AllocError>
    ensures { IfOk result (λ blocks. map plain_block blocks.items ≡ blocks_made seed last) }
{
    let mut draws = Draws::new(seed);
    let mut blocks = Vec::new(alloc);
    let genesis = EmptyBlock::<Sha256>::new(Sha256Digest::empty(), Height::zero(), seed);
    let mut parent = genesis.digest();
    blocks.push(genesis)?;
    for below in 0..last {
        let height = Height::new(below + 1);
        let block = EmptyBlock::<Sha256>::new(parent, height, draws.draw());
        parent = block.digest();
        blocks.push(block)?;
    }
    Ok(blocks)
}

/// The finalization of the block of this digest at this height, by members 0, 1 and 2.
pub fn finalization(
    alloc: Global,
    height: u64,
    digest: Sha256Digest,
) -> Result<MockFinalization, AllocError>
    ensures { IfOk result (λ f. plain_finalization f ≡ finalized height digest.bytes) }
{
    let place = height % 10;
    let proposal = Proposal {
        round: Round::new(Epoch::new(height / 10), View::new(place + 1)),
        parent: View::new(place),
        payload: digest,
    };
    let subject = Subject::Finalize {
        proposal: proposal.copy(),
    };
    let signers = vec![in alloc; sign(&subject, 0), sign(&subject, 1), sign(&subject, 2)]?;
    Ok(Finalization {
        proposal,
        certificate: MockCertificate { signers },
    })
}

// A member's part of a certificate.
fn sign(subject: &Subject<Sha256Digest>, member: u32) -> Signer
    ensures member { result.member ≡ member }
    ensures tag { result.tag.bytes ≡ tag_over (plain_subject subject.now) (spelling_of (λ d. d.bytes) (proposal_of subject.now)) member }
{
    Signer {
        member,
        tag: mock_tag(subject, member),
    }
}

/// The finalizations of that chain verify with four members.
pub fn finalizations_hold()
    ensures { (seed h : ℕ) → Verifies 4 finalize (made_finalization seed h) }
{}

/// The chain that a seed makes is lawful where its epochs have ten heights.
pub fn chain_is_lawful()
    ensures { (seed n : ℕ) → n ≤ 10_000 → IsLawful (fixed_epochs 10) (made_chain seed n) }
{}
