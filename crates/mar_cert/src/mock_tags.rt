//! The mock scheme's tags.
ghost use Rattle.std.specs.Prelude.{◌≡◌, ◌++◌, List, ℕ};
ghost use Rattle.mar_cert.specs.MockScheme.{subject_byte, tag_over};
ghost use Rattle.mar_cert.specs.Views.{plain_subject, proposal_of, spelling_of};
ghost use Rattle.mar_types.specs.Varint.{varint};

use crate::finalization::Proposal;
use crate::subject::Subject;
use mar_types::{Digest, Hasher, Sha256, Sha256Digest};
use std::convert::AsSlice;

/// The tag that a member makes over a subject.
pub fn mock_tag<D: Digest>(subject: &Subject<D>, member: u32) -> Sha256Digest
    ensures { result.bytes ≡ tag_over (plain_subject subject.now)
        (spelling_of D.bytes (proposal_of subject.now)) member }
{
    let mut hasher = Sha256::new();
    hasher.update(b"marshal-mock");
    hasher.update(&[byte_of(subject)]);
    hash_proposal(&mut hasher, subject.proposal());
    hasher.update(&member.to_be_bytes());
    hasher.finalize()
}

// The byte that stands for the kind of subject.
fn byte_of<D>(subject: &Subject<D>) -> u8
    ensures { result ≡ subject_byte (plain_subject subject.now) }
{
    match subject {
        Subject::Notarize { .. } => 1,
        Subject::Finalize { .. } => 2,
    }
}

// Adds a proposal's spelling to the message.
fn hash_proposal<H: Hasher, D: Digest>(hasher: &mut H, proposal: &Proposal<D>)
    ensures { (before : List ℕ) → H.holds hasher.old before
        → H.holds hasher.new (before ++ spelling_of D.bytes proposal.now) }
{
    hash_number(hasher, proposal.round.epoch().get());
    hash_number(hasher, proposal.round.view().get());
    hash_number(hasher, proposal.parent.get());
    hasher.update(proposal.payload.as_slice());
}

// Adds a number's spelling to the message.
fn hash_number<H: Hasher>(hasher: &mut H, number: u64)
    ensures { (before : List ℕ) → H.holds hasher.old before
        → H.holds hasher.new (before ++ varint number) }
{
    let mut left = number;
    'bytes: while left >= 128 {
        hasher.update(&[(left % 128 + 128) as u8]);
        left /= 128;
    }
    hasher.update(&[left as u8]);
}
