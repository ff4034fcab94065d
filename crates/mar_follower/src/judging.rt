//! What is asked of a segment.
ghost use Rattle.std.specs.Prelude.{ℕ, IsTrue, MatchOption, ◌↔◌};
ghost use Rattle.mar_cert.specs.MockScheme.{mock_verifies};
ghost use Rattle.mar_cert.specs.Verdicts.{Judges};
ghost use Rattle.mar_follower.specs.Plain.{plain_block, plain_blocks, plain_segment};
ghost use Rattle.mar_follower.specs.Reports.{HasNoFlaw, committee_of};
ghost use Rattle.mar_follower.specs.Segments.{AreParents, FailsAt, HasFlaw, IsBelow, IsNamed, IsOfEpoch, IsParent};

use crate::segment::Segment;
use crate::why::Why;
use mar_block::EmptyBlock;
use mar_cert::{MockScheme, Provider, Scoped};
use mar_types::{Digestible, Epocher, Height, Sha256};

// The scheme of a segment's epoch, where that is the one of its first block's height.
fn scoped_for<P: Provider<Scheme = MockScheme>, E: Epocher>(
    provider: &P,
    epocher: &E,
    segment: &Segment,
) -> Option<Scoped<MockScheme>>
    ensures { (n : ℕ) → let committee = committee_of n (E.epochs epocher.now) (P.has_scheme provider.now)
        (P.verifies provider.now) in
        MatchOption result
        (IsOfEpoch committee (plain_segment segment.now) → ⊥)
        (λ s. IsOfEpoch committee (plain_segment segment.now) × Judges (mock_verifies s) (P.verifies provider.now)
        (P.verifies_notarization provider.now) (plain_segment segment.now).finalization.round.epoch) }
{
    let epoch = segment.finalization.epoch();
    let Some(scoped) = provider.scoped(epoch) else {
        return None;
    };
    let Some(placed) = epocher.containing(segment.top.height) else {
        return None;
    };
    if placed.epoch().get() == epoch.get() {
        Some(scoped)
    } else {
        None
    }
}

// Whether the payload is the first block's digest.
fn is_named(segment: &Segment) -> bool
    ensures { IsTrue result ↔ IsNamed (plain_segment segment.now) }
{
    segment.finalization.proposal.payload == segment.top.digest()
}

// Whether the second block is the parent of the first.
fn is_parent(block: &EmptyBlock<Sha256>, parent: &EmptyBlock<Sha256>) -> bool
    ensures { IsTrue result ↔ IsParent (plain_block block.now) (plain_block parent.now) }
{
    match block.height.previous() {
        Some(below) => below.get() == parent.height.get() && block.parent == parent.digest(),
        None => false,
    }
}

// The place of the first block that isn't the parent of the one before it; the top has place 0.
fn first_stranger(top: &EmptyBlock<Sha256>, others: &[EmptyBlock<Sha256>]) -> Option<u64>
    ensures { MatchOption result
        (AreParents (plain_block top.now) (plain_blocks others.now))
        (FailsAt 0 (plain_block top.now) (plain_blocks others.now)) }
{
    let mut before = top;
    'seeking: for (place, block) in others.iter().enumerate() {
        if !is_parent(before, block) {
            return Some(place as u64 + 1);
        }
        before = block;
    }
    None
}

// Whether a height is below the lowest one of the segment before.
fn is_below(above: Option<Height>, top: Height) -> bool
    ensures { IsTrue result ↔ IsBelow above top }
{
    match above {
        Some(low) => top.get() < low.get(),
        None => true,
    }
}

/// Why a segment in the grammar is refused behind one with this lowest height, or `None` where it passes.
pub(crate) fn flaw_of<P: Provider<Scheme = MockScheme>, E: Epocher>(
    provider: &P,
    epocher: &E,
    above: Option<Height>,
    segment: &Segment,
) -> Option<Why>
    ensures { (n : ℕ) → let committee = committee_of n (E.epochs epocher.now) (P.has_scheme provider.now)
        (P.verifies provider.now) in
        MatchOption result (HasNoFlaw committee above (plain_segment segment.now))
        (HasFlaw committee above (plain_segment segment.now)) }
{
    let Some(scoped) = scoped_for(provider, epocher, segment) else {
        return Some(Why::Epoch);
    };
    if !segment.finalization.verify(&scoped) {
        return Some(Why::Certificate);
    }
    if !is_named(segment) {
        return Some(Why::Payload);
    }
    match first_stranger(&segment.top, &segment.others) {
        Some(place) => Some(Why::Parent(place)),
        None => {
            if is_below(above, segment.top.height) {
                None
            } else {
                Some(Why::Order)
            }
        }
    }
}
