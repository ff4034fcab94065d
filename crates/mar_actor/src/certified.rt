//! Commitments that a life knows as certified.
ghost use Rattle.std.specs.Prelude.{◌≡◌, ◌∷◌, ◌+◌, ◌<◌, ◌≤◌, List, ℕ, [], IfErr, OnOk};
ghost use Rattle.mar_model.specs.Answers.{own_and_parent, own_commitment, parent_commitment};
ghost use Rattle.mar_model.specs.Held.{GoesOn, IsReadFault, nothing_written};
ghost use Rattle.mar_model.specs.Moves.{found_at_hand};
ghost use Rattle.mar_model.specs.Views.{fault_of};
ghost use Rattle.mar_parts.specs.Certified.{is_known};
ghost use Rattle.mar_actor.specs.Known.{TakesNote, least_above};

use mar_block::{Buffer, Variant};
use mar_model::{Fault, Holds, block_at_hand};
use mar_parts::Certified;
use mar_types::{Height, Named};
use std::alloc::AllocError;

/// Takes note of the commitments of a certified block and of its parent, where that block is at hand.
pub(crate) fn learn<V: Variant, S: Holds<V>, B: Buffer<V>>(
    stores: &mut S,
    commitment: V::Commitment,
    buffer: &B,
    certified: &mut Certified<V::Commitment>,
) -> Result<(), Fault<V::Commitment>>
    ensures notes { OnOk result ((tip : ℕ) → certified.old.min ≤ tip + 1 → TakesNote V.Commitment.bytes tip
        (own_and_parent (found_at_hand V.inner (B.blocks buffer.now) (S.held stores.old).cache.kept.held (S.held stores.old).blocks.held
        (V.Commitment.bytes commitment))) certified.old certified.new) }
    ensures min { OnOk result (certified.new.min ≡ certified.old.min) }
    ensures same { OnOk result (S.held stores.new ≡ record (S.held stores.old) { watches = (S.held stores.new).watches }) }
    ensures goes_on { GoesOn (fault_of V.Commitment.bytes) (S.held stores.old) nothing_written (S.held stores.new) result }
    ensures read { IfErr result (λ e. IsReadFault (fault_of V.Commitment.bytes e)) }
{
    match block_at_hand::<V, S, B>(stores, commitment, buffer) {
        Ok(Some(block)) => match note_block::<V>(certified, &block) {
            Ok(()) => Ok(()),
            Err(_) => Err(Fault::Memory),
        },
        Ok(None) => Ok(()),
        Err(fault) => Err(fault),
    }
}

// Takes note of the commitments of a block and of its parent.
fn note_block<V: Variant>(
    certified: &mut Certified<V::Commitment>,
    block: &V::Block,
) -> Result<(), AllocError>
    ensures notes { OnOk result ((tip : ℕ) → certified.old.min ≤ tip + 1 → TakesNote V.Commitment.bytes tip
        (own_commitment (V.plain block.now) ∷ parent_commitment (V.plain block.now) ∷ []) certified.old certified.new) }
    ensures min { OnOk result (certified.new.min ≡ certified.old.min) }
{
    let height = V::height(block);
    certified.insert(height, V::commitment(block))?;
    match height.previous() {
        Some(parent) => certified.insert(parent, V::parent_commitment(block)),
        None => Ok(()),
    }
}

/// Forgets the commitments at or below a tip, where it rose.
pub(crate) fn forget<C: Named>(certified: &mut Certified<C>, before: Height, tip: Height)
    ensures known { (h : ℕ) (c : List ℕ) → tip < h → is_known C.bytes certified.new h c ≡ is_known C.bytes certified.old h c }
    ensures min { certified.old.min ≡ least_above before → before ≤ tip → certified.new.min ≡ least_above tip }
    ensures same { tip ≤ before → certified.new ≡ certified.old }
{
    if before < tip {
        certified.retain(Height::new(tip.get().saturating_add(1)));
    }
}
