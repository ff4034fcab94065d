//! Which block a pass wants next, and whether it is at hand. A read that fails ends the life.
ghost use Rattle.std.specs.Prelude.{◌≡◌, ◌+◌, ◌<◌, IfErr, IfOk, IfSome, OnOk, false, option_map, true};
ghost use Rattle.mar_key.specs.Processed.{height_of};
ghost use Rattle.mar_model.specs.Held.{GoesOn, IsReadFault, nothing_written};
ghost use Rattle.mar_model.specs.Repair.{fill_of, of_height, parent_wanted, search_of};
ghost use Rattle.mar_model.specs.Views.{fault_of};
ghost use Rattle.mar_store.specs.Changes.{heights};
ghost use Rattle.mar_store.specs.Gaps.{next_start};
ghost use Rattle.mar_store.specs.Kept.{has_height};
ghost use Rattle.mar_store.specs.Ranges.{ranges};
ghost use Rattle.mar_repair.specs.Views.{wanted_of};

use mar_cert::{Finds, Variant};
use mar_model::{Fault, HoldsGaps, block_at_hand};
use mar_types::{Height, Named};

/// A block that is wanted.
#[derive(Clone, Copy)]
pub(crate) struct Wanted<C> {
    /// Its height.
    pub(crate) height: Height,
    /// Its commitment.
    pub(crate) commitment: C,
}

/// The height of the held block right above the lowest gap.
pub(crate) fn upper_height<V: Variant, S: HoldsGaps<V>>(stores: &S) -> Option<u64>
    ensures { (S.held stores.now).intact ≡ true
        → result ≡ next_start (ranges (heights (S.held stores.now).blocks.held)) (height_of (S.held stores.now).processed + 1) }
{
    let processed = stores.floor().processed_height().get();
    let from = Height::new(processed.saturating_add(1));
    match stores.blocks_held().next_gap(from).1 {
        None => None,
        Some(height) => Some(height.get()),
    }
}

/// The parent that the held block right above the lowest gap names.
pub(crate) fn wanted_parent<V: Variant, S: HoldsGaps<V>>(
    stores: &mut S,
) -> Result<Option<Wanted<V::Commitment>>, Fault<V::Commitment>>
    requires intact { (S.held stores.old).intact ≡ true }
    ensures same { OnOk result (S.held stores.new ≡ record (S.held stores.old) { watches = (S.held stores.new).watches }) }
    ensures found { IfOk result (λ r. option_map (wanted_of V.Commitment.bytes) r
        ≡ parent_wanted (height_of (S.held stores.old).processed + 1) (S.held stores.old).blocks.held) }
    ensures above { IfOk result (λ r. IfSome r (λ w. height_of (S.held stores.old).processed < w.height)) }
    ensures missing { IfOk result (λ r. IfSome r (λ w. has_height (S.held stores.old).blocks.held w.height ≡ false)) }
    ensures goes_on { GoesOn (fault_of V.Commitment.bytes) (S.held stores.old) nothing_written (S.held stores.new) result }
    ensures read { IfErr result (λ e. IsReadFault (fault_of V.Commitment.bytes e)) }
{
    let Some(upper) = upper_height::<V, S>(stores) else {
        return Ok(None);
    };
    let Some(block) = stores.block_at(Height::new(upper))? else {
        return Ok(None);
    };
    let height = Height::new(upper.saturating_sub(1));
    let commitment = V::parent_commitment(&block);
    Ok(Some(Wanted { height, commitment }))
}

/// That parent, where it is at hand and has its height.
pub(crate) fn next_fill<V: Variant, S: HoldsGaps<V>, B: Finds<V>>(
    stores: &mut S,
    buffer: &B,
) -> Result<Option<V::Block>, Fault<V::Commitment>>
    requires intact { (S.held stores.old).intact ≡ true }
    ensures same { OnOk result (S.held stores.new ≡ record (S.held stores.old) { watches = (S.held stores.new).watches }) }
    ensures found { IfOk result (λ r. option_map V.plain r
        ≡ fill_of (search_of V.inner (B.blocks buffer.now) (S.held stores.old)) (S.held stores.old).blocks.held) }
    ensures missing { IfOk result (λ r. IfSome r (λ b. has_height (S.held stores.old).blocks.held (V.plain b).height ≡ false)) }
    ensures goes_on { GoesOn (fault_of V.Commitment.bytes) (S.held stores.old) nothing_written (S.held stores.new) result }
    ensures read { IfErr result (λ e. IsReadFault (fault_of V.Commitment.bytes e)) }
{
    let Some(wanted) = wanted_parent::<V, S>(stores)? else {
        return Ok(None);
    };
    let found = block_at_hand::<V, S, B>(stores, wanted.commitment, buffer)?;
    Ok(of_height::<V>(found, wanted.height))
}

/// The block, where it has this height.
pub(crate) fn of_height<V: Variant>(block: Option<V::Block>, height: Height) -> Option<V::Block>
    ensures is { option_map V.plain result ≡ of_height height (option_map V.plain block) }
    ensures own { IfSome result (λ b. (V.plain b).height ≡ height) }
{
    match block {
        None => None,
        Some(block) => {
            if V::height(&block) == height {
                Some(block)
            } else {
                None
            }
        }
    }
}
