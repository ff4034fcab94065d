//! Calls of the blocks in their place, with what is staged of them.
ghost use Rattle.std.specs.Prelude.{◌≡◌, ◌⊎◌, ◌∷◌, [], IfErr, IfOk, IfSome, OnErr, OnOk, option_map};
ghost use Rattle.mar_store.specs.Changes.{Puts};
ghost use Rattle.mar_store.specs.Kept.{value_at};
ghost use Rattle.mar_store.specs.Sizes.{IsSmall};
ghost use Rattle.mar_model.specs.Faults.{block_store};
ghost use Rattle.mar_model.specs.Held.{Passes};
ghost use Rattle.mar_model.specs.Moves.{StoresValue};
ghost use Rattle.mar_model.specs.Places.{is_open, kept_at, watch_at};
ghost use Rattle.mar_model.specs.Pool.{pool_deferred};
ghost use Rattle.mar_model.specs.Staged.{is_taken_in, kept_from, staged_where, without_height};
ghost use Rattle.mar_model.specs.Stored.{at_own_height, block_of, is_held};
ghost use Rattle.mar_life.specs.Pooling.{AreHeldIn, AwaitsIn, FailsIn, IsFaultOf, IsLeftIn, IsReadIn, StaysIn, of_blocks};
ghost use Rattle.mar_model.specs.Views.{fault_of};

use crate::Blocks;
use crate::in_place::{answered, put_block, sync};
use crate::item::BlockItem;
use mar_block::Variant;
use mar_model::{Fault, Place, Staged, StoreName, Writes};
use mar_types::Height;
use std::alloc::AllocError;

/// Puts a block whose write waits, and stages it where it was taken in.
pub fn put<V: Variant, FB: Blocks<V>>(
    place: &mut Place<FB, FB::Wreck>,
    writes: &mut Writes,
    staged: &mut Staged<V::Block>,
    block: V::Block,
) -> Result<(), Fault<V::Commitment>>
    requires small { IsSmall (V.plain block).encoded }
    requires waits { AwaitsIn of_blocks FB.stored FB.number FB.covers place.old writes.old }
    requires held { AreHeldIn V.plain FB.stored place.old staged.old.blocks }
    ensures waits { AwaitsIn of_blocks FB.stored FB.number FB.covers place.new writes.new }
    ensures held { AreHeldIn V.plain FB.stored place.new staged.new.blocks }
    ensures writes { (writes.new ≡ writes.old) ⊎ (writes.new ≡ pool_deferred (V.plain block).height writes.old) }
    ensures deferred { OnOk result (writes.new ≡ pool_deferred (V.plain block).height writes.old) }
    ensures staged { OnOk result (staged.new ≡ staged_where (is_taken_in (V.plain block).height (kept_at FB.stored FB.Wreck.left place.old)
        (kept_at FB.stored FB.Wreck.left place.new)) (V.plain block).height block staged.old) }
    ensures done { OnOk result (Puts (is_held (kept_at FB.stored FB.Wreck.left place.old).held (V.plain block)) (kept_at FB.stored FB.Wreck.left place.old)
        (at_own_height (V.plain block)) (kept_at FB.stored FB.Wreck.left place.new)) }
    ensures still { OnOk result (is_open place.new ≡ is_open place.old) }
    ensures passed { OnOk result (Passes (watch_at FB.watch FB.Wreck.watch place.old) (watch_at FB.watch FB.Wreck.watch place.new)) }
    ensures failed { IfErr result (λ e. FailsIn block_store FB.stored FB.Wreck.left FB.watch FB.Wreck.watch (at_own_height (V.plain block) ∷ [])
        place.old place.new (fault_of V.Commitment.bytes e)) }
{
    writes.law();
    let height = V::height(&block);
    if let Err(_) = writes.defer(height) {
        return Err(Fault::Memory);
    }
    let is_taken = put_block::<V, FB>(place, &block)?;
    if let Err(_) = stage(staged, height, block, is_taken) {
        return Err(Fault::Memory);
    }
    Ok(())
}

/// Stages a block where it is to be.
fn stage<B: Drop>(
    staged: &mut Staged<B>,
    height: Height,
    block: B,
    is_taken: bool,
) -> Result<(), AllocError>
    ensures ok { OnOk result (staged.new ≡ staged_where is_taken height block staged.old) }
    ensures err { OnErr result (staged.new ≡ staged.old) }
{
    if is_taken {
        return staged.insert(height, block);
    }
    Ok(())
}

/// Puts a block and makes it durable at once.
pub fn store<V: Variant, FB: Blocks<V>>(
    place: &mut Place<FB, FB::Wreck>,
    block: &V::Block,
) -> Result<(), Fault<V::Commitment>>
    requires small { IsSmall (V.plain block.now).encoded }
    ensures done { OnOk result (StoresValue (is_held (kept_at FB.stored FB.Wreck.left place.old).held (V.plain block.now))
        (kept_at FB.stored FB.Wreck.left place.old) (at_own_height (V.plain block.now)) (kept_at FB.stored FB.Wreck.left place.new)) }
    ensures stays { OnOk result (StaysIn FB.stored FB.number FB.covers place.old place.new) }
    ensures passed { OnOk result (Passes (watch_at FB.watch FB.Wreck.watch place.old) (watch_at FB.watch FB.Wreck.watch place.new)) }
    ensures left { OnErr result (IsLeftIn place.old place.new) }
    ensures failed { IfErr result (λ e. FailsIn block_store FB.stored FB.Wreck.left FB.watch FB.Wreck.watch (at_own_height (V.plain block.now) ∷ [])
        place.old place.new (fault_of V.Commitment.bytes e)) }
{
    put_block::<V, FB>(place, block)?;
    sync::<BlockItem<V>, FB, V::Commitment>(place, StoreName::Blocks)
}

/// The block that is held at a height.
pub fn at<V: Variant, FB: Blocks<V>>(
    place: &mut Place<FB, FB::Wreck>,
    height: Height,
) -> Result<Option<V::Block>, Fault<V::Commitment>>
    ensures found { IfOk result (λ r. option_map V.plain r ≡ value_at (kept_at FB.stored FB.Wreck.left place.old).held height) }
    ensures own { IfOk result (λ r. IfSome r (λ b. (V.plain b).height ≡ height)) }
    ensures read { IsReadIn FB.stored FB.number FB.covers FB.Wreck.left place.old place.new }
    ensures passed { OnOk result (Passes (watch_at FB.watch FB.Wreck.watch place.old) (watch_at FB.watch FB.Wreck.watch place.new)) }
    ensures failed { IfErr result (λ e. IsFaultOf block_store (watch_at FB.watch FB.Wreck.watch place.old) (fault_of V.Commitment.bytes e)
        (watch_at FB.watch FB.Wreck.watch place.new)) }
{
    let Place::Open(blocks) = place else {
        return Err(Fault::Memory);
    };
    answered(blocks.get(height), StoreName::Blocks)
}

/// A held block of this digest.
pub fn of<V: Variant, FB: Blocks<V>>(
    place: &mut Place<FB, FB::Wreck>,
    digest: &V::Digest,
) -> Result<Option<V::Block>, Fault<V::Commitment>>
    ensures found { IfOk result (λ r. option_map V.plain r ≡ block_of (kept_at FB.stored FB.Wreck.left place.old).held (V.Digest.bytes digest.now)) }
    ensures read { IsReadIn FB.stored FB.number FB.covers FB.Wreck.left place.old place.new }
    ensures passed { OnOk result (Passes (watch_at FB.watch FB.Wreck.watch place.old) (watch_at FB.watch FB.Wreck.watch place.new)) }
    ensures failed { IfErr result (λ e. IsFaultOf block_store (watch_at FB.watch FB.Wreck.watch place.old) (fault_of V.Commitment.bytes e)
        (watch_at FB.watch FB.Wreck.watch place.new)) }
{
    let Place::Open(blocks) = place else {
        return Err(Fault::Memory);
    };
    answered(blocks.find(digest), StoreName::Blocks)
}

/// The block to hand over at a height: one that is staged, which is then no longer, or the one that is held. Blocks staged
/// at or below that height are dropped.
pub fn take<V: Variant, FB: Blocks<V>>(
    place: &mut Place<FB, FB::Wreck>,
    staged: &mut Staged<V::Block>,
    height: Height,
) -> Result<Option<V::Block>, Fault<V::Commitment>>
    requires held { AreHeldIn V.plain FB.stored place.old staged.old.blocks }
    ensures held { AreHeldIn V.plain FB.stored place.new staged.new.blocks }
    ensures dropped { OnOk result (staged.new ≡ without_height height (kept_from height staged.old)) }
    ensures found { IfOk result (λ r. option_map V.plain r ≡ value_at (kept_at FB.stored FB.Wreck.left place.old).held height) }
    ensures own { IfOk result (λ r. IfSome r (λ b. (V.plain b).height ≡ height)) }
    ensures read { IsReadIn FB.stored FB.number FB.covers FB.Wreck.left place.old place.new }
    ensures passed { OnOk result (Passes (watch_at FB.watch FB.Wreck.watch place.old) (watch_at FB.watch FB.Wreck.watch place.new)) }
    ensures failed { IfErr result (λ e. IsFaultOf block_store (watch_at FB.watch FB.Wreck.watch place.old) (fault_of V.Commitment.bytes e)
        (watch_at FB.watch FB.Wreck.watch place.new)) }
{
    let Place::Open(blocks) = place else {
        return Err(Fault::Memory);
    };
    staged.retain(height);
    if let Some(block) = staged.remove(height) {
        return Ok(Some(block));
    }
    answered(blocks.get(height), StoreName::Blocks)
}
