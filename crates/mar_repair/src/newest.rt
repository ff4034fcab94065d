//! The block of the newest certificate, with which a pass begins.
ghost use Rattle.std.specs.Prelude.{◌≡◌, ◌<◌, ◌&&◌, IfErr, IfNone, IfOk, IfSome, List, None, OnOk, Option, Some, nat_lt, option_map, true};
ghost use Rattle.mar_cert.specs.Finalization.{Finalization};
ghost use Rattle.mar_key.specs.Processed.{height_of};
ghost use Rattle.mar_model.specs.Answers.{Sent, TicketAnswer};
ghost use Rattle.mar_model.specs.Held.{GoesOn, IsReadFault, nothing_written};
ghost use Rattle.mar_model.specs.Moves.{at_height};
ghost use Rattle.mar_model.specs.Promise.{Heard, heard_with};
ghost use Rattle.mar_model.specs.Repair.{alone_in, certified_acts, is_above_last, look_up, newest_acts, of_height, search_of, walk_start, with_found};
ghost use Rattle.mar_model.specs.Scene.{Standing, Window, scene};
ghost use Rattle.mar_model.specs.Step.{Report};
ghost use Rattle.mar_model.specs.Stored.{AreSmall};
ghost use Rattle.mar_model.specs.Views.{entry_of, fault_of};
ghost use Rattle.mar_store.specs.Named.{last_index};
ghost use Rattle.mar_store.specs.Sizes.{IsSmall};
ghost use Rattle.mar_repair.specs.Newest.{IsHeightAlone};
ghost use Rattle.mar_repair.specs.Walk.{DoesActs, OnlyStores};

use crate::asking::request;
use crate::filling::put_alone;
use mar_cert::{CommitsTo, Finds, Variant};
use mar_key::Resolver;
use mar_model::{Fault, HoldsGaps, block_at_hand};
use mar_types::Height;

/// Stores the block of the newest certificate where that is above the processed height and above every held block, or asks for it.
pub(crate) fn fill_newest<V, S, B, R>(
    stores: &mut S,
    buffer: &B,
    resolver: &mut R,
) -> Result<(), Fault<V::Commitment>>
where
    V: Variant,
    S: HoldsGaps<V>,
    B: Finds<V>,
    R: Resolver<V::Commitment>,
    requires intact { (S.held stores.old).intact ≡ true }
    requires small_buffer { AreSmall (B.blocks buffer.now) }
    ensures kept { OnOk result (OnlyStores (S.held stores.old) (S.held stores.new)) }
    ensures holds { OnOk result ((S.held stores.new).blocks.held ≡ walk_start V.inner (B.blocks buffer.now) (S.held stores.old)) }
    ensures runs { (life : Window) (standing : Standing) (told : Option (List Report))
        (sends : Option (List Sent)) (answers : List TicketAnswer)
        → DoesActs V.inner (fault_of V.Commitment.bytes)
        (newest_acts (search_of V.inner (B.blocks buffer.now) (S.held stores.old)) (S.held stores.old).blocks.held (alone_in (S.held stores.old)))
        (scene (S.held stores.old) life standing (heard_with told (R.told resolver.old) sends answers))
        (scene (S.held stores.new) life standing (heard_with told (R.told resolver.new) sends answers)) result }
{
    match certified_alone::<V, S>(stores) {
        Ok(None) => Ok(()),
        Ok(Some((height, finalization))) => fill_certified::<V, S, B, R>(
            stores,
            buffer,
            resolver,
            height,
            &finalization,
        ),
        Err(fault) => Err(fault),
    }
}

/// Stores the block of a held certificate where it is at hand at its height, or asks for it.
fn fill_certified<V, S, B, R>(
    stores: &mut S,
    buffer: &B,
    resolver: &mut R,
    height: Height,
    finalization: &S::Finalization,
) -> Result<(), Fault<V::Commitment>>
where
    V: Variant,
    S: HoldsGaps<V>,
    B: Finds<V>,
    R: Resolver<V::Commitment>,
    requires intact { (S.held stores.old).intact ≡ true }
    requires small_buffer { AreSmall (B.blocks buffer.now) }
    requires above { height_of (S.held stores.old).processed < height }
    ensures kept { OnOk result (OnlyStores (S.held stores.old) (S.held stores.new)) }
    ensures holds { OnOk result ((S.held stores.new).blocks.held ≡ with_found (S.held stores.old).blocks.held (of_height height
        (look_up (search_of V.inner (B.blocks buffer.now) (S.held stores.old)) (S.held stores.old).blocks.held
        (S.Finalization.plain finalization.now).payload))) }
    ensures runs { (life : Window) (standing : Standing) (told : Option (List Report))
        (sends : Option (List Sent)) (answers : List TicketAnswer)
        → DoesActs V.inner (fault_of V.Commitment.bytes) (certified_acts (at_height height (S.Finalization.plain finalization.now))
        (look_up (search_of V.inner (B.blocks buffer.now) (S.held stores.old)) (S.held stores.old).blocks.held (S.Finalization.plain finalization.now).payload))
        (scene (S.held stores.old) life standing (heard_with told (R.told resolver.old) sends answers))
        (scene (S.held stores.new) life standing (heard_with told (R.told resolver.new) sends answers)) result }
{
    let commitment = finalization.payload();
    stores.law();
    match block_at_hand::<V, S, B>(stores, commitment, buffer) {
        Ok(None) => request::<V, S, R>(stores, commitment, height, resolver),
        Ok(Some(block)) => fill_at::<V, S>(stores, height, block),
        Err(fault) => Err(fault),
    }
}

/// Stores the block of a held certificate, where it has its height. Its tip was told as that certificate was stored.
fn fill_at<V: Variant, S: HoldsGaps<V>>(
    stores: &mut S,
    height: Height,
    block: V::Block,
) -> Result<(), Fault<V::Commitment>>
    requires intact { (S.held stores.old).intact ≡ true }
    requires small_block { IsSmall (V.plain block).encoded }
    ensures kept { OnOk result (OnlyStores (S.held stores.old) (S.held stores.new)) }
    ensures holds { OnOk result ((S.held stores.new).blocks.held
        ≡ with_found (S.held stores.old).blocks.held (of_height height (Some (V.plain block)))) }
    ensures runs { (f : Finalization) (life : Window) (standing : Standing) (heard : Heard)
        → DoesActs V.inner (fault_of V.Commitment.bytes) (certified_acts (at_height height f) (Some (V.plain block)))
        (scene (S.held stores.old) life standing heard) (scene (S.held stores.new) life standing heard) result }
{
    let own = V::height(&block).get();
    if own == height.get() {
        put_alone::<V, S>(stores, block)
    } else {
        Ok(())
    }
}

/// The newest certificate, where it is above the processed height and above every held block.
fn certified_alone<V: Variant, S: HoldsGaps<V>>(
    stores: &mut S,
) -> Result<Option<(Height, S::Finalization)>, Fault<V::Commitment>>
    ensures same { OnOk result (S.held stores.new ≡ record (S.held stores.old) { watches = (S.held stores.new).watches }) }
    ensures found { IfOk result (λ r. option_map (entry_of S.Finalization.plain) r ≡ alone_in (S.held stores.old)) }
    ensures above { IfOk result (λ r. IfSome r (λ x. height_of (S.held stores.old).processed < x.0)) }
    ensures goes_on { GoesOn (fault_of V.Commitment.bytes) (S.held stores.old) nothing_written (S.held stores.new) result }
    ensures read { IfErr result (λ e. IsReadFault (fault_of V.Commitment.bytes e)) }
{
    match height_alone::<V, S>(stores) {
        None => Ok(None),
        Some(height) => certificate_alone::<V, S>(stores, height),
    }
}

/// The certificate that is held at the height of the newest one.
fn certificate_alone<V: Variant, S: HoldsGaps<V>>(
    stores: &mut S,
    height: Height,
) -> Result<Option<(Height, S::Finalization)>, Fault<V::Commitment>>
    requires alone { IsHeightAlone (S.held stores.old) height }
    ensures same { OnOk result (S.held stores.new ≡ record (S.held stores.old) { watches = (S.held stores.new).watches }) }
    ensures found { IfOk result (λ r. option_map (entry_of S.Finalization.plain) r ≡ alone_in (S.held stores.old)) }
    ensures above { IfOk result (λ r. IfSome r (λ x. height_of (S.held stores.old).processed < x.0)) }
    ensures goes_on { GoesOn (fault_of V.Commitment.bytes) (S.held stores.old) nothing_written (S.held stores.new) result }
    ensures read { IfErr result (λ e. IsReadFault (fault_of V.Commitment.bytes e)) }
{
    match stores.certificate_at(height) {
        Ok(None) => Ok(None),
        Ok(Some(finalization)) => Ok(Some((height, finalization))),
        Err(fault) => Err(fault),
    }
}

/// The greatest height of a held certificate, where it is above the processed height and above every held block.
fn height_alone<V: Variant, S: HoldsGaps<V>>(stores: &S) -> Option<Height>
    ensures found { IfSome result (λ h. IsHeightAlone (S.held stores.now) h) }
    ensures none { IfNone result (alone_in (S.held stores.now) ≡ None) }
{
    match stores.last_certificate() {
        None => None,
        Some(height) => {
            if is_alone::<V, S>(stores, height) {
                Some(height)
            } else {
                None
            }
        }
    }
}

/// Whether a height is above the processed one and above every held block.
fn is_alone<V: Variant, S: HoldsGaps<V>>(stores: &S, height: Height) -> bool
    ensures { result ≡ (nat_lt (height_of (S.held stores.now).processed) height && is_above_last (last_index (S.held stores.now).blocks.held) height) }
{
    stores.floor().is_above(height) && is_above_blocks::<V, S>(stores, height)
}

/// Whether a height is above that of every held block.
fn is_above_blocks<V: Variant, S: HoldsGaps<V>>(stores: &S, height: Height) -> bool
    ensures { result ≡ is_above_last (last_index (S.held stores.now).blocks.held) height }
{
    match stores.last_block() {
        Some(last) => last < height,
        None => true,
    }
}
