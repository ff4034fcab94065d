//! How a block that a pass found is stored, and told where it is a tip. A call that fails ends the life.
ghost use Rattle.std.specs.Prelude.{◌≡◌, ◌∷◌, [], IfErr, List, None, OnOk, Option, Some, true};
ghost use Rattle.mar_cert.specs.Finalization.{finalization_bytes};
ghost use Rattle.mar_key.specs.Keys.{Call};
ghost use Rattle.mar_store.specs.Sizes.{IsSmall};
ghost use Rattle.mar_model.specs.Acts.{says, tell};
ghost use Rattle.mar_model.specs.Answers.{Sent, TicketAnswer};
ghost use Rattle.mar_model.specs.Held.{GoesOn, Held, IsArchiveFault, written_both};
ghost use Rattle.mar_model.specs.Moves.{at_height};
ghost use Rattle.mar_model.specs.Promise.{Heard, heard_with};
ghost use Rattle.mar_model.specs.Repair.{cached_for, fill_acts, with_fill};
ghost use Rattle.mar_model.specs.Scene.{Standing, Window, scene};
ghost use Rattle.mar_model.specs.Stored.{at_own_height, is_certified, is_held};
ghost use Rattle.mar_model.specs.Views.{fault_of};
ghost use Rattle.mar_model.specs.Writing.{IsOrdered, with_write};
ghost use Rattle.mar_store.specs.Changes.{Puts};
ghost use Rattle.mar_repair.specs.Walk.{DoesActs, OnlyStores, at_tip};

use crate::tips::Tips;
use mar_cert::{AsFinalization, Variant};
use mar_model::{Fault, HoldsGaps};
use mar_types::{Height, Round};

/// Stores a block with its cached finalization, and tells it then; or alone, where none is cached.
pub(crate) fn fill<V: Variant, S: HoldsGaps<V>, T: Tips<V>>(
    stores: &mut S,
    tips: &mut T,
    block: V::Block,
) -> Result<(), Fault<V::Commitment>>
    requires intact { (S.held stores.old).intact ≡ true }
    requires small_block { IsSmall (V.plain block).encoded }
    ensures lent { T.lent tips.new ≡ T.lent tips.old }
    ensures kept { OnOk result (OnlyStores (S.held stores.old) (S.held stores.new)) }
    ensures holds { OnOk result ((S.held stores.new).blocks.held ≡ with_fill (S.held stores.old).blocks.held (V.plain block)) }
    ensures runs { (life : Window) (standing : Standing) (asks : Option (List Call)) (sends : Option (List Sent)) (answers : List TicketAnswer)
        → DoesActs V.inner (fault_of V.Commitment.bytes)
        (fill_acts (cached_for V.inner (S.held stores.old).cache.kept.held (V.plain block).commitment) (V.plain block))
        (at_tip (S.held stores.old) life (T.last tips.old) standing (heard_with (T.told tips.old) asks sends answers))
        (at_tip (S.held stores.new) life (T.last tips.new) standing (heard_with (T.told tips.new) asks sends answers)) result }
{
    stores.law();
    match stores.cached_finalization(V::commitment(&block)) {
        Ok(None) => put_alone::<V, S>(stores, block),
        Ok(Some(finalization)) => put_known::<V, S, T>(stores, tips, &finalization, block),
        Err(fault) => Err(fault),
    }
}

/// Stores a block alone.
pub(crate) fn put_alone<V: Variant, S: HoldsGaps<V>>(
    stores: &mut S,
    block: V::Block,
) -> Result<(), Fault<V::Commitment>>
    requires intact { (S.held stores.old).intact ≡ true }
    requires small_block { IsSmall (V.plain block).encoded }
    ensures kept { OnOk result (OnlyStores (S.held stores.old) (S.held stores.new)) }
    ensures holds { OnOk result ((S.held stores.new).blocks.held ≡ with_fill (S.held stores.old).blocks.held (V.plain block)) }
    ensures runs { (life : Window) (standing : Standing) (heard : Heard) → DoesActs V.inner (fault_of V.Commitment.bytes) (fill_acts None (V.plain block))
        (scene (S.held stores.old) life standing heard) (scene (S.held stores.new) life standing heard) result }
{
    let put = stores.put_block(block);
    stores.law();
    put
}

/// Stores a block with its finalization, and tells it.
fn put_known<V: Variant, S: HoldsGaps<V>, T: Tips<V>>(
    stores: &mut S,
    tips: &mut T,
    finalization: &S::Finalization,
    block: V::Block,
) -> Result<(), Fault<V::Commitment>>
    requires intact { (S.held stores.old).intact ≡ true }
    requires small { IsSmall (finalization_bytes (S.Finalization.plain finalization.now)) }
    requires small_block { IsSmall (V.plain block).encoded }
    requires ordered { IsOrdered (S.held stores.old).writes }
    ensures lent { T.lent tips.new ≡ T.lent tips.old }
    ensures kept { OnOk result (OnlyStores (S.held stores.old) (S.held stores.new)) }
    ensures holds { OnOk result ((S.held stores.new).blocks.held ≡ with_fill (S.held stores.old).blocks.held (V.plain block)) }
    ensures runs { (life : Window) (standing : Standing) (asks : Option (List Call)) (sends : Option (List Sent)) (answers : List TicketAnswer)
        → DoesActs V.inner (fault_of V.Commitment.bytes) (fill_acts (Some (S.Finalization.plain finalization.now)) (V.plain block))
        (at_tip (S.held stores.old) life (T.last tips.old) standing (heard_with (T.told tips.old) asks sends answers))
        (at_tip (S.held stores.new) life (T.last tips.new) standing (heard_with (T.told tips.new) asks sends answers)) result }
{
    let height = V::height(&block);
    let digest = V::digest(&block);
    let put = put_both::<V, S>(stores, finalization, block);
    stores.law();
    match put {
        Ok(()) => tell::<V, T>(tips, finalization.round(), height, digest),
        Err(fault) => Err(fault),
    }
}

// Puts a block, and then its finalization, which joins its write.
fn put_both<V: Variant, S: HoldsGaps<V>>(
    stores: &mut S,
    finalization: &S::Finalization,
    block: V::Block,
) -> Result<(), Fault<V::Commitment>>
    requires small { IsSmall (finalization_bytes (S.Finalization.plain finalization.now)) }
    requires small_block { IsSmall (V.plain block).encoded }
    requires ordered { IsOrdered (S.held stores.old).writes }
    ensures blocks { OnOk result (Puts (is_held (S.held stores.old).blocks.held (V.plain block)) (S.held stores.old).blocks
        (at_own_height (V.plain block)) (S.held stores.new).blocks) }
    ensures certs { OnOk result (Puts (is_certified V.inner (S.held stores.old).certs.held (V.plain block).height
        (V.inner (S.Finalization.plain finalization.now).payload)) (S.held stores.old).certs (at_height (V.plain block).height
        (S.Finalization.plain finalization.now)) (S.held stores.new).certs) }
    ensures same { OnOk result (S.held stores.new ≡ record (S.held stores.old) {
      blocks = (S.held stores.new).blocks;
      certs = (S.held stores.new).certs;
      writes = with_write (V.plain block).height (S.held stores.old).writes;
      watches = (S.held stores.new).watches;
    }) }
    ensures goes_on { GoesOn (fault_of V.Commitment.bytes) (S.held stores.old) (written_both (at_own_height (V.plain block))
        (at_height (V.plain block).height (S.Finalization.plain finalization.now))) (S.held stores.new) result }
    ensures archive { IfErr result (λ e. IsArchiveFault (fault_of V.Commitment.bytes e)) }
{
    let height = V::height(&block);
    stores.put_block(block)?;
    stores.put_certificate(height, finalization)
}

/// Tells a finalized block, where it is above the last tip.
fn tell<V: Variant, T: Tips<V>>(
    tips: &mut T,
    round: Round,
    height: Height,
    digest: V::Digest,
) -> Result<(), Fault<V::Commitment>>
    ensures lent { T.lent tips.new ≡ T.lent tips.old }
    ensures runs { (held : Held) (life : Window) (standing : Standing) (asks : Option (List Call)) (sends : Option (List Sent)) (answers : List TicketAnswer)
        → DoesActs V.inner (fault_of V.Commitment.bytes) (says (tell round height (V.Digest.bytes digest)) ∷ [])
        (at_tip held life (T.last tips.old) standing (heard_with (T.told tips.old) asks sends answers))
        (at_tip held life (T.last tips.new) standing (heard_with (T.told tips.new) asks sends answers)) result }
{
    match tips.tip(round, height, digest) {
        Ok(()) => Ok(()),
        Err(_) => Err(Fault::Memory),
    }
}
