//! The walk back through the gaps, the lowest first.
ghost use Rattle.std.specs.Prelude.{◌≡◌, ◌<◌, ◌^◌, IfOk, List, OnOk, Option, false, true};
ghost use Rattle.mar_key.specs.Keys.{Call};
ghost use Rattle.mar_model.specs.Answers.{Sent, TicketAnswer};
ghost use Rattle.mar_model.specs.Promise.{heard_with};
ghost use Rattle.mar_model.specs.Repair.{EndsFills, cached_for, fill_acts, search_of, with_fill};
ghost use Rattle.mar_model.specs.Scene.{Standing, Window};
ghost use Rattle.mar_model.specs.Stored.{AreSmall};
ghost use Rattle.mar_model.specs.Views.{fault_of};
ghost use Rattle.mar_store.specs.Kept.{has_height};
ghost use Rattle.mar_store.specs.Sizes.{IsSmall};
ghost use Rattle.mar_repair.specs.Walk.{DoesActs, OnlyStores, WalksOn, at_tip, unheld};

use crate::filling::fill;
use crate::tips::Tips;
use crate::wanted::next_fill;
use mar_cert::{Finds, Variant};
use mar_model::{Fault, HoldsGaps};

/// Fills in the parent that is wanted, and then the next one, until one isn't found or isn't stored.
pub(crate) fn fill_gaps<V: Variant, S: HoldsGaps<V>, B: Finds<V>, T: Tips<V>>(
    stores: &mut S,
    tips: &mut T,
    buffer: &B,
) -> Result<(), Fault<V::Commitment>>
    requires intact { (S.held stores.old).intact ≡ true }
    requires small_buffer { AreSmall (B.blocks buffer.now) }
    ensures lent { T.lent tips.new ≡ T.lent tips.old }
    ensures kept { OnOk result (OnlyStores (S.held stores.old) (S.held stores.new)) }
    ensures ends { OnOk result (EndsFills (search_of V.inner (B.blocks buffer.now) (S.held stores.old)) (S.held stores.new).blocks.held) }
    ensures runs { (life : Window) (standing : Standing) (asks : Option (List Call)) (sends : Option (List Sent)) (answers : List TicketAnswer)
        → WalksOn V.inner (fault_of V.Commitment.bytes) (B.blocks buffer.now)
        (at_tip (S.held stores.old) life (T.last tips.old) standing (heard_with (T.told tips.old) asks sends answers))
        (at_tip (S.held stores.new) life (T.last tips.new) standing (heard_with (T.told tips.new) asks sends answers)) result }
{
    'walk: loop {
        match fill_next::<V, S, B, T>(stores, tips, buffer) {
            Ok(true) => {}
            Ok(false) => return Ok(()),
            Err(fault) => return Err(fault),
        }
    }
}

/// Fills in the parent that is wanted, where it is at hand at its height, and says whether it is held now.
fn fill_next<V: Variant, S: HoldsGaps<V>, B: Finds<V>, T: Tips<V>>(
    stores: &mut S,
    tips: &mut T,
    buffer: &B,
) -> Result<bool, Fault<V::Commitment>>
    requires intact { (S.held stores.old).intact ≡ true }
    requires small_buffer { AreSmall (B.blocks buffer.now) }
    ensures lent { T.lent tips.new ≡ T.lent tips.old }
    ensures kept { OnOk result (OnlyStores (S.held stores.old) (S.held stores.new)) }
    ensures ends { IfOk result (λ r. r ≡ false → EndsFills (search_of V.inner (B.blocks buffer.now) (S.held stores.old)) (S.held stores.new).blocks.held) }
    ensures falls { IfOk result (λ r. r ≡ true → unheld (2 ^ 64) (S.held stores.new).blocks.held < unheld (2 ^ 64) (S.held stores.old).blocks.held) }
    ensures runs { (life : Window) (standing : Standing) (asks : Option (List Call)) (sends : Option (List Sent)) (answers : List TicketAnswer)
        → WalksOn V.inner (fault_of V.Commitment.bytes) (B.blocks buffer.now)
        (at_tip (S.held stores.old) life (T.last tips.old) standing (heard_with (T.told tips.old) asks sends answers))
        (at_tip (S.held stores.new) life (T.last tips.new) standing (heard_with (T.told tips.new) asks sends answers)) result }
{
    stores.law();
    match next_fill::<V, S, B>(stores, buffer) {
        Ok(None) => Ok(false),
        Ok(Some(block)) => fill_found::<V, S, T>(stores, tips, block),
        Err(fault) => Err(fault),
    }
}

/// Stores a block that was found, and says whether one is held at its height now.
fn fill_found<V: Variant, S: HoldsGaps<V>, T: Tips<V>>(
    stores: &mut S,
    tips: &mut T,
    block: V::Block,
) -> Result<bool, Fault<V::Commitment>>
    requires intact { (S.held stores.old).intact ≡ true }
    requires small_block { IsSmall (V.plain block).encoded }
    ensures lent { T.lent tips.new ≡ T.lent tips.old }
    ensures kept { OnOk result (OnlyStores (S.held stores.old) (S.held stores.new)) }
    ensures holds { OnOk result ((S.held stores.new).blocks.held ≡ with_fill (S.held stores.old).blocks.held (V.plain block)) }
    ensures has { IfOk result (λ r. r ≡ has_height (S.held stores.new).blocks.held (V.plain block).height) }
    ensures below { (V.plain block).height < 2 ^ 64 }
    ensures runs { (life : Window) (standing : Standing) (asks : Option (List Call)) (sends : Option (List Sent)) (answers : List TicketAnswer)
        → DoesActs V.inner (fault_of V.Commitment.bytes)
        (fill_acts (cached_for V.inner (S.held stores.old).cache.kept.held (V.plain block).commitment) (V.plain block))
        (at_tip (S.held stores.old) life (T.last tips.old) standing (heard_with (T.told tips.old) asks sends answers))
        (at_tip (S.held stores.new) life (T.last tips.new) standing (heard_with (T.told tips.new) asks sends answers)) result }
{
    let height = V::height(&block).get();
    match fill::<V, S, T>(stores, tips, block) {
        Ok(()) => Ok(is_held::<V, S>(stores, height)),
        Err(fault) => Err(fault),
    }
}

/// Whether a block is held at a height.
fn is_held<V: Variant, S: HoldsGaps<V>>(stores: &S, height: u64) -> bool
    ensures { (S.held stores.now).intact ≡ true → result ≡ has_height (S.held stores.now).blocks.held height }
{
    stores.blocks_held().contains(height)
}
