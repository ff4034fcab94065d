//! A pass of repair.
ghost use Rattle.std.specs.Prelude.{◌≡◌, ◌∷◌, [], List, OnOk, Option, true};
ghost use Rattle.mar_model.specs.Answers.{Sent, TicketAnswer};
ghost use Rattle.mar_model.specs.Promise.{heard_with};
ghost use Rattle.mar_model.specs.Ran.{Does, repairs};
ghost use Rattle.mar_model.specs.Scene.{Standing, Window};
ghost use Rattle.mar_model.specs.Stored.{AreSmall};
ghost use Rattle.mar_model.specs.Views.{fault_of};
ghost use Rattle.mar_repair.specs.Walk.{at_tip};

use crate::asking::ask_missing;
use crate::newest::fill_newest;
use crate::tips::Tips;
use crate::walking::fill_gaps;
use mar_cert::{Finds, Variant};
use mar_key::Resolver;
use mar_model::{Fault, HoldsGaps};
use std::alloc::Global;

/// Fills gaps above the processed height from the buffer and the cache, and asks for what is still missing. First the block of
/// the newest certificate is stored or asked for, where that is above every held block. Then the parent that the block right above
/// the lowest gap names is stored with its cached finalization, and so on, until one isn't at hand at its height or isn't taken in.
/// That one is asked for where it isn't at hand, and the finalizations of at most `max_repair` of the lowest missing heights. What
/// was stored waits for a sync. A call that fails ends the life.
pub fn repair<V, S, B, R, T>(
    alloc: Global,
    stores: &mut S,
    tips: &mut T,
    buffer: &B,
    resolver: &mut R,
    max_repair: usize,
) -> Result<(), Fault<V::Commitment>>
where
    V: Variant,
    S: HoldsGaps<V>,
    B: Finds<V>,
    R: Resolver<V::Commitment>,
    T: Tips<V>,
    requires intact { (S.held stores.old).intact ≡ true }
    requires small_buffer { AreSmall (B.blocks buffer.now) }
    ensures lent { T.lent tips.new ≡ T.lent tips.old }
    ensures whole { OnOk result ((S.held stores.new).intact ≡ true) }
    ensures runs { (life : Window) (standing : Standing) (sends : Option (List Sent)) (answers : List TicketAnswer) → life.sizes.max_repair ≡ max_repair
        → Does V.inner (fault_of V.Commitment.bytes) (repairs (B.blocks buffer.now) ∷ [])
        (at_tip (S.held stores.old) life (T.last tips.old) standing (heard_with (T.told tips.old) (R.told resolver.old) sends answers))
        (at_tip (S.held stores.new) life (T.last tips.new) standing (heard_with (T.told tips.new) (R.told resolver.new) sends answers)) result }
{
    match fill_newest::<V, S, B, R>(stores, buffer, resolver) {
        Ok(()) => {}
        Err(fault) => return Err(fault),
    }
    let walked = fill_gaps::<V, S, B, T>(stores, tips, buffer);
    match walked {
        Ok(()) => {}
        Err(fault) => return Err(fault),
    }
    ask_missing::<V, S, B, R>(alloc, stores, buffer, resolver, max_repair)
}
