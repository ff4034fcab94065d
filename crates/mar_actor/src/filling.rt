//! Filling gaps, as the start of a life and a reported finalization do.
ghost use Rattle.std.specs.Prelude.{◌≡◌, ◌∷◌, [], List, OnOk, Option, true};
ghost use Rattle.mar_model.specs.Answers.{Sent, TicketAnswer};
ghost use Rattle.mar_model.specs.Promise.{heard_with};
ghost use Rattle.mar_model.specs.Ran.{Does, repairs};
ghost use Rattle.mar_model.specs.Scene.{Standing, scene};
ghost use Rattle.mar_model.specs.Stored.{AreSmall};
ghost use Rattle.mar_model.specs.Views.{fault_of};

use crate::life::Window;
use crate::reporter::Reporter;
use crate::telling::Telling;
use mar_block::{Buffer, Variant};
use mar_key::Resolver;
use mar_model::{Fault, HoldsGaps};
use mar_repair::repair;
use std::alloc::Global;

/// Fills gaps from the buffer and the cache, tells the application of tips among what was filled in, and asks for what is missing.
pub(crate) fn fill_gaps<V, S, B, R, A>(
    alloc: Global,
    stores: &mut S,
    window: &mut Window,
    buffer: &B,
    resolver: &mut R,
    application: &mut A,
) -> Result<(), Fault<V::Commitment>>
where
    V: Variant,
    S: HoldsGaps<V>,
    B: Buffer<V>,
    R: Resolver<V::Commitment>,
    A: Reporter<V>,
    requires intact { (S.held stores.old).intact ≡ true }
    requires small_buffer { AreSmall (B.blocks buffer.now) }
    ensures whole { OnOk result ((S.held stores.new).intact ≡ true) }
    ensures runs { (standing : Standing) (sends : Option (List Sent)) (answers : List TicketAnswer)
        → Does V.inner (fault_of V.Commitment.bytes) (repairs (B.blocks buffer.now) ∷ [])
        (scene (S.held stores.old) window.old standing (heard_with (A.told application.old) (R.told resolver.old) sends answers))
        (scene (S.held stores.new) window.new standing (heard_with (A.told application.new) (R.told resolver.new) sends answers)) result }
{
    let max_repair = window.max_repair();
    let mut telling = Telling {
        tip: &mut window.tip,
        application,
    };
    repair::<V, S, B, R, Telling<'_, A>>(alloc, stores, &mut telling, buffer, resolver, max_repair)
}
