//! Finalizations that some peers are said to hold. A call that fails ends the life.
ghost use Rattle.std.specs.Prelude.{◌≡◌, ◌∷◌, [], IfOk, List, Option, Some};
ghost use Rattle.mar_key.specs.Keys.{finalized_by_height, finalized_key};
ghost use Rattle.mar_model.specs.Acts.{ask, says};
ghost use Rattle.mar_model.specs.Answers.{Sent, TicketAnswer};
ghost use Rattle.mar_model.specs.Plans.{hint_plan};
ghost use Rattle.mar_model.specs.Promise.{heard_with};
ghost use Rattle.mar_model.specs.Ran.{Does, does};
ghost use Rattle.mar_model.specs.Requests.{height_asks};
ghost use Rattle.mar_model.specs.Scene.{Standing, Window, scene};
ghost use Rattle.mar_model.specs.Step.{Report};
ghost use Rattle.mar_model.specs.Views.{fault_of};

use mar_cert::Variant;
use mar_key::{Request, TargetedResolver};
use mar_model::{Fault, Holds};
use mar_types::{Height, Participant};
use std::alloc::{AllocError, Global};

/// Asks these peers for the finalization at a height, unless it is held or the height is processed.
pub fn hint<V: Variant, S: Holds<V>, R: TargetedResolver<V::Commitment>>(
    alloc: Global,
    stores: &mut S,
    height: Height,
    targets: &[Participant],
    resolver: &mut R,
) -> Result<(), Fault<V::Commitment>>
    ensures runs { (life : Window) (standing : Standing) (told : Option (List Report)) (sends : Option (List Sent)) (answers : List TicketAnswer)
        → Does V.inner (fault_of V.Commitment.bytes) (hint_plan (S.held stores.old) height targets.now)
        (scene (S.held stores.old) life standing (heard_with told (R.told resolver.old) sends answers))
        (scene (S.held stores.new) life standing (heard_with told (R.told resolver.new) sends answers)) result }
{
    match stores.has_certificate(height) {
        Ok(true) => Ok(()),
        Ok(false) => ask_targets::<V, S, R>(alloc, stores, height, targets, resolver),
        Err(fault) => Err(fault),
    }
}

// Issues that request.
fn ask_targets<V: Variant, S: Holds<V>, R: TargetedResolver<V::Commitment>>(
    alloc: Global,
    stores: &S,
    height: Height,
    targets: &[Participant],
    resolver: &mut R,
) -> Result<(), Fault<V::Commitment>>
    ensures runs { (life : Window) (standing : Standing) (told : Option (List Report)) (sends : Option (List Sent)) (answers : List TicketAnswer)
        → Does V.inner (fault_of V.Commitment.bytes)
        (does (says (ask (height_asks (S.held stores.now).processed (finalized_key height) (finalized_by_height height) height (Some targets.now)))) ∷ [])
        (scene (S.held stores.now) life standing (heard_with told (R.told resolver.old) sends answers))
        (scene (S.held stores.now) life standing (heard_with told (R.told resolver.new) sends answers)) result }
{
    let Ok(places) = places_of(alloc, targets) else {
        return Err(Fault::Memory);
    };
    let request = Request::finalized(height);
    match stores
        .floor()
        .fetch_targeted_if_permitted(resolver, request, places.as_slice())
    {
        Ok(_admission) => Ok(()),
        Err(_) => Err(Fault::Memory),
    }
}

// The places of these members in their committee.
fn places_of(alloc: Global, members: &[Participant]) -> Result<Vec<u32>, AllocError>
    ensures { IfOk result (λ places. places.items ≡ members.now) }
{
    let mut places = Vec::new(alloc);
    for member in members {
        places.push(member.get())?;
    }
    Ok(places)
}
