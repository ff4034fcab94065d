//! What a pass asks for.
ghost use Rattle.std.specs.Prelude.{◌≡◌, ◌++◌, ◌+◌, ◌<◌, ◌∷◌, [], IfErr, IfOk, List, OnOk, Option, map, option_to_list, true};
ghost use Rattle.std.specs.List.{AllByRecursion};
ghost use Rattle.mar_key.specs.Processed.{height_of};
ghost use Rattle.mar_key.specs.Views.{call_of};
ghost use Rattle.mar_model.specs.Acts.{ask, says};
ghost use Rattle.mar_model.specs.Answers.{Sent, TicketAnswer};
ghost use Rattle.mar_model.specs.Held.{GoesOn, IsReadFault, nothing_written};
ghost use Rattle.mar_model.specs.Promise.{heard_with};
ghost use Rattle.mar_model.specs.Repair.{fetch_asks, gap_acts, gap_asks, parent_fetch, parent_wanted, search_of};
ghost use Rattle.mar_model.specs.Scene.{Standing, Window, scene};
ghost use Rattle.mar_model.specs.Step.{Report};
ghost use Rattle.mar_model.specs.Views.{fault_of};
ghost use Rattle.mar_repair.specs.Walk.{DoesActs};
ghost use Rattle.mar_repair.specs.Open.{IsOpen, by_height};
ghost use Rattle.mar_store.specs.Changes.{heights};
ghost use Rattle.mar_store.specs.Gaps.{missing_items};
ghost use Rattle.mar_store.specs.Ranges.{ranges};

use crate::wanted::{upper_height, wanted_parent};
use mar_cert::{Finds, Variant};
use mar_key::{Request, Resolver};
use mar_model::{Fault, HoldsGaps, block_at_hand};
use mar_types::{Height, Named};
use std::alloc::{AllocError, Global};

/// Asks for the block of a commitment at a height above the processed one.
pub(crate) fn request<V: Variant, S: HoldsGaps<V>, R: Resolver<V::Commitment>>(
    stores: &S,
    commitment: V::Commitment,
    height: Height,
    resolver: &mut R,
) -> Result<(), Fault<V::Commitment>>
    requires above { height_of (S.held stores.now).processed < height }
    ensures runs { (life : Window) (standing : Standing) (told : Option (List Report)) (sends : Option (List Sent)) (answers : List TicketAnswer)
        → DoesActs V.inner (fault_of V.Commitment.bytes)
        (says (ask (parent_fetch (record { height = height; value = V.Commitment.bytes commitment }) ∷ [])) ∷ [])
        (scene (S.held stores.now) life standing (heard_with told (R.told resolver.old) sends answers))
        (scene (S.held stores.now) life standing (heard_with told (R.told resolver.new) sends answers)) result }
{
    let request = Request::finalized_by_height(commitment, height);
    match stores.floor().fetch_if_permitted(resolver, request) {
        Ok(_admission) => Ok(()),
        Err(_) => Err(Fault::Memory),
    }
}

/// Asks for the parent that is wanted, where it isn't at hand, and for the lowest missing heights, at most so many.
pub(crate) fn ask_missing<V, S, B, R>(
    alloc: Global,
    stores: &mut S,
    buffer: &B,
    resolver: &mut R,
    most: usize,
) -> Result<(), Fault<V::Commitment>>
where
    V: Variant,
    S: HoldsGaps<V>,
    B: Finds<V>,
    R: Resolver<V::Commitment>,
    requires intact { (S.held stores.old).intact ≡ true }
    ensures same { OnOk result (S.held stores.new ≡ record (S.held stores.old) { watches = (S.held stores.new).watches }) }
    ensures runs { (life : Window) (standing : Standing) (told : Option (List Report)) (sends : Option (List Sent)) (answers : List TicketAnswer)
        → DoesActs V.inner (fault_of V.Commitment.bytes)
        (gap_acts (search_of V.inner (B.blocks buffer.now) (S.held stores.old)) most (S.held stores.old).blocks.held)
        (scene (S.held stores.old) life standing (heard_with told (R.told resolver.old) sends answers))
        (scene (S.held stores.new) life standing (heard_with told (R.told resolver.new) sends answers)) result }
{
    match gap_requests::<V, S, B>(alloc, stores, buffer, most) {
        Ok(requests) => request_all::<V, S, R>(alloc, stores, requests.as_slice(), resolver),
        Err(fault) => Err(fault),
    }
}

/// Issues requests that are for heights above the processed one, in order.
fn request_all<V: Variant, S: HoldsGaps<V>, R: Resolver<V::Commitment>>(
    alloc: Global,
    stores: &S,
    requests: &[Request<V::Commitment>],
    resolver: &mut R,
) -> Result<(), Fault<V::Commitment>>
    requires live { AllByRecursion (IsOpen (height_of (S.held stores.now).processed)) requests.now }
    ensures runs { (life : Window) (standing : Standing) (told : Option (List Report)) (sends : Option (List Sent)) (answers : List TicketAnswer)
        → DoesActs V.inner (fault_of V.Commitment.bytes) (says (ask (map (call_of V.Commitment.bytes) requests.now)) ∷ [])
        (scene (S.held stores.now) life standing (heard_with told (R.told resolver.old) sends answers))
        (scene (S.held stores.now) life standing (heard_with told (R.told resolver.new) sends answers)) result }
{
    match stores
        .floor()
        .fetch_all_if_permitted(alloc, resolver, requests)
    {
        Ok(_admission) => Ok(()),
        Err(_) => Err(Fault::Memory),
    }
}

/// What is asked for, in order.
fn gap_requests<V: Variant, S: HoldsGaps<V>, B: Finds<V>>(
    alloc: Global,
    stores: &mut S,
    buffer: &B,
    most: usize,
) -> Result<Vec<Request<V::Commitment>>, Fault<V::Commitment>>
    requires intact { (S.held stores.old).intact ≡ true }
    ensures same { OnOk result (S.held stores.new ≡ record (S.held stores.old) { watches = (S.held stores.new).watches }) }
    ensures are { IfOk result (λ r. map (call_of V.Commitment.bytes) r.items
        ≡ gap_asks (search_of V.inner (B.blocks buffer.now) (S.held stores.old)) most (S.held stores.old).blocks.held) }
    ensures live { IfOk result (λ r. AllByRecursion (IsOpen (height_of (S.held stores.old).processed)) r.items) }
    ensures goes_on { GoesOn (fault_of V.Commitment.bytes) (S.held stores.old) nothing_written (S.held stores.new) result }
    ensures read { IfErr result (λ e. IsReadFault (fault_of V.Commitment.bytes e)) }
{
    let parent = parent_request::<V, S, B>(stores, buffer)?;
    match gather::<V, S>(alloc, stores, parent, most) {
        Ok(requests) => Ok(requests),
        Err(_) => Err(Fault::Memory),
    }
}

/// A request for a block, where there is one, and then those for the finalizations of the lowest missing heights.
fn gather<V: Variant, S: HoldsGaps<V>>(
    alloc: Global,
    stores: &S,
    block: Option<Request<V::Commitment>>,
    most: usize,
) -> Result<Vec<Request<V::Commitment>>, AllocError>
    ensures { (S.held stores.now).intact ≡ true → IfOk result (λ v. v.items ≡ option_to_list block ++ map by_height
        (missing_items (ranges (heights (S.held stores.now).blocks.held)) (height_of (S.held stores.now).processed + 1) most)) }
{
    let missing = missing_heights::<V, S>(alloc, stores, most)?;
    requests_of(alloc, block, missing.as_slice())
}

/// The request for the parent that is wanted, where that isn't at hand.
fn parent_request<V: Variant, S: HoldsGaps<V>, B: Finds<V>>(
    stores: &mut S,
    buffer: &B,
) -> Result<Option<Request<V::Commitment>>, Fault<V::Commitment>>
    requires intact { (S.held stores.old).intact ≡ true }
    ensures same { OnOk result (S.held stores.new ≡ record (S.held stores.old) { watches = (S.held stores.new).watches }) }
    ensures is { IfOk result (λ r. map (call_of V.Commitment.bytes) (option_to_list r)
        ≡ fetch_asks (search_of V.inner (B.blocks buffer.now) (S.held stores.old)) (S.held stores.old).blocks.held
        (parent_wanted (height_of (S.held stores.old).processed + 1) (S.held stores.old).blocks.held)) }
    ensures live { IfOk result (λ r. AllByRecursion (IsOpen (height_of (S.held stores.old).processed)) (option_to_list r)) }
    ensures goes_on { GoesOn (fault_of V.Commitment.bytes) (S.held stores.old) nothing_written (S.held stores.new) result }
    ensures read { IfErr result (λ e. IsReadFault (fault_of V.Commitment.bytes e)) }
{
    let Some(wanted) = wanted_parent::<V, S>(stores)? else {
        return Ok(None);
    };
    if block_at_hand::<V, S, B>(stores, wanted.commitment, buffer)?.is_some() {
        return Ok(None);
    }
    Ok(Some(Request::finalized_by_height(wanted.commitment, wanted.height)))
}

/// The lowest missing heights, at most so many.
fn missing_heights<V: Variant, S: HoldsGaps<V>>(
    alloc: Global,
    stores: &S,
    most: usize,
) -> Result<Vec<Height>, AllocError>
    ensures { (S.held stores.now).intact ≡ true → IfOk result (λ v. v.items
        ≡ missing_items (ranges (heights (S.held stores.now).blocks.held)) (height_of (S.held stores.now).processed + 1) most) }
{
    match upper_height::<V, S>(stores) {
        None => Ok(Vec::new(alloc)),
        Some(_upper) => {
            let processed = stores.floor().processed_height().get();
            let from = Height::new(processed.saturating_add(1));
            stores.blocks_held().missing_items(alloc, from, most)
        }
    }
}

/// A request for a block, where there is one, and then those for finalizations at heights.
fn requests_of<C: Named>(
    alloc: Global,
    block: Option<Request<C>>,
    missing: &[Height],
) -> Result<Vec<Request<C>>, AllocError>
    ensures { IfOk result (λ v. v.items ≡ option_to_list block ++ map by_height missing.now) }
{
    let mut requests = first_request(alloc, block)?;
    for height in missing {
        requests.push(Request::finalized(*height))?;
    }
    Ok(requests)
}

/// A request, where there is one.
fn first_request<C: Named>(
    alloc: Global,
    block: Option<Request<C>>,
) -> Result<Vec<Request<C>>, AllocError>
    ensures { IfOk result (λ v. v.items ≡ option_to_list block) }
{
    let mut requests = Vec::new(alloc);
    match block {
        None => Ok(requests),
        Some(block) => {
            requests.push(block)?;
            Ok(requests)
        }
    }
}
