//! Calls of archives in their places: each makes one call of the store that is there, and where that failed leaves what
//! is left of the store in its place.
ghost use Rattle.std.specs.Prelude.{◌≡◌, ◌∷◌, [], IfErr, IfOk, OnErr, OnOk, true};
ghost use Rattle.mar_cert.specs.Finalization.{finalization_bytes};
ghost use Rattle.mar_store.specs.Changes.{Puts, Syncs, heights, left_of};
ghost use Rattle.mar_store.specs.Lost.{wreck_of};
ghost use Rattle.mar_store.specs.Named.{last_index};
ghost use Rattle.mar_store.specs.Ranges.{ranges};
ghost use Rattle.mar_store.specs.Sizes.{IsSmall};
ghost use Rattle.mar_store.specs.Watch.{armed};
ghost use Rattle.mar_model.specs.Faults.{block_store, cert_store};
ghost use Rattle.mar_model.specs.Held.{Passes, lost_fault};
ghost use Rattle.mar_model.specs.Moves.{at_height};
ghost use Rattle.mar_model.specs.Places.{is_open, is_there, kept_at, watch_at};
ghost use Rattle.mar_model.specs.Stored.{at_own_height, is_certified, is_held};
ghost use Rattle.mar_model.specs.declared.place.Place.TheVariants.{Lost as Gone};
ghost use Rattle.mar_model.specs.Staged.{is_taken_in};
ghost use Rattle.mar_life.specs.Pooling.{FailsIn, FinishesIn, IsAnswer, IsGivenIn, IsLeftIn, IsReadIn, StartsIn, StaysIn};
ghost use Rattle.mar_model.specs.Views.{fault_of, store_name_of};

use crate::keeps::Keeps;
use crate::{Blocks, Certificates};
use mar_block::Variant;
use mar_cert::CommitsTo;
use mar_model::{Fault, Place, StoreName};
use mar_store::{ArchiveRuin, Lost, Miss, RangeSet, SyncTicket};
use mar_types::{Height, Named};
use std::alloc::AllocError;

/// Makes all values durable that were put.
pub fn sync<T, S: Keeps<T>, C: Named>(
    place: &mut Place<S, S::Wreck>,
    store: StoreName,
) -> Result<(), Fault<C>>
    ensures done { OnOk result (Syncs (kept_at S.stored S.Wreck.left place.old) (kept_at S.stored S.Wreck.left place.new)) }
    ensures stays { OnOk result (StaysIn S.stored S.number S.covers place.old place.new) }
    ensures passed { OnOk result (Passes (watch_at S.watch S.Wreck.watch place.old) (watch_at S.watch S.Wreck.watch place.new)) }
    ensures left { OnErr result (IsLeftIn place.old place.new) }
    ensures failed { IfErr result (λ e. FailsIn (store_name_of store) S.stored S.Wreck.left S.watch S.Wreck.watch [] place.old place.new
        (fault_of C.bytes e)) }
{
    let Some(kept) = place.take() else {
        return Err(Fault::Memory);
    };
    match kept.sync() {
        Ok(kept) => {
            *place = Place::Open(kept);
            Ok(())
        }
        Err(lost) => Err(lose(place, lost, store)),
    }
}

/// Starts a sync, under a ticket of the store.
pub fn start<T, S: Keeps<T>, C: Named>(
    place: &mut Place<S, S::Wreck>,
    store: StoreName,
) -> Result<SyncTicket, Fault<C>>
    ensures done { IfOk result (λ t. StartsIn S.stored S.number S.covers t.number place.old place.new) }
    ensures stays { OnOk result (StaysIn S.stored S.number S.covers place.old place.new) }
    ensures passed { OnOk result (Passes (watch_at S.watch S.Wreck.watch place.old) (watch_at S.watch S.Wreck.watch place.new)) }
    ensures left { OnErr result (IsLeftIn place.old place.new) }
    ensures failed { IfErr result (λ e. FailsIn (store_name_of store) S.stored S.Wreck.left S.watch S.Wreck.watch [] place.old place.new
        (fault_of C.bytes e)) }
{
    let Some(kept) = place.take() else {
        return Err(Fault::Memory);
    };
    match kept.start_sync() {
        Ok((kept, ticket)) => {
            *place = Place::Open(kept);
            Ok(ticket)
        }
        Err(lost) => Err(lose(place, lost, store)),
    }
}

/// Finishes the sync of a ticket that the store gave.
pub fn finish<T, S: Keeps<T>, C: Named>(
    place: &mut Place<S, S::Wreck>,
    ticket: SyncTicket,
    store: StoreName,
) -> Result<(), Fault<C>>
    requires given { IsGivenIn S.number ticket.number place.old }
    ensures done { OnOk result (FinishesIn S.stored S.covers ticket.number place.old place.new) }
    ensures stays { OnOk result (StaysIn S.stored S.number S.covers place.old place.new) }
    ensures passed { OnOk result (Passes (watch_at S.watch S.Wreck.watch place.old) (watch_at S.watch S.Wreck.watch place.new)) }
    ensures left { OnErr result (IsLeftIn place.old place.new) }
    ensures failed { IfErr result (λ e. FailsIn (store_name_of store) S.stored S.Wreck.left S.watch S.Wreck.watch [] place.old place.new
        (fault_of C.bytes e)) }
{
    let Some(kept) = place.take() else {
        return Err(Fault::Memory);
    };
    match kept.finish(ticket) {
        Ok(kept) => {
            *place = Place::Open(kept);
            Ok(())
        }
        Err(lost) => Err(lose(place, lost, store)),
    }
}

/// Makes a counted call fail of the store, or of what is left of it.
pub fn arm<T, S: Keeps<T>>(place: &mut Place<S, S::Wreck>, calls: u64) -> Result<(), AllocError>
    requires { is_there place.old ≡ true }
    ensures armed { OnOk result (watch_at S.watch S.Wreck.watch place.new ≡ armed calls (watch_at S.watch S.Wreck.watch place.old)) }
    ensures unarmed { OnErr result (watch_at S.watch S.Wreck.watch place.new ≡ watch_at S.watch S.Wreck.watch place.old) }
    ensures read { IsReadIn S.stored S.number S.covers S.Wreck.left place.old place.new }
{
    match place {
        Place::Open(kept) => kept.arm(calls),
        Place::Lost(wreck) => wreck.arm(calls),
        Place::Away => unreachable!(),
    }
}

/// What a crash now leaves.
pub fn left<T, S: Keeps<T>>(place: Place<S, S::Wreck>) -> S::Wreck
    requires { is_there place ≡ true }
    ensures left { S.Wreck.left result ≡ left_of (kept_at S.stored S.Wreck.left place) }
    ensures watch { S.Wreck.watch result ≡ watch_at S.watch S.Wreck.watch place }
{
    match place {
        Place::Open(kept) => kept.wreck(),
        Place::Lost(wreck) => wreck,
        Place::Away => unreachable!(),
    }
}

/// The greatest height that is held.
pub fn last<T, S: Keeps<T>>(place: &Place<S, S::Wreck>) -> Option<Height>
    ensures { result ≡ last_index (kept_at S.stored S.Wreck.left place.now).held }
{
    match place {
        Place::Open(kept) => kept.last_index(),
        _lost => None,
    }
}

/// The heights of what is held, where the store is there.
pub fn held<T, S: Keeps<T>>(place: &Place<S, S::Wreck>) -> &RangeSet
    requires { is_there place.now ≡ true }
    ensures { is_open place.now ≡ true → result.now ≡ ranges (heights (kept_at S.stored S.Wreck.left place.now).held) }
{
    match place {
        Place::Open(kept) => kept.held_ranges(),
        Place::Lost(wreck) => wreck.sure_ranges(),
        Place::Away => unreachable!(),
    }
}

/// The heights of what every crash leaves.
pub fn sure<T, S: Keeps<T>>(place: &Place<S, S::Wreck>) -> &RangeSet
    requires { is_there place.now ≡ true }
    ensures { result.now ≡ ranges (heights (kept_at S.stored S.Wreck.left place.now).sure) }
{
    match place {
        Place::Open(kept) => kept.sure_ranges(),
        Place::Lost(wreck) => wreck.sure_ranges(),
        Place::Away => unreachable!(),
    }
}

/// Puts a block, and says whether its height was free and now isn't.
pub fn put_block<V: Variant, FB: Blocks<V>>(
    place: &mut Place<FB, FB::Wreck>,
    block: &V::Block,
) -> Result<bool, Fault<V::Commitment>>
    requires small { IsSmall (V.plain block.now).encoded }
    ensures taken { IfOk result (λ r. r ≡ is_taken_in (V.plain block.now).height (kept_at FB.stored FB.Wreck.left place.old)
        (kept_at FB.stored FB.Wreck.left place.new)) }
    ensures done { OnOk result (Puts (is_held (kept_at FB.stored FB.Wreck.left place.old).held (V.plain block.now)) (kept_at FB.stored FB.Wreck.left place.old)
        (at_own_height (V.plain block.now)) (kept_at FB.stored FB.Wreck.left place.new)) }
    ensures stays { OnOk result (StaysIn FB.stored FB.number FB.covers place.old place.new) }
    ensures passed { OnOk result (Passes (watch_at FB.watch FB.Wreck.watch place.old) (watch_at FB.watch FB.Wreck.watch place.new)) }
    ensures left { OnErr result (IsLeftIn place.old place.new) }
    ensures failed { IfErr result (λ e. FailsIn block_store FB.stored FB.Wreck.left FB.watch FB.Wreck.watch (at_own_height (V.plain block.now) ∷ [])
        place.old place.new (fault_of V.Commitment.bytes e)) }
{
    let height = V::height(block);
    let Some(blocks) = place.take() else {
        return Err(Fault::Memory);
    };
    let was_held = blocks.holds(height);
    match blocks.put(&V::digest(block), block) {
        Ok(blocks) => {
            let is_taken = !was_held & blocks.holds(height);
            *place = Place::Open(blocks);
            Ok(is_taken)
        }
        Err(lost) => Err(lose(place, lost, StoreName::Blocks)),
    }
}

/// Puts the finalization of a height.
pub fn put_certificate<V: Variant, F: CommitsTo<V::Commitment>, FC: Certificates<V, F>>(
    place: &mut Place<FC, FC::Wreck>,
    height: Height,
    finalization: &F,
) -> Result<(), Fault<V::Commitment>>
    requires small { IsSmall (finalization_bytes (F.plain finalization.now)) }
    ensures done { OnOk result (Puts (is_certified V.inner (kept_at FC.stored FC.Wreck.left place.old).held height (V.inner (F.plain finalization.now).payload))
        (kept_at FC.stored FC.Wreck.left place.old) (at_height height (F.plain finalization.now)) (kept_at FC.stored FC.Wreck.left place.new)) }
    ensures stays { OnOk result (StaysIn FC.stored FC.number FC.covers place.old place.new) }
    ensures passed { OnOk result (Passes (watch_at FC.watch FC.Wreck.watch place.old) (watch_at FC.watch FC.Wreck.watch place.new)) }
    ensures left { OnErr result (IsLeftIn place.old place.new) }
    ensures failed { IfErr result (λ e. FailsIn cert_store FC.stored FC.Wreck.left FC.watch FC.Wreck.watch (at_height height (F.plain finalization.now) ∷ [])
        place.old place.new (fault_of V.Commitment.bytes e)) }
{
    let Some(certs) = place.take() else {
        return Err(Fault::Memory);
    };
    let digest = V::commitment_to_inner(finalization.payload());
    match certs.put(height, &digest, finalization) {
        Ok(certs) => {
            *place = Place::Open(certs);
            Ok(())
        }
        Err(lost) => Err(lose(place, lost, StoreName::Certs)),
    }
}

/// The answer of a read, or the fault by which it has none.
pub fn answered<X, C: Named>(answer: Result<X, Miss>, store: StoreName) -> Result<X, Fault<C>>
    ensures { IsAnswer (fault_of C.bytes) (store_name_of store) answer result }
{
    match answer {
        Ok(found) => Ok(found),
        Err(Miss::Fault) => Err(Fault::StoreFault(store)),
        Err(Miss::Memory) => Err(Fault::Memory),
    }
}

/// Puts what is left of a lost store in its place.
pub fn lose<S: Drop, W: Drop, C: Named>(
    place: &mut Place<S, W>,
    lost: Lost<W>,
    store: StoreName,
) -> Fault<C>
    ensures left { place.new ≡ Gone (wreck_of lost) }
    ensures fault { fault_of C.bytes result ≡ lost_fault (store_name_of store) lost }
{
    let (fault, wreck) = lost_by(lost, store);
    *place = Place::Lost(wreck);
    fault
}

/// The fault by which a store is lost, and what is left of the store.
pub fn lost_by<C: Named, W>(lost: Lost<W>, store: StoreName) -> (Fault<C>, W)
    ensures fault { fault_of C.bytes result.0 ≡ lost_fault (store_name_of store) lost }
    ensures wreck { result.1 ≡ wreck_of lost }
{
    match lost {
        Lost::Fault(wreck) => (Fault::StoreFault(store), wreck),
        Lost::Memory(wreck) => (Fault::Memory, wreck),
    }
}
