//! How a finalized block and its finalization are stored, or asked for. A call that fails ends the life.
ghost use Rattle.std.specs.Prelude.{◌≡◌, ◌&&◌, ◌∷◌, [], IfErr, IfOk, List, OnOk, Option, nat_lt, not, true};
ghost use Rattle.mar_cert.specs.Finalization.{finalization_bytes};
ghost use Rattle.mar_key.specs.Processed.{height_of};
ghost use Rattle.mar_model.specs.Acts.{ask, says, start_sync, store, store_late, stores as stores_act};
ghost use Rattle.mar_model.specs.Answers.{Sent, TicketAnswer};
ghost use Rattle.mar_model.specs.Faults.{want_of_memory};
ghost use Rattle.mar_model.specs.Held.{GoesOn, IsArchiveFault, IsReadFault, IsUsual, nothing_written, written_both, written_cert};
ghost use Rattle.mar_model.specs.Moves.{HearsUpTo, StoresWhere, at_height, lacks_finalization};
ghost use Rattle.mar_model.specs.Promise.{Heard, heard_with};
ghost use Rattle.mar_model.specs.Ran.{Does, does};
ghost use Rattle.mar_model.specs.Requests.{want_asks};
ghost use Rattle.mar_model.specs.Scene.{Standing, Window, scene};
ghost use Rattle.mar_model.specs.Step.{Report};
ghost use Rattle.mar_model.specs.Stored.{at_own_height, is_certified, is_held};
ghost use Rattle.mar_model.specs.Views.{fault_of};
ghost use Rattle.mar_model.specs.Writing.{IsOrdered, with_write};
ghost use Rattle.mar_store.specs.Changes.{Puts};
ghost use Rattle.mar_store.specs.Kept.{has_height};
ghost use Rattle.mar_store.specs.Sizes.{IsSmall};

use mar_cert::{AsFinalization, CommitsTo, Variant};
use mar_key::{Request, Resolver};
use mar_model::{Fault, Holds};
use mar_types::Height;

/// Requests the block of a finalization by commitment and round, unless the cutoff covers the round.
pub fn request<V: Variant, S: Holds<V>, R: Resolver<V::Commitment>>(
    stores: &S,
    finalization: &S::Finalization,
    resolver: &mut R,
) -> Result<(), Fault<V::Commitment>>
    ensures runs { (life : Window) (standing : Standing) (told : Option (List Report)) (sends : Option (List Sent)) (answers : List TicketAnswer)
        → Does V.inner (fault_of V.Commitment.bytes) (does (says (ask (want_asks (S.held stores.now).cutoff
        (S.Finalization.plain finalization.now).round (S.Finalization.plain finalization.now).payload))) ∷ [])
        (scene (S.held stores.now) life standing (heard_with told (R.told resolver.old) sends answers))
        (scene (S.held stores.now) life standing (heard_with told (R.told resolver.new) sends answers)) result }
{
    fetch::<V, S, R>(stores, finalization, resolver)
}

// Issues that request.
fn fetch<V: Variant, S: Holds<V>, R: Resolver<V::Commitment>>(
    stores: &S,
    finalization: &S::Finalization,
    resolver: &mut R,
) -> Result<(), Fault<V::Commitment>>
    ensures asks { HearsUpTo (R.told resolver.old) (want_asks (S.held stores.now).cutoff (S.Finalization.plain finalization.now).round
        (S.Finalization.plain finalization.now).payload) (R.told resolver.new) result }
    ensures memory { IfErr result (λ e. fault_of V.Commitment.bytes e ≡ want_of_memory) }
{
    let request = Request::finalized_by_round(finalization.payload(), finalization.round());
    match stores.floor().fetch_if_permitted(resolver, request) {
        Ok(_admission) => Ok(()),
        Err(_) => Err(Fault::Memory),
    }
}

/// Whether a block is above the processed height, so that it is stored. At or below it the round alone is noted.
pub fn is_above<V: Variant, S: Holds<V>>(stores: &S, block: &V::Block) -> bool
    ensures { result ≡ nat_lt (height_of (S.held stores.now).processed) (V.plain block.now).height }
{
    stores.floor().is_above(V::height(block))
}

/// Puts a block and its finalization.
pub fn put<V: Variant, S: Holds<V>>(
    stores: &mut S,
    finalization: &S::Finalization,
    block: V::Block,
) -> Result<(), Fault<V::Commitment>>
    requires small { IsSmall (finalization_bytes (S.Finalization.plain finalization.now)) }
    requires small_block { IsSmall (V.plain block).encoded }
    requires ordered { IsOrdered (S.held stores.old).writes }
    ensures whole { (S.held stores.old).intact ≡ true → OnOk result ((S.held stores.new).intact ≡ true) }
    ensures runs { (S.held stores.old).intact ≡ true → (life : Window) (standing : Standing) (heard : Heard) → Does V.inner (fault_of V.Commitment.bytes)
        (does (stores_act (store (S.Finalization.plain finalization.now) (V.plain block))) ∷ [])
        (scene (S.held stores.old) life standing heard) (scene (S.held stores.new) life standing heard) result }
{
    let put = put_both::<V, S>(stores, finalization, block);
    stores.law();
    put
}

// Puts the block, and then the finalization, which joins its write.
fn put_both<V: Variant, S: Holds<V>>(
    stores: &mut S,
    finalization: &S::Finalization,
    block: V::Block,
) -> Result<(), Fault<V::Commitment>>
    requires small { IsSmall (finalization_bytes (S.Finalization.plain finalization.now)) }
    requires small_block { IsSmall (V.plain block).encoded }
    requires ordered { IsOrdered (S.held stores.old).writes }
    ensures blocks { OnOk result (Puts (is_held (S.held stores.old).blocks.held (V.plain block)) (S.held stores.old).blocks
        (at_own_height (V.plain block)) (S.held stores.new).blocks) }
    ensures certs { OnOk result (Puts (is_certified V.inner (S.held stores.old).certs.held (V.plain block).height
        (V.inner (S.Finalization.plain finalization.now).payload)) (S.held stores.old).certs (at_height (V.plain block).height
        (S.Finalization.plain finalization.now)) (S.held stores.new).certs) }
    ensures same { OnOk result (S.held stores.new ≡ record (S.held stores.old) {
      blocks = (S.held stores.new).blocks;
      certs = (S.held stores.new).certs;
      writes = with_write (V.plain block).height (S.held stores.old).writes;
      watches = (S.held stores.new).watches;
    }) }
    ensures goes_on { GoesOn (fault_of V.Commitment.bytes) (S.held stores.old) (written_both (at_own_height (V.plain block))
        (at_height (V.plain block).height (S.Finalization.plain finalization.now))) (S.held stores.new) result }
    ensures archive { IfErr result (λ e. IsArchiveFault (fault_of V.Commitment.bytes e)) }
    ensures usual { IfErr result (λ e. IsUsual (fault_of V.Commitment.bytes e)) }
{
    let height = V::height(&block);
    stores.put_block(block)?;
    stores.put_certificate(height, finalization)
}

/// Stores the finalization of a held block where it is missing, makes it durable, and says whether it was missing.
pub fn put_late<V: Variant, S: Holds<V>>(
    stores: &mut S,
    finalization: &S::Finalization,
    block: &V::Block,
) -> Result<bool, Fault<V::Commitment>>
    requires small { IsSmall (finalization_bytes (S.Finalization.plain finalization.now)) }
    ensures lacked { IfOk result (λ r. r ≡ lacks_finalization (S.held stores.old) (V.plain block.now)) }
    ensures runs { (S.held stores.old).intact ≡ true → (life : Window) (standing : Standing) (heard : Heard) → Does V.inner (fault_of V.Commitment.bytes)
        (does (stores_act (store_late (S.Finalization.plain finalization.now) (V.plain block.now))) ∷ [])
        (scene (S.held stores.old) life standing heard) (scene (S.held stores.new) life standing heard) result }
{
    let put = put_missing::<V, S>(stores, finalization, block);
    stores.law();
    put
}

// Puts the finalization and makes it durable, where none is held at the block's height.
fn put_missing<V: Variant, S: Holds<V>>(
    stores: &mut S,
    finalization: &S::Finalization,
    block: &V::Block,
) -> Result<bool, Fault<V::Commitment>>
    requires small { IsSmall (finalization_bytes (S.Finalization.plain finalization.now)) }
    ensures lacked { IfOk result (λ r. r ≡ lacks_finalization (S.held stores.old) (V.plain block.now)) }
    ensures certs { IfOk result (λ r. StoresWhere r (is_certified V.inner (S.held stores.old).certs.held (V.plain block.now).height
        (V.inner (S.Finalization.plain finalization.now).payload)) (S.held stores.old).certs (at_height (V.plain block.now).height
        (S.Finalization.plain finalization.now)) (S.held stores.new).certs) }
    ensures same { OnOk result (S.held stores.new ≡ record (S.held stores.old) { certs = (S.held stores.new).certs; watches = (S.held stores.new).watches }) }
    ensures archive { IfErr result (λ e. IsArchiveFault (fault_of V.Commitment.bytes e)) }
    ensures goes_on { GoesOn (fault_of V.Commitment.bytes) (S.held stores.old) (written_cert (at_height (V.plain block.now).height
        (S.Finalization.plain finalization.now))) (S.held stores.new) result }
    ensures usual { IfErr result (λ e. IsUsual (fault_of V.Commitment.bytes e)) }
{
    let height = V::height(block);
    let is_lacking = lacks_finalization::<V, S>(stores, height)?;
    if !is_lacking {
        return Ok(false);
    }
    stores.store_certificate(height, finalization)?;
    Ok(true)
}

/// Whether a block is held at a height and no finalization is.
fn lacks_finalization<V: Variant, S: Holds<V>>(
    stores: &mut S,
    height: Height,
) -> Result<bool, Fault<V::Commitment>>
    ensures same { OnOk result (S.held stores.new ≡ record (S.held stores.old) { watches = (S.held stores.new).watches }) }
    ensures value { IfOk result (λ r. r ≡ (has_height (S.held stores.old).blocks.held height && not (has_height (S.held stores.old).certs.held height))) }
    ensures goes_on { GoesOn (fault_of V.Commitment.bytes) (S.held stores.old) nothing_written (S.held stores.new) result }
    ensures archive { IfErr result (λ e. IsArchiveFault (fault_of V.Commitment.bytes e)) }
    ensures read { IfErr result (λ e. IsReadFault (fault_of V.Commitment.bytes e)) }
    ensures usual { IfErr result (λ e. IsUsual (fault_of V.Commitment.bytes e)) }
{
    if stores.block_at(height)?.is_none() {
        return Ok(false);
    }
    let has_certificate = stores.has_certificate(height)?;
    Ok(!has_certificate)
}

/// Starts a sync of both archives, which covers all writes.
pub fn start<V: Variant, S: Holds<V>>(stores: &mut S) -> Result<(), Fault<V::Commitment>>
    ensures runs { (S.held stores.old).intact ≡ true → (life : Window) (standing : Standing) (heard : Heard) → Does V.inner (fault_of V.Commitment.bytes)
        (does (stores_act start_sync) ∷ [])
        (scene (S.held stores.old) life standing heard) (scene (S.held stores.new) life standing heard) result }
{
    let started = stores.start_sync();
    stores.law();
    started
}
