//! Calls of the finalizations in their place.
ghost use Rattle.std.specs.Prelude.{◌≡◌, ◌∷◌, [], IfErr, IfOk, OnErr, OnOk, option_map};
ghost use Rattle.mar_cert.specs.Finalization.{finalization_bytes};
ghost use Rattle.mar_store.specs.Kept.{has_height, value_at};
ghost use Rattle.mar_store.specs.Sizes.{IsSmall};
ghost use Rattle.mar_model.specs.Faults.{cert_store};
ghost use Rattle.mar_model.specs.Held.{Passes};
ghost use Rattle.mar_model.specs.Moves.{StoresValue, at_height};
ghost use Rattle.mar_model.specs.Places.{kept_at, watch_at};
ghost use Rattle.mar_model.specs.Stored.{is_certified};
ghost use Rattle.mar_life.specs.Pooling.{FailsIn, IsFaultOf, IsLeftIn, IsReadIn, StaysIn};
ghost use Rattle.mar_model.specs.Views.{fault_of};

use crate::Certificates;
use crate::in_place::{answered, put_certificate, sync};
use crate::item::CertificateItem;
use mar_block::Variant;
use mar_cert::CommitsTo;
use mar_model::{Fault, Place, StoreName};
use mar_types::Height;

/// Puts the finalization of a height and makes it durable at once.
pub fn store<V: Variant, F: CommitsTo<V::Commitment>, FC: Certificates<V, F>>(
    place: &mut Place<FC, FC::Wreck>,
    height: Height,
    finalization: &F,
) -> Result<(), Fault<V::Commitment>>
    requires small { IsSmall (finalization_bytes (F.plain finalization.now)) }
    ensures done { OnOk result (StoresValue (is_certified V.inner (kept_at FC.stored FC.Wreck.left place.old).held height
        (V.inner (F.plain finalization.now).payload)) (kept_at FC.stored FC.Wreck.left place.old) (at_height height (F.plain finalization.now))
        (kept_at FC.stored FC.Wreck.left place.new)) }
    ensures stays { OnOk result (StaysIn FC.stored FC.number FC.covers place.old place.new) }
    ensures passed { OnOk result (Passes (watch_at FC.watch FC.Wreck.watch place.old) (watch_at FC.watch FC.Wreck.watch place.new)) }
    ensures left { OnErr result (IsLeftIn place.old place.new) }
    ensures failed { IfErr result (λ e. FailsIn cert_store FC.stored FC.Wreck.left FC.watch FC.Wreck.watch (at_height height (F.plain finalization.now) ∷ [])
        place.old place.new (fault_of V.Commitment.bytes e)) }
{
    put_certificate::<V, F, FC>(place, height, finalization)?;
    sync::<CertificateItem<V, F>, FC, V::Commitment>(place, StoreName::Certs)
}

/// The finalization that is held at a height.
pub fn at<V: Variant, F: CommitsTo<V::Commitment>, FC: Certificates<V, F>>(
    place: &mut Place<FC, FC::Wreck>,
    height: Height,
) -> Result<Option<F>, Fault<V::Commitment>>
    ensures found { IfOk result (λ r. option_map F.plain r ≡ value_at (kept_at FC.stored FC.Wreck.left place.old).held height) }
    ensures read { IsReadIn FC.stored FC.number FC.covers FC.Wreck.left place.old place.new }
    ensures passed { OnOk result (Passes (watch_at FC.watch FC.Wreck.watch place.old) (watch_at FC.watch FC.Wreck.watch place.new)) }
    ensures failed { IfErr result (λ e. IsFaultOf cert_store (watch_at FC.watch FC.Wreck.watch place.old) (fault_of V.Commitment.bytes e)
        (watch_at FC.watch FC.Wreck.watch place.new)) }
{
    let Place::Open(certs) = place else {
        return Err(Fault::Memory);
    };
    answered(certs.get(height), StoreName::Certs)
}

/// Whether a finalization is held at a height.
pub fn has<V: Variant, F: CommitsTo<V::Commitment>, FC: Certificates<V, F>>(
    place: &mut Place<FC, FC::Wreck>,
    height: Height,
) -> Result<bool, Fault<V::Commitment>>
    ensures found { IfOk result (λ r. r ≡ has_height (kept_at FC.stored FC.Wreck.left place.old).held height) }
    ensures read { IsReadIn FC.stored FC.number FC.covers FC.Wreck.left place.old place.new }
    ensures passed { OnOk result (Passes (watch_at FC.watch FC.Wreck.watch place.old) (watch_at FC.watch FC.Wreck.watch place.new)) }
    ensures failed { IfErr result (λ e. IsFaultOf cert_store (watch_at FC.watch FC.Wreck.watch place.old) (fault_of V.Commitment.bytes e)
        (watch_at FC.watch FC.Wreck.watch place.new)) }
{
    let Place::Open(certs) = place else {
        return Err(Fault::Memory);
    };
    answered(certs.has(height), StoreName::Certs)
}
