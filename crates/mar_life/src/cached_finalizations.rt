//! The cached finalizations of commitments.
ghost use Rattle.std.specs.Prelude.{◌≡◌, IfErr, IfOk, OnOk, option_map};
ghost use Rattle.mar_model.specs.Faults.{cache_store};
ghost use Rattle.mar_model.specs.Held.{Passes};
ghost use Rattle.mar_model.specs.Repair.{cached_for, of_payload};
ghost use Rattle.mar_model.specs.Views.{fault_of};
ghost use Rattle.mar_life.specs.Pooling.{IsFaultOf};

use crate::LifeCache;
use mar_block::Variant;
use mar_cert::CommitsTo;
use mar_model::{Fault, is_same};
use mar_types::Named;

/// The finalization of a commitment that a search for its digest finds, where that is its payload.
pub fn of_commitment<V: Variant, F: CommitsTo<V::Commitment>, H: LifeCache<V, F>>(
    cache: &mut H,
    commitment: V::Commitment,
) -> Result<Option<F>, Fault<V::Commitment>>
    ensures found { IfOk result (λ r. option_map F.plain r
        ≡ cached_for V.inner (H.held cache.old).kept.held (V.Commitment.bytes commitment)) }
    ensures tickets { H.covers cache.new ≡ H.covers cache.old }
    ensures same { (H.held cache.new ≡ H.held cache.old) × (H.lowest cache.new ≡ H.lowest cache.old)
        × (H.lowests cache.new ≡ H.lowests cache.old) × (H.intact cache.new ≡ H.intact cache.old) }
    ensures passed { OnOk result (Passes (H.watch cache.old) (H.watch cache.new)) }
    ensures failed { IfErr result (λ e. IsFaultOf cache_store (H.watch cache.old) (fault_of V.Commitment.bytes e)
        (H.watch cache.new)) }
{
    match cache.find_finalization(V::commitment_to_inner(commitment)) {
        Ok(found) => Ok(with_payload(found, commitment)),
        Err(fault) => Err(fault),
    }
}

// The finalization, where this is its payload.
fn with_payload<C: Named, F: CommitsTo<C>>(found: Option<F>, payload: C) -> Option<F>
    ensures { option_map F.plain result ≡ of_payload (C.bytes payload) (option_map F.plain found) }
{
    let Some(finalization) = found else {
        return None;
    };
    if is_same(finalization.payload(), payload) {
        Some(finalization)
    } else {
        None
    }
}
