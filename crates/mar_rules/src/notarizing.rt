//! How a notarization and its block are kept in the cache, each with a sync that is to make it sure and that nobody waits
//! for. A call that fails ends the life.
ghost use Rattle.std.specs.Prelude.{◌≡◌, ◌∷◌, [], IfErr, IfOk, None, OnOk, false, true};
ghost use Rattle.mar_cert.specs.Finalization.{finalization_bytes};
ghost use Rattle.mar_store.specs.Sizes.{IsSmall};
ghost use Rattle.mar_model.specs.Cache.{is_notarization_of, notarized_where};
ghost use Rattle.mar_model.specs.Cached.{notarization_entry, notarized_entry};
ghost use Rattle.mar_model.specs.Acts.{IsKeepFault};
ghost use Rattle.mar_model.specs.Held.{GoesOn, IsReadFault, written_entries, written_entry};
ghost use Rattle.mar_model.specs.Moves.{KeepsFor, KeepsNotarizedWhere, is_verified_in};
ghost use Rattle.mar_model.specs.Views.{fault_of};

use crate::keeping::open_started;
use mar_cert::Variant;
use mar_model::{Fault, Holds, HoldsNotarizations};
use mar_types::Round;

/// Keeps a notarization, and starts a sync of those of its epoch, which nobody waits for. It gives the ticket of that sync,
/// or `None` where there is none, since that epoch is below the lowest. Where no ticket is left for that sync the life ends
/// behind the put.
pub fn keep_notarization<V: Variant, S: HoldsNotarizations<V>>(
    stores: &mut S,
    notarization: S::Notarization,
) -> Result<Option<u64>, Fault<V::Commitment>>
    requires small { IsSmall (finalization_bytes (S.Notarization.plain notarization)) }
    ensures keeps { IfOk result (λ t. KeepsFor (S.Notarization.plain notarization).round.epoch (notarization_entry (S.Notarization.plain notarization) ∷ [])
        (is_notarization_of (S.Notarization.plain notarization).round.epoch) None t (S.held stores.old) (S.held stores.new)) }
    ensures goes_on { GoesOn (fault_of V.Commitment.bytes) (S.held stores.old) (written_entry (notarization_entry (S.Notarization.plain notarization)))
        (S.held stores.new) result }
    ensures kind { IfErr result (λ e. IsKeepFault (S.Notarization.plain notarization).round.epoch (S.held stores.old)
        (fault_of V.Commitment.bytes e)) }
{
    match stores.put_notarization(notarization) {
        Ok(started) => open_started(stores, started, None),
        Err(fault) => Err(fault),
    }
}

/// Keeps a block that was notarized in a round, and starts a sync of the notarized blocks of its epoch, which nobody waits
/// for. A block that was verified in that round stays there: for it nothing is done, and no ticket is needed. Where one is
/// needed and none is left the life ends behind the put.
pub fn keep_notarized<V: Variant, S: Holds<V>>(
    stores: &mut S,
    round: Round,
    block: V::Block,
) -> Result<(), Fault<V::Commitment>>
    requires small { IsSmall (V.plain block).encoded }
    ensures keeps { OnOk result (KeepsNotarizedWhere (is_verified_in (S.held stores.old) round (V.plain block)) round (V.plain block)
        (S.held stores.old) (S.held stores.new)) }
    ensures goes_on { GoesOn (fault_of V.Commitment.bytes) (S.held stores.old)
        (written_entries (notarized_where (is_verified_in (S.held stores.old) round (V.plain block)) round (V.plain block))) (S.held stores.new) result }
    ensures kind { IfErr result (λ e. IsKeepFault round.epoch (S.held stores.old) (fault_of V.Commitment.bytes e)) }
    ensures read { IfErr result (λ e. is_verified_in (S.held stores.old) round (V.plain block) ≡ true
        → IsReadFault (fault_of V.Commitment.bytes e)) }
{
    match stores.has_verified(round, V::digest(&block)) {
        Ok(true) => Ok(()),
        Ok(false) => keep_unverified(stores, round, block),
        Err(fault) => Err(fault),
    }
}

// Keeps a block as notarized, and starts a sync of the notarized blocks of its epoch.
fn keep_unverified<V: Variant, S: Holds<V>>(
    stores: &mut S,
    round: Round,
    block: V::Block,
) -> Result<(), Fault<V::Commitment>>
    requires small { IsSmall (V.plain block).encoded }
    ensures keeps { OnOk result (KeepsNotarizedWhere false round (V.plain block) (S.held stores.old) (S.held stores.new)) }
    ensures goes_on { GoesOn (fault_of V.Commitment.bytes) (S.held stores.old) (written_entry (notarized_entry round (V.plain block))) (S.held stores.new)
        result }
    ensures kind { IfErr result (λ e. IsKeepFault round.epoch (S.held stores.old) (fault_of V.Commitment.bytes e)) }
{
    match stores.put_notarized(round, block) {
        Ok(started) => match open_started(stores, started, None) {
            Ok(_) => Ok(()),
            Err(fault) => Err(fault),
        },
        Err(fault) => Err(fault),
    }
}
