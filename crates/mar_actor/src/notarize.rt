//! Notarizations that consensus reports.
ghost use Rattle.std.specs.Prelude.{◌≡◌, None, map, true};
ghost use Rattle.mar_cert.specs.Finalization.{finalization_bytes};
ghost use Rattle.mar_store.specs.Sizes.{IsSmall};
ghost use Rattle.mar_model.specs.Event.{message_told};
ghost use Rattle.mar_model.specs.Messages.{report_notarization};
ghost use Rattle.mar_model.specs.Moves.{found_at_hand};
ghost use Rattle.mar_model.specs.Plans.{DoesEvent, found_of, kept_plan};
ghost use Rattle.mar_model.specs.Promise.{Heard};
ghost use Rattle.mar_model.specs.Ran.{Does};
ghost use Rattle.mar_model.specs.Scene.{Standing, Window, scene};
ghost use Rattle.mar_model.specs.SmallEntries.{AreSmallEntries};
ghost use Rattle.mar_model.specs.Stored.{AreSmall};
ghost use Rattle.mar_model.specs.Views.{fault_of};

use mar_block::{Buffer, Variant};
use mar_cert::{AsFinalization, CommitsTo};
use mar_model::{Fault, Holds, HoldsNotarizations, block_at_hand};
use mar_rules::{keep_notarization, keep_notarized};
use mar_types::Round;

/// Keeps a reported notarization, and its block where that is at hand and wasn't verified in its round. A sync of each is
/// started, which nobody waits for.
pub(crate) fn notarize<V: Variant, S: HoldsNotarizations<V>, B: Buffer<V>>(
    stores: &mut S,
    notarization: S::Notarization,
    buffer: &B,
) -> Result<(), Fault<V::Commitment>>
    requires intact { (S.held stores.old).intact ≡ true }
    requires small { IsSmall (finalization_bytes (S.Notarization.plain notarization)) }
    requires small_buffer { AreSmall (B.blocks buffer.now) }
    ensures runs { (life : Window) (standing : Standing) (heard : Heard) → DoesEvent V.inner (fault_of V.Commitment.bytes) (B.blocks buffer.now)
        (message_told None (report_notarization (S.Notarization.plain notarization)))
        (scene (S.held stores.old) life standing heard) (scene (S.held stores.new) life standing heard) result }
{
    let round = notarization.round();
    let commitment = notarization.payload();
    let kept = keep_notarization::<V, S>(stores, notarization);
    stores.law();
    match kept {
        Ok(_) => keep_found::<V, S, B>(stores, round, commitment, buffer),
        Err(fault) => Err(fault),
    }
}

// Keeps the block of a notarized commitment, where it is at hand.
fn keep_found<V: Variant, S: Holds<V>, B: Buffer<V>>(
    stores: &mut S,
    round: Round,
    commitment: V::Commitment,
    buffer: &B,
) -> Result<(), Fault<V::Commitment>>
    requires intact { (S.held stores.old).intact ≡ true }
    requires small_buffer { AreSmall (B.blocks buffer.now) }
    requires small_cached { AreSmallEntries (S.held stores.old).cache.kept.held }
    requires small_held { AreSmall (map (λ x. x.value) (S.held stores.old).blocks.held) }
    ensures runs { (life : Window) (standing : Standing) (heard : Heard) → Does V.inner (fault_of V.Commitment.bytes)
        (kept_plan round (found_of (S.held stores.old) round (found_at_hand V.inner (B.blocks buffer.now) (S.held stores.old).cache.kept.held
        (S.held stores.old).blocks.held (V.Commitment.bytes commitment))))
        (scene (S.held stores.old) life standing heard) (scene (S.held stores.new) life standing heard) result }
{
    match block_at_hand::<V, S, B>(stores, commitment, buffer) {
        Ok(Some(block)) => {
            let kept = keep_notarized::<V, S>(stores, round, block);
            stores.law();
            kept
        }
        Ok(None) => Ok(()),
        Err(fault) => Err(fault),
    }
}
