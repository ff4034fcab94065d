//! How the processed height and the cutoff rise, and a round is witnessed. A call that fails ends the life.
ghost use Rattle.std.specs.Prelude.{◌≡◌, ◌∷◌, [], IfErr, List, OnOk, Option, Some, option_map, option_to_list, true};
ghost use Rattle.mar_key.specs.Keys.{above_height, retain};
ghost use Rattle.mar_key.specs.Cutoff.{at_round, greatest_of};
ghost use Rattle.mar_key.specs.Processed.{at_block};
ghost use Rattle.mar_key.specs.Views.{cutoff_of};
ghost use Rattle.mar_model.specs.Acts.{note, progresses};
ghost use Rattle.mar_model.specs.Answers.{Sent, TicketAnswer};
ghost use Rattle.mar_model.specs.Event.{closed_at, retired, round_at};
ghost use Rattle.mar_model.specs.Held.{ArePassed, GoesOn, IsUsual, LosesSince, nothing_written, written_pair, written_prunes};
ghost use Rattle.mar_model.specs.Lives.{later_round};
ghost use Rattle.mar_model.specs.Moves.{HearsUpTo, PrunesCacheBy, pruned_by, with_cache_of};
ghost use Rattle.mar_model.specs.Promise.{heard_with};
ghost use Rattle.mar_model.specs.Ran.{Does, does};
ghost use Rattle.mar_model.specs.Requests.{raise_asks};
ghost use Rattle.mar_model.specs.Scene.{Standing, Window, scene};
ghost use Rattle.mar_model.specs.Step.{Report};
ghost use Rattle.mar_model.specs.Views.{fault_of};
ghost use Rattle.mar_rules.specs.Noted.{noted_pair};

use crate::pruning::prune_before;
use mar_cert::Variant;
use mar_key::{Cutoff, Resolver, Retain};
use mar_model::{Fault, Holds, closed_epoch, round_at};
use mar_types::{Epocher, Height, Round};

/// Witnesses a finalized round, to which the cutoff rises, and makes the processed height and the cutoff durable. Where the
/// round is newer than the last one witnessed, the cache is pruned first: what lies up to `retention` views below that last one
/// stays.
pub fn note_round<V: Variant, S: Holds<V>, R: Resolver<V::Commitment>>(
    stores: &mut S,
    round: Round,
    retention: u64,
    resolver: &mut R,
) -> Result<(), Fault<V::Commitment>>
    requires intact { (S.held stores.old).intact ≡ true }
    ensures whole { OnOk result ((S.held stores.new).intact ≡ true) }
    ensures blocks { OnOk result ((S.held stores.new).blocks ≡ (S.held stores.old).blocks) }
    ensures certs { OnOk result ((S.held stores.new).certs ≡ (S.held stores.old).certs) }
    ensures runs { (life : Window) (standing : Standing) (told : Option (List Report)) (sends : Option (List Sent)) (answers : List TicketAnswer)
        → life.sizes.retention ≡ retention → Does V.inner (fault_of V.Commitment.bytes) (does (progresses (note round)) ∷ [])
        (scene (S.held stores.old) life standing (heard_with told (R.told resolver.old) sends answers))
        (scene (S.held stores.new) life standing (heard_with told (R.told resolver.new) sends answers)) result }
{
    let noted = witness_durably::<V, S, R>(stores, round, retention, resolver);
    stores.law();
    noted
}

// Witnesses the round, and syncs the metadata.
fn witness_durably<V: Variant, S: Holds<V>, R: Resolver<V::Commitment>>(
    stores: &mut S,
    round: Round,
    retention: u64,
    resolver: &mut R,
) -> Result<(), Fault<V::Commitment>>
    requires intact { (S.held stores.old).intact ≡ true }
    ensures ok { OnOk result (S.held stores.new ≡ record (with_cache_of (S.held stores.new) (S.held stores.old)) {
      cutoff = greatest_of (S.held stores.old).cutoff (at_round round ∷ []);
      witnessed = later_round (S.held stores.old).witnessed (Some round);
      pairs = noted_pair (S.held stores.old) round ∷ [];
    }) }
    ensures prunes { OnOk result (PrunesCacheBy (pruned_by retention (S.held stores.old).witnessed (round ∷ [])) (S.held stores.old) (S.held stores.new)) }
    ensures passed { OnOk result (ArePassed (S.held stores.old).watches (S.held stores.new).watches) }
    ensures asks { HearsUpTo (R.told resolver.old) (raise_asks (S.held stores.old).cutoff (at_round round ∷ [])) (R.told resolver.new) result }
    ensures lost { LosesSince (fault_of V.Commitment.bytes) (S.held stores.old) (record (written_pair (noted_pair (S.held stores.old) round)) {
      prunes = pruned_by retention (S.held stores.old).witnessed (round ∷ []);
    }) (S.held stores.new) result }
    ensures usual { IfErr result (λ e. IsUsual (fault_of V.Commitment.bytes e)) }
{
    stores.law();
    witness::<V, S, R>(stores, Some(round), retention, resolver)?;
    stores.sync_metadata()
}

/// Sets the processed height: requests at or below it are let go, and the cutoff rises to the round that finalized it, which
/// is witnessed, and over the epochs that end there. Where that round is newer than the last one witnessed, the cache is pruned
/// first: what lies up to `retention` views below that last one stays.
pub fn process<V: Variant, S: Holds<V>, E: Epocher, R: Resolver<V::Commitment>>(
    stores: &mut S,
    epocher: &E,
    height: Height,
    retention: u64,
    resolver: &mut R,
) -> Result<(), Fault<V::Commitment>>
    ensures ok { OnOk result (S.held stores.new ≡ record (with_cache_of (S.held stores.new) (S.held stores.old)) {
      processed = Some (at_block height);
      cutoff = greatest_of (S.held stores.old).cutoff
          (retired (E.epochs epocher.now) (S.held stores.old).certs.held height);
      witnessed = later_round (S.held stores.old).witnessed
          (round_at (S.held stores.old).certs.held height);
    }) }
    ensures prunes { OnOk result (PrunesCacheBy (pruned_by retention (S.held stores.old).witnessed
        (option_to_list (round_at (S.held stores.old).certs.held height))) (S.held stores.old) (S.held stores.new)) }
    ensures asks { HearsUpTo (R.told resolver.old) (retain (above_height height)
        ∷ raise_asks (S.held stores.old).cutoff (retired (E.epochs epocher.now) (S.held stores.old).certs.held height)) (R.told resolver.new) result }
    ensures goes_on { GoesOn (fault_of V.Commitment.bytes) (S.held stores.old) (written_prunes (pruned_by retention (S.held stores.old).witnessed
        (option_to_list (round_at (S.held stores.old).certs.held height)))) (S.held stores.new) result }
    ensures usual { IfErr result (λ e. IsUsual (fault_of V.Commitment.bytes e)) }
{
    if resolver.retain(Retain::AboveHeight(height)).is_err() {
        return Err(Fault::Memory);
    }
    stores.set_processed(height)?;
    let round = round_at::<V, S>(stores, height)?;
    witness::<V, S, R>(stores, round, retention, resolver)?;
    close_epochs::<V, S, E, R>(stores, epocher, height, resolver)
}

/// Takes note of a finalized round, if there is one: where it is newer, the cache is pruned by the one before, and the cutoff
/// rises to it.
fn witness<V: Variant, S: Holds<V>, R: Resolver<V::Commitment>>(
    stores: &mut S,
    round: Option<Round>,
    retention: u64,
    resolver: &mut R,
) -> Result<(), Fault<V::Commitment>>
    ensures ok { OnOk result (S.held stores.new ≡ record (with_cache_of (S.held stores.new) (S.held stores.old)) {
      cutoff = greatest_of (S.held stores.old).cutoff (option_to_list (option_map at_round round));
      witnessed = later_round (S.held stores.old).witnessed round;
    }) }
    ensures prunes { OnOk result (PrunesCacheBy (pruned_by retention (S.held stores.old).witnessed (option_to_list round)) (S.held stores.old)
        (S.held stores.new)) }
    ensures asks { HearsUpTo (R.told resolver.old) (raise_asks (S.held stores.old).cutoff (option_to_list (option_map at_round round)))
        (R.told resolver.new) result }
    ensures goes_on { GoesOn (fault_of V.Commitment.bytes) (S.held stores.old)
        (written_prunes (pruned_by retention (S.held stores.old).witnessed (option_to_list round))) (S.held stores.new) result }
    ensures usual { IfErr result (λ e. IsUsual (fault_of V.Commitment.bytes e)) }
{
    match round {
        Some(round) => {
            prune_before::<V, S>(stores, round, retention)?;
            stores.witness(round);
            raise::<V, S, R>(stores, &Cutoff::Round(round), resolver)
        }
        None => Ok(()),
    }
}

/// Raises the cutoff over the epochs that end at or below a height.
fn close_epochs<V: Variant, S: Holds<V>, E: Epocher, R: Resolver<V::Commitment>>(
    stores: &mut S,
    epocher: &E,
    height: Height,
    resolver: &mut R,
) -> Result<(), Fault<V::Commitment>>
    ensures ok { OnOk result (S.held stores.new ≡ record (S.held stores.old) {
      cutoff = greatest_of (S.held stores.old).cutoff (closed_at (E.epochs epocher.now) height);
      watches = (S.held stores.new).watches;
    }) }
    ensures asks { HearsUpTo (R.told resolver.old) (raise_asks (S.held stores.old).cutoff (closed_at (E.epochs epocher.now) height)) (R.told resolver.new)
        result }
    ensures goes_on { GoesOn (fault_of V.Commitment.bytes) (S.held stores.old) nothing_written (S.held stores.new) result }
    ensures usual { IfErr result (λ e. IsUsual (fault_of V.Commitment.bytes e)) }
{
    match closed_epoch(epocher, height) {
        Some(epoch) => raise::<V, S, R>(stores, &Cutoff::Epoch(epoch), resolver),
        None => Ok(()),
    }
}

/// Raises the cutoff to this one where it is above: requests of the rounds that it covers are let go.
fn raise<V: Variant, S: Holds<V>, R: Resolver<V::Commitment>>(
    stores: &mut S,
    cutoff: &Cutoff,
    resolver: &mut R,
) -> Result<(), Fault<V::Commitment>>
    ensures ok { OnOk result (S.held stores.new ≡ record (S.held stores.old) {
      cutoff = greatest_of (S.held stores.old).cutoff (cutoff_of cutoff.now ∷ []);
      watches = (S.held stores.new).watches;
    }) }
    ensures asks { HearsUpTo (R.told resolver.old) (raise_asks (S.held stores.old).cutoff (cutoff_of cutoff.now ∷ [])) (R.told resolver.new) result }
    ensures goes_on { GoesOn (fault_of V.Commitment.bytes) (S.held stores.old) nothing_written (S.held stores.new) result }
    ensures usual { IfErr result (λ e. IsUsual (fault_of V.Commitment.bytes e)) }
{
    if stores.floor().cutoff().reaches(*cutoff) {
        return Ok(());
    }
    if resolver.retain(Retain::AboveRound(*cutoff)).is_err() {
        return Err(Fault::Memory);
    }
    stores.set_cutoff(cutoff)
}
