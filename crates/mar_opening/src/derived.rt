//! The round cutoff that archives show when they are opened.
ghost use Rattle.std.specs.Prelude.{◌≡◌, ◌<◌, ◌^◌, ◌⊎◌, ◌++◌, ◌∷◌, [], IfErr, IfOk, None, OnOk, Option, Some, option_map, option_to_list, true};
ghost use Rattle.mar_types.specs.Epochs.{closed_epoch};
ghost use Rattle.mar_key.specs.Cutoff.{at_epoch, at_round, greatest_of};
ghost use Rattle.mar_key.specs.Processed.{first_unprocessed};
ghost use Rattle.mar_key.specs.Views.{cutoff_of};
ghost use Rattle.mar_store.specs.Kept.{EachHeightOnce, newest_upto};
ghost use Rattle.mar_model.specs.Metadata.{pair_of};
ghost use Rattle.mar_model.specs.Faults.{next_after, successor_fault};
ghost use Rattle.mar_model.specs.Held.{ArePassed, GoesOn, IsNoStores, IsUsual, LosesSince, nothing_written, written_pair};
ghost use Rattle.mar_model.specs.Lives.{closed_epoch_at, later_round, processed_round, round_zero, successor_round};
ghost use Rattle.mar_model.specs.Opening.{Derives, LosesDeriving, next_fault, pair_in};
ghost use Rattle.mar_model.specs.Views.{fault_of};

use mar_cert::{AsFinalization, CommitsTo, Variant};
use mar_key::Cutoff;
use mar_model::{Fault, Holds, closed_epoch, is_same, last_upto, round_at};
use mar_types::{Epoch, Epocher, Height, Round};

/// Raises the cutoff to what the archives show, and makes it durable. The later of the rounds that show it is witnessed.
pub(crate) fn derive<V: Variant, S: Holds<V>, E: Epocher>(
    stores: &mut S,
    epocher: &E,
) -> Result<(), Fault<V::Commitment>>
    requires once { EachHeightOnce (S.held stores.old).certs.held }
    requires pairs { (S.held stores.old).pairs ≡ pair_in (S.held stores.old) ∷ [] }
    requires fresh { (S.held stores.old).witnessed ≡ round_zero }
    requires below { first_unprocessed (S.held stores.old).processed < 2 ^ 64 }
    requires intact { (S.held stores.old).intact ≡ true }
    ensures ok { OnOk result (Derives (E.epochs epocher.now) (S.held stores.old) (S.held stores.new)) }
    ensures passed { OnOk result (ArePassed (S.held stores.old).watches (S.held stores.new).watches) }
    ensures lost { LosesDeriving (fault_of V.Commitment.bytes) (E.epochs epocher.now) (S.held stores.old) (S.held stores.new) result }
    ensures kind { IfErr result (λ e. IsUsual (fault_of V.Commitment.bytes e) ⊎ (next_fault (S.held stores.old) ≡ Some (fault_of V.Commitment.bytes e))) }
{
    stores.law();
    let successor = successor::<V, S>(stores)?;
    let newest = processed_round::<V, S>(stores)?;
    let cutoff = derived_cutoff::<V, S, E>(stores, epocher, &newest, &successor);
    raise_to::<V, S>(stores, &cutoff)?;
    note_round::<V, S>(stores, &newest);
    note_round::<V, S>(stores, &successor);
    Ok(())
}

/// Takes note of a round, if there is one. Nothing is asked yet, so that nothing is let go.
fn note_round<V: Variant, S: Holds<V>>(stores: &mut S, round: &Option<Round>)
    ensures { S.held stores.new ≡ record (S.held stores.old) { witnessed = later_round (S.held stores.old).witnessed round.now } }
{
    if let Some(round) = round {
        stores.witness(*round);
    }
}

/// The round of the certificate just above the processed height, where its block is held too. Where that is another
/// block than the one that the certificate names the life ends.
fn successor<V: Variant, S: Holds<V>>(stores: &mut S) -> Result<Option<Round>, Fault<V::Commitment>>
    requires below { first_unprocessed (S.held stores.old).processed < 2 ^ 64 }
    ensures same { OnOk result (S.held stores.new ≡ record (S.held stores.old) { watches = (S.held stores.new).watches }) }
    ensures none { OnOk result (next_fault (S.held stores.old) ≡ None) }
    ensures round { IfOk result (λ r. r ≡ successor_round (S.held stores.old).blocks.held (S.held stores.old).certs.held
        (next_after (pair_in (S.held stores.old)).processed)) }
    ensures goes_on { GoesOn (fault_of V.Commitment.bytes) (S.held stores.old) nothing_written (S.held stores.new) result }
    ensures kind { IfErr result (λ e. IsUsual (fault_of V.Commitment.bytes e) ⊎ (next_fault (S.held stores.old) ≡ Some (fault_of V.Commitment.bytes e))) }
{
    let next = stores.floor().next_height();
    let block = stores.block_at(next)?;
    let certificate = stores.certificate_at(next)?;
    match (block, certificate) {
        (Some(block), Some(certificate)) => judge::<V, S::Finalization>(&block, &certificate),
        (_block, _certificate) => Ok(None),
    }
}

/// The round of a certificate. Where it names another block than the one that is stored the life ends.
fn judge<V: Variant, F: CommitsTo<V::Commitment>>(
    block: &V::Block,
    certificate: &F,
) -> Result<Option<Round>, Fault<V::Commitment>>
    ensures none { OnOk result (successor_fault (Some (V.plain block.now)) (Some (F.plain certificate.now)) ≡ None) }
    ensures round { IfOk result (λ r. r ≡ Some (F.plain certificate.now).round) }
    ensures fault { IfErr result (λ e. successor_fault (Some (V.plain block.now)) (Some (F.plain certificate.now)) ≡ Some (fault_of V.Commitment.bytes e)) }
    ensures no_stores { IfErr result (λ e. IsNoStores (fault_of V.Commitment.bytes e)) }
{
    let commitment = V::commitment(block);
    let payload = certificate.payload();
    if is_same(commitment, payload) {
        Ok(Some(certificate.round()))
    } else {
        Err(Fault::Corrupt(V::height(block), commitment, payload))
    }
}

/// The round of the newest certificate at or below the processed height.
fn processed_round<V: Variant, S: Holds<V>>(
    stores: &mut S,
) -> Result<Option<Round>, Fault<V::Commitment>>
    requires intact { (S.held stores.old).intact ≡ true }
    requires once { EachHeightOnce (S.held stores.old).certs.held }
    ensures same { OnOk result (S.held stores.new ≡ record (S.held stores.old) { watches = (S.held stores.new).watches }) }
    ensures round { IfOk result (λ r. r ≡ processed_round (S.held stores.old).certs.held (pair_in (S.held stores.old)).processed) }
    ensures goes_on { GoesOn (fault_of V.Commitment.bytes) (S.held stores.old) nothing_written (S.held stores.new) result }
    ensures usual { IfErr result (λ e. IsUsual (fault_of V.Commitment.bytes e)) }
{
    match stores.floor().processed() {
        None => Ok(None),
        Some(processed) => newest_round::<V, S>(stores, processed.height()),
    }
}

/// The round of the newest certificate at or below a height.
fn newest_round<V: Variant, S: Holds<V>>(
    stores: &mut S,
    height: Height,
) -> Result<Option<Round>, Fault<V::Commitment>>
    requires intact { (S.held stores.old).intact ≡ true }
    requires once { EachHeightOnce (S.held stores.old).certs.held }
    ensures same { OnOk result (S.held stores.new ≡ record (S.held stores.old) { watches = (S.held stores.new).watches }) }
    ensures round { IfOk result (λ r. r ≡ option_map (λ x. x.value.round) (newest_upto (S.held stores.old).certs.held height)) }
    ensures goes_on { GoesOn (fault_of V.Commitment.bytes) (S.held stores.old) nothing_written (S.held stores.new) result }
    ensures usual { IfErr result (λ e. IsUsual (fault_of V.Commitment.bytes e)) }
{
    match last_upto(stores.certificates_held().as_slice(), height) {
        None => Ok(None),
        Some(newest) => round_at::<V, S>(stores, newest),
    }
}

/// The greatest of the stored cutoff, the two rounds, and the epoch that is closed at the successor, or else at the
/// processed height.
fn derived_cutoff<V: Variant, S: Holds<V>, E: Epocher>(
    stores: &S,
    epocher: &E,
    newest: &Option<Round>,
    successor: &Option<Round>,
) -> Cutoff
    requires below { first_unprocessed (S.held stores.now).processed < 2 ^ 64 }
    ensures { cutoff_of result ≡ greatest_of (S.held stores.now).cutoff (option_to_list (option_map at_round newest.now)
        ++ option_to_list (option_map at_round successor.now) ++ option_to_list (option_map at_epoch
        (closed_epoch_at (E.epochs epocher.now) successor.now (pair_in (S.held stores.now)).processed
        (next_after (pair_in (S.held stores.now)).processed)))) }
{
    let closed = closed_at::<V, S, E>(stores, epocher, successor);
    let cutoff = raised_to(stores.floor().cutoff(), newest);
    let cutoff = raised_to(cutoff, successor);
    raised_over(cutoff, closed)
}

/// The epoch that is closed at the successor, or else at the processed height.
fn closed_at<V: Variant, S: Holds<V>, E: Epocher>(
    stores: &S,
    epocher: &E,
    successor: &Option<Round>,
) -> Option<Epoch>
    requires below { first_unprocessed (S.held stores.now).processed < 2 ^ 64 }
    ensures { result ≡ closed_epoch_at (E.epochs epocher.now) successor.now (pair_in (S.held stores.now)).processed
        (next_after (pair_in (S.held stores.now)).processed) }
{
    let floor = stores.floor();
    match (successor, floor.processed()) {
        (Some(_round), _processed) => closed_epoch(epocher, floor.next_height()),
        (None, Some(processed)) => closed_epoch(epocher, processed.height()),
        (None, None) => None,
    }
}

/// Sets the cutoff to this one and makes it durable, where it is another.
fn raise_to<V: Variant, S: Holds<V>>(
    stores: &mut S,
    cutoff: &Cutoff,
) -> Result<(), Fault<V::Commitment>>
    requires intact { (S.held stores.old).intact ≡ true }
    requires pairs { (S.held stores.old).pairs ≡ pair_in (S.held stores.old) ∷ [] }
    ensures same { OnOk result (S.held stores.new ≡ record (S.held stores.old) {
      cutoff = cutoff_of cutoff.now;
      pairs = pair_of (S.held stores.old).processed
          (cutoff_of cutoff.now) ∷ [];
      watches = (S.held stores.new).watches;
    }) }
    ensures passed { OnOk result (ArePassed (S.held stores.old).watches (S.held stores.new).watches) }
    ensures lost { LosesSince (fault_of V.Commitment.bytes) (S.held stores.old)
        (written_pair (pair_of (S.held stores.old).processed (cutoff_of cutoff.now))) (S.held stores.new) result }
    ensures usual { IfErr result (λ e. IsUsual (fault_of V.Commitment.bytes e)) }
{
    stores.law();
    if stores.floor().cutoff() == *cutoff {
        return Ok(());
    }
    stores.set_cutoff(cutoff)?;
    stores.sync_metadata()
}

/// The greater of a cutoff and a round's, if there is one.
fn raised_to(cutoff: Cutoff, round: &Option<Round>) -> Cutoff
    ensures { cutoff_of result ≡ greatest_of (cutoff_of cutoff) (option_to_list (option_map at_round round.now)) }
{
    match round {
        None => cutoff,
        Some(round) => cutoff.raised_to(Cutoff::Round(*round)),
    }
}

/// The greater of a cutoff and an epoch's, if there is one.
fn raised_over(cutoff: Cutoff, epoch: Option<Epoch>) -> Cutoff
    ensures { cutoff_of result ≡ greatest_of (cutoff_of cutoff) (option_to_list (option_map at_epoch epoch)) }
{
    match epoch {
        None => cutoff,
        Some(epoch) => cutoff.raised_to(Cutoff::Epoch(epoch)),
    }
}
