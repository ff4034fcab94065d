//! What becomes of a delivery once the verdicts are there.
ghost use Rattle.std.specs.Prelude.{◌≡◌, ℕ, IfOk, List, MatchOption, map};
ghost use Rattle.std.specs.Vec.{vec_items};
ghost use Rattle.mar_cert.specs.Block.{Block as PlainBlock};
ghost use Rattle.mar_key.specs.Keys.{Annotation as PlainAnnotation, Key as PlainKey};
ghost use Rattle.mar_key.specs.Recorded.{outcome_of};
ghost use Rattle.mar_model.specs.Config.{Config};
ghost use Rattle.mar_model.specs.Event.{gave_finalized, gave_notarized};
ghost use Rattle.mar_model.specs.Judge.{Judges};
ghost use Rattle.mar_judge.specs.Found.{IsPlacedAs, final_at, notarized_at};
ghost use Rattle.mar_judge.specs.Groups.{claims_of, verdicts_on};
ghost use Rattle.mar_judge.specs.Rules.{IsBlockOf, IsNoBlockOf, settled};
ghost use Rattle.mar_judge.specs.Views.{answer_of, place_of};

use crate::answer::Answer;
use crate::group::{Group, claim_in, verdict_at};
use crate::place::Place;
use crate::seat::Judge;
use mar_block::ExpectedCommitment;
use mar_key::Outcome;
use mar_types::Error;
use std::alloc::{AllocError, Global};

// What comes of a finalization that verifies.
fn complete_final<J: Judge>(
    claim: &J::Claim,
    block: J::Block,
) -> Result<Answer<J::Block, J::Finalization, J::Notarization>, AllocError>
    ensures { IfOk result (λ a. answer_of J.plain J.finalization J.notarization a
        ≡ gave_finalized (J.claimed claim.now).certificate (J.plain block)) }
{
    let finalization = J::to_finalization(claim)?;
    Ok(Answer::Finalized(finalization, block))
}

// What comes of a notarization that verifies: the block behind it is read only now.
fn complete_notarized<J: Judge>(
    judge: &J,
    alloc: Global,
    claim: &J::Claim,
    bytes: &[u8],
) -> Result<Option<Answer<J::Block, J::Finalization, J::Notarization>>, AllocError>
    ensures { IfOk result (λ o. MatchOption o
        (IsNoBlockOf (J.rules judge.now) bytes.now (J.claimed claim.now).certificate.payload)
        (λ a. (b : PlainBlock) × IsBlockOf (J.rules judge.now) bytes.now (J.claimed claim.now).certificate.payload b
        × (answer_of J.plain J.finalization J.notarization a ≡ gave_notarized (J.claimed claim.now).certificate b))) }
{
    let expected = ExpectedCommitment::Untrusted(J::payload(claim));
    match judge.read_block(alloc, bytes, expected) {
        Ok(block) => {
            let notarization = J::to_notarization(claim)?;
            Ok(Some(Answer::Notarized(notarization, block)))
        }
        Err(Error::Memory) => Err(AllocError),
        Err(_) => Ok(None),
    }
}

// The outcome of a finalization and its block.
fn conclude_final<J: Judge>(
    judge: &J,
    groups: &[Group<J::Scope, J::Claim>],
    told: &[Vec<bool>],
    at: (usize, usize),
    block: J::Block,
) -> Result<(Outcome, Answer<J::Block, J::Finalization, J::Notarization>), AllocError>
    ensures { (config : Config) (key : PlainKey) (bytes : List ℕ) (annotations : List PlainAnnotation)
        → map vec_items told.now ≡ verdicts_on (J.rules judge.now) (claims_of J.claimed groups.now)
        → IsPlacedAs (J.rules judge.now) config (claims_of J.claimed groups.now) key bytes annotations
        (final_at at.0 at.1 (J.plain block))
        → IfOk result (λ r. Judges (J.rules judge.now).reading (settled
        (J.rules judge.now) config) key bytes annotations
        (answer_of J.plain J.finalization J.notarization r.1) (outcome_of r.0)) }
{
    let (group, place) = at;
    if !verdict_at(told, group, place) {
        return Ok((Outcome::Invalid, Answer::Nothing));
    }
    match claim_in(groups, group, place) {
        Some(claim) => {
            let answer = complete_final::<J>(claim, block)?;
            Ok((Outcome::Complete, answer))
        }
        None => Ok((Outcome::Invalid, Answer::Nothing)),
    }
}

// The outcome of a notarization and the bytes behind it.
fn conclude_notarized<J: Judge>(
    judge: &J,
    alloc: Global,
    groups: &[Group<J::Scope, J::Claim>],
    told: &[Vec<bool>],
    at: (usize, usize),
    rest: &[u8],
) -> Result<(Outcome, Answer<J::Block, J::Finalization, J::Notarization>), AllocError>
    ensures { (config : Config) (key : PlainKey) (bytes : List ℕ) (annotations : List PlainAnnotation)
        → map vec_items told.now ≡ verdicts_on (J.rules judge.now) (claims_of J.claimed groups.now)
        → IsPlacedAs (J.rules judge.now) config (claims_of J.claimed groups.now) key bytes annotations
        (notarized_at at.0 at.1 rest.now)
        → IfOk result (λ r. Judges (J.rules judge.now).reading (settled
        (J.rules judge.now) config) key bytes annotations
        (answer_of J.plain J.finalization J.notarization r.1) (outcome_of r.0)) }
{
    let (group, place) = at;
    if !verdict_at(told, group, place) {
        return Ok((Outcome::Invalid, Answer::Nothing));
    }
    match claim_in(groups, group, place) {
        Some(claim) => match complete_notarized(judge, alloc, claim, rest)? {
            Some(answer) => Ok((Outcome::Complete, answer)),
            None => Ok((Outcome::Invalid, Answer::Nothing)),
        },
        None => Ok((Outcome::Invalid, Answer::Nothing)),
    }
}

/// The outcome of a delivery, and what it gives, by where it stood and by the verdicts.
pub(crate) fn conclude<J: Judge>(
    judge: &J,
    alloc: Global,
    groups: &[Group<J::Scope, J::Claim>],
    told: &[Vec<bool>],
    place: Place<J::Block, J::Finalization, J::Notarization>,
) -> Result<(Outcome, Answer<J::Block, J::Finalization, J::Notarization>), AllocError>
    ensures { (config : Config) (key : PlainKey) (bytes : List ℕ) (annotations : List PlainAnnotation)
        → map vec_items told.now ≡ verdicts_on (J.rules judge.now) (claims_of J.claimed groups.now)
        → IsPlacedAs (J.rules judge.now) config (claims_of J.claimed groups.now) key bytes annotations
        (place_of J.plain J.finalization J.notarization place)
        → IfOk result (λ r. Judges (J.rules judge.now).reading (settled
        (J.rules judge.now) config) key bytes annotations
        (answer_of J.plain J.finalization J.notarization r.1) (outcome_of r.0)) }
{
    match place {
        Place::Finished(outcome, answer) => Ok((outcome, answer)),
        Place::Finalized(group, at, block) => conclude_final(
            judge,
            groups,
            told,
            (group, at),
            block,
        ),
        Place::Notarized(group, at, rest) => {
            conclude_notarized(judge, alloc, groups, told, (group, at), rest.as_slice())
        }
    }
}
