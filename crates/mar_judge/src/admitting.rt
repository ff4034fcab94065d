//! Where a delivery stands once its bytes were read: finished, or waiting for the verdict on its certificate.
ghost use Rattle.std.specs.Prelude.{◌≡◌, IfOk, List, OnOk, if◌then◌else◌, map};
ghost use Rattle.std.specs.List.{list_any};
ghost use Rattle.mar_key.specs.Keys.{Annotation as PlainAnnotation, block_key, finalized_key, notarized_key};
ghost use Rattle.mar_key.specs.Views.{annotation_of, key_of};
ghost use Rattle.mar_model.specs.Config.{Config};
ghost use Rattle.mar_block.specs.Expected.{commitment_of};
ghost use Rattle.mar_block.specs.declared.ExpectedCommitment.{ExpectedCommitment as Expected};
ghost use Rattle.mar_judge.specs.Found.{IsPlacedAs};
ghost use Rattle.mar_judge.specs.Groups.{AreGroups, KeepsClaims, claims_of};
ghost use Rattle.mar_judge.specs.Rules.{Claim};
ghost use Rattle.mar_judge.specs.Views.{is_vouched, place_of};

use crate::answer::Answer;
use crate::group::{Group, add, enter, scope_in};
use crate::place::Place;
use crate::reading::{read_final, read_notarized};
use crate::seat::Judge;
use bytes::{Buf, Bytes};
use mar_block::ExpectedCommitment;
use mar_key::{Annotation, Key, Outcome};
use mar_types::{Error, Height, Round};
use std::alloc::{AllocError, Global};

// Whether somebody who asked vouches for the block: it was certified, or is one of the finalized chain.
fn vouches(annotation: &Annotation) -> bool
    ensures { result ≡ is_vouched (annotation_of annotation.now) }
{
    match annotation {
        Annotation::Certified { .. } | Annotation::Finalized(_) => true,
        Annotation::Untrusted { .. } | Annotation::Notarization { .. } => false,
    }
}

// Whether anybody who asked vouches for the block.
fn is_trusted(annotations: &[Annotation]) -> bool
    ensures { result ≡ list_any (λ a. is_vouched (annotation_of a)) annotations.now }
{
    annotations.iter().any(|annotation| vouches(annotation))
}

// The commitment of the block, and whether anybody vouches for it.
fn expected_of<C>(commitment: C, annotations: &[Annotation]) -> ExpectedCommitment<C>
    ensures commitment { commitment_of result ≡ commitment }
    ensures trusted { result ≡ if list_any (λ a. is_vouched (annotation_of a)) annotations.now
        then Expected.Trusted commitment else Expected.Untrusted commitment }
{
    if is_trusted(annotations) {
        ExpectedCommitment::Trusted(commitment)
    } else {
        ExpectedCommitment::Untrusted(commitment)
    }
}

// A block that came for its commitment is finished at once.
fn admit_block<J: Judge>(
    judge: &J,
    alloc: Global,
    commitment: J::Commitment,
    annotations: &[Annotation],
    bytes: &[u8],
) -> Result<Place<J::Block, J::Finalization, J::Notarization>, AllocError>
    ensures { (config : Config) (claims : List (List Claim)) → IfOk result (λ place. IsPlacedAs
        (J.rules judge.now) config claims
        (block_key (J.Commitment.bytes commitment)) bytes.now (map annotation_of annotations.now)
        (place_of J.plain J.finalization J.notarization place)) }
{
    match judge.read_block(alloc, bytes, expected_of(commitment, annotations)) {
        Ok(block) => {
            let annotations = annotations.to_vec(alloc)?;
            Ok(Place::Finished(Outcome::Complete, Answer::Block(block, annotations)))
        }
        Err(Error::Memory) => Err(AllocError),
        Err(_) => Ok(Place::Finished(Outcome::Invalid, Answer::Nothing)),
    }
}

// A finalization and its block that came for a height.
fn admit_finalized<J: Judge>(
    judge: &J,
    alloc: Global,
    groups: &mut Vec<Group<J::Scope, J::Claim>>,
    height: Height,
    bytes: &[u8],
) -> Result<Place<J::Block, J::Finalization, J::Notarization>, AllocError>
    requires { AreGroups J.claimed (J.judges judge.now) (J.rules judge.now).scoped groups.old.items }
    ensures groups { OnOk result (AreGroups J.claimed (J.judges judge.now) (J.rules judge.now).scoped
        groups.new.items) }
    ensures kept { OnOk result (KeepsClaims (claims_of J.claimed groups.old.items)
        (claims_of J.claimed groups.new.items)) }
    ensures placed { (config : Config) (annotations : List PlainAnnotation) → IfOk result (λ place. IsPlacedAs
        (J.rules judge.now)
        config (claims_of J.claimed groups.new.items) (finalized_key height) bytes.now annotations
        (place_of J.plain J.finalization J.notarization place)) }
{
    let Some(epoch) = judge.epoch_of(height) else {
        return Ok(Place::Finished(Outcome::Ignored, Answer::Nothing));
    };
    let group = enter(judge, alloc, groups, epoch)?;
    let Some(_scope) = scope_in(groups, group) else {
        return Ok(Place::Finished(Outcome::Ignored, Answer::Nothing));
    };
    match read_final(judge, alloc, epoch, height, bytes)? {
        Some((claim, block)) => {
            let place = add(judge, groups, group, claim)?;
            Ok(Place::Finalized(group, place, block))
        }
        None => Ok(Place::Finished(Outcome::Invalid, Answer::Nothing)),
    }
}

// A notarization that came for its round, and what stands behind it.
fn admit_notarized<J: Judge>(
    judge: &J,
    alloc: Global,
    groups: &mut Vec<Group<J::Scope, J::Claim>>,
    round: Round,
    value: &Bytes,
) -> Result<Place<J::Block, J::Finalization, J::Notarization>, AllocError>
    requires { AreGroups J.claimed (J.judges judge.now) (J.rules judge.now).scoped groups.old.items }
    ensures groups { OnOk result (AreGroups J.claimed (J.judges judge.now) (J.rules judge.now).scoped
        groups.new.items) }
    ensures kept { OnOk result (KeepsClaims (claims_of J.claimed groups.old.items)
        (claims_of J.claimed groups.new.items)) }
    ensures placed { (config : Config) (annotations : List PlainAnnotation) → IfOk result (λ place. IsPlacedAs
        (J.rules judge.now)
        config (claims_of J.claimed groups.new.items) (notarized_key round) value.now annotations
        (place_of J.plain J.finalization J.notarization place)) }
{
    let group = enter(judge, alloc, groups, round.epoch())?;
    let Some(scope) = scope_in(groups, group) else {
        return Ok(Place::Finished(Outcome::Ignored, Answer::Nothing));
    };
    match read_notarized(judge, alloc, scope, round, value.as_slice())? {
        Some((claim, size)) => {
            let mut rest = value.clone()?;
            rest.advance(size);
            let place = add(judge, groups, group, claim)?;
            Ok(Place::Notarized(group, place, rest))
        }
        None => Ok(Place::Finished(Outcome::Invalid, Answer::Nothing)),
    }
}

/// Where a delivery stands: what came for its key is read and checked, in order, as far as that goes without a
/// verdict.
pub(crate) fn admit<J: Judge>(
    judge: &J,
    alloc: Global,
    groups: &mut Vec<Group<J::Scope, J::Claim>>,
    key: Key<J::Commitment>,
    annotations: &[Annotation],
    value: &Bytes,
) -> Result<Place<J::Block, J::Finalization, J::Notarization>, AllocError>
    requires { AreGroups J.claimed (J.judges judge.now) (J.rules judge.now).scoped groups.old.items }
    ensures groups { OnOk result (AreGroups J.claimed (J.judges judge.now) (J.rules judge.now).scoped
        groups.new.items) }
    ensures kept { OnOk result (KeepsClaims (claims_of J.claimed groups.old.items)
        (claims_of J.claimed groups.new.items)) }
    ensures placed { (config : Config) → IfOk result (λ place. IsPlacedAs (J.rules judge.now)
        config (claims_of J.claimed groups.new.items) (key_of J.Commitment.bytes key) value.now
        (map annotation_of annotations.now) (place_of J.plain J.finalization J.notarization place)) }
{
    match key {
        Key::Block(commitment) => {
            admit_block(judge, alloc, commitment, annotations, value.as_slice())
        }
        Key::Finalized { height } => {
            admit_finalized(judge, alloc, groups, height, value.as_slice())
        }
        Key::Notarized { round } => admit_notarized(judge, alloc, groups, round, value),
    }
}
