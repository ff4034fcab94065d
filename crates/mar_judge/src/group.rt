//! The certificates of a batch that wait for a verdict, by epoch.
ghost use Rattle.std.specs.Prelude.{[], ◌++◌, ◌∷◌, ◌≡◌, ◌<◌, IfOk, IfSome, OnOk, Some, length, map, option_map, slice_get};
ghost use Rattle.std.specs.Vec.{vec_items};
ghost use Rattle.mar_judge.specs.Groups.{AreGroups, IsGroup, IsOfEpoch, IsOpen, KeepsClaims, claim_at, claims_of, told_at, verdicts_on};
ghost use Rattle.mar_judge.specs.Rules.{Claim, verdict_on};
ghost use Rattle.mar_judge.specs.declared.group.Group.{Group as GroupOf};

use crate::seat::Judge;
use mar_types::Epoch;
use std::alloc::{AllocError, Global};

/// The claims of an epoch, and the scope that they were admitted under; no scope where the provider has none for the
/// epoch.
#[derive(Drop)]
pub(crate) struct Group<S, C> {
    pub epoch: Epoch,
    pub scope: Option<S>,
    pub claims: Vec<C>,
}

// Adds an item at the end, and tells its place.
pub(crate) fn push<T: Drop>(items: &mut Vec<T>, item: T) -> Result<usize, AllocError>
    ensures pushed { OnOk result (items.new.items ≡ items.old.items ++ item ∷ []) }
    ensures place { IfOk result (λ place. place ≡ length items.old.items) }
{
    let place = items.len();
    match items.push(item) {
        Ok(()) => Ok(place),
        Err(_) => Err(AllocError),
    }
}

// The place of the epoch's group.
fn place_of<S, C>(groups: &[Group<S, C>], epoch: Epoch) -> Option<usize>
    ensures { IfSome result (λ place. IsOfEpoch groups.now place epoch) }
{
    'seeking: for (place, group) in groups.iter().enumerate() {
        if group.epoch == epoch {
            return Some(place);
        }
    }
    None
}

/// The place of the epoch's group. The provider is asked for the scope where the epoch has no group yet, so once a
/// batch.
pub(crate) fn enter<J: Judge>(
    judge: &J,
    alloc: Global,
    groups: &mut Vec<Group<J::Scope, J::Claim>>,
    epoch: Epoch,
) -> Result<usize, AllocError>
    requires { AreGroups J.claimed (J.judges judge.now) (J.rules judge.now).scoped groups.old.items }
    ensures groups { OnOk result (AreGroups J.claimed (J.judges judge.now) (J.rules judge.now).scoped
        groups.new.items) }
    ensures kept { OnOk result (KeepsClaims (claims_of J.claimed groups.old.items)
        (claims_of J.claimed groups.new.items)) }
    ensures placed { IfOk result (λ place. IsOfEpoch groups.new.items place epoch) }
{
    match place_of(groups.as_slice(), epoch) {
        Some(place) => Ok(place),
        None => {
            let scope = judge.scope_of(epoch);
            let claims = Vec::new(alloc);
            push(
                groups,
                Group {
                    epoch,
                    scope,
                    claims,
                },
            )
        }
    }
}

/// The scope of a group, where it has one.
pub(crate) fn scope_in<S, C>(groups: &Vec<Group<S, C>>, group: usize) -> Option<&S>
    requires { group < length groups.now.items }
    ensures { (x : GroupOf S C) → slice_get groups.now.items group ≡ Some x
        → option_map (λ s. s.now) result ≡ x.scope }
{
    groups[group].scope.as_ref()
}

/// Adds a claim behind those of a group that has a scope, and tells its place there.
pub(crate) fn add<J: Judge>(
    judge: &J,
    groups: &mut Vec<Group<J::Scope, J::Claim>>,
    group: usize,
    claim: J::Claim,
) -> Result<usize, AllocError>
    requires open { IsOpen groups.old.items group (J.claimed claim).certificate.round.epoch }
    requires groups { AreGroups J.claimed (J.judges judge.now) (J.rules judge.now).scoped groups.old.items }
    ensures groups { OnOk result (AreGroups J.claimed (J.judges judge.now) (J.rules judge.now).scoped
        groups.new.items) }
    ensures kept { OnOk result (KeepsClaims (claims_of J.claimed groups.old.items)
        (claims_of J.claimed groups.new.items)) }
    ensures placed { IfOk result (λ place. claim_at (claims_of J.claimed groups.new.items) group place
        ≡ Some (J.claimed claim)) }
{
    push(&mut groups[group].claims, claim)
}

/// The claim at a place of a group.
pub(crate) fn claim_in<S, C>(groups: &[Group<S, C>], group: usize, place: usize) -> Option<&C>
    ensures { (plain : C → Claim) → option_map (λ c. plain c.now) result ≡ claim_at
        (claims_of plain groups.now) group place }
{
    match groups.get(group) {
        Some(group) => group.claims.as_slice().get(place),
        None => None,
    }
}

/// The verdict on the claim at a place of a group.
pub(crate) fn verdict_at(told: &[Vec<bool>], group: usize, place: usize) -> bool
    ensures { result ≡ told_at (map vec_items told.now) group place }
{
    match told.get(group) {
        Some(bits) => match bits.as_slice().get(place) {
            Some(bit) => *bit,
            None => false,
        },
        None => false,
    }
}

// The verdicts on the claims of a group.
fn verify_group<J: Judge>(
    judge: &J,
    alloc: Global,
    group: &Group<J::Scope, J::Claim>,
) -> Result<Vec<bool>, AllocError>
    requires { IsGroup J.claimed (J.judges judge.now) (J.rules judge.now).scoped group.now }
    ensures { IfOk result (λ v. v.items ≡ map (verdict_on (J.rules judge.now))
        (map J.claimed group.now.claims.items)) }
{
    match &group.scope {
        Some(scope) => judge.verify(alloc, scope, group.claims.as_slice()),
        None => Ok(Vec::new(alloc)),
    }
}

/// The verdicts on all claims, group by group, each under the scope of its own epoch.
pub(crate) fn verify_all<J: Judge>(
    judge: &J,
    alloc: Global,
    groups: &[Group<J::Scope, J::Claim>],
) -> Result<Vec<Vec<bool>>, AllocError>
    requires { AreGroups J.claimed (J.judges judge.now) (J.rules judge.now).scoped groups.now }
    ensures { IfOk result (λ told. map vec_items told.items
        ≡ verdicts_on (J.rules judge.now) (claims_of J.claimed groups.now)) }
{
    let mut told = Vec::new(alloc);
    'groups: for group in groups {
        let bits = verify_group(judge, alloc, group)?;
        push(&mut told, bits)?;
    }
    Ok(told)
}
