//! Where blocks stand, by their names.
ghost use Rattle.std.specs.Prelude.{◌≡◌, None, Some, IfOk, OnErr, OnOk, bytes_eq, if◌then◌else◌, is_some, not};
ghost use Rattle.std.specs.BTreeMap.{get};
ghost use Rattle.mar_types.specs.Places.{or_place};

use crate::Variant;
use mar_types::Digest;
use std::alloc::{AllocError, Global};
use std::collections::BTreeMap;

/// The first place of each name.
#[derive(Drop)]
pub struct FirstPlaces<D: Digest> {
    places: BTreeMap<D, usize>,
}

impl<D: Digest> FirstPlaces<D> {
    /// No name has a place.
    pub fn new(alloc: Global) -> Self
        ensures { (d : D) → get D.cmp result.places d ≡ None }
    {
        FirstPlaces {
            places: BTreeMap::new(alloc),
        }
    }

    /// The place of a name.
    pub fn place_of(&self, name: &D) -> Option<usize>
        ensures { result ≡ get D.cmp self.now.places name.now }
    {
        self.places.get(name).copied()
    }

    /// Notes the place of a name that has none, and says whether it did.
    pub fn note(&mut self, name: D, place: usize) -> Result<bool, AllocError>
        ensures ok { OnOk result ((d : D) → get D.cmp self.new.places d
            ≡ or_place (get D.cmp self.old.places d)
            (if bytes_eq (D.bytes name) (D.bytes d) then Some place else None)) }
        ensures noted { IfOk result (λ noted. noted ≡ not (is_some (get D.cmp self.old.places name))) }
        ensures err { OnErr result ((d : D) → get D.cmp self.new.places d ≡ get D.cmp self.old.places d) }
    {
        if self.places.get(&name).is_some() {
            return Ok(false);
        }
        self.places.insert(name, place)?;
        Ok(true)
    }

    /// Forgets the place of a name.
    pub fn forget(&mut self, name: &D)
        ensures { (d : D) → get D.cmp self.new.places d
            ≡ (if bytes_eq (D.bytes name.now) (D.bytes d) then None else get D.cmp self.old.places d) }
    {
        let _ = self.places.remove(name);
    }
}

/// The first place of each digest and of each commitment.
#[derive(Drop)]
pub struct BlockPlaces<V: Variant>
where
    V::Digest: Digest,
    V::Commitment: Digest,
{
    pub digests: FirstPlaces<V::Digest>,
    pub commitments: FirstPlaces<V::Commitment>,
}

impl<V: Variant> BlockPlaces<V>
where
    V::Digest: Digest,
    V::Commitment: Digest,
{
    /// No name has a place.
    pub fn new(alloc: Global) -> Self
        ensures digests { (d : V.Digest) → get V.Digest.cmp result.digests.places d ≡ None }
        ensures commitments { (c : V.Commitment) → get V.Commitment.cmp result.commitments.places c ≡ None }
    {
        BlockPlaces {
            digests: FirstPlaces::new(alloc),
            commitments: FirstPlaces::new(alloc),
        }
    }

    /// Notes the place of both names, but where one has a place already. Where memory runs out neither is noted.
    pub fn note(
        &mut self,
        digest: V::Digest,
        commitment: V::Commitment,
        place: usize,
    ) -> Result<(), AllocError>
        ensures digests { OnOk result ((d : V.Digest) → get V.Digest.cmp self.new.digests.places d
            ≡ or_place (get V.Digest.cmp self.old.digests.places d)
            (if bytes_eq (V.Digest.bytes digest) (V.Digest.bytes d) then Some place else None)) }
        ensures commitments { OnOk result ((c : V.Commitment) → get V.Commitment.cmp self.new.commitments.places c
            ≡ or_place (get V.Commitment.cmp self.old.commitments.places c)
            (if bytes_eq (V.Commitment.bytes commitment) (V.Commitment.bytes c) then Some place else None)) }
        ensures no_digest { OnErr result ((d : V.Digest) → get V.Digest.cmp self.new.digests.places d
            ≡ get V.Digest.cmp self.old.digests.places d) }
        ensures no_commitment { OnErr result ((c : V.Commitment) → get V.Commitment.cmp self.new.commitments.places c
            ≡ get V.Commitment.cmp self.old.commitments.places c) }
    {
        let noted = self.digests.note(digest, place)?;
        match self.commitments.note(commitment, place) {
            Ok(_) => Ok(()),
            Err(error) => {
                if noted {
                    self.digests.forget(&digest);
                }
                Err(error)
            }
        }
    }
}
