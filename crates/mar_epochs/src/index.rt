//! Where the entries stand that searches find.
ghost use Rattle.std.specs.Prelude.{◌≡◌, None, OnOk, Some, if◌then◌else◌};
ghost use Rattle.std.specs.Ordering.{eq_by_cmp};
ghost use Rattle.std.specs.BTreeMap.{get};
ghost use Rattle.mar_epochs.specs.Spots.{is_among, is_keyed, sooner, spot_before};

use crate::keys::Keys;
use std::alloc::{AllocError, Global};
use std::collections::BTreeMap;

/// Where an entry stands: the rank of its archive, its view or its height, and its place in the order of puts.
#[derive(Clone, Copy)]
pub struct Spot {
    pub rank: u8,
    pub index: u64,
    pub place: usize,
}

impl Spot {
    // Whether the entry there is found before the one at another.
    const fn is_before(&self, other: &Spot) -> bool
        ensures { result ≡ spot_before self.now other.now }
    {
        self.rank < other.rank || (self.rank == other.rank && self.index < other.index)
    }
}

/// For each key the spot of the entry that a search for it finds.
#[derive(Drop)]
pub struct Index<K: Ord + Copy> {
    spots: BTreeMap<K, Spot>,
}

impl<K: Ord + Copy> Index<K> {
    /// The index of no entries.
    pub fn new(alloc: Global) -> Self
        ensures { (k : K) → get K.cmp result.spots k ≡ None }
    {
        Index {
            spots: BTreeMap::new(alloc),
        }
    }

    /// The spot under a key.
    pub fn spot_of(&self, key: &K) -> Option<Spot>
        ensures { result ≡ get K.cmp self.now.spots key.now }
    {
        self.spots.get(key).copied()
    }

    // Notes the spot of an entry that is put behind all others under one of its keys.
    fn note(&mut self, key: K, spot: Spot) -> Result<(), AllocError>
        ensures { OnOk result ((k : K) → get K.cmp self.new.spots k
            ≡ (if eq_by_cmp K.cmp key k then sooner (get K.cmp self.old.spots k) spot else get K.cmp self.old.spots k)) }
    {
        // Hardly any key has one, so that it is cheaper to put that back than to look first.
        if let Some(found) = self.spots.insert(key, spot)? {
            self.spots.insert(key, sooner(found, spot))?;
        }
        Ok(())
    }

    // The same where it has such a key.
    fn note_if(&mut self, key: Option<K>, spot: Spot) -> Result<(), AllocError>
        ensures { OnOk result ((k : K) → get K.cmp self.new.spots k
            ≡ (if is_keyed (eq_by_cmp K.cmp) key k then sooner (get K.cmp self.old.spots k) spot else get K.cmp self.old.spots k)) }
    {
        match key {
            Some(key) => self.note(key, spot),
            None => Ok(()),
        }
    }

    /// Notes the spot of an entry that is put behind all others under each of its keys.
    pub fn note_all(&mut self, keys: Keys<K>, spot: Spot) -> Result<(), AllocError>
        ensures { OnOk result ((k : K) → get K.cmp self.new.spots k
            ≡ (if is_among (eq_by_cmp K.cmp) keys k then sooner (get K.cmp self.old.spots k) spot else get K.cmp self.old.spots k)) }
    {
        self.note(keys.place, spot)?;
        self.note_if(keys.round, spot)?;
        self.note_if(keys.digest, spot)?;
        self.note_if(keys.commitment, spot)
    }
}

// Of an entry that was found and one put behind it, the spot of the one that is found.
const fn sooner(found: Spot, spot: Spot) -> Spot
    ensures { Some result ≡ sooner (Some found) spot }
{
    if spot.is_before(&found) { spot } else { found }
}
