//! Where the entry of an index and that of a key stand.
ghost use Rattle.std.specs.Prelude.{◌≡◌, ◌==◌, ℕ, None, Some, OnOk, if◌then◌else◌, bytes_eq};
ghost use Rattle.std.specs.Ordering.{nat_cmp};
ghost use Rattle.std.specs.BTreeMap.{get};
ghost use Rattle.mar_types.specs.Places.{or_place};
ghost use Rattle.mar_store.specs.Choices.{place_below};

use crate::ItemKey;
use std::alloc::{AllocError, Global};
use std::collections::BTreeMap;

/// The first place of each index and of each key.
#[derive(Drop)]
pub struct EntryPlaces<K: ItemKey> {
    by_index: BTreeMap<u64, usize>,
    by_key: BTreeMap<K, usize>,
}

impl<K: ItemKey> EntryPlaces<K> {
    pub fn new(alloc: Global) -> Self
        ensures indexes { (h : ℕ) → get nat_cmp result.by_index h ≡ None }
        ensures keys { (k : K) → get K.cmp result.by_key k ≡ None }
    {
        EntryPlaces {
            by_index: BTreeMap::new(alloc),
            by_key: BTreeMap::new(alloc),
        }
    }

    /// The place of an index.
    pub fn place_at(&self, index: u64) -> Option<usize>
        ensures { result ≡ get nat_cmp self.now.by_index index }
    {
        self.by_index.get(&index).copied()
    }

    /// The place of a key.
    pub fn place_of(&self, key: &K) -> Option<usize>
        ensures { result ≡ get K.cmp self.now.by_key key.now }
    {
        self.by_key.get(key).copied()
    }

    /// Forgets the places from one on.
    pub fn keep_below(&mut self, end: usize)
        ensures indexes { (h : ℕ) → get nat_cmp self.new.by_index h ≡ place_below end (get nat_cmp self.old.by_index h) }
        ensures keys { (k : K) → get K.cmp self.new.by_key k ≡ place_below end (get K.cmp self.old.by_key k) }
    {
        forget_from(&mut self.by_index, end);
        forget_from(&mut self.by_key, end);
    }

    /// Notes a place, but where the index or the key has one already.
    pub fn note(&mut self, index: u64, key: K, place: usize) -> Result<(), AllocError>
        ensures indexes { OnOk result ((h : ℕ) → get nat_cmp self.new.by_index h
            ≡ or_place (get nat_cmp self.old.by_index h) (if index == h then Some place else None)) }
        ensures keys { OnOk result ((k : K) → get K.cmp self.new.by_key k
            ≡ or_place (get K.cmp self.old.by_key k) (if bytes_eq (K.bytes key) (K.bytes k) then Some place else None)) }
    {
        // Hardly any has one, so that it is cheaper to put its place back than to look first.
        if let Some(first) = self.by_index.insert(index, place)? {
            self.by_index.insert(index, first)?;
        }
        if let Some(first) = self.by_key.insert(key, place)? {
            self.by_key.insert(key, first)?;
        }
        Ok(())
    }
}

// Forgets the places from one on.
fn forget_from<K: Ord + Drop>(places: &mut BTreeMap<K, usize>, end: usize)
    ensures { (k : K) → get K.cmp places.new k ≡ place_below end (get K.cmp places.old k) }
{
    places.retain(|_, place| *place < end);
}
