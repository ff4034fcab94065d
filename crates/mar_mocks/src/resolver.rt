//! What peers have, by keys.
ghost use Rattle.std.specs.Prelude.{OnErr, OnOk, [], ◌≡◌};
ghost use Rattle.std.specs.BTreeMap.{get, insert_entry};
ghost use Rattle.mar_mocks.specs.Entries.{HasPut, value_of};

use std::alloc::{AllocError, Global};
use std::collections::BTreeMap;
use std::marker::Model;

/// The values that were put, each under its key: they stand for what peers have. A contract sees the entries, in the
/// order of the keys.
#[derive(Drop)]
pub struct Resolver<K: Ord + Drop, V: Copy> {
    values: BTreeMap<K, V>,
}

impl<K: Ord + Drop, V: Copy> Model for Resolver<K, V> {
    ghost use Rattle.std.specs.Prelude.{List};

    ghost Value = { List (K × V) };

    ghost view = { λ r. r.values.entries };
}

impl<K: Ord + Drop, V: Copy> Resolver<K, V> {
    /// Nothing was put.
    pub fn default(alloc: Global) -> Self
        ensures { result ≡ [] }
    {
        Resolver {
            values: BTreeMap::new(alloc),
        }
    }

    /// Puts a value under a key, in place of one that stands there. Where memory runs out nothing changes.
    pub fn put(&mut self, key: K, value: V) -> Result<(), AllocError>
        ensures entries { OnOk result (self.new ≡ insert_entry K.cmp self.old key value) }
        ensures put { OnOk result (HasPut K.cmp self.old key value self.new) }
        ensures same { OnErr result (self.new ≡ self.old) }
    {
        self.values.insert(key, value)?;
        Ok(())
    }

    /// The value that was put last under a key, or none.
    pub fn get(&self, key: &K) -> Option<V>
        ensures { result ≡ value_of K.cmp self.now key.now }
    {
        self.values.get(key).copied()
    }
}
