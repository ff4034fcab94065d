//! A metadata store in memory.
ghost use Rattle.std.specs.Prelude.{◌≡◌, None, OnOk, Some, [], ◌∷◌, IfOk};
ghost use Rattle.mar_store.specs.Alarms.{alarm_watch, fresh_watch};
ghost use Rattle.mar_store.specs.Luck.{keeps_by, lucky_values};
ghost use Rattle.mar_store.specs.Watch.{by_lowest_bit};
ghost use Rattle.mar_store.specs.MemMeta.{values_of, left_with, some_left};
ghost use Rattle.mar_store.specs.Values.{IsLastKey, no_values, with_key};

use crate::alarm::Alarm;
use crate::{Lost, Meta, MetaRuin};
use std::alloc::{AllocError, Global};
use std::collections::BTreeMap;

/// A map in memory, beside it the one of the last sync, and the keys that were changed since. A reopening finds the map
/// of a sync that failed where the lowest bit of luck is set.
#[derive(Drop)]
pub struct MemMeta {
    values: BTreeMap<u64, u64>,
    synced: BTreeMap<u64, u64>,
    changed: Vec<u64>,
    alarm: Alarm,
}

/// What is left of a `MemMeta`: the map of the last sync that succeeded, and that of one that failed since.
#[derive(Drop)]
pub struct MemMetaWreck {
    synced: BTreeMap<u64, u64>,
    failed: Option<BTreeMap<u64, u64>>,
    changed: Vec<u64>,
    alarm: Alarm,
}

impl MemMeta {
    /// A store with no values.
    pub fn new(alloc: Global) -> Self
        ensures current { ⟦<MemMeta as Meta>⟧.current result ≡ no_values }
        ensures left { ⟦<MemMeta as Meta>⟧.left result ≡ no_values ∷ [] }
        ensures watch { ⟦<MemMeta as Meta>⟧.watch result ≡ fresh_watch (Some by_lowest_bit) }
        ensures changed { ⟦<MemMeta as Meta>⟧.changed result ≡ [] }
    {
        MemMeta {
            values: BTreeMap::new(alloc),
            synced: BTreeMap::new(alloc),
            changed: Vec::new(alloc),
            alarm: Alarm::new(alloc),
        }
    }

    // What a sync that failed leaves: the synced values, and after them those that it was to write.
    fn unsynced(self) -> MemMetaWreck
        ensures synced { result.synced ≡ self.synced }
        ensures failed { result.failed ≡ Some self.values }
        ensures alarm { result.alarm ≡ self.alarm }
    {
        MemMetaWreck {
            synced: self.synced,
            failed: Some(self.values),
            changed: self.changed,
            alarm: self.alarm,
        }
    }
}

impl MemMetaWreck {
    // The map of the sync that failed, where there is one and the lowest bit of luck is set, or else that of the
    // last sync, and a copy of it.
    fn found(&self, luck: u64) -> Result<(BTreeMap<u64, u64>, BTreeMap<u64, u64>), AllocError>
        ensures found { IfOk result (λ m. values_of m.0 ≡ lucky_values (keeps_by by_lowest_bit luck 0) (left_with self.now.synced self.now.failed)) }
        ensures copy { IfOk result (λ m. values_of m.1 ≡ values_of m.0) }
    {
        let found = match &self.failed {
            Some(values) if luck % 2 == 1 => values,
            _ => &self.synced,
        };
        Ok((found.clone()?, found.clone()?))
    }
}

// Adds a key to those that were changed, where it isn't among them.
fn note(changed: &mut Vec<u64>, key: u64) -> Result<(), AllocError>
    ensures { OnOk result (changed.new.items ≡ with_key key changed.old.items) }
{
    if !changed.contains(&key) {
        changed.push(key)?;
    }
    Ok(())
}

/// The greatest key of a map.
pub fn greatest_key(values: &BTreeMap<u64, u64>) -> Option<u64>
    ensures { IsLastKey (values_of values.now) result }
{
    match values.last_key_value() {
        Some((key, _)) => Some(*key),
        None => None,
    }
}

impl MetaRuin for MemMetaWreck {
    ghost left = { λ w. left_with w.synced w.failed };

    ghost watch = { λ w. alarm_watch (Some by_lowest_bit) w.alarm };

    fn synced(&self, key: u64) -> Option<u64> {
        self.synced.get(&key).copied()
    }

    fn arm(&mut self, calls: u64) -> Result<(), AllocError> {
        self.alarm.arm(calls)
    }

    ghost some = { λ w. some_left w.synced w.failed };
}

impl Meta for MemMeta {
    type Wreck = MemMetaWreck;

    ghost current = { λ s. values_of s.values };

    ghost left = { λ s. values_of s.synced ∷ [] };

    ghost changed = { λ s. s.changed.items };

    ghost watch = { λ s. alarm_watch (Some by_lowest_bit) s.alarm };

    ghost some = { λ s. some_left s.synced None };

    fn get(&self, key: u64) -> Option<u64> {
        self.values.get(&key).copied()
    }

    fn last_key(&self) -> Option<u64> {
        greatest_key(&self.values)
    }

    fn put(self, key: u64, value: u64) -> Result<Self, Lost<MemMetaWreck>> {
        let mut store = self;
        if note(&mut store.changed, key).is_err() {
            return Err(Lost::Memory(store.wreck()));
        }
        match store.values.insert(key, value) {
            Ok(_) => Ok(store),
            Err(_) => Err(Lost::Memory(store.wreck())),
        }
    }

    fn remove(self, key: u64) -> Result<Self, Lost<MemMetaWreck>> {
        let mut store = self;
        if note(&mut store.changed, key).is_err() {
            return Err(Lost::Memory(store.wreck()));
        }
        let _ = store.values.remove(&key);
        Ok(store)
    }

    fn sync(self) -> Result<Self, Lost<MemMetaWreck>> {
        let mut store = self;
        if store.alarm.rings() {
            return Err(Lost::Fault(store.unsynced()));
        }
        match store.values.clone() {
            Ok(synced) => {
                store.changed.clear();
                Ok(MemMeta { synced, ..store })
            }
            Err(_) => Err(Lost::Memory(store.unsynced())),
        }
    }

    fn wreck(self) -> MemMetaWreck {
        MemMetaWreck {
            synced: self.synced,
            failed: None,
            changed: self.changed,
            alarm: self.alarm,
        }
    }

    fn reopen(wreck: MemMetaWreck, luck: u64) -> Result<Self, Lost<MemMetaWreck>> {
        let mut wreck = wreck;
        if wreck.alarm.rings() {
            return Err(Lost::Fault(wreck));
        }
        match wreck.found(luck) {
            Ok((values, synced)) => {
                wreck.changed.clear();
                Ok(MemMeta {
                    values,
                    synced,
                    changed: wreck.changed,
                    alarm: wreck.alarm,
                })
            }
            Err(_) => Err(Lost::Memory(wreck)),
        }
    }

    fn arm(&mut self, calls: u64) -> Result<(), AllocError> {
        self.alarm.arm(calls)
    }
}
