//! A depot in memory.
ghost use Rattle.std.specs.Prelude.{◌≡◌, ℕ, None, true, [], ◌∷◌, IsTrue, MatchOption};
ghost use Rattle.mar_store.specs.Names.{names_of, one_left};
ghost use Rattle.mar_store.specs.Alarms.{alarm_watch, fresh_watch};

use crate::alarm::Alarm;
use crate::{Depot, DepotRuin, EmptyStore, Lost, Miss};
use std::alloc::{AllocError, Global};
use std::collections::BTreeMap;

/// A map in memory.
#[derive(Drop)]
pub struct MemDepot<T: EmptyStore> {
    contents: BTreeMap<u64, T>,
    alarm: Alarm,
    alloc: Global,
}

/// What is left of a `MemDepot`: the whole map.
#[derive(Drop)]
pub struct MemDepotWreck<T: EmptyStore> {
    contents: BTreeMap<u64, T>,
    alarm: Alarm,
    alloc: Global,
}

impl<T: EmptyStore> MemDepot<T> {
    /// A depot with no names.
    pub fn new(alloc: Global) -> Self
        ensures names { (k : ℕ) → ⟦<MemDepot<T> as Depot<T>>⟧.names result k ≡ None }
        ensures watch { ⟦<MemDepot<T> as Depot<T>>⟧.watch result ≡ fresh_watch None }
    {
        MemDepot {
            contents: BTreeMap::new(alloc),
            alarm: Alarm::new(alloc),
            alloc,
        }
    }
}

impl<T: EmptyStore> DepotRuin<T> for MemDepotWreck<T> {
    ghost left = { λ w. names_of w.contents ∷ [] };

    ghost watch = { λ w. alarm_watch None w.alarm };

    fn arm(&mut self, calls: u64) -> Result<(), AllocError> {
        self.alarm.arm(calls)
    }

    ghost some = { λ w. one_left (names_of w.contents) };
}

impl<T: EmptyStore> Depot<T> for MemDepot<T> {
    type Wreck = MemDepotWreck<T>;

    ghost told = { true };

    ghost names = { λ s. names_of s.contents };

    ghost is_empty = { T.is_empty };

    ghost watch = { λ s. alarm_watch None s.alarm };

    fn open(self, name: u64) -> Result<(Self, T), Lost<MemDepotWreck<T>>> {
        let mut depot = self;
        if depot.alarm.rings() {
            return Err(Lost::Fault(depot.wreck()));
        }
        match depot.contents.insert(name, T::empty(depot.alloc)) {
            Err(_) => Err(Lost::Memory(depot.wreck())),
            Ok(stood) => {
                let given = content_or_empty(depot.alloc, stood);
                Ok((depot, given))
            }
        }
    }

    fn close(&mut self, name: u64, content: T) {
        if let Some(place) = self.contents.get_mut(&name) {
            *place = content;
        }
    }

    fn list(&mut self) -> Result<Vec<u64>, Miss> {
        if self.alarm.rings() {
            return Err(Miss::Fault);
        }
        match self.contents.keys().copied().collect(self.alloc) {
            Ok(names) => Ok(names),
            Err(_) => Err(Miss::Memory),
        }
    }

    fn destroy(self, name: u64) -> Result<Self, Lost<MemDepotWreck<T>>> {
        let mut depot = self;
        if depot.alarm.rings() {
            return Err(Lost::Fault(depot.wreck()));
        }
        let _ = depot.contents.remove(&name);
        Ok(depot)
    }

    fn wreck(self) -> MemDepotWreck<T>
        ensures left { names_of result.contents ∷ [] ≡ names_of self.contents ∷ [] }
        ensures watch { alarm_watch None result.alarm ≡ alarm_watch None self.alarm }
        ensures contents { result.contents ≡ self.contents }
    {
        MemDepotWreck {
            contents: self.contents,
            alarm: self.alarm,
            alloc: self.alloc,
        }
    }

    fn reopen(wreck: MemDepotWreck<T>, _luck: u64) -> Result<Self, Lost<MemDepotWreck<T>>> {
        let mut wreck = wreck;
        if wreck.alarm.rings() {
            return Err(Lost::Fault(wreck));
        }
        Ok(MemDepot {
            contents: wreck.contents,
            alarm: wreck.alarm,
            alloc: wreck.alloc,
        })
    }

    fn arm(&mut self, calls: u64) -> Result<(), AllocError> {
        self.alarm.arm(calls)
    }
}

// What stood there, or an empty one.
fn content_or_empty<T: EmptyStore>(alloc: Global, stood: Option<T>) -> T
    ensures { MatchOption stood (IsTrue (T.is_empty result)) (λ content. result ≡ content) }
{
    match stood {
        Some(content) => content,
        None => T::empty(alloc),
    }
}
