//! Entries in the order of their puts, each with its number.
ghost use Rattle.std.specs.Prelude.{◌≡◌, ◌++◌, ◌∷◌, [], false, filter, map, min, not, ◌+◌, slice_get, option_map, IfErr, IfOk};
ghost use Rattle.std.specs.Option.{option_copied};
ghost use Rattle.std.specs.List.{list_all, list_any};
ghost use Rattle.mar_store.specs.Tickets.{last_number};
ghost use Rattle.mar_model.specs.Cached.{EachPlaceOnce, same_place};
ghost use Rattle.mar_model.specs.Cache.{is_below, is_certified_below};
ghost use Rattle.mar_epochs.specs.EntryLogs.{AreNumbered, drawn_in_all, entries, log_of, with_mark};
ghost use Rattle.mar_epochs.specs.Props.{AreNumbered-prop, EachPlaceOnce-prop};

use crate::as_entry::AsEntry;
use crate::logged_entry::{
    LoggedEntry, are_sure, copies_of, mark, settle, take_below, take_certified,
};
use mar_model::Section;
use mar_types::{Height, Round};
use std::alloc::{AllocError, Global};

/// Entries in the order of their puts, and the number of the next.
#[derive(Drop)]
pub struct EntryLog<E: AsEntry> {
    pub items: Vec<LoggedEntry<E>>,
    pub accepted: u64,
    pub ghost once: { EachPlaceOnce (entries (log_of E.plain items.items)) } by { EachPlaceOnce-prop (entries (log_of E.plain items.items)) },
    pub ghost counted: { AreNumbered accepted (log_of E.plain items.items) } by { AreNumbered-prop accepted (log_of E.plain items.items) },
}

impl<E: AsEntry> EntryLog<E> {
    /// No entries.
    pub fn new(alloc: Global) -> Self
        ensures { result.items.items ≡ [] }
    {
        EntryLog {
            items: Vec::new(alloc),
            accepted: 0,
        }
    }

    /// The entry at a place.
    pub fn entry_at(&self, place: usize) -> Option<&E>
        ensures { option_map E.plain (option_copied result) ≡ slice_get (entries (log_of E.plain self.now.items.items)) place }
    {
        match self.logged_at(place) {
            Some(logged) => Some(&logged.entry),
            None => None,
        }
    }

    fn logged_at(&self, place: usize) -> Option<&LoggedEntry<E>>
        ensures { option_copied result ≡ slice_get self.now.items.items place }
    {
        self.items.get(place)
    }

    /// Puts an entry behind the others, none of which is of its place.
    pub fn push(self, entry: E) -> Result<Self, Self>
        requires free { list_any (same_place (E.plain entry)) (entries (log_of E.plain self.items.items)) ≡ false }
        ensures ok { IfOk result (λ s. log_of E.plain s.items.items
            ≡ log_of E.plain self.items.items ++ record { number = self.accepted; is_sure = false; entry = E.plain entry } ∷ []) }
        ensures accepted { IfOk result (λ s. s.accepted ≡ min (self.accepted + 1) last_number) }
        ensures err { IfErr result (λ s. log_of E.plain s.items.items ≡ log_of E.plain self.items.items) }
    {
        let EntryLog {
            mut items,
            accepted,
        } = self;
        let logged = LoggedEntry {
            number: accepted,
            is_sure: false,
            entry,
        };
        match items.push(logged) {
            Ok(()) => Ok(EntryLog {
                items,
                accepted: accepted.saturating_add(1),
            }),
            Err(_) => Err(EntryLog { items, accepted }),
        }
    }

    /// Makes sure what the ticket of a number covers in an archive.
    pub fn marked(self, section: Section, number: u64) -> Self
        ensures log { log_of E.plain result.items.items ≡ map (with_mark section number) (log_of E.plain self.items.items) }
        ensures accepted { result.accepted ≡ self.accepted }
    {
        let EntryLog {
            mut items,
            accepted,
        } = self;
        mark(&mut items, section, number);
        EntryLog { items, accepted }
    }

    /// The entries by view that are below a round go.
    pub fn without_below(self, round: Round) -> Self
        ensures log { log_of E.plain result.items.items ≡ filter (λ f. not (is_below round f.entry)) (log_of E.plain self.items.items) }
        ensures accepted { result.accepted ≡ self.accepted }
    {
        let EntryLog {
            mut items,
            accepted,
        } = self;
        take_below(&mut items, round);
        EntryLog { items, accepted }
    }

    /// The certified blocks that are below a height go.
    pub fn without_certified(self, height: Height) -> Self
        ensures log { log_of E.plain result.items.items
            ≡ filter (λ f. not (is_certified_below height f.entry)) (log_of E.plain self.items.items) }
        ensures accepted { result.accepted ≡ self.accepted }
    {
        let EntryLog {
            mut items,
            accepted,
        } = self;
        take_certified(&mut items, height);
        EntryLog { items, accepted }
    }

    /// Whether all entries are sure.
    pub fn is_sure(&self) -> bool
        ensures { result ≡ list_all (λ e. e.is_sure) self.now.items.items }
    {
        are_sure(&self.items)
    }

    /// What is sure stays, with what the bits of `half` keep of the rest; all of it is sure.
    pub fn settled(self, half: u64) -> Self
        ensures log { log_of E.plain result.items.items ≡ filter (λ f. f.is_sure) (drawn_in_all half (log_of E.plain self.items.items)) }
        ensures accepted { result.accepted ≡ self.accepted }
    {
        let EntryLog {
            mut items,
            accepted,
        } = self;
        settle(&mut items, half);
        EntryLog { items, accepted }
    }

    /// The same entries again.
    pub fn try_clone(&self) -> Result<Self, AllocError>
        ensures { IfOk result (λ s. log_of E.plain s.items.items ≡ log_of E.plain self.now.items.items) }
    {
        let items = copies_of(*self.items.allocator(), &self.items)?;
        Ok(EntryLog {
            items,
            accepted: self.accepted,
        })
    }
}
