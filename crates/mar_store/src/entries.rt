//! Entries that are found by index and by key.
ghost use Rattle.std.specs.Prelude.{◌≡◌, ◌==◌, ◌≤◌, ◌+◌, ◌||◌, ℕ, [], ◌∷◌, ◌++◌, ◌⊎◌, bytes_eq, drop, filter, length, map, nat_le, option_map, take, true, false, IfOk, IfErr, MatchResult};
ghost use Rattle.std.specs.Option.{option_copied};
ghost use Rattle.std.specs.Ordering.{nat_cmp};
ghost use Rattle.std.specs.BTreeMap.{get};
ghost use Rattle.mar_store.specs.Changes.{Fails, Finishes, IsStillOr, Puts, Syncs, left_of, left_put};
ghost use Rattle.mar_store.specs.Kept.{reopened_store, value_at};
ghost use Rattle.mar_store.specs.Named.{is_taken, value_found, value_named};
ghost use Rattle.mar_store.specs.Luck.{is_lucky, lucky_found};
ghost use Rattle.mar_types.specs.Places.{at_place, first_place};
ghost use Rattle.mar_store.specs.Tickets.{KeepsCovers};
ghost use Rattle.mar_store.specs.Entries.{covered_by, kept_of, next_number, seen};

use crate::choice::Choice;
use crate::entry::Entry;
use crate::pile::Pile;
use crate::places::EntryPlaces;
use crate::survey::{places_from, places_of};
use crate::{Identifier, Item};
use std::alloc::Global;

/// A pile of entries, and the first place of each index and of each key in it.
#[derive(Drop)]
pub struct Entries<T: Item> {
    pub pile: Pile<T>,
    pub(crate) places: EntryPlaces<T::Key>,
    ghost by_index: { (h : ℕ) → get nat_cmp places.by_index h ≡ first_place (λ e. e.index == h) pile.items.items },
    ghost by_key: { (k : T.Key) → get T.Key.cmp places.by_key k
        ≡ first_place (λ e. bytes_eq (T.name e.item) (T.Key.bytes k)) pile.items.items },
}

impl<T: Item> Entries<T> {
    pub fn new(alloc: Global) -> Self
        ensures items { result.pile.items.items ≡ [] }
        ensures synced { result.pile.synced ≡ 0 }
        ensures tickets { result.pile.accepted ≡ 0 }
    {
        Entries {
            pile: Pile::new(alloc),
            places: EntryPlaces::new(alloc),
        }
    }

    /// The entry that an identifier finds.
    pub fn find(&self, identifier: &Identifier<T::Key>) -> Option<&Entry<T>>
        ensures { option_map (λ e. e.item) (option_copied result)
            ≡ value_found T.name T.Key.bytes (map seen self.now.pile.items.items) identifier.now }
    {
        match identifier {
            Identifier::Index(index) => self.at_index(*index),
            Identifier::Key(key) => self.of_key(key),
        }
    }

    // The entry of an index.
    fn at_index(&self, index: u64) -> Option<&Entry<T>>
        ensures { option_map (λ e. e.item) (option_copied result) ≡ value_at (map seen self.now.pile.items.items) index }
    {
        self.at(self.places.place_at(index))
    }

    // The entry of a key.
    fn of_key(&self, key: &T::Key) -> Option<&Entry<T>>
        ensures { option_map (λ e. e.item) (option_copied result)
            ≡ value_named T.name (map seen self.now.pile.items.items) (T.Key.bytes key.now) }
    {
        self.at(self.places.place_of(key))
    }

    // The entry at that place.
    fn at(&self, place: Option<usize>) -> Option<&Entry<T>>
        ensures { option_copied result ≡ at_place self.now.pile.items.items place }
    {
        match place {
            Some(place) => self.pile.items.get(place),
            None => None,
        }
    }

    // Whether an entry of that index or of that key is there.
    fn holds(&self, index: u64, item: &T) -> bool
        ensures { result ≡ is_taken T.name (map seen self.now.pile.items.items) (record { height = index; value = item.now }) }
    {
        self.places.place_at(index).is_some() || self.places.place_of(&item.key()).is_some()
    }

    /// Puts a value, but where its index or its key is held. It gives back the pile where memory runs out.
    pub fn put(self, index: u64, item: T) -> Result<Self, Pile<T>>
        requires fits { T.fits index item ≡ true }
        ensures done { MatchResult result
            (λ s. Puts (is_taken T.name (map seen self.pile.items.items) (record { height = index; value = item }))
            (kept_of self.pile.items.items self.pile.synced) (record { height = index; value = item }) (kept_of s.pile.items.items s.pile.synced))
            (λ p. Fails (left_of (kept_of self.pile.items.items self.pile.synced)) (record { height = index; value = item } ∷ [])
            (left_of (kept_of p.items.items p.synced))) }
        ensures still { IfErr result (λ p. IsStillOr (left_of (kept_of self.pile.items.items self.pile.synced)) (record { height = index; value = item })
            (left_of (kept_of p.items.items p.synced))) }
        ensures tickets { IfOk result (λ s. self.pile.accepted ≤ s.pile.accepted) }
        ensures covers { IfOk result (λ s. KeepsCovers self.pile.accepted (covered_by self.pile.items.items) (covered_by s.pile.items.items)) }
        ensures ignored { is_taken T.name (map seen self.pile.items.items) (record { height = index; value = item }) ≡ true
            → MatchResult result (λ s. s.pile ≡ self.pile) (λ p. ⊥) }
        ensures counted { MatchResult result (λ s. s.pile.accepted ≤ self.pile.accepted + 1) (λ p. p.accepted ≤ self.pile.accepted + 1) }
    {
        if self.holds(index, &item) {
            return Ok(self);
        }
        match self.push(index, item) {
            Ok(entries) => Ok(entries),
            Err(pile) => Err(pile),
        }
    }

    /// What a put leaves that fails: the pile with the value. It says whether memory ran out over that; then the value may
    /// be missing.
    pub fn put_in_part(self, index: u64, item: T) -> (Pile<T>, bool)
        requires fits { T.fits index item ≡ true }
        ensures left { Fails (left_of (kept_of self.pile.items.items self.pile.synced)) (record { height = index; value = item } ∷ [])
            (left_of (kept_of result.0.items.items result.0.synced)) }
        ensures still { IsStillOr (left_of (kept_of self.pile.items.items self.pile.synced)) (record { height = index; value = item })
            (left_of (kept_of result.0.items.items result.0.synced)) }
        ensures written { result.1 ≡ false → left_of (kept_of result.0.items.items result.0.synced)
            ≡ left_put (is_taken T.name (map seen self.pile.items.items) (record { height = index; value = item }))
            (left_of (kept_of self.pile.items.items self.pile.synced)) (record { height = index; value = item }) }
        ensures ignored { is_taken T.name (map seen self.pile.items.items) (record { height = index; value = item }) ≡ true
            → result.0 ≡ self.pile }
        ensures counted { result.0.accepted ≤ self.pile.accepted + 1 }
    {
        match self.put(index, item) {
            Ok(entries) => (entries.pile, false),
            Err(pile) => (pile, true),
        }
    }

    // Puts a value whose index and key are not held.
    fn push(self, index: u64, item: T) -> Result<Self, Pile<T>>
        requires free { is_taken T.name (map seen self.pile.items.items) (record { height = index; value = item }) ≡ false }
        requires fits { T.fits index item ≡ true }
        ensures ok { IfOk result (λ s. s.pile.items.items
            ≡ self.pile.items.items ++ record { index = index; number = self.pile.accepted; item = item } ∷ []) }
        ensures err { IfErr result (λ p. (p.items.items ≡ self.pile.items.items)
            ⊎ (p.items.items ≡ self.pile.items.items ++ record { index = index; number = self.pile.accepted; item = item } ∷ [])) }
        ensures synced { MatchResult result (λ s. s.pile.synced ≡ self.pile.synced) (λ p. p.synced ≡ self.pile.synced) }
        ensures tickets { IfOk result (λ s. s.pile.accepted ≡ next_number self.pile.accepted) }
        ensures goes_on { IfOk result (λ s. self.pile.accepted ≤ s.pile.accepted) }
        ensures counted { MatchResult result (λ s. s.pile.accepted ≤ self.pile.accepted + 1) (λ p. p.accepted ≤ self.pile.accepted + 1) }
    {
        let Entries { pile, mut places } = self;
        let place = pile.items.len();
        let key = item.key();
        match pile.push(index, item) {
            Err(pile) => Err(pile),
            Ok(pile) => match places.note(index, key, place) {
                Ok(()) => Ok(Entries { pile, places }),
                Err(_) => Err(pile),
            },
        }
    }

    /// Makes all entries sure. It gives back the pile as it was where memory runs out.
    pub fn sync(self) -> Result<Self, Pile<T>>
        ensures done { MatchResult result
            (λ s. Syncs (kept_of self.pile.items.items self.pile.synced) (kept_of s.pile.items.items s.pile.synced))
            (λ p. Fails (left_of (kept_of self.pile.items.items self.pile.synced)) [] (left_of (kept_of p.items.items p.synced))) }
        ensures still { IfErr result (λ p. left_of (kept_of p.items.items p.synced) ≡ left_of (kept_of self.pile.items.items self.pile.synced)) }
        ensures items { IfOk result (λ s. s.pile.items.items ≡ self.pile.items.items) }
        ensures tickets { MatchResult result (λ s. s.pile.accepted ≡ self.pile.accepted) (λ p. p.accepted ≡ self.pile.accepted) }
    {
        let Entries { pile, places } = self;
        match pile.sync() {
            Ok(pile) => Ok(Entries { pile, places }),
            Err(pile) => Err(pile),
        }
    }

    /// Makes sure what the ticket of a number covers. It gives back the pile as it was where memory runs out.
    pub fn finish(self, number: u64) -> Result<Self, Pile<T>>
        ensures done { MatchResult result
            (λ s. Finishes (covered_by self.pile.items.items number) (kept_of self.pile.items.items self.pile.synced)
            (kept_of s.pile.items.items s.pile.synced))
            (λ p. Fails (left_of (kept_of self.pile.items.items self.pile.synced)) [] (left_of (kept_of p.items.items p.synced))) }
        ensures still { IfErr result (λ p. left_of (kept_of p.items.items p.synced) ≡ left_of (kept_of self.pile.items.items self.pile.synced)) }
        ensures items { IfOk result (λ s. s.pile.items.items ≡ self.pile.items.items) }
        ensures tickets { MatchResult result (λ s. s.pile.accepted ≡ self.pile.accepted) (λ p. p.accepted ≡ self.pile.accepted) }
    {
        let Entries { pile, places } = self;
        match pile.finish(number) {
            Ok(pile) => Ok(Entries { pile, places }),
            Err(pile) => Err(pile),
        }
    }

    /// Keeps the entries at or above an index. It gives back the pile as it was where memory runs out.
    pub fn prune(self, min: u64) -> Result<Self, Pile<T>>
        ensures items { IfOk result (λ s. s.pile.items.items ≡ filter (λ e. nat_le min e.index) self.pile.items.items) }
        ensures synced { IfOk result (λ s. s.pile.synced ≡ length (filter (λ e. nat_le min e.index) (take self.pile.synced self.pile.items.items))) }
        ensures tickets { IfOk result (λ s. s.pile.accepted ≡ self.pile.accepted) }
        ensures err { IfErr result (λ p. p ≡ self.pile) }
    {
        let Entries { pile, .. } = self;
        match places_of(*pile.items.allocator(), &pile.items, Choice::From(min)) {
            Err(_) => Err(pile),
            Ok(places) => match pile.cut(min) {
                Err(pile) => Err(pile),
                Ok(pile) => Ok(Entries { pile, places }),
            },
        }
    }

    /// Opens a pile with what is sure and those of the other entries that the bits of `half` keep. It gives back the pile
    /// as it was where memory runs out.
    pub fn open(pile: Pile<T>, half: u64) -> Result<Self, Pile<T>>
        ensures found { IfOk result (λ s. kept_of s.pile.items.items s.pile.synced
            ≡ reopened_store (lucky_found (is_lucky half) (left_of (kept_of pile.items.items pile.synced)))) }
        ensures tickets { IfOk result (λ s. s.pile.accepted ≡ pile.accepted) }
        ensures err { IfErr result (λ p. p ≡ pile) }
    {
        let choice = Choice::Lucky(pile.sure_count(), half);
        match places_of(*pile.items.allocator(), &pile.items, choice) {
            Err(_) => Err(pile),
            Ok(places) => match pile.settle(half) {
                Err(pile) => Err(pile),
                Ok(pile) => Ok(Entries { pile, places }),
            },
        }
    }

    /// Opens entries again: what is sure stays, and those of the others that the bits of `half` keep. It gives back the pile
    /// as it was where memory runs out.
    pub fn drawn(self, half: u64) -> Result<Self, Pile<T>>
        ensures found { IfOk result (λ s. kept_of s.pile.items.items s.pile.synced
            ≡ reopened_store (lucky_found (is_lucky half) (left_of (kept_of self.pile.items.items self.pile.synced)))) }
        ensures tickets { IfOk result (λ s. s.pile.accepted ≡ self.pile.accepted) }
        ensures err { IfErr result (λ p. p ≡ self.pile) }
    {
        let sure = self.pile.sure_count();
        if sure == self.pile.items.len() {
            return Ok(self);
        }
        let Entries { pile, mut places } = self;
        places.keep_below(sure);
        match places_from(places, &pile.items, Choice::Lucky(sure, half), sure) {
            Err(_) => Err(pile),
            Ok(places) => match pile.settle(half) {
                Err(pile) => Err(pile),
                Ok(pile) => Ok(Entries { pile, places }),
            },
        }
    }

    /// Counts a change that tickets tell apart and that is no put, as a prune.
    pub fn count(self) -> Self
        ensures items { result.pile.items.items ≡ self.pile.items.items }
        ensures synced { result.pile.synced ≡ self.pile.synced }
        ensures tickets { result.pile.accepted ≡ next_number self.pile.accepted }
    {
        let Entries { pile, places } = self;
        Entries {
            pile: pile.count(),
            places,
        }
    }

    /// Numbers all entries anew, as those that were there before the first put: so tickets begin anew.
    pub fn restart(self) -> Self
        ensures seen { map seen result.pile.items.items ≡ map seen self.pile.items.items }
        ensures synced { result.pile.synced ≡ self.pile.synced }
        ensures tickets { result.pile.accepted ≤ 1 }
    {
        let Entries { pile, places } = self;
        Entries {
            pile: pile.restart(),
            places,
        }
    }

    /// The pile alone.
    pub fn into_pile(self) -> Pile<T>
        ensures { result ≡ self.pile }
    {
        self.pile
    }
}
