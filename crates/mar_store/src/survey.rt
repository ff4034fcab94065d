//! What stands beside entries, counted over them.
ghost use Rattle.std.specs.Prelude.{◌≡◌, ◌≤◌, ◌==◌, ℕ, bytes_eq, length, map, take, None, Some, if◌then◌else◌, IfOk, OnOk};
ghost use Rattle.std.specs.Ordering.{nat_cmp};
ghost use Rattle.std.specs.BTreeMap.{get};
ghost use Rattle.mar_store.specs.Changes.{heights};
ghost use Rattle.mar_store.specs.Ranges.{ranges, with_height};
ghost use Rattle.mar_types.specs.Places.{first_place, or_place};
ghost use Rattle.mar_store.specs.Entries.{seen};
ghost use Rattle.mar_store.specs.Choices.{chosen, stays};

use crate::choice::Choice;
use crate::entry::Entry;
use crate::places::EntryPlaces;
use crate::{Item, RangeSet};
use std::alloc::{AllocError, Global};

/// The ranges of the indexes of the entries that stay.
pub fn ranges_of<T>(
    alloc: Global,
    items: &[Entry<T>],
    choice: Choice,
) -> Result<RangeSet, AllocError>
    ensures { IfOk result (λ r. r ≡ ranges (heights (map seen (chosen (stays choice) 0 items.now)))) }
{
    ranges_from(RangeSet::new(alloc), items, choice, 0)
}

/// The same, where each of so many at the front stays, whose ranges are there.
pub fn ranges_from<T>(
    front: RangeSet,
    items: &[Entry<T>],
    choice: Choice,
    from: usize,
) -> Result<RangeSet, AllocError>
    requires within { from ≤ length items.now }
    requires stay { chosen (stays choice) 0 (take from items.now) ≡ take from items.now }
    requires front { front ≡ ranges (heights (map seen (take from items.now))) }
    ensures { IfOk result (λ r. r ≡ ranges (heights (map seen (chosen (stays choice) 0 items.now)))) }
{
    let mut ranges = front;
    let mut place = from;
    while place < items.len() {
        let index = items[place].index;
        insert_if(&mut ranges, choice.keeps(place, index), index)?;
        place += 1;
    }
    Ok(ranges)
}

/// How many entries stay, where each of so many at the front does.
pub fn count_of<T>(items: &[Entry<T>], choice: Choice, from: usize) -> usize
    requires within { from ≤ length items.now }
    requires stay { chosen (stays choice) 0 (take from items.now) ≡ take from items.now }
    ensures { result ≡ length (chosen (stays choice) 0 items.now) }
{
    let mut count = from;
    let mut place = from;
    while place < items.len() {
        count += one_if(choice.keeps(place, items[place].index));
        place += 1;
    }
    count
}

/// The places of the entries that stay, where they stand alone.
pub fn places_of<T: Item>(
    alloc: Global,
    items: &[Entry<T>],
    choice: Choice,
) -> Result<EntryPlaces<T::Key>, AllocError>
    ensures indexes { IfOk result (λ p. (h : ℕ) → get nat_cmp p.by_index h ≡ first_place (λ e. e.index == h) (chosen (stays choice) 0 items.now)) }
    ensures keys { IfOk result (λ p. (k : T.Key) → get T.Key.cmp p.by_key k
        ≡ first_place (λ e. bytes_eq (T.name e.item) (T.Key.bytes k)) (chosen (stays choice) 0 items.now)) }
{
    places_from(EntryPlaces::new(alloc), items, choice, 0)
}

/// The same, where each of so many at the front stays, whose places are there.
pub fn places_from<T: Item>(
    places: EntryPlaces<T::Key>,
    items: &[Entry<T>],
    choice: Choice,
    from: usize,
) -> Result<EntryPlaces<T::Key>, AllocError>
    requires within { from ≤ length items.now }
    requires front { chosen (stays choice) 0 (take from items.now) ≡ take from items.now }
    requires indexes { (h : ℕ) → get nat_cmp places.by_index h ≡ first_place (λ e. e.index == h) (take from items.now) }
    requires keys { (k : T.Key) → get T.Key.cmp places.by_key k ≡ first_place (λ e. bytes_eq (T.name e.item) (T.Key.bytes k)) (take from items.now) }
    ensures indexes { IfOk result (λ p. (h : ℕ) → get nat_cmp p.by_index h ≡ first_place (λ e. e.index == h) (chosen (stays choice) 0 items.now)) }
    ensures keys { IfOk result (λ p. (k : T.Key) → get T.Key.cmp p.by_key k
        ≡ first_place (λ e. bytes_eq (T.name e.item) (T.Key.bytes k)) (chosen (stays choice) 0 items.now)) }
{
    let mut places = places;
    let mut count = from;
    let mut place = from;
    while place < items.len() {
        let entry = &items[place];
        let stays = choice.keeps(place, entry.index);
        note_if(&mut places, stays, entry, count)?;
        count += one_if(stays);
        place += 1;
    }
    Ok(places)
}

// Inserts an index where its entry stays.
fn insert_if(ranges: &mut RangeSet, stays: bool, index: u64) -> Result<(), AllocError>
    ensures { OnOk result (ranges.new ≡ (if stays then with_height index ranges.old else ranges.old)) }
{
    if stays {
        ranges.insert(index)?;
    }
    Ok(())
}

// One for an entry that stays, else zero.
const fn one_if(stays: bool) -> usize
    ensures is { result ≡ (if stays then 1 else 0) }
    ensures small { result ≤ 1 }
{
    if stays {
        return 1;
    }
    0
}

// Notes the place of an entry where it stays.
fn note_if<T: Item>(
    places: &mut EntryPlaces<T::Key>,
    stays: bool,
    entry: &Entry<T>,
    place: usize,
) -> Result<(), AllocError>
    ensures indexes { OnOk result ((h : ℕ) → get nat_cmp places.new.by_index h ≡ (if stays
        then or_place (get nat_cmp places.old.by_index h) (if entry.now.index == h then Some place else None)
        else get nat_cmp places.old.by_index h)) }
    ensures keys { OnOk result ((k : T.Key) → get T.Key.cmp places.new.by_key k ≡ (if stays
        then or_place (get T.Key.cmp places.old.by_key k) (if bytes_eq (T.name entry.now.item) (T.Key.bytes k) then Some place else None)
        else get T.Key.cmp places.old.by_key k)) }
{
    if stays {
        places.note(entry.index, entry.item.key(), place)?;
    }
    Ok(())
}
