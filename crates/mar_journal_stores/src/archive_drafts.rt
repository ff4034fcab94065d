//! What the calls of an archive that is a journal prepare before they change it.
ghost use Rattle.std.specs.Prelude.{◌≡◌, not, filter, map, nat_le, option_map, IfOk, max};
ghost use Rattle.std.specs.List.{AllByRecursion};
ghost use Rattle.mar_store.specs.Entries.{seen};
ghost use Rattle.mar_store.specs.Ranges.{with_height};
ghost use Rattle.mar_journal_stores.specs.ArchiveStore.{IsFront, IsMarkOf, last_mark};

use mar_store::{Entry, Item, RangeSet};
use std::alloc::{AllocError, Global};

/// A copy of what is put, and the ranges with its index where there are any.
pub fn prepare_put<T: Item>(
    may: &Option<RangeSet>,
    index: u64,
    item: &T,
) -> Result<(T, Option<RangeSet>), AllocError>
    ensures copy { IfOk result (λ p. p.0 ≡ item.now) }
    ensures grown { IfOk result (λ p. p.1 ≡ option_map (with_height index) may.now) }
{
    let copy = item.try_clone()?;
    let grown = grown_by(may, index)?;
    Ok((copy, grown))
}

// The ranges with an index, where there are any.
fn grown_by(may: &Option<RangeSet>, index: u64) -> Result<Option<RangeSet>, AllocError>
    ensures { IfOk result (λ grown. grown ≡ option_map (with_height index) may.now) }
{
    match may {
        None => Ok(None),
        Some(ranges) => {
            let mut grown = ranges.try_clone()?;
            grown.insert(index)?;
            Ok(Some(grown))
        }
    }
}

/// Copies of the entries below an index, which a prune sets aside under its mark.
pub fn copies_below<T: Item>(
    alloc: Global,
    items: &[Entry<T>],
    min: u64,
    mark: u64,
) -> Result<Vec<Entry<T>>, AllocError>
    ensures copies { IfOk result (λ v. map seen v.items ≡ map seen (filter (λ e. not (nat_le min e.index)) items.now)) }
    ensures numbered { IfOk result (λ v. AllByRecursion (λ e. e.number ≡ mark) v.items) }
{
    let mut below = Vec::new(alloc);
    for entry in items {
        if entry.index < min {
            below.push(Entry {
                index: entry.index,
                number: mark,
                item: entry.item.try_clone()?,
            })?;
        }
    }
    Ok(below)
}

/// The mark of the put of the last of some entries: the number of the first ticket that covers it.
pub fn mark_of<T>(items: &[Entry<T>]) -> u64
    ensures { IsMarkOf items.now result }
{
    let count = items.len();
    if count == 0 {
        return 0;
    }
    items[count - 1].number.saturating_add(1)
}

/// Of the last mark and another number the greater.
pub fn newest(marks: &[u64], number: u64) -> u64
    ensures { result ≡ max number (last_mark marks.now) }
{
    let count = marks.len();
    if count == 0 {
        return number;
    }
    number.max(marks[count - 1])
}

/// How many of the waiting records a ticket of this number has written, by their marks.
pub fn front_of(marks: &[u64], number: u64) -> usize
    ensures { IsFront number marks.now result }
{
    let mut count = marks.len();
    'marks: while count > 0 {
        if marks[count - 1] <= number {
            return count;
        }
        count -= 1;
    }
    0
}
