//! Logged entries, in the order of their puts.
ghost use Rattle.std.specs.Prelude.{◌≡◌, ◌==◌, ◌||◌, ◌<◌, IfOk, OnOk, filter, if◌then◌else◌, map, nat_lt, not};
ghost use Rattle.std.specs.List.{list_all};
ghost use Rattle.std.specs.BTreeMap.{get};
ghost use Rattle.mar_store.specs.Tickets.{last_number};
ghost use Rattle.mar_model.specs.Cache.{is_below, is_certified_below};
ghost use Rattle.mar_epochs.specs.EntryLogs.{count_next, drawn, drawn_in_all, entries, log_of, logged_of, with_draw, with_mark};
ghost use Rattle.mar_epochs.specs.Spots.{sooner, spot_at, spot_found};

use crate::as_entry::{AsEntry, KeyedEntry};
use crate::index::{Index, Spot};
use mar_model::Section;
use mar_store::is_lucky;
use mar_types::{Height, Round};
use std::alloc::{AllocError, Global};

/// An entry, with the number of its put, and whether every crash leaves it.
#[derive(Drop)]
pub struct LoggedEntry<E> {
    pub number: u64,
    pub is_sure: bool,
    pub entry: E,
}

/// The same entries again.
pub fn copies_of<E: AsEntry>(
    alloc: Global,
    items: &[LoggedEntry<E>],
) -> Result<Vec<LoggedEntry<E>>, AllocError>
    ensures { IfOk result (λ copies. log_of E.plain copies.items ≡ log_of E.plain items.now) }
{
    let mut copies = Vec::new(alloc);
    let mut place = 0;
    while place < items.len() {
        let copy = copy_of(&items[place])?;
        copies.push(copy)?;
        place += 1;
    }
    Ok(copies)
}

// The same entry again.
fn copy_of<E: AsEntry>(logged: &LoggedEntry<E>) -> Result<LoggedEntry<E>, AllocError>
    ensures { IfOk result (λ copy. logged_of E.plain copy ≡ logged_of E.plain logged.now) }
{
    Ok(LoggedEntry {
        number: logged.number,
        is_sure: logged.is_sure,
        entry: logged.entry.try_clone()?,
    })
}

/// Whether every crash leaves all of these entries.
pub fn are_sure<E>(items: &[LoggedEntry<E>]) -> bool
    ensures { result ≡ list_all (λ e. e.is_sure) items.now }
{
    items.iter().all(|logged| logged.is_sure)
}

/// Where searches find these entries.
pub fn index_of<E: KeyedEntry>(
    alloc: Global,
    items: &[LoggedEntry<E>],
) -> Result<Index<E::Key>, AllocError>
    ensures { IfOk result (λ index. (k : E.Key) → get E.Key.cmp index.spots k ≡ spot_found (E.has k) (entries (log_of E.plain items.now))) }
{
    let mut index = Index::new(alloc);
    let mut place = 0;
    while place < items.len() {
        note(&mut index, &items[place].entry, place)?;
        place += 1;
    }
    Ok(index)
}

/// Notes where an entry stands that is put behind all others.
pub fn note<E: KeyedEntry>(
    index: &mut Index<E::Key>,
    entry: &E,
    place: usize,
) -> Result<(), AllocError>
    ensures { OnOk result ((k : E.Key) → get E.Key.cmp index.new.spots k ≡ (if E.has k (E.plain entry.now)
        then sooner (get E.Key.cmp index.old.spots k) (spot_at place (E.plain entry.now)) else get E.Key.cmp index.old.spots k)) }
{
    let spot = Spot {
        rank: entry.section().rank(),
        index: entry.index(),
        place,
    };
    index.note_all(entry.keys(), spot)
}

/// Makes sure what the ticket of a number covers in an archive.
pub fn mark<E: AsEntry>(items: &mut Vec<LoggedEntry<E>>, section: Section, number: u64)
    ensures { log_of E.plain items.new.items ≡ map (with_mark section number) (log_of E.plain items.old.items) }
{
    mark_each(items.as_mut_slice(), section, number);
}

// The same of a slice.
fn mark_each<E: AsEntry>(items: &mut [LoggedEntry<E>], section: Section, number: u64)
    ensures { log_of E.plain items.new ≡ map (with_mark section number) (log_of E.plain items.old) }
{
    for logged in items.iter_mut() {
        mark_one(logged, section, number);
    }
}

// Makes an entry sure where the ticket covers it.
fn mark_one<E: AsEntry>(logged: &mut LoggedEntry<E>, section: Section, number: u64)
    ensures { logged_of E.plain logged.new ≡ with_mark section number (logged_of E.plain logged.old) }
{
    let is_there = logged.entry.section().rank() == section.rank();
    logged.is_sure = logged.is_sure || (is_there && covers(number, logged.number));
}

// Whether the ticket of a number covers the put of another.
const fn covers(ticket: u64, number: u64) -> bool
    ensures { result ≡ (nat_lt number ticket || ticket == last_number) }
{
    number < ticket || ticket == u64::MAX
}

/// Takes out the entries by view that are below a round.
pub fn take_below<E: AsEntry>(items: &mut Vec<LoggedEntry<E>>, round: Round)
    ensures { log_of E.plain items.new.items ≡ filter (λ f. not (is_below round f.entry)) (log_of E.plain items.old.items) }
{
    items.retain(|logged| !logged.entry.is_below(round));
}

/// Takes out the certified blocks that are below a height.
pub fn take_certified<E: AsEntry>(items: &mut Vec<LoggedEntry<E>>, height: Height)
    ensures { log_of E.plain items.new.items ≡ filter (λ f. not (is_certified_below height f.entry)) (log_of E.plain items.old.items) }
{
    items.retain(|logged| !logged.entry.is_certified_below(height));
}

/// Takes out the entries that aren't sure, but for those that the bits of `half` keep, and makes those sure.
pub fn settle<E: AsEntry>(items: &mut Vec<LoggedEntry<E>>, half: u64)
    ensures { log_of E.plain items.new.items ≡ filter (λ f. f.is_sure) (drawn_in_all half (log_of E.plain items.old.items)) }
{
    draw_in_all(items, half);
    items.retain(|logged| logged.is_sure);
}

// Makes sure what the bits of `half` keep, in each archive.
fn draw_in_all<E: AsEntry>(items: &mut Vec<LoggedEntry<E>>, half: u64)
    ensures { log_of E.plain items.new.items ≡ drawn_in_all half (log_of E.plain items.old.items) }
{
    draw_in_each(items.as_mut_slice(), half);
}

// The same of a slice.
fn draw_in_each<E: AsEntry>(items: &mut [LoggedEntry<E>], half: u64)
    ensures { log_of E.plain items.new ≡ drawn_in_all half (log_of E.plain items.old) }
{
    draw(items, Section::Verified, half);
    draw(items, Section::Notarized, half);
    draw(items, Section::Certified, half);
    draw(items, Section::Notarizations, half);
    draw(items, Section::Finalizations, half);
}

// Makes sure what the bits of `half` keep, in one archive. Its entries that aren't sure are numbered from 0 to 31, and then
// again from 0 on.
fn draw<E: AsEntry>(items: &mut [LoggedEntry<E>], section: Section, half: u64)
    ensures { log_of E.plain items.new ≡ drawn section half 0 (log_of E.plain items.old) }
{
    let mut bit = 0;
    for logged in items.iter_mut() {
        bit = draw_one(logged, section, half, bit);
    }
}

// Makes an entry of that archive sure where its bit is set; answers the bit of the next.
fn draw_one<E: AsEntry>(
    logged: &mut LoggedEntry<E>,
    section: Section,
    half: u64,
    bit: usize,
) -> usize
    requires { bit < 32 }
    ensures drawn { logged_of E.plain logged.new ≡ with_draw section half bit (logged_of E.plain logged.old) }
    ensures next { result ≡ count_next section bit (logged_of E.plain logged.old) }
    ensures small { result < 32 }
{
    if logged.is_sure || logged.entry.section().rank() != section.rank() {
        return bit;
    }
    logged.is_sure = is_lucky(half, bit);
    (bit + 1) % 32
}
