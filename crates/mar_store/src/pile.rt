//! Entries in the order of their puts, of which a front is sure.
ghost use Rattle.std.specs.Prelude.{◌≡◌, ◌++◌, if◌then◌else◌, ◌-◌, ◌≤◌, ℕ, [], ◌∷◌, true, false, filter, length, map, nat_le, nat_lt, ◌||◌, ◌==◌, take, drop, vec_len, IfOk, IfErr, OnOk, OnErr, MatchResult};
ghost use Rattle.std.specs.List.{AllByRecursion};
ghost use Rattle.mar_store.specs.Kept.{EachHeightOnce};
ghost use Rattle.mar_store.specs.Changes.{heights};
ghost use Rattle.mar_store.specs.Named.{EachNameOnce, is_taken, last_index};
ghost use Rattle.mar_store.specs.Ranges.{ranges, with_height};
ghost use Rattle.mar_store.specs.Tickets.{last_number};
ghost use Rattle.mar_store.specs.Choices.{chosen, stays};
ghost use Rattle.mar_store.specs.declared.choice.Choice.TheVariants as Choice;
ghost use Rattle.mar_store.specs.Entries.{AreCounted, AreFitting, AreUpto, Ascend, covered_by, is_covered, kept_of, next_number, seen};
ghost use Rattle.mar_store.specs.Props.{AreCounted-prop, EachHeightOnce-prop, EachNameOnce-prop, AreFitting-prop, AreUpto-prop, Ascend-prop};

use crate::choice::Choice;
use crate::entry::Entry;
use crate::survey::{count_of, ranges_from, ranges_of};
use crate::{Item, RangeSet, SyncTicket};
use std::alloc::{AllocError, Global};

/// Entries of which a front is sure, and the ranges of their indexes.
#[derive(Drop)]
pub struct Pile<T: Item> {
    pub items: Vec<Entry<T>>,
    synced: usize,
    held: RangeSet,
    sure: RangeSet,
    accepted: u64,
    pub ghost within: { synced ≤ length items.items },
    pub ghost once: { EachHeightOnce (map seen items.items) } by { EachHeightOnce-prop (map seen items.items) },
    pub ghost named: { EachNameOnce T.name (map seen items.items) } by { EachNameOnce-prop T.name (map seen items.items) },
    pub ghost fits: { AreFitting T.fits (map seen items.items) } by { AreFitting-prop T.fits (map seen items.items) },
    pub ghost ascend: { Ascend items.items } by { Ascend-prop items.items },
    pub ghost upto: { AreUpto accepted items.items } by { AreUpto-prop accepted items.items },
    pub ghost counted: { AreCounted accepted items.items } by { AreCounted-prop accepted items.items },
    pub ghost held_is: { held ≡ ranges (heights (map seen items.items)) },
    pub ghost sure_is: { sure ≡ ranges (heights (take synced (map seen items.items))) },
}

// What a prune leaves beside the entries.
#[derive(Drop)]
struct Draft {
    held: RangeSet,
    sure: RangeSet,
    synced: usize,
}

impl<T: Item> Pile<T> {
    pub fn new(alloc: Global) -> Self
        ensures items { result.items.items ≡ [] }
        ensures synced { result.synced ≡ 0 }
        ensures accepted { result.accepted ≡ 0 }
    {
        Pile {
            items: Vec::new(alloc),
            synced: 0,
            held: RangeSet::new(alloc),
            sure: RangeSet::new(alloc),
            accepted: 0,
        }
    }

    /// A ticket that covers all entries.
    pub fn ticket(&self) -> SyncTicket
        ensures exact { result.number ≡ self.now.accepted }
        ensures made { result.number ≤ self.now.accepted }
        ensures covered { covered_by self.now.items.items result.number ≡ map seen self.now.items.items }
    {
        SyncTicket::new(self.accepted)
    }

    /// The ranges of all indexes.
    pub fn held(&self) -> &RangeSet
        ensures { result.now ≡ ranges (heights (map seen self.now.items.items)) }
    {
        &self.held
    }

    /// The ranges of the indexes that are sure.
    pub fn sure(&self) -> &RangeSet
        ensures { result.now ≡ ranges (heights (take self.now.synced (map seen self.now.items.items))) }
    {
        &self.sure
    }

    /// The greatest index.
    pub fn last_index(&self) -> Option<u64>
        ensures { result ≡ last_index (map seen self.now.items.items) }
    {
        self.held.last()
    }

    /// Puts an entry at the end. It gives back the pile where memory runs out.
    pub fn push(self, index: u64, item: T) -> Result<Self, Self>
        requires free { is_taken T.name (map seen self.items.items) (record { height = index; value = item }) ≡ false }
        requires fits { T.fits index item ≡ true }
        ensures ok { IfOk result (λ p. p.items.items ≡ self.items.items ++ record { index = index; number = self.accepted; item = item } ∷ []) }
        ensures err { IfErr result (λ p. p.items.items ≡ self.items.items) }
        ensures synced { MatchResult result (λ p. p.synced ≡ self.synced) (λ p. p.synced ≡ self.synced) }
        ensures accepted { MatchResult result (λ p. p.accepted ≡ next_number self.accepted) (λ p. p.accepted ≡ self.accepted) }
    {
        let Pile {
            mut items,
            synced,
            mut held,
            sure,
            accepted,
        } = self;
        let entry = Entry {
            index,
            number: accepted,
            item,
        };
        match push_both(&mut items, &mut held, entry) {
            Ok(()) => Ok(Pile {
                items,
                synced,
                held,
                sure,
                accepted: accepted.saturating_add(1),
            }),
            Err(_) => Err(Pile {
                items,
                synced,
                held,
                sure,
                accepted,
            }),
        }
    }

    /// Makes the entries below a place sure. It gives back the pile as it was where memory runs out.
    fn keep_sure(self, until: usize) -> Result<Self, Self>
        requires from { self.synced ≤ until }
        requires within { until ≤ length self.items.items }
        ensures ok { IfOk result (λ p. p.synced ≡ until) }
        ensures still { IfErr result (λ p. p.synced ≡ self.synced) }
        ensures items { MatchResult result (λ p. p.items.items ≡ self.items.items) (λ p. p.items.items ≡ self.items.items) }
        ensures accepted { MatchResult result (λ p. p.accepted ≡ self.accepted) (λ p. p.accepted ≡ self.accepted) }
    {
        let Pile {
            items,
            synced,
            held,
            mut sure,
            accepted,
        } = self;
        match sure.insert_all(&items[synced..until]) {
            Ok(()) => Ok(Pile {
                items,
                synced: until,
                held,
                sure,
                accepted,
            }),
            Err(_) => Err(Pile {
                items,
                synced,
                held,
                sure,
                accepted,
            }),
        }
    }

    /// Makes all entries sure.
    pub fn sync(self) -> Result<Self, Self>
        ensures ok { IfOk result (λ p. p.synced ≡ length self.items.items) }
        ensures still { IfErr result (λ p. p.synced ≡ self.synced) }
        ensures items { MatchResult result (λ p. p.items.items ≡ self.items.items) (λ p. p.items.items ≡ self.items.items) }
        ensures accepted { MatchResult result (λ p. p.accepted ≡ self.accepted) (λ p. p.accepted ≡ self.accepted) }
    {
        let until = self.items.len();
        self.keep_sure(until)
    }

    // The end of what the ticket of a number covers and what is sure.
    fn covered_end(&self, number: u64) -> usize
        ensures from { self.now.synced ≤ result }
        ensures within { result ≤ length self.now.items.items }
        ensures before { AllByRecursion (λ e. is_covered number e ≡ true) (drop self.now.synced (take result self.now.items.items)) }
        ensures after { filter (is_covered number) (drop result self.now.items.items) ≡ [] }
    {
        let mut place = self.synced;
        while place < self.items.len() {
            if !covers(number, self.items[place].number) {
                return place;
            }
            place += 1;
        }
        place
    }

    /// Makes sure what the ticket of a number covers.
    pub fn finish(self, number: u64) -> Result<Self, Self>
        ensures ok { IfOk result (λ p. (self.synced ≤ p.synced) × (p.synced ≤ length self.items.items)
            × AllByRecursion (λ e. is_covered number e ≡ true) (drop self.synced (take p.synced self.items.items))
            × (filter (is_covered number) (drop p.synced self.items.items) ≡ [])) }
        ensures still { IfErr result (λ p. p.synced ≡ self.synced) }
        ensures items { MatchResult result (λ p. p.items.items ≡ self.items.items) (λ p. p.items.items ≡ self.items.items) }
        ensures accepted { MatchResult result (λ p. p.accepted ≡ self.accepted) (λ p. p.accepted ≡ self.accepted) }
    {
        let until = self.covered_end(number);
        self.keep_sure(until)
    }

    /// Counts a change that tickets tell apart and that is no put, as a prune.
    pub fn count(self) -> Self
        ensures items { result.items.items ≡ self.items.items }
        ensures synced { result.synced ≡ self.synced }
        ensures accepted { result.accepted ≡ next_number self.accepted }
    {
        let Pile {
            items,
            synced,
            held,
            sure,
            accepted,
        } = self;
        Pile {
            items,
            synced,
            held,
            sure,
            accepted: accepted.saturating_add(1),
        }
    }

    /// Numbers all entries anew, as those that were there before the first put: so tickets begin anew.
    pub fn restart(self) -> Self
        ensures seen { map seen result.items.items ≡ map seen self.items.items }
        ensures synced { result.synced ≡ self.synced }
        ensures accepted { result.accepted ≤ 1 }
    {
        let Pile {
            mut items,
            synced,
            held,
            sure,
            ..
        } = self;
        number_anew(&mut items);
        let accepted = items.len().min(1) as u64;
        Pile {
            items,
            synced,
            held,
            sure,
            accepted,
        }
    }

    /// How many entries are sure.
    pub fn sure_count(&self) -> usize
        ensures { result ≡ self.now.synced }
    {
        self.synced
    }

    /// Keeps the entries at or above an index. It gives back the pile as it was where memory runs out.
    pub fn cut(self, min: u64) -> Result<Self, Self>
        ensures items { IfOk result (λ p. p.items.items ≡ filter (λ e. nat_le min e.index) self.items.items) }
        ensures synced { IfOk result (λ p. p.synced ≡ length (filter (λ e. nat_le min e.index) (take self.synced self.items.items))) }
        ensures accepted { IfOk result (λ p. p.accepted ≡ self.accepted) }
        ensures err { IfErr result (λ p. p ≡ self) }
    {
        match self.draft_cut(min) {
            Err(_) => Err(self),
            Ok(draft) => Ok(self.keep(Choice::From(min), 0, draft)),
        }
    }

    // What stands beside the entries at or above an index.
    fn draft_cut(&self, min: u64) -> Result<Draft, AllocError>
        ensures within { IfOk result (λ d. d.synced ≤ length (chosen (stays (Choice.From min)) 0 self.now.items.items)) }
        ensures held { IfOk result (λ d. d.held ≡ ranges (heights (map seen (chosen (stays (Choice.From min)) 0 self.now.items.items)))) }
        ensures sure { IfOk result (λ d. d.sure ≡ ranges (heights (take d.synced (map seen (chosen (stays (Choice.From min)) 0 self.now.items.items))))) }
        ensures synced { IfOk result (λ d. d.synced ≡ length (filter (λ e. nat_le min e.index) (take self.now.synced self.now.items.items))) }
    {
        let alloc = *self.items.allocator();
        let choice = Choice::From(min);
        let front = &self.items[..self.synced];
        let held = ranges_of(alloc, &self.items, choice)?;
        let sure = ranges_of(alloc, front, choice)?;
        let synced = count_of(front, choice, 0);
        Ok(Draft { held, sure, synced })
    }

    /// Keeps what is sure, and of the other entries those that the bits of `half` keep, and makes all sure. It gives
    /// back the pile as it was where memory runs out.
    pub fn settle(self, half: u64) -> Result<Self, Self>
        ensures items { IfOk result (λ p. p.items.items ≡ chosen (stays (Choice.Lucky self.synced half)) 0 self.items.items) }
        ensures synced { IfOk result (λ p. p.synced ≡ length p.items.items) }
        ensures accepted { IfOk result (λ p. p.accepted ≡ self.accepted) }
        ensures err { IfErr result (λ p. p ≡ self) }
    {
        if self.synced == self.items.as_slice().len() {
            return Ok(self);
        }
        let sure = self.synced;
        match self.draft_settled(half) {
            Err(_) => Err(self),
            Ok(draft) => Ok(self.keep(Choice::Lucky(sure, half), sure, draft)),
        }
    }

    // What stands beside the entries that stay where those are made sure that the bits of `half` keep.
    fn draft_settled(&self, half: u64) -> Result<Draft, AllocError>
        ensures held { IfOk result (λ d. d.held ≡ ranges (heights (map seen (chosen (stays (Choice.Lucky self.now.synced half)) 0 self.now.items.items)))) }
        ensures sure { IfOk result (λ d. d.sure ≡ d.held) }
        ensures synced { IfOk result (λ d. d.synced ≡ length (chosen (stays (Choice.Lucky self.now.synced half)) 0 self.now.items.items)) }
    {
        let choice = Choice::Lucky(self.synced, half);
        let front = self.sure.try_clone()?;
        let held = ranges_from(front, &self.items, choice, self.synced)?;
        let sure = held.try_clone()?;
        let synced = count_of(&self.items, choice, self.synced);
        Ok(Draft { held, sure, synced })
    }

    // Keeps the entries that stay, what stands beside them being drafted. Each of so many at the front stays.
    fn keep(self, choice: Choice, from: usize, draft: Draft) -> Self
        requires front { from ≤ length self.items.items }
        requires stay { chosen (stays choice) 0 (take from self.items.items) ≡ take from self.items.items }
        requires within { draft.synced ≤ length (chosen (stays choice) 0 self.items.items) }
        requires held { draft.held ≡ ranges (heights (map seen (chosen (stays choice) 0 self.items.items))) }
        requires sure { draft.sure ≡ ranges (heights (take draft.synced (map seen (chosen (stays choice) 0 self.items.items)))) }
        ensures items { result.items.items ≡ chosen (stays choice) 0 self.items.items }
        ensures synced { result.synced ≡ draft.synced }
        ensures accepted { result.accepted ≡ self.accepted }
    {
        let Pile {
            mut items,
            accepted,
            ..
        } = self;
        let Draft { held, sure, synced } = draft;
        take_out(&mut items, choice, from);
        Pile {
            items,
            synced,
            held,
            sure,
            accepted,
        }
    }
}

// Gives each entry the number 0.
fn number_anew<T>(items: &mut Vec<Entry<T>>)
    ensures seen { map seen items.new.items ≡ map seen items.old.items }
    ensures first { AllByRecursion (λ e. e.number ≡ 0) items.new.items }
{
    let mut place = 0;
    while place < items.len() {
        items[place].number = 0;
        place += 1;
    }
}

// Takes out the entries that don't stay; the others keep their order. Each of so many at the front stays.
fn take_out<T: Drop>(items: &mut Vec<Entry<T>>, choice: Choice, from: usize)
    requires within { from ≤ vec_len items.old }
    requires stay { chosen (stays choice) 0 (take from items.old.items) ≡ take from items.old.items }
    ensures { items.new.items ≡ chosen (stays choice) 0 items.old.items }
{
    let mut kept = from;
    let mut place = from;
    while place < items.len() {
        if choice.keeps(place, items[place].index) {
            items.swap(kept, place);
            kept += 1;
        }
        place += 1;
    }
    items.truncate(kept);
}

// Whether the ticket of a number covers the entry of another.
const fn covers(ticket: u64, number: u64) -> bool
    ensures { result ≡ (nat_lt number ticket || ticket == last_number) }
{
    number < ticket || ticket == u64::MAX
}

// Puts an entry at the end, and its index into the ranges: both or neither.
fn push_both<T: Drop>(
    items: &mut Vec<Entry<T>>,
    held: &mut RangeSet,
    entry: Entry<T>,
) -> Result<(), AllocError>
    ensures items { OnOk result (items.new.items ≡ items.old.items ++ entry ∷ []) }
    ensures held { OnOk result (held.new ≡ with_height entry.index held.old) }
    ensures items_stay { OnErr result (items.new.items ≡ items.old.items) }
    ensures held_stay { OnErr result (held.new ≡ held.old) }
{
    let index = entry.index;
    items.push(entry)?;
    let done = held.insert(index);
    if done.is_err() {
        let _ = items.pop();
    }
    done
}
