//! Acknowledgements that the application owes.
ghost use Rattle.std.specs.Prelude.{◌≡◌, ℕ, ◌+◌, ◌^◌, ◌<◌, ◌≤◌, ◌↔◌, ◌++◌, ◌∷◌, [], IfOk, IsTrue, false, length, map, slice_get, option_map, option_to_list};
ghost use Rattle.std.specs.List.{list_any};
ghost use Rattle.mar_model.specs.Acks.{with_mark, marked_entry, is_unmarked, height_after, given_front, after_given, given_oldest, dropped_oldest, after_oldest, mark_given, mark_dropped, mark_waiting};
ghost use Rattle.mar_parts.specs.Views.{mark_of, outstanding_of, given_of, dropped_of};

use mar_types::Height;
use std::alloc::{AllocError, Global};
use std::collections::VecDeque;
use std::marker::Model;

/// How an acknowledgement stands.
#[derive(Clone, Copy, Debug, PartialEq, Eq)]
pub enum Mark {
    /// The application hasn't answered.
    Waiting,
    /// The application has acknowledged the block.
    Given,
    /// The application has dropped the acknowledgement.
    Dropped,
}

/// A block that was handed to the application, under the ticket of its acknowledgement.
#[derive(Clone, Copy, Debug, PartialEq, Eq)]
pub struct PendingAck {
    /// The ticket that names it.
    pub ticket: u64,
    /// The block's height.
    pub height: Height,
    /// What the application said of it.
    pub mark: Mark,
}

/// What the oldest acknowledgement allows.
#[derive(Clone, Copy, Debug, PartialEq, Eq)]
pub enum Oldest {
    /// Nothing is outstanding, or the oldest is neither given nor dropped.
    Unresolved,
    /// The oldest was given, and is taken out.
    Given(PendingAck),
    /// The oldest was dropped, and stays.
    Dropped(PendingAck),
}

/// The acknowledgements that the application owes, oldest first, at most a fixed number of them. A contract sees a
/// record of the entries and of that number.
#[derive(Drop)]
pub struct PendingAcks {
    entries: VecDeque<PendingAck>,
    max: usize,
}

impl Model for PendingAcks {
    ghost use Rattle.std.specs.Prelude.{◌≤◌, map};
    ghost use Rattle.std.specs.List.{AllByRecursion};
    ghost use Rattle.std.specs.VecDeque.{deque_len, deque_capacity};
    ghost use Rattle.mar_model.specs.Acks.{Acks, HasNextHeight};

    ghost Value = { Acks };

    ghost use Rattle.mar_parts.specs.Views.{outstanding_of};

    ghost view = { λ a. record { entries = map outstanding_of a.entries.items; max = a.max } };

    ghost invariant = { λ a. (deque_len a.entries ≤ a.max) × (a.max ≤ deque_capacity a.entries)
        × AllByRecursion HasNextHeight (map outstanding_of a.entries.items) };
}

impl PendingAcks {
    /// No acknowledgements yet, and room for that many; no later call takes memory.
    pub fn new(alloc: Global, max: usize) -> Result<Self, AllocError>
        ensures { IfOk result (λ a. a ≡ record { entries = []; max = max }) }
    {
        Ok(PendingAcks {
            entries: VecDeque::with_capacity(alloc, max)?,
            max,
        })
    }

    /// Forgets all of them.
    pub fn clear(&mut self)
        ensures { self.new ≡ record self.old { entries = [] } }
    {
        self.entries.clear();
    }

    /// How many there may be.
    pub fn capacity(&self) -> usize
        ensures { result ≡ self.now.max }
    {
        self.max
    }

    /// How many there are.
    pub fn len(&self) -> usize
        ensures { result ≡ length self.now.entries }
    {
        self.entries.len()
    }

    /// Whether there are none.
    pub fn is_empty(&self) -> bool
        ensures { IsTrue result ↔ (self.now.entries ≡ []) }
    {
        self.entries.is_empty()
    }

    /// The acknowledgement at that place, the oldest at 0.
    pub fn get(&self, index: usize) -> Option<PendingAck>
        ensures { option_map outstanding_of result ≡ slice_get self.now.entries index }
    {
        self.entries.get(index).copied()
    }

    /// Whether there is room for another.
    pub fn has_capacity(&self) -> bool
        ensures { IsTrue result ↔ (length self.now.entries < self.now.max) }
    {
        self.entries.len() < self.max
    }

    /// The height to hand over next: the one above the newest, or `start` where nothing is outstanding.
    pub fn next_dispatch_height(&self, start: Height) -> Height
        ensures { result ≡ height_after start self.now.entries }
    {
        match self.entries.back() {
            Some(newest) => newest.height.next(),
            None => start,
        }
    }

    /// Adds the acknowledgement of a block that was just handed over.
    pub fn enqueue(&mut self, ticket: u64, height: Height)
        requires room { length self.old.entries < self.old.max }
        requires below_last { height + 1 < 2 ^ 64 }
        ensures { self.new ≡ record self.old { entries = self.old.entries ++ record { ticket = ticket; height = height; mark = mark_waiting } ∷ [] } }
    {
        self.entries.push_back_reserved(PendingAck {
            ticket,
            height,
            mark: Mark::Waiting,
        });
    }

    /// Marks the acknowledgement of that ticket so. Where no unmarked one has it, nothing changes and the answer is
    /// false.
    pub fn mark(&mut self, ticket: u64, mark: Mark) -> bool
        ensures marked { self.new ≡ record self.old { entries = with_mark ticket (mark_of mark) self.old.entries } }
        ensures found { result ≡ list_any (is_unmarked ticket) self.old.entries }
        ensures kept { result ≡ false → self.new ≡ self.old }
    {
        mark_entries(self.entries.make_contiguous(), ticket, mark)
    }

    /// Marks the acknowledgement of that ticket as given. Where no unmarked one has it, nothing changes and the answer
    /// is false.
    pub fn give(&mut self, ticket: u64) -> bool
        ensures marked { self.new ≡ record self.old { entries = with_mark ticket mark_given self.old.entries } }
        ensures found { result ≡ list_any (is_unmarked ticket) self.old.entries }
        ensures kept { result ≡ false → self.new ≡ self.old }
    {
        self.mark(ticket, Mark::Given)
    }

    /// Marks the acknowledgement of that ticket as dropped. Where no unmarked one has it, nothing changes and the
    /// answer is false.
    pub fn drop_ack(&mut self, ticket: u64) -> bool
        ensures marked { self.new ≡ record self.old { entries = with_mark ticket mark_dropped self.old.entries } }
        ensures found { result ≡ list_any (is_unmarked ticket) self.old.entries }
        ensures kept { result ≡ false → self.new ≡ self.old }
    {
        self.mark(ticket, Mark::Dropped)
    }

    /// Whether an acknowledgement that is neither given nor dropped has that ticket.
    pub fn is_unmarked(&self, ticket: u64) -> bool
        ensures { result ≡ list_any (is_unmarked ticket) self.now.entries }
    {
        let (front, back) = self.entries.as_slices();
        has_unmarked(front, ticket) || has_unmarked(back, ticket)
    }

    /// Takes the oldest out where it is given. Where it is dropped it stays, and is shown.
    pub fn pop_ready(&mut self) -> Oldest
        ensures given { given_of result ≡ given_oldest self.old.entries }
        ensures dropped { dropped_of result ≡ dropped_oldest self.old.entries }
        ensures entries { self.new ≡ record self.old { entries = after_oldest self.old.entries } }

        // Popping until nothing is given goes through the given ones at the front, in order.
        ensures front { given_front self.old.entries ≡ option_to_list (given_of result) ++ given_front self.new.entries }
        ensures rest { after_given self.new.entries ≡ after_given self.old.entries }
    {
        match self.entries.front().copied() {
            None => Oldest::Unresolved,
            Some(oldest) => match oldest.mark {
                Mark::Waiting => Oldest::Unresolved,
                Mark::Dropped => Oldest::Dropped(oldest),
                Mark::Given => {
                    let _ = self.entries.pop_front();
                    Oldest::Given(oldest)
                }
            },
        }
    }
}

impl PendingAck {
    /// Whether it is under that ticket, and neither given nor dropped.
    pub fn is_unmarked(&self, ticket: u64) -> bool
        ensures { result ≡ is_unmarked ticket (outstanding_of self.now) }
    {
        match self.mark {
            Mark::Waiting => self.ticket == ticket,
            Mark::Given | Mark::Dropped => false,
        }
    }

    /// Sets the mark where it is under that ticket and neither given nor dropped, and says whether it was.
    fn set_mark(&mut self, ticket: u64, mark: Mark) -> bool
        ensures marked { outstanding_of self.new ≡ marked_entry ticket (mark_of mark) (outstanding_of self.old) }
        ensures found { result ≡ is_unmarked ticket (outstanding_of self.old) }
    {
        let found = self.is_unmarked(ticket);
        if found {
            self.mark = mark;
        }
        found
    }
}

/// Sets the mark on each unmarked entry of that ticket, and says whether there was one.
fn mark_entries(entries: &mut [PendingAck], ticket: u64, mark: Mark) -> bool
    ensures marked { map outstanding_of entries.new ≡ with_mark ticket (mark_of mark) (map outstanding_of entries.old) }
    ensures found { result ≡ list_any (is_unmarked ticket) (map outstanding_of entries.old) }
{
    let mut found = false;
    for ack in entries.iter_mut() {
        found |= ack.set_mark(ticket, mark);
    }
    found
}

/// Whether an entry of that ticket is neither given nor dropped.
fn has_unmarked(entries: &[PendingAck], ticket: u64) -> bool
    ensures { result ≡ list_any (λ a. is_unmarked ticket (outstanding_of a)) entries.now }
{
    entries.iter().any(|ack| ack.is_unmarked(ticket))
}
