//! A queue of a fixed number of places.
ghost use Rattle.std.specs.Prelude.{IfErr, IfOk, List, MatchBool, MatchOption, OnErr, OnOk, [], length, nat_lt, true, ◌&&◌, ◌++◌, ◌-◌, ◌∷◌, ◌≡◌, ◌≤◌};
ghost use Rattle.std.specs.VecDeque.{deque_capacity};
ghost use Rattle.mar_key.specs.Places.{Fills, has_room};

use crate::overflow::Overflow;
use std::alloc::{AllocError, Global};
use std::collections::VecDeque;

/// Messages that are ready, at most so many, and behind them those that wait for a place. What becomes of a message that
/// finds no place is told by `P`, which is an `Overflow` of messages `T`.
#[derive(Drop)]
pub struct Queue<T, P> {
    ready: VecDeque<T>,
    capacity: usize,
    /// What waits.
    pub overflow: P,
}

impl<T: Drop, P: Overflow<T>> Queue<T, P> {
    /// A queue of so many places, with this behind it. All places are there from the start, so that a take needs no memory.
    pub fn new(alloc: Global, capacity: usize, overflow: P) -> Result<Queue<T, P>, AllocError>
        ensures roomy { IfOk result (λ q. q.capacity ≤ deque_capacity q.ready) }
        ensures ready { IfOk result (λ q. q.ready.items ≡ []) }
        ensures capacity { IfOk result (λ q. q.capacity ≡ capacity) }
        ensures overflow { IfOk result (λ q. q.overflow ≡ overflow) }
    {
        let ready = VecDeque::with_capacity(alloc, capacity)?;
        Ok(Queue {
            ready,
            capacity,
            overflow,
        })
    }

    /// Whether a message that comes now is ready at once: nothing waits, and a place is free.
    pub fn has_room(&self) -> bool
        ensures { result ≡ has_room (P.is_empty self.now.overflow) self.now.capacity self.now.ready.items }
    {
        self.overflow.is_empty() && self.ready.len() < self.capacity
    }

    /// How many messages are ready.
    pub fn ready_len(&self) -> usize
        ensures { result ≡ length self.now.ready.items }
    {
        self.ready.len()
    }

    /// Takes a message, and says whether it is ready at once. Where memory runs out it is handed back, and nothing changes.
    pub fn enqueue(&mut self, item: T) -> Result<bool, T>
        requires { self.old.capacity ≤ deque_capacity self.old.ready }
        ensures roomy { self.new.capacity ≤ deque_capacity self.new.ready }
        ensures capacity { self.new.capacity ≡ self.old.capacity }
        ensures accepted { IfOk result (λ ready. ready ≡ has_room (P.is_empty self.old.overflow) self.old.capacity self.old.ready.items) }
        ensures queued { IfOk result (λ ready. MatchBool ready
            ((self.new.ready.items ≡ self.old.ready.items ++ item ∷ []) × (self.new.overflow ≡ self.old.overflow))
            ((self.new.ready.items ≡ self.old.ready.items) × P.takes_in self.old.overflow item self.new.overflow)) }
        ensures same { OnErr result ((self.new.ready.items ≡ self.old.ready.items) × (self.new.overflow ≡ self.old.overflow)) }
        ensures back { IfErr result (λ back. back ≡ item) }
    {
        if self.has_room() {
            self.push(item);
            return Ok(true);
        }
        match self.overflow.add(item) {
            Ok(()) => Ok(false),
            Err(item) => Err(item),
        }
    }

    // Adds a message to those that are ready.
    fn push(&mut self, item: T)
        requires free { nat_lt (length self.old.ready.items) self.old.capacity ≡ true }
        requires roomy { self.old.capacity ≤ deque_capacity self.old.ready }
        ensures roomy { self.new.capacity ≤ deque_capacity self.new.ready }
        ensures ready { self.new.ready.items ≡ self.old.ready.items ++ item ∷ [] }
        ensures capacity { self.new.capacity ≡ self.old.capacity }
        ensures overflow { self.new.overflow ≡ self.old.overflow }
    {
        self.ready.push_back_reserved(item);
    }

    /// Takes the first message that is ready. What waits then comes into the free places.
    pub fn take(&mut self) -> Option<T>
        requires { self.old.capacity ≤ deque_capacity self.old.ready }
        ensures roomy { self.new.capacity ≤ deque_capacity self.new.ready }
        ensures capacity { self.new.capacity ≡ self.old.capacity }
        ensures taken { MatchOption result
            ((self.old.ready.items ≡ []) × (self.new.ready.items ≡ []) × (self.new.overflow ≡ self.old.overflow))
            (λ item. (rest : List T) × (self.old.ready.items ≡ item ∷ rest)
            × Fills P.gives (self.old.capacity - length rest) rest self.old.overflow self.new.ready.items self.new.overflow) }
    {
        let item = self.ready.pop_front()?;
        self.fill();
        Some(item)
    }

    // Fills the free places with what waits.
    fn fill(&mut self)
        requires { self.old.capacity ≤ deque_capacity self.old.ready }
        ensures roomy { self.new.capacity ≤ deque_capacity self.new.ready }
        ensures capacity { self.new.capacity ≡ self.old.capacity }
        ensures filled { Fills P.gives (self.old.capacity - length self.old.ready.items) self.old.ready.items self.old.overflow
            self.new.ready.items self.new.overflow }
    {
        while self.ready.len() < self.capacity {
            match self.overflow.next() {
                Some(item) => self.push(item),
                None => return,
            }
        }
    }
}
