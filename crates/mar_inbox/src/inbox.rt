//! The inbox.
ghost use Rattle.std.specs.Prelude.{IfErr, IfOk, OnErr, OnOk, Some, false, if◌then◌else◌, option_map, true, ◌+◌, ◌-◌, ◌<◌, ◌≡◌};
ghost use Rattle.mar_inbox.specs.Policy.{after_enqueue, after_open_enqueue, after_take, closing_of, feedback, feedback_accepted, feedback_overflowed, new_inbox, take_answer, with_closed};
ghost use Rattle.mar_inbox.specs.Queueing.{feedback_of, taken_of};

use crate::backlog::Backlog;
use crate::feedback::Feedback;
use crate::letter::{Kind, Letter};
use crate::taken::Taken;
use mar_key::Queue;
use std::alloc::{AllocError, Global};
use std::marker::Model;

/// The messages of callers: those that are ready, at most so many; behind them what waits; the seats out, from which
/// messages come; and whether it was shut. A contract sees them as plain data.
///
/// A message enters the ready list where nothing waits and a place is free, else it waits. A take gives the first message
/// that is ready, and then fills the free places with what waits: the floor, the prune, then the others in order.
#[derive(Drop)]
pub struct Inbox<M: Letter> {
    queue: Queue<M, Backlog<M>>,
    seats: u64,
    shut: bool,
}

impl<M: Letter> Model for Inbox<M> {
    ghost use Rattle.std.specs.Prelude.{map, ◌≤◌};
    ghost use Rattle.std.specs.VecDeque.{deque_capacity};
    ghost use Rattle.mar_model.specs.Messages.{Inbox as PlainInbox};

    ghost Value = { PlainInbox };

    ghost view = { λ i. record {
      ready = map M.plain i.queue.ready.items;
      capacity = i.queue.capacity;
      floor = i.queue.overflow.floor;
      prune = i.queue.overflow.prune;
      overflow = i.queue.overflow.others;
      closed = i.queue.overflow.closed;
      seats = i.seats;
      shut = i.shut;
    } };

    ghost invariant = { λ i. i.queue.capacity ≤ deque_capacity i.queue.ready };
}

impl<M: Letter> Inbox<M> {
    /// An inbox with so many places for messages that are ready.
    pub fn new(alloc: Global, capacity: usize) -> Result<Self, AllocError>
        ensures { IfOk result (λ i. i ≡ new_inbox capacity) }
    {
        let queue = Queue::new(alloc, capacity, Backlog::new(alloc))?;
        Ok(Inbox {
            queue,
            seats: 0,
            shut: false,
        })
    }

    /// A seat was made. There can be no more than a number counts, and past those it answers as where memory runs out.
    pub fn made(&mut self) -> Result<(), AllocError>
        ensures ok { OnOk result (self.new ≡ record self.old { seats = self.old.seats + 1 }) }
        ensures err { OnErr result (self.new ≡ self.old) }
    {
        match self.seats.checked_add(1) {
            Some(seats) => {
                self.seats = seats;
                Ok(())
            }
            None => Err(AllocError),
        }
    }

    /// A seat ended.
    pub fn ended(&mut self)
        requires { 0 < self.old.seats }
        ensures { self.new ≡ record self.old { seats = self.old.seats - 1 } }
    {
        self.seats -= 1;
    }

    /// From now on an enqueue is answered `Closed`, and changes nothing.
    pub fn shut(&mut self)
        ensures { self.new ≡ record self.old { shut = true } }
    {
        self.shut = true;
    }

    /// Takes a message, and says what becomes of it. Where memory runs out it is handed back, and nothing changes.
    pub fn enqueue(&mut self, message: M) -> Result<Feedback, M>
        ensures feedback { IfOk result (λ f. feedback_of f ≡ feedback self.old) }
        ensures ok { OnOk result (self.new ≡ after_enqueue self.old (M.plain message)) }
        ensures err { OnErr result (self.new ≡ self.old) }
        ensures back { IfErr result (λ back. back ≡ message) }
    {
        if self.shut {
            return Ok(Feedback::Closed);
        }
        match closing_of(&message) {
            Some(ticket) => self.enqueue_closing(message, ticket),
            None => self.enqueue_open(message),
        }
    }

    // Takes a message that closes no ticket.
    fn enqueue_open(&mut self, message: M) -> Result<Feedback, M>
        requires { self.old.shut ≡ false }
        ensures feedback { IfOk result (λ f. feedback_of f ≡ feedback self.old) }
        ensures ok { OnOk result (self.new ≡ after_open_enqueue self.old (M.plain message)) }
        ensures err { OnErr result (self.new ≡ self.old) }
        ensures back { IfErr result (λ back. back ≡ message) }
    {
        match self.queue.enqueue(message) {
            Ok(is_ready) => Ok(feedback_for(is_ready)),
            Err(message) => Err(message),
        }
    }

    // Takes a message that closes this ticket. The ticket is closed as it comes.
    fn enqueue_closing(&mut self, message: M, ticket: u64) -> Result<Feedback, M>
        requires shut { self.old.shut ≡ false }
        requires closing { closing_of (M.plain message).message ≡ Some ticket }
        ensures feedback { IfOk result (λ f. feedback_of f ≡ feedback self.old) }
        ensures ok { OnOk result (self.new ≡ after_open_enqueue (with_closed self.old (M.plain message).message) (M.plain message)) }
        ensures err { OnErr result (self.new ≡ self.old) }
        ensures back { IfErr result (λ back. back ≡ message) }
    {
        let Ok(is_new) = self.queue.overflow.close(ticket) else {
            return Err(message);
        };
        match self.queue.enqueue(message) {
            Ok(is_ready) => Ok(feedback_for(is_ready)),
            Err(message) => {
                self.queue.overflow.reopen(ticket, is_new);
                Err(message)
            }
        }
    }

    /// Takes the first message. What waits then comes into the free places.
    pub fn take(&mut self) -> Taken<M>
        ensures taken { taken_of M.plain result ≡ take_answer self.old }
        ensures rest { self.new ≡ (after_take self.old).1 }
    {
        match self.take_first() {
            Some(message) => Taken::Message(message),
            None if self.seats == 0 => Taken::Closed,
            None => Taken::Empty,
        }
    }

    // The first message, if there is one.
    fn take_first(&mut self) -> Option<M>
        ensures { after_take self.old ≡ (option_map M.plain result, self.new) }
    {
        self.queue.take()
    }
}

// The ticket that a message closes.
fn closing_of<M: Letter>(message: &M) -> Option<u64>
    ensures { result ≡ closing_of (M.plain message.now).message }
{
    match message.kind() {
        Kind::Close(ticket) => Some(ticket),
        _ => None,
    }
}

// A message that isn't refused is ready, or waits.
fn feedback_for(is_ready: bool) -> Feedback
    ensures { feedback_of result ≡ (if is_ready then feedback_accepted else feedback_overflowed) }
{
    if is_ready {
        Feedback::Ok
    } else {
        Feedback::Overflowed
    }
}
