//! What waits of the messages of peers.
ghost use Rattle.std.specs.Prelude.{IfErr, OnErr, OnOk, [], length, map, option_map, ◌++◌, ◌∷◌, ◌≡◌};
ghost use Rattle.mar_key.specs.PeerQueue.{is_open, ticket_of};
ghost use Rattle.mar_key.specs.Places.{next_kept};
ghost use Rattle.mar_key.specs.Received.{received};
ghost use Rattle.std.specs.BTreeSet.{insert_key};
ghost use Rattle.std.specs.Ordering.{nat_cmp};

use crate::keys::Key;
use crate::outcomes::Delivery;
use crate::overflow::Overflow;
use bytes::Bytes;
use mar_types::Named;
use std::alloc::{AllocError, Global};
use std::collections::{BTreeSet, VecDeque};
use std::marker::Model;

/// What peers send and ask for. What becomes of it is told under its ticket.
#[derive(Drop)]
pub enum Message<D> {
    /// A value that came for a key.
    Deliver {
        ticket: u64,
        delivery: Delivery<D>,
        value: Bytes,
    },
    /// A key that a peer asks for.
    Produce {
        ticket: u64,
        key: Key<D>,
    },
}

impl<D: Named> Message<D> {
    /// Its ticket.
    pub fn ticket(&self) -> u64
        ensures { result ≡ ticket_of (received D.bytes self.now) }
    {
        match self {
            Message::Deliver { ticket, .. } => *ticket,
            Message::Produce { ticket, .. } => *ticket,
        }
    }
}

/// What waits behind the ready list: the deliveries, in order. What a peer asks for is dropped, since the peer can ask
/// another, so that only what this node itself asked for waits. Where a delivery's ticket is closed, it is dropped as its
/// turn comes. A contract sees what waits and the closed tickets.
#[derive(Drop)]
pub struct Pending<D: Named> {
    others: VecDeque<Message<D>>,
    closed: BTreeSet<u64>,
}

impl<D: Named> Model for Pending<D> {
    ghost use Rattle.std.specs.Prelude.{map};
    ghost use Rattle.mar_key.specs.PeerQueue.{Backlog};
    ghost use Rattle.mar_key.specs.Received.{received};

    ghost Value = { Backlog };

    ghost view = { λ p. record { others = map (received D.bytes) p.others.items; closed = p.closed.keys } };
}

impl<D: Named> Pending<D> {
    /// Nothing waits, and no ticket is closed.
    pub(crate) fn new(alloc: Global) -> Self
        ensures { result ≡ record { others = []; closed = [] } }
    {
        Pending {
            others: VecDeque::new(alloc),
            closed: BTreeSet::new(alloc),
        }
    }

    /// How many messages wait.
    pub(crate) fn len(&self) -> usize
        ensures { result ≡ length self.now.others }
    {
        self.others.len()
    }

    /// Marks a ticket as closed. Where memory runs out nothing changes.
    pub(crate) fn close(&mut self, ticket: u64) -> Result<(), AllocError>
        ensures ok { OnOk result (self.new ≡ record self.old { closed = insert_key nat_cmp self.old.closed ticket }) }
        ensures err { OnErr result (self.new ≡ self.old) }
    {
        match self.closed.insert(ticket) {
            Ok(_) => Ok(()),
            Err(_) => Err(AllocError),
        }
    }
}

impl<D: Named> Overflow<Message<D>> for Pending<D> {
    ghost use Rattle.std.specs.Prelude.{length, option_map, ◌==◌, ◌≡◌};
    ghost use Rattle.mar_key.specs.PeerQueue.{next_open, overflowed};
    ghost use Rattle.mar_key.specs.Received.{received};

    ghost is_empty = { λ w. length w.others == 0 };

    ghost takes_in = { λ w item v. v ≡ record w { others = overflowed w.others (received D.bytes item) } };

    ghost gives = { λ w given v. next_open w ≡ (option_map (received D.bytes) given, v) };

    fn is_empty(&self) -> bool {
        self.others.is_empty()
    }

    fn add(&mut self, item: Message<D>) -> Result<(), Message<D>> {
        match item {
            Message::Deliver { .. } => push(&mut self.others, item),
            Message::Produce { .. } => Ok(()),
        }
    }

    fn next(&mut self) -> Option<Message<D>> {
        next_open(&mut self.others, &self.closed)
    }
}

// Adds a message behind the others, or hands it back where memory runs out.
fn push<D>(others: &mut VecDeque<Message<D>>, item: Message<D>) -> Result<(), Message<D>>
    ensures ok { OnOk result (others.new.items ≡ others.old.items ++ item ∷ []) }
    ensures same { OnErr result (others.new.items ≡ others.old.items) }
    ensures back { IfErr result (λ back. back ≡ item) }
{
    match others.push_back(item) {
        Ok(()) => Ok(()),
        Err(refused) => Err(refused.value),
    }
}

// The first message whose ticket isn't closed. Those before it are dropped.
fn next_open<D: Named>(
    others: &mut VecDeque<Message<D>>,
    closed: &BTreeSet<u64>,
) -> Option<Message<D>>
    ensures { next_kept (is_open closed.now.keys) (map (received D.bytes) others.old.items)
        ≡ (option_map (received D.bytes) result, map (received D.bytes) others.new.items) }
{
    while let Some(message) = others.pop_front() {
        if waits_still(&message, closed) {
            return Some(message);
        }
    }
    None
}

// Whether the message's ticket isn't closed.
fn waits_still<D: Named>(message: &Message<D>, closed: &BTreeSet<u64>) -> bool
    ensures { result ≡ is_open closed.now.keys (received D.bytes message.now) }
{
    let ticket = message.ticket();
    !closed.contains(&ticket)
}
