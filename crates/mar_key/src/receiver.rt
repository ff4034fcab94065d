//! The queue of what peers send and ask for.
ghost use Rattle.std.specs.Prelude.{IfOk, IfSome, OnErr, OnOk, Some, length, map, min, option_map, ◌+◌, ◌≡◌};
ghost use Rattle.mar_key.specs.PeerQueue.{Enqueues, after_peer_close, after_peer_enqueue, after_peer_take, deliver, new_peer_queue, peer_room, peer_taken, produce};
ghost use Rattle.mar_key.specs.Received.{received};
ghost use Rattle.mar_key.specs.Views.{annotation_of, key_of};

use crate::keys::Key;
use crate::outcomes::Delivery;
use crate::peers::{Consumer, Producer};
use crate::pending::{Message, Pending};
use crate::queue::Queue;
use bytes::Bytes;
use mar_types::Digest;
use std::alloc::{AllocError, Global};
use std::marker::Model;

/// The messages of peers: those that are ready, at most so many, and the deliveries that wait for a place. A contract sees
/// them as plain data.
#[derive(Drop)]
pub struct Receiver<D: Digest> {
    alloc: Global,
    queue: Queue<Message<D>, Pending<D>>,
}

impl<D: Digest> Model for Receiver<D> {
    ghost use Rattle.std.specs.Prelude.{map, ◌≤◌};
    ghost use Rattle.std.specs.VecDeque.{deque_capacity};
    ghost use Rattle.mar_key.specs.PeerQueue.{PeerQueue};
    ghost use Rattle.mar_key.specs.Received.{received};

    ghost Value = { PeerQueue };

    ghost view = { λ r. record {
      ready = map (received D.bytes) r.queue.ready.items;
      capacity = r.queue.capacity;
      overflow = r.queue.overflow.others;
      closed = r.queue.overflow.closed;
    } };

    ghost invariant = { λ r. r.queue.capacity ≤ deque_capacity r.queue.ready };
}

/// A queue with so many places for messages that are ready.
pub fn init<D: Digest>(alloc: Global, capacity: usize) -> Result<Receiver<D>, AllocError>
    ensures { IfOk result (λ r. r ≡ new_peer_queue capacity) }
{
    let queue = Queue::new(alloc, capacity, Pending::new(alloc))?;
    Ok(Receiver { alloc, queue })
}

impl<D: Digest> Receiver<D> {
    /// Who hands in what peers send and ask for.
    pub fn handler(&mut self) -> Handler<'_, D>
        ensures lent { result.receiver.ghost_name ≡ self.entry.ghost_name }
        ensures queue { result.receiver.now ≡ self.old }
    {
        Handler { receiver: self }
    }

    /// Marks a ticket as closed: a delivery that waits for it, or that comes to wait for it, is dropped as its turn comes to
    /// be ready. Where memory runs out nothing changes.
    pub fn close(&mut self, ticket: u64) -> Result<(), AllocError>
        ensures ok { OnOk result (self.new ≡ after_peer_close self.old ticket) }
        ensures err { OnErr result (self.new ≡ self.old) }
    {
        self.queue.overflow.close(ticket)
    }

    /// Takes the first message. Those that wait then come into the free places.
    pub fn try_recv(&mut self) -> Option<Message<D>>
        ensures { peer_taken self.old ≡ (option_map (received D.bytes) result, self.new) }
    {
        self.queue.take()
    }

    /// Takes the first messages, at most so many. Where memory runs out none is taken.
    pub fn take(&mut self, most: usize) -> Result<Vec<Message<D>>, AllocError>
        ensures taken { IfOk result (λ messages. after_peer_take most self.old ≡ (map (received D.bytes) messages.items, self.new)) }
        ensures err { OnErr result (self.new ≡ self.old) }
    {
        let mut messages = Vec::with_capacity(self.alloc, self.queued_at_most(most))?;
        while messages.len() < most {
            match self.try_recv() {
                Some(message) => messages.push_reserved(message),
                None => return Ok(messages),
            }
        }
        Ok(messages)
    }

    // How many messages are ready or wait, but at most so many.
    fn queued_at_most(&self, most: usize) -> usize
        ensures { result ≡ min most (length self.now.ready + length self.now.overflow) }
    {
        match self
            .queue
            .ready_len()
            .checked_add(self.queue.overflow.len())
        {
            Some(queued) => most.min(queued),
            None => most,
        }
    }

    // Takes a message, and says whether it is ready at once. Where memory runs out nothing changes.
    fn enqueue(&mut self, message: Message<D>) -> Result<bool, AllocError>
        ensures ok { OnOk result (self.new ≡ after_peer_enqueue self.old (received D.bytes message)) }
        ensures ready { IfOk result (λ is_ready. is_ready ≡ peer_room self.old) }
        ensures err { OnErr result (self.new ≡ self.old) }
    {
        match self.queue.enqueue(message) {
            Ok(is_ready) => Ok(is_ready),
            Err(_) => Err(AllocError),
        }
    }
}

/// Hands in what peers send and ask for.
#[derive(Drop)]
pub struct Handler<'a, D: Digest> {
    receiver: &'a mut Receiver<D>,
}

impl<D: Digest> Consumer<D> for Handler<'_, D> {
    ghost queue = { λ h. Some h.receiver.now };

    fn deliver(
        &mut self,
        ticket: u64,
        delivery: Delivery<D>,
        value: Bytes,
    ) -> Result<(), AllocError>
        ensures same_receiver { self.new.receiver.ghost_name ≡ self.old.receiver.ghost_name }
        ensures ok { OnOk result (Enqueues (Some self.old.receiver.now) (deliver ticket (key_of D.bytes delivery.key) value
            (map annotation_of delivery.annotations.items)) (Some self.new.receiver.now)) }
        ensures err { OnErr result (Some self.new.receiver.now ≡ Some self.old.receiver.now) }
    {
        self.receiver.enqueue(Message::Deliver {
            ticket,
            delivery,
            value,
        })?;
        Ok(())
    }
}

impl<D: Digest> Producer<D> for Handler<'_, D> {
    ghost queue = { λ h. Some h.receiver.now };

    fn produce(&mut self, ticket: u64, key: Key<D>) -> Result<bool, AllocError>
        ensures same_receiver { self.new.receiver.ghost_name ≡ self.old.receiver.ghost_name }
        ensures ok { OnOk result (Enqueues (Some self.old.receiver.now) (produce ticket (key_of D.bytes key)) (Some self.new.receiver.now)) }
        ensures taken { IfOk result (λ taken. IfSome (Some self.old.receiver.now) (λ q. taken ≡ peer_room q)) }
        ensures err { OnErr result (Some self.new.receiver.now ≡ Some self.old.receiver.now) }
    {
        self.receiver.enqueue(Message::Produce { ticket, key })
    }
}
