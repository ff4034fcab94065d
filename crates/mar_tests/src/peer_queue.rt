//! The queue of what peers send and ask for, by a script of its calls.
use crate::tell::*;
use bytes::Bytes;
use mar_key::{Consumer, Delivery, Key, Producer, Receiver, init};
use mar_types::{Height, Sha256Digest};
use std::alloc::Global;
use std::process::Abort;

// A call of the queue, and what it is to answer.
#[derive(Clone, Copy)]
enum Call {
    // Something comes for a key, under this ticket.
    Deliver(u64),
    // A peer asks, under this ticket, and is taken or not.
    Produce(u64, bool),
    // The ticket is closed.
    Close(u64),
    // The first message has this ticket.
    Recv(u64),
    // So many messages are taken, where so many are asked for.
    Take(usize, usize),
}

// One place: a delivery is ready, what a peer asks then is dropped, and of two deliveries that wait the one whose ticket is
// closed is dropped as its turn comes.
const ONE_PLACE: [Call; 9] = [
    Call::Deliver(1),
    Call::Produce(7, false),
    Call::Deliver(2),
    Call::Deliver(3),
    Call::Close(2),
    Call::Recv(1),
    Call::Recv(3),
    Call::Take(5, 0),
    Call::Produce(8, true),
];

// Two places: no more are taken than are asked for, in the order in which they came.
const TWO_PLACES: [Call; 7] = [
    Call::Produce(1, true),
    Call::Deliver(2),
    Call::Deliver(3),
    Call::Take(2, 2),
    Call::Produce(4, true),
    Call::Recv(3),
    Call::Take(9, 1),
];

const fn key() -> Key<Sha256Digest> {
    Key::Finalized {
        height: Height::new(12345),
    }
}

fn deliver(rt: &impl Abort, alloc: Global, peers: &mut Receiver<Sha256Digest>, ticket: u64) {
    let delivery = Delivery {
        key: key(),
        annotations: Vec::new(alloc),
    };
    let mut handler = peers.handler();
    given(
        rt,
        handler.deliver(ticket, delivery, Bytes::from_static(b"\x01")),
    );
}

fn is_taken(rt: &impl Abort, peers: &mut Receiver<Sha256Digest>, ticket: u64) -> bool {
    let mut handler = peers.handler();
    given(rt, handler.produce(ticket, key()))
}

fn is_first(peers: &mut Receiver<Sha256Digest>, ticket: u64) -> bool {
    match peers.try_recv() {
        Some(message) => message.ticket() == ticket,
        None => false,
    }
}

fn answers(rt: &impl Abort, alloc: Global, peers: &mut Receiver<Sha256Digest>, call: Call) -> bool {
    match call {
        Call::Deliver(ticket) => {
            deliver(rt, alloc, peers, ticket);
            true
        }
        Call::Produce(ticket, taken) => is_taken(rt, peers, ticket) == taken,
        Call::Close(ticket) => {
            given(rt, peers.close(ticket));
            true
        }
        Call::Recv(ticket) => is_first(peers, ticket),
        Call::Take(most, wanted) => given(rt, peers.take(most)).len() == wanted,
    }
}

fn play(rt: &impl Abort, alloc: Global, places: usize, calls: &[Call]) {
    let mut peers: Receiver<Sha256Digest> = given(rt, init(alloc, places));
    for call in calls {
        holds(rt, answers(rt, alloc, &mut peers, *call));
    }
}

#[test]
fn what_waits_of_peers(rt: HostRuntime) {
    play(&rt, rt.alloc(), 1, &ONE_PLACE);
    play(&rt, rt.alloc(), 2, &TWO_PLACES);
}
