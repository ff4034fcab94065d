//! Subscriptions, over a buffer that promises and one that doesn't.
use crate::light::{Plate, Plates, plate_at};
use crate::tell::*;
use mar_block::{Buffer, Finds, Recipients, Subscription};
use mar_parts::{Key, Subscriptions};
use mar_types::{Hasher, Participant, Round, Sha256, Sha256Digest};
use std::alloc::{AllocError, Global};
use std::cell::Cell;
use std::process::Abort;

// A buffer that has nothing, and counts how often it is asked to tell of a block: by its digest as one, by its commitment
// as ten. It promises to tell of each block, or of none.
#[derive(Drop)]
struct Counting {
    promises: bool,
    asked: Cell<u64>,
}

impl Counting {
    fn count(&self, more: u64) {
        self.asked.set(self.asked.get().saturating_add(more));
    }
}

impl Finds<Plates> for Counting {
    ghost use Rattle.std.specs.Prelude.{[]};

    ghost blocks = { λ _. [] };

    fn find_by_digest(&self, _digest: &Sha256Digest) -> Result<Option<Plate>, AllocError> {
        Ok(None)
    }

    fn find_by_commitment(&self, _commitment: &Sha256Digest) -> Result<Option<Plate>, AllocError> {
        Ok(None)
    }
}

impl Buffer<Plates> for Counting {
    ghost use Rattle.std.specs.Prelude.{None};

    ghost notifies = { λ b. b.promises };

    ghost sent = { λ _. None };

    fn subscribe_by_digest(&self, digest: &Sha256Digest) -> Option<Subscription<Sha256Digest>> {
        self.count(1);
        if !self.promises {
            return None;
        }
        Some(Subscription { name: *digest })
    }

    fn subscribe_by_commitment(
        &self,
        commitment: &Sha256Digest,
    ) -> Option<Subscription<Sha256Digest>> {
        self.count(10);
        if !self.promises {
            return None;
        }
        Some(Subscription { name: *commitment })
    }

    fn send(
        &mut self,
        _round: Round,
        _block: Plate,
        _recipients: Recipients<Participant>,
    ) -> Result<(), AllocError> {
        Ok(())
    }
}

type Waits = Subscriptions<Plates>;

type Name = Key<Sha256Digest, Sha256Digest>;

fn digest() -> Name {
    Key::Digest(Sha256::fill(1))
}

fn commitment() -> Name {
    Key::Commitment(Sha256::fill(1))
}

// What the buffer was asked when the ticket waits under a key.
fn asked_by(rt: &impl Abort, waits: &mut Waits, buffer: &Counting, name: Name, ticket: u64) -> u64 {
    given(rt, waits.insert(name, ticket, buffer));
    buffer.asked.get()
}

// Whether the buffer is asked by the first ticket under each key alone.
fn asks_once(rt: &impl Abort, waits: &mut Waits, buffer: &Counting) -> bool {
    let first = asked_by(rt, waits, buffer, digest(), 4);
    let again = asked_by(rt, waits, buffer, digest(), 2);
    let other = asked_by(rt, waits, buffer, commitment(), 3);
    let more = asked_by(rt, waits, buffer, commitment(), 5);
    (first == 1) & (again == 1) & (other == 11) & (more == 11)
}

// Whether a block serves those who wait for it.
fn serves(waits: &mut Waits) -> bool {
    waits.retain_open(&[2, 3]);
    let served = waits.notify(&plate_at(1));
    (served.by_digest.len() == 1) & (served.by_commitment.len() == 1)
}

// Whether the buffer is asked once a key, and once more where nobody waited any longer.
fn waits_over(rt: &impl Abort, alloc: Global, promises: bool) -> bool {
    let buffer = Counting {
        promises,
        asked: Cell::new(0),
    };
    let mut waits = Subscriptions::new(alloc);
    let once = asks_once(rt, &mut waits, &buffer);
    let promised = waits.is_subscribed(&commitment()) == promises;
    let served = serves(&mut waits);
    let anew = asked_by(rt, &mut waits, &buffer, digest(), 6) == 12;
    let removed = waits.remove(&digest());
    once & promised & served & anew & (removed.len() == 1)
}

#[test]
fn a_buffer_is_asked_once_a_key(rt: HostRuntime) {
    holds(&rt, waits_over(&rt, rt.alloc(), true));
    holds(&rt, waits_over(&rt, rt.alloc(), false));
}
