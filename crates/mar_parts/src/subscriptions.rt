//! Who waits for which block.
ghost use Rattle.std.specs.Prelude.{◌≡◌, [], None, OnErr, OnOk, Some, bytes_eq, if◌then◌else◌, option_and_then};
ghost use Rattle.mar_parts.specs.Waits.{is_promised, still_open, tickets_for, tickets_in, wait_for};
ghost use Rattle.mar_parts.specs.WaitKeys.{is_commitment_key, is_digest_key, wait_under, wait_with};

use crate::waiters::Waiters;
use mar_block::{Buffer, Variant};
use mar_types::Digest;
use std::alloc::{AllocError, Global};
use std::marker::Model;

/// What a subscriber waits for. A block of the same digest but of another commitment doesn't end a wait for a
/// commitment, so the two kinds of keys are kept apart.
#[derive(Clone, Copy, Debug, PartialEq, Eq, PartialOrd, Ord)]
pub enum Key<C, D> {
    /// The block of this digest.
    Digest(D),
    /// The block of this commitment.
    Commitment(C),
}

/// The tickets that a block serves, in the order in which they came.
#[derive(Debug, PartialEq, Eq, Drop)]
pub struct Served {
    /// Those that waited for the block's digest.
    pub by_digest: Vec<u64>,
    /// Those that waited for the block's commitment.
    pub by_commitment: Vec<u64>,
}

/// The subscribers of blocks, each named by a ticket, under what they wait for. The buffer is asked once for each key,
/// and its promise is kept as long as somebody waits under the key. A contract sees a record of the waits by digest and
/// of those by commitment.
#[derive(Drop)]
pub struct Subscriptions<V: Variant>
where
    V::Digest: Digest,
    V::Commitment: Digest,
{
    alloc: Global,
    digests: Waiters<V::Digest>,
    commitments: Waiters<V::Commitment>,
}

impl<V: Variant> Model for Subscriptions<V>
where
    V::Digest: Digest,
    V::Commitment: Digest,
{
    ghost use Rattle.mar_parts.specs.Waits.{Waits};

    ghost Value = { Waits };

    ghost view = { λ s. record { digests = s.digests; commitments = s.commitments } };
}

impl<V: Variant> Subscriptions<V>
where
    V::Digest: Digest,
    V::Commitment: Digest,
{
    /// Nobody waits.
    pub fn new(alloc: Global) -> Self
        ensures { result ≡ record { digests = []; commitments = [] } }
    {
        Subscriptions {
            alloc,
            digests: Waiters::new(alloc),
            commitments: Waiters::new(alloc),
        }
    }

    /// The ticket waits under a key, behind those that do. Where it is the first, the buffer is asked to tell of the
    /// block. Where memory runs out nothing changes.
    pub fn insert<B: Buffer<V>>(
        &mut self,
        key: Key<V::Commitment, V::Digest>,
        ticket: u64,
        buffer: &B,
    ) -> Result<(), AllocError>
        ensures digests { OnOk result ((d : V.Digest) → wait_for self.new.digests (V.Digest.bytes d)
            ≡ (if is_digest_key V.Digest.bytes key (V.Digest.bytes d) then Some (wait_with V.Commitment.bytes V.Digest.bytes self.old key ticket
            (B.notifies buffer.now)) else wait_for self.old.digests (V.Digest.bytes d))) }
        ensures commitments { OnOk result ((c : V.Commitment) → wait_for self.new.commitments (V.Commitment.bytes c)
            ≡ (if is_commitment_key V.Commitment.bytes key (V.Commitment.bytes c) then Some
            (wait_with V.Commitment.bytes V.Digest.bytes self.old key ticket (B.notifies buffer.now)) else wait_for self.old.commitments
            (V.Commitment.bytes c))) }
        ensures err { OnErr result (self.new ≡ self.old) }
    {
        match key {
            Key::Digest(digest) => {
                if self.digests.join(&digest, ticket)? {
                    return Ok(());
                }
                let promise = buffer.subscribe_by_digest(&digest);
                self.digests.open(self.alloc, digest, promise, ticket)
            }
            Key::Commitment(commitment) => {
                if self.commitments.join(&commitment, ticket)? {
                    return Ok(());
                }
                let promise = buffer.subscribe_by_commitment(&commitment);
                self.commitments
                    .open(self.alloc, commitment, promise, ticket)
            }
        }
    }

    /// Nobody waits under that key from now on, and the buffer's promise goes. The answer is who did.
    pub fn remove(&mut self, key: &Key<V::Commitment, V::Digest>) -> Vec<u64>
        ensures tickets { result.items ≡ tickets_in (wait_under V.Commitment.bytes V.Digest.bytes self.old key.now) }
        ensures digests { (d : V.Digest) → wait_for self.new.digests (V.Digest.bytes d)
            ≡ (if is_digest_key V.Digest.bytes key.now (V.Digest.bytes d) then None else wait_for self.old.digests (V.Digest.bytes d)) }
        ensures commitments { (c : V.Commitment) → wait_for self.new.commitments (V.Commitment.bytes c)
            ≡ (if is_commitment_key V.Commitment.bytes key.now (V.Commitment.bytes c) then None else wait_for self.old.commitments (V.Commitment.bytes c)) }
    {
        match key {
            Key::Digest(digest) => self.digests.remove(self.alloc, digest),
            Key::Commitment(commitment) => self.commitments.remove(self.alloc, commitment),
        }
    }

    /// The closed tickets wait no more. Where none is left under a key, the buffer's promise goes.
    pub fn retain_open(&mut self, closed: &[u64])
        ensures digests { (d : V.Digest) → wait_for self.new.digests (V.Digest.bytes d)
            ≡ option_and_then (still_open closed.now) (wait_for self.old.digests (V.Digest.bytes d)) }
        ensures commitments { (c : V.Commitment) → wait_for self.new.commitments (V.Commitment.bytes c)
            ≡ option_and_then (still_open closed.now) (wait_for self.old.commitments (V.Commitment.bytes c)) }
    {
        self.digests.retain_open(closed);
        self.commitments.retain_open(closed);
    }

    /// A block has come: those who wait for its digest or for its commitment are to be given it, and wait no more.
    pub fn notify(&mut self, block: &V::Block) -> Served
        ensures by_digest { result.by_digest.items ≡ tickets_for self.old.digests (V.plain block.now).digest }
        ensures by_commitment { result.by_commitment.items ≡ tickets_for self.old.commitments (V.plain block.now).commitment }
        ensures digests { (d : V.Digest) → wait_for self.new.digests (V.Digest.bytes d)
            ≡ (if bytes_eq (V.plain block.now).digest (V.Digest.bytes d) then None else wait_for self.old.digests (V.Digest.bytes d)) }
        ensures commitments { (c : V.Commitment) → wait_for self.new.commitments (V.Commitment.bytes c)
            ≡ (if bytes_eq (V.plain block.now).commitment (V.Commitment.bytes c) then None else wait_for self.old.commitments (V.Commitment.bytes c)) }
    {
        let digest = V::digest(block);
        let commitment = V::commitment(block);
        Served {
            by_digest: self.digests.remove(self.alloc, &digest),
            by_commitment: self.commitments.remove(self.alloc, &commitment),
        }
    }

    /// Whether the buffer has promised to tell of the block of that key.
    pub fn is_subscribed(&self, key: &Key<V::Commitment, V::Digest>) -> bool
        ensures { result ≡ is_promised (wait_under V.Commitment.bytes V.Digest.bytes self.now key.now) }
    {
        match key {
            Key::Digest(digest) => self.digests.is_promised(digest),
            Key::Commitment(commitment) => self.commitments.is_promised(commitment),
        }
    }
}
