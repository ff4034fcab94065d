//! A buffer in memory.
ghost use Rattle.std.specs.Prelude.{◌≡◌, ◌++◌, ◌∷◌, [], IfOk, OnErr, OnOk, Some, false, map, option_map, true};
ghost use Rattle.mar_types.specs.Places.{at_place};
ghost use Rattle.mar_block.specs.Sent.{sending};

use crate::places::BlockPlaces;
use crate::recipients::{Recipients, Sent};
use crate::{Buffer, Finds, Variant};
use mar_key::Subscription;
use mar_types::{Digest, Participant, Round};
use std::alloc::{AllocError, Global};
use std::marker::Model;
use std::mem;

/// Keeps the blocks that are put, in order, and the first place of each digest and of each commitment. It tells of the
/// blocks that come until it is closed, and keeps what it was handed to send. A contract sees the blocks as plain data.
#[derive(Drop)]
pub struct MemBuffer<V: Variant>
where
    V::Digest: Digest,
    V::Commitment: Digest,
{
    blocks: Vec<V::Block>,
    places: BlockPlaces<V>,
    is_open: bool,
    sent: Vec<Sent<V::Block>>,
}

impl<V: Variant> Model for MemBuffer<V>
where
    V::Digest: Digest,
    V::Commitment: Digest,
{
    ghost use Rattle.std.specs.Prelude.{map};
    ghost use Rattle.std.specs.BTreeMap.{get};
    ghost use Rattle.mar_types.specs.Places.{PlacesFirst};
    ghost use Rattle.mar_block.specs.Sent.{Held, sending};

    ghost Value = { Held };

    ghost view = { λ b. record {
      blocks = map V.plain b.blocks.items;
      is_open = b.is_open;
      sent = map (sending V.plain) b.sent.items;
    } };

    ghost invariant = { λ b. PlacesFirst V.Digest.bytes (λ x. x.digest)
        (map V.plain b.blocks.items) (get V.Digest.cmp b.places.digests.places)
        × PlacesFirst V.Commitment.bytes (λ x. x.commitment)
        (map V.plain b.blocks.items) (get V.Commitment.cmp b.places.commitments.places) };
}

impl<V: Variant> MemBuffer<V>
where
    V::Digest: Digest,
    V::Commitment: Digest,
{
    /// A buffer that has no block, is open and has sent nothing.
    pub fn new(alloc: Global) -> Self
        ensures { result ≡ record { blocks = []; is_open = true; sent = [] } }
    {
        MemBuffer {
            blocks: Vec::new(alloc),
            places: BlockPlaces::new(alloc),
            is_open: true,
            sent: Vec::new(alloc),
        }
    }

    /// Puts a block behind those that it has. One that is put again stands twice, and the first is found.
    pub fn put(&mut self, block: V::Block) -> Result<(), AllocError>
        ensures ok { OnOk result (self.new ≡ record self.old { blocks = self.old.blocks ++ V.plain block ∷ [] }) }
        ensures err { OnErr result (self.new ≡ self.old) }
    {
        let place = self.blocks.len();
        self.blocks.reserve(1)?;
        self.places
            .note(V::digest(&block), V::commitment(&block), place)?;
        self.blocks.push_reserved(block);
        Ok(())
    }

    /// From now on it tells of no block that comes. It keeps what it has.
    pub fn close(&mut self)
        ensures { self.new ≡ record self.old { is_open = false } }
    {
        self.is_open = false;
    }

    /// Whether it tells of the blocks that come.
    pub fn is_open(&self) -> bool
        ensures { result ≡ self.now.is_open }
    {
        self.is_open
    }

    /// Gives what it was handed to send, in order, and keeps none of it.
    pub fn take_sent(&mut self, alloc: Global) -> Vec<Sent<V::Block>>
        ensures taken { map (sending V.plain) result.items ≡ self.old.sent }
        ensures left { self.new ≡ record self.old { sent = [] } }
    {
        mem::replace(&mut self.sent, Vec::new(alloc))
    }

    /// What it was handed to send, in order.
    pub fn sent(&self) -> &[Sent<V::Block>]
        ensures { map (sending V.plain) result.now ≡ self.now.sent }
    {
        self.sent.as_slice()
    }
}

impl<V: Variant> Finds<V> for MemBuffer<V>
where
    V::Digest: Digest,
    V::Commitment: Digest,
{
    ghost blocks = { λ b. b.blocks };

    fn find_by_digest(&self, digest: &V::Digest) -> Result<Option<V::Block>, AllocError> {
        block_at::<V>(&self.blocks, self.places.digests.place_of(digest))
    }

    fn find_by_commitment(
        &self,
        commitment: &V::Commitment,
    ) -> Result<Option<V::Block>, AllocError> {
        block_at::<V>(&self.blocks, self.places.commitments.place_of(commitment))
    }
}

impl<V: Variant> Buffer<V> for MemBuffer<V>
where
    V::Digest: Digest,
    V::Commitment: Digest,
{
    ghost notifies = { λ b. b.is_open };

    ghost sent = { λ b. Some b.sent };

    fn subscribe_by_digest(&self, digest: &V::Digest) -> Option<Subscription<V::Digest>> {
        if self.is_open {
            Some(Subscription { name: *digest })
        } else {
            None
        }
    }

    fn subscribe_by_commitment(
        &self,
        commitment: &V::Commitment,
    ) -> Option<Subscription<V::Commitment>> {
        if self.is_open {
            Some(Subscription { name: *commitment })
        } else {
            None
        }
    }

    fn send(
        &mut self,
        round: Round,
        block: V::Block,
        recipients: Recipients<Participant>,
    ) -> Result<(), AllocError> {
        let sent = Sent {
            round,
            block,
            recipients,
        };
        self.sent.push(sent)?;
        Ok(())
    }
}

// A copy of the block at that place.
fn block_at<V: Variant>(
    blocks: &[V::Block],
    place: Option<usize>,
) -> Result<Option<V::Block>, AllocError>
    ensures { IfOk result (λ o. option_map V.plain o ≡ at_place (map V.plain blocks.now) place) }
{
    let Some(place) = place else {
        return Ok(None);
    };
    let Some(block) = blocks.get(place) else {
        return Ok(None);
    };
    let copy = V::try_clone(block)?;
    Ok(Some(copy))
}
