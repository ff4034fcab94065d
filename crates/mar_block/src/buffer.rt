//! Blocks that were received and are not yet stored.
ghost use Rattle.std.specs.Prelude.{◌≡◌, Bool, false, List, [], ◌∷◌, IfOk, IfSome, IsOk, None};
ghost use Rattle.std.specs.Prelude.{OnErr, OnOk, Option, is_some, option_map};
ghost use Rattle.mar_block.specs.Recipients.{named};
ghost use Rattle.mar_block.specs.Sent.{Sending, Sends};

use crate::recipients::Recipients;
use crate::{Finds, Variant};
use mar_key::Subscription;
use mar_types::{Participant, Round};
use std::alloc::AllocError;

/// Finds blocks that were received, tells of those that come, and sends blocks.
pub trait Buffer<V: Variant>: Finds<V> {
    /// It can tell of the blocks that come.
    ghost notifies: { Self → Bool };

    /// What it was handed to send, in order, where it tells that.
    ghost sent: { Self → Option (List Sending) };

    /// A subscription to the block of that digest, or `None` where the buffer can't tell of blocks that come.
    fn subscribe_by_digest(&self, digest: &V::Digest) -> Option<Subscription<V::Digest>>
        ensures given { is_some result ≡ notifies self.now }
        ensures name { IfSome result (λ s. s.name ≡ digest.now) };

    /// A subscription to the block of that commitment, or `None` where the buffer can't tell of blocks that come.
    fn subscribe_by_commitment(
        &self,
        commitment: &V::Commitment,
    ) -> Option<Subscription<V::Commitment>>
        ensures given { is_some result ≡ notifies self.now }
        ensures name { IfSome result (λ s. s.name ≡ commitment.now) };

    /// Sends a block of a round to these peers. Where memory runs out nothing is sent.
    fn send(
        &mut self,
        round: Round,
        block: V::Block,
        recipients: Recipients<Participant>,
    ) -> Result<(), AllocError>
        ensures ok { OnOk result (Sends (sent self.old)
            (record { round = round; block = V.plain block; peers = named recipients } ∷ []) (sent self.new)) }
        ensures err { OnErr result (Sends (sent self.old) [] (sent self.new)) }
        ensures same { Self.blocks self.new ≡ Self.blocks self.old }
        ensures notifies { notifies self.new ≡ notifies self.old };
}

/// A buffer that never has a block, tells of none and sends none.
#[derive(Clone, Copy, Debug, PartialEq, Eq)]
pub struct NoBuffer;

impl<V: Variant> Finds<V> for NoBuffer {
    ghost blocks = { λ _. [] };

    fn find_by_digest(&self, _digest: &V::Digest) -> Result<Option<V::Block>, AllocError>
        ensures found { IfOk result (λ o. option_map V.plain o ≡ None) }
        ensures succeeds { IsOk result }
    {
        Ok(None)
    }

    fn find_by_commitment(
        &self,
        _commitment: &V::Commitment,
    ) -> Result<Option<V::Block>, AllocError>
        ensures found { IfOk result (λ o. option_map V.plain o ≡ None) }
        ensures succeeds { IsOk result }
    {
        Ok(None)
    }
}

impl<V: Variant> Buffer<V> for NoBuffer {
    ghost notifies = { λ _. false };

    ghost sent = { λ _. None };

    fn subscribe_by_digest(&self, _digest: &V::Digest) -> Option<Subscription<V::Digest>> {
        None
    }

    fn subscribe_by_commitment(
        &self,
        _commitment: &V::Commitment,
    ) -> Option<Subscription<V::Commitment>> {
        None
    }

    fn send(
        &mut self,
        _round: Round,
        _block: V::Block,
        _recipients: Recipients<Participant>,
    ) -> Result<(), AllocError>
        ensures succeeds { IsOk result }
    {
        Ok(())
    }
}
