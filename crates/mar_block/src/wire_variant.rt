//! Kinds of blocks that come from peers and go to stores.
ghost use Rattle.std.specs.Prelude.{◌≡◌, ◌⊎◌, ◌≤◌, ℕ, Bool, List, IfErr, IfOk, length};
ghost use Rattle.mar_cert.specs.Block.{Block as PlainBlock};
ghost use Rattle.mar_block.specs.Expected.{Decodes, IsMadeOf, commitment_of};

use crate::blocks::Block;
use crate::expected::ExpectedCommitment;
use bytes::Buf;
use mar_cert::{Scheme, Variant};
use mar_types::{Error, Read};
use std::alloc::{AllocError, Global};

/// How blocks of a kind come and go: as the application makes them, as peers send them, as a store keeps them.
pub trait WireVariant: Variant {
    /// A block as the application makes it, and as peers send it.
    type ApplicationBlock: Block<Digest = Self::Digest>;

    /// An application block beside its digest.
    type SharedBlock: Drop;

    /// A block as a store keeps it.
    type StoredBlock: Drop;

    /// A stored block as plain data.
    ghost stored: { Self.StoredBlock → PlainBlock };

    /// A shared block is this application block.
    ghost shared: { Self.SharedBlock → Self.ApplicationBlock };

    /// The application block has this commitment, and what it makes under it.
    ghost commits: { Self.ApplicationBlock → List ℕ → Type 0 };

    ghost made: { Self.ApplicationBlock → List ℕ → PlainBlock };

    /// A certificate under this scheme may sign this commitment.
    ghost passes: { (S : Type 0) → S → List ℕ → Bool };

    /// The most bytes of a block in an answer to a peer and in what a buffer sends, by the most bytes of an
    /// application block and the number of members.
    ghost backfill_size: { ℕ → ℕ };

    ghost buffer_size: { ℕ → ℕ → ℕ };

    /// The commitment of a stored block's parent.
    fn stored_parent_commitment(block: &Self::StoredBlock) -> Self::Commitment
        ensures { Self.Commitment.bytes result ≡ (stored block.now).parent_commitment };

    /// Whether a certificate under this scheme may sign this payload.
    fn check_payload<S: Scheme>(scheme: &S, payload: Self::Commitment) -> bool
        ensures { result ≡ passes S scheme.now (Self.Commitment.bytes payload) };

    /// The block that the bytes spell from the first to the last, where it has the expected commitment.
    fn decode_block<I: Buf + Drop>(
        alloc: Global,
        buf: I,
        cfg: &<Self::ApplicationBlock as Read>::Cfg,
        expected: ExpectedCommitment<Self::Commitment>,
    ) -> Result<Self::Block, Error>
        ensures ok { IfOk result (λ b. Decodes (Self.ApplicationBlock.in_grammar cfg.now) Self.ApplicationBlock.encoded
            commits made (I.unread buf) (Self.Commitment.bytes (commitment_of expected)) (Self.plain b)) }
        ensures err { IfErr result (λ e. (e ≡ Error.Memory) ⊎ ((b : PlainBlock)
            → Decodes (Self.ApplicationBlock.in_grammar cfg.now) Self.ApplicationBlock.encoded
            commits made (I.unread buf) (Self.Commitment.bytes (commitment_of expected)) b → ⊥)) };

    /// The block that was stored under this digest.
    fn restore(
        alloc: Global,
        block: Self::StoredBlock,
        digest: Self::Digest,
    ) -> Result<Self::Block, AllocError>
        requires { Self.Digest.bytes digest ≡ (stored block).digest }
        ensures { IfOk result (λ b. Self.plain b ≡ stored block) };

    /// The block that was stored; its digest is computed.
    fn restore_across(alloc: Global, block: Self::StoredBlock) -> Result<Self::Block, AllocError>
        ensures { IfOk result (λ b. Self.plain b ≡ stored block) };

    /// The application's block, with its digest. It shares what the block holds.
    fn into_shared(block: Self::Block) -> Self::SharedBlock
        ensures { IsMadeOf commits made (shared result) (Self.plain block) };

    /// The block of an application block and of a payload that commits to it.
    fn from_application_block(block: Self::SharedBlock, payload: Self::Commitment) -> Self::Block
        requires { commits (shared block) (Self.Commitment.bytes payload) }
        ensures { Self.plain result ≡ made (shared block) (Self.Commitment.bytes payload) };

    /// The most bytes of a block in an answer to a peer, by the most bytes of an application block.
    fn max_backfill_block_size(application: usize) -> usize
        ensures { result ≡ backfill_size application };

    /// The most bytes that a buffer of this kind of blocks sends of one, by the number of members.
    fn max_buffer_payload_size(participants: u32, application: usize) -> usize
        ensures { result ≡ buffer_size participants application };

    ghost made_is: { (b : Self.ApplicationBlock) (c : List ℕ) → commits b c
        → ((made b c).commitment ≡ c) × (Self.inner c ≡ Self.ApplicationBlock.digest_bytes b)
        × ((made b c).digest ≡ Self.ApplicationBlock.digest_bytes b) };

    ghost backfills: { (b : Self.ApplicationBlock) (c : List ℕ) (size : ℕ) → commits b c
        → length (Self.ApplicationBlock.encoded b) ≤ size → length (made b c).encoded ≤ backfill_size size };
}
