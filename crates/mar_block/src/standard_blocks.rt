//! The kind of blocks that the program uses.
ghost use Rattle.std.specs.Prelude.{◌≡◌, ◌⊎◌, IfErr, IfOk, refl, true};
ghost use Rattle.std.proofs.Common.{sym};
ghost use Rattle.mar_types.specs.Refusals.{RefusesWhole};
ghost use Rattle.mar_cert.specs.Block.{Block as PlainBlock};
ghost use Rattle.mar_block.specs.Expected.{Decodes, commitment_of};
ghost use Rattle.mar_block.specs.Standard.{HasOtherDigest};

use crate::empty_block::EmptyBlock;
use crate::expected::ExpectedCommitment;
use crate::standard::Standard;
use crate::wire_variant::WireVariant;
use bytes::Buf;
use mar_cert::{Scheme, Variant};
use mar_types::{
    Digested, Digestible, Error, Height, Kind, Read, Reason, Sha256, Sha256Digest, Write,
};
use std::alloc::{AllocError, Global};

// A block of this kind.
type Block = Digested<EmptyBlock<Sha256>>;

/// Blocks without content, which consensus signs by their digest: `Standard` at those. It has no type parameters, so
/// that a bound that asks for a kind of blocks is met by its name alone, and what is said over stores of its blocks
/// stays short.
#[derive(Clone, Copy, Debug, Default)]
pub struct StandardBlocks;

impl Variant for StandardBlocks {
    type Block = Block;

    type Digest = Sha256Digest;

    type Commitment = Sha256Digest;

    ghost plain = { ⟦<Standard<EmptyBlock<Sha256>> as Variant>⟧.plain };

    ghost inner = { λ commitment. commitment };

    fn height(block: &Block) -> Height {
        block.inner().height
    }

    fn digest(block: &Block) -> Sha256Digest {
        block.digest()
    }

    fn commitment(block: &Block) -> Sha256Digest {
        block.digest()
    }

    fn commitment_to_inner(commitment: Sha256Digest) -> Sha256Digest {
        commitment
    }

    fn parent_commitment(block: &Block) -> Sha256Digest {
        block.inner().parent
    }

    fn try_clone(block: &Block) -> Result<Block, AllocError> {
        block.clone()
    }

    ghost inner_is = { λ b. refl };
}

impl WireVariant for StandardBlocks {
    type ApplicationBlock = EmptyBlock<Sha256>;

    type SharedBlock = Block;

    type StoredBlock = EmptyBlock<Sha256>;

    ghost stored = { ⟦<Standard<EmptyBlock<Sha256>> as WireVariant>⟧.stored };

    ghost shared = { ⟦<Standard<EmptyBlock<Sha256>> as WireVariant>⟧.shared };

    ghost commits = { ⟦<Standard<EmptyBlock<Sha256>> as WireVariant>⟧.commits };

    ghost made = { ⟦<Standard<EmptyBlock<Sha256>> as WireVariant>⟧.made };

    ghost passes = { λ S scheme commitment. true };

    ghost backfill_size = { λ application. application };

    ghost buffer_size = { λ members application. application };

    fn stored_parent_commitment(block: &EmptyBlock<Sha256>) -> Sha256Digest {
        block.parent
    }

    fn check_payload<S: Scheme>(_scheme: &S, _payload: Sha256Digest) -> bool {
        true
    }

    fn decode_block<I: Buf + Drop>(
        alloc: Global,
        buf: I,
        cfg: &(),
        expected: ExpectedCommitment<Sha256Digest>,
    ) -> Result<Block, Error>
        ensures ok { IfOk result (λ b. Decodes
            (⟦<EmptyBlock<Sha256> as Read>⟧.in_grammar cfg.now) ⟦<EmptyBlock<Sha256> as Write>⟧.encoded
            ⟦<Standard<EmptyBlock<Sha256>> as WireVariant>⟧.commits ⟦<Standard<EmptyBlock<Sha256>> as WireVariant>⟧.made
            (I.unread buf) (commitment_of expected).bytes (⟦<StandardBlocks as Variant>⟧.plain b)) }
        ensures err { IfErr result (λ e. (e ≡ Error.Memory) ⊎ ((b : PlainBlock)
            → Decodes (⟦<EmptyBlock<Sha256> as Read>⟧.in_grammar cfg.now) ⟦<EmptyBlock<Sha256> as Write>⟧.encoded
            ⟦<Standard<EmptyBlock<Sha256>> as WireVariant>⟧.commits ⟦<Standard<EmptyBlock<Sha256>> as WireVariant>⟧.made
            (I.unread buf) (commitment_of expected).bytes b → ⊥)) }
        ensures cause { IfErr result (λ e. (e ≡ Error.Memory)
            ⊎ RefusesWhole (⟦<EmptyBlock<Sha256> as Read>⟧.in_grammar cfg.now)
            (⟦<EmptyBlock<Sha256> as Read>⟧.refuses cfg.now) (I.unread buf) e
            ⊎ ((e ≡ Error.Invalid Kind.Block Reason.DigestMismatch)
            × HasOtherDigest (⟦<EmptyBlock<Sha256> as Read>⟧.in_grammar cfg.now) ⟦<EmptyBlock<Sha256> as Write>⟧.encoded
            ⟦<EmptyBlock<Sha256> as Digestible>⟧.digest_bytes (I.unread buf) (commitment_of expected).bytes)) }
    {
        Standard::<EmptyBlock<Sha256>>::decode_block(alloc, buf, cfg, expected)
    }

    fn restore(
        alloc: Global,
        block: EmptyBlock<Sha256>,
        digest: Sha256Digest,
    ) -> Result<Block, AllocError> {
        Digested::precomputed(alloc, block, digest)
    }

    fn restore_across(alloc: Global, block: EmptyBlock<Sha256>) -> Result<Block, AllocError> {
        Digested::compute(alloc, block)
    }

    fn into_shared(block: Block) -> Block {
        block
    }

    fn from_application_block(block: Block, _payload: Sha256Digest) -> Block {
        block
    }

    fn max_backfill_block_size(application: usize) -> usize {
        application
    }

    fn max_buffer_payload_size(_participants: u32, application: usize) -> usize {
        application
    }

    ghost made_is = { λ b commitment e. (e, sym e, refl) };

    ghost backfills = { λ b commitment size e h. h };
}
