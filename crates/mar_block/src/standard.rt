//! Blocks whose commitment is their digest.
ghost use Rattle.std.specs.Prelude.{◌≡◌, ◌⊎◌, IfErr, IfOk, refl, true};
ghost use Rattle.std.proofs.Common.{sym};
ghost use Rattle.mar_types.specs.Refusals.{RefusesWhole};
ghost use Rattle.mar_cert.specs.Block.{Block as PlainBlock};
ghost use Rattle.mar_block.specs.EmptyBlock.{standard_block};
ghost use Rattle.mar_block.specs.Expected.{Decodes, commitment_of};
ghost use Rattle.mar_block.specs.Standard.{HasDigest, HasOtherDigest, made_standard};

use crate::blocks::Block;
use crate::expected::ExpectedCommitment;
use crate::wire_variant::WireVariant;
use bytes::Buf;
use mar_cert::{Scheme, Variant};
use mar_types::{Decode, Digested, Error, Height, Kind, Read, Reason};
use std::alloc::{AllocError, Global};
use std::marker::PhantomData;

/// The kind of blocks that consensus signs by their digest.
#[derive_where(Clone, Copy, Debug, Default)]
pub struct Standard<B> {
    of: PhantomData<B>,
}

impl<B: Block> Variant for Standard<B> {
    type Block = Digested<B>;

    type Digest = B::Digest;

    type Commitment = B::Digest;

    ghost plain = { standard_block B.digest_bytes B.height_of B.parent_of B.encoded };

    ghost inner = { λ commitment. commitment };

    fn height(block: &Digested<B>) -> Height {
        block.inner().height()
    }

    fn digest(block: &Digested<B>) -> B::Digest {
        block.digest()
    }

    fn commitment(block: &Digested<B>) -> B::Digest {
        block.digest()
    }

    fn commitment_to_inner(commitment: B::Digest) -> B::Digest {
        commitment
    }

    fn parent_commitment(block: &Digested<B>) -> B::Digest {
        block.inner().parent()
    }

    fn try_clone(block: &Digested<B>) -> Result<Digested<B>, AllocError> {
        block.clone()
    }

    ghost inner_is = { λ b. refl };
}

impl<B: Block> WireVariant for Standard<B> {
    type ApplicationBlock = B;

    type SharedBlock = Digested<B>;

    type StoredBlock = B;

    ghost stored = { standard_block B.digest_bytes B.height_of B.parent_of B.encoded };

    ghost shared = { λ b. b };

    ghost commits = { HasDigest B.digest_bytes };

    ghost made = { made_standard B.digest_bytes B.height_of B.parent_of B.encoded };

    ghost passes = { λ S scheme commitment. true };

    ghost backfill_size = { λ application. application };

    ghost buffer_size = { λ members application. application };

    fn stored_parent_commitment(block: &B) -> B::Digest {
        block.parent()
    }

    fn check_payload<S: Scheme>(_scheme: &S, _payload: B::Digest) -> bool {
        true
    }

    fn decode_block<I: Buf + Drop>(
        alloc: Global,
        buf: I,
        cfg: &B::Cfg,
        expected: ExpectedCommitment<B::Digest>,
    ) -> Result<Digested<B>, Error>
        ensures ok { IfOk result (λ b. Decodes (B.in_grammar cfg.now) B.encoded (HasDigest B.digest_bytes)
            (made_standard B.digest_bytes B.height_of B.parent_of B.encoded) (I.unread buf)
            (B.Digest.bytes (commitment_of expected))
            (standard_block B.digest_bytes B.height_of B.parent_of B.encoded b)) }
        ensures err { IfErr result (λ e. (e ≡ Error.Memory) ⊎ ((b : PlainBlock)
            → Decodes (B.in_grammar cfg.now) B.encoded (HasDigest B.digest_bytes)
            (made_standard B.digest_bytes B.height_of B.parent_of B.encoded) (I.unread buf)
            (B.Digest.bytes (commitment_of expected)) b → ⊥)) }
        ensures cause { IfErr result (λ e. (e ≡ Error.Memory)
            ⊎ RefusesWhole (B.in_grammar cfg.now) (B.refuses cfg.now) (I.unread buf) e
            ⊎ ((e ≡ Error.Invalid Kind.Block Reason.DigestMismatch)
            × HasOtherDigest (B.in_grammar cfg.now) B.encoded B.digest_bytes (I.unread buf)
            (B.Digest.bytes (commitment_of expected)))) }
    {
        let block = B::decode_cfg(alloc, buf, cfg)?;
        let block = Digested::compute(alloc, block)?;
        if block.digest() != expected.into_commitment() {
            return Err(Error::Invalid(Kind::Block, Reason::DigestMismatch));
        }
        Ok(block)
    }

    fn restore(alloc: Global, block: B, digest: B::Digest) -> Result<Digested<B>, AllocError> {
        Digested::precomputed(alloc, block, digest)
    }

    fn restore_across(alloc: Global, block: B) -> Result<Digested<B>, AllocError> {
        Digested::compute(alloc, block)
    }

    fn into_shared(block: Digested<B>) -> Digested<B> {
        block
    }

    fn from_application_block(block: Digested<B>, _payload: B::Digest) -> Digested<B> {
        block
    }

    fn max_backfill_block_size(application: usize) -> usize {
        application
    }

    fn max_buffer_payload_size(_participants: u32, application: usize) -> usize {
        application
    }

    ghost made_is = { λ b commitment e. (e, sym e, refl) };

    ghost backfills = { λ b commitment size e h. h };
}
