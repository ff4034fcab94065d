//! Commitments to coded blocks.
ghost use Rattle.std.specs.Prelude.{IfErr, IfOk, Some, false, length, refl, replicate, slice_range, take, ◌++◌, ◌≡◌, ◌≤◌};
ghost use Rattle.std.specs.Int.NonZero.{non_zero_u16_get};
ghost use Rattle.std.proofs.Common.{lit<};
ghost use Rattle.hex.specs.Hex.{encode_lower};
ghost use Rattle.mar_types.specs.Digest.{IsBytes, IsBytes-prop};
ghost use Rattle.mar_types.specs.DigestLemmas.{same_proof};
ghost use Rattle.mar_types.specs.Coding.{DrawsCommitment, JoinsParts, RefusesCommitment, RefusesParts, SpellsCommitment, SpellsField, commitment_bytes, config_bytes};
ghost use Rattle.mar_types.specs.CodingLemmas.{commitment_unambiguous};

use crate::coding::{CodingConfig, CodingScheme};
use crate::fields::{FieldDigest, field, field_bytes, put_field, read_field};
use crate::{
    Array, Digest, Digestible, EncodeSize, Error, FixedSize, Hasher, Named, Read, Reason, Span,
    Words, Write, read_array, write_hex,
};
use bytes::{Buf, BufMut};
use std::alloc::{AllocError, Global};
use std::convert::AsSlice;
use std::fmt;
use std::marker::PhantomData;

/// How many bytes a commitment has for each of its digests.
pub const COMMITMENT_DIGEST_SIZE: usize = 32;

const _: () = prove!(COMMITMENT_DIGEST_SIZE == 32);

/// How many bytes a commitment has.
pub const COMMITMENT_SIZE: usize = 100;

const _: () = prove!(COMMITMENT_SIZE == 100);

/// A block's digest, the root of its shards and the digest of its context, each in 32 bytes of which those that it
/// leaves are zero, and then how the block is split.
#[derive_where(Copy, PartialEq, Eq, PartialOrd, Ord, Hash)]
pub struct Commitment<B, C, H> {
    bytes: [u8; 100],
    #[derive_where(skip)]
    of: PhantomData<(B, C, H)>,
    ghost sized: { IsBytes 100 bytes } by { IsBytes-prop 100 bytes },
}

impl<B, C, H> Clone for Commitment<B, C, H> {
    ghost is_clone = { λ x y. y ≡ x };

    ghost is_infallible = { λ _. Unit {0} };

    fn clone(&self) -> Result<Self, AllocError> {
        Ok(*self)
    }
}

impl<B, C, H> Commitment<B, C, H> {
    // A slice, since a slice tells of each item that it is a byte.
    fn from_slice(slice: &[u8]) -> Self
        requires { length slice.now ≡ 100 }
        ensures { result.bytes ≡ slice.now }
    {
        let mut bytes = [0; 100];
        bytes.copy_from_slice(slice);
        Commitment {
            bytes,
            of: PhantomData,
        }
    }
}

impl<B, C, H> AsSlice<u8> for Commitment<B, C, H> {
    ghost items = { λ commitment. commitment.bytes };

    fn as_slice(&self) -> &[u8] {
        &self.bytes
    }
}

/// Writes the bytes in hexadecimal.
impl<B, C, H> fmt::Display for Commitment<B, C, H> {
    ghost output = { λ commitment. Some (encode_lower commitment.bytes) };

    fn fmt<W: fmt::Write>(&self, f: &mut fmt::Formatter<W>) -> fmt::Result {
        write_hex(f, &self.bytes, &mut [0; 200])
    }
}

impl<B, C, H> fmt::Debug for Commitment<B, C, H> {
    ghost debug_output = { λ commitment. Some (encode_lower commitment.bytes) };

    fn fmt<W: fmt::Write>(&self, f: &mut fmt::Formatter<W>) -> fmt::Result {
        write_hex(f, &self.bytes, &mut [0; 200])
    }
}

impl<B, C, H> Write for Commitment<B, C, H> {
    ghost encoded = { λ commitment. commitment.bytes };

    fn write<W: BufMut>(&self, buf: &mut W) -> Result<(), AllocError> {
        buf.put_slice(&self.bytes)
    }
}

impl<B, C, H> EncodeSize for Commitment<B, C, H> {
    ghost can_encode = { λ _. Unit {0} };

    fn encode_size(&self) -> usize {
        Self::SIZE
    }
}

impl<B, C, H> FixedSize for Commitment<B, C, H> {
    const SIZE: usize = 100;

    ghost SIZE = { 100 };

    ghost sized = { λ commitment. commitment.sized.0 };
}

impl<B, C, H> Default for Commitment<B, C, H> {
    ghost is_default = { λ commitment. commitment.bytes ≡ replicate 100 0 };

    fn default() -> Self {
        Self::from_slice(&[0; 100])
    }
}

// Checks the digests, and then the config.
fn check_parts<D: FieldDigest, R: FieldDigest, X: FieldDigest>(
    alloc: Global,
    bytes: &[u8],
) -> Result<(), Error>
    requires { IsBytes 100 bytes.now }
    ensures ok { IfOk result (λ _. SpellsCommitment (D.in_grammar tt) (R.in_grammar tt) (X.in_grammar tt)
        D.SIZE R.SIZE X.SIZE bytes.now) }
    ensures err { IfErr result (RefusesParts (D.in_grammar tt) (R.in_grammar tt) (X.in_grammar tt)
        D.SIZE R.SIZE X.SIZE bytes.now) }
{
    let _block: D = read_field(alloc, &bytes[0..32], Reason::BlockDigest)?;
    let _root: R = read_field(alloc, &bytes[32..64], Reason::CodingRoot)?;
    let _context: X = read_field(alloc, &bytes[64..96], Reason::ContextDigest)?;
    let _config = CodingConfig::from_slice(alloc, &bytes[96..100])?;
    Ok(())
}

impl<B: Digestible, C: CodingScheme, H: Hasher> Read for Commitment<B, C, H>
where
    B::Digest: FieldDigest,
    C::Commitment: FieldDigest,
    H::Digest: FieldDigest,
{
    type Cfg = ();

    ghost in_grammar = { λ _. SpellsCommitment (B.Digest.in_grammar tt) (C.Commitment.in_grammar tt) (H.Digest.in_grammar tt)
        B.Digest.SIZE C.Commitment.SIZE H.Digest.SIZE };

    ghost refuses = { λ _. RefusesCommitment (B.Digest.in_grammar tt) (C.Commitment.in_grammar tt) (H.Digest.in_grammar tt)
        B.Digest.SIZE C.Commitment.SIZE H.Digest.SIZE };

    ghost takes_memory = { false };

    fn read_cfg<R: Buf>(alloc: Global, buf: &mut R, _cfg: &()) -> Result<Self, Error> {
        let bytes: [u8; 100] = read_array(buf)?;
        check_parts::<B::Digest, C::Commitment, H::Digest>(alloc, &bytes)?;
        Ok(Self::from_slice(&bytes))
    }

    ghost unambiguous = { λ _. commitment_unambiguous _ _ _ _ _ _ };
}

// Joins the four parts.
fn assemble(block: &[u8], root: &[u8], context: &[u8], config: &[u8], bytes: &mut [u8])
    requires whole { length bytes.old ≡ 100 }
    requires block_fits { length block.now ≤ 32 }
    requires root_fits { length root.now ≤ 32 }
    requires context_fits { length context.now ≤ 32 }
    requires config_fits { length config.now ≡ 4 }
    ensures { bytes.new ≡ commitment_bytes block.now root.now context.now config.now }
{
    let (front, back) = bytes.split_at_mut(64);
    let (block_field, root_field) = front.split_at_mut(32);
    let (context_field, config_field) = back.split_at_mut(32);
    put_field(block, block_field);
    put_field(root, root_field);
    put_field(context, context_field);
    config_field.copy_from_slice(config);
}

/// The parts of a valid commitment, as each one is that was read. They are read from its bytes, which takes no memory.
impl<B: Digestible, C: CodingScheme, H: Hasher> Commitment<B, C, H>
where
    B::Digest: FieldDigest,
    C::Commitment: FieldDigest,
    H::Digest: FieldDigest,
{
    /// The block's digest.
    pub fn block(&self, alloc: Global) -> B::Digest
        requires { SpellsCommitment (B.Digest.in_grammar tt) (C.Commitment.in_grammar tt) (H.Digest.in_grammar tt)
            B.Digest.SIZE C.Commitment.SIZE H.Digest.SIZE self.now.bytes }
        ensures { B.Digest.bytes result ≡ take B.Digest.SIZE (slice_range self.now.bytes 0 32) }
    {
        field(alloc, &self.bytes[0..32])
    }

    /// The root of the block's shards.
    pub fn root(&self, alloc: Global) -> C::Commitment
        requires { SpellsCommitment (B.Digest.in_grammar tt) (C.Commitment.in_grammar tt) (H.Digest.in_grammar tt)
            B.Digest.SIZE C.Commitment.SIZE H.Digest.SIZE self.now.bytes }
        ensures { C.Commitment.bytes result ≡ take C.Commitment.SIZE (slice_range self.now.bytes 32 64) }
    {
        field(alloc, &self.bytes[32..64])
    }

    /// The digest of the block's context.
    pub fn context(&self, alloc: Global) -> H::Digest
        requires { SpellsCommitment (B.Digest.in_grammar tt) (C.Commitment.in_grammar tt) (H.Digest.in_grammar tt)
            B.Digest.SIZE C.Commitment.SIZE H.Digest.SIZE self.now.bytes }
        ensures { H.Digest.bytes result ≡ take H.Digest.SIZE (slice_range self.now.bytes 64 96) }
    {
        field(alloc, &self.bytes[64..96])
    }

    /// How the block is split.
    pub fn config(&self, alloc: Global) -> CodingConfig
        requires { SpellsCommitment (B.Digest.in_grammar tt) (C.Commitment.in_grammar tt) (H.Digest.in_grammar tt)
            B.Digest.SIZE C.Commitment.SIZE H.Digest.SIZE self.now.bytes }
        ensures { config_bytes (non_zero_u16_get result.minimum_shards) (non_zero_u16_get result.extra_shards)
            ≡ slice_range self.now.bytes 96 100 }
    {
        match CodingConfig::from_slice(alloc, &self.bytes[96..100]) {
            Ok(config) => config,
            Err(_) => unreachable!(),
        }
    }
}

impl<B: Digestible, C: CodingScheme, H: Hasher> From<
    (B::Digest, C::Commitment, H::Digest, CodingConfig),
> for Commitment<B, C, H>
where
    B::Digest: FieldDigest,
    C::Commitment: FieldDigest,
    H::Digest: FieldDigest,
{
    ghost from_gives = { λ parts commitment. JoinsParts (B.Digest.in_grammar tt) (C.Commitment.in_grammar tt)
        (H.Digest.in_grammar tt) B.Digest.SIZE C.Commitment.SIZE H.Digest.SIZE
        (B.Digest.bytes parts.0) (C.Commitment.bytes parts.1) (H.Digest.bytes parts.2)
        (config_bytes (non_zero_u16_get parts.3.minimum_shards) (non_zero_u16_get parts.3.extra_shards))
        commitment.bytes };

    fn from(parts: (B::Digest, C::Commitment, H::Digest, CodingConfig)) -> Self {
        let (block, root, context, config) = parts;
        let mut bytes = [0; 100];
        assemble(
            field_bytes(&block),
            field_bytes(&root),
            field_bytes(&context),
            &config.to_bytes(),
            &mut bytes,
        );
        Self::from_slice(&bytes)
    }
}

impl<B: Digestible, C: CodingScheme, H: Hasher> Named for Commitment<B, C, H>
where
    B::Digest: FieldDigest,
    C::Commitment: FieldDigest,
    H::Digest: FieldDigest,
{
    ghost bytes = { λ commitment. commitment.bytes };

    ghost equal = { λ commitment other. refl };
}

/// The commitment whose bytes are all zero isn't valid. A random one is made of random parts.
impl<B: Digestible, C: CodingScheme, H: Hasher> Digest for Commitment<B, C, H>
where
    B::Digest: FieldDigest,
    C::Commitment: FieldDigest,
    H::Digest: FieldDigest,
{
    ghost drawn = { λ gives_word gives_bytes. DrawsCommitment gives_word (B.Digest.drawn gives_word gives_bytes)
        (C.Commitment.drawn gives_word gives_bytes) (H.Digest.drawn gives_word gives_bytes) };

    fn empty() -> Self {
        Self::default()
    }

    fn random<W: Words>(words: &mut W) -> Self {
        let config = CodingConfig::from_word(words.next_u32());
        let block = B::Digest::random(words);
        let root = C::Commitment::random(words);
        let context = H::Digest::random(words);
        Self::from((block, root, context, config))
    }

    ghost spelled = { λ commitment. refl };

    ghost shown = { λ commitment. refl };

    ghost printed = { λ commitment. refl };

    ghost debugged = { λ commitment. refl };

    ghost are_bytes = { λ commitment. commitment.sized.1 };

    ghost injective = { λ commitment other e. λ i. record {
      bytes = e i;
      of = record {};
      sized = same_proof 100 _ _ e commitment.sized other.sized i;
    } };

    ghost ordered = { λ commitment other. refl };

    ghost fixed = { refl };

    ghost short = { lit< tt };
}

impl<B: Digestible, C: CodingScheme, H: Hasher> Span for Commitment<B, C, H>
where
    B::Digest: FieldDigest,
    C::Commitment: FieldDigest,
    H::Digest: FieldDigest,
{
    ghost told = { λ commitment other e. λ i. record {
      bytes = e i;
      of = record {};
      sized = same_proof 100 _ _ e commitment.sized other.sized i;
    } };
}

impl<B: Digestible, C: CodingScheme, H: Hasher> Array for Commitment<B, C, H>
where
    B::Digest: FieldDigest,
    C::Commitment: FieldDigest,
    H::Digest: FieldDigest,
{
    ghost seen = { λ commitment. refl };
}
