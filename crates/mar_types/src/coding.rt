//! Coded blocks: how a block is split into shards.
ghost use Rattle.std.specs.Prelude.{IfErr, IfOk, OnOk, false, length, max, refl, ◌%◌, ◌++◌, ◌/◌, ◌^◌, ◌≡◌};
ghost use Rattle.std.specs.Int.{to_be_bytes, w16};
ghost use Rattle.std.specs.Int.NonZero.{non_zero_u16_get};
ghost use Rattle.mar_types.specs.Codec.{Takes};
ghost use Rattle.mar_types.specs.Coding.{RefusesConfig, RefusesShards, SpellsConfig, SpellsShards, config_bytes};
ghost use Rattle.mar_types.specs.CodingLemmas.{config_unambiguous};

pub use crate::commitments::{COMMITMENT_DIGEST_SIZE, COMMITMENT_SIZE, Commitment};
use crate::{Digest, EncodeSize, Error, FixedSize, Kind, Read, Reason, Write, read_array};
use bytes::{Buf, BufMut};
use std::alloc::{AllocError, Global};
use std::num::NonZeroU16;

/// A way to code blocks, told by the digests that commit to its shards.
pub trait CodingScheme {
    /// Commits to the shards of one block.
    type Commitment: Digest;
}

/// How many shards a coded block has.
#[derive(Clone, Copy, Debug, PartialEq, Eq, PartialOrd, Ord, Hash)]
pub struct CodingConfig {
    /// How many shards give the block back.
    pub minimum_shards: NonZeroU16,
    /// How many shards there are beyond those.
    pub extra_shards: NonZeroU16,
}

// Takes a number of shards from the front: two big-endian bytes, which aren't both zero.
fn read_shards<B: Buf>(buf: &mut B) -> Result<NonZeroU16, Error>
    ensures ok { IfOk result (λ shards. Takes SpellsShards (to_be_bytes w16 (non_zero_u16_get shards))
        (B.unread buf.old) (B.unread buf.new)) }
    ensures err { IfErr result (RefusesShards (B.unread buf.old)) }
{
    let bytes = read_array(buf)?;
    match NonZeroU16::new(u16::from_be_bytes(bytes)) {
        Some(shards) => Ok(shards),
        None => Err(Error::Invalid(Kind::Commitment, Reason::CodingConfig)),
    }
}

// That many shards, but one in place of none.
fn at_least_one(shards: u16) -> NonZeroU16
    ensures { non_zero_u16_get result ≡ max shards 1 }
{
    match NonZeroU16::new(shards) {
        Some(shards) => shards,
        None => NonZeroU16::MIN,
    }
}

impl CodingConfig {
    // The low half of the word is the least number of shards, the high half that of extra ones, with one in place of none.
    pub(crate) fn from_word(word: u32) -> Self
        ensures minimum { non_zero_u16_get result.minimum_shards ≡ max (word % 2 ^ 16) 1 }
        ensures extra { non_zero_u16_get result.extra_shards ≡ max (word / 2 ^ 16) 1 }
    {
        CodingConfig {
            minimum_shards: at_least_one((word % 65536) as u16),
            extra_shards: at_least_one((word / 65536) as u16),
        }
    }

    // The spelling.
    pub(crate) fn to_bytes(self) -> [u8; 4]
        ensures bytes { result ≡ config_bytes (non_zero_u16_get self.minimum_shards) (non_zero_u16_get self.extra_shards) }
        ensures spelled { SpellsConfig result }
    {
        let [a, b] = self.minimum_shards.get().to_be_bytes();
        let [c, d] = self.extra_shards.get().to_be_bytes();
        [a, b, c, d]
    }

    // Reads a config of just these four bytes.
    pub(crate) fn from_slice(alloc: Global, bytes: &[u8]) -> Result<Self, Error>
        requires { length bytes.now ≡ 4 }
        ensures ok { IfOk result (λ config. to_be_bytes w16 (non_zero_u16_get config.minimum_shards)
            ++ to_be_bytes w16 (non_zero_u16_get config.extra_shards) ≡ bytes.now) }
        ensures spelled { OnOk result (SpellsConfig bytes.now) }
        ensures err { IfErr result (λ e. (e ≡ Error.Invalid Kind.Commitment Reason.CodingConfig) × (SpellsConfig bytes.now → ⊥)) }
    {
        let mut rest = bytes;
        match CodingConfig::read_cfg(alloc, &mut rest, &()) {
            Ok(config) => Ok(config),
            Err(_) => Err(Error::Invalid(Kind::Commitment, Reason::CodingConfig)),
        }
    }
}

impl Write for CodingConfig {
    ghost encoded = { λ config. to_be_bytes w16 (non_zero_u16_get config.minimum_shards)
        ++ to_be_bytes w16 (non_zero_u16_get config.extra_shards) };

    fn write<B: BufMut>(&self, buf: &mut B) -> Result<(), AllocError> {
        buf.put_u16(self.minimum_shards.get())?;
        buf.put_u16(self.extra_shards.get())
    }
}

impl EncodeSize for CodingConfig {
    ghost can_encode = { λ _. Unit {0} };

    fn encode_size(&self) -> usize {
        Self::SIZE
    }
}

impl FixedSize for CodingConfig {
    const SIZE: usize = 4;

    ghost SIZE = { 4 };

    ghost sized = { λ _. refl };
}

impl Read for CodingConfig {
    type Cfg = ();

    ghost in_grammar = { λ _. SpellsConfig };

    ghost refuses = { λ _. RefusesConfig };

    ghost takes_memory = { false };

    fn read_cfg<B: Buf>(_alloc: Global, buf: &mut B, _cfg: &()) -> Result<Self, Error> {
        let minimum_shards = read_shards(buf)?;
        let extra_shards = read_shards(buf)?;
        Ok(CodingConfig {
            minimum_shards,
            extra_shards,
        })
    }

    ghost unambiguous = { λ _. config_unambiguous };
}
