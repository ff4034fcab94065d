//! Blocks without content.
ghost use Rattle.std.specs.Prelude.{◌≡◌, ◌+◌, ◌<◌, ◌^◌, false, IfOk, IsOk};
ghost use Rattle.std.proofs.Common.{sym, ◌∙◌};
ghost use Rattle.mar_block.specs.EmptyBlock.{RefusesBlock, SpellsBlock, block_bytes, block_message};
ghost use Rattle.mar_block.specs.EmptyBlockLemmas.{block_identified, block_unambiguous, length-block_bytes-within};

use crate::blocks::{Block, BoundedBlock, CertifiableBlock, Heightable};
use crate::standard::Standard;
use bytes::{Buf, BufMut};
use mar_cert::Variant;
use mar_types::{
    Digest, Digestible, EncodeSize, Error, FixedSize, Hasher, Height, MaxEncodeSize, Read, Sha256,
    UInt, Write,
};
use std::alloc::{AllocError, Global};
use std::convert::AsSlice;

/// A block of a parent, a height and a timestamp in milliseconds.
#[derive(Drop)]
#[derive_where(Debug, PartialEq, Eq)]
pub struct EmptyBlock<H: Hasher> {
    /// The digest of its parent.
    pub parent: H::Digest,
    /// Its height.
    pub height: Height,
    /// When it was made, in milliseconds.
    pub timestamp: u64,
}

impl<H: Hasher> EmptyBlock<H> {
    /// The block of that parent's digest, height and timestamp.
    pub fn new(parent: H::Digest, height: Height, timestamp: u64) -> Self
        ensures parent { result.parent ≡ parent }
        ensures height { result.height ≡ height }
        ensures timestamp { result.timestamp ≡ timestamp }
    {
        EmptyBlock {
            parent,
            height,
            timestamp,
        }
    }
}

impl<H: Hasher> Clone for EmptyBlock<H> {
    ghost is_clone = { λ b copy. (copy.parent ≡ b.parent) × (copy.height ≡ b.height)
        × (copy.timestamp ≡ b.timestamp) };

    ghost is_infallible = { λ _. Unit {0} };

    fn clone(&self) -> Result<Self, AllocError> {
        Ok(EmptyBlock {
            parent: self.parent,
            height: self.height,
            timestamp: self.timestamp,
        })
    }
}

/// All zero.
impl<H: Hasher> Default for EmptyBlock<H> {
    ghost use Rattle.std.specs.Prelude.{replicate, ◌≡◌};

    ghost is_default = { λ b. (H.Digest.bytes b.parent ≡ replicate H.Digest.SIZE 0) × (b.height ≡ 0)
        × (b.timestamp ≡ 0) };

    fn default() -> Self {
        EmptyBlock::new(H::Digest::empty(), Height::zero(), 0)
    }
}

impl<H: Hasher> Write for EmptyBlock<H> {
    ghost encoded = { λ b. block_bytes (H.Digest.encoded b.parent) b.height b.timestamp };

    fn write<B: BufMut>(&self, buf: &mut B) -> Result<(), AllocError> {
        self.parent.write(buf)?;
        self.height.write(buf)?;
        UInt(self.timestamp).write(buf)
    }
}

impl<H: Hasher> EncodeSize for EmptyBlock<H> {
    ghost can_encode = { λ _. H.Digest.SIZE + 20 < 2 ^ 64 };

    fn encode_size(&self) -> usize {
        let numbers = self.height.encode_size() + UInt(self.timestamp).encode_size();
        H::Digest::SIZE + numbers
    }
}

impl<H: Hasher> Read for EmptyBlock<H> {
    type Cfg = ();

    ghost in_grammar = { λ cfg. SpellsBlock (H.Digest.in_grammar cfg) };

    ghost refuses = { λ cfg. RefusesBlock (H.Digest.in_grammar cfg) (H.Digest.refuses cfg) };

    ghost takes_memory = { false };

    fn read_cfg<B: Buf>(alloc: Global, buf: &mut B, cfg: &()) -> Result<Self, Error> {
        let parent = H::Digest::read_cfg(alloc, buf, cfg)?;
        let height = Height::read_cfg(alloc, buf, cfg)?;
        let timestamp = UInt::read_cfg(alloc, buf, cfg)?.0;
        Ok(EmptyBlock::new(parent, height, timestamp))
    }

    ghost unambiguous = { λ cfg. block_unambiguous (H.Digest.in_grammar cfg) (H.Digest.unambiguous cfg) };
}

impl<H: Hasher> Digestible for EmptyBlock<H> {
    type Digest = H::Digest;

    ghost digest_bytes = { λ b. H.digest_of (block_message (H.Digest.bytes b.parent) b.height b.timestamp) };

    fn digest(&self) -> H::Digest {
        let mut hasher = H::new();
        hasher.update(self.parent.as_slice());
        hasher.update(&self.height.get().to_be_bytes());
        hasher.update(&self.timestamp.to_be_bytes());
        hasher.finalize()
    }
}

impl<H: Hasher> Heightable for EmptyBlock<H> {
    ghost height_of = { λ b. b.height };

    fn height(&self) -> Height {
        self.height
    }
}

impl<H: Hasher> Block for EmptyBlock<H> {
    ghost parent_of = { λ b. H.Digest.bytes b.parent };

    fn parent(&self) -> H::Digest {
        self.parent
    }

    ghost identified = { λ b other e. block_identified H.digest_of
        (H.Digest.encoded b.parent) (H.Digest.encoded other.parent)
        b.height b.timestamp other.height other.timestamp (H.Digest.bytes b.parent) (H.Digest.bytes other.parent)
        (H.Digest.sized b.parent ∙ sym (H.Digest.sized other.parent))
        (H.Digest.spelled b.parent) (H.Digest.spelled other.parent) e };
}

/// Its parent stands for its context.
impl<H: Hasher> CertifiableBlock for EmptyBlock<H> {
    type Context = H::Digest;

    ghost is_context = { λ b context. context ≡ b.parent };

    fn context(&self) -> Result<H::Digest, AllocError>
        ensures context { IfOk result (λ context. context ≡ self.now.parent) }
        ensures succeeds { IsOk result }
    {
        Ok(self.parent)
    }
}

impl<H: Hasher> BoundedBlock for EmptyBlock<H> {
    ghost max_size = { λ _. H.Digest.SIZE + 20 };

    fn max_encode_size(_cfg: &()) -> usize {
        H::Digest::SIZE + 20
    }

    ghost bounded = { λ cfg b _. length-block_bytes-within
        (H.Digest.encoded b.parent) b.height b.timestamp H.Digest.SIZE (H.Digest.sized b.parent) };
}

impl MaxEncodeSize for EmptyBlock<Sha256> {
    const MAX_ENCODE_SIZE: usize = 52;

    ghost MAX_ENCODE_SIZE = { 52 };

    ghost use Rattle.mar_block.specs.EmptyBlockLemmas.{length-block_bytes};

    ghost within = { λ b. length-block_bytes b.parent.bytes b.height b.timestamp b.parent.is_digest.0 };
}

impl EmptyBlock<Sha256> {
    ghost use Rattle.std.specs.Prelude.{List, ℕ};
    ghost use Rattle.mar_cert.specs.Block.{Block as PlainBlock, IsBlock};

    /// A block as plain data is a block of the definition.
    pub fn is_block(&self)
        ensures { IsBlock (⟦<Standard<EmptyBlock<Sha256>> as Variant>⟧.plain self.now) }
    {
        let _parent = self.parent;
        let _height = self.height.get();
        let _timestamp = self.timestamp;
    }

    /// What the reader takes at SHA-256 is what spells a block of the definition, and no two have one spelling.
    pub fn spellings()
        ensures spelled { (b : PlainBlock) → IsBlock b
            → ⟦<EmptyBlock<Sha256> as Read>⟧.in_grammar tt b.encoded }
        ensures only { (bytes : List ℕ) → ⟦<EmptyBlock<Sha256> as Read>⟧.in_grammar tt bytes
            → (b : PlainBlock) × IsBlock b × (b.encoded ≡ bytes) }
        ensures same { (b c : PlainBlock) → IsBlock b → IsBlock c → b.encoded ≡ c.encoded → b ≡ c }
    {}
}
