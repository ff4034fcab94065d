//! Blocks for tests.
ghost use Rattle.std.specs.Prelude.{◌≡◌, ◌+◌, ◌*◌, ◌<◌, ◌^◌, IfOk, length};
ghost use Rattle.std.proofs.Common.{sym, ◌∙◌};
ghost use Rattle.mar_block.specs.MockBlock.{RefusesMock, SpellsMock, mock_bytes, mock_message};
ghost use Rattle.mar_block.specs.MockBlockLemmas.{length-mock_bytes, mock_identified, mock_unambiguous};

use crate::blocks::{Block as AnyBlock, BoundedBlock, CertifiableBlock, Heightable};
use bytes::{Buf, BufMut, BytesMut};
use mar_types::{
    Digest, Digested, Digestible, EncodeSize, Error, Hasher, Height, MaxEncodeSize, Read, UInt,
    Write, read_pair, write_pair,
};
use std::alloc::{AllocError, Global};

/// Computes the block's digest, and puts the block beside it.
pub fn ready<B: AnyBlock>(alloc: Global, block: B) -> Result<Digested<B>, AllocError>
    ensures { IfOk result (λ digested. digested ≡ block) }
{
    Digested::compute(alloc, block)
}

/// A block that holds the context in which it was proposed, and its own digest. One that is read has the digest that
/// its bytes give; one that is made has the digest of its parts.
#[derive(Clone, Debug, PartialEq, Eq, Drop)]
pub struct Block<D, C> {
    pub context: C,
    pub parent: D,
    pub height: Height,
    pub timestamp: u64,
    digest: D,
}

impl<D: Digest, C: Write + Drop> Block<D, C> {
    /// The block of these parts, under their digest. It fails only by memory.
    pub fn new<H: Hasher<Digest = D>>(
        alloc: Global,
        context: C,
        parent: D,
        height: Height,
        timestamp: u64,
    ) -> Result<Self, AllocError>
        ensures context { IfOk result (λ b. b.context ≡ context) }
        ensures parent { IfOk result (λ b. b.parent ≡ parent) }
        ensures height { IfOk result (λ b. b.height ≡ height) }
        ensures timestamp { IfOk result (λ b. b.timestamp ≡ timestamp) }
        ensures digest { IfOk result (λ b. ⟦<Block<D, C> as Digestible>⟧.digest_bytes b
            ≡ H.digest_of (mock_message (C.encoded context) (D.bytes parent) height timestamp)) }
    {
        let mut spelled = BytesMut::new(alloc);
        context.write(&mut spelled)?;
        let mut hasher = H::new();
        hasher.update(parent.as_slice());
        hasher.update(&height.get().to_be_bytes());
        hasher.update(&spelled);
        hasher.update(&timestamp.to_be_bytes());
        let digest = hasher.finalize();
        Ok(Block {
            context,
            parent,
            height,
            timestamp,
            digest,
        })
    }
}

impl<D: Digest, C: Write> Write for Block<D, C> {
    ghost encoded = { λ b. mock_bytes
        (C.encoded b.context) (D.encoded b.parent) b.height b.timestamp (D.encoded b.digest) };

    fn write<B: BufMut>(&self, buf: &mut B) -> Result<(), AllocError> {
        let rest = (
            self.parent,
            (self.height, (UInt(self.timestamp), self.digest)),
        );
        write_pair(&self.context, &rest, buf)
    }
}

impl<D: Digest, C: EncodeSize> EncodeSize for Block<D, C> {
    ghost can_encode = { λ b. C.can_encode b.context × (length (C.encoded b.context) + 2 * D.SIZE + 20 < 2 ^ 64) };

    fn encode_size(&self) -> usize {
        let numbers = self.height.encode_size() + UInt(self.timestamp).encode_size();
        self.context.encode_size() + D::SIZE + numbers + D::SIZE
    }
}

impl<D: Digest, C: Read<Cfg = ()>> Read for Block<D, C> {
    type Cfg = ();

    ghost in_grammar = { λ cfg. SpellsMock (C.in_grammar cfg) (D.in_grammar cfg) };

    ghost refuses = { λ cfg. RefusesMock (C.in_grammar cfg) (C.refuses cfg) (D.in_grammar cfg) (D.refuses cfg) };

    ghost takes_memory = { C.takes_memory };

    fn read_cfg<B: Buf>(alloc: Global, buf: &mut B, cfg: &()) -> Result<Self, Error> {
        let (context, rest) = read_pair(alloc, buf, cfg, &((), ((), ((), ()))))?;
        let (parent, (height, (timestamp, digest))) = rest;
        let UInt(timestamp) = timestamp;
        Ok(Block {
            context,
            parent,
            height,
            timestamp,
            digest,
        })
    }

    ghost unambiguous = { λ cfg. mock_unambiguous
        (C.in_grammar cfg) (D.in_grammar cfg) (C.unambiguous cfg) (D.unambiguous cfg) };
}

impl<D: Digest, C> Digestible for Block<D, C> {
    type Digest = D;

    ghost digest_bytes = { λ b. D.bytes b.digest };

    fn digest(&self) -> D {
        self.digest
    }
}

impl<D, C> Heightable for Block<D, C> {
    ghost height_of = { λ b. b.height };

    fn height(&self) -> Height {
        self.height
    }
}

impl<D: Digest, C: Read<Cfg = ()>> AnyBlock for Block<D, C> {
    ghost parent_of = { λ b. D.bytes b.parent };

    fn parent(&self) -> D {
        self.parent
    }

    ghost identified = { λ b other e. mock_identified (C.encoded b.context) (D.encoded b.parent) (D.encoded b.digest)
        (C.encoded other.context) (D.encoded other.parent) (D.encoded other.digest) b.height b.timestamp other.height
        other.timestamp (D.bytes b.digest) (D.bytes other.digest) (D.sized b.digest ∙ sym (D.sized other.digest))
        (D.spelled b.digest) (D.spelled other.digest) e };
}

impl<D: Digest, C: Read<Cfg = ()> + Clone> CertifiableBlock for Block<D, C> {
    type Context = C;

    ghost is_context = { λ b context. C.is_clone b.context context };

    fn context(&self) -> Result<C, AllocError> {
        self.context.clone()
    }
}

impl<D: Digest, C: Read<Cfg = ()> + MaxEncodeSize> BoundedBlock for Block<D, C> {
    ghost max_size = { λ _. C.MAX_ENCODE_SIZE + 2 * D.SIZE + 20 };

    fn max_encode_size(_cfg: &()) -> usize {
        C::MAX_ENCODE_SIZE + D::SIZE + D::SIZE + 20
    }

    ghost bounded = { λ cfg b _. length-mock_bytes (C.encoded b.context) (D.encoded b.parent) b.height b.timestamp
        (D.encoded b.digest) C.MAX_ENCODE_SIZE D.SIZE (C.within b.context) (D.sized b.parent) (D.sized b.digest) };
}
