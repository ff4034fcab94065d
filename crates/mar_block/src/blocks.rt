//! What blocks are.
ghost use Rattle.std.specs.Prelude.{◌≡◌, ◌≤◌, ◌<◌, ◌^◌, ℕ, List, IfOk, length};

use mar_types::{Digestible, Height, Read};
use std::alloc::AllocError;

/// What stands at a height.
pub trait Heightable {
    ghost height_of: { Self → ℕ };

    fn height(&self) -> Height
        ensures { result ≡ height_of self.now };
}

/// A block: it stands at a height and names its parent. Its bytes tell its digest.
pub trait Block: Heightable + Digestible + Read {
    // The bytes of the parent's digest.
    ghost parent_of: { Self → List ℕ };

    /// The parent's digest.
    fn parent(&self) -> Self::Digest
        ensures { Self.Digest.bytes result ≡ parent_of self.now };

    ghost identified: { (block other : Self) → Self.encoded block ≡ Self.encoded other
        → Self.digest_bytes block ≡ Self.digest_bytes other };
}

/// A block that tells in which context consensus proposed it.
pub trait CertifiableBlock: Block {
    type Context;

    // This is the block's context, or a copy of it.
    ghost is_context: { Self → Self.Context → Type 0 };

    /// The context. It fails only by memory.
    fn context(&self) -> Result<Self::Context, AllocError>
        ensures { IfOk result (is_context self.now) };
}

/// A block whose spelling is at most so long.
pub trait BoundedBlock: Block {
    ghost max_size: { Self.Cfg → ℕ };

    /// The most bytes that spell a block under that configuration. That number has to fit.
    fn max_encode_size(cfg: &Self::Cfg) -> usize
        requires { max_size cfg.now < 2 ^ 64 }
        ensures { result ≡ max_size cfg.now };

    ghost bounded: { (cfg : Self.Cfg) (block : Self) → Self.in_grammar cfg (Self.encoded block)
        → length (Self.encoded block) ≤ max_size cfg };
}
