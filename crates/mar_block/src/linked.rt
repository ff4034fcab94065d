//! Blocks by what links them.
ghost use Rattle.std.specs.Prelude.{IfOk, ◌+◌, ◌==◌, ◌≡◌};
ghost use Rattle.mar_cert.specs.Block.{Block as PlainBlock};
ghost use Rattle.mar_block.specs.EmptyBlock.{standard_block};
ghost use Rattle.mar_block.specs.Links.{is_direct_parent};

use crate::blocks::Block;
use mar_types::{Digested, Height};
use std::alloc::AllocError;

/// A block that tells its height and whether another one is its direct parent.
pub trait Linked: Drop {
    // The block as plain data.
    ghost plain: { Self → PlainBlock };

    /// Its height.
    fn height(&self) -> Height
        ensures { result ≡ (plain self.now).height };

    /// Whether that block stands one height below this one and has the digest that this one names as its parent's.
    fn is_child_of(&self, parent: &Self) -> bool
        ensures { result ≡ is_direct_parent (plain self.now) (plain parent.now) };

    /// A copy, which shares what the block holds.
    fn again(&self) -> Result<Self, AllocError>
    where
        Self: Sized,
        ensures { IfOk result (λ copy. plain copy ≡ plain self.now) };
}

impl<B: Block> Linked for Digested<B> {
    ghost plain = { standard_block B.digest_bytes B.height_of B.parent_of B.encoded };

    fn height(&self) -> Height {
        self.inner().height()
    }

    fn is_child_of(&self, parent: &Self) -> bool {
        is_one_above(self.inner().height(), parent.inner().height())
            && parent.digest() == self.inner().parent()
    }

    fn again(&self) -> Result<Self, AllocError> {
        self.clone()
    }
}

// Whether the first height is the one above the other.
fn is_one_above(height: Height, below: Height) -> bool
    ensures { result ≡ (below + 1 == height) }
{
    match below.get().checked_add(1) {
        Some(next) => next == height.get(),
        None => false,
    }
}
