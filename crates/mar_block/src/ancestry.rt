//! Streams of ancestors.
ghost use Rattle.std.specs.Prelude.{IfOk, OnErr, ◌≡◌};
ghost use Rattle.mar_cert.specs.Block.{Block as PlainBlock};
ghost use Rattle.mar_block.specs.Links.{Coming, IsAsBefore, IsFork, Keeps, Shown, Yields, coming_of, shown_of};

use crate::linked::Linked;
use crate::polled::{Peeked, Polled};
use std::alloc::{AllocError, Global};

/// A stream of blocks, newest first, each the direct parent of the one before it.
pub trait Ancestry<B: Linked>: Drop {
    // What may come next.
    ghost wants: { Self → PlainBlock → Type 0 };

    // What it shows of the next block.
    ghost shows: { Self → Shown };

    // What a poll gives now, where memory suffices.
    ghost comes: { Self → Coming };

    /// The next block, where it is there already. The stream stays as it is.
    fn peek(&self) -> Peeked<'_, B>
        ensures { shown_of B.plain result ≡ shows self.now };

    /// The next block. Where memory runs out the stream stays as it was.
    fn poll(&mut self, alloc: Global) -> Result<Polled<B>, AllocError>
        ensures yields { IfOk result (λ p. Yields B.plain (wants self.old) p (wants self.new)) }
        ensures keeps { IfOk result (λ p. Keeps B.plain (shows self.old) p) }
        ensures comes { IfOk result (λ p. coming_of B.plain p ≡ comes self.old) }
        ensures err { OnErr result (IsAsBefore wants shows comes self.old self.new) };
}

/// A stream that can be had once more from where it stands.
pub trait ForkAncestry<B: Linked>: Ancestry<B> {
    /// Another stream from here on, which fetches for itself. The stream stays as it was, and what either yields is no
    /// matter of the other.
    fn fork(&mut self, alloc: Global) -> Result<Self, AllocError>
    where
        Self: Sized,
        ensures same { IsAsBefore Self.wants Self.shows Self.comes self.old self.new }
        ensures fork { IfOk result (IsFork Self.wants Self.shows self.old) };
}
