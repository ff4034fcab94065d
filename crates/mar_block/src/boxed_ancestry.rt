//! Streams in boxes.
ghost use Rattle.std.specs.Prelude.{IfOk, OnErr, ◌≡◌};
ghost use Rattle.mar_cert.specs.Block.{Block as PlainBlock};
ghost use Rattle.mar_block.specs.Links.{Coming, IsAsBefore, Keeps, Shown, Yields, coming_of, shown_of};

use crate::ancestry::Ancestry;
use crate::empty_block::EmptyBlock;
use crate::linked::Linked;
use crate::polled::{Peeked, Polled};
use mar_types::{Digested, Sha256};
use std::alloc::{AllocError, Global};

// A block of the kind that boxed streams yield.
type Block = Digested<EmptyBlock<Sha256>>;

/// A stream of ancestors whose type is erased.
pub trait ErasedAncestry: Drop {
    // What may come next.
    ghost wants: { Self → PlainBlock → Type 0 };

    // What it shows of the next block.
    ghost shows: { Self → Shown };

    // What a poll gives now, where memory suffices.
    ghost comes: { Self → Coming };

    /// As `Ancestry::peek`.
    fn peek_erased(&self) -> Peeked<'_, Block>
        ensures { shown_of ⟦<Digested<EmptyBlock<Sha256>> as Linked>⟧.plain result ≡ shows self.now };

    /// As `Ancestry::poll`.
    fn poll_erased(&mut self, alloc: Global) -> Result<Polled<Block>, AllocError>
        ensures yields { IfOk result (λ p. Yields ⟦<Digested<EmptyBlock<Sha256>> as Linked>⟧.plain
            (wants self.old) p (wants self.new)) }
        ensures keeps { IfOk result (λ p. Keeps ⟦<Digested<EmptyBlock<Sha256>> as Linked>⟧.plain (shows self.old) p) }
        ensures comes { IfOk result (λ p. coming_of ⟦<Digested<EmptyBlock<Sha256>> as Linked>⟧.plain p
            ≡ comes self.old) }
        ensures err { OnErr result (IsAsBefore wants shows comes self.old self.new) };
}

impl<A: Ancestry<Digested<EmptyBlock<Sha256>>>> ErasedAncestry for A {
    ghost wants = { A.wants };

    ghost shows = { A.shows };

    ghost comes = { A.comes };

    fn peek_erased(&self) -> Peeked<'_, Block> {
        self.peek()
    }

    fn poll_erased(&mut self, alloc: Global) -> Result<Polled<Block>, AllocError> {
        self.poll(alloc)
    }
}

/// A stream of ancestors in a box that its caller made.
#[derive(Drop)]
pub struct BoxedAncestry {
    inner: Box<dyn ErasedAncestry>,
}

impl BoxedAncestry {
    /// The stream in this box.
    pub fn new(inner: Box<dyn ErasedAncestry>) -> Self
        ensures { result.inner ≡ inner }
    {
        BoxedAncestry { inner }
    }
}

impl Ancestry<Digested<EmptyBlock<Sha256>>> for BoxedAncestry {
    ghost wants = { λ b. (ErasedAncestry-box b.inner).wants b.inner.value };

    ghost shows = { λ b. (ErasedAncestry-box b.inner).shows b.inner.value };

    ghost comes = { λ b. (ErasedAncestry-box b.inner).comes b.inner.value };

    fn peek(&self) -> Peeked<'_, Block> {
        self.inner.peek_erased()
    }

    fn poll(&mut self, alloc: Global) -> Result<Polled<Block>, AllocError> {
        self.inner.poll_erased(alloc)
    }
}
