//! A stream of given blocks.
ghost use Rattle.std.specs.Prelude.{IfOk, IsErr, IsTrue, OnErr, map, ◌↔◌, ◌≡◌};
ghost use Rattle.mar_cert.specs.Block.{Block as PlainBlock};
ghost use Rattle.mar_block.specs.Links.{AreBehind, AreLinked, Gives, IsAsBefore, IsFirst, Keeps, Yields};
ghost use Rattle.mar_block.specs.Links.{coming_first, coming_of, shown_first};

use crate::ancestry::{Ancestry, ForkAncestry};
use crate::linked::Linked;
use crate::polled::{Peeked, Polled};
use crate::refusals::NotContiguous;
use std::alloc::{AllocError, Global};
use std::collections::VecDeque;
use std::marker::Model;

/// Blocks that are given, newest first. A contract sees those that are left.
#[derive(Drop)]
pub struct BoundedAncestry<B: Linked> {
    blocks: VecDeque<B>,
}

impl<B: Linked> Model for BoundedAncestry<B> {
    ghost use Rattle.std.specs.Prelude.{List, map};
    ghost use Rattle.mar_cert.specs.Block.{Block as PlainBlock};
    ghost use Rattle.mar_block.specs.Links.{AreLinked};

    ghost Value = { List PlainBlock };

    ghost view = { λ s. map B.plain s.blocks.items };

    ghost invariant = { λ s. AreLinked (map B.plain s.blocks.items) };
}

/// A stream of these blocks, newest first, which ends behind the last. Each has to be the direct parent of the one
/// before it.
pub fn from_iter<B: Linked>(blocks: Vec<B>) -> Result<BoundedAncestry<B>, NotContiguous>
    ensures ok { IfOk result (λ s. s ≡ map B.plain blocks.items) }
    ensures err { IsErr result → AreLinked (map B.plain blocks.items) → ⊥ }
{
    if !are_linked(blocks.as_slice()) {
        return Err(NotContiguous);
    }
    Ok(BoundedAncestry {
        blocks: VecDeque::from_vec(blocks),
    })
}

/// Whether each is the direct parent of the one before it.
pub fn are_linked<B: Linked>(blocks: &[B]) -> bool
    ensures { IsTrue result ↔ AreLinked (map B.plain blocks.now) }
{
    let mut rest = blocks;
    while let Some((child, more)) = rest.split_first() {
        if !are_behind(child, more) {
            return false;
        }
        rest = more;
    }
    true
}

// Whether the first of these, if there is one, is the direct parent.
fn are_behind<B: Linked>(child: &B, more: &[B]) -> bool
    ensures { IsTrue result ↔ AreBehind (B.plain child.now) (map B.plain more.now) }
{
    match more.first() {
        None => true,
        Some(parent) => child.is_child_of(parent),
    }
}

// Copies of these blocks.
pub(crate) fn copies<B: Linked>(
    alloc: Global,
    blocks: &VecDeque<B>,
) -> Result<VecDeque<B>, AllocError>
    ensures { IfOk result (λ copies. map B.plain copies.items ≡ map B.plain blocks.now.items) }
{
    let mut copies = VecDeque::new(alloc);
    for block in blocks.iter() {
        copies.push_back(block.again()?)?;
    }
    Ok(copies)
}

impl<B: Linked> Ancestry<B> for BoundedAncestry<B> {
    ghost use Rattle.mar_block.specs.Links.{IsFirst, coming_first, shown_first};

    ghost wants = { IsFirst };

    ghost shows = { shown_first };

    ghost comes = { coming_first };

    fn peek(&self) -> Peeked<'_, B> {
        match self.blocks.front() {
            None => Peeked::Nothing,
            Some(block) => Peeked::Block(block),
        }
    }

    fn poll(&mut self, _alloc: Global) -> Result<Polled<B>, AllocError>
        ensures yields { IfOk result (λ p. Yields B.plain (IsFirst self.old) p (IsFirst self.new)) }
        ensures keeps { IfOk result (λ p. Keeps B.plain (shown_first self.old) p) }
        ensures comes { IfOk result (λ p. coming_of B.plain p ≡ coming_first self.old) }
        ensures err { OnErr result (IsAsBefore IsFirst shown_first coming_first self.old self.new) }
        ensures gives { IfOk result (λ p. Gives B.plain self.old p self.new) }
    {
        match self.blocks.pop_front() {
            None => Ok(Polled::End),
            Some(block) => Ok(Polled::Block(block)),
        }
    }
}

impl<B: Linked> ForkAncestry<B> for BoundedAncestry<B> {
    fn fork(&mut self, alloc: Global) -> Result<Self, AllocError>
        ensures fork { IfOk result (λ fork. fork ≡ self.old) }
        ensures same { self.new ≡ self.old }
    {
        Ok(BoundedAncestry {
            blocks: copies(alloc, &self.blocks)?,
        })
    }
}
