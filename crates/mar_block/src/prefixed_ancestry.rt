//! Given blocks before a stream.
ghost use Rattle.std.specs.Prelude.{IfErr, IfOk, OnErr, false, map, option_map, ◌≡◌};
ghost use Rattle.mar_cert.specs.Block.{Block as PlainBlock};
ghost use Rattle.mar_block.specs.Links.{AreLinked, IsAsBefore, IsFork, Keeps, Yields, coming_of, shown_of};
ghost use Rattle.mar_block.specs.Prefixes.{LeavesPrefixed, MayComePrefixed, SameButTail, coming_of_prefixed};
ghost use Rattle.mar_block.specs.Prefixes.{is_behind, last, shown_behind, shown_of_prefixed};

use crate::ancestry::{Ancestry, ForkAncestry};
use crate::bounded_ancestry::{are_linked, copies};
use crate::linked::Linked;
use crate::polled::{Peeked, Polled};
use crate::refusals::{Refusal, Refused};
use std::alloc::{AllocError, Global};
use std::collections::VecDeque;
use std::marker::Model;

/// Blocks that are given, newest first, and then a stream.
#[derive(Drop)]
pub struct PrefixedAncestry<B: Linked, A: Drop> {
    prefix: VecDeque<B>,
    boundary: Option<B>,
    ended: bool,
    tail: A,
}

impl<B: Linked, A: Drop> Model for PrefixedAncestry<B, A> {
    ghost use Rattle.std.specs.Prelude.{map, option_map};
    ghost use Rattle.mar_block.specs.Links.{AreLinked};
    ghost use Rattle.mar_block.specs.Prefixes.{IsBoundary, Prefixed, prefixed};

    ghost Value = { Prefixed A };

    ghost view = { λ s. prefixed B.plain s.prefix.items s.boundary s.ended s.tail };

    ghost invariant = { λ s. AreLinked (map B.plain s.prefix.items)
        × IsBoundary (map B.plain s.prefix.items) (option_map B.plain s.boundary) };
}

impl<B: Linked, A: Ancestry<B>> Ancestry<B> for PrefixedAncestry<B, A> {
    ghost use Rattle.mar_block.specs.Prefixes.{MayComePrefixed, coming_of_prefixed, shown_of_prefixed};

    ghost wants = { MayComePrefixed A.wants };

    ghost shows = { shown_of_prefixed A.shows };

    ghost comes = { coming_of_prefixed A.comes };

    fn peek(&self) -> Peeked<'_, B> {
        if let Some(block) = self.prefix.front() {
            return Peeked::Block(block);
        }
        if self.ended {
            return Peeked::Nothing;
        }
        peek_behind(&self.boundary, self.tail.peek())
    }

    fn poll(&mut self, alloc: Global) -> Result<Polled<B>, AllocError>
        ensures yields { IfOk result (λ p. Yields B.plain
            (MayComePrefixed A.wants self.old) p (MayComePrefixed A.wants self.new)) }
        ensures keeps { IfOk result (λ p. Keeps B.plain (shown_of_prefixed A.shows self.old) p) }
        ensures comes { IfOk result (λ p. coming_of B.plain p ≡ coming_of_prefixed A.comes self.old) }
        ensures err { OnErr result (IsAsBefore
            (MayComePrefixed A.wants) (shown_of_prefixed A.shows) (coming_of_prefixed A.comes) self.old self.new) }
        ensures leaves { IfOk result (λ p. LeavesPrefixed self.old self.old.prefix p self.new) }
    {
        let PrefixedAncestry {
            prefix,
            boundary,
            ended,
            tail,
        } = self;
        if let Some(block) = prefix.pop_front() {
            return Ok(Polled::Block(block));
        }
        if *ended {
            return Ok(Polled::End);
        }
        match tail.poll(alloc)? {
            Polled::Block(block) => {
                if is_behind(boundary, &block) {
                    *boundary = None;
                    Ok(Polled::Block(block))
                } else {
                    *ended = true;
                    Ok(Polled::NotContiguous)
                }
            }
            Polled::NotContiguous => {
                *ended = true;
                Ok(Polled::NotContiguous)
            }
            other => Ok(other),
        }
    }
}

// What is shown of the stream's next block behind this one.
fn peek_behind<'a, B: Linked>(boundary: &Option<B>, peeked: Peeked<'a, B>) -> Peeked<'a, B>
    ensures { shown_of B.plain result ≡ shown_behind (option_map B.plain boundary.now) (shown_of B.plain peeked.entry) }
{
    match peeked {
        Peeked::Block(block) => {
            if is_behind(boundary, block) {
                peeked
            } else {
                Peeked::NotContiguous
            }
        }
        Peeked::Nothing | Peeked::NotContiguous => peeked,
    }
}

// Whether this may stand behind.
fn is_behind<B: Linked>(boundary: &Option<B>, block: &B) -> bool
    ensures { result ≡ is_behind (option_map B.plain boundary.now) (B.plain block.now) }
{
    match boundary {
        None => true,
        Some(child) => child.is_child_of(block),
    }
}

/// These blocks, newest first, and behind them a stream, which hasn't to be there yet: its first block is looked at
/// where it is shown or polled. Each of the blocks has to be the direct parent of the one before it, else the stream
/// comes back.
pub fn with_prefix<B: Linked, A: Ancestry<B>>(
    blocks: Vec<B>,
    tail: A,
) -> Result<PrefixedAncestry<B, A>, Refused<A>>
    ensures ok { IfOk result (λ s. s ≡ record {
      prefix = map B.plain blocks.items;
      boundary = last (map B.plain blocks.items);
      ended = false;
      tail = tail;
    }) }
    ensures err { IfErr result (λ e. e.reason ≡ Refusal.NotContiguous → AreLinked (map B.plain blocks.items) → ⊥) }
    ensures memory { IfErr result (λ e. e.reason ≡ Refusal.Memory → AreLinked (map B.plain blocks.items)) }
    ensures back { IfErr result (λ e. e.kept ≡ tail) }
{
    if !are_linked(blocks.as_slice()) {
        return Err(Refused {
            reason: Refusal::NotContiguous,
            kept: tail,
        });
    }
    match copy_of_last(blocks.as_slice()) {
        Err(_) => Err(Refused {
            reason: Refusal::Memory,
            kept: tail,
        }),
        Ok(boundary) => Ok(PrefixedAncestry {
            prefix: VecDeque::from_vec(blocks),
            boundary,
            ended: false,
            tail,
        }),
    }
}

// A copy of the last of these.
fn copy_of_last<B: Linked>(blocks: &[B]) -> Result<Option<B>, AllocError>
    ensures { IfOk result (λ b. option_map B.plain b ≡ last (map B.plain blocks.now)) }
{
    match blocks.last() {
        None => Ok(None),
        Some(block) => Ok(Some(block.again()?)),
    }
}

// A copy of a block, where there is one.
pub(crate) fn copy_of<B: Linked>(block: &Option<B>) -> Result<Option<B>, AllocError>
    ensures { IfOk result (λ b. option_map B.plain b ≡ option_map B.plain block.now) }
{
    match block {
        None => Ok(None),
        Some(block) => Ok(Some(block.again()?)),
    }
}

impl<B: Linked, A: ForkAncestry<B>> ForkAncestry<B> for PrefixedAncestry<B, A> {
    fn fork(&mut self, alloc: Global) -> Result<Self, AllocError>
        ensures same { IsAsBefore
            (MayComePrefixed A.wants) (shown_of_prefixed A.shows) (coming_of_prefixed A.comes) self.old self.new }
        ensures fork { IfOk result (IsFork (MayComePrefixed A.wants) (shown_of_prefixed A.shows) self.old) }
        ensures given { IfOk result (SameButTail self.old) }
        ensures stays { SameButTail self.old self.new }
    {
        let prefix = copies(alloc, &self.prefix)?;
        let boundary = copy_of(&self.boundary)?;
        let tail = self.tail.fork(alloc)?;
        Ok(PrefixedAncestry {
            prefix,
            boundary,
            ended: self.ended,
            tail,
        })
    }
}
