//! A stream that asks a provider for each parent.
ghost use Rattle.std.specs.Prelude.{IfErr, IfOk, List, OnErr, map, option_map, ℕ, ◌≡◌};
ghost use Rattle.std.specs.List.Sorted.{IsPermutation};
ghost use Rattle.mar_cert.specs.Block.{Block as PlainBlock};
ghost use Rattle.mar_block.specs.Links.{AreLinked, IsAsBefore, IsFork, Keeps, Yields, block_comes, coming_of};
ghost use Rattle.mar_block.specs.Streams.{IsAheadAsBefore, IsAskedBehind, IsForkOfStream, IsForkedAhead, KnowsSame};
ghost use Rattle.mar_block.specs.Streams.{LeavesAhead, LeavesStream, MayComeAhead, MayStream, ahead_of, awaited};
ghost use Rattle.mar_block.specs.Streams.{came_after, coming_ahead, coming_stream, has_fetched, nothing_ahead};
ghost use Rattle.mar_block.specs.Streams.{shown_stream};

use crate::ancestry::{Ancestry, ForkAncestry};
use crate::block_provider::{BlockProvider, Fetched, ForkProvider};
use crate::bounded_ancestry::{are_linked, copies};
use crate::linked::Linked;
use crate::polled::{Peeked, Polled};
use crate::refusals::{Refusal, Refused};
use std::alloc::{AllocError, Global};
use std::collections::VecDeque;
use std::marker::Model;
use std::mem;

/// What comes behind the buffered blocks.
#[derive(Drop)]
pub enum Ahead<B> {
    Nothing,
    /// The parent of this block, asked for under this ticket.
    Awaits(B, u64),
    /// This block, whose parent could not be asked for yet.
    Fetched(B),
}

/// Blocks, newest first, and behind them what a provider gives, parent by parent.
#[derive(Drop)]
pub struct AncestorStream<B: Linked, P: Drop> {
    buffered: VecDeque<B>,
    ahead: Ahead<B>,
    provider: P,
}

impl<B: Linked, P: Drop> Model for AncestorStream<B, P> {
    ghost use Rattle.std.specs.Prelude.{map};
    ghost use Rattle.mar_block.specs.Links.{AreLinked};
    ghost use Rattle.mar_block.specs.Streams.{IsAheadOf, Streamed, ahead_of, streamed};

    ghost Value = { Streamed P };

    ghost view = { λ s. streamed B.plain s.buffered.items s.ahead s.provider };

    ghost invariant = { λ s. AreLinked (map B.plain s.buffered.items)
        × IsAheadOf (map B.plain s.buffered.items) (ahead_of B.plain s.ahead) };
}

impl<B: Linked, P: BlockProvider<B>> AncestorStream<B, P> {
    /// A stream that begins with these blocks, in whichever order they come, and then asks that provider for each
    /// parent. Newest first they have to be a line of parents, else they are dropped and the provider comes back.
    pub fn new(provider: P, initial: Vec<B>) -> Result<Self, Refused<P>>
        ensures ok { IfOk result (λ s. IsPermutation (map B.plain initial.items) s.buffered × AreLinked s.buffered
            × (s.ahead ≡ nothing_ahead) × (s.provider ≡ provider)) }
        ensures err { IfErr result (λ e. (e.reason ≡ Refusal.NotContiguous) × (e.kept ≡ provider)
            × ((line : List PlainBlock) → IsPermutation (map B.plain initial.items) line → AreLinked line → ⊥)) }
    {
        let mut blocks = initial;
        sort_newest_first(&mut blocks);
        if !are_linked(blocks.as_slice()) {
            return Err(Refused {
                reason: Refusal::NotContiguous,
                kept: provider,
            });
        }
        Ok(AncestorStream {
            buffered: VecDeque::from_vec(blocks),
            ahead: Ahead::Nothing,
            provider,
        })
    }

    /// Hands the provider the answer for a ticket: the parent, or none.
    pub fn give(&mut self, ticket: u64, block: Option<B>)
        ensures buffered { self.new.buffered ≡ self.old.buffered }
        ensures ahead { self.new.ahead ≡ self.old.ahead }
        ensures came { (u : ℕ) → P.came self.new.provider u
            ≡ came_after (P.asked self.old.provider) (P.came self.old.provider) ticket (option_map B.plain block) u }
        ensures asked { (u : ℕ) → P.asked self.new.provider u ≡ P.asked self.old.provider u }
    {
        self.provider.give(ticket, block);
    }
}

impl<B: Linked, P: Drop> AncestorStream<B, P> {
    /// The provider. What was buffered is dropped.
    pub fn into_provider(self) -> P
        ensures { result ≡ self.provider }
    {
        self.provider
    }

    /// The ticket under which the next parent is awaited.
    pub fn awaited(&self) -> Option<u64>
        ensures { result ≡ awaited self.now.ahead }
    {
        match self.ahead {
            Ahead::Awaits(_, ticket) => Some(ticket),
            Ahead::Nothing | Ahead::Fetched(_) => None,
        }
    }
}

// Puts the highest block first. Where an order of these blocks is a line of parents, that is it.
fn sort_newest_first<B: Linked>(blocks: &mut Vec<B>)
    ensures permutation { IsPermutation (map B.plain blocks.old.items) (map B.plain blocks.new.items) }
    ensures only { (line : List PlainBlock) → IsPermutation (map B.plain blocks.old.items) line → AreLinked line
        → map B.plain blocks.new.items ≡ line }
{
    blocks.sort_unstable_by_key(|block| block.height().get());
    blocks.reverse();
}

impl<B: Linked, P: BlockProvider<B>> Ancestry<B> for AncestorStream<B, P> {
    ghost use Rattle.mar_block.specs.Streams.{MayStream, coming_stream, shown_stream};

    ghost wants = { MayStream };

    ghost shows = { shown_stream };

    ghost comes = { coming_stream P.came };

    fn peek(&self) -> Peeked<'_, B> {
        match self.buffered.front() {
            None => Peeked::Nothing,
            Some(block) => Peeked::Block(block),
        }
    }

    fn poll(&mut self, alloc: Global) -> Result<Polled<B>, AllocError>
        ensures yields { IfOk result (λ p. Yields B.plain (MayStream self.old) p (MayStream self.new)) }
        ensures keeps { IfOk result (λ p. Keeps B.plain (shown_stream self.old) p) }
        ensures comes { IfOk result (λ p. coming_of B.plain p ≡ coming_stream P.came self.old) }
        ensures err { OnErr result (IsAsBefore MayStream shown_stream (coming_stream P.came) self.old self.new) }
        ensures leaves { IfOk result (λ p. LeavesStream B.plain P.asked self.old p self.new) }
    {
        let AncestorStream {
            buffered,
            ahead,
            provider,
        } = self;
        if buffered.len() > 1 {
            return Ok(match buffered.pop_front() {
                Some(block) => Polled::Block(block),
                None => Polled::End,
            });
        }
        match buffered.front() {
            None => poll_ahead(alloc, ahead, provider),
            Some(block) => {
                *ahead = ask_behind(alloc, provider, block)?;
                Ok(match buffered.pop_front() {
                    Some(block) => Polled::Block(block),
                    None => Polled::End,
                })
            }
        }
    }
}

// Asks for the parent of a block, unless it is at height zero.
fn ask_behind<B: Linked, P: BlockProvider<B>>(
    alloc: Global,
    provider: &mut P,
    block: &B,
) -> Result<Ahead<B>, AllocError>
    ensures asked { IfOk result (λ a. IsAskedBehind (P.asked provider.new) (B.plain block.now) (ahead_of B.plain a)) }
    ensures same { OnErr result ((t : ℕ) → KnowsSame P.asked P.came provider.old provider.new t) }
{
    if block.height().is_zero() {
        return Ok(Ahead::Nothing);
    }
    let child = block.again()?;
    let ticket = provider.subscribe_parent(alloc, block)?;
    Ok(Ahead::Awaits(child, ticket))
}

// What comes behind the buffered blocks.
fn poll_ahead<B: Linked, P: BlockProvider<B>>(
    alloc: Global,
    ahead: &mut Ahead<B>,
    provider: &mut P,
) -> Result<Polled<B>, AllocError>
    ensures yields { IfOk result (λ p. Yields B.plain
        (MayComeAhead (ahead_of B.plain ahead.old)) p (MayComeAhead (ahead_of B.plain ahead.new))) }
    ensures leaves { IfOk result (λ p. LeavesAhead B.plain (P.asked provider.new)
        (ahead_of B.plain ahead.old) p (ahead_of B.plain ahead.new)) }
    ensures comes { IfOk result (λ p. coming_of B.plain p
        ≡ coming_ahead (P.came provider.old) (ahead_of B.plain ahead.old)) }
    ensures err { OnErr result (IsAheadAsBefore (P.came provider.old) (ahead_of B.plain ahead.old)
        (P.came provider.new) (ahead_of B.plain ahead.new)) }
{
    match mem::replace(ahead, Ahead::Nothing) {
        Ahead::Nothing => Ok(Polled::End),
        Ahead::Fetched(block) => yield_fetched(alloc, ahead, provider, block),
        Ahead::Awaits(child, ticket) => match provider.poll_fetch(ticket) {
            Fetched::Pending => {
                *ahead = Ahead::Awaits(child, ticket);
                Ok(Polled::Pending)
            }
            Fetched::Came(None) => Ok(Polled::End),
            Fetched::Came(Some(block)) => {
                if child.is_child_of(&block) {
                    yield_fetched(alloc, ahead, provider, block)
                } else {
                    Ok(Polled::End)
                }
            }
        },
    }
}

// Yields a fetched block once its own parent is asked for.
fn yield_fetched<B: Linked, P: BlockProvider<B>>(
    alloc: Global,
    ahead: &mut Ahead<B>,
    provider: &mut P,
    block: B,
) -> Result<Polled<B>, AllocError>
    ensures ok { IfOk result (λ p. (coming_of B.plain p ≡ block_comes (B.plain block))
        × IsAskedBehind (P.asked provider.new) (B.plain block) (ahead_of B.plain ahead.new)) }
    ensures err { OnErr result (ahead_of B.plain ahead.new ≡ has_fetched (B.plain block)) }
{
    match ask_behind(alloc, provider, &block) {
        Ok(behind) => {
            *ahead = behind;
            Ok(Polled::Block(block))
        }
        Err(error) => {
            *ahead = Ahead::Fetched(block);
            Err(error)
        }
    }
}

impl<B: Linked, P: ForkProvider<B>> ForkAncestry<B> for AncestorStream<B, P> {
    fn fork(&mut self, alloc: Global) -> Result<Self, AllocError>
        ensures same { IsAsBefore MayStream shown_stream (coming_stream P.came) self.old self.new }
        ensures fork { IfOk result (IsFork MayStream shown_stream self.old) }
        ensures own { IfOk result (IsForkOfStream P.asked self.old) }
        ensures stays { (self.new.buffered ≡ self.old.buffered) × (self.new.ahead ≡ self.old.ahead) }
        ensures provider { (u : ℕ) → KnowsSame P.asked P.came self.old.provider self.new.provider u }
    {
        let buffered = copies(alloc, &self.buffered)?;
        let mut provider = self.provider.fork(alloc)?;
        let ahead = fork_ahead(alloc, &mut provider, &self.ahead)?;
        Ok(AncestorStream {
            buffered,
            ahead,
            provider,
        })
    }
}

// What stands ahead of a fork: an awaited parent is asked for anew.
fn fork_ahead<B: Linked, P: BlockProvider<B>>(
    alloc: Global,
    provider: &mut P,
    ahead: &Ahead<B>,
) -> Result<Ahead<B>, AllocError>
    ensures { IfOk result (λ a. IsForkedAhead (P.asked provider.new)
        (ahead_of B.plain ahead.now) (ahead_of B.plain a)) }
{
    match ahead {
        Ahead::Nothing => Ok(Ahead::Nothing),
        Ahead::Fetched(block) => Ok(Ahead::Fetched(block.again()?)),
        Ahead::Awaits(child, _) => {
            let ticket = provider.subscribe_parent(alloc, child)?;
            Ok(Ahead::Awaits(child.again()?, ticket))
        }
    }
}
