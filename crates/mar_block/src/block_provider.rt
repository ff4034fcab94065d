//! Where the parents of blocks come from.
ghost use Rattle.std.specs.Prelude.{IfOk, None, OnErr, Option, Some, option_map, ℕ, ◌≡◌, ◌≢◌};
ghost use Rattle.mar_cert.specs.Block.{Block as PlainBlock};
ghost use Rattle.mar_block.specs.Streams.{KnowsSame, came_after, fetched_block};

use crate::linked::Linked;
use std::alloc::{AllocError, Global};

/// What came for a ticket.
#[derive(Drop)]
pub enum Fetched<B> {
    /// Nothing yet.
    Pending,
    /// The answer: a block, or none where it can't be had.
    Came(Option<B>),
}

/// Asks for the parents of blocks, and keeps the answers until they are fetched.
pub trait BlockProvider<B: Linked>: Drop {
    // The block whose parent was asked for under a ticket.
    ghost asked: { Self → ℕ → Option PlainBlock };

    // What came for a ticket: nothing yet, or a block or none.
    ghost came: { Self → ℕ → Option (Option PlainBlock) };

    /// Asks for the parent of a block, and answers the ticket under which it comes. Where memory runs out all is as
    /// before.
    fn subscribe_parent(&mut self, alloc: Global, child: &B) -> Result<u64, AllocError>
        ensures asks { IfOk result (λ t. asked self.new t ≡ Some (B.plain child.now)) }
        ensures others { IfOk result (λ t. (u : ℕ) → u ≢ t → KnowsSame asked came self.old self.new u) }
        ensures same { OnErr result ((u : ℕ) → KnowsSame asked came self.old self.new u) };

    /// What came for a ticket. An answer is fetched once; until one comes nothing changes.
    fn poll_fetch(&mut self, ticket: u64) -> Fetched<B>
        ensures fetched { fetched_block B.plain result ≡ came self.old ticket }
        ensures pending { fetched_block B.plain result ≡ None
            → (u : ℕ) → KnowsSame asked came self.old self.new u }
        ensures others { (u : ℕ) → u ≢ ticket → KnowsSame asked came self.old self.new u };

    /// Hands over the answer for a ticket: the parent, or none. It counts where the ticket is out and has no answer
    /// yet.
    fn give(&mut self, ticket: u64, block: Option<B>)
        ensures came { (u : ℕ) → came self.new u
            ≡ came_after (asked self.old) (came self.old) ticket (option_map B.plain block) u }
        ensures asked { (u : ℕ) → asked self.new u ≡ asked self.old u };
}

/// A provider that can be had once more, for a stream of its own.
pub trait ForkProvider<B: Linked>: BlockProvider<B> {
    /// Another provider, of which nothing was asked yet. What either is asked and given is no matter of the other.
    fn fork(&mut self, alloc: Global) -> Result<Self, AllocError>
    where
        Self: Sized,
        ensures fresh { IfOk result (λ fork. (u : ℕ) → Self.asked fork u ≡ None) }
        ensures same { (u : ℕ) → KnowsSame Self.asked Self.came self.old self.new u };
}
