//! A provider of parents in memory.
ghost use Rattle.std.specs.Prelude.{None, Some, [], option_map, ℕ, ◌≡◌};
ghost use Rattle.mar_cert.specs.Block.{Block as PlainBlock};
ghost use Rattle.mar_block.specs.Provided.{asked_at, asked_by, came_at, came_by, came_in};
ghost use Rattle.mar_block.specs.Streams.{came_after, fetched_block};

use crate::block_provider::{BlockProvider, Fetched, ForkProvider};
use crate::linked::Linked;
use std::alloc::{AllocError, Global};
use std::mem;

/// What stands under a ticket.
#[derive(Drop)]
pub enum Row<B> {
    /// The parent of this block was asked for.
    Asked(B),
    /// It was asked for, and this is the answer.
    Came(B, Option<B>),
    /// The answer was fetched.
    Done,
}

/// Keeps what it is asked until it is given an answer, and the answer until it is fetched. Its tickets count from
/// zero.
#[derive(Drop)]
pub struct MemProvider<B: Linked> {
    rows: Vec<Row<B>>,
}

impl<B: Linked> MemProvider<B> {
    /// A provider of which nothing was asked.
    pub fn new(alloc: Global) -> Self
        ensures { result.rows.items ≡ [] }
    {
        MemProvider {
            rows: Vec::new(alloc),
        }
    }
}

impl<B: Linked> BlockProvider<B> for MemProvider<B> {
    ghost use Rattle.mar_block.specs.Provided.{asked_at, came_at};

    ghost asked = { λ p. asked_at B.plain p.rows.items };

    ghost came = { λ p. came_at B.plain p.rows.items };

    fn subscribe_parent(&mut self, _alloc: Global, child: &B) -> Result<u64, AllocError> {
        let ticket = self.rows.len() as u64;
        self.rows.push(Row::Asked(child.again()?))?;
        Ok(ticket)
    }

    fn poll_fetch(&mut self, ticket: u64) -> Fetched<B> {
        let index = ticket as usize;
        if self.rows.len() <= index {
            return Fetched::Pending;
        }
        fetch(&mut self.rows[index])
    }

    fn give(&mut self, ticket: u64, block: Option<B>)
        ensures came { (u : ℕ) → came_at B.plain self.new.rows.items u
            ≡ came_after (asked_at B.plain self.old.rows.items) (came_at B.plain self.old.rows.items)
            ticket (option_map B.plain block) u }
        ensures asked { (u : ℕ) → asked_at B.plain self.new.rows.items u ≡ asked_at B.plain self.old.rows.items u }
    {
        let index = ticket as usize;
        if self.rows.len() <= index {
            return;
        }
        answer(&mut self.rows[index], block);
    }
}

impl<B: Linked> ForkProvider<B> for MemProvider<B> {
    fn fork(&mut self, alloc: Global) -> Result<Self, AllocError> {
        Ok(MemProvider::new(alloc))
    }
}

// What came in a row, which is done then.
fn fetch<B: Linked>(row: &mut Row<B>) -> Fetched<B>
    ensures fetched { fetched_block B.plain result ≡ came_by B.plain (Some row.old) }
    ensures pending { fetched_block B.plain result ≡ None → row.new ≡ row.old }
{
    match mem::replace(row, Row::Done) {
        Row::Came(_, block) => Fetched::Came(block),
        other => {
            *row = other;
            Fetched::Pending
        }
    }
}

// Puts an answer into a row that waits for one.
fn answer<B: Linked>(row: &mut Row<B>, block: Option<B>)
    ensures asked { asked_by B.plain (Some row.new) ≡ asked_by B.plain (Some row.old) }
    ensures came { came_by B.plain (Some row.new) ≡ came_in B.plain row.old block }
{
    *row = match mem::replace(row, Row::Done) {
        Row::Asked(child) => Row::Came(child, block),
        other => other,
    };
}
