//! Walking a stream of ancestors.
ghost use Rattle.std.specs.Prelude.{IfOk, OnErr, None, length, map, ◌+◌, ◌≡◌, ◌≤◌};
ghost use Rattle.mar_proposer.specs.Rules.{AreWalked};

use mar_block::{Ancestry, Linked, Polled};
use std::alloc::{AllocError, Global};

/// Why a walk stopped.
#[derive(Clone, Copy)]
pub enum Stop {
    /// There are as many blocks as were wanted.
    Enough,
    /// The next block isn't there yet.
    Waits,
    /// No block comes any more.
    Ended,
}

/// Adds the blocks that a stream yields to those that it yielded before, until there are so many, or none is there.
pub fn walk<B: Linked, A: Ancestry<B>>(
    alloc: Global,
    stream: &mut A,
    line: &mut Vec<B>,
    most: usize,
) -> Result<Stop, AllocError>
    requires { AreWalked (map B.plain line.old.items) (A.wants stream.old) }
    ensures { AreWalked (map B.plain line.new.items) (A.wants stream.new) }
{
    while line.len() < most {
        if let Some(stop) = step(alloc, stream, line)? {
            return Ok(stop);
        }
    }
    Ok(Stop::Enough)
}

// Adds the next block, or says why there is none.
fn step<B: Linked, A: Ancestry<B>>(
    alloc: Global,
    stream: &mut A,
    line: &mut Vec<B>,
) -> Result<Option<Stop>, AllocError>
    requires { AreWalked (map B.plain line.old.items) (A.wants stream.old) }
    ensures walked { AreWalked (map B.plain line.new.items) (A.wants stream.new) }
    ensures longer { IfOk result (λ stop. stop ≡ None → length line.new.items ≡ length line.old.items + 1) }
{
    line.reserve(1)?;
    match stream.poll(alloc)? {
        Polled::Block(block) => {
            line.push_reserved(block);
            Ok(None)
        }
        Polled::Pending => Ok(Some(Stop::Waits)),
        Polled::NotContiguous | Polled::End => Ok(Some(Stop::Ended)),
    }
}
