//! A replicated service over marshal: a ledger of sixteen accounts on the finalized blocks. It outlives a crash: what was
//! handed over and not acknowledged is handed over again, and the ledger passes over what it has.
//!
//! `chain` makes what peers and consensus would bring, `service` is the application, `life` opens a node and the ledger over
//! what an earlier life left and gives the node events, `lives` says which, and `stores` puts the stores together. Here one
//! life ends by a crash, and another goes on from there.
#![tactic(auto)]

ghost use Rattle.mar_store.specs.Sizes.{IsSmall};

mod chain;
mod closed;
mod life;
mod lives;
mod service;
mod stores;

use crate::chain::{Block, block, finalization, genesis};
use crate::life::Around;
use crate::lives::{Outcome, Told};
use crate::service::Lived;
use crate::stores::lived_in_memory;
use mar_block::{MemBuffer, StandardBlocks, Variant};
use mar_cert::MockFinalization;
use std::alloc::Global;
use std::io;

// Where these blocks are at hand, though no one knows yet that they are finalized.
fn around(
    alloc: Global,
    first: Block,
    second: Block,
    third: Block,
) -> Option<Around<MockFinalization>>
    requires first { IsSmall (⟦<StandardBlocks as Variant>⟧.plain first).encoded }
    requires second { IsSmall (⟦<StandardBlocks as Variant>⟧.plain second).encoded }
    requires third { IsSmall (⟦<StandardBlocks as Variant>⟧.plain third).encoded }
{
    let mut buffer = MemBuffer::new(alloc);
    buffer.put(first).ok()?;
    buffer.put(second).ok()?;
    buffer.put(third).ok()?;
    Some(Around::new(alloc, buffer))
}

// A timestamp that moves money between two of the ledger's accounts.
fn moving(amount: u64, from: u64, to: u64) -> u64 {
    amount % 1_000_000 * 256 + to % 16 * 16 + from % 16
}

// Three blocks over the genesis and their finalizations. What the third one would move its account hasn't.
fn chain_of_three(alloc: Global) -> Option<Told<MockFinalization>> {
    let zero = genesis(alloc)?;
    let one = block(alloc, zero.digest(), 1, moving(250_000, 1, 2))?;
    let two = block(alloc, one.digest(), 2, moving(900_000, 2, 3))?;
    let three = block(alloc, two.digest(), 3, moving(400_000, 2, 1))?;
    Some(Told {
        first: finalization(alloc, 1, one.digest())?,
        second: finalization(alloc, 2, two.digest())?,
        third: finalization(alloc, 3, three.digest())?,
        around: around(alloc, one, two, three)?,
    })
}

// A life: where its ledger was opened, a line for each block that was handed over, and the ledger in the end.
fn tell_life(rt: HostRuntime, lived: &Lived) -> io::Result<()> {
    match lived.found {
        Some(height) => println!(rt; "opened, the ledger at height {height}")?,
        None => println!(rt; "opened, the ledger before any block")?,
    }
    for block in &lived.entered {
        println!(rt;
            "block {} under ticket {}: {:?}",
            block.height,
            block.acknowledgement.ticket(),
            block.how
        )?;
    }
    println!(rt;
        "balances {:?}, rejected {}",
        lived.balances, lived.rejected
    )
}

// Both lives.
fn tell(rt: HostRuntime, outcome: &Outcome) -> io::Result<()> {
    tell_life(rt, &outcome.first)?;
    println!(rt;
        "crashed with a durable block that is owed: {}",
        outcome.is_owed
    )?;
    tell_life(rt, &outcome.second)?;
    match outcome.newest {
        Some(height) => println!(rt; "the newest finalized height is {height}"),
        None => println!(rt; "no block is finalized"),
    }
}

fn main(rt: HostRuntime) -> io::Result<()> {
    let alloc = rt.alloc();
    let Some(told) = chain_of_three(alloc) else {
        return println!(rt; "memory ran out");
    };
    match lived_in_memory(alloc, told) {
        Ok(outcome) => tell(rt, &outcome),
        Err(why) => println!(rt; "a life ended: {why:?}"),
    }
}
