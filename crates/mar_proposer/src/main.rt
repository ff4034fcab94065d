//! A proposer that checks a rule of its own before it builds on a block: of that block and the nine before it, each was
//! made after its parent, and at most five seconds later.
//!
//! It has that block alone. So it walks the block's ancestry: `walk` takes from a stream what is there, `gather` has
//! peers answer what the stream asked for, which isn't there at first, `rule` judges the times, and `chain` makes the
//! blocks.
//! `walk` and `gather` promise that what they gathered is a line of direct parents, whatever peers answer.
#![tactic(auto)]

mod chain;
mod gather;
mod rule;
mod walk;

use crate::chain::{Block, chain, times};
use crate::gather::gather;
use crate::rule::are_timely;
use mar_block::{AncestorStream, MemProvider};
use std::alloc::{AllocError, Global};
use std::io;

// How many blocks the rule is about.
const LAST: usize = 10;

// The times of thirteen blocks, oldest first.
const STEADY: [u64; 13] = [
    0, 900, 1_800, 3_000, 4_100, 5_000, 6_200, 7_000, 8_100, 9_000, 10_300, 11_000, 12_000,
];

// The eighth is made six seconds after its parent.
const LATE: [u64; 13] = [
    0, 900, 1_800, 3_000, 4_100, 5_000, 6_200, 12_200, 13_000, 14_000, 15_300, 16_000, 17_000,
];

/// What the proposer found.
#[derive(Clone, Copy)]
enum Finding {
    Builds,
    Refuses,
    /// There are too few ancestors to tell.
    CantTell,
}

/// What the proposer found, and what it took.
#[derive(Clone, Copy)]
struct Report {
    waits: u64,
    walked: usize,
    finding: Finding,
}

// Judges the newest of these blocks, where peers have the older ones but for the first so many.
fn judge(alloc: Global, made_at: &[u64], gone: usize) -> Result<Report, AllocError> {
    let mut blocks = chain(alloc, made_at)?;
    let mut start = Vec::new(alloc);
    if let Some(newest) = blocks.pop() {
        start.push(newest)?;
    }
    let Ok(mut stream) = AncestorStream::new(MemProvider::new(alloc), start) else {
        return Err(AllocError);
    };
    let mut line: Vec<Block> = Vec::new(alloc);
    let peers = blocks.get(gone..).unwrap_or_default();
    let walk = gather(alloc, &mut stream, &mut line, LAST, peers)?;
    let times = times(alloc, line.as_slice())?;
    let finding = if !walk.is_whole {
        Finding::CantTell
    } else if are_timely(times.as_slice()) {
        Finding::Builds
    } else {
        Finding::Refuses
    };
    Ok(Report {
        waits: walk.waits,
        walked: line.len(),
        finding,
    })
}

// Tells what came of a chain.
fn tell(rt: HostRuntime, name: &str, made_at: &[u64], gone: usize) -> io::Result<()> {
    let alloc = rt.alloc();
    let Ok(report) = judge(alloc, made_at, gone) else {
        return println!(rt; "{name}: out of memory");
    };
    let finding = match report.finding {
        Finding::Builds => "builds on it",
        Finding::Refuses => "refuses it",
        Finding::CantTell => "can't tell",
    };
    println!(rt;
        "{name}: waited {} times, walked {} blocks, {finding}",
        report.waits, report.walked
    )
}

fn main(rt: HostRuntime) -> io::Result<()> {
    tell(rt, "a steady chain", &STEADY, 0)?;
    tell(rt, "a late block", &LATE, 0)?;
    tell(rt, "peers without the oldest nine", &STEADY, 9)
}
