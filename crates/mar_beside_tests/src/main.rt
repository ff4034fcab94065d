//! Worked cases of what stands beside a node, a line of `stdin` each, and what the libraries make of them: a ledger in a
//! store that fails where it is told to (`ledgers`), snapshots of it (`snapshots`), archives of finalized blocks, also cut
//! short and with a bit changed (`archives`), and epochs of varying lengths (`spans`).
//!
//! What stands there in `stdout` was worked out from the formats and rules, and not by this program. Almost no function
//! here has a clause: it is a test.
#![tactic(auto)]

mod archives;
mod compared;
mod ledgers;
mod outcomes;
mod snapshots;
mod spans;
mod words;

use crate::ledgers::Kept;
use std::alloc::{AllocError, Global};
use std::io;

// What a line that needs no ledger is told as.
fn told(alloc: Global, word: &str, text: &str) -> Result<String, AllocError> {
    match word {
        "archive" => archives::told(alloc, text),
        "cuts" => archives::told_cuts(alloc, text),
        "bits" => archives::told_bits(alloc, text),
        "segment" => archives::told_segment(alloc, text),
        "decode" => snapshots::told_decoded(alloc, text),
        "bounds" => spans::told_bounds(alloc, text),
        "placed" => spans::told_placed(alloc, text),
        "closed" => spans::told_closed(alloc, text),
        "books" => compared::told_books(alloc, text),
        "compared" => compared::told(alloc),
        _ => "no case".to_string(alloc),
    }
}

// What a line is told as, and the ledger behind it.
fn step(alloc: Global, kept: Kept, line: &str) -> Result<(Kept, String), AllocError> {
    let (word, text) = line.split_once(' ').unwrap_or((line, ""));
    match word {
        "empty" | "open" | "put" | "fail" | "deliver" | "snap" | "begin" => {
            ledgers::step(alloc, kept, word, text)
        }
        _ => Ok((kept, told(alloc, word, text)?)),
    }
}

fn main(rt: HostRuntime) -> io::Result<()> {
    let alloc = rt.alloc();
    let mut kept = Kept::empty(alloc);
    for line in rt.lines(alloc) {
        let line = line?;
        let (after, text) = step(alloc, kept, line.as_str())?;
        kept = after;
        println!(rt; "{line}: {text}")?;
    }
    Ok(())
}
