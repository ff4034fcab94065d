//! Worked cases of how peers' bytes are judged, a line of `stdin` each: deliveries of one batch (`batch`), each front of a
//! value that came for a key (`cuts`), and the value with each of its bits changed (`bits`).
//!
//! A line has the number of members, the first and the last epoch of the provider, and then keys and values; epochs have
//! ten heights. What stands there in `stdout` was worked out from the formats and rules, and not by this program. No
//! function here has a clause: it is a test.
#![tactic(auto)]

mod cases;
mod texts;
mod words;

use crate::words::front;
use std::alloc::{AllocError, Global};
use std::io;

// What a line is told as.
fn told(alloc: Global, line: &str) -> Result<String, AllocError> {
    let (word, text) = front(line);
    match word {
        "batch" => cases::told_batch(alloc, text),
        "cuts" => cases::told_cuts(alloc, text),
        "bits" => cases::told_bits(alloc, text),
        _ => "no case".to_string(alloc),
    }
}

fn main(rt: HostRuntime) -> io::Result<()> {
    let alloc = rt.alloc();
    for line in rt.lines(alloc) {
        let line = line?;
        let text = told(alloc, line.as_str())?;
        println!(rt; "{line}: {text}")?;
    }
    Ok(())
}
