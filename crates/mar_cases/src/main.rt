//! Worked cases, a line of `stdin` each, and what the libraries make of them: bytes of a type, by its name and the bytes in
//! hexadecimal; the first steps of the script of a seed (`plan`); what the bytes of a journal open as (`open`), and in how
//! many reads (`reads`).
//!
//! The other lines are scripts of stores that are journals, over a disk in memory, each of whose first calls that write, sync
//! or read fails once, by several lucks; the store is then opened again. Where a script ends with `each`, what is held is
//! compared with what was held before the sync that failed and with what that sync was to make durable. Where it ends with
//! `table` or `metadata`, all is shown: what stands there in `stdout` was written from the format, and not by this program.
//! `records` puts many records, so that what they take can be measured.
//!
//! Almost no function here has a clause: it is a test.
#![tactic(auto)]

mod answers;
mod archive;
mod blocks;
mod certificates;
mod codec;
mod counts;
mod disk_call;
mod keys;
mod marks;
mod mem_disk;
mod metadata;
mod openings;
mod plans;
mod play;
mod records;
mod script;
mod shown_archive;
mod shown_metadata;
mod store;
mod table;
mod text;
mod types;
mod values;

use crate::archive::{Marks, OnDisk};
use crate::counts::counts;
use crate::metadata::MetaOnDisk;
use crate::script::{Line, Step, line_of};
use crate::table::Shown;
use std::alloc::{AllocError, Global};
use std::io;

// What is kept of the writes since the last sync, and the word for it.
const LUCKS: [(u64, &'static str); 2] = [(0, "nothing"), (u64::MAX, "all")];

fn tell_counts<S: Marks>(rt: HostRuntime, steps: &[Step], calls: u64) -> io::Result<()> {
    for call in 1..=calls {
        let (before, after) = counts::<S>(rt.alloc(), steps, call)?;
        println!(rt; "{call}: {before} before, {after} after")?;
    }
    Ok(())
}

fn tell_table<S: Shown>(rt: HostRuntime, steps: &[Step], calls: u64) -> io::Result<()> {
    for call in 1..=calls {
        for (luck, kept) in LUCKS {
            let text = table::row::<S>(rt.alloc(), steps, call, luck)?;
            println!(rt; "{call}, {kept} kept: {text}")?;
        }
    }
    Ok(())
}

// What is told of a line that is a case of its own.
fn told<A: Marks>(alloc: Global, line: &str) -> Result<String, AllocError> {
    match line.split_once(' ') {
        Some(("plan", text)) => plans::told(alloc, text),
        Some(("open", text)) => openings::told::<A>(alloc, text),
        Some(("reads", text)) => openings::told_reads::<A>(alloc, text),
        Some(("records", text)) => records::told::<A>(alloc, text),
        Some((name, text)) => values::told(alloc, name, text),
        None => "no case".to_string(alloc),
    }
}

// Only the call of this function names the stores, since what a bound asks for is proved anew wherever it is met at a type
// with parameters.
fn run<A: Marks + Shown, M: Shown>(rt: HostRuntime) -> io::Result<()> {
    let mut steps = Vec::new(rt.alloc());
    for line in rt.lines(rt.alloc()) {
        let line = line?;
        match line_of(line.as_str()) {
            Some(Line::Step(step)) => steps.push(step)?,
            Some(Line::Each(calls)) => {
                tell_counts::<A>(rt, &steps, calls)?;
                steps.clear();
            }
            Some(Line::Table(calls)) => {
                tell_table::<A>(rt, &steps, calls)?;
                steps.clear();
            }
            Some(Line::Metadata(calls)) => tell_table::<M>(rt, &[], calls)?,
            None => {
                let text = told::<A>(rt.alloc(), line.as_str())?;
                println!(rt; "{line}: {text}")?;
            }
        }
    }
    Ok(())
}

fn main(rt: HostRuntime) -> io::Result<()> {
    run::<OnDisk, MetaOnDisk>(rt)
}
