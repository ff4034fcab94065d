//! Scripts of events, replayed over the stores of a node: from any source to any sink, over any stores that keep their
//! contracts.
//!
//! # What a user calls
//!
//! - `run` does what the words of a command line ask for: `replay` does the script that it reads, `gen SEED N` one that it
//!   makes and reads nothing. It names the four stores of a life, as a caller has them.
//! - `replay` does a script over the stores of a life of any make (`HoldsNotarizations` of mar_model; `ScriptStores` is one
//!   that has four stores).
//!
//! Both are given a source (`Source`), a sink (`Sink`) and what is left of stores: of stores that hold nothing, or of those
//! that an earlier run handed back. Both answer a `Finished`: the `Status` in which the run ended, and what is left now.
//!
//! # What is promised
//!
//! - **The headline.** Where what the script reports lies on one lawful chain, what is written is the text of a run of lives
//!   of a node: each block that is handed over is the chain's at its height and durable, whatever fails and wherever the
//!   script crashes, and what is handed back is good for the next run. Where memory runs out or the sink fails, what is
//!   written is a front of that text. The large run is the replay of the script that it makes.
//! - **Line after line.** A line is done, and its text written, before the next one is taken. Where no next one is at hand
//!   the sink is flushed, so that each line is answered before more is read.
//! - **An end says why.** `Script(line, why)` names the first line that is refused, and the lines before it were done.
//!   `ReadFault` and `WriteFault` come only where the source or the sink failed in this call, and no call of either is tried
//!   again. `Usage` comes exactly where the words ask for nothing, and then nothing is read, written or changed.
//!
//! # Sources and sinks
//!
//! mar_script has two of each. `Bytes` and `Written` are in memory and tell their bytes, so that what is promised of bytes
//! is said of them. `Input` and `Output` stand over a reader and a writer, of which nothing is told but their faults. A sink
//! may hold back the last of what was written, as `Output` does: flush it when a run has ended.
#![tactic(auto)]

mod command;
mod generate;
mod heard;
mod play;
mod replays;
mod runs;
mod turn;

pub use command::{Command, are_only};
pub use mar_script::{Sink, Source, Status, Why};
pub use replays::{Finished, replay};
pub use runs::{ScriptRuins, ScriptStores, run};
