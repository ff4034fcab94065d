//! The node as data: what it holds, what each event makes of it, and what its lives are; with the state of its floors and the
//! stream that keeps them, and what a node asks of its cache. The writes that wait for a sync, their gate and what is staged
//! stand below, and are handed on here.
#![tactic(auto)]

mod at_hand;
mod cache;
mod closed;
mod entry;
mod fault;
mod floor;
mod holds;
mod holds_cache;
mod holds_gaps;
mod holds_notarizations;
mod holds_progress;
mod names;
mod open_tickets;
mod place;
mod progress;
mod reads;
mod section;
mod shelf;
mod shown;
mod started;
mod stream;
mod upto;

pub use at_hand::block_at_hand;
pub use cache::{Cache, ShelfRuin};
pub use closed::closed_epoch;
pub use entry::{BlockName, Entry, Sought, sought_block};
pub use fault::{Fault, StoreName, TicketKind};
pub use floor::{FetchAdmission, State};
pub use holds::{Ended, Holds, StoresRuin};
pub use holds_cache::HoldsCache;
pub use holds_gaps::HoldsGaps;
pub use holds_notarizations::HoldsNotarizations;
pub use holds_progress::HoldsProgress;
pub use mar_gate::{DispatchGate, OpenSync, Staged, Writes};
pub use names::is_same;
pub use open_tickets::{OpenTicket, OpenTickets};
pub use place::{Place, parts_of};
pub use progress::Progress;
pub use reads::{newest_certificate, round_at};
pub use section::Section;
pub use shelf::Shelf;
pub use shown::ShownRuins;
pub use started::{CacheTicket, SectionSync, Started};
pub use stream::{Stream, synced_cutoff, synced_height};
pub use upto::last_upto;
