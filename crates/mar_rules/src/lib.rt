//! The rules of a node that need its stores and its resolver alone: how a finalized block is stored or asked for, how the
//! processed height and the cutoff rise and the cache is pruned, how blocks are kept for callers and with their
//! notarizations, and what may be handed over.
#![tactic(auto)]

mod handing;
mod hinting;
mod keeping;
mod notarizing;
mod pruning;
mod raising;
mod storing;

pub use handing::{let_go, take_ready};
pub use hinting::hint;
pub use keeping::{keep_certified, keep_verified};
pub use notarizing::{keep_notarization, keep_notarized};
pub use raising::{note_round, process};
pub use storing::{is_above, put, put_late, request, start};
