//! Stores of finalized blocks and of their certificates over archives.
#![tactic(auto)]

mod archive;
mod archive_blocks;
mod archive_certificates;
mod archive_keeps;
pub mod immutable;
pub mod prunable;

pub use archive::{Archived, Immutable, Prunable, Pruning};
