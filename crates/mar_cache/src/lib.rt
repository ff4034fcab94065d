//! The cache of what consensus and peers report before it is final.
#![tactic(auto)]

mod bounds;
mod epoch_cache;
mod laws;
mod loads;
mod losses;
mod manager;
mod mem_shelf;
mod prunes;
mod puts;
mod stage;
mod steps;

pub use epoch_cache::EpochCache;
pub use laws::{
    finds_over_all, holds_over_all, leaves_over_all, loads_over_all, prunes_over_all,
    puts_now_over_all, puts_over_all,
};
pub use manager::{Manager, ManagerWreck};
pub use mar_epochs::{CacheEntry, Epochs, EpochsRuin, KeptEntry, KeyedEntry};
pub use mar_model::{
    BlockName, Cache, CacheTicket, Entry, Section, SectionSync, Shelf, ShelfRuin, Sought, Started,
};
pub use mem_shelf::{MemEpochs, empty_shelf};
