//! The epochs of a cache, and the archives that it keeps of each.
#![tactic(auto)]

mod as_entry;
mod change;
mod depot_epochs;
mod entry;
mod entry_key;
mod entry_log;
mod epoch_archives;
mod epochs;
mod index;
mod keys;
mod logged_entry;
mod losses;
mod mem_epoch_archives;
mod slot;
mod slots;

pub use as_entry::{AsEntry, KeyedEntry, copied};
pub use change::Change;
pub use depot_epochs::{DepotEpochs, DepotEpochsWreck};
pub use entry::{CacheEntry, KeptEntry};
pub use entry_key::EntryKey;
pub use epoch_archives::{EpochArchives, EpochArchivesDepot, EpochArchivesRuin};
pub use epochs::{Epochs, EpochsRuin};
pub use keys::Keys;
pub use losses::{lost_by, parts_of};
pub use mar_model::{BlockName, Entry, Section, Sought, sought_block};
pub use mem_epoch_archives::{MemEpochArchives, MemEpochArchivesWreck};
