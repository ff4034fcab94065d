//! A replicated ledger of sixteen accounts on the blocks that a node hands over.
#![tactic(auto)]

mod applied;
mod books;
mod ends;
mod entry;
mod laws;
mod ledger;
mod place;
mod reading;
mod transfer;
mod writing;

pub use applied::Applied;
pub use books::{ACCOUNTS, ALL_MONEY, Books};
pub use ends::{LedgerEnd, OpenEnd};
pub use entry::Entry;
pub use laws::{entries_of_blocks, ledgers_stay_true};
pub use ledger::Ledger;
pub use transfer::Transfer;
