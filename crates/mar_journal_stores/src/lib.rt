//! Stores that outlive the process, kept in journals on a disk.
#![tactic(auto)]

mod archive_calls;
mod archive_drafts;
mod archive_opening;
mod aside;
mod journal_archive;
mod journal_meta;
mod laws;
mod log;
mod meta_map;
mod told;

pub use journal_archive::{JournalArchive, JournalArchiveWreck};
pub use journal_meta::{JournalMeta, JournalMetaWreck};
pub use laws::{
    archive_moments_add_up, metadata_moments_add_up, tickets_let_go_what_was_pruned_before,
    tickets_write_what_came_before,
};
