//! Journals on a disk: their records, the bytes of their files, and how one is opened and added to.
#![tactic(auto)]

mod archive_record;
mod disk;
mod file;
mod journal;
mod journal_item;
mod laws;
mod meta_record;
mod numbers;
mod record;

pub use archive_record::ArchiveRecord;
pub use disk::Disk;
pub use file::{MAX_BATCH, Scan};
pub use journal::{Opened, Unopened, append, open, write_all};
pub use journal_item::JournalItem;
pub use laws::{files_have_one_meaning, versions_have_one_meaning};
pub use meta_record::MetaRecord;
pub use record::Record;
