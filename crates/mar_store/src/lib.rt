//! Stores that outlive a crash, by what they hold, what every crash leaves and what a crash can leave.
#![tactic(auto)]

mod alarm;
mod archive;
mod choice;
mod depot;
mod entries;
mod entry;
mod gaps;
mod identifier;
mod item;
mod lost;
mod luck;
mod mem_archive;
mod mem_depot;
mod mem_meta;
mod meta;
mod pile;
mod places;
mod range_set;
mod spans;
mod survey;

pub use alarm::Alarm;
pub use archive::{Archive, ArchiveRuin};
pub use depot::{Depot, DepotRuin, EmptyStore};
pub use entries::Entries;
pub use entry::Entry;
pub use gaps::gap_laws;
pub use identifier::Identifier;
pub use item::{Item, ItemKey, MAX_VALUE_SIZE};
pub use lost::{Lost, Miss};
pub use luck::{LuckHalf, is_lucky};
pub use mar_types::SyncTicket;
pub use mem_archive::{MemArchive, MemArchiveWreck};
pub use mem_depot::{MemDepot, MemDepotWreck};
pub use mem_meta::{MemMeta, MemMetaWreck, greatest_key};
pub use meta::{Meta, MetaRuin};
pub use pile::Pile;
pub use range_set::{HeightSpan, RangeSet};
