//! Stores of finalized blocks and of their certificates, and the four stores of a life.
#![tactic(auto)]

mod blocks;
mod blocks_in_place;
mod cache_in_place;
mod cache_syncs;
mod cached_finalizations;
mod certificates;
mod certificates_in_place;
mod in_place;
mod item;
mod keeps;
mod life_cache;
mod opening;
mod ruins;
mod stores;
mod stores_gaps;
mod syncs;

pub use blocks::Blocks;
pub use cache_in_place::CacheInPlace;
pub use certificates::Certificates;
pub use item::{BlockItem, CertificateItem};
pub use keeps::Keeps;
pub use life_cache::{LifeCache, LifeNotarizations};
pub use ruins::Ruins;
pub use stores::Stores;
