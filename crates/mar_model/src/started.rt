//! Syncs of a cache that were started.
ghost use Rattle.std.specs.Prelude.{◌≡◌, Some};

use crate::section::Section;

/// A sync of one archive that was started: it covers what that archive held then.
#[derive(Clone, Copy)]
pub struct SectionSync {
    pub section: Section,
    pub number: u64,
}

/// A sync of one archive of an epoch that was started, or of two.
#[derive(Clone, Copy)]
pub struct CacheTicket {
    pub epoch: u64,
    pub first: SectionSync,
    pub second: Option<SectionSync>,
}

/// What a call that starts a sync answers.
#[derive(Clone, Copy)]
pub enum Started {
    /// There is nothing to wait for: the cache doesn't keep that epoch.
    Ready,
    /// The sync that `finish` finishes.
    Ticket(CacheTicket),
}

impl CacheTicket {
    /// The syncs of two archives of one epoch as one. Both are of one archive each.
    pub const fn join(self, other: CacheTicket) -> CacheTicket
        ensures epoch { result.epoch ≡ self.epoch }
        ensures first { result.first ≡ self.first }
        ensures second { result.second ≡ Some other.first }
    {
        CacheTicket {
            epoch: self.epoch,
            first: self.first,
            second: Some(other.first),
        }
    }
}
