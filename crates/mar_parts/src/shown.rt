//! What a node shows of itself while a life runs.
use crate::acks::PendingAcks;
use mar_key::{Cutoff, Processed};
use mar_model::{OpenTicket, Writes};
use mar_store::RangeSet;

/// What a node shows while a life runs.
#[derive(Drop)]
pub struct Shown<'a> {
    /// The processed height, and whether its block is stored.
    pub processed: Option<Processed>,
    /// The blocks that were handed over and not acknowledged yet, the oldest first.
    pub acks: &'a PendingAcks,
    /// The rounds up to which nothing is fetched any more.
    pub cutoff: Cutoff,
    /// The heights of the blocks that a get finds.
    pub blocks_held: &'a RangeSet,
    /// The heights of the blocks that every crash leaves.
    pub blocks_sure: &'a RangeSet,
    /// The heights of the certificates that a get finds.
    pub certs_held: &'a RangeSet,
    /// The heights of the certificates that every crash leaves.
    pub certs_sure: &'a RangeSet,
    /// The writes that wait for a sync, and the syncs that are open.
    pub writes: &'a Writes,
    /// The open syncs of the cache.
    pub tickets: &'a [OpenTicket],
}
