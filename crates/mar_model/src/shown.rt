//! What is shown of stores where no life runs.
use mar_key::Cutoff;
use mar_store::RangeSet;
use mar_types::Height;

/// What is shown of stores where no life runs.
#[derive(Drop)]
pub struct ShownRuins<'a> {
    /// The processed height.
    pub processed: Option<Height>,
    /// The rounds up to which nothing was fetched any more.
    pub cutoff: Cutoff,
    /// The heights of the blocks that every crash leaves.
    pub blocks_sure: &'a RangeSet,
    /// The heights of all blocks that a crash can leave.
    pub blocks_may: &'a RangeSet,
    /// The heights of the certificates that every crash leaves.
    pub certs_sure: &'a RangeSet,
    /// The heights of all certificates that a crash can leave.
    pub certs_may: &'a RangeSet,
}
