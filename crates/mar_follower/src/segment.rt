//! What an archive is made of.

use mar_block::EmptyBlock;
use mar_cert::MockFinalization;
use mar_types::Sha256;

/// A finalization, its block, and the blocks below that, each the parent of the one before.
#[derive(Drop)]
pub struct Segment {
    /// The finalization of the first block.
    pub finalization: MockFinalization,
    /// The first block.
    pub top: EmptyBlock<Sha256>,
    /// The blocks below it.
    pub others: Vec<EmptyBlock<Sha256>>,
}
