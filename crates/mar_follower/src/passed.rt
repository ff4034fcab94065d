//! A segment that passed.

use mar_types::{Height, Round};

/// A segment that passed.
#[derive(Clone, Copy, Debug, PartialEq, Eq)]
pub struct Passed {
    /// The height of its first block.
    pub top: Height,
    /// The height of its last block.
    pub lowest: Height,
    /// The round that finalized the first block.
    pub round: Round,
}
