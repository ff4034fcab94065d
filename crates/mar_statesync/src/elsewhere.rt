//! Where a ledger stands of which no snapshot is taken.

use mar_types::Height;

/// The ledger doesn't stand right below the block: this is its height, if it has entered any.
#[derive(Clone, Copy, Debug, PartialEq, Eq)]
pub struct Elsewhere(pub Option<Height>);
