//! What became of a block.

/// What became of a block that was delivered.
#[derive(Clone, Copy, Debug, PartialEq, Eq)]
pub enum Applied {
    /// Its transfer moved money.
    Applied,
    /// The account that was to give didn't have the amount. Nothing moved, and it was counted.
    Rejected,
    /// It was entered before. Nothing changed.
    Seen,
}
