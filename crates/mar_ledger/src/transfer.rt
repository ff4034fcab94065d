//! What a block moves.

/// An amount to be moved between two of sixteen accounts.
#[derive(Clone, Copy, Debug, PartialEq, Eq)]
pub struct Transfer {
    /// The account that gives it, below 16.
    pub from: usize,
    /// The account that gets it, below 16.
    pub to: usize,
    /// How much it is.
    pub amount: u64,
}
