//! Why bytes aren't read as a snapshot.

use mar_types::Error;

/// Why bytes aren't read as a snapshot.
#[derive(Clone, Copy, Debug, PartialEq, Eq)]
pub enum DecodeError {
    /// A part of a snapshot isn't spelled there, bytes are left behind it, or memory ran out.
    Part(Error),
    /// The balances don't hold 16,000,000 together.
    Balances,
    /// More transfers were rejected than blocks were entered up to the height.
    Rejected,
}
