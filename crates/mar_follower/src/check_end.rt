//! How a check of an archive ends where it doesn't accept it.

use crate::report::Report;
use crate::why::Why;

/// Why an archive isn't accepted.
#[derive(Drop)]
pub enum CheckEnd {
    /// These segments passed, and the next one is refused.
    Refused(Report, Why),
    /// Memory ran out.
    Memory,
}
