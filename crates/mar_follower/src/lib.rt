//! A follower without a node: archives of finalized blocks, and their check.
#![tactic(auto)]

mod check_end;
mod checking;
mod judging;
mod laws;
mod lowest;
mod passed;
mod reading;
mod report;
mod segment;
mod why;

pub use check_end::CheckEnd;
pub use checking::check;
pub use laws::archives_are_the_chains;
pub use passed::Passed;
pub use reading::{read, write};
pub use report::Report;
pub use segment::Segment;
pub use why::Why;
