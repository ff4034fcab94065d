//! What the large run is made of: the numbers that a seed draws, a lawful chain of blocks made of them, the order in which
//! its heights come, and what is read back of the output.
#![tactic(auto)]

mod chain;
mod draws;
mod made;
mod output;
mod steps;

pub use chain::{chain_is_lawful, finalization, finalizations_hold, made_blocks};
pub use draws::Draws;
pub use made::Made;
pub use output::{Owed, Telling, number, read_text, summary};
pub use steps::{Planned, order_has_each_height, plan};
