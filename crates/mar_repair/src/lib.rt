//! How a node fills gaps: the block of its newest certificate is stored where it is at hand, then the parents that held blocks
//! name, the lowest gap first, and what is still missing is asked for.
#![tactic(auto)]

mod asking;
mod filling;
mod newest;
mod pass;
mod tips;
mod walking;
mod wanted;

pub use pass::repair;
pub use tips::Tips;
