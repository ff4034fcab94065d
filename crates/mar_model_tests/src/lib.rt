//! Laws over the definitions of scripts and lives, with worked runs of these definitions, and bodies that they refuse.
#![tactic(auto)]

mod laws;

pub use laws::{delivery, hands_over_the_chain, outlives_restarts};
