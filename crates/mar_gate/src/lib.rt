//! What keeps a block back from being handed over: the writes that wait for a sync with the gate that they hold shut, and the
//! blocks that wait for their turn.
#![tactic(auto)]

mod gate;
mod staged;
mod writes;

pub use gate::DispatchGate;
pub use staged::Staged;
pub use writes::{OpenSync, Writes};
