//! The parts of the actor: acknowledgements, and what is certified or waited for. What is staged, the gate before dispatch,
//! the state of the floors and the stream that keeps them stand below, and are handed on here.
#![tactic(auto)]

mod acks;
mod certified;
mod laws;
mod shown;
mod subscriptions;
mod waiters;

pub use acks::{Mark, Oldest, PendingAck, PendingAcks};
pub use certified::Certified;
pub use laws::{acks_compared, waits_compared};
pub use mar_model::{
    DispatchGate, FetchAdmission, Staged, State, Stream, closed_epoch, synced_cutoff, synced_height,
};
pub use shown::Shown;
pub use subscriptions::{Key, Served, Subscriptions};
