//! Snapshots of a ledger, by which another one begins where this one stands.
#![tactic(auto)]

mod decode_error;
mod elsewhere;
mod laws;
mod reading;
mod snapshot;
mod taking;
mod writing;

pub use decode_error::DecodeError;
pub use elsewhere::Elsewhere;
pub use laws::snapshots_are_spelled_once;
pub use reading::decode;
pub use snapshot::Snapshot;
pub use taking::take;
pub use writing::{encode, write};
