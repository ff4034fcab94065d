//! Stores, an application and a resolver for tests.
#![tactic(auto)]

mod application;
mod peers;
mod recording;
mod resolver;

pub use application::Application;
pub use peers::Peers;
pub use recording::{Op, Recording, RecordingWreck};
pub use resolver::Resolver;
