//! How the stores of a life are opened: what was left is reopened, judged, and the cutoff raised to what it shows.
#![tactic(auto)]

mod derived;
mod open;
mod reopened;

pub use open::open_stores;
