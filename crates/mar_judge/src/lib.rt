//! How the bytes of peers are judged: each delivery is read for its key and checked, the certificates of a batch are
//! verified together, an epoch at a time, and each delivery comes to its outcome and what it gives.
#![tactic(auto)]

mod admitting;
mod answer;
mod batch;
mod concluding;
mod group;
mod kind;
mod laws;
mod mock_codecs;
mod place;
mod reading;
mod seat;
mod standard_judge;

pub use answer::{Answer, Verdict};
pub use batch::judge;
pub use kind::Kind;
pub use laws::{produces_complete, standard_judges_as_node};
pub use mock_codecs::{read_mock_block, read_mock_certificate};
pub use seat::Judge;
pub use standard_judge::StandardJudge;
