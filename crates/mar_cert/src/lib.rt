//! Proposals, certificates over them, and who verifies these.
#![tactic(auto)]

mod finalization;
mod finds;
mod laws;
mod mock;
mod mock_scheme;
mod mock_tags;
mod notarization;
mod scheme;
mod signer;
mod subject;
mod variant;

pub use finalization::{AsFinalization, CommitsTo, Finalization, Proposal};
pub use finds::Finds;
pub use laws::{certified_compared, mocks_compared};
pub use mock::{MockCertificate, MockFinalization, MockNotarization, mock_finalizations};
pub use mock_scheme::{MockProvider, MockScheme, mock_verdicts};
pub use mock_tags::mock_tag;
pub use notarization::Notarization;
pub use scheme::{Certificate, Provider, Scheme, Scoped, verify_certificates};
pub use signer::Signer;
pub use subject::{Activity, Subject};
pub use variant::Variant;
