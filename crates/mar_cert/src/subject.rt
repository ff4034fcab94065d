//! What certificates are about, and what consensus reports.
ghost use Rattle.std.specs.Prelude.{◌≡◌};
ghost use Rattle.mar_cert.specs.Views.{proposal_of};

use crate::finalization::{Finalization, Proposal};
use crate::notarization::Notarization;

/// What a certificate is about.
#[derive(Debug, PartialEq, Eq, Drop)]
pub enum Subject<D> {
    /// The proposal is notarized.
    Notarize { proposal: Proposal<D> },
    /// The proposal is final.
    Finalize { proposal: Proposal<D> },
}

impl<D> Subject<D> {
    /// The proposal.
    pub fn proposal(&self) -> &Proposal<D>
        ensures { result.now ≡ proposal_of self.now }
    {
        match self {
            Subject::Notarize { proposal } | Subject::Finalize { proposal } => proposal,
        }
    }
}

/// What consensus reports.
#[derive(Debug, PartialEq, Eq, Drop)]
pub enum Activity<D, C> {
    /// A proposal was notarized.
    Notarization(Notarization<D, C>),
    /// The application certified a notarized proposal.
    Certification(Notarization<D, C>),
    /// A proposal is final.
    Finalization(Finalization<D, C>),
    /// Anything else.
    Other,
}
