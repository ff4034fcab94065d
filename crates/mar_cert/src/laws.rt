//! How proposals, certificates and what is told of them are compared: laws that callers rest on, each the contract of a
//! function.
ghost use Rattle.std.specs.Prelude.{bytes_eq, ◌≡◌, ◌&&◌, ◌==◌};
ghost use Rattle.std.specs.Cmp.Lexicographic.{pointwise};
ghost use Rattle.mar_types.specs.Equal.{TellsApart};

use crate::finalization::{Finalization, Proposal};
use crate::mock::MockCertificate;
use crate::mock_scheme::{MockProvider, MockScheme};
use crate::notarization::Notarization;
use crate::scheme::Scoped;
use crate::signer::Signer;
use crate::subject::{Activity, Subject};

/// Where payloads and certificates are equal exactly where they are the same, so are proposals, certificates over them,
/// what these are about and what consensus reports.
pub fn certified_compared<D: PartialEq, C: PartialEq>()
    ensures proposals { TellsApart D.eq → TellsApart ⟦<Proposal<D> as PartialEq>⟧.eq }
    ensures finalizations { TellsApart D.eq → TellsApart C.eq → TellsApart ⟦<Finalization<D, C> as PartialEq>⟧.eq }
    ensures notarizations { TellsApart D.eq → TellsApart C.eq → TellsApart ⟦<Notarization<D, C> as PartialEq>⟧.eq }
    ensures subjects { TellsApart D.eq → TellsApart ⟦<Subject<D> as PartialEq>⟧.eq }
    ensures activities { TellsApart D.eq → TellsApart C.eq → TellsApart ⟦<Activity<D, C> as PartialEq>⟧.eq }
{}

/// Two schemes, providers, members' parts or certificates of the mock are equal exactly where all that they hold is.
pub fn mocks_compared<S: PartialEq>()
    ensures schemes { TellsApart ⟦<MockScheme as PartialEq>⟧.eq }
    ensures providers { TellsApart ⟦<MockProvider as PartialEq>⟧.eq }
    ensures scoped { TellsApart S.eq → TellsApart ⟦<Scoped<S> as PartialEq>⟧.eq }
    ensures signers { (a b : Signer) → ⟦<Signer as PartialEq>⟧.eq a b ≡ (a.member == b.member && bytes_eq a.tag.bytes b.tag.bytes) }
    ensures certificates { (a b : MockCertificate) → ⟦<MockCertificate as PartialEq>⟧.eq a b
        ≡ pointwise ⟦<Signer as PartialEq>⟧.eq a.signers.items b.signers.items }
{}
