//! The mock scheme, and a provider of it.
ghost use Rattle.std.specs.Prelude.{◌≡◌, ◌<◌, ◌≤◌, ◌^◌, ◌↔◌, ℕ, IfSome, IsTrue, bytes_eq, is_some, length};
ghost use Rattle.std.specs.List.{list_all};
ghost use Rattle.mar_cert.specs.MockScheme.{IsFinalization, Verifies, is_ascending_from, mock_max_size, mock_verifies, quorum, tag_over};
ghost use Rattle.mar_cert.specs.MockViews.{plain_signers};
ghost use Rattle.mar_cert.specs.declared.mock.MockCertificate.{MockCertificate as MockCertificateOf};
ghost use Rattle.mar_cert.specs.Verdicts.{Judges};
ghost use Rattle.mar_cert.specs.Signers.{certificate_bytes};
ghost use Rattle.mar_cert.specs.Views.{certified_of, plain_subject, proposal_of, spelling_of, verdict_of};
ghost use Rattle.mar_cert.specs.Finalization.{Finalization, Subject as PlainSubject, finalize, notarize};
ghost use Rattle.mar_cert.specs.Provided.{is_provided};

use crate::mock::MockCertificate;
use crate::mock_tags::mock_tag;
use crate::scheme::{Provider, Scheme};
use crate::signer::Signer;
use crate::subject::Subject;
use mar_types::{Digest, Epoch};
use std::marker::Model;

// The most members that a committee has.
const MAX_MEMBERS: u32 = 64;

/// The mock scheme of 1 to 64 members. A contract sees their number.
#[derive(Clone, Copy, Debug, PartialEq, Eq)]
pub struct MockScheme {
    members: u32,
}

impl Model for MockScheme {
    ghost use Rattle.std.specs.Prelude.{ℕ, ◌≤◌};

    ghost Value = { ℕ };

    ghost view = { λ s. s.members };

    ghost invariant = { λ s. (1 ≤ s.members) × (s.members ≤ 64) };

    ghost inverse = { λ n. record { members = n } };
}

impl MockScheme {
    /// The scheme of that many members.
    pub fn new(members: u32) -> Self
        requires least { 1 ≤ members }
        requires most { members ≤ 64 }
        ensures { result ≡ members }
    {
        MockScheme { members }
    }

    /// How many members there are.
    pub fn members(self) -> u32
        ensures value { result ≡ self }
        ensures least { 1 ≤ result }
        ensures most { result ≤ 64 }
    {
        self.members
    }

    /// How many of them a certificate takes.
    pub fn quorum(self) -> u32
        ensures { result ≡ quorum self }
    {
        self.members - (self.members - 1) / 3
    }
}

impl Scheme for MockScheme {
    type Certificate = MockCertificate;

    ghost member_count = { λ s. s };

    ghost config = { λ s. s };

    ghost unbounded = { 64 };

    ghost max_size = { mock_max_size };

    ghost verifies = { mock_verifies };

    fn certificate_codec_config(&self) -> u32 {
        self.members
    }

    fn certificate_codec_config_unbounded() -> u32 {
        MAX_MEMBERS
    }

    fn max_certificate_size(members: u32) -> usize {
        1 + 33 * members.min(MAX_MEMBERS) as usize
    }

    fn verify<D: Digest>(&self, subject: &Subject<D>, certificate: &MockCertificate) -> bool
        ensures verdict { result ≡ verdict_of (mock_verifies self.now) D.bytes
            (λ c. certificate_bytes (plain_signers c)) subject.now certificate.now }
        ensures exact { IsTrue result ↔ Verifies self.now (plain_subject subject.now)
            (certified_of D.bytes (λ c. certificate_bytes (plain_signers c))
            (proposal_of subject.now) certificate.now) }
    {
        certificate.signers.len() >= self.quorum() as usize
            && is_ascending(self.members, certificate)
            && is_signed(subject, certificate)
    }
}

/// A finalization or notarization passes the test exactly where the definition says that it verifies, whether it was read or
/// its certificate is held as it is.
pub fn mock_verdicts()
    ensures read { (n m : ℕ) (subject : PlainSubject) (f : Finalization) → n < 2 ^ 64 → m < 2 ^ 64
        → IsFinalization m f → IsTrue (mock_verifies n subject f) ↔ Verifies n subject f }
    ensures held { (n : ℕ) (subject : PlainSubject) (f : Finalization) (c : MockCertificateOf)
        → n < 2 ^ 64 → length c.signers.items < 2 ^ 64 → f.certificate ≡ certificate_bytes (plain_signers c)
        → IsTrue (mock_verifies n subject f) ↔ Verifies n subject f }
{}

// Members strictly ascend and are below so many.
fn is_ascending(members: u32, certificate: &MockCertificate) -> bool
    ensures { result ≡ is_ascending_from members 0 (plain_signers certificate.now) }
{
    let mut low = 0;
    'signers: for signer in &certificate.signers {
        if (signer.member as u64) < low || signer.member >= members {
            return false;
        }
        low = signer.member as u64 + 1;
    }
    true
}

// Each tag is right.
fn is_signed<D: Digest>(subject: &Subject<D>, certificate: &MockCertificate) -> bool
    ensures { result ≡ list_all (λ s. bytes_eq s.tag.bytes (tag_over (plain_subject subject.now)
        (spelling_of D.bytes (proposal_of subject.now)) s.member)) certificate.now.signers.items }
{
    certificate
        .signers
        .iter()
        .all(|signer| is_signed_by_one(subject, signer))
}

// The tag is that of the member.
fn is_signed_by_one<D: Digest>(subject: &Subject<D>, signer: &Signer) -> bool
    ensures { result ≡ bytes_eq signer.now.tag.bytes (tag_over (plain_subject subject.now)
        (spelling_of D.bytes (proposal_of subject.now)) signer.now.member) }
{
    signer.tag == mock_tag(subject, signer.member)
}

/// Gives one scheme for the epochs of a range.
#[derive(Clone, Copy, Debug, PartialEq, Eq)]
pub struct MockProvider {
    scheme: MockScheme,
    first: Epoch,
    last: Epoch,
}

impl Model for MockProvider {
    ghost use Rattle.mar_cert.specs.Provided.{Provided};

    ghost Value = { Provided };

    ghost view = { λ p. record { members = p.scheme; first = p.first; last = p.last } };

    ghost inverse = { λ v. record { scheme = v.members; first = v.first; last = v.last } };
}

impl MockProvider {
    /// Gives the scheme for the epochs from the first to the last.
    pub fn new(scheme: MockScheme, first: Epoch, last: Epoch) -> Self
        ensures { result ≡ record { members = scheme; first = first; last = last } }
    {
        MockProvider {
            scheme,
            first,
            last,
        }
    }
}

impl Provider for MockProvider {
    type Scheme = MockScheme;

    ghost has_scheme = { is_provided };

    ghost verifies = { λ p. mock_verifies p.members finalize };

    ghost verifies_notarization = { λ p. mock_verifies p.members notarize };

    fn scheme(&self, epoch: Epoch) -> Option<MockScheme>
        ensures given { is_some result ≡ is_provided self.now epoch }
        ensures judges { IfSome result (λ s. Judges (mock_verifies s)
            (mock_verifies self.now.members finalize) (mock_verifies self.now.members notarize)
            epoch) }
        ensures scheme { IfSome result (λ s. s ≡ self.now.members) }
    {
        if self.first <= epoch && epoch <= self.last {
            Some(self.scheme)
        } else {
            None
        }
    }
}
