//! Schemes of certificates, and who gives them.
ghost use Rattle.std.specs.Prelude.{◌≡◌, ◌≤◌, ℕ, List, Bool, IfOk, IfSome, is_some, length, map};
ghost use Rattle.mar_cert.specs.Finalization.{Finalization, Notarization, Subject as PlainSubject};
ghost use Rattle.mar_cert.specs.Verdicts.{Judges};
ghost use Rattle.mar_cert.specs.Views.{verdict_of};

use crate::subject::Subject;
use mar_types::{Digest, EncodeSize, Epoch, Read};
use std::alloc::{AllocError, Global};
use std::marker::Model;

/// What a scheme's signers leave.
pub trait Certificate: Read<Cfg: Drop> + EncodeSize {
    /// The bytes that spell it.
    ghost bytes: { Self → List ℕ };

    fn try_clone(&self) -> Result<Self, AllocError>
    where
        Self: Sized,
        ensures { IfOk result (λ c. bytes c ≡ bytes self.now) };

    ghost spelled: { (certificate : Self) → Self.encoded certificate ≡ bytes certificate };
}

/// How certificates are read and verified.
pub trait Scheme: Copy + Drop {
    type Certificate: Certificate;

    /// How many members there are.
    ghost member_count: { Self → ℕ };

    /// What the reader of its certificates is told, and what that of any committee's is.
    ghost config: { Self → Self.Certificate.Cfg };

    ghost unbounded: { Self.Certificate.Cfg };

    /// The most bytes that a certificate of so many members takes.
    ghost max_size: { ℕ → ℕ };

    /// Whether a certificate over a proposal verifies.
    ghost verifies: { Self → PlainSubject → Finalization → Bool };

    /// What the reader of its certificates is told. What it reads the unbounded reader reads too.
    fn certificate_codec_config(&self) -> <Self::Certificate as Read>::Cfg
        ensures config { result ≡ config self.now }
        ensures wider { (bytes : List ℕ) → Self.Certificate.in_grammar (config self.now) bytes
            → Self.Certificate.in_grammar unbounded bytes }
        ensures within { (n : ℕ) (bytes : List ℕ) → member_count self.now ≤ n
            → Self.Certificate.in_grammar (config self.now) bytes → length bytes ≤ max_size n };

    /// What the reader of any committee's certificates is told.
    fn certificate_codec_config_unbounded() -> <Self::Certificate as Read>::Cfg
        ensures { result ≡ unbounded };

    /// The most bytes that a certificate of so many members takes.
    fn max_certificate_size(members: u32) -> usize
        ensures { result ≡ max_size members };

    /// Whether the certificate is one over this subject.
    fn verify<D: Digest>(&self, subject: &Subject<D>, certificate: &Self::Certificate) -> bool
        ensures verdict { result ≡ verdict_of (verifies self.now) D.bytes Self.Certificate.bytes
            subject.now certificate.now };
}

/// A copy of a scheme, to verify with. A contract sees the scheme.
#[derive(Clone, Copy, Debug, PartialEq, Eq)]
pub struct Scoped<S> {
    scheme: S,
}

impl<S> Model for Scoped<S> {
    ghost Value = { S };

    ghost view = { λ s. s.scheme };

    ghost inverse = { λ scheme. record { scheme = scheme } };
}

impl<S: Scheme> Scoped<S> {
    /// Verifies with this scheme.
    pub fn scheme(scheme: S) -> Self
        ensures { result ≡ scheme }
    {
        Scoped { scheme }
    }

    /// What the reader of the scheme's certificates is told.
    pub fn certificate_codec_config(&self) -> <S::Certificate as Read>::Cfg
        ensures { result ≡ S.config self.now }
    {
        self.scheme.certificate_codec_config()
    }

    /// Whether the certificate is one over this subject.
    pub fn verify<D: Digest>(&self, subject: &Subject<D>, certificate: &S::Certificate) -> bool
        ensures { result ≡ verdict_of (S.verifies self.now) D.bytes S.Certificate.bytes subject.now
            certificate.now }
    {
        self.scheme.verify(subject, certificate)
    }
}

/// Verifies each certificate over its subject.
pub fn verify_certificates<S: Scheme, D: Digest>(
    alloc: Global,
    scoped: &Scoped<S>,
    certificates: &[(Subject<D>, S::Certificate)],
) -> Result<Vec<bool>, AllocError>
    ensures { IfOk result (λ verdicts. verdicts.items ≡ map (λ pair. verdict_of
        (S.verifies scoped.now) D.bytes S.Certificate.bytes pair.0 pair.1) certificates.now) }
{
    certificates
        .iter()
        .map(|pair| scoped.verify(&pair.0, &pair.1))
        .collect(alloc)
}

/// Who gives the scheme of an epoch.
pub trait Provider: Drop {
    type Scheme: Scheme;

    /// The epochs that have a scheme.
    ghost has_scheme: { Self → ℕ → Bool };

    /// The finalizations whose certificate verifies, and the notarizations.
    ghost verifies: { Self → Finalization → Bool };

    ghost verifies_notarization: { Self → Notarization → Bool };

    /// The scheme of an epoch, which judges the certificates of that epoch.
    fn scheme(&self, epoch: Epoch) -> Option<Self::Scheme>
        ensures given { is_some result ≡ has_scheme self.now epoch }
        ensures judges { IfSome result (λ s. Judges (Self.Scheme.verifies s) (verifies self.now)
            (verifies_notarization self.now) epoch) };

    /// The same, to verify with.
    fn scoped(&self, epoch: Epoch) -> Option<Scoped<Self::Scheme>>
        ensures given { is_some result ≡ has_scheme self.now epoch }
        ensures judges { IfSome result (λ s. Judges (Self.Scheme.verifies s) (verifies self.now)
            (verifies_notarization self.now) epoch) }
    {
        match self.scheme(epoch) {
            Some(scheme) => Some(Scoped::scheme(scheme)),
            None => None,
        }
    }
}
