//! Who judges peers' blocks without content and certificates of the mock scheme.
ghost use Rattle.std.specs.Prelude.{◌≡◌, ◌⊎◌, IfErr, IfOk};
ghost use Rattle.mar_cert.specs.MockScheme.{mock_verifies};
ghost use Rattle.mar_cert.specs.Verdicts.{Judges};
ghost use Rattle.mar_block.specs.Expected.{commitment_of};
ghost use Rattle.mar_judge.specs.Rules.{IsBlockOf, IsNoBlockOf};
ghost use Rattle.mar_judge.specs.MockReading.{mock_claim, plain_mock, plain_mock_notarization, mock_rules};
ghost use Rattle.mar_judge.specs.Views.{subject_of};

use crate::kind::Kind;
use crate::mock_codecs::{read_mock_block, read_mock_certificate};
use crate::seat::Judge;
use mar_block::{EmptyBlock, ExpectedCommitment, StandardBlocks, Variant, WireVariant};
use mar_cert::{
    Certificate, Finalization, MockCertificate, MockFinalization, MockNotarization, MockScheme,
    Notarization, Provider, Scoped, Subject, verify_certificates,
};
use mar_types::{Digested, Epoch, Epocher, Error, Height, Round, Sha256, Sha256Digest};
use std::alloc::{AllocError, Global};

/// Judges blocks that consensus signs by their digest, and certificates of the mock scheme: their codecs with so many
/// members, an epocher, and a provider of schemes.
#[derive(Drop)]
pub struct StandardJudge<P: Provider<Scheme = MockScheme>, E: Epocher> {
    /// How many members a certificate is read with.
    pub members: u32,
    /// Who gives the scheme of an epoch.
    pub provider: P,
    /// Which heights each epoch has.
    pub epocher: E,
}

// The certificate over the subject that it is to be about.
fn claim_of(kind: Kind, read: MockFinalization) -> (Subject<Sha256Digest>, MockCertificate)
    ensures { mock_claim result.0 result.1 ≡ record { subject = subject_of kind; certificate = plain_mock read } }
{
    let proposal = read.proposal;
    match kind {
        Kind::Finalized => (Subject::Finalize { proposal }, read.certificate),
        Kind::Notarized => (Subject::Notarize { proposal }, read.certificate),
    }
}

impl<P: Provider<Scheme = MockScheme>, E: Epocher> Judge for StandardJudge<P, E> {
    type Commitment = Sha256Digest;

    type Block = Digested<EmptyBlock<Sha256>>;

    type Claim = (Subject<Sha256Digest>, MockCertificate);

    type Scope = MockScheme;

    type Finalization = MockFinalization;

    type Notarization = MockNotarization;

    ghost plain = { ⟦<StandardBlocks as Variant>⟧.plain };

    ghost claimed = { λ pair. mock_claim pair.0 pair.1 };

    ghost finalization = { plain_mock };

    ghost notarization = { plain_mock_notarization };

    ghost rules = { λ judge. mock_rules judge.members (E.epochs judge.epocher) (P.has_scheme judge.provider)
        (P.verifies judge.provider) (P.verifies_notarization judge.provider) };

    ghost judges = { λ judge epoch scheme. Judges (mock_verifies scheme) (P.verifies judge.provider)
        (P.verifies_notarization judge.provider) epoch };

    fn epoch_of(&self, height: Height) -> Option<Epoch> {
        match self.epocher.containing(height) {
            Some(info) => Some(info.epoch()),
            None => None,
        }
    }

    fn scope_of(&self, epoch: Epoch) -> Option<MockScheme> {
        self.provider.scheme(epoch)
    }

    fn read_claim(
        &self,
        alloc: Global,
        kind: Kind,
        bytes: &[u8],
    ) -> Result<((Subject<Sha256Digest>, MockCertificate), usize), Error> {
        let (certificate, size) = read_mock_certificate(alloc, self.members, bytes)?;
        Ok((claim_of(kind, certificate), size))
    }

    fn round(claim: &(Subject<Sha256Digest>, MockCertificate)) -> Round {
        claim.0.proposal().round
    }

    fn payload(claim: &(Subject<Sha256Digest>, MockCertificate)) -> Sha256Digest {
        claim.0.proposal().payload
    }

    fn may_sign(
        &self,
        scope: &MockScheme,
        claim: &(Subject<Sha256Digest>, MockCertificate),
    ) -> bool {
        StandardBlocks::check_payload(scope, claim.0.proposal().payload)
    }

    fn read_block(
        &self,
        alloc: Global,
        bytes: &[u8],
        expected: ExpectedCommitment<Sha256Digest>,
    ) -> Result<Digested<EmptyBlock<Sha256>>, Error>
        ensures ok { IfOk result (λ b. IsBlockOf (mock_rules self.now.members (E.epochs self.now.epocher)
            (P.has_scheme self.now.provider) (P.verifies self.now.provider)
            (P.verifies_notarization self.now.provider)) bytes.now (commitment_of expected).bytes
            (⟦<StandardBlocks as Variant>⟧.plain b)) }
        ensures err { IfErr result (λ e. (e ≡ Error.Memory) ⊎ IsNoBlockOf (mock_rules self.now.members
            (E.epochs self.now.epocher) (P.has_scheme self.now.provider) (P.verifies self.now.provider)
            (P.verifies_notarization self.now.provider)) bytes.now (commitment_of expected).bytes) }
    {
        read_mock_block(alloc, bytes, expected)
    }

    fn height(block: &Digested<EmptyBlock<Sha256>>) -> Height {
        StandardBlocks::height(block)
    }

    fn verify(
        &self,
        alloc: Global,
        scope: &MockScheme,
        claims: &[(Subject<Sha256Digest>, MockCertificate)],
    ) -> Result<Vec<bool>, AllocError> {
        verify_certificates(alloc, &Scoped::scheme(*scope), claims)
    }

    fn to_finalization(
        claim: &(Subject<Sha256Digest>, MockCertificate),
    ) -> Result<MockFinalization, AllocError> {
        let certificate = claim.1.try_clone()?;
        Ok(Finalization {
            proposal: claim.0.proposal().copy(),
            certificate,
        })
    }

    fn to_notarization(
        claim: &(Subject<Sha256Digest>, MockCertificate),
    ) -> Result<MockNotarization, AllocError> {
        let certificate = claim.1.try_clone()?;
        Ok(Notarization {
            proposal: claim.0.proposal().copy(),
            certificate,
        })
    }
}
