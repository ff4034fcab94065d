//! Who reads and verifies what peers send.
ghost use Rattle.std.specs.Prelude.{◌≡◌, ◌↔◌, ◌⊎◌, ℕ, IfErr, IfOk, IfSome, IsTrue, is_some, map};
ghost use Rattle.mar_types.specs.Epochs.{containing};
ghost use Rattle.mar_cert.specs.Block.{Block as PlainBlock};
ghost use Rattle.mar_cert.specs.Finalization.{Finalization as PlainFinalization};
ghost use Rattle.mar_block.specs.Expected.{commitment_of};
ghost use Rattle.mar_judge.specs.Groups.{AreOfEpoch};
ghost use Rattle.mar_judge.specs.Rules.{Claim, HasNoCertificate, IsBlockOf, IsNoBlockOf, IsReadFrom, Rules, verdict_on};
ghost use Rattle.mar_judge.specs.Views.{subject_of};

use crate::kind::Kind;
use mar_block::ExpectedCommitment;
use mar_types::{Epoch, Error, Height, Named, Round};
use std::alloc::{AllocError, Global};

/// What a judge of peers' bytes goes by: the codecs of blocks and certificates, the epochs of heights, and the schemes
/// of epochs. What a judgement says of bytes it says by `rules`.
pub trait Judge {
    /// What a certificate over a block signs.
    type Commitment: Named;

    /// A block.
    type Block: Drop;

    /// A certificate over its subject, as a scheme verifies it.
    type Claim: Drop;

    /// What verifies the certificates of an epoch.
    type Scope: Drop;

    /// A certificate that a proposal is final, or was notarized.
    type Finalization: Drop;

    type Notarization: Drop;

    ghost plain: { Self.Block → PlainBlock };

    ghost claimed: { Self.Claim → Claim };

    ghost finalization: { Self.Finalization → PlainFinalization };

    ghost notarization: { Self.Notarization → PlainFinalization };

    /// What it goes by, and that a scope judges the certificates of an epoch.
    ghost rules: { Self → Rules };

    ghost judges: { Self → ℕ → Self.Scope → Type 0 };

    /// The epoch that has the height.
    fn epoch_of(&self, height: Height) -> Option<Epoch>
        ensures { result ≡ containing (rules self.now).epochs height };

    /// The scope of an epoch.
    fn scope_of(&self, epoch: Epoch) -> Option<Self::Scope>
        ensures given { is_some result ≡ (rules self.now).scoped epoch }
        ensures judges { IfSome result (judges self.now epoch) };

    /// The certificate of this kind at the front of the bytes, and how many bytes it takes.
    fn read_claim(
        &self,
        alloc: Global,
        kind: Kind,
        bytes: &[u8],
    ) -> Result<(Self::Claim, usize), Error>
        ensures subject { IfOk result (λ r. (claimed r.0).subject ≡ subject_of kind) }
        ensures ok { IfOk result (λ r. IsReadFrom (rules self.now).reading bytes.now
            (claimed r.0).certificate r.1) }
        ensures err { IfErr result (λ e. (e ≡ Error.Memory)
            ⊎ HasNoCertificate (rules self.now).reading bytes.now) };

    /// The round of a certificate.
    fn round(claim: &Self::Claim) -> Round
        ensures { result ≡ (claimed claim.now).certificate.round };

    /// What a certificate signs.
    fn payload(claim: &Self::Claim) -> Self::Commitment
        ensures { Self.Commitment.bytes result ≡ (claimed claim.now).certificate.payload };

    /// Whether a certificate under this scope may sign what it signs.
    fn may_sign(&self, scope: &Self::Scope, claim: &Self::Claim) -> bool
        ensures { IsTrue result ↔ (rules self.now).reading.passes (claimed claim.now).certificate.payload };

    /// The block that the bytes spell from the first to the last, where it has the expected commitment.
    fn read_block(
        &self,
        alloc: Global,
        bytes: &[u8],
        expected: ExpectedCommitment<Self::Commitment>,
    ) -> Result<Self::Block, Error>
        ensures ok { IfOk result (λ b. IsBlockOf (rules self.now) bytes.now
            (Self.Commitment.bytes (commitment_of expected)) (plain b)) }
        ensures err { IfErr result (λ e. (e ≡ Error.Memory) ⊎ IsNoBlockOf (rules self.now) bytes.now
            (Self.Commitment.bytes (commitment_of expected))) };

    /// The height of a block.
    fn height(block: &Self::Block) -> Height
        ensures { result ≡ (plain block.now).height };

    /// The verdict on each of these certificates, which are of the scope's epoch.
    fn verify(
        &self,
        alloc: Global,
        scope: &Self::Scope,
        claims: &[Self::Claim],
    ) -> Result<Vec<bool>, AllocError>
        ensures { (epoch : ℕ) → judges self.now epoch scope.now → AreOfEpoch epoch (map claimed claims.now)
            → IfOk result (λ v. v.items ≡ map (verdict_on (rules self.now)) (map claimed claims.now)) };

    /// The certificate that a proposal is final, of a claim of that.
    fn to_finalization(claim: &Self::Claim) -> Result<Self::Finalization, AllocError>
        ensures { IfOk result (λ f. finalization f ≡ (claimed claim.now).certificate) };

    /// The certificate that a proposal was notarized, of a claim of that.
    fn to_notarization(claim: &Self::Claim) -> Result<Self::Notarization, AllocError>
        ensures { IfOk result (λ f. notarization f ≡ (claimed claim.now).certificate) };
}
