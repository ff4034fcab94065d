//! The mock scheme: a member's tag is a digest, so anyone can make one.
ghost use Rattle.std.specs.Prelude.{◌≡◌, ◌++◌, ◌+◌, ◌<◌, ◌≤◌, ◌⊎◌, ◌^◌, length, ℕ, List, IfOk, IfErr, map, refl};
ghost use Rattle.std.specs.List.{flat_map};
ghost use Rattle.mar_cert.specs.Signers.{AreSigners, CountsWithin, IsMockCertificate, RefusesCertificate, RefusesCount, RefusesSigner, RefusesSigners, certificate_bytes};
ghost use Rattle.mar_cert.specs.SignersLemmas.{certificate_unambiguous};
ghost use Rattle.mar_cert.specs.MockScheme.{IsFinalization, signer_bytes};
ghost use Rattle.mar_cert.specs.Finalization.{Finalization as PlainFinalization, finalization_bytes};
ghost use Rattle.mar_cert.specs.MockViews.{plain_signer, plain_signers};
ghost use Rattle.mar_types.specs.Codec.{HasNoFront, Takes};
ghost use Rattle.mar_types.specs.Varint.{IsNumber, varint};
ghost use Rattle.mar_types.specs.Digest.{IsDigest};

use crate::finalization::{AsFinalization, Finalization};
use crate::notarization::Notarization;
use crate::scheme::Certificate;
use crate::signer::Signer;
use bytes::{Buf, BufMut};
use mar_types::{EncodeSize, Error, Kind, Read, Reason, Sha256Digest, UInt, Write};
use std::alloc::{AllocError, Global};

impl Write for Signer {
    ghost encoded = { λ s. signer_bytes (plain_signer s) };

    fn write<B: BufMut>(&self, buf: &mut B) -> Result<(), AllocError> {
        UInt(self.member as u64).write(buf)?;
        self.tag.write(buf)
    }
}

impl EncodeSize for Signer {
    ghost can_encode = { λ _. Unit {0} };

    fn encode_size(&self) -> usize
        ensures size { result ≡ length (signer_bytes (plain_signer self.now)) }
        ensures within { result ≤ 42 }
    {
        UInt(self.member as u64).encode_size() + self.tag.encode_size()
    }
}

/// The parts of its signers, in the order of their members.
#[derive(Clone, Debug, PartialEq, Eq, Drop)]
pub struct MockCertificate {
    pub signers: Vec<Signer>,
}

impl Write for MockCertificate {
    ghost encoded = { λ c. certificate_bytes (plain_signers c) };

    fn write<B: BufMut>(&self, buf: &mut B) -> Result<(), AllocError> {
        UInt(self.signers.len() as u64).write(buf)?;
        'signers: for signer in &self.signers {
            signer.write(buf)?;
        }
        Ok(())
    }
}

impl EncodeSize for MockCertificate {
    ghost can_encode = { λ _. Unit {0} };

    fn encode_size(&self) -> usize {
        let mut size = UInt(self.signers.len() as u64).encode_size();
        'signers: for signer in &self.signers {
            size += signer.encode_size();
        }
        size
    }
}

impl Read for MockCertificate {
    /// How many members there are.
    type Cfg = u32;

    ghost in_grammar = { IsMockCertificate };

    ghost refuses = { RefusesCertificate };

    fn read_cfg<B: Buf>(alloc: Global, buf: &mut B, members: &u32) -> Result<Self, Error>
        ensures ok { IfOk result (λ c. Takes (IsMockCertificate members.now)
            (certificate_bytes (plain_signers c)) (B.unread buf.old) (B.unread buf.new)) }
        ensures err { IfErr result (λ e. (e ≡ Error.Memory)
            ⊎ HasNoFront (IsMockCertificate members.now) (B.unread buf.old)) }
        ensures cause { IfErr result (λ e. (e ≡ Error.Memory)
            ⊎ RefusesCertificate members.now (B.unread buf.old) e) }
        ensures counted { IfErr result (λ e. e ≡ Error.Memory
            → CountsWithin members.now (B.unread buf.old)) }
    {
        let members = *members;
        let count = UInt::read_cfg(alloc, buf, &())?.0;
        if count > members as u64 {
            return Err(Error::Invalid(Kind::Certificate, Reason::Signers));
        }
        read_signers(alloc, buf, members, count)
    }

    ghost unambiguous = { certificate_unambiguous };
}

impl Certificate for MockCertificate {
    ghost bytes = { λ c. certificate_bytes (plain_signers c) };

    fn try_clone(&self) -> Result<Self, AllocError> {
        self.clone()
    }

    ghost spelled = { λ certificate. refl };
}

/// A finalization that mock certificates make.
pub type MockFinalization = Finalization<Sha256Digest, MockCertificate>;

/// A notarization that mock certificates make.
pub type MockNotarization = Notarization<Sha256Digest, MockCertificate>;

/// A finalization of so many members has a spelling that is read, and no two have one.
pub fn mock_finalizations()
    ensures spelled { (n : ℕ) (f : PlainFinalization) → IsFinalization n f
        → ⟦<Finalization<Sha256Digest, MockCertificate> as Read>⟧.in_grammar n (finalization_bytes f) }
    ensures only { (n : ℕ) (f : PlainFinalization) → length f.payload ≡ 32
        → ⟦<Finalization<Sha256Digest, MockCertificate> as Read>⟧.in_grammar n (finalization_bytes f)
        → IsFinalization n f }
    ensures same { (n m : ℕ) (f g : PlainFinalization) → IsFinalization n f → IsFinalization m g
        → finalization_bytes f ≡ finalization_bytes g → f ≡ g }
{}

impl Finalization<Sha256Digest, MockCertificate> {
    /// What was read with so many members is a finalization of so many.
    pub fn is_finalization(&self, members: u32)
        requires { ⟦<Finalization<Sha256Digest, MockCertificate> as Read>⟧.in_grammar members
            (⟦<Finalization<Sha256Digest, MockCertificate> as Write>⟧.encoded self.now) }
        ensures { IsFinalization members (⟦<Finalization<Sha256Digest, MockCertificate> as AsFinalization>⟧.plain self.now) }
    {}
}

// So many signers.
fn read_signers<B: Buf>(
    alloc: Global,
    buf: &mut B,
    members: u32,
    count: u64,
) -> Result<MockCertificate, Error>
    ensures count { IfOk result (λ c. length (plain_signers c) ≡ count) }
    ensures signers { IfOk result (λ c. AreSigners members 0 (plain_signers c)) }
    ensures taken { IfOk result (λ c. B.unread buf.old
        ≡ flat_map signer_bytes (plain_signers c) ++ B.unread buf.new) }
    ensures cause { IfErr result (λ e. (e ≡ Error.Memory)
        ⊎ RefusesSigners members count (B.unread buf.old) e) }
{
    let mut signers = Vec::with_capacity(alloc, count as usize)?;
    let mut low = 0;
    'signers: for _ in 0..count {
        let signer = read_signer(alloc, buf, members, low)?;
        low = signer.member as u64 + 1;
        signers.push(signer).map_err(AllocError::from)?;
    }
    Ok(MockCertificate { signers })
}

// A signer that is none below `low`.
fn read_signer<B: Buf>(alloc: Global, buf: &mut B, members: u32, low: u64) -> Result<Signer, Error>
    ensures low { IfOk result (λ s. low ≤ s.member) }
    ensures member { IfOk result (λ s. s.member < members) }
    ensures tag { IfOk result (λ s. IsDigest s.tag.bytes) }
    ensures taken { IfOk result (λ s. B.unread buf.old
        ≡ signer_bytes (plain_signer s) ++ B.unread buf.new) }
    ensures cause { IfErr result (λ e. (e ≡ Error.Memory)
        ⊎ RefusesSigner members low (B.unread buf.old) e) }
{
    let member = UInt::read_cfg(alloc, buf, &())?.0;
    if member < low || member >= members as u64 {
        return Err(Error::Invalid(Kind::Certificate, Reason::Signers));
    }
    let tag = Sha256Digest::read_cfg(alloc, buf, &())?;
    Ok(Signer {
        member: member as u32,
        tag,
    })
}
