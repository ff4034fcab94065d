//! Proposals' notarizations.
ghost use Rattle.std.specs.Prelude.{◌≡◌, ◌+◌, ◌<◌, ◌≤◌, ◌^◌, length, min, IfOk};
ghost use Rattle.mar_cert.specs.Finalization.{finalization_bytes, notarize};
ghost use Rattle.mar_cert.specs.declared.notarization.Notarization.{Notarization as NotarizationOf};
ghost use Rattle.mar_cert.specs.Grammar.{RefusesFinalization, SpellsFinalization, finalization_unambiguous};
ghost use Rattle.mar_cert.specs.Views.{notarization_of};

use crate::finalization::Proposal;
use crate::scheme::{Certificate, Scheme, Scoped};
use crate::subject::Subject;
use bytes::{Buf, BufMut};
use mar_types::{Digest, EncodeSize, Epoch, Error, Read, Round, Write, read_pair, write_pair};
use std::alloc::{AllocError, Global};

/// A certificate that a proposal was notarized.
#[derive(Debug, PartialEq, Eq, Drop)]
pub struct Notarization<D, C> {
    pub proposal: Proposal<D>,
    pub certificate: C,
}

impl<D: Digest, C: Certificate> Notarization<D, C> {
    /// The proposal's round.
    pub fn round(&self) -> Round
        ensures { result ≡ self.now.proposal.round }
    {
        self.proposal.round
    }

    /// The epoch of the proposal's round.
    pub fn epoch(&self) -> Epoch
        ensures { result ≡ self.now.proposal.round.epoch }
    {
        self.proposal.round.epoch()
    }

    /// Whether the certificate verifies.
    pub fn verify<S: Scheme<Certificate = C>>(&self, scoped: &Scoped<S>) -> bool
        ensures { result ≡ S.verifies scoped.now notarize (notarization_of D.bytes C.bytes self.now) }
    {
        let proposal = self.proposal.copy();
        scoped.verify(&Subject::Notarize { proposal }, &self.certificate)
    }

    /// The same notarization again. It fails only by memory.
    pub fn try_clone(&self) -> Result<Self, AllocError>
        ensures { IfOk result (λ n. notarization_of D.bytes C.bytes n
            ≡ notarization_of D.bytes C.bytes self.now) }
    {
        let certificate = self.certificate.try_clone()?;
        Ok(Notarization {
            proposal: self.proposal.copy(),
            certificate,
        })
    }

    /// The most bytes that a notarization takes whose certificate is of so many members.
    pub fn max_encode_size<S: Scheme<Certificate = C>>(members: u32) -> usize
        ensures size { result ≡ min (30 + D.SIZE + S.max_size members) usize.MAX }
        ensures within { (f : NotarizationOf D C) → length (C.encoded f.certificate) ≤ S.max_size members
            → length (finalization_bytes (notarization_of D.encoded C.encoded f)) ≤ 30 + D.SIZE + S.max_size members }
    {
        Proposal::<D>::max_encode_size().saturating_add(S::max_certificate_size(members))
    }
}

impl<D: Digest, C: Write> Write for Notarization<D, C> {
    ghost encoded = { λ f. finalization_bytes (notarization_of D.encoded C.encoded f) };

    fn write<B: BufMut>(&self, buf: &mut B) -> Result<(), AllocError> {
        write_pair(&self.proposal, &self.certificate, buf)
    }
}

impl<D: Digest, C: EncodeSize> EncodeSize for Notarization<D, C> {
    ghost can_encode = { λ n. C.can_encode n.certificate
        × (30 + D.SIZE + length (C.encoded n.certificate) < 2 ^ 64) };

    fn encode_size(&self) -> usize {
        self.proposal.size_with(&self.certificate)
    }
}

impl<D: Digest, C: Read> Read for Notarization<D, C> {
    /// What the certificate's reader is told.
    type Cfg = C::Cfg;

    ghost in_grammar = { λ cfg. SpellsFinalization (D.in_grammar tt) (C.in_grammar cfg) };

    ghost refuses = { λ cfg. RefusesFinalization (D.in_grammar tt) (D.refuses tt) (C.refuses cfg) };

    ghost takes_memory = { C.takes_memory };

    fn read_cfg<B: Buf>(alloc: Global, buf: &mut B, cfg: &C::Cfg) -> Result<Self, Error> {
        let (proposal, certificate) = read_pair(alloc, buf, &(), cfg)?;
        Ok(Notarization {
            proposal,
            certificate,
        })
    }

    ghost unambiguous = { λ cfg. finalization_unambiguous (D.in_grammar tt) (C.in_grammar cfg) (D.unambiguous tt) (C.unambiguous cfg) };
}
