//! Proposals and their finalizations.
ghost use Rattle.std.specs.Prelude.{◌≡◌, ◌+◌, ◌<◌, ◌≤◌, ◌^◌, false, length, min, IfOk};
ghost use Rattle.mar_cert.specs.Finalization.{Finalization as PlainFinalization, finalization_bytes, finalize};
ghost use Rattle.mar_cert.specs.declared.finalization.Finalization.{Finalization as FinalizationOf};
ghost use Rattle.mar_cert.specs.declared.finalization.Proposal.{Proposal as ProposalOf};
ghost use Rattle.mar_cert.specs.Grammar.{RefusesFinalization, RefusesProposal, SpellsFinalization, SpellsProposal, finalization_unambiguous, proposal_unambiguous};
ghost use Rattle.mar_cert.specs.Views.{certified_of, final_of, spelling_of};

use crate::scheme::{Certificate, Scheme, Scoped};
use crate::subject::Subject;
use bytes::{Buf, BufMut};
use mar_types::{
    Digest, EncodeSize, Epoch, Error, Named, Read, Round, View, Write, read_pair, write_pair,
};
use std::alloc::{AllocError, Global};

/// What is proposed in a round, over the view of its parent's proposal.
#[derive(Debug, PartialEq, Eq, Drop)]
pub struct Proposal<D> {
    /// Its epoch and view.
    pub round: Round,
    /// The view of its parent's proposal, in the same epoch.
    pub parent: View,
    /// What it commits to.
    pub payload: D,
}

impl<D: Digest> Proposal<D> {
    /// The same proposal again.
    pub fn copy(&self) -> Self
        ensures { result ≡ self.now }
    {
        Proposal {
            round: self.round,
            parent: self.parent,
            payload: self.payload,
        }
    }

    // How many bytes the proposal and a certificate over it take.
    pub(crate) fn size_with<C: EncodeSize>(&self, certificate: &C) -> usize
        requires can_encode { C.can_encode certificate.now }
        requires fits { 30 + D.SIZE + length (C.encoded certificate.now) < 2 ^ 64 }
        ensures { result ≡ length (finalization_bytes
            (certified_of D.encoded C.encoded self.now certificate.now)) }
    {
        self.encode_size() + certificate.encode_size()
    }

    /// The most bytes that a proposal takes.
    pub fn max_encode_size() -> usize
        ensures size { result ≡ min (30 + D.SIZE) usize.MAX }
        ensures within { (p : ProposalOf D) → length (spelling_of D.encoded p) ≤ 30 + D.SIZE }
    {
        D::SIZE.saturating_add(30)
    }
}

impl<D: Digest> Write for Proposal<D> {
    ghost encoded = { spelling_of D.encoded };

    fn write<B: BufMut>(&self, buf: &mut B) -> Result<(), AllocError> {
        write_pair(&(self.round, self.parent), &self.payload, buf)
    }
}

impl<D: Digest> EncodeSize for Proposal<D> {
    ghost can_encode = { λ _. 30 + D.SIZE < 2 ^ 64 };

    fn encode_size(&self) -> usize {
        self.round.encode_size() + self.parent.encode_size() + D::SIZE
    }
}

impl<D: Digest> Read for Proposal<D> {
    type Cfg = ();

    ghost in_grammar = { λ cfg. SpellsProposal (D.in_grammar cfg) };

    ghost refuses = { λ cfg. RefusesProposal (D.refuses cfg) };

    ghost takes_memory = { false };

    fn read_cfg<B: Buf>(alloc: Global, buf: &mut B, cfg: &()) -> Result<Self, Error> {
        let (round, (parent, payload)) = read_pair(alloc, buf, cfg, &((), ()))?;
        Ok(Proposal {
            round,
            parent,
            payload,
        })
    }

    ghost unambiguous = { λ cfg. proposal_unambiguous (D.in_grammar cfg) (D.unambiguous cfg) };
}

/// A certificate that a proposal is final.
#[derive(Debug, PartialEq, Eq, Drop)]
pub struct Finalization<D, C> {
    /// What is final.
    pub proposal: Proposal<D>,
    /// The certificate over it.
    pub certificate: C,
}

impl<D: Digest, C: Certificate> Finalization<D, C> {
    /// The proposal's round.
    pub fn round(&self) -> Round
        ensures { result ≡ self.now.proposal.round }
    {
        self.proposal.round
    }

    /// The epoch of the proposal's round.
    pub fn epoch(&self) -> Epoch
        ensures { result ≡ self.now.proposal.round.epoch }
    {
        self.proposal.round.epoch()
    }

    /// Whether the certificate verifies.
    pub fn verify<S: Scheme<Certificate = C>>(&self, scoped: &Scoped<S>) -> bool
        ensures { result ≡ S.verifies scoped.now finalize (final_of D.bytes C.bytes self.now) }
    {
        let proposal = self.proposal.copy();
        scoped.verify(&Subject::Finalize { proposal }, &self.certificate)
    }

    /// The most bytes that a finalization takes whose certificate is of so many members.
    pub fn max_encode_size<S: Scheme<Certificate = C>>(members: u32) -> usize
        ensures size { result ≡ min (30 + D.SIZE + S.max_size members) usize.MAX }
        ensures within { (f : FinalizationOf D C) → length (C.encoded f.certificate) ≤ S.max_size members
            → length (finalization_bytes (final_of D.encoded C.encoded f)) ≤ 30 + D.SIZE + S.max_size members }
    {
        Proposal::<D>::max_encode_size().saturating_add(S::max_certificate_size(members))
    }
}

impl<D: Digest, C: Write> Write for Finalization<D, C> {
    ghost encoded = { λ f. finalization_bytes (final_of D.encoded C.encoded f) };

    fn write<B: BufMut>(&self, buf: &mut B) -> Result<(), AllocError> {
        write_pair(&self.proposal, &self.certificate, buf)
    }
}

impl<D: Digest, C: EncodeSize> EncodeSize for Finalization<D, C> {
    ghost can_encode = { λ f. C.can_encode f.certificate
        × (30 + D.SIZE + length (C.encoded f.certificate) < 2 ^ 64) };

    fn encode_size(&self) -> usize {
        self.proposal.size_with(&self.certificate)
    }
}

impl<D: Digest, C: Read> Read for Finalization<D, C> {
    /// What the certificate's reader is told.
    type Cfg = C::Cfg;

    ghost in_grammar = { λ cfg. SpellsFinalization (D.in_grammar tt) (C.in_grammar cfg) };

    ghost refuses = { λ cfg. RefusesFinalization (D.in_grammar tt) (D.refuses tt) (C.refuses cfg) };

    ghost takes_memory = { C.takes_memory };

    fn read_cfg<B: Buf>(alloc: Global, buf: &mut B, cfg: &C::Cfg) -> Result<Self, Error> {
        let (proposal, certificate) = read_pair(alloc, buf, &(), cfg)?;
        Ok(Finalization {
            proposal,
            certificate,
        })
    }

    ghost unambiguous = { λ cfg. finalization_unambiguous (D.in_grammar tt) (C.in_grammar cfg) (D.unambiguous tt) (C.unambiguous cfg) };
}

/// What a store keeps of finalizations, whatever digest and certificate they hold.
pub trait AsFinalization: Drop {
    /// The finalization as plain data.
    ghost plain: { Self → PlainFinalization };

    /// The round of its proposal.
    fn round(&self) -> Round
        ensures { result ≡ (plain self.now).round };

    /// The same finalization again.
    fn try_clone(&self) -> Result<Self, AllocError>
    where
        Self: Sized,
        ensures { IfOk result (λ f. plain f ≡ plain self.now) };
}

/// A finalization whose payload is a commitment of the kind `D`.
pub trait CommitsTo<D: Named>: AsFinalization {
    /// What its proposal commits to.
    fn payload(&self) -> D
        ensures { D.bytes result ≡ (Self.plain self.now).payload };
}

impl<D: Digest, C: Certificate> AsFinalization for Finalization<D, C> {
    ghost plain = { final_of D.bytes C.bytes };

    fn round(&self) -> Round {
        self.proposal.round
    }

    fn try_clone(&self) -> Result<Self, AllocError> {
        let certificate = self.certificate.try_clone()?;
        Ok(Finalization {
            proposal: self.proposal.copy(),
            certificate,
        })
    }
}

impl<D: Digest, C: Certificate> CommitsTo<D> for Finalization<D, C> {
    fn payload(&self) -> D {
        self.proposal.payload
    }
}
