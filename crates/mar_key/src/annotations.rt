//! For whom something is asked, and what of it stays open.
ghost use Rattle.std.specs.Prelude.{◌≡◌};
ghost use Rattle.mar_key.specs.Keys.{above_height, above_round, is_denied, is_finalized};
ghost use Rattle.mar_key.specs.Views.{annotation_of, cutoff_of, finalized_of, retain_of};

use crate::cutoffs::Cutoff;
use mar_types::{Height, Round};

/// For whom a key is asked. Peers don't see it; several may share one key.
#[derive(Clone, Copy, Debug, PartialEq, Eq, PartialOrd, Ord, Hash)]
pub enum Annotation {
    /// A notarization of this round.
    Notarization { round: Round },
    /// A block by its commitment, with nothing that certifies it. The height bounds how long it is asked and what of it
    /// is kept; it makes no block invalid.
    Untrusted { height: Height },
    /// A block by its commitment that this node knows as certified, or an ancestor of one, with the same bound.
    Certified { height: Height },
    /// A block of the finalized chain.
    Finalized(Finalized),
}

/// What is known of a finalized block before it comes.
#[derive(Clone, Copy, Debug, PartialEq, Eq, PartialOrd, Ord, Hash)]
pub enum Finalized {
    /// Its height.
    ByHeight { height: Height },
    /// The round of its finalization.
    ByRound { round: Round },
}

/// Which requests stay open; the others are dropped.
#[derive(Clone, Copy, Debug, PartialEq, Eq)]
pub enum Retain {
    /// Of those bound by a height, the ones above this.
    AboveHeight(Height),
    /// Of those bound by a round, the ones that this doesn't cover.
    AboveRound(Cutoff),
}

impl Annotation {
    /// Whether it asks for a block of the finalized chain.
    pub const fn is_finalized(&self) -> bool
        ensures { result ≡ is_finalized (annotation_of self.now) }
    {
        match self {
            Annotation::Finalized(_) => true,
            Annotation::Notarization { .. }
            | Annotation::Untrusted { .. }
            | Annotation::Certified { .. } => false,
        }
    }

    /// Whether it is bound by a height, at or below this one.
    pub fn is_at_or_below(&self, bound: Height) -> bool
        ensures { result ≡ is_denied (above_height bound) (annotation_of self.now) }
    {
        match self {
            Annotation::Untrusted { height } => *height <= bound,
            Annotation::Certified { height } => *height <= bound,
            Annotation::Finalized(finalized) => finalized.is_at_or_below(bound),
            Annotation::Notarization { .. } => false,
        }
    }

    /// Whether it is bound by a round, one that the cutoff covers.
    pub fn is_covered_by(&self, cutoff: Cutoff) -> bool
        ensures { result ≡ is_denied (above_round (cutoff_of cutoff)) (annotation_of self.now) }
    {
        match self {
            Annotation::Notarization { round } => cutoff.covers(*round),
            Annotation::Finalized(finalized) => finalized.is_covered_by(cutoff),
            Annotation::Untrusted { .. } | Annotation::Certified { .. } => false,
        }
    }
}

impl Finalized {
    // Whether it is bound by a height, at or below this one.
    fn is_at_or_below(&self, bound: Height) -> bool
        ensures { result ≡ is_denied (above_height bound) (finalized_of self.now) }
    {
        match self {
            Finalized::ByHeight { height } => *height <= bound,
            Finalized::ByRound { .. } => false,
        }
    }

    // Whether it is bound by a round, one that the cutoff covers.
    fn is_covered_by(&self, cutoff: Cutoff) -> bool
        ensures { result ≡ is_denied (above_round (cutoff_of cutoff)) (finalized_of self.now) }
    {
        match self {
            Finalized::ByHeight { .. } => false,
            Finalized::ByRound { round } => cutoff.covers(*round),
        }
    }
}

impl Retain {
    /// Whether what is asked for that annotation is dropped.
    pub fn denies(&self, annotation: &Annotation) -> bool
        ensures { result ≡ is_denied (retain_of self.now) (annotation_of annotation.now) }
    {
        match self {
            Retain::AboveHeight(height) => annotation.is_at_or_below(*height),
            Retain::AboveRound(cutoff) => annotation.is_covered_by(*cutoff),
        }
    }
}
