//! Bounds on rounds.
ghost use Rattle.std.specs.Prelude.{◌≡◌, Some};
ghost use Rattle.mar_key.specs.Cutoff.{covers, cutoff_le, cutoff_max, cutoff_text, cutoff_zero};
ghost use Rattle.mar_key.specs.Views.{cutoff_of};
ghost use Rattle.mar_key.specs.Order.{epoch_in, kind_in, view_in};

use mar_types::{Epoch, Round, View};
use std::cmp::Ordering;
use std::fmt;

/// An inclusive bound on the rounds of finalizations. Cutoffs are ordered by the rounds that they cover: by epoch, and
/// within one epoch `Epoch` stands above each `Round`.
#[derive(Clone, Copy, Debug, PartialEq, Eq, Hash)]
pub enum Cutoff {
    /// Covers this round and all before it.
    Round(Round),
    /// Covers all rounds of this epoch and of the epochs before it.
    Epoch(Epoch),
}

impl Cutoff {
    /// The cutoff that covers the zero round alone.
    pub const fn zero() -> Self
        ensures { cutoff_of result ≡ cutoff_zero }
    {
        Cutoff::Round(Round::zero())
    }

    /// Whether the round is at or below the cutoff, so that the cutoff is at least `Round(round)`.
    pub fn covers(&self, round: Round) -> bool
        ensures { result ≡ covers (cutoff_of self.now) round }
    {
        match self {
            Cutoff::Round(last) => round <= *last,
            Cutoff::Epoch(epoch) => round.epoch() <= *epoch,
        }
    }

    /// Whether this cutoff is at least the other.
    pub fn reaches(self, other: Cutoff) -> bool
        ensures { result ≡ cutoff_le (cutoff_of other) (cutoff_of self) }
    {
        other <= self
    }

    /// The greater of the two.
    pub fn raised_to(self, other: Cutoff) -> Self
        ensures { cutoff_of result ≡ cutoff_max (cutoff_of self) (cutoff_of other) }
    {
        if self <= other { other } else { self }
    }

    // The numbers that cutoffs are compared by: the epoch, 1 where all of it is covered, else 0 and the view.
    fn rank(&self) -> (Epoch, u8, View)
        ensures { result ≡ (epoch_in self.now, kind_in self.now, view_in self.now) }
    {
        match self {
            Cutoff::Round(round) => (round.epoch(), 0, round.view()),
            Cutoff::Epoch(epoch) => (*epoch, 1, View::zero()),
        }
    }
}

impl Ord for Cutoff {
    ghost use Rattle.std.proofs.Common.{rules};
    ghost use Rattle.std.specs.Cmp.Rules.{comparing};
    ghost use Rattle.mar_key.specs.Order.{cutoff_cmp};

    ghost cmp = { cutoff_cmp };

    ghost total = { Prim.search (comparing, rules) };

    ghost matches_partial_cmp = { Prim.search (comparing, rules) };

    ghost matches_eq = { Prim.search (comparing, rules) };

    fn cmp(&self, other: &Cutoff) -> Ordering {
        self.rank().cmp(&other.rank())
    }
}

impl PartialOrd for Cutoff {
    ghost use Rattle.std.proofs.Common.{rules};
    ghost use Rattle.std.specs.Cmp.{partial_order_from_own_ties};
    ghost use Rattle.std.specs.Cmp.Rules.{comparing};
    ghost use Rattle.std.specs.Ordering.{as_partial_cmp};
    ghost use Rattle.mar_key.specs.Order.{cutoff_cmp};

    ghost partial_cmp = { as_partial_cmp cutoff_cmp };

    ghost laws = { partial_order_from_own_ties (Prim.search (comparing, rules)) (Prim.search (comparing, rules)) };

    fn partial_cmp(&self, other: &Cutoff) -> Option<Ordering> {
        Some(self.cmp(other))
    }
}

/// Writes the round or the epoch.
impl fmt::Display for Cutoff {
    ghost output = { λ cutoff. Some (cutoff_text (cutoff_of cutoff)) };

    fn fmt<W: fmt::Write>(&self, f: &mut fmt::Formatter<W>) -> fmt::Result {
        match self {
            Cutoff::Round(round) => write!(f, "{round}"),
            Cutoff::Epoch(epoch) => write!(f, "{epoch}"),
        }
    }
}
