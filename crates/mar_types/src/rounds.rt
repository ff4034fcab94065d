//! Rounds: an epoch and a view in it.
ghost use Rattle.std.specs.Prelude.{◌≡◌, ℕ, Some};
ghost use Rattle.mar_types.specs.Round.{round_text};

use crate::epochs::Epoch;
use crate::views::View;
use std::fmt;
use std::marker::Model;

/// One attempt at agreement: a view of an epoch. Rounds are ordered by epoch, then by view. A contract sees a record
/// of the two numbers.
#[derive(Clone, Copy, Debug, PartialEq, Eq, PartialOrd, Ord, Hash)]
pub struct Round {
    epoch: Epoch,
    view: View,
}

impl Model for Round {
    ghost use Rattle.mar_types.specs.Round.{Round};

    ghost Value = { Round };

    ghost view = { λ r. record { epoch = r.epoch; view = r.view } };

    ghost inverse = { λ r. record { epoch = r.epoch; view = r.view } };
}

impl Round {
    /// The round of that epoch and view.
    pub const fn new(epoch: Epoch, view: View) -> Self
        ensures { result ≡ record { epoch = epoch; view = view } }
    {
        Round { epoch, view }
    }

    /// View zero of epoch zero.
    pub const fn zero() -> Self
        ensures { result ≡ record { epoch = 0; view = 0 } }
    {
        Self::new(Epoch::zero(), View::zero())
    }

    /// The round's epoch.
    pub const fn epoch(self) -> Epoch
        ensures { result ≡ self.epoch }
    {
        self.epoch
    }

    /// The round's view.
    pub const fn view(self) -> View
        ensures { result ≡ self.view }
    {
        self.view
    }
}

impl Default for Round {
    ghost is_default = { λ r. r ≡ record { epoch = 0; view = 0 } };

    fn default() -> Self {
        Round::zero()
    }
}

impl From<(Epoch, View)> for Round {
    ghost from_gives = { λ parts r. r ≡ record { epoch = parts.0; view = parts.1 } };

    fn from(parts: (Epoch, View)) -> Self {
        Round::new(parts.0, parts.1)
    }
}

impl From<Round> for (Epoch, View) {
    ghost from_gives = { λ r parts. parts ≡ (r.epoch, r.view) };

    fn from(round: Round) -> (Epoch, View) {
        (round.epoch, round.view)
    }
}

/// Writes the two numbers, as `(2, 7)`.
impl fmt::Display for Round {
    ghost output = { λ r. Some (round_text r) };

    fn fmt<W: fmt::Write>(&self, f: &mut fmt::Formatter<W>) -> fmt::Result {
        write!(f, "({}, {})", self.epoch, self.view)
    }
}

/// What has an epoch.
pub trait Epochable {
    ghost epoch_of: { Self → ℕ };

    fn epoch(&self) -> Epoch
        ensures { result ≡ epoch_of self.now };
}

/// What has a view.
pub trait Viewable {
    ghost view_of: { Self → ℕ };

    fn view(&self) -> View
        ensures { result ≡ view_of self.now };
}

impl Epochable for Round {
    ghost epoch_of = { λ r. r.epoch };

    fn epoch(&self) -> Epoch {
        self.epoch
    }
}

impl Viewable for Round {
    ghost view_of = { λ r. r.view };

    fn view(&self) -> View {
        self.view
    }
}
