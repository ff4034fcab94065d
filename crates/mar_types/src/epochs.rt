//! Epochs.
ghost use Rattle.std.specs.Prelude.{◌≡◌, ℕ, ◌+◌, ◌-◌, ◌^◌, ◌<◌, ◌≤◌, ◌↔◌, IsTrue, Some, min};
ghost use Rattle.std.specs.Option.{SomeIff};
ghost use Rattle.std.specs.Fmt.{decimal};

use crate::offsets::EpochDelta;
use std::fmt;
use std::marker::Model;

/// A stretch of consecutive heights and views that one set of validators agrees on. A contract sees it as its
/// number.
#[derive(Clone, Copy, Debug, PartialEq, Eq, PartialOrd, Ord, Hash)]
pub struct Epoch(u64);

impl Model for Epoch {
    ghost Value = { ℕ };

    ghost view = { λ epoch. epoch.0 };

    ghost inverse = { λ n. record { 0 = n } };
}

impl Epoch {
    /// The first epoch, zero.
    pub const fn zero() -> Self
        ensures { result ≡ 0 }
    {
        Epoch(0)
    }

    /// The epoch of that number.
    pub const fn new(value: u64) -> Self
        ensures { result ≡ value }
    {
        Epoch(value)
    }

    /// The epoch as a number.
    pub const fn get(self) -> u64
        ensures value { result ≡ self }
        ensures fits { result < 2 ^ 64 }
    {
        self.0
    }

    /// Whether this is epoch zero.
    pub const fn is_zero(self) -> bool
        ensures { IsTrue result ↔ (self ≡ 0) }
    {
        self.0 == 0
    }

    /// The epoch after this one, which has to fit 64 bits.
    pub const fn next(self) -> Self
        requires { self + 1 < 2 ^ 64 }
        ensures { result ≡ self + 1 }
    {
        Epoch(self.0 + 1)
    }

    /// The epoch before this one, or `None` at epoch zero.
    pub const fn previous(self) -> Option<Self>
        ensures { SomeIff result (0 < self) (self - 1) }
    {
        if self.0 == 0 {
            None
        } else {
            Some(Epoch(self.0 - 1))
        }
    }

    /// The epoch that much later, or the last one where there is none.
    pub const fn saturating_add(self, delta: EpochDelta) -> Self
        ensures { result ≡ min (self + delta) (2 ^ 64 - 1) }
    {
        Epoch(self.0.saturating_add(delta.get()))
    }

    /// The epoch that much earlier, or `None` where there is none.
    pub const fn checked_sub(self, delta: EpochDelta) -> Option<Self>
        ensures { SomeIff result (delta ≤ self) (self - delta) }
    {
        if delta.get() <= self.0 {
            Some(Epoch(self.0 - delta.get()))
        } else {
            None
        }
    }

    /// The epoch that much earlier, or epoch zero where there is none.
    pub const fn saturating_sub(self, delta: EpochDelta) -> Self
        ensures { result ≡ self - delta }
    {
        Epoch(self.0.saturating_sub(delta.get()))
    }
}

impl Default for Epoch {
    ghost is_default = { λ epoch. epoch ≡ 0 };

    fn default() -> Self {
        Epoch::zero()
    }
}

/// Writes the number in decimal.
impl fmt::Display for Epoch {
    ghost output = { λ epoch. Some (decimal epoch) };

    fn fmt<W: fmt::Write>(&self, f: &mut fmt::Formatter<W>) -> fmt::Result {
        write!(f, "{}", self.0)
    }
}
