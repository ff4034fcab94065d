//! Distances and durations.
ghost use Rattle.std.specs.Prelude.{◌≡◌, ℕ, ◌^◌, ◌<◌, ◌↔◌, IsTrue, Some};
ghost use Rattle.std.specs.Fmt.{decimal};

use crate::epochs::Epoch;
use crate::heights::Height;
use crate::views::View;
use std::fmt;
use std::marker::{Model, PhantomData};

/// A distance between two values of `T`, or a duration measured in them. A contract sees it as the number.
#[derive(Clone, Copy, Debug, PartialEq, Eq, PartialOrd, Ord, Hash)]
pub struct Delta<T> {
    count: u64,
    unit: PhantomData<T>,
}

impl<T> Model for Delta<T> {
    ghost Value = { ℕ };

    ghost view = { λ d. d.count };

    ghost inverse = { λ n. record { count = n; unit = record {} } };
}

impl<T> Delta<T> {
    /// The distance from a value to itself.
    pub const fn zero() -> Self
        ensures { result ≡ 0 }
    {
        Self::new(0)
    }

    /// A distance of that many.
    pub const fn new(value: u64) -> Self
        ensures { result ≡ value }
    {
        Delta {
            count: value,
            unit: PhantomData,
        }
    }

    /// The distance as a number.
    pub const fn get(self) -> u64
        ensures value { result ≡ self }
        ensures fits { result < 2 ^ 64 }
    {
        self.count
    }

    /// Whether the distance is zero.
    pub const fn is_zero(self) -> bool
        ensures { IsTrue result ↔ (self ≡ 0) }
    {
        self.count == 0
    }
}

impl<T> Default for Delta<T> {
    ghost is_default = { λ d. d ≡ 0 };

    fn default() -> Self {
        Delta::zero()
    }
}

/// Writes the number in decimal.
impl<T> fmt::Display for Delta<T> {
    ghost output = { λ d. Some (decimal d) };

    fn fmt<W: fmt::Write>(&self, f: &mut fmt::Formatter<W>) -> fmt::Result {
        write!(f, "{}", self.count)
    }
}

/// A distance between epochs.
pub type EpochDelta = Delta<Epoch>;

/// A distance between heights.
pub type HeightDelta = Delta<Height>;

/// A distance between views.
pub type ViewDelta = Delta<View>;
