//! Terms: how long a leader stays.
ghost use Rattle.std.specs.Prelude.{◌≡◌, ◌^◌, ◌-◌, ◌<◌, Some};
ghost use Rattle.std.specs.Fmt.{decimal};
ghost use Rattle.std.specs.Int.NonZero.{non_zero_u32_get};

use std::fmt;
use std::marker::Model;
use std::num::NonZeroU32;

/// How many consecutive views one leader has, at least one. All nodes have to agree on it. A contract sees it as the
/// number.
#[derive(Clone, Copy, Debug, PartialEq, Eq, Hash)]
pub struct TermLength(u32);

impl Model for TermLength {
    ghost use Rattle.std.specs.Prelude.{ℕ, ◌<◌};

    ghost Value = { ℕ };

    ghost view = { λ t. t.0 };

    ghost invariant = { λ t. 0 < t.0 };

    ghost inverse = { λ n. record { 0 = n } };
}

impl TermLength {
    /// The longest term.
    pub const MAX: TermLength = TermLength(u32::MAX);

    /// A term of one view, so that each view has a leader of its own.
    pub const ONE: TermLength = TermLength(1);

    /// A term of that many views.
    pub const fn new(length: NonZeroU32) -> Self
        ensures { result ≡ non_zero_u32_get length }
    {
        TermLength(length.get())
    }

    /// How many views a term has.
    pub const fn get(self) -> u64
        ensures value { result ≡ self }
        ensures positive { 0 < result }
        ensures fits { result < 2 ^ 32 }
    {
        self.0 as u64
    }
}

const _: () = prove!(TermLength::MAX.0 == 4_294_967_295 && TermLength::ONE.0 == 1);

impl Default for TermLength {
    ghost is_default = { λ t. t ≡ 1 };

    fn default() -> Self {
        TermLength::ONE
    }
}

/// Writes the number in decimal.
impl fmt::Display for TermLength {
    ghost output = { λ t. Some (decimal t) };

    fn fmt<W: fmt::Write>(&self, f: &mut fmt::Formatter<W>) -> fmt::Result {
        write!(f, "{}", self.0)
    }
}
