//! Heights.
ghost use Rattle.std.specs.Prelude.{◌≡◌, ℕ, ◌+◌, ◌-◌, ◌^◌, ◌<◌, ◌≤◌, ◌↔◌, IsTrue, IfSome, Some, length, min};
ghost use Rattle.std.specs.Iterator.{UpTo, YieldsFirst, YieldsLast, item_count};
ghost use Rattle.std.specs.Iterator.SizeHint.{IsWithinCount};
ghost use Rattle.std.specs.List.{range_with_len};
ghost use Rattle.std.specs.Option.{SomeIff};
ghost use Rattle.std.specs.Fmt.{decimal};

use crate::offsets::HeightDelta;
use std::fmt;
use std::marker::Model;

/// A position in the chain; the genesis block stands at zero. A contract sees it as its number.
#[derive(Clone, Copy, Debug, PartialEq, Eq, PartialOrd, Ord, Hash)]
pub struct Height(u64);

impl Model for Height {
    ghost Value = { ℕ };

    ghost view = { λ height. height.0 };

    ghost inverse = { λ n. record { 0 = n } };
}

impl Height {
    /// The first height, zero.
    pub const fn zero() -> Self
        ensures { result ≡ 0 }
    {
        Height(0)
    }

    /// The height of that number.
    pub const fn new(value: u64) -> Self
        ensures { result ≡ value }
    {
        Height(value)
    }

    /// The height as a number.
    pub const fn get(self) -> u64
        ensures value { result ≡ self }
        ensures fits { result < 2 ^ 64 }
    {
        self.0
    }

    /// Whether this is height zero.
    pub const fn is_zero(self) -> bool
        ensures { IsTrue result ↔ (self ≡ 0) }
    {
        self.0 == 0
    }

    /// The height after this one, which has to fit 64 bits.
    pub const fn next(self) -> Self
        requires { self + 1 < 2 ^ 64 }
        ensures { result ≡ self + 1 }
    {
        Height(self.0 + 1)
    }

    /// The height before this one, or `None` at height zero.
    pub const fn previous(self) -> Option<Self>
        ensures { SomeIff result (0 < self) (self - 1) }
    {
        if self.0 == 0 {
            None
        } else {
            Some(Height(self.0 - 1))
        }
    }

    /// The height that much later, or the last one where there is none.
    pub const fn saturating_add(self, delta: HeightDelta) -> Self
        ensures { result ≡ min (self + delta) (2 ^ 64 - 1) }
    {
        Height(self.0.saturating_add(delta.get()))
    }

    /// The height that much earlier, or height zero where there is none.
    pub const fn saturating_sub(self, delta: HeightDelta) -> Self
        ensures { result ≡ self - delta }
    {
        Height(self.0.saturating_sub(delta.get()))
    }

    /// The distance from the other height to this one, or `None` where the other is above this one.
    pub const fn delta_from(self, other: Self) -> Option<HeightDelta>
        ensures { SomeIff result (other ≤ self) (self - other) }
    {
        if other.0 <= self.0 {
            Some(HeightDelta::new(self.0 - other.0))
        } else {
            None
        }
    }

    /// The heights from `start` up to the one before `end`; none where `end` isn't after `start`.
    pub const fn range(start: Self, end: Self) -> HeightRange
        ensures { result ≡ range_with_len start (end - start) }
    {
        HeightRange {
            start: start.0,
            end: end.0,
        }
    }
}

impl Default for Height {
    ghost is_default = { λ height. height ≡ 0 };

    fn default() -> Self {
        Height::zero()
    }
}

/// Writes the number in decimal.
impl fmt::Display for Height {
    ghost output = { λ height. Some (decimal height) };

    fn fmt<W: fmt::Write>(&self, f: &mut fmt::Formatter<W>) -> fmt::Result {
        write!(f, "{}", self.0)
    }
}

/// The heights from a first one up to the one before an end, from either side. A contract sees the list of those that are
/// left.
#[derive(Drop)]
pub struct HeightRange {
    start: u64,
    end: u64,
}

impl Model for HeightRange {
    ghost use Rattle.std.specs.Prelude.{List, ℕ, ◌-◌};
    ghost use Rattle.std.specs.List.{range_with_len};

    ghost Value = { List ℕ };

    ghost view = { λ r. range_with_len r.start (r.end - r.start) };
}

impl Iterator for HeightRange {
    type Item = Height;

    ghost next_gives = { YieldsFirst (λ left. left) };

    ghost remaining = { item_count (λ left. left) };

    fn next(&mut self) -> Option<Height> {
        if self.start < self.end {
            let first = Height::new(self.start);
            self.start += 1;
            Some(first)
        } else {
            None
        }
    }

    fn size_hint(&self) -> (usize, Option<usize>)
        ensures lower { IsWithinCount result.0 (item_count (λ left. left) self.now) }
        ensures upper { IfSome result.1 (UpTo (item_count (λ left. left) self.now)) }
        ensures exact { result ≡ (length self.now, Some (length self.now)) }
    {
        let left = self.len();
        (left, Some(left))
    }
}

impl DoubleEndedIterator for HeightRange {
    ghost next_back_gives = { YieldsLast (λ left. left) };

    fn next_back(&mut self) -> Option<Height> {
        if self.start < self.end {
            self.end -= 1;
            Some(Height::new(self.end))
        } else {
            None
        }
    }
}

impl ExactSizeIterator for HeightRange {
    fn len(&self) -> usize {
        self.end.saturating_sub(self.start) as usize
    }
}
