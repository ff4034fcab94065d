//! Views.
ghost use Rattle.std.specs.Prelude.{◌≡◌, ℕ, ◌+◌, ◌-◌, ◌^◌, ◌<◌, ◌≤◌, ◌↔◌, IsTrue, IfSome, Some, false, length, min};
ghost use Rattle.std.specs.Iterator.{UpTo, YieldsFirst, YieldsLast, item_count};
ghost use Rattle.std.specs.Iterator.SizeHint.{IsWithinCount};
ghost use Rattle.std.specs.List.{range_with_len};
ghost use Rattle.std.specs.Int.{div_ceil};
ghost use Rattle.std.specs.Range.{range_inclusive_end, range_inclusive_exhausted, range_inclusive_start};
ghost use Rattle.mar_types.specs.Terms.{Admits, Covers, IsSameTerm, next_term_start, term_end, term_start};
ghost use Rattle.std.specs.Option.{SomeIff};
ghost use Rattle.std.specs.Fmt.{decimal};

use crate::offsets::ViewDelta;
use crate::terms::TermLength;
use std::fmt;
use std::marker::Model;
use std::ops::RangeInclusive;

/// One attempt at agreement within an epoch. A contract sees it as its number.
#[derive(Clone, Copy, Debug, PartialEq, Eq, PartialOrd, Ord, Hash)]
pub struct View(u64);

impl Model for View {
    ghost Value = { ℕ };

    ghost view = { λ view. view.0 };

    ghost inverse = { λ n. record { 0 = n } };
}

impl View {
    /// The first view, zero.
    pub const fn zero() -> Self
        ensures { result ≡ 0 }
    {
        View(0)
    }

    /// The view of that number.
    pub const fn new(value: u64) -> Self
        ensures { result ≡ value }
    {
        View(value)
    }

    /// The view as a number.
    pub const fn get(self) -> u64
        ensures value { result ≡ self }
        ensures fits { result < 2 ^ 64 }
    {
        self.0
    }

    /// Whether this is view zero.
    pub const fn is_zero(self) -> bool
        ensures { IsTrue result ↔ (self ≡ 0) }
    {
        self.0 == 0
    }

    /// The view after this one, which has to fit 64 bits.
    pub const fn next(self) -> Self
        requires { self + 1 < 2 ^ 64 }
        ensures { result ≡ self + 1 }
    {
        View(self.0 + 1)
    }

    /// The view before this one, or `None` at view zero.
    pub const fn previous(self) -> Option<Self>
        ensures { SomeIff result (0 < self) (self - 1) }
    {
        if self.0 == 0 {
            None
        } else {
            Some(View(self.0 - 1))
        }
    }

    /// The view that much later, or the last one where there is none.
    pub const fn saturating_add(self, delta: ViewDelta) -> Self
        ensures { result ≡ min (self + delta) (2 ^ 64 - 1) }
    {
        View(self.0.saturating_add(delta.get()))
    }

    /// The view that much earlier, or view zero where there is none.
    pub const fn saturating_sub(self, delta: ViewDelta) -> Self
        ensures { result ≡ self - delta }
    {
        View(self.0.saturating_sub(delta.get()))
    }

    /// The views from `start` up to the one before `end`; none where `end` isn't after `start`.
    pub const fn range(start: Self, end: Self) -> ViewRange
        ensures { result ≡ range_with_len start (end - start) }
    {
        ViewRange {
            start: start.0,
            end: end.0,
        }
    }
}

impl View {
    /// The first view of this view's term. View zero is a term of its own; the others have `term_length` views each, from
    /// view one on.
    pub const fn term_start(self, term_length: TermLength) -> Self
        ensures { result ≡ term_start term_length self }
    {
        let length = term_length.get();
        if self.0 == 0 {
            return View(0);
        }
        View((self.0 - 1) / length * length + 1)
    }

    /// Whether this is the first view of its term.
    pub const fn is_term_start(self, term_length: TermLength) -> bool
        ensures { IsTrue result ↔ (self ≡ term_start term_length self) }
    {
        self.0 == self.term_start(term_length).0
    }

    /// Whether this view and the other are of one term.
    pub const fn same_term(self, other: Self, term_length: TermLength) -> bool
        ensures { IsTrue result ↔ IsSameTerm term_length self other }
    {
        self.term_start(term_length).0 == other.term_start(term_length).0
    }

    /// The last view of this view's term, which has to fit 64 bits.
    pub const fn term_end(self, term_length: TermLength) -> Self
        requires { term_end term_length self < 2 ^ 64 }
        ensures { result ≡ term_end term_length self }
    {
        if self.0 == 0 {
            return View(0);
        }
        let start = self.term_start(term_length).0;
        View(start + (term_length.get() - 1))
    }

    /// The first view of the term after this view's, which has to fit 64 bits.
    pub const fn next_term_start(self, term_length: TermLength) -> Self
        requires { next_term_start term_length self < 2 ^ 64 }
        ensures { result ≡ next_term_start term_length self }
    {
        self.term_end(term_length).next()
    }

    /// The number of this view's term: zero for view zero, and then from one on.
    pub const fn term_index(self, term_length: TermLength) -> u64
        ensures { result ≡ div_ceil self term_length }
    {
        self.0.div_ceil(term_length.get())
    }

    /// Whether giving up on this view gives up on the other: the other is this view, or a later one of its term.
    pub const fn covers(self, view: Self, term_length: TermLength) -> bool
        ensures { IsTrue result ↔ Covers term_length self view }
    {
        self.0 <= view.0 && self.same_term(view, term_length)
    }

    /// The views that cover this one: from its term's first view to itself.
    pub const fn covering_range(self, term_length: TermLength) -> RangeInclusive<Self>
        ensures start { range_inclusive_start result ≡ term_start term_length self }
        ensures end { range_inclusive_end result ≡ self }
        ensures whole { range_inclusive_exhausted result ≡ false }
    {
        self.term_start(term_length)..=self
    }

    /// Whether `pending` is this view or an earlier one, or one that this view can lead to at once: the next view, or the
    /// first view of the next term. No view is refused for being near the last one.
    pub const fn admits(self, pending: Self, term_length: TermLength) -> bool
        ensures { IsTrue result ↔ Admits term_length self pending }
    {
        if pending.0 <= self.0 || pending.0 - self.0 == 1 {
            return true;
        }
        pending.is_term_start(term_length) && self.same_term(View(pending.0 - 1), term_length)
    }
}

impl Default for View {
    ghost is_default = { λ view. view ≡ 0 };

    fn default() -> Self {
        View::zero()
    }
}

/// Writes the number in decimal.
impl fmt::Display for View {
    ghost output = { λ view. Some (decimal view) };

    fn fmt<W: fmt::Write>(&self, f: &mut fmt::Formatter<W>) -> fmt::Result {
        write!(f, "{}", self.0)
    }
}

/// The views from a first one up to the one before an end, from either side. A contract sees the list of those that are
/// left.
#[derive(Drop)]
pub struct ViewRange {
    start: u64,
    end: u64,
}

impl Model for ViewRange {
    ghost use Rattle.std.specs.Prelude.{List, ℕ, ◌-◌};
    ghost use Rattle.std.specs.List.{range_with_len};

    ghost Value = { List ℕ };

    ghost view = { λ r. range_with_len r.start (r.end - r.start) };
}

impl Iterator for ViewRange {
    type Item = View;

    ghost next_gives = { YieldsFirst (λ left. left) };

    ghost remaining = { item_count (λ left. left) };

    fn next(&mut self) -> Option<View> {
        if self.start < self.end {
            let first = View::new(self.start);
            self.start += 1;
            Some(first)
        } else {
            None
        }
    }

    fn size_hint(&self) -> (usize, Option<usize>)
        ensures lower { IsWithinCount result.0 (item_count (λ left. left) self.now) }
        ensures upper { IfSome result.1 (UpTo (item_count (λ left. left) self.now)) }
        ensures exact { result ≡ (length self.now, Some (length self.now)) }
    {
        let left = self.len();
        (left, Some(left))
    }
}

impl DoubleEndedIterator for ViewRange {
    ghost next_back_gives = { YieldsLast (λ left. left) };

    fn next_back(&mut self) -> Option<View> {
        if self.start < self.end {
            self.end -= 1;
            Some(View::new(self.end))
        } else {
            None
        }
    }
}

impl ExactSizeIterator for ViewRange {
    fn len(&self) -> usize {
        self.end.saturating_sub(self.start) as usize
    }
}
