//! Heights kept as ranges.
ghost use Rattle.std.specs.Prelude.{◌≡◌, ◌+◌, ◌<◌, ◌≤◌, ◌++◌, ◌↔◌, ℕ, [], take, drop, fold, map, IfOk, OnOk, OnErr, IsTrue, vec_len, length};
ghost use Rattle.mar_store.specs.Changes.{heights};
ghost use Rattle.mar_store.specs.Entries.{seen};
ghost use Rattle.mar_store.specs.Gaps.{missing_items, next_start, range_end, ranges_from};
ghost use Rattle.mar_store.specs.Ranges.{in_ranges, last_end, with_height};

use crate::entry::Entry;
use crate::gaps::{missing_items, next_gap, ranges_from};
use crate::spans::{has_height, last_of, place_of, widen, widen_by};
use mar_types::Height;
use std::alloc::{AllocError, Global};
use std::marker::Model;

/// Consecutive heights, both ends in.
#[derive(Clone, Copy, Debug, PartialEq, Eq)]
pub struct HeightSpan {
    /// The least of them.
    pub from: u64,
    /// The greatest of them.
    pub to: u64,
}

/// Heights as ranges that ascend and don't touch.
#[derive(Drop)]
pub struct RangeSet {
    spans: Vec<HeightSpan>,
}

impl Model for RangeSet {
    ghost use Rattle.std.specs.Prelude.{List};
    ghost use Rattle.mar_store.specs.Ranges.{Range};

    ghost Value = { List Range };

    ghost use Rattle.mar_store.specs.Spans.{ranges_of, AscendFrom};

    ghost view = { λ s. ranges_of s.spans.items };

    ghost invariant = { λ s. AscendFrom 0 (ranges_of s.spans.items) };
}

impl RangeSet {
    ghost use Rattle.mar_store.specs.Spans.{ranges_of};

    pub fn new(alloc: Global) -> Self
        ensures { result ≡ [] }
    {
        RangeSet {
            spans: Vec::new(alloc),
        }
    }

    /// Whether it has no height.
    pub fn is_empty(&self) -> bool
        ensures { IsTrue result ↔ (self.now ≡ []) }
    {
        self.spans.is_empty()
    }

    /// The ranges, ascending.
    pub fn as_slice(&self) -> &[HeightSpan]
        ensures { ranges_of result.now ≡ self.now }
    {
        self.spans.as_slice()
    }

    /// The greatest height.
    pub fn last(&self) -> Option<u64>
        ensures { result ≡ last_end self.now }
    {
        last_of(&self.spans)
    }

    /// Whether it has a height, which is found by halving.
    pub fn contains(&self, height: u64) -> bool
        ensures { result ≡ in_ranges self.now height }
    {
        has_height(&self.spans, height)
    }

    /// The ranges that overlap or follow a height. The first of them is found by halving.
    pub fn ranges_from(&self, height: Height) -> &[HeightSpan]
        ensures { ranges_of result.now ≡ ranges_from self.now height }
    {
        ranges_from(&self.spans, height)
    }

    /// The lowest heights from `start` on that are missing below some range, at most `max`. What it takes grows with
    /// these, and with the digits of how many ranges there are.
    pub fn missing_items(
        &self,
        alloc: Global,
        start: Height,
        max: usize,
    ) -> Result<Vec<Height>, AllocError>
        ensures { IfOk result (λ v. v.items ≡ missing_items self.now start max) }
    {
        missing_items(alloc, &self.spans, start, max)
    }

    /// The end of the range that holds a height, and the start of the next range after it, found by halving.
    pub fn next_gap(&self, height: Height) -> (Option<Height>, Option<Height>)
        ensures end { result.0 ≡ range_end self.now height }
        ensures start { result.1 ≡ next_start self.now height }
    {
        next_gap(&self.spans, height)
    }

    /// Another set of the same heights.
    pub fn try_clone(&self) -> Result<Self, AllocError>
        ensures { IfOk result (λ s. s ≡ self.now) }
    {
        let spans = self.spans.clone()?;
        Ok(RangeSet { spans })
    }

    /// Adds a height. Its place is found by halving.
    pub fn insert(&mut self, height: u64) -> Result<(), AllocError>
        ensures ok { OnOk result (self.new ≡ with_height height self.old) }
        ensures err { OnErr result (self.new ≡ self.old) }
    {
        let place = place_of(&self.spans, height);
        widen(&mut self.spans, place, height)
    }

    /// Adds the indexes of entries: all of them, or none where memory runs out.
    pub(crate) fn insert_all<T>(&mut self, entries: &[Entry<T>]) -> Result<(), AllocError>
        ensures ok { OnOk result (self.new ≡ fold (λ rs h. with_height h rs) self.old (heights (map seen entries.now))) }
        ensures err { OnErr result (self.new ≡ self.old) }
    {
        widen_by(&mut self.spans, entries)
    }
}
