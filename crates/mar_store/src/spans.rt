//! Spans that ascend, and one more height in them.
ghost use Rattle.std.specs.Prelude.{◌≡◌, ◌+◌, ◌++◌, ◌<◌, ◌≤◌, ◌↔◌, take, drop, fold, length, map, vec_capacity, vec_len, IsTrue, OnOk, OnErr};
ghost use Rattle.mar_store.specs.Changes.{heights};
ghost use Rattle.mar_store.specs.Entries.{seen};
ghost use Rattle.mar_store.specs.Gaps.{ranges_from};
ghost use Rattle.mar_store.specs.Ranges.{in_ranges, last_end, with_height};
ghost use Rattle.mar_store.specs.Spans.{ranges_of, AscendFrom, AreOrdered, IsReached, IsAlone, IsFollowed, BeginsAfter};

use crate::HeightSpan;
use crate::entry::Entry;
use std::alloc::AllocError;

// Whether the span ends two or more below the height.
fn ends_before(span: HeightSpan, height: u64) -> bool
    ensures { IsTrue result ↔ (span.to + 1 < height) }
{
    span.to < height && height - span.to > 1
}

/// The end of the last span.
pub fn last_of(spans: &[HeightSpan]) -> Option<u64>
    ensures { result ≡ last_end (ranges_of spans.now) }
{
    match spans.last() {
        Some(span) => Some(span.to),
        None => None,
    }
}

/// The place of the first span that ends less than two below the height, found by halving.
pub fn place_of(spans: &[HeightSpan], height: u64) -> usize
    requires { AscendFrom 0 (ranges_of spans.now) }
    ensures within { result ≤ length spans.now }
    ensures reached { IsReached height (drop result (ranges_of spans.now)) }
    ensures apart { with_height height (ranges_of spans.now)
        ≡ take result (ranges_of spans.now) ++ with_height height (drop result (ranges_of spans.now)) }
{
    let mut low = 0;
    let mut high = spans.len();
    'halves: while low < high {
        let middle = low + (high - low) / 2;
        if ends_before(spans[middle], height) {
            low = middle + 1;
        } else {
            high = middle;
        }
    }
    low
}

/// The place of the first span that doesn't end below the height, found by halving.
pub fn place_from(spans: &[HeightSpan], height: u64) -> usize
    requires { AscendFrom 0 (ranges_of spans.now) }
    ensures within { result ≤ length spans.now }
    ensures rest { drop result (ranges_of spans.now) ≡ ranges_from (ranges_of spans.now) height }
{
    let mut low = 0;
    let mut high = spans.len();
    'halves: while low < high {
        let middle = low + (high - low) / 2;
        if spans[middle].to < height {
            low = middle + 1;
        } else {
            high = middle;
        }
    }
    low
}

/// Whether a span has the height.
pub fn has_height(spans: &[HeightSpan], height: u64) -> bool
    requires { AscendFrom 0 (ranges_of spans.now) }
    ensures { result ≡ in_ranges (ranges_of spans.now) height }
{
    let place = place_from(spans, height);
    place < spans.len() && spans[place].from <= height
}

/// Adds the indexes of entries: all of them, or none where memory runs out. Room is made before the first.
pub fn widen_by<T>(spans: &mut Vec<HeightSpan>, entries: &[Entry<T>]) -> Result<(), AllocError>
    requires { AscendFrom 0 (ranges_of spans.old.items) }
    ensures ok { OnOk result (ranges_of spans.new.items
        ≡ fold (λ rs h. with_height h rs) (ranges_of spans.old.items) (heights (map seen entries.now))) }
    ensures err { OnErr result (spans.new.items ≡ spans.old.items) }
    ensures ascend { AscendFrom 0 (ranges_of spans.new.items) }
{
    spans.reserve(entries.len())?;
    let mut place = 0;
    while place < entries.len() {
        let height = entries[place].index;
        let at = place_of(spans, height);
        widen(spans, at, height)?;
        place += 1;
    }
    Ok(())
}

/// Puts the height into the span at that place or before it; spans that then touch are joined.
pub fn widen(spans: &mut Vec<HeightSpan>, place: usize, height: u64) -> Result<(), AllocError>
    requires within { place ≤ vec_len spans.old }
    requires reached { IsReached height (drop place (ranges_of spans.old.items)) }
    requires ascend { AreOrdered (ranges_of spans.old.items) }
    ensures ok { OnOk result (ranges_of spans.new.items
        ≡ take place (ranges_of spans.old.items) ++ with_height height (drop place (ranges_of spans.old.items))) }
    ensures err { OnErr result (spans.new.items ≡ spans.old.items) }
    ensures len { vec_len spans.new ≤ vec_len spans.old + 1 }
    ensures capacity { vec_capacity spans.old ≤ vec_capacity spans.new }
    ensures full { OnErr result (vec_capacity spans.old ≤ vec_len spans.old) }
{
    if place == spans.len() {
        return insert_alone(spans, place, height);
    }
    let span = spans[place];
    if height < span.from {
        if !follows(span.from, height) {
            return insert_alone(spans, place, height);
        }
        spans[place] = HeightSpan {
            from: height,
            to: span.to,
        };
    } else if height > span.to {
        extend(spans, place, height);
    }
    Ok(())
}

// Whether a number is one more than another.
fn follows(next: u64, height: u64) -> bool
    ensures { IsTrue result ↔ (next ≡ height + 1) }
{
    height < next && next - height == 1
}

// Inserts a span of that height alone.
fn insert_alone(spans: &mut Vec<HeightSpan>, place: usize, height: u64) -> Result<(), AllocError>
    requires within { place ≤ vec_len spans.old }
    requires alone { IsAlone height (drop place (ranges_of spans.old.items)) }
    ensures ok { OnOk result (ranges_of spans.new.items
        ≡ take place (ranges_of spans.old.items) ++ with_height height (drop place (ranges_of spans.old.items))) }
    ensures err { OnErr result (spans.new.items ≡ spans.old.items) }
    ensures len { vec_len spans.new ≤ vec_len spans.old + 1 }
    ensures capacity { vec_capacity spans.old ≤ vec_capacity spans.new }
    ensures full { OnErr result (vec_capacity spans.old ≤ vec_len spans.old) }
{
    spans.insert(
        place,
        HeightSpan {
            from: height,
            to: height,
        },
    )?;
    Ok(())
}

// Ends the span at that place with the height, which follows it, or where the next one follows the
// height with the end of that one.
fn extend(spans: &mut Vec<HeightSpan>, place: usize, height: u64)
    requires within { place < vec_len spans.old }
    requires followed { IsFollowed height (drop place (ranges_of spans.old.items)) }
    ensures ok { ranges_of spans.new.items
        ≡ take place (ranges_of spans.old.items) ++ with_height height (drop place (ranges_of spans.old.items)) }
    ensures len { vec_len spans.new ≤ vec_len spans.old + 1 }
    ensures capacity { vec_capacity spans.old ≤ vec_capacity spans.new }
{
    let from = spans[place].from;
    if begins_after(spans, place + 1, height) {
        let to = spans.remove(place + 1).to;
        spans[place] = HeightSpan { from, to };
        return;
    }
    spans[place] = HeightSpan { from, to: height };
}

// Whether a span stands at that place and begins just above the height.
fn begins_after(spans: &[HeightSpan], place: usize, height: u64) -> bool
    ensures { IsTrue result ↔ BeginsAfter height (drop place (ranges_of spans.now)) }
{
    place < spans.len() && follows(spans[place].from, height)
}
