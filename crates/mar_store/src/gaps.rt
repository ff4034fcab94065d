//! What ranges of heights hold, and what is missing between them.
ghost use Rattle.std.specs.Prelude.{◌≡◌, ◌<◌, ◌≤◌, ◌++◌, ◌-◌, ℕ, List, Contains, IfOk, OnOk, drop, length, option_map, slice_get, vec_len, take};
ghost use Rattle.mar_store.specs.Ranges.{ranges};
ghost use Rattle.mar_store.specs.Spans.{ranges_of, AscendFrom};
ghost use Rattle.mar_store.specs.Gaps.{AscendAbove, BeginsNext, EndsRun, IsMissing, missing_from, missing_items, next_start, numbers, range_end, ranges_from};

use crate::HeightSpan;
use crate::spans::place_from;
use mar_types::Height;
use std::alloc::{AllocError, Global};

/// The lowest heights from `start` on that are missing below some span, at most `max`. What it takes grows with these
/// and with the digits of how many spans there are: the first span that tells is found by halving, and no two touch.
pub fn missing_items(
    alloc: Global,
    spans: &[HeightSpan],
    start: Height,
    max: usize,
) -> Result<Vec<Height>, AllocError>
    requires { AscendFrom 0 (ranges_of spans.now) }
    ensures { IfOk result (λ v. v.items ≡ missing_items (ranges_of spans.now) start max) }
{
    missing_below(alloc, ranges_from(spans, start), start, max)
}

// The same, of spans that are all walked over until there are `max`.
fn missing_below(
    alloc: Global,
    spans: &[HeightSpan],
    start: Height,
    max: usize,
) -> Result<Vec<Height>, AllocError>
    ensures { IfOk result (λ v. v.items ≡ missing_items (ranges_of spans.now) start max) }
{
    let mut missing = Vec::new(alloc);
    let mut next = start.get();
    for span in spans {
        if missing.len() >= max {
            return Ok(missing);
        }
        push_below(&mut missing, next, start_of(*span), max)?;
        next = next.max(span.to.saturating_add(1));
    }
    Ok(missing)
}

// The first height of a span.
fn start_of(span: HeightSpan) -> u64
    ensures { result ≡ span.from }
{
    span.from
}

// Adds the heights from one on, up to below another, until there are `max`.
fn push_below(missing: &mut Vec<Height>, from: u64, to: u64, max: usize) -> Result<(), AllocError>
    requires { vec_len missing.old ≤ max }
    ensures { OnOk result (missing.new.items ≡ take max (missing.old.items ++ numbers from to)) }
{
    for height in from..to {
        if missing.len() >= max {
            return Ok(());
        }
        missing.push(Height::new(height))?;
    }
    Ok(())
}

/// The end of the span that holds a height, and the start of the next span after it. One search by halving finds both.
pub fn next_gap(spans: &[HeightSpan], height: Height) -> (Option<Height>, Option<Height>)
    requires { AscendFrom 0 (ranges_of spans.now) }
    ensures end { result.0 ≡ range_end (ranges_of spans.now) height }
    ensures start { result.1 ≡ next_start (ranges_of spans.now) height }
{
    let place = place_from(spans, height.get());
    if place >= spans.len() {
        return (None, None);
    }
    let span = spans[place];
    if height.get() < span.from {
        return (None, Some(Height::new(span.from)));
    }
    (Some(Height::new(span.to)), start_at(spans, place + 1))
}

// The first height of the span at a place.
fn start_at(spans: &[HeightSpan], place: usize) -> Option<Height>
    ensures { result ≡ option_map (λ s. s.from) (slice_get spans.now place) }
{
    match spans.get(place) {
        Some(span) => Some(Height::new(span.from)),
        None => None,
    }
}

/// The spans that overlap or follow a height. The first of them is found by halving.
pub fn ranges_from(spans: &[HeightSpan], height: Height) -> &[HeightSpan]
    requires { AscendFrom 0 (ranges_of spans.now) }
    ensures { ranges_of result.now ≡ ranges_from (ranges_of spans.now) height }
{
    let place = place_from(spans, height.get());
    &spans[place..]
}

/// What the missing items and the ends and starts of ranges say of the heights that make the ranges: the missing ones
/// ascend, and are all that the heights lack below one of them; an end is that of a run without a hole, and the
/// next start is the first height above whose forerunner is missing.
pub fn gap_laws()
    ensures ascending { (heights : List ℕ) (start : ℕ) → AscendAbove start (missing_from (ranges heights) start) }
    ensures only { (heights : List ℕ) (start h : ℕ) → Contains (missing_from (ranges heights) start) h → IsMissing heights start h }
    ensures all { (heights : List ℕ) (start h : ℕ) → IsMissing heights start h → Contains (missing_from (ranges heights) start) h }
    ensures end { (heights : List ℕ) (h e : ℕ) → range_end (ranges heights) h ≡ Some e → EndsRun heights h e }
    ensures no_end { (heights : List ℕ) (h : ℕ) → range_end (ranges heights) h ≡ None → Contains heights h → ⊥ }
    ensures next { (heights : List ℕ) (h s : ℕ) → next_start (ranges heights) h ≡ Some s → BeginsNext heights h s }
    ensures no_next { (heights : List ℕ) (h : ℕ) → next_start (ranges heights) h ≡ None
        → (k : ℕ) → h < k → Contains heights k → Contains heights (k - 1) }
{}
