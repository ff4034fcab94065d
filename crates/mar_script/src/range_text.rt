//! The text of ranges, kept from line to line and changed where they change.
ghost use Rattle.std.specs.Prelude.{◌≡◌, ◌+◌, ◌-◌, ◌++◌, ◌<◌, ◌≤◌, ◌^◌, [], IsTrue, OnOk, drop, length, string_bytes, take};
ghost use Rattle.std.specs.List.{replace_range, sum};
ghost use Rattle.mar_store.specs.Spans.{ranges_of};
ghost use Rattle.mar_script.specs.SpanTexts.{sizes_of, span_text, spans_text};
ghost use Rattle.mar_script.specs.Shown.{ranges_shown};

use mar_store::HeightSpan;
use std::alloc::{AllocError, Global};
use std::marker::Model;

/// Ranges and their text. A contract sees the ranges.
#[derive(Drop)]
pub struct RangeText {
    spans: Vec<HeightSpan>,
    // How many bytes each span takes in the text.
    sizes: Vec<usize>,
    // Each span with a comma before it.
    text: String,
}

impl Model for RangeText {
    ghost use Rattle.std.specs.Prelude.{◌≡◌, List, string_bytes};
    ghost use Rattle.mar_store.specs.Ranges.{Range};

    ghost Value = { List Range };

    ghost use Rattle.mar_store.specs.Spans.{ranges_of};
    ghost use Rattle.mar_script.specs.SpanTexts.{sizes_of, spans_text};

    ghost view = { λ t. ranges_of t.spans.items };

    ghost invariant = { λ t. (t.sizes.items ≡ sizes_of t.spans.items) × (string_bytes t.text ≡ spans_text t.spans.items) };
}

impl RangeText {
    /// Of no ranges.
    pub fn new(alloc: Global) -> Self
        ensures { result ≡ [] }
    {
        RangeText {
            spans: Vec::new(alloc),
            sizes: Vec::new(alloc),
            text: String::new(alloc),
        }
    }

    /// Takes these spans in place of those that it has. Only the text of those that differ is written anew.
    pub fn set(&mut self, spans: &[HeightSpan]) -> Result<(), AllocError>
        ensures { OnOk result (self.new ≡ ranges_of spans.now) }
    {
        let old = self.spans.as_slice();
        let held = old.len();
        let front = shared_front(old, spans);
        let back = shared_back(old, spans, front);
        if front == held && front == spans.len() {
            return Ok(());
        }
        self.exchange(front, held - back, &spans[front..spans.len() - back])
    }

    // Puts these spans where those from one place to another stand.
    fn exchange(&mut self, from: usize, to: usize, fresh: &[HeightSpan]) -> Result<(), AllocError>
        requires ordered { from ≤ to }
        requires within { to ≤ length self.old }
        ensures { OnOk result (self.new ≡ replace_range self.old from to (ranges_of fresh.now)) }
    {
        let alloc = *self.spans.allocator();
        let mut text = String::new(alloc);
        let mut sizes = Vec::new(alloc);
        push_each(&mut text, &mut sizes, fresh)?;
        let start = total(&self.sizes.as_slice()[..from]);
        let end = self.text.as_str().len() - total(&self.sizes.as_slice()[to..]);
        self.text.replace_range(start..end, text.as_str())?;
        match exchange_both(&mut self.spans, &mut self.sizes, from, to, fresh, &sizes) {
            Ok(()) => Ok(()),
            Err(error) => {
                self.spans.clear();
                self.sizes.clear();
                self.text.clear();
                Err(error)
            }
        }
    }

    /// The text of the ranges.
    pub fn shown(&self) -> &str
        ensures { result.now ≡ ranges_shown self.now }
    {
        if self.spans.as_slice().is_empty() {
            return "-";
        }
        self.text.as_str().split_at(1).1
    }
}

// How many spans from the first on are the same.
fn shared_front(these: &[HeightSpan], those: &[HeightSpan]) -> usize
    ensures within_these { result ≤ length these.now }
    ensures within_those { result ≤ length those.now }
    ensures same { take result these.now ≡ take result those.now }
{
    let end = these.len().min(those.len());
    let mut place = shared_runs(these, those, end);
    while place < end {
        if these[place] != those[place] {
            return place;
        }
        place += 1;
    }
    place
}

// How many spans from the first on are the same, in runs of eight.
fn shared_runs(these: &[HeightSpan], those: &[HeightSpan], end: usize) -> usize
    requires within_these { end ≤ length these.now }
    requires within_those { end ≤ length those.now }
    ensures within { result ≤ end }
    ensures same { take result these.now ≡ take result those.now }
{
    let mut place = 0;
    while end - place >= 8 {
        if !is_same_run(these, those, place) {
            return place;
        }
        place += 8;
    }
    place
}

// Whether the eight spans from a place on are the same, as those before it are. Nothing ends it early, so that it can be
// made of few instructions.
fn is_same_run(these: &[HeightSpan], those: &[HeightSpan], place: usize) -> bool
    requires within_these { place + 8 ≤ length these.now }
    requires within_those { place + 8 ≤ length those.now }
    requires before { take place these.now ≡ take place those.now }
    ensures { IsTrue result → take (place + 8) these.now ≡ take (place + 8) those.now }
{
    let mut same = true;
    for at in place..place + 8 {
        let (this, that) = (these[at], those[at]);
        same &= (this.from == that.from) & (this.to == that.to);
    }
    same
}

// How many spans up to the last are the same, of those behind the first ones.
fn shared_back(these: &[HeightSpan], those: &[HeightSpan], front: usize) -> usize
    requires within_these { front ≤ length these.now }
    requires within_those { front ≤ length those.now }
    ensures of_these { front + result ≤ length these.now }
    ensures of_those { front + result ≤ length those.now }
    ensures same { drop (length these.now - result) these.now ≡ drop (length those.now - result) those.now }
{
    let most = these.len().min(those.len()) - front;
    let mut count = 0;
    while count < most {
        if these[these.len() - 1 - count] != those[those.len() - 1 - count] {
            return count;
        }
        count += 1;
    }
    count
}

// The sum of sizes.
fn total(sizes: &[usize]) -> usize
    ensures { sum sizes.now < 2 ^ 64 → result ≡ sum sizes.now }
{
    let mut total: usize = 0;
    for size in sizes {
        total = total.wrapping_add(*size);
    }
    total
}

// Puts these spans and their sizes where those from one place to another stand.
fn exchange_both(
    spans: &mut Vec<HeightSpan>,
    sizes: &mut Vec<usize>,
    from: usize,
    to: usize,
    fresh: &[HeightSpan],
    fresh_sizes: &[usize],
) -> Result<(), AllocError>
    requires ordered { from ≤ to }
    requires within { to ≤ length spans.old.items }
    requires within_sizes { to ≤ length sizes.old.items }
    ensures spans { OnOk result (spans.new.items ≡ replace_range spans.old.items from to fresh.now) }
    ensures sizes { OnOk result (sizes.new.items ≡ replace_range sizes.old.items from to fresh_sizes.now) }
{
    exchange_items(spans, from, to, fresh)?;
    exchange_items(sizes, from, to, fresh_sizes)
}

// Puts these items where those from one place to another stand.
fn exchange_items<T: Copy>(
    items: &mut Vec<T>,
    from: usize,
    to: usize,
    fresh: &[T],
) -> Result<(), AllocError>
    requires ordered { from ≤ to }
    requires within { to ≤ length items.old.items }
    ensures { OnOk result (items.new.items ≡ replace_range items.old.items from to fresh.now) }
{
    let mut rest = items.split_off(to)?;
    items.truncate(from);
    items.extend_from_slice(fresh)?;
    items.append(&mut rest)
}

// Appends the text of each span, and its size.
fn push_each(
    text: &mut String,
    sizes: &mut Vec<usize>,
    spans: &[HeightSpan],
) -> Result<(), AllocError>
    ensures text { OnOk result (string_bytes text.new ≡ string_bytes text.old ++ spans_text spans.now) }
    ensures sizes { OnOk result (sizes.new.items ≡ sizes.old.items ++ sizes_of spans.now) }
{
    for span in spans {
        let before = text.len();
        push_span(text, *span)?;
        sizes.push(text.len() - before)?;
    }
    Ok(())
}

// Appends a span with a comma before it.
fn push_span(text: &mut String, span: HeightSpan) -> Result<(), AllocError>
    ensures { OnOk result (string_bytes text.new ≡ string_bytes text.old ++ span_text span) }
{
    let (from, to) = (span.from, span.to);
    write!(text, ",{from}-{to}")
}
