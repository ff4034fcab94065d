//! The newest of the heights that ranges hold.
ghost use Rattle.std.specs.Prelude.{◌≡◌};
ghost use Rattle.mar_store.specs.Spans.{range_of, ranges_of};
ghost use Rattle.mar_model.specs.Newest.{upto, upto_in};

use mar_store::HeightSpan;
use mar_types::Height;

/// The greatest height of these spans, which ascend, that is at or below this one.
pub fn last_upto(spans: &[HeightSpan], height: Height) -> Option<Height>
    ensures { result ≡ upto (ranges_of spans.now) height }
{
    let mut found = None;
    for span in spans {
        found = newer(found, *span, height);
    }
    found
}

// The greatest height of a span that is at or below this one, or else what was found before.
fn newer(found: Option<Height>, span: HeightSpan, height: Height) -> Option<Height>
    ensures { result ≡ upto_in found (range_of span) height }
{
    if span.from <= height.get() {
        Some(Height::new(span.to.min(height.get())))
    } else {
        found
    }
}
