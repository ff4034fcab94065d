//! The proposer's own rule.
ghost use Rattle.std.specs.Prelude.{IsTrue, ◌↔◌};
ghost use Rattle.mar_proposer.specs.Rules.{AreTimely, IsTimely};

/// How much later than its parent a block may be made, in milliseconds.
pub const MOST: u64 = 5_000;

/// Whether each block was made after its parent, and at most `MOST` later; by their times, newest first.
pub fn are_timely(times: &[u64]) -> bool
    ensures { IsTrue result ↔ AreTimely 5000 times.now }
{
    let mut rest = times;
    while let Some((child, more)) = rest.split_first() {
        if !is_timely(*child, more) {
            return false;
        }
        rest = more;
    }
    true
}

// Whether a block was made after its parent, if one follows, and at most `MOST` later.
fn is_timely(child: u64, more: &[u64]) -> bool
    ensures { IsTrue result ↔ IsTimely 5000 child more.now }
{
    match more.first() {
        None => true,
        Some(parent) => *parent < child && child - *parent <= MOST,
    }
}
