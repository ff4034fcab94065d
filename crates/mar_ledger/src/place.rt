//! Where a height stands to a ledger's.
ghost use Rattle.std.specs.Prelude.{◌≡◌, ◌≤◌, ◌<◌, Option, ℕ};
ghost use Rattle.mar_ledger.specs.Ledger.{IsPlacedBy, next_of};

use mar_types::Height;

// Where a height stands to that of a ledger.
#[derive(Clone, Copy)]
pub(crate) enum Place {
    // At or below it.
    Before,
    // The next one.
    Next,
    // Above the next one, which is this.
    Above(Height),
}

/// Where a height stands to that of the last block.
pub(crate) fn place_of(last: Option<Height>, height: Height) -> Place
    ensures { IsPlacedBy last height result }
{
    match last {
        None => place_from(Height::zero(), height),
        Some(last) => {
            if height.get() <= last.get() {
                Place::Before
            } else {
                place_from(last.next(), height)
            }
        }
    }
}

// Where a height stands to the next one, which isn't above it.
fn place_from(expected: Height, height: Height) -> Place
    requires { expected ≤ height }
    ensures { (last : Option ℕ) → expected ≡ next_of last → IsPlacedBy last height result }
{
    if height.get() == expected.get() {
        Place::Next
    } else {
        Place::Above(expected)
    }
}
