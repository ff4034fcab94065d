//! Why a store is lost whose journal wasn't opened.
ghost use Rattle.std.specs.Prelude.{◌≡◌};
ghost use Rattle.mar_journal_stores.specs.Reasons.{damage_of, miss_of};

use mar_journal::Unopened;
use mar_store::Miss;

/// Why it is lost, and where damage was seen, which counts as a fault.
pub fn told_by(reason: Unopened) -> (Miss, Option<usize>)
    ensures miss { result.0 ≡ miss_of reason }
    ensures damage { result.1 ≡ damage_of reason }
{
    match reason {
        Unopened::Fault => (Miss::Fault, None),
        Unopened::Memory => (Miss::Memory, None),
        Unopened::Damaged(at) => (Miss::Fault, Some(at)),
    }
}
