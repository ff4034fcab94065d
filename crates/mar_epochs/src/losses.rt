//! How a store was lost, whatever is left of it.
ghost use Rattle.std.specs.Prelude.{◌≡◌};
ghost use Rattle.mar_store.specs.Lost.{wreck_of};
ghost use Rattle.mar_epochs.specs.EpochArchives.{is_fault};

use mar_store::Lost;

/// Whether a store failed, or memory ran out; and what is left of it.
pub fn parts_of<W>(lost: Lost<W>) -> (bool, W)
    ensures fault { result.0 ≡ is_fault lost }
    ensures wreck { result.1 ≡ wreck_of lost }
{
    match lost {
        Lost::Fault(wreck) => (true, wreck),
        Lost::Memory(wreck) => (false, wreck),
    }
}

/// A store of which this is left failed, or memory ran out.
pub fn lost_by<W>(failed: bool, wreck: W) -> Lost<W>
    ensures fault { is_fault result ≡ failed }
    ensures wreck { wreck_of result ≡ wreck }
{
    if failed {
        Lost::Fault(wreck)
    } else {
        Lost::Memory(wreck)
    }
}
