//! What a journal keeps: records, each by a spelling that begins no other.
ghost use Rattle.std.specs.Prelude.{◌≡◌, ◌<◌, ◌++◌, ℕ, List, length, IfOk, OnOk, MatchOption};
ghost use Rattle.mar_journal.specs.Records.{StandsFirst};

use std::alloc::{AllocError, Global};

/// A record of a journal.
pub trait Record: Drop {
    /// Its bytes.
    ghost spelled: { Self → List ℕ };

    /// It may stand in a file.
    ghost valid: { Self → Type 0 };

    /// Appends its bytes.
    fn write(&self, out: &mut Vec<u8>) -> Result<(), AllocError>
        ensures { OnOk result (out.new.items ≡ out.old.items ++ spelled self.now) };

    /// The record at the front, and how many bytes it takes; none where no record stands there.
    fn read(alloc: Global, bytes: &[u8]) -> Result<Option<(Self, usize)>, AllocError>
    where
        Self: Sized,
        ensures { IfOk result (λ found. MatchOption found
            ((r : Self) (rest : List ℕ) → valid r → bytes.now ≡ spelled r ++ rest → ⊥)
            (λ f. StandsFirst spelled valid f.0 f.1 bytes.now)) };

    ghost one: { (r s : Self) (a b : List ℕ) → valid r → valid s → spelled r ++ a ≡ spelled s ++ b → r ≡ s };

    ghost some: { (r : Self) → 0 < length (spelled r) };
}
