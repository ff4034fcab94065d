//! Values that an archive keeps in a journal.
ghost use Rattle.std.specs.Prelude.{◌≡◌, ◌++◌, ℕ, List, true, length, IfOk, MatchOption, OnOk};

use mar_store::Item;
use std::alloc::{AllocError, Global};

/// A value that has bytes, from which it is read back, and a name of 32 bytes. All that is said of its bytes and its name is
/// said of a value that fits at an index, so that `fits` can say which of the plain records are values at all.
pub trait JournalItem: Item {
    /// Its bytes.
    ghost spelled: { Self → List ℕ };

    /// Appends its bytes.
    fn write(&self, out: &mut Vec<u8>) -> Result<(), AllocError>
        ensures { OnOk result (out.new.items ≡ out.old.items ++ spelled self.now) };

    /// The value that all these bytes are, which may stand at that index; none where there is none.
    fn read(alloc: Global, index: u64, bytes: &[u8]) -> Result<Option<Self>, AllocError>
    where
        Self: Sized,
        ensures { IfOk result (λ found. MatchOption found
            ((value : Self) → Self.fits index value ≡ true → spelled value ≡ bytes.now → ⊥)
            (λ value. (Self.fits index value ≡ true) × (spelled value ≡ bytes.now))) };

    ghost sized: { (index : ℕ) (value : Self) → Self.fits index value ≡ true → length (spelled value) ≡ Self.size value };

    ghost one: { (index : ℕ) (value other : Self) → Self.fits index value ≡ true → Self.fits index other ≡ true
        → spelled value ≡ spelled other → value ≡ other };

    ghost keyed: { (index : ℕ) (value : Self) → Self.fits index value ≡ true → length (Self.name value) ≡ 32 };
}
