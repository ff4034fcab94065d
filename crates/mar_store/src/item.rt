//! What an archive keeps.
ghost use Rattle.std.specs.Prelude.{◌≡◌, ℕ, List, Bool, IfOk};
ghost use Rattle.std.specs.Ordering.{nat_cmp};
ghost use Rattle.std.specs.Cmp.Lexicographic.{slice_cmp};

use mar_types::{Digest, Named};
use std::alloc::AllocError;
use std::convert::AsSlice;

/// The most bytes that an archived value may take.
pub const MAX_VALUE_SIZE: u64 = 1_048_576;

const _: () = prove!(MAX_VALUE_SIZE == 1_048_576);

/// What an archive finds a value by: a name that its bytes spell and order. Each digest is one.
pub trait ItemKey: Named + AsSlice<u8> + Ord {
    ghost shown: { (key : Self) → Self.items key ≡ Self.bytes key };

    ghost ordered: { (key other : Self) → Self.cmp key other ≡ slice_cmp nat_cmp (Self.bytes key) (Self.bytes other) };
}

impl<D: Digest> ItemKey for D {
    ghost shown = { D.shown };

    ghost ordered = { D.ordered };
}

/// A value that an archive keeps. Its digest names it.
pub trait Item: Drop {
    type Key: ItemKey;

    // The bytes of its digest.
    ghost name: { Self → List ℕ };

    // How many bytes it takes where it is written.
    ghost size: { Self → ℕ };

    // Whether it may stand at an index, as a block at its own height.
    ghost fits: { ℕ → Self → Bool };

    /// The digest that names it.
    fn key(&self) -> Self::Key
        ensures { Self.Key.bytes result ≡ name self.now };

    fn try_clone(&self) -> Result<Self, AllocError>
    where
        Self: Sized,
        ensures { IfOk result (λ v. v ≡ self.now) };
}
