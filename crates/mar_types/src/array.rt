//! Values that serve as keys.
ghost use Rattle.std.specs.Prelude.{◌≡◌};

use crate::codec::{FixedSize, Read};
use std::convert::AsSlice;
use std::fmt::{Debug, Display};
use std::hash::Hash;

/// A value that serves as a key, in a map or in what is asked of a peer: it is written and read, compared, ordered,
/// hashed and printed. No two of them have one spelling, so what was written of one is read back as it was.
pub trait Span: Read + Clone + Ord + Hash + Debug + Display {
    ghost told: { (value other : Self) → Self.encoded value ≡ Self.encoded other → value ≡ other };
}

/// A span whose spelling always has one length, and that is seen as those bytes.
pub trait Array: Span + FixedSize + Copy + AsSlice<u8> {
    ghost seen: { (value : Self) → Self.items value ≡ Self.encoded value };
}
