//! Digests, and what computes them.
ghost use Rattle.std.specs.Prelude.{◌≡◌, ◌<◌, ◌^◌, ℕ, List, Bool, false, replicate, bytes_eq, [], ◌++◌, Some};
ghost use Rattle.hex.specs.Hex.{encode_lower};
ghost use Rattle.std.specs.Ordering.{nat_cmp};
ghost use Rattle.std.specs.Cmp.Lexicographic.{slice_cmp};
ghost use Rattle.std.specs.List.{AllByRecursion};
ghost use Rattle.mar_types.specs.Digest.{IsByte};

use crate::codec::{FixedSize, Read};
use crate::words::Words;
use std::convert::AsSlice;
use std::fmt::{Debug, Display};
use std::hash::Hash;

/// A name: its bytes tell it from others.
pub trait Named: Copy + PartialEq {
    // The name's bytes.
    ghost bytes: { Self → List ℕ };

    ghost equal: { (name other : Self) → Self.eq name other ≡ bytes_eq (bytes name) (bytes other) };
}

/// A digest: so many bytes, which spell it, order it and tell it from others.
pub trait Digest: Named + FixedSize + Read<Cfg = ()> + AsSlice<u8> + Ord + Hash + Debug + Display {
    // How a digest's bytes are drawn, by what a generator says of its words and of its bytes.
    ghost drawn: { {State : Type 0} → (State → ℕ → State → Type 0)
        → (State → List ℕ → State → Type 0) → State → List ℕ → State → Type 0 };

    /// The digest whose bytes are all zero.
    fn empty() -> Self
        ensures { Self.bytes result ≡ replicate Self.SIZE 0 };

    /// A digest of random bytes.
    fn random<W: Words>(words: &mut W) -> Self
        ensures { drawn W.gives_word W.gives_bytes words.old (Self.bytes result) words.new };

    ghost spelled: { (digest : Self) → Self.encoded digest ≡ Self.bytes digest };

    ghost shown: { (digest : Self) → Self.items digest ≡ Self.bytes digest };

    ghost printed: { (digest : Self) → Self.output digest ≡ Some (encode_lower (Self.bytes digest)) };

    ghost debugged: { (digest : Self) → Self.debug_output digest
        ≡ Some (encode_lower (Self.bytes digest)) };

    ghost are_bytes: { (digest : Self) → AllByRecursion IsByte (Self.bytes digest) };

    ghost injective: { (digest other : Self) → Self.bytes digest ≡ Self.bytes other → digest ≡ other };

    ghost ordered: { (digest other : Self) → Self.cmp digest other
        ≡ slice_cmp nat_cmp (Self.bytes digest) (Self.bytes other) };

    ghost fixed: { Self.takes_memory ≡ false };

    // So that the size of a digest and of a few bytes beside it fits a `usize`.
    ghost short: { Self.SIZE < 2 ^ 32 };
}

/// A hash function: a hasher takes a message piece by piece.
pub trait Hasher: Drop + Sized {
    /// What it computes.
    type Digest: Digest;

    // The hasher holds this message.
    ghost holds: { Self → List ℕ → Type 0 };

    // The bytes of this message's digest.
    ghost digest_of: { List ℕ → List ℕ };

    /// A hasher of the empty message.
    fn new() -> Self
        ensures { holds result [] };

    /// Adds `message` to the message.
    fn update(&mut self, message: &[u8])
        ensures { (before : List ℕ) → holds self.old before
            → holds self.new (before ++ message.now) };

    /// The digest of the message.
    fn finalize(self) -> Self::Digest
        ensures { (message : List ℕ) → holds self message
            → Self.Digest.bytes result ≡ digest_of message };

    /// The digest that is this byte throughout.
    fn fill(byte: u8) -> Self::Digest
        ensures { Self.Digest.bytes result ≡ replicate Self.Digest.SIZE byte };
}

/// A value that has a digest.
pub trait Digestible {
    /// What its digest is.
    type Digest: Digest;

    // The digest's bytes.
    ghost digest_bytes: { Self → List ℕ };

    /// The value's digest.
    fn digest(&self) -> Self::Digest
        ensures { Self.Digest.bytes result ≡ digest_bytes self.now };
}
