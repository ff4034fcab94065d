//! SHA-256.
ghost use Rattle.std.specs.Prelude.{false, length, ◌≡◌, refl, Some, IfSome, IfNone, List, ℕ};
ghost use Rattle.std.proofs.Common.{lit<};
ghost use Rattle.hex.specs.Hex.{encode_lower};
ghost use Rattle.sha2.specs.Sha256.{sha256};
ghost use Rattle.sha2.specs.Hashers.{Holds256};
ghost use Rattle.mar_types.specs.Digest.{IsBytes, IsBytes-prop, IsDigest};
ghost use Rattle.mar_types.specs.DigestLemmas.{bytes_unambiguous, same_proof};
ghost use Rattle.mar_types.specs.Refusals.{RefusesShort};

use crate::array::{Array, Span};
use crate::codec::{EncodeSize, FixedSize, Read, Write, read_array};
use crate::digest::{Digest, Hasher, Named};
use crate::error::Error;
use crate::hexadecimal::write_hex;
use crate::words::Words;
use bytes::{Buf, BufMut};
use std::alloc::{AllocError, Global};
use std::convert::AsSlice;
use std::fmt;

/// A SHA-256 digest: 32 bytes.
#[derive(Clone, Copy, PartialEq, Eq, PartialOrd, Ord, Hash)]
pub struct Sha256Digest {
    /// The digest's bytes, in order.
    pub bytes: [u8; 32],
    ghost is_digest: { IsDigest bytes } by { IsBytes-prop 32 bytes },
}

impl From<[u8; 32]> for Sha256Digest {
    ghost from_gives = { λ bytes digest. digest.bytes ≡ bytes };

    fn from(bytes: [u8; 32]) -> Self {
        Sha256Digest::from_slice(&bytes)
    }
}

impl Sha256Digest {
    // A slice, since a slice tells of each item that it is a byte.
    fn from_slice(slice: &[u8]) -> Self
        requires { length slice.now ≡ 32 }
        ensures { result.bytes ≡ slice.now }
    {
        let mut bytes = [0; 32];
        bytes.copy_from_slice(slice);
        Sha256Digest { bytes }
    }

    /// The digest that 64 lower-case hexadecimal digits spell.
    pub fn from_hex(text: &[u8]) -> Option<Self>
        ensures found { IfSome result (λ digest. text.now ≡ encode_lower digest.bytes) }
        ensures only { IfNone result ((bytes : List ℕ) → IsDigest bytes
            → text.now ≡ encode_lower bytes → ⊥) }
    {
        let mut bytes = [0; 32];
        let mut again = [0; 64];
        hex::decode_to_slice(text, &mut bytes).ok()?;
        hex::encode_to_slice(&bytes[..], &mut again).ok()?;
        if &again[..] != text {
            return None;
        }
        Some(Self::from(bytes))
    }
}

impl AsSlice<u8> for Sha256Digest {
    ghost items = { λ digest. digest.bytes };

    fn as_slice(&self) -> &[u8] {
        &self.bytes
    }
}

impl fmt::Display for Sha256Digest {
    ghost output = { λ digest. Some (encode_lower digest.bytes) };

    fn fmt<W: fmt::Write>(&self, f: &mut fmt::Formatter<W>) -> fmt::Result {
        write_hex(f, &self.bytes, &mut [0; 64])
    }
}

impl fmt::Debug for Sha256Digest {
    ghost debug_output = { λ digest. Some (encode_lower digest.bytes) };

    fn fmt<W: fmt::Write>(&self, f: &mut fmt::Formatter<W>) -> fmt::Result {
        write_hex(f, &self.bytes, &mut [0; 64])
    }
}

impl Write for Sha256Digest {
    ghost encoded = { λ digest. digest.bytes };

    fn write<B: BufMut>(&self, buf: &mut B) -> Result<(), AllocError> {
        buf.put_slice(&self.bytes)
    }
}

impl EncodeSize for Sha256Digest {
    ghost can_encode = { λ _. Unit {0} };

    fn encode_size(&self) -> usize {
        Self::SIZE
    }
}

impl FixedSize for Sha256Digest {
    const SIZE: usize = 32;

    ghost SIZE = { 32 };

    ghost sized = { λ digest. digest.is_digest.0 };
}

impl Read for Sha256Digest {
    type Cfg = ();

    ghost in_grammar = { λ _. IsDigest };

    ghost refuses = { λ _. RefusesShort 32 };

    ghost takes_memory = { false };

    fn read_cfg<B: Buf>(_alloc: Global, buf: &mut B, _cfg: &()) -> Result<Self, Error> {
        let bytes = read_array(buf)?;
        Ok(Self::from(bytes))
    }

    ghost unambiguous = { λ _. bytes_unambiguous 32 };
}

impl Named for Sha256Digest {
    ghost bytes = { λ digest. digest.bytes };

    ghost equal = { λ digest other. refl };
}

impl Digest for Sha256Digest {
    ghost drawn = { λ gives_word gives_bytes old bytes new. gives_bytes old bytes new };

    fn empty() -> Self {
        Self::from([0; 32])
    }

    fn random<W: Words>(words: &mut W) -> Self {
        let mut bytes = [0; 32];
        words.fill(&mut bytes);
        Self::from(bytes)
    }

    ghost spelled = { λ digest. refl };

    ghost shown = { λ digest. refl };

    ghost printed = { λ digest. refl };

    ghost debugged = { λ digest. refl };

    ghost are_bytes = { λ digest. digest.is_digest.1 };

    ghost injective = { λ digest other e. λ i. record {
      bytes = e i;
      is_digest = same_proof 32 _ _ e digest.is_digest other.is_digest i;
    } };

    ghost ordered = { λ digest other. refl };

    ghost fixed = { refl };

    ghost short = { lit< tt };
}

impl Span for Sha256Digest {
    ghost told = { λ digest other e. λ i. record {
      bytes = e i;
      is_digest = same_proof 32 _ _ e digest.is_digest other.is_digest i;
    } };
}

impl Array for Sha256Digest {
    ghost seen = { λ digest. refl };
}

/// The SHA-256 hash function.
#[derive(Drop)]
pub struct Sha256 {
    state: sha2::Sha256,
}

impl Hasher for Sha256 {
    type Digest = Sha256Digest;

    ghost holds = { λ hasher message. Holds256 hasher.state message };

    ghost digest_of = { sha256 };

    fn new() -> Self {
        Sha256 {
            state: <sha2::Sha256 as sha2::Digest>::new(),
        }
    }

    fn update(&mut self, message: &[u8]) {
        sha2::Digest::update(&mut self.state, message);
    }

    fn finalize(self) -> Sha256Digest {
        Sha256Digest::from(sha2::Digest::finalize(self.state))
    }

    fn fill(byte: u8) -> Sha256Digest {
        Sha256Digest::from([byte; 32])
    }
}
