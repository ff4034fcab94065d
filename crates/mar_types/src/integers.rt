//! Integers of a fixed size, written as big-endian bytes.
ghost use Rattle.std.specs.Prelude.{◌≡◌, ◌∷◌, [], ℕ, List, false, length, refl, Some};
ghost use Rattle.std.specs.Fmt.{decimal};
ghost use Rattle.std.specs.Int.{w16, w32, w64, to_be_bytes};
ghost use Rattle.mar_types.specs.Digest.{IsBytes};
ghost use Rattle.mar_types.specs.DigestLemmas.{bytes_unambiguous};
ghost use Rattle.mar_types.specs.Refusals.{RefusesShort};

use crate::codec::{EncodeSize, FixedSize, Read, Write, read_array, read_byte};
use crate::error::Error;
use bytes::{Buf, BufMut};
use std::alloc::{AllocError, Global};
use std::fmt;
use std::marker::Model;

impl Write for u8 {
    ghost encoded = { λ value. value ∷ [] };

    fn write<B: BufMut>(&self, buf: &mut B) -> Result<(), AllocError> {
        buf.put_u8(*self)
    }
}

impl EncodeSize for u8 {
    ghost can_encode = { λ _. Unit {0} };

    fn encode_size(&self) -> usize {
        Self::SIZE
    }
}

impl FixedSize for u8 {
    const SIZE: usize = 1;

    ghost SIZE = { 1 };

    ghost sized = { λ _. refl };
}

impl Read for u8 {
    type Cfg = ();

    ghost in_grammar = { λ _. IsBytes 1 };

    ghost refuses = { λ _. RefusesShort 1 };

    ghost takes_memory = { false };

    fn read_cfg<B: Buf>(_alloc: Global, buf: &mut B, _cfg: &()) -> Result<Self, Error> {
        read_byte(buf)
    }

    ghost unambiguous = { λ _. bytes_unambiguous 1 };
}

impl Write for u16 {
    ghost encoded = { λ value. to_be_bytes w16 value };

    fn write<B: BufMut>(&self, buf: &mut B) -> Result<(), AllocError> {
        buf.put_u16(*self)
    }
}

impl EncodeSize for u16 {
    ghost can_encode = { λ _. Unit {0} };

    fn encode_size(&self) -> usize {
        Self::SIZE
    }
}

impl FixedSize for u16 {
    const SIZE: usize = 2;

    ghost SIZE = { 2 };

    ghost sized = { λ _. refl };
}

impl Read for u16 {
    type Cfg = ();

    ghost in_grammar = { λ _. IsBytes 2 };

    ghost refuses = { λ _. RefusesShort 2 };

    ghost takes_memory = { false };

    fn read_cfg<B: Buf>(_alloc: Global, buf: &mut B, _cfg: &()) -> Result<Self, Error> {
        let bytes = read_array(buf)?;
        Ok(u16::from_be_bytes(bytes))
    }

    ghost unambiguous = { λ _. bytes_unambiguous 2 };
}

impl Write for u32 {
    ghost encoded = { λ value. to_be_bytes w32 value };

    fn write<B: BufMut>(&self, buf: &mut B) -> Result<(), AllocError> {
        buf.put_u32(*self)
    }
}

impl EncodeSize for u32 {
    ghost can_encode = { λ _. Unit {0} };

    fn encode_size(&self) -> usize {
        Self::SIZE
    }
}

impl FixedSize for u32 {
    const SIZE: usize = 4;

    ghost SIZE = { 4 };

    ghost sized = { λ _. refl };
}

impl Read for u32 {
    type Cfg = ();

    ghost in_grammar = { λ _. IsBytes 4 };

    ghost refuses = { λ _. RefusesShort 4 };

    ghost takes_memory = { false };

    fn read_cfg<B: Buf>(_alloc: Global, buf: &mut B, _cfg: &()) -> Result<Self, Error> {
        let bytes = read_array(buf)?;
        Ok(u32::from_be_bytes(bytes))
    }

    ghost unambiguous = { λ _. bytes_unambiguous 4 };
}

/// A number that is written as eight big-endian bytes.
#[derive(Clone, Copy, Debug, Default, PartialEq, Eq, PartialOrd, Ord, Hash)]
pub struct U64(u64);

impl Model for U64 {
    ghost Value = { ℕ };

    ghost view = { λ number. number.0 };

    ghost inverse = { λ value. record { 0 = value } };
}

impl U64 {
    /// A number.
    pub fn new(value: u64) -> Self
        ensures { result ≡ value }
    {
        U64(value)
    }

    /// The number's value.
    pub fn get(self) -> u64
        ensures { result ≡ self }
    {
        self.0
    }
}

impl From<u64> for U64 {
    ghost from_gives = { λ value number. number ≡ value };

    fn from(value: u64) -> U64 {
        U64(value)
    }
}

impl From<U64> for u64 {
    ghost from_gives = { λ number value. value ≡ number };

    fn from(number: U64) -> u64 {
        number.0
    }
}

impl fmt::Display for U64 {
    ghost output = { λ number. Some (decimal number) };

    fn fmt<W: fmt::Write>(&self, f: &mut fmt::Formatter<W>) -> fmt::Result {
        let value = self.0;
        write!(f, "{value}")
    }
}

impl Write for U64 {
    ghost encoded = { λ value. to_be_bytes w64 value };

    fn write<B: BufMut>(&self, buf: &mut B) -> Result<(), AllocError> {
        buf.put_u64(self.0)
    }
}

impl EncodeSize for U64 {
    ghost can_encode = { λ _. Unit {0} };

    fn encode_size(&self) -> usize {
        Self::SIZE
    }
}

impl FixedSize for U64 {
    const SIZE: usize = 8;

    ghost SIZE = { 8 };

    ghost sized = { λ _. refl };
}

impl Read for U64 {
    type Cfg = ();

    ghost in_grammar = { λ _. IsBytes 8 };

    ghost refuses = { λ _. RefusesShort 8 };

    ghost takes_memory = { false };

    fn read_cfg<B: Buf>(_alloc: Global, buf: &mut B, _cfg: &()) -> Result<Self, Error> {
        let bytes = read_array(buf)?;
        Ok(U64(u64::from_be_bytes(bytes)))
    }

    ghost unambiguous = { λ _. bytes_unambiguous 8 };
}
