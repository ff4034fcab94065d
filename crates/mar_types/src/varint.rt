//! Numbers in few bytes: seven bits a byte, low bits first, the top bit set on every byte but the
//! last.
ghost use Rattle.std.specs.Prelude.{false};
ghost use Rattle.mar_types.specs.Varint.{IsVarint, varint};
ghost use Rattle.mar_types.specs.Refusals.{RefusesVarint};
ghost use Rattle.mar_types.specs.VarintLemmas.{length-varint, varint_unambiguous};

use crate::codec::{EncodeSize, MaxEncodeSize, Read, Write, read_byte};
use crate::error::Error;
use bytes::{Buf, BufMut};
use std::alloc::{AllocError, Global};

/// A number that is written as a varint, in at most ten bytes.
#[derive(Clone, Copy, Debug, Default, PartialEq, Eq, PartialOrd, Ord, Hash)]
pub struct UInt(pub u64);

impl Write for UInt {
    ghost encoded = { λ value. varint value.0 };

    fn write<B: BufMut>(&self, buf: &mut B) -> Result<(), AllocError> {
        let mut value = self.0;
        'bytes: while value >= 128 {
            buf.put_u8((value % 128 + 128) as u8)?;
            value /= 128;
        }
        buf.put_u8(value as u8)
    }
}

impl EncodeSize for UInt {
    ghost can_encode = { λ _. Unit {0} };

    fn encode_size(&self) -> usize {
        let mut size = 1;
        let mut value = self.0;
        'bytes: while value >= 128 {
            size += 1;
            value /= 128;
        }
        size
    }
}

impl MaxEncodeSize for UInt {
    const MAX_ENCODE_SIZE: usize = 10;

    ghost MAX_ENCODE_SIZE = { 10 };

    ghost within = { λ value. length-varint value.0 };
}

impl Read for UInt {
    type Cfg = ();

    ghost in_grammar = { λ _. IsVarint };

    ghost refuses = { λ _. RefusesVarint };

    ghost takes_memory = { false };

    fn read_cfg<B: Buf>(_alloc: Global, buf: &mut B, _cfg: &()) -> Result<Self, Error> {
        let mut value = 0;
        let mut weight = 1;
        'bytes: for place in 0..9u32 {
            let byte = read_byte(buf)?;
            if byte < 128 {
                if byte == 0 && place > 0 {
                    return Err(Error::InvalidVarint);
                }
                return Ok(UInt(value + u64::from(byte) * weight));
            }
            value += u64::from(byte - 128) * weight;
            weight *= 128;
        }
        if read_byte(buf)? != 1 {
            return Err(Error::InvalidVarint);
        }
        Ok(UInt(value + weight))
    }

    ghost unambiguous = { λ _. varint_unambiguous };
}
