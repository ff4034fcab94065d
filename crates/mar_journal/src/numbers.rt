//! Numbers as varints, in slices.
ghost use Rattle.std.specs.Prelude.{◌≡◌, ◌++◌, MatchOption, OnOk};
ghost use Rattle.mar_types.specs.Codec.{HasNoFront, Joined};
ghost use Rattle.mar_types.specs.Varint.{IsVarint, varint};
ghost use Rattle.mar_journal.specs.Numbers.{NumberStandsFirst, TwoStandFirst};

use mar_types::{Read, UInt, Write};
use std::alloc::{AllocError, Global};

/// The number at the front, and how many bytes it takes.
pub fn read_number(alloc: Global, bytes: &[u8]) -> Option<(u64, usize)>
    ensures { MatchOption result (HasNoFront IsVarint bytes.now) (λ f. NumberStandsFirst f.0 f.1 bytes.now) }
{
    let mut rest = bytes;
    match UInt::read_cfg(alloc, &mut rest, &()) {
        Ok(number) => Some((number.0, bytes.len() - rest.len())),
        Err(_) => None,
    }
}

/// The two numbers at the front, and how many bytes they take.
pub fn read_two(alloc: Global, bytes: &[u8]) -> Option<(u64, u64, usize)>
    ensures { MatchOption result (HasNoFront (Joined IsVarint IsVarint) bytes.now) (λ f. TwoStandFirst f.0 f.1 f.2 bytes.now) }
{
    let (first, size) = read_number(alloc, bytes)?;
    let (second, more) = read_number(alloc, &bytes[size..])?;
    Some((first, second, size + more))
}

/// Appends a number.
pub fn write_number(number: u64, out: &mut Vec<u8>) -> Result<(), AllocError>
    ensures { OnOk result (out.new.items ≡ out.old.items ++ varint number) }
{
    UInt(number).write(out)
}
