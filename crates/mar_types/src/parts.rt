//! Two values, one right after the other.
ghost use Rattle.std.specs.Prelude.{◌≡◌, ◌⊎◌, ◌++◌, ◌+◌, ◌<◌, ◌^◌, ◌||◌, true, length, OnOk, OnErr, IfOk, IfErr};
ghost use Rattle.mar_types.specs.Codec.{AppendsFront, HasNoFront, Joined, Takes, UsesRoom};
ghost use Rattle.mar_types.specs.CodecLemmas.{joined_unambiguous};
ghost use Rattle.mar_types.specs.Refusals.{RefusesJoined};

use crate::codec::{EncodeSize, Read, Write};
use crate::error::Error;
use bytes::{Buf, BufMut};
use std::alloc::{AllocError, Global};

/// Appends the first value's spelling, and then the second's.
pub fn write_pair<A: Write, B: Write, W: BufMut>(
    first: &A,
    second: &B,
    buf: &mut W,
) -> Result<(), AllocError>
    ensures ok { OnOk result (W.written buf.new
        ≡ W.written buf.old ++ (A.encoded first.now ++ B.encoded second.now)) }
    ensures err { OnErr result (AppendsFront (A.encoded first.now ++ B.encoded second.now)
        (W.written buf.old) (W.written buf.new)) }
    ensures room { UsesRoom result (W.spare buf.old) (W.spare buf.new)
        (length (A.encoded first.now ++ B.encoded second.now)) }
{
    first.write(buf)?;
    second.write(buf)
}

/// Reads a first value from the front, and then a second.
pub fn read_pair<A: Read, B: Read, R: Buf>(
    alloc: Global,
    buf: &mut R,
    first_cfg: &A::Cfg,
    second_cfg: &B::Cfg,
) -> Result<(A, B), Error>
    ensures ok { IfOk result (λ pair. Takes
        (Joined (A.in_grammar first_cfg.now) (B.in_grammar second_cfg.now))
        (A.encoded pair.0 ++ B.encoded pair.1) (R.unread buf.old) (R.unread buf.new)) }
    ensures err { IfErr result (λ e. (e ≡ Error.Memory) ⊎ HasNoFront
        (Joined (A.in_grammar first_cfg.now) (B.in_grammar second_cfg.now))
        (R.unread buf.old)) }
    ensures cause { IfErr result (λ e. (e ≡ Error.Memory) ⊎ RefusesJoined
        (A.in_grammar first_cfg.now) (A.refuses first_cfg.now) (B.refuses second_cfg.now)
        (R.unread buf.old) e) }
    ensures memory { IfErr result (λ e. e ≡ Error.Memory
        → (A.takes_memory || B.takes_memory) ≡ true) }
{
    let first = A::read_cfg(alloc, buf, first_cfg)?;
    let second = B::read_cfg(alloc, buf, second_cfg)?;
    Ok((first, second))
}

impl<A: Write, B: Write> Write for (A, B) {
    ghost encoded = { λ pair. A.encoded pair.0 ++ B.encoded pair.1 };

    fn write<W: BufMut>(&self, buf: &mut W) -> Result<(), AllocError> {
        write_pair(&self.0, &self.1, buf)
    }
}

impl<A: EncodeSize, B: EncodeSize> EncodeSize for (A, B) {
    ghost can_encode = { λ pair. A.can_encode pair.0 × B.can_encode pair.1
        × (length (A.encoded pair.0) + length (B.encoded pair.1) < 2 ^ 64) };

    fn encode_size(&self) -> usize {
        self.0.encode_size() + self.1.encode_size()
    }
}

impl<A: Read, B: Read> Read for (A, B) {
    type Cfg = (A::Cfg, B::Cfg);

    ghost in_grammar = { λ cfg. Joined (A.in_grammar cfg.0) (B.in_grammar cfg.1) };

    ghost refuses = { λ cfg. RefusesJoined (A.in_grammar cfg.0) (A.refuses cfg.0)
        (B.refuses cfg.1) };

    ghost takes_memory = { A.takes_memory || B.takes_memory };

    fn read_cfg<R: Buf>(alloc: Global, buf: &mut R, cfg: &(A::Cfg, B::Cfg)) -> Result<Self, Error> {
        read_pair(alloc, buf, &cfg.0, &cfg.1)
    }

    ghost unambiguous = { λ cfg. joined_unambiguous _ _ (A.unambiguous cfg.0)
        (B.unambiguous cfg.1) };
}
