//! Epochs, heights, views and rounds as bytes: each number a varint, a round its epoch and then its view.
ghost use Rattle.std.specs.Prelude.{◌≡◌, ◌≤◌, false, length};
ghost use Rattle.mar_types.specs.Varint.{IsVarint, varint};
ghost use Rattle.mar_types.specs.VarintLemmas.{length-varint, varint-injective, varint_unambiguous};
ghost use Rattle.mar_types.specs.Refusals.{RefusesJoined, RefusesVarint};
ghost use Rattle.mar_types.specs.Round.{SpellsRound, round_bytes};
ghost use Rattle.mar_types.specs.RoundBytes.{length-round_bytes, round_bytes-injective, round_unambiguous};

use crate::epochs::Epoch;
use crate::heights::Height;
use crate::rounds::Round;
use crate::views::View;
use crate::{EncodeSize, Error, MaxEncodeSize, Read, Span, U64, UInt, Write};
use bytes::{Buf, BufMut};
use std::alloc::{AllocError, Global};

impl Write for Epoch {
    ghost encoded = { varint };

    fn write<B: BufMut>(&self, buf: &mut B) -> Result<(), AllocError> {
        UInt(self.get()).write(buf)
    }
}

impl EncodeSize for Epoch {
    ghost can_encode = { λ _. Unit {0} };

    fn encode_size(&self) -> usize
        ensures size { result ≡ length (varint self.now) }
        ensures within { result ≤ 10 }
    {
        UInt(self.get()).encode_size()
    }
}

impl MaxEncodeSize for Epoch {
    const MAX_ENCODE_SIZE: usize = 10;

    ghost MAX_ENCODE_SIZE = { 10 };

    ghost within = { length-varint };
}

impl Read for Epoch {
    type Cfg = ();

    ghost in_grammar = { λ _. IsVarint };

    ghost refuses = { λ _. RefusesVarint };

    ghost takes_memory = { false };

    fn read_cfg<B: Buf>(alloc: Global, buf: &mut B, cfg: &()) -> Result<Self, Error> {
        Ok(Epoch::new(UInt::read_cfg(alloc, buf, cfg)?.0))
    }

    ghost unambiguous = { λ _. varint_unambiguous };
}

impl Span for Epoch {
    ghost told = { varint-injective };
}

impl Write for Height {
    ghost encoded = { varint };

    fn write<B: BufMut>(&self, buf: &mut B) -> Result<(), AllocError> {
        UInt(self.get()).write(buf)
    }
}

impl EncodeSize for Height {
    ghost can_encode = { λ _. Unit {0} };

    fn encode_size(&self) -> usize
        ensures size { result ≡ length (varint self.now) }
        ensures within { result ≤ 10 }
    {
        UInt(self.get()).encode_size()
    }
}

impl MaxEncodeSize for Height {
    const MAX_ENCODE_SIZE: usize = 10;

    ghost MAX_ENCODE_SIZE = { 10 };

    ghost within = { length-varint };
}

impl Read for Height {
    type Cfg = ();

    ghost in_grammar = { λ _. IsVarint };

    ghost refuses = { λ _. RefusesVarint };

    ghost takes_memory = { false };

    fn read_cfg<B: Buf>(alloc: Global, buf: &mut B, cfg: &()) -> Result<Self, Error> {
        Ok(Height::new(UInt::read_cfg(alloc, buf, cfg)?.0))
    }

    ghost unambiguous = { λ _. varint_unambiguous };
}

impl Span for Height {
    ghost told = { varint-injective };
}

impl Write for View {
    ghost encoded = { varint };

    fn write<B: BufMut>(&self, buf: &mut B) -> Result<(), AllocError> {
        UInt(self.get()).write(buf)
    }
}

impl EncodeSize for View {
    ghost can_encode = { λ _. Unit {0} };

    fn encode_size(&self) -> usize
        ensures size { result ≡ length (varint self.now) }
        ensures within { result ≤ 10 }
    {
        UInt(self.get()).encode_size()
    }
}

impl MaxEncodeSize for View {
    const MAX_ENCODE_SIZE: usize = 10;

    ghost MAX_ENCODE_SIZE = { 10 };

    ghost within = { length-varint };
}

impl Read for View {
    type Cfg = ();

    ghost in_grammar = { λ _. IsVarint };

    ghost refuses = { λ _. RefusesVarint };

    ghost takes_memory = { false };

    fn read_cfg<B: Buf>(alloc: Global, buf: &mut B, cfg: &()) -> Result<Self, Error> {
        Ok(View::new(UInt::read_cfg(alloc, buf, cfg)?.0))
    }

    ghost unambiguous = { λ _. varint_unambiguous };
}

impl Span for View {
    ghost told = { varint-injective };
}

impl Write for Round {
    ghost encoded = { round_bytes };

    fn write<B: BufMut>(&self, buf: &mut B) -> Result<(), AllocError> {
        self.epoch().write(buf)?;
        self.view().write(buf)
    }
}

impl EncodeSize for Round {
    ghost can_encode = { λ _. Unit {0} };

    fn encode_size(&self) -> usize
        ensures size { result ≡ length (round_bytes self.now) }
        ensures within { result ≤ 20 }
    {
        self.epoch().encode_size() + self.view().encode_size()
    }
}

impl MaxEncodeSize for Round {
    const MAX_ENCODE_SIZE: usize = 20;

    ghost MAX_ENCODE_SIZE = { 20 };

    ghost within = { length-round_bytes };
}

impl Read for Round {
    type Cfg = ();

    ghost in_grammar = { λ _. SpellsRound };

    ghost refuses = { λ _. RefusesJoined IsVarint RefusesVarint RefusesVarint };

    ghost takes_memory = { false };

    fn read_cfg<B: Buf>(alloc: Global, buf: &mut B, cfg: &()) -> Result<Self, Error> {
        let epoch = Epoch::read_cfg(alloc, buf, cfg)?;
        let view = View::read_cfg(alloc, buf, cfg)?;
        Ok(Round::new(epoch, view))
    }

    ghost unambiguous = { λ _. round_unambiguous };
}

impl Span for Round {
    ghost told = { round_bytes-injective };
}

impl From<Epoch> for U64 {
    ghost from_gives = { λ epoch number. number ≡ epoch };

    fn from(epoch: Epoch) -> U64 {
        U64::new(epoch.get())
    }
}

impl From<Height> for U64 {
    ghost from_gives = { λ height number. number ≡ height };

    fn from(height: Height) -> U64 {
        U64::new(height.get())
    }
}

impl From<View> for U64 {
    ghost from_gives = { λ view number. number ≡ view };

    fn from(view: View) -> U64 {
        U64::new(view.get())
    }
}
