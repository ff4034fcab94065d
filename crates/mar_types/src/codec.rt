//! Writing values as bytes, and reading them back.
ghost use Rattle.std.specs.Prelude.{◌≡◌, ◌⊎◌, ℕ, Bool, true, List, [], ◌∷◌, ◌++◌, ◌<◌, ◌≤◌, ◌^◌, length, OnOk, OnErr, IfOk, IfErr};
ghost use Rattle.mar_types.specs.Refusals.{RefusesShort, RefusesWhole};
ghost use Rattle.mar_types.specs.Digest.{IsBytes};
ghost use Rattle.mar_types.specs.Codec.{AppendsFront, UsesRoom, Takes, HasNoFront, IsUnambiguous};
ghost use Rattle.mar_types.specs.ReadBack.{ReadsBack};

use crate::error::Error;
use bytes::{Buf, BufMut, Bytes, BytesMut};
use std::alloc::{AllocError, Global};

/// A value that is written as bytes.
pub trait Write {
    // The bytes that spell a value.
    ghost encoded: { Self → List ℕ };

    /// Appends the spelling. Where it fails, a part of the spelling may stand at the end.
    fn write<B: BufMut>(&self, buf: &mut B) -> Result<(), AllocError>
        ensures ok { OnOk result (B.written buf.new ≡ B.written buf.old ++ encoded self.now) }
        ensures err { OnErr result (AppendsFront (encoded self.now) (B.written buf.old)
            (B.written buf.new)) }
        ensures room { UsesRoom result (B.spare buf.old) (B.spare buf.new)
            (length (encoded self.now)) };
}

/// A value whose spelling's length is known before it is written.
pub trait EncodeSize: Write {
    // The length of this value's spelling fits a `usize`.
    ghost can_encode: { Self → Type 0 };

    /// How many bytes spell the value.
    fn encode_size(&self) -> usize
        requires { can_encode self.now }
        ensures { result ≡ length (Self.encoded self.now) };
}

/// A value whose spelling is at most so long.
pub trait MaxEncodeSize: Write {
    /// The most bytes that spell a value.
    const MAX_ENCODE_SIZE: usize;

    ghost MAX_ENCODE_SIZE: { ℕ };

    ghost within: { (value : Self) → length (Self.encoded value) ≤ MAX_ENCODE_SIZE };
}

/// A value whose spelling always has one length.
pub trait FixedSize: Write {
    /// How many bytes spell each value.
    const SIZE: usize;

    ghost SIZE: { ℕ };

    ghost sized: { (value : Self) → length (Self.encoded value) ≡ SIZE };
}

/// A value that is read from bytes.
pub trait Read: Write + Drop + Sized {
    ghost use Rattle.mar_types.specs.declared.error.Error.{Error};

    /// What the reader is told.
    type Cfg;

    // These bytes spell a value under this configuration.
    ghost in_grammar: { Self.Cfg → List ℕ → Type 0 };

    // These bytes are refused with this error. A type that leaves it out says nothing of it.
    ghost refuses: { Self.Cfg → List ℕ → Error → Type 0 } = { λ _ _ _. Unit {0} };

    // Reading may run out of memory.
    ghost takes_memory: { Bool } = { true };

    /// Reads a value from the front. After an error it is left open how much was taken.
    fn read_cfg<B: Buf>(alloc: Global, buf: &mut B, cfg: &Self::Cfg) -> Result<Self, Error>
        ensures ok { IfOk result (λ value. Takes (in_grammar cfg.now) (Self.encoded value)
            (B.unread buf.old) (B.unread buf.new)) }
        ensures err { IfErr result (λ e. (e ≡ Error.Memory)
            ⊎ HasNoFront (in_grammar cfg.now) (B.unread buf.old)) }
        ensures cause { IfErr result (λ e. (e ≡ Error.Memory)
            ⊎ refuses cfg.now (B.unread buf.old) e) }
        ensures memory { IfErr result (λ e. e ≡ Error.Memory → takes_memory ≡ true) };

    // No spelling begins another.
    ghost unambiguous: { (cfg : Self.Cfg) → IsUnambiguous (in_grammar cfg) };
}

/// Reads a value from the front, as `read_cfg` does. What was written of a value is read back so, whatever follows it,
/// and memory alone can refuse it.
pub fn read_front<T: Read, B: Buf>(alloc: Global, buf: &mut B, cfg: &T::Cfg) -> Result<T, Error>
    ensures ok { IfOk result (λ value. Takes (T.in_grammar cfg.now) (T.encoded value)
        (B.unread buf.old) (B.unread buf.new)) }
    ensures err { IfErr result (λ e. (e ≡ Error.Memory)
        ⊎ HasNoFront (T.in_grammar cfg.now) (B.unread buf.old)) }
    ensures cause { IfErr result (λ e. (e ≡ Error.Memory)
        ⊎ T.refuses cfg.now (B.unread buf.old) e) }
    ensures memory { IfErr result (λ e. e ≡ Error.Memory → T.takes_memory ≡ true) }
    ensures back { ReadsBack (T.in_grammar cfg.now) T.encoded result (B.unread buf.old)
        (B.unread buf.new) }
{
    T::read_cfg(alloc, buf, cfg)
}

/// Reading what needs no configuration.
pub trait ReadExt: Read<Cfg = ()> {
    /// Reads a value from the front, as `read_cfg` does.
    final fn read<B: Buf>(alloc: Global, buf: &mut B) -> Result<Self, Error>
        ensures ok { IfOk result (λ value. Takes (Self.in_grammar tt) (Self.encoded value)
            (B.unread buf.old) (B.unread buf.new)) }
        ensures err { IfErr result (λ e. (e ≡ Error.Memory)
            ⊎ HasNoFront (Self.in_grammar tt) (B.unread buf.old)) }
        ensures cause { IfErr result (λ e. (e ≡ Error.Memory)
            ⊎ Self.refuses tt (B.unread buf.old) e) }
        ensures memory { IfErr result (λ e. e ≡ Error.Memory → Self.takes_memory ≡ true) }
        ensures back { ReadsBack (Self.in_grammar tt) Self.encoded result (B.unread buf.old)
            (B.unread buf.new) }
    {
        read_front(alloc, buf, &())
    }
}

impl<T: Read<Cfg = ()>> ReadExt for T {}

/// Writing into new memory.
pub trait Encode: EncodeSize {
    /// The spelling. It fails only by memory.
    final fn encode(&self, alloc: Global) -> Result<Bytes, AllocError>
    where
        Self: Sized,
        requires { Self.can_encode self.now }
        ensures { IfOk result (λ bytes. bytes ≡ Self.encoded self.now) }
    {
        let mut buf = BytesMut::with_capacity(alloc, self.encode_size())?;
        self.write(&mut buf)?;
        Ok(buf.freeze()?)
    }
}

impl<T: EncodeSize> Encode for T {}

/// Reading where the value is to be the whole input.
pub trait Decode: Read {
    /// Reads a value that the bytes spell from the first to the last.
    final fn decode_cfg<B: Buf + Drop>(
        alloc: Global,
        mut buf: B,
        cfg: &Self::Cfg,
    ) -> Result<Self, Error>
        ensures grammar { IfOk result (λ value. Self.in_grammar cfg.now (Self.encoded value)) }
        ensures whole { IfOk result (λ value. Self.encoded value ≡ B.unread buf) }
        ensures err { IfErr result (λ e. (e ≡ Error.Memory)
            ⊎ (Self.in_grammar cfg.now (B.unread buf) → ⊥)) }
        ensures cause { IfErr result (λ e. (e ≡ Error.Memory)
            ⊎ RefusesWhole (Self.in_grammar cfg.now) (Self.refuses cfg.now) (B.unread buf) e) }
        ensures memory { IfErr result (λ e. e ≡ Error.Memory → Self.takes_memory ≡ true) }
    {
        let value = Self::read_cfg(alloc, &mut buf, cfg)?;
        if buf.has_remaining() {
            return Err(Error::ExtraData);
        }
        Ok(value)
    }
}

impl<T: Read> Decode for T {}

/// Takes one byte from the front, or answers `EndOfBuffer` where there is none.
pub fn read_byte<B: Buf>(buf: &mut B) -> Result<u8, Error>
    ensures ok { IfOk result (λ byte. B.unread buf.old ≡ byte ∷ B.unread buf.new) }
    ensures err { IfErr result (λ e. (e ≡ Error.EndOfBuffer) × (B.unread buf.old ≡ [])) }
{
    if !buf.has_remaining() {
        return Err(Error::EndOfBuffer);
    }
    Ok(buf.get_u8())
}

/// Fills `out` from the front, or answers `EndOfBuffer` where there are fewer bytes; then nothing is taken or filled.
pub fn read_slice<B: Buf>(buf: &mut B, out: &mut [u8]) -> Result<(), Error>
    ensures ok { OnOk result (Takes (IsBytes (length out.old)) out.new (B.unread buf.old)
        (B.unread buf.new)) }
    ensures err { IfErr result (RefusesShort (length out.old) (B.unread buf.old)) }
    ensures kept { OnErr result (out.new ≡ out.old) }
    ensures left { OnErr result (B.unread buf.new ≡ B.unread buf.old) }
{
    match buf.try_copy_to_slice(out) {
        Ok(()) => Ok(()),
        Err(_) => Err(Error::EndOfBuffer),
    }
}

/// Takes `N` bytes from the front, or answers `EndOfBuffer` where there are fewer; then nothing is taken.
pub fn read_array<const N: usize, B: Buf>(buf: &mut B) -> Result<[u8; N], Error>
    ensures ok { IfOk result (λ bytes. Takes (IsBytes N) bytes (B.unread buf.old)
        (B.unread buf.new)) }
    ensures err { IfErr result (RefusesShort N (B.unread buf.old)) }
    ensures left { OnErr result (B.unread buf.new ≡ B.unread buf.old) }
{
    let mut bytes = [0; N];
    read_slice(buf, &mut bytes)?;
    Ok(bytes)
}
