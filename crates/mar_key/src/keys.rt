//! What can be asked of peers.
ghost use Rattle.std.specs.Prelude.{false, length, max, ◌+◌, ◌≡◌};
ghost use Rattle.std.proofs.Common.{ap, sym, ◌∙◌};
ghost use Rattle.mar_key.specs.KeyBytes.{key_bytes-injective, key_unambiguous, length-key_bytes};
ghost use Rattle.mar_key.specs.KeyOrder.{key_lt};
ghost use Rattle.mar_key.specs.Keys.{key_bytes};
ghost use Rattle.mar_key.specs.SpelledKeys.{RefusesKey, SpellsKey};
ghost use Rattle.mar_key.specs.Views.{key_of, key_text};

use bytes::{Buf, BufMut};
use mar_types::{
    Digest, EncodeSize, Error, Height, MaxEncodeSize, Read, Round, Span, Write, read_byte,
    write_pair,
};
use std::alloc::{AllocError, Global};
use std::fmt;

// The first byte of a key's spelling, for each kind.
const BLOCK: u8 = 0;

const FINALIZED: u8 = 1;

const NOTARIZED: u8 = 2;

/// What can be asked of peers: a block by its commitment `D`, the finalization at a height with its block, the
/// notarization of a round with its block. Keys are ordered in this order, then by what they hold.
#[derive(Clone, Copy, PartialEq, Eq, PartialOrd, Ord, Hash)]
pub enum Key<D> {
    /// The block of this commitment.
    Block(D),
    /// The finalization at this height.
    Finalized { height: Height },
    /// A notarization of this round.
    Notarized { round: Round },
}

impl<D: Ord> Key<D> {
    /// Whether this key comes before the other.
    pub fn is_before(&self, other: &Self) -> bool
        ensures { result ≡ key_lt D.cmp self.now other.now }
    {
        self < other
    }
}

/// Writes `Block(HEX)`, `Finalized(Height(H))` or `Notarized(Round { epoch: Epoch(E), view: View(V) })`.
impl<D: fmt::Display> fmt::Display for Key<D> {
    ghost output = { key_text D.output };

    fn fmt<W: fmt::Write>(&self, f: &mut fmt::Formatter<W>) -> fmt::Result {
        match self {
            Key::Block(commitment) => write!(f, "Block({commitment})"),
            Key::Finalized { height } => write!(f, "Finalized(Height({height}))"),
            Key::Notarized { round } => {
                let epoch = round.epoch();
                let view = round.view();
                write!(
                    f,
                    "Notarized(Round {{ epoch: Epoch({epoch}), view: View({view}) }})"
                )
            }
        }
    }
}

/// Writes what `Display` writes, with the commitment as its `Debug` writes it.
impl<D: fmt::Debug> fmt::Debug for Key<D> {
    ghost debug_output = { key_text D.debug_output };

    fn fmt<W: fmt::Write>(&self, f: &mut fmt::Formatter<W>) -> fmt::Result {
        match self {
            Key::Block(commitment) => write!(f, "Block({commitment:?})"),
            Key::Finalized { height } => write!(f, "Finalized(Height({height}))"),
            Key::Notarized { round } => {
                let epoch = round.epoch();
                let view = round.view();
                write!(
                    f,
                    "Notarized(Round {{ epoch: Epoch({epoch}), view: View({view}) }})"
                )
            }
        }
    }
}

/// A first byte for the kind, and then what the key holds.
impl<D: Digest> Write for Key<D> {
    ghost encoded = { λ key. key_bytes (key_of D.bytes key) };

    fn write<B: BufMut>(&self, buf: &mut B) -> Result<(), AllocError> {
        match self {
            Key::Block(commitment) => write_pair(&BLOCK, commitment, buf),
            Key::Finalized { height } => write_pair(&FINALIZED, height, buf),
            Key::Notarized { round } => write_pair(&NOTARIZED, round, buf),
        }
    }
}

impl<D: Digest> EncodeSize for Key<D> {
    ghost can_encode = { λ _. Unit {0} };

    fn encode_size(&self) -> usize {
        match self {
            Key::Block(_) => 1 + D::SIZE,
            Key::Finalized { height } => 1 + height.encode_size(),
            Key::Notarized { round } => 1 + round.encode_size(),
        }
    }
}

/// The kind's byte, and the longer of a round and a commitment.
impl<D: Digest> MaxEncodeSize for Key<D> {
    const MAX_ENCODE_SIZE: usize = if D::SIZE < Round::MAX_ENCODE_SIZE {
        1 + Round::MAX_ENCODE_SIZE
    } else {
        1 + D::SIZE
    };

    ghost MAX_ENCODE_SIZE = { max 20 D.SIZE + 1 };

    ghost within = { length-key_bytes D.bytes D.SIZE (λ d. sym (ap length (D.spelled d)) ∙ D.sized d) };
}

impl<D: Digest> Read for Key<D> {
    type Cfg = ();

    ghost in_grammar = { λ _. SpellsKey (D.in_grammar tt) };

    ghost refuses = { λ _. RefusesKey (D.refuses tt) };

    ghost takes_memory = { false };

    fn read_cfg<B: Buf>(alloc: Global, buf: &mut B, cfg: &()) -> Result<Self, Error> {
        match read_byte(buf)? {
            BLOCK => Ok(Key::Block(D::read_cfg(alloc, buf, cfg)?)),
            FINALIZED => {
                let height = Height::read_cfg(alloc, buf, cfg)?;
                Ok(Key::Finalized { height })
            }
            NOTARIZED => {
                let round = Round::read_cfg(alloc, buf, cfg)?;
                Ok(Key::Notarized { round })
            }
            kind => Err(Error::InvalidEnum(kind)),
        }
    }

    ghost unambiguous = { λ _. key_unambiguous (D.in_grammar tt) (D.unambiguous tt) };
}

impl<D: Digest> Span for Key<D> {
    ghost told = { key_bytes-injective D.bytes D.injective };
}
