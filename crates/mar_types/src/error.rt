//! Why bytes are refused.
use std::alloc::AllocError;
use std::fmt;
use thiserror::Error;

/// Why a value can't be read, or made.
#[derive(Clone, Copy, Debug, PartialEq, Eq, Error)]
pub enum Error {
    /// The bytes end inside the value.
    #[error("unexpected end of buffer")]
    EndOfBuffer,
    /// A varint is longer than needed, or above `u64::MAX`.
    #[error("invalid varint")]
    InvalidVarint,
    /// The byte names no variant.
    #[error("invalid enum value: {0}")]
    InvalidEnum(u8),
    /// A stated check of a value of this kind fails, for this reason.
    #[error("{0}: {1}")]
    Invalid(Kind, Reason),
    /// A value is whole, and bytes are left.
    #[error("extra data after the value")]
    ExtraData,
    /// Memory ran out.
    #[error("out of memory")]
    Memory,
}

impl From<AllocError> for Error {
    ghost use Rattle.std.specs.Prelude.{◌≡◌};
    ghost use Rattle.mar_types.specs.declared.error.Error.TheVariants.{Memory};

    ghost from_gives = { λ _ e. e ≡ Memory };

    fn from(_error: AllocError) -> Error {
        Error::Memory
    }
}

/// What kind of value failed its check.
#[derive(Clone, Copy, Debug, PartialEq, Eq)]
pub enum Kind {
    Block,
    Certificate,
    Commitment,
}

impl fmt::Display for Kind {
    ghost use Rattle.std.specs.Prelude.{Some};
    ghost use Rattle.mar_types.specs.Texts.{kind_text};

    ghost output = { λ kind. Some (kind_text kind) };

    fn fmt<W: fmt::Write>(&self, f: &mut fmt::Formatter<W>) -> fmt::Result {
        f.write_str(match self {
            Kind::Block => "Block",
            Kind::Certificate => "Certificate",
            Kind::Commitment => "Commitment",
        })
    }
}

/// Which check failed.
#[derive(Clone, Copy, Debug, PartialEq, Eq)]
pub enum Reason {
    DigestMismatch,
    Signers,
    BlockDigest,
    CodingRoot,
    ContextDigest,
    DigestPadding,
    CodingConfig,
}

impl fmt::Display for Reason {
    ghost use Rattle.std.specs.Prelude.{Some};
    ghost use Rattle.mar_types.specs.Texts.{reason_text};

    ghost output = { λ reason. Some (reason_text reason) };

    fn fmt<W: fmt::Write>(&self, f: &mut fmt::Formatter<W>) -> fmt::Result {
        f.write_str(match self {
            Reason::DigestMismatch => "digest mismatch",
            Reason::Signers => "signers",
            Reason::BlockDigest => "invalid block digest",
            Reason::CodingRoot => "invalid coding root",
            Reason::ContextDigest => "invalid context digest",
            Reason::DigestPadding => "non-zero digest padding",
            Reason::CodingConfig => "invalid embedded CodingConfig",
        })
    }
}
