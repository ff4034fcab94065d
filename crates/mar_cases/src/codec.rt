//! What mar_types makes of a case.
use crate::answers::{shown, spelled, told, told_by};
use mar_types::{
    Decode, Error, Hasher, Kind, NonEmptyVec, Participant, Reason, Sha256, Sha256Digest, U64, UInt,
};
use std::alloc::{AllocError, Global};

// The digest of this message so many times, each time in two pieces, through the bound.
fn digest_of<H: Hasher>(message: &[u8], times: u64) -> H::Digest {
    let (first, second) = message.split_at(message.len() / 2);
    let mut hasher = H::new();
    for _ in 0..times {
        hasher.update(first);
        hasher.update(second);
    }
    hasher.finalize()
}

// The digest that is written so in hexadecimal.
fn digest_from(alloc: Global, text: &[u8]) -> Result<String, AllocError> {
    match Sha256Digest::from_hex(text) {
        Some(digest) => spelled(alloc, &digest),
        None => "no digest".to_string(alloc),
    }
}

// The member whose place these bytes spell, in both ways of printing.
fn member(alloc: Global, bytes: &[u8]) -> Result<String, AllocError> {
    match u32::decode_cfg(alloc, bytes, &()) {
        Ok(place) => {
            let member = Participant::new(place);
            format!(in alloc; "{member} {member:?}")
        }
        Err(error) => error.to_string(alloc),
    }
}

const ERRORS: [Error; 12] = [
    Error::EndOfBuffer,
    Error::InvalidVarint,
    Error::InvalidEnum(7),
    Error::Invalid(Kind::Certificate, Reason::Signers),
    Error::Invalid(Kind::Block, Reason::DigestMismatch),
    Error::Invalid(Kind::Commitment, Reason::BlockDigest),
    Error::Invalid(Kind::Commitment, Reason::CodingRoot),
    Error::Invalid(Kind::Commitment, Reason::ContextDigest),
    Error::Invalid(Kind::Commitment, Reason::DigestPadding),
    Error::Invalid(Kind::Commitment, Reason::CodingConfig),
    Error::ExtraData,
    Error::Memory,
];

// The error at this place, in both ways of printing.
fn error(alloc: Global, bytes: &[u8]) -> Result<String, AllocError> {
    match u8::decode_cfg(alloc, bytes, &()) {
        Ok(place) => match ERRORS.get(usize::from(place)) {
            Some(error) => format!(in alloc; "{error:?} {error}"),
            None => "no error".to_string(alloc),
        },
        Err(error) => error.to_string(alloc),
    }
}

// The bytes as a list of numbers.
fn list(alloc: Global, bytes: &[u8]) -> Result<String, AllocError> {
    let mut items = Vec::new(alloc);
    for byte in bytes {
        items.push(u32::from(*byte))?;
    }
    match NonEmptyVec::from_vec(items) {
        Some(list) => format!(in alloc; "{list:?}"),
        None => "no items".to_string(alloc),
    }
}

/// What is said of these bytes as a value of mar_types, if the name is one of its types.
pub(crate) fn told_as(
    alloc: Global,
    name: &str,
    bytes: &[u8],
) -> Option<Result<String, AllocError>> {
    Some(match name {
        "uint" => told::<UInt>(alloc, bytes),
        "u8" => told::<u8>(alloc, bytes),
        "u16" => told::<u16>(alloc, bytes),
        "u32" => told::<u32>(alloc, bytes),
        "u64" => shown::<U64>(alloc, bytes),
        "(u8,uint)" => told_by::<(u8, UInt)>(alloc, bytes, &((), ())),
        "(uint,u8)" => told_by::<(UInt, u8)>(alloc, bytes, &((), ())),
        "(u16,uint)" => told_by::<(u16, UInt)>(alloc, bytes, &((), ())),
        "participant" => member(alloc, bytes),
        "error" => error(alloc, bytes),
        "list" => list(alloc, bytes),
        "digest" => shown::<Sha256Digest>(alloc, bytes),
        "from_hex" => digest_from(alloc, bytes),
        "sha256" => spelled(alloc, &digest_of::<Sha256>(bytes, 1)),
        "sha256/1000" => spelled(alloc, &digest_of::<Sha256>(bytes, 1000)),
        _ => return None,
    })
}
