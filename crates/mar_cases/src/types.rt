//! What mar_types makes of a case.
use crate::answers::{shown, spelled, told};
use mar_types::coding::{CodingConfig, CodingScheme, Commitment};
use mar_types::{
    Decode, Digestible, Epoch, EpochDelta, Epocher, Error, FixedEpocher, Hasher, Height,
    HeightDelta, Round, Sha256, Sha256Digest, TermLength, UInt, View, ViewDelta,
};
use std::alloc::{AllocError, Global};
use std::num::{NonZeroU32, NonZeroU64};

// A block and the scheme that codes it: a commitment asks of each only what its digests are.
struct Plain;

impl Digestible for Plain {
    type Digest = Sha256Digest;

    ghost use Rattle.std.specs.Prelude.{replicate};

    ghost digest_bytes = { λ _. replicate 32 1 };

    fn digest(&self) -> Sha256Digest {
        Sha256::fill(1)
    }
}

impl CodingScheme for Plain {
    type Commitment = Sha256Digest;
}

type Coded = Commitment<Plain, Plain, Sha256>;

// The parts of the commitment that these bytes spell, and the one that is made of them.
fn parts(alloc: Global, bytes: &[u8]) -> Result<String, AllocError> {
    match Coded::decode_cfg(alloc, bytes, &()) {
        Ok(made) => {
            let block = made.block(alloc);
            let root = made.root(alloc);
            let context = made.context(alloc);
            let config = made.config(alloc);
            let again = Coded::from((block, root, context, config));
            let config = spelled(alloc, &config)?;
            format!(in alloc; "{block} {root} {context} {config}, made as {again}")
        }
        Err(error) => error.to_string(alloc),
    }
}

// The distance or duration of this name and number.
fn distance(alloc: Global, name: &str, number: u64) -> Result<String, AllocError> {
    match name {
        "epoch_delta" => EpochDelta::new(number).to_string(alloc),
        "height_delta" => HeightDelta::new(number).to_string(alloc),
        _ => ViewDelta::new(number).to_string(alloc),
    }
}

fn distance_of(alloc: Global, name: &str, bytes: &[u8]) -> Result<String, AllocError> {
    match UInt::decode_cfg(alloc, bytes, &()) {
        Ok(number) => distance(alloc, name, number.0),
        Err(error) => error.to_string(alloc),
    }
}

fn term(alloc: Global, bytes: &[u8]) -> Result<String, AllocError> {
    let length = u32::decode_cfg(alloc, bytes, &()).unwrap_or(0);
    match NonZeroU32::new(length) {
        Some(length) => {
            let length = TermLength::new(length);
            format!(in alloc; "{length} {length:?}")
        }
        None => "no length".to_string(alloc),
    }
}

// Where a height stands in its epoch, of epochs of this length.
fn placed(alloc: Global, length: u64, height: Height) -> Result<String, AllocError> {
    match NonZeroU64::new(length) {
        Some(length) if length.get() > 1 => {
            let epocher = FixedEpocher::new(length);
            let Some(info) = epocher.containing(height) else {
                return "no epoch".to_string(alloc);
            };
            let (from, at, to) = (info.first().get(), info.height().get(), info.last().get());
            if from > at || from > to || to >= 1000 {
                return "too far".to_string(alloc);
            }
            let phase = info.phase();
            format!(in alloc; "{epocher:?} {phase:?}")
        }
        _ => "no length".to_string(alloc),
    }
}

fn place(alloc: Global, length: u64, bytes: &[u8]) -> Result<String, AllocError> {
    match Height::decode_cfg(alloc, bytes, &()) {
        Ok(height) => placed(alloc, length, height),
        Err(error) => error.to_string(alloc),
    }
}

/// What is said of these bytes as a value of mar_types, if the name is one of its types.
pub(crate) fn told_as(
    alloc: Global,
    name: &str,
    bytes: &[u8],
) -> Option<Result<String, AllocError>> {
    Some(match name {
        "epoch" => shown::<Epoch>(alloc, bytes),
        "height" => shown::<Height>(alloc, bytes),
        "view" => shown::<View>(alloc, bytes),
        "round" => shown::<Round>(alloc, bytes),
        "config" => told::<CodingConfig>(alloc, bytes),
        "commitment" => shown::<Coded>(alloc, bytes),
        "parts" => parts(alloc, bytes),
        "epoch_delta" | "height_delta" | "view_delta" => distance_of(alloc, name, bytes),
        "placed/11" => place(alloc, 11, bytes),
        "term_length" => term(alloc, bytes),
        _ => return None,
    })
}
