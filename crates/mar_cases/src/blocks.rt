//! What blocks are told as.
ghost use Rattle.std.specs.Prelude.{◌<◌, ◌^◌};

use crate::answers::is_spelled_by;
use mar_block::mocks::Block as MockBlock;
use mar_block::{
    BoundedBlock, CertifiableBlock, EmptyBlock, ExpectedCommitment, Standard, WireVariant,
};
use mar_types::{Decode, Digestible, EncodeSize, Error, Read, Sha256, Sha256Digest, UInt};
use std::alloc::{AllocError, Global};
use std::fmt::Debug;

type Empty = EmptyBlock<Sha256>;

type Mock = MockBlock<Sha256Digest, UInt>;

/// What is told of bytes under a name: `block` or `mock_block`, or that a mock block is expected under a commitment:
/// `trusted` or `untrusted`, with `/` and the commitment.
pub(crate) fn told_as(
    alloc: Global,
    name: &str,
    bytes: &[u8],
) -> Option<Result<String, AllocError>> {
    match name {
        "block" => Some(empty_block(alloc, bytes)),
        "mock_block" => Some(mock_block(alloc, bytes)),
        _ => Some(expected_block(alloc, bytes, expected(name)?)),
    }
}

fn empty_block(alloc: Global, bytes: &[u8]) -> Result<String, AllocError> {
    match Empty::decode_cfg(alloc, bytes, &()) {
        Ok(block) => {
            let size = block.encode_size();
            let parts = parts(alloc, &block, bytes)?;
            format!(in alloc; "{block:?} {size} {parts}")
        }
        Err(error) => error.to_string(alloc),
    }
}

// A mock block keeps the digest that it was read with: beside it stands the one that its parts have.
fn mock_block(alloc: Global, bytes: &[u8]) -> Result<String, AllocError> {
    match Mock::decode_cfg(alloc, bytes, &()) {
        Ok(block) => {
            let size = block.encode_size();
            let parts = parts(alloc, &block, bytes)?;
            let made = made_again(alloc, &block)?;
            format!(in alloc; "{block:?} {size} {parts}, made with {made}")
        }
        Err(error) => error.to_string(alloc),
    }
}

fn made_again(alloc: Global, block: &Mock) -> Result<Sha256Digest, AllocError> {
    let (parent, height, timestamp) = (block.parent, block.height, block.timestamp);
    let made = Mock::new::<Sha256>(alloc, block.context, parent, height, timestamp)?;
    Ok(made.digest())
}

// The most bytes that spell such a block, and what it tells of itself.
fn parts<B: BoundedBlock<Cfg = ()> + CertifiableBlock<Context: Debug + Drop>>(
    alloc: Global,
    block: &B,
    bytes: &[u8],
) -> Result<String, AllocError>
    requires { B.max_size tt < 2 ^ 64 }
{
    let most = B::max_encode_size(&());
    let spelled = is_spelled_by(alloc, block, bytes)?;
    let (height, parent, digest) = (block.height(), block.parent(), block.digest());
    let context = block.context()?;
    format!(in alloc;
        "of {most} bytes, {spelled}: {digest} at {height} upon {parent} in {context:?}"
    )
}

fn expected(name: &str) -> Option<ExpectedCommitment<Sha256Digest>> {
    let (kind, text) = name.split_once('/')?;
    let commitment = Sha256Digest::from_hex(text.as_bytes())?;
    match kind {
        "trusted" => Some(ExpectedCommitment::Trusted(commitment)),
        "untrusted" => Some(ExpectedCommitment::Untrusted(commitment)),
        _ => None,
    }
}

fn expected_block(
    alloc: Global,
    bytes: &[u8],
    expected: ExpectedCommitment<Sha256Digest>,
) -> Result<String, AllocError> {
    match decoded::<Standard<Mock>>(alloc, bytes, &(), expected) {
        Ok(commitment) => format!(in alloc; "{expected:?} is {commitment}"),
        Err(error) => error.to_string(alloc),
    }
}

// The commitment of the block that these bytes are under the expected one.
fn decoded<V: WireVariant>(
    alloc: Global,
    bytes: &[u8],
    cfg: &<V::ApplicationBlock as Read>::Cfg,
    expected: ExpectedCommitment<V::Commitment>,
) -> Result<V::Commitment, Error> {
    let block = V::decode_block(alloc, bytes, cfg, expected)?;
    Ok(V::commitment(&block))
}
