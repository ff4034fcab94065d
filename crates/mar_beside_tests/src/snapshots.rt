//! Snapshots of a ledger, taken and read.
use crate::words::{bytes_of, number_front};
use bytes::BytesMut;
use mar_block::EmptyBlock;
use mar_cert::MockFinalization;
use mar_ledger::Ledger;
use mar_statesync::{DecodeError, Snapshot, decode, encode, take, write};
use mar_store::MemMeta;
use mar_types::{Decode, Digestible, Hasher, Sha256, Sha256Digest};
use std::alloc::{AllocError, Global};

// How many members sign.
const MEMBERS: u32 = 4;

// The digest of these bytes.
fn digest_of(bytes: &[u8]) -> Sha256Digest {
    let mut hasher = Sha256::new();
    hasher.update(bytes);
    hasher.finalize()
}

// A snapshot of a ledger right below this block.
fn taken(
    alloc: Global,
    ledger: &Ledger<MemMeta>,
    finalization: MockFinalization,
    block: &EmptyBlock<Sha256>,
) -> Result<String, AllocError> {
    if finalization.proposal.payload != block.digest() {
        return "another block".to_string(alloc);
    }
    match take(ledger, finalization, block) {
        Ok(snapshot) => {
            let bytes = encode(alloc, &snapshot)?;
            let text = hex::encode(alloc, bytes.as_slice())?;
            let (length, digest) = (bytes.len(), digest_of(bytes.as_slice()));
            format!(in alloc; "{text} of {length} bytes, {digest}")
        }
        Err(elsewhere) => format!(in alloc; "{elsewhere:?}"),
    }
}

/// What is taken of a ledger, with this finalization and block.
pub(crate) fn snap(
    alloc: Global,
    ledger: &Ledger<MemMeta>,
    finalization: &str,
    block: &str,
) -> Result<String, AllocError> {
    let bytes = bytes_of(alloc, finalization);
    let Ok(finalization) = MockFinalization::decode_cfg(alloc, bytes.as_slice(), &MEMBERS) else {
        return "no finalization".to_string(alloc);
    };
    let bytes = bytes_of(alloc, block);
    match EmptyBlock::<Sha256>::decode_cfg(alloc, bytes.as_slice(), &()) {
        Ok(block) => taken(alloc, ledger, finalization, &block),
        Err(_) => "no block".to_string(alloc),
    }
}

/// The snapshot that these bytes are, with a certificate of four members.
pub(crate) fn snapshot_of(alloc: Global, bytes: &[u8]) -> Result<Snapshot, DecodeError> {
    decode(alloc, MEMBERS, bytes)
}

// The parts of a snapshot, and whether it is written as it was read.
fn parts(alloc: Global, snapshot: &Snapshot, bytes: &[u8]) -> Result<String, AllocError> {
    let mut buf = BytesMut::new(alloc);
    write(snapshot, &mut buf)?;
    let is_same = buf.as_slice() == bytes;
    let (height, books) = (snapshot.height(), snapshot.books());
    let (balances, rejected) = (books.balances(), books.rejected());
    let round = snapshot.finalization().round();
    format!(in alloc; "{balances:?} h={height} r={rejected} {round} {is_same}")
}

/// What bytes are as a snapshot, by the number of members and the bytes.
pub(crate) fn told_decoded(alloc: Global, text: &str) -> Result<String, AllocError> {
    let (members, word) = number_front(text);
    let bytes = bytes_of(alloc, word);
    match decode(alloc, (members % 65) as u32, bytes.as_slice()) {
        Ok(snapshot) => parts(alloc, &snapshot, bytes.as_slice()),
        Err(error) => format!(in alloc; "{error:?}"),
    }
}
