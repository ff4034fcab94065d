//! What the crates of plain values make of bytes, by the name of a type.
use crate::{blocks, certificates, codec, keys, types};
use std::alloc::{AllocError, Global};

// What the crate says that knows the name.
fn told_as(alloc: Global, name: &str, bytes: &[u8]) -> Result<String, AllocError> {
    if let Some(text) = codec::told_as(alloc, name, bytes) {
        return text;
    }
    if let Some(text) = types::told_as(alloc, name, bytes) {
        return text;
    }
    if let Some(text) = certificates::told_as(alloc, name, bytes) {
        return text;
    }
    if let Some(text) = blocks::told_as(alloc, name, bytes) {
        return text;
    }
    if let Some(text) = keys::told_as(alloc, name, bytes) {
        return text;
    }
    "no such type".to_string(alloc)
}

/// What is said of bytes in hexadecimal under the name of a type.
pub(crate) fn told(alloc: Global, name: &str, text: &str) -> Result<String, AllocError> {
    match hex::decode(alloc, text) {
        Ok(bytes) => told_as(alloc, name, bytes.as_slice()),
        Err(_) => "no bytes".to_string(alloc),
    }
}
