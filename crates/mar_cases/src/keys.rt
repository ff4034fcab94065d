//! What is made of the bytes of a key.
use crate::answers::shown;
use mar_key::Key;
use mar_types::Sha256Digest;
use std::alloc::{AllocError, Global};

pub(crate) fn told_as(
    alloc: Global,
    name: &str,
    bytes: &[u8],
) -> Option<Result<String, AllocError>> {
    if name == "key" {
        Some(shown::<Key<Sha256Digest>>(alloc, bytes))
    } else {
        None
    }
}
