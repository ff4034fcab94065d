//! Where a delivery stands before any verdict.
use crate::answer::Answer;
use bytes::Bytes;
use mar_key::{Key, Outcome};

/// It is finished, or its certificate waits for a verdict, among the claims of a group.
#[derive(Drop)]
pub(crate) enum Place<B, F, N> {
    /// It came to no verdict.
    Finished(Outcome, Answer<B, F, N>),
    /// A finalization, by group and place there, and its block.
    Finalized(usize, usize, B),
    /// A notarization, and the bytes behind it, which are read once it verifies.
    Notarized(usize, usize, Bytes),
}

/// A delivery and where it stands.
#[derive(Drop)]
pub(crate) struct Entry<D, B, F, N> {
    pub ticket: u64,
    pub key: Key<D>,
    pub place: Place<B, F, N>,
}
