//! What a buffer promises to tell of.

/// The promise of a buffer that the block of this name is handed to the node as it comes.
#[derive(Clone, Copy, Debug, PartialEq, Eq)]
pub struct Subscription<K> {
    pub name: K,
}
