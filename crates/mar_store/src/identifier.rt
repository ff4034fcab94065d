//! An index or a digest, as a call takes it.

/// What a value of an archive is looked up by.
#[derive(Clone, Copy, Debug, PartialEq, Eq)]
pub enum Identifier<K> {
    /// The index that it stands at.
    Index(u64),
    /// Its digest.
    Key(K),
}
