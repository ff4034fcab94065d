//! What an entry is found by.

/// The keys of an entry: that of its place, which no other entry has that an archive holds beside it, and those that it may
/// share with others.
#[derive(Clone, Copy)]
pub struct Keys<K> {
    pub place: K,
    pub round: Option<K>,
    pub digest: Option<K>,
    pub commitment: Option<K>,
}
