//! What is kept of a put.

/// A value at an index, with the number of its put.
#[derive(Drop)]
pub struct Entry<T> {
    pub index: u64,
    pub number: u64,
    pub item: T,
}
