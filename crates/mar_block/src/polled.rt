//! What a stream of ancestors shows and yields.

/// What a poll gives.
#[derive(Drop)]
pub enum Polled<B> {
    /// The next block.
    Block(B),
    /// The next block isn't the direct parent of the last one.
    NotContiguous,
    /// The next block isn't there yet.
    Pending,
    /// No block comes any more.
    End,
}

/// What is there of the next block.
#[derive(Clone, Copy)]
pub enum Peeked<'a, B> {
    /// It isn't there yet, or none comes any more.
    Nothing,
    /// The next block.
    Block(&'a B),
    /// It isn't the direct parent of the last one.
    NotContiguous,
}
