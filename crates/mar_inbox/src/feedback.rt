//! What an enqueue is answered.

/// What an enqueue is answered.
#[derive(Clone, Copy, Debug, PartialEq, Eq)]
pub enum Feedback {
    /// The message is ready.
    Ok,
    /// It went past the messages that are ready.
    Overflowed,
    /// The inbox was shut, and nothing becomes of it.
    Closed,
}
