//! Why a stream isn't made.

/// Two neighbours aren't child and direct parent.
#[derive(Clone, Copy, Debug, PartialEq, Eq)]
pub struct NotContiguous;

/// Why a stream isn't made.
#[derive(Clone, Copy, Debug, PartialEq, Eq)]
pub enum Refusal {
    /// The blocks aren't a line of parents.
    NotContiguous,
    /// Memory ran out.
    Memory,
}

/// No stream was made; what stands behind its blocks comes back.
#[derive(Drop)]
pub struct Refused<T> {
    /// Why.
    pub reason: Refusal,
    /// The stream or the provider that was handed in.
    pub kept: T,
}
