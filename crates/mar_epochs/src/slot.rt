//! What is at hand of an epoch.

/// What is at hand of an epoch.
#[derive(Drop)]
pub enum Slot<A, W> {
    /// Its archives, and the number of the opening in which they were opened.
    Standing(A, u64),
    /// What is left of its archives.
    Leftover(W),
    /// Its archives are away, while they change.
    Away,
}
