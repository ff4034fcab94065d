//! Deliveries and what becomes of them.
use crate::annotations::Annotation;
use crate::keys::Key;

/// What becomes of a delivery.
#[derive(Clone, Copy, Debug, PartialEq, Eq)]
pub enum Outcome {
    /// It was what was asked for; the key is closed.
    Complete,
    /// It wasn't; the key stays open.
    Invalid,
    /// Nothing can be said of it; the key is closed.
    Ignored,
}

/// A key for which something came, and for whom it was asked.
#[derive(Drop)]
pub struct Delivery<D> {
    /// What was asked for.
    pub key: Key<D>,
    /// For whom, in the order in which they asked.
    pub annotations: Vec<Annotation>,
}
