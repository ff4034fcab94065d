//! What becomes of deliveries, and what they give.
use mar_key::{Annotation, Key, Outcome};

/// What a delivery gives: a block, and for whom it was asked; a certificate and its block; or nothing.
#[derive(Drop)]
pub enum Answer<B, F, N> {
    Block(B, Vec<Annotation>),
    Finalized(F, B),
    Notarized(N, B),
    Nothing,
}

/// What becomes of one delivery, and what it gives.
#[derive(Drop)]
pub struct Verdict<D, B, F, N> {
    /// The ticket of the message.
    pub ticket: u64,
    /// What was asked for.
    pub key: Key<D>,
    /// What becomes of the delivery.
    pub outcome: Outcome,
    /// What it gives: something where it is Complete.
    pub answer: Answer<B, F, N>,
}
