//! To whom a block is sent, and what was sent.
use mar_types::{Participant, Round};

/// To which peers of the kind `P` something is sent.
#[derive(Clone, Debug, PartialEq, Eq, Drop)]
pub enum Recipients<P> {
    /// To each peer.
    All,
    /// To these peers alone.
    Some(Vec<P>),
}

/// A block of the kind `B` that was sent: in which round, and to whom.
#[derive(Debug, PartialEq, Eq, Drop)]
pub struct Sent<B> {
    pub round: Round,
    pub block: B,
    pub recipients: Recipients<Participant>,
}
