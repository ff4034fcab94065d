//! What certificates that come from peers are about.

/// What a certificate that comes from a peer is to be about.
#[derive(Clone, Copy, Debug, PartialEq, Eq)]
pub enum Kind {
    /// Its proposal is final.
    Finalized,
    /// Its proposal is notarized.
    Notarized,
}
