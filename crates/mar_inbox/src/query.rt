//! What a caller asks.
ghost use Rattle.std.specs.Prelude.{◌≡◌, ℕ, List, Some};
ghost use Rattle.mar_cert.specs.Block.{Block};
ghost use Rattle.mar_cert.specs.Finalization.{Finalization, Notarization};
ghost use Rattle.mar_inbox.specs.Views.{message_of, query_of, ticket_of};

use crate::identifier::Identifier;
use crate::message::Message;
use mar_types::{Height, Round};

/// What a caller asks, without its ticket, with digests of the kind `D`.
#[derive(Clone, Copy)]
pub enum Query<D> {
    /// Height and digest of a finalized block.
    Info(Identifier<D>),
    /// A block. By its height, or as the latest, it is a finalized one; by its digest it may be any that is at hand.
    Block(Identifier<D>),
    /// The finalization that is stored at a height.
    Finalization(Height),
    /// The processed height.
    Processed,
    /// The processed height and the stored block that backs it.
    Anchor,
    /// The first block that was stored as verified in a round.
    Verified(Round),
}

impl<D> Query<D> {
    /// The message that asks this under a ticket.
    pub fn under<B, N, F>(self, ticket: u64) -> Message<D, B, N, F>
        ensures asks { (digest : D → List ℕ) (plain : B → Block) (notarization : N → Notarization) (finalization : F → Finalization)
            → message_of digest plain notarization finalization result ≡ query_of digest self }
        ensures answered { ticket_of result ≡ Some ticket }
    {
        match self {
            Query::Info(identifier) => Message::GetInfo { ticket, identifier },
            Query::Block(identifier) => Message::GetBlock { ticket, identifier },
            Query::Finalization(height) => Message::GetFinalization { ticket, height },
            Query::Processed => Message::GetProcessed { ticket },
            Query::Anchor => Message::GetAnchor { ticket },
            Query::Verified(round) => Message::GetVerified { ticket, round },
        }
    }
}
