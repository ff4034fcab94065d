//! What a caller tells the actor, or asks of it.
ghost use Rattle.std.specs.Prelude.{◌≡◌, ℕ, List, None};
ghost use Rattle.mar_cert.specs.Block.{Block};
ghost use Rattle.mar_cert.specs.Finalization.{Finalization, Notarization};
ghost use Rattle.mar_model.specs.Answers.{own_value};
ghost use Rattle.mar_model.specs.Config.{Config};
ghost use Rattle.mar_model.specs.Node.{Node};
ghost use Rattle.mar_inbox.specs.Views.{message_of, ticket_of};

use crate::identifier::Identifier;
use mar_block::Recipients;
use mar_types::{Height, NonEmptyVec, Participant, Round};

/// What a caller tells the actor or asks of it, with digests, blocks, notarizations and finalizations of the kinds `D`,
/// `B`, `N` and `F`. A message that is answered has a ticket, under which its answer comes.
#[derive(Drop)]
pub enum Message<D, B, N, F> {
    /// Asks for height and digest of a finalized block.
    GetInfo {
        ticket: u64,
        identifier: Identifier<D>,
    },
    /// Asks for a block. By its height, or as the latest, it is a finalized one; by its digest it may be any that is at
    /// hand.
    GetBlock {
        ticket: u64,
        identifier: Identifier<D>,
    },
    /// Asks for the finalization that is stored at a height.
    GetFinalization {
        ticket: u64,
        height: Height,
    },
    /// Asks for the processed height.
    GetProcessed {
        ticket: u64,
    },
    /// Asks for the processed height and the stored block that backs it.
    GetAnchor {
        ticket: u64,
    },
    /// Asks for the first block that was stored as verified in a round.
    GetVerified {
        ticket: u64,
        round: Round,
    },
    /// A block is being verified: it is stored, whether or not it turns out to be valid. The answer is the ticket of the
    /// sync that makes it durable, and once more when that has finished.
    Verified {
        ticket: u64,
        round: Round,
        block: B,
    },
    /// A block was proposed here: it is stored and sent. It is answered as a verified one.
    Proposed {
        ticket: u64,
        round: Round,
        recipients: Recipients<Participant>,
        block: B,
    },
    /// A block was built ahead of its proposal: it is sent, and not stored.
    Prepared {
        round: Round,
        recipients: Recipients<Participant>,
        block: B,
    },
    /// A block is being certified: it is stored, and its notarization made durable with it. It is answered as a verified
    /// one.
    Certified {
        ticket: u64,
        round: Round,
        block: B,
    },
    /// These peers are said to hold the finalization of a height: it is asked of them, unless it is held here or the height
    /// is processed.
    HintFinalized {
        height: Height,
        targets: NonEmptyVec<Participant>,
    },
    /// Consensus notarized a proposal.
    Notarization(N),
    /// Consensus finalized a proposal.
    Finalization(F),
    /// Consensus certified a notarized proposal.
    Certification(N),
}

impl<D, B, N, F> Message<D, B, N, F> {
    /// The ticket under which its answer comes. One that has none is never answered.
    pub fn ticket(&self) -> Option<u64>
        ensures ticket { result ≡ ticket_of self.now }
        ensures unanswered { result ≡ None → (digest : D → List ℕ) (plain : B → Block) (notarization : N → Notarization)
            (finalization : F → Finalization) (config : Config) (n : Node) (lowest : ℕ)
            → own_value config n lowest (message_of digest plain notarization finalization self.now) ≡ None }
    {
        match self {
            Message::GetInfo { ticket, .. }
            | Message::GetBlock { ticket, .. }
            | Message::GetFinalization { ticket, .. }
            | Message::GetProcessed { ticket }
            | Message::GetAnchor { ticket }
            | Message::GetVerified { ticket, .. }
            | Message::Verified { ticket, .. }
            | Message::Proposed { ticket, .. }
            | Message::Certified { ticket, .. } => Some(*ticket),
            Message::Prepared { .. }
            | Message::HintFinalized { .. }
            | Message::Notarization(_)
            | Message::Finalization(_)
            | Message::Certification(_) => None,
        }
    }
}
