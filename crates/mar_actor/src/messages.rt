//! What a message tells or asks.
ghost use Rattle.std.specs.Prelude.{◌≡◌, List, ℕ};
ghost use Rattle.mar_cert.specs.Block.{Block};
ghost use Rattle.mar_cert.specs.Finalization.{Finalization, Notarization};
ghost use Rattle.mar_inbox.specs.Views.{message_of, ticket_of};
ghost use Rattle.mar_model.specs.Event.{message_told};
ghost use Rattle.mar_actor.specs.Views.{message_first, message_sendings, told_first, told_of, told_sendings};

use mar_block::Recipients;
use mar_inbox::{Message, Query};
use mar_types::{Height, NonEmptyVec, Participant, Round};

/// What a caller tells, or asks under a ticket.
#[derive(Drop)]
pub(crate) enum Told<D, B, N, F> {
    Reported(F),
    Notarization(N),
    Certification(N),
    Asked(u64, Query<D>),
    Verified {
        ticket: u64,
        round: Round,
        block: B,
    },
    Proposed {
        ticket: u64,
        round: Round,
        recipients: Recipients<Participant>,
        block: B,
    },
    Prepared {
        round: Round,
        recipients: Recipients<Participant>,
        block: B,
    },
    Certified {
        ticket: u64,
        round: Round,
        block: B,
    },
    Hint(Height, NonEmptyVec<Participant>),
}

/// What a message tells or asks.
pub(crate) fn told_by<D, B, N, F>(message: Message<D, B, N, F>) -> Told<D, B, N, F>
    ensures told { (digest : D → List ℕ) (block : B → Block) (notarization : N → Notarization) (finalization : F → Finalization)
        → told_of digest block notarization finalization result
        ≡ message_told (ticket_of message) (message_of digest block notarization finalization message) }
    ensures sends { (block : B → Block) → told_sendings block result ≡ message_sendings block message }
    ensures first { (block : B → Block) → told_first block result ≡ message_first block message }
{
    match message {
        Message::HintFinalized { height, targets } => Told::Hint(height, targets),
        Message::Notarization(notarization) => Told::Notarization(notarization),
        Message::Certification(certification) => Told::Certification(certification),
        Message::Finalization(finalization) => Told::Reported(finalization),
        Message::GetInfo { ticket, identifier } => Told::Asked(ticket, Query::Info(identifier)),
        Message::GetBlock { ticket, identifier } => Told::Asked(ticket, Query::Block(identifier)),
        Message::GetFinalization { ticket, height } => {
            Told::Asked(ticket, Query::Finalization(height))
        }
        Message::GetProcessed { ticket } => Told::Asked(ticket, Query::Processed),
        Message::GetAnchor { ticket } => Told::Asked(ticket, Query::Anchor),
        Message::GetVerified { ticket, round } => Told::Asked(ticket, Query::Verified(round)),
        Message::Verified {
            ticket,
            round,
            block,
        } => Told::Verified {
            ticket,
            round,
            block,
        },
        Message::Proposed {
            ticket,
            round,
            recipients,
            block,
        } => Told::Proposed {
            ticket,
            round,
            recipients,
            block,
        },
        Message::Prepared {
            round,
            recipients,
            block,
        } => Told::Prepared {
            round,
            recipients,
            block,
        },
        Message::Certified {
            ticket,
            round,
            block,
        } => Told::Certified {
            ticket,
            round,
            block,
        },
    }
}
