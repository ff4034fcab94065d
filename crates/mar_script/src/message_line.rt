//! The messages that lines tell.
ghost use Rattle.std.specs.Prelude.{◌≡◌, Some, None, if◌then◌else◌};
ghost use Rattle.mar_inbox.specs.Views.{ticket_of};
ghost use Rattle.mar_script.specs.Lines.{MadeOf, Parses, message_row, plain_message};
ghost use Rattle.mar_script.specs.Run.{takes_ticket};
ghost use Rattle.mar_script.specs.Script.{IsBuiltMessage};

use crate::block_line::{round_and_block, sent_block};
use crate::certificate_line::finalization_of;
use crate::hint_line::hinted;
use crate::query_line::{height, identifier, round};
use crate::words::ParseError;
use mar_block::EmptyBlock;
use mar_cert::MockFinalization;
use mar_inbox::Message;
use mar_types::{Digested, Sha256, Sha256Digest};
use std::alloc::Global;

/// A message of a script's node. As it is read it has no ticket of its own yet: 0 stands in its place.
pub type ScriptMessage = Message<
    Sha256Digest,
    Digested<EmptyBlock<Sha256>>,
    MockFinalization,
    MockFinalization,
>;

/// What a message of several words is, by its first.
#[derive(Clone, Copy)]
pub enum MessageKind {
    Final,
    Notar,
    Certn,
    Info,
    Block,
    Finalization,
    GetVerified,
    Verified,
    Certified,
    Proposed,
    Prepared,
    Hint,
}

/// The message of this kind, with these bytes behind its first word and a space.
pub fn parse_message(
    alloc: Global,
    members: u32,
    kind: MessageKind,
    rest: &[u8],
) -> Result<ScriptMessage, ParseError>
    ensures { Parses plain_message (MadeOf members (message_row kind) rest.now) result }
{
    match kind {
        MessageKind::Final => finalization_of(alloc, members, rest).map(Message::Finalization),
        MessageKind::Notar => finalization_of(alloc, members, rest).map(Message::Notarization),
        MessageKind::Certn => finalization_of(alloc, members, rest).map(Message::Certification),
        MessageKind::Info => identifier(rest).map(|identifier| Message::GetInfo {
            ticket: 0,
            identifier,
        }),
        MessageKind::Block => identifier(rest).map(|identifier| Message::GetBlock {
            ticket: 0,
            identifier,
        }),
        MessageKind::Finalization => height(rest).map(|height| Message::GetFinalization {
            ticket: 0,
            height,
        }),
        MessageKind::GetVerified => round(rest).map(|round| Message::GetVerified {
            ticket: 0,
            round,
        }),
        MessageKind::Verified => round_and_block(alloc, rest).map(|v| Message::Verified {
            ticket: 0,
            round: v.round,
            block: v.block,
        }),
        MessageKind::Certified => round_and_block(alloc, rest).map(|v| Message::Certified {
            ticket: 0,
            round: v.round,
            block: v.block,
        }),
        MessageKind::Proposed => sent_block(alloc, rest).map(|sent| Message::Proposed {
            ticket: 0,
            round: sent.round,
            recipients: sent.recipients,
            block: sent.block,
        }),
        MessageKind::Prepared => sent_block(alloc, rest).map(|sent| Message::Prepared {
            round: sent.round,
            recipients: sent.recipients,
            block: sent.block,
        }),
        MessageKind::Hint => hinted(alloc, rest).map(|hint| Message::HintFinalized {
            height: hint.height,
            targets: hint.targets,
        }),
    }
}

/// Gives a message this ticket, if it takes one.
pub fn set_ticket(message: &mut ScriptMessage, next: u64)
    ensures read { IsBuiltMessage (plain_message message.old) }
    ensures same { plain_message message.new ≡ plain_message message.old }
    ensures ticket { ticket_of message.new ≡ (if takes_ticket (plain_message message.old) then Some next else None) }
{
    match message {
        Message::GetInfo { ticket, .. } => *ticket = next,
        Message::GetBlock { ticket, .. } => *ticket = next,
        Message::GetFinalization { ticket, .. } => *ticket = next,
        Message::GetProcessed { ticket } => *ticket = next,
        Message::GetAnchor { ticket } => *ticket = next,
        Message::GetVerified { ticket, .. } => *ticket = next,
        Message::Verified { ticket, .. } => *ticket = next,
        Message::Proposed { ticket, .. } => *ticket = next,
        Message::Certified { ticket, .. } => *ticket = next,
        Message::Prepared { .. } => {}
        Message::HintFinalized { .. } => {}
        Message::Notarization(_) => {}
        Message::Finalization(_) => {}
        Message::Certification(_) => {}
    }
}
