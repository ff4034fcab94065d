//! Blocks that are sent.
ghost use Rattle.std.specs.Prelude.{◌≡◌, ◌∷◌, [], List, OnErr, OnOk, Option};
ghost use Rattle.mar_block.specs.Recipients.{named};
ghost use Rattle.mar_block.specs.Sent.{Sends};
ghost use Rattle.mar_inbox.specs.Views.{peers_of, sent_by};
ghost use Rattle.mar_key.specs.Keys.{Call};
ghost use Rattle.mar_model.specs.Answers.{TicketAnswer};
ghost use Rattle.mar_model.specs.Held.{Held};
ghost use Rattle.mar_model.specs.Plans.{prepared_plan, sent_block};
ghost use Rattle.mar_model.specs.Promise.{heard_with};
ghost use Rattle.mar_model.specs.Ran.{Does};
ghost use Rattle.mar_model.specs.Scene.{Standing, Window, scene};
ghost use Rattle.mar_model.specs.Step.{Report};
ghost use Rattle.mar_model.specs.Views.{fault_of};

use mar_block::{Buffer, Recipients, Variant};
use mar_model::Fault;
use mar_types::{Participant, Round};

/// Has the buffer send a block of a round to these peers: all that a prepared block asks.
pub(crate) fn send<V: Variant, B: Buffer<V>>(
    buffer: &mut B,
    round: Round,
    block: V::Block,
    recipients: Recipients<Participant>,
) -> Result<(), Fault<V::Commitment>>
    ensures runs { (held : Held) (life : Window) (standing : Standing) (told : Option (List Report)) (asks : Option (List Call)) (answers : List TicketAnswer)
        → Does V.inner (fault_of V.Commitment.bytes) (prepared_plan (sent_block round (peers_of recipients) (V.plain block)))
        (scene held life standing (heard_with told asks (sent_by (B.sent buffer.old)) answers))
        (scene held life standing (heard_with told asks (sent_by (B.sent buffer.new)) answers)) result }
    ensures sends { OnOk result (Sends (B.sent buffer.old) (record { round = round; block = V.plain block; peers = named recipients } ∷ [])
        (B.sent buffer.new)) }
    ensures unsent { OnErr result (Sends (B.sent buffer.old) [] (B.sent buffer.new)) }
    ensures blocks { B.blocks buffer.new ≡ B.blocks buffer.old }
    ensures notifies { B.notifies buffer.new ≡ B.notifies buffer.old }
{
    match buffer.send(round, block, recipients) {
        Ok(()) => Ok(()),
        Err(_) => Err(Fault::Memory),
    }
}
