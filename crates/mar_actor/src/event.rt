//! What an actor steps on.
use crate::reporter::Exact;
use mar_inbox::Message;

/// What an actor steps on, with digests, blocks, notarizations and finalizations of the kinds `D`, `B`, `N` and `F`.
#[derive(Drop)]
pub enum Event<D, B, N, F> {
    /// The life begins: the first step after an opening, which tells the newest tip and hands over what is stored.
    Start,
    /// Consensus notarized, certified or finalized a block, a caller has a block kept or sent, or asks.
    Message(Message<D, B, N, F>),
    /// The sync of this ticket is to finish: what it covers becomes durable. Where that is of finalized blocks, more may be
    /// handed over; where it is of blocks that were kept for a caller, that one is answered; where it is of a notarization or
    /// of its block, nobody is. A ticket that isn't open is ignored.
    Sync(u64),
    /// The application acknowledged the block of this ticket. A ticket that isn't owed is ignored.
    Ack(u64),
    /// The application dropped the acknowledgement of this ticket, and won't give it. The life ends once the block is the
    /// lowest that isn't acknowledged. A ticket that isn't owed is ignored.
    Dropped(u64),
}

/// The acknowledgement, given back.
impl<D, B, N, F> From<Exact> for Event<D, B, N, F> {
    ghost use Rattle.std.specs.Prelude.{◌≡◌};
    ghost use Rattle.mar_actor.specs.declared.event.Event.TheVariants.{Ack};

    ghost from_gives = { λ exact event. event ≡ Ack exact.ticket };

    fn from(acknowledgement: Exact) -> Event<D, B, N, F> {
        Event::Ack(acknowledgement.ticket())
    }
}
