//! What callers send, as the queue sees it.
ghost use Rattle.std.specs.Prelude.{OnErr, OnOk, ◌≡◌};
ghost use Rattle.mar_model.specs.Messages.{Queued};
ghost use Rattle.mar_inbox.specs.Kinds.{IsUnasked, kind_of, merged_by, tidied_by};
ghost use Rattle.mar_inbox.specs.Policy.{waits_for};

use mar_types::Round;
use std::alloc::AllocError;

/// What a message is to those that wait.
#[derive(Clone, Copy)]
pub enum Kind {
    /// A floor of this round: of several the latest waits, and it comes out first.
    Floor(Round),
    /// A prune below this height: of several the highest waits, and it comes out next.
    Prune(u64),
    /// A hint that this height is finalized: those of one height wait as one.
    Hint(u64),
    /// A question by this height, which a prune above it drops.
    Read(u64),
    /// The end of the wait for this ticket.
    Close(u64),
    /// Any other.
    Other,
}

/// A message, as the queue sees it: what it says, and under which ticket it is answered.
pub trait Letter: Drop {
    // What it says, and its ticket.
    ghost plain: { Self → Queued };

    /// What it is to those that wait. Floors, prunes and hints have no ticket.
    fn kind(&self) -> Kind
        ensures kind { result ≡ kind_of (plain self.now).message }
        ensures unasked { IsUnasked (plain self.now).message (plain self.now) };

    /// The ticket whose closing drops it while it waits, if there is one.
    fn waits_for(&self) -> Option<u64>
        ensures { result ≡ waits_for (plain self.now) };

    /// A hint takes in the peers of another that it doesn't name yet, behind its own. Where memory runs out nothing changes.
    fn merge(&mut self, more: &Self) -> Result<(), AllocError>
        ensures ok { OnOk result (plain self.new ≡ merged_by (plain self.old) (plain more.now).message) }
        ensures err { OnErr result (plain self.new ≡ plain self.old) };

    /// A hint keeps each peer that it names once, where it names it first.
    fn tidy(&mut self)
        ensures { plain self.new ≡ tidied_by (plain self.old) (plain self.old).message };
}
