//! What the application is told.
ghost use Rattle.std.specs.Prelude.{◌≡◌, ◌∷◌, [], List, OnErr, OnOk, Option};
ghost use Rattle.mar_key.specs.Hears.{Hears};
ghost use Rattle.mar_model.specs.Step.{Report};
ghost use Rattle.mar_actor.specs.Views.{report_of};

use mar_block::Variant;
use mar_types::{Height, Round};
use std::alloc::AllocError;

/// The acknowledgement that the application owes for a block; it names the block by its ticket.
#[derive(Clone, Copy, Debug, PartialEq, Eq)]
pub struct Exact {
    ticket: u64,
}

impl Exact {
    /// The acknowledgement of the block of this ticket.
    pub fn handle(ticket: u64) -> Self
        ensures { result.ticket ≡ ticket }
    {
        Exact { ticket }
    }

    /// The ticket that names the block.
    pub fn ticket(&self) -> u64
        ensures { result ≡ self.now.ticket }
    {
        self.ticket
    }
}

/// What the application is told, with digests of the kind `D` and blocks of the kind `B`.
#[derive(Debug, Drop)]
pub enum Update<D, B> {
    /// The newest finalized block that is known: the round that finalized it, its height and its digest.
    Tip(Round, Height, D),
    /// The next finalized block, and the acknowledgement that is owed for it.
    Block(B, Exact),
}

/// The application, as far as it is told of finalized blocks.
pub trait Reporter<V: Variant> {
    // What it was told, in order, where it tells that.
    ghost told: { Self → Option (List Report) };

    /// Tells the application. An error is want of memory; it ends the life, and the application was told nothing.
    fn report(&mut self, update: Update<V::Digest, V::Block>) -> Result<(), AllocError>
        ensures ok { OnOk result (Hears (told self.old) (report_of V.Digest.bytes V.plain update ∷ []) (told self.new)) }
        ensures err { OnErr result (Hears (told self.old) [] (told self.new)) };
}
