//! What an actor is set to, and what a life begins with by it.
ghost use Rattle.std.specs.Prelude.{◌≡◌, ◌*◌, ◌-◌, ◌^◌, IfOk, min};
ghost use Rattle.mar_cert.specs.Block.{Block};
ghost use Rattle.mar_model.specs.Faults.{from_genesis};
ghost use Rattle.mar_model.specs.Held.{first_life};
ghost use Rattle.mar_actor.specs.Views.{begin_of, sizes_of};

use crate::life::Life;
use mar_parts::PendingAcks;
use mar_types::ViewDelta;
use std::alloc::{AllocError, Global};

/// The sizes that a life keeps beside its window.
#[derive(Clone, Copy)]
pub(crate) struct Limits {
    pub(crate) mailbox_size: usize,
    pub(crate) max_repair: usize,
    pub(crate) view_retention: ViewDelta,
}

/// What a chain begins from, with blocks of the kind `B`.
#[derive(Drop)]
pub enum Start<B> {
    /// The block at height zero.
    Genesis(B),
}

impl<B> Start<B> {
    /// The block at height zero.
    pub(crate) fn genesis(self) -> B
        ensures { (plain : B → Block) → begin_of plain self ≡ from_genesis (plain result) }
    {
        match self {
            Start::Genesis(genesis) => genesis,
        }
    }
}

/// What an actor is opened with: who gives the schemes of epochs, which heights an epoch has, and the rest.
#[derive(Drop)]
pub struct Config<P, E, B, C> {
    /// Who gives the scheme of an epoch. Nothing is verified with it yet.
    pub provider: P,
    /// Which heights an epoch has.
    pub epocher: E,
    /// What the chain begins from: the same at each opening.
    pub start: Start<B>,
    /// How many messages wait in order; at least 1. No message waits yet: each is a step of its own.
    pub mailbox_size: usize,
    /// How many views below the round that was witnessed last the cache keeps as a newer one is.
    pub view_retention: ViewDelta,
    /// How the bytes of a block are read. No bytes come from peers yet.
    pub block_codec_config: C,
    /// How many missing heights are asked for at once; at least 1.
    pub max_repair: usize,
    /// How many blocks may be handed over and not yet acknowledged; at least 1.
    pub max_pending_acks: usize,
}

/// What a life begins with, before it has stores.
pub(crate) struct Beginning<P, E, B> {
    pub(crate) life: Life<P, E>,
    /// The block at height zero.
    pub(crate) genesis: B,
    /// How many blocks the stores may keep at hand until they are handed over.
    pub(crate) max_staged: usize,
}

impl<P: Drop, E: Drop, B: Drop, C: Drop> Config<P, E, B, C> {
    /// What a life begins with. No store is asked for it, so that memory may run out here before anything is opened.
    pub(crate) fn begin(self, alloc: Global) -> Result<Beginning<P, E, B>, AllocError>
        ensures life { IfOk result (λ b. b.life ≡ first_life self.provider self.epocher (sizes_of self)) }
        ensures genesis { (plain : B → Block) → IfOk result (λ b. begin_of plain self.start ≡ from_genesis (plain b.genesis)) }
        ensures staged { IfOk result (λ b. b.max_staged ≡ min (self.max_pending_acks * 2) (2 ^ 64 - 1)) }
    {
        let acks = PendingAcks::new(alloc, self.max_pending_acks)?;
        let limits = Limits {
            mailbox_size: self.mailbox_size,
            max_repair: self.max_repair,
            view_retention: self.view_retention,
        };
        Ok(Beginning {
            life: Life::new(self.provider, self.epocher, limits, acks),
            genesis: self.start.genesis(),
            max_staged: self.max_pending_acks.saturating_mul(2),
        })
    }
}
