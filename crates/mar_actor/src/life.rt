//! What a life keeps beside its stores.
ghost use Rattle.std.specs.Prelude.{◌≡◌, []};
ghost use Rattle.mar_model.specs.Held.{first_life};
ghost use Rattle.mar_actor.specs.Views.{sizes_in};

use crate::settings::Limits;
use mar_parts::PendingAcks;
use mar_types::Height;
use std::marker::Model;

/// What a life keeps beside its stores: what it was given, and its window.
#[derive(Drop)]
pub(crate) struct Life<P, E> {
    pub(crate) provider: P,
    pub(crate) epocher: E,
    pub(crate) window: Window,
}

impl<P, E> Model for Life<P, E> {
    ghost use Rattle.mar_model.specs.Held.{Remembered};
    ghost use Rattle.mar_model.specs.Scene.{remembered};

    ghost Value = { Remembered P E };

    ghost view = { λ l. remembered l.provider l.epocher l.window };
}

impl<P, E> Life<P, E> {
    /// What a life begins with.
    pub(crate) fn new(provider: P, epocher: E, limits: Limits, acks: PendingAcks) -> Self
        requires { acks.entries ≡ [] }
        ensures { result ≡ first_life provider epocher (sizes_in acks.max limits) }
    {
        Life {
            provider,
            epocher,
            window: Window {
                limits,
                acks,
                next_ack: 0,
                tip: Height::zero(),
            },
        }
    }

    /// The height of the last reported tip.
    pub(crate) fn tip(&self) -> Height
        ensures { result ≡ self.now.tip }
    {
        self.window.tip
    }
}

/// What a life remembers: the sizes that it was set to, the blocks that it handed over, and the tip that it told. A rule is lent
/// it alone, so that no rule is generic in what the life was given.
#[derive(Drop)]
pub(crate) struct Window {
    limits: Limits,
    /// The blocks that were handed over and are not yet drained.
    pub(crate) acks: PendingAcks,
    pub(crate) next_ack: u64,
    /// The height of the last reported tip.
    pub(crate) tip: Height,
}

impl Model for Window {
    ghost use Rattle.mar_model.specs.Scene.{Window as PlainWindow};
    ghost use Rattle.mar_actor.specs.Views.{sizes_in};

    ghost Value = { PlainWindow };

    ghost view = { λ w. record { sizes = sizes_in w.acks.max w.limits; out = w.acks.entries; tip = w.tip; next_ack = w.next_ack } };
}

impl Window {
    /// How many views below the last witnessed round the cache keeps.
    pub(crate) fn retention(&self) -> u64
        ensures { result ≡ self.now.sizes.retention }
    {
        self.limits.view_retention.get()
    }

    /// How many missing heights are asked for at once.
    pub(crate) fn max_repair(&self) -> usize
        ensures { result ≡ self.now.sizes.max_repair }
    {
        self.limits.max_repair
    }
}
