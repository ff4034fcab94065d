//! A store in its place, or what is left of it.
ghost use Rattle.std.specs.Prelude.{◌≡◌, MatchOption, false};
ghost use Rattle.mar_store.specs.Lost.{wreck_of};
ghost use Rattle.mar_model.specs.Places.{is_open, why_lost};
ghost use Rattle.mar_model.specs.declared.place.Place.TheVariants.{Away, Open};

use mar_store::{Lost, Miss};
use std::mem;

/// A store in its place, or what is left of it where a call of it failed. It is away while it is changed.
#[derive(Drop)]
pub enum Place<S, W> {
    /// The store.
    Open(S),
    /// What is left of it.
    Lost(W),
    /// The store is away.
    Away,
}

impl<S: Drop, W: Drop> Place<S, W> {
    /// Takes the store out of its place, where it is there.
    pub fn take(&mut self) -> Option<S>
        ensures { MatchOption result ((self.new ≡ self.old) × (is_open self.old ≡ false)) (λ s. (self.old ≡ Open s) × (self.new ≡ Away)) }
    {
        match mem::replace(self, Place::Away) {
            Place::Open(store) => Some(store),
            other => {
                *self = other;
                None
            }
        }
    }
}

/// Why a store is lost, and what is left of it.
pub fn parts_of<W>(lost: Lost<W>) -> (Miss, W)
    ensures why { result.0 ≡ why_lost lost }
    ensures left { result.1 ≡ wreck_of lost }
{
    match lost {
        Lost::Fault(wreck) => (Miss::Fault, wreck),
        Lost::Memory(wreck) => (Miss::Memory, wreck),
    }
}
