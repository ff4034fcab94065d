//! A resolver whose peers have what was put.
ghost use Rattle.std.specs.Prelude.{OnErr, OnOk, Some, [], map, ◌∷◌, ◌≡◌};
ghost use Rattle.mar_key.specs.Hears.{Hears};
ghost use Rattle.mar_key.specs.Keys.{retain};
ghost use Rattle.mar_key.specs.Recorded.{ask_of};
ghost use Rattle.mar_key.specs.Views.{call_of, retain_of, targeted_of};
ghost use Rattle.mar_mocks.specs.Entries.{value_of};

use crate::resolver::Resolver;
use mar_key::{Ask, Fetch, Key, Recorder, Resolver as Asked, Retain, TargetedResolver};
use mar_types::Digest;
use std::alloc::{AllocError, Global};

/// What a node asks is kept, in order, beside what its peers have: so a test hands the node the answer to an ask.
#[derive(Drop)]
pub struct Peers<D: Digest, V: Copy> {
    /// What was asked.
    pub asked: Recorder<D>,
    /// What the peers have.
    pub values: Resolver<Key<D>, V>,
}

impl<D: Digest, V: Copy> Peers<D, V> {
    /// Peers that have these values. Nothing was asked yet.
    pub fn new(alloc: Global, values: Resolver<Key<D>, V>) -> Self
        ensures asked { result.asked ≡ [] }
        ensures values { result.values ≡ values }
    {
        Peers {
            asked: Recorder::new(alloc),
            values,
        }
    }

    /// All that was asked, in order.
    pub fn asks(&self) -> &[Ask<D>]
        ensures { map (ask_of D.bytes) result.now ≡ self.now.asked }
    {
        self.asked.asks()
    }

    /// What the peers answer to a request: the value under its key, or none.
    pub fn answer(&self, fetch: &Fetch<D>) -> Option<V>
        ensures { result ≡ value_of ⟦<Key<D> as Ord>⟧.cmp self.now.values fetch.now.key }
    {
        self.values.get(&fetch.key)
    }
}

impl<D: Digest, V: Copy> Asked<D> for Peers<D, V> {
    ghost told = { λ p. Some p.asked };

    fn fetch(&mut self, fetch: Fetch<D>) -> Result<(), AllocError>
        ensures ok { OnOk result (Hears (Some self.old.asked) (call_of D.bytes fetch ∷ []) (Some self.new.asked)) }
        ensures err { OnErr result (Hears (Some self.old.asked) [] (Some self.new.asked)) }
        ensures values { self.new.values ≡ self.old.values }
    {
        self.asked.fetch(fetch)
    }

    fn fetch_all(&mut self, fetches: &[Fetch<D>]) -> Result<(), AllocError>
        ensures ok { OnOk result (Hears (Some self.old.asked)
            (map (call_of D.bytes) fetches.now) (Some self.new.asked)) }
        ensures err { OnErr result (Hears (Some self.old.asked) [] (Some self.new.asked)) }
        ensures values { self.new.values ≡ self.old.values }
    {
        self.asked.fetch_all(fetches)
    }

    fn retain(&mut self, keep: Retain) -> Result<(), AllocError>
        ensures ok { OnOk result (Hears (Some self.old.asked) (retain (retain_of keep) ∷ []) (Some self.new.asked)) }
        ensures err { OnErr result (Hears (Some self.old.asked) [] (Some self.new.asked)) }
        ensures values { self.new.values ≡ self.old.values }
    {
        self.asked.retain(keep)
    }
}

impl<D: Digest, V: Copy> TargetedResolver<D> for Peers<D, V> {
    fn fetch_targeted(&mut self, fetch: Fetch<D>, targets: &[u32]) -> Result<(), AllocError>
        ensures ok { OnOk result (Hears (Some self.old.asked)
            (targeted_of D.bytes fetch targets.now ∷ []) (Some self.new.asked)) }
        ensures err { OnErr result (Hears (Some self.old.asked) [] (Some self.new.asked)) }
        ensures values { self.new.values ≡ self.old.values }
    {
        self.asked.fetch_targeted(fetch, targets)
    }

    fn fetch_all_targeted(
        &mut self,
        fetches: &[Fetch<D>],
        targets: &[u32],
    ) -> Result<(), AllocError>
        ensures ok { OnOk result (Hears (Some self.old.asked)
            (map (λ f. targeted_of D.bytes f targets.now) fetches.now) (Some self.new.asked)) }
        ensures err { OnErr result (Hears (Some self.old.asked) [] (Some self.new.asked)) }
        ensures values { self.new.values ≡ self.old.values }
    {
        self.asked.fetch_all_targeted(fetches, targets)
    }
}
