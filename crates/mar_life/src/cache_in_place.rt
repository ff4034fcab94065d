//! The cache of a life in its place.
ghost use Rattle.std.specs.Prelude.{◌≡◌, IfErr, IfOk, OnOk, option_and_then, option_map, true};
ghost use Rattle.mar_model.specs.AllEntries.{soonest};
ghost use Rattle.mar_model.specs.Cached.{cached_block};
ghost use Rattle.mar_model.specs.Entries.{is_sought, sought_block};
ghost use Rattle.mar_model.specs.Faults.{cache_store};
ghost use Rattle.mar_model.specs.Held.{Passes};
ghost use Rattle.mar_model.specs.Views.{fault_of};
ghost use Rattle.mar_model.specs.Places.{is_open, is_there, watch_at};
ghost use Rattle.mar_model.specs.declared.place.Place.TheVariants.{Open};
ghost use Rattle.mar_life.specs.Pooling.{IsFaultOf};
ghost use Rattle.mar_life.specs.Caching.{covers_at, held_at, joins_at, small_at, lowest_at, lowests_at, nested_at, nothing_at, only_lowest_at};

use crate::in_place::{answered, lose};
use crate::{LifeCache, LifeNotarizations};
use mar_block::Variant;
use mar_cert::{AsFinalization, CommitsTo};
use mar_model::{
    BlockName, CacheTicket, Fault, Place, Section, Shelf, ShelfRuin, Started, StoreName,
};
use mar_store::Lost;
use mar_types::{Epoch, Round};
use std::alloc::AllocError;
use std::marker::PhantomData;

/// A cache in its place, or what is left of it where a change of it failed.
#[derive(Drop)]
pub struct CacheInPlace<V: Variant, F: CommitsTo<V::Commitment>, H: Shelf<V, F>> {
    place: Place<H, H::Wreck>,
    of: PhantomData<(V, F)>,
    ghost there: { is_there place ≡ true },
}

impl<V: Variant, F: CommitsTo<V::Commitment>, H: Shelf<V, F>> CacheInPlace<V, F, H> {
    /// A cache in its place.
    pub fn new(cache: H) -> Self
        ensures { result.place ≡ Open cache }
    {
        CacheInPlace {
            place: Place::Open(cache),
            of: PhantomData,
        }
    }
}

impl<V: Variant, F: CommitsTo<V::Commitment>, H: Shelf<V, F>> LifeCache<V, F>
    for CacheInPlace<V, F, H> {
    type Ruin = H::Wreck;

    ghost held = { λ c. held_at H.kept H.loaded H.fresh H.finds H.Wreck.left c.place };

    ghost covers = { λ c. covers_at H.covers c.place };

    ghost lowest = { λ c. lowest_at H.lowest c.place };

    ghost lowests = { λ c. lowests_at H.lowest H.Wreck.lowests c.place };

    ghost watch = { λ c. watch_at H.watch H.Wreck.watch c.place };

    ghost intact = { λ c. is_open c.place };

    ghost nested = { λ c. nested_at H.kept H.lowest H.loaded H.Wreck.left H.Wreck.lowests H.nested H.Wreck.within c.place };

    ghost small = { λ c. small_at H.kept H.Wreck.left H.small H.Wreck.small c.place };

    ghost lowest_there = { λ c. only_lowest_at H.kept H.lowest H.loaded H.Wreck.left H.Wreck.lowests c.place };

    ghost none_held = { λ c. nothing_at H.kept H.lowest H.loaded H.Wreck.left H.Wreck.lowests c.place };

    ghost joins = { λ c. joins_at H.covers H.joins c.place };

    fn reopen(ruin: H::Wreck, luck: u64) -> Result<Self, Lost<H::Wreck>> {
        match H::reopen(ruin, luck) {
            Ok(cache) => Ok(CacheInPlace {
                place: Place::Open(cache),
                of: PhantomData,
            }),
            Err(lost) => Err(lost),
        }
    }

    fn wreck(self) -> H::Wreck {
        let CacheInPlace { place, of: _of } = self;
        match place {
            Place::Open(cache) => cache.wreck(),
            Place::Lost(ruin) => ruin,
            Place::Away => unreachable!(),
        }
    }

    fn arm(&mut self, calls: u64) -> Result<(), AllocError> {
        match &mut self.place {
            Place::Open(cache) => cache.arm(calls),
            Place::Lost(ruin) => ruin.arm(calls),
            Place::Away => unreachable!(),
        }
    }

    fn load(&mut self) -> Result<(), Fault<V::Commitment>> {
        let Some(cache) = self.place.take() else {
            return Err(Fault::Memory);
        };
        match cache.load_persisted_epochs() {
            Ok(cache) => {
                self.place = Place::Open(cache);
                Ok(())
            }
            Err(lost) => Err(lose(&mut self.place, lost, StoreName::Cache)),
        }
    }

    fn put_finalization(&mut self, finalization: &F) -> Result<(), Fault<V::Commitment>> {
        let Ok(finalization) = finalization.try_clone() else {
            return Err(Fault::Memory);
        };
        let Some(cache) = self.place.take() else {
            return Err(Fault::Memory);
        };
        match cache.put_finalization(finalization) {
            Ok(cache) => {
                self.place = Place::Open(cache);
                Ok(())
            }
            Err(lost) => Err(lose(&mut self.place, lost, StoreName::Cache)),
        }
    }

    fn put_verified(
        &mut self,
        round: Round,
        block: V::Block,
    ) -> Result<Started, Fault<V::Commitment>> {
        let Some(cache) = self.place.take() else {
            return Err(Fault::Memory);
        };
        match cache.put_verified(round, block) {
            Ok((cache, started)) => {
                self.place = Place::Open(cache);
                Ok(started)
            }
            Err(lost) => Err(lose(&mut self.place, lost, StoreName::Cache)),
        }
    }

    fn put_notarized(
        &mut self,
        round: Round,
        block: V::Block,
    ) -> Result<Started, Fault<V::Commitment>> {
        let Some(cache) = self.place.take() else {
            return Err(Fault::Memory);
        };
        match cache.put_notarized(round, block) {
            Ok((cache, started)) => {
                self.place = Place::Open(cache);
                Ok(started)
            }
            Err(lost) => Err(lose(&mut self.place, lost, StoreName::Cache)),
        }
    }

    fn start_sync(
        &mut self,
        epoch: Epoch,
        section: Section,
    ) -> Result<Started, Fault<V::Commitment>> {
        let Some(cache) = self.place.take() else {
            return Err(Fault::Memory);
        };
        match cache.start_sync(epoch, section) {
            Ok((cache, started)) => {
                self.place = Place::Open(cache);
                Ok(started)
            }
            Err(lost) => Err(lose(&mut self.place, lost, StoreName::Cache)),
        }
    }

    fn finish_sync(&mut self, ticket: CacheTicket) -> Result<(), Fault<V::Commitment>> {
        let Some(cache) = self.place.take() else {
            return Err(Fault::Memory);
        };
        match cache.finish(ticket) {
            Ok(cache) => {
                self.place = Place::Open(cache);
                Ok(())
            }
            Err(lost) => Err(lose(&mut self.place, lost, StoreName::Cache)),
        }
    }

    fn prune(&mut self, round: Round) -> Result<(), Fault<V::Commitment>> {
        let Some(cache) = self.place.take() else {
            return Err(Fault::Memory);
        };
        match cache.prune_by_view(round) {
            Ok(cache) => {
                self.place = Place::Open(cache);
                Ok(())
            }
            Err(lost) => Err(lose(&mut self.place, lost, StoreName::Cache)),
        }
    }

    fn find_block(
        &mut self,
        name: BlockName<V::Digest, V::Commitment>,
    ) -> Result<Option<V::Block>, Fault<V::Commitment>>
        ensures found { IfOk result (λ o. option_map V.plain o
            ≡ option_and_then cached_block (soonest (is_sought V.Digest.bytes V.Commitment.bytes V.inner (sought_block name))
            (held_at H.kept H.loaded H.fresh H.finds H.Wreck.left self.old.place).kept.held)) }
        ensures tickets { covers_at H.covers self.new.place ≡ covers_at H.covers self.old.place }
        ensures same { (held_at H.kept H.loaded H.fresh H.finds H.Wreck.left self.new.place
            ≡ held_at H.kept H.loaded H.fresh H.finds H.Wreck.left self.old.place)
            × (lowest_at H.lowest self.new.place ≡ lowest_at H.lowest self.old.place)
            × (lowests_at H.lowest H.Wreck.lowests self.new.place ≡ lowests_at H.lowest H.Wreck.lowests self.old.place)
            × (is_open self.new.place ≡ is_open self.old.place) }
        ensures passed { OnOk result (Passes (watch_at H.watch H.Wreck.watch self.old.place) (watch_at H.watch H.Wreck.watch self.new.place)) }
        ensures failed { IfErr result (λ e. IsFaultOf cache_store (watch_at H.watch H.Wreck.watch self.old.place) (fault_of V.Commitment.bytes e)
            (watch_at H.watch H.Wreck.watch self.new.place)) }
    {
        let Place::Open(cache) = &mut self.place else {
            return Err(Fault::Memory);
        };
        answered(cache.find_block_matching(name), StoreName::Cache)
    }

    fn find_verified(&mut self, round: Round) -> Result<Option<V::Block>, Fault<V::Commitment>> {
        let Place::Open(cache) = &mut self.place else {
            return Err(Fault::Memory);
        };
        answered(cache.get_verified(round), StoreName::Cache)
    }

    fn has_verified(
        &mut self,
        round: Round,
        digest: V::Digest,
    ) -> Result<bool, Fault<V::Commitment>> {
        let Place::Open(cache) = &mut self.place else {
            return Err(Fault::Memory);
        };
        answered(cache.has_verified(round, digest), StoreName::Cache)
    }

    fn find_finalization(&mut self, digest: V::Digest) -> Result<Option<F>, Fault<V::Commitment>> {
        let Place::Open(cache) = &mut self.place else {
            return Err(Fault::Memory);
        };
        answered(cache.get_finalization_for(digest), StoreName::Cache)
    }
}

impl<V: Variant, F: CommitsTo<V::Commitment>, H: Shelf<V, F>> LifeNotarizations<V, F>
    for CacheInPlace<V, F, H> {
    type Notarization = H::Notarization;

    fn put_notarization(
        &mut self,
        notarization: H::Notarization,
    ) -> Result<Started, Fault<V::Commitment>> {
        let Some(cache) = self.place.take() else {
            return Err(Fault::Memory);
        };
        match cache.put_notarization(notarization) {
            Ok((cache, sync)) => {
                self.place = Place::Open(cache);
                Ok(sync)
            }
            Err(lost) => Err(lose(&mut self.place, lost, StoreName::Cache)),
        }
    }
}
