//! The four stores of a life.
ghost use Rattle.std.specs.Prelude.{◌≡◌, IfErr, IfOk, OnOk, option_and_then, option_map};
ghost use Rattle.mar_model.specs.AllEntries.{soonest};
ghost use Rattle.mar_model.specs.Cached.{cached_block};
ghost use Rattle.mar_model.specs.Entries.{is_sought, sought_block};
ghost use Rattle.mar_model.specs.Held.{GoesOn, IsReadFault, IsUsual, nothing_written};
ghost use Rattle.mar_model.specs.Views.{fault_of};

use crate::in_place::{self, answered};
use crate::item::{BlockItem, CertificateItem};
use crate::opening::{self, Unopened};
use crate::ruins::Ruins;
use crate::{
    Blocks, Certificates, LifeCache, LifeNotarizations, blocks_in_place, cache_syncs,
    certificates_in_place, syncs,
};
use mar_block::Variant;
use mar_cert::CommitsTo;
use mar_key::Cutoff;
use mar_model::{
    BlockName, CacheTicket, Ended, Fault, Holds, HoldsCache, HoldsNotarizations, HoldsProgress,
    OpenTickets, Place, Progress, Section, Staged, Started, State, StoreName, Writes,
};
use mar_store::{Meta, RangeSet};
use mar_types::{Epoch, Height, Round};
use std::alloc::{AllocError, Global};
use std::marker::{Model, PhantomData};

/// The stores of a life: blocks, certificates, how far delivery has come, and the cache; with the writes of the first two
/// that wait for a sync, the syncs of the cache that are open, and the blocks that are staged until they are handed over. A
/// contract sees what each store holds and may leave, how often it has failed, the writes, the cache with its open syncs,
/// and what is staged, each block of which is held. Where a change of a store failed, what is left of it stands in its
/// place, and later calls of it leave that and fail.
#[derive(Drop)]
pub struct Stores<
    V: Variant,
    F: CommitsTo<V::Commitment>,
    FB: Blocks<V>,
    FC: Certificates<V, F>,
    M: Meta,
    H: LifeCache<V, F>,
> {
    pub(crate) blocks: Place<FB, FB::Wreck>,
    pub(crate) certs: Place<FC, FC::Wreck>,
    pub(crate) writes: Writes,
    staged: Staged<V::Block>,
    progress: Progress<M, V::Commitment, F>,
    pub(crate) cache: H,
    syncs: OpenTickets,
    of: PhantomData<(V, F)>,
}

impl<
    V: Variant,
    F: CommitsTo<V::Commitment>,
    FB: Blocks<V>,
    FC: Certificates<V, F>,
    M: Meta,
    H: LifeCache<V, F>,
> Model for Stores<V, F, FB, FC, M, H> {
    ghost use Rattle.mar_model.specs.Pool.{writing_of};
    ghost use Rattle.mar_model.specs.Places.{is_open, kept_at, watch_at};
    ghost use Rattle.mar_life.specs.Caching.{with_syncs};
    ghost use Rattle.mar_life.specs.Pooling.{AreHeldIn, AwaitsIn, OwnNumbers, of_blocks, of_certs};
    ghost use Rattle.mar_life.specs.Views.{Stock};
    ghost use Rattle.std.specs.Prelude.{◌&&◌};

    ghost Value = { Stock V.Block H };

    ghost view = { λ s. record {
      held = record {
        blocks = kept_at FB.stored FB.Wreck.left s.blocks;
        certs = kept_at FC.stored FC.Wreck.left s.certs;
        processed = s.progress.processed;
        cutoff = s.progress.cutoff;
        witnessed = s.progress.witnessed;
        pairs = s.progress.pairs;
        cache = with_syncs (H.held s.cache) (H.covers s.cache) s.syncs;
        lowest = H.lowest s.cache;
        lowests = H.lowests s.cache;
        writes = writing_of s.writes;
        watches = record {
          blocks = watch_at FB.watch FB.Wreck.watch s.blocks;
          certs = watch_at FC.watch FC.Wreck.watch s.certs;
          meta = s.progress.watch;
          cache = H.watch s.cache;
        };
        intact = is_open s.blocks && (is_open s.certs && (H.intact s.cache && s.progress.intact));
      };
      staged = s.staged;
      cache = s.cache;
    } };

    ghost invariant = { λ s. AwaitsIn of_blocks FB.stored FB.number FB.covers s.blocks s.writes
        × AreHeldIn V.plain FB.stored s.blocks s.staged.blocks
        × AwaitsIn of_certs FC.stored FC.number FC.covers s.certs s.writes
        × OwnNumbers (writing_of s.writes) s.syncs };
}

impl<
    V: Variant,
    F: CommitsTo<V::Commitment>,
    FB: Blocks<V>,
    FC: Certificates<V, F>,
    M: Meta,
    H: LifeCache<V, F>,
> HoldsCache<V> for Stores<V, F, FB, FC, M, H> {
    ghost held = { λ s. s.held };

    ghost staged = { λ s. s.staged };

    ghost covers = { λ s. H.covers s.cache };

    fn load_cache(&mut self) -> Result<(), Fault<V::Commitment>> {
        self.cache.load()
    }

    fn put_verified(
        &mut self,
        round: Round,
        block: V::Block,
    ) -> Result<Started, Fault<V::Commitment>> {
        self.cache.put_verified(round, block)
    }

    fn put_notarized(
        &mut self,
        round: Round,
        block: V::Block,
    ) -> Result<Started, Fault<V::Commitment>> {
        self.cache.put_notarized(round, block)
    }

    fn start_cache_sync(
        &mut self,
        epoch: Epoch,
        section: Section,
    ) -> Result<Started, Fault<V::Commitment>> {
        self.cache.start_sync(epoch, section)
    }

    fn open_cache_sync(
        &mut self,
        sync: CacheTicket,
        answer: Option<u64>,
    ) -> Result<u64, AllocError> {
        cache_syncs::open(&mut self.syncs, &mut self.writes, sync, answer)
    }

    fn cache_syncs(&self) -> &OpenTickets {
        &self.syncs
    }

    fn finish_cache_sync(&mut self, ticket: u64) -> Result<(), Fault<V::Commitment>> {
        cache_syncs::finish::<V, F, H>(&mut self.cache, &mut self.syncs, ticket)
    }

    fn prune_cache(&mut self, round: Round) -> Result<(), Fault<V::Commitment>> {
        self.cache.prune(round)
    }

    fn cached_block(
        &mut self,
        name: BlockName<V::Digest, V::Commitment>,
    ) -> Result<Option<V::Block>, Fault<V::Commitment>>
        ensures staged { self.new.staged ≡ self.old.staged }
        ensures tickets { H.covers self.new.cache ≡ H.covers self.old.cache }
        ensures found { IfOk result (λ r. option_map V.plain r ≡ option_and_then cached_block (soonest (is_sought V.Digest.bytes V.Commitment.bytes V.inner
            (sought_block name)) self.old.held.cache.kept.held)) }
        ensures same { OnOk result (self.new.held ≡ record self.old.held { watches = self.new.held.watches }) }
        ensures goes_on { GoesOn (fault_of V.Commitment.bytes) self.old.held nothing_written self.new.held result }
        ensures read { IfErr result (λ e. IsReadFault (fault_of V.Commitment.bytes e)) }
        ensures usual { IfErr result (λ e. IsUsual (fault_of V.Commitment.bytes e)) }
    {
        self.cache.find_block(name)
    }

    fn cached_verified(&mut self, round: Round) -> Result<Option<V::Block>, Fault<V::Commitment>> {
        self.cache.find_verified(round)
    }

    fn has_verified(
        &mut self,
        round: Round,
        digest: V::Digest,
    ) -> Result<bool, Fault<V::Commitment>> {
        self.cache.has_verified(round, digest)
    }
}

impl<
    V: Variant,
    F: CommitsTo<V::Commitment>,
    FB: Blocks<V>,
    FC: Certificates<V, F>,
    M: Meta,
    H: LifeCache<V, F>,
> HoldsProgress<V> for Stores<V, F, FB, FC, M, H> {
    fn witness(&mut self, round: Round) {
        self.progress.witness(round);
    }

    fn without_block(&mut self, height: Height) {
        self.progress.without_block(height);
    }

    fn set_processed(&mut self, height: Height) -> Result<(), Fault<V::Commitment>> {
        answered(self.progress.set_processed(height), StoreName::Meta)
    }

    fn set_cutoff(&mut self, cutoff: &Cutoff) -> Result<(), Fault<V::Commitment>> {
        answered(self.progress.set_cutoff(cutoff), StoreName::Meta)
    }

    fn sync_metadata(&mut self) -> Result<(), Fault<V::Commitment>> {
        answered(self.progress.sync(), StoreName::Meta)
    }
}

impl<
    V: Variant,
    F: CommitsTo<V::Commitment>,
    FB: Blocks<V>,
    FC: Certificates<V, F>,
    M: Meta,
    H: LifeCache<V, F>,
> Holds<V> for Stores<V, F, FB, FC, M, H> {
    type Ruins = Ruins<V, F, FB, FC, M, H>;

    type Finalization = F;

    fn reopen(
        alloc: Global,
        ruins: Ruins<V, F, FB, FC, M, H>,
        luck: u64,
        max_staged: usize,
    ) -> Result<Self, Ended<V, Self>> {
        let Ruins {
            blocks,
            certs,
            meta,
            cache,
        } = ruins;
        let (blocks, certs) = match opening::archives::<
            BlockItem<V>,
            FB,
            CertificateItem<V, F>,
            FC,
            V::Commitment,
        >(blocks, certs, luck)
        {
            Ok(archives) => archives,
            Err(unopened) => {
                let Unopened {
                    fault,
                    first: blocks,
                    second: certs,
                } = unopened;
                return Err(Ended {
                    fault,
                    ruins: Ruins {
                        blocks,
                        certs,
                        meta,
                        cache,
                    },
                });
            }
        };
        match opening::progress::<V, F, M, H>(meta, cache, luck) {
            Ok((progress, cache)) => Ok(Stores {
                blocks: Place::Open(blocks),
                certs: Place::Open(certs),
                writes: Writes::new(alloc),
                staged: Staged::new(alloc, max_staged),
                progress,
                cache,
                syncs: OpenTickets::new(alloc),
                of: PhantomData,
            }),
            Err(unopened) => {
                let Unopened {
                    fault,
                    first: meta,
                    second: cache,
                } = unopened;
                Err(Ended {
                    fault,
                    ruins: Ruins {
                        blocks: blocks.wreck(),
                        certs: certs.wreck(),
                        meta,
                        cache,
                    },
                })
            }
        }
    }

    fn wreck(self) -> Ruins<V, F, FB, FC, M, H> {
        let Stores {
            blocks,
            certs,
            writes: _writes,
            staged: _staged,
            progress,
            cache,
            syncs: _syncs,
            of: _of,
        } = self;
        Ruins {
            blocks: in_place::left::<BlockItem<V>, FB>(blocks),
            certs: in_place::left::<CertificateItem<V, F>, FC>(certs),
            meta: progress.wreck(),
            cache: cache.wreck(),
        }
    }

    fn law(&self) {
        self.writes.law();
    }

    fn arm(&mut self, store: StoreName, calls: u64) -> Result<(), AllocError> {
        match store {
            StoreName::Blocks => in_place::arm::<BlockItem<V>, FB>(&mut self.blocks, calls),
            StoreName::Certs => in_place::arm::<CertificateItem<V, F>, FC>(&mut self.certs, calls),
            StoreName::Meta => self.progress.arm(calls),
            StoreName::Cache => self.cache.arm(calls),
        }
    }

    fn floor(&self) -> &State<V::Commitment, F> {
        self.progress.floor()
    }

    fn last_block(&self) -> Option<Height> {
        in_place::last::<BlockItem<V>, FB>(&self.blocks)
    }

    fn last_certificate(&self) -> Option<Height> {
        in_place::last::<CertificateItem<V, F>, FC>(&self.certs)
    }

    fn blocks_held(&self) -> &RangeSet {
        in_place::held::<BlockItem<V>, FB>(&self.blocks)
    }

    fn blocks_sure(&self) -> &RangeSet {
        in_place::sure::<BlockItem<V>, FB>(&self.blocks)
    }

    fn certificates_held(&self) -> &RangeSet {
        in_place::held::<CertificateItem<V, F>, FC>(&self.certs)
    }

    fn certificates_sure(&self) -> &RangeSet {
        in_place::sure::<CertificateItem<V, F>, FC>(&self.certs)
    }

    fn writes(&self) -> &Writes {
        &self.writes
    }

    fn take_block(&mut self, height: Height) -> Result<Option<V::Block>, Fault<V::Commitment>> {
        blocks_in_place::take::<V, FB>(&mut self.blocks, &mut self.staged, height)
    }

    fn block_at(&mut self, height: Height) -> Result<Option<V::Block>, Fault<V::Commitment>> {
        blocks_in_place::at::<V, FB>(&mut self.blocks, height)
    }

    fn block_of(&mut self, digest: &V::Digest) -> Result<Option<V::Block>, Fault<V::Commitment>> {
        blocks_in_place::of::<V, FB>(&mut self.blocks, digest)
    }

    fn cache_finalization(&mut self, finalization: &F) -> Result<(), Fault<V::Commitment>> {
        self.cache.put_finalization(finalization)
    }

    fn certificate_at(&mut self, height: Height) -> Result<Option<F>, Fault<V::Commitment>> {
        certificates_in_place::at::<V, F, FC>(&mut self.certs, height)
    }

    fn has_certificate(&mut self, height: Height) -> Result<bool, Fault<V::Commitment>> {
        certificates_in_place::has::<V, F, FC>(&mut self.certs, height)
    }

    fn put_block(&mut self, block: V::Block) -> Result<(), Fault<V::Commitment>> {
        blocks_in_place::put::<V, FB>(&mut self.blocks, &mut self.writes, &mut self.staged, block)
    }

    fn put_certificate(
        &mut self,
        height: Height,
        finalization: &F,
    ) -> Result<(), Fault<V::Commitment>> {
        in_place::put_certificate::<V, F, FC>(&mut self.certs, height, finalization)
    }

    fn store_block(&mut self, block: &V::Block) -> Result<(), Fault<V::Commitment>> {
        blocks_in_place::store::<V, FB>(&mut self.blocks, block)
    }

    fn store_certificate(
        &mut self,
        height: Height,
        finalization: &F,
    ) -> Result<(), Fault<V::Commitment>> {
        certificates_in_place::store::<V, F, FC>(&mut self.certs, height, finalization)
    }

    fn start_sync(&mut self) -> Result<(), Fault<V::Commitment>> {
        syncs::start::<BlockItem<V>, FB, CertificateItem<V, F>, FC, V::Commitment>(
            &mut self.blocks,
            &mut self.certs,
            &mut self.writes,
        )
    }

    fn finish_sync(&mut self, ticket: u64) -> Result<bool, Fault<V::Commitment>> {
        syncs::finish::<BlockItem<V>, FB, CertificateItem<V, F>, FC, V::Commitment>(
            &mut self.blocks,
            &mut self.certs,
            &mut self.writes,
            ticket,
        )
    }
}

impl<
    V: Variant,
    F: CommitsTo<V::Commitment>,
    FB: Blocks<V>,
    FC: Certificates<V, F>,
    M: Meta,
    H: LifeNotarizations<V, F>,
> HoldsNotarizations<V> for Stores<V, F, FB, FC, M, H> {
    type Notarization = H::Notarization;

    fn put_notarization(
        &mut self,
        notarization: H::Notarization,
    ) -> Result<Started, Fault<V::Commitment>> {
        self.cache.put_notarization(notarization)
    }
}
