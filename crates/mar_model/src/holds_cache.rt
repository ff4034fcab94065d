//! The cache of a life, as far as the rules of a node see it.
ghost use Rattle.std.specs.Prelude.{◌≡◌, ◌&&◌, ◌<◌, ◌-◌, ◌^◌, IfErr, IfOk, List, OnErr, OnOk, option_and_then, option_map, true};
ghost use Rattle.std.specs.List.{list_any};
ghost use Rattle.mar_store.specs.Sizes.{IsSmall};
ghost use Rattle.mar_model.specs.AllEntries.{LoadsEntries, soonest};
ghost use Rattle.mar_model.specs.CacheCalls.{none_goes};
ghost use Rattle.mar_model.specs.Cached.{Cached, cached_block, notarized_entry, verified_entry};
ghost use Rattle.mar_model.specs.Entries.{has_digest, is_sought, is_verified_at, sought_block};
ghost use Rattle.mar_model.specs.Queries.{cached_at};
ghost use Rattle.mar_model.specs.Held.{GoesOn, Held, IsReadFault, IsUsual, nothing_written, written_entry, written_prune};
ghost use Rattle.mar_model.specs.Lives.{ArePicked};
ghost use Rattle.mar_model.specs.Moves.{CachesEntry, FinishesCacheSync, PrunesCache, StartsCacheSync, with_cache_sync};
ghost use Rattle.mar_model.specs.OpenSyncs.{AreStillOpen, syncs_by};
ghost use Rattle.mar_model.specs.Staged.{Staged};
ghost use Rattle.mar_model.specs.Views.{fault_of};
ghost use Rattle.mar_model.specs.declared.started.CacheTicket.{CacheTicket as CacheTicketOf};

use crate::entry::BlockName;
use crate::fault::Fault;
use crate::open_tickets::OpenTickets;
use crate::section::Section;
use crate::started::{CacheTicket, Started};
use mar_cert::Variant;
use mar_types::{Epoch, Round};
use std::alloc::AllocError;

/// The cache among the stores of a life. Each call makes one call of the cache.
pub trait HoldsCache<V: Variant> {
    /// What they hold and may leave, and what each tells of its failures.
    ghost held: { Self → Held };

    /// The blocks that are staged until they are handed over.
    ghost staged: { Self → Staged V.Block };

    /// What the sync of a ticket of the cache makes sure.
    ghost covers: { Self → CacheTicketOf → List Cached };

    /// Takes up what a crash left of the cache. Before that nothing of it is found.
    fn load_cache(&mut self) -> Result<(), Fault<V::Commitment>>
        ensures staged { staged self.new ≡ staged self.old }
        ensures loaded { OnOk result ((held self.new).cache.loaded ≡ true) }
        ensures loads { (held self.old).cache.fresh ≡ true → OnOk result (LoadsEntries (held self.old).cache.kept (held self.new).cache.kept) }
        ensures by_luck { (held self.old).cache.fresh ≡ true → OnOk result (ArePicked (held self.old).cache.finds (held self.new).cache.kept.held) }
        ensures still_open { OnOk result (AreStillOpen none_goes (held self.old).cache.syncs (held self.new).cache.syncs) }
        ensures same { OnOk result (held self.new ≡ record (held self.old) { cache = (held self.new).cache; watches = (held self.new).watches }) }
        ensures goes_on { GoesOn (fault_of V.Commitment.bytes) (held self.old) nothing_written (held self.new) result }
        ensures usual { IfErr result (λ e. IsUsual (fault_of V.Commitment.bytes e)) };

    /// Keeps a block that was verified in a round, and starts a sync of the verified blocks of its epoch. Nothing is kept of an
    /// epoch below the lowest, and there is nothing to wait for then.
    fn put_verified(
        &mut self,
        round: Round,
        block: V::Block,
    ) -> Result<Started, Fault<V::Commitment>>
        requires small { IsSmall (V.plain block).encoded }
        ensures staged { staged self.new ≡ staged self.old }
        ensures caches { IfOk result (λ s. CachesEntry (verified_entry round (V.plain block)) s (held self.old) (held self.new)
            (covers self.old) (covers self.new)) }
        ensures goes_on { GoesOn (fault_of V.Commitment.bytes) (held self.old) (written_entry (verified_entry round (V.plain block))) (held self.new) result }
        ensures usual { IfErr result (λ e. IsUsual (fault_of V.Commitment.bytes e)) };

    /// Keeps a block that was notarized in a round, and starts a sync of the notarized blocks of its epoch. Nothing is kept of
    /// an epoch below the lowest, and there is nothing to wait for then.
    fn put_notarized(
        &mut self,
        round: Round,
        block: V::Block,
    ) -> Result<Started, Fault<V::Commitment>>
        requires small { IsSmall (V.plain block).encoded }
        ensures staged { staged self.new ≡ staged self.old }
        ensures caches { IfOk result (λ s. CachesEntry (notarized_entry round (V.plain block)) s (held self.old) (held self.new)
            (covers self.old) (covers self.new)) }
        ensures goes_on { GoesOn (fault_of V.Commitment.bytes) (held self.old) (written_entry (notarized_entry round (V.plain block))) (held self.new) result }
        ensures usual { IfErr result (λ e. IsUsual (fault_of V.Commitment.bytes e)) };

    /// Starts a sync of an archive of an epoch. Where the cache has nothing there, there is nothing to wait for.
    fn start_cache_sync(
        &mut self,
        epoch: Epoch,
        section: Section,
    ) -> Result<Started, Fault<V::Commitment>>
        ensures staged { staged self.new ≡ staged self.old }
        ensures starts { IfOk result (λ s. StartsCacheSync epoch section s (held self.old) (held self.new) (covers self.old) (covers self.new)) }
        ensures goes_on { GoesOn (fault_of V.Commitment.bytes) (held self.old) nothing_written (held self.new) result }
        ensures usual { IfErr result (λ e. IsUsual (fault_of V.Commitment.bytes e)) };

    /// Starts a sync of the verified blocks of an epoch.
    final fn start_sync_verified(&mut self, epoch: Epoch) -> Result<Started, Fault<V::Commitment>>
        ensures staged { staged self.new ≡ staged self.old }
        ensures starts { IfOk result (λ s. StartsCacheSync epoch Section.Verified s (held self.old) (held self.new) (covers self.old) (covers self.new)) }
        ensures goes_on { GoesOn (fault_of V.Commitment.bytes) (held self.old) nothing_written (held self.new) result }
        ensures usual { IfErr result (λ e. IsUsual (fault_of V.Commitment.bytes e)) }
    {
        self.start_cache_sync(epoch, Section::Verified)
    }

    /// Starts a sync of the notarizations of an epoch.
    final fn start_sync_notarizations(
        &mut self,
        epoch: Epoch,
    ) -> Result<Started, Fault<V::Commitment>>
        ensures staged { staged self.new ≡ staged self.old }
        ensures starts { IfOk result (λ s. StartsCacheSync epoch Section.Notarizations s (held self.old) (held self.new) (covers self.old) (covers self.new)) }
        ensures goes_on { GoesOn (fault_of V.Commitment.bytes) (held self.old) nothing_written (held self.new) result }
        ensures usual { IfErr result (λ e. IsUsual (fault_of V.Commitment.bytes e)) }
    {
        self.start_cache_sync(epoch, Section::Notarizations)
    }

    /// Takes in a sync of the cache that was started, under the next ticket, which is answered. Whom it answers as it has
    /// finished is given. Where memory runs out nothing changes.
    fn open_cache_sync(&mut self, sync: CacheTicket, answer: Option<u64>) -> Result<u64, AllocError>
        requires { (held self.old).writes.next_sync < 2 ^ 64 - 1 }
        ensures staged { staged self.new ≡ staged self.old }
        ensures ticket { IfOk result (λ t. t ≡ (held self.old).writes.next_sync) }
        ensures opens { OnOk result (held self.new ≡ with_cache_sync (covers self.old sync) answer (held self.old)) }
        ensures err { OnErr result (held self.new ≡ held self.old) };

    /// The open syncs of the cache.
    fn cache_syncs(&self) -> &OpenTickets
        ensures { syncs_by (covers self.now) result.now ≡ (held self.now).cache.syncs };

    /// Finishes the sync of the cache of this ticket: what it covers is sure, and nothing else is held. Where it isn't open,
    /// no store is asked.
    fn finish_cache_sync(&mut self, ticket: u64) -> Result<(), Fault<V::Commitment>>
        ensures staged { staged self.new ≡ staged self.old }
        ensures finishes { OnOk result (FinishesCacheSync ticket (held self.old) (held self.new)) }
        ensures goes_on { GoesOn (fault_of V.Commitment.bytes) (held self.old) nothing_written (held self.new) result }
        ensures usual { IfErr result (λ e. IsUsual (fault_of V.Commitment.bytes e)) };

    /// Prunes the cache below a round: older epochs are destroyed, and what stands in the round's own epoch below its view
    /// goes. That epoch is then the lowest, unless a newer one was. Where it fails, some of that may be gone.
    fn prune_cache(&mut self, round: Round) -> Result<(), Fault<V::Commitment>>
        ensures staged { staged self.new ≡ staged self.old }
        ensures prunes { OnOk result (PrunesCache round (held self.old) (held self.new)) }
        ensures goes_on { GoesOn (fault_of V.Commitment.bytes) (held self.old) (written_prune round) (held self.new) result }
        ensures usual { IfErr result (λ e. IsUsual (fault_of V.Commitment.bytes e)) };

    /// The cached block of a digest or of a commitment: in the newest epoch that has one, there among the verified blocks,
    /// then the notarized and the certified ones, at the lowest view or height.
    fn cached_block(
        &mut self,
        name: BlockName<V::Digest, V::Commitment>,
    ) -> Result<Option<V::Block>, Fault<V::Commitment>>
        ensures staged { staged self.new ≡ staged self.old }
        ensures tickets { covers self.new ≡ covers self.old }
        ensures found { IfOk result (λ r. option_map V.plain r ≡ option_and_then cached_block (soonest (is_sought V.Digest.bytes V.Commitment.bytes V.inner
            (sought_block name)) (held self.old).cache.kept.held)) }
        ensures same { OnOk result (held self.new ≡ record (held self.old) { watches = (held self.new).watches }) }
        ensures goes_on { GoesOn (fault_of V.Commitment.bytes) (held self.old) nothing_written (held self.new) result }
        ensures read { IfErr result (λ e. IsReadFault (fault_of V.Commitment.bytes e)) }
        ensures usual { IfErr result (λ e. IsUsual (fault_of V.Commitment.bytes e)) };

    /// The cached block that was verified in a round, of several the one put first.
    fn cached_verified(&mut self, round: Round) -> Result<Option<V::Block>, Fault<V::Commitment>>
        ensures staged { staged self.new ≡ staged self.old }
        ensures tickets { covers self.new ≡ covers self.old }
        ensures found { IfOk result (λ r. option_map V.plain r ≡ cached_at round (held self.old).cache.kept.held) }
        ensures same { OnOk result (held self.new ≡ record (held self.old) { watches = (held self.new).watches }) }
        ensures goes_on { GoesOn (fault_of V.Commitment.bytes) (held self.old) nothing_written (held self.new) result }
        ensures read { IfErr result (λ e. IsReadFault (fault_of V.Commitment.bytes e)) }
        ensures usual { IfErr result (λ e. IsUsual (fault_of V.Commitment.bytes e)) };

    /// Whether the block of a digest is cached as verified in a round.
    fn has_verified(
        &mut self,
        round: Round,
        digest: V::Digest,
    ) -> Result<bool, Fault<V::Commitment>>
        ensures staged { staged self.new ≡ staged self.old }
        ensures tickets { covers self.new ≡ covers self.old }
        ensures found { IfOk result (λ r. r ≡ list_any (λ x. is_verified_at round x && has_digest (V.Digest.bytes digest) (cached_block x))
            (held self.old).cache.kept.held) }
        ensures same { OnOk result (held self.new ≡ record (held self.old) { watches = (held self.new).watches }) }
        ensures goes_on { GoesOn (fault_of V.Commitment.bytes) (held self.old) nothing_written (held self.new) result }
        ensures read { IfErr result (λ e. IsReadFault (fault_of V.Commitment.bytes e)) }
        ensures usual { IfErr result (λ e. IsUsual (fault_of V.Commitment.bytes e)) };
}
