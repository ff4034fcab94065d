//! The cache of what consensus and peers report before it is final.
ghost use Rattle.std.specs.Prelude.{◌≡◌, ◌∷◌, ◌&&◌, ◌==◌, [], IfErr, IfOk, nat_lt, option_and_then, option_map};
ghost use Rattle.std.specs.List.{list_any};
ghost use Rattle.mar_cert.specs.Finalization.{finalization_bytes};
ghost use Rattle.mar_store.specs.Lost.{wreck_of};
ghost use Rattle.mar_store.specs.Sizes.{IsSmall};
ghost use Rattle.mar_store.specs.Watch.{Heeds, HeedsRead};
ghost use Rattle.mar_model.specs.AllEntries.{soonest};
ghost use Rattle.mar_model.specs.CacheCalls.{GoesOn, LeavesFailedPut, LosesCache, PutsAndStarts, PutsAndSyncs, is_ready, none_goes};
ghost use Rattle.mar_model.specs.Cached.{cached_block, certified_entry, epoch_of, finalization_entry, notarization_entry};
ghost use Rattle.mar_model.specs.Cached.{notarized_entry, verified_entry};
ghost use Rattle.mar_model.specs.SmallEntries.{IsSmallEntry};
ghost use Rattle.mar_model.specs.Entries.{cached_of, has_digest, is_for, is_notarization_at, is_sought, is_verified_at, sought_block};

use crate::cache::Cache;
use crate::entry::{BlockName, Entry, Sought, sought_block};
use crate::started::Started;
use mar_cert::{AsFinalization, CommitsTo, Variant};
use mar_store::{Lost, Miss};
use mar_types::{Epoch, Round};

/// A cache of the blocks of a kind, of their finalizations and of notarizations. A put that is armed to fail is done, but for
/// its sync: the entry is left, where it isn't ignored (`written`).
pub trait Shelf<V: Variant, F: CommitsTo<V::Commitment>>: Cache {
    type Notarization: CommitsTo<V::Commitment>;

    /// Keeps an entry, and starts a sync of its archive. Nothing is done where its epoch is below the lowest.
    fn put_and_start(
        self,
        entry: Entry<V::Block, Self::Notarization, F>,
    ) -> Result<(Self, Started), Lost<Self::Wreck>>
    where
        Self: Sized,
        requires small { IsSmallEntry (cached_of V.plain Self.Notarization.plain F.plain entry) }
        ensures puts { IfOk result (λ r. PutsAndStarts (cached_of V.plain Self.Notarization.plain F.plain entry)
            (Self.lowest self) (Self.loaded self) (Self.kept self) (Self.kept r.0) (Self.covers r.0) r.1) }
        ensures ready { IfOk result (λ r. is_ready r.1 ≡ nat_lt (epoch_of (cached_of V.plain Self.Notarization.plain F.plain entry)) (Self.lowest self)) }
        ensures goes_on { IfOk result (λ r. GoesOn ((cached_of V.plain Self.Notarization.plain F.plain entry) ∷ []) none_goes
            (Self.kept self) (Self.kept r.0) (Self.covers self) (Self.covers r.0)) }
        ensures stays { IfOk result (λ r. (Self.lowest r.0 ≡ Self.lowest self) × (Self.loaded r.0 ≡ Self.loaded self)) }
        ensures lost { IfErr result (λ l. LosesCache ((cached_of V.plain Self.Notarization.plain F.plain entry) ∷ []) none_goes
            (Self.kept self) (Self.lowest self ∷ []) (Self.Wreck.left (wreck_of l)) (Self.Wreck.lowests (wreck_of l))) }
        ensures written { IfErr result (LeavesFailedPut Self.Wreck.left Self.Wreck.short (cached_of V.plain Self.Notarization.plain F.plain entry)
            (Self.lowest self) (Self.loaded self) (Self.watch self) (Self.kept self)) }
        ensures watched { Heeds (λ r. Self.watch r.0) Self.Wreck.watch (Self.watch self) result };

    /// Keeps an entry, and makes it sure. Nothing is done where its epoch is below the lowest.
    fn put_and_sync(
        self,
        entry: Entry<V::Block, Self::Notarization, F>,
    ) -> Result<Self, Lost<Self::Wreck>>
    where
        Self: Sized,
        requires small { IsSmallEntry (cached_of V.plain Self.Notarization.plain F.plain entry) }
        ensures puts { IfOk result (λ r. PutsAndSyncs (cached_of V.plain Self.Notarization.plain F.plain entry)
            (Self.lowest self) (Self.loaded self) (Self.kept self) (Self.kept r)) }
        ensures goes_on { IfOk result (λ r. GoesOn ((cached_of V.plain Self.Notarization.plain F.plain entry) ∷ []) none_goes
            (Self.kept self) (Self.kept r) (Self.covers self) (Self.covers r)) }
        ensures stays { IfOk result (λ r. (Self.lowest r ≡ Self.lowest self) × (Self.loaded r ≡ Self.loaded self)) }
        ensures lost { IfErr result (λ l. LosesCache ((cached_of V.plain Self.Notarization.plain F.plain entry) ∷ []) none_goes
            (Self.kept self) (Self.lowest self ∷ []) (Self.Wreck.left (wreck_of l)) (Self.Wreck.lowests (wreck_of l))) }
        ensures written { IfErr result (LeavesFailedPut Self.Wreck.left Self.Wreck.short (cached_of V.plain Self.Notarization.plain F.plain entry)
            (Self.lowest self) (Self.loaded self) (Self.watch self) (Self.kept self)) }
        ensures watched { Heeds Self.watch Self.Wreck.watch (Self.watch self) result };

    /// Keeps a block that was verified in a round, and starts a sync. Nothing is done where the epoch is below the lowest.
    final fn put_verified(
        self,
        round: Round,
        block: V::Block,
    ) -> Result<(Self, Started), Lost<Self::Wreck>>
    where
        Self: Sized,
        requires small { IsSmall (V.plain block).encoded }
        ensures puts { IfOk result (λ r. PutsAndStarts (verified_entry round (V.plain block))
            (Self.lowest self) (Self.loaded self) (Self.kept self) (Self.kept r.0) (Self.covers r.0) r.1) }
        ensures ready { IfOk result (λ r. is_ready r.1 ≡ nat_lt (epoch_of (verified_entry round (V.plain block))) (Self.lowest self)) }
        ensures goes_on { IfOk result (λ r. GoesOn ((verified_entry round (V.plain block)) ∷ []) none_goes
            (Self.kept self) (Self.kept r.0) (Self.covers self) (Self.covers r.0)) }
        ensures stays { IfOk result (λ r. (Self.lowest r.0 ≡ Self.lowest self) × (Self.loaded r.0 ≡ Self.loaded self)) }
        ensures lost { IfErr result (λ l. LosesCache ((verified_entry round (V.plain block)) ∷ []) none_goes
            (Self.kept self) (Self.lowest self ∷ []) (Self.Wreck.left (wreck_of l)) (Self.Wreck.lowests (wreck_of l))) }
        ensures written { IfErr result (LeavesFailedPut Self.Wreck.left Self.Wreck.short (verified_entry round (V.plain block))
            (Self.lowest self) (Self.loaded self) (Self.watch self) (Self.kept self)) }
        ensures watched { Heeds (λ r. Self.watch r.0) Self.Wreck.watch (Self.watch self) result }
    {
        self.put_and_start(Entry::Verified(round, block))
    }

    /// Keeps a block that was notarized in a round, and starts a sync. Nothing is done where the epoch is below the lowest.
    final fn put_notarized(
        self,
        round: Round,
        block: V::Block,
    ) -> Result<(Self, Started), Lost<Self::Wreck>>
    where
        Self: Sized,
        requires small { IsSmall (V.plain block).encoded }
        ensures puts { IfOk result (λ r. PutsAndStarts (notarized_entry round (V.plain block))
            (Self.lowest self) (Self.loaded self) (Self.kept self) (Self.kept r.0) (Self.covers r.0) r.1) }
        ensures ready { IfOk result (λ r. is_ready r.1 ≡ nat_lt (epoch_of (notarized_entry round (V.plain block))) (Self.lowest self)) }
        ensures goes_on { IfOk result (λ r. GoesOn ((notarized_entry round (V.plain block)) ∷ []) none_goes
            (Self.kept self) (Self.kept r.0) (Self.covers self) (Self.covers r.0)) }
        ensures stays { IfOk result (λ r. (Self.lowest r.0 ≡ Self.lowest self) × (Self.loaded r.0 ≡ Self.loaded self)) }
        ensures lost { IfErr result (λ l. LosesCache ((notarized_entry round (V.plain block)) ∷ []) none_goes
            (Self.kept self) (Self.lowest self ∷ []) (Self.Wreck.left (wreck_of l)) (Self.Wreck.lowests (wreck_of l))) }
        ensures written { IfErr result (LeavesFailedPut Self.Wreck.left Self.Wreck.short (notarized_entry round (V.plain block))
            (Self.lowest self) (Self.loaded self) (Self.watch self) (Self.kept self)) }
        ensures watched { Heeds (λ r. Self.watch r.0) Self.Wreck.watch (Self.watch self) result }
    {
        self.put_and_start(Entry::Notarized(round, block))
    }

    /// Keeps a notarization, and starts a sync. Nothing is done where the epoch is below the lowest.
    final fn put_notarization(
        self,
        notarization: Self::Notarization,
    ) -> Result<(Self, Started), Lost<Self::Wreck>>
    where
        Self: Sized,
        requires small { IsSmall (finalization_bytes (Self.Notarization.plain notarization)) }
        ensures puts { IfOk result (λ r. PutsAndStarts (notarization_entry (Self.Notarization.plain notarization))
            (Self.lowest self) (Self.loaded self) (Self.kept self) (Self.kept r.0) (Self.covers r.0) r.1) }
        ensures ready { IfOk result (λ r. is_ready r.1 ≡ nat_lt (epoch_of (notarization_entry (Self.Notarization.plain notarization))) (Self.lowest self)) }
        ensures goes_on { IfOk result (λ r. GoesOn ((notarization_entry (Self.Notarization.plain notarization)) ∷ []) none_goes
            (Self.kept self) (Self.kept r.0) (Self.covers self) (Self.covers r.0)) }
        ensures stays { IfOk result (λ r. (Self.lowest r.0 ≡ Self.lowest self) × (Self.loaded r.0 ≡ Self.loaded self)) }
        ensures lost { IfErr result (λ l. LosesCache ((notarization_entry (Self.Notarization.plain notarization)) ∷ []) none_goes
            (Self.kept self) (Self.lowest self ∷ []) (Self.Wreck.left (wreck_of l)) (Self.Wreck.lowests (wreck_of l))) }
        ensures written { IfErr result (LeavesFailedPut Self.Wreck.left Self.Wreck.short (notarization_entry (Self.Notarization.plain notarization))
            (Self.lowest self) (Self.loaded self) (Self.watch self) (Self.kept self)) }
        ensures watched { Heeds (λ r. Self.watch r.0) Self.Wreck.watch (Self.watch self) result }
    {
        self.put_and_start(Entry::Notarization(notarization))
    }

    /// Keeps a certified block of an epoch, and makes it sure. Nothing is done where the epoch is below the lowest.
    final fn put_certified(self, epoch: Epoch, block: V::Block) -> Result<Self, Lost<Self::Wreck>>
    where
        Self: Sized,
        requires small { IsSmall (V.plain block).encoded }
        ensures puts { IfOk result (λ r. PutsAndSyncs (certified_entry epoch (V.plain block))
            (Self.lowest self) (Self.loaded self) (Self.kept self) (Self.kept r)) }
        ensures goes_on { IfOk result (λ r. GoesOn ((certified_entry epoch (V.plain block)) ∷ []) none_goes
            (Self.kept self) (Self.kept r) (Self.covers self) (Self.covers r)) }
        ensures stays { IfOk result (λ r. (Self.lowest r ≡ Self.lowest self) × (Self.loaded r ≡ Self.loaded self)) }
        ensures lost { IfErr result (λ l. LosesCache ((certified_entry epoch (V.plain block)) ∷ []) none_goes
            (Self.kept self) (Self.lowest self ∷ []) (Self.Wreck.left (wreck_of l)) (Self.Wreck.lowests (wreck_of l))) }
        ensures written { IfErr result (LeavesFailedPut Self.Wreck.left Self.Wreck.short (certified_entry epoch (V.plain block))
            (Self.lowest self) (Self.loaded self) (Self.watch self) (Self.kept self)) }
        ensures watched { Heeds Self.watch Self.Wreck.watch (Self.watch self) result }
    {
        self.put_and_sync(Entry::Certified(epoch, block))
    }

    /// Keeps a finalization, and makes it sure. Nothing is done where the epoch is below the lowest.
    final fn put_finalization(self, finalization: F) -> Result<Self, Lost<Self::Wreck>>
    where
        Self: Sized,
        requires small { IsSmall (finalization_bytes (F.plain finalization)) }
        ensures puts { IfOk result (λ r. PutsAndSyncs (finalization_entry (F.plain finalization))
            (Self.lowest self) (Self.loaded self) (Self.kept self) (Self.kept r)) }
        ensures goes_on { IfOk result (λ r. GoesOn ((finalization_entry (F.plain finalization)) ∷ []) none_goes
            (Self.kept self) (Self.kept r) (Self.covers self) (Self.covers r)) }
        ensures stays { IfOk result (λ r. (Self.lowest r ≡ Self.lowest self) × (Self.loaded r ≡ Self.loaded self)) }
        ensures lost { IfErr result (λ l. LosesCache ((finalization_entry (F.plain finalization)) ∷ []) none_goes
            (Self.kept self) (Self.lowest self ∷ []) (Self.Wreck.left (wreck_of l)) (Self.Wreck.lowests (wreck_of l))) }
        ensures written { IfErr result (LeavesFailedPut Self.Wreck.left Self.Wreck.short (finalization_entry (F.plain finalization))
            (Self.lowest self) (Self.loaded self) (Self.watch self) (Self.kept self)) }
        ensures watched { Heeds Self.watch Self.Wreck.watch (Self.watch self) result }
    {
        self.put_and_sync(Entry::Finalization(finalization))
    }

    /// What is looked for in an epoch, where that is open: the verified block of a round, the one of a digest there, the
    /// notarization of a round.
    fn get(
        &mut self,
        epoch: Epoch,
        sought: Sought<V::Digest, V::Commitment>,
    ) -> Result<Option<Entry<V::Block, Self::Notarization, F>>, Miss>
        ensures found { IfOk result (λ o. option_map (cached_of V.plain Self.Notarization.plain F.plain) o
            ≡ soonest (λ y. epoch_of y == epoch && is_sought V.Digest.bytes V.Commitment.bytes V.inner sought y) (Self.kept self.old).held) }
        ensures same { (Self.kept self.new ≡ Self.kept self.old) × (Self.lowest self.new ≡ Self.lowest self.old)
            × (Self.loaded self.new ≡ Self.loaded self.old) × (Self.fresh self.new ≡ Self.fresh self.old)
            × (Self.finds self.new ≡ Self.finds self.old) × (Self.covers self.new ≡ Self.covers self.old) }
        ensures watched { HeedsRead (Self.watch self.old) (Self.watch self.new) result };

    /// What is looked for, in the newest epoch that has it: a finalization of a block, a block by its digest or commitment.
    fn search(
        &mut self,
        sought: Sought<V::Digest, V::Commitment>,
    ) -> Result<Option<Entry<V::Block, Self::Notarization, F>>, Miss>
        ensures found { IfOk result (λ o. option_map (cached_of V.plain Self.Notarization.plain F.plain) o
            ≡ soonest (is_sought V.Digest.bytes V.Commitment.bytes V.inner sought) (Self.kept self.old).held) }
        ensures same { (Self.kept self.new ≡ Self.kept self.old) × (Self.lowest self.new ≡ Self.lowest self.old)
            × (Self.loaded self.new ≡ Self.loaded self.old) × (Self.fresh self.new ≡ Self.fresh self.old)
            × (Self.finds self.new ≡ Self.finds self.old) × (Self.covers self.new ≡ Self.covers self.old) }
        ensures watched { HeedsRead (Self.watch self.old) (Self.watch self.new) result };

    /// The notarization of a round.
    final fn get_notarization(&mut self, round: Round) -> Result<Option<Self::Notarization>, Miss>
        ensures found { IfOk result (λ o. option_map (λ n. notarization_entry (Self.Notarization.plain n)) o
            ≡ soonest (is_notarization_at round) (Self.kept self.old).held) }
        ensures same { (Self.kept self.new ≡ Self.kept self.old) × (Self.lowest self.new ≡ Self.lowest self.old)
            × (Self.loaded self.new ≡ Self.loaded self.old) × (Self.fresh self.new ≡ Self.fresh self.old)
            × (Self.finds self.new ≡ Self.finds self.old) × (Self.covers self.new ≡ Self.covers self.old) }
        ensures watched { HeedsRead (Self.watch self.old) (Self.watch self.new) result }
    {
        match self.get(round.epoch(), Sought::NotarizationAt(round)) {
            Ok(Some(entry)) => Ok(entry.into_notarization()),
            Ok(None) => Ok(None),
            Err(miss) => Err(miss),
        }
    }

    /// Whether the block of a digest was verified in a round.
    final fn has_verified(&mut self, round: Round, digest: V::Digest) -> Result<bool, Miss>
        ensures found { IfOk result (λ b. b ≡ list_any (λ x. is_verified_at round x && has_digest (V.Digest.bytes digest) (cached_block x))
            (Self.kept self.old).held) }
        ensures same { (Self.kept self.new ≡ Self.kept self.old) × (Self.lowest self.new ≡ Self.lowest self.old)
            × (Self.loaded self.new ≡ Self.loaded self.old) × (Self.fresh self.new ≡ Self.fresh self.old)
            × (Self.finds self.new ≡ Self.finds self.old) × (Self.covers self.new ≡ Self.covers self.old) }
        ensures watched { HeedsRead (Self.watch self.old) (Self.watch self.new) result }
    {
        match self.get(round.epoch(), Sought::VerifiedBlock(round, digest)) {
            Ok(found) => Ok(found.is_some()),
            Err(miss) => Err(miss),
        }
    }

    /// The block that was verified in a round, of several the one put first.
    final fn get_verified(&mut self, round: Round) -> Result<Option<V::Block>, Miss>
        ensures found { IfOk result (λ o. option_map V.plain o ≡ option_and_then cached_block (soonest (is_verified_at round) (Self.kept self.old).held)) }
        ensures same { (Self.kept self.new ≡ Self.kept self.old) × (Self.lowest self.new ≡ Self.lowest self.old)
            × (Self.loaded self.new ≡ Self.loaded self.old) × (Self.fresh self.new ≡ Self.fresh self.old)
            × (Self.finds self.new ≡ Self.finds self.old) × (Self.covers self.new ≡ Self.covers self.old) }
        ensures watched { HeedsRead (Self.watch self.old) (Self.watch self.new) result }
    {
        match self.get(round.epoch(), Sought::VerifiedAt(round)) {
            Ok(Some(entry)) => Ok(entry.into_block()),
            Ok(None) => Ok(None),
            Err(miss) => Err(miss),
        }
    }

    /// A finalization of the block of a digest: in the newest epoch that has one, there that of the lowest view.
    final fn get_finalization_for(&mut self, digest: V::Digest) -> Result<Option<F>, Miss>
        ensures found { IfOk result (λ o. option_map (λ f. finalization_entry (F.plain f)) o
            ≡ soonest (is_for V.inner (V.Digest.bytes digest)) (Self.kept self.old).held) }
        ensures same { (Self.kept self.new ≡ Self.kept self.old) × (Self.lowest self.new ≡ Self.lowest self.old)
            × (Self.loaded self.new ≡ Self.loaded self.old) × (Self.fresh self.new ≡ Self.fresh self.old)
            × (Self.finds self.new ≡ Self.finds self.old) × (Self.covers self.new ≡ Self.covers self.old) }
        ensures watched { HeedsRead (Self.watch self.old) (Self.watch self.new) result }
    {
        match self.search(Sought::FinalizationFor(digest)) {
            Ok(Some(entry)) => Ok(entry.into_finalization()),
            Ok(None) => Ok(None),
            Err(miss) => Err(miss),
        }
    }

    /// The block of a digest or of a commitment: in the newest epoch that has one, there among the verified blocks, then
    /// the notarized and the certified ones, at the lowest view or height.
    final fn find_block_matching(
        &mut self,
        name: BlockName<V::Digest, V::Commitment>,
    ) -> Result<Option<V::Block>, Miss>
        ensures found { IfOk result (λ o. option_map V.plain o
            ≡ option_and_then cached_block (soonest (is_sought V.Digest.bytes V.Commitment.bytes V.inner (sought_block name)) (Self.kept self.old).held)) }
        ensures same { (Self.kept self.new ≡ Self.kept self.old) × (Self.lowest self.new ≡ Self.lowest self.old)
            × (Self.loaded self.new ≡ Self.loaded self.old) × (Self.fresh self.new ≡ Self.fresh self.old)
            × (Self.finds self.new ≡ Self.finds self.old) × (Self.covers self.new ≡ Self.covers self.old) }
        ensures watched { HeedsRead (Self.watch self.old) (Self.watch self.new) result }
    {
        match self.search(sought_block(name)) {
            Ok(Some(entry)) => Ok(entry.into_block()),
            Ok(None) => Ok(None),
            Err(miss) => Err(miss),
        }
    }
}
