//! The cache of a life, as its stores see it.
ghost use Rattle.std.specs.Prelude.{◌≡◌, ◌&&◌, ◌++◌, ◌∷◌, ℕ, [], Bool, Contains, IfErr, IfOk, IfSome, List, OnErr, OnOk, Option, false, option_and_then};
ghost use Rattle.std.specs.Prelude.{option_map, true};
ghost use Rattle.std.specs.List.{list_any};
ghost use Rattle.mar_cert.specs.Finalization.{finalization_bytes};
ghost use Rattle.mar_store.specs.Changes.{left_of};
ghost use Rattle.mar_store.specs.Luck.{keeps_by};
ghost use Rattle.mar_store.specs.Lost.{wreck_of};
ghost use Rattle.mar_store.specs.Sizes.{IsSmall};
ghost use Rattle.mar_store.specs.Watch.{Heeds, Watch, armed};
ghost use Rattle.mar_model.specs.AllEntries.{LeavesEntries, LoadsEntries, soonest};
ghost use Rattle.mar_model.specs.CacheCalls.{IsNestedCache, JoinsTickets, KeepsTickets, ReopensCache, UnopensCache, none_goes};
ghost use Rattle.mar_model.specs.Cache.{is_below};
ghost use Rattle.mar_model.specs.Cached.{Cached, cached_block, finalization_entry, notarization_entry, notarized_entry, verified_entry};
ghost use Rattle.mar_model.specs.Entries.{has_digest, is_for, is_sought, is_verified_at, sought_block};
ghost use Rattle.mar_model.specs.Faults.{cache_store};
ghost use Rattle.mar_model.specs.Held.{Passes};
ghost use Rattle.mar_model.specs.LuckyEntries.{lucky_entries};
ghost use Rattle.mar_model.specs.SmallEntries.{AreSmallEntries};
ghost use Rattle.mar_model.specs.Views.{fault_of};
ghost use Rattle.mar_model.specs.declared.CacheTicket.{CacheTicket as CacheTicketOf};
ghost use Rattle.mar_life.specs.Caching.{FailsCache, FinishesInLife, LifeEntries, PrunesInLife, PutsInLife, StartsInLife, SyncsInLife};
ghost use Rattle.mar_life.specs.Pooling.{IsFaultOf};

use mar_block::Variant;
use mar_cert::{AsFinalization, CommitsTo};
use mar_model::{BlockName, CacheTicket, Fault, Section, ShelfRuin, Started};
use mar_store::Lost;
use mar_types::{Epoch, Round};
use std::alloc::AllocError;

/// The cache of a life, or what is left of it where a change of it failed: later calls leave that and answer want of memory.
/// Each makes one counted call of the cache, but for `wreck` and `arm`. What a crash left is taken up by `load`.
pub trait LifeCache<V: Variant, F: CommitsTo<V::Commitment>>: Drop {
    /// What is left of it where no life runs.
    type Ruin: ShelfRuin;

    /// Its entries, whether they were taken up, and what a start makes of them.
    ghost held: { Self → LifeEntries };

    /// What a ticket makes sure.
    ghost covers: { Self → CacheTicketOf → List Cached };

    /// The lowest epoch of which something is kept.
    ghost lowest: { Self → ℕ };

    /// Those that a crash can leave.
    ghost lowests: { Self → List ℕ };

    /// What it tells of its failures.
    ghost watch: { Self → Watch };

    /// No change of it has failed.
    ghost intact: { Self → Bool };

    /// Takes up what a crash left, but for its entries: none is held before they are loaded. Luck picks among what may be
    /// left, now and where they are loaded.
    fn reopen(ruin: Self::Ruin, luck: u64) -> Result<Self, Lost<Self::Ruin>>
    where
        Self: Sized,
        ensures done { IfOk result (λ c. ReopensCache (Self.Ruin.left ruin) (held c).kept) }
        ensures lowest { IfOk result (λ c. Contains (Self.Ruin.lowests ruin) (lowest c)) }
        ensures fresh { IfOk result (λ c. ((held c).fresh ≡ true) × ((held c).loaded ≡ false)) }
        ensures picked { IfOk result (λ c. (held c).finds
            ≡ option_map (λ keeps. lucky_entries (keeps_by keeps luck) (Self.Ruin.left ruin)) (Self.Ruin.watch ruin).keeps) }
        ensures intact { IfOk result (λ c. intact c ≡ true) }
        ensures lost { IfErr result (λ l. UnopensCache (Self.Ruin.left ruin) (Self.Ruin.lowests ruin)
            (Self.Ruin.left (wreck_of l)) (Self.Ruin.lowests (wreck_of l))) }
        ensures watched { Heeds watch Self.Ruin.watch (Self.Ruin.watch ruin) result };

    /// What a crash now leaves.
    fn wreck(self) -> Self::Ruin
    where
        Self: Sized,
        ensures left { Self.Ruin.left result ≡ left_of (held self).kept }
        ensures lowests { Self.Ruin.lowests result ≡ lowests self }
        ensures watch { Self.Ruin.watch result ≡ watch self };

    /// Makes the counted call fail that is so many calls away, 1 being the next.
    fn arm(&mut self, calls: u64) -> Result<(), AllocError>
        ensures armed { OnOk result (watch self.new ≡ armed calls (watch self.old)) }
        ensures unarmed { OnErr result (watch self.new ≡ watch self.old) }
        ensures tickets { covers self.new ≡ covers self.old }
        ensures same { (held self.new ≡ held self.old) × (lowest self.new ≡ lowest self.old) × (lowests self.new ≡ lowests self.old)
            × (intact self.new ≡ intact self.old) };

    /// Takes up the entries that a crash left.
    fn load(&mut self) -> Result<(), Fault<V::Commitment>>
        ensures done { (held self.old).fresh ≡ true → OnOk result (LoadsEntries (held self.old).kept (held self.new).kept) }
        ensures found { (held self.old).fresh ≡ true → OnOk result (IfSome (held self.old).finds (λ found. (held self.new).kept.held ≡ found)) }
        ensures leaves { OnOk result (LeavesEntries [] none_goes (held self.old).kept (held self.new).kept.sure (held self.new).kept.may) }
        ensures tickets { OnOk result (KeepsTickets none_goes (covers self.old) (covers self.new)) }
        ensures stays { OnOk result ((lowest self.new ≡ lowest self.old) × (lowests self.new ≡ lowests self.old) × ((held self.new).loaded ≡ true)
            × (intact self.new ≡ intact self.old)) }
        ensures passed { OnOk result (Passes (watch self.old) (watch self.new)) }
        ensures left { OnErr result (intact self.new ≡ false) }
        ensures failed { IfErr result (λ e. FailsCache [] none_goes (held self.old).kept (lowests self.old) (watch self.old)
            (held self.new).kept (lowests self.new) (watch self.new) (fault_of V.Commitment.bytes e)) };

    /// Keeps a finalization and makes it sure. Nothing is kept of an epoch below the lowest.
    fn put_finalization(&mut self, finalization: &F) -> Result<(), Fault<V::Commitment>>
        requires small { IsSmall (finalization_bytes (F.plain finalization.now)) }
        ensures done { OnOk result (PutsInLife (finalization_entry (F.plain finalization.now)) (held self.old) (held self.new) (lowest self.old)) }
        ensures tickets { OnOk result (KeepsTickets none_goes (covers self.old) (covers self.new)) }
        ensures stays { OnOk result ((lowest self.new ≡ lowest self.old) × (lowests self.new ≡ lowests self.old) × (intact self.new ≡ intact self.old)) }
        ensures passed { OnOk result (Passes (watch self.old) (watch self.new)) }
        ensures failed { IfErr result (λ e. FailsCache (finalization_entry (F.plain finalization.now) ∷ []) none_goes (held self.old).kept
            (lowests self.old) (watch self.old) (held self.new).kept (lowests self.new) (watch self.new) (fault_of V.Commitment.bytes e)) };

    /// Keeps a block that was verified in a round, and starts a sync of its archive. Nothing is kept of an epoch below the lowest.
    fn put_verified(
        &mut self,
        round: Round,
        block: V::Block,
    ) -> Result<Started, Fault<V::Commitment>>
        requires small { IsSmall (V.plain block).encoded }
        ensures done { IfOk result (λ s. StartsInLife (verified_entry round (V.plain block)) (held self.old) (held self.new) (lowest self.old)
            (covers self.old) (covers self.new) s) }
        ensures stays { OnOk result ((lowest self.new ≡ lowest self.old) × (lowests self.new ≡ lowests self.old) × (intact self.new ≡ intact self.old)) }
        ensures passed { OnOk result (Passes (watch self.old) (watch self.new)) }
        ensures failed { IfErr result (λ e. FailsCache (verified_entry round (V.plain block) ∷ []) none_goes (held self.old).kept
            (lowests self.old) (watch self.old) (held self.new).kept (lowests self.new) (watch self.new) (fault_of V.Commitment.bytes e)) };

    /// Keeps a block that was notarized in a round, and starts a sync of its archive. Nothing is kept of an epoch below the lowest.
    fn put_notarized(
        &mut self,
        round: Round,
        block: V::Block,
    ) -> Result<Started, Fault<V::Commitment>>
        requires small { IsSmall (V.plain block).encoded }
        ensures done { IfOk result (λ s. StartsInLife (notarized_entry round (V.plain block)) (held self.old) (held self.new) (lowest self.old)
            (covers self.old) (covers self.new) s) }
        ensures stays { OnOk result ((lowest self.new ≡ lowest self.old) × (lowests self.new ≡ lowests self.old) × (intact self.new ≡ intact self.old)) }
        ensures passed { OnOk result (Passes (watch self.old) (watch self.new)) }
        ensures failed { IfErr result (λ e. FailsCache (notarized_entry round (V.plain block) ∷ []) none_goes (held self.old).kept
            (lowests self.old) (watch self.old) (held self.new).kept (lowests self.new) (watch self.new) (fault_of V.Commitment.bytes e)) };

    /// Starts a sync of an archive of an epoch, where that is open.
    fn start_sync(
        &mut self,
        epoch: Epoch,
        section: Section,
    ) -> Result<Started, Fault<V::Commitment>>
        ensures done { IfOk result (λ s. SyncsInLife epoch section (held self.old) (held self.new) (covers self.old) (covers self.new) s) }
        ensures stays { OnOk result ((lowest self.new ≡ lowest self.old) × (lowests self.new ≡ lowests self.old) × (intact self.new ≡ intact self.old)) }
        ensures passed { OnOk result (Passes (watch self.old) (watch self.new)) }
        ensures failed { IfErr result (λ e. FailsCache [] none_goes (held self.old).kept (lowests self.old) (watch self.old)
            (held self.new).kept (lowests self.new) (watch self.new) (fault_of V.Commitment.bytes e)) };

    /// Makes sure what a ticket covers. A ticket of an earlier life is none.
    fn finish_sync(&mut self, ticket: CacheTicket) -> Result<(), Fault<V::Commitment>>
        ensures done { OnOk result (FinishesInLife (covers self.old ticket) (held self.old) (held self.new) (covers self.old) (covers self.new)) }
        ensures stays { OnOk result ((lowest self.new ≡ lowest self.old) × (lowests self.new ≡ lowests self.old) × (intact self.new ≡ intact self.old)) }
        ensures passed { OnOk result (Passes (watch self.old) (watch self.new)) }
        ensures failed { IfErr result (λ e. FailsCache [] none_goes (held self.old).kept (lowests self.old) (watch self.old)
            (held self.new).kept (lowests self.new) (watch self.new) (fault_of V.Commitment.bytes e)) };

    /// Prunes what is below a round: older epochs, and in the round's own what stands there below its view.
    fn prune(&mut self, round: Round) -> Result<(), Fault<V::Commitment>>
        ensures done { OnOk result (PrunesInLife round (held self.old) (held self.new) (lowest self.old) (lowest self.new) (lowests self.old)
            (lowests self.new)) }
        ensures tickets { OnOk result (KeepsTickets (is_below round) (covers self.old) (covers self.new)) }
        ensures stays { OnOk result (intact self.new ≡ intact self.old) }
        ensures passed { OnOk result (Passes (watch self.old) (watch self.new)) }
        ensures failed { IfErr result (λ e. FailsCache [] (is_below round) (held self.old).kept (lowests self.old ++ round.epoch ∷ [])
            (watch self.old) (held self.new).kept (lowests self.new) (watch self.new) (fault_of V.Commitment.bytes e)) };

    /// The block of a digest or of a commitment: in the newest epoch that has one, there among the verified blocks, then
    /// the notarized and the certified ones, at the lowest view or height.
    fn find_block(
        &mut self,
        name: BlockName<V::Digest, V::Commitment>,
    ) -> Result<Option<V::Block>, Fault<V::Commitment>>
        ensures found { IfOk result (λ o. option_map V.plain o
            ≡ option_and_then cached_block (soonest (is_sought V.Digest.bytes V.Commitment.bytes V.inner (sought_block name)) (held self.old).kept.held)) }
        ensures tickets { covers self.new ≡ covers self.old }
        ensures same { (held self.new ≡ held self.old) × (lowest self.new ≡ lowest self.old) × (lowests self.new ≡ lowests self.old)
            × (intact self.new ≡ intact self.old) }
        ensures passed { OnOk result (Passes (watch self.old) (watch self.new)) }
        ensures failed { IfErr result (λ e. IsFaultOf cache_store (watch self.old) (fault_of V.Commitment.bytes e) (watch self.new)) };

    /// The block that was verified in a round, of several the one put first.
    fn find_verified(&mut self, round: Round) -> Result<Option<V::Block>, Fault<V::Commitment>>
        ensures found { IfOk result (λ o. option_map V.plain o
            ≡ option_and_then cached_block (soonest (is_verified_at round) (held self.old).kept.held)) }
        ensures tickets { covers self.new ≡ covers self.old }
        ensures same { (held self.new ≡ held self.old) × (lowest self.new ≡ lowest self.old) × (lowests self.new ≡ lowests self.old)
            × (intact self.new ≡ intact self.old) }
        ensures passed { OnOk result (Passes (watch self.old) (watch self.new)) }
        ensures failed { IfErr result (λ e. IsFaultOf cache_store (watch self.old) (fault_of V.Commitment.bytes e) (watch self.new)) };

    /// Whether the block of a digest was verified in a round.
    fn has_verified(
        &mut self,
        round: Round,
        digest: V::Digest,
    ) -> Result<bool, Fault<V::Commitment>>
        ensures found { IfOk result (λ b. b ≡ list_any (λ x. is_verified_at round x && has_digest (V.Digest.bytes digest) (cached_block x))
            (held self.old).kept.held) }
        ensures tickets { covers self.new ≡ covers self.old }
        ensures same { (held self.new ≡ held self.old) × (lowest self.new ≡ lowest self.old) × (lowests self.new ≡ lowests self.old)
            × (intact self.new ≡ intact self.old) }
        ensures passed { OnOk result (Passes (watch self.old) (watch self.new)) }
        ensures failed { IfErr result (λ e. IsFaultOf cache_store (watch self.old) (fault_of V.Commitment.bytes e) (watch self.new)) };

    /// A finalization of the block of a digest: in the newest epoch that has one, there that of the lowest view.
    fn find_finalization(&mut self, digest: V::Digest) -> Result<Option<F>, Fault<V::Commitment>>
        ensures found { IfOk result (λ o. option_map (λ f. finalization_entry (F.plain f)) o
            ≡ soonest (is_for V.inner (V.Digest.bytes digest)) (held self.old).kept.held) }
        ensures tickets { covers self.new ≡ covers self.old }
        ensures same { (held self.new ≡ held self.old) × (lowest self.new ≡ lowest self.old) × (lowests self.new ≡ lowests self.old)
            × (intact self.new ≡ intact self.old) }
        ensures passed { OnOk result (Passes (watch self.old) (watch self.new)) }
        ensures failed { IfErr result (λ e. IsFaultOf cache_store (watch self.old) (fault_of V.Commitment.bytes e) (watch self.new)) };

    ghost nested: { (s : Self) → IsNestedCache (held s).kept (lowest s) (held s).loaded };

    ghost small: { (s : Self) → AreSmallEntries (held s).kept.may };

    ghost lowest_there: { (s : Self) → intact s ≡ true → lowests s ≡ lowest s ∷ [] };

    ghost none_held: { (s : Self) → intact s ≡ false → ((held s).kept.held ≡ []) × ((held s).loaded ≡ false) };

    ghost joins: { (s : Self) → JoinsTickets (covers s) };
}

/// The cache of a life that keeps notarizations of this type. `Stores` names it only where it puts one.
pub trait LifeNotarizations<V: Variant, F: CommitsTo<V::Commitment>>: LifeCache<V, F> {
    /// A notarization as it is cached.
    type Notarization: CommitsTo<V::Commitment>;

    /// Keeps a notarization, and starts a sync of its archive. Nothing is kept of an epoch below the lowest.
    fn put_notarization(
        &mut self,
        notarization: Self::Notarization,
    ) -> Result<Started, Fault<V::Commitment>>
        requires small { IsSmall (finalization_bytes (Self.Notarization.plain notarization)) }
        ensures done { IfOk result (λ s. StartsInLife (notarization_entry (Self.Notarization.plain notarization)) (Self.held self.old)
            (Self.held self.new) (Self.lowest self.old) (Self.covers self.old) (Self.covers self.new) s) }
        ensures stays { OnOk result ((Self.lowest self.new ≡ Self.lowest self.old) × (Self.lowests self.new ≡ Self.lowests self.old)
            × (Self.intact self.new ≡ Self.intact self.old)) }
        ensures passed { OnOk result (Passes (Self.watch self.old) (Self.watch self.new)) }
        ensures failed { IfErr result (λ e. FailsCache (notarization_entry (Self.Notarization.plain notarization) ∷ []) none_goes (Self.held self.old).kept
            (Self.lowests self.old) (Self.watch self.old) (Self.held self.new).kept (Self.lowests self.new) (Self.watch self.new)
            (fault_of V.Commitment.bytes e)) };
}
