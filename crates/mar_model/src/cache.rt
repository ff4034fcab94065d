//! A cache of entries by epoch, seen as one list of entries.
ghost use Rattle.std.specs.Prelude.{◌≡◌, ◌++◌, ◌∷◌, Bool, ℕ, [], Contains, IfErr, IfOk, IfSome, List, None, OnErr, OnOk, Option, Some, true, false, max, not, option_map};
ghost use Rattle.mar_store.specs.Changes.{Left, Within, left_of};
ghost use Rattle.mar_store.specs.Kept.{Kept};
ghost use Rattle.mar_store.specs.Lost.{wreck_of};
ghost use Rattle.mar_store.specs.Luck.{keeps_by};
ghost use Rattle.mar_store.specs.Watch.{Heeds, Watch, armed};
ghost use Rattle.mar_model.specs.AllEntries.{FirstsStay, LoadsEntries, PrunesEntries};
ghost use Rattle.mar_model.specs.Cache.{is_below, is_certified_below};
ghost use Rattle.mar_model.specs.CacheCalls.{FinishesEntries, GoesOn, IsNestedCache, LosesCache, ReopensCache};
ghost use Rattle.mar_model.specs.CacheCalls.{StartsSync, UnopensCache, is_of_archive, is_ready, none_goes};
ghost use Rattle.mar_model.specs.Cached.{Cached, epoch_of};
ghost use Rattle.mar_model.specs.SmallEntries.{AreSmallEntries};
ghost use Rattle.mar_model.specs.LuckyEntries.{lucky_entries};
ghost use Rattle.mar_model.specs.declared.started.CacheTicket.{CacheTicket as CacheTicketOf};
ghost use Rattle.mar_model.specs.declared.started.SectionSync.{SectionSync as SectionSyncOf};

use crate::section::Section;
use crate::started::{CacheTicket, Started};
use mar_store::Lost;
use mar_types::{Epoch, Height, Round};
use std::alloc::AllocError;

/// What is left of a cache.
pub trait ShelfRuin: Drop {
    /// What every crash leaves of its entries, and all that a crash can leave.
    ghost left: { Self → Left Cached };

    /// What may be left of its lowest epoch.
    ghost lowests: { Self → List ℕ };

    /// What it tells of its failures.
    ghost watch: { Self → Watch };

    /// Whether memory ran out as an armed put was to leave its entry.
    ghost short: { Self → Bool };

    /// Makes the counted call fail that is so many calls away, 1 being the next, which is the reopening.
    fn arm(&mut self, calls: u64) -> Result<(), AllocError>
        ensures armed { OnOk result (watch self.new ≡ armed calls (watch self.old)) }
        ensures unarmed { OnErr result (watch self.new ≡ watch self.old) }
        ensures same { (left self.new ≡ left self.old) × (lowests self.new ≡ lowests self.old) }
        ensures short { short self.new ≡ short self.old };

    ghost within: { (w : Self) → Within (left w).sure (left w).may };

    ghost small: { (w : Self) → AreSmallEntries (left w).may };
}

/// A cache of entries by epoch, seen as one list of entries, whatever they are made of: `Shelf` puts them and looks for them.
/// What is put is held at once, and sure after the next sync of its archive. What a crash left is taken up by
/// `load_persisted_epochs`, before anything is put. Each call is counted, but for `wreck` and `arm`.
pub trait Cache: Drop {
    type Wreck: ShelfRuin;

    /// What is held of all epochs, what is sure and what a crash can leave.
    ghost kept: { Self → Kept Cached };

    /// The lowest epoch of which something is kept.
    ghost lowest: { Self → ℕ };

    /// What a crash left was taken up.
    ghost loaded: { Self → Bool };

    /// Whether an epoch is open: a put opens its own, and a start each of which something is left.
    ghost is_open: { Self → ℕ → Bool };

    /// Nothing was put since the reopening, and nothing taken up.
    ghost fresh: { Self → Bool };

    /// What taking up what a crash left would hold, where it goes by luck, as long as nothing was put or taken up.
    ghost finds: { Self → Option (List Cached) };

    /// What a ticket makes sure.
    ghost covers: { Self → CacheTicketOf → List Cached };

    /// What it tells of its failures.
    ghost watch: { Self → Watch };

    /// Starts a sync of an archive of an epoch, where that is open.
    fn start_sync(
        self,
        epoch: Epoch,
        section: Section,
    ) -> Result<(Self, Started), Lost<Self::Wreck>>
    where
        Self: Sized,
        ensures same { IfOk result (λ r. kept r.0 ≡ kept self) }
        ensures started { IfOk result (λ r. StartsSync (covers r.0) epoch (is_of_archive epoch section) (kept self).held r.1) }
        ensures ready { IfOk result (λ r. is_ready r.1 ≡ not (is_open self epoch)) }
        ensures goes_on { IfOk result (λ r. GoesOn [] none_goes (kept self) (kept r.0) (covers self) (covers r.0)) }
        ensures stays { IfOk result (λ r. (lowest r.0 ≡ lowest self) × (loaded r.0 ≡ loaded self) × (fresh r.0 ≡ fresh self)) }
        ensures lost { IfErr result (λ l. LosesCache [] none_goes (kept self) (lowest self ∷ [])
            (Self.Wreck.left (wreck_of l)) (Self.Wreck.lowests (wreck_of l))) }
        ensures watched { Heeds (λ r. watch r.0) Self.Wreck.watch (watch self) result };

    /// Starts a sync of the verified blocks of an epoch, where that is open.
    final fn start_sync_verified(self, epoch: Epoch) -> Result<(Self, Started), Lost<Self::Wreck>>
    where
        Self: Sized,
        ensures same { IfOk result (λ r. kept r.0 ≡ kept self) }
        ensures started { IfOk result (λ r. StartsSync (covers r.0) epoch (is_of_archive epoch Section.Verified) (kept self).held r.1) }
        ensures ready { IfOk result (λ r. is_ready r.1 ≡ not (is_open self epoch)) }
        ensures goes_on { IfOk result (λ r. GoesOn [] none_goes (kept self) (kept r.0) (covers self) (covers r.0)) }
        ensures stays { IfOk result (λ r. (lowest r.0 ≡ lowest self) × (loaded r.0 ≡ loaded self) × (fresh r.0 ≡ fresh self)) }
        ensures lost { IfErr result (λ l. LosesCache [] none_goes (kept self) (lowest self ∷ [])
            (Self.Wreck.left (wreck_of l)) (Self.Wreck.lowests (wreck_of l))) }
        ensures watched { Heeds (λ r. watch r.0) Self.Wreck.watch (watch self) result }
    {
        self.start_sync(epoch, Section::Verified)
    }

    /// Starts a sync of the notarizations of an epoch, where that is open.
    final fn start_sync_notarizations(
        self,
        epoch: Epoch,
    ) -> Result<(Self, Started), Lost<Self::Wreck>>
    where
        Self: Sized,
        ensures same { IfOk result (λ r. kept r.0 ≡ kept self) }
        ensures started { IfOk result (λ r. StartsSync (covers r.0) epoch (is_of_archive epoch Section.Notarizations) (kept self).held r.1) }
        ensures ready { IfOk result (λ r. is_ready r.1 ≡ not (is_open self epoch)) }
        ensures goes_on { IfOk result (λ r. GoesOn [] none_goes (kept self) (kept r.0) (covers self) (covers r.0)) }
        ensures stays { IfOk result (λ r. (lowest r.0 ≡ lowest self) × (loaded r.0 ≡ loaded self) × (fresh r.0 ≡ fresh self)) }
        ensures lost { IfErr result (λ l. LosesCache [] none_goes (kept self) (lowest self ∷ [])
            (Self.Wreck.left (wreck_of l)) (Self.Wreck.lowests (wreck_of l))) }
        ensures watched { Heeds (λ r. watch r.0) Self.Wreck.watch (watch self) result }
    {
        self.start_sync(epoch, Section::Notarizations)
    }

    /// Makes sure what a ticket covers. A ticket of an earlier life is none.
    fn finish(self, ticket: CacheTicket) -> Result<Self, Lost<Self::Wreck>>
    where
        Self: Sized,
        ensures done { IfOk result (λ s. FinishesEntries (covers self ticket) (kept self) (kept s)) }
        ensures goes_on { IfOk result (λ s. GoesOn [] none_goes (kept self) (kept s) (covers self) (covers s)) }
        ensures stays { IfOk result (λ s. (lowest s ≡ lowest self) × (loaded s ≡ loaded self) × (fresh s ≡ fresh self)) }
        ensures lost { IfErr result (λ l. LosesCache [] none_goes (kept self) (lowest self ∷ [])
            (Self.Wreck.left (wreck_of l)) (Self.Wreck.lowests (wreck_of l))) }
        ensures watched { Heeds watch Self.Wreck.watch (watch self) result };

    /// Takes up what a crash left.
    fn load_persisted_epochs(self) -> Result<Self, Lost<Self::Wreck>>
    where
        Self: Sized,
        ensures done { fresh self ≡ true → IfOk result (λ s. LoadsEntries (kept self) (kept s)) }
        ensures found { fresh self ≡ true → IfOk result (λ s. IfSome (finds self) (λ found. (kept s).held ≡ found)) }
        ensures goes_on { IfOk result (λ s. GoesOn [] none_goes (kept self) (kept s) (covers self) (covers s)) }
        ensures stays { IfOk result (λ s. (lowest s ≡ lowest self) × (loaded s ≡ true)) }
        ensures lost { IfErr result (λ l. LosesCache [] none_goes (kept self) (lowest self ∷ [])
            (Self.Wreck.left (wreck_of l)) (Self.Wreck.lowests (wreck_of l))) }
        ensures watched { Heeds watch Self.Wreck.watch (watch self) result };

    /// The certified blocks below a height go.
    fn prune_by_height(self, height: Height) -> Result<Self, Lost<Self::Wreck>>
    where
        Self: Sized,
        ensures done { loaded self ≡ true → IfOk result (λ s. PrunesEntries (is_certified_below height) (kept self) (kept s)
            × FirstsStay (kept self).held (kept s).held) }
        ensures goes_on { IfOk result (λ s. GoesOn [] (is_certified_below height) (kept self) (kept s) (covers self) (covers s)) }
        ensures stays { IfOk result (λ s. (lowest s ≡ lowest self) × (loaded s ≡ loaded self) × (fresh s ≡ fresh self)) }
        ensures lost { IfErr result (λ l. LosesCache [] (is_certified_below height) (kept self) (lowest self ∷ [])
            (Self.Wreck.left (wreck_of l)) (Self.Wreck.lowests (wreck_of l))) }
        ensures watched { Heeds watch Self.Wreck.watch (watch self) result };

    /// Older epochs are destroyed; the round's own becomes the lowest, and what stands there below the round goes. Where it
    /// fails, some of that may be gone.
    fn prune_by_view(self, round: Round) -> Result<Self, Lost<Self::Wreck>>
    where
        Self: Sized,
        ensures done { loaded self ≡ true → IfOk result (λ s. PrunesEntries (is_below round) (kept self) (kept s)
            × FirstsStay (kept self).held (kept s).held) }
        ensures goes_on { IfOk result (λ s. GoesOn [] (is_below round) (kept self) (kept s) (covers self) (covers s)) }
        ensures stays { IfOk result (λ s. (lowest s ≡ max (lowest self) round.epoch) × (loaded s ≡ loaded self) × (fresh s ≡ fresh self)) }
        ensures lost { IfErr result (λ l. LosesCache [] (is_below round) (kept self) (lowest self ∷ max (lowest self) round.epoch ∷ [])
            (Self.Wreck.left (wreck_of l)) (Self.Wreck.lowests (wreck_of l))) }
        ensures watched { Heeds watch Self.Wreck.watch (watch self) result };

    /// What a crash now leaves.
    fn wreck(self) -> Self::Wreck
    where
        Self: Sized,
        ensures left { Self.Wreck.left result ≡ left_of (kept self) }
        ensures lowests { Self.Wreck.lowests result ≡ lowest self ∷ [] }
        ensures watch { Self.Wreck.watch result ≡ watch self };

    /// Takes up what a crash left, but for its entries: none is held before they are loaded. Luck picks among what may be
    /// left, now and where they are loaded: of each archive of each epoch the entries whose numbers it keeps.
    fn reopen(wreck: Self::Wreck, luck: u64) -> Result<Self, Lost<Self::Wreck>>
    where
        Self: Sized,
        ensures done { IfOk result (λ s. ReopensCache (Self.Wreck.left wreck) (kept s)) }
        ensures lowest { IfOk result (λ s. Contains (Self.Wreck.lowests wreck) (lowest s)) }
        ensures fresh { IfOk result (λ s. (fresh s ≡ true) × (loaded s ≡ false)) }
        ensures picked { IfOk result (λ s. finds s
            ≡ option_map (λ keeps. lucky_entries (keeps_by keeps luck) (Self.Wreck.left wreck)) (Self.Wreck.watch wreck).keeps) }
        ensures lost { IfErr result (λ l. UnopensCache (Self.Wreck.left wreck) (Self.Wreck.lowests wreck)
            (Self.Wreck.left (wreck_of l)) (Self.Wreck.lowests (wreck_of l))) }
        ensures watched { Heeds watch Self.Wreck.watch (Self.Wreck.watch wreck) result };

    /// Makes the counted call fail that is so many calls away, 1 being the next.
    fn arm(&mut self, calls: u64) -> Result<(), AllocError>
        ensures armed { OnOk result (watch self.new ≡ armed calls (watch self.old)) }
        ensures unarmed { OnErr result (watch self.new ≡ watch self.old) }
        ensures same { (kept self.new ≡ kept self.old) × (lowest self.new ≡ lowest self.old) × (loaded self.new ≡ loaded self.old)
            × (fresh self.new ≡ fresh self.old) × (finds self.new ≡ finds self.old) × (covers self.new ≡ covers self.old) };

    ghost nested: { (s : Self) → IsNestedCache (kept s) (lowest s) (loaded s) };

    /// What is held is of open epochs, and none is open before the first put.
    ghost opens: { (s : Self) (x : Cached) → Contains (kept s).held x → is_open s (epoch_of x) ≡ true };

    ghost closed: { (s : Self) → fresh s ≡ true → (e : ℕ) → is_open s e ≡ false };

    ghost small: { (s : Self) → AreSmallEntries (kept s).may };

    ghost joins: { (s : Self) (e : ℕ) (p q : SectionSyncOf) → covers s (record { epoch = e; first = p; second = Some q })
        ≡ covers s (record { epoch = e; first = p; second = None }) ++ covers s (record { epoch = e; first = q; second = None }) };
}
