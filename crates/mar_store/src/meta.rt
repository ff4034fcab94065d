//! A few numbers that become durable together.
ghost use Rattle.std.specs.Prelude.{◌≡◌, ◌<◌, ◌++◌, ℕ, List, [], ◌∷◌, length, Some, None, Contains, IfErr, IfOk, IfSome, OnOk, OnErr, MatchResult};
ghost use Rattle.mar_store.specs.Values.{Values, IsLastKey, SetsValue, synced_values, LeavesValues, others_of, with_key};
ghost use Rattle.mar_store.specs.Lost.{wreck_of};
ghost use Rattle.mar_store.specs.Luck.{keeps_by, lucky_values};
ghost use Rattle.mar_store.specs.Watch.{armed, Heeds, IsCalm, Watch};

use crate::Lost;
use std::alloc::AllocError;

/// What is left of a metadata store.
pub trait MetaRuin: Drop {
    /// The maps that may be left, what the last sync that succeeded left first.
    ghost left: { Self → List Values };

    /// What it tells of its failures.
    ghost watch: { Self → Watch };

    /// The value of a key as the last successful sync left it, or the last reopening read it.
    fn synced(&self, key: u64) -> Option<u64>
        ensures { result ≡ synced_values (left self.now) key };

    /// Makes the counted call fail that is so many calls away, 1 being the next. Counted are `sync` and `reopen`.
    /// Where nothing can be armed it does nothing.
    fn arm(&mut self, calls: u64) -> Result<(), AllocError>
        ensures armed { OnOk result (watch self.new ≡ armed calls (watch self.old)) }
        ensures unarmed { OnErr result (watch self.new ≡ watch self.old) }
        ensures left { left self.new ≡ left self.old };

    ghost some: { (w : Self) → 0 < length (left w) };
}

/// A map from keys to numbers. Changes are seen at once and become durable together with the next sync.
pub trait Meta: Drop {
    type Wreck: MetaRuin;

    /// The values that are read now.
    ghost current: { Self → Values };

    /// The maps that a crash can leave, what the last sync left first.
    ghost left: { Self → List Values };

    /// The keys whose values were set or removed since the last sync or reopening, each once.
    ghost changed: { Self → List ℕ };

    /// What it tells of its failures.
    ghost watch: { Self → Watch };

    /// The value of a key, as it was put last.
    fn get(&self, key: u64) -> Option<u64>
        ensures { result ≡ current self.now key };

    /// The greatest key that has a value, as it is read now.
    fn last_key(&self) -> Option<u64>
        ensures { IsLastKey (current self.now) result };

    /// Sets the value of a key; it is durable after the next sync. Between two syncs at most 2048 keys change.
    fn put(self, key: u64, value: u64) -> Result<Self, Lost<Self::Wreck>>
    where
        Self: Sized,
        requires room { length (others_of key (changed self)) < 2048 }
        ensures done { MatchResult result
            (λ s. SetsValue (current self) key (Some value) (current s))
            (λ l. LeavesValues (left self) [] (Self.Wreck.left (wreck_of l))) }
        ensures durable { IfOk result (λ s. left s ≡ left self) }
        ensures changes { IfOk result (λ s. changed s ≡ with_key key (changed self)) }
        ensures watched { IsCalm watch Self.Wreck.watch (watch self) result };

    /// Removes a key; it is gone for good after the next sync. Between two syncs at most 2048 keys change.
    fn remove(self, key: u64) -> Result<Self, Lost<Self::Wreck>>
    where
        Self: Sized,
        requires room { length (others_of key (changed self)) < 2048 }
        ensures done { MatchResult result
            (λ s. SetsValue (current self) key None (current s))
            (λ l. LeavesValues (left self) [] (Self.Wreck.left (wreck_of l))) }
        ensures durable { IfOk result (λ s. left s ≡ left self) }
        ensures changes { IfOk result (λ s. changed s ≡ with_key key (changed self)) }
        ensures watched { IsCalm watch Self.Wreck.watch (watch self) result };

    /// Makes all changes durable together. Where it fails, a store that tells how it goes by luck leaves the changed map
    /// behind what was left.
    fn sync(self) -> Result<Self, Lost<Self::Wreck>>
    where
        Self: Sized,
        ensures done { MatchResult result
            (λ s. left s ≡ current self ∷ [])
            (λ l. LeavesValues (left self) (current self ∷ []) (Self.Wreck.left (wreck_of l))) }
        ensures failed { IfErr result (λ l. IfSome (watch self).keeps
            (λ _. Self.Wreck.left (wreck_of l) ≡ left self ++ current self ∷ [])) }
        ensures same { IfOk result (λ s. current s ≡ current self) }
        ensures changes { IfOk result (λ s. changed s ≡ []) }
        ensures watched { Heeds watch Self.Wreck.watch (watch self) result };

    /// What a crash now leaves.
    fn wreck(self) -> Self::Wreck
    where
        Self: Sized,
        ensures left { Self.Wreck.left result ≡ left self }
        ensures watch { Self.Wreck.watch result ≡ watch self };

    /// Opens what a crash left; luck picks among the maps that may be left. A store that tells how it goes by luck finds the
    /// second of them where its luck keeps that, else the first.
    fn reopen(wreck: Self::Wreck, luck: u64) -> Result<Self, Lost<Self::Wreck>>
    where
        Self: Sized,
        ensures done { MatchResult result
            (λ s. Contains (Self.Wreck.left wreck) (current s))
            (λ l. LeavesValues (Self.Wreck.left wreck) [] (Self.Wreck.left (wreck_of l))) }
        ensures synced { IfOk result (λ s. left s ≡ current s ∷ []) }
        ensures changes { IfOk result (λ s. changed s ≡ []) }
        ensures lucky { IfOk result (λ s. IfSome (Self.Wreck.watch wreck).keeps
            (λ keeps. current s ≡ lucky_values (keeps_by keeps luck 0) (Self.Wreck.left wreck))) }
        ensures watched { Heeds watch Self.Wreck.watch (Self.Wreck.watch wreck) result };

    /// Makes the counted call fail that is so many calls away, 1 being the next. Counted are `sync` and `reopen`.
    /// Where nothing can be armed it does nothing.
    fn arm(&mut self, calls: u64) -> Result<(), AllocError>
        ensures armed { OnOk result (watch self.new ≡ armed calls (watch self.old)) }
        ensures unarmed { OnErr result (watch self.new ≡ watch self.old) }
        ensures current { current self.new ≡ current self.old }
        ensures left { left self.new ≡ left self.old }
        ensures changes { changed self.new ≡ changed self.old };

    ghost some: { (s : Self) → 0 < length (left s) };
}
