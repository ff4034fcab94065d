//! Values by index and by digest that a crash can hurt.
ghost use Rattle.std.specs.Prelude.{◌≡◌, ◌≤◌, ◌+◌, ℕ, List, [], ◌∷◌, Bool, true, is_some, max, IfErr, IfOk, IfSome, OnOk, OnErr, MatchResult};
ghost use Rattle.mar_store.specs.Kept.{At, Kept};
ghost use Rattle.mar_store.specs.Changes.{Left, Within, Puts, Syncs, Prunes, Finishes, Fails, left_of, IsReopened, IsNested, IsQueue, IsStillOr, BeginsWith, heights, pruned_store};
ghost use Rattle.mar_store.specs.Named.{value_found, is_taken, last_index, EachNameOnce};
ghost use Rattle.mar_store.specs.Ranges.{ranges};
ghost use Rattle.mar_store.specs.Tickets.{last_number, KeepsCovers, KeepsCoversFrom};
ghost use Rattle.mar_store.specs.Watch.{armed, Heeds, HeedsRead, Watch};
ghost use Rattle.mar_store.specs.Luck.{keeps_by, lucky_found};
ghost use Rattle.mar_store.specs.Lost.{LeavesPut, wreck_of};
ghost use Rattle.std.specs.List.{AllByRecursion};

use crate::{Identifier, Item, Lost, Miss, RangeSet, SyncTicket};
use std::alloc::AllocError;

/// What is left of an archive.
pub trait ArchiveRuin<T>: Drop {
    // What every crash leaves, and all that a crash can leave.
    ghost left: { Self → Left (At T) };

    // What it tells of its failures.
    ghost watch: { Self → Watch };

    // The greatest number that a ticket of the life before had.
    ghost number: { Self → ℕ };

    // Whether memory ran out as a put that failed was to leave its value.
    ghost short: { Self → Bool };

    /// The indexes of what every crash leaves.
    fn sure_ranges(&self) -> &RangeSet
        ensures { result.now ≡ ranges (heights (left self.now).sure) };

    /// The indexes of all that a crash can leave.
    fn may_ranges(&self) -> &RangeSet
        ensures { result.now ≡ ranges (heights (left self.now).may) };

    /// Makes the counted call fail that is so many calls away, 1 being the next. Counted are `put`, `sync`,
    /// `start_sync`, `finish`, `get`, `has`, `prune` and `reopen`. Where nothing can be armed it does nothing.
    fn arm(&mut self, calls: u64) -> Result<(), AllocError>
        ensures armed { OnOk result (watch self.new ≡ armed calls (watch self.old)) }
        ensures unarmed { OnErr result (watch self.new ≡ watch self.old) }
        ensures left { left self.new ≡ left self.old }
        ensures number { number self.new ≡ number self.old };

    // Where luck is told, what is sure stands in front, in the order of the puts.
    ghost front: { (w : Self) → IfSome (watch w).keeps (λ _. BeginsWith (left w).sure (left w).may) };

    ghost within: { (w : Self) → Within (left w).sure (left w).may };
}

/// Values at an index and under their digest. A put is held at once, and sure after the next sync; one that is ignored
/// changes nothing. Of a store that tells how it goes by luck a call that fails leaves just what was left, a put that
/// answers a fault also what it was to write (`written`); and what may be left stands in the order of the puts.
///
/// A put or a prune raises the greatest number of a ticket by one at most, and no other call raises it; a reopening gives
/// none that is greater than before, or 1. So a ticket stands at the last number only after 2^64 - 2 puts and prunes.
pub trait Archive<T: Item>: Drop {
    type Wreck: ArchiveRuin<T>;

    // What it holds, what is sure, and what a crash can leave.
    ghost stored: { Self → Kept (At T) };

    // What it tells of its failures.
    ghost watch: { Self → Watch };

    // The greatest number that a ticket of this life has.
    ghost number: { Self → ℕ };

    // What the ticket of a number makes sure.
    ghost covers: { Self → ℕ → List (At T) };

    /// The value at an index or of a digest.
    fn get(&mut self, identifier: Identifier<T::Key>) -> Result<Option<T>, Miss>
        ensures found { IfOk result (λ o. o ≡ value_found T.name T.Key.bytes (stored self.old).held identifier) }
        ensures same { stored self.new ≡ stored self.old }
        ensures tickets { number self.new ≡ number self.old }
        ensures covers { KeepsCovers (number self.old) (covers self.old) (covers self.new) }
        ensures watched { HeedsRead (watch self.old) (watch self.new) result };

    /// Whether a value is held at an index or of a digest.
    fn has(&mut self, identifier: Identifier<T::Key>) -> Result<bool, Miss>
        ensures found { IfOk result (λ b. b ≡ is_some (value_found T.name T.Key.bytes (stored self.old).held identifier)) }
        ensures same { stored self.new ≡ stored self.old }
        ensures tickets { number self.new ≡ number self.old }
        ensures covers { KeepsCovers (number self.old) (covers self.old) (covers self.new) }
        ensures watched { HeedsRead (watch self.old) (watch self.new) result };

    /// Puts a value at an index, under its digest; ignored where one of either is held.
    fn put(self, index: u64, item: T) -> Result<Self, Lost<Self::Wreck>>
    where
        Self: Sized,
        requires size { T.size item ≤ 1048576 }
        requires fits { T.fits index item ≡ true }
        ensures done { MatchResult result
            (λ s. Puts (is_taken T.name (stored self).held (record { height = index; value = item })) (stored self) (record { height = index; value = item })
            (stored s))
            (λ l. Fails (left_of (stored self)) (record { height = index; value = item } ∷ []) (Self.Wreck.left (wreck_of l))) }
        ensures still { IfErr result (λ l. IfSome (watch self).keeps
            (λ _. IsStillOr (left_of (stored self)) (record { height = index; value = item }) (Self.Wreck.left (wreck_of l)))) }
        ensures written { IfErr result (λ l. IfSome (watch self).keeps
            (λ _. LeavesPut Self.Wreck.left Self.Wreck.short (is_taken T.name (stored self).held (record { height = index; value = item }))
            (left_of (stored self)) (record { height = index; value = item }) l)) }
        ensures unchanged { is_taken T.name (stored self).held (record { height = index; value = item }) ≡ true → MatchResult result
            (λ s. stored s ≡ stored self) (λ l. Fails (left_of (stored self)) [] (Self.Wreck.left (wreck_of l))) }
        ensures counted { MatchResult result (λ s. number s ≤ number self + 1) (λ l. Self.Wreck.number (wreck_of l) ≤ number self + 1) }
        ensures tickets { IfOk result (λ s. number self ≤ number s) }
        ensures covers { IfOk result (λ s. KeepsCovers (number self) (covers self) (covers s)) }
        ensures watched { Heeds watch Self.Wreck.watch (watch self) result };

    /// Makes sure all that was accepted.
    fn sync(self) -> Result<Self, Lost<Self::Wreck>>
    where
        Self: Sized,
        ensures done { MatchResult result
            (λ s. Syncs (stored self) (stored s))
            (λ l. Fails (left_of (stored self)) [] (Self.Wreck.left (wreck_of l))) }
        ensures still { IfErr result (λ l. IfSome (watch self).keeps (λ _. Self.Wreck.left (wreck_of l) ≡ left_of (stored self))) }
        ensures counted { MatchResult result (λ s. number s ≤ number self) (λ l. Self.Wreck.number (wreck_of l) ≤ number self) }
        ensures tickets { IfOk result (λ s. number self ≤ number s) }
        ensures covers { IfOk result (λ s. KeepsCovers (number self) (covers self) (covers s)) }
        ensures watched { Heeds watch Self.Wreck.watch (watch self) result };

    /// Starts a sync, which `finish` of its ticket finishes.
    fn start_sync(self) -> Result<(Self, SyncTicket), Lost<Self::Wreck>>
    where
        Self: Sized,
        ensures done { MatchResult result
            (λ s. stored s.0 ≡ stored self)
            (λ l. Fails (left_of (stored self)) [] (Self.Wreck.left (wreck_of l))) }
        ensures still { IfErr result (λ l. IfSome (watch self).keeps (λ _. Self.Wreck.left (wreck_of l) ≡ left_of (stored self))) }
        ensures made { IfOk result (λ s. s.1.number ≤ number s.0) }
        ensures covered { IfOk result (λ s. covers s.0 s.1.number ≡ (stored self).held) }
        ensures counted { MatchResult result (λ s. number s.0 ≤ number self) (λ l. Self.Wreck.number (wreck_of l) ≤ number self) }
        ensures tickets { IfOk result (λ s. number self ≤ number s.0) }
        ensures covers { IfOk result (λ s. KeepsCovers (number self) (covers self) (covers s.0)) }
        ensures watched { Heeds (λ s. watch s.0) Self.Wreck.watch (watch self) result };

    /// Makes sure all that was accepted before this ticket was made. A ticket of an earlier life isn't one.
    fn finish(self, ticket: SyncTicket) -> Result<Self, Lost<Self::Wreck>>
    where
        Self: Sized,
        requires made { ticket.number ≤ number self }
        ensures done { MatchResult result
            (λ s. Finishes (covers self ticket.number) (stored self) (stored s))
            (λ l. Fails (left_of (stored self)) [] (Self.Wreck.left (wreck_of l))) }
        ensures still { IfErr result (λ l. IfSome (watch self).keeps (λ _. Self.Wreck.left (wreck_of l) ≡ left_of (stored self))) }
        ensures counted { MatchResult result (λ s. number s ≤ number self) (λ l. Self.Wreck.number (wreck_of l) ≤ number self) }
        ensures tickets { IfOk result (λ s. number self ≤ number s) }
        ensures covers { IfOk result (λ s. KeepsCovers (number self) (covers self) (covers s)) }
        ensures watched { Heeds watch Self.Wreck.watch (watch self) result };

    /// Removes values below an index; some may stay.
    fn prune(self, min: u64) -> Result<Self, Lost<Self::Wreck>>
    where
        Self: Sized,
        ensures done { MatchResult result
            (λ s. Prunes min (stored self) (stored s))
            (λ l. Fails (left_of (stored self)) [] (Self.Wreck.left (wreck_of l))) }
        ensures still { IfErr result (λ l. IfSome (watch self).keeps (λ _. Self.Wreck.left (wreck_of l) ≡ left_of (stored self))) }
        ensures exact { IfOk result (λ s. IfSome (watch self).keeps (λ _. stored s ≡ pruned_store min (stored self))) }
        ensures counted { MatchResult result (λ s. number s ≤ number self + 1) (λ l. Self.Wreck.number (wreck_of l) ≤ number self + 1) }
        ensures tickets { IfOk result (λ s. number self ≤ number s) }
        ensures covers { IfOk result (λ s. KeepsCoversFrom min (number self) (covers self) (covers s)) }
        ensures watched { Heeds watch Self.Wreck.watch (watch self) result };

    /// What a crash now leaves.
    fn wreck(self) -> Self::Wreck
    where
        Self: Sized,
        ensures left { Self.Wreck.left result ≡ left_of (stored self) }
        ensures watch { Self.Wreck.watch result ≡ watch self }
        ensures number { Self.Wreck.number result ≡ number self };

    /// Opens what a crash left; luck picks among what may be left. A store that tells how it goes by luck finds what is sure
    /// and, of the rest, what its luck keeps.
    fn reopen(wreck: Self::Wreck, luck: u64) -> Result<Self, Lost<Self::Wreck>>
    where
        Self: Sized,
        ensures done { MatchResult result
            (λ s. IsReopened (Self.Wreck.left wreck) (stored s))
            (λ l. Fails (Self.Wreck.left wreck) [] (Self.Wreck.left (wreck_of l))) }
        ensures still { IfErr result (λ l. IfSome (Self.Wreck.watch wreck).keeps (λ _. Self.Wreck.left (wreck_of l) ≡ Self.Wreck.left wreck)) }
        ensures lucky { IfOk result (λ s. IfSome (Self.Wreck.watch wreck).keeps
            (λ keeps. (stored s).held ≡ lucky_found (keeps_by keeps luck) (Self.Wreck.left wreck))) }
        ensures counted { MatchResult result (λ s. number s ≤ max 1 (Self.Wreck.number wreck))
            (λ l. Self.Wreck.number (wreck_of l) ≤ Self.Wreck.number wreck) }
        ensures watched { Heeds watch Self.Wreck.watch (Self.Wreck.watch wreck) result };

    /// Makes the counted call fail that is so many calls away, 1 being the next. Counted are `put`, `sync`,
    /// `start_sync`, `finish`, `get`, `has`, `prune` and `reopen`. Where nothing can be armed it does nothing.
    fn arm(&mut self, calls: u64) -> Result<(), AllocError>
        ensures armed { OnOk result (watch self.new ≡ armed calls (watch self.old)) }
        ensures unarmed { OnErr result (watch self.new ≡ watch self.old) }
        ensures same { stored self.new ≡ stored self.old }
        ensures tickets { number self.new ≡ number self.old }
        ensures covers { KeepsCovers (number self.old) (covers self.old) (covers self.new) };

    /// The greatest index that is held.
    fn last_index(&self) -> Option<u64>
        ensures { result ≡ last_index (stored self.now).held };

    /// The indexes that are held.
    fn held_ranges(&self) -> &RangeSet
        ensures { result.now ≡ ranges (heights (stored self.now).held) };

    /// The indexes that are sure.
    fn sure_ranges(&self) -> &RangeSet
        ensures { result.now ≡ ranges (heights (stored self.now).sure) };

    ghost nested: { (s : Self) → IsNested (stored s) };

    // Where luck is told, what may be left stands in the order of the puts, what is sure in front.
    ghost queued: { (s : Self) → IfSome (watch s).keeps (λ _. IsQueue (stored s)) };

    ghost named: { (s : Self) → EachNameOnce T.name (stored s).held };

    ghost fitting: { (s : Self) → AllByRecursion (λ x. T.fits x.height x.value ≡ true) (stored s).held };

    ghost last: { (s : Self) → covers s last_number ≡ (stored s).held };
}
