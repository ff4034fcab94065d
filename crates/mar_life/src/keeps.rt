//! What the stores of blocks and of finalizations have in common.
ghost use Rattle.std.specs.Prelude.{◌≡◌, ◌≤◌, ℕ, Bool, List, [], IfErr, IfOk, IfSome, MatchResult, OnErr, OnOk, false, true};
ghost use Rattle.mar_store.specs.Watch.{armed, Heeds, Watch};
ghost use Rattle.mar_store.specs.Luck.{keeps_by, lucky_found};
ghost use Rattle.mar_store.specs.Kept.{At, Kept};
ghost use Rattle.mar_store.specs.Changes.{Syncs, Finishes, Prunes, Fails, left_of, IsReopened, IsNested, heights};
ghost use Rattle.mar_store.specs.Named.{last_index};
ghost use Rattle.mar_store.specs.Ranges.{ranges};
ghost use Rattle.mar_store.specs.Tickets.{KeepsCovers, KeepsCoversFrom, last_number};
ghost use Rattle.mar_store.specs.Lost.{wreck_of};

use mar_store::{ArchiveRuin, Lost, RangeSet, SyncTicket};
use mar_types::Height;
use std::alloc::AllocError;

/// Values by height, which contracts see as those of the type `T`: one for each height. A put is seen at once and durable
/// after the next sync. Counted are the calls that put a value or look for one, `sync`, `start_sync`, `finish`, `prune` and
/// `reopen`.
pub trait Keeps<T>: Drop {
    type Wreck: ArchiveRuin<T>;

    /// What it holds, what is sure, and what a crash can leave.
    ghost stored: { Self → Kept (At T) };

    /// What it tells of its failures.
    ghost watch: { Self → Watch };

    /// The greatest number that a ticket of this life has.
    ghost number: { Self → ℕ };

    /// What the ticket of a number makes sure.
    ghost covers: { Self → ℕ → List (At T) };

    /// Whether a prune removes anything.
    ghost prunes: { Bool };

    /// Makes all values that were put durable.
    fn sync(self) -> Result<Self, Lost<Self::Wreck>>
    where
        Self: Sized,
        ensures done { MatchResult result
            (λ s. Syncs (stored self) (stored s))
            (λ l. Fails (left_of (stored self)) [] (Self.Wreck.left (wreck_of l))) }
        ensures still { IfErr result (λ l. IfSome (watch self).keeps (λ _. Self.Wreck.left (wreck_of l) ≡ left_of (stored self))) }
        ensures tickets { IfOk result (λ s. number self ≤ number s) }
        ensures covers { IfOk result (λ s. KeepsCovers (number self) (covers self) (covers s)) }
        ensures watched { Heeds watch Self.Wreck.watch (watch self) result };

    /// Starts a sync, which `finish` of its ticket finishes.
    fn start_sync(self) -> Result<(Self, SyncTicket), Lost<Self::Wreck>>
    where
        Self: Sized,
        ensures done { MatchResult result
            (λ s. stored s.0 ≡ stored self)
            (λ l. Fails (left_of (stored self)) [] (Self.Wreck.left (wreck_of l))) }
        ensures still { IfErr result (λ l. IfSome (watch self).keeps (λ _. Self.Wreck.left (wreck_of l) ≡ left_of (stored self))) }
        ensures made { IfOk result (λ s. s.1.number ≤ number s.0) }
        ensures covered { IfOk result (λ s. covers s.0 s.1.number ≡ (stored self).held) }
        ensures tickets { IfOk result (λ s. number self ≤ number s.0) }
        ensures covers { IfOk result (λ s. KeepsCovers (number self) (covers self) (covers s.0)) }
        ensures watched { Heeds (λ s. watch s.0) Self.Wreck.watch (watch self) result };

    /// Makes sure all that was accepted before this ticket was made. A ticket of an earlier life isn't one.
    fn finish(self, ticket: SyncTicket) -> Result<Self, Lost<Self::Wreck>>
    where
        Self: Sized,
        requires made { ticket.number ≤ number self }
        ensures done { MatchResult result
            (λ s. Finishes (covers self ticket.number) (stored self) (stored s))
            (λ l. Fails (left_of (stored self)) [] (Self.Wreck.left (wreck_of l))) }
        ensures still { IfErr result (λ l. IfSome (watch self).keeps (λ _. Self.Wreck.left (wreck_of l) ≡ left_of (stored self))) }
        ensures tickets { IfOk result (λ s. number self ≤ number s) }
        ensures covers { IfOk result (λ s. KeepsCovers (number self) (covers self) (covers s)) }
        ensures watched { Heeds watch Self.Wreck.watch (watch self) result };

    /// Removes values below a height; some may stay. A store that prunes nothing doesn't count the call.
    fn prune(self, min: Height) -> Result<Self, Lost<Self::Wreck>>
    where
        Self: Sized,
        ensures done { MatchResult result
            (λ s. Prunes min (stored self) (stored s))
            (λ l. Fails (left_of (stored self)) [] (Self.Wreck.left (wreck_of l))) }
        ensures still { IfErr result (λ l. IfSome (watch self).keeps (λ _. Self.Wreck.left (wreck_of l) ≡ left_of (stored self))) }
        ensures idle { prunes ≡ false → IfOk result (λ s. stored s ≡ stored self) }
        ensures unchanged { prunes ≡ false → result ≡ Ok self }
        ensures tickets { IfOk result (λ s. number self ≤ number s) }
        ensures covers { IfOk result (λ s. KeepsCoversFrom min (number self) (covers self) (covers s)) }
        ensures watched { prunes ≡ true → Heeds watch Self.Wreck.watch (watch self) result };

    /// What a crash now leaves.
    fn wreck(self) -> Self::Wreck
    where
        Self: Sized,
        ensures left { Self.Wreck.left result ≡ left_of (stored self) }
        ensures watch { Self.Wreck.watch result ≡ watch self };

    /// Opens what a crash left; luck picks among what may be left. A store that tells how it goes by luck finds what is sure
    /// and, of the rest, what its luck keeps.
    fn reopen(wreck: Self::Wreck, luck: u64) -> Result<Self, Lost<Self::Wreck>>
    where
        Self: Sized,
        ensures done { MatchResult result
            (λ s. IsReopened (Self.Wreck.left wreck) (stored s))
            (λ l. Fails (Self.Wreck.left wreck) [] (Self.Wreck.left (wreck_of l))) }
        ensures still { IfErr result (λ l. IfSome (Self.Wreck.watch wreck).keeps (λ _. Self.Wreck.left (wreck_of l) ≡ Self.Wreck.left wreck)) }
        ensures lucky { IfOk result (λ s. IfSome (Self.Wreck.watch wreck).keeps
            (λ keeps. (stored s).held ≡ lucky_found (keeps_by keeps luck) (Self.Wreck.left wreck))) }
        ensures watched { Heeds watch Self.Wreck.watch (Self.Wreck.watch wreck) result };

    /// Makes the counted call fail that is so many calls away, 1 being the next. Where nothing can be armed it does
    /// nothing.
    fn arm(&mut self, calls: u64) -> Result<(), AllocError>
        ensures armed { OnOk result (watch self.new ≡ armed calls (watch self.old)) }
        ensures unarmed { OnErr result (watch self.new ≡ watch self.old) }
        ensures same { stored self.new ≡ stored self.old }
        ensures tickets { number self.new ≡ number self.old }
        ensures covers { KeepsCovers (number self.old) (covers self.old) (covers self.new) };

    /// The greatest height that is held.
    fn last_index(&self) -> Option<Height>
        ensures { result ≡ last_index (stored self.now).held };

    /// The heights of what is held.
    fn held_ranges(&self) -> &RangeSet
        ensures { result.now ≡ ranges (heights (stored self.now).held) };

    /// The heights of what every crash leaves.
    fn sure_ranges(&self) -> &RangeSet
        ensures { result.now ≡ ranges (heights (stored self.now).sure) };

    ghost nested: { (s : Self) → IsNested (stored s) };

    ghost last: { (s : Self) → covers s last_number ≡ (stored s).held };
}
