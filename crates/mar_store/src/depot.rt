//! What stands under names, as what is left of an archive under the number of its epoch.
ghost use Rattle.std.specs.Prelude.{◌≡◌, ◌<◌, ◌↔◌, ℕ, Bool, List, [], ◌∷◌, length, Contains, IsSome, IsTrue, None, IfOk, OnOk, OnErr, MatchResult};
ghost use Rattle.std.specs.Bool.{OnTrue};
ghost use Rattle.std.specs.List.{AllByRecursion};
ghost use Rattle.std.specs.List.Sorted.{IsStrictlyIncreasing};
ghost use Rattle.mar_store.specs.Changes.{Within};
ghost use Rattle.mar_store.specs.Names.{Names, Opens, Closes, SetsName, IsOpenedOrNot, IsDestroyedOrNot};
ghost use Rattle.mar_store.specs.Lost.{wreck_of};
ghost use Rattle.mar_store.specs.Watch.{armed, Heeds, HeedsRead, Watch};

use crate::{Lost, Miss};
use std::alloc::{AllocError, Global};

/// What can stand under a name in memory: there is one that holds nothing.
pub trait EmptyStore: Drop {
    // Whether it holds nothing.
    ghost is_empty: { Self → Bool };

    /// One that holds nothing.
    fn empty(alloc: Global) -> Self
    where
        Self: Sized,
        ensures { IsTrue (is_empty result) };
}

/// What is left of a depot.
pub trait DepotRuin<T: Drop>: Drop {
    // What may stand under the names after a crash.
    ghost left: { Self → List (Names T) };

    // What it tells of its failures.
    ghost watch: { Self → Watch };

    /// Makes the counted call fail that is so many calls away, 1 being the next. Counted are `open`, `list`, `destroy`
    /// and `reopen`. Where nothing can be armed it does nothing.
    fn arm(&mut self, calls: u64) -> Result<(), AllocError>
        ensures armed { OnOk result (watch self.new ≡ armed calls (watch self.old)) }
        ensures unarmed { OnErr result (watch self.new ≡ watch self.old) }
        ensures left { left self.new ≡ left self.old };

    ghost some: { (w : Self) → 0 < length (left w) };
}

/// A finite map from names to what stands under them. An `open` hands that out, and takes it back at a `close`; until
/// then an empty one stands there. A crash keeps the names that stand, and brings none back.
pub trait Depot<T: Drop>: Drop {
    type Wreck: DepotRuin<T>;

    // Whether it tells what stands under its names.
    ghost told: { Bool };

    // What stands under each name.
    ghost names: { Self → Names T };

    // Whether what stands under a name holds nothing.
    ghost is_empty: { T → Bool };

    // What it tells of its failures.
    ghost watch: { Self → Watch };

    /// Hands out what stands under a name, or an empty one, whose name it then adds.
    fn open(self, name: u64) -> Result<(Self, T), Lost<Self::Wreck>>
    where
        Self: Sized,
        ensures done { OnTrue told (MatchResult result
            (λ s. Opens is_empty (names self) name s.1 (names s.0))
            (λ l. AllByRecursion (IsOpenedOrNot is_empty (names self) name) (Self.Wreck.left (wreck_of l)))) }
        ensures watched { Heeds (λ s. watch s.0) Self.Wreck.watch (watch self) result };

    /// Takes back what an `open` of that name handed out. Where the name doesn't stand any more, it is dropped.
    fn close(&mut self, name: u64, content: T)
        ensures done { OnTrue told (Closes (names self.old) name content (names self.new)) }
        ensures watch { watch self.new ≡ watch self.old };

    /// The names, ascending.
    fn list(&mut self) -> Result<Vec<u64>, Miss>
        ensures found { OnTrue told (IfOk result (λ ns. (n : ℕ) → IsSome (names self.old n) ↔ Contains ns.items n)) }
        ensures ascend { OnTrue told (IfOk result (λ ns. IsStrictlyIncreasing ns.items)) }
        ensures same { names self.new ≡ names self.old }
        ensures watched { HeedsRead (watch self.old) (watch self.new) result };

    /// Removes a name, with what stands under it.
    fn destroy(self, name: u64) -> Result<Self, Lost<Self::Wreck>>
    where
        Self: Sized,
        ensures done { OnTrue told (MatchResult result
            (λ s. SetsName (names self) name None (names s))
            (λ l. AllByRecursion (IsDestroyedOrNot (names self) name) (Self.Wreck.left (wreck_of l)))) }
        ensures watched { Heeds watch Self.Wreck.watch (watch self) result };

    /// What a crash now leaves: what stands under the names.
    fn wreck(self) -> Self::Wreck
    where
        Self: Sized,
        ensures left { OnTrue told (Self.Wreck.left result ≡ names self ∷ []) }
        ensures watch { Self.Wreck.watch result ≡ watch self };

    /// Opens what a crash left; luck picks among what may stand under the names.
    fn reopen(wreck: Self::Wreck, luck: u64) -> Result<Self, Lost<Self::Wreck>>
    where
        Self: Sized,
        ensures done { OnTrue told (MatchResult result
            (λ s. Contains (Self.Wreck.left wreck) (names s))
            (λ l. Within (Self.Wreck.left (wreck_of l)) (Self.Wreck.left wreck) × Within (Self.Wreck.left wreck) (Self.Wreck.left (wreck_of l)))) }
        ensures watched { Heeds watch Self.Wreck.watch (Self.Wreck.watch wreck) result };

    /// Makes the counted call fail that is so many calls away, 1 being the next. Counted are `open`, `list`, `destroy`
    /// and `reopen`. Where nothing can be armed it does nothing.
    fn arm(&mut self, calls: u64) -> Result<(), AllocError>
        ensures armed { OnOk result (watch self.new ≡ armed calls (watch self.old)) }
        ensures unarmed { OnErr result (watch self.new ≡ watch self.old) }
        ensures same { names self.new ≡ names self.old };
}
