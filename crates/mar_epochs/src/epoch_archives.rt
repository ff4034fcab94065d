//! The archives that a cache keeps of an epoch, as one store.
ghost use Rattle.std.specs.Prelude.{◌≡◌, ◌≤◌, ℕ, Bool, Option, true, IsTrue, List, filter, is_some, length, IfErr, IfOk, MatchResult, option_map};
ghost use Rattle.std.specs.Option.{option_copied};
ghost use Rattle.mar_store.specs.Changes.{Left, Within, left_of};
ghost use Rattle.mar_store.specs.Lost.{wreck_of};
ghost use Rattle.mar_store.specs.Watch.{Follows};
ghost use Rattle.mar_model.specs.Cached.{Cached};
ghost use Rattle.mar_model.specs.Sections.{first_found, is_in};
ghost use Rattle.mar_model.specs.SmallEntries.{AreSmallEntries};
ghost use Rattle.mar_epochs.specs.EpochArchives.{AreNestedArchives, Book, ChangesArchives, FindsArchives, IsOfMemory, IsSettled, KeepsArchives, LosesArchives, nothing_left};
ghost use Rattle.mar_epochs.specs.Failures.{CountsFaults};
ghost use Rattle.mar_epochs.specs.Picks.{PicksHeld, picks_by};

use crate::as_entry::AsEntry;
use crate::change::Change;
use mar_model::Section;
use mar_store::{Depot, Lost};

/// What is left of the archives of an epoch.
pub trait EpochArchivesRuin: Drop {
    // What every crash leaves, and all that a crash can leave.
    ghost left: { Self → Left Cached };

    // How often they have failed.
    ghost faults: { Self → ℕ };
}

/// The five archives of an epoch. Each keeps its entries by view or by height; verified and certified blocks several of
/// one, the others one of each. A put is held at once, and sure after the next sync of its archive. Each put has a number,
/// which tells which tickets cover it.
pub trait EpochArchives: Drop {
    type Entry: AsEntry;

    type Wreck: EpochArchivesRuin;

    // What it holds, what is sure, what a crash can leave, and what its tickets cover.
    ghost book: { Self → Book };

    // How often they have failed.
    ghost faults: { Self → ℕ };

    // A call fails only where memory runs out.
    ghost unfailing: { Bool };

    // How a reopening goes by luck, where it does.
    ghost keeps: { Option Follows };

    /// The entry that is looked for: that of the earliest archive, there the one at the lowest view or height, and of those
    /// the one put first.
    fn find(&self, wanted: &<Self::Entry as AsEntry>::Wanted) -> Option<&Self::Entry>
        ensures { option_map Self.Entry.plain (option_copied result) ≡ first_found (Self.Entry.wants wanted.now) (book self.now).kept.held };

    /// The number of a sync that starts now: it covers all that an archive holds.
    fn ticket(&self) -> u64
        ensures made { result ≤ (book self.now).number }
        ensures covered { (s : Section) → (book self.now).covers s result ≡ filter (is_in s) (book self.now).kept.held };

    /// Changes what is held or what is sure. A ticket of an earlier life is none. Where all that a ticket covers is sure,
    /// finishing it changes nothing.
    fn change(self, change: Change<Self::Entry>) -> Result<Self, Lost<Self::Wreck>>
    where
        Self: Sized,
        ensures done { MatchResult result
            (λ s. ChangesArchives Self.Entry.plain change (book self) (book s))
            (λ l. LosesArchives Self.Entry.plain change (book self).kept (Self.Wreck.left (wreck_of l))) }
        ensures settled { IsSettled change (book self) → IfOk result (λ s. book s ≡ book self) }
        ensures counts { CountsFaults faults Self.Wreck.faults (faults self) result }
        ensures unfailing { unfailing ≡ true → IfErr result IsOfMemory };

    /// What a crash now leaves.
    fn wreck(self) -> Self::Wreck
    where
        Self: Sized,
        ensures left { Self.Wreck.left result ≡ left_of (book self).kept }
        ensures count { Self.Wreck.faults result ≡ faults self };

    /// Opens what a crash left; luck picks among what may be left: of each archive the entries whose numbers it keeps.
    fn reopen(wreck: Self::Wreck, luck: u64) -> Result<Self, Lost<Self::Wreck>>
    where
        Self: Sized,
        ensures done { MatchResult result
            (λ s. FindsArchives (Self.Wreck.left wreck) (book s).kept)
            (λ l. KeepsArchives (Self.Wreck.left wreck) (Self.Wreck.left (wreck_of l))) }
        ensures picked { IfOk result (λ s. PicksHeld (picks_by keeps luck) (Self.Wreck.left wreck) (book s).kept.held) }
        ensures counts { CountsFaults faults Self.Wreck.faults (Self.Wreck.faults wreck) result }
        ensures unfailing { unfailing ≡ true → IfErr result IsOfMemory };

    ghost nested: { (s : Self) → AreNestedArchives (book s) };

    ghost nested_left: { (w : Self.Wreck) → Within (Self.Wreck.left w).sure (Self.Wreck.left w).may };

    ghost small: { (s : Self) → AreSmallEntries (book s).kept.may };

    // Where it goes by luck, a crash can leave all that is held, in the order of the puts, and nothing else.
    ghost whole: { (s : Self) → is_some keeps ≡ true → (book s).kept.may ≡ (book s).kept.held };

    ghost small_left: { (w : Self.Wreck) → AreSmallEntries (Self.Wreck.left w).may };
}

/// A depot of what is left of the archives of epochs, which tells what stands under its names: of an empty one nothing is
/// left.
pub trait EpochArchivesDepot<W: EpochArchivesRuin>: Depot<W> {
    // A crash leaves its names in one way.
    ghost is_certain: { Bool };

    ghost tells: { Self.told ≡ true };

    ghost empties: { (w : W) → IsTrue (Self.is_empty w) → W.left w ≡ nothing_left };

    ghost one_way: { (w : Self.Wreck) → is_certain ≡ true → length (Self.Wreck.left w) ≡ 1 };
}
