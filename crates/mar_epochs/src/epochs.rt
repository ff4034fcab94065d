//! The epochs of a cache.
ghost use Rattle.std.specs.Prelude.{◌≡◌, ◌<◌, ℕ, Bool, Contains, IfErr, IfOk, List, MatchResult, Option, [], false, is_some, length, not, true, option_map};
ghost use Rattle.std.specs.Option.{option_copied};
ghost use Rattle.std.specs.List.{AllByRecursion};
ghost use Rattle.mar_store.specs.Lost.{wreck_of};
ghost use Rattle.mar_store.specs.Watch.{Follows};
ghost use Rattle.mar_model.specs.Sections.{first_found};
ghost use Rattle.mar_epochs.specs.EpochArchives.{IsOfMemory, is_kept, puts_of};
ghost use Rattle.mar_epochs.specs.EpochStates.{ChangesEpoch, DestroysOrNot, EpochStates, HasSome, IsBare, IsNestedEpoch, IsNewest, IsSettledEpoch, IsTicket, IsWholeEpoch, KeepsOtherEpochs, LosesEpoch, MightBe, OpensEpoch, SameEpochs, held_in, is_opened, left_of_epoch, none_gone};
ghost use Rattle.mar_epochs.specs.Failures.{CountsAt, CountsNames, CountsOthers, CountsRead, Failures};
ghost use Rattle.mar_epochs.specs.SmallStates.{AreSmallEpochs};
ghost use Rattle.mar_epochs.specs.Picks.{PicksEpoch, picks_by};

use crate::as_entry::AsEntry;
use crate::change::Change;
use mar_store::{Lost, Miss};
use std::alloc::Global;

/// What is left of the epochs of a cache.
pub trait EpochsRuin: Drop {
    // What may be left of the epochs after a crash.
    ghost left: { Self → List EpochStates };

    // How often what they stand on has failed.
    ghost failures: { Self → Failures };

    // It fails only where memory runs out.
    ghost calm: { Self → Bool };
}

/// The epochs of a cache: some are open, of others something is left.
pub trait Epochs: Drop {
    type Entry: AsEntry;

    type Wreck: EpochsRuin;

    // What there is of each epoch.
    ghost states: { Self → EpochStates };

    // Whether an epoch is listed: something stands under its name.
    ghost lists: { Self → ℕ → Bool };

    // How often what they stand on has failed.
    ghost failures: { Self → Failures };

    // It fails only where memory runs out.
    ghost calm: { Self → Bool };

    // How it goes by luck, where it does.
    ghost keeps: { Option Follows };

    // The numbers that the luck of its last reopening keeps, where it goes by luck.
    ghost picks: { Self → Option (ℕ → Bool) };

    /// Whether an epoch is open.
    fn is_open(&self, epoch: u64) -> bool
        ensures { result ≡ is_opened (states self.now epoch) };

    /// The entry that is looked for in an epoch, where that is open.
    fn find_in(&self, epoch: u64, wanted: &<Self::Entry as AsEntry>::Wanted) -> Option<&Self::Entry>
        ensures { option_map Self.Entry.plain (option_copied result) ≡ first_found (Self.Entry.wants wanted.now) (held_in (states self.now epoch)) };

    /// The entry that is looked for in the newest epoch that has it.
    fn find(&self, wanted: &<Self::Entry as AsEntry>::Wanted) -> Option<&Self::Entry>
        ensures { IsNewest (Self.Entry.wants wanted.now) (states self.now) (option_map Self.Entry.plain (option_copied result)) };

    /// The number of a sync of an epoch's archives that starts now.
    fn ticket(&self, epoch: u64) -> Option<u64>
        ensures { IsTicket (states self.now epoch) result };

    /// Opens an epoch that isn't open.
    fn open(self, epoch: u64) -> Result<Self, Lost<Self::Wreck>>
    where
        Self: Sized,
        requires shut { is_opened (states self epoch) ≡ false }
        ensures done { MatchResult result
            (λ s. OpensEpoch (states self epoch) (states s epoch) × KeepsOtherEpochs epoch (states self) (states s))
            (λ l. AllByRecursion (LosesEpoch epoch (states self epoch) [] none_gone (states self)) (Self.Wreck.left (wreck_of l))) }
        ensures picked { IfOk result (λ s. PicksEpoch (picks self) (states self epoch) (states s epoch) × (picks s ≡ picks self)) }
        ensures counts { CountsAt failures Self.Wreck.failures epoch ((failures self).archives epoch) (failures self) result }
        ensures calm { MatchResult result (λ s. calm s ≡ calm self) (λ l. Self.Wreck.calm (wreck_of l) ≡ calm self) }
        ensures memory { calm self ≡ true → IfErr result IsOfMemory };

    /// Changes an epoch, where it is open; where it isn't, nothing changes and nothing fails. Where all that a ticket covers is
    /// sure, finishing it changes nothing.
    fn change(self, epoch: u64, change: Change<Self::Entry>) -> Result<Self, Lost<Self::Wreck>>
    where
        Self: Sized,
        ensures done { MatchResult result
            (λ s. ChangesEpoch Self.Entry.plain change (states self epoch) (states s epoch) × KeepsOtherEpochs epoch (states self) (states s))
            (λ l. AllByRecursion (LosesEpoch epoch (states self epoch) (puts_of Self.Entry.plain change) (λ x. not (is_kept change x)) (states self))
            (Self.Wreck.left (wreck_of l))) }
        ensures shut { is_opened (states self epoch) ≡ false → IfErr result (λ l. ⊥) }
        ensures settled { IsSettledEpoch change (states self epoch) → IfOk result (λ s. states s epoch ≡ states self epoch) }
        ensures counts { CountsAt failures Self.Wreck.failures epoch ((failures self).archives epoch) (failures self) result }
        ensures calm { MatchResult result (λ s. calm s ≡ calm self) (λ l. Self.Wreck.calm (wreck_of l) ≡ calm self) }
        ensures memory { calm self ≡ true → IfErr result IsOfMemory };

    /// Nothing is left of an epoch.
    fn destroy(self, epoch: u64) -> Result<Self, Lost<Self::Wreck>>
    where
        Self: Sized,
        ensures done { MatchResult result
            (λ s. IsBare (states s epoch) × KeepsOtherEpochs epoch (states self) (states s))
            (λ l. AllByRecursion (DestroysOrNot epoch (states self)) (Self.Wreck.left (wreck_of l))) }
        ensures counts { CountsOthers failures Self.Wreck.failures epoch (failures self) result }
        ensures calm { MatchResult result (λ s. calm s ≡ calm self) (λ l. Self.Wreck.calm (wreck_of l) ≡ calm self) }
        ensures memory { calm self ≡ true → IfErr result IsOfMemory };

    /// The epochs that are listed, among them each of which something is open or left; some may stand there twice.
    fn list(&mut self) -> Result<Vec<u64>, Miss>
        ensures found { IfOk result (λ es. (k : ℕ) → HasSome (states self.old k) → Contains es.items k) }
        ensures only { IfOk result (λ es. (k : ℕ) → Contains es.items k → lists self.old k ≡ true) }
        ensures same { SameEpochs (states self.old) (states self.new) }
        ensures picks { picks self.new ≡ picks self.old }
        ensures counts { CountsRead (failures self.old) (failures self.new) result }
        ensures calm { calm self.new ≡ calm self.old }
        ensures memory { calm self.old ≡ true → IfErr result (λ m. m ≡ Miss.Memory) };

    /// What a crash now leaves.
    fn wreck(self) -> Self::Wreck
    where
        Self: Sized,
        ensures left { AllByRecursion (λ left. (k : ℕ) → left k ≡ left_of_epoch (states self k)) (Self.Wreck.left result) }
        ensures one { length (Self.Wreck.left result) ≡ 1 }
        ensures failures { Self.Wreck.failures result ≡ failures self }
        ensures calm { Self.Wreck.calm result ≡ calm self };

    /// Takes up what a crash left; no epoch is open. Luck picks among what may be left, now and where an epoch is opened.
    fn reopen(wreck: Self::Wreck, luck: u64) -> Result<Self, Lost<Self::Wreck>>
    where
        Self: Sized,
        ensures done { MatchResult result
            (λ s. MightBe (Self.Wreck.left wreck) (states s))
            (λ l. AllByRecursion (MightBe (Self.Wreck.left wreck)) (Self.Wreck.left (wreck_of l))) }
        ensures shut { IfOk result (λ s. (k : ℕ) → is_opened (states s k) ≡ false) }
        ensures picks { IfOk result (λ s. picks s ≡ picks_by keeps luck) }
        ensures counts { CountsNames failures Self.Wreck.failures (Self.Wreck.failures wreck) result }
        ensures calm { MatchResult result (λ s. calm s ≡ Self.Wreck.calm wreck) (λ l. Self.Wreck.calm (wreck_of l) ≡ Self.Wreck.calm wreck) }
        ensures memory { Self.Wreck.calm wreck ≡ true → IfErr result IsOfMemory };

    ghost nested: { (s : Self) (k : ℕ) → IsNestedEpoch (states s k) };

    ghost nested_left: { (w : Self.Wreck) (left : EpochStates) → Contains (Self.Wreck.left w) left → (k : ℕ) → IsNestedEpoch (left k) };

    ghost some_left: { (w : Self.Wreck) → 0 < length (Self.Wreck.left w) };

    ghost small: { (s : Self) → AreSmallEpochs (states s) };

    ghost small_left: { (w : Self.Wreck) (left : EpochStates) → Contains (Self.Wreck.left w) left → AreSmallEpochs left };

    // Where they go by luck, a crash can leave all that is held of an open epoch, in that order, and nothing else.
    ghost whole: { (s : Self) → is_some keeps ≡ true → (k : ℕ) → IsWholeEpoch (states s k) };

    ghost one_left: { (w : Self.Wreck) → is_some keeps ≡ true → length (Self.Wreck.left w) ≡ 1 };
}
