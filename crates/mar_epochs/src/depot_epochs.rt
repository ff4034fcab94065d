//! The epochs of a cache over a depot.
ghost use Rattle.std.specs.Prelude.{◌≡◌, ◌<◌, ◌==◌, ◌&&◌, ℕ, [], None, Option, Some, IfErr, IfOk, MatchOption, MatchResult, false, if◌then◌else◌, is_some, map, not, option_map, true};
ghost use Rattle.std.specs.Option.{option_copied};
ghost use Rattle.std.specs.List.{AllByRecursion};
ghost use Rattle.std.specs.Ordering.{nat_cmp};
ghost use Rattle.std.specs.BTreeMap.{get};
ghost use Rattle.mar_store.specs.Lost.{wreck_of};
ghost use Rattle.mar_model.specs.Sections.{first_found};
ghost use Rattle.mar_epochs.specs.EpochArchives.{IsOfMemory, is_kept, puts_of};
ghost use Rattle.mar_epochs.specs.EpochStates.{ChangesEpoch, IsSettledEpoch, KeepsOtherEpochs, LosesEpoch, OpensEpoch, PutsBack, held_in, is_opened, is_there, is_upto, left_of_epoch, nested_states, nested_ways, newer_of, none_gone, opened, shut, some_ways, state_of_slot, state_under, states_of, whole_states};
ghost use Rattle.mar_epochs.specs.Failures.{CountsAt, PutsCounts, count_under, failures_of, first_way};
ghost use Rattle.mar_epochs.specs.SmallStates.{small_states, small_ways};
ghost use Rattle.mar_epochs.specs.Picks.{PicksEpoch, follows_if, goes_below, one_certain, picks_by};

use crate::as_entry::AsEntry;
use crate::change::Change;
use crate::epoch_archives::{EpochArchives, EpochArchivesDepot};
use crate::epochs::{Epochs, EpochsRuin};
use crate::losses::{lost_by, parts_of};
use crate::slot::Slot;
use crate::slots::exchange;
use mar_store::{Depot, Lost, Miss};
use std::alloc::Global;
use std::collections::BTreeMap;

/// Epochs over a depot. What that handed out stays here until its name is destroyed. The archives of an epoch are open in
/// the opening that opened them; a later one takes them as what is left of them.
#[derive(Drop)]
pub struct DepotEpochs<A: EpochArchives, D: EpochArchivesDepot<A::Wreck>> {
    depot: D,
    slots: BTreeMap<u64, Slot<A, A::Wreck>>,
    opening: u64,
    luck: u64,
    alloc: Global,
    pub ghost upto: { (k : ℕ) → is_upto opening (get nat_cmp slots k) ≡ true },
    pub ghost quiet: { (D.watch depot).due ≡ [] },
}

/// What is left of them.
#[derive(Drop)]
pub struct DepotEpochsWreck<A: EpochArchives, D: EpochArchivesDepot<A::Wreck>> {
    depot: D::Wreck,
    slots: BTreeMap<u64, Slot<A, A::Wreck>>,
    opening: u64,
    alloc: Global,
    pub ghost upto: { (k : ℕ) → is_upto opening (get nat_cmp slots k) ≡ true },
    pub ghost quiet: { (D.Wreck.watch depot).due ≡ [] },
}

impl<A: EpochArchives, D: EpochArchivesDepot<A::Wreck>> EpochsRuin for DepotEpochsWreck<A, D> {
    ghost left = { λ w. map (λ names k. left_of_epoch (states_of A.book A.Wreck.left w.opening w.slots names k)) (D.Wreck.left w.depot) };

    ghost failures = { λ w. failures_of A.faults A.Wreck.faults (D.Wreck.watch w.depot).faults w.slots (first_way (D.Wreck.left w.depot)) };

    ghost calm = { λ w. A.unfailing && (D.Wreck.watch w.depot).only_armed };
}

impl<A: EpochArchives, D: EpochArchivesDepot<A::Wreck>> DepotEpochs<A, D> {
    /// The epochs over a depot, of which no call is armed.
    pub fn new(alloc: Global, depot: D) -> Self
        requires quiet { (D.watch depot).due ≡ [] }
        ensures states { (k : ℕ) → ⟦<DepotEpochs<A, D> as Epochs>⟧.states result k ≡ state_under A.Wreck.left (D.names depot k) }
        ensures calm { ⟦<DepotEpochs<A, D> as Epochs>⟧.calm result ≡ (A.unfailing && (D.watch depot).only_armed) }
    {
        DepotEpochs {
            depot,
            slots: BTreeMap::new(alloc),
            opening: 0,
            luck: 0,
            alloc,
        }
    }
}

impl<A: EpochArchives, D: EpochArchivesDepot<A::Wreck>> DepotEpochs<A, D> {
    // Puts a slot in the place of an epoch's, where it has one, and gives that.
    fn exchange(self, epoch: u64, slot: Slot<A, A::Wreck>) -> (Self, Option<Slot<A, A::Wreck>>)
        requires upto { is_upto self.opening (Some slot) ≡ true }
        ensures taken { result.1 ≡ get nat_cmp self.slots epoch }
        ensures slots { (k : ℕ) → get nat_cmp result.0.slots k
            ≡ (if k == epoch then option_map (λ _. slot) (get nat_cmp self.slots k) else get nat_cmp self.slots k) }
        ensures depot { result.0.depot ≡ self.depot }
        ensures opening { result.0.opening ≡ self.opening }
        ensures luck { result.0.luck ≡ self.luck }
    {
        let DepotEpochs {
            depot,
            mut slots,
            opening,
            luck,
            alloc,
        } = self;
        let taken = exchange(&mut slots, epoch, slot);
        let epochs = DepotEpochs {
            depot,
            slots,
            opening,
            luck,
            alloc,
        };
        (epochs, taken)
    }

    // The archives of an epoch that is open.
    fn archives(&self, epoch: u64) -> Option<&A>
        ensures { MatchOption (option_copied result) (is_opened (⟦<DepotEpochs<A, D> as Epochs>⟧.states self.now epoch) ≡ false)
            (λ v. ⟦<DepotEpochs<A, D> as Epochs>⟧.states self.now epoch ≡ opened (A.book v)) }
    {
        match self.slots.get(&epoch) {
            Some(slot) => archives_of(slot, self.opening),
            None => None,
        }
    }

    // The newest epoch that has what is looked for.
    fn newest_with(&self, wanted: &<A::Entry as AsEntry>::Wanted) -> Option<u64>
        ensures { MatchOption result
            ((k : ℕ) → is_some (first_found (A.Entry.wants wanted.now) (held_in (⟦<DepotEpochs<A, D> as Epochs>⟧.states self.now k))) ≡ false)
            (λ e. (is_some (first_found (A.Entry.wants wanted.now) (held_in (⟦<DepotEpochs<A, D> as Epochs>⟧.states self.now e))) ≡ true)
            × ((k : ℕ) → e < k → is_some (first_found (A.Entry.wants wanted.now) (held_in (⟦<DepotEpochs<A, D> as Epochs>⟧.states self.now k))) ≡ false)) }
    {
        let mut newest = None;
        for epoch in self.slots.keys() {
            let has = self.find_in(*epoch, wanted).is_some();
            newest = newer_of(*epoch, has, newest);
        }
        newest
    }

    // Puts archives back as a call of them answered, or what is left of them. The epoch has a slot.
    fn put_back(
        self,
        epoch: u64,
        answer: Result<A, Lost<A::Wreck>>,
    ) -> Result<Self, Lost<DepotEpochsWreck<A, D>>>
        requires there { is_some (get nat_cmp self.slots epoch) ≡ true }
        ensures done { PutsBack A.book A.Wreck.left ⟦<DepotEpochs<A, D> as Epochs>⟧.states ⟦<DepotEpochsWreck<A, D> as EpochsRuin>⟧.left epoch
            (⟦<DepotEpochs<A, D> as Epochs>⟧.states self) answer result }
        ensures counts { PutsCounts A.faults A.Wreck.faults ⟦<DepotEpochs<A, D> as Epochs>⟧.failures ⟦<DepotEpochsWreck<A, D> as EpochsRuin>⟧.failures epoch
            (⟦<DepotEpochs<A, D> as Epochs>⟧.failures self) answer result }
        ensures calm { MatchResult result
            (λ s. ⟦<DepotEpochs<A, D> as Epochs>⟧.calm s ≡ ⟦<DepotEpochs<A, D> as Epochs>⟧.calm self)
            (λ l. ⟦<DepotEpochsWreck<A, D> as EpochsRuin>⟧.calm (wreck_of l) ≡ ⟦<DepotEpochs<A, D> as Epochs>⟧.calm self) }
        ensures luck { IfOk result (λ s. s.luck ≡ self.luck) }
    {
        match answer {
            Ok(archives) => {
                let slot = Slot::Standing(archives, self.opening);
                let (epochs, _) = self.exchange(epoch, slot);
                Ok(epochs)
            }
            Err(lost) => {
                let (failed, left) = parts_of(lost);
                let (epochs, _) = self.exchange(epoch, Slot::Leftover(left));
                Err(lost_by(failed, epochs.wreck()))
            }
        }
    }

    // Opens the archives of which this is left. The epoch has a slot.
    fn open_ruin(self, epoch: u64, ruin: A::Wreck) -> Result<Self, Lost<DepotEpochsWreck<A, D>>>
        requires there { is_some (get nat_cmp self.slots epoch) ≡ true }
        ensures done { MatchResult result
            (λ s. OpensEpoch (shut (A.Wreck.left ruin)) (⟦<DepotEpochs<A, D> as Epochs>⟧.states s epoch)
            × KeepsOtherEpochs epoch (⟦<DepotEpochs<A, D> as Epochs>⟧.states self) (⟦<DepotEpochs<A, D> as Epochs>⟧.states s))
            (λ l. AllByRecursion (LosesEpoch epoch (shut (A.Wreck.left ruin)) [] none_gone (⟦<DepotEpochs<A, D> as Epochs>⟧.states self))
            (⟦<DepotEpochsWreck<A, D> as EpochsRuin>⟧.left (wreck_of l))) }
        ensures picked { IfOk result (λ s. PicksEpoch (⟦<DepotEpochs<A, D> as Epochs>⟧.picks self) (shut (A.Wreck.left ruin))
            (⟦<DepotEpochs<A, D> as Epochs>⟧.states s epoch) × (s.luck ≡ self.luck)) }
        ensures counts { CountsAt ⟦<DepotEpochs<A, D> as Epochs>⟧.failures ⟦<DepotEpochsWreck<A, D> as EpochsRuin>⟧.failures epoch (A.Wreck.faults ruin)
            (⟦<DepotEpochs<A, D> as Epochs>⟧.failures self) result }
        ensures calm { MatchResult result
            (λ s. ⟦<DepotEpochs<A, D> as Epochs>⟧.calm s ≡ ⟦<DepotEpochs<A, D> as Epochs>⟧.calm self)
            (λ l. ⟦<DepotEpochsWreck<A, D> as EpochsRuin>⟧.calm (wreck_of l) ≡ ⟦<DepotEpochs<A, D> as Epochs>⟧.calm self) }
        ensures memory { ⟦<DepotEpochs<A, D> as Epochs>⟧.calm self ≡ true → IfErr result IsOfMemory }
    {
        let answer = A::reopen(ruin, self.luck);
        self.put_back(epoch, answer)
    }

    // Opens what the depot has of an epoch, whose archives are away.
    fn open_name(self, epoch: u64) -> Result<Self, Lost<DepotEpochsWreck<A, D>>>
        requires there { is_some (get nat_cmp self.slots epoch) ≡ true }
        ensures done { MatchResult result
            (λ s. OpensEpoch (state_under A.Wreck.left (D.names self.depot epoch)) (⟦<DepotEpochs<A, D> as Epochs>⟧.states s epoch)
            × KeepsOtherEpochs epoch (⟦<DepotEpochs<A, D> as Epochs>⟧.states self) (⟦<DepotEpochs<A, D> as Epochs>⟧.states s))
            (λ l. AllByRecursion (LosesEpoch epoch (state_under A.Wreck.left (D.names self.depot epoch)) [] none_gone
            (⟦<DepotEpochs<A, D> as Epochs>⟧.states self)) (⟦<DepotEpochsWreck<A, D> as EpochsRuin>⟧.left (wreck_of l))) }
        ensures picked { IfOk result (λ s. PicksEpoch (⟦<DepotEpochs<A, D> as Epochs>⟧.picks self) (state_under A.Wreck.left (D.names self.depot epoch))
            (⟦<DepotEpochs<A, D> as Epochs>⟧.states s epoch) × (s.luck ≡ self.luck)) }
        ensures counts { CountsAt ⟦<DepotEpochs<A, D> as Epochs>⟧.failures ⟦<DepotEpochsWreck<A, D> as EpochsRuin>⟧.failures epoch
            (count_under A.Wreck.faults (D.names self.depot epoch)) (⟦<DepotEpochs<A, D> as Epochs>⟧.failures self) result }
        ensures calm { MatchResult result
            (λ s. ⟦<DepotEpochs<A, D> as Epochs>⟧.calm s ≡ ⟦<DepotEpochs<A, D> as Epochs>⟧.calm self)
            (λ l. ⟦<DepotEpochsWreck<A, D> as EpochsRuin>⟧.calm (wreck_of l) ≡ ⟦<DepotEpochs<A, D> as Epochs>⟧.calm self) }
        ensures memory { ⟦<DepotEpochs<A, D> as Epochs>⟧.calm self ≡ true → IfErr result IsOfMemory }
    {
        let DepotEpochs {
            depot,
            mut slots,
            opening,
            luck,
            alloc,
        } = self;
        match depot.open(epoch) {
            Ok((depot, ruin)) => {
                let epochs = DepotEpochs {
                    depot,
                    slots,
                    opening,
                    luck,
                    alloc,
                };
                epochs.open_ruin(epoch, ruin)
            }
            Err(lost) => {
                let _ = slots.remove(&epoch);
                let (failed, depot) = parts_of(lost);
                let wreck = DepotEpochsWreck {
                    depot,
                    slots,
                    opening,
                    alloc,
                };
                Err(lost_by(failed, wreck))
            }
        }
    }

    // Opens an epoch that has no slot.
    fn open_anew(self, epoch: u64) -> Result<Self, Lost<DepotEpochsWreck<A, D>>>
        requires none { get nat_cmp self.slots epoch ≡ None }
        ensures done { MatchResult result
            (λ s. OpensEpoch (state_under A.Wreck.left (D.names self.depot epoch)) (⟦<DepotEpochs<A, D> as Epochs>⟧.states s epoch)
            × KeepsOtherEpochs epoch (⟦<DepotEpochs<A, D> as Epochs>⟧.states self) (⟦<DepotEpochs<A, D> as Epochs>⟧.states s))
            (λ l. AllByRecursion (LosesEpoch epoch (state_under A.Wreck.left (D.names self.depot epoch)) [] none_gone
            (⟦<DepotEpochs<A, D> as Epochs>⟧.states self)) (⟦<DepotEpochsWreck<A, D> as EpochsRuin>⟧.left (wreck_of l))) }
        ensures picked { IfOk result (λ s. PicksEpoch (⟦<DepotEpochs<A, D> as Epochs>⟧.picks self) (state_under A.Wreck.left (D.names self.depot epoch))
            (⟦<DepotEpochs<A, D> as Epochs>⟧.states s epoch) × (s.luck ≡ self.luck)) }
        ensures counts { CountsAt ⟦<DepotEpochs<A, D> as Epochs>⟧.failures ⟦<DepotEpochsWreck<A, D> as EpochsRuin>⟧.failures epoch
            (count_under A.Wreck.faults (D.names self.depot epoch)) (⟦<DepotEpochs<A, D> as Epochs>⟧.failures self) result }
        ensures calm { MatchResult result
            (λ s. ⟦<DepotEpochs<A, D> as Epochs>⟧.calm s ≡ ⟦<DepotEpochs<A, D> as Epochs>⟧.calm self)
            (λ l. ⟦<DepotEpochsWreck<A, D> as EpochsRuin>⟧.calm (wreck_of l) ≡ ⟦<DepotEpochs<A, D> as Epochs>⟧.calm self) }
        ensures memory { ⟦<DepotEpochs<A, D> as Epochs>⟧.calm self ≡ true → IfErr result IsOfMemory }
    {
        let DepotEpochs {
            depot,
            mut slots,
            opening,
            luck,
            alloc,
        } = self;
        match slots.insert(epoch, Slot::Away) {
            Ok(_) => {
                let epochs = DepotEpochs {
                    depot,
                    slots,
                    opening,
                    luck,
                    alloc,
                };
                epochs.open_name(epoch)
            }
            Err(_) => {
                let epochs = DepotEpochs {
                    depot,
                    slots,
                    opening,
                    luck,
                    alloc,
                };
                Err(Lost::Memory(epochs.wreck()))
            }
        }
    }
}

impl<A: EpochArchives, D: EpochArchivesDepot<A::Wreck>> Epochs for DepotEpochs<A, D> {
    type Entry = A::Entry;

    type Wreck = DepotEpochsWreck<A, D>;

    ghost states = { λ s. states_of A.book A.Wreck.left s.opening s.slots (D.names s.depot) };

    ghost lists = { λ s. is_there s.slots (D.names s.depot) };

    ghost failures = { λ s. failures_of A.faults A.Wreck.faults (D.watch s.depot).faults s.slots (D.names s.depot) };

    ghost calm = { λ s. A.unfailing && (D.watch s.depot).only_armed };

    ghost keeps = { follows_if D.is_certain A.keeps };

    ghost picks = { λ s. picks_by (follows_if D.is_certain A.keeps) s.luck };

    ghost nested = { λ s. nested_states A.book A.Wreck.left A.nested A.nested_left s.opening s.slots (D.names s.depot) };

    ghost nested_left = { λ w. nested_ways A.book A.Wreck.left A.nested A.nested_left w.opening w.slots (D.Wreck.left w.depot) };

    ghost some_left = { λ w. some_ways (λ names k. left_of_epoch (states_of A.book A.Wreck.left w.opening w.slots names k)) (D.Wreck.left w.depot)
        (D.Wreck.some w.depot) };

    ghost small = { λ s. small_states A.book A.Wreck.left A.small A.small_left s.opening s.slots (D.names s.depot) };

    ghost small_left = { λ w. small_ways A.book A.Wreck.left A.small A.small_left w.opening w.slots (D.Wreck.left w.depot) };

    ghost whole = { λ s goes. whole_states A.book A.Wreck.left (λ v. A.whole v (goes_below D.is_certain A.keeps goes)) s.opening s.slots (D.names s.depot) };

    ghost one_left = { λ w. one_certain (λ names k. left_of_epoch (states_of A.book A.Wreck.left w.opening w.slots names k)) (D.Wreck.left w.depot)
        D.is_certain A.keeps (D.one_way w.depot) };

    fn is_open(&self, epoch: u64) -> bool {
        self.archives(epoch).is_some()
    }

    fn find_in(&self, epoch: u64, wanted: &<A::Entry as AsEntry>::Wanted) -> Option<&A::Entry> {
        match self.archives(epoch) {
            Some(archives) => archives.find(wanted),
            None => None,
        }
    }

    fn find(&self, wanted: &<A::Entry as AsEntry>::Wanted) -> Option<&A::Entry> {
        match self.newest_with(wanted) {
            Some(epoch) => self.find_in(epoch, wanted),
            None => None,
        }
    }

    fn ticket(&self, epoch: u64) -> Option<u64> {
        match self.archives(epoch) {
            Some(archives) => Some(archives.ticket()),
            None => None,
        }
    }

    fn open(self, epoch: u64) -> Result<Self, Lost<DepotEpochsWreck<A, D>>> {
        let (epochs, slot) = self.exchange(epoch, Slot::Away);
        match slot {
            None => epochs.open_anew(epoch),
            Some(Slot::Away) => epochs.open_name(epoch),
            Some(Slot::Leftover(ruin)) => epochs.open_ruin(epoch, ruin),
            Some(Slot::Standing(archives, _)) => epochs.open_ruin(epoch, archives.wreck()),
        }
    }

    fn change(
        self,
        epoch: u64,
        change: Change<A::Entry>,
    ) -> Result<Self, Lost<DepotEpochsWreck<A, D>>>
        ensures done { MatchResult result
            (λ s. ChangesEpoch A.Entry.plain change (⟦<DepotEpochs<A, D> as Epochs>⟧.states self epoch) (⟦<DepotEpochs<A, D> as Epochs>⟧.states s epoch)
            × KeepsOtherEpochs epoch (⟦<DepotEpochs<A, D> as Epochs>⟧.states self) (⟦<DepotEpochs<A, D> as Epochs>⟧.states s))
            (λ l. AllByRecursion (LosesEpoch epoch (⟦<DepotEpochs<A, D> as Epochs>⟧.states self epoch) (puts_of A.Entry.plain change)
            (λ x. not (is_kept change x)) (⟦<DepotEpochs<A, D> as Epochs>⟧.states self)) (⟦<DepotEpochsWreck<A, D> as EpochsRuin>⟧.left (wreck_of l))) }
        ensures shut { is_opened (⟦<DepotEpochs<A, D> as Epochs>⟧.states self epoch) ≡ false → IfErr result (λ l. ⊥) }
        ensures settled { IsSettledEpoch change (⟦<DepotEpochs<A, D> as Epochs>⟧.states self epoch)
            → IfOk result (λ s. ⟦<DepotEpochs<A, D> as Epochs>⟧.states s epoch ≡ ⟦<DepotEpochs<A, D> as Epochs>⟧.states self epoch) }
        ensures counts { CountsAt ⟦<DepotEpochs<A, D> as Epochs>⟧.failures ⟦<DepotEpochsWreck<A, D> as EpochsRuin>⟧.failures epoch
            ((⟦<DepotEpochs<A, D> as Epochs>⟧.failures self).archives epoch) (⟦<DepotEpochs<A, D> as Epochs>⟧.failures self) result }
        ensures calm { MatchResult result
            (λ s. ⟦<DepotEpochs<A, D> as Epochs>⟧.calm s ≡ ⟦<DepotEpochs<A, D> as Epochs>⟧.calm self)
            (λ l. ⟦<DepotEpochsWreck<A, D> as EpochsRuin>⟧.calm (wreck_of l) ≡ ⟦<DepotEpochs<A, D> as Epochs>⟧.calm self) }
        ensures memory { ⟦<DepotEpochs<A, D> as Epochs>⟧.calm self ≡ true → IfErr result IsOfMemory }
    {
        let (epochs, slot) = self.exchange(epoch, Slot::Away);
        match slot {
            None => Ok(epochs),
            Some(Slot::Standing(archives, opening)) if opening == epochs.opening => {
                let answer = archives.change(change);
                epochs.put_back(epoch, answer)
            }
            Some(slot) => {
                let (epochs, _) = epochs.exchange(epoch, slot);
                Ok(epochs)
            }
        }
    }

    fn destroy(self, epoch: u64) -> Result<Self, Lost<DepotEpochsWreck<A, D>>> {
        let DepotEpochs {
            depot,
            mut slots,
            opening,
            luck,
            alloc,
        } = self;
        match depot.destroy(epoch) {
            Ok(depot) => {
                let _ = slots.remove(&epoch);
                Ok(DepotEpochs {
                    depot,
                    slots,
                    opening,
                    luck,
                    alloc,
                })
            }
            Err(lost) => {
                let (failed, depot) = parts_of(lost);
                let wreck = DepotEpochsWreck {
                    depot,
                    slots,
                    opening,
                    alloc,
                };
                Err(lost_by(failed, wreck))
            }
        }
    }

    fn list(&mut self) -> Result<Vec<u64>, Miss> {
        let mut listed = self.depot.list()?;
        for epoch in self.slots.keys() {
            if listed.push(*epoch).is_err() {
                return Err(Miss::Memory);
            }
        }
        Ok(listed)
    }

    fn wreck(self) -> DepotEpochsWreck<A, D> {
        DepotEpochsWreck {
            depot: self.depot.wreck(),
            slots: self.slots,
            opening: self.opening,
            alloc: self.alloc,
        }
    }

    fn reopen(
        wreck: DepotEpochsWreck<A, D>,
        luck: u64,
    ) -> Result<Self, Lost<DepotEpochsWreck<A, D>>> {
        let DepotEpochsWreck {
            depot,
            slots,
            opening,
            alloc,
        } = wreck;
        if opening == u64::MAX {
            return Err(Lost::Memory(DepotEpochsWreck {
                depot,
                slots,
                opening,
                alloc,
            }));
        }
        match D::reopen(depot, luck) {
            Ok(depot) => Ok(DepotEpochs {
                depot,
                slots,
                opening: opening + 1,
                luck,
                alloc,
            }),
            Err(lost) => {
                let (failed, depot) = parts_of(lost);
                let wreck = DepotEpochsWreck {
                    depot,
                    slots,
                    opening,
                    alloc,
                };
                Err(lost_by(failed, wreck))
            }
        }
    }
}

// The archives of a slot that the opening that goes on opened.
fn archives_of<A: EpochArchives>(slot: &Slot<A, A::Wreck>, opening: u64) -> Option<&A>
    ensures { (name : Option A.Wreck) → MatchOption (option_copied result) (is_opened (state_of_slot A.book A.Wreck.left opening name slot.now) ≡ false)
        (λ v. state_of_slot A.book A.Wreck.left opening name slot.now ≡ opened (A.book v)) }
{
    match slot {
        Slot::Standing(archives, own) => {
            if *own == opening {
                Some(archives)
            } else {
                None
            }
        }
        Slot::Leftover(_) => None,
        Slot::Away => None,
    }
}

// An epoch, where it has what is looked for and is newer than another, else that.
const fn newer_of(epoch: u64, has: bool, other: Option<u64>) -> Option<u64>
    ensures { result ≡ newer_of epoch has other }
{
    match other {
        _ if !has => other,
        Some(newer) if newer >= epoch => other,
        _ => Some(epoch),
    }
}
