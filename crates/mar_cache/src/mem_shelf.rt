//! A cache in memory.
ghost use Rattle.std.specs.Prelude.{◌&&◌, ◌≡◌, ℕ, [], Some, true};
ghost use Rattle.mar_store.specs.Alarms.{fresh_watch};
ghost use Rattle.mar_store.specs.Watch.{by_half};
ghost use Rattle.mar_epochs.specs.EpochStates.{IsBare, state_under};
ghost use Rattle.mar_cache.specs.AsOne.{kept_of};
ghost use Rattle.mar_cache.specs.Bounds.{bounds_of};
ghost use Rattle.mar_cache.specs.Shelved.{shelf_watch};
ghost use Rattle.mar_cache.specs.Stages.{is_loaded};

use crate::epoch_cache::EpochCache;
use crate::manager::Manager;
use mar_epochs::{
    DepotEpochs, EpochArchives, EpochArchivesDepot, Epochs, KeyedEntry, MemEpochArchives,
    MemEpochArchivesWreck,
};
use mar_store::{LuckHalf, MemDepot, MemMeta, Meta};
use std::alloc::Global;

/// The epochs of a cache in memory.
pub type MemEpochs<E> = DepotEpochs<MemEpochArchives<E>, MemDepot<MemEpochArchivesWreck<E>>>;

/// A cache in memory that holds nothing; its lowest and its highest epoch are 0.
pub fn empty_shelf<E: KeyedEntry>(alloc: Global) -> EpochCache<MemEpochs<E>, MemMeta>
    ensures bare { (k : ℕ) → IsBare (⟦<DepotEpochs<MemEpochArchives<E>, MemDepot<MemEpochArchivesWreck<E>>> as Epochs>⟧.states result.manager.epochs k) }
    ensures kept { kept_of (⟦<DepotEpochs<MemEpochArchives<E>, MemDepot<MemEpochArchivesWreck<E>>> as Epochs>⟧.states result.manager.epochs)
        (bounds_of (⟦<MemMeta as Meta>⟧.current result.manager.meta)).highest ≡ record { held = []; sure = []; may = [] } }
    ensures lowest { (bounds_of (⟦<MemMeta as Meta>⟧.current result.manager.meta)).lowest ≡ 0 }
    ensures loaded { is_loaded result.stage ≡ true }
    ensures watch { shelf_watch ⟦<DepotEpochs<MemEpochArchives<E>, MemDepot<MemEpochArchivesWreck<E>>> as Epochs>⟧.keeps result.manager.alarm
        (⟦<DepotEpochs<MemEpochArchives<E>, MemDepot<MemEpochArchivesWreck<E>>> as Epochs>⟧.calm result.manager.epochs
        && (⟦<MemMeta as Meta>⟧.watch result.manager.meta).only_armed) ≡ fresh_watch (Some (by_half LuckHalf.Low)) }
{
    let depot = MemDepot::new(alloc);
    shelf_over(alloc, depot)
}

// A cache whose bounds are kept in memory, over a depot that holds nothing and of which no call is armed.
fn shelf_over<A: EpochArchives, D: EpochArchivesDepot<A::Wreck>>(
    alloc: Global,
    depot: D,
) -> EpochCache<DepotEpochs<A, D>, MemMeta>
    requires quiet { (D.watch depot).due ≡ [] }
    requires calm { (A.unfailing && (D.watch depot).only_armed) ≡ true }
    requires bare { (k : ℕ) → IsBare (state_under A.Wreck.left (D.names depot k)) }
    ensures bare { (k : ℕ) → IsBare (⟦<DepotEpochs<A, D> as Epochs>⟧.states result.manager.epochs k) }
    ensures kept { kept_of (⟦<DepotEpochs<A, D> as Epochs>⟧.states result.manager.epochs)
        (bounds_of (⟦<MemMeta as Meta>⟧.current result.manager.meta)).highest ≡ record { held = []; sure = []; may = [] } }
    ensures lowest { (bounds_of (⟦<MemMeta as Meta>⟧.current result.manager.meta)).lowest ≡ 0 }
    ensures loaded { is_loaded result.stage ≡ true }
    ensures watch { shelf_watch ⟦<DepotEpochs<A, D> as Epochs>⟧.keeps result.manager.alarm (⟦<DepotEpochs<A, D> as Epochs>⟧.calm result.manager.epochs
        && (⟦<MemMeta as Meta>⟧.watch result.manager.meta).only_armed) ≡ fresh_watch ⟦<DepotEpochs<A, D> as Epochs>⟧.keeps }
{
    let epochs = DepotEpochs::new(alloc, depot);
    let meta = MemMeta::new(alloc);
    let manager = Manager::new(alloc, epochs, meta);
    EpochCache::new(manager)
}
