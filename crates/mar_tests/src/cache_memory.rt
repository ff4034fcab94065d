//! The calls over a cache in memory. What it is made of is put in step by step, since its type is made of many: to prove
//! that the whole of it is a cache at once costs too much.
use crate::cache_calls::answers;
use crate::light::{Plates, Vote};
use crate::tell::holds;
use mar_cache::{CacheEntry, EpochCache, Epochs, KeptEntry, KeyedEntry, MemEpochs, empty_shelf};
use mar_epochs::{DepotEpochs, EpochArchives, EpochArchivesDepot};
use mar_store::{MemMeta, Meta};
use std::alloc::Global;

fn of_cache<S: Epochs, M: Meta>(cache: EpochCache<S, M>) -> Option<bool>
where
    S::Entry: KeptEntry<Plates, Vote, Notarization = Vote>,
{
    answers(cache)
}

// The same of a cache over archives and a depot.
fn of_archives<A: EpochArchives, D: EpochArchivesDepot<A::Wreck>, M: Meta>(
    cache: EpochCache<DepotEpochs<A, D>, M>,
) -> Option<bool>
where
    A::Entry: KeptEntry<Plates, Vote, Notarization = Vote>,
{
    of_cache(cache)
}

// A new cache, whose long clauses stay here.
fn made<E: KeyedEntry>(alloc: Global) -> EpochCache<MemEpochs<E>, MemMeta> {
    empty_shelf(alloc)
}

fn of_entries<E: KeptEntry<Plates, Vote, Notarization = Vote> + KeyedEntry>(
    alloc: Global,
) -> Option<bool> {
    of_archives(made::<E>(alloc))
}

#[test]
fn a_cache_in_memory_answers(rt: HostRuntime) {
    let answers = of_entries::<CacheEntry<Plates, Vote, Vote>>(rt.alloc());
    holds(&rt, matches!(answers, Some(true)));
}
