//! The calls of any cache that no program makes, each with ample memory, and what a luck keeps. No function here has a clause,
//! and each makes few calls, so that what calls it has nothing to carry. Those that put nothing and look for nothing are of
//! any `Cache`, which knows no kind of blocks. Where a call has no answer the cache is gone.
use crate::cache_in_place::is_gone_once_lost;
use crate::light::{Plates, Vote, plate_at, vote_over};
use crate::tell::round;
use mar_cache::{Cache, Shelf, Sought, Started};
use mar_life::CacheInPlace;
use mar_types::{Epoch, Hasher, Height, Round, Sha256};

// Puts what isn't sure: a verified block at height 1, a notarization of view 2, and a notarized block at height 3.
fn put<C: Shelf<Plates, Vote, Notarization = Vote>>(cache: C) -> Option<C> {
    let (cache, _) = cache.put_verified(round(0, 1), plate_at(1)).ok()?;
    let (cache, _) = cache.put_notarization(vote_over(round(0, 2), 2)).ok()?;
    let (cache, _) = cache.put_notarized(round(0, 3), plate_at(3)).ok()?;
    Some(cache)
}

// Makes sure the verified blocks and the notarizations, as one.
fn synced<C: Cache>(cache: C) -> Option<C> {
    let (cache, first) = cache.start_sync_verified(Epoch::zero()).ok()?;
    let (cache, other) = cache.start_sync_notarizations(Epoch::zero()).ok()?;
    match (first, other) {
        (Started::Ticket(first), Started::Ticket(other))
            if first.epoch == other.epoch && first.second.is_none() => cache
            .finish(first.join(other))
            .ok(),
        _ => None,
    }
}

// Puts what is sure at once: a certified block at height 4, and a finalization of view 5.
fn put_sure<C: Shelf<Plates, Vote, Notarization = Vote>>(cache: C) -> Option<C> {
    let cache = cache.put_certified(Epoch::zero(), plate_at(4)).ok()?;
    cache.put_finalization(vote_over(round(0, 5), 5)).ok()
}

// So many verified blocks of the next epoch aren't sure.
const UNSURE: u8 = 34;

fn put_many<C: Shelf<Plates, Vote, Notarization = Vote>>(cache: C) -> Option<C> {
    let mut cache = cache;
    for view in 0..UNSURE {
        let (next, _) = cache
            .put_verified(round(1, u64::from(view)), plate_at(view))
            .ok()?;
        cache = next;
    }
    Some(cache)
}

// Of the entries of an archive that aren't sure, a luck keeps the one of number k just where its bit k mod 32 is set.
const LUCK: u64 = 0xFFFF_FFFE_8000_0005;

// What a crash leaves by that luck, with all epochs open.
fn reopened<C: Cache>(cache: C) -> Option<C> {
    let cache = C::reopen(cache.wreck(), LUCK).ok()?;
    cache.load_persisted_epochs().ok()
}

// Whether the block of a height was verified in a round.
fn has_verified<C: Shelf<Plates, Vote, Notarization = Vote>>(
    cache: &mut C,
    at: Round,
    height: u8,
) -> bool {
    matches!(cache.has_verified(at, Sha256::fill(height)), Ok(true))
}

fn keeps_by_its_bits<C: Shelf<Plates, Vote, Notarization = Vote>>(cache: &mut C) -> bool {
    let mut is_so = true;
    for view in 0..UNSURE {
        let is_kept = LUCK >> (view % 32) & 1 == 1;
        let is_there = has_verified(cache, round(1, u64::from(view)), view);
        is_so = is_so & (is_there == is_kept);
    }
    is_so
}

// Whether there is a block of that height.
fn has<C: Shelf<Plates, Vote, Notarization = Vote>>(cache: &mut C, height: u8) -> bool {
    let sought = Sought::CommittedTo(Sha256::fill(height));
    matches!(cache.search(sought), Ok(Some(_)))
}

// Whether what is sure is found, and the one notarized block, whose number is 0.
fn finds<C: Shelf<Plates, Vote, Notarization = Vote>>(cache: &mut C) -> bool {
    let notarized = matches!(cache.get_notarization(round(0, 2)), Ok(Some(_)));
    let is_final = matches!(cache.get_finalization_for(Sha256::fill(5)), Ok(Some(_)));
    notarized & is_final & has(cache, 1) & has(cache, 3) & has(cache, 4)
}

// Without the certified blocks below height 5, and without the first epoch.
fn pruned<C: Cache>(cache: C) -> Option<C> {
    let cache = cache.prune_by_height(Height::new(5)).ok()?;
    cache.prune_by_view(round(1, 0)).ok()
}

/// Whether a cache that holds nothing answers as it is to.
pub(crate) fn answers<C: Shelf<Plates, Vote, Notarization = Vote>>(cache: C) -> Option<bool> {
    let cache = put_many(put_sure(synced(put(cache)?)?)?)?;
    let mut cache = reopened(cache)?;
    let are_found = finds(&mut cache) & keeps_by_its_bits(&mut cache);
    let mut cache = pruned(cache)?;
    let is_left = has(&mut cache, 1) | has(&mut cache, 4);
    Some(are_found & !is_left & is_gone_once_lost(CacheInPlace::new(cache)))
}
