//! The stores of a node, put together: a cache, blocks and certificates in archives, and metadata; and the ledger's beside them. What is made of many types
//! is put in step by step, and is a type parameter from then on: a bound that such a type meets is proved anew in each
//! function that names it, and all of them at once are more than the check covers.
use crate::closed::Why;
use crate::life::Left;
use crate::lives::{Outcome, Told, lives};
use mar_actor::{Ruins, Stores};
use mar_block::StandardBlocks;
use mar_cache::{CacheEntry, EpochCache, Epochs, KeptEntry, KeyedEntry, Shelf, empty_shelf};
use mar_cert::CommitsTo;
use mar_life::{BlockItem, Blocks, CacheInPlace, CertificateItem, Certificates, LifeNotarizations};
use mar_shelf::immutable;
use mar_store::{Archive, LuckHalf, MemArchive, MemMeta, Meta};
use mar_types::Sha256Digest;
use std::alloc::Global;

/// What the lives come to, or why one ended.
type Ended = Result<Outcome, Why>;

/// Certificates in memory that are never pruned. Stores on a disk would stand here in a service of one's own.
type CertificateStore<F> = immutable::Archive<MemArchive<CertificateItem<StandardBlocks, F>>>;

/// Both lives over the library's stores in memory, whatever finalizations they keep. A notarization in the cache is of the
/// same type.
pub(crate) fn lived_in_memory<F: CommitsTo<Sha256Digest>>(alloc: Global, told: Told<F>) -> Ended {
    over_entries::<F, CacheEntry<StandardBlocks, F, F>>(alloc, told)
}

// The same over a cache in memory that keeps such entries.
fn over_entries<F: CommitsTo<Sha256Digest>, E: KeptEntry<StandardBlocks, F> + KeyedEntry>(
    alloc: Global,
    told: Told<F>,
) -> Ended {
    over_epochs(alloc, empty_shelf::<E>(alloc), told)
}

// The same over a cache of any epochs.
fn over_epochs<F: CommitsTo<Sha256Digest>, S: Epochs>(
    alloc: Global,
    cache: EpochCache<S, MemMeta>,
    told: Told<F>,
) -> Ended
where
    S::Entry: KeptEntry<StandardBlocks, F>,
{
    over_shelf(alloc, cache, told)
}

// The same over any cache.
fn over_shelf<F: CommitsTo<Sha256Digest>, H: Shelf<StandardBlocks, F>>(
    alloc: Global,
    cache: H,
    told: Told<F>,
) -> Ended {
    over_cache(alloc, CacheInPlace::new(cache), told)
}

// The same over a cache of a life.
fn over_cache<F: CommitsTo<Sha256Digest>, H: LifeNotarizations<StandardBlocks, F>>(
    alloc: Global,
    cache: H,
    told: Told<F>,
) -> Ended {
    over_archive(alloc, MemArchive::new(alloc, LuckHalf::Low), cache, told)
}

// The same over an archive of blocks from which nothing is pruned.
fn over_archive<
    F: CommitsTo<Sha256Digest>,
    A: Archive<BlockItem<StandardBlocks>>,
    H: LifeNotarizations<StandardBlocks, F>,
>(alloc: Global, archive: A, cache: H, told: Told<F>) -> Ended {
    let blocks: immutable::Archive<A> = immutable::Archive::new(archive);
    over_blocks(alloc, blocks, cache, told)
}

// The same over any store of blocks.
fn over_blocks<
    F: CommitsTo<Sha256Digest>,
    FB: Blocks<StandardBlocks>,
    H: LifeNotarizations<StandardBlocks, F>,
>(alloc: Global, blocks: FB, cache: H, told: Told<F>) -> Ended {
    let certs: CertificateStore<F> = immutable::Archive::new(MemArchive::new(
        alloc,
        LuckHalf::High,
    ));
    over_stores(alloc, blocks, certs, cache, told)
}

// The same over any three stores that hold nothing yet, with metadata and the ledger in memory.
fn over_stores<
    F: CommitsTo<Sha256Digest>,
    FB: Blocks<StandardBlocks>,
    FC: Certificates<StandardBlocks, F>,
    H: LifeNotarizations<StandardBlocks, F>,
>(alloc: Global, blocks: FB, certs: FC, cache: H, told: Told<F>) -> Ended {
    let node = Ruins {
        blocks: blocks.wreck(),
        certs: certs.wreck(),
        meta: MemMeta::new(alloc).wreck(),
        cache: cache.wreck(),
    };
    let nothing = Left {
        node,
        ledger: MemMeta::new(alloc).wreck(),
    };
    let (ended, _left) = lives::<Stores<StandardBlocks, F, FB, FC, MemMeta, H>>(nothing, told);
    ended
}
