//! The cache of a life that is changed, and where a change of it failed. What it answers before that, and which calls fail,
//! scripts of the program tell (tests/lives and tests/queries).
use crate::light::{Plates, Vote, vote_over};
use crate::tell::round;
use mar_cache::BlockName;
use mar_life::LifeCache;
use mar_model::{Fault, StoreName};
use mar_types::{Hasher, Sha256};

// Whether each look-up for the block at height 1 wants for memory.
fn is_unread<C: LifeCache<Plates, Vote>>(cache: &mut C) -> bool {
    let name = BlockName::Digest(Sha256::fill(1));
    matches!(cache.find_block(name), Err(Fault::Memory))
        & matches!(cache.find_verified(round(0, 1)), Err(Fault::Memory))
}

// Whether a finalization is kept, and what is below a round pruned.
fn is_changed<C: LifeCache<Plates, Vote>>(cache: &mut C) -> bool {
    let vote = vote_over(round(1, 9), 1);
    cache.put_finalization(&vote).is_ok() & cache.prune(round(1, 1)).is_ok()
}

/// Whether changes are made until one fails where it is armed, and later calls want for memory.
pub(crate) fn is_gone_once_lost<C: LifeCache<Plates, Vote>>(cache: C) -> bool {
    let mut cache = cache;
    let is_armed = is_changed(&mut cache) & cache.arm(1).is_ok();
    let failed = matches!(cache.load(), Err(Fault::StoreFault(StoreName::Cache)));
    is_armed & failed & matches!(cache.load(), Err(Fault::Memory)) & is_unread(&mut cache)
}
