//! The lowest and the highest epoch of a cache, kept in a metadata store.
ghost use Rattle.std.specs.Prelude.{◌≡◌, ◌∷◌, [], IfOk, MatchResult, map};
ghost use Rattle.mar_store.specs.Lost.{wreck_of};
ghost use Rattle.mar_store.specs.Watch.{IsCalm};
ghost use Rattle.mar_cache.specs.Bounds.{LeavesBounds, bounds_of, includes};

use mar_store::{Lost, Meta, MetaRuin};

/// The key of the lowest epoch.
const LOWEST_KEY: u64 = 0;

/// The key of the highest epoch.
const HIGHEST_KEY: u64 = 1;

/// The lowest epoch.
pub fn lowest<M: Meta>(meta: &M) -> u64
    ensures { result ≡ (bounds_of (M.current meta.now)).lowest }
{
    meta.get(LOWEST_KEY).unwrap_or(0)
}

/// The highest epoch.
pub fn highest<M: Meta>(meta: &M) -> u64
    ensures { result ≡ (bounds_of (M.current meta.now)).highest }
{
    meta.get(HIGHEST_KEY).unwrap_or(0)
}

/// Whether an epoch lies from the lowest to the highest.
pub fn includes<M: Meta>(meta: &M, epoch: u64) -> bool
    ensures { result ≡ includes (bounds_of (M.current meta.now)) epoch }
{
    lowest(meta) <= epoch && epoch <= highest(meta)
}

/// Makes both durable. The store has no other changes, and none of its calls is armed.
pub fn write_bounds<M: Meta>(meta: M, lowest: u64, highest: u64) -> Result<M, Lost<M::Wreck>>
    requires unchanged { M.changed meta ≡ [] }
    requires quiet { (M.watch meta).due ≡ [] }
    ensures done { MatchResult result
        (λ s. (bounds_of (M.current s) ≡ record { lowest = lowest; highest = highest }) × (M.left s ≡ M.current s ∷ []))
        (λ l. LeavesBounds (map bounds_of (M.left meta)) (record { lowest = lowest; highest = highest } ∷ []) (map bounds_of (M.Wreck.left (wreck_of l)))) }
    ensures changes { IfOk result (λ s. M.changed s ≡ []) }
    ensures watched { IsCalm M.watch M.Wreck.watch (M.watch meta) result }
{
    let meta = meta.put(LOWEST_KEY, lowest)?;
    let meta = meta.put(HIGHEST_KEY, highest)?;
    meta.sync()
}
