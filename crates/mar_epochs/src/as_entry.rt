//! What a cache keeps, whatever blocks and certificates it is made of.
ghost use Rattle.std.specs.Prelude.{◌≡◌, Bool, IfErr, IfOk, option_map};
ghost use Rattle.std.specs.Option.{option_copied};
ghost use Rattle.std.specs.Ordering.{eq_by_cmp};
ghost use Rattle.mar_model.specs.Cached.{Cached, epoch_of, same_place};
ghost use Rattle.mar_model.specs.Cache.{is_below, is_certified_below};
ghost use Rattle.mar_model.specs.SmallEntries.{IsSmallEntry};
ghost use Rattle.mar_model.specs.Sections.{index_of, section_of};
ghost use Rattle.mar_epochs.specs.Spots.{is_among};

use crate::keys::Keys;
use mar_model::Section;
use mar_store::Miss;
use mar_types::{Epoch, Height, Round};
use std::alloc::AllocError;

/// One entry of a cache, small enough for a store.
pub trait AsEntry: Drop {
    /// What an entry is looked for by.
    type Wanted: Drop;

    /// The entry as plain data.
    ghost plain: { Self → Cached };

    /// Whether an entry is what is looked for.
    ghost wants: { Self.Wanted → Cached → Bool };

    /// The epoch that it belongs to.
    fn epoch(&self) -> Epoch
        ensures { result ≡ epoch_of (plain self.now) };

    /// The archive that it belongs to.
    fn section(&self) -> Section
        ensures { result ≡ section_of (plain self.now) };

    /// The view or the height that it stands at.
    fn index(&self) -> u64
        ensures { result ≡ index_of (plain self.now) };

    /// Whether a prune by view below this round covers it.
    fn is_below(&self, round: Round) -> bool
        ensures { result ≡ is_below round (plain self.now) };

    /// Whether it is a certified block below this height.
    fn is_certified_below(&self, height: Height) -> bool
        ensures { result ≡ is_certified_below height (plain self.now) };

    /// The same entry again.
    fn try_clone(&self) -> Result<Self, AllocError>
    where
        Self: Sized,
        ensures { IfOk result (λ e. plain e ≡ plain self.now) };

    ghost small: { (e : Self) → IsSmallEntry (plain e) };
}

/// An entry that is found by keys, which have an order.
pub trait KeyedEntry: AsEntry {
    type Key: Ord + Copy;

    /// Whether an entry has a key.
    ghost has: { Self.Key → Cached → Bool };

    /// The key of what is looked for.
    fn key_of(wanted: &Self::Wanted) -> Self::Key
        ensures { (x : Cached) → has result x ≡ Self.wants wanted.now x };

    /// All its keys. No archive holds two that have the key of one place.
    fn keys(&self) -> Keys<Self::Key>
        ensures all { (k : Self.Key) → has k (Self.plain self.now) ≡ is_among (eq_by_cmp Self.Key.cmp) result k }
        ensures place { (x : Cached) → has result.place x ≡ same_place (Self.plain self.now) x };
}

/// A copy of an entry that was found.
pub fn copied<E: AsEntry>(found: Option<&E>) -> Result<Option<E>, Miss>
    ensures found { IfOk result (λ o. option_map E.plain o ≡ option_map E.plain (option_copied found.entry)) }
    ensures memory { IfErr result (λ m. m ≡ Miss.Memory) }
{
    match found {
        None => Ok(None),
        Some(entry) => match entry.try_clone() {
            Ok(copy) => Ok(Some(copy)),
            Err(_) => Err(Miss::Memory),
        },
    }
}
