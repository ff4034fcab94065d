//! Values by epoch that are exchanged in place, which takes no memory.
ghost use Rattle.std.specs.Prelude.{◌≡◌, ◌==◌, ℕ, if◌then◌else◌, option_map};
ghost use Rattle.std.specs.Ordering.{nat_cmp};
ghost use Rattle.std.specs.BTreeMap.{get};

use std::collections::BTreeMap;
use std::mem;

/// Puts a value in the place of an epoch's, where it has one, and gives that.
pub fn exchange<T: Drop>(slots: &mut BTreeMap<u64, T>, epoch: u64, value: T) -> Option<T>
    ensures taken { result ≡ get nat_cmp slots.old epoch }
    ensures put { (k : ℕ) → get nat_cmp slots.new k
        ≡ (if k == epoch then option_map (λ _. value) (get nat_cmp slots.old k) else get nat_cmp slots.old k) }
{
    match slots.get_mut(&epoch) {
        Some(place) => Some(mem::replace(place, value)),
        None => None,
    }
}
