//! How a ledger is read from its store.
ghost use Rattle.std.specs.Prelude.{◌≡◌, ◌≤◌, ◌<◌, ◌+◌, ◌↔◌, ℕ, IsTrue, MatchOption, None, Some, get_or, length};
ghost use Rattle.mar_ledger.specs.Ledger.{HoldsLedger, IsForeign};

use crate::books::Books;
use crate::writing::{HEIGHT_KEY, REJECTED_KEY};
use mar_store::Meta;
use mar_types::Height;

/// What a ledger's values are read as: its height, and its books.
pub(crate) type Found = (Option<Height>, Books);

// The balances, where each account has one.
fn read_balances<M: Meta>(meta: &M) -> Option<[u64; 16]>
    ensures { MatchOption result
        ((k : ℕ) × (k < 16) × (M.current meta.now k ≡ None))
        (λ b. (length b ≡ 16) × ((k : ℕ) → k < 16 → M.current meta.now k ≡ Some (get_or b k 0))) }
{
    let mut balances = [0; 16];
    for account in 0..16 {
        match meta.get(account as u64) {
            Some(balance) => balances[account] = balance,
            None => return None,
        }
    }
    Some(balances)
}

// Whether no more were rejected than were entered up to a height.
fn are_within(rejected: u64, height: u64) -> bool
    ensures { IsTrue result ↔ (rejected ≤ height + 1) }
{
    rejected.saturating_sub(1) <= height
}

// The same where the last key is that of the rejected count.
fn read_entered<M: Meta>(meta: &M) -> Option<Found>
    requires some { M.current meta.now 17 ≡ None → ⊥ }
    requires last { (k : ℕ) → 17 < k → M.current meta.now k ≡ None }
    ensures { MatchOption result (IsForeign (M.current meta.now))
        (λ l. HoldsLedger (M.current meta.now) (record { height = l.0; books = l.1 })) }
{
    let Some(height) = meta.get(HEIGHT_KEY) else {
        return None;
    };
    let Some(rejected) = meta.get(REJECTED_KEY) else {
        return None;
    };
    let Some(balances) = read_balances(meta) else {
        return None;
    };
    if !are_within(rejected, height) {
        return None;
    }
    match Books::of(balances, rejected) {
        Some(books) => Some((Some(Height::new(height)), books)),
        None => None,
    }
}

/// The ledger that a store's values are, or `None` where they are no ledger's.
pub(crate) fn read<M: Meta>(meta: &M) -> Option<Found>
    ensures { MatchOption result (IsForeign (M.current meta.now))
        (λ l. HoldsLedger (M.current meta.now) (record { height = l.0; books = l.1 })) }
{
    match meta.last_key() {
        None => Some((None, Books::new())),
        Some(key) => {
            if key == REJECTED_KEY {
                read_entered(meta)
            } else {
                None
            }
        }
    }
}
