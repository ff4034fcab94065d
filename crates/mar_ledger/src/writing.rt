//! How a ledger is written to its store.
ghost use Rattle.std.specs.Prelude.{◌≡◌, ◌≤◌, ◌<◌, ◌^◌, [], IfOk, MatchResult, Some, get_or, if◌then◌else◌, length, nat_lt, ℕ};
ghost use Rattle.mar_store.specs.Lost.{wreck_of};
ghost use Rattle.mar_store.specs.Values.{LeavesValues};
ghost use Rattle.mar_store.specs.Watch.{IsCalm};
ghost use Rattle.mar_ledger.specs.Books.{AreBooks};
ghost use Rattle.mar_ledger.specs.Ledger.{written};
ghost use Rattle.mar_ledger.specs.Writing.{HasWritten, LosesWriting, WatchesWriting};

use crate::books::Books;
use mar_store::{Lost, Meta};
use mar_types::Height;

/// The key of the height of the last block that was entered. The keys below it have the balances.
pub(crate) const HEIGHT_KEY: u64 = 16;

/// The key of the count of rejected transfers.
pub(crate) const REJECTED_KEY: u64 = 17;

// Puts each balance under the account's number.
fn put_balances<M: Meta>(meta: M, balances: [u64; 16]) -> Result<M, Lost<M::Wreck>>
    requires { M.changed meta ≡ [] }
    ensures done { MatchResult result
        (λ s. (k : ℕ) → M.current s k ≡ (if nat_lt k 16 then Some (get_or balances k 0) else M.current meta k))
        (λ l. LeavesValues (M.left meta) [] (M.Wreck.left (wreck_of l))) }
    ensures durable { IfOk result (λ s. M.left s ≡ M.left meta) }
    ensures few { IfOk result (λ s. length (M.changed s) ≤ 16) }
    ensures watched { IsCalm M.watch M.Wreck.watch (M.watch meta) result }
{
    let mut meta = meta;
    for account in 0..16 {
        match meta.put(account as u64, balances[account]) {
            Ok(changed) => meta = changed,
            Err(lost) => return Err(lost),
        }
    }
    Ok(meta)
}

// Puts all that a ledger has: what is durable stays.
fn put_all<M: Meta>(meta: M, height: Height, books: &Books) -> Result<M, Lost<M::Wreck>>
    requires { M.changed meta ≡ [] }
    ensures done { MatchResult result
        (λ s. (k : ℕ) → M.current s k ≡ written height books.now (M.current meta) k)
        (λ l. LeavesValues (M.left meta) [] (M.Wreck.left (wreck_of l))) }
    ensures durable { IfOk result (λ s. M.left s ≡ M.left meta) }
    ensures watched { IsCalm M.watch M.Wreck.watch (M.watch meta) result }
    ensures are { AreBooks books.now }
    ensures fits { height < 2 ^ 64 }
{
    let height_value = height.get();
    let meta = put_balances(meta, books.balances())?;
    let meta = meta.put(HEIGHT_KEY, height_value)?;
    meta.put(REJECTED_KEY, books.rejected())
}

/// Puts all that a ledger has and makes it durable.
pub(crate) fn write<M: Meta>(meta: M, height: Height, books: &Books) -> Result<M, Lost<M::Wreck>>
    requires { M.changed meta ≡ [] }
    ensures done { MatchResult result
        (λ s. HasWritten height books.now (M.current meta) (M.current s) (M.left s) (M.changed s))
        (λ l. LosesWriting height books.now (M.current meta) (M.left meta) (M.Wreck.left (wreck_of l))) }
    ensures watched { WatchesWriting M.watch M.Wreck.watch (M.watch meta) result }
    ensures are { AreBooks books.now }
    ensures fits { height < 2 ^ 64 }
{
    match put_all(meta, height, books) {
        Ok(meta) => meta.sync(),
        Err(lost) => Err(lost),
    }
}
