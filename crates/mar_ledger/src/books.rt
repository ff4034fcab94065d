//! The books of sixteen accounts.
ghost use Rattle.std.specs.Prelude.{◌≡◌, ◌≤◌, ◌==◌, MatchOption, get_or, sum};
ghost use Rattle.mar_ledger.specs.Books.{AreBooks, IsTransfer, all_money, first_books, is_covered, lowered, posted, raised};

use crate::transfer::Transfer;
use std::marker::Model;

/// How many accounts there are.
pub const ACCOUNTS: usize = 16;

/// What all accounts hold together.
pub const ALL_MONEY: u64 = 16_000_000;

/// The balances of sixteen accounts, which always hold 16,000,000 together, and how many transfers were rejected. A
/// contract sees a record of the two.
#[derive(Drop)]
pub struct Books {
    balances: [u64; 16],
    rejected: u64,
}

impl Model for Books {
    ghost use Rattle.mar_ledger.specs.Books.{AreBooks, Books};

    ghost Value = { Books };

    ghost view = { λ b. record { balances = b.balances; rejected = b.rejected } };

    ghost invariant = { λ b. AreBooks (record { balances = b.balances; rejected = b.rejected }) };
}

impl Books {
    /// The books before any transfer: each account has 1,000,000.
    pub fn new() -> Self
        ensures { result ≡ first_books }
    {
        Books {
            balances: [1_000_000; 16],
            rejected: 0,
        }
    }

    /// Books of these balances and as many rejected transfers, or `None` where the balances don't hold 16,000,000
    /// together.
    pub fn of(balances: [u64; 16], rejected: u64) -> Option<Self>
        ensures { MatchOption result (sum balances ≡ all_money → ⊥)
            (λ b. (b ≡ record { balances = balances; rejected = rejected }) × (sum balances ≡ all_money)) }
    {
        if adds_up(&balances) {
            Some(Books { balances, rejected })
        } else {
            None
        }
    }

    /// The same books again.
    pub fn copy(&self) -> Self
        ensures { result ≡ self.now }
    {
        Books {
            balances: self.balances,
            rejected: self.rejected,
        }
    }

    /// The balances, in the order of the accounts. They hold 16,000,000 together.
    pub fn balances(&self) -> [u64; 16]
        ensures value { result ≡ self.now.balances }
        ensures whole { AreBooks self.now }
    {
        self.balances
    }

    /// How many transfers were rejected.
    pub fn rejected(&self) -> u64
        ensures { result ≡ self.now.rejected }
    {
        self.rejected
    }

    /// Enters a transfer, and answers whether it moved money. Where the account that is to give hasn't the amount, the
    /// transfer is rejected and counted; the count stops at the type's last number.
    pub fn post(&mut self, transfer: Transfer) -> bool
        requires { IsTransfer transfer }
        ensures posted { self.new ≡ posted transfer self.old }
        ensures moved { result ≡ is_covered transfer self.old.balances }
    {
        let moved = transfer.amount <= self.balances[transfer.from];
        if moved {
            self.balances = moved_by(self.balances, transfer);
        } else {
            self.rejected = self.rejected.saturating_add(1);
        }
        moved
    }
}

// The balances after a transfer that the account has.
fn moved_by(balances: [u64; 16], transfer: Transfer) -> [u64; 16]
    requires is { IsTransfer transfer }
    requires whole { sum balances ≡ all_money }
    requires covered { transfer.amount ≤ get_or balances transfer.from 0 }
    ensures { result ≡ raised transfer.to transfer.amount (lowered transfer.from transfer.amount balances) }
{
    let mut balances = balances;
    balances[transfer.from] -= transfer.amount;
    balances[transfer.to] += transfer.amount;
    balances
}

// Whether the balances hold all the money together.
fn adds_up(balances: &[u64; 16]) -> bool
    ensures { result ≡ (sum balances.now == all_money) }
{
    let mut rest = ALL_MONEY;
    for balance in balances {
        if *balance > rest {
            return false;
        }
        rest -= *balance;
    }
    rest == 0
}
