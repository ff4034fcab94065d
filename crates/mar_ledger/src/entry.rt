//! What blocks enter into a ledger.
ghost use Rattle.std.specs.Prelude.{◌≡◌};
ghost use Rattle.mar_ledger.specs.Books.{IsTransfer, entry_at};

use crate::transfer::Transfer;
use mar_block::{EmptyBlock, Heightable};
use mar_types::Hasher;

/// A block that moves money.
pub trait Entry: Heightable {
    ghost use Rattle.mar_ledger.specs.declared.transfer.Transfer.{Transfer};

    /// What it moves.
    ghost transfer: { Self → Transfer };

    /// What it moves. Both accounts are among the sixteen.
    fn entry(&self) -> Transfer
        ensures is { result ≡ transfer self.now }
        ensures within { IsTransfer result };
}

/// The timestamp says what is moved: the account that gives is its rest by 16, the one that gets the next four bits,
/// and the amount the rest of the higher bits by 1,000,000.
impl<H: Hasher> Entry for EmptyBlock<H> {
    ghost transfer = { λ b. entry_at b.timestamp };

    fn entry(&self) -> Transfer {
        Transfer {
            from: (self.timestamp % 16) as usize,
            to: (self.timestamp / 16 % 16) as usize,
            amount: self.timestamp / 256 % 1_000_000,
        }
    }
}
