//! Taking a snapshot of a ledger.
ghost use Rattle.std.specs.Prelude.{◌≡◌, ◌+◌, ◌↔◌, IfErr, IfOk, IsTrue, None, Some, ℕ};
ghost use Rattle.mar_cert.specs.MockScheme.{IsFinalization};
ghost use Rattle.mar_statesync.specs.Plain.{plain_block, plain_finalization};
ghost use Rattle.mar_statesync.specs.Snapshots.{IsSnapshot, IsTaken, taken_at};

use crate::elsewhere::Elsewhere;
use crate::snapshot::Snapshot;
use mar_block::EmptyBlock;
use mar_cert::MockFinalization;
use mar_ledger::Ledger;
use mar_store::Meta;
use mar_types::{Height, Sha256};

// Whether the second height is one above the first.
fn is_next(height: Height, above: Height) -> bool
    ensures { IsTrue result ↔ (above ≡ height + 1) }
{
    match above.previous() {
        Some(below) => below.get() == height.get(),
        None => false,
    }
}

/// A snapshot of a ledger, with the finalization of the block that comes next. Where the ledger doesn't stand right
/// below that block, the answer is where it stands.
pub fn take<M: Meta>(
    ledger: &Ledger<M>,
    finalization: MockFinalization,
    block: &EmptyBlock<Sha256>,
) -> Result<Snapshot, Elsewhere>
    requires named { (plain_finalization finalization).payload ≡ (plain_block block.now).digest }
    ensures taken { IfOk result (λ s. taken_at ledger.now.ledger (plain_finalization finalization) block.now.height
        ≡ Some s) }
    ensures is { IfOk result (IsTaken ledger.now.ledger (plain_block block.now)) }
    ensures spelled { IfOk result (λ s. (n : ℕ) → IsFinalization n (plain_finalization finalization) → IsSnapshot n s) }
    ensures elsewhere { IfErr result (λ e. (e.0 ≡ ledger.now.ledger.height)
        × (taken_at ledger.now.ledger (plain_finalization finalization) block.now.height ≡ None)) }
{
    let Some(height) = ledger.height() else {
        return Err(Elsewhere(None));
    };
    let books = ledger.books().copy();
    // a count of 64 bits
    let _rejected = books.rejected();
    if is_next(height, block.height) {
        Ok(Snapshot::of(height, books, finalization))
    } else {
        Err(Elsewhere(Some(height)))
    }
}
