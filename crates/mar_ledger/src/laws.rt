//! What the blocks of the program enter, as plain data.
ghost use Rattle.std.specs.Prelude.{◌≡◌, List, Some, slice_get, ℕ};
ghost use Rattle.mar_cert.specs.Block.{Block as PlainBlock, IsBlock};
ghost use Rattle.mar_ledger.specs.Books.{entry_at};
ghost use Rattle.mar_ledger.specs.Entries.{entry_of};
ghost use Rattle.mar_ledger.specs.Ledger.{Ledger, delivered, entered, first_ledger};
ghost use Rattle.mar_ledger.specs.Truth.{IsTrueLedger};
ghost use Rattle.mar_ledger.specs.declared.applied.Applied.{Applied as Outcome};

use crate::entry::Entry;
use mar_block::{EmptyBlock, Standard, Variant};
use mar_types::Sha256;

/// What a block enters is what its plain bytes say: the number behind its parent and height is its timestamp.
pub fn entries_of_blocks(block: &EmptyBlock<Sha256>)
    ensures block { entry_of (⟦<Standard<EmptyBlock<Sha256>> as Variant>⟧.plain block.now)
        ≡ ⟦<EmptyBlock<Sha256> as Entry>⟧.transfer block.now }
    ensures plain { (b : PlainBlock) (is : IsBlock b) → entry_of b ≡ entry_at is.timestamp }
{
    let _parent = block.parent;
    let _height = block.height.get();
    let _timestamp = block.timestamp;
}

/// A ledger that has entered the blocks of a list up to its height, each once, stays one, whichever block of the list is
/// delivered at its place, and however often; before any block it is one. Two such ledgers of one height are one.
pub fn ledgers_stay_true()
    ensures first { (blocks : List PlainBlock) → IsTrueLedger blocks first_ledger }
    ensures stays { (blocks : List PlainBlock) (l new : Ledger) (h : ℕ) (b : PlainBlock) (how : Outcome)
        → IsTrueLedger blocks l → slice_get blocks h ≡ Some b → delivered l h (entry_of b) ≡ entered new how
        → IsTrueLedger blocks new }
    ensures one { (blocks : List PlainBlock) (l m : Ledger) → IsTrueLedger blocks l → IsTrueLedger blocks m
        → l.height ≡ m.height → l ≡ m }
{}
