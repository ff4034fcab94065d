//! Finalized blocks that wait to be handed over.
ghost use Rattle.std.specs.Prelude.{◌≡◌, ◌≤◌, [], OnErr, OnOk, filter, length, nat_le};
ghost use Rattle.std.specs.BTreeMap.{btree_map_len};
ghost use Rattle.mar_gate.specs.Staged.{has_place, kept_from, staged_at, with_block, without_height};

use mar_types::Height;
use std::alloc::{AllocError, Global};
use std::collections::BTreeMap;
use std::marker::Model;

/// Blocks of the kind `B` that wait to be handed over: one a height, at most a fixed number of them, and none below a
/// height that never falls. A contract sees a record of the blocks by height and of these two numbers.
#[derive(Drop)]
pub struct Staged<B> {
    blocks: BTreeMap<u64, B>,
    min: Height,
    max: usize,
}

impl<B> Model for Staged<B> {
    ghost use Rattle.std.specs.Prelude.{◌≤◌, length};
    ghost use Rattle.std.specs.List.{AllByRecursion};
    ghost use Rattle.mar_gate.specs.Staged.{Staged as StagedBlocks};

    ghost Value = { StagedBlocks B };

    ghost view = { λ s. record { blocks = s.blocks.entries; min = s.min; max = s.max } };

    ghost invariant = { λ s. (length s.blocks.entries ≤ s.max) × AllByRecursion (λ e. s.min ≤ e.0) s.blocks.entries };
}

impl<B: Drop> Staged<B> {
    /// Nothing is staged yet, and at most `max` blocks will be; each height is kept.
    pub fn new(alloc: Global, max: usize) -> Self
        ensures { result ≡ record { blocks = []; min = 0; max = max } }
    {
        Staged {
            blocks: BTreeMap::new(alloc),
            min: Height::zero(),
            max,
        }
    }

    /// Stages a block where its height is kept, there is room, and no block is staged at that height: the first one
    /// stays. Where memory runs out nothing changes.
    pub fn insert(&mut self, height: Height, block: B) -> Result<(), AllocError>
        ensures ok { OnOk result (self.new ≡ with_block height block self.old) }
        ensures err { OnErr result (self.new ≡ self.old) }
        ensures within { length self.new.blocks ≤ self.new.max }
    {
        if !self.has_place(height) {
            return Ok(());
        }
        self.blocks.insert(height.get(), block)?;
        Ok(())
    }

    // Whether a block of this height is taken in.
    fn has_place(&self, height: Height) -> bool
        ensures { result ≡ has_place self.now height }
    {
        height >= self.min
            && self.blocks.len() < self.max
            && !self.blocks.contains_key(&height.get())
    }

    /// Takes out the block that is staged at a height, to hand it over.
    pub fn remove(&mut self, height: Height) -> Option<B>
        ensures found { result ≡ staged_at self.old height }
        ensures rest { self.new ≡ without_height height self.old }
    {
        let height = height.get();
        self.blocks.remove(&height)
    }

    /// Drops the blocks below `min`, and takes none in there from now on. What was dropped before stays so: the least
    /// height never falls.
    pub fn retain(&mut self, min: Height)
        ensures { self.new ≡ kept_from min self.old }
    {
        if min <= self.min {
            return;
        }
        self.min = min;
        drop_below(&mut self.blocks, min.get());
    }
}

// Drops the blocks below a height, which stand first.
fn drop_below<B: Drop>(blocks: &mut BTreeMap<u64, B>, lowest: u64)
    ensures kept { blocks.new.entries ≡ filter (λ e. nat_le lowest e.0) blocks.old.entries }
    ensures fewer { btree_map_len blocks.new ≤ btree_map_len blocks.old }
{
    for _ in 0..blocks.len() {
        let is_below = match blocks.first_key_value() {
            Some((height, _)) => *height < lowest,
            None => false,
        };
        if !is_below {
            return;
        }
        let _ = blocks.pop_first();
    }
}
