//! The store of finalized blocks.
ghost use Rattle.std.specs.Prelude.{◌≡◌, ◌≤◌, [], ◌∷◌, IfErr, IfOk, IfSome, MatchResult, option_map};
ghost use Rattle.mar_store.specs.Watch.{HeedsOrNot, HeedsRead};
ghost use Rattle.mar_store.specs.Sizes.{IsSmall};
ghost use Rattle.mar_store.specs.Kept.{has_height, value_at};
ghost use Rattle.mar_store.specs.Changes.{Puts, Fails, left_of, IsStillOr, heights};
ghost use Rattle.mar_store.specs.Ranges.{ranges};
ghost use Rattle.mar_store.specs.Tickets.{KeepsCovers};
ghost use Rattle.mar_store.specs.Gaps.{missing_items, next_start, range_end};
ghost use Rattle.mar_store.specs.Lost.{wreck_of};
ghost use Rattle.mar_model.specs.Stored.{at_own_height, block_of, is_held, AreOwn};

use crate::item::BlockItem;
use crate::keeps::Keeps;
use mar_block::Variant;
use mar_store::{Lost, Miss};
use mar_types::Height;
use std::alloc::{AllocError, Global};

/// Finalized blocks by height and by digest. `get`, `find` and `put` are counted, as are the calls of `Keeps`.
pub trait Blocks<V: Variant>: Keeps<BlockItem<V>> {
    /// The block that is held at a height.
    fn get(&mut self, height: Height) -> Result<Option<V::Block>, Miss>
        ensures found { IfOk result (λ o. option_map V.plain o ≡ value_at (Self.stored self.old).held height) }
        ensures same { Self.stored self.new ≡ Self.stored self.old }
        ensures tickets { Self.number self.new ≡ Self.number self.old }
        ensures covers { KeepsCovers (Self.number self.old) (Self.covers self.old) (Self.covers self.new) }
        ensures watched { HeedsRead (Self.watch self.old) (Self.watch self.new) result };

    /// The block that is held under a digest.
    fn find(&mut self, digest: &V::Digest) -> Result<Option<V::Block>, Miss>
        ensures found { IfOk result (λ o. option_map V.plain o ≡ block_of (Self.stored self.old).held (V.Digest.bytes digest.now)) }
        ensures same { Self.stored self.new ≡ Self.stored self.old }
        ensures tickets { Self.number self.new ≡ Self.number self.old }
        ensures covers { KeepsCovers (Self.number self.old) (Self.covers self.old) (Self.covers self.new) }
        ensures watched { HeedsRead (Self.watch self.old) (Self.watch self.new) result };

    /// Puts a block under its digest at its height; ignored where one of either is held. Where memory runs out before the
    /// store is asked the call isn't counted.
    fn put(self, digest: &V::Digest, block: &V::Block) -> Result<Self, Lost<Self::Wreck>>
    where
        Self: Sized,
        requires named { V.Digest.bytes digest.now ≡ (V.plain block.now).digest }
        requires size { IsSmall (V.plain block.now).encoded }
        ensures done { MatchResult result
            (λ s. Puts (is_held (Self.stored self).held (V.plain block.now)) (Self.stored self) (at_own_height (V.plain block.now)) (Self.stored s))
            (λ l. Fails (left_of (Self.stored self)) (at_own_height (V.plain block.now) ∷ []) (Self.Wreck.left (wreck_of l))) }
        ensures still { IfErr result (λ l. IfSome (Self.watch self).keeps
            (λ _. IsStillOr (left_of (Self.stored self)) (at_own_height (V.plain block.now)) (Self.Wreck.left (wreck_of l)))) }
        ensures tickets { IfOk result (λ s. Self.number self ≤ Self.number s) }
        ensures covers { IfOk result (λ s. KeepsCovers (Self.number self) (Self.covers self) (Self.covers s)) }
        ensures watched { HeedsOrNot Self.watch Self.Wreck.watch (Self.watch self) result };

    /// The missing heights from `start` on that lie below some held one: the lowest, at most `max`.
    final fn missing_items(
        &self,
        alloc: Global,
        start: Height,
        max: usize,
    ) -> Result<Vec<Height>, AllocError>
        ensures { IfOk result (λ v. v.items ≡ missing_items (ranges (heights (Self.stored self.now).held)) start max) }
    {
        self.held_ranges().missing_items(alloc, start, max)
    }

    /// The end of the range of held heights that holds this one, and the start of the next range after it.
    final fn next_gap(&self, height: Height) -> (Option<Height>, Option<Height>)
        ensures end { result.0 ≡ range_end (ranges (heights (Self.stored self.now).held)) height }
        ensures start { result.1 ≡ next_start (ranges (heights (Self.stored self.now).held)) height }
    {
        self.held_ranges().next_gap(height)
    }

    /// Whether a block is held at a height.
    final fn holds(&self, height: Height) -> bool
        ensures { result ≡ has_height (Self.stored self.now).held height }
    {
        self.held_ranges().contains(height.get())
    }

    ghost own: { (s : Self) → AreOwn V.inner (Self.stored s).held };
}
