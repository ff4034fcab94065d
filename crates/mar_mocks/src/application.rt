//! An application that keeps what it is handed.
ghost use Rattle.std.specs.Prelude.{IfNone, IfOk, IfSome, OnErr, OnOk, Some, [], drop, false, map};
ghost use Rattle.std.specs.Prelude.{if◌then◌else◌, option_map, slice_get, true, ℕ, ◌+◌, ◌++◌, ◌==◌, ◌∷◌, ◌≡◌};
ghost use Rattle.std.specs.BTreeMap.{get};
ghost use Rattle.std.specs.Ordering.{nat_cmp};
ghost use Rattle.mar_key.specs.Hears.{Hears};
ghost use Rattle.mar_actor.specs.Views.{report_of};
ghost use Rattle.mar_mocks.specs.Applied.{KeepsBlocks, KeepsTip, Owed, after_report, last_block, last_tip};
ghost use Rattle.mar_mocks.specs.Applied.{owed_for, pending};
ghost use Rattle.mar_mocks.specs.AppliedViews.{owed_of, tip_of};

use mar_actor::{Exact, Reporter, Update};
use mar_block::Variant;
use mar_types::Height;
use std::alloc::{AllocError, Global};
use std::collections::{BTreeMap, VecDeque};
use std::marker::Model;

/// An application that keeps what it is told: each report, in order, the blocks by height and the newest tip. It gives
/// each acknowledgement at once, or as its caller says. A given one is handed out once, and goes back to the node as an
/// event.
///
/// A contract sees all that it was told, the acknowledgements that weren't handed out yet, and how many of them are
/// given.
#[derive(Drop)]
pub struct Application<V: Variant> {
    updates: Vec<Update<V::Digest, V::Block>>,
    blocks: BTreeMap<u64, V::Block>,
    tip: Option<(Height, V::Digest)>,
    owed: VecDeque<(Height, Exact)>,
    given: usize,
    gives_at_once: bool,
}

impl<V: Variant> Model for Application<V> {
    ghost use Rattle.std.specs.Prelude.{length, map, option_map, ℕ, ◌≡◌, ◌≤◌};
    ghost use Rattle.std.specs.BTreeMap.{get};
    ghost use Rattle.std.specs.Ordering.{nat_cmp};
    ghost use Rattle.mar_actor.specs.Views.{report_of};
    ghost use Rattle.mar_mocks.specs.Applied.{Applied, last_block, last_tip};
    ghost use Rattle.mar_mocks.specs.AppliedViews.{owed_of, tip_of};

    ghost Value = { Applied };

    ghost view = { λ a. record {
      told = map (report_of V.Digest.bytes V.plain) a.updates.items;
      owed = map owed_of a.owed.items;
      given = a.given;
      gives_at_once = a.gives_at_once;
    } };

    ghost invariant = { λ a. (a.given ≤ length a.owed.items)
        × (option_map (tip_of V.Digest.bytes) a.tip ≡ last_tip (map (report_of V.Digest.bytes V.plain) a.updates.items))
        × ((h : ℕ) → option_map V.plain (get nat_cmp a.blocks h)
        ≡ last_block h (map (report_of V.Digest.bytes V.plain) a.updates.items)) };
}

impl<V: Variant> Application<V> {
    /// One that was told nothing and gives each acknowledgement at once.
    pub fn default(alloc: Global) -> Self
        ensures { result ≡ record { told = []; owed = []; given = 0; gives_at_once = true } }
    {
        Self::told_nothing(alloc, true)
    }

    /// One that was told nothing and gives an acknowledgement where its caller says so.
    pub fn manual_ack(alloc: Global) -> Self
        ensures { result ≡ record { told = []; owed = []; given = 0; gives_at_once = false } }
    {
        Self::told_nothing(alloc, false)
    }

    fn told_nothing(alloc: Global, gives_at_once: bool) -> Self
        ensures { result ≡ record { told = []; owed = []; given = 0; gives_at_once = gives_at_once } }
    {
        Application {
            updates: Vec::new(alloc),
            blocks: BTreeMap::new(alloc),
            tip: None,
            owed: VecDeque::new(alloc),
            given: 0,
            gives_at_once,
        }
    }

    /// All that it was told, in order.
    pub fn updates(&self) -> &[Update<V::Digest, V::Block>]
        ensures { map (report_of V.Digest.bytes V.plain) result.now ≡ self.now.told }
    {
        self.updates.as_slice()
    }

    /// The blocks that it was handed, by height: where several came for one height, the last.
    pub fn blocks(&self) -> &BTreeMap<u64, V::Block>
        ensures { (h : ℕ) → option_map V.plain (get nat_cmp result.now h) ≡ last_block h self.now.told }
    {
        &self.blocks
    }

    /// The height and the digest of the tip that it was told last.
    pub fn tip(&self) -> Option<(Height, V::Digest)>
        ensures { option_map (tip_of V.Digest.bytes) result ≡ last_tip self.now.told }
    {
        self.tip
    }

    /// The heights of the blocks whose acknowledgement isn't given yet, in the order in which they came.
    pub fn pending_ack_heights(&self, alloc: Global) -> Result<Vec<Height>, AllocError>
        ensures { IfOk result (λ v. v.items ≡ map (λ o. o.height) (pending self.now)) }
    {
        heights_from(alloc, &self.owed, self.given)
    }

    /// Gives the oldest acknowledgement that isn't given yet, and tells its block's height. Where each is given nothing
    /// changes.
    pub fn acknowledge_next(&mut self) -> Option<Height>
        ensures next { result ≡ option_map (λ o. o.height) (slice_get self.old.owed self.old.given) }
        ensures given { IfSome result (λ _. self.new ≡ record self.old { given = self.old.given + 1 }) }
        ensures none { IfNone result (self.new ≡ self.old) }
    {
        let height = match self.owed.get(self.given) {
            Some((height, _)) => *height,
            None => return None,
        };
        self.given += 1;
        Some(height)
    }

    /// As `acknowledge_next`: nobody waits for a block that hasn't come.
    pub fn acknowledged(&mut self) -> Option<Height>
        ensures next { result ≡ option_map (λ o. o.height) (slice_get self.old.owed self.old.given) }
        ensures given { IfSome result (λ _. self.new ≡ record self.old { given = self.old.given + 1 }) }
        ensures none { IfNone result (self.new ≡ self.old) }
    {
        self.acknowledge_next()
    }

    /// Hands out the oldest acknowledgement that is given, for the node. Where none is given nothing changes.
    pub fn next_given(&mut self) -> Option<Exact>
        ensures given { IfSome result (λ ack. (o : Owed) × (ack.ticket ≡ o.ticket)
            × (self.old ≡ record self.new { owed = o ∷ self.new.owed; given = self.new.given + 1 })) }
        ensures none { IfNone result ((self.old.given ≡ 0) × (self.new ≡ self.old)) }
    {
        if self.given == 0 {
            return None;
        }
        let (_, acknowledgement) = self.owed.pop_front()?;
        self.given -= 1;
        Some(acknowledgement)
    }
}

// The heights from a place on.
fn heights_from(
    alloc: Global,
    owed: &VecDeque<(Height, Exact)>,
    start: usize,
) -> Result<Vec<Height>, AllocError>
    ensures { IfOk result (λ v. v.items ≡ map (λ o. o.height) (drop start (map owed_of owed.now.items))) }
{
    let mut heights = Vec::new(alloc);
    for (height, _) in owed.iter().skip(start) {
        heights.push(*height)?;
    }
    Ok(heights)
}

impl<V: Variant> Reporter<V> for Application<V> {
    ghost use Rattle.std.specs.Prelude.{Some};

    ghost told = { λ a. Some a.told };

    fn report(&mut self, update: Update<V::Digest, V::Block>) -> Result<(), AllocError>
        ensures ok { OnOk result (Hears (Some self.old.told)
            (report_of V.Digest.bytes V.plain update ∷ []) (Some self.new.told)) }
        ensures err { OnErr result (Hears (Some self.old.told) [] (Some self.new.told)) }
        ensures told { OnOk result (self.new ≡ after_report (report_of V.Digest.bytes V.plain update) self.old) }
        ensures same { OnErr result (self.new ≡ self.old) }
    {
        self.updates.reserve(1)?;
        keep::<V>(&mut self.blocks, &mut self.tip, &mut self.owed, &update)?;
        self.given = given_of(self.gives_at_once, self.given, self.owed.len());
        self.updates.push_reserved(update);
        Ok(())
    }
}

// How many acknowledgements are given, of those that are owed: all, or as many as before.
fn given_of(gives_at_once: bool, given: usize, owed: usize) -> usize
    ensures { result ≡ (if gives_at_once then owed else given) }
{
    if gives_at_once { owed } else { given }
}

// Keeps what a report tells: the tip, or the block and the acknowledgement that is owed for it. Where memory runs out
// nothing is kept.
fn keep<V: Variant>(
    blocks: &mut BTreeMap<u64, V::Block>,
    tip: &mut Option<(Height, V::Digest)>,
    owed: &mut VecDeque<(Height, Exact)>,
    update: &Update<V::Digest, V::Block>,
) -> Result<(), AllocError>
    ensures tip { OnOk result (KeepsTip (tip_of V.Digest.bytes)
        tip.old (report_of V.Digest.bytes V.plain update.now) tip.new) }
    ensures blocks { OnOk result (KeepsBlocks V.plain
        (get nat_cmp blocks.old) (report_of V.Digest.bytes V.plain update.now) (get nat_cmp blocks.new)) }
    ensures owed { OnOk result (map owed_of owed.new.items
        ≡ map owed_of owed.old.items ++ owed_for (report_of V.Digest.bytes V.plain update.now)) }
    ensures same { OnErr result ((blocks.new.entries ≡ blocks.old.entries) × (tip.new ≡ tip.old)
        × (owed.new.items ≡ owed.old.items)) }
{
    match update {
        Update::Tip(_, height, digest) => {
            *tip = Some((*height, *digest));
            Ok(())
        }
        Update::Block(block, acknowledgement) => {
            keep_block::<V>(blocks, owed, block, *acknowledgement)?;
            Ok(())
        }
    }
}

// Keeps a block at its height, in place of one that stands there, and its acknowledgement behind the others; or
// neither.
fn keep_block<V: Variant>(
    blocks: &mut BTreeMap<u64, V::Block>,
    owed: &mut VecDeque<(Height, Exact)>,
    block: &V::Block,
    acknowledgement: Exact,
) -> Result<(), AllocError>
    ensures at { OnOk result (option_map V.plain (get nat_cmp blocks.new (V.plain block.now).height)
        ≡ Some (V.plain block.now)) }
    ensures others { OnOk result ((h : ℕ) → ((V.plain block.now).height == h) ≡ false
        → get nat_cmp blocks.new h ≡ get nat_cmp blocks.old h) }
    ensures owed { OnOk result (owed.new.items ≡ owed.old.items ++ ((V.plain block.now).height, acknowledgement) ∷ []) }
    ensures same { OnErr result ((blocks.new.entries ≡ blocks.old.entries) × (owed.new.items ≡ owed.old.items)) }
{
    owed.reserve(1)?;
    let height = V::height(block);
    let kept = V::try_clone(block)?;
    blocks.insert(height.get(), kept)?;
    owed.push_back_reserved((height, acknowledgement));
    Ok(())
}
