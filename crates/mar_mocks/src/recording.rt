//! A store of blocks that keeps what it was asked.
ghost use Rattle.std.specs.Prelude.{◌≡◌, ◌≤◌, ◌⊎◌, [], ◌∷◌, ◌++◌, IfErr, IfNone, IfOk, IfSome, IsTrue, MatchResult};
ghost use Rattle.std.specs.Prelude.{OnErr, OnOk, false, option_map, true};
ghost use Rattle.mar_store.specs.Changes.{Fails, Finishes, IsReopened, IsStillOr, Prunes, Puts, Syncs, left_of};
ghost use Rattle.mar_store.specs.Kept.{value_at};
ghost use Rattle.mar_store.specs.Lost.{wreck_of};
ghost use Rattle.mar_store.specs.Luck.{keeps_by, lucky_found};
ghost use Rattle.mar_store.specs.Sizes.{IsSmall};
ghost use Rattle.mar_store.specs.Tickets.{KeepsCovers, KeepsCoversFrom};
ghost use Rattle.mar_store.specs.Watch.{armed, Heeds, HeedsOrNot, HeedsRead, LostHeeds, LostOrNot, Watch};
ghost use Rattle.mar_mocks.specs.Recorded.{KeepsAll, KeepsPut, KeepsRead};
ghost use Rattle.mar_model.specs.Stored.{at_own_height, block_of, is_held};

use mar_block::Variant;
use mar_life::{BlockItem, Blocks, Keeps};
use mar_store::{ArchiveRuin, Lost, Miss, RangeSet, SyncTicket};
use mar_types::Height;
use std::alloc::{AllocError, Global};

/// What a store of blocks was asked.
#[derive(Clone, Copy, Debug, PartialEq, Eq)]
pub enum Op {
    /// To put the block of this height.
    Put(Height),
    /// To get the block at this height, or that of some digest where there is none.
    Get(Option<Height>),
}

/// A store of blocks that keeps each put and each get, in order.
#[derive(Drop)]
pub struct Recording<B> {
    pub inner: B,
    pub recorded: Vec<Op>,
}

/// What is left of a `Recording`, and what it was asked.
#[derive(Drop)]
pub struct RecordingWreck<W> {
    pub inner: W,
    pub recorded: Vec<Op>,
}

impl<B> Recording<B> {
    /// A store that keeps what this one is asked.
    pub fn new(alloc: Global, inner: B) -> Self
        ensures inner { result.inner ≡ inner }
        ensures none { result.recorded.items ≡ [] }
    {
        Recording {
            inner,
            recorded: Vec::new(alloc),
        }
    }

    /// What it was asked, in order.
    pub fn ops(&self) -> &[Op]
        ensures { result.now ≡ self.now.recorded.items }
    {
        self.recorded.as_slice()
    }
}

// Keeps a put at the end, where there is room for it.
fn keep_put(recorded: &mut Vec<Op>, height: Height) -> Option<()>
    ensures kept { IfSome result (λ _. recorded.new.items ≡ recorded.old.items ++ Op.Put height ∷ []) }
    ensures not_kept { IfNone result (recorded.new.items ≡ recorded.old.items) }
{
    match recorded.push(Op::Put(height)) {
        Ok(()) => Some(()),
        Err(_) => None,
    }
}

// Keeps a get at the end, and tells whether there was room for it.
fn keep_get(recorded: &mut Vec<Op>, height: Option<Height>) -> bool
    ensures kept { IsTrue result → recorded.new.items ≡ recorded.old.items ++ Op.Get height ∷ [] }
    ensures or_not { (recorded.new.items ≡ recorded.old.items ++ Op.Get height ∷ [])
        ⊎ (recorded.new.items ≡ recorded.old.items) }
{
    match recorded.push(Op::Get(height)) {
        Ok(()) => true,
        Err(_) => false,
    }
}

// What is left of a store that is lost, with what it was asked.
fn lost_with<T, W: ArchiveRuin<T>>(lost: Lost<W>, recorded: Vec<Op>) -> Lost<RecordingWreck<W>>
    ensures left { W.left (wreck_of result).inner ≡ W.left (wreck_of lost) }
    ensures heeds { (old : Watch) → LostHeeds W.watch old lost → LostHeeds (λ w. W.watch w.inner) old result }
    ensures put { (old : Watch) → LostOrNot W.watch old lost → LostOrNot (λ w. W.watch w.inner) old result }
    ensures recorded { (wreck_of result).recorded.items ≡ recorded.items }
{
    match lost {
        Lost::Fault(inner) => Lost::Fault(RecordingWreck { inner, recorded }),
        Lost::Memory(inner) => Lost::Memory(RecordingWreck { inner, recorded }),
    }
}

impl<T, W: ArchiveRuin<T>> ArchiveRuin<T> for RecordingWreck<W> {
    ghost left = { λ w. W.left w.inner };

    ghost watch = { λ w. W.watch w.inner };

    ghost number = { λ w. W.number w.inner };

    ghost short = { λ w. W.short w.inner };

    ghost front = { λ w. W.front w.inner };

    ghost within = { λ w. W.within w.inner };

    fn sure_ranges(&self) -> &RangeSet {
        self.inner.sure_ranges()
    }

    fn may_ranges(&self) -> &RangeSet {
        self.inner.may_ranges()
    }

    fn arm(&mut self, calls: u64) -> Result<(), AllocError>
        ensures armed { OnOk result (W.watch self.new.inner ≡ armed calls (W.watch self.old.inner)) }
        ensures unarmed { OnErr result (W.watch self.new.inner ≡ W.watch self.old.inner) }
        ensures left { W.left self.new.inner ≡ W.left self.old.inner }
        ensures number { W.number self.new.inner ≡ W.number self.old.inner }
        ensures recorded { self.new.recorded.items ≡ self.old.recorded.items }
    {
        self.inner.arm(calls)
    }
}

impl<T, B: Keeps<T>> Keeps<T> for Recording<B> {
    type Wreck = RecordingWreck<B::Wreck>;

    ghost stored = { λ s. B.stored s.inner };

    ghost watch = { λ s. B.watch s.inner };

    ghost number = { λ s. B.number s.inner };

    ghost covers = { λ s. B.covers s.inner };

    ghost prunes = { B.prunes };

    ghost nested = { λ s. B.nested s.inner };

    ghost last = { λ s. B.last s.inner };

    fn sync(self) -> Result<Self, Lost<RecordingWreck<B::Wreck>>>
        ensures done { MatchResult result
            (λ s. Syncs (B.stored self.inner) (B.stored s.inner))
            (λ l. Fails (left_of (B.stored self.inner)) [] (B.Wreck.left (wreck_of l).inner)) }
        ensures still { IfErr result (λ l. IfSome (B.watch self.inner).keeps
            (λ _. B.Wreck.left (wreck_of l).inner ≡ left_of (B.stored self.inner))) }
        ensures tickets { IfOk result (λ s. B.number self.inner ≤ B.number s.inner) }
        ensures covers { IfOk result (λ s. KeepsCovers (B.number self.inner) (B.covers self.inner) (B.covers s.inner)) }
        ensures watched { Heeds (λ s. B.watch s.inner) (λ w. B.Wreck.watch w.inner) (B.watch self.inner) result }
        ensures recorded { KeepsAll (λ s. s.recorded.items) (λ w. w.recorded.items) self.recorded.items result }
    {
        let Recording { inner, recorded } = self;
        match inner.sync() {
            Ok(inner) => Ok(Recording { inner, recorded }),
            Err(lost) => Err(lost_with::<T, B::Wreck>(lost, recorded)),
        }
    }

    fn start_sync(self) -> Result<(Self, SyncTicket), Lost<RecordingWreck<B::Wreck>>>
        ensures done { MatchResult result
            (λ s. B.stored s.0.inner ≡ B.stored self.inner)
            (λ l. Fails (left_of (B.stored self.inner)) [] (B.Wreck.left (wreck_of l).inner)) }
        ensures still { IfErr result (λ l. IfSome (B.watch self.inner).keeps
            (λ _. B.Wreck.left (wreck_of l).inner ≡ left_of (B.stored self.inner))) }
        ensures made { IfOk result (λ s. s.1.number ≤ B.number s.0.inner) }
        ensures covered { IfOk result (λ s. B.covers s.0.inner s.1.number ≡ (B.stored self.inner).held) }
        ensures tickets { IfOk result (λ s. B.number self.inner ≤ B.number s.0.inner) }
        ensures covers { IfOk result (λ s. KeepsCovers
            (B.number self.inner) (B.covers self.inner) (B.covers s.0.inner)) }
        ensures watched { Heeds (λ s. B.watch s.0.inner) (λ w. B.Wreck.watch w.inner) (B.watch self.inner) result }
        ensures recorded { KeepsAll (λ s. s.0.recorded.items) (λ w. w.recorded.items) self.recorded.items result }
    {
        let Recording { inner, recorded } = self;
        match inner.start_sync() {
            Ok((inner, ticket)) => Ok((Recording { inner, recorded }, ticket)),
            Err(lost) => Err(lost_with::<T, B::Wreck>(lost, recorded)),
        }
    }

    fn finish(self, ticket: SyncTicket) -> Result<Self, Lost<RecordingWreck<B::Wreck>>>
        requires made { ticket.number ≤ B.number self.inner }
        ensures done { MatchResult result
            (λ s. Finishes (B.covers self.inner ticket.number) (B.stored self.inner) (B.stored s.inner))
            (λ l. Fails (left_of (B.stored self.inner)) [] (B.Wreck.left (wreck_of l).inner)) }
        ensures still { IfErr result (λ l. IfSome (B.watch self.inner).keeps
            (λ _. B.Wreck.left (wreck_of l).inner ≡ left_of (B.stored self.inner))) }
        ensures tickets { IfOk result (λ s. B.number self.inner ≤ B.number s.inner) }
        ensures covers { IfOk result (λ s. KeepsCovers (B.number self.inner) (B.covers self.inner) (B.covers s.inner)) }
        ensures watched { Heeds (λ s. B.watch s.inner) (λ w. B.Wreck.watch w.inner) (B.watch self.inner) result }
        ensures recorded { KeepsAll (λ s. s.recorded.items) (λ w. w.recorded.items) self.recorded.items result }
    {
        let Recording { inner, recorded } = self;
        match inner.finish(ticket) {
            Ok(inner) => Ok(Recording { inner, recorded }),
            Err(lost) => Err(lost_with::<T, B::Wreck>(lost, recorded)),
        }
    }

    fn prune(self, min: Height) -> Result<Self, Lost<RecordingWreck<B::Wreck>>>
        ensures done { MatchResult result
            (λ s. Prunes min (B.stored self.inner) (B.stored s.inner))
            (λ l. Fails (left_of (B.stored self.inner)) [] (B.Wreck.left (wreck_of l).inner)) }
        ensures still { IfErr result (λ l. IfSome (B.watch self.inner).keeps
            (λ _. B.Wreck.left (wreck_of l).inner ≡ left_of (B.stored self.inner))) }
        ensures idle { B.prunes ≡ false → IfOk result (λ s. B.stored s.inner ≡ B.stored self.inner) }
        ensures unchanged { B.prunes ≡ false → result ≡ Ok self }
        ensures tickets { IfOk result (λ s. B.number self.inner ≤ B.number s.inner) }
        ensures covers { IfOk result (λ s. KeepsCoversFrom min
            (B.number self.inner) (B.covers self.inner) (B.covers s.inner)) }
        ensures watched { B.prunes ≡ true
            → Heeds (λ s. B.watch s.inner) (λ w. B.Wreck.watch w.inner) (B.watch self.inner) result }
        ensures recorded { KeepsAll (λ s. s.recorded.items) (λ w. w.recorded.items) self.recorded.items result }
    {
        let Recording { inner, recorded } = self;
        match inner.prune(min) {
            Ok(inner) => Ok(Recording { inner, recorded }),
            Err(lost) => Err(lost_with::<T, B::Wreck>(lost, recorded)),
        }
    }

    fn wreck(self) -> RecordingWreck<B::Wreck>
        ensures left { B.Wreck.left result.inner ≡ left_of (B.stored self.inner) }
        ensures watch { B.Wreck.watch result.inner ≡ B.watch self.inner }
        ensures recorded { result.recorded.items ≡ self.recorded.items }
    {
        let Recording { inner, recorded } = self;
        RecordingWreck {
            inner: inner.wreck(),
            recorded,
        }
    }

    fn reopen(
        wreck: RecordingWreck<B::Wreck>,
        luck: u64,
    ) -> Result<Self, Lost<RecordingWreck<B::Wreck>>>
        ensures done { MatchResult result
            (λ s. IsReopened (B.Wreck.left wreck.inner) (B.stored s.inner))
            (λ l. Fails (B.Wreck.left wreck.inner) [] (B.Wreck.left (wreck_of l).inner)) }
        ensures still { IfErr result (λ l. IfSome (B.Wreck.watch wreck.inner).keeps
            (λ _. B.Wreck.left (wreck_of l).inner ≡ B.Wreck.left wreck.inner)) }
        ensures lucky { IfOk result (λ s. IfSome (B.Wreck.watch wreck.inner).keeps
            (λ keeps. (B.stored s.inner).held ≡ lucky_found (keeps_by keeps luck) (B.Wreck.left wreck.inner))) }
        ensures watched { Heeds (λ s. B.watch s.inner) (λ w. B.Wreck.watch w.inner) (B.Wreck.watch wreck.inner) result }
        ensures recorded { KeepsAll (λ s. s.recorded.items) (λ w. w.recorded.items) wreck.recorded.items result }
    {
        let RecordingWreck { inner, recorded } = wreck;
        match B::reopen(inner, luck) {
            Ok(inner) => Ok(Recording { inner, recorded }),
            Err(lost) => Err(lost_with::<T, B::Wreck>(lost, recorded)),
        }
    }

    fn arm(&mut self, calls: u64) -> Result<(), AllocError>
        ensures armed { OnOk result (B.watch self.new.inner ≡ armed calls (B.watch self.old.inner)) }
        ensures unarmed { OnErr result (B.watch self.new.inner ≡ B.watch self.old.inner) }
        ensures same { B.stored self.new.inner ≡ B.stored self.old.inner }
        ensures tickets { B.number self.new.inner ≡ B.number self.old.inner }
        ensures covers { KeepsCovers (B.number self.old.inner) (B.covers self.old.inner) (B.covers self.new.inner) }
        ensures recorded { self.new.recorded.items ≡ self.old.recorded.items }
    {
        self.inner.arm(calls)
    }

    fn last_index(&self) -> Option<Height> {
        self.inner.last_index()
    }

    fn held_ranges(&self) -> &RangeSet {
        self.inner.held_ranges()
    }

    fn sure_ranges(&self) -> &RangeSet {
        self.inner.sure_ranges()
    }
}

impl<V: Variant, B: Blocks<V>> Blocks<V> for Recording<B> {
    ghost own = { λ s. B.own s.inner };

    fn get(&mut self, height: Height) -> Result<Option<V::Block>, Miss>
        ensures found { IfOk result (λ o. option_map V.plain o ≡ value_at (B.stored self.old.inner).held height) }
        ensures same { B.stored self.new.inner ≡ B.stored self.old.inner }
        ensures tickets { B.number self.new.inner ≡ B.number self.old.inner }
        ensures covers { KeepsCovers (B.number self.old.inner) (B.covers self.old.inner) (B.covers self.new.inner) }
        ensures watched { HeedsRead (B.watch self.old.inner) (B.watch self.new.inner) result }
        ensures recorded { KeepsRead result self.old.recorded.items (Op.Get (Some height)) self.new.recorded.items }
    {
        let kept = keep_get(&mut self.recorded, Some(height));
        match self.inner.get(height) {
            Ok(found) if kept => Ok(found),
            Ok(_) => Err(Miss::Memory),
            Err(miss) => Err(miss),
        }
    }

    fn find(&mut self, digest: &V::Digest) -> Result<Option<V::Block>, Miss>
        ensures found { IfOk result (λ o. option_map V.plain o
            ≡ block_of (B.stored self.old.inner).held (V.Digest.bytes digest.now)) }
        ensures same { B.stored self.new.inner ≡ B.stored self.old.inner }
        ensures tickets { B.number self.new.inner ≡ B.number self.old.inner }
        ensures covers { KeepsCovers (B.number self.old.inner) (B.covers self.old.inner) (B.covers self.new.inner) }
        ensures watched { HeedsRead (B.watch self.old.inner) (B.watch self.new.inner) result }
        ensures recorded { KeepsRead result self.old.recorded.items (Op.Get None) self.new.recorded.items }
    {
        let kept = keep_get(&mut self.recorded, None);
        match self.inner.find(digest) {
            Ok(found) if kept => Ok(found),
            Ok(_) => Err(Miss::Memory),
            Err(miss) => Err(miss),
        }
    }

    fn put(
        self,
        digest: &V::Digest,
        block: &V::Block,
    ) -> Result<Self, Lost<RecordingWreck<B::Wreck>>>
        requires named { V.Digest.bytes digest.now ≡ (V.plain block.now).digest }
        requires size { IsSmall (V.plain block.now).encoded }
        ensures done { MatchResult result
            (λ s. Puts (is_held (B.stored self.inner).held (V.plain block.now))
            (B.stored self.inner) (at_own_height (V.plain block.now)) (B.stored s.inner))
            (λ l. Fails (left_of (B.stored self.inner))
            (at_own_height (V.plain block.now) ∷ []) (B.Wreck.left (wreck_of l).inner)) }
        ensures still { IfErr result (λ l. IfSome (B.watch self.inner).keeps
            (λ _. IsStillOr (left_of (B.stored self.inner))
            (at_own_height (V.plain block.now)) (B.Wreck.left (wreck_of l).inner))) }
        ensures tickets { IfOk result (λ s. B.number self.inner ≤ B.number s.inner) }
        ensures covers { IfOk result (λ s. KeepsCovers (B.number self.inner) (B.covers self.inner) (B.covers s.inner)) }
        ensures watched { HeedsOrNot (λ s. B.watch s.inner) (λ w. B.Wreck.watch w.inner) (B.watch self.inner) result }
        ensures recorded { KeepsPut (λ s. s.recorded.items) (λ w. w.recorded.items)
            self.recorded.items (Op.Put (V.plain block.now).height) result }
    {
        let Recording {
            inner,
            mut recorded,
        } = self;
        let Some(()) = keep_put(&mut recorded, V::height(block)) else {
            let inner = inner.wreck();
            return Err(Lost::Memory(RecordingWreck { inner, recorded }));
        };
        match inner.put(digest, block) {
            Ok(inner) => Ok(Recording { inner, recorded }),
            Err(lost) => Err(lost_with::<BlockItem<V>, B::Wreck>(lost, recorded)),
        }
    }
}
