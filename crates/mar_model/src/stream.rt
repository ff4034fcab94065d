//! The processed height and the round cutoff, kept in a metadata store.
ghost use Rattle.std.specs.Prelude.{◌≡◌, ◌^◌, ◌<◌, [], ◌∷◌, IfOk, IsTrue, MatchResult, Ok, OnErr, OnOk, Some, false, map, true};
ghost use Rattle.mar_key.specs.Views.{cutoff_of};
ghost use Rattle.mar_store.specs.Watch.{armed, Heeds, IsCalm};
ghost use Rattle.mar_store.specs.Lost.{wreck_of};
ghost use Rattle.mar_store.specs.Values.{LeavesValues, synced_values};
ghost use Rattle.mar_model.specs.Metadata.{AreKeys, LeavesPairs, cutoff_at, height_after_processed, pair_at};

use mar_key::Cutoff;
use mar_store::{Lost, Meta, MetaRuin};
use mar_types::{Epoch, Height, Round, View};
use std::alloc::AllocError;
use std::marker::Model;

/// The key of the processed height.
const LATEST_KEY: u64 = 0xFF;

/// The key of the cutoff's epoch. Where it is alone, the cutoff covers that whole epoch.
const CUTOFF_EPOCH_KEY: u64 = 0xFE;

/// The key of the cutoff's view, where the cutoff is a round.
const CUTOFF_VIEW_KEY: u64 = 0xFD;

/// How far delivery has come: the processed height and the round cutoff, with the store that keeps them. Changes are
/// read at once and become durable together with the next sync. A contract sees a record of what is read now, what a
/// crash may leave (what is durable stands first), whether all is durable, and what the store tells of its failures.
#[derive(Drop)]
pub struct Stream<M: Meta> {
    meta: M,
    synced: bool,
}

impl<M: Meta> Model for Stream<M> {
    ghost use Rattle.std.specs.Prelude.{◌≡◌, [], ◌∷◌, IsTrue, map};
    ghost use Rattle.mar_model.specs.Metadata.{AreKeys, Streamed, pair_at};

    ghost Value = { Streamed };

    ghost view = { λ s. record {
      pair = pair_at (M.current s.meta);
      left = map pair_at (M.left s.meta);
      synced = s.synced;
      watch = M.watch s.meta;
    } };

    ghost invariant = { λ s. (IsTrue s.synced → M.left s.meta ≡ M.current s.meta ∷ []) × AreKeys (M.changed s.meta) };
}

impl<M: Meta> Stream<M> {
    /// The stream over a store in which all is durable, as a reopening leaves it.
    pub fn new(meta: M) -> Self
        requires durable { M.left meta ≡ M.current meta ∷ [] }
        requires unchanged { M.changed meta ≡ [] }
        ensures { result ≡ record { pair = pair_at (M.current meta); left = map pair_at (M.left meta); synced = true; watch = M.watch meta } }
    {
        Stream { meta, synced: true }
    }

    /// What a crash now leaves.
    pub fn wreck(self) -> M::Wreck
        ensures left { map pair_at (M.Wreck.left result) ≡ self.left }
        ensures watch { M.Wreck.watch result ≡ self.watch }
    {
        self.meta.wreck()
    }

    /// Makes the counted call of the store fail that is so many calls away, 1 being the next. Counted are a sync that
    /// has something to make durable, and a reopening. Where nothing can be armed it does nothing.
    pub fn arm(&mut self, calls: u64) -> Result<(), AllocError>
        ensures armed { OnOk result (self.new ≡ record self.old { watch = armed calls self.old.watch }) }
        ensures unarmed { OnErr result (self.new ≡ self.old) }
    {
        self.meta.arm(calls)
    }

    /// Whether all of it is durable.
    pub fn is_synced(&self) -> bool
        ensures value { result ≡ self.now.synced }
        ensures durable { IsTrue result → self.now.left ≡ self.now.pair ∷ [] }
    {
        self.synced
    }

    /// The processed height, if any.
    pub fn processed_height(&self) -> Option<Height>
        ensures { result ≡ self.now.pair.processed }
    {
        self.meta.get(LATEST_KEY).map(Height::new)
    }

    /// The height after the processed one, which has to fit 64 bits; zero where nothing is processed.
    pub fn next_height(&self) -> Height
        requires { height_after_processed self.now.pair.processed < 2 ^ 64 }
        ensures { result ≡ height_after_processed self.now.pair.processed }
    {
        match self.processed_height() {
            Some(height) => height.next(),
            None => Height::zero(),
        }
    }

    /// The round cutoff, the zero one where none was set.
    pub fn cutoff(&self) -> Cutoff
        ensures { cutoff_of result ≡ self.now.pair.cutoff }
    {
        cutoff_of_values(
            self.meta.get(CUTOFF_EPOCH_KEY),
            self.meta.get(CUTOFF_VIEW_KEY),
        )
    }

    /// Sets the processed height. The next sync makes it durable.
    pub fn acknowledge(self, height: Height) -> Result<Self, Lost<M::Wreck>>
        ensures done { MatchResult result
            (λ s. (s.pair ≡ record self.pair { processed = Some height }) × (s.left ≡ self.left) × (s.synced ≡ false))
            (λ l. LeavesPairs self.left [] (map pair_at (M.Wreck.left (wreck_of l)))) }
        ensures watched { IsCalm (λ s. s.watch) M.Wreck.watch self.watch result }
    {
        match self.meta.put(LATEST_KEY, height.get()) {
            Ok(meta) => Ok(Stream {
                meta,
                synced: false,
            }),
            Err(lost) => Err(lost),
        }
    }

    /// Sets the round cutoff. The next sync makes it durable.
    pub fn set_cutoff(self, cutoff: Cutoff) -> Result<Self, Lost<M::Wreck>>
        ensures done { MatchResult result
            (λ s. (s.pair ≡ record self.pair { cutoff = cutoff_of cutoff }) × (s.left ≡ self.left) × (s.synced ≡ false))
            (λ l. LeavesPairs self.left [] (map pair_at (M.Wreck.left (wreck_of l)))) }
        ensures watched { IsCalm (λ s. s.watch) M.Wreck.watch self.watch result }
    {
        match put_cutoff(self.meta, cutoff) {
            Ok(meta) => Ok(Stream {
                meta,
                synced: false,
            }),
            Err(lost) => Err(lost),
        }
    }

    /// Makes all changes durable together; where all is durable already, nothing is done.
    pub fn sync(self) -> Result<Self, Lost<M::Wreck>>
        ensures done { MatchResult result
            (λ s. (s.pair ≡ self.pair) × (s.left ≡ self.pair ∷ []) × (s.synced ≡ true))
            (λ l. LeavesPairs self.left (self.pair ∷ []) (map pair_at (M.Wreck.left (wreck_of l)))) }
        ensures idle { IsTrue self.synced → result ≡ Ok self }
        ensures watched { self.synced ≡ false → Heeds (λ s. s.watch) M.Wreck.watch self.watch result }
    {
        if self.synced {
            return Ok(self);
        }
        match self.meta.sync() {
            Ok(meta) => Ok(Stream { meta, synced: true }),
            Err(lost) => Err(lost),
        }
    }
}

// Stores the cutoff's epoch, and its view or that it has none.
fn put_cutoff<M: Meta>(meta: M, cutoff: Cutoff) -> Result<M, Lost<M::Wreck>>
    requires keys { AreKeys (M.changed meta) }
    ensures done { MatchResult result
        (λ s. (pair_at (M.current s) ≡ record (pair_at (M.current meta)) { cutoff = cutoff_of cutoff }) × (M.left s ≡ M.left meta))
        (λ l. LeavesValues (M.left meta) [] (M.Wreck.left (wreck_of l))) }
    ensures keys { IfOk result (λ s. AreKeys (M.changed s)) }
    ensures watched { IsCalm M.watch M.Wreck.watch (M.watch meta) result }
{
    match cutoff {
        Cutoff::Round(round) => {
            let meta = meta.put(CUTOFF_EPOCH_KEY, round.epoch().get())?;
            meta.put(CUTOFF_VIEW_KEY, round.view().get())
        }
        Cutoff::Epoch(epoch) => {
            let meta = meta.put(CUTOFF_EPOCH_KEY, epoch.get())?;
            meta.remove(CUTOFF_VIEW_KEY)
        }
    }
}

// The cutoff of an epoch and a view, where they are stored.
fn cutoff_of_values(epoch: Option<u64>, view: Option<u64>) -> Cutoff
    ensures { cutoff_of result ≡ cutoff_at epoch view }
{
    match epoch {
        None => Cutoff::zero(),
        Some(epoch) => match view {
            Some(view) => Cutoff::Round(Round::new(Epoch::new(epoch), View::new(view))),
            None => Cutoff::Epoch(Epoch::new(epoch)),
        },
    }
}

/// The processed height that the last successful sync of a lost store left, or its last reopening read.
pub fn synced_height<W: MetaRuin>(ruin: &W) -> Option<Height>
    ensures { result ≡ (pair_at (synced_values (W.left ruin.now))).processed }
{
    ruin.synced(LATEST_KEY).map(Height::new)
}

/// The round cutoff that the last successful sync of a lost store left, or its last reopening read.
pub fn synced_cutoff<W: MetaRuin>(ruin: &W) -> Cutoff
    ensures { cutoff_of result ≡ (pair_at (synced_values (W.left ruin.now))).cutoff }
{
    cutoff_of_values(ruin.synced(CUTOFF_EPOCH_KEY), ruin.synced(CUTOFF_VIEW_KEY))
}
