//! How far delivery has come.
ghost use Rattle.std.specs.Prelude.{◌≡◌, ◌∷◌, [], OnErr, OnOk, Some, map, true};
ghost use Rattle.mar_model.specs.Lives.{later_round};
ghost use Rattle.mar_key.specs.Processed.{at_absent, at_block};
ghost use Rattle.mar_key.specs.Views.{cutoff_of};
ghost use Rattle.mar_store.specs.Lost.{wreck_of};
ghost use Rattle.mar_store.specs.Watch.{armed};
ghost use Rattle.mar_model.specs.Metadata.{LeavesPairs, pair_at, pair_of};
ghost use Rattle.mar_model.specs.Places.{HeedsOrIdlesOn, IsCalmOn};
ghost use Rattle.mar_model.specs.Held.{progress_of};

use crate::floor::State;
use crate::place::{Place, parts_of};
use crate::stream::Stream;
use mar_cert::CommitsTo;
use mar_key::{Cutoff, Floor, Processed};
use mar_store::{Meta, MetaRuin, Miss};
use mar_types::{Height, Named, Round};
use std::alloc::AllocError;
use std::marker::Model;

/// The floors of a node, with the stream that keeps the processed height and the round cutoff. Changes are seen at once;
/// those of the two become durable together with the next sync. Where a call failed that changes the store, later ones
/// change nothing and answer want of memory, and what is left of it is handed back as it is.
#[derive(Drop)]
pub struct Progress<M: Meta, C: Named, F: CommitsTo<C>> {
    stream: Place<Stream<M>, M::Wreck>,
    floor: State<C, F>,
}

impl<M: Meta, C: Named, F: CommitsTo<C>> Model for Progress<M, C, F> {
    ghost use Rattle.mar_model.specs.Metadata.{pair_of};
    ghost use Rattle.mar_model.specs.Held.{Progress};
    ghost use Rattle.mar_model.specs.Places.{Reads, is_open, pairs_at, watch_at};

    ghost Value = { Progress };

    ghost view = { λ p. record {
      processed = p.floor.processed;
      cutoff = p.floor.cutoff;
      witnessed = p.floor.witnessed;
      pairs = pairs_at M.Wreck.left p.stream;
      watch = watch_at (λ s. s.watch) M.Wreck.watch p.stream;
      intact = is_open p.stream;
    } };

    ghost invariant = { λ p. Reads p.stream (pair_of p.floor.processed p.floor.cutoff) };
}

impl<M: Meta, C: Named, F: CommitsTo<C>> Progress<M, C, F> {
    /// What a reopened store says.
    pub fn new(meta: M) -> Self
        requires durable { M.left meta ≡ M.current meta ∷ [] }
        requires unchanged { M.changed meta ≡ [] }
        ensures { result ≡ progress_of (pair_at (M.current meta)) (M.watch meta) }
    {
        let stream = Stream::new(meta);
        let processed = stream.processed_height().map(Processed::Block);
        let floor = Floor::new(processed, stream.cutoff());
        Progress {
            stream: Place::Open(stream),
            floor: State::new(None, floor, Round::zero()),
        }
    }

    /// The floors of the node.
    pub fn floor(&self) -> &State<C, F>
        ensures processed { result.now.processed ≡ self.now.processed }
        ensures cutoff { result.now.cutoff ≡ self.now.cutoff }
        ensures witnessed { result.now.witnessed ≡ self.now.witnessed }
    {
        &self.floor
    }

    /// The processed height, whose block isn't there.
    pub fn without_block(&mut self, height: Height)
        requires { self.old.processed ≡ Some (at_block height) }
        ensures { self.new ≡ record self.old { processed = Some (at_absent height) } }
    {
        self.floor.set_processed(Processed::Absent(height));
    }

    /// Takes note of a round: the last one witnessed is the later of it and the one before.
    pub fn witness(&mut self, round: Round)
        ensures { self.new ≡ record self.old { witnessed = later_round self.old.witnessed (Some round) } }
    {
        let _before = self.floor.witness(round);
    }

    /// Makes the counted call of the store fail that is so many calls away, 1 being the next. Counted are a sync that
    /// has something to make durable, and a reopening. Where nothing can be armed it does nothing.
    pub fn arm(&mut self, calls: u64) -> Result<(), AllocError>
        ensures armed { OnOk result (self.new ≡ record self.old { watch = armed calls self.old.watch }) }
        ensures unarmed { OnErr result (self.new ≡ self.old) }
    {
        match &mut self.stream {
            Place::Open(stream) => stream.arm(calls),
            Place::Lost(wreck) => wreck.arm(calls),
            Place::Away => unreachable!(),
        }
    }

    /// What a crash now leaves.
    pub fn wreck(self) -> M::Wreck
        ensures left { map pair_at (M.Wreck.left result) ≡ self.pairs }
        ensures watch { M.Wreck.watch result ≡ self.watch }
    {
        let Progress {
            stream,
            floor: _floor,
        } = self;
        match stream {
            Place::Open(stream) => stream.wreck(),
            Place::Lost(wreck) => wreck,
            Place::Away => unreachable!(),
        }
    }

    /// The block at this height is processed.
    pub fn set_processed(&mut self, height: Height) -> Result<(), Miss>
        ensures ok { OnOk result (self.new ≡ record self.old { processed = Some (at_block height) }) }
        ensures lost { OnErr result ((self.new ≡ record self.old { pairs = self.new.pairs; watch = self.new.watch; intact = self.new.intact })
            × LeavesPairs self.old.pairs [] self.new.pairs) }
        ensures watched { IsCalmOn self.old.watch self.new.watch result }
    {
        let stream = match self.stream.take() {
            Some(stream) => stream,
            None => return Err(Miss::Memory),
        };
        match stream.acknowledge(height) {
            Ok(stream) => {
                self.stream = Place::Open(stream);
                self.floor.set_processed(Processed::Block(height));
                Ok(())
            }
            Err(lost) => {
                let (miss, wreck) = parts_of(lost);
                self.stream = Place::Lost(wreck);
                Err(miss)
            }
        }
    }

    /// The cutoff is this one now.
    pub fn set_cutoff(&mut self, cutoff: &Cutoff) -> Result<(), Miss>
        ensures ok { OnOk result (self.new ≡ record self.old { cutoff = cutoff_of cutoff.now }) }
        ensures lost { OnErr result ((self.new ≡ record self.old { pairs = self.new.pairs; watch = self.new.watch; intact = self.new.intact })
            × LeavesPairs self.old.pairs [] self.new.pairs) }
        ensures watched { IsCalmOn self.old.watch self.new.watch result }
    {
        let stream = match self.stream.take() {
            Some(stream) => stream,
            None => return Err(Miss::Memory),
        };
        match stream.set_cutoff(*cutoff) {
            Ok(stream) => {
                self.stream = Place::Open(stream);
                self.floor.set_cutoff(*cutoff);
                Ok(())
            }
            Err(lost) => {
                let (miss, wreck) = parts_of(lost);
                self.stream = Place::Lost(wreck);
                Err(miss)
            }
        }
    }

    /// Makes both durable together. Where they are durable already nothing is done or counted.
    pub fn sync(&mut self) -> Result<(), Miss>
        ensures ok { OnOk result (self.new ≡ record self.old { pairs = pair_of self.old.processed self.old.cutoff ∷ []; watch = self.new.watch }) }
        ensures lost { OnErr result ((self.new ≡ record self.old { pairs = self.new.pairs; watch = self.new.watch; intact = self.new.intact })
            × LeavesPairs self.old.pairs (pair_of self.old.processed self.old.cutoff ∷ []) self.new.pairs) }
        ensures watched { HeedsOrIdlesOn self.old.watch self.new.watch result }
    {
        let stream = match self.stream.take() {
            Some(stream) => stream,
            None => return Err(Miss::Memory),
        };
        match stream.sync() {
            Ok(stream) => {
                self.stream = Place::Open(stream);
                Ok(())
            }
            Err(lost) => {
                let (miss, wreck) = parts_of(lost);
                self.stream = Place::Lost(wreck);
                Err(miss)
            }
        }
    }
}
