//! How far delivery has come in a life, as far as the rules of a node see it.
ghost use Rattle.std.specs.Prelude.{◌≡◌, ◌∷◌, [], IfErr, OnOk, Some};
ghost use Rattle.mar_key.specs.Processed.{at_absent, at_block};
ghost use Rattle.mar_key.specs.Views.{cutoff_of};
ghost use Rattle.mar_model.specs.Held.{ArePassed, GoesOn, IsUsual, LosesSince, nothing_written, written_pair};
ghost use Rattle.mar_model.specs.Lives.{later_round};
ghost use Rattle.mar_model.specs.Metadata.{pair_of};
ghost use Rattle.mar_model.specs.Views.{fault_of};

use crate::fault::Fault;
use crate::holds_cache::HoldsCache;
use mar_cert::Variant;
use mar_key::Cutoff;
use mar_types::{Height, Round};

/// What the stores of a life keep of how far delivery has come: what is processed, cut off and witnessed. What is witnessed,
/// and that a block isn't there, is kept in memory; each other call makes one call of the metadata, and `set_cutoff` two.
pub trait HoldsProgress<V: Variant>: HoldsCache<V> {
    /// Takes note of a round: the last one witnessed is the later of it and the one before.
    fn witness(&mut self, round: Round)
        ensures staged { Self.staged self.new ≡ Self.staged self.old }
        ensures tickets { Self.covers self.new ≡ Self.covers self.old }
        ensures held { Self.held self.new ≡ record (Self.held self.old) { witnessed = later_round (Self.held self.old).witnessed (Some round) } };

    /// The processed height, whose block isn't there.
    fn without_block(&mut self, height: Height)
        requires { (Self.held self.old).processed ≡ Some (at_block height) }
        ensures staged { Self.staged self.new ≡ Self.staged self.old }
        ensures tickets { Self.covers self.new ≡ Self.covers self.old }
        ensures held { Self.held self.new ≡ record (Self.held self.old) { processed = Some (at_absent height) } };

    /// The block at this height is processed, which becomes durable with the next sync of the metadata.
    fn set_processed(&mut self, height: Height) -> Result<(), Fault<V::Commitment>>
        ensures staged { Self.staged self.new ≡ Self.staged self.old }
        ensures tickets { Self.covers self.new ≡ Self.covers self.old }
        ensures ok { OnOk result (Self.held self.new
            ≡ record (Self.held self.old) { processed = Some (at_block height); watches = (Self.held self.new).watches }) }
        ensures goes_on { GoesOn (fault_of V.Commitment.bytes) (Self.held self.old) nothing_written (Self.held self.new) result }
        ensures usual { IfErr result (λ e. IsUsual (fault_of V.Commitment.bytes e)) };

    /// Sets the cutoff, which becomes durable with the next sync of the metadata.
    fn set_cutoff(&mut self, cutoff: &Cutoff) -> Result<(), Fault<V::Commitment>>
        ensures staged { Self.staged self.new ≡ Self.staged self.old }
        ensures tickets { Self.covers self.new ≡ Self.covers self.old }
        ensures ok { OnOk result (Self.held self.new ≡ record (Self.held self.old) { cutoff = cutoff_of cutoff.now; watches = (Self.held self.new).watches }) }
        ensures goes_on { GoesOn (fault_of V.Commitment.bytes) (Self.held self.old) nothing_written (Self.held self.new) result }
        ensures usual { IfErr result (λ e. IsUsual (fault_of V.Commitment.bytes e)) };

    /// Makes the processed height and the cutoff durable together.
    fn sync_metadata(&mut self) -> Result<(), Fault<V::Commitment>>
        ensures staged { Self.staged self.new ≡ Self.staged self.old }
        ensures tickets { Self.covers self.new ≡ Self.covers self.old }
        ensures ok { OnOk result (Self.held self.new ≡ record (Self.held self.old) {
          pairs = pair_of (Self.held self.old).processed (Self.held self.old).cutoff
              ∷ [];
          watches = (Self.held self.new).watches;
        }) }
        ensures passed { OnOk result (ArePassed (Self.held self.old).watches (Self.held self.new).watches) }
        ensures lost { LosesSince (fault_of V.Commitment.bytes) (Self.held self.old)
            (written_pair (pair_of (Self.held self.old).processed (Self.held self.old).cutoff)) (Self.held self.new) result }
        ensures usual { IfErr result (λ e. IsUsual (fault_of V.Commitment.bytes e)) };
}
