//! What the repair of gaps asks of the stores of a life.
ghost use Rattle.std.specs.Prelude.{◌≡◌, IfErr, IfOk, OnOk, option_map, true};
ghost use Rattle.mar_gate.specs.Writing.{with_all_covered};
ghost use Rattle.mar_model.specs.Held.{AreWritten, GoesOn, IsArchiveFault, IsReadFault, IsUsual, MakesSure, nothing_written};
ghost use Rattle.mar_model.specs.Repair.{cached_for};
ghost use Rattle.mar_model.specs.Views.{fault_of};

use crate::fault::Fault;
use crate::holds::Holds;
use mar_cert::{CommitsTo, Variant};

/// The stores of a life, as far as gaps are filled from the cache and what was filled in is made durable.
pub trait HoldsGaps<V: Variant>: Holds<V> {
    /// The cached finalization of a commitment: of those of its digest the one in the newest epoch, there of the lowest view,
    /// where that is its payload. It makes one call of the cache.
    fn cached_finalization(
        &mut self,
        commitment: V::Commitment,
    ) -> Result<Option<Self::Finalization>, Fault<V::Commitment>>
        ensures staged { Self.staged self.new ≡ Self.staged self.old }
        ensures tickets { Self.covers self.new ≡ Self.covers self.old }
        ensures found { IfOk result (λ r. option_map Self.Finalization.plain r
            ≡ cached_for V.inner (Self.held self.old).cache.kept.held (V.Commitment.bytes commitment)) }
        ensures same { OnOk result (Self.held self.new ≡ record (Self.held self.old) { watches = (Self.held self.new).watches }) }
        ensures goes_on { GoesOn (fault_of V.Commitment.bytes) (Self.held self.old) nothing_written (Self.held self.new) result }
        ensures read { IfErr result (λ e. IsReadFault (fault_of V.Commitment.bytes e)) }
        ensures usual { IfErr result (λ e. IsUsual (fault_of V.Commitment.bytes e)) };

    /// Syncs both archives and waits for that, which makes durable all that was written. Open syncs stay open. It makes one call
    /// of each archive.
    fn sync_archives(&mut self) -> Result<(), Fault<V::Commitment>>
        ensures staged { Self.staged self.new ≡ Self.staged self.old }
        ensures tickets { Self.covers self.new ≡ Self.covers self.old }
        ensures blocks { OnOk result (MakesSure (Self.held self.old).blocks (Self.held self.new).blocks) }
        ensures certs { OnOk result (MakesSure (Self.held self.old).certs (Self.held self.new).certs) }
        ensures written { (Self.held self.old).intact ≡ true → OnOk result (AreWritten (Self.held self.new)) }
        ensures same { OnOk result (Self.held self.new ≡ record (Self.held self.old) {
          blocks = (Self.held self.new).blocks;
          certs = (Self.held self.new).certs;
          writes = with_all_covered (Self.held self.old).writes;
          watches = (Self.held self.new).watches;
        }) }
        ensures goes_on { GoesOn (fault_of V.Commitment.bytes) (Self.held self.old) nothing_written (Self.held self.new) result }
        ensures archive { IfErr result (λ e. IsArchiveFault (fault_of V.Commitment.bytes e)) }
        ensures usual { IfErr result (λ e. IsUsual (fault_of V.Commitment.bytes e)) };
}
