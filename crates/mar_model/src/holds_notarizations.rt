//! The notarizations in the cache of a life, as far as the rules of a node see them.
ghost use Rattle.std.specs.Prelude.{◌≡◌, IfErr, IfOk};
ghost use Rattle.mar_cert.specs.Finalization.{finalization_bytes};
ghost use Rattle.mar_store.specs.Sizes.{IsSmall};
ghost use Rattle.mar_model.specs.Cached.{notarization_entry};
ghost use Rattle.mar_model.specs.Held.{GoesOn, IsUsual, written_entry};
ghost use Rattle.mar_model.specs.Moves.{CachesEntry};
ghost use Rattle.mar_model.specs.Views.{fault_of};

use crate::fault::Fault;
use crate::holds_gaps::HoldsGaps;
use crate::started::Started;
use mar_cert::{CommitsTo, Variant};

/// All that is asked of the stores of a life, where they cache notarizations of this type. It is a trait of its own so that a rule
/// which puts none names no such type.
pub trait HoldsNotarizations<V: Variant>: HoldsGaps<V> {
    /// A notarization as it is cached.
    type Notarization: CommitsTo<V::Commitment>;

    /// Keeps a notarization, and starts a sync of those of its epoch. Nothing is kept of an epoch below the lowest, and there
    /// is nothing to wait for then.
    fn put_notarization(
        &mut self,
        notarization: Self::Notarization,
    ) -> Result<Started, Fault<V::Commitment>>
        requires small { IsSmall (finalization_bytes (Self.Notarization.plain notarization)) }
        ensures staged { Self.staged self.new ≡ Self.staged self.old }
        ensures caches { IfOk result (λ s. CachesEntry (notarization_entry (Self.Notarization.plain notarization)) s
            (Self.held self.old) (Self.held self.new) (Self.covers self.old) (Self.covers self.new)) }
        ensures goes_on { GoesOn (fault_of V.Commitment.bytes) (Self.held self.old)
            (written_entry (notarization_entry (Self.Notarization.plain notarization))) (Self.held self.new) result }
        ensures usual { IfErr result (λ e. IsUsual (fault_of V.Commitment.bytes e)) };
}
