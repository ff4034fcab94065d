//! What rules read of the stores of a life. A read that fails ends the life.
ghost use Rattle.std.specs.Prelude.{◌≡◌, IfErr, IfOk, OnOk, option_map};
ghost use Rattle.mar_model.specs.Event.{round_at};
ghost use Rattle.mar_model.specs.Held.{GoesOn, IsReadFault, IsUsual, nothing_written};
ghost use Rattle.mar_model.specs.Stored.{newest};
ghost use Rattle.mar_model.specs.Views.{entry_of, fault_of};

use crate::fault::Fault;
use crate::holds::Holds;
use mar_cert::{AsFinalization, Variant};
use mar_types::{Height, Round};

/// The round that finalized the block at a height, where its certificate is held.
pub fn round_at<V: Variant, S: Holds<V>>(
    stores: &mut S,
    height: Height,
) -> Result<Option<Round>, Fault<V::Commitment>>
    ensures same { OnOk result (S.held stores.new ≡ record (S.held stores.old) { watches = (S.held stores.new).watches }) }
    ensures found { IfOk result (λ r. r ≡ round_at (S.held stores.old).certs.held height) }
    ensures goes_on { GoesOn (fault_of V.Commitment.bytes) (S.held stores.old) nothing_written (S.held stores.new) result }
    ensures read { IfErr result (λ e. IsReadFault (fault_of V.Commitment.bytes e)) }
    ensures usual { IfErr result (λ e. IsUsual (fault_of V.Commitment.bytes e)) }
{
    match stores.certificate_at(height)? {
        None => Ok(None),
        Some(finalization) => Ok(Some(finalization.round())),
    }
}

/// The stored finalization of the greatest height, with that height.
pub fn newest_certificate<V: Variant, S: Holds<V>>(
    stores: &mut S,
) -> Result<Option<(Height, S::Finalization)>, Fault<V::Commitment>>
    ensures same { OnOk result (S.held stores.new ≡ record (S.held stores.old) { watches = (S.held stores.new).watches }) }
    ensures found { IfOk result (λ r. option_map (entry_of S.Finalization.plain) r ≡ newest (S.held stores.old).certs.held) }
    ensures goes_on { GoesOn (fault_of V.Commitment.bytes) (S.held stores.old) nothing_written (S.held stores.new) result }
    ensures read { IfErr result (λ e. IsReadFault (fault_of V.Commitment.bytes e)) }
    ensures usual { IfErr result (λ e. IsUsual (fault_of V.Commitment.bytes e)) }
{
    match stores.last_certificate() {
        None => Ok(None),
        Some(height) => {
            match stores.certificate_at(height)? {
                None => Ok(None),
                Some(finalization) => Ok(Some((height, finalization))),
            }
        }
    }
}
