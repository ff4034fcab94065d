//! The block that is at hand. A read that fails ends the life.
ghost use Rattle.std.specs.Option.{option_or};
ghost use Rattle.std.specs.Prelude.{◌≡◌, IfErr, IfOk, OnOk, option_map};
ghost use Rattle.mar_model.specs.Held.{GoesOn, IsReadFault, IsUsual, nothing_written};
ghost use Rattle.mar_model.specs.Moves.{cached_by_commitment, found_at_hand, of_commitment};
ghost use Rattle.mar_model.specs.Stored.{block_of};
ghost use Rattle.mar_model.specs.Views.{fault_of};

use crate::entry::BlockName;
use crate::fault::Fault;
use crate::holds::Holds;
use crate::names::is_same;
use mar_cert::{Finds, Variant};

/// The block of a commitment: from the buffer, from the cache, or from the store.
pub fn block_at_hand<V: Variant, S: Holds<V>, B: Finds<V>>(
    stores: &mut S,
    commitment: V::Commitment,
    buffer: &B,
) -> Result<Option<V::Block>, Fault<V::Commitment>>
    ensures same { OnOk result (S.held stores.new ≡ record (S.held stores.old) { watches = (S.held stores.new).watches }) }
    ensures found { IfOk result (λ r. option_map V.plain r ≡ found_at_hand V.inner (B.blocks buffer.now) (S.held stores.old).cache.kept.held
        (S.held stores.old).blocks.held (V.Commitment.bytes commitment)) }
    ensures goes_on { GoesOn (fault_of V.Commitment.bytes) (S.held stores.old) nothing_written (S.held stores.new) result }
    ensures read { IfErr result (λ e. IsReadFault (fault_of V.Commitment.bytes e)) }
    ensures usual { IfErr result (λ e. IsUsual (fault_of V.Commitment.bytes e)) }
{
    match buffer.find_by_commitment(&commitment) {
        Ok(Some(block)) => Ok(Some(block)),
        Ok(None) => kept_block::<V, S>(stores, commitment),
        Err(_) => Err(Fault::Memory),
    }
}

/// The block of a commitment: from the cache, or from the store.
fn kept_block<V: Variant, S: Holds<V>>(
    stores: &mut S,
    commitment: V::Commitment,
) -> Result<Option<V::Block>, Fault<V::Commitment>>
    ensures same { OnOk result (S.held stores.new ≡ record (S.held stores.old) { watches = (S.held stores.new).watches }) }
    ensures found { IfOk result (λ r. option_map V.plain r
        ≡ option_or (cached_by_commitment (V.Commitment.bytes commitment) (S.held stores.old).cache.kept.held)
        (of_commitment (V.Commitment.bytes commitment) (block_of (S.held stores.old).blocks.held (V.inner (V.Commitment.bytes commitment))))) }
    ensures goes_on { GoesOn (fault_of V.Commitment.bytes) (S.held stores.old) nothing_written (S.held stores.new) result }
    ensures read { IfErr result (λ e. IsReadFault (fault_of V.Commitment.bytes e)) }
    ensures usual { IfErr result (λ e. IsUsual (fault_of V.Commitment.bytes e)) }
{
    if let Some(block) = stores.cached_block(BlockName::Commitment(commitment))? {
        return Ok(Some(block));
    }
    let digest = V::commitment_to_inner(commitment);
    let block = stores.block_of(&digest)?;
    Ok(of_commitment::<V>(block, commitment))
}

/// The block, where it has this commitment.
fn of_commitment<V: Variant>(block: Option<V::Block>, commitment: V::Commitment) -> Option<V::Block>
    ensures { option_map V.plain result ≡ of_commitment (V.Commitment.bytes commitment) (option_map V.plain block) }
{
    match block {
        None => None,
        Some(block) => {
            if is_same(V::commitment(&block), commitment) {
                Some(block)
            } else {
                None
            }
        }
    }
}
