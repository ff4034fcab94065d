//! How the cache is pruned as a round is witnessed. A call that fails ends the life.
ghost use Rattle.std.specs.Prelude.{◌≡◌, ◌∷◌, [], IfErr, OnOk};
ghost use Rattle.mar_model.specs.Cache.{prunes_by};
ghost use Rattle.mar_model.specs.Held.{GoesOn, IsUsual, written_prunes};
ghost use Rattle.mar_model.specs.Moves.{PrunesCacheBy, pruned_by, with_cache_of};
ghost use Rattle.mar_model.specs.Views.{fault_of};

use mar_cert::Variant;
use mar_model::{Fault, Holds};
use mar_types::{EpochDelta, Round, ViewDelta};

/// Prunes the cache by the last round witnessed, where this one is newer: what lies up to `retention` views below that last
/// one stays.
pub(crate) fn prune_before<V: Variant, S: Holds<V>>(
    stores: &mut S,
    round: Round,
    retention: u64,
) -> Result<(), Fault<V::Commitment>>
    ensures same { OnOk result (S.held stores.new ≡ with_cache_of (S.held stores.new) (S.held stores.old)) }
    ensures prunes { OnOk result (PrunesCacheBy (pruned_by retention (S.held stores.old).witnessed (round ∷ [])) (S.held stores.old) (S.held stores.new)) }
    ensures goes_on { GoesOn (fault_of V.Commitment.bytes) (S.held stores.old)
        (written_prunes (pruned_by retention (S.held stores.old).witnessed (round ∷ []))) (S.held stores.new) result }
    ensures usual { IfErr result (λ e. IsUsual (fault_of V.Commitment.bytes e)) }
{
    let last = stores.floor().witnessed();
    if last < round {
        stores.prune_cache(retained_from(last, retention))
    } else {
        Ok(())
    }
}

/// The round that lies `retention` views below this one. Each view that its epoch lacks for that takes one from the epoch, and
/// both numbers stop at zero.
fn retained_from(round: Round, retention: u64) -> Round
    ensures { result ≡ prunes_by retention round }
{
    let view = round.view();
    let lacking = retention.saturating_sub(view.get());
    Round::new(
        round.epoch().saturating_sub(EpochDelta::new(lacking)),
        view.saturating_sub(ViewDelta::new(retention)),
    )
}
