//! What a crash left of stores is opened, two at a time.
ghost use Rattle.std.specs.Prelude.{◌≡◌, ◌⊎◌, IfErr, IfOk};
ghost use Rattle.mar_model.specs.Faults.{block_store, cert_store};
ghost use Rattle.mar_life.specs.Pooling.{Closes, ClosesPairs, Opens, OpensPairs, Unopens, UnopensPairs};
ghost use Rattle.mar_life.specs.Caching.{ClosesCache, OpensCache};
ghost use Rattle.mar_model.specs.Views.{fault_of};

use crate::LifeCache;
use crate::in_place::lost_by;
use crate::keeps::Keeps;
use mar_block::Variant;
use mar_cert::CommitsTo;
use mar_model::{Fault, Progress, StoreName};
use mar_store::Meta;
use mar_types::Named;

/// Why two stores were not opened, and what is left of them.
#[derive(Drop)]
pub struct Unopened<C, A, B> {
    /// Why they were not.
    pub fault: Fault<C>,
    /// What is left of the first.
    pub first: A,
    /// What is left of the second.
    pub second: B,
}

/// Opens what a crash left of the blocks, and then of the finalizations.
pub fn archives<T, S: Keeps<T>, U, R: Keeps<U>, C: Named>(
    blocks: S::Wreck,
    certs: R::Wreck,
    luck: u64,
) -> Result<(S, R), Unopened<C, S::Wreck, R::Wreck>>
    ensures blocks { IfOk result (λ p. Opens S.stored S.Wreck.left S.watch S.Wreck.watch luck blocks p.0) }
    ensures certs { IfOk result (λ p. Opens R.stored R.Wreck.left R.watch R.Wreck.watch luck certs p.1) }
    ensures lost { IfErr result (λ e. Unopens block_store S.Wreck.left S.Wreck.watch blocks e.first (fault_of C.bytes e.fault) × (e.second ≡ certs)
        ⊎ Closes S.Wreck.left S.Wreck.watch blocks e.first × Unopens cert_store R.Wreck.left R.Wreck.watch certs e.second (fault_of C.bytes e.fault)) }
{
    let blocks = match S::reopen(blocks, luck) {
        Ok(blocks) => blocks,
        Err(lost) => {
            let (fault, first) = lost_by(lost, StoreName::Blocks);
            return Err(Unopened {
                fault,
                first,
                second: certs,
            });
        }
    };
    match R::reopen(certs, luck) {
        Ok(certs) => Ok((blocks, certs)),
        Err(lost) => {
            let (fault, second) = lost_by(lost, StoreName::Certs);
            Err(Unopened {
                fault,
                first: blocks.wreck(),
                second,
            })
        }
    }
}

/// Opens what a crash left of the metadata, and then of the cache.
pub fn progress<V: Variant, F: CommitsTo<V::Commitment>, M: Meta, H: LifeCache<V, F>>(
    meta: M::Wreck,
    cache: H::Ruin,
    luck: u64,
) -> Result<(Progress<M, V::Commitment, F>, H), Unopened<V::Commitment, M::Wreck, H::Ruin>>
    ensures pairs { IfOk result (λ p. OpensPairs (M.Wreck.left meta) (M.Wreck.watch meta) luck p.0) }
    ensures cache { IfOk result (λ p. OpensCache H.held H.lowest H.lowests H.intact H.Ruin.left H.Ruin.lowests
        H.watch H.Ruin.watch luck cache p.1) }
    ensures lost { IfErr result (λ e. UnopensPairs M.Wreck.left M.Wreck.watch meta e.first (fault_of V.Commitment.bytes e.fault) × (e.second ≡ cache)
        ⊎ ClosesPairs M.Wreck.left M.Wreck.watch meta e.first
        × ClosesCache H.Ruin.left H.Ruin.lowests H.Ruin.watch cache e.second (fault_of V.Commitment.bytes e.fault)) }
{
    let progress = match M::reopen(meta, luck) {
        Ok(meta) => Progress::new(meta),
        Err(lost) => {
            let (fault, first) = lost_by(lost, StoreName::Meta);
            return Err(Unopened {
                fault,
                first,
                second: cache,
            });
        }
    };
    match H::reopen(cache, luck) {
        Ok(cache) => Ok((progress, cache)),
        Err(lost) => {
            let (fault, second) = lost_by(lost, StoreName::Cache);
            Err(Unopened {
                fault,
                first: progress.wreck(),
                second,
            })
        }
    }
}
