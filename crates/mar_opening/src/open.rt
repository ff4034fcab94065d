//! Opening the stores of a life.
ghost use Rattle.std.specs.Prelude.{◌≡◌, ◌∷◌, [], IfErr, IfOk, OnOk, option_map, true, ℕ};
ghost use Rattle.mar_key.specs.Processed.{at_block};
ghost use Rattle.mar_model.specs.Held.{Remains, ReopensAs, ended_on};
ghost use Rattle.mar_model.specs.Lives.{round_zero};
ghost use Rattle.mar_model.specs.Opening.{pair_in};
ghost use Rattle.mar_model.specs.Views.{fault_of};
ghost use Rattle.mar_store.specs.Kept.{EachHeightOnce};
ghost use Rattle.mar_store.specs.Sizes.{IsSmall};
ghost use Rattle.mar_opening.specs.Opened.{FailsToOpen, OpensAs};

use crate::derived::derive;
use crate::reopened::begin;
use mar_cert::Variant;
use mar_model::{Ended, Fault, Holds, StoresRuin};
use mar_types::Epocher;
use std::alloc::Global;

/// Reopens the stores, takes the memory that they stand in while the life runs, and settles them.
pub fn open_stores<V: Variant, S: Holds<V>, E: Epocher>(
    alloc: Global,
    ruins: S::Ruins,
    luck: u64,
    max_staged: usize,
    genesis: &V::Block,
    epocher: &E,
) -> Result<Box<S>, Ended<V, S>>
    requires small { IsSmall (V.plain genesis.now).encoded }
    ensures intact { IfOk result (λ s. (S.held s.value).intact ≡ true) }
    ensures opens { IfOk result (λ s. OpensAs (E.epochs epocher.now) (S.Ruins.left ruins) luck (V.plain genesis.now) (S.held s.value)) }
    ensures fails { IfErr result (λ e. FailsToOpen (E.epochs epocher.now) (S.Ruins.left ruins) luck (V.plain genesis.now) e) }
{
    let stores = S::reopen(alloc, ruins, luck, max_staged)?;
    let mut stores = match Box::new(alloc, stores) {
        Ok(stores) => stores,
        Err(failed) => {
            let ruins = failed.value.wreck();
            return Err(Ended {
                fault: Fault::Memory,
                ruins,
            });
        }
    };
    match settle::<V, S, E>(&mut stores, genesis, epocher) {
        Ok(()) => Ok(stores),
        Err(fault) => {
            let ruins = Box::into_inner(stores).wreck();
            Err(Ended { fault, ruins })
        }
    }
}

/// Judges what reopened stores hold, and raises the cutoff to what the archives show.
fn settle<V: Variant, S: Holds<V>, E: Epocher>(
    stores: &mut S,
    genesis: &V::Block,
    epocher: &E,
) -> Result<(), Fault<V::Commitment>>
    requires raw { (S.held stores.old).processed ≡ option_map at_block (pair_in (S.held stores.old)).processed }
    requires small { IsSmall (V.plain genesis.now).encoded }
    requires once { EachHeightOnce (S.held stores.old).certs.held }
    requires pairs { (S.held stores.old).pairs ≡ pair_in (S.held stores.old) ∷ [] }
    requires fresh { (S.held stores.old).witnessed ≡ round_zero }
    requires intact { (S.held stores.old).intact ≡ true }
    ensures intact { OnOk result ((S.held stores.new).intact ≡ true) }
    ensures opens { (old : Remains) (luck : ℕ) → ReopensAs old luck (S.held stores.old)
        → OnOk result (OpensAs (E.epochs epocher.now) old luck (V.plain genesis.now) (S.held stores.new)) }
    ensures fails { (old : Remains) (luck : ℕ) → ReopensAs old luck (S.held stores.old) → IfErr result (λ e. FailsToOpen (E.epochs epocher.now) old luck
        (V.plain genesis.now) (ended_on (fault_of V.Commitment.bytes e) (S.held stores.new))) }
{
    begin::<V, S>(stores, genesis)?;
    stores.law();
    derive::<V, S, E>(stores, epocher)
}
