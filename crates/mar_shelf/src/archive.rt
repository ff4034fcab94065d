//! A store over an archive, which prunes that or not.
ghost use Rattle.std.specs.Prelude.{◌≡◌, Bool, false, true};

use mar_store::{Lost, SyncTicket};
use std::marker::{Model, PhantomData};

/// Whether a store prunes its archive.
pub trait Pruning {
    const PRUNES: bool;

    ghost PRUNES: { Bool };
}

/// Nothing is pruned.
pub struct Immutable;

/// What a caller prunes is pruned.
pub struct Prunable;

impl Pruning for Immutable {
    const PRUNES: bool = false;

    ghost PRUNES = { false };
}

impl Pruning for Prunable {
    const PRUNES: bool = true;

    ghost PRUNES = { true };
}

/// A store over an archive. A contract sees the archive.
#[derive(Drop)]
pub struct Archived<A, P> {
    pub(crate) archive: A,
    pub(crate) of: PhantomData<P>,
}

impl<A, P> Model for Archived<A, P> {
    ghost Value = { A };

    ghost view = { λ s. s.archive };
}

impl<A, P> Archived<A, P> {
    /// The store over an archive.
    pub fn new(archive: A) -> Self
        ensures { result ≡ archive }
    {
        Archived {
            archive,
            of: PhantomData,
        }
    }
}

/// The store where its archive went on, and what is left where that is lost.
pub(crate) fn wrapped<A, W, P>(done: Result<A, Lost<W>>) -> Result<Archived<A, P>, Lost<W>>
    ensures { result ≡ done }
{
    match done {
        Ok(archive) => Ok(Archived::new(archive)),
        Err(lost) => Err(lost),
    }
}

/// The same of a call that makes a ticket.
pub(crate) fn wrapped_with_ticket<A, W, P>(
    done: Result<(A, SyncTicket), Lost<W>>,
) -> Result<(Archived<A, P>, SyncTicket), Lost<W>>
    ensures { result ≡ done }
{
    match done {
        Ok((archive, ticket)) => Ok((Archived::new(archive), ticket)),
        Err(lost) => Err(lost),
    }
}
