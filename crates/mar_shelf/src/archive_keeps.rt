//! What all stores over archives have in common.
use crate::archive::{Archived, Pruning, wrapped, wrapped_with_ticket};
use mar_life::Keeps;
use mar_store::{Archive, Item, Lost, RangeSet, SyncTicket};
use mar_types::Height;
use std::alloc::AllocError;

impl<T: Item, A: Archive<T>, P: Pruning> Keeps<T> for Archived<A, P> {
    type Wreck = A::Wreck;

    ghost stored = { λ s. A.stored s };

    ghost watch = { λ s. A.watch s };

    ghost number = { λ s. A.number s };

    ghost covers = { λ s. A.covers s };

    ghost prunes = { P.PRUNES };

    ghost nested = { λ s. A.nested s };

    ghost last = { λ s. A.last s };

    fn sync(self) -> Result<Self, Lost<A::Wreck>> {
        wrapped(self.archive.sync())
    }

    fn start_sync(self) -> Result<(Self, SyncTicket), Lost<A::Wreck>> {
        wrapped_with_ticket(self.archive.start_sync())
    }

    fn finish(self, ticket: SyncTicket) -> Result<Self, Lost<A::Wreck>> {
        wrapped(self.archive.finish(ticket))
    }

    fn prune(self, min: Height) -> Result<Self, Lost<A::Wreck>> {
        if !P::PRUNES {
            return Ok(self);
        }
        wrapped(self.archive.prune(min.get()))
    }

    fn wreck(self) -> A::Wreck {
        self.archive.wreck()
    }

    fn reopen(wreck: A::Wreck, luck: u64) -> Result<Self, Lost<A::Wreck>> {
        wrapped(A::reopen(wreck, luck))
    }

    fn arm(&mut self, calls: u64) -> Result<(), AllocError> {
        self.archive.arm(calls)
    }

    fn last_index(&self) -> Option<Height> {
        let last = self.archive.last_index()?;
        Some(Height::new(last))
    }

    fn held_ranges(&self) -> &RangeSet {
        self.archive.held_ranges()
    }

    fn sure_ranges(&self) -> &RangeSet {
        self.archive.sure_ranges()
    }
}
