//! Stores in memory: what the program doesn't call, and values that are told apart.
use crate::tell::*;
use mar_store::{
    Depot, DepotRuin, EmptyStore, Identifier, LuckHalf, MemDepot, Miss, RangeSet, SyncTicket,
};
use std::alloc::Global;

// What stands under a name of a depot.
#[derive(Drop)]
struct Counted {
    count: u64,
}

impl EmptyStore for Counted {
    ghost use Rattle.std.specs.Prelude.{◌==◌};

    ghost is_empty = { λ s. s.count == 0 };

    fn empty(_alloc: Global) -> Self {
        Counted { count: 0 }
    }
}

// Whether a call of a depot is armed, and one of what is left of it.
fn is_armed<D: Depot<Counted>>(depot: D) -> bool {
    let mut depot = depot;
    let is_armed = depot.arm(1).is_ok();
    let mut wreck = depot.wreck();
    is_armed & wreck.arm(1).is_ok()
}

#[test]
fn stores_in_memory(rt: HostRuntime) {
    let depot: MemDepot<Counted> = MemDepot::new(rt.alloc());
    holds(&rt, is_armed(depot));
    let ranges = given(&rt, RangeSet::new(rt.alloc()).try_clone());
    holds(&rt, ranges.is_empty());
    holds(&rt, SyncTicket::new(4) != SyncTicket::new(5));
    holds(&rt, LuckHalf::Low != LuckHalf::High);
    holds(&rt, Miss::Fault != Miss::Memory);
    holds(&rt, Identifier::Index(4u64) != Identifier::Key(4));
}
