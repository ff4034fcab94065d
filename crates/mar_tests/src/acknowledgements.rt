//! The calls of acknowledgements that no line of a script makes.
use crate::tell::*;
use mar_parts::{Oldest, PendingAcks};
use mar_types::Height;

#[test]
fn an_acknowledgement_is_dropped(rt: HostRuntime) {
    let mut acks = given(&rt, PendingAcks::new(rt.alloc(), 2));
    assert!(rt; acks.has_capacity());
    acks.enqueue(8, Height::new(7));
    holds(&rt, acks.drop_ack(8) & !acks.drop_ack(8));
    let is_oldest = matches!(acks.pop_ready(), Oldest::Dropped(ack) if ack.ticket == 8);
    acks.clear();
    holds(&rt, is_oldest & acks.is_empty());
}
