//! Parts of a node: what the program doesn't call, and how they are compared and show themselves.
use crate::tell::*;
use mar_key::Cutoff;
use mar_model::Writes;
use mar_parts::*;
use mar_store::{MemMeta, Miss};
use mar_types::Height;
use std::alloc::{AllocError, Global};
use std::process::Abort;

const fn ack(ticket: u64, mark: Mark) -> PendingAck {
    PendingAck {
        ticket,
        height: Height::new(2),
        mark,
    }
}

// Whether writes that are cleared hold nothing back.
fn clears(rt: &impl Abort, writes: &mut Writes) -> bool {
    given(rt, writes.defer(Height::new(5)));
    let is_barred = writes.barrier().is_some();
    writes.clear();
    is_barred & writes.barrier().is_none()
}

// Whether a stream over nothing begins at zero.
fn begins(rt: &impl Abort, alloc: Global) -> bool {
    let stream = Stream::new(MemMeta::new(alloc));
    assert!(rt; stream.processed_height() == None);
    stream.is_synced() & stream.next_height().is_zero() & (stream.cutoff() == Cutoff::zero())
}

#[test]
fn parts_that_the_program_does_not_call(rt: HostRuntime) {
    holds(&rt, clears(&rt, &mut Writes::new(rt.alloc())));
    holds(&rt, begins(&rt, rt.alloc()));
}

fn shown(alloc: Global) -> Result<String, AllocError> {
    let oldest = Oldest::Given(ack(1, Mark::Given));
    let served = Served {
        by_digest: Vec::new(alloc),
        by_commitment: Vec::new(alloc),
    };
    let miss = Miss::Fault;
    let key: Key<u64, u64> = Key::Digest(8);
    format!(in alloc; "{oldest:?} {served:?} {key:?} {miss:?}")
}

const SHOWN: &str =
    "Given(PendingAck { ticket: 1, height: Height(2), mark: Given }) Served { by_digest: [], by_commitment: [] } Digest(8) Fault";

#[test]
fn parts_are_compared_and_shown(rt: HostRuntime) {
    acks_compared();
    waits_compared::<u64, u64>();
    let text = given(&rt, shown(rt.alloc()));
    holds(&rt, text.as_str() == SHOWN);
}
