//! Buffers: what they tell of blocks that come, and what they are handed to send.
use crate::blocks::is_cloned;
use crate::light::{Plates, plate_at};
use crate::tell::*;
use mar_block::*;
use mar_types::{Participant, Sha256Digest};
use std::alloc::Global;
use std::process::Abort;

// Whether both kinds of subscriptions to a block are given.
fn subscribes<B: Buffer<Plates>>(buffer: &B, name: &Sha256Digest) -> bool {
    buffer.subscribe_by_digest(name).is_some() & buffer.subscribe_by_commitment(name).is_some()
}

// Whether a block is found by neither of its names.
fn finds_none<B: Buffer<Plates>>(buffer: &B, name: &Sha256Digest) -> bool {
    matches!(buffer.find_by_digest(name), Ok(None))
        & matches!(buffer.find_by_commitment(name), Ok(None))
}

fn third(rt: &impl Abort, alloc: Global) -> Recipients<Participant> {
    Recipients::Some(given(rt, vec![in alloc; Participant::new(3)]))
}

// Whether it tells of blocks that come, and finds none; a block is then sent to the third peer. All that is asked at a buffer
// is asked here, since each bound costs where it is met.
fn tells<B: Buffer<Plates>>(rt: &impl Abort, alloc: Global, buffer: &mut B) -> bool {
    let block = plate_at(1);
    let tells = subscribes(&*buffer, &block.digest);
    holds(rt, finds_none(&*buffer, &block.digest));
    given(rt, buffer.send(round(2, 7), block, third(rt, alloc)));
    tells
}

#[test]
fn a_buffer_tells_and_sends(rt: HostRuntime) {
    let mut buffer: MemBuffer<Plates> = MemBuffer::new(rt.alloc());
    let tells = tells(&rt, rt.alloc(), &mut buffer);
    buffer.close();
    holds(&rt, tells & !buffer.is_open() & (buffer.sent().len() == 1));
}

#[test]
fn no_buffer_tells_nothing(rt: HostRuntime) {
    let mut buffer = NoBuffer;
    holds(&rt, !tells(&rt, rt.alloc(), &mut buffer));
    debugs(&rt, rt.alloc(), &buffer, "NoBuffer");
}

#[test]
fn recipients_are_copied_and_printed(rt: HostRuntime) {
    let third = third(&rt, rt.alloc());
    holds(&rt, is_cloned(&rt, &third));
    debugs(&rt, rt.alloc(), &third, "Some([Participant(3)])");
}
