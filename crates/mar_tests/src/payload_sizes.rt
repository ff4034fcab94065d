//! How long payloads may be, at the program's blocks and scheme.
use crate::tell::*;
use mar_block::{StandardBlocks, TooLarge, max_backfill_size, max_payload_size};
use mar_cert::MockScheme;

#[test]
fn longest_payloads(rt: HostRuntime) {
    let four = max_payload_size::<StandardBlocks, MockScheme>(4, &());
    let one = max_payload_size::<StandardBlocks, MockScheme>(1, &());
    holds(&rt, (four == Ok(263)) & (one == Ok(164)));
}

#[test]
fn longest_answers(rt: HostRuntime) {
    let most = max_backfill_size::<StandardBlocks, MockScheme>(4, 4_294_967_100);
    holds(&rt, most == Ok(4_294_967_311));
    let more = max_backfill_size::<StandardBlocks, MockScheme>(4, 4_294_967_101);
    holds(&rt, more == Err(TooLarge(4_294_967_296)));
}
