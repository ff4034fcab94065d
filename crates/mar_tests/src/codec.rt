//! Digests, how often they are computed, and lists that have a first item.
ghost use Rattle.std.specs.Prelude.{replicate};

use crate::tell::*;
use mar_types::*;
use std::cell::Cell;
use std::convert::AsSlice;

const DRAWN: &[u8] =
    b"\x02\x03\x04\x05\x06\x07\x08\x09\x0a\x0b\x0c\x0d\x0e\x0f\x10\x11\x12\x13\x14\x15\x16\x17\x18\x19\x1a\x1b\x1c\x1d\x1e\x1f\x20\x21";

#[test]
fn a_drawn_digest(rt: HostRuntime) {
    let mut words = Counting {
        last: 1,
        at_each_byte: true,
    };
    let drawn = Sha256Digest::random(&mut words);
    holds(&rt, drawn.as_slice() == DRAWN);
}

// A value that counts how often its digest is computed.
#[derive(Drop)]
struct Counted {
    computed: Cell<u64>,
}

impl Digestible for Counted {
    type Digest = Sha256Digest;

    ghost digest_bytes = { λ _. replicate 32 1 };

    fn digest(&self) -> Sha256Digest {
        self.computed.set(self.computed.get().saturating_add(1));
        Sha256::fill(1)
    }
}

#[test]
fn a_digest_is_computed_once(rt: HostRuntime) {
    let value = Counted {
        computed: Cell::new(0),
    };
    let first = given(&rt, Digested::compute(rt.alloc(), value));
    let copy = given(&rt, first.clone());
    holds(&rt, first.digest() == copy.digest());
    holds(&rt, copy.inner().computed.get() == 1);
}

#[test]
fn a_list_with_a_first_item_grows(rt: HostRuntime) {
    let mut list = given(&rt, NonEmptyVec::new(rt.alloc(), 7u32));
    given(&rt, list.push(8));
    holds(&rt, (list.len() == 2) & (*list.first() == 7));
    holds(&rt, list.iter().next().is_some());
    holds(
        &rt,
        (list.as_slice().len() == 2) & (list.into_vec().len() == 2),
    );
}
