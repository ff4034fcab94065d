//! Commitments to coded blocks that are drawn, and the empty one.
ghost use Rattle.std.specs.Prelude.{replicate};

use crate::tell::*;
use mar_types::coding::CodingScheme;
use mar_types::{Commitment, Digest, Digestible, Hasher, Sha256, Sha256Digest};
use std::convert::AsSlice;

struct Plain;

impl Digestible for Plain {
    type Digest = Sha256Digest;

    ghost digest_bytes = { λ _. replicate 32 1 };

    fn digest(&self) -> Sha256Digest {
        Sha256::fill(1)
    }
}

struct Scheme;

impl CodingScheme for Scheme {
    type Commitment = Sha256Digest;
}

type Coded = Commitment<Plain, Scheme, Sha256>;

// The word is 5, so there are 5 shards, and 1 in place of 0.
const DRAWN: &[u8] =
    b"\x06\x06\x06\x06\x06\x06\x06\x06\x06\x06\x06\x06\x06\x06\x06\x06\x06\x06\x06\x06\x06\x06\x06\x06\x06\x06\x06\x06\x06\x06\x06\x06\
\x07\x07\x07\x07\x07\x07\x07\x07\x07\x07\x07\x07\x07\x07\x07\x07\x07\x07\x07\x07\x07\x07\x07\x07\x07\x07\x07\x07\x07\x07\x07\x07\
\x08\x08\x08\x08\x08\x08\x08\x08\x08\x08\x08\x08\x08\x08\x08\x08\x08\x08\x08\x08\x08\x08\x08\x08\x08\x08\x08\x08\x08\x08\x08\x08\x00\x05\x00\x01";

#[test]
fn drawn_and_empty_commitments(rt: HostRuntime) {
    let mut words = Counting {
        last: 4,
        at_each_byte: false,
    };
    let drawn = Coded::random(&mut words);
    holds(&rt, drawn.as_slice() == DRAWN);
    holds(&rt, Coded::empty() == Coded::default());
}
