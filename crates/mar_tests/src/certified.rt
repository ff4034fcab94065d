//! Commitments that are known as certified.
use crate::tell::*;
use mar_parts::Certified;
use mar_types::{Hasher, Height, Sha256, Sha256Digest};

fn is_ones(commitment: &Sha256Digest) -> bool {
    *commitment == Sha256::fill(1)
}

#[test]
fn commitments_are_known_at_their_heights(rt: HostRuntime) {
    let (height, ones) = (Height::new(5), Sha256::fill(1));
    let mut certified = Certified::new(rt.alloc());
    given(&rt, certified.insert(height, ones));
    holds(
        &rt,
        certified.contains(height, &ones) & certified.contains_matching(height, is_ones),
    );
    certified.retain(height.next());
    holds(&rt, !certified.contains(height, &ones));
}
