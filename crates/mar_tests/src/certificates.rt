//! Notarizations are copied, and epochs have their schemes.
use crate::tell::*;
use mar_cert::*;
use mar_types::{Epoch, Hasher, Sha256, View};
use std::alloc::Global;

fn first_notarization(alloc: Global) -> MockNotarization {
    Notarization {
        proposal: Proposal {
            round: round(0, 1),
            parent: View::zero(),
            payload: Sha256::fill(1),
        },
        certificate: MockCertificate {
            signers: Vec::new(alloc),
        },
    }
}

#[test]
fn copies_of_notarizations(rt: HostRuntime) {
    let made = first_notarization(rt.alloc());
    let copy = given(&rt, made.try_clone());
    holds(&rt, copy == made);
}

#[test]
fn a_scheme_for_a_range_of_epochs(rt: HostRuntime) {
    let provider = MockProvider::new(MockScheme::new(4), Epoch::new(2), Epoch::new(3));
    let (second, fourth) = (Epoch::new(2), Epoch::new(4));
    holds(
        &rt,
        provider.scheme(second).is_some() & provider.scheme(fourth).is_none(),
    );
    holds(
        &rt,
        provider.scoped(second).is_some() & provider.scoped(fourth).is_none(),
    );
    let text =
        "MockProvider { scheme: MockScheme { members: 4 }, first: Epoch(2), last: Epoch(3) }";
    debugs(&rt, rt.alloc(), &provider, text);
}
