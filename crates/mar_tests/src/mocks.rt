//! The application and the resolver for tests.
use crate::light::{Plate, Plates, plate_at};
use crate::tell::*;
use mar_actor::{Exact, Reporter, Update};
use mar_key::{Fetch, Key, Request, Resolver as Asked, Retain, TargetedResolver};
use mar_mocks::{Application, Peers, Resolver};
use mar_types::{Height, Sha256Digest};
use std::alloc::Global;
use std::process::Abort;

// Tells an application of the newest tip, and hands it that block under a ticket.
fn tell<A: Reporter<Plates>>(rt: &impl Abort, application: &mut A, block: Plate, ticket: u64) {
    let tip = Update::Tip(round(0, 2), block.height, block.digest);
    given(rt, application.report(tip));
    let handed = Update::Block(block, Exact::handle(ticket));
    given(rt, application.report(handed));
}

// Whether these heights are pending.
fn are_pending(
    rt: &impl Abort,
    alloc: Global,
    application: &Application<Plates>,
    heights: &[Height],
) -> bool {
    given(rt, application.pending_ack_heights(alloc)).as_slice() == heights
}

#[test]
fn an_application_gives_acknowledgements_as_it_is_told(rt: HostRuntime) {
    let alloc = rt.alloc();
    let (first, height) = (plate_at(1), Height::new(1));
    let digest = first.digest;
    let mut application: Application<Plates> = Application::manual_ack(alloc);
    holds(&rt, application.tip().is_none());
    tell(&rt, &mut application, first, 7);
    holds(&rt, application.tip() == Some((height, digest)));
    holds(&rt, are_pending(&rt, alloc, &application, &[height]));
    holds(&rt, application.next_given().is_none());
    holds(&rt, application.acknowledge_next() == Some(height));
    holds(&rt, application.acknowledge_next().is_none());
    holds(&rt, are_pending(&rt, alloc, &application, &[]));
    holds(&rt, application.next_given() == Some(Exact::handle(7)));
    holds(&rt, application.next_given().is_none());
}

#[test]
fn an_application_gives_acknowledgements_at_once(rt: HostRuntime) {
    let alloc = rt.alloc();
    let mut application: Application<Plates> = Application::default(alloc);
    tell(&rt, &mut application, plate_at(1), 0);
    tell(&rt, &mut application, plate_at(2), 1);
    holds(&rt, application.acknowledged().is_none());
    holds(&rt, application.next_given() == Some(Exact::handle(0)));
    holds(&rt, application.next_given() == Some(Exact::handle(1)));
    let kept = (application.blocks().len(), application.updates().len());
    holds(&rt, kept == (2, 4));
}

#[test]
fn a_resolver_has_what_was_put(rt: HostRuntime) {
    let mut resolver: Resolver<u64, u64> = Resolver::default(rt.alloc());
    given(&rt, resolver.put(1, 2));
    holds(
        &rt,
        (resolver.get(&1) == Some(2)) & resolver.get(&3).is_none(),
    );
    given(&rt, resolver.put(1, 4));
    holds(&rt, resolver.get(&1) == Some(4));
}

#[test]
fn peers_answer_what_they_are_asked(rt: HostRuntime) {
    let alloc = rt.alloc();
    let first: Fetch<Sha256Digest> = Request::finalized(Height::new(1)).into();
    let other: Fetch<Sha256Digest> = Request::finalized(Height::new(3)).into();
    let mut values = Resolver::default(alloc);
    given(
        &rt,
        values.put(
            Key::Finalized {
                height: Height::new(1),
            },
            2_u64,
        ),
    );
    let mut peers = Peers::new(alloc, values);
    given(&rt, peers.fetch(first));
    given(&rt, peers.fetch_all(&[first, other]));
    given(&rt, peers.retain(Retain::AboveHeight(Height::new(2))));
    given(&rt, peers.fetch_targeted(other, &[4]));
    given(&rt, peers.fetch_all_targeted(&[first, other], &[4]));
    holds(&rt, peers.asks().len() == 7);
    holds(
        &rt,
        (peers.answer(&first) == Some(2)) & peers.answer(&other).is_none(),
    );
}
