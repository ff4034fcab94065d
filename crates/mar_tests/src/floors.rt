//! Floors: each call of them, and what is awaited. Which requests they let through is in the clauses of the calls.
use crate::light::{Vote, vote_over};
use crate::tell::*;
use mar_block::Subscription;
use mar_key::{Cutoff, Floor, Processed, Recorder, Request};
use mar_parts::{FetchAdmission, State};
use mar_types::{Hasher, Height, Round, Sha256, Sha256Digest};
use std::alloc::Global;

type Floors = State<Sha256Digest, Vote>;

// Whether the request above the processed height is asked by each call, and not the one at it.
fn asks_what_lives(alloc: Global, floors: &Floors) -> bool {
    let mut resolver = Recorder::new(alloc);
    let low: Request<Sha256Digest> = Request::finalized(Height::new(5));
    let high = Request::finalized(Height::new(6));
    let one = floors.fetch_if_permitted(&mut resolver, low);
    let all = floors.fetch_all_if_permitted(alloc, &mut resolver, &[low, high]);
    let told = floors.fetch_targeted_if_permitted(&mut resolver, high, &[1, 2]);
    matches!(one, Ok(FetchAdmission::Denied))
        & matches!(all, Ok(FetchAdmission::Issued))
        & matches!(told, Ok(FetchAdmission::Issued))
        & (resolver.asks().len() == 2)
}

// Whether the later of two floors is awaited, by its name alone.
fn awaits_the_later(floors: &mut Floors) -> bool {
    let (first, later) = (Sha256::fill(1), Sha256::fill(2));
    floors.set_pending(
        vote_over(round(0, 1), 1),
        Some(Subscription { name: first }),
    );
    floors.set_pending(vote_over(round(0, 2), 2), None);
    floors.blocks_progress()
        & floors.pending().is_some()
        & floors.is_awaited(&later)
        & floors.take_matching(first).is_none()
        & floors.take_matching(later).is_some()
}

#[test]
fn floors_ask_and_await(rt: HostRuntime) {
    let processed = Some(Processed::Block(Height::new(5)));
    let floor = Floor::new(processed, Cutoff::zero());
    let configured = Some(vote_over(round(0, 1), 1));
    let mut floors: Floors = State::new(configured, floor, Round::zero());
    holds(&rt, asks_what_lives(rt.alloc(), &floors));
    holds(&rt, floors.take_configured().is_some());
    holds(&rt, awaits_the_later(&mut floors));
    floors.set_pending(vote_over(round(0, 1), 1), None);
    floors.clear_pending();
    holds(&rt, floors.pending().is_none());
}
