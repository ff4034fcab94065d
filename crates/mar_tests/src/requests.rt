//! Requests and annotations: what is printed of them, which floors let them live, and what is open of them.
use crate::tell::*;
use mar_key::{
    Annotation, Cutoff, Fetch, Finalized, Key, OpenRequests, Recorder, Request, Retain,
    TargetedResolver,
};
use mar_types::{Epoch, Height, Sha256Digest};

const fn at() -> Height {
    Height::new(6)
}

#[test]
fn annotations_have_their_texts(rt: HostRuntime) {
    let (alloc, height, round) = (rt.alloc(), at(), round(2, 7));
    let text = "Notarization { round: Round { epoch: Epoch(2), view: View(7) } }";
    debugs(&rt, alloc, &Annotation::Notarization { round }, text);
    let text = "Untrusted { height: Height(6) }";
    debugs(&rt, alloc, &Annotation::Untrusted { height }, text);
    let text = "Certified { height: Height(6) }";
    debugs(&rt, alloc, &Annotation::Certified { height }, text);
    let by_round = Annotation::Finalized(Finalized::ByRound { round });
    let text = "Finalized(ByRound { round: Round { epoch: Epoch(2), view: View(7) } })";
    debugs(&rt, alloc, &by_round, text);
}

#[test]
fn requests_live_above_their_floors(rt: HostRuntime) {
    let request = Request::finalized_by_height(9u64, at());
    let text =
        "Request { fetch: Fetch { key: Block(9), subscriber: Finalized(ByHeight { height: Height(6) }) } }";
    debugs(&rt, rt.alloc(), &request, text);
    holds(&rt, !request.above_height_floor(at()));
    let other = Request::finalized_by_round(9u64, round(2, 7));
    holds(&rt, !other.above_round_floor(Cutoff::Epoch(Epoch::new(2))));
    let subscriber = Fetch::from(other).subscriber;
    holds(
        &rt,
        subscriber.is_finalized() & !subscriber.is_at_or_below(at()),
    );
    holds(&rt, subscriber.is_covered_by(Cutoff::Epoch(Epoch::new(2))));
    holds(&rt, !Retain::AboveHeight(at()).denies(&subscriber));
}

#[test]
fn requests_name_what_they_ask_for(rt: HostRuntime) {
    let (round, name) = (round(2, 7), 9u64);
    let key: Key<u64> = Key::Block(name);
    holds(&rt, key.is_before(&Key::Notarized { round }));
    let finalized: Request<u64> = Request::finalized(at());
    holds(&rt, Request::notarized(round) != finalized);
    holds(
        &rt,
        Request::untrusted(name, at()) != Request::certified(name, at()),
    );
}

#[test]
fn what_is_asked_of_peers_is_open(rt: HostRuntime) {
    let alloc = rt.alloc();
    let fetch: Fetch<Sha256Digest> = Fetch::from(Request::finalized(at()));
    let mut recorder = Recorder::new(alloc);
    given(&rt, recorder.fetch_all_targeted(&[fetch], &[3]));
    holds(&rt, recorder.asks().len() == 1);
    let mut open = OpenRequests::new(alloc);
    given(&rt, open.settle(&[], recorder.asks()));
    holds(&rt, open.annotations_of(&fetch.key).len() == 1);
    fetch.key.is_key();
}
