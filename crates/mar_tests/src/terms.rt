//! Terms: which views one leader has.
use crate::tell::*;
use mar_types::{TermLength, View};
use std::num::NonZeroU32;
use std::process::Abort;

// A view, the first and the last of its term, the first of the next term, and its term's number.
type Place = (u32, u64, u64, u64, u64);

fn have_places(rt: &impl Abort, length: TermLength, places: &[Place]) {
    for (number, first, last, next, index) in places {
        let view = View::new(u64::from(*number));
        let is_begun = (view.term_start(length).get() == *first)
            & (view.term_index(length) == *index)
            & (view.is_term_start(length) == (view.get() == *first));
        let (end, start) = (view.term_end(length), view.next_term_start(length));
        holds(rt, is_begun & (end.get() == *last) & (start.get() == *next));
    }
}

// A view, another, and whether it admits and covers that, and is of one term with it.
type Pair = (u64, u64, bool, bool, bool);

fn lead(rt: &impl Abort, length: TermLength, pairs: &[Pair]) {
    for (view, other, admits, covers, together) in pairs {
        let (view, other) = (View::new(*view), View::new(*other));
        let is_so = (view.admits(other, length) == *admits)
            & (view.covers(other, length) == *covers)
            & (view.same_term(other, length) == *together);
        holds(rt, is_so);
    }
}

const PLACES_OF_FIVE: [Place; 5] = [
    (0, 0, 0, 1, 0),
    (1, 1, 5, 6, 1),
    (5, 1, 5, 6, 1),
    (6, 6, 10, 11, 2),
    (8, 6, 10, 11, 2),
];

const PAIRS_OF_FIVE: [Pair; 8] = [
    (3, 2, true, false, true),
    (3, 4, true, true, true),
    (3, 5, false, true, true),
    (3, 6, true, false, false),
    (3, 7, false, false, false),
    (0, 1, true, false, false),
    (0, 6, false, false, false),
    (u64::MAX, 7, true, false, false),
];

#[test]
fn terms_have_their_length(rt: HostRuntime) {
    let five = TermLength::new(NonZeroU32::new(5).expect(&rt, "zero"));
    have_places(&rt, five, &PLACES_OF_FIVE);
    lead(&rt, five, &PAIRS_OF_FIVE);
    let covering = View::new(8).covering_range(five);
    holds(
        &rt,
        (covering.start().get() == 6) & (covering.end().get() == 8),
    );
    holds(
        &rt,
        (TermLength::default().get() == 1) & (TermLength::ONE.get() == 1),
    );
    holds(&rt, TermLength::MAX.get() == 4294967295);
}
