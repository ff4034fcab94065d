//! Numbers of epochs, heights and views, the distances between them, and rounds.
use crate::tell::*;
use mar_types::{U64, *};
use std::alloc::Global;
use std::process::Abort;

#[test]
fn heights_stop_at_their_ends(rt: HostRuntime) {
    let (three, five) = (Height::new(3), Height::new(5));
    let apart = five.delta_from(three).unwrap_or(HeightDelta::zero());
    holds(&rt, (apart.get() == 2) & three.delta_from(five).is_none());
    let most = HeightDelta::new(u64::MAX);
    holds(&rt, three.saturating_add(most).get() == u64::MAX);
    holds(&rt, three.saturating_sub(most).is_zero());
    holds(&rt, Height::zero().previous().is_none());
    holds(&rt, Height::default().is_zero());
}

#[test]
fn epochs_stop_at_their_ends(rt: HostRuntime) {
    let (three, most) = (Epoch::new(3), EpochDelta::new(u64::MAX));
    holds(&rt, three.checked_sub(most).is_none());
    holds(&rt, three.saturating_add(most).get() == u64::MAX);
    holds(&rt, three.saturating_sub(most).is_zero());
    let again = three.next().previous().unwrap_or(Epoch::zero());
    holds(&rt, (again.get() == 3) & Epoch::default().is_zero());
}

#[test]
fn views_stop_at_their_ends(rt: HostRuntime) {
    let (three, most) = (View::new(3), ViewDelta::new(u64::MAX));
    holds(&rt, three.saturating_add(most).get() == u64::MAX);
    holds(&rt, three.saturating_sub(most).is_zero());
    let again = three.next().previous().unwrap_or(View::zero());
    holds(&rt, (again.get() == 3) & View::default().is_zero());
    holds(&rt, ViewDelta::default().is_zero());
}

#[test]
fn heights_come_from_both_ends(rt: HostRuntime) {
    let mut heights = Height::range(Height::new(3), Height::new(7));
    holds(&rt, (heights.len() == 4) & (heights.size_hint().0 == 4));
    let first = heights.next().unwrap_or(Height::zero()).get();
    let last = heights.next_back().unwrap_or(Height::zero()).get();
    holds(&rt, (first == 3) & (last == 6));
}

#[test]
fn views_come_from_both_ends(rt: HostRuntime) {
    let mut views = View::range(View::new(3), View::new(7));
    holds(&rt, (views.len() == 4) & (views.size_hint().0 == 4));
    let first = views.next().unwrap_or(View::zero()).get();
    let last = views.next_back().unwrap_or(View::zero()).get();
    holds(&rt, (first == 3) & (last == 6));
}

// A round, and a byte more.
const READ: &[u8] = b"\xb9\x60\xb2\x92\x04\x07";

// The round whose bytes come first, and how many are left.
fn first_of(rt: &impl Abort, alloc: Global, bytes: &[u8]) -> (Round, usize) {
    let mut rest = bytes;
    let round = given(rt, Round::read(alloc, &mut rest));
    (round, rest.len())
}

#[test]
fn rounds_have_their_parts(rt: HostRuntime) {
    let (round, left) = first_of(&rt, rt.alloc(), READ);
    holds(&rt, (left == 1) & (round.encode_size() == 5));
    let (epoch, view) = round.into();
    holds(&rt, (epoch.get() == 12345) & (view.get() == 67890));
    let again = Round::from((epoch, view));
    holds(&rt, Epochable::epoch(&again).get() == 12345);
    holds(&rt, Viewable::view(&again).get() == 67890);
    holds(&rt, Round::default() == Round::zero());
}

#[test]
fn numbers_are_made(rt: HostRuntime) {
    let (five, six, seven) = (Epoch::new(5), Height::new(6), View::new(7));
    holds(&rt, U64::from(five).get() == 5);
    holds(&rt, U64::from(six).get() == 6);
    holds(&rt, u64::from(U64::from(seven)) == 7);
    holds(
        &rt,
        (U64::default() == U64::new(0)) & (U64::from(9).get() == 9),
    );
    holds(&rt, UInt::default().0 == 0);
    let member = Participant::from(3);
    holds(&rt, (u32::from(member) == 3) & (member.get() == 3));
    holds(&rt, Participant::default() == Participant::new(0));
}

#[test]
fn sizes_of_spellings(rt: HostRuntime) {
    holds(
        &rt,
        (UInt::MAX_ENCODE_SIZE == 10) & (Height::MAX_ENCODE_SIZE == 10),
    );
    holds(
        &rt,
        (Round::MAX_ENCODE_SIZE == 20) & (Sha256Digest::SIZE == 32),
    );
}
