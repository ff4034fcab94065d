//! The bounds of epochs. Where heights stand in them mar_cases tells.
use crate::tell::*;
use mar_types::{Epoch, EpochInfo, Epocher, FixedEpocher, Height};
use std::num::NonZeroU64;

#[test]
fn epochs_have_their_bounds(rt: HostRuntime) {
    let epocher = FixedEpocher::new(NonZeroU64::new(11).expect(&rt, "zero"));
    let second = Epoch::new(1);
    let first = epocher.first(second).unwrap_or(Height::zero());
    let middle = epocher.midpoint(second).unwrap_or(Height::zero());
    let last = epocher.last(second).unwrap_or(Height::zero());
    holds(
        &rt,
        (first.get() == 11) & (middle.get() == 16) & (last.get() == 21),
    );
    let info = EpochInfo::new(second, Height::new(13), Height::new(11), Height::new(21));
    holds(
        &rt,
        (info.epoch().get() == 1) & (info.length().get() == 11) & (info.relative().get() == 2),
    );
}
