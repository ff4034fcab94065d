//! Cutoffs and floors: what they cover, and what is printed of them.
use crate::tell::*;
use mar_key::{Cutoff, Floor, Processed, Retain};
use mar_types::{Epoch, Height};

const fn of_epoch(epoch: u64) -> Cutoff {
    Cutoff::Epoch(Epoch::new(epoch))
}

#[test]
fn cutoffs_cover_rounds(rt: HostRuntime) {
    let raised = Cutoff::zero().raised_to(of_epoch(3));
    let inner = Cutoff::Round(round(3, 7));
    holds(&rt, raised.covers(round(3, 7)) & of_epoch(3).reaches(inner));
}

#[test]
fn texts_of_cutoffs(rt: HostRuntime) {
    let last = given(&rt, Cutoff::Round(round(2, 7)).to_string(rt.alloc()));
    holds(&rt, last.as_str() == "(2, 7)");
    let keep = Retain::AboveRound(of_epoch(3));
    debugs(&rt, rt.alloc(), &keep, "AboveRound(Epoch(Epoch(3)))");
}

#[test]
fn floors_hold_what_they_are_given(rt: HostRuntime) {
    let floor = Floor::new(Some(Processed::Block(Height::new(4))), of_epoch(0));
    let text = "Floor { processed: Some(Block(Height(4))), cutoff: Epoch(Epoch(0)) }";
    debugs(&rt, rt.alloc(), &floor, text);
    holds(
        &rt,
        floor.processed().is_some() & floor.cutoff().covers(round(0, 9)),
    );
    let height = Processed::Absent(Height::new(4)).height();
    let anchor = Processed::Absent(Height::new(4)).anchor();
    holds(&rt, (height.get() == 4) & (anchor.get() == 5));
}
