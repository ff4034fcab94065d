//! The order in which the heights come, and the steps of a made script that don't depend on the node.
ghost use Rattle.std.specs.Prelude.{◌≡◌, ◌≤◌, ℕ, ◌^◌, ◌/◌, ◌%◌, ◌==◌, ◌++◌, ◌∷◌, [], if◌then◌else◌, IfOk, OnOk, length};
ghost use Rattle.std.specs.List.Sorted.{IsPermutation};
ghost use Rattle.mar_gen.specs.Plan.{heights_upto, order as order_drawn, plan as plan_drawn};
ghost use Rattle.mar_gen.specs.Draws.{next_state};

use crate::draws::Draws;
use std::alloc::{AllocError, Global};

/// A step that doesn't depend on the node.
#[derive(Clone, Copy, Debug, PartialEq, Eq)]
pub enum Planned {
    /// A life is opened from block 0.
    Open,
    /// The block of this height comes into the buffer.
    Buffer(u64),
    /// The finalization of this height is reported.
    Final(u64),
    /// The life ends, and the next opening has this luck.
    Crash(u64),
}

/// The steps of a script of so many heights: an opening, then for each height in a drawn order its block and its
/// finalization, and after every 16th a crash and an opening.
pub fn plan(alloc: Global, seed: u64, last: u64) -> Result<Vec<Planned>, AllocError>
    requires least { 1 ≤ last }
    requires most { last ≤ 10_000 }
    ensures { IfOk result (λ steps. steps.items ≡ plan_drawn seed last) }
{
    let heights = drawn_order(alloc, seed, last)?;
    let heights = heights.as_slice();
    let mut draws = Draws::after(seed, 2 * last - 1);
    let mut steps = Vec::new(alloc);
    steps.push(Planned::Open)?;
    for below in 0..last {
        let height = heights[below as usize];
        steps.push(Planned::Buffer(height))?;
        steps.push(Planned::Final(height))?;
        push_restart(&mut steps, &mut draws, below + 1)?;
    }
    Ok(steps)
}

// After every 16th height a crash and an opening.
fn push_restart(steps: &mut Vec<Planned>, draws: &mut Draws, number: u64) -> Result<(), AllocError>
    ensures steps { OnOk result (steps.new.items ≡ steps.old.items ++ (if number % 16 == 0 then Planned.Crash (next_state draws.old / 2 ^ 33)
        ∷ Planned.Open ∷ [] else [])) }
    ensures draws { OnOk result (draws.new ≡ (if number % 16 == 0 then next_state draws.old else draws.old)) }
{
    if number % 16 == 0 {
        steps.push(Planned::Crash(draws.draw()))?;
        steps.push(Planned::Open)?;
    }
    Ok(())
}

// The heights from 1 to the last, in a drawn order.
fn drawn_order(alloc: Global, seed: u64, last: u64) -> Result<Vec<u64>, AllocError>
    requires least { 1 ≤ last }
    requires most { last ≤ 10_000 }
    ensures order { IfOk result (λ heights. heights.items ≡ order_drawn seed last) }
    ensures all { IfOk result (λ heights. length heights.items ≡ last) }
{
    let mut heights = heights_upto_last(alloc, last)?;
    let mut draws = Draws::after(seed, last);
    for done in 0..last - 1 {
        let other = draws.draw() % (last - done);
        heights.swap((last - 1 - done) as usize, other as usize);
    }
    Ok(heights)
}

// The heights from 1 to the last.
fn heights_upto_last(alloc: Global, last: u64) -> Result<Vec<u64>, AllocError>
    requires { last ≤ 10_000 }
    ensures heights { IfOk result (λ heights. heights.items ≡ heights_upto last) }
    ensures all { IfOk result (λ heights. length heights.items ≡ last) }
{
    let mut heights = Vec::new(alloc);
    for below in 0..last {
        heights.push(below + 1)?;
    }
    Ok(heights)
}

/// The order has each of the heights once.
pub fn order_has_each_height()
    ensures { (seed n : ℕ) → 1 ≤ n → IsPermutation (heights_upto n) (order_drawn seed n) }
{}
