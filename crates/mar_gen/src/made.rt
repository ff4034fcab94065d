//! All that a made script takes.
ghost use Rattle.std.specs.Prelude.{◌≡◌, ◌∷◌, ◌≤◌, ◌<◌, ◌^◌, [], IfOk, IfSome, MatchOption, drop, map};
ghost use Rattle.std.specs.List.{count_by};
ghost use Rattle.mar_gen.specs.Chain.{made_block, made_blocks as blocks_made, plain_block};
ghost use Rattle.mar_gen.specs.Plan.{IsStepWithin, is_open, plan as plan_drawn};

use crate::chain::made_blocks;
use crate::steps::{Planned, plan};
use mar_block::EmptyBlock;
use mar_types::Sha256;
use std::alloc::{AllocError, Global};

/// The blocks and the steps of the script of a seed and so many heights.
#[derive(Drop)]
pub struct Made {
    seed: u64,
    last: u64,
    blocks: Vec<EmptyBlock<Sha256>>,
    steps: Vec<Planned>,
    ghost seed_fits: { seed < 2 ^ 64 },
    ghost least: { 1 ≤ last },
    ghost most: { last ≤ 10_000 },
    ghost blocks_are: { map plain_block blocks.items ≡ blocks_made seed last },
    ghost steps_are: { steps.items ≡ plan_drawn seed last },
}

impl Made {
    /// Of this seed and so many heights.
    pub fn new(alloc: Global, seed: u64, last: u64) -> Result<Self, AllocError>
        requires least { 1 ≤ last }
        requires most { last ≤ 10_000 }
        ensures seed { IfOk result (λ made. made.seed ≡ seed) }
        ensures last { IfOk result (λ made. made.last ≡ last) }
    {
        let blocks = made_blocks(alloc, seed, last)?;
        let steps = plan(alloc, seed, last)?;
        Ok(Made {
            seed,
            last,
            blocks,
            steps,
        })
    }

    /// The seed.
    pub fn seed(&self) -> u64
        ensures { result ≡ self.now.seed }
    {
        self.seed
    }

    /// The last height.
    pub fn last(&self) -> u64
        ensures { result ≡ self.now.last }
    {
        self.last
    }

    /// The block of a height.
    pub fn block(&self, height: u64) -> &EmptyBlock<Sha256>
        requires { height ≤ self.now.last }
        ensures { plain_block result.now ≡ made_block self.now.seed height }
    {
        let blocks = self.blocks.as_slice();
        &blocks[height as usize]
    }

    /// The step at this place and the place behind it, if there are so many.
    pub fn step(&self, place: usize) -> Option<(Planned, usize)>
        ensures steps { MatchOption result (drop place (plan_drawn self.now.seed self.now.last) ≡ [])
            (λ r. drop place (plan_drawn self.now.seed self.now.last) ≡ r.0 ∷ drop r.1 (plan_drawn self.now.seed self.now.last)) }
        ensures within { IfSome result (λ r. IsStepWithin self.now.last r.0) }
    {
        let steps = self.steps.as_slice();
        if place >= steps.len() {
            return None;
        }
        Some((steps[place], place + 1))
    }

    /// How many times a life is opened.
    pub fn openings(&self) -> u64
        ensures { result ≡ count_by is_open (plan_drawn self.now.seed self.now.last) }
    {
        let mut count: usize = 0;
        for step in &self.steps {
            if matches!(step, Planned::Open) {
                count += 1;
            }
        }
        count as u64
    }
}
