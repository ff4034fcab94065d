//! A chain to propose on.
ghost use Rattle.std.specs.Prelude.{IfOk, IfSome, [], map, ◌++◌, ◌∷◌, ◌≡◌};
ghost use Rattle.mar_block.specs.Prefixes.{last};
ghost use Rattle.mar_proposer.specs.Rules.{IsChainFrom, plain_block};

use mar_block::EmptyBlock;
use mar_types::{Digest, Digested, Height, Sha256, Sha256Digest};
use std::alloc::{AllocError, Global};

/// A block of the chain.
pub type Block = Digested<EmptyBlock<Sha256>>;

/// Blocks that were made at these times, from the genesis on, each the parent of the next.
pub fn chain(alloc: Global, times: &[u64]) -> Result<Vec<Block>, AllocError>
    ensures chain { IfOk result (λ blocks. IsChainFrom 0 (map plain_block blocks.items)) }
    ensures times { IfOk result (λ blocks. map (λ b. b.timestamp) blocks.items ≡ times.now) }
{
    let mut blocks = Vec::new(alloc);
    for time in times {
        let block = next(alloc, blocks.as_slice(), *time)?;
        blocks.push(block)?;
    }
    Ok(blocks)
}

// The block behind these, made at that time.
fn next(alloc: Global, blocks: &[Block], time: u64) -> Result<Block, AllocError>
    requires { IsChainFrom 0 (map plain_block blocks.now) }
    ensures chain { IfOk result (λ b. IsChainFrom 0 (map plain_block blocks.now ++ plain_block b ∷ [])) }
    ensures time { IfOk result (λ b. b.timestamp ≡ time) }
{
    let height = Height::new(blocks.len() as u64);
    let block = EmptyBlock::new(newest(blocks), height, time);
    let block = Digested::compute(alloc, block)?;
    Ok(block)
}

// The digest of the last of these, where there is one.
fn newest(blocks: &[Block]) -> Sha256Digest
    ensures { IfSome (last (map plain_block blocks.now)) (λ b. result.bytes ≡ b.digest) }
{
    match blocks.last() {
        Some(block) => block.digest(),
        None => Sha256Digest::empty(),
    }
}

/// When these blocks were made.
pub fn times(alloc: Global, blocks: &[Block]) -> Result<Vec<u64>, AllocError>
    ensures { IfOk result (λ times. times.items ≡ map (λ b. b.timestamp) blocks.now) }
{
    let mut times = Vec::new(alloc);
    for block in blocks {
        times.push(block.inner().timestamp)?;
    }
    Ok(times)
}
