//! Blocks and kinds of blocks: copies of them, and how a kind restores them.
use crate::tell::*;
use mar_block::mocks::{Block as MockBlock, ready};
use mar_block::*;
use mar_cert::MockScheme;
use mar_types::{Digested, Digestible, Hasher, Height, Sha256, Sha256Digest, UInt};
use std::alloc::Global;
use std::process::Abort;

type Empty = EmptyBlock<Sha256>;

type Block = Digested<Empty>;

type Mock = MockBlock<Sha256Digest, UInt>;

fn first_block() -> Empty {
    EmptyBlock::new(Sha256::fill(1), Height::new(1), 7)
}

pub(crate) fn is_cloned<T: Clone + PartialEq + Drop>(rt: &impl Abort, value: &T) -> bool {
    given(rt, value.clone()) == *value
}

#[test]
fn blocks_without_content(rt: HostRuntime) {
    holds(&rt, is_cloned(&rt, &first_block()));
    let (digest, nothing) = (Sha256::fill(0), Empty::default());
    holds(&rt, (nothing.parent == digest) & nothing.height.is_zero());
}

#[test]
fn mock_blocks_are_copied(rt: HostRuntime) {
    let (parent, height) = (Sha256::fill(2), Height::new(128));
    let made = Mock::new::<Sha256>(rt.alloc(), UInt(300), parent, height, 1);
    let block = given(&rt, made);
    holds(&rt, is_cloned(&rt, &block));
}

// That a block has this digest, and is upon the first parent.
fn is_first(rt: &impl Abort, block: &Block, digest: &Sha256Digest) {
    let (own, parent) = (
        StandardBlocks::digest(block),
        StandardBlocks::parent_commitment(block),
    );
    holds(rt, (own == *digest) & (parent == Sha256::fill(1)));
}

// A block that is restored, shared, and made of what is shared.
fn restored(rt: &impl Abort, alloc: Global) -> Block {
    let block = given(rt, StandardBlocks::restore_across(alloc, first_block()));
    let payload = StandardBlocks::commitment(&block);
    holds(
        rt,
        StandardBlocks::check_payload(&MockScheme::new(4), payload),
    );
    StandardBlocks::from_application_block(StandardBlocks::into_shared(block), payload)
}

#[test]
fn standard_blocks(rt: HostRuntime) {
    let block = first_block();
    let digest = block.digest();
    let parent = StandardBlocks::stored_parent_commitment(&block);
    let again = given(&rt, StandardBlocks::restore(rt.alloc(), block, digest));
    is_first(&rt, &again, &digest);
    is_first(&rt, &restored(&rt, rt.alloc()), &digest);
    is_first(&rt, &given(&rt, ready(rt.alloc(), first_block())), &digest);
    holds(&rt, parent == Sha256::fill(1));
    holds(&rt, StandardBlocks::max_backfill_block_size(52) == 52);
    holds(&rt, StandardBlocks::max_buffer_payload_size(4, 53) == 53);
}
