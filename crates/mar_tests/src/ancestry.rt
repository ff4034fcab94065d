//! Streams of ancestors, by scripts of what they show and yield.
use crate::tell::*;
use mar_block::{
    AncestorStream, Ancestry, BoxedAncestry, EmptyBlock, ErasedAncestry, ForkAncestry, Linked,
    MemProvider, Peeked, Polled, Refusal, from_iter, with_prefix,
};
use mar_types::{Digest, Digested, Height, Sha256, Sha256Digest};
use std::alloc::Global;
use std::process::Abort;

type Block = Digested<EmptyBlock<Sha256>>;

type Asking = AncestorStream<Block, MemProvider<Block>>;

// What a stream is to show or to yield next; a block by its height.
#[derive(Clone, Copy)]
enum Next {
    Shows(u64),
    ShowsNothing,
    ShowsTorn,
    Yields(u64),
    YieldsTorn,
    Waits,
    Ends,
}

// A script of a stream.
fn play<A: Ancestry<Block>>(rt: &impl Abort, alloc: Global, stream: &mut A, script: &[Next]) {
    for next in script {
        let is_so = match *next {
            Next::Shows(height) => match stream.peek() {
                Peeked::Block(block) => block.height().get() == height,
                _ => false,
            },
            Next::ShowsNothing => match stream.peek() {
                Peeked::Nothing => true,
                _ => false,
            },
            Next::ShowsTorn => match stream.peek() {
                Peeked::NotContiguous => true,
                _ => false,
            },
            Next::Yields(height) => match given(rt, stream.poll(alloc)) {
                Polled::Block(block) => block.height().get() == height,
                _ => false,
            },
            Next::YieldsTorn => match given(rt, stream.poll(alloc)) {
                Polled::NotContiguous => true,
                _ => false,
            },
            Next::Waits => match given(rt, stream.poll(alloc)) {
                Polled::Pending => true,
                _ => false,
            },
            Next::Ends => match given(rt, stream.poll(alloc)) {
                Polled::End => true,
                _ => false,
            },
        };
        holds(rt, is_so);
    }
}

// The block of a height, over that of the height below.
fn block(rt: &impl Abort, alloc: Global, height: u64) -> Block {
    let mut parent = Sha256Digest::empty();
    for below in 0..height {
        parent = made(rt, alloc, parent, below).digest();
    }
    made(rt, alloc, parent, height)
}

fn made(rt: &impl Abort, alloc: Global, parent: Sha256Digest, height: u64) -> Block {
    let block = EmptyBlock::new(parent, Height::new(height), 0);
    given(rt, Digested::compute(alloc, block))
}

// The blocks of these heights.
fn blocks(rt: &impl Abort, alloc: Global, heights: &[u64]) -> Vec<Block> {
    let mut blocks = Vec::new(alloc);
    for height in heights {
        given(rt, blocks.push(block(rt, alloc, *height)));
    }
    blocks
}

// A stream that begins with the blocks of these heights.
fn asking(rt: &impl Abort, alloc: Global, heights: &[u64]) -> Asking {
    let initial = blocks(rt, alloc, heights);
    given(rt, AncestorStream::new(MemProvider::new(alloc), initial))
}

// Gives a stream the block of that height under the ticket that it awaits, or none.
fn give(rt: &impl Abort, alloc: Global, stream: &mut Asking, height: Option<u64>) {
    let block = match height {
        Some(height) => Some(block(rt, alloc, height)),
        None => None,
    };
    match stream.awaited() {
        Some(ticket) => stream.give(ticket, block),
        None => holds(rt, false),
    }
}

const THREE: [Next; 8] = [
    Next::Shows(2),
    Next::Yields(2),
    Next::Yields(1),
    Next::Shows(0),
    Next::Yields(0),
    Next::ShowsNothing,
    Next::Ends,
    Next::Ends,
];

#[test]
fn given_blocks(rt: HostRuntime) {
    let alloc = rt.alloc();
    let mut stream = given(&rt, from_iter(blocks(&rt, alloc, &[2, 1, 0])));
    let mut fork = given(&rt, stream.fork(alloc));
    play(&rt, alloc, &mut stream, &THREE);
    play(&rt, alloc, &mut fork, &THREE);
    holds(&rt, from_iter(blocks(&rt, alloc, &[2, 0])).is_err());
}

#[test]
fn initial_blocks_in_any_order(rt: HostRuntime) {
    let alloc = rt.alloc();
    let mut stream = asking(&rt, alloc, &[1, 0, 2]);
    play(&rt, alloc, &mut stream, &THREE);
    let gap = AncestorStream::new(MemProvider::new(alloc), blocks(&rt, alloc, &[2, 0]));
    match gap {
        Err(refused) => holds(&rt, refused.reason == Refusal::NotContiguous),
        Ok(_) => holds(&rt, false),
    }
}

#[test]
fn parents_from_a_provider(rt: HostRuntime) {
    let alloc = rt.alloc();
    let mut stream = asking(&rt, alloc, &[1]);
    play(&rt, alloc, &mut stream, &[Next::Shows(1), Next::Yields(1)]);
    let mut fork = given(&rt, stream.fork(alloc));
    play(&rt, alloc, &mut stream, &[Next::Waits, Next::Waits]);
    give(&rt, alloc, &mut stream, Some(0));
    play(
        &rt,
        alloc,
        &mut stream,
        &[Next::ShowsNothing, Next::Yields(0), Next::Ends],
    );
    drop(stream.into_provider());
    play(&rt, alloc, &mut fork, &[Next::Waits]);
    give(&rt, alloc, &mut fork, Some(0));
    play(&rt, alloc, &mut fork, &[Next::Yields(0), Next::Ends]);
}

#[test]
fn answers_that_end_a_stream(rt: HostRuntime) {
    let alloc = rt.alloc();
    let mut gone = asking(&rt, alloc, &[3]);
    play(&rt, alloc, &mut gone, &[Next::Yields(3)]);
    give(&rt, alloc, &mut gone, None);
    play(&rt, alloc, &mut gone, &[Next::Ends, Next::Ends]);
    let mut other = asking(&rt, alloc, &[3]);
    play(&rt, alloc, &mut other, &[Next::Yields(3)]);
    give(&rt, alloc, &mut other, Some(1));
    play(&rt, alloc, &mut other, &[Next::Ends]);
    play(&rt, alloc, &mut asking(&rt, alloc, &[]), &[Next::Ends]);
}

#[test]
fn a_prefix_before_a_stream(rt: HostRuntime) {
    let alloc = rt.alloc();
    let tail = given(&rt, from_iter(blocks(&rt, alloc, &[2, 1])));
    let mut whole = given(&rt, with_prefix(blocks(&rt, alloc, &[3]), tail));
    let script = [
        Next::Yields(3),
        Next::Shows(2),
        Next::Yields(2),
        Next::Yields(1),
        Next::Ends,
    ];
    play(&rt, alloc, &mut whole, &script);
    let tail = given(&rt, from_iter(blocks(&rt, alloc, &[1])));
    let mut torn = given(&rt, with_prefix(blocks(&rt, alloc, &[3]), tail));
    let mut fork = given(&rt, torn.fork(alloc));
    let script = [
        Next::Yields(3),
        Next::ShowsTorn,
        Next::YieldsTorn,
        Next::ShowsNothing,
        Next::Ends,
    ];
    play(&rt, alloc, &mut torn, &script);
    play(&rt, alloc, &mut fork, &script);
}

#[test]
fn a_stream_in_a_box(rt: HostRuntime) {
    let alloc = rt.alloc();
    let stream = given(&rt, from_iter(blocks(&rt, alloc, &[2, 1, 0])));
    let boxed = given(&rt, Box::new(alloc, stream));
    let boxed: Box<dyn ErasedAncestry> = boxed;
    play(&rt, alloc, &mut BoxedAncestry::new(boxed), &THREE);
}
