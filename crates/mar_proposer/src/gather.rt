//! Walking while the provider has yet to be given what it asked for.
ghost use Rattle.std.specs.Prelude.{map, ◌≡◌};
ghost use Rattle.mar_block.specs.Streams.{MayCome};
ghost use Rattle.mar_proposer.specs.Rules.{AreWalked};

use crate::walk::{Stop, walk};
use mar_block::{AncestorStream, BlockProvider, Linked};
use std::alloc::{AllocError, Global};

/// How a walk went.
#[derive(Clone, Copy)]
pub struct Walk {
    /// How often it waited for a parent.
    pub waits: u64,
    /// Whether there are as many blocks as were wanted.
    pub is_whole: bool,
}

/// Adds up to so many ancestors from a stream. Where its next block isn't there yet, peers are asked for it: these
/// blocks are all that they have.
pub fn gather<B: Linked, P: BlockProvider<B>>(
    alloc: Global,
    stream: &mut AncestorStream<B, P>,
    line: &mut Vec<B>,
    most: usize,
    peers: &[B],
) -> Result<Walk, AllocError>
    requires { AreWalked (map B.plain line.old.items) (MayCome stream.old.buffered stream.old.ahead) }
    ensures { AreWalked (map B.plain line.new.items) (MayCome stream.new.buffered stream.new.ahead) }
{
    for waits in 0..1_000 {
        match walk(alloc, stream, line, most)? {
            Stop::Waits => bring(stream, line.as_slice(), peers)?,
            Stop::Enough => {
                return Ok(Walk {
                    waits,
                    is_whole: true,
                });
            }
            Stop::Ended => {
                return Ok(Walk {
                    waits,
                    is_whole: false,
                });
            }
        }
    }
    Ok(Walk {
        waits: 1_000,
        is_whole: false,
    })
}

// Gives the stream the parent that it awaits, or none where no peer has it.
fn bring<B: Linked, P: BlockProvider<B>>(
    stream: &mut AncestorStream<B, P>,
    line: &[B],
    peers: &[B],
) -> Result<(), AllocError>
    ensures buffered { stream.new.buffered ≡ stream.old.buffered }
    ensures ahead { stream.new.ahead ≡ stream.old.ahead }
{
    let Some(ticket) = stream.awaited() else {
        return Ok(());
    };
    let parent = match line.last() {
        Some(child) => parent_among(child, peers)?,
        None => None,
    };
    stream.give(ticket, parent);
    Ok(())
}

// The parent of a block, where it is among these.
fn parent_among<B: Linked>(child: &B, blocks: &[B]) -> Result<Option<B>, AllocError> {
    for block in blocks {
        if child.is_child_of(block) {
            return Ok(Some(block.again()?));
        }
    }
    Ok(None)
}
