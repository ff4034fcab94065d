//! Reading and writing segments.
ghost use Rattle.std.specs.Prelude.{◌≡◌, ◌++◌, ◌⊎◌, IfErr, IfOk, OnOk};
ghost use Rattle.mar_types.specs.Codec.{HasNoFront, Takes};
ghost use Rattle.mar_types.specs.Digest.{IsDigest};
ghost use Rattle.mar_types.specs.Varint.{IsVarint, varint};
ghost use Rattle.mar_cert.specs.Block.{IsBlock};
ghost use Rattle.mar_cert.specs.Finalization.{finalization_bytes};
ghost use Rattle.mar_cert.specs.Grammar.{SpellsMockFinalization};
ghost use Rattle.mar_cert.specs.MockScheme.{IsFinalization};
ghost use Rattle.mar_block.specs.EmptyBlock.{SpellsBlock};
ghost use Rattle.mar_follower.specs.Segments.{HasNoSegment, segment_bytes};
ghost use Rattle.mar_follower.specs.Plain.{plain_block, plain_blocks, plain_finalization, plain_segment};
ghost use Rattle.mar_follower.specs.Reading.{HasNoBlocks, TakesBlocks, TakesSegment, blocks_bytes};

use crate::segment::Segment;
use bytes::{Buf, BufMut};
use mar_block::EmptyBlock;
use mar_cert::MockFinalization;
use mar_types::{Error, Read, Sha256, UInt, Write};
use std::alloc::{AllocError, Global};

// A finalization of so many members, from the front.
fn read_finalization<B: Buf>(
    alloc: Global,
    members: u32,
    buf: &mut B,
) -> Result<MockFinalization, Error>
    ensures is { IfOk result (λ f. IsFinalization members (plain_finalization f)) }
    ensures taken { IfOk result (λ f. B.unread buf.old
        ≡ finalization_bytes (plain_finalization f) ++ B.unread buf.new) }
    ensures err { IfErr result (λ e. (e ≡ Error.Memory)
        ⊎ HasNoFront (SpellsMockFinalization members) (B.unread buf.old)) }
{
    match MockFinalization::read_cfg(alloc, buf, &members) {
        Ok(finalization) => {
            finalization.is_finalization(members);
            Ok(finalization)
        }
        Err(error) => Err(error),
    }
}

// A block, from the front.
fn read_block<B: Buf>(alloc: Global, buf: &mut B) -> Result<EmptyBlock<Sha256>, Error>
    ensures is { IfOk result (λ b. IsBlock (plain_block b)) }
    ensures taken { IfOk result (λ b. B.unread buf.old ≡ (plain_block b).encoded ++ B.unread buf.new) }
    ensures err { IfErr result (λ e. (e ≡ Error.Memory) ⊎ HasNoFront (SpellsBlock IsDigest) (B.unread buf.old)) }
{
    match EmptyBlock::<Sha256>::read_cfg(alloc, buf, &()) {
        Ok(block) => {
            block.is_block();
            Ok(block)
        }
        Err(error) => Err(error),
    }
}

// So many blocks, from the front.
fn read_blocks<B: Buf>(
    alloc: Global,
    count: u64,
    buf: &mut B,
) -> Result<Vec<EmptyBlock<Sha256>>, Error>
    ensures ok { IfOk result (λ v. TakesBlocks count (plain_blocks v.items) (B.unread buf.old) (B.unread buf.new)) }
    ensures err { IfErr result (λ e. (e ≡ Error.Memory) ⊎ HasNoBlocks count (B.unread buf.old)) }
{
    let mut blocks = Vec::new(alloc);
    'reading: for _ in 0..count {
        let block = match read_block(alloc, buf) {
            Ok(block) => block,
            Err(error) => return Err(error),
        };
        match blocks.push(block) {
            Ok(()) => {}
            Err(_) => return Err(Error::Memory),
        }
    }
    Ok(blocks)
}

// The count of blocks, from the front.
fn read_count<B: Buf>(alloc: Global, buf: &mut B) -> Result<u64, Error>
    ensures ok { IfOk result (λ n. Takes IsVarint (varint n) (B.unread buf.old) (B.unread buf.new)) }
    ensures err { IfErr result (λ e. (e ≡ Error.Memory) ⊎ HasNoFront IsVarint (B.unread buf.old)) }
{
    match UInt::read_cfg(alloc, buf, &()) {
        Ok(count) => Ok(count.0),
        Err(error) => Err(error),
    }
}

/// Reads a segment from the front, with certificates of so many members. After an error it is left open how much was
/// taken.
pub fn read<B: Buf>(alloc: Global, members: u32, buf: &mut B) -> Result<Segment, Error>
    ensures ok { IfOk result (λ s. TakesSegment members (plain_segment s) (B.unread buf.old) (B.unread buf.new)) }
    ensures err { IfErr result (λ e. (e ≡ Error.Memory) ⊎ HasNoSegment members (B.unread buf.old)) }
{
    let finalization = match read_finalization(alloc, members, buf) {
        Ok(finalization) => finalization,
        Err(error) => return Err(error),
    };
    let count = match read_count(alloc, buf) {
        Ok(count) => count,
        Err(error) => return Err(error),
    };
    if count == 0 {
        return Err(Error::EndOfBuffer);
    }
    let top = match read_block(alloc, buf) {
        Ok(top) => top,
        Err(error) => return Err(error),
    };
    match read_blocks(alloc, count - 1, buf) {
        Ok(others) => Ok(Segment {
            finalization,
            top,
            others,
        }),
        Err(error) => Err(error),
    }
}

/// Appends a segment's spelling. Where it fails, a part of the spelling may stand at the end.
pub fn write<B: BufMut>(segment: &Segment, buf: &mut B) -> Result<(), AllocError>
    ensures { OnOk result (B.written buf.new ≡ B.written buf.old ++ segment_bytes (plain_segment segment.now)) }
{
    segment.finalization.write(buf)?;
    UInt(segment.others.len() as u64 + 1).write(buf)?;
    segment.top.write(buf)?;
    'others: for block in &segment.others {
        block.write(buf)?;
    }
    Ok(())
}
