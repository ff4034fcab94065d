//! The words of lines that bring a block.
ghost use Rattle.std.specs.Prelude.{◌≡◌, ℕ, List, IfOk};
ghost use Rattle.mar_types.specs.Round.{IsRound, Round as PlainRound};
ghost use Rattle.mar_cert.specs.Block.{Block as PlainBlock, IsBlock};
ghost use Rattle.mar_model.specs.Messages.{Peers};
ghost use Rattle.mar_script.specs.Lines.{IsRoundBlock, IsSentBlock, behind_round, plain_block, round_block_of, round_block_text, sent_block_of, sent_block_text};
ghost use Rattle.mar_script.specs.Script.{hex};
ghost use Rattle.mar_script.specs.Words.{Yields};

use crate::peers::recipients;
use crate::query_line::round_of;
use crate::words::{ParseError, bytes_of, refusal, split_word};
use mar_block::{EmptyBlock, Sent};
use mar_types::{Decode, Digested, Round, Sha256};
use std::alloc::Global;

/// A block, and the round in which something was done with it.
#[derive(Drop)]
pub struct RoundBlock {
    pub round: Round,
    pub block: Digested<EmptyBlock<Sha256>>,
}

/// The block that a word spells, whole, beside its digest.
pub fn block_of(alloc: Global, word: &[u8]) -> Result<Digested<EmptyBlock<Sha256>>, ParseError>
    ensures is_block { IfOk result (λ b. IsBlock (plain_block b)) }
    ensures found { IfOk result (λ b. word.now ≡ hex (plain_block b).encoded) }
    ensures only { (b : PlainBlock) → IsBlock b → word.now ≡ hex b.encoded → Yields (λ found. plain_block found ≡ b) result }
{
    let block = match decoded_block(alloc, word) {
        Ok(block) => block,
        Err(error) => return Err(error),
    };
    match Digested::compute(alloc, block) {
        Ok(block) => Ok(block),
        Err(_error) => Err(ParseError::Memory),
    }
}

// The same without its digest.
fn decoded_block(alloc: Global, word: &[u8]) -> Result<EmptyBlock<Sha256>, ParseError>
    ensures is_block { IfOk result (λ b. IsBlock (plain_block b)) }
    ensures found { IfOk result (λ b. word.now ≡ hex (plain_block b).encoded) }
    ensures only { (b : PlainBlock) → IsBlock b → word.now ≡ hex b.encoded → Yields (λ found. plain_block found ≡ b) result }
{
    let bytes = match bytes_of(alloc, word) {
        Ok(bytes) => bytes,
        Err(error) => return Err(error),
    };
    match EmptyBlock::<Sha256>::decode_cfg(alloc, bytes.as_slice(), &()) {
        Ok(block) => {
            block.is_block();
            Ok(block)
        }
        Err(error) => Err(refusal(error)),
    }
}

// The round that words begin with, its epoch first, and what stands behind it and a space.
fn round_first(words: &[u8]) -> Result<(Round, &[u8]), ParseError>
    ensures is_round { IfOk result (λ parts. IsRound parts.0) }
    ensures found { IfOk result (λ parts. words.now ≡ behind_round parts.0 parts.1.now) }
    ensures only { (r : PlainRound) (rest : List ℕ) → IsRound r → words.now ≡ behind_round r rest
        → Yields (λ parts. (parts.0 ≡ r) × (parts.1.now ≡ rest)) result }
{
    let Some((epoch, rest)) = split_word(words) else {
        return Err(ParseError::Grammar);
    };
    let Some((view, rest)) = split_word(rest) else {
        return Err(ParseError::Grammar);
    };
    match round_of(epoch, view) {
        Ok(round) => Ok((round, rest)),
        Err(error) => Err(error),
    }
}

/// The round and the block that these words spell.
pub fn round_and_block(alloc: Global, words: &[u8]) -> Result<RoundBlock, ParseError>
    ensures is { IfOk result (λ found. IsRoundBlock (round_block_of found)) }
    ensures found { IfOk result (λ found. words.now ≡ round_block_text (round_block_of found)) }
    ensures only { (v : PlainRound × PlainBlock) → IsRoundBlock v → words.now ≡ round_block_text v → Yields (λ found. round_block_of found ≡ v) result }
{
    let (round, word) = match round_first(words) {
        Ok(parts) => parts,
        Err(error) => return Err(error),
    };
    match block_of(alloc, word) {
        Ok(block) => Ok(RoundBlock { round, block }),
        Err(error) => Err(error),
    }
}

/// The round, the peers and the block that these words spell.
pub fn sent_block(
    alloc: Global,
    words: &[u8],
) -> Result<Sent<Digested<EmptyBlock<Sha256>>>, ParseError>
    ensures is { IfOk result (λ found. IsSentBlock (sent_block_of found)) }
    ensures found { IfOk result (λ found. words.now ≡ sent_block_text (sent_block_of found)) }
    ensures only { (v : PlainRound × Peers × PlainBlock) → IsSentBlock v → words.now ≡ sent_block_text v → Yields (λ found. sent_block_of found ≡ v) result }
{
    let (round, rest) = match round_first(words) {
        Ok(parts) => parts,
        Err(error) => return Err(error),
    };
    let Some((peers, word)) = split_word(rest) else {
        return Err(ParseError::Grammar);
    };
    let recipients = match recipients(alloc, peers) {
        Ok(recipients) => recipients,
        Err(error) => return Err(error),
    };
    match block_of(alloc, word) {
        Ok(block) => Ok(Sent {
            round,
            block,
            recipients,
        }),
        Err(error) => Err(error),
    }
}
