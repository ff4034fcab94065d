//! Verdicts as text.
use mar_block::{EmptyBlock, StandardBlocks, Variant};
use mar_cert::{MockFinalization, MockNotarization};
use mar_judge::{Answer, Verdict};
use mar_key::Outcome;
use mar_types::{Digested, Round, Sha256, Sha256Digest};
use std::alloc::{AllocError, Global};

/// A block, as a judge gives it.
pub type Block = Digested<EmptyBlock<Sha256>>;

/// A verdict of the judge.
pub type Told = Verdict<Sha256Digest, Block, MockFinalization, MockNotarization>;

// Its height and digest.
fn block_text(alloc: Global, block: &Block) -> Result<String, AllocError> {
    let height = StandardBlocks::height(block);
    let digest = block.digest();
    format!(in alloc; "block {height} {digest}")
}

// The round of a certificate, and the block that came with it.
fn certified_text(
    alloc: Global,
    kind: &str,
    round: Round,
    block: &Block,
) -> Result<String, AllocError> {
    let block = block_text(alloc, block)?;
    let (epoch, view) = (round.epoch(), round.view());
    format!(in alloc; ", {kind} {epoch}.{view} of {block}")
}

// What a delivery gives.
fn answer_text(
    alloc: Global,
    answer: &Answer<Block, MockFinalization, MockNotarization>,
) -> Result<String, AllocError> {
    match answer {
        Answer::Block(block, annotations) => {
            let text = block_text(alloc, block)?;
            let asked = annotations.len();
            format!(in alloc; ", {text} for {asked}")
        }
        Answer::Finalized(certificate, block) => {
            certified_text(alloc, "finalization", certificate.round(), block)
        }
        Answer::Notarized(certificate, block) => {
            certified_text(alloc, "notarization", certificate.round(), block)
        }
        Answer::Nothing => Ok(String::new(alloc)),
    }
}

fn verdict_text(alloc: Global, verdict: &Told) -> Result<String, AllocError> {
    let given = answer_text(alloc, &verdict.answer)?;
    let (ticket, outcome) = (verdict.ticket, verdict.outcome);
    format!(in alloc; "\n  {ticket} {outcome:?}{given}")
}

/// Each verdict, with what it gives.
pub(crate) fn verdicts_text(alloc: Global, verdicts: &[Told]) -> Result<String, AllocError> {
    let mut text = String::new(alloc);
    for verdict in verdicts {
        let part = verdict_text(alloc, verdict)?;
        text.push_str(part.as_str())?;
    }
    Ok(text)
}

// How many verdicts are of this outcome.
fn count_of(verdicts: &[Told], outcome: Outcome) -> usize {
    verdicts
        .iter()
        .filter(|verdict| verdict.outcome == outcome)
        .count()
}

/// How many verdicts there are of each outcome.
pub(crate) fn counts_text(alloc: Global, verdicts: &[Told]) -> Result<String, AllocError> {
    let complete = count_of(verdicts, Outcome::Complete);
    let invalid = count_of(verdicts, Outcome::Invalid);
    let ignored = count_of(verdicts, Outcome::Ignored);
    format!(in alloc; "{complete} complete, {invalid} invalid, {ignored} ignored")
}
