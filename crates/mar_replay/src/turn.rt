//! The text of one line of a script.
ghost use Rattle.std.specs.Prelude.{◌≡◌, ◌++◌, [], List, OnOk, string_bytes};
ghost use Rattle.std.specs.List.{flat_map};
ghost use Rattle.mar_key.specs.Asked.{Asked};
ghost use Rattle.mar_script.specs.Text.{line_of, output_text, state_words};
ghost use Rattle.mar_replay.specs.Turn.{heard_text, made_in, outcome_text, output_of, report_text, state_with};

use crate::heard::Heard;
use crate::play::{Outcome, ScriptHolds, State};
use mar_actor::Update;
use mar_block::{EmptyBlock, StandardBlocks, Variant};
use mar_model::StoresRuin;
use mar_script::{
    RangeTexts, push_answers, push_asks, push_block, push_ended, push_fault, push_node,
    push_remark, push_sends, push_tip,
};
use mar_types::{Digested, Sha256, Sha256Digest};
use std::alloc::{AllocError, Global};
use std::convert::AsSlice;

/// What the texts of lines are written on, one after another.
#[derive(Drop)]
pub struct Page {
    pub text: String,
    pub ranges: RangeTexts,
}

impl Page {
    /// One on which nothing is written.
    pub fn new(alloc: Global) -> Self
        ensures { string_bytes result.text ≡ [] }
    {
        Page {
            text: String::new(alloc),
            ranges: RangeTexts::new(alloc),
        }
    }
}

/// Appends what a line made: what the application was told, what was asked, what was sent, what callers were answered, a
/// remark or a fault, and what there is now.
pub fn push_turn<H: ScriptHolds>(
    alloc: Global,
    text: &mut String,
    ranges: &mut RangeTexts,
    heard: &Heard,
    outcome: Outcome,
    state: &State<H>,
) -> Result<(), AllocError>
    ensures { OnOk result ((asked : List Asked) → string_bytes text.new ≡ string_bytes text.old
        ++ output_text (output_of (made_in heard.now) outcome) (state_with asked state.now)) }
{
    push_made(alloc, text, heard, outcome)?;
    push_state(alloc, text, ranges, state)
}

// Appends what a line made, but for what there is now.
fn push_made(
    alloc: Global,
    text: &mut String,
    heard: &Heard,
    outcome: Outcome,
) -> Result<(), AllocError>
    ensures { OnOk result (string_bytes text.new ≡ string_bytes text.old ++ heard_text heard.now outcome) }
{
    push_updates(alloc, text, &heard.told.updates)?;
    push_asks(alloc, text, heard.asked.asks())?;
    push_sends(alloc, text, &heard.sent)?;
    push_answers(alloc, text, heard.answers.answers())?;
    push_outcome(alloc, text, outcome)?;
    Ok(())
}

fn push_updates(
    alloc: Global,
    text: &mut String,
    updates: &[Update<Sha256Digest, Digested<EmptyBlock<Sha256>>>],
) -> Result<(), AllocError>
    ensures { OnOk result (string_bytes text.new ≡ string_bytes text.old ++ flat_map report_text updates.now) }
{
    for update in updates {
        push_update(alloc, text, update)?;
    }
    Ok(())
}

fn push_update(
    alloc: Global,
    text: &mut String,
    update: &Update<Sha256Digest, Digested<EmptyBlock<Sha256>>>,
) -> Result<(), AllocError>
    ensures { OnOk result (string_bytes text.new ≡ string_bytes text.old ++ report_text update.now) }
{
    match update {
        Update::Tip(round, height, digest) => {
            push_tip(alloc, text, *round, *height, digest.as_slice())
        }
        Update::Block(block, ack) => push_block(
            alloc,
            text,
            ack.ticket(),
            StandardBlocks::height(block),
            block.digest().as_slice(),
        ),
    }
}

fn push_outcome(alloc: Global, text: &mut String, outcome: Outcome) -> Result<(), AllocError>
    ensures { OnOk result (string_bytes text.new ≡ string_bytes text.old ++ outcome_text outcome) }
{
    match outcome {
        Outcome::Done => Ok(()),
        Outcome::Remark(remark) => push_remark(text, remark),
        Outcome::Fault(fault) => push_fault(alloc, text, fault),
    }
}

fn push_state<H: ScriptHolds>(
    alloc: Global,
    text: &mut String,
    ranges: &mut RangeTexts,
    state: &State<H>,
) -> Result<(), AllocError>
    ensures { OnOk result ((asked : List Asked) → string_bytes text.new ≡ string_bytes text.old ++ line_of (state_words (state_with asked state.now))) }
{
    match state {
        State::Running(actor, _, _) => push_node(alloc, text, ranges, &actor.shown()),
        State::Stopped(left, _) => push_ended(text, ranges, &left.ruins.shown()),
    }
}
