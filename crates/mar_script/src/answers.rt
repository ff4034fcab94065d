//! The lines of what callers are answered.
ghost use Rattle.std.specs.Prelude.{◌≡◌, ◌++◌, IfOk, OnOk, string_bytes};
ghost use Rattle.std.specs.List.{flat_map};
ghost use Rattle.mar_inbox.specs.Answers.{answer_of, told};
ghost use Rattle.mar_inbox.specs.Views.{value_of};
ghost use Rattle.mar_cert.specs.Finalization.{finalization_bytes};
ghost use Rattle.mar_model.specs.Answers.{to};
ghost use Rattle.mar_script.specs.Lines.{plain_block, plain_finalization};
ghost use Rattle.mar_script.specs.Text.{answer_words, line_of};

use crate::word::{Word, push_line};
use mar_block::EmptyBlock;
use mar_cert::MockFinalization;
use mar_inbox::{Answer, Answered, Value};
use mar_types::{Digested, Sha256, Sha256Digest, Write};
use std::alloc::{AllocError, Global};
use std::convert::AsSlice;

// The bytes of a block.
fn bytes_of_block(
    alloc: Global,
    block: &Digested<EmptyBlock<Sha256>>,
) -> Result<Vec<u8>, AllocError>
    ensures { IfOk result (λ bytes. bytes.items ≡ (plain_block block.now).encoded) }
{
    let mut bytes = Vec::new(alloc);
    block.inner().write(&mut bytes)?;
    Ok(bytes)
}

// The bytes of a finalization.
fn bytes_of_finalization(
    alloc: Global,
    finalization: &MockFinalization,
) -> Result<Vec<u8>, AllocError>
    ensures { IfOk result (λ bytes. bytes.items ≡ finalization_bytes (plain_finalization finalization.now)) }
{
    let mut bytes = Vec::new(alloc);
    finalization.write(&mut bytes)?;
    Ok(bytes)
}

fn push_value(
    alloc: Global,
    text: &mut String,
    ticket: u64,
    value: &Value<Sha256Digest, Digested<EmptyBlock<Sha256>>, MockFinalization>,
) -> Result<(), AllocError>
    ensures { OnOk result (string_bytes text.new ≡ string_bytes text.old
        ++ line_of (answer_words (to ticket (value_of (λ d. d.bytes) plain_block plain_finalization value.now)))) }
{
    match value {
        Value::None => push_line(
            alloc,
            text,
            "answer",
            &[Word::Number(ticket), Word::Plain("none")],
        ),
        Value::Info { height, digest } => {
            let words = [
                Word::Number(ticket),
                Word::Number(height.get()),
                Word::Hex(digest.as_slice()),
            ];
            push_line(alloc, text, "answer", &words)
        }
        Value::Block(block) => {
            let bytes = bytes_of_block(alloc, block)?;
            let words = [Word::Number(ticket), Word::Hex(&bytes)];
            push_line(alloc, text, "answer", &words)
        }
        Value::Finalization(finalization) => {
            let bytes = bytes_of_finalization(alloc, finalization)?;
            let words = [Word::Number(ticket), Word::Hex(&bytes)];
            push_line(alloc, text, "answer", &words)
        }
        Value::Bytes(bytes) => push_line(
            alloc,
            text,
            "answer",
            &[Word::Number(ticket), Word::Hex(bytes)],
        ),
        Value::Processed(processed) => {
            let words = [Word::Number(ticket), Word::Processed(*processed)];
            push_line(alloc, text, "answer", &words)
        }
        Value::Anchor { processed, block } => {
            let bytes = bytes_of_block(alloc, block)?;
            let words = [
                Word::Number(ticket),
                Word::Processed(*processed),
                Word::Hex(&bytes),
            ];
            push_line(alloc, text, "answer", &words)
        }
        Value::Sync(sync) => {
            let words = [
                Word::Number(ticket),
                Word::Plain("sync"),
                Word::Number(*sync),
            ];
            push_line(alloc, text, "answer", &words)
        }
        Value::True => push_line(
            alloc,
            text,
            "answer",
            &[Word::Number(ticket), Word::Plain("true")],
        ),
    }
}

fn push_answer(
    alloc: Global,
    text: &mut String,
    answered: &Answered<Value<Sha256Digest, Digested<EmptyBlock<Sha256>>, MockFinalization>>,
) -> Result<(), AllocError>
    ensures { OnOk result (string_bytes text.new ≡ string_bytes text.old
        ++ line_of (answer_words (to answered.now.ticket (answer_of (value_of (λ d. d.bytes) plain_block plain_finalization) answered.now.answer)))) }
{
    let ticket = answered.ticket;
    match &answered.answer {
        Answer::Value(value) => push_value(alloc, text, ticket, value),
        Answer::Closed => {
            let words = [Word::Number(ticket), Word::Plain("closed")];
            push_line(alloc, text, "answer", &words)
        }
    }
}

/// Appends the lines of what callers are answered, in order.
pub fn push_answers(
    alloc: Global,
    text: &mut String,
    answers: &[Answered<Value<Sha256Digest, Digested<EmptyBlock<Sha256>>, MockFinalization>>],
) -> Result<(), AllocError>
    ensures { OnOk result (string_bytes text.new ≡ string_bytes text.old
        ++ flat_map (λ a. line_of (answer_words a)) (told (value_of (λ d. d.bytes) plain_block plain_finalization) answers.now)) }
{
    for answered in answers {
        push_answer(alloc, text, answered)?;
    }
    Ok(())
}
