//! A line of the output, word by word.
ghost use Rattle.std.specs.Prelude.{◌≡◌, ◌++◌, ◌∷◌, OnOk, map, string_bytes};
ghost use Rattle.std.specs.List.{flat_map};
ghost use Rattle.mar_script.specs.OutputWords.{word_text};
ghost use Rattle.mar_script.specs.Text.{line_of};

use crate::lists::{push_peers, push_recipients};
use crate::pieces::{push_annotation, push_hex, push_number, push_round, push_some_processed};
use mar_block::Recipients;
use mar_key::{Annotation, Processed};
use mar_types::{Participant, Round};
use std::alloc::{AllocError, Global};

/// A word of a line of the output.
#[derive(Clone, Copy)]
pub enum Word<'a> {
    /// These letters.
    Plain(&'static str),
    /// A number.
    Number(u64),
    /// Bytes in lower-case hexadecimal, or `-` for none.
    Hex(&'a [u8]),
    /// A round.
    Round(Round),
    /// Whom a request is for, in two words.
    Subscriber(Annotation),
    /// A processed height, with whether its block is stored.
    Processed(Processed),
    /// Peers, with a comma between, or `-` for none.
    Peers(&'a [u32]),
    /// To whom something is sent: `all`, or peers as those.
    Recipients(&'a Recipients<Participant>),
}

fn push_word(alloc: Global, text: &mut String, word: &Word<'_>) -> Result<(), AllocError>
    ensures { OnOk result (string_bytes text.new ≡ string_bytes text.old ++ word_text word.now) }
{
    match word {
        Word::Plain(letters) => text.push_str(letters),
        Word::Number(number) => push_number(text, *number),
        Word::Hex(bytes) => push_hex(alloc, text, bytes),
        Word::Round(round) => push_round(text, *round),
        Word::Subscriber(annotation) => push_annotation(text, *annotation),
        Word::Processed(processed) => push_some_processed(text, *processed),
        Word::Peers(peers) => push_peers(text, peers),
        Word::Recipients(recipients) => push_recipients(text, recipients),
    }
}

// Appends words, each with a space before it.
fn push_words(alloc: Global, text: &mut String, words: &[Word<'_>]) -> Result<(), AllocError>
    ensures { OnOk result (string_bytes text.new ≡ string_bytes text.old ++ flat_map (λ w. 32 ∷ word_text w) words.now) }
{
    for word in words {
        text.push_str(" ")?;
        push_word(alloc, text, word)?;
    }
    Ok(())
}

/// Appends a line of a first word and others.
pub fn push_line(
    alloc: Global,
    text: &mut String,
    first: &str,
    words: &[Word<'_>],
) -> Result<(), AllocError>
    ensures { OnOk result (string_bytes text.new ≡ string_bytes text.old ++ line_of (first.now ∷ map word_text words.now)) }
{
    text.push_str(first)?;
    push_words(alloc, text, words)?;
    text.push_str("\n")?;
    Ok(())
}
