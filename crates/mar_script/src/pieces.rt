//! Single values in the lines of the output.
ghost use Rattle.std.specs.Prelude.{◌≡◌, ◌++◌, OnOk, decimal, option_map, string_bytes};
ghost use Rattle.mar_key.specs.Views.{annotation_of, cutoff_of, finalized_of, processed_of};
ghost use Rattle.mar_script.specs.Script.{hex, sentence};
ghost use Rattle.mar_script.specs.Text.{annotation_words, cutoff_text, or_dash, processed_text, round_text};

use itoa::Buffer;
use mar_key::{Annotation, Cutoff, Finalized, Processed};
use mar_types::{Height, Round};
use std::alloc::{AllocError, Global};

/// Appends a number.
pub fn push_number(text: &mut String, number: u64) -> Result<(), AllocError>
    ensures { OnOk result (string_bytes text.new ≡ string_bytes text.old ++ decimal number) }
{
    let mut buffer = Buffer::new();
    text.push_str(buffer.format(number))
}

/// Appends bytes in lower-case hexadecimal, or `-` for none.
pub fn push_hex(alloc: Global, text: &mut String, bytes: &[u8]) -> Result<(), AllocError>
    ensures { OnOk result (string_bytes text.new ≡ string_bytes text.old ++ hex bytes.now) }
{
    if bytes.is_empty() {
        return text.push_str("-");
    }
    let spelled = hex::encode(alloc, bytes)?;
    text.push_str(spelled.as_str())
}

/// Appends a round: its epoch, a dot and its view.
pub fn push_round(text: &mut String, round: Round) -> Result<(), AllocError>
    ensures { OnOk result (string_bytes text.new ≡ string_bytes text.old ++ round_text round) }
{
    push_number(text, round.epoch().get())?;
    text.push_str(".")?;
    push_number(text, round.view().get())
}

/// Appends letters and a round.
pub fn push_of_round(text: &mut String, letters: &str, round: Round) -> Result<(), AllocError>
    ensures { OnOk result (string_bytes text.new ≡ string_bytes text.old ++ (letters.now ++ round_text round)) }
{
    text.push_str(letters)?;
    push_round(text, round)
}

/// Appends letters and a height.
pub fn push_of_height(text: &mut String, letters: &str, height: Height) -> Result<(), AllocError>
    ensures { OnOk result (string_bytes text.new ≡ string_bytes text.old ++ (letters.now ++ decimal height)) }
{
    text.push_str(letters)?;
    push_number(text, height.get())
}

fn push_finalized(text: &mut String, finalized: Finalized) -> Result<(), AllocError>
    ensures { OnOk result (string_bytes text.new ≡ string_bytes text.old ++ sentence (annotation_words (finalized_of finalized))) }
{
    match finalized {
        Finalized::ByHeight { height } => push_of_height(text, "fin h", height),
        Finalized::ByRound { round } => push_of_round(text, "fin r", round),
    }
}

/// Appends whom a request is for, in two words.
pub fn push_annotation(text: &mut String, annotation: Annotation) -> Result<(), AllocError>
    ensures { OnOk result (string_bytes text.new ≡ string_bytes text.old ++ sentence (annotation_words (annotation_of annotation))) }
{
    match annotation {
        Annotation::Notarization { round } => push_of_round(text, "not r", round),
        Annotation::Untrusted { height } => push_of_height(text, "unt h", height),
        Annotation::Certified { height } => push_of_height(text, "cer h", height),
        Annotation::Finalized(finalized) => push_finalized(text, finalized),
    }
}

/// Appends a cutoff: its round, or its epoch with a star.
pub fn push_cutoff(text: &mut String, cutoff: Cutoff) -> Result<(), AllocError>
    ensures { OnOk result (string_bytes text.new ≡ string_bytes text.old ++ cutoff_text (cutoff_of cutoff)) }
{
    match cutoff {
        Cutoff::Round(round) => push_round(text, round),
        Cutoff::Epoch(epoch) => {
            push_number(text, epoch.get())?;
            text.push_str(".*")
        }
    }
}

/// Appends a processed height, with whether its block is stored.
pub fn push_some_processed(text: &mut String, processed: Processed) -> Result<(), AllocError>
    ensures { OnOk result (string_bytes text.new ≡ string_bytes text.old ++ processed_text (processed_of processed)) }
{
    match processed {
        Processed::Block(height) => push_of_height(text, "b", height),
        Processed::Absent(height) => push_of_height(text, "a", height),
    }
}

/// Appends a processed height, with whether its block is stored, or `-` for none.
pub fn push_processed(text: &mut String, processed: Option<Processed>) -> Result<(), AllocError>
    ensures { OnOk result (string_bytes text.new ≡ string_bytes text.old ++ or_dash (option_map processed_text (option_map processed_of processed))) }
{
    match processed {
        None => text.push_str("-"),
        Some(processed) => push_some_processed(text, processed),
    }
}

/// Appends a height, or `-` for none.
pub fn push_height(text: &mut String, height: Option<Height>) -> Result<(), AllocError>
    ensures { OnOk result (string_bytes text.new ≡ string_bytes text.old ++ or_dash (option_map decimal height)) }
{
    match height {
        None => text.push_str("-"),
        Some(height) => push_number(text, height.get()),
    }
}
