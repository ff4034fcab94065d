//! The words of a line that hints.
ghost use Rattle.std.specs.Prelude.{◌≡◌, ℕ, List, IfOk};
ghost use Rattle.mar_script.specs.Lines.{IsHint, hint_of, hint_text};
ghost use Rattle.mar_script.specs.Words.{Yields};

use crate::peers::members;
use crate::query_line::height;
use crate::words::{ParseError, split_word};
use mar_types::{Height, NonEmptyVec, Participant};
use std::alloc::Global;

/// A height, and the peers that are said to hold its finalization.
#[derive(Drop)]
pub struct Hint {
    pub height: Height,
    pub targets: NonEmptyVec<Participant>,
}

/// The height and the peers that two words spell, at least one peer.
pub fn hinted(alloc: Global, words: &[u8]) -> Result<Hint, ParseError>
    ensures is { IfOk result (λ found. IsHint (hint_of found)) }
    ensures found { IfOk result (λ found. words.now ≡ hint_text (hint_of found)) }
    ensures only { (v : ℕ × List ℕ) → IsHint v → words.now ≡ hint_text v → Yields (λ found. hint_of found ≡ v) result }
{
    let Some((first, second)) = split_word(words) else {
        return Err(ParseError::Grammar);
    };
    let height = match height(first) {
        Ok(height) => height,
        Err(error) => return Err(error),
    };
    let members = match members(alloc, second) {
        Ok(members) => members,
        Err(error) => return Err(error),
    };
    match NonEmptyVec::from_vec(members) {
        Some(targets) => Ok(Hint { height, targets }),
        None => Err(ParseError::Grammar),
    }
}
