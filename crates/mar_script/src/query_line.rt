//! The words of lines that ask.
ghost use Rattle.std.specs.Prelude.{◌≡◌, ◌++◌, ◌∷◌, ℕ, List, IfOk, decimal};
ghost use Rattle.mar_types.specs.Digest.{IsDigest};
ghost use Rattle.mar_types.specs.Varint.{IsNumber};
ghost use Rattle.mar_inbox.specs.Views.{identifier_of};
ghost use Rattle.mar_model.specs.Messages.{Identifier as PlainIdentifier};
ghost use Rattle.mar_types.specs.Round.{IsRound, Round as PlainRound};
ghost use Rattle.mar_script.specs.Script.{IsIdentifier, hex, identifier_text};
ghost use Rattle.mar_script.specs.Words.{Yields};

use crate::words::{ParseError, number, split_word};
use mar_inbox::Identifier;
use mar_types::{Epoch, Height, Round, Sha256Digest, View};

/// The height that a word spells.
pub fn height(word: &[u8]) -> Result<Height, ParseError>
    ensures fits { IfOk result IsNumber }
    ensures found { IfOk result (λ h. word.now ≡ decimal h) }
    ensures only { (h : ℕ) → IsNumber h → word.now ≡ decimal h → Yields (λ found. found ≡ h) result }
{
    match number(word) {
        Ok(height) => Ok(Height::new(height)),
        Err(error) => Err(error),
    }
}

// The digest that a word spells in lower case.
fn digest(word: &[u8]) -> Result<Sha256Digest, ParseError>
    ensures is_digest { IfOk result (λ d. IsDigest d.bytes) }
    ensures found { IfOk result (λ d. word.now ≡ hex d.bytes) }
    ensures only { (bytes : List ℕ) → IsDigest bytes → word.now ≡ hex bytes → Yields (λ d. d.bytes ≡ bytes) result }
{
    match Sha256Digest::from_hex(word) {
        Some(digest) => Ok(digest),
        None => Err(ParseError::Grammar),
    }
}

/// Which block a word names: `h` and a height, `d` and a digest, or `latest`.
pub fn identifier(word: &[u8]) -> Result<Identifier<Sha256Digest>, ParseError>
    ensures is_identifier { IfOk result (λ i. IsIdentifier (identifier_of (λ d. d.bytes) i)) }
    ensures found { IfOk result (λ i. word.now ≡ identifier_text (identifier_of (λ d. d.bytes) i)) }
    ensures only { (i : PlainIdentifier) → IsIdentifier i → word.now ≡ identifier_text i
        → Yields (λ found. identifier_of (λ d. d.bytes) found ≡ i) result }
{
    match word {
        [b'h', rest @ ..] => height(rest).map(Identifier::Height),
        [b'd', rest @ ..] => digest(rest).map(Identifier::Digest),
        b"latest" => Ok(Identifier::Latest),
        _ => Err(ParseError::Grammar),
    }
}

/// The round that two words spell, its epoch first.
pub fn round(words: &[u8]) -> Result<Round, ParseError>
    ensures is_round { IfOk result IsRound }
    ensures found { IfOk result (λ r. words.now ≡ decimal r.epoch ++ 32 ∷ decimal r.view) }
    ensures only { (r : PlainRound) → IsRound r → words.now ≡ decimal r.epoch ++ 32 ∷ decimal r.view → Yields (λ found. found ≡ r) result }
{
    let Some((epoch, view)) = split_word(words) else {
        return Err(ParseError::Grammar);
    };
    round_of(epoch, view)
}

/// The round of the epoch and the view that these words spell.
pub fn round_of(epoch: &[u8], view: &[u8]) -> Result<Round, ParseError>
    ensures is_round { IfOk result IsRound }
    ensures found { IfOk result (λ r. (epoch.now ≡ decimal r.epoch) × (view.now ≡ decimal r.view)) }
    ensures only { (r : PlainRound) → IsRound r → epoch.now ≡ decimal r.epoch → view.now ≡ decimal r.view → Yields (λ found. found ≡ r) result }
{
    match number(epoch) {
        Ok(epoch) => match number(view) {
            Ok(view) => Ok(Round::new(Epoch::new(epoch), View::new(view))),
            Err(error) => Err(error),
        },
        Err(error) => Err(error),
    }
}
