//! The words of script lines.
ghost use Rattle.std.specs.Prelude.{◌≡◌, ◌↔◌, ◌/◌, ◌%◌, ◌<◌, ◌^◌, ◌+◌, ◌++◌, ◌==◌, ◌∷◌, ℕ, Contains, List, Some, IfOk, IfSome, IsSomeAnd, IsTrue, drop, length, decimal, map, slice_index, take};
ghost use Rattle.std.specs.List.{AllByRecursion, slice_split};
ghost use Rattle.hex.specs.Hex.{IsBytes, lower_digits};
ghost use Rattle.mar_types.specs.Varint.{IsNumber};
ghost use Rattle.mar_script.specs.Lines.{IsWord, NamesFirst, named};
ghost use Rattle.mar_script.specs.Refused.{HasFirstWord};
ghost use Rattle.mar_script.specs.Script.{hex};
ghost use Rattle.mar_script.specs.Words.{Yields, words_of};

use itoa::Buffer;
use mar_types::Error;
use memchr::memchr;
use std::alloc::{AllocError, Global};
use std::str;

/// Why bytes aren't read as a line.
#[derive(Clone, Copy)]
pub enum ParseError {
    /// They are outside the grammar.
    Grammar,
    /// Memory ran out.
    Memory,
}

impl From<AllocError> for ParseError {
    ghost use Rattle.std.specs.Prelude.{◌≡◌};
    ghost use Rattle.mar_script.specs.declared.words.ParseError.TheVariants.{Memory};

    ghost from_gives = { λ _ e. e ≡ Memory };

    fn from(_error: AllocError) -> ParseError {
        ParseError::Memory
    }
}

/// Why bytes that aren't read as a value are refused.
pub fn refusal(error: Error) -> ParseError
    ensures grammar { result ≡ ParseError.Grammar → error ≡ Error.Memory → ⊥ }
    ensures memory { result ≡ ParseError.Memory → error ≡ Error.Memory }
{
    match error {
        Error::Memory => ParseError::Memory,
        _ => ParseError::Grammar,
    }
}

/// What stands behind this word and the space after it.
pub fn after<'a>(line: &'a [u8], word: &[u8]) -> Option<&'a [u8]>
    ensures found { IfSome result (λ rest. line.now ≡ word.now ++ 32 ∷ rest.now) }
    ensures only { (rest : List ℕ) → line.now ≡ word.now ++ 32 ∷ rest → IsSomeAnd result (λ found. found.now ≡ rest) }
{
    if line.len() < word.len() {
        return None;
    }
    let (front, back) = line.split_at(word.len());
    if front != word {
        return None;
    }
    if back.is_empty() || back[0] != b' ' {
        return None;
    }
    Some(back.split_at(1).1)
}

/// Where a byte stands for the first time.
pub fn first_place(bytes: &[u8], byte: u8) -> Option<usize>
    ensures found { IfSome result (λ n. (n < length bytes.now) × (bytes.now ≡ take n bytes.now ++ byte ∷ drop (n + 1) bytes.now)
        × (Contains (take n bytes.now) byte → ⊥)) }
    ensures none { result ≡ None → Contains bytes.now byte → ⊥ }
{
    memchr(byte, bytes)
}

/// The first word of a line, and what stands behind it and a space.
pub fn split_word(line: &[u8]) -> Option<(&[u8], &[u8])>
    ensures found { IfSome result (λ parts. (line.now ≡ parts.0.now ++ 32 ∷ parts.1.now) × IsWord parts.0.now) }
    ensures none { result ≡ None → IsWord line.now }
{
    let space = first_place(line, b' ')?;
    let (word, rest) = line.split_at(space);
    Some((word, rest.split_at(1).1))
}

// What a table of words has for this one.
fn look_up<K: Copy>(table: &[(&[u8], K)], word: &[u8]) -> Option<K>
    ensures { result ≡ named (map (λ row. (row.0.now, row.1)) table.now) word.now }
{
    for (name, value) in table {
        if *name == word {
            return Some(*value);
        }
    }
    None
}

/// What a table of words has for the first word of a line, and what stands behind that word and a space.
pub fn look_up_first<'a, K: Copy>(table: &[(&[u8], K)], line: &'a [u8]) -> Option<(K, &'a [u8])>
    ensures found { IfSome result (λ parts. NamesFirst (map (λ row. (row.0.now, row.1)) table.now) line.now parts.0 parts.1.now) }
    ensures none { result ≡ None → (k : K) (rest : List ℕ) → NamesFirst (map (λ row. (row.0.now, row.1)) table.now) line.now k rest → ⊥ }
{
    let Some((word, rest)) = split_word(line) else {
        return None;
    };
    match look_up(table, word) {
        Some(value) => Some((value, rest)),
        None => None,
    }
}

/// Whether this is the first word of the line.
pub fn begins_with(line: &[u8], word: &[u8]) -> bool
    ensures { IsTrue result ↔ HasFirstWord word.now line.now }
{
    line == word || after(line, word).is_some()
}

/// What stands between these bytes of a line.
pub fn split_at_each<'a>(
    alloc: Global,
    line: &'a [u8],
    byte: u8,
) -> Result<Vec<&'a [u8]>, AllocError>
    ensures { IfOk result (λ parts. words_of parts.items ≡ slice_split (λ b. b == byte) line.now) }
{
    line.split(|b| *b == byte).collect(alloc)
}

/// The number that a word spells.
pub fn number(word: &[u8]) -> Result<u64, ParseError>
    ensures fits { IfOk result IsNumber }
    ensures found { IfOk result (λ n. word.now ≡ decimal n) }
    ensures only { (n : ℕ) → n < 2 ^ 64 → word.now ≡ decimal n → Yields (λ m. m ≡ n) result }
{
    let Ok(text) = str::from_utf8(word) else {
        return Err(ParseError::Grammar);
    };
    let Ok(n) = text.parse::<u64>() else {
        return Err(ParseError::Grammar);
    };
    let mut again = Buffer::new();
    if again.format(n).as_bytes() == word {
        Ok(n)
    } else {
        Err(ParseError::Grammar)
    }
}

/// The numbers that words spell.
pub fn numbers(alloc: Global, words: &[&[u8]]) -> Result<Vec<u64>, ParseError>
    ensures found { IfOk result (λ ns. words_of words.now ≡ map decimal ns.items) }
    ensures only { (ns : List ℕ) → AllByRecursion IsNumber ns → words_of words.now ≡ map decimal ns → Yields (λ found. found.items ≡ ns) result }
{
    let mut numbers = Vec::new(alloc);
    for word in words {
        let n = match number(word) {
            Ok(n) => n,
            Err(error) => return Err(error),
        };
        if numbers.push(n).is_err() {
            return Err(ParseError::Memory);
        }
    }
    Ok(numbers)
}

/// The bytes that a word spells in lower case; at least one.
pub fn bytes_of(alloc: Global, word: &[u8]) -> Result<Vec<u8>, ParseError>
    ensures found { IfOk result (λ bytes. word.now ≡ hex bytes.items) }
    ensures some { IfOk result (λ bytes. 0 < length bytes.items) }
    ensures only { (bytes : List ℕ) → IsBytes bytes → 0 < length bytes → word.now ≡ hex bytes → Yields (λ found. found.items ≡ bytes) result }
{
    if word.is_empty() {
        return Err(ParseError::Grammar);
    }
    let mut bytes = Vec::new(alloc);
    if bytes.reserve(word.len() / 2).is_err() {
        return Err(ParseError::Memory);
    }
    let mut rest = word;
    while rest.len() >= 2 {
        let Some(byte) = byte_of(rest[0], rest[1]) else {
            return Err(ParseError::Grammar);
        };
        if bytes.push(byte).is_err() {
            return Err(ParseError::Memory);
        }
        rest = rest.split_at(2).1;
    }
    if rest.is_empty() {
        Ok(bytes)
    } else {
        Err(ParseError::Grammar)
    }
}

// The byte that two digits spell.
fn byte_of(high: u8, low: u8) -> Option<u8>
    ensures found { IfSome result (λ b. (b < 256) × (high ≡ slice_index lower_digits (b / 16)) × (low ≡ slice_index lower_digits (b % 16))) }
    ensures only { (b : ℕ) → b < 256 → high ≡ slice_index lower_digits (b / 16) → low ≡ slice_index lower_digits (b % 16) → result ≡ Some b }
{
    let high = digit_of(high)?;
    let low = digit_of(low)?;
    Some(high * 16 + low)
}

// The number that a digit spells in lower case.
fn digit_of(byte: u8) -> Option<u8>
    ensures found { IfSome result (λ d. (d < 16) × (byte ≡ slice_index lower_digits d)) }
    ensures only { (d : ℕ) → d < 16 → byte ≡ slice_index lower_digits d → result ≡ Some d }
{
    match byte {
        b'0'..=b'9' => Some(byte - b'0'),
        b'a'..=b'f' => Some(byte - b'a' + 10),
        _ => None,
    }
}
