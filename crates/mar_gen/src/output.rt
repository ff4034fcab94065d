//! What is read back of a script's output, and the line that sums a run up.
ghost use Rattle.std.specs.Prelude.{◌≡◌, ◌<◌, ◌^◌, ℕ, IfOk, IfSome, None, Some, codes, decimal, map, option_map, string_bytes};
ghost use Rattle.std.specs.Option.{is_some};
ghost use Rattle.std.specs.List.{count_by};
ghost use Rattle.mar_types.specs.Varint.{IsNumber};
ghost use Rattle.mar_gen.specs.Output.{HasFirst, HasNone, IsOwed, behind as behind_front, blocks_in, first_behind as first_behind_front, node_words as words_of_node, or_dash, pieces as pieces_at, processed_in, seen, summary as summary_of, summary_back, summary_front, words_of};

use itoa::Buffer;
use memchr::memchr;
use std::alloc::{AllocError, Global};
use std::str;

/// What a node waits for.
#[derive(Clone, Copy, Debug, PartialEq, Eq)]
pub enum Owed {
    /// That the sync of this ticket finishes.
    Sync(u64),
    /// That the block of this ticket is acknowledged.
    Ack(u64),
}

// A text cut at each of these bytes.
fn pieces(alloc: Global, text: &[u8], at: u8) -> Result<Vec<&[u8]>, AllocError>
    ensures { IfOk result (λ found. seen found.items ≡ pieces_at at text.now) }
{
    let mut found = Vec::new(alloc);
    let mut rest = text;
    while let Some(place) = memchr(at, rest) {
        let (piece, behind) = rest.split_at(place);
        found.push(piece)?;
        rest = behind.split_at(1).1;
    }
    found.push(rest)?;
    Ok(found)
}

// What stands behind a front, where the text has it.
fn behind<'a>(text: &'a [u8], front: &[u8]) -> Option<&'a [u8]>
    ensures { option_map (λ rest. rest.now) result ≡ behind_front front.now text.now }
{
    text.strip_prefix(front)
}

// What stands behind a front in the first text that has it.
fn first_behind<'a>(texts: &[&'a [u8]], front: &[u8]) -> Option<&'a [u8]>
    ensures { option_map (λ rest. rest.now) result ≡ first_behind_front front.now (seen texts.now) }
{
    for text in texts {
        if let Some(rest) = behind(text, front) {
            return Some(rest);
        }
    }
    None
}

// How many texts have a front.
fn count_with(texts: &[&[u8]], front: &[u8]) -> usize
    ensures { result ≡ count_by (λ t. is_some (behind_front front.now t)) (seen texts.now) }
{
    let mut count = 0;
    for text in texts {
        if behind(text, front).is_some() {
            count += 1;
        }
    }
    count
}

/// The number that a word spells.
pub fn number(word: &[u8]) -> Option<u64>
    ensures found { IfSome result (λ n. word.now ≡ decimal n) }
    ensures fits { IfSome result IsNumber }
    ensures only { (n : ℕ) → n < 2 ^ 64 → word.now ≡ decimal n → result ≡ Some n }
{
    let Ok(text) = str::from_utf8(word) else {
        return None;
    };
    let Ok(n) = text.parse::<u64>() else {
        return None;
    };
    let mut buffer = Buffer::new();
    if buffer.format(n).as_bytes() == word {
        Some(n)
    } else {
        None
    }
}

// The first ticket of a field.
fn first_ticket(alloc: Global, field: &[u8]) -> Result<Option<u64>, AllocError>
    ensures found { IfOk result (λ found. IfSome found (λ t. HasFirst (Some field.now) t)) }
    ensures fits { IfOk result (λ found. IfSome found IsNumber) }
    ensures none { IfOk result (λ found. found ≡ None → HasNone (Some field.now)) }
{
    let words = pieces(alloc, field, b':')?;
    match words.as_slice().first() {
        Some(word) => Ok(number(word)),
        None => Ok(None),
    }
}

// The first ticket of the field of this name.
fn named_ticket(alloc: Global, words: &[&[u8]], name: &[u8]) -> Result<Option<u64>, AllocError>
    ensures found { IfOk result (λ found. IfSome found (λ t. HasFirst (first_behind_front name.now (seen words.now)) t)) }
    ensures fits { IfOk result (λ found. IfSome found IsNumber) }
    ensures none { IfOk result (λ found. found ≡ None → HasNone (first_behind_front name.now (seen words.now))) }
{
    match first_behind(words, name) {
        Some(field) => first_ticket(alloc, field),
        None => Ok(None),
    }
}

// What a node waits for by the words of its line.
fn owed_by(alloc: Global, words: &[&[u8]]) -> Result<Option<Owed>, AllocError>
    ensures { IfOk result (IsOwed (seen words.now)) }
{
    if let Some(ticket) = named_ticket(alloc, words, b"s=")? {
        return Ok(Some(Owed::Sync(ticket)));
    }
    if let Some(ticket) = named_ticket(alloc, words, b"o=")? {
        return Ok(Some(Owed::Ack(ticket)));
    }
    Ok(None)
}

// The words of the line that shows the node.
fn node_words<'a>(alloc: Global, lines: &[&'a [u8]]) -> Result<Vec<&'a [u8]>, AllocError>
    ensures { IfOk result (λ words. seen words.items ≡ words_of (first_behind_front (codes "node ") (seen lines.now))) }
{
    match first_behind(lines, b"node ") {
        Some(line) => pieces(alloc, line, b' '),
        None => Ok(Vec::new(alloc)),
    }
}

/// What the text of one line of a script tells.
#[derive(Drop)]
pub struct Telling<'a> {
    /// How many blocks were handed over.
    pub delivered: u64,
    /// The processed height as the node shows it.
    pub processed: &'a [u8],
    /// What the node waits for.
    pub owed: Option<Owed>,
}

/// What the text of one line of a script tells.
pub fn read_text(alloc: Global, text: &[u8]) -> Result<Telling<'_>, AllocError>
    ensures delivered { IfOk result (λ t. t.delivered ≡ blocks_in text.now) }
    ensures processed { IfOk result (λ t. t.processed.now ≡ processed_in (words_of_node text.now)) }
    ensures owed { IfOk result (λ t. IsOwed (words_of_node text.now) t.owed) }
{
    let lines = pieces(alloc, text, b'\n')?;
    let words = node_words(alloc, &lines)?;
    let owed = owed_by(alloc, &words)?;
    Ok(Telling {
        delivered: count_with(&lines, b"block ") as u64,
        processed: first_behind(&words, b"p=").unwrap_or(b"-"),
        owed,
    })
}

/// The line that sums a run up.
pub fn summary(
    alloc: Global,
    seed: u64,
    last: u64,
    delivered: u64,
    processed: &[u8],
    lives: u64,
) -> Result<Vec<u8>, AllocError>
    ensures { IfOk result (λ line. line.items ≡ summary_of seed last delivered processed.now lives) }
{
    let front = front_of(alloc, seed, last, delivered)?;
    let back = back_of(alloc, lives)?;
    let mut line = Vec::new(alloc);
    line.extend_from_slice(front.as_bytes())?;
    line.extend_from_slice(processed)?;
    line.extend_from_slice(back.as_bytes())?;
    Ok(line)
}

fn front_of(alloc: Global, seed: u64, last: u64, delivered: u64) -> Result<String, AllocError>
    ensures { IfOk result (λ text. string_bytes text ≡ summary_front seed last delivered) }
{
    format!(in alloc; "gen {seed} {last} delivered {delivered} processed ")
}

fn back_of(alloc: Global, lives: u64) -> Result<String, AllocError>
    ensures { IfOk result (λ text. string_bytes text ≡ summary_back lives) }
{
    format!(in alloc; " lives {lives}\n")
}
