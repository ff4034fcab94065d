//! Words of a line as numbers and as bytes.
use std::alloc::Global;

/// The number of a word, or 0.
pub(crate) fn number(word: &str) -> u64 {
    word.parse::<u64>().unwrap_or(0)
}

/// A word, and what stands behind it.
pub(crate) fn front(text: &str) -> (&str, &str) {
    text.split_once(' ').unwrap_or((text, ""))
}

/// A number, and what stands behind it.
pub(crate) fn number_front(text: &str) -> (u64, &str) {
    let (word, rest) = front(text);
    (number(word), rest)
}

/// The bytes of a word in hexadecimal; none where it is no such word.
pub(crate) fn bytes_of(alloc: Global, word: &str) -> Vec<u8> {
    match hex::decode(alloc, word) {
        Ok(bytes) => bytes,
        Err(_) => Vec::new(alloc),
    }
}
