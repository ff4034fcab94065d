//! Numbers, ranges and bytes as text, and numbers of text.
use mar_gen::number;
use mar_store::RangeSet;
use std::alloc::{AllocError, Global};
use std::fmt::Display;

/// Three numbers with a space between them.
pub(crate) fn three_numbers(text: &str) -> Option<(u64, u64, u64)> {
    let (first, rest) = text.split_once(' ')?;
    let (second, third) = rest.split_once(' ')?;
    let first = number(first.as_bytes())?;
    let second = number(second.as_bytes())?;
    let third = number(third.as_bytes())?;
    Some((first, second, third))
}

/// A number; `-` for none.
pub(crate) fn number_text<T: Display + Drop>(
    alloc: Global,
    number: Option<T>,
) -> Result<String, AllocError> {
    match number {
        Some(number) => number.to_string(alloc),
        None => "-".to_string(alloc),
    }
}

/// The ranges of a set, as `1-3,5`; `-` for none.
pub(crate) fn ranges_text(alloc: Global, set: &RangeSet) -> Result<String, AllocError> {
    if set.is_empty() {
        return "-".to_string(alloc);
    }
    let mut text = String::new(alloc);
    for span in set.as_slice() {
        if !text.is_empty() {
            text.push_str(",")?;
        }
        let part = if span.from == span.to {
            format!(in alloc; "{}", span.from)?
        } else {
            format!(in alloc; "{}-{}", span.from, span.to)?
        };
        text.push_str(part.as_str())?;
    }
    Ok(text)
}

/// The ranges of two sets, with a text between them.
pub(crate) fn both_text(
    alloc: Global,
    first: &RangeSet,
    between: &str,
    second: &RangeSet,
) -> Result<String, AllocError> {
    let first = ranges_text(alloc, first)?;
    let second = ranges_text(alloc, second)?;
    format!(in alloc; "{first}{between}{second}")
}

// A byte that stands so often in a row.
fn push_run(alloc: Global, text: &mut String, byte: u8, count: u64) -> Result<(), AllocError> {
    let digits = hex::encode(alloc, &[byte])?;
    let part = if count == 1 {
        format!(in alloc; " {digits}")?
    } else {
        format!(in alloc; " {digits}*{count}")?
    };
    text.push_str(part.as_str())
}

/// Bytes in hexadecimal, each behind a space; those that stand in a row once, with their number.
pub(crate) fn bytes_text(alloc: Global, bytes: &[u8]) -> Result<String, AllocError> {
    let mut text = String::new(alloc);
    let mut last: u8 = 0;
    let mut count: u64 = 0;
    for byte in bytes {
        if count > 0 && *byte != last {
            push_run(alloc, &mut text, last, count)?;
            count = 0;
        }
        last = *byte;
        count = count.saturating_add(1);
    }
    if count > 0 {
        push_run(alloc, &mut text, last, count)?;
    }
    Ok(text)
}
