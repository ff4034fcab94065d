//! Epochs of one length and of varying lengths.
use crate::words::{front, number, number_text, numbers};
use mar_model::closed_epoch;
use mar_types::{Epoch, Epocher, FixedEpocher, Height, ScriptEpocher, TableEpocher};
use std::alloc::{AllocError, Global};
use std::num::NonZeroU64;

// What is asked of epochs.
#[derive(Clone, Copy)]
enum Asked {
    // The first and the last height of an epoch.
    Bounds,
    // The epoch of a height, with its bounds.
    Placed,
    // The newest epoch that ends at or below a height.
    Closed,
}

/// The epochs of a word: a table of lengths between commas, or one length of all.
pub(crate) fn epocher_of(word: &str) -> ScriptEpocher {
    match word {
        "3,1,5" => ScriptEpocher::Table(TableEpocher::new(&[3, 1, 5])),
        "2," => ScriptEpocher::Table(TableEpocher::new(&[2])),
        "2,4294967295" => ScriptEpocher::Table(TableEpocher::new(&[2, 4_294_967_295])),
        _ => fixed(number(word).max(2)),
    }
}

// Epochs of one length.
fn fixed(length: u64) -> ScriptEpocher {
    match NonZeroU64::new(length) {
        Some(length) if length.get() > 1 => ScriptEpocher::Fixed(FixedEpocher::new(length)),
        _ => ScriptEpocher::Table(TableEpocher::new(&[2])),
    }
}

fn bounds(alloc: Global, epocher: &ScriptEpocher, epoch: Epoch) -> Result<String, AllocError> {
    let first = number_text(alloc, epocher.first(epoch))?;
    let last = number_text(alloc, epocher.last(epoch))?;
    format!(in alloc; "{first}-{last}")
}

fn placed(alloc: Global, epocher: &ScriptEpocher, height: Height) -> Result<String, AllocError> {
    match epocher.containing(height) {
        Some(info) => {
            let (epoch, first, last) = (info.epoch(), info.first(), info.last());
            format!(in alloc; "{epoch}:{first}-{last}")
        }
        None => "-".to_string(alloc),
    }
}

// What is told of one number.
fn told_one(
    alloc: Global,
    asked: Asked,
    epocher: &ScriptEpocher,
    number: u64,
) -> Result<String, AllocError> {
    match asked {
        Asked::Bounds => bounds(alloc, epocher, Epoch::new(number)),
        Asked::Placed => placed(alloc, epocher, Height::new(number)),
        Asked::Closed => number_text(alloc, closed_epoch(epocher, Height::new(number))),
    }
}

// What is told of each number of a line.
fn told(alloc: Global, asked: Asked, text: &str) -> Result<String, AllocError> {
    let (word, rest) = front(text);
    let epocher = epocher_of(word);
    let mut all = String::new(alloc);
    for number in numbers(alloc, rest)? {
        let part = told_one(alloc, asked, &epocher, number)?;
        all.push_str(part.as_str())?;
        all.push_str(" ")?;
    }
    Ok(all)
}

/// The first and last heights of epochs.
pub(crate) fn told_bounds(alloc: Global, text: &str) -> Result<String, AllocError> {
    told(alloc, Asked::Bounds, text)
}

/// The epochs of heights.
pub(crate) fn told_placed(alloc: Global, text: &str) -> Result<String, AllocError> {
    told(alloc, Asked::Placed, text)
}

/// The newest epoch that ends at or below each height.
pub(crate) fn told_closed(alloc: Global, text: &str) -> Result<String, AllocError> {
    told(alloc, Asked::Closed, text)
}
