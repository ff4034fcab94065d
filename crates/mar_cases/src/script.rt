//! What a script has an archive do, and what the archive then holds.
use mar_gen::number;
use std::alloc::{AllocError, Global};

/// A step of a script.
#[derive(Clone, Copy)]
pub enum Step {
    /// Puts the value of a byte at the index of that number.
    Put(u8),
    /// Removes what is below an index.
    Prune(u8),
    /// Puts the value of a byte, starts a sync, puts that of another, and finishes the sync.
    Ticket(u8, u8),
    /// Makes all durable.
    Sync,
}

/// A line of a script of a store.
#[derive(Clone, Copy)]
pub enum Line {
    /// One step more.
    Step(Step),
    /// Has each of so many first calls fail by eight lucks, and counts what is found. Forgets the steps.
    Each(u64),
    /// Has each of so many first calls fail by two lucks, and shows what is found. Forgets the steps.
    Table(u64),
    /// The same of a store of metadata, which has steps of its own; those of the script stay.
    Metadata(u64),
}

/// What is held, what was held when the last sync succeeded, and how many steps went well.
#[derive(Drop)]
pub struct Lists {
    pub held: Vec<u8>,
    pub durable: Vec<u8>,
    pub steps: u64,
}

// Puts a value, starts a sync, puts another and finishes the sync, of two bytes.
fn ticket_of(text: &str) -> Option<Line> {
    let (first, later) = text.split_once(' ')?;
    let first = number(first.as_bytes())?;
    let later = number(later.as_bytes())?;
    if first > 255 || later > 255 {
        return None;
    }
    Some(Line::Step(Step::Ticket(first as u8, later as u8)))
}

// What a word and a number say.
fn numbered(word: &str, number: u64) -> Option<Line> {
    match word {
        "put" if number < 256 => Some(Line::Step(Step::Put(number as u8))),
        "prune" if number < 256 => Some(Line::Step(Step::Prune(number as u8))),
        "each" => Some(Line::Each(number)),
        "table" => Some(Line::Table(number)),
        "metadata" => Some(Line::Metadata(number)),
        _ => None,
    }
}

/// What a line says.
pub(crate) fn line_of(line: &str) -> Option<Line> {
    if line == "sync" {
        return Some(Line::Step(Step::Sync));
    }
    let (word, text) = line.split_once(' ')?;
    if word == "ticket" {
        return ticket_of(text);
    }
    numbered(word, number(text.as_bytes())?)
}

impl Lists {
    /// Of an archive that holds nothing.
    pub(crate) fn new(alloc: Global) -> Self {
        Lists {
            held: Vec::new(alloc),
            durable: Vec::new(alloc),
            steps: 0,
        }
    }

    // A put of what is held does nothing.
    fn put(&mut self, byte: u8) -> Result<(), AllocError> {
        if !self.held.contains(&byte) {
            self.held.push(byte)?;
        }
        Ok(())
    }

    /// After a step that went well.
    pub(crate) fn note(&mut self, step: Step) -> Result<(), AllocError> {
        match step {
            Step::Put(byte) => self.put(byte)?,
            Step::Prune(min) => self.held.retain(|byte| *byte >= min),
            Step::Ticket(first, later) => {
                self.put(first)?;
                self.durable = self.held.clone()?;
                self.put(later)?;
            }
            Step::Sync => self.durable = self.held.clone()?,
        }
        self.steps = self.steps.saturating_add(1);
        Ok(())
    }
}
