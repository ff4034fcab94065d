//! What checks of archives end as, each so many times in a row.
use mar_follower::{CheckEnd, Report, Why};
use std::alloc::{AllocError, Global};

/// What a check ends as.
#[derive(Clone, Copy, PartialEq, Eq)]
pub enum Outcome {
    /// Accepted, with so many blocks.
    Blocks(u64),
    /// So many segments passed, and the next one is refused.
    Refused(u64, Why),
    Memory,
}

impl Outcome {
    /// What this answer is.
    pub(crate) fn of(answer: &Result<Report, CheckEnd>) -> Self {
        match answer {
            Ok(report) => Outcome::Blocks(report.blocks),
            Err(CheckEnd::Refused(report, why)) => {
                Outcome::Refused(report.segments.len() as u64, *why)
            }
            Err(CheckEnd::Memory) => Outcome::Memory,
        }
    }

    /// It as a text.
    pub(crate) fn text(self, alloc: Global) -> Result<String, AllocError> {
        match self {
            Outcome::Blocks(blocks) => format!(in alloc; "yes {blocks}"),
            Outcome::Refused(segment, why) => format!(in alloc; "refused {segment} {why:?}"),
            Outcome::Memory => "memory".to_string(alloc),
        }
    }
}

/// Outcomes one behind another, as a text; the last one isn't in it yet.
#[derive(Drop)]
pub struct Runs {
    text: String,
    last: Outcome,
    count: u64,
}

impl Runs {
    /// None yet.
    pub(crate) fn new(alloc: Global) -> Self {
        Runs {
            text: String::new(alloc),
            last: Outcome::Memory,
            count: 0,
        }
    }

    // The last one and how often it came in a row.
    fn flush(&mut self, alloc: Global) -> Result<(), AllocError> {
        if self.count > 0 {
            let last = self.last.text(alloc)?;
            let part = format!(in alloc; "\n  {}* {last}", self.count)?;
            self.text.push_str(part.as_str())?;
        }
        Ok(())
    }

    /// One more.
    pub(crate) fn push(&mut self, alloc: Global, outcome: Outcome) -> Result<(), AllocError> {
        if outcome != self.last {
            self.flush(alloc)?;
            self.count = 0;
        }
        self.last = outcome;
        self.count = self.count.saturating_add(1);
        Ok(())
    }

    /// All of them.
    pub(crate) fn text(self, alloc: Global) -> Result<String, AllocError> {
        let mut runs = self;
        runs.flush(alloc)?;
        Ok(runs.text)
    }
}
