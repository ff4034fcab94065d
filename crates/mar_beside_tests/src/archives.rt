//! Archives of finalized blocks, and what a follower makes of them.
use crate::outcomes::{Outcome, Runs};
use crate::spans::epocher_of;
use crate::words::{bytes_of, front, number_front};
use bytes::BytesMut;
use mar_cert::{MockProvider, MockScheme};
use mar_follower::{CheckEnd, Passed, Report, check, read, write};
use mar_types::{Epoch, ScriptEpocher};
use std::alloc::{AllocError, Global};

// What a follower goes by, and the bytes of an archive.
#[derive(Drop)]
struct Case {
    scheme: MockScheme,
    provider: MockProvider,
    epocher: ScriptEpocher,
    bytes: Vec<u8>,
}

impl Case {
    // How many members, the lengths of epochs, the first and the last epoch with a scheme, and the archive.
    fn of(alloc: Global, text: &str) -> Self {
        let (members, text) = number_front(text);
        let (lengths, text) = front(text);
        let (first, text) = number_front(text);
        let (last, text) = number_front(text);
        let scheme = MockScheme::new(members.clamp(1, 64) as u32);
        Case {
            scheme,
            provider: MockProvider::new(scheme, Epoch::new(first), Epoch::new(last)),
            epocher: epocher_of(lengths),
            bytes: bytes_of(alloc, text),
        }
    }

    // The check of these bytes.
    fn checked(&self, alloc: Global, bytes: &[u8]) -> Result<Report, CheckEnd> {
        check(alloc, self.scheme, &self.provider, &self.epocher, bytes)
    }

    // What the check of these bytes ends as.
    fn outcome(&self, alloc: Global, bytes: &[u8]) -> Outcome {
        Outcome::of(&self.checked(alloc, bytes))
    }

    // The same with one bit changed.
    fn outcome_changed(&self, alloc: Global, bit: usize) -> Result<Outcome, AllocError> {
        let mut bytes = Vec::from_slice(alloc, self.bytes.as_slice())?;
        if let Some(byte) = bytes.get_mut(bit / 8) {
            *byte = *byte ^ (1 << (bit % 8));
        }
        Ok(self.outcome(alloc, bytes.as_slice()))
    }
}

// A segment that passed: its highest and lowest height and its round.
fn passed_text(alloc: Global, passed: &Passed) -> Result<String, AllocError> {
    let (top, lowest) = (passed.top, passed.lowest);
    let (epoch, view) = (passed.round.epoch(), passed.round.view());
    format!(in alloc; "segment {top} {lowest} {epoch}.{view}, ")
}

// The segments that passed, and the lowest height.
fn report_text(alloc: Global, report: &Report) -> Result<String, AllocError> {
    let mut text = String::new(alloc);
    for passed in &report.segments {
        let part = passed_text(alloc, passed)?;
        text.push_str(part.as_str())?;
    }
    Ok(text)
}

/// What a follower makes of an archive.
pub(crate) fn told(alloc: Global, text: &str) -> Result<String, AllocError> {
    let case = Case::of(alloc, text);
    let answer = case.checked(alloc, case.bytes.as_slice());
    let end = Outcome::of(&answer).text(alloc)?;
    let report = match answer {
        Ok(report) => report,
        Err(CheckEnd::Refused(report, _)) => report,
        Err(CheckEnd::Memory) => return Err(AllocError),
    };
    let text = report_text(alloc, &report)?;
    format!(in alloc; "{text}{end}")
}

/// What it makes of each front of an archive, the shortest first.
pub(crate) fn told_cuts(alloc: Global, text: &str) -> Result<String, AllocError> {
    let case = Case::of(alloc, text);
    let mut runs = Runs::new(alloc);
    for length in 0..case.bytes.len() {
        let front = case.bytes.get(..length).unwrap_or(&[]);
        let outcome = case.outcome(alloc, front);
        runs.push(alloc, outcome)?;
    }
    runs.text(alloc)
}

/// What it makes of an archive with one bit changed, each in turn, the lowest of a byte first.
pub(crate) fn told_bits(alloc: Global, text: &str) -> Result<String, AllocError> {
    let case = Case::of(alloc, text);
    let mut runs = Runs::new(alloc);
    for bit in 0..case.bytes.len().saturating_mul(8) {
        let outcome = case.outcome_changed(alloc, bit)?;
        runs.push(alloc, outcome)?;
    }
    runs.text(alloc)
}

/// The segment at the front of bytes with so many members: its lowest height, how many blocks stand below its first, its
/// spelling, and how many bytes stand behind it.
pub(crate) fn told_segment(alloc: Global, text: &str) -> Result<String, AllocError> {
    let (members, word) = number_front(text);
    let bytes = bytes_of(alloc, word);
    let mut rest = bytes.as_slice();
    match read(alloc, (members % 65) as u32, &mut rest) {
        Ok(segment) => {
            let mut buf = BytesMut::new(alloc);
            write(&segment, &mut buf)?;
            let spelled = hex::encode(alloc, buf.as_slice())?;
            let (lowest, others, left) = (segment.lowest(), segment.others.len(), rest.len());
            format!(in alloc; "down to {lowest}, {others} below, {left} left: {spelled}")
        }
        Err(error) => error.to_string(alloc),
    }
}
