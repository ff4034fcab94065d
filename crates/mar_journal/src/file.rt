//! What the bytes of a journal file show.
ghost use Rattle.std.specs.Prelude.{◌≡◌, ◌<◌, ◌≤◌, ◌^◌, ◌++◌, [], ◌∷◌, List, length, take, IfOk, MatchOption};
ghost use Rattle.mar_journal.specs.Format.{IsBatch, IsNoBatch, behind_gate, body, four};
ghost use Rattle.mar_journal.specs.Records.{BatchStandsFirst, Shows};

use crate::Record;
use std::alloc::{AllocError, Global};

/// The first four bytes of a file.
pub const MAGIC: [u8; 4] = [0x4d, 0x4a, 0x31, 0x0a];

/// The most records of a batch.
pub const MAX_BATCH: usize = 2048;

/// What a file shows.
#[derive(Drop)]
pub enum Scan<R> {
    /// Its records, and the place of the closed gate.
    Found(Vec<R>, usize),
    /// Damage at this place.
    Damaged(usize),
}

// The number that the first four bytes are, the high ones first; none where there are fewer.
fn number_of_four(bytes: &[u8]) -> Option<usize>
    ensures { MatchOption result (length bytes.now < 4) (λ n. (n < 2 ^ 32) × (4 ≤ length bytes.now) × (take 4 bytes.now ≡ four n)) }
{
    match bytes {
        [a, b, c, d, ..] => Some(u32::from_be_bytes([*a, *b, *c, *d]) as usize),
        _ => None,
    }
}

// The records of a batch, where these bytes are one.
fn read_body<R: Record>(alloc: Global, bytes: &[u8]) -> Result<Option<Vec<R>>, AllocError>
    requires { length bytes.now < 2 ^ 32 }
    ensures { IfOk result (λ found. MatchOption found
        ((records : List R) → IsBatch R.spelled R.valid records → bytes.now ≡ body R.spelled records → ⊥)
        (λ v. IsBatch R.spelled R.valid v.items × (bytes.now ≡ body R.spelled v.items))) }
{
    let mut records = Vec::new(alloc);
    let mut rest = bytes;
    'records: while !rest.is_empty() {
        if records.len() == MAX_BATCH {
            return Ok(None);
        }
        match R::read(alloc, rest)? {
            None => return Ok(None),
            Some((record, size)) => {
                records.push(record)?;
                rest = &rest[size..];
            }
        }
    }
    if records.is_empty() {
        return Ok(None);
    }
    Ok(Some(records))
}

// The batch behind an open gate, and how many bytes it takes; none where no batch with a gate behind it stands there.
fn read_batch<R: Record>(alloc: Global, bytes: &[u8]) -> Result<Option<(Vec<R>, usize)>, AllocError>
    ensures { IfOk result (λ found. MatchOption found (IsNoBatch R.spelled R.valid bytes.now)
        (λ f. BatchStandsFirst R.spelled R.valid f.0.items f.1 bytes.now)) }
{
    let size = match number_of_four(bytes) {
        None => return Ok(None),
        Some(size) => size,
    };
    if bytes.len() - 4 <= size {
        return Ok(None);
    }
    let end = 4 + size;
    match read_body(alloc, &bytes[4..end])? {
        None => Ok(None),
        Some(records) => Ok(Some((records, end))),
    }
}

/// What the bytes of a file show that isn't new.
pub fn read_file<R: Record>(alloc: Global, bytes: &[u8]) -> Result<Scan<R>, AllocError>
    requires { 5 < length bytes.now }
    ensures { IfOk result (Shows R.spelled R.valid bytes.now) }
{
    if bytes[..4] != MAGIC[..] {
        return Ok(Scan::Damaged(0));
    }
    let mut records = Vec::new(alloc);
    let mut gate = 4;
    'batches: while bytes[gate] == 1 {
        match read_batch(alloc, &bytes[gate + 1..])? {
            None => return Ok(Scan::Damaged(gate)),
            Some((mut batch, size)) => {
                records.append(&mut batch)?;
                gate += 1 + size;
            }
        }
    }
    Ok(Scan::Found(records, gate))
}

// The bytes of some records.
fn spell<R: Record>(alloc: Global, records: &[R]) -> Result<Vec<u8>, AllocError>
    ensures { IfOk result (λ v. v.items ≡ body R.spelled records.now) }
{
    let mut bytes = Vec::new(alloc);
    for record in records {
        record.write(&mut bytes)?;
    }
    Ok(bytes)
}

/// What is written behind a closed gate before it is opened: a batch, and the closed gate behind it.
pub fn staged<R: Record>(alloc: Global, records: &[R]) -> Result<Vec<u8>, AllocError>
    requires { length (body R.spelled records.now) < 2 ^ 32 }
    ensures { IfOk result (λ v. v.items ≡ behind_gate R.spelled records.now ++ 0 ∷ []) }
{
    let body = spell(alloc, records)?;
    let mut bytes = Vec::new(alloc);
    bytes.extend_from_slice(&(body.len() as u32).to_be_bytes())?;
    bytes.extend_from_slice(&body)?;
    bytes.push(0)?;
    Ok(bytes)
}
