//! Records of an archive.
ghost use Rattle.std.specs.Prelude.{◌≡◌, ◌++◌, ◌^◌, ◌<◌, bytes_eq, length, IfOk, MatchOption, OnOk};
ghost use Rattle.mar_journal.specs.ArchiveLemmas.{archive_one, archive_some};
ghost use Rattle.mar_journal.specs.ArchiveRecords.{IsArchived, archive_bytes, put_bytes};
ghost use Rattle.mar_journal.specs.Heads.{HasNoHead, HasNoPut, HeadStandsFirst, PutStandsFirst};

use crate::numbers::{read_number, write_number};
use crate::{JournalItem, Record};
use mar_store::ItemKey;
use std::alloc::{AllocError, Global};
use std::convert::AsSlice;

/// A change of an archive.
#[derive(Drop)]
pub enum ArchiveRecord<T> {
    /// A value was put at an index.
    Put(u64, T),
    /// Values below this index go.
    Prune(u64),
}

// How many bytes the key of a put takes.
const KEY_SIZE: usize = 32;

// What stands before the value of a put: its index, the place of its key, the length of the value and its place.
#[derive(Clone, Copy)]
struct Head {
    index: u64,
    key: usize,
    size: u64,
    at: usize,
}

// What stands before the value of a put whose key has so many bytes.
fn read_head(alloc: Global, key_size: usize, bytes: &[u8]) -> Option<Head>
    ensures { MatchOption result (HasNoHead key_size bytes.now) (λ h. HeadStandsFirst key_size h.index h.key h.size h.at bytes.now) }
{
    let (index, key) = read_number(alloc, bytes)?;
    if bytes.len() - key < key_size {
        return None;
    }
    let from = key + key_size;
    let (size, more) = read_number(alloc, &bytes[from..])?;
    Some(Head {
        index,
        key,
        size,
        at: from + more,
    })
}

// Appends the bytes of a key.
fn push_key<K: ItemKey>(key: &K, out: &mut Vec<u8>) -> Result<(), AllocError>
    ensures { OnOk result (out.new.items ≡ out.old.items ++ K.bytes key.now) }
{
    out.extend_from_slice(key.as_slice())
}

// Whether these are the bytes of a key.
fn is_key<K: ItemKey>(key: &K, bytes: &[u8]) -> bool
    ensures { result ≡ bytes_eq (K.bytes key.now) bytes.now }
{
    key.as_slice() == bytes
}

// The bytes of a put, but the first.
fn write_put<T: JournalItem>(index: u64, item: &T, out: &mut Vec<u8>) -> Result<(), AllocError>
    ensures { OnOk result (out.new.items ≡ out.old.items ++ put_bytes T.name T.spelled index item.now) }
{
    let mut value = Vec::new(*out.allocator());
    item.write(&mut value)?;
    write_number(index, out)?;
    push_key(&item.key(), out)?;
    write_number(value.len() as u64, out)?;
    out.extend_from_slice(&value)
}

// The put whose first byte stands before these bytes.
fn read_put<T: JournalItem>(
    alloc: Global,
    bytes: &[u8],
) -> Result<Option<(u64, T, usize)>, AllocError>
    ensures { IfOk result (λ found. MatchOption found (HasNoPut T.name T.spelled T.fits bytes.now)
        (λ f. PutStandsFirst T.name T.spelled T.fits f.0 f.1 f.2 bytes.now)) }
{
    let head = match read_head(alloc, KEY_SIZE, bytes) {
        Some(head) => head,
        None => return Ok(None),
    };
    let room = bytes.len() - head.at;
    if head.size > room as u64 {
        return Ok(None);
    }
    let size = head.size as usize;
    let end = head.at + size;
    let item = match T::read(alloc, head.index, &bytes[head.at..end])? {
        Some(item) => item,
        None => return Ok(None),
    };
    let key_end = head.key + KEY_SIZE;
    if !is_key(&item.key(), &bytes[head.key..key_end]) {
        return Ok(None);
    }
    Ok(Some((head.index, item, end)))
}

impl<T: JournalItem> Record for ArchiveRecord<T> {
    ghost spelled = { λ r. archive_bytes T.name T.spelled r };

    ghost valid = { λ r. IsArchived T.fits T.spelled r };

    ghost one = { λ r s. archive_one T.name T.spelled T.fits 32 T.keyed T.one r s };

    ghost some = { λ r. archive_some T.name T.spelled r };

    fn write(&self, out: &mut Vec<u8>) -> Result<(), AllocError> {
        match self {
            ArchiveRecord::Put(index, item) => {
                out.push(0)?;
                write_put(*index, item, out)
            }
            ArchiveRecord::Prune(min) => {
                out.push(1)?;
                write_number(*min, out)
            }
        }
    }

    fn read(alloc: Global, bytes: &[u8]) -> Result<Option<(Self, usize)>, AllocError> {
        match bytes {
            [0, rest @ ..] => match read_put(alloc, rest)? {
                Some((index, item, size)) => Ok(Some((ArchiveRecord::Put(index, item), 1 + size))),
                None => Ok(None),
            },
            [1, rest @ ..] => match read_number(alloc, rest) {
                Some((min, size)) => Ok(Some((ArchiveRecord::Prune(min), 1 + size))),
                None => Ok(None),
            },
            _ => Ok(None),
        }
    }
}
