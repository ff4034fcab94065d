//! Records of a metadata store.
ghost use Rattle.mar_journal.specs.MetaRecords.{IsMeta, meta_bytes};
ghost use Rattle.mar_journal.specs.MetaLemmas.{meta_one, meta_some};

use crate::Record;
use crate::numbers::{read_number, read_two, write_number};
use std::alloc::{AllocError, Global};

/// A change of a metadata store.
#[derive(Drop)]
pub enum MetaRecord {
    /// A key has this value.
    Set(u64, u64),
    /// A key has no value.
    Remove(u64),
}

impl Record for MetaRecord {
    ghost spelled = { λ r. meta_bytes r };

    ghost valid = { λ r. IsMeta r };

    ghost one = { meta_one };

    ghost some = { meta_some };

    fn write(&self, out: &mut Vec<u8>) -> Result<(), AllocError> {
        match self {
            MetaRecord::Set(key, value) => {
                out.push(2)?;
                write_number(*key, out)?;
                write_number(*value, out)
            }
            MetaRecord::Remove(key) => {
                out.push(3)?;
                write_number(*key, out)
            }
        }
    }

    fn read(alloc: Global, bytes: &[u8]) -> Result<Option<(Self, usize)>, AllocError> {
        match bytes {
            [2, rest @ ..] => match read_two(alloc, rest) {
                Some((key, value, size)) => Ok(Some((MetaRecord::Set(key, value), 1 + size))),
                None => Ok(None),
            },
            [3, rest @ ..] => match read_number(alloc, rest) {
                Some((key, size)) => Ok(Some((MetaRecord::Remove(key), 1 + size))),
                None => Ok(None),
            },
            _ => Ok(None),
        }
    }
}
