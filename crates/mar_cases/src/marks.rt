//! Values that are their own digests.
ghost use Rattle.std.specs.Prelude.{◌≡◌, bytes_eq, replicate, true};
ghost use Rattle.mar_types.specs.DigestLemmas.{same_proof};

use mar_journal::JournalItem;
use mar_store::Item;
use mar_types::{Digest, Hasher, Sha256, Sha256Digest};
use std::alloc::{AllocError, Global};
use std::convert::AsSlice;

#[derive(Drop)]
pub struct Mark {
    digest: Sha256Digest,
}

impl Mark {
    /// That whose digest is so many times a byte.
    pub fn of(byte: u8) -> Self
        ensures { result.digest.bytes ≡ replicate 32 byte }
    {
        Mark {
            digest: Sha256::fill(byte),
        }
    }

    /// That whose digest begins with a number, of which no test needs more than that it is another for another number.
    pub fn numbered(number: u64) -> Self {
        let mut bytes = [0; 32];
        bytes[..8].copy_from_slice(&number.to_be_bytes());
        Mark {
            digest: Sha256Digest::from(bytes),
        }
    }

    /// Whether its digest is so many times a byte.
    pub fn is_of(&self, byte: u8) -> bool
        ensures { result ≡ bytes_eq self.now.digest.bytes (replicate 32 byte) }
    {
        self.digest == Sha256::fill(byte)
    }
}

impl Item for Mark {
    type Key = Sha256Digest;

    ghost name = { λ v. v.digest.bytes };

    ghost size = { λ v. 32 };

    ghost fits = { λ index v. true };

    fn key(&self) -> Sha256Digest {
        self.digest
    }

    fn try_clone(&self) -> Result<Self, AllocError> {
        Ok(Mark {
            digest: self.digest,
        })
    }
}

impl JournalItem for Mark {
    ghost spelled = { λ v. v.digest.bytes };

    fn write(&self, out: &mut Vec<u8>) -> Result<(), AllocError> {
        out.extend_from_slice(self.digest.as_slice())
    }

    fn read(_alloc: Global, _index: u64, bytes: &[u8]) -> Result<Option<Self>, AllocError> {
        if bytes.len() != 32 {
            return Ok(None);
        }
        let mut array = [0; 32];
        array.copy_from_slice(bytes);
        Ok(Some(Mark {
            digest: Sha256Digest::from(array),
        }))
    }

    ghost sized = { λ index v fit. v.digest.is_digest.0 };

    ghost one = { λ index v w fits other same i.
        record { digest = record { bytes = same i; is_digest = same_proof 32 _ _ same v.digest.is_digest w.digest.is_digest i } } };

    ghost keyed = { λ index v fit. v.digest.is_digest.0 };
}
