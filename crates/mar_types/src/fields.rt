//! The fields of a commitment, of 32 bytes each.
ghost use Rattle.std.specs.Prelude.{◌≡◌, ◌≤◌, IfErr, IfOk, length, take};
ghost use Rattle.std.proofs.Common.{lit≤};
ghost use Rattle.mar_types.specs.Coding.{RefusesField, SpellsField, is_zero, padded};

use crate::{Digest, Error, Kind, Reason, Sha256Digest};
use std::alloc::Global;

/// A digest of at most 32 bytes, as one that a commitment is made of.
pub trait FieldDigest: Digest {
    ghost fits_field: { Self.SIZE ≤ 32 };
}

impl FieldDigest for Sha256Digest {
    ghost fits_field = { lit≤ tt };
}

// Reads the digest at the front of its field, and checks that the rest of the field is zero.
pub(crate) fn read_field<D: FieldDigest>(
    alloc: Global,
    field: &[u8],
    reason: Reason,
) -> Result<D, Error>
    requires { length field.now ≡ 32 }
    ensures spelled { IfOk result (λ digest. SpellsField (D.in_grammar tt) D.SIZE field.now) }
    ensures bytes { IfOk result (λ digest. D.bytes digest ≡ take D.SIZE field.now) }
    ensures err { IfErr result (RefusesField (D.in_grammar tt) D.SIZE reason field.now) }
{
    let (mut spelled, padding) = field.split_at(D::SIZE);
    let digest: D = match D::read_cfg(alloc, &mut spelled, &()) {
        Ok(digest) => digest,
        Err(_) => return Err(Error::Invalid(Kind::Commitment, reason)),
    };
    if !all_zero(padding) {
        return Err(Error::Invalid(Kind::Commitment, Reason::DigestPadding));
    }
    Ok(digest)
}

// Whether each byte is zero.
fn all_zero(bytes: &[u8]) -> bool
    ensures { result ≡ is_zero bytes.now }
{
    bytes.iter().all(|byte| *byte == 0)
}

// Reads the digest of a field that is known to have one.
pub(crate) fn field<D: FieldDigest>(alloc: Global, field: &[u8]) -> D
    requires long { length field.now ≡ 32 }
    requires spelled { SpellsField (D.in_grammar tt) D.SIZE field.now }
    ensures { D.bytes result ≡ take D.SIZE field.now }
{
    match read_field(alloc, field, Reason::BlockDigest) {
        Ok(digest) => digest,
        Err(_) => unreachable!(),
    }
}

// Puts the digest into its field, and zeros after it.
pub(crate) fn put_field(digest: &[u8], field: &mut [u8])
    requires short { length digest.now ≤ 32 }
    requires long { length field.old ≡ 32 }
    ensures { field.new ≡ padded digest.now }
{
    let (front, rest) = field.split_at_mut(digest.len());
    front.copy_from_slice(digest);
    rest.fill(0);
}

// A digest's bytes, of which a field has room for all.
pub(crate) fn field_bytes<D: FieldDigest>(digest: &D) -> &[u8]
    ensures bytes { result.now ≡ D.bytes digest.now }
    ensures short { length result.now ≤ 32 }
{
    digest.as_slice()
}
