//! A member's part of a mock certificate.
ghost use Rattle.std.specs.Prelude.{◌<◌, ◌^◌};

use mar_types::Sha256Digest;

/// A member's part of a certificate.
#[derive(Clone, Copy, Debug, PartialEq, Eq)]
pub struct Signer {
    /// The member's index, below the number of members.
    pub member: u32,
    /// Its signature.
    pub tag: Sha256Digest,
    ghost in_range: { member < 2 ^ 32 },
}
