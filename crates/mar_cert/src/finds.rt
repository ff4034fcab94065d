//! Look-ups among blocks that were received.
ghost use Rattle.std.specs.Prelude.{◌≡◌, IfOk, List, find, bytes_eq, option_map};
ghost use Rattle.mar_cert.specs.Block.{Block as PlainBlock};

use crate::variant::Variant;
use std::alloc::AllocError;

/// Finds blocks that were received.
pub trait Finds<V: Variant> {
    /// The blocks that it finds, as they came.
    ghost blocks: { Self → List PlainBlock };

    /// The first block of that digest.
    fn find_by_digest(&self, digest: &V::Digest) -> Result<Option<V::Block>, AllocError>
        ensures { IfOk result (λ o. option_map V.plain o
            ≡ find (λ b. bytes_eq b.digest (V.Digest.bytes digest.now)) (blocks self.now)) };

    /// The first block of that commitment.
    fn find_by_commitment(&self, commitment: &V::Commitment) -> Result<Option<V::Block>, AllocError>
        ensures { IfOk result (λ o. option_map V.plain o
            ≡ find (λ b. bytes_eq b.commitment (V.Commitment.bytes commitment.now)) (blocks self.now)) };
}
