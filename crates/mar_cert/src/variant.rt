//! Kinds of blocks.
ghost use Rattle.std.specs.Prelude.{◌≡◌, List, ℕ, IfOk};
ghost use Rattle.mar_cert.specs.Block.{Block as PlainBlock};

use mar_types::{Height, Named};
use std::alloc::AllocError;

/// What a node must know of its blocks: their place, their names and their parents.
///
/// A commitment is what consensus signs; the digest can be read off it.
pub trait Variant {
    /// A block whose digest and commitment are ready. A clone shares what it holds.
    type Block: Drop;

    /// What names a block alone.
    type Digest: Named;

    /// What a certificate over a block signs.
    type Commitment: Named;

    /// A block as plain data.
    ghost plain: { Self.Block → PlainBlock };

    /// The digest that a commitment names.
    ghost inner: { List ℕ → List ℕ };

    /// The block's height.
    fn height(block: &Self::Block) -> Height
        ensures { result ≡ (plain block.now).height };

    /// The block's digest.
    fn digest(block: &Self::Block) -> Self::Digest
        ensures { Self.Digest.bytes result ≡ (plain block.now).digest };

    /// The block's commitment.
    fn commitment(block: &Self::Block) -> Self::Commitment
        ensures { Self.Commitment.bytes result ≡ (plain block.now).commitment };

    /// The digest in a commitment.
    fn commitment_to_inner(commitment: Self::Commitment) -> Self::Digest
        ensures { Self.Digest.bytes result ≡ inner (Self.Commitment.bytes commitment) };

    /// The commitment of the block's parent.
    fn parent_commitment(block: &Self::Block) -> Self::Commitment
        ensures { Self.Commitment.bytes result ≡ (plain block.now).parent_commitment };

    /// Another handle of the same block.
    fn try_clone(block: &Self::Block) -> Result<Self::Block, AllocError>
        ensures { IfOk result (λ b. plain b ≡ plain block.now) };

    ghost inner_is: { (b : Self.Block) → inner (plain b).commitment ≡ (plain b).digest };
}
