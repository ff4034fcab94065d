//! What an archive keeps of a block and of a finalization.
ghost use Rattle.std.specs.Prelude.{◌≡◌, IfOk, length, true};
ghost use Rattle.mar_cert.specs.Finalization.{finalization_bytes};
ghost use Rattle.mar_life.specs.Fitting.{fits_at};

use mar_block::Variant;
use mar_cert::{AsFinalization, CommitsTo};
use mar_store::{Item, ItemKey};
use std::alloc::AllocError;
use std::marker::{Model, PhantomData};

/// A block as an archive keeps it: at its own height and under its own digest.
#[derive(Drop)]
pub struct BlockItem<V: Variant> {
    block: V::Block,
}

impl<V: Variant> Model for BlockItem<V> {
    ghost use Rattle.mar_cert.specs.Block.{Block as PlainBlock};

    ghost Value = { PlainBlock };

    ghost view = { λ i. V.plain i.block };
}

impl<V: Variant> BlockItem<V> {
    /// A copy of a block.
    pub fn of(block: &V::Block) -> Result<Self, AllocError>
        ensures { IfOk result (λ i. i ≡ V.plain block.now) }
    {
        let block = V::try_clone(block)?;
        Ok(BlockItem { block })
    }

    /// The block.
    pub fn into_block(self) -> V::Block
        ensures { V.plain result ≡ self }
    {
        self.block
    }
}

impl<V: Variant> Item for BlockItem<V>
where
    V::Digest: ItemKey,
{
    type Key = V::Digest;

    ghost name = { λ b. b.digest };

    ghost size = { λ b. length b.encoded };

    ghost fits = { fits_at V.inner };

    fn key(&self) -> V::Digest {
        V::digest(&self.block)
    }

    fn try_clone(&self) -> Result<Self, AllocError> {
        BlockItem::of(&self.block)
    }
}

/// A finalization as an archive keeps it: under the digest of its payload.
#[derive(Drop)]
pub struct CertificateItem<V, F: AsFinalization> {
    finalization: F,
    of: PhantomData<V>,
}

impl<V, F: AsFinalization> Model for CertificateItem<V, F> {
    ghost use Rattle.mar_cert.specs.Finalization.{Finalization as PlainFinalization};

    ghost Value = { PlainFinalization };

    ghost view = { λ i. F.plain i.finalization };
}

impl<V, F: AsFinalization> CertificateItem<V, F> {
    /// A copy of a finalization.
    pub fn of(finalization: &F) -> Result<Self, AllocError>
        ensures { IfOk result (λ i. i ≡ F.plain finalization.now) }
    {
        let finalization = finalization.try_clone()?;
        Ok(CertificateItem {
            finalization,
            of: PhantomData,
        })
    }

    /// The finalization.
    pub fn into_finalization(self) -> F
        ensures { F.plain result ≡ self }
    {
        self.finalization
    }
}

impl<V: Variant, F: CommitsTo<V::Commitment>> Item for CertificateItem<V, F>
where
    V::Digest: ItemKey,
{
    type Key = V::Digest;

    ghost name = { λ f. V.inner f.payload };

    ghost size = { λ f. length (finalization_bytes f) };

    ghost fits = { λ index f. true };

    fn key(&self) -> V::Digest {
        V::commitment_to_inner(self.finalization.payload())
    }

    fn try_clone(&self) -> Result<Self, AllocError> {
        CertificateItem::of(&self.finalization)
    }
}
