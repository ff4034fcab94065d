//! The four stores of a life, as far as gaps are filled.
use crate::item::{BlockItem, CertificateItem};
use crate::{Blocks, Certificates, LifeCache, Stores, cached_finalizations, syncs};
use mar_block::Variant;
use mar_cert::CommitsTo;
use mar_model::{Fault, HoldsGaps};
use mar_store::Meta;

impl<
    V: Variant,
    F: CommitsTo<V::Commitment>,
    FB: Blocks<V>,
    FC: Certificates<V, F>,
    M: Meta,
    H: LifeCache<V, F>,
> HoldsGaps<V> for Stores<V, F, FB, FC, M, H> {
    fn cached_finalization(
        &mut self,
        commitment: V::Commitment,
    ) -> Result<Option<F>, Fault<V::Commitment>> {
        cached_finalizations::of_commitment::<V, F, H>(&mut self.cache, commitment)
    }

    fn sync_archives(&mut self) -> Result<(), Fault<V::Commitment>> {
        syncs::sync_both::<BlockItem<V>, FB, CertificateItem<V, F>, FC, V::Commitment>(
            &mut self.blocks,
            &mut self.certs,
            &mut self.writes,
        )
    }
}
