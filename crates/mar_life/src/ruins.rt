//! What is left where no life runs.
use crate::{Blocks, Certificates, LifeCache};
use mar_block::Variant;
use mar_cert::CommitsTo;
use mar_model::{ShelfRuin, ShownRuins, StoreName, StoresRuin, synced_cutoff, synced_height};
use mar_store::{ArchiveRuin, Meta, MetaRuin};
use std::alloc::AllocError;
use std::marker::Model;

/// What is left of the four stores.
#[derive(Drop)]
pub struct Ruins<
    V: Variant,
    F: CommitsTo<V::Commitment>,
    FB: Blocks<V>,
    FC: Certificates<V, F>,
    M: Meta,
    H: LifeCache<V, F>,
> {
    /// What is left of the finalized blocks.
    pub blocks: FB::Wreck,
    /// What is left of the finalizations.
    pub certs: FC::Wreck,
    /// What is left of the metadata.
    pub meta: M::Wreck,
    /// What is left of the cache.
    pub cache: H::Ruin,
}

impl<
    V: Variant,
    F: CommitsTo<V::Commitment>,
    FB: Blocks<V>,
    FC: Certificates<V, F>,
    M: Meta,
    H: LifeCache<V, F>,
> Model for Ruins<V, F, FB, FC, M, H> {
    ghost use Rattle.std.specs.Prelude.{map};
    ghost use Rattle.mar_model.specs.Metadata.{pair_at};
    ghost use Rattle.mar_model.specs.Held.{Remains, ended_of};

    ghost Value = { Remains };

    ghost view = { λ r. record {
      ended = ended_of (FB.Wreck.left r.blocks) (FC.Wreck.left r.certs) (H.Ruin.left r.cache) (H.Ruin.lowests r.cache)
          (map pair_at (M.Wreck.left r.meta));
      watches = record { blocks = FB.Wreck.watch r.blocks; certs = FC.Wreck.watch r.certs; meta = M.Wreck.watch r.meta; cache = H.Ruin.watch r.cache };
    } };
}

impl<
    V: Variant,
    F: CommitsTo<V::Commitment>,
    FB: Blocks<V>,
    FC: Certificates<V, F>,
    M: Meta,
    H: LifeCache<V, F>,
> StoresRuin for Ruins<V, F, FB, FC, M, H> {
    ghost left = { λ r. r };

    fn arm(&mut self, store: StoreName, calls: u64) -> Result<(), AllocError> {
        match store {
            StoreName::Blocks => self.blocks.arm(calls),
            StoreName::Certs => self.certs.arm(calls),
            StoreName::Meta => self.meta.arm(calls),
            StoreName::Cache => self.cache.arm(calls),
        }
    }

    fn shown(&self) -> ShownRuins<'_> {
        ShownRuins {
            processed: synced_height(&self.meta),
            cutoff: synced_cutoff(&self.meta),
            blocks_sure: self.blocks.sure_ranges(),
            blocks_may: self.blocks.may_ranges(),
            certs_sure: self.certs.sure_ranges(),
            certs_may: self.certs.may_ranges(),
        }
    }
}
