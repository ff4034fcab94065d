//! What a node shows of itself.
ghost use Rattle.std.specs.Prelude.{◌≡◌, map, option_map};
ghost use Rattle.mar_key.specs.Views.{cutoff_of, processed_of};
ghost use Rattle.mar_model.specs.Pool.{writing_of};
ghost use Rattle.mar_store.specs.Changes.{heights};
ghost use Rattle.mar_store.specs.Ranges.{ranges};

use crate::node::Node;
use mar_block::Variant;
use mar_model::Holds;
use mar_parts::Shown;
use mar_types::Epocher;

impl<V: Variant, S: Holds<V>, P: Drop, E: Epocher> Node<V, S, P, E> {
    /// What the node shows of itself.
    pub fn shown(&self) -> Shown<'_>
        ensures processed { option_map processed_of result.processed ≡ self.now.held.processed }
        ensures acks { result.acks.now.entries ≡ self.now.life.out }
        ensures cutoff { cutoff_of result.cutoff ≡ self.now.held.cutoff }
        ensures blocks_held { result.blocks_held.now ≡ ranges (heights self.now.held.blocks.held) }
        ensures blocks_sure { result.blocks_sure.now ≡ ranges (heights self.now.held.blocks.sure) }
        ensures certs_held { result.certs_held.now ≡ ranges (heights self.now.held.certs.held) }
        ensures certs_sure { result.certs_sure.now ≡ ranges (heights self.now.held.certs.sure) }
        ensures writes { writing_of result.writes.now ≡ self.now.held.writes }
        ensures tickets { map (λ o. o.number) result.tickets.now ≡ map (λ s. s.ticket) self.now.held.cache.syncs }
    {
        let stores = self.stores.as_ref();
        let floor = stores.floor();
        Shown {
            processed: floor.processed(),
            acks: &self.life.window.acks,
            cutoff: floor.cutoff(),
            blocks_held: stores.blocks_held(),
            blocks_sure: stores.blocks_sure(),
            certs_held: stores.certificates_held(),
            certs_sure: stores.certificates_sure(),
            writes: stores.writes(),
            tickets: stores.cache_syncs().as_slice(),
        }
    }
}
