//! Stores of blocks over archives.
ghost use Rattle.std.specs.Prelude.{◌≡◌, option_map};
ghost use Rattle.std.specs.Result.{result_map_both};
ghost use Rattle.mar_life.specs.Fitting.{own_blocks};

use crate::archive::{Archived, Pruning, wrapped};
use mar_block::Variant;
use mar_life::{BlockItem, Blocks};
use mar_store::{Archive, Identifier, ItemKey, Lost, Miss};
use mar_types::Height;

impl<V: Variant, A: Archive<BlockItem<V>>, P: Pruning> Blocks<V> for Archived<A, P>
where
    V::Digest: ItemKey,
{
    ghost own = { λ s. own_blocks V.inner (A.stored s).held (A.fitting s) };

    fn get(&mut self, height: Height) -> Result<Option<V::Block>, Miss> {
        block_found(self.archive.get(Identifier::Index(height.get())))
    }

    fn find(&mut self, digest: &V::Digest) -> Result<Option<V::Block>, Miss> {
        block_found(self.archive.get(Identifier::Key(*digest)))
    }

    fn put(self, _digest: &V::Digest, block: &V::Block) -> Result<Self, Lost<A::Wreck>> {
        match BlockItem::of(block) {
            Ok(item) => wrapped(self.archive.put(V::height(block).get(), item)),
            Err(_) => Err(Lost::Memory(self.archive.wreck())),
        }
    }
}

// The block of an item that was found.
fn block_found<V: Variant>(
    found: Result<Option<BlockItem<V>>, Miss>,
) -> Result<Option<V::Block>, Miss>
    ensures { result_map_both (option_map V.plain) (λ m. m) result ≡ found }
{
    match found {
        Ok(Some(item)) => Ok(Some(item.into_block())),
        Ok(None) => Ok(None),
        Err(miss) => Err(miss),
    }
}
