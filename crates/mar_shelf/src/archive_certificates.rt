//! Stores of finalizations over archives.
ghost use Rattle.std.specs.Prelude.{◌≡◌, option_map};
ghost use Rattle.std.specs.Result.{result_map_both};

use crate::archive::{Archived, Pruning, wrapped};
use mar_block::Variant;
use mar_cert::{AsFinalization, CommitsTo};
use mar_life::{CertificateItem, Certificates};
use mar_store::{Archive, Identifier, ItemKey, Lost, Miss};
use mar_types::Height;

impl<
    V: Variant,
    F: CommitsTo<V::Commitment>,
    A: Archive<CertificateItem<V, F>>,
    P: Pruning,
> Certificates<V, F> for Archived<A, P>
where
    V::Digest: ItemKey,
{
    fn get(&mut self, height: Height) -> Result<Option<F>, Miss> {
        finalization_found::<V, F>(self.archive.get(Identifier::Index(height.get())))
    }

    fn has(&mut self, height: Height) -> Result<bool, Miss> {
        self.archive.has(Identifier::Index(height.get()))
    }

    fn put(
        self,
        height: Height,
        _digest: &V::Digest,
        finalization: &F,
    ) -> Result<Self, Lost<A::Wreck>> {
        match CertificateItem::of(finalization) {
            Ok(item) => wrapped(self.archive.put(height.get(), item)),
            Err(_) => Err(Lost::Memory(self.archive.wreck())),
        }
    }
}

// The finalization of an item that was found.
fn finalization_found<V, F: AsFinalization>(
    found: Result<Option<CertificateItem<V, F>>, Miss>,
) -> Result<Option<F>, Miss>
    ensures { result_map_both (option_map F.plain) (λ m. m) result ≡ found }
{
    match found {
        Ok(Some(item)) => Ok(Some(item.into_finalization())),
        Ok(None) => Ok(None),
        Err(miss) => Err(miss),
    }
}
