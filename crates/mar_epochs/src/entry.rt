//! What keeps the entries of a cache, over blocks of a kind and certificates.
ghost use Rattle.std.specs.Prelude.{◌≡◌};
ghost use Rattle.mar_types.specs.Round.{round_lt};
ghost use Rattle.mar_model.specs.Entries.{cached_of, is_sought};
ghost use Rattle.mar_model.specs.SmallEntries.{IsSmallEntry};
ghost use Rattle.mar_epochs.specs.EntryKeys.{has_key};
ghost use Rattle.mar_epochs.specs.SmallStates.{IsSmallEntry-prop};

use crate::as_entry::{AsEntry, KeyedEntry};
use crate::entry_key::{EntryKey, block_keys, certificate_keys, key_of, keys_compared};
use crate::keys::Keys;
use mar_block::Variant;
use mar_cert::{AsFinalization, CommitsTo};
use mar_model::{Entry, Section, Sought};
use mar_types::{Epoch, Height, Round};
use std::alloc::AllocError;
use std::marker::PhantomData;

/// An entry over blocks of a kind, small enough for a store.
#[derive(Drop)]
pub struct CacheEntry<V: Variant, N: CommitsTo<V::Commitment>, F: CommitsTo<V::Commitment>> {
    entry: Entry<V::Block, N, F>,
    of: PhantomData<V>,
    pub ghost small: { IsSmallEntry (cached_of V.plain N.plain F.plain entry) } by { IsSmallEntry-prop (cached_of V.plain N.plain F.plain entry) },
}

/// What keeps an entry over blocks of a kind.
pub trait KeptEntry<V: Variant, F: CommitsTo<V::Commitment>>: AsEntry {
    type Notarization: CommitsTo<V::Commitment>;

    /// That entry.
    fn of(entry: Entry<V::Block, Self::Notarization, F>) -> Self
    where
        Self: Sized,
        requires small { IsSmallEntry (cached_of V.plain Self.Notarization.plain F.plain entry) }
        ensures { Self.plain result ≡ cached_of V.plain Self.Notarization.plain F.plain entry };

    /// What it is.
    fn into_entry(self) -> Entry<V::Block, Self::Notarization, F>
    where
        Self: Sized,
        ensures { cached_of V.plain Self.Notarization.plain F.plain result ≡ Self.plain self };

    /// What is looked for.
    fn sought(sought: Sought<V::Digest, V::Commitment>) -> Self::Wanted
        ensures { Self.wants result ≡ is_sought V.Digest.bytes V.Commitment.bytes V.inner sought };
}

// Whether the first round is below the second.
fn is_earlier(first: Round, second: Round) -> bool
    ensures { result ≡ round_lt first second }
{
    let (epoch, other) = (first.epoch().get(), second.epoch().get());
    epoch < other || (epoch == other && first.view().get() < second.view().get())
}

impl<V: Variant, N: CommitsTo<V::Commitment>, F: CommitsTo<V::Commitment>> AsEntry
    for CacheEntry<V, N, F> {
    type Wanted = Sought<V::Digest, V::Commitment>;

    ghost plain = { λ e. cached_of V.plain N.plain F.plain e.entry };

    ghost wants = { λ w x. is_sought V.Digest.bytes V.Commitment.bytes V.inner w x };

    ghost small = { λ e. e.small };

    fn epoch(&self) -> Epoch {
        match &self.entry {
            Entry::Finalization(finalization) => finalization.round().epoch(),
            Entry::Verified(round, _) | Entry::Notarized(round, _) => round.epoch(),
            Entry::Certified(epoch, _) => *epoch,
            Entry::Notarization(notarization) => notarization.round().epoch(),
        }
    }

    fn section(&self) -> Section {
        match &self.entry {
            Entry::Finalization(_) => Section::Finalizations,
            Entry::Verified(_, _) => Section::Verified,
            Entry::Notarized(_, _) => Section::Notarized,
            Entry::Certified(_, _) => Section::Certified,
            Entry::Notarization(_) => Section::Notarizations,
        }
    }

    fn index(&self) -> u64 {
        match &self.entry {
            Entry::Finalization(finalization) => finalization.round().view().get(),
            Entry::Verified(round, _) | Entry::Notarized(round, _) => round.view().get(),
            Entry::Certified(_, block) => V::height(block).get(),
            Entry::Notarization(notarization) => notarization.round().view().get(),
        }
    }

    fn is_below(&self, round: Round) -> bool {
        match &self.entry {
            Entry::Finalization(finalization) => is_earlier(finalization.round(), round),
            Entry::Verified(own, _) | Entry::Notarized(own, _) => is_earlier(*own, round),
            Entry::Certified(epoch, _) => epoch.get() < round.epoch().get(),
            Entry::Notarization(notarization) => is_earlier(notarization.round(), round),
        }
    }

    fn is_certified_below(&self, height: Height) -> bool {
        match &self.entry {
            Entry::Certified(_, block) => V::height(block).get() < height.get(),
            _ => false,
        }
    }

    fn try_clone(&self) -> Result<Self, AllocError> {
        let entry = match &self.entry {
            Entry::Finalization(finalization) => Entry::Finalization(finalization.try_clone()?),
            Entry::Verified(round, block) => Entry::Verified(*round, V::try_clone(block)?),
            Entry::Notarized(round, block) => Entry::Notarized(*round, V::try_clone(block)?),
            Entry::Certified(epoch, block) => Entry::Certified(*epoch, V::try_clone(block)?),
            Entry::Notarization(notarization) => Entry::Notarization(notarization.try_clone()?),
        };
        Ok(CacheEntry {
            entry,
            of: PhantomData,
        })
    }
}

impl<V: Variant, N: CommitsTo<V::Commitment>, F: CommitsTo<V::Commitment>> KeyedEntry
    for CacheEntry<V, N, F>
where
    V::Digest: Ord,
    V::Commitment: Ord,
{
    type Key = EntryKey<V::Digest, V::Commitment>;

    ghost has = { λ k x. has_key V.Digest.bytes V.Commitment.bytes V.inner k x };

    fn key_of(wanted: &Sought<V::Digest, V::Commitment>) -> EntryKey<V::Digest, V::Commitment> {
        key_of(*wanted)
    }

    fn keys(&self) -> Keys<EntryKey<V::Digest, V::Commitment>> {
        keys_compared::<V::Digest, V::Commitment>();
        match &self.entry {
            Entry::Finalization(finalization) => {
                let place = EntryKey::FinalizationAt(finalization.round());
                let digest = V::commitment_to_inner(finalization.payload());
                certificate_keys(place, Some(EntryKey::FinalizationFor(digest)))
            }
            Entry::Verified(round, block) => {
                let digest = V::digest(block);
                let place = EntryKey::VerifiedBlock(*round, digest);
                let round = Some(EntryKey::VerifiedAt(*round));
                block_keys(place, round, digest, V::commitment(block))
            }
            Entry::Notarized(round, block) => {
                let place = EntryKey::NotarizedAt(*round);
                block_keys(place, None, V::digest(block), V::commitment(block))
            }
            Entry::Certified(_, block) => {
                let digest = V::digest(block);
                let place = EntryKey::CertifiedBlock(V::height(block), digest);
                block_keys(place, None, digest, V::commitment(block))
            }
            Entry::Notarization(notarization) => {
                certificate_keys(EntryKey::NotarizationAt(notarization.round()), None)
            }
        }
    }
}

impl<V: Variant, N: CommitsTo<V::Commitment>, F: CommitsTo<V::Commitment>> KeptEntry<V, F>
    for CacheEntry<V, N, F> {
    type Notarization = N;

    fn of(entry: Entry<V::Block, N, F>) -> Self
        requires small { IsSmallEntry (cached_of V.plain N.plain F.plain entry) }
        ensures { cached_of V.plain N.plain F.plain result.entry ≡ cached_of V.plain N.plain F.plain entry }
    {
        CacheEntry {
            entry,
            of: PhantomData,
        }
    }

    fn into_entry(self) -> Entry<V::Block, N, F> {
        self.entry
    }

    fn sought(sought: Sought<V::Digest, V::Commitment>) -> Sought<V::Digest, V::Commitment>
        ensures { is_sought V.Digest.bytes V.Commitment.bytes V.inner result ≡ is_sought V.Digest.bytes V.Commitment.bytes V.inner sought }
    {
        sought
    }
}
