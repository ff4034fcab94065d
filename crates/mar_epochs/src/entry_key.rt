//! What the entries over blocks of a kind are found by.
ghost use Rattle.std.specs.Prelude.{◌≡◌, None, Some, bytes_eq};
ghost use Rattle.std.specs.Ordering.{eq_by_cmp};
ghost use Rattle.mar_epochs.specs.EntryKeys.{key_of, same_key};
ghost use Rattle.mar_epochs.specs.declared.entry_key.EntryKey.{EntryKey as KeyOf};

use crate::keys::Keys;
use mar_model::Sought;
use mar_types::{Height, Named, Round};

/// What an entry is found by: its place in its archive, or what it shares with others.
#[derive(Clone, Copy, PartialEq, Eq, PartialOrd, Ord)]
pub enum EntryKey<D, C> {
    /// A block that was verified in a round.
    VerifiedAt(Round),
    /// The block of a digest that was verified in a round.
    VerifiedBlock(Round, D),
    NotarizedAt(Round),
    /// The certified block of a height and a digest.
    CertifiedBlock(Height, D),
    NotarizationAt(Round),
    FinalizationAt(Round),
    /// A finalization of the block of a digest.
    FinalizationFor(D),
    BlockOf(D),
    CommittedTo(C),
}

/// The key of what is looked for.
pub fn key_of<D: Copy, C: Copy>(sought: Sought<D, C>) -> EntryKey<D, C>
    ensures { result ≡ key_of sought }
{
    match sought {
        Sought::VerifiedAt(round) => EntryKey::VerifiedAt(round),
        Sought::VerifiedBlock(round, digest) => EntryKey::VerifiedBlock(round, digest),
        Sought::NotarizationAt(round) => EntryKey::NotarizationAt(round),
        Sought::FinalizationFor(digest) => EntryKey::FinalizationFor(digest),
        Sought::BlockOf(digest) => EntryKey::BlockOf(digest),
        Sought::CommittedTo(commitment) => EntryKey::CommittedTo(commitment),
    }
}

/// The keys of a block by its place and its names; several of a round may be held where that is a key too.
pub fn block_keys<D: Copy, C: Copy>(
    place: EntryKey<D, C>,
    round: Option<EntryKey<D, C>>,
    digest: D,
    commitment: C,
) -> Keys<EntryKey<D, C>>
    ensures { result ≡ record { place = place; round = round; digest = Some (KeyOf.BlockOf digest); commitment = Some (KeyOf.CommittedTo commitment) } }
{
    Keys {
        place,
        round,
        digest: Some(EntryKey::BlockOf(digest)),
        commitment: Some(EntryKey::CommittedTo(commitment)),
    }
}

/// The keys of a certificate by its place, and of what it finalizes.
pub fn certificate_keys<D: Copy, C: Copy>(
    place: EntryKey<D, C>,
    digest: Option<EntryKey<D, C>>,
) -> Keys<EntryKey<D, C>>
    ensures { result ≡ record { place = place; round = None; digest = digest; commitment = None } }
{
    Keys {
        place,
        round: None,
        digest,
        commitment: None,
    }
}

/// Names are equal in their order exactly where their bytes are.
fn names_compared<D: Named + Ord>()
    ensures { (d e : D) → eq_by_cmp D.cmp d e ≡ bytes_eq (D.bytes d) (D.bytes e) }
{}

/// Keys are equal in their order exactly where they are one.
pub fn keys_compared<D: Named + Ord, C: Named + Ord>()
    ensures { (j k : KeyOf D C) → eq_by_cmp ⟦<EntryKey<D, C> as Ord>⟧.cmp j k ≡ same_key D.bytes C.bytes j k }
{
    names_compared::<D>();
    names_compared::<C>();
}
