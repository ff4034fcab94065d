//! How the parts' values are compared: laws that callers rest on, each the contract of a function.
ghost use Rattle.std.specs.Cmp.Lexicographic.{pointwise};
ghost use Rattle.std.specs.Prelude.{nat_eq, ◌&&◌, ◌≡◌};
ghost use Rattle.mar_types.specs.Equal.{TellsApart};
ghost use Rattle.mar_parts.specs.WaitKeys.{key_cmp};
ghost use Rattle.mar_parts.specs.declared.subscriptions.Key.{Key as KeyOf};

use crate::acks::{Mark, Oldest, PendingAck};
use crate::subscriptions::{Key, Served};

/// Two marks, acknowledgements or answers of the oldest one are equal exactly where all that they hold is.
pub fn acks_compared()
    ensures marks { TellsApart ⟦<Mark as PartialEq>⟧.eq }
    ensures acks { TellsApart ⟦<PendingAck as PartialEq>⟧.eq }
    ensures oldest { TellsApart ⟦<Oldest as PartialEq>⟧.eq }
{}

/// Keys of digests come before those of commitments, each in its own order. Where names are equal exactly where they are
/// the same, so are keys. What a block serves is equal where both lists of tickets are.
pub fn waits_compared<C: Ord, D: Ord>()
    ensures ordered { (a b : KeyOf C D) → ⟦<Key<C, D> as Ord>⟧.cmp a b ≡ key_cmp C.cmp D.cmp a b }
    ensures same { TellsApart C.eq → TellsApart D.eq → TellsApart ⟦<Key<C, D> as PartialEq>⟧.eq }
    ensures served { (a b : Served) → ⟦<Served as PartialEq>⟧.eq a b ≡ (pointwise nat_eq a.by_digest.items b.by_digest.items
        && pointwise nat_eq a.by_commitment.items b.by_commitment.items) }
{}
