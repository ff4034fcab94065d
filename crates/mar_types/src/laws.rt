//! How the plain values are compared: laws that callers rest on, each the contract of a function.
ghost use Rattle.std.specs.Prelude.{◌≡◌, ℕ};
ghost use Rattle.std.specs.Ordering.{nat_cmp};
ghost use Rattle.mar_types.specs.Equal.{TellsApart};

use crate::error::{Error, Kind, Reason};
use crate::integers::U64;
use crate::participant::Participant;
use crate::varint::UInt;

/// Numbers and members are ordered as their numbers are, and two of them are equal exactly where these are.
pub fn numbers_compared()
    ensures numbers { (a b : ℕ) → ⟦<U64 as Ord>⟧.cmp a b ≡ nat_cmp a b }
    ensures short_numbers { (a b : UInt) → ⟦<UInt as Ord>⟧.cmp a b ≡ nat_cmp a.0 b.0 }
    ensures members { (a b : ℕ) → ⟦<Participant as Ord>⟧.cmp a b ≡ nat_cmp a b }
    ensures same_numbers { TellsApart ⟦<U64 as PartialEq>⟧.eq }
    ensures same_short_numbers { TellsApart ⟦<UInt as PartialEq>⟧.eq }
    ensures same_members { TellsApart ⟦<Participant as PartialEq>⟧.eq }
{}

/// Two refusals are equal exactly where all that they say is.
pub fn refusals_compared()
    ensures errors { TellsApart ⟦<Error as PartialEq>⟧.eq }
    ensures kinds { TellsApart ⟦<Kind as PartialEq>⟧.eq }
    ensures reasons { TellsApart ⟦<Reason as PartialEq>⟧.eq }
{}
