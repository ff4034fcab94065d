//! How the plain values are compared: laws that callers rest on, each the contract of a function.
ghost use Rattle.std.specs.Prelude.{◌≡◌, ◌&&◌, ◌==◌, ℕ};
ghost use Rattle.std.specs.Int.NonZero.{non_zero_u16_get};
ghost use Rattle.std.specs.Ordering.{nat_cmp, ordering_then};
ghost use Rattle.mar_types.specs.Equal.{TellsApart};
ghost use Rattle.mar_types.specs.Round.{Round as PlainRound, round_eq};

use crate::coding::CodingConfig;
use crate::epochers::{EpochInfo, EpochPhase, FixedEpocher};
use crate::epochs::Epoch;
use crate::heights::Height;
use crate::offsets::Delta;
use crate::rounds::Round;
use crate::terms::TermLength;
use crate::views::View;

/// Epochs, heights, views and distances are ordered as numbers are, rounds by epoch and then by view, and two of them are equal
/// exactly where their numbers are.
pub fn ordered_by_number()
    ensures epochs { (a b : ℕ) → ⟦<Epoch as Ord>⟧.cmp a b ≡ nat_cmp a b }
    ensures heights { (a b : ℕ) → ⟦<Height as Ord>⟧.cmp a b ≡ nat_cmp a b }
    ensures views { (a b : ℕ) → ⟦<View as Ord>⟧.cmp a b ≡ nat_cmp a b }
    ensures distances { (a b : ℕ) → ⟦<Delta<Height> as Ord>⟧.cmp a b ≡ nat_cmp a b }
    ensures rounds { (a b : PlainRound) → ⟦<Round as Ord>⟧.cmp a b
        ≡ ordering_then (nat_cmp a.epoch b.epoch) (nat_cmp a.view b.view) }
    ensures same_rounds { (a b : PlainRound) → ⟦<Round as PartialEq>⟧.eq a b ≡ round_eq a b }
    ensures same_epochs { TellsApart ⟦<Epoch as PartialEq>⟧.eq }
    ensures same_heights { TellsApart ⟦<Height as PartialEq>⟧.eq }
    ensures same_views { TellsApart ⟦<View as PartialEq>⟧.eq }
    ensures same_distances { TellsApart ⟦<Delta<Height> as PartialEq>⟧.eq }
{}

/// Configs of coded blocks are ordered by the shards that give the block back and then by the extra ones,
/// and two are equal exactly where both numbers are.
pub fn configs_compared()
    ensures ordered { (a b : CodingConfig) → ⟦<CodingConfig as Ord>⟧.cmp a b
        ≡ ordering_then (nat_cmp (non_zero_u16_get a.minimum_shards) (non_zero_u16_get b.minimum_shards))
        (nat_cmp (non_zero_u16_get a.extra_shards) (non_zero_u16_get b.extra_shards)) }
    ensures same { (a b : CodingConfig) → ⟦<CodingConfig as PartialEq>⟧.eq a b
        ≡ (non_zero_u16_get a.minimum_shards == non_zero_u16_get b.minimum_shards
        && non_zero_u16_get a.extra_shards == non_zero_u16_get b.extra_shards) }
{}

/// Terms, phases, what is told of an epoch and epochs of one length: two are equal exactly where all that they hold is.
pub fn equal_by_parts()
    ensures terms { TellsApart ⟦<TermLength as PartialEq>⟧.eq }
    ensures phases { TellsApart ⟦<EpochPhase as PartialEq>⟧.eq }
    ensures places { TellsApart ⟦<EpochInfo as PartialEq>⟧.eq }
    ensures epochers { (a b : FixedEpocher) → ⟦<FixedEpocher as PartialEq>⟧.eq a b ≡ (a.length == b.length) }
{}
