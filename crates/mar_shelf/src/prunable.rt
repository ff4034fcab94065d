//! Stores over archives that are pruned.
use crate::archive::{Archived, Prunable};

/// A store over an archive; a prune removes from it what stands below the bound.
pub type Archive<A> = Archived<A, Prunable>;
