//! Stores over archives from which nothing is pruned.
use crate::archive::{Archived, Immutable};

/// A store over an archive; a prune does nothing.
pub type Archive<A> = Archived<A, Immutable>;
