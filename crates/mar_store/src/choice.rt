//! Which entries stay where some are taken out.
ghost use Rattle.std.specs.Prelude.{◌≡◌};
ghost use Rattle.mar_store.specs.Choices.{keeps_at};

use crate::luck::is_lucky;

/// Which entries stay.
#[derive(Clone, Copy)]
pub enum Choice {
    /// Those at or above an index.
    From(u64),
    /// So many at the front, and of the others, counted from 0, those that these bits of luck keep.
    Lucky(usize, u64),
}

impl Choice {
    /// Whether the entry at a place stays, which has this index.
    pub const fn keeps(self, place: usize, index: u64) -> bool
        ensures { result ≡ keeps_at self place index }
    {
        match self {
            Choice::From(min) => index >= min,
            Choice::Lucky(sure, half) => place < sure || is_lucky(half, place - sure),
        }
    }
}
