//! The processed height, and what is restored of it at an opening.
ghost use Rattle.std.specs.Prelude.{◌≡◌, ◌^◌, ◌<◌, option_map};
ghost use Rattle.mar_key.specs.Processed.{anchor_of, height_in};
ghost use Rattle.mar_key.specs.Views.{cutoff_of, processed_of};

use crate::cutoffs::Cutoff;
use mar_types::Height;
use std::marker::Model;

/// The processed height, and the stored block that backs it.
#[derive(Clone, Copy, Debug, PartialEq, Eq)]
pub enum Processed {
    /// The block at this height is processed and stored.
    Block(Height),
    /// This height is processed and its block isn't stored: a floor was set at the next height, whose block backs it.
    Absent(Height),
}

impl Processed {
    /// The processed height.
    pub const fn height(self) -> Height
        ensures { result ≡ height_in (processed_of self) }
    {
        match self {
            Processed::Block(height) | Processed::Absent(height) => height,
        }
    }

    /// The height of the stored block that backs it.
    pub const fn anchor(self) -> Height
        requires { anchor_of (processed_of self) < 2 ^ 64 }
        ensures { result ≡ anchor_of (processed_of self) }
    {
        match self {
            Processed::Block(height) => height,
            Processed::Absent(height) => height.next(),
        }
    }
}

/// What is durable when the actor opens: the processed height and the round cutoff, which need not be of one
/// finalization. A contract sees a record of the two.
#[derive(Clone, Copy, Debug, PartialEq, Eq)]
pub struct Floor {
    processed: Option<Processed>,
    cutoff: Cutoff,
}

impl Model for Floor {
    ghost use Rattle.std.specs.Prelude.{option_map};
    ghost use Rattle.mar_key.specs.Processed.{Floor};
    ghost use Rattle.mar_key.specs.Views.{cutoff_from, cutoff_of, processed_from, processed_of};

    ghost Value = { Floor };

    ghost view = { λ f. record { processed = option_map processed_of f.processed; cutoff = cutoff_of f.cutoff } };

    ghost inverse = { λ f. record { processed = option_map processed_from f.processed; cutoff = cutoff_from f.cutoff } };
}

impl Floor {
    /// A floor of those two.
    pub const fn new(processed: Option<Processed>, cutoff: Cutoff) -> Self
        ensures { result ≡ record { processed = option_map processed_of processed; cutoff = cutoff_of cutoff } }
    {
        Floor { processed, cutoff }
    }

    /// The latest position that is durably processed, if any.
    pub const fn processed(&self) -> Option<Processed>
        ensures { option_map processed_of result ≡ self.now.processed }
    {
        self.processed
    }

    /// The durable round cutoff. Each finalization at a covered round names a block at or below the processed height,
    /// or the stored block just above it.
    pub const fn cutoff(&self) -> Cutoff
        ensures { cutoff_of result ≡ self.now.cutoff }
    {
        self.cutoff
    }
}
