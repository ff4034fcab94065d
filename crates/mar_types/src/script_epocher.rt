//! Epochs as a script's settings tell them.
ghost use Rattle.std.specs.Prelude.{◌≡◌};

use crate::epochers::{EpochInfo, Epocher, FixedEpocher};
use crate::epochs::Epoch;
use crate::heights::Height;
use crate::table_epocher::TableEpocher;

/// Epochs of one length, or by a table.
#[derive(Clone, Copy)]
pub enum ScriptEpocher {
    /// All of one length.
    Fixed(FixedEpocher),
    /// Each of a length of its own, as a table tells.
    Table(TableEpocher),
}

impl Epocher for ScriptEpocher {
    ghost use Rattle.mar_types.specs.ScriptEpochs.{script_epochs, script_partition};

    ghost epochs = { script_epochs };

    ghost partition = { script_partition };

    fn containing(&self, height: Height) -> Option<EpochInfo> {
        match self {
            ScriptEpocher::Fixed(epocher) => epocher.containing(height),
            ScriptEpocher::Table(epocher) => epocher.containing(height),
        }
    }

    fn first(&self, epoch: Epoch) -> Option<Height> {
        match self {
            ScriptEpocher::Fixed(epocher) => epocher.first(epoch),
            ScriptEpocher::Table(epocher) => epocher.first(epoch),
        }
    }

    fn last(&self, epoch: Epoch) -> Option<Height> {
        match self {
            ScriptEpocher::Fixed(epocher) => epocher.last(epoch),
            ScriptEpocher::Table(epocher) => epocher.last(epoch),
        }
    }
}
