//! What the table shows of a store of metadata, whose steps stand elsewhere.
ghost use Rattle.std.specs.Prelude.{◌≡◌, []};

use crate::metadata::{MetaOnDisk, Numbers, two_batches};
use crate::script::Step;
use crate::store::Store;
use crate::table::Shown;
use crate::text::number_text;
use mar_store::{Lost, Meta, MetaRuin};
use std::alloc::{AllocError, Global};

fn played<S: Numbers>(alloc: Global, store: S) -> Result<(String, S::Wreck), AllocError>
    requires { S.changed store ≡ [] }
{
    let wreck = match two_batches(store) {
        Ok(store) => store.end(),
        Err(Lost::Fault(wreck)) => wreck,
        Err(Lost::Memory(_)) => return Err(AllocError),
    };
    Ok((String::new(alloc), wreck))
}

// The values of both keys.
fn values_text(
    alloc: Global,
    first: Option<u64>,
    second: Option<u64>,
) -> Result<String, AllocError> {
    let first = number_text(alloc, first)?;
    let second = number_text(alloc, second)?;
    format!(in alloc; "{first} {second}")
}

// Those that were synced last, and where the file was seen to be damaged.
fn ruin_text(
    alloc: Global,
    first: Option<u64>,
    second: Option<u64>,
    damage: Option<usize>,
) -> Result<String, AllocError> {
    let values = values_text(alloc, first, second)?;
    let damage = number_text(alloc, damage)?;
    format!(in alloc; "left {values}, damage {damage}")
}

impl Shown for MetaOnDisk {
    fn played(
        self,
        alloc: Global,
        _steps: &[Step],
    ) -> Result<(String, <MetaOnDisk as Store>::Wreck), AllocError> {
        played(alloc, self)
    }

    fn found_text(&mut self, alloc: Global) -> Result<String, AllocError> {
        values_text(alloc, self.get(1), self.get(2))
    }

    fn left_text(
        alloc: Global,
        wreck: &<MetaOnDisk as Store>::Wreck,
    ) -> Result<String, AllocError> {
        ruin_text(alloc, wreck.synced(1), wreck.synced(2), wreck.damage())
    }
}
