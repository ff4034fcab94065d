//! What the table shows of an archive.
ghost use Rattle.std.specs.Prelude.{◌≡◌, []};

use crate::archive::{Marks, OnDisk};
use crate::play::play;
use crate::script::{Lists, Step};
use crate::store::Store;
use crate::table::Shown;
use crate::text::{both_text, number_text};
use mar_store::{ArchiveRuin, RangeSet};
use std::alloc::{AllocError, Global};

// The values that it holds, by their bytes.
fn values_text<S: Marks>(alloc: Global, archive: &mut S) -> Result<String, AllocError> {
    let mut text = String::new(alloc);
    for byte in 0..=u8::MAX {
        let mark = match archive.holds(byte) {
            Some(true) => "",
            Some(false) => continue,
            None => "?",
        };
        let part = format!(in alloc; " {byte}{mark}")?;
        text.push_str(part.as_str())?;
    }
    Ok(text)
}

fn archive_text<S: Marks>(alloc: Global, archive: &mut S) -> Result<String, AllocError> {
    let values = values_text(alloc, archive)?;
    let ranges = archive.ranges_text(alloc)?;
    format!(in alloc; "{ranges}, values{values}")
}

fn ruin_text(
    alloc: Global,
    sure: &RangeSet,
    may: &RangeSet,
    damage: Option<usize>,
) -> Result<String, AllocError> {
    let ranges = both_text(alloc, sure, " to ", may)?;
    let damage = number_text(alloc, damage)?;
    format!(in alloc; "left {ranges}, damage {damage}")
}

fn played<S: Marks>(
    alloc: Global,
    archive: S,
    steps: &[Step],
) -> Result<(String, S::Wreck), AllocError> {
    let mut lists = Lists::new(alloc);
    let wreck = play(steps, archive, &mut lists)?;
    let told = format!(in alloc; "behind {} steps; ", lists.steps)?;
    Ok((told, wreck))
}

impl Shown for OnDisk {
    fn played(
        self,
        alloc: Global,
        steps: &[Step],
    ) -> Result<(String, <OnDisk as Store>::Wreck), AllocError> {
        played(alloc, self, steps)
    }

    fn found_text(&mut self, alloc: Global) -> Result<String, AllocError> {
        archive_text(alloc, self)
    }

    fn left_text(alloc: Global, wreck: &<OnDisk as Store>::Wreck) -> Result<String, AllocError> {
        ruin_text(
            alloc,
            wreck.sure_ranges(),
            wreck.may_ranges(),
            wreck.damage(),
        )
    }
}
