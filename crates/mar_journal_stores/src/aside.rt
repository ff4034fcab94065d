//! What a crash may bring back to an archive.
ghost use Rattle.std.specs.Prelude.{◌≡◌, ◌++◌, ◌∷◌, ◌⊎◌, [], None, if◌then◌else◌, IfOk, OnErr, OnOk};
ghost use Rattle.mar_store.specs.Ranges.{with_height};
ghost use Rattle.mar_journal.specs.declared.ArchiveRecord.{ArchiveRecord};
ghost use Rattle.mar_journal_stores.specs.ArchiveStore.{LetsGo, aside_after, ranges_or, ranges_with};

use crate::log::Log;
use mar_journal::ArchiveRecord;
use mar_store::{Entry, RangeSet};
use std::alloc::{AllocError, Global};

/// The entries that were pruned and that no ticket or sync has let go since, each with the number of the first ticket that
/// lets it go; and where there are any, the ranges of these and of what is held: all that a crash can leave.
#[derive(Drop)]
pub struct Aside<T> {
    pub alloc: Global,
    pub gone: Vec<Entry<T>>,
    pub may: Option<RangeSet>,
}

impl<T: Drop> Aside<T> {
    /// Nothing was pruned.
    pub fn new(alloc: Global) -> Self
        ensures gone { result.gone.items ≡ [] }
        ensures may { result.may ≡ None }
    {
        Aside {
            alloc,
            gone: Vec::new(alloc),
            may: None,
        }
    }

    /// Lets all of it go.
    pub fn let_all_go(&mut self)
        ensures gone { self.new.gone.items ≡ [] }
        ensures may { self.new.may ≡ None }
    {
        self.gone.clear();
        self.may = None;
    }

    /// Lets go what the ticket of a number does where it made more sure than was before. It is given the ranges of what may
    /// be left then.
    pub fn let_go(&mut self, number: u64, before: usize, sure: usize, may: Option<RangeSet>)
        ensures gone { LetsGo number before sure self.old.gone.items self.new.gone.items }
        ensures whole { (self.new ≡ self.old)
            ⊎ ((self.new.gone.items ≡ aside_after number self.old.gone.items) × (self.new.may ≡ may)) }
    {
        if before != sure {
            drop_upto(&mut self.gone, number);
            self.may = may;
        }
    }
}

// Drops the entries whose number isn't above this one.
fn drop_upto<T: Drop>(gone: &mut Vec<Entry<T>>, number: u64)
    ensures { gone.new.items ≡ aside_after number gone.old.items }
{
    gone.retain(|entry| entry.number > number);
}

// Inserts an index where it is to be.
fn insert_if(ranges: &mut RangeSet, stays: bool, index: u64) -> Result<(), AllocError>
    ensures { OnOk result (ranges.new ≡ (if stays then with_height index ranges.old else ranges.old)) }
{
    if stays {
        ranges.insert(index)?;
    }
    Ok(())
}

/// The ranges of what is held with the indexes of what stays aside where the ticket of a number has finished; none where
/// nothing stands aside.
pub fn ranges_after<T>(
    gone: &[Entry<T>],
    held: &RangeSet,
    number: u64,
) -> Result<Option<RangeSet>, AllocError>
    ensures { IfOk result (λ may. ranges_or held.now may ≡ ranges_with held.now number gone.now) }
{
    if gone.is_empty() {
        return Ok(None);
    }
    let mut may = held.try_clone()?;
    let mut place = 0;
    'places: while place < gone.len() {
        let entry = &gone[place];
        insert_if(&mut may, entry.number > number, entry.index)?;
        place += 1;
    }
    Ok(Some(may))
}

/// The ranges of what a crash can leave: those that are kept, or else those of what is held.
pub fn ranges_left<'a>(may: &'a Option<RangeSet>, held: &'a RangeSet) -> &'a RangeSet
    ensures { result.now ≡ ranges_or held.now may.now }
{
    match may {
        Some(may) => may,
        None => held,
    }
}

/// Notes a prune, and sets aside what it takes out.
pub fn set_aside<T: Drop, D: Drop>(
    log: &mut Log<ArchiveRecord<T>, D>,
    gone: &mut Vec<Entry<T>>,
    more: Vec<Entry<T>>,
    min: u64,
    mark: u64,
) -> Result<(), AllocError>
    ensures waiting { OnOk result (log.new.waiting.items ≡ log.old.waiting.items ++ ArchiveRecord.Prune min ∷ []) }
    ensures marks { OnOk result (log.new.marks.items ≡ log.old.marks.items ++ mark ∷ []) }
    ensures disk { log.new.disk ≡ log.old.disk }
    ensures end { log.new.end ≡ log.old.end }
    ensures gone { OnOk result (gone.new.items ≡ gone.old.items ++ more.items) }
    ensures still { OnErr result (gone.new.items ≡ gone.old.items) }
{
    let mut more = more;
    log.add(ArchiveRecord::Prune(min), mark)?;
    gone.append(&mut more)
}
