//! The map of a metadata store, as its journal keeps it.
ghost use Rattle.std.specs.Prelude.{◌≡◌, ◌<◌, ◌≤◌, None, Some, ℕ, List, length, map, IfErr, IfOk, OnOk};
ghost use Rattle.std.specs.List.{AllByRecursion};
ghost use Rattle.mar_store.specs.MemMeta.{values_of};
ghost use Rattle.mar_store.specs.Values.{SetsValue, with_key};
ghost use Rattle.mar_journal.specs.Disk.{LeavesOnly};
ghost use Rattle.mar_journal.specs.Format.{IsBatch, Stands};
ghost use Rattle.mar_journal.specs.Journal.{HasReason, IsOldOrNew, IsSettled};
ghost use Rattle.mar_journal.specs.MetaRecords.{IsMeta, changed_by, meta_bytes, record_for, values_by};

use mar_journal::{Disk, MetaRecord, Unopened, open};
use std::alloc::{AllocError, Global};
use std::collections::BTreeMap;

// Adds a key to those that were changed, where it isn't among them.
fn note(changed: &mut Vec<u64>, key: u64) -> Result<(), AllocError>
    ensures { OnOk result (changed.new.items ≡ with_key key changed.old.items) }
{
    if !changed.contains(&key) {
        changed.push(key)?;
    }
    Ok(())
}

/// Sets the value of a key, and notes that it changed.
pub fn set(
    values: &mut BTreeMap<u64, u64>,
    changed: &mut Vec<u64>,
    key: u64,
    value: u64,
) -> Result<(), AllocError>
    ensures values { OnOk result (SetsValue (values_of values.old) key (Some value) (values_of values.new)) }
    ensures changed { OnOk result (changed.new.items ≡ with_key key changed.old.items) }
{
    note(changed, key)?;
    values.insert(key, value)?;
    Ok(())
}

/// Removes a key, and notes that it changed.
pub fn unset(
    values: &mut BTreeMap<u64, u64>,
    changed: &mut Vec<u64>,
    key: u64,
) -> Result<(), AllocError>
    ensures values { OnOk result (SetsValue (values_of values.old) key None (values_of values.new)) }
    ensures changed { OnOk result (changed.new.items ≡ with_key key changed.old.items) }
{
    note(changed, key)?;
    let _ = values.remove(&key);
    Ok(())
}

// The records that leave these keys as they are.
fn records_of(
    alloc: Global,
    values: &BTreeMap<u64, u64>,
    keys: &[u64],
) -> Result<Vec<MetaRecord>, AllocError>
    ensures are { IfOk result (λ v. v.items ≡ map (record_for (values_of values.now)) keys.now) }
    ensures valid { IfOk result (λ v. AllByRecursion IsMeta v.items) }
{
    let mut records = Vec::new(alloc);
    for key in keys {
        records.push(record_of(values, *key))?;
    }
    Ok(records)
}

// The record that leaves a key as it is.
fn record_of(values: &BTreeMap<u64, u64>, key: u64) -> MetaRecord
    ensures is { result ≡ record_for (values_of values.now) key }
    ensures valid { IsMeta result }
{
    match values.get(&key) {
        Some(value) => MetaRecord::Set(key, *value),
        None => MetaRecord::Remove(key),
    }
}

// Does what a record says.
fn apply(values: &mut BTreeMap<u64, u64>, change: &MetaRecord) -> Result<(), AllocError>
    ensures { OnOk result ((k : ℕ) → values_of values.new k ≡ changed_by change.now (values_of values.old) k) }
{
    match change {
        MetaRecord::Set(key, value) => {
            values.insert(*key, *value)?;
        }
        MetaRecord::Remove(key) => {
            let _ = values.remove(key);
        }
    }
    Ok(())
}

// The map that some records leave.
fn map_of(alloc: Global, records: &[MetaRecord]) -> Result<BTreeMap<u64, u64>, AllocError>
    ensures { IfOk result (λ m. (k : ℕ) → values_of m k ≡ values_by records.now k) }
{
    let mut values = BTreeMap::new(alloc);
    for record in records {
        apply(&mut values, record)?;
    }
    Ok(values)
}

// A copy of a map.
fn copy_of(values: &BTreeMap<u64, u64>) -> Result<BTreeMap<u64, u64>, AllocError>
    ensures { IfOk result (λ m. values_of m ≡ values_of values.now) }
{
    values.clone()
}

/// A batch of what a sync is to write, and the map that it makes durable.
pub fn batch_of(
    alloc: Global,
    values: &BTreeMap<u64, u64>,
    changed: &[u64],
) -> Result<(Vec<MetaRecord>, BTreeMap<u64, u64>), AllocError>
    requires some { 0 < length changed.now }
    requires few { length changed.now ≤ 2048 }
    ensures are { IfOk result (λ b. b.0.items ≡ map (record_for (values_of values.now)) changed.now) }
    ensures good { IfOk result (λ b. IsBatch meta_bytes IsMeta b.0.items) }
    ensures same { IfOk result (λ b. values_of b.1 ≡ values_of values.now) }
{
    let records = records_of(alloc, values, changed)?;
    let copy = copy_of(values)?;
    Ok((records, copy))
}

/// Opens a journal. It gives the map that its records leave twice, and the place of the closed gate.
pub fn open_maps<D: Disk>(
    alloc: Global,
    disk: &mut D,
) -> Result<(BTreeMap<u64, u64>, BTreeMap<u64, u64>, usize), Unopened>
    ensures done { IfOk result (λ m. (records : List MetaRecord) × IsSettled meta_bytes IsMeta D.seen D.may_leave records m.2 disk.new
        × Stands meta_bytes IsMeta records (D.seen disk.old) × (values_of m.0 ≡ values_by records) × (values_of m.1 ≡ values_by records)) }
    ensures any_moment { LeavesOnly D.moment D.left_since disk.old disk.new (IsOldOrNew (D.seen disk.old) (D.may_leave disk.old)) }
    ensures reason { IfErr result (HasReason meta_bytes IsMeta (D.faults disk.old) (D.faults disk.new) (D.seen disk.old)) }
{
    let opened = open::<MetaRecord, D>(alloc, disk)?;
    match maps_of(alloc, &opened.records) {
        Ok((values, copy)) => Ok((values, copy, opened.end)),
        Err(_) => Err(Unopened::Memory),
    }
}

// The map that some records leave, twice.
fn maps_of(
    alloc: Global,
    records: &[MetaRecord],
) -> Result<(BTreeMap<u64, u64>, BTreeMap<u64, u64>), AllocError>
    ensures { IfOk result (λ m. (values_of m.0 ≡ values_by records.now) × (values_of m.1 ≡ values_by records.now)) }
{
    let values = map_of(alloc, records)?;
    let copy = copy_of(&values)?;
    Ok((values, copy))
}
