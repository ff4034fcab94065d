//! How a cache is lost, where a store that it stands on is.
ghost use Rattle.std.specs.Prelude.{◌≡◌, ◌+◌, ◌-◌, ◌^◌, false, if◌then◌else◌, min, true, ◌<◌, ℕ, [], Contains, map, not};
ghost use Rattle.mar_store.specs.Lost.{wreck_of};
ghost use Rattle.mar_epochs.specs.EpochArchives.{is_fault};
ghost use Rattle.std.specs.List.{AllByRecursion};
ghost use Rattle.mar_store.specs.Watch.{armed};
ghost use Rattle.mar_cache.specs.Bounds.{Bounds, bounds_of};
ghost use Rattle.mar_epochs.specs.EpochStates.{left_of_epoch};
ghost use Rattle.mar_cache.specs.Shelved.{AllLieWithin, LieWithin};

use crate::manager::ManagerWreck;
use mar_epochs::{Epochs, EpochsRuin, lost_by, parts_of};
use mar_store::{Alarm, Lost, Meta, MetaRuin, Miss};

/// A store that did not answer what it was asked, of which this is left.
pub fn lost_for<W>(miss: Miss, wreck: W) -> Lost<W>
    ensures fault { miss ≡ Miss.Fault → is_fault result ≡ true }
    ensures memory { miss ≡ Miss.Memory → is_fault result ≡ false }
    ensures wreck { wreck_of result ≡ wreck }
{
    match miss {
        Miss::Fault => Lost::Fault(wreck),
        Miss::Memory => Lost::Memory(wreck),
    }
}

/// The alarm of a store where one that it stands on was lost: a fault is counted where that failed.
pub fn alarm_after(alarm: Alarm, failed: bool) -> Alarm
    ensures due { result.due.items ≡ alarm.due.items }
    ensures faults { result.faults ≡ (if failed then min (alarm.faults + 1) (2 ^ 64 - 1) else alarm.faults) }
{
    let mut alarm = alarm;
    if failed {
        alarm.fail();
    }
    alarm
}

// What is left of the cache where an armed put could not leave its entry.
pub fn cut_short<S: Epochs, M: Meta>(lost: Lost<ManagerWreck<S, M>>) -> ManagerWreck<S, M>
    ensures epochs { result.epochs ≡ (wreck_of lost).epochs }
    ensures meta { result.meta ≡ (wreck_of lost).meta }
    ensures alarm { result.alarm ≡ (wreck_of lost).alarm }
    ensures short { result.short ≡ true }
{
    let (_, wreck) = parts_of(lost);
    let ManagerWreck {
        epochs,
        meta,
        alarm,
        short: _short,
    } = wreck;
    ManagerWreck {
        epochs,
        meta,
        alarm,
        short: true,
    }
}

// What is left of the cache where its epochs are lost.
pub fn lost_epochs<S: Epochs, M: Meta>(
    lost: Lost<S::Wreck>,
    meta: M,
    alarm: Alarm,
) -> Lost<ManagerWreck<S, M>>
    requires quiet { (M.watch meta).due ≡ [] }
    requires within { AllLieWithin (S.Wreck.left (wreck_of lost)) (map bounds_of (M.left meta)) }
    ensures ways { (wreck_of result).epochs ≡ wreck_of lost }
    ensures bounds { M.Wreck.left (wreck_of result).meta ≡ M.left meta }
    ensures fault { is_fault result ≡ is_fault lost }
    ensures watch { M.Wreck.watch (wreck_of result).meta ≡ M.watch meta }
    ensures due { (wreck_of result).alarm.due.items ≡ alarm.due.items }
    ensures faults { (wreck_of result).alarm.faults ≡ (if is_fault lost then min (alarm.faults + 1) (2 ^ 64 - 1) else alarm.faults) }
{
    let (failed, epochs) = parts_of(lost);
    let wreck = ManagerWreck {
        epochs,
        meta: meta.wreck(),
        alarm: alarm_after(alarm, failed),
        short: false,
    };
    lost_by(failed, wreck)
}

// What is left of the cache where its metadata is lost.
pub fn lost_meta<S: Epochs, M: Meta>(
    epochs: S,
    lost: Lost<M::Wreck>,
    alarm: Alarm,
) -> Lost<ManagerWreck<S, M>>
    requires quiet { (M.Wreck.watch (wreck_of lost)).due ≡ [] }
    requires within { (b : Bounds) → Contains (map bounds_of (M.Wreck.left (wreck_of lost))) b → LieWithin (S.states epochs) b }
    ensures ways { AllByRecursion (λ left. (k : ℕ) → left k ≡ left_of_epoch (S.states epochs k)) (S.Wreck.left (wreck_of result).epochs) }
    ensures meta { (wreck_of result).meta ≡ wreck_of lost }
    ensures fault { is_fault result ≡ is_fault lost }
    ensures calm { S.Wreck.calm (wreck_of result).epochs ≡ S.calm epochs }
    ensures due { (wreck_of result).alarm.due.items ≡ alarm.due.items }
    ensures faults { (wreck_of result).alarm.faults ≡ (if is_fault lost then min (alarm.faults + 1) (2 ^ 64 - 1) else alarm.faults) }
{
    let (failed, meta) = parts_of(lost);
    let wreck = ManagerWreck {
        epochs: epochs.wreck(),
        meta,
        alarm: alarm_after(alarm, failed),
        short: false,
    };
    lost_by(failed, wreck)
}
