//! What a prune drops of the messages that wait.
ghost use Rattle.std.specs.BTreeMap.{get};
ghost use Rattle.std.specs.BTreeSet.{contains};
ghost use Rattle.std.specs.List.{AllByRecursion};
ghost use Rattle.std.specs.Ordering.{nat_cmp};
ghost use Rattle.std.specs.Prelude.{IfNone, IfSome, Some, true, ◌<◌, ◌≤◌, ◌≡◌};
ghost use Rattle.mar_inbox.specs.Policy.{is_stale};
ghost use Rattle.mar_inbox.specs.Turns.{HasNoneBelow, HasNoneUpTo, HintsAbove, IsHinted, IsRead, IsRising, Leaves, ReadsFrom, is_stale_at, read_cmp, without_stale};

use crate::letter::{Kind, Letter};
use std::collections::{BTreeMap, BTreeSet};

/// Drops the hints at or below a height.
pub(crate) fn drop_hints<M: Letter>(
    entries: &mut BTreeMap<u64, M>,
    hints: &mut BTreeMap<u64, u64>,
    prune: u64,
)
    requires rising { IsRising entries.old.entries }
    requires hinted { AllByRecursion (IsHinted M.plain hints.old) entries.old.entries }
    ensures leaves { Leaves M.plain prune entries.old.entries entries.new.entries }
    ensures hinted { AllByRecursion (IsHinted M.plain hints.new) entries.new.entries }
    ensures above { AllByRecursion (HintsAbove M.plain prune) entries.new.entries }
{
    while let Some((height, turn)) = first_up_to(hints, prune) {
        hints.remove(&height);
        drop_at(entries, turn, prune);
    }
}

/// Drops the reads below a height.
pub(crate) fn drop_reads<M: Letter>(
    entries: &mut BTreeMap<u64, M>,
    reads: &mut BTreeSet<(u64, u64)>,
    prune: u64,
)
    requires rising { IsRising entries.old.entries }
    requires read { AllByRecursion (IsRead M.plain reads.old) entries.old.entries }
    ensures leaves { Leaves M.plain prune entries.old.entries entries.new.entries }
    ensures read { AllByRecursion (IsRead M.plain reads.new) entries.new.entries }
    ensures from { AllByRecursion (ReadsFrom M.plain prune) entries.new.entries }
{
    while let Some((height, turn)) = first_below(reads, prune) {
        reads.remove(&(height, turn));
        drop_at(entries, turn, prune);
    }
}

// The lowest hint, where it is at or below this height: its height and its turn.
fn first_up_to(hints: &BTreeMap<u64, u64>, prune: u64) -> Option<(u64, u64)>
    ensures stands { IfSome result (λ first. (first.0 ≤ prune) × (get nat_cmp hints.now first.0 ≡ Some first.1)) }
    ensures none { IfNone result (HasNoneUpTo prune hints.now) }
{
    let (height, turn) = hints.first_key_value()?;
    if *height <= prune {
        return Some((*height, *turn));
    }
    None
}

// The lowest read, where it is below this height: its height and its turn.
fn first_below(reads: &BTreeSet<(u64, u64)>, prune: u64) -> Option<(u64, u64)>
    ensures stands { IfSome result (λ first. (first.0 < prune) × (contains read_cmp reads.now first ≡ true)) }
    ensures none { IfNone result (HasNoneBelow prune reads.now) }
{
    let first = reads.first()?;
    if first.0 < prune {
        return Some(*first);
    }
    None
}

// Drops the message of a turn, where a prune of this height does.
fn drop_at<M: Letter>(entries: &mut BTreeMap<u64, M>, turn: u64, prune: u64)
    ensures { entries.new.entries ≡ without_stale M.plain prune turn entries.old.entries }
{
    if is_stale_at(entries, turn, prune) {
        entries.remove(&turn);
    }
}

// Whether the message of a turn is one that a prune of this height drops.
fn is_stale_at<M: Letter>(entries: &BTreeMap<u64, M>, turn: u64, prune: u64) -> bool
    ensures { result ≡ is_stale_at M.plain prune turn entries.now.entries }
{
    match entries.get(&turn) {
        Some(message) => is_stale(message, prune),
        None => false,
    }
}

/// Whether a prune of this height drops a message.
pub(crate) fn is_stale<M: Letter>(message: &M, prune: u64) -> bool
    ensures { result ≡ is_stale prune (M.plain message.now).message }
{
    match message.kind() {
        Kind::Read(height) => height < prune,
        Kind::Hint(height) => height <= prune,
        _ => false,
    }
}
