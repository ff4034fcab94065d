//! Messages that wait in order.
ghost use Rattle.std.specs.BTreeMap.{is_at};
ghost use Rattle.std.specs.List.{AllByRecursion};
ghost use Rattle.std.specs.Map.{lookup};
ghost use Rattle.std.specs.Ordering.{nat_cmp};
ghost use Rattle.std.specs.Prelude.{IfErr, IsSome, MatchOption, None, OnErr, OnOk, Some, [], false, filter, length, not, true, ◌+◌, ◌++◌, ◌<◌, ◌∷◌, ◌≡◌};
ghost use Rattle.mar_inbox.specs.Kinds.{hinted_by, kind_of, merged_by, tidied_by};
ghost use Rattle.mar_inbox.specs.Policy.{hint_of, is_hint, is_stale, read_of};
ghost use Rattle.mar_inbox.specs.Turns.{Exchanges, HintAt, IsHinted, IsRead, IsRising, KeepsReads, WithoutHint, WithoutRead, is_hint_at};

use crate::dropping::{drop_hints, drop_reads};
use crate::letter::{Kind, Letter};
use std::alloc::{AllocError, Global};
use std::collections::{BTreeMap, BTreeSet};
use std::marker::Model;

/// Messages that wait in the order in which they came. A hint is found by its height, and so is what a prune drops, without
/// a look at any other. A contract sees the list of them.
#[derive(Drop)]
pub(crate) struct Others<M: Letter> {
    // The turn of the next message.
    next: u64,
    // The messages, by their turns.
    entries: BTreeMap<u64, M>,
    // The turn of the hint of a height.
    hints: BTreeMap<u64, u64>,
    // The heights by which messages read, with their turns.
    reads: BTreeSet<(u64, u64)>,
}

impl<M: Letter> Model for Others<M> {
    ghost use Rattle.std.specs.Prelude.{List};
    ghost use Rattle.mar_model.specs.Messages.{Queued};
    ghost use Rattle.mar_inbox.specs.Turns.{IsIndexed, seen};

    ghost Value = { List Queued };

    ghost view = { λ o. seen M.plain o.entries.entries };

    ghost invariant = { λ o. IsIndexed M.plain o.entries.entries o.next o.hints o.reads };
}

impl<M: Letter> Others<M> {
    /// None wait.
    pub(crate) fn new(alloc: Global) -> Self
        ensures { result ≡ [] }
    {
        Others {
            next: 0,
            entries: BTreeMap::new(alloc),
            hints: BTreeMap::new(alloc),
            reads: BTreeSet::new(alloc),
        }
    }

    /// How many wait.
    pub(crate) fn len(&self) -> usize
        ensures { result ≡ length self.now }
    {
        self.entries.len()
    }

    /// Adds a message that is no hint behind the others, or hands it back where memory runs out.
    pub(crate) fn push(&mut self, item: M) -> Result<(), M>
        requires { hint_of (M.plain item).message ≡ None }
        ensures ok { OnOk result (self.new ≡ self.old ++ M.plain item ∷ []) }
        ensures same { OnErr result (self.new ≡ self.old) }
        ensures back { IfErr result (λ back. back ≡ item) }
    {
        let Ok(()) = note_read(&mut self.reads, &item, self.next) else {
            return Err(item);
        };
        append(&mut self.entries, &mut self.next, item)
    }

    /// Adds a hint: it joins that of its height, or stands behind the others. Where memory runs out it is handed back.
    pub(crate) fn add_hint(&mut self, item: M, height: u64) -> Result<(), M>
        requires { kind_of (M.plain item).message ≡ Kind.Hint height }
        ensures ok { OnOk result (self.new ≡ hinted_by self.old (M.plain item).message) }
        ensures same { OnErr result (self.new ≡ self.old) }
        ensures back { IfErr result (λ back. back ≡ item) }
    {
        match hint_at(&self.entries, &self.hints, height) {
            Some(turn) => merge_at(&mut self.entries, turn, item),
            None => self.push_hint(item, height),
        }
    }

    // Adds the first hint of its height behind the others.
    fn push_hint(&mut self, item: M, height: u64) -> Result<(), M>
        requires kind { kind_of (M.plain item).message ≡ Kind.Hint height }
        requires first { AllByRecursion (λ q. is_hint height q ≡ false) self.old }
        ensures ok { OnOk result (self.new ≡ hinted_by self.old (M.plain item).message) }
        ensures same { OnErr result (self.new ≡ self.old) }
        ensures back { IfErr result (λ back. back ≡ item) }
    {
        let turn = self.next;
        let Ok(_) = self.hints.insert(height, turn) else {
            return Err(item);
        };
        append(&mut self.entries, &mut self.next, item)?;
        tidy_at(&mut self.entries, turn);
        Ok(())
    }

    /// Takes the first message.
    pub(crate) fn pop_first(&mut self) -> Option<M>
        ensures { MatchOption result ((self.old ≡ []) × (self.new ≡ [])) (λ message. self.old ≡ M.plain message ∷ self.new) }
    {
        let (turn, message) = self.entries.pop_first()?;
        forget(&mut self.hints, &mut self.reads, turn, &message);
        Some(message)
    }

    /// Drops what a prune of this height does.
    pub(crate) fn drop_stale(&mut self, prune: u64)
        ensures { self.new ≡ filter (λ q. not (is_stale prune q.message)) self.old }
    {
        drop_hints(&mut self.entries, &mut self.hints, prune);
        drop_reads(&mut self.entries, &mut self.reads, prune);
    }
}

// Notes by which height a message reads, if it does.
fn note_read<M: Letter>(
    reads: &mut BTreeSet<(u64, u64)>,
    item: &M,
    turn: u64,
) -> Result<(), AllocError>
    ensures kept { KeepsReads reads.old reads.new }
    ensures ok { OnOk result (IsRead M.plain reads.new (turn, item.now)) }
{
    match item.kind() {
        Kind::Read(height) => match reads.insert((height, turn)) {
            Ok(_) => Ok(()),
            Err(_) => Err(AllocError),
        },
        _ => Ok(()),
    }
}

// Adds a message behind the others, at the next turn, or hands it back where memory runs out.
fn append<M: Drop>(entries: &mut BTreeMap<u64, M>, next: &mut u64, item: M) -> Result<(), M>
    requires { AllByRecursion (λ e. e.0 < next.old) entries.old.entries }
    ensures ok { OnOk result ((entries.new.entries ≡ entries.old.entries ++ (next.old, item) ∷ []) × (next.new ≡ next.old + 1)) }
    ensures same { OnErr result ((entries.new.entries ≡ entries.old.entries) × (next.new ≡ next.old)) }
    ensures back { IfErr result (λ back. back ≡ item) }
{
    let Some(after) = next.checked_add(1) else {
        return Err(item);
    };
    match entries.insert(*next, item) {
        Ok(_) => {
            *next = after;
            Ok(())
        }
        Err(refused) => {
            let (_, item) = refused.value;
            Err(item)
        }
    }
}

// The turn of the hint of a height.
fn hint_at<M: Letter>(
    entries: &BTreeMap<u64, M>,
    hints: &BTreeMap<u64, u64>,
    height: u64,
) -> Option<u64>
    requires rising { IsRising entries.now.entries }
    requires hinted { AllByRecursion (IsHinted M.plain hints.now) entries.now.entries }
    ensures { HintAt M.plain height entries.now.entries result }
{
    let Some(turn) = hints.get(&height) else {
        return None;
    };
    if is_hint_at(entries, *turn, height) {
        return Some(*turn);
    }
    None
}

// Whether the message of a turn is the hint of this height.
fn is_hint_at<M: Letter>(entries: &BTreeMap<u64, M>, turn: u64, height: u64) -> bool
    ensures { result ≡ is_hint_at M.plain height turn entries.now.entries }
{
    match entries.get(&turn) {
        Some(message) => is_hint(message, height),
        None => false,
    }
}

// Whether it is the hint of this height.
fn is_hint<M: Letter>(message: &M, height: u64) -> bool
    ensures { result ≡ is_hint height (M.plain message.now) }
{
    match message.kind() {
        Kind::Hint(hint) => hint == height,
        _ => false,
    }
}

// The hint of a turn takes in another, which is handed back where memory runs out.
fn merge_at<M: Letter>(entries: &mut BTreeMap<u64, M>, turn: u64, item: M) -> Result<(), M>
    requires { IsSome (lookup (is_at (nat_cmp turn)) entries.old.entries) }
    ensures ok { OnOk result (Exchanges turn (λ m w. M.plain w ≡ merged_by (M.plain m) (M.plain item).message) entries.old.entries entries.new.entries) }
    ensures same { OnErr result (Exchanges turn (λ m w. M.plain w ≡ M.plain m) entries.old.entries entries.new.entries) }
    ensures back { IfErr result (λ back. back ≡ item) }
{
    let Some(hint) = entries.get_mut(&turn) else {
        return Err(item);
    };
    match hint.merge(&item) {
        Ok(()) => Ok(()),
        Err(_) => Err(item),
    }
}

// The hint of a turn names each peer once.
fn tidy_at<M: Letter>(entries: &mut BTreeMap<u64, M>, turn: u64)
    requires { IsSome (lookup (is_at (nat_cmp turn)) entries.old.entries) }
    ensures { Exchanges turn (λ m w. M.plain w ≡ tidied_by (M.plain m) (M.plain m).message) entries.old.entries entries.new.entries }
{
    if let Some(hint) = entries.get_mut(&turn) {
        hint.tidy();
    }
}

// Forgets where a message stood that leaves.
fn forget<M: Letter>(
    hints: &mut BTreeMap<u64, u64>,
    reads: &mut BTreeSet<(u64, u64)>,
    turn: u64,
    message: &M,
)
    ensures hint { WithoutHint (hint_of (M.plain message.now).message) hints.old hints.new }
    ensures read { WithoutRead (read_of (M.plain message.now).message) turn reads.old reads.new }
{
    match message.kind() {
        Kind::Hint(height) => {
            hints.remove(&height);
        }
        Kind::Read(height) => {
            reads.remove(&(height, turn));
        }
        _ => {}
    }
}
