//! Who waits for the block of which name.
ghost use Rattle.std.specs.Prelude.{◌≡◌, [], None, IfOk, IsTrue, OnErr, OnOk, Some, List, Option, bytes_eq, false, if◌then◌else◌, is_some, length, nat_lt, option_and_then, option_map, ℕ};
ghost use Rattle.std.specs.BTreeMap.{get};
ghost use Rattle.mar_parts.specs.WaitViews.{name_of, wait_of};
ghost use Rattle.mar_parts.specs.Waits.{is_promised, joined, open_of, still_open, tickets_for, wait_for};

use mar_key::Subscription;
use mar_types::Digest;
use std::alloc::{AllocError, Global};
use std::collections::BTreeMap;
use std::marker::Model;

/// Those who wait for one block, and the buffer's promise to tell of it, where it has given one.
#[derive(Drop)]
struct Waiting<S> {
    tickets: Vec<u64>,
    subscription: Option<S>,
}

/// Those who wait, by the name of the block that they wait for. A contract sees a list of the waits, each under the
/// bytes of its name.
#[derive(Drop)]
pub(crate) struct Waiters<K: Digest> {
    waits: BTreeMap<K, Waiting<Subscription<K>>>,
}

impl<K: Digest> Model for Waiters<K> {
    ghost use Rattle.std.specs.Prelude.{List, ℕ, map};
    ghost use Rattle.std.specs.BTreeMap.{get};
    ghost use Rattle.mar_parts.specs.WaitViews.{name_of, wait_of};
    ghost use Rattle.mar_parts.specs.Waits.{Wait};

    ghost Value = { List (List ℕ × Wait) };

    ghost use Rattle.mar_parts.specs.WaitViews.{name_of, wait_of};

    ghost view = { λ w. map (λ e. (K.bytes e.0, wait_of (name_of K.bytes) e.1)) w.waits.entries };
}

impl<K: Digest> Waiters<K> {
    /// Nobody waits.
    pub(crate) fn new(alloc: Global) -> Self
        ensures { result ≡ [] }
    {
        Waiters {
            waits: BTreeMap::new(alloc),
        }
    }

    /// Whether the buffer has promised to tell of the block of that name.
    pub(crate) fn is_promised(&self, name: &K) -> bool
        ensures { result ≡ is_promised (wait_for self.now (K.bytes name.now)) }
    {
        match self.waits.get(name) {
            Some(waiting) => waiting.subscription.is_some(),
            None => false,
        }
    }

    /// One more waits under a name, behind those who do. Where nobody does the answer is false. Then, and where memory
    /// runs out, nothing changes.
    pub(crate) fn join(&mut self, name: &K, ticket: u64) -> Result<bool, AllocError>
        ensures found { IfOk result (λ found. found ≡ is_some (wait_for self.old (K.bytes name.now))) }
        ensures joined { IfOk result (λ found. IsTrue found → (promise : Option (List ℕ)) (other : K) → wait_for self.new (K.bytes other)
            ≡ (if bytes_eq (K.bytes name.now) (K.bytes other) then Some (joined ticket promise (wait_for self.old (K.bytes name.now))) else wait_for self.old
            (K.bytes other))) }
        ensures alone { IfOk result (λ found. found ≡ false → self.new ≡ self.old) }
        ensures err { OnErr result (self.new ≡ self.old) }
    {
        let Some(waiting) = self.waits.get_mut(name) else {
            return Ok(false);
        };
        waiting.tickets.push(ticket)?;
        Ok(true)
    }

    /// The first waits under a name, under what the buffer has promised. Where memory runs out nothing changes.
    pub(crate) fn open(
        &mut self,
        alloc: Global,
        name: K,
        subscription: Option<Subscription<K>>,
        ticket: u64,
    ) -> Result<(), AllocError>
        ensures ok { OnOk result ((other : K) → wait_for self.new (K.bytes other)
            ≡ (if bytes_eq (K.bytes name) (K.bytes other) then Some (joined ticket (option_map (name_of K.bytes) subscription) None)
            else wait_for self.old (K.bytes other))) }
        ensures err { OnErr result (self.new ≡ self.old) }
    {
        let tickets = vec![in alloc; ticket]?;
        let waiting = Waiting {
            tickets,
            subscription,
        };
        self.waits.insert(name, waiting)?;
        Ok(())
    }

    /// Nobody waits under that name from now on. The answer is who did.
    pub(crate) fn remove(&mut self, alloc: Global, name: &K) -> Vec<u64>
        ensures tickets { result.items ≡ tickets_for self.old (K.bytes name.now) }
        ensures rest { (other : K) → wait_for self.new (K.bytes other)
            ≡ (if bytes_eq (K.bytes name.now) (K.bytes other) then None else wait_for self.old (K.bytes other)) }
    {
        let Some(waiting) = self.waits.remove(name) else {
            return Vec::new(alloc);
        };
        waiting.tickets
    }

    /// Those whose ticket is closed wait no more.
    pub(crate) fn retain_open(&mut self, closed: &[u64])
        ensures { (other : K) → wait_for self.new (K.bytes other) ≡ option_and_then (still_open closed.now) (wait_for self.old (K.bytes other)) }
    {
        retain_waiting(&mut self.waits, closed);
    }
}

// Those whose ticket is closed wait no more. Names and promises are of unrelated kinds here, since the map's `retain`
// takes no values that know the type of its keys.
fn retain_waiting<K: Ord + Drop, S: Drop>(waits: &mut BTreeMap<K, Waiting<S>>, closed: &[u64])
    ensures { (name : S → List ℕ) (key : K) → option_map (wait_of name) (get K.cmp waits.new key)
        ≡ option_and_then (still_open closed.now) (option_map (wait_of name) (get K.cmp waits.old key)) }
{
    waits.retain(|_, waiting| retain_open(&mut waiting.tickets, closed));
}

// Drops the closed tickets, and says whether one is left.
fn retain_open(tickets: &mut Vec<u64>, closed: &[u64]) -> bool
    ensures tickets { tickets.new.items ≡ open_of closed.now tickets.old.items }
    ensures left { result ≡ nat_lt 0 (length (open_of closed.now tickets.old.items)) }
{
    tickets.retain(|ticket| !closed.contains(ticket));
    !tickets.is_empty()
}
