//! The gate that holds dispatch back until written blocks are durable.
ghost use Rattle.std.specs.Prelude.{◌≡◌, ◌+◌, ◌^◌, ◌<◌, [], None, OnErr, OnOk, IfOk, is_some, option_map, true};
ghost use Rattle.mar_gate.specs.Gate.{adopted, after_clear, after_defer, after_release, lower_of, IsBarrier};

use mar_types::Height;
use std::alloc::{AllocError, Global};
use std::marker::Model;

/// The writes that one sync covers.
#[derive(Clone, Copy)]
struct Batch {
    number: u64,
    lowest: Height,
}

/// Holds dispatch below each height that was written until a sync that covers the write has finished. A write is
/// deferred while no started sync covers it, adopted when one starts, and let go when that one, or a later one, has
/// finished. A contract sees a record of the lowest deferred height, the batches under way and the next number.
#[derive(Drop)]
pub struct DispatchGate {
    unsynced: Option<Height>,
    inflight: Vec<Batch>,
    next_number: u64,
}

impl Model for DispatchGate {
    ghost use Rattle.std.specs.Prelude.{map};
    ghost use Rattle.mar_gate.specs.Gate.{Gate};

    ghost Value = { Gate };

    ghost view = { λ g. record {
      unsynced = g.unsynced;
      inflight = map (λ b. record { number = b.number; lowest = b.lowest }) g.inflight.items;
      next
          = g.next_number;
    } };
}

impl DispatchGate {
    /// A gate that holds nothing back.
    pub fn new(alloc: Global) -> Self
        ensures { result ≡ record { unsynced = None; inflight = []; next = 0 } }
    {
        DispatchGate {
            unsynced: None,
            inflight: Vec::new(alloc),
            next_number: 0,
        }
    }

    /// Holds dispatch below this height until a sync that covers the write has finished.
    pub fn defer(&mut self, height: Height)
        ensures { self.new ≡ after_defer height self.old }
    {
        self.unsynced = Some(lower_of(height, self.unsynced));
    }

    /// Takes the deferred writes into a new batch, and answers the number under which its sync is to be released, or
    /// `None` where each write is covered already, so that no sync has to start. Where memory runs out nothing changes,
    /// and it runs out only where a write is deferred.
    pub fn adopt(&mut self) -> Result<Option<u64>, AllocError>
        requires { self.old.next + 1 < 2 ^ 64 }
        ensures number { IfOk result (λ n. n ≡ option_map (λ _. self.old.next) self.old.unsynced) }
        ensures ok { OnOk result (self.new ≡ adopted self.old.unsynced self.old) }
        ensures err { OnErr result (self.new ≡ self.old) }
        ensures deferred { OnErr result (is_some self.old.unsynced ≡ true) }
    {
        let Some(lowest) = self.unsynced else {
            return Ok(None);
        };
        let number = self.next_number;
        self.inflight.push(Batch { number, lowest })?;
        self.unsynced = None;
        self.next_number += 1;
        Ok(Some(number))
    }

    /// The number of the next batch: how many there were.
    pub fn next_number(&self) -> u64
        ensures { result ≡ self.now.next }
    {
        self.next_number
    }

    /// Lets go the batches up to this number, whose sync has finished: a sync covers each write before it.
    pub fn release(&mut self, number: u64)
        ensures { self.new ≡ after_release number self.old }
    {
        self.inflight.retain(|batch| batch.number > number);
    }

    /// Lets everything go: a blocking sync has finished.
    pub fn clear(&mut self)
        ensures { self.new ≡ after_clear self.old }
    {
        self.unsynced = None;
        self.inflight.clear();
    }

    /// The lowest height whose write may not be durable yet; dispatch stays below it.
    pub fn barrier(&self) -> Option<Height>
        ensures { IsBarrier self.now result }
    {
        let mut barrier = self.unsynced;
        for batch in &self.inflight {
            barrier = Some(lower_of(batch.lowest, barrier));
        }
        barrier
    }
}

// The lower of two heights, where there is a second.
fn lower_of(height: Height, other: Option<Height>) -> Height
    ensures { result ≡ lower_of height other }
{
    match other {
        Some(other) => height.min(other),
        None => height,
    }
}
