//! The writes that wait for a sync, and the syncs that are open.
ghost use Rattle.std.specs.Prelude.{◌≡◌, ◌<◌, ◌≤◌, ◌+◌, ◌-◌, ◌^◌, ◌==◌, ◌&&◌, ◌++◌, OnErr, OnOk, drop, false, filter, find, map, max, nat_le, nat_lt, not, option_map};
ghost use Rattle.std.specs.VecDeque.{deque_len};
ghost use Rattle.mar_gate.specs.Gate.{IsLeastOf};
ghost use Rattle.mar_gate.specs.Pool.{empty_pool, pool_cleared, pool_deferred, pool_finished, pool_started, pool_ticketed, pooled_at, syncs_of, writing_of};
ghost use Rattle.mar_gate.specs.Views.{pooled_of};
ghost use Rattle.mar_gate.specs.Writing.{IsOrdered, is_open_sync, total_writes};

use crate::gate::DispatchGate;
use mar_types::{Height, SyncTicket};
use std::alloc::{AllocError, Global};
use std::collections::VecDeque;
use std::marker::Model;

/// A sync of both finalized archives that is open.
#[derive(Clone, Copy, Debug)]
pub struct OpenSync {
    /// Its ticket.
    pub ticket: u64,
    /// How many writes of this life there were when it was started: those it covers.
    pub position: u64,
    /// The blocks' ticket for it.
    pub blocks: SyncTicket,
    /// The certificates' ticket for it.
    pub certs: SyncTicket,
    // How many batches of the gate there were: those of the writes that it covers.
    batches: u64,
}

/// The writes of a life above the processed height: how many finished syncs cover, the heights of the others in the order
/// in which they were written, and the open syncs. Dispatch stays below each of those heights, and the gate knows the
/// lowest. A contract sees these without the gate, and the ticket of the next sync.
#[derive(Drop)]
pub struct Writes {
    covered: u64,
    uncovered: VecDeque<Height>,
    syncs: Vec<OpenSync>,
    gate: DispatchGate,
    next_sync: u64,
}

impl Model for Writes {
    ghost use Rattle.std.specs.Prelude.{◌+◌, ◌^◌, ◌<◌, ◌≤◌, map};
    ghost use Rattle.std.specs.VecDeque.{deque_len};
    ghost use Rattle.mar_gate.specs.Gated.{IsGated};
    ghost use Rattle.mar_gate.specs.Pool.{Pool, writing_of};
    ghost use Rattle.mar_gate.specs.Views.{pooled_of};
    ghost use Rattle.mar_gate.specs.Writing.{IsOrdered};

    ghost Value = { Pool };

    ghost view = { λ w. record { covered = w.covered; uncovered = w.uncovered.items; pooled = map pooled_of w.syncs.items; next_sync = w.next_sync } };

    ghost invariant = { λ w. IsOrdered (writing_of (record {
      covered = w.covered;
      uncovered = w.uncovered.items;
      pooled = map pooled_of w.syncs.items;
      next_sync = w.next_sync;
    }))
        × (w.covered + deque_len w.uncovered < 2 ^ 64)
        × (w.gate.next ≤ w.next_sync)
        × IsGated w.covered w.uncovered.items w.syncs.items w.gate };
}

impl Writes {
    /// Nothing was written yet.
    pub fn new(alloc: Global) -> Self
        ensures { result ≡ empty_pool }
    {
        Writes {
            covered: 0,
            uncovered: VecDeque::new(alloc),
            syncs: Vec::new(alloc),
            gate: DispatchGate::new(alloc),
            next_sync: 0,
        }
    }

    /// Takes in a write at a height, which no sync covers yet. Where memory runs out nothing changes, nor where the writes
    /// of this life can't be counted any more.
    pub fn defer(&mut self, height: Height) -> Result<(), AllocError>
        ensures ok { OnOk result (self.new ≡ pool_deferred height self.old) }
        ensures err { OnErr result (self.new ≡ self.old) }
    {
        if self.total() == u64::MAX {
            return Err(AllocError);
        }
        self.uncovered.push_back(height)?;
        self.gate.defer(height);
        Ok(())
    }

    // How many writes there were.
    fn total(&self) -> u64
        ensures { result ≡ total_writes (writing_of self.now) }
    {
        self.covered + self.uncovered.len() as u64
    }

    /// Whether a ticket is left for one more sync.
    pub fn has_ticket(&self) -> bool
        ensures left { result ≡ nat_lt self.now.next_sync (2 ^ 64 - 1) }
        ensures last { result ≡ false → self.now.next_sync ≡ 2 ^ 64 - 1 }
    {
        self.next_sync < u64::MAX
    }

    /// Takes in a sync that was started, with the tickets that the archives gave for it; it covers all writes so far. Where
    /// memory runs out nothing changes.
    pub fn start(&mut self, blocks: SyncTicket, certs: SyncTicket) -> Result<(), AllocError>
        requires { self.old.next_sync < 2 ^ 64 - 1 }
        ensures ok { OnOk result (self.new ≡ pool_started blocks.number certs.number self.old) }
        ensures err { OnErr result (self.new ≡ self.old) }
        ensures numbers { (blocks.number ≤ 2 ^ 64 - 1) × (certs.number ≤ 2 ^ 64 - 1) }
    {
        let position = self.total();
        self.syncs.reserve(1)?;
        self.gate.adopt()?;
        self.syncs.push_reserved(OpenSync {
            ticket: self.next_sync,
            position,
            blocks,
            certs,
            batches: self.gate.next_number(),
        });
        self.next_sync += 1;
        Ok(())
    }

    /// The ticket of the next sync.
    pub fn next_ticket(&self) -> u64
        ensures { result ≡ self.now.next_sync }
    {
        self.next_sync
    }

    /// Takes the next ticket for a sync of something else, which is then not the ticket of any sync of both archives.
    pub fn take_ticket(&mut self) -> u64
        requires { self.old.next_sync < 2 ^ 64 - 1 }
        ensures number { result ≡ self.old.next_sync }
        ensures rest { self.new ≡ pool_ticketed self.old }
    {
        let ticket = self.next_sync;
        self.next_sync += 1;
        ticket
    }

    /// The open sync of a ticket.
    pub fn find(&self, ticket: u64) -> Option<OpenSync>
        ensures { option_map pooled_of result ≡ pooled_at self.now.pooled ticket }
    {
        find_sync(&self.syncs, ticket)
    }

    /// The sync of this ticket has finished: the writes up to its position are let go. Where it isn't open nothing changes.
    pub fn finish(&mut self, ticket: u64)
        ensures { self.new ≡ pool_finished ticket self.old }
    {
        let Some(sync) = find_sync(&self.syncs, ticket) else {
            return;
        };
        self.covered = cover(self.covered, sync.position, &mut self.uncovered);
        release_before(&mut self.gate, sync.batches);
        self.syncs.retain(|open| open.ticket != ticket);
    }

    /// A blocking sync of both archives has finished: all writes are let go, and open syncs stay open.
    pub fn clear(&mut self)
        ensures { self.new ≡ pool_cleared self.old }
    {
        let total = self.total();
        self.uncovered.clear();
        self.covered = total;
        self.gate.clear();
    }

    /// The lowest height whose write no finished sync covers; dispatch stays below it.
    pub fn barrier(&self) -> Option<Height>
        ensures { IsLeastOf self.now.uncovered result }
    {
        self.gate.barrier()
    }

    /// Whether the sync of a ticket is open.
    pub fn is_open(&self, ticket: u64) -> bool
        ensures { result ≡ is_open_sync (syncs_of self.now.pooled) ticket }
    {
        self.find(ticket).is_some()
    }

    /// Whether the sync of a ticket was started in this life and has finished.
    pub fn is_finished(&self, ticket: u64) -> bool
        ensures { result ≡ (nat_lt ticket self.now.next_sync && not (is_open_sync (syncs_of self.now.pooled) ticket)) }
    {
        ticket < self.next_sync && !self.is_open(ticket)
    }

    /// The tickets of the open syncs ascend to the next one, and no sync covers more than what was written.
    pub fn law(&self)
        ensures { IsOrdered (writing_of self.now) }
    {
        let _ = &self.covered;
    }

    /// The heights of the writes that no finished sync covers, in the order in which they were written, in two parts.
    pub fn uncovered(&self) -> (&[Height], &[Height])
        ensures { result.0.now ++ result.1.now ≡ self.now.uncovered }
    {
        self.uncovered.as_slices()
    }

    /// The open syncs, by their tickets.
    pub fn syncs(&self) -> &[OpenSync]
        ensures { map pooled_of result.now ≡ self.now.pooled }
    {
        self.syncs.as_slice()
    }
}

// Takes that many heights from the front, or all.
fn drop_front(heights: &mut VecDeque<Height>, count: u64)
    ensures { heights.new.items ≡ drop count heights.old.items }
{
    for _ in 0..count {
        if heights.pop_front().is_none() {
            return;
        }
    }
}

// The open sync of a ticket.
fn find_sync(syncs: &[OpenSync], ticket: u64) -> Option<OpenSync>
    ensures { result ≡ find (λ s. s.ticket == ticket) syncs.now }
{
    syncs.iter().find(|sync| sync.ticket == ticket).copied()
}

// Takes the heights of the writes up to a position from the front, and answers how many writes are covered then.
fn cover(covered: u64, position: u64, uncovered: &mut VecDeque<Height>) -> u64
    ensures covered { result ≡ max covered position }
    ensures uncovered { uncovered.new.items ≡ drop (max covered position - covered) uncovered.old.items }
    ensures counted { covered + deque_len uncovered.old < 2 ^ 64 → result + deque_len uncovered.new < 2 ^ 64 }
{
    let covers = covered.max(position);
    drop_front(uncovered, covers - covered);
    covers
}

// Lets go the batches below a number.
fn release_before(gate: &mut DispatchGate, number: u64)
    ensures { gate.new ≡ record gate.old { inflight = filter (λ b. nat_le number b.number) gate.old.inflight } }
{
    if let Some(last) = number.checked_sub(1) {
        gate.release(last);
    }
}
