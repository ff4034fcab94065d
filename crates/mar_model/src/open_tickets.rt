//! The syncs of a cache that are open.
ghost use Rattle.std.specs.Prelude.{◌≡◌, ◌++◌, ◌∷◌, ◌==◌, [], OnErr, OnOk, filter, find, not};
ghost use Rattle.std.specs.List.{list_any};

use crate::started::CacheTicket;
use std::alloc::{AllocError, Global};
use std::marker::Model;

/// A sync of the cache that is open.
#[derive(Clone, Copy)]
pub struct OpenTicket {
    /// The number that callers know it by.
    pub number: u64,
    /// What the cache gave out for it.
    pub sync: CacheTicket,
    /// The caller that waits for it, by its answer ticket.
    pub answer: Option<u64>,
}

/// The syncs of a cache that are open, in the order in which they were started. A contract sees the list of them.
#[derive(Drop)]
pub struct OpenTickets {
    tickets: Vec<OpenTicket>,
}

impl Model for OpenTickets {
    ghost use Rattle.std.specs.Prelude.{List};
    ghost use Rattle.mar_model.specs.declared.open_tickets.OpenTicket.{OpenTicket as OpenTicketOf};

    ghost Value = { List OpenTicketOf };

    ghost view = { λ o. o.tickets.items };
}

impl OpenTickets {
    /// None is open.
    pub fn new(alloc: Global) -> Self
        ensures { result ≡ [] }
    {
        OpenTickets {
            tickets: Vec::new(alloc),
        }
    }

    /// Takes in a sync that was started. Where memory runs out nothing changes.
    pub fn open(&mut self, ticket: OpenTicket) -> Result<(), AllocError>
        ensures ok { OnOk result (self.new ≡ self.old ++ ticket ∷ []) }
        ensures err { OnErr result (self.new ≡ self.old) }
    {
        self.tickets.push(ticket)?;
        Ok(())
    }

    /// The open sync of this number.
    pub fn find(&self, number: u64) -> Option<OpenTicket>
        ensures { result ≡ find (λ o. o.number == number) self.now }
    {
        self.tickets
            .iter()
            .find(|open| open.number == number)
            .copied()
    }

    /// Whether the sync of this number is open.
    pub fn is_open(&self, number: u64) -> bool
        ensures { result ≡ list_any (λ o. o.number == number) self.now }
    {
        has_number(&self.tickets, number)
    }

    /// The sync of this number is open no longer. Where it isn't, nothing changes.
    pub fn close(&mut self, number: u64)
        ensures { self.new ≡ filter (λ o. not (o.number == number)) self.old }
    {
        self.tickets.retain(|open| open.number != number);
    }

    /// The open syncs, in order.
    pub fn as_slice(&self) -> &[OpenTicket]
        ensures { result.now ≡ self.now }
    {
        self.tickets.as_slice()
    }
}

// Whether a sync of this number is among these.
fn has_number(tickets: &[OpenTicket], number: u64) -> bool
    ensures { result ≡ list_any (λ o. o.number == number) tickets.now }
{
    tickets.iter().any(|open| open.number == number)
}
