//! What waits behind the messages of an inbox that are ready.
ghost use Rattle.std.specs.BTreeSet.{insert_key};
ghost use Rattle.std.specs.Ordering.{nat_cmp};
ghost use Rattle.std.specs.Prelude.{IfErr, IfOk, None, OnErr, OnOk, [], if◌then◌else◌, not, option_map, true, ◌≡◌};
ghost use Rattle.mar_key.specs.Places.{next_kept};
ghost use Rattle.mar_inbox.specs.Behind.{IsFloor, IsPrune, floor_of, is_later, prune_of, without_ticket};
ghost use Rattle.mar_types.specs.Round.{round_le};
ghost use Rattle.mar_inbox.specs.Kinds.{IsUnasked, is_other, kind_of};
ghost use Rattle.mar_inbox.specs.Policy.{covers_prune, is_closed, joined, stale_by};

use crate::dropping::is_stale;
use crate::letter::{Kind, Letter};
use crate::others::Others;
use mar_key::Overflow;
use mar_types::Round;
use std::alloc::{AllocError, Global};
use std::collections::BTreeSet;
use std::marker::Model;

/// What waits behind the messages of an inbox that are ready: of several floors the one of the latest round, of several
/// prunes the highest, all other messages in order with one hint a height, and the closed tickets. A contract sees them as
/// plain data.
#[derive(Drop)]
pub struct Backlog<M: Letter> {
    floor: Option<M>,
    prune: Option<M>,
    others: Others<M>,
    closed: BTreeSet<u64>,
}

impl<M: Letter> Model for Backlog<M> {
    ghost use Rattle.std.specs.Prelude.{option_map};
    ghost use Rattle.mar_inbox.specs.Behind.{IsFloor, IsPrune, floor_of, prune_of};
    ghost use Rattle.mar_inbox.specs.Policy.{Backlog as Waiting};

    ghost Value = { Waiting };

    ghost view = { λ b. record {
      floor = floor_of (option_map M.plain b.floor);
      prune = prune_of (option_map M.plain b.prune);
      others = b.others;
      closed = b.closed.keys;
    } };

    ghost invariant = { λ b. IsFloor (option_map M.plain b.floor) × IsPrune (option_map M.plain b.prune) };
}

impl<M: Letter> Backlog<M> {
    /// Nothing waits, and no ticket is closed.
    pub(crate) fn new(alloc: Global) -> Self
        ensures { result ≡ record { floor = None; prune = None; others = []; closed = [] } }
    {
        Backlog {
            floor: None,
            prune: None,
            others: Others::new(alloc),
            closed: BTreeSet::new(alloc),
        }
    }

    /// Marks a ticket as closed, and says whether it wasn't. Where memory runs out nothing changes.
    pub(crate) fn close(&mut self, ticket: u64) -> Result<bool, AllocError>
        ensures ok { OnOk result (self.new ≡ record self.old { closed = insert_key nat_cmp self.old.closed ticket }) }
        ensures undone { IfOk result (λ added. (if added then without_ticket ticket self.new.closed else self.new.closed) ≡ self.old.closed) }
        ensures err { OnErr result (self.new ≡ self.old) }
    {
        let Ok(is_new) = self.closed.insert(ticket) else {
            return Err(AllocError);
        };
        Ok(is_new)
    }

    /// Marks a ticket as open again, where its closing was new.
    pub(crate) fn reopen(&mut self, ticket: u64, is_new: bool)
        ensures { self.new ≡ record self.old { closed = (if is_new then without_ticket ticket self.old.closed else self.old.closed) } }
    {
        if is_new {
            self.closed.remove(&ticket);
        }
    }

    // A floor takes the place of an earlier one.
    fn add_floor(&mut self, item: M, round: Round)
        requires kind { kind_of (M.plain item).message ≡ Kind.Floor round }
        requires unasked { IsUnasked (M.plain item).message (M.plain item) }
        ensures { self.new ≡ joined self.old (M.plain item) }
    {
        if is_later(&self.floor, round) {
            self.floor = Some(item);
        }
    }

    // A prune takes the place of a lower one, and drops what is stale by it.
    fn add_prune(&mut self, item: M, height: u64)
        requires kind { kind_of (M.plain item).message ≡ Kind.Prune height }
        requires unasked { IsUnasked (M.plain item).message (M.plain item) }
        ensures { self.new ≡ joined self.old (M.plain item) }
    {
        if covers(&self.prune, height) {
            return;
        }
        self.others.drop_stale(height);
        self.prune = Some(item);
    }

    // A hint joins that of its height, or waits.
    fn add_hint(&mut self, item: M, height: u64) -> Result<(), M>
        requires kind { kind_of (M.plain item).message ≡ Kind.Hint height }
        ensures ok { OnOk result (self.new ≡ joined self.old (M.plain item)) }
        ensures same { OnErr result (self.new ≡ self.old) }
        ensures back { IfErr result (λ back. back ≡ item) }
    {
        if covers(&self.prune, height) {
            return Ok(());
        }
        self.others.add_hint(item, height)
    }

    // Any other waits behind the others, unless the prune that waits drops it.
    fn add_other(&mut self, item: M) -> Result<(), M>
        requires { is_other (kind_of (M.plain item).message) ≡ true }
        ensures ok { OnOk result (self.new ≡ joined self.old (M.plain item)) }
        ensures same { OnErr result (self.new ≡ self.old) }
        ensures back { IfErr result (λ back. back ≡ item) }
    {
        if is_stale_by(&self.prune, &item) {
            return Ok(());
        }
        self.others.push(item)
    }
}

impl<M: Letter> Overflow<M> for Backlog<M> {
    ghost use Rattle.std.specs.Prelude.{option_map, ◌≡◌};
    ghost use Rattle.mar_inbox.specs.Policy.{joined, next_waiting, nothing_waits};

    ghost is_empty = { λ b. nothing_waits b };

    ghost takes_in = { λ b item after. after ≡ joined b (M.plain item) };

    ghost gives = { λ b given after. next_waiting b ≡ (option_map M.plain given, after) };

    fn is_empty(&self) -> bool {
        self.floor.is_none() && (self.prune.is_none() && self.others.len() == 0)
    }

    fn add(&mut self, item: M) -> Result<(), M> {
        match item.kind() {
            Kind::Floor(round) => {
                self.add_floor(item, round);
                Ok(())
            }
            Kind::Prune(height) => {
                self.add_prune(item, height);
                Ok(())
            }
            Kind::Hint(height) => self.add_hint(item, height),
            Kind::Read(_) => self.add_other(item),
            Kind::Close(_) => self.add_other(item),
            Kind::Other => self.add_other(item),
        }
    }

    fn next(&mut self) -> Option<M> {
        if let Some(floor) = self.floor.take() {
            return Some(floor);
        }
        if let Some(prune) = self.prune.take() {
            return Some(prune);
        }
        next_open(&mut self.others, &self.closed)
    }
}

// The first message that waits for no closed ticket. Those before it are dropped.
fn next_open<M: Letter>(others: &mut Others<M>, closed: &BTreeSet<u64>) -> Option<M>
    ensures { next_kept (λ q. not (is_closed closed.now.keys q)) others.old ≡ (option_map M.plain result, others.new) }
{
    while let Some(message) = others.pop_first() {
        if !is_closed(&message, closed) {
            return Some(message);
        }
    }
    None
}

// Whether the message waits for a ticket that is closed.
fn is_closed<M: Letter>(message: &M, closed: &BTreeSet<u64>) -> bool
    ensures { result ≡ is_closed closed.now.keys (M.plain message.now) }
{
    match message.waits_for() {
        Some(ticket) => closed.contains(&ticket),
        None => false,
    }
}

// Whether a floor of this round takes the place of this one.
fn is_later<M: Letter>(floor: &Option<M>, round: Round) -> bool
    requires { IsFloor (option_map M.plain floor.now) }
    ensures { result ≡ is_later (floor_of (option_map M.plain floor.now)) round }
{
    match floor {
        Some(floor) => match floor.kind() {
            Kind::Floor(earlier) => is_earlier(earlier, round),
            _ => true,
        },
        None => true,
    }
}

// Whether one round comes before another.
fn is_earlier(one: Round, other: Round) -> bool
    ensures { result ≡ not (round_le other one) }
{
    let (epoch, view) = (one.epoch().get(), one.view().get());
    let (later_epoch, later_view) = (other.epoch().get(), other.view().get());
    epoch < later_epoch || (epoch == later_epoch && view < later_view)
}

// The height of the prune that waits.
fn prune_height<M: Letter>(prune: &Option<M>) -> Option<u64>
    requires { IsPrune (option_map M.plain prune.now) }
    ensures { result ≡ prune_of (option_map M.plain prune.now) }
{
    match prune {
        Some(prune) => match prune.kind() {
            Kind::Prune(height) => Some(height),
            _ => None,
        },
        None => None,
    }
}

// Whether the prune that waits covers one of this height.
fn covers<M: Letter>(prune: &Option<M>, height: u64) -> bool
    requires { IsPrune (option_map M.plain prune.now) }
    ensures { result ≡ covers_prune (prune_of (option_map M.plain prune.now)) height }
{
    match prune_height(prune) {
        Some(prune) => height <= prune,
        None => false,
    }
}

// Whether the prune that waits drops a message.
fn is_stale_by<M: Letter>(prune: &Option<M>, item: &M) -> bool
    requires { IsPrune (option_map M.plain prune.now) }
    ensures { result ≡ stale_by (prune_of (option_map M.plain prune.now)) (M.plain item.now).message }
{
    match prune_height(prune) {
        Some(prune) => is_stale(item, prune),
        None => false,
    }
}
