//! What one line of a script makes of a node.
ghost use Rattle.std.specs.Prelude.{◌≡◌, ◌↔◌, ◌+◌, ◌-◌, ◌<◌, ◌^◌, [], IsTrue, List, Ok, OnErr, OnOk, Some, false, map, true};
ghost use Rattle.mar_key.specs.Asked.{Asked, asked_after};
ghost use Rattle.mar_key.specs.Recorded.{ask_of};
ghost use Rattle.mar_model.specs.Config.{Config as PlainConfig};
ghost use Rattle.mar_model.specs.Faults.{from_genesis, want_of_memory};
ghost use Rattle.mar_model.specs.Held.{remains_of};
ghost use Rattle.mar_model.specs.Promise.{IsSmallEvent};
ghost use Rattle.mar_model.specs.Step.{nothing_made};
ghost use Rattle.mar_model.specs.Stored.{AreSmall};
ghost use Rattle.mar_store.specs.Sizes.{IsSmall};
ghost use Rattle.mar_script.specs.Plays.{IsSmallLine};
ghost use Rattle.mar_actor.specs.Views.{begin_of, event_of, sizes_of};
ghost use Rattle.mar_model.specs.Views.{store_name_of};
ghost use Rattle.mar_script.specs.Lines.{plain_block, plain_finalization, plain_line, plain_message};
ghost use Rattle.mar_replay.specs.Playing.{HasSmallBlocks, PlaysLine, PlaysOrNot, TakesEvent};
ghost use Rattle.mar_script.specs.Shown.{plain_fault};
ghost use Rattle.mar_script.specs.Script.{IsSettings, ack_line, buffer_line, config_of, drop_line, fail_line, open_line, sync_line, tell_line};
ghost use Rattle.mar_replay.specs.Turn.{fault_in, made_in, open_in, output_of, with_open};

use crate::heard::Heard;
use mar_actor::{Config, Ended, Event, Fault, Node, Start, StoreName};
use mar_block::{EmptyBlock, MemBuffer, StandardBlocks};
use mar_cert::{MockFinalization, MockProvider, MockScheme};
use mar_key::{Ask, OpenRequests};
use mar_model::{HoldsNotarizations, StoresRuin};
use mar_script::{Line, RemarkShown, ScriptMessage, Settings, set_ticket};
use mar_types::{Digested, Epoch, FixedEpocher, Sha256, Sha256Digest, ViewDelta};
use std::alloc::{AllocError, Global};
use std::marker::Model;
use std::num::NonZeroU64;

/// The stores of a script's node: of the program's blocks, of which a notarization is of the type of a finalization.
pub trait ScriptHolds: HoldsNotarizations<
    StandardBlocks,
    Finalization = MockFinalization,
    Notarization = MockFinalization,
> {}

impl<H> ScriptHolds for H
where
    H: HoldsNotarizations<
        StandardBlocks,
        Finalization = MockFinalization,
        Notarization = MockFinalization,
    >,
{}

/// The node that a script drives, over stores of the kind `H`.
pub type ScriptNode<H> = Node<StandardBlocks, H, MockProvider, FixedEpocher>;

/// What is left of the stores of a node.
#[derive(Drop)]
pub struct Left<H: ScriptHolds> {
    /// What the next opening is given.
    pub ruins: H::Ruins,
}

impl<H: ScriptHolds> Model for Left<H> {
    ghost use Rattle.mar_model.specs.Held.{Remains};

    ghost Value = { Remains };

    ghost view = { λ l. H.Ruins.left l.ruins };
}

/// What is pending beside a node while its life runs: the requests that are open with its resolver, and the ticket of the
/// next caller that asks.
#[derive(Drop)]
pub struct Pending {
    pub requests: OpenRequests<Sha256Digest>,
    pub next_answer: u64,
}

impl Pending {
    // What is pending behind a message that took the next answer ticket, or none.
    fn behind(self, took: bool) -> Pending
        ensures requests { result.requests ≡ self.requests }
        ensures kept { took ≡ false → result.next_answer ≡ self.next_answer }
        ensures taken { took ≡ true → self.next_answer < 2 ^ 64 - 1 → result.next_answer ≡ self.next_answer + 1 }
    {
        let Pending {
            requests,
            next_answer,
        } = self;
        if took {
            Pending {
                requests,
                next_answer: next_answer.saturating_add(1),
            }
        } else {
            Pending {
                requests,
                next_answer,
            }
        }
    }
}

/// A node while a life runs, with the blocks that its buffer has and what is pending; else what is left of its stores, and
/// the luck of the next opening.
#[derive(Drop)]
pub enum State<H: ScriptHolds> {
    Running(ScriptNode<H>, MemBuffer<StandardBlocks>, Pending),
    Stopped(Left<H>, u64),
}

impl<H: ScriptHolds> State<H> {
    /// Takes in what a line asked among what is open. Where memory runs out, a first part of it is taken in.
    pub fn take_in(&mut self, asks: &[Ask<Sha256Digest>]) -> Result<(), AllocError>
        ensures ok { OnOk result (self.new ≡ with_open (asked_after (open_in self.old) [] (map (ask_of (λ digest. digest.bytes)) asks.now)) self.old) }
        ensures err { OnErr result ((opened : List Asked) × (self.new ≡ with_open opened self.old)) }
    {
        match self {
            State::Running(_, _, pending) => pending.requests.settle(&[], asks),
            State::Stopped(_, _) => Ok(()),
        }
    }
}

/// What a line did, beside what the node told, asked, sent and answered.
#[derive(Clone, Copy)]
pub enum Outcome {
    /// The line was done.
    Done,
    /// The line did nothing, for this reason.
    Remark(RemarkShown),
    /// The life ended.
    Fault(Fault<Sha256Digest>),
}

impl Outcome {
    /// Whether the life ended for want of memory.
    pub fn ran_out(&self) -> bool
        ensures { IsTrue result ↔ (fault_in self.now ≡ Some want_of_memory) }
    {
        match self {
            Outcome::Fault(Fault::Memory) => true,
            Outcome::Fault(_) | Outcome::Done | Outcome::Remark(_) => false,
        }
    }
}

/// Does one line, or answers that memory ran out before anything was done.
pub fn play<H: ScriptHolds>(
    alloc: Global,
    settings: Settings,
    state: State<H>,
    line: Line,
    heard: &mut Heard,
) -> (State<H>, Result<Outcome, AllocError>)
    requires settings { IsSettings settings }
    requires small_line { IsSmallLine (plain_line line) }
    requires small { HasSmallBlocks state }
    requires silent { made_in heard.old ≡ nothing_made }
    ensures { PlaysOrNot (config_of settings) state (plain_line line) (made_in heard.new) result.0 result.1 }
{
    match state {
        State::Running(actor, buffer, pending) => play_running(
            alloc, actor, buffer, pending, line, heard,
        ),
        State::Stopped(left, luck) => play_stopped(alloc, settings, left, luck, line, heard),
    }
}

// Does one line where no life runs.
fn play_stopped<H: ScriptHolds>(
    alloc: Global,
    settings: Settings,
    left: Left<H>,
    luck: u64,
    line: Line,
    heard: &mut Heard,
) -> (State<H>, Result<Outcome, AllocError>)
    requires settings { IsSettings settings }
    requires small_line { IsSmallLine (plain_line line) }
    requires silent { made_in heard.old ≡ nothing_made }
    ensures { PlaysOrNot (config_of settings) (State.Stopped left luck) (plain_line line) (made_in heard.new) result.0 result.1 }
{
    match line {
        Line::OpenGenesis(genesis) => {
            let (state, outcome) = open(alloc, settings, left, luck, genesis, heard);
            (state, Ok(outcome))
        }
        Line::Fail(store, calls) => arm_left(left, luck, store, calls),
        Line::Crash(next) => (State::Stopped(left, next), Ok(Outcome::Done)),
        Line::Buffer(_block) => pass(left, luck),
        Line::Tell(_message) => pass(left, luck),
        Line::Sync(_ticket) => pass(left, luck),
        Line::Ack(_ticket) => pass(left, luck),
        Line::Drop(_ticket) => pass(left, luck),
    }
}

// Does nothing, where no life runs.
fn pass<H: ScriptHolds>(left: Left<H>, luck: u64) -> (State<H>, Result<Outcome, AllocError>)
    ensures state { result.0 ≡ State.Stopped left luck }
    ensures outcome { result.1 ≡ Ok (Outcome.Remark RemarkShown.Stopped) }
{
    let remark = Outcome::Remark(RemarkShown::Stopped);
    (State::Stopped(left, luck), Ok(remark))
}

// Makes a call of a store that is left fail, so many calls away.
fn arm_left<H: ScriptHolds>(
    left: Left<H>,
    luck: u64,
    store: StoreName,
    calls: u64,
) -> (State<H>, Result<Outcome, AllocError>)
    ensures { (config : PlainConfig) → PlaysOrNot config (State.Stopped left luck) (fail_line (store_name_of store) calls) nothing_made result.0 result.1 }
{
    let mut left = left;
    if let Err(error) = left.ruins.arm(store, calls) {
        return (State::Stopped(left, luck), Err(error));
    }
    (State::Stopped(left, luck), Ok(Outcome::Done))
}

// Does one line while a life runs.
fn play_running<H: ScriptHolds>(
    alloc: Global,
    actor: ScriptNode<H>,
    buffer: MemBuffer<StandardBlocks>,
    pending: Pending,
    line: Line,
    heard: &mut Heard,
) -> (State<H>, Result<Outcome, AllocError>)
    requires small_line { IsSmallLine (plain_line line) }
    requires small { AreSmall buffer.blocks }
    requires silent { made_in heard.old ≡ nothing_made }
    ensures { (config : PlainConfig) → PlaysOrNot config (State.Running actor buffer pending) (plain_line line) (made_in heard.new) result.0 result.1 }
{
    match line {
        Line::OpenGenesis(_genesis) => (
            State::Running(actor, buffer, pending),
            Ok(Outcome::Remark(RemarkShown::Running)),
        ),
        Line::Buffer(block) => put(actor, buffer, pending, block),
        Line::Tell(message) => tell(alloc, actor, buffer, pending, message, heard),
        Line::Sync(ticket) => finish_sync(alloc, actor, buffer, pending, ticket, heard),
        Line::Ack(ticket) => acknowledge(alloc, actor, buffer, pending, ticket, heard),
        Line::Drop(ticket) => drop_ack(alloc, actor, buffer, pending, ticket, heard),
        Line::Fail(store, calls) => arm(actor, buffer, pending, store, calls),
        Line::Crash(luck) => (crash(actor, buffer, pending, luck), Ok(Outcome::Done)),
    }
}

// Ends the life at once, and its buffer with it; the next opening has this luck.
fn crash<H: ScriptHolds>(
    actor: ScriptNode<H>,
    _buffer: MemBuffer<StandardBlocks>,
    _pending: Pending,
    luck: u64,
) -> State<H>
    ensures { result ≡ State.Stopped (remains_of actor.held) luck }
{
    let ruins = actor.wreck();
    State::Stopped(Left { ruins }, luck)
}

// Makes a call of a store fail, so many calls away.
fn arm<H: ScriptHolds>(
    actor: ScriptNode<H>,
    buffer: MemBuffer<StandardBlocks>,
    pending: Pending,
    store: StoreName,
    calls: u64,
) -> (State<H>, Result<Outcome, AllocError>)
    ensures { (config : PlainConfig) → PlaysOrNot config (State.Running actor buffer pending) (fail_line (store_name_of store) calls)
        nothing_made result.0 result.1 }
{
    let mut actor = actor;
    if let Err(error) = actor.arm(store, calls) {
        return (State::Running(actor, buffer, pending), Err(error));
    }
    (State::Running(actor, buffer, pending), Ok(Outcome::Done))
}

// Puts a block into the buffer.
fn put<H: ScriptHolds>(
    actor: ScriptNode<H>,
    buffer: MemBuffer<StandardBlocks>,
    pending: Pending,
    block: Digested<EmptyBlock<Sha256>>,
) -> (State<H>, Result<Outcome, AllocError>)
    ensures { (config : PlainConfig) → PlaysOrNot config (State.Running actor buffer pending) (buffer_line (plain_block block)) nothing_made result.0 result.1 }
{
    let mut buffer = buffer;
    match buffer.put(block) {
        Ok(()) => (State::Running(actor, buffer, pending), Ok(Outcome::Done)),
        Err(error) => (State::Running(actor, buffer, pending), Err(error)),
    }
}

// Tells the node a message, under the next answer ticket where it takes one.
fn tell<H: ScriptHolds>(
    alloc: Global,
    actor: ScriptNode<H>,
    buffer: MemBuffer<StandardBlocks>,
    pending: Pending,
    message: ScriptMessage,
    heard: &mut Heard,
) -> (State<H>, Result<Outcome, AllocError>)
    requires small_line { IsSmallLine (tell_line (plain_message message)) }
    requires small { AreSmall buffer.blocks }
    requires silent { made_in heard.old ≡ nothing_made }
    ensures { (config : PlainConfig) → PlaysOrNot config (State.Running actor buffer pending)
        (tell_line (plain_message message)) (made_in heard.new) result.0 result.1 }
{
    let mut message = message;
    set_ticket(&mut message, pending.next_answer);
    let pending = pending.behind(message.ticket().is_some());
    let (state, outcome) = step(
        alloc,
        actor,
        buffer,
        pending,
        Event::Message(message),
        heard,
    );
    (state, Ok(outcome))
}

// Gives the acknowledgement of this ticket, where it is owed.
fn acknowledge<H: ScriptHolds>(
    alloc: Global,
    actor: ScriptNode<H>,
    buffer: MemBuffer<StandardBlocks>,
    pending: Pending,
    ticket: u64,
    heard: &mut Heard,
) -> (State<H>, Result<Outcome, AllocError>)
    requires small { AreSmall buffer.blocks }
    requires silent { made_in heard.old ≡ nothing_made }
    ensures { (config : PlainConfig) → PlaysOrNot config (State.Running actor buffer pending) (ack_line ticket) (made_in heard.new) result.0 result.1 }
{
    if !actor.owes_ack(ticket) {
        let remark = Outcome::Remark(RemarkShown::Ignored);
        return (State::Running(actor, buffer, pending), Ok(remark));
    }
    let (state, outcome) = step(alloc, actor, buffer, pending, Event::Ack(ticket), heard);
    (state, Ok(outcome))
}

// Drops the acknowledgement of this ticket, where it is owed.
fn drop_ack<H: ScriptHolds>(
    alloc: Global,
    actor: ScriptNode<H>,
    buffer: MemBuffer<StandardBlocks>,
    pending: Pending,
    ticket: u64,
    heard: &mut Heard,
) -> (State<H>, Result<Outcome, AllocError>)
    requires small { AreSmall buffer.blocks }
    requires silent { made_in heard.old ≡ nothing_made }
    ensures { (config : PlainConfig) → PlaysOrNot config (State.Running actor buffer pending) (drop_line ticket) (made_in heard.new) result.0 result.1 }
{
    if !actor.owes_ack(ticket) {
        let remark = Outcome::Remark(RemarkShown::Ignored);
        return (State::Running(actor, buffer, pending), Ok(remark));
    }
    let (state, outcome) = step(alloc, actor, buffer, pending, Event::Dropped(ticket), heard);
    (state, Ok(outcome))
}

// Lets the sync of this ticket finish, where the node awaits it.
fn finish_sync<H: ScriptHolds>(
    alloc: Global,
    actor: ScriptNode<H>,
    buffer: MemBuffer<StandardBlocks>,
    pending: Pending,
    ticket: u64,
    heard: &mut Heard,
) -> (State<H>, Result<Outcome, AllocError>)
    requires small { AreSmall buffer.blocks }
    requires silent { made_in heard.old ≡ nothing_made }
    ensures { (config : PlainConfig) → PlaysOrNot config (State.Running actor buffer pending) (sync_line ticket) (made_in heard.new) result.0 result.1 }
{
    if !actor.awaits_sync(ticket) {
        let remark = Outcome::Remark(RemarkShown::Ignored);
        return (State::Running(actor, buffer, pending), Ok(remark));
    }
    let (state, outcome) = step(alloc, actor, buffer, pending, Event::Sync(ticket), heard);
    (state, Ok(outcome))
}

// Takes one event.
fn step<H: ScriptHolds>(
    alloc: Global,
    actor: ScriptNode<H>,
    buffer: MemBuffer<StandardBlocks>,
    pending: Pending,
    event: Event<Sha256Digest, Digested<EmptyBlock<Sha256>>, MockFinalization, MockFinalization>,
    heard: &mut Heard,
) -> (State<H>, Outcome)
    requires small_event { IsSmallEvent (event_of (λ digest. digest.bytes) plain_block plain_finalization plain_finalization event) }
    requires small { AreSmall buffer.blocks }
    requires silent { made_in heard.old ≡ nothing_made }
    ensures { TakesEvent actor buffer pending
        (event_of (λ digest. digest.bytes) plain_block plain_finalization plain_finalization event)
        (made_in heard.new) result.0 result.1 }
{
    let mut buffer = buffer;
    // What earlier lines sent was told with them.
    let _earlier = buffer.take_sent(alloc);
    let stepped = actor.step(
        alloc,
        event,
        &mut heard.answers,
        &mut buffer,
        &mut heard.asked,
        &mut heard.told,
    );
    // A block that was proposed may have been sent where the life then ended.
    heard.sent = buffer.take_sent(alloc);
    match stepped {
        Ok(actor) => (State::Running(actor, buffer, pending), Outcome::Done),
        Err(ended) => {
            let (fault, left) = parts_of(ended);
            (State::Stopped(left, 0), Outcome::Fault(fault))
        }
    }
}

// Why a life ended, and what is left of its stores.
fn parts_of<H: ScriptHolds>(ended: Ended<StandardBlocks, H>) -> (Fault<Sha256Digest>, Left<H>)
    ensures { ended ≡ record { fault = plain_fault result.0; remains = result.1 } }
{
    let Ended { fault, ruins } = ended;
    (fault, Left { ruins })
}

// Opens a life over what is left of stores, from this block.
fn open<H: ScriptHolds>(
    alloc: Global,
    settings: Settings,
    left: Left<H>,
    luck: u64,
    genesis: Digested<EmptyBlock<Sha256>>,
    heard: &mut Heard,
) -> (State<H>, Outcome)
    requires settings { IsSettings settings }
    requires small { IsSmall (plain_block genesis).encoded }
    requires silent { made_in heard.old ≡ nothing_made }
    ensures { PlaysLine (config_of settings) (State.Stopped left luck) (open_line (from_genesis (plain_block genesis)))
        (output_of (made_in heard.new) result.1) result.0 }
{
    match Node::init(alloc, left.ruins, setup(settings, genesis), luck) {
        Ok((actor, _floor)) => {
            let (buffer, requests) = (MemBuffer::new(alloc), OpenRequests::new(alloc));
            let pending = Pending {
                requests,
                next_answer: 0,
            };
            step(alloc, actor, buffer, pending, Event::Start, heard)
        }
        Err(ended) => {
            let (fault, left) = parts_of(ended);
            (State::Stopped(left, 0), Outcome::Fault(fault))
        }
    }
}

// What these settings ask of the actor.
fn setup(
    settings: Settings,
    genesis: Digested<EmptyBlock<Sha256>>,
) -> Config<MockProvider, FixedEpocher, Digested<EmptyBlock<Sha256>>, ()>
    requires { IsSettings settings }
    ensures start { begin_of plain_block result.start ≡ from_genesis (plain_block genesis) }
    ensures epochs { result.epocher.length ≡ settings.epoch_length }
    ensures provider { result.provider ≡ record { members = settings.members; first = settings.first_epoch; last = settings.last_epoch } }
    ensures sizes { sizes_of result ≡ record {
      window = settings.window;
      max_repair = settings.max_repair;
      retention = settings.retention;
      capacity
          = settings.capacity;
    } }
{
    let scheme = MockScheme::new(settings.members as u32);
    let first = Epoch::new(settings.first_epoch);
    let last = Epoch::new(settings.last_epoch);
    Config {
        provider: MockProvider::new(scheme, first, last),
        epocher: FixedEpocher::new(NonZeroU64::new(settings.epoch_length).unwrap()),
        start: Start::Genesis(genesis),
        mailbox_size: settings.capacity as usize,
        view_retention: ViewDelta::new(settings.retention),
        block_codec_config: (),
        max_repair: settings.max_repair as usize,
        max_pending_acks: settings.window as usize,
    }
}
