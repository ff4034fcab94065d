//! A life: a node and a ledger are opened over what an earlier life left, and the node is given one event after another.
ghost use Rattle.std.specs.Prelude.{◌≡◌};
ghost use Rattle.std.proofs.Props.{props};
ghost use Rattle.mar_actor.specs.Views.{event_of};
ghost use Rattle.mar_model.specs.Promise.{IsSmallEvent};
ghost use Rattle.mar_model.specs.Stored.{AreSmall};

use crate::chain::{Block, genesis};
use crate::closed::Why;
use crate::service::{Lived, Service};
use mar_actor::{Config, Event, Holds, HoldsNotarizations, Node, Start};
use mar_block::{MemBuffer, StandardBlocks, Variant};
use mar_cert::{MockProvider, MockScheme};
use mar_inbox::{AnswerTable, Value};
use mar_key::Recorder;
use mar_store::MemMetaWreck;
use mar_types::{Epoch, FixedEpocher, Sha256Digest, ViewDelta};
use std::alloc::Global;
use std::num::NonZeroU64;

/// A node over some stores.
type Member<S> = Node<StandardBlocks, S, MockProvider, FixedEpocher>;

/// What a life leaves of the node's stores and of the ledger's.
#[derive(Drop)]
pub(crate) struct Left<R> {
    pub(crate) node: R,
    pub(crate) ledger: MemMetaWreck,
}

/// Why a life ended, and what it leaves.
#[derive(Drop)]
pub(crate) struct End<R> {
    pub(crate) why: Why,
    pub(crate) left: Left<R>,
}

/// A node that runs, and the service behind it.
#[derive(Drop)]
pub(crate) struct Living<S: HoldsNotarizations<StandardBlocks>> {
    pub(crate) node: Member<S>,
    pub(crate) service: Service,
}

/// A life so far: it runs, or why it ended and what it leaves.
pub(crate) type Life<S> = Result<Living<S>, End<<S as Holds<StandardBlocks>>::Ruins>>;

/// What a node speaks to beside the service: those who ask, the blocks that are at hand, each small enough for a store,
/// and the peers; and where memory comes from.
#[derive(Drop)]
pub(crate) struct Around<F> {
    pub(crate) alloc: Global,
    pub(crate) answers: AnswerTable<Value<Sha256Digest, Block, F>>,
    pub(crate) buffer: MemBuffer<StandardBlocks>,
    pub(crate) peers: Recorder<Sha256Digest>,
    ghost small_blocks: { AreSmall buffer.blocks } by { Prim.hlevel props },
}

impl<F: Drop> Around<F> {
    /// With these blocks at hand; nobody has asked for anything yet.
    pub(crate) fn new(alloc: Global, buffer: MemBuffer<StandardBlocks>) -> Self
        requires { AreSmall buffer.blocks }
    {
        Around {
            alloc,
            answers: AnswerTable::new(alloc),
            buffer,
            peers: Recorder::new(alloc),
        }
    }
}

// Four members, epochs of ten heights, and at most two blocks that wait for their acknowledgement.
fn config(genesis: Block) -> Config<MockProvider, FixedEpocher, Block, ()>
    ensures { result.start ≡ Start.Genesis genesis }
{
    Config {
        provider: MockProvider::new(MockScheme::new(4), Epoch::zero(), Epoch::new(100)),
        epocher: FixedEpocher::new(NonZeroU64::new(10).unwrap()),
        start: Start::Genesis(genesis),
        mailbox_size: 8,
        view_retention: ViewDelta::new(5),
        block_codec_config: (),
        max_repair: 4,
        max_pending_acks: 2,
    }
}

// The end of a life whose node or whose service can't go on.
fn end_of<R>(why: Why, node: R, ledger: MemMetaWreck) -> End<R> {
    End {
        why,
        left: Left { node, ledger },
    }
}

/// Opens the service and a node over what is left of their stores, and starts the node: what isn't acknowledged is handed
/// over again.
pub(crate) fn begun<S: HoldsNotarizations<StandardBlocks>>(
    left: Left<S::Ruins>,
    around: &mut Around<S::Finalization>,
) -> Life<S> {
    match Service::open(around.alloc, left.ledger) {
        Ok(service) => begun_with::<S>(left.node, service, around),
        Err(closed) => Err(end_of(closed.why, left.node, closed.left)),
    }
}

// The same where the service is open.
fn begun_with<S: HoldsNotarizations<StandardBlocks>>(
    left: S::Ruins,
    service: Service,
    around: &mut Around<S::Finalization>,
) -> Life<S> {
    let alloc = around.alloc;
    let Some(genesis) = genesis(alloc) else {
        return Err(end_of(Why::Memory, left, service.wreck().1));
    };
    match Member::<S>::init(alloc, left, config(genesis), 0) {
        Ok((node, _floor)) => step::<S>(Ok(Living { node, service }), Event::Start, around),
        Err(ended) => Err(end_of(Why::Node(ended.fault), ended.ruins, service.wreck().1)),
    }
}

/// Gives a node one event, and has the service enter what the node handed over. A life that has ended stays as it is.
pub(crate) fn step<S: HoldsNotarizations<StandardBlocks>>(
    life: Life<S>,
    event: Event<Sha256Digest, Block, S::Notarization, S::Finalization>,
    around: &mut Around<S::Finalization>,
) -> Life<S>
    requires small_event { IsSmallEvent (event_of (λ d. d.bytes) ⟦<StandardBlocks as Variant>⟧.plain S.Notarization.plain S.Finalization.plain event) }
{
    let Living { node, mut service } = life?;
    let Around {
        alloc,
        answers,
        buffer,
        peers,
    } = around;
    match node.step(*alloc, event, answers, buffer, peers, &mut service) {
        Ok(node) => entered::<S>(*alloc, node, service),
        Err(ended) => Err(end_of(Why::Node(ended.fault), ended.ruins, service.wreck().1)),
    }
}

// A life in which the service has entered all that was handed over.
fn entered<S: HoldsNotarizations<StandardBlocks>>(
    alloc: Global,
    node: Member<S>,
    service: Service,
) -> Life<S> {
    match service.enter_all(alloc) {
        Ok(service) => Ok(Living { node, service }),
        Err(closed) => Err(end_of(closed.why, node.wreck(), closed.left)),
    }
}

/// Acknowledges the oldest block that the ledger has and that wasn't acknowledged yet, where there is one.
pub(crate) fn acknowledged<S: HoldsNotarizations<StandardBlocks>>(
    life: Life<S>,
    around: &mut Around<S::Finalization>,
) -> Life<S> {
    let mut living = life?;
    match living.service.next_acknowledged() {
        Some(block) => step::<S>(Ok(living), Event::from(block.acknowledgement), around),
        None => Ok(living),
    }
}

/// Ends a life by a crash: what it was for the service, and what it leaves.
pub(crate) fn crashed<S: HoldsNotarizations<StandardBlocks>>(
    living: Living<S>,
) -> (Lived, Left<S::Ruins>) {
    let (lived, ledger) = living.service.wreck();
    let node = living.node.wreck();
    (lived, Left { node, ledger })
}
