//! The service: it enters the blocks that it is handed in a ledger, and acknowledges only blocks that the ledger has.
ghost use Rattle.std.specs.Prelude.{◌≡◌, ◌∷◌, [], All, IfOk, IfSome, sum};
ghost use Rattle.std.proofs.Props.{props};
ghost use Rattle.mar_ledger.specs.Ledger.{AreLedgers};
ghost use Rattle.mar_ledger.specs.Books.{all_money};
ghost use Rattle.mar_example.specs.Entered.{Enters, Has};

use crate::chain::Block;
use crate::closed::{Closed, Why};
use mar_actor::{Exact, Reporter, Update};
use mar_block::StandardBlocks;
use mar_ledger::{Applied, Ledger, OpenEnd};
use mar_store::{MemMeta, MemMetaWreck, MetaRuin};
use mar_types::{Height, Sha256Digest};
use std::alloc::{AllocError, Global};

/// A block that the ledger has: its height, the acknowledgement that is owed for it, and what became of it.
#[derive(Clone, Copy)]
pub(crate) struct Entered {
    pub(crate) height: Height,
    pub(crate) acknowledgement: Exact,
    pub(crate) how: Applied,
}

// A block that was handed over, and the acknowledgement that is owed for it.
#[derive(Drop)]
struct Handed {
    block: Block,
    acknowledgement: Exact,
}

/// The service in a life. Its ledger is durable after each call, and outlives a crash; all else is gone with the life. The
/// ledger's store is in memory here; in a service of one's own it stands on a disk.
#[derive(Drop)]
pub(crate) struct Service {
    ledger: Ledger<MemMeta>,
    // The height at which the ledger was opened.
    found: Option<Height>,
    // What was handed over and isn't in the ledger yet, in order.
    waiting: Vec<Handed>,
    // The blocks that the ledger has of those that were handed over, in order.
    entered: Vec<Entered>,
    // How many of these were acknowledged.
    acknowledged: usize,
    ghost has: { All (λ e. Has ledger.ledger e.height) entered.items } by { Prim.hlevel props },
}

/// What a life of the service was: the height at which its ledger was opened, the blocks that were entered, and the
/// ledger's balances and rejected transfers in the end.
#[derive(Drop)]
pub(crate) struct Lived {
    pub(crate) found: Option<Height>,
    pub(crate) entered: Vec<Entered>,
    pub(crate) balances: [u64; 16],
    pub(crate) rejected: u64,
    ghost whole: { sum balances ≡ all_money },
}

impl Service {
    /// Opens the ledger that a store has.
    pub(crate) fn open(alloc: Global, left: MemMetaWreck) -> Result<Self, Closed> {
        match Ledger::open(alloc, left, 0) {
            Ok(ledger) => Ok(Service {
                found: ledger.height(),
                ledger,
                waiting: Vec::new(alloc),
                entered: Vec::new(alloc),
                acknowledged: 0,
            }),
            Err(OpenEnd::Foreign(left)) => Err(Closed::new(Why::Foreign, left)),
            Err(OpenEnd::Store(lost)) => Err(Closed::of(lost)),
        }
    }

    /// Enters all blocks that wait, in order, each with one sync of the ledger's store. One that the ledger has already
    /// changes nothing.
    pub(crate) fn enter_all(self, alloc: Global) -> Result<Self, Closed> {
        let Service {
            ledger,
            found,
            waiting,
            entered,
            acknowledged,
        } = self;
        let mut service = Service {
            ledger,
            found,
            waiting: Vec::new(alloc),
            entered,
            acknowledged,
        };
        for handed in waiting {
            match service.enter(alloc, handed) {
                Ok(after) => service = after,
                Err(closed) => return Err(closed),
            }
        }
        Ok(service)
    }

    // Enters a block. From then on its acknowledgement may be given.
    fn enter(self, alloc: Global, handed: Handed) -> Result<Self, Closed>
        ensures { IfOk result (λ s. Enters self.ledger.ledger handed.block.height handed.block.timestamp s.ledger.ledger) }
    {
        let Service {
            ledger,
            found,
            waiting,
            mut entered,
            acknowledged,
        } = self;
        let Handed {
            block,
            acknowledgement,
        } = handed;
        let block = block.inner();
        let (ledger, how) = match ledger.deliver(alloc, block) {
            Ok(delivered) => delivered,
            Err(end) => return Err(Closed::by(end)),
        };
        let block = Entered {
            height: block.height,
            acknowledgement,
            how,
        };
        match entered.push(block) {
            Ok(()) => Ok(Service {
                ledger,
                found,
                waiting,
                entered,
                acknowledged,
            }),
            Err(_) => Err(Closed::new(Why::Memory, ledger.wreck())),
        }
    }

    /// The oldest block that wasn't acknowledged yet of those that were handed over and that the ledger has.
    pub(crate) fn next_acknowledged(&mut self) -> Option<Entered>
        ensures { IfSome result (λ e. Has self.new.ledger.ledger e.height) }
    {
        let next = self.entered.get(self.acknowledged).copied();
        self.acknowledged = self.acknowledged.saturating_add(1);
        next
    }

    /// Ends the life of the service as a crash would: what it was, and what is left of the ledger's store.
    pub(crate) fn wreck(self) -> (Lived, MemMetaWreck)
        ensures left { AreLedgers (⟦<MemMetaWreck as MetaRuin>⟧.left result.1) (self.ledger.ledger ∷ []) }
        ensures told { result.0.balances ≡ self.ledger.ledger.books.balances }
    {
        let Service {
            ledger,
            found,
            entered,
            ..
        } = self;
        let lived = Lived {
            found,
            entered,
            balances: ledger.balances(),
            rejected: ledger.rejected(),
        };
        (lived, ledger.wreck())
    }
}

impl Reporter<StandardBlocks> for Service {
    ghost use Rattle.std.specs.Prelude.{⊤, None, OnErr, OnOk};

    // It tells no clause what it was told.
    ghost told = { λ _. None };

    fn report(&mut self, update: Update<Sha256Digest, Block>) -> Result<(), AllocError>
        ensures ok { OnOk result ⊤ }
        ensures err { OnErr result ⊤ }
    {
        if let Update::Block(block, acknowledgement) = update {
            self.waiting.push(Handed {
                block,
                acknowledgement,
            })?;
        }
        Ok(())
    }
}
