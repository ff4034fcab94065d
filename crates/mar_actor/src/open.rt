//! Opening the stores of a node that begins.
ghost use Rattle.std.specs.Prelude.{◌≡◌, ◌⊎◌, [], IfErr, IfOk, true};
ghost use Rattle.mar_model.specs.Held.{ArePassed, IsEndedBy, IsUsual, picks_of};
ghost use Rattle.mar_cert.specs.Block.{Block};
ghost use Rattle.mar_model.specs.Faults.{from_genesis};
ghost use Rattle.mar_model.specs.Lives.{IsOpeningFault};
ghost use Rattle.mar_model.specs.Promise.{IsFound, IsSmallBegin, KeepsOpening};
ghost use Rattle.mar_actor.specs.Views.{begin_of, sizes_of};
ghost use Rattle.mar_opening.specs.Opened.{FailsToOpen};

use crate::node::Node;
use crate::settings::{Beginning, Config};
use mar_block::Variant;
use mar_key::Floor;
use mar_model::{Ended, Fault, Holds};
use mar_opening::open_stores;
use mar_parts::Certified;
use mar_types::Epocher;
use std::alloc::Global;
use std::marker::PhantomData;

impl<V: Variant, S: Holds<V>, P: Drop, E: Epocher> Node<V, S, P, E> {
    /// Opens what an earlier life left, or nothing, in the order blocks, certificates, metadata, cache: the genesis is
    /// stored where it is missing and delivery isn't past it, and the cutoff is raised to what the archives show.
    /// `Event::Start` comes next. On a lawful chain the node begins, or its opening is cut.
    ///
    /// Beside the node it answers the processed height and the cutoff. Stores in memory keep, of what a crash may have
    /// left, what `luck` picks; stores over a disk keep what the disk has. The genesis takes at most 1,048,576 bytes.
    ///
    /// The fault of an opening is `StoreFault` where a store failed, `GenesisHeight` where the genesis isn't at height
    /// zero, `GenesisMismatch` where another block zero is stored, `Unbacked` where neither the processed block nor the
    /// next one is stored, `Corrupt` where the next block isn't the one that its certificate names, `HeightLimit` where
    /// the last height is processed or stored, and `Memory`.
    pub fn init<C: Drop>(
        alloc: Global,
        ruins: S::Ruins,
        config: Config<P, E, V::Block, C>,
        luck: u64,
    ) -> Result<(Self, Floor), Ended<V, S>>
        requires small { IsSmallBegin (begin_of V.plain config.start) }
        ensures opens { KeepsOpening (E.epochs config.epocher) V.inner (sizes_of config) (S.Ruins.left ruins) luck (begin_of V.plain config.start)
            result }
        ensures same_life { IfOk result (λ r. (r.0.life.provider ≡ config.provider) × (r.0.life.epocher ≡ config.epocher)
            × (r.0.life.sizes ≡ sizes_of config)) }
        ensures watches { IfOk result (λ r. ArePassed (S.Ruins.left ruins).watches r.0.held.watches) }
        ensures cause { IfErr result (λ e. IsEndedBy (S.Ruins.left ruins).watches e) }
        ensures fails { IfErr result (λ e. (genesis : Block) → begin_of V.plain config.start ≡ from_genesis genesis
            → FailsToOpen (E.epochs config.epocher) (S.Ruins.left ruins) luck genesis e) }
        ensures by_value { IfErr result (λ e. IsUsual e.fault ⊎ IsOpeningFault (S.Ruins.left ruins).ended (picks_of (S.Ruins.left ruins) luck)
            (begin_of V.plain config.start) e.fault) }
        ensures finds { IfOk result (λ r. IsFound (E.epochs config.epocher) V.inner (sizes_of config) (S.Ruins.left ruins) luck
            (begin_of V.plain config.start) r.0) }
        ensures fresh { IfOk result (λ r. r.0.held.cache.fresh ≡ true) }
        ensures picked { IfOk result (λ r. r.0.held.cache.finds ≡ (picks_of (S.Ruins.left ruins) luck).cache) }
        ensures known { IfOk result (λ r. r.0.certified ≡ []) }
        ensures floor { IfOk result (λ r. r.1 ≡ record { processed = r.0.held.processed; cutoff = r.0.held.cutoff }) }
    {
        let epocher = config.epocher;
        let Ok(beginning) = config.begin(alloc) else {
            return Err(Ended {
                fault: Fault::Memory,
                ruins,
            });
        };
        let Beginning {
            life,
            genesis,
            max_staged,
        } = beginning;
        let stores = open_stores::<V, S, E>(alloc, ruins, luck, max_staged, &genesis, &epocher)?;
        let floor = stores.floor().snapshot();
        let node = Node {
            stores,
            life,
            certified: Certified::new(alloc),
            of: PhantomData,
        };
        Ok((node, floor))
    }
}
