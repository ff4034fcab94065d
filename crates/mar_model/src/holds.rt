//! The stores of a life, as far as the rules of a node see them.
ghost use Rattle.std.specs.Prelude.{◌≡◌, ◌-◌, ◌^◌, ◌⊎◌, [], IfErr, IfOk, IfSome, OnErr, OnOk, Some, false, map, option_map, true};
ghost use Rattle.mar_key.specs.Views.{cutoff_of};
ghost use Rattle.mar_store.specs.Changes.{IsNested, Puts, heights};
ghost use Rattle.mar_store.specs.Kept.{has_height, value_at};
ghost use Rattle.mar_store.specs.Named.{last_index};
ghost use Rattle.mar_store.specs.Ranges.{ranges};
ghost use Rattle.mar_store.specs.Sizes.{IsSmall};
ghost use Rattle.mar_model.specs.Acts.{AreLawful};
ghost use Rattle.mar_model.specs.CacheCalls.{JoinsTickets, KeepsTickets, none_goes};
ghost use Rattle.mar_model.specs.Cached.{finalization_entry};
ghost use Rattle.mar_model.specs.Held.{AreCached, AreWritten, FailsInOrder, GoesOn, IsArchiveFault, IsReadFault, IsUsual, LosesOpening, MakesSure, Remains, ReopensAs};
ghost use Rattle.mar_model.specs.Held.{nothing_written, remains_of, with_armed, written_block, written_cert, written_entry};
ghost use Rattle.mar_model.specs.Metadata.{first_pair};
ghost use Rattle.mar_model.specs.Faults.{sync_kind, ticket_limit};
ghost use Rattle.mar_model.specs.Moves.{CachesFinalization, StoresValue, at_height};
ghost use Rattle.mar_gate.specs.Pool.{writing_of};
ghost use Rattle.mar_gate.specs.Writing.{IsLastWrite, is_open_sync, with_finished, with_started, with_write};
ghost use Rattle.mar_cert.specs.Finalization.{finalization_bytes};
ghost use Rattle.mar_model.specs.SmallEntries.{AreSmallEntries};
ghost use Rattle.mar_model.specs.Stored.{AreSmall, at_own_height, block_of, is_certified, is_held};
ghost use Rattle.mar_model.specs.Staged.{is_taken_in, kept_from, staged_where, without_height};
ghost use Rattle.mar_model.specs.Views.{fault_of, store_name_of};

use crate::fault::{Fault, StoreName};
use crate::floor::State;
use crate::holds_progress::HoldsProgress;
use crate::shown::ShownRuins;
use mar_cert::{CommitsTo, Variant};
use mar_gate::Writes;
use mar_store::RangeSet;
use mar_types::Height;
use std::alloc::{AllocError, Global};
use std::marker::Model;

/// What is left of the stores of a life.
pub trait StoresRuin {
    /// What is left of them, and what each tells of its failures.
    ghost left: { Self → Remains };

    /// Makes the counted call of a store fail that is so many calls away, 1 being the next.
    fn arm(&mut self, store: StoreName, calls: u64) -> Result<(), AllocError>
        ensures ended { (left self.new).ended ≡ (left self.old).ended }
        ensures armed { OnOk result ((left self.new).watches ≡ with_armed (store_name_of store) calls (left self.old).watches) }
        ensures unarmed { OnErr result ((left self.new).watches ≡ (left self.old).watches) };

    /// What is shown of the stores; the processed height and the cutoff are what the last successful sync of the
    /// metadata left, or its last reopening read.
    fn shown(&self) -> ShownRuins<'_>
        ensures pair { first_pair (left self.now).ended.meta ≡ Some (record { processed = result.processed; cutoff = cutoff_of result.cutoff }) }
        ensures blocks_sure { result.blocks_sure.now ≡ ranges (heights (left self.now).ended.blocks_sure) }
        ensures blocks_may { result.blocks_may.now ≡ ranges (heights (left self.now).ended.blocks_may) }
        ensures certs_sure { result.certs_sure.now ≡ ranges (heights (left self.now).ended.certs_sure) }
        ensures certs_may { result.certs_may.now ≡ ranges (heights (left self.now).ended.certs_may) };
}

/// The stores of a life: blocks, certificates, how far delivery has come, and the cache. A call that reads or changes
/// one answers a fault where that failed; the life has ended then, and `wreck` gives what is left. Where a change of a
/// store failed, later calls of it leave what is left of it and answer want of memory. Each makes one call of a store;
/// `start_sync`, `finish_sync` and the calls that make a value durable at once make two, and `reopen` one of each.
pub trait Holds<V: Variant>: HoldsProgress<V> {
    /// What is left where no life runs.
    type Ruins: StoresRuin;

    /// A finalization as it is stored.
    type Finalization: CommitsTo<V::Commitment>;

    /// Opens what a crash left, in the order blocks, certificates, metadata, cache. At most `max_staged` blocks are kept at
    /// hand until they are handed over.
    fn reopen(
        alloc: Global,
        ruins: Self::Ruins,
        luck: u64,
        max_staged: usize,
    ) -> Result<Self, Ended<V, Self>>
    where
        Self: Sized,
        ensures ok { IfOk result (λ s. ReopensAs (Self.Ruins.left ruins) luck (Self.held s)) }
        ensures staged { IfOk result (λ s. Self.staged s ≡ record { blocks = []; min = 0; max = max_staged }) }
        ensures lost { IfErr result (LosesOpening (Self.Ruins.left ruins) nothing_written) }
        ensures in_order { IfErr result (FailsInOrder (Self.Ruins.left ruins)) }
        ensures usual { IfErr result (λ e. IsUsual e.fault) };

    /// What a crash now leaves.
    fn wreck(self) -> Self::Ruins
    where
        Self: Sized,
        ensures { Self.Ruins.left result ≡ remains_of (Self.held self) };

    /// What is sure is held, what is held may be left, each block that is held or cached is small, and what isn't sure waits
    /// for a sync; nothing is cached of an epoch below the lowest, and a ticket of two archives of the cache covers what one
    /// of each covers. The call does nothing: it is a law.
    fn law(&self)
        ensures blocks { (Self.held self.now).intact ≡ true → IsNested (Self.held self.now).blocks }
        ensures certs { (Self.held self.now).intact ≡ true → IsNested (Self.held self.now).certs }
        ensures small { (Self.held self.now).intact ≡ true → AreSmall (map (λ x. x.value) (Self.held self.now).blocks.held) }
        ensures small_cached { (Self.held self.now).intact ≡ true → AreSmallEntries (Self.held self.now).cache.kept.held }
        ensures written { (Self.held self.now).intact ≡ true → AreWritten (Self.held self.now) }
        ensures cached { (Self.held self.now).intact ≡ true → AreCached (Self.held self.now) }
        ensures lawful { (Self.held self.now).intact ≡ true → AreLawful (Self.held self.now) }
        ensures joins { JoinsTickets (Self.covers self.now) };

    /// Makes the counted call of a store fail that is so many calls away, 1 being the next.
    fn arm(&mut self, store: StoreName, calls: u64) -> Result<(), AllocError>
        ensures staged { Self.staged self.new ≡ Self.staged self.old }
        ensures tickets { Self.covers self.new ≡ Self.covers self.old }
        ensures armed { OnOk result (Self.held self.new
            ≡ record (Self.held self.old) { watches = with_armed (store_name_of store) calls (Self.held self.old).watches }) }
        ensures unarmed { OnErr result (Self.held self.new ≡ Self.held self.old) };

    /// The processed height, the cutoff and the newest witnessed round.
    fn floor(&self) -> &State<V::Commitment, Self::Finalization>
        ensures processed { result.now.processed ≡ (Self.held self.now).processed }
        ensures cutoff { result.now.cutoff ≡ (Self.held self.now).cutoff }
        ensures witnessed { result.now.witnessed ≡ (Self.held self.now).witnessed };

    /// The greatest height of a held block.
    fn last_block(&self) -> Option<Height>
        ensures { result ≡ last_index (Self.held self.now).blocks.held };

    /// The greatest height of a held finalization.
    fn last_certificate(&self) -> Option<Height>
        ensures { result ≡ last_index (Self.held self.now).certs.held };

    /// The heights of the held blocks.
    fn blocks_held(&self) -> &RangeSet
        ensures { (Self.held self.now).intact ≡ true → result.now ≡ ranges (heights (Self.held self.now).blocks.held) };

    /// The heights of the blocks that every crash leaves.
    fn blocks_sure(&self) -> &RangeSet
        ensures { (Self.held self.now).intact ≡ true → result.now ≡ ranges (heights (Self.held self.now).blocks.sure) };

    /// The heights of the held finalizations.
    fn certificates_held(&self) -> &RangeSet
        ensures { (Self.held self.now).intact ≡ true → result.now ≡ ranges (heights (Self.held self.now).certs.held) };

    /// The heights of the finalizations that every crash leaves.
    fn certificates_sure(&self) -> &RangeSet
        ensures { (Self.held self.now).intact ≡ true → result.now ≡ ranges (heights (Self.held self.now).certs.sure) };

    /// The writes that wait for a sync, and the syncs that are open.
    fn writes(&self) -> &Writes
        ensures { writing_of result.now ≡ (Self.held self.now).writes };

    /// The block to hand over at a height: one that is staged, which is then no longer, or the one that is held. Blocks
    /// staged at or below that height are dropped.
    fn take_block(&mut self, height: Height) -> Result<Option<V::Block>, Fault<V::Commitment>>
        ensures dropped { OnOk result (Self.staged self.new ≡ without_height height (kept_from height (Self.staged self.old))) }
        ensures tickets { Self.covers self.new ≡ Self.covers self.old }
        ensures found { IfOk result (λ r. option_map V.plain r ≡ value_at (Self.held self.old).blocks.held height) }
        ensures own { IfOk result (λ r. IfSome r (λ b. (V.plain b).height ≡ height)) }
        ensures same { OnOk result (Self.held self.new ≡ record (Self.held self.old) { watches = (Self.held self.new).watches }) }
        ensures goes_on { GoesOn (fault_of V.Commitment.bytes) (Self.held self.old) nothing_written (Self.held self.new) result }
        ensures archive { IfErr result (λ e. IsArchiveFault (fault_of V.Commitment.bytes e)) }
        ensures read { IfErr result (λ e. IsReadFault (fault_of V.Commitment.bytes e)) }
        ensures usual { IfErr result (λ e. IsUsual (fault_of V.Commitment.bytes e)) };

    /// The block that is held at a height.
    fn block_at(&mut self, height: Height) -> Result<Option<V::Block>, Fault<V::Commitment>>
        ensures staged { Self.staged self.new ≡ Self.staged self.old }
        ensures tickets { Self.covers self.new ≡ Self.covers self.old }
        ensures found { IfOk result (λ r. option_map V.plain r ≡ value_at (Self.held self.old).blocks.held height) }
        ensures own { IfOk result (λ r. IfSome r (λ b. (V.plain b).height ≡ height)) }
        ensures same { OnOk result (Self.held self.new ≡ record (Self.held self.old) { watches = (Self.held self.new).watches }) }
        ensures goes_on { GoesOn (fault_of V.Commitment.bytes) (Self.held self.old) nothing_written (Self.held self.new) result }
        ensures archive { IfErr result (λ e. IsArchiveFault (fault_of V.Commitment.bytes e)) }
        ensures read { IfErr result (λ e. IsReadFault (fault_of V.Commitment.bytes e)) }
        ensures usual { IfErr result (λ e. IsUsual (fault_of V.Commitment.bytes e)) };

    /// A held block of this digest.
    fn block_of(&mut self, digest: &V::Digest) -> Result<Option<V::Block>, Fault<V::Commitment>>
        ensures staged { Self.staged self.new ≡ Self.staged self.old }
        ensures tickets { Self.covers self.new ≡ Self.covers self.old }
        ensures found { IfOk result (λ r. option_map V.plain r ≡ block_of (Self.held self.old).blocks.held (V.Digest.bytes digest.now)) }
        ensures same { OnOk result (Self.held self.new ≡ record (Self.held self.old) { watches = (Self.held self.new).watches }) }
        ensures goes_on { GoesOn (fault_of V.Commitment.bytes) (Self.held self.old) nothing_written (Self.held self.new) result }
        ensures archive { IfErr result (λ e. IsArchiveFault (fault_of V.Commitment.bytes e)) }
        ensures read { IfErr result (λ e. IsReadFault (fault_of V.Commitment.bytes e)) }
        ensures usual { IfErr result (λ e. IsUsual (fault_of V.Commitment.bytes e)) };

    /// Keeps a finalization in the cache and makes it sure. Nothing is kept of an epoch below the lowest.
    fn cache_finalization(
        &mut self,
        finalization: &Self::Finalization,
    ) -> Result<(), Fault<V::Commitment>>
        requires small { IsSmall (finalization_bytes (Self.Finalization.plain finalization.now)) }
        ensures staged { Self.staged self.new ≡ Self.staged self.old }
        ensures tickets { OnOk result (KeepsTickets none_goes (Self.covers self.old) (Self.covers self.new)) }
        ensures caches { OnOk result (CachesFinalization (Self.Finalization.plain finalization.now) (Self.held self.old) (Self.held self.new)) }
        ensures goes_on { GoesOn (fault_of V.Commitment.bytes) (Self.held self.old)
            (written_entry (finalization_entry (Self.Finalization.plain finalization.now))) (Self.held self.new) result }
        ensures usual { IfErr result (λ e. IsUsual (fault_of V.Commitment.bytes e)) };

    /// The finalization that is held at a height.
    fn certificate_at(
        &mut self,
        height: Height,
    ) -> Result<Option<Self::Finalization>, Fault<V::Commitment>>
        ensures staged { Self.staged self.new ≡ Self.staged self.old }
        ensures tickets { Self.covers self.new ≡ Self.covers self.old }
        ensures found { IfOk result (λ r. option_map Self.Finalization.plain r ≡ value_at (Self.held self.old).certs.held height) }
        ensures same { OnOk result (Self.held self.new ≡ record (Self.held self.old) { watches = (Self.held self.new).watches }) }
        ensures goes_on { GoesOn (fault_of V.Commitment.bytes) (Self.held self.old) nothing_written (Self.held self.new) result }
        ensures archive { IfErr result (λ e. IsArchiveFault (fault_of V.Commitment.bytes e)) }
        ensures read { IfErr result (λ e. IsReadFault (fault_of V.Commitment.bytes e)) }
        ensures usual { IfErr result (λ e. IsUsual (fault_of V.Commitment.bytes e)) };

    /// Whether a finalization is held at a height.
    fn has_certificate(&mut self, height: Height) -> Result<bool, Fault<V::Commitment>>
        ensures staged { Self.staged self.new ≡ Self.staged self.old }
        ensures tickets { Self.covers self.new ≡ Self.covers self.old }
        ensures found { IfOk result (λ r. r ≡ has_height (Self.held self.old).certs.held height) }
        ensures same { OnOk result (Self.held self.new ≡ record (Self.held self.old) { watches = (Self.held self.new).watches }) }
        ensures goes_on { GoesOn (fault_of V.Commitment.bytes) (Self.held self.old) nothing_written (Self.held self.new) result }
        ensures archive { IfErr result (λ e. IsArchiveFault (fault_of V.Commitment.bytes e)) }
        ensures read { IfErr result (λ e. IsReadFault (fault_of V.Commitment.bytes e)) }
        ensures usual { IfErr result (λ e. IsUsual (fault_of V.Commitment.bytes e)) };

    /// Stores a block above the processed height. The write waits for a sync, below which nothing is handed over, and the
    /// block is staged where its height was free and it was taken in.
    fn put_block(&mut self, block: V::Block) -> Result<(), Fault<V::Commitment>>
        requires small { IsSmall (V.plain block).encoded }
        ensures staged { OnOk result (Self.staged self.new ≡ staged_where
            (is_taken_in (V.plain block).height (Self.held self.old).blocks (Self.held self.new).blocks)
            (V.plain block).height block (Self.staged self.old)) }
        ensures tickets { Self.covers self.new ≡ Self.covers self.old }
        ensures ok { OnOk result (Puts (is_held (Self.held self.old).blocks.held (V.plain block)) (Self.held self.old).blocks (at_own_height (V.plain block))
            (Self.held self.new).blocks) }
        ensures same { OnOk result (Self.held self.new ≡ record (Self.held self.old) {
          blocks = (Self.held self.new).blocks;
          writes = with_write (V.plain block).height (Self.held self.old).writes;
          watches = (Self.held self.new).watches;
        }) }
        ensures goes_on { GoesOn (fault_of V.Commitment.bytes) (Self.held self.old) (written_block (at_own_height (V.plain block)))
            (Self.held self.new) result }
        ensures archive { IfErr result (λ e. IsArchiveFault (fault_of V.Commitment.bytes e)) }
        ensures usual { IfErr result (λ e. IsUsual (fault_of V.Commitment.bytes e)) };

    /// Stores the finalization of the block that was put last, with which it waits for a sync.
    fn put_certificate(
        &mut self,
        height: Height,
        finalization: &Self::Finalization,
    ) -> Result<(), Fault<V::Commitment>>
        requires small { IsSmall (finalization_bytes (Self.Finalization.plain finalization.now)) }
        requires waits { IsLastWrite height (Self.held self.old).writes }
        ensures staged { Self.staged self.new ≡ Self.staged self.old }
        ensures tickets { Self.covers self.new ≡ Self.covers self.old }
        ensures ok { OnOk result (Puts (is_certified V.inner (Self.held self.old).certs.held height
            (V.inner (Self.Finalization.plain finalization.now).payload))
            (Self.held self.old).certs (at_height height (Self.Finalization.plain finalization.now)) (Self.held self.new).certs) }
        ensures same { OnOk result (Self.held self.new
            ≡ record (Self.held self.old) { certs = (Self.held self.new).certs; watches = (Self.held self.new).watches }) }
        ensures goes_on { GoesOn (fault_of V.Commitment.bytes) (Self.held self.old)
            (written_cert (at_height height (Self.Finalization.plain finalization.now))) (Self.held self.new) result }
        ensures archive { IfErr result (λ e. IsArchiveFault (fault_of V.Commitment.bytes e)) }
        ensures usual { IfErr result (λ e. IsUsual (fault_of V.Commitment.bytes e)) };

    /// Stores a block and makes it durable at once.
    fn store_block(&mut self, block: &V::Block) -> Result<(), Fault<V::Commitment>>
        requires small { IsSmall (V.plain block.now).encoded }
        ensures staged { Self.staged self.new ≡ Self.staged self.old }
        ensures tickets { Self.covers self.new ≡ Self.covers self.old }
        ensures ok { OnOk result (StoresValue (is_held (Self.held self.old).blocks.held (V.plain block.now)) (Self.held self.old).blocks
            (at_own_height (V.plain block.now)) (Self.held self.new).blocks) }
        ensures same { OnOk result (Self.held self.new
            ≡ record (Self.held self.old) { blocks = (Self.held self.new).blocks; watches = (Self.held self.new).watches }) }
        ensures goes_on { GoesOn (fault_of V.Commitment.bytes) (Self.held self.old) (written_block (at_own_height (V.plain block.now)))
            (Self.held self.new) result }
        ensures archive { IfErr result (λ e. IsArchiveFault (fault_of V.Commitment.bytes e)) }
        ensures usual { IfErr result (λ e. IsUsual (fault_of V.Commitment.bytes e)) };

    /// Stores a finalization at a height and makes it durable at once; the writes that wait for a sync go on waiting.
    fn store_certificate(
        &mut self,
        height: Height,
        finalization: &Self::Finalization,
    ) -> Result<(), Fault<V::Commitment>>
        requires small { IsSmall (finalization_bytes (Self.Finalization.plain finalization.now)) }
        ensures staged { Self.staged self.new ≡ Self.staged self.old }
        ensures tickets { Self.covers self.new ≡ Self.covers self.old }
        ensures ok { OnOk result (StoresValue (is_certified V.inner (Self.held self.old).certs.held height
            (V.inner (Self.Finalization.plain finalization.now).payload)) (Self.held self.old).certs
            (at_height height (Self.Finalization.plain finalization.now)) (Self.held self.new).certs) }
        ensures same { OnOk result (Self.held self.new
            ≡ record (Self.held self.old) { certs = (Self.held self.new).certs; watches = (Self.held self.new).watches }) }
        ensures goes_on { GoesOn (fault_of V.Commitment.bytes) (Self.held self.old)
            (written_cert (at_height height (Self.Finalization.plain finalization.now))) (Self.held self.new) result }
        ensures archive { IfErr result (λ e. IsArchiveFault (fault_of V.Commitment.bytes e)) }
        ensures usual { IfErr result (λ e. IsUsual (fault_of V.Commitment.bytes e)) };

    /// Starts a sync of the blocks and the finalizations that covers all writes, under the next ticket. Where none is left
    /// the life ends.
    fn start_sync(&mut self) -> Result<(), Fault<V::Commitment>>
        ensures staged { Self.staged self.new ≡ Self.staged self.old }
        ensures tickets { Self.covers self.new ≡ Self.covers self.old }
        ensures ok { OnOk result (Self.held self.new
            ≡ record (Self.held self.old) { writes = with_started (Self.held self.old).writes; watches = (Self.held self.new).watches }) }
        ensures goes_on { GoesOn (fault_of V.Commitment.bytes) (Self.held self.old) nothing_written (Self.held self.new) result }
        ensures kind { IfErr result (λ e. IsArchiveFault (fault_of V.Commitment.bytes e)
            ⊎ ((fault_of V.Commitment.bytes e ≡ ticket_limit sync_kind) × ((Self.held self.old).writes.next_sync ≡ 2 ^ 64 - 1))) };

    /// Finishes the sync of a ticket, which makes durable what was written before it was started, and says whether it was
    /// open. One that isn't changes nothing, and asks no store.
    fn finish_sync(&mut self, ticket: u64) -> Result<bool, Fault<V::Commitment>>
        ensures staged { Self.staged self.new ≡ Self.staged self.old }
        ensures tickets { Self.covers self.new ≡ Self.covers self.old }
        ensures was_open { IfOk result (λ r. r ≡ is_open_sync (Self.held self.old).writes.syncs ticket) }
        ensures closed { IfOk result (λ r. r ≡ false → Self.held self.new ≡ Self.held self.old) }
        ensures failed { IfErr result (λ e. is_open_sync (Self.held self.old).writes.syncs ticket ≡ true) }
        ensures blocks { OnOk result (MakesSure (Self.held self.old).blocks (Self.held self.new).blocks) }
        ensures certs { OnOk result (MakesSure (Self.held self.old).certs (Self.held self.new).certs) }
        ensures written { (Self.held self.old).intact ≡ true → OnOk result (AreWritten (Self.held self.new)) }
        ensures same { OnOk result (Self.held self.new ≡ record (Self.held self.old) {
          blocks = (Self.held self.new).blocks;
          certs = (Self.held self.new).certs;
          writes = with_finished ticket (Self.held self.old).writes;
          watches = (Self.held self.new).watches;
        }) }
        ensures goes_on { GoesOn (fault_of V.Commitment.bytes) (Self.held self.old) nothing_written (Self.held self.new) result }
        ensures archive { IfErr result (λ e. IsArchiveFault (fault_of V.Commitment.bytes e)) }
        ensures usual { IfErr result (λ e. IsUsual (fault_of V.Commitment.bytes e)) };
}

/// How a life ended, and what is left.
#[derive(Drop)]
pub struct Ended<V: Variant, S: Holds<V>> {
    /// Why it ended.
    pub fault: Fault<V::Commitment>,
    /// What the next opening is given.
    pub ruins: S::Ruins,
}

impl<V: Variant, S: Holds<V>> Model for Ended<V, S> {
    ghost use Rattle.mar_model.specs.Held.{Ending};
    ghost use Rattle.mar_model.specs.Views.{fault_of};

    ghost Value = { Ending };

    ghost view = { λ e. record { fault = fault_of V.Commitment.bytes e.fault; remains = S.Ruins.left e.ruins } };
}
