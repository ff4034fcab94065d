//! How blocks, what is expected of them and what was sent are compared: laws that callers rest on, each the contract of
//! a function.
ghost use Rattle.std.specs.Prelude.{nat_eq, ◌&&◌, ◌≡◌};
ghost use Rattle.mar_types.specs.Equal.{TellsApart};
ghost use Rattle.mar_types.specs.Round.{round_eq};
ghost use Rattle.mar_block.specs.Recipients.{recipients_eq};
ghost use Rattle.mar_block.specs.declared.recipients.Recipients.{Recipients as RecipientsOf};
ghost use Rattle.mar_block.specs.declared.recipients.Sent.{Sent as SentOf};

use crate::empty_block::EmptyBlock;
use crate::expected::ExpectedCommitment;
use crate::mocks::Block;
use crate::recipients::{Recipients, Sent};
use mar_types::Hasher;

/// Where commitments are equal exactly where they are the same, so is what is expected of a block. What was sent is
/// equal where its round, its block and its recipients are, and recipients where they are all peers or the same ones in
/// order.
pub fn sent_compared<T: PartialEq>()
    ensures expected { TellsApart T.eq → TellsApart ⟦<ExpectedCommitment<T> as PartialEq>⟧.eq }
    ensures recipients { (a b : RecipientsOf T) → ⟦<Recipients<T> as PartialEq>⟧.eq a b ≡ recipients_eq T.eq a b }
    ensures sent { (a b : SentOf T) → ⟦<Sent<T> as PartialEq>⟧.eq a b
        ≡ (round_eq a.round b.round && (T.eq a.block b.block && recipients_eq nat_eq a.recipients b.recipients)) }
{}

/// Where digests and contexts are equal exactly where they are the same, so are blocks for tests.
pub fn mock_blocks_compared<D: PartialEq, C: PartialEq>()
    ensures { TellsApart D.eq → TellsApart C.eq → TellsApart ⟦<Block<D, C> as PartialEq>⟧.eq }
{}

/// Where digests are equal exactly where they are the same, so are blocks without content.
pub fn empty_blocks_compared<H: Hasher>()
    ensures { TellsApart H.Digest.eq → TellsApart ⟦<EmptyBlock<H> as PartialEq>⟧.eq }
{}
