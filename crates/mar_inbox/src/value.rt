//! What a caller is answered.
use mar_key::Processed;
use mar_types::Height;

/// What a caller is answered, with digests, blocks and finalizations of the kinds `D`, `B` and `F`.
#[derive(Drop)]
pub enum Value<D, B, F> {
    /// What was asked for isn't there.
    None,
    /// The height and the digest of a finalized block.
    Info { height: Height, digest: D },
    /// A block.
    Block(B),
    /// A finalization.
    Finalization(F),
    /// The bytes that a peer asked for.
    Bytes(Vec<u8>),
    /// The processed height.
    Processed(Processed),
    /// The processed height and the stored block that backs it.
    Anchor { processed: Processed, block: B },
    /// The sync of this ticket was started; when it has finished, what was told is durable.
    Sync(u64),
    /// What was told is durable, or is of an epoch that is no longer kept.
    True,
}
