//! Why a segment is refused.

/// Why a segment is refused; of several reasons the first one here is told.
#[derive(Clone, Copy, Debug, PartialEq, Eq)]
pub enum Why {
    /// No segment stands at the front of the bytes.
    Grammar,
    /// The round's epoch has no scheme, or it isn't that of the first block's height.
    Epoch,
    /// The certificate doesn't verify.
    Certificate,
    /// The payload isn't the first block's digest.
    Payload,
    /// The block of this place, counted from 0, isn't the parent of the one before it.
    Parent(u64),
    /// The first block stands no lower than the last one of the segment before.
    Order,
    /// The archive goes on past the bytes that are read of one.
    Long,
}
