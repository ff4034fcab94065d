//! What a disk in memory was asked to keep.

/// A call that wrote or synced, or a crash with what it left.
#[derive(Drop)]
pub enum DiskCall {
    /// These bytes were written at a place.
    Write(usize, Vec<u8>),
    /// All was made durable.
    Sync,
    /// A crash left these bytes.
    Crash(Vec<u8>),
}
