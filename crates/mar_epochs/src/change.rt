//! What changes the archives of an epoch.
use mar_model::Section;
use mar_types::{Height, Round};

/// A change of the archives of an epoch.
#[derive(Drop)]
pub enum Change<E> {
    /// An entry is put; ignored where one of its place is held.
    Put(E),
    /// What an archive holds becomes sure.
    Sync(Section),
    /// What the ticket of a number covers in an archive becomes sure.
    Finish(Section, u64),
    /// The entries by view go that are below a round.
    PruneBelow(Round),
    /// The certified blocks go that are below a height.
    PruneCertified(Height),
}
