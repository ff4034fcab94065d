//! The actor between a consensus engine and an application: it stores what consensus finalizes, and hands it to the
//! application in height order.
//!
//! # What is promised
//!
//! - **In order, and durable first.** The application is handed the finalized blocks one height after the other, from the
//!   genesis on. Each is durable before it is handed over, and its finalization with it in the life that stores both. After a
//!   crash a block may stand whose finalization was lost; it is handed over all the same.
//! - **At least once.** A block is handed over again after each opening until its acknowledgement is durable. So an
//!   application must tolerate repeats: it stores, in one write, what a block made and the block's height, and passes over
//!   a height that it has. What it counted in memory alone is gone with the life.
//! - **A window.** At most `max_pending_acks` blocks are handed over and not yet acknowledged. Acknowledgements may come in
//!   any order; processed is the longest front that is acknowledged.
//! - **Tips come first.** The application is told of the newest finalized block as soon as that is known (`Update::Tip`),
//!   though blocks below it may be missing. Tips only rise within a life.
//! - **Answers.** A query is answered in its own step, from what stands, and changes nothing.
//! - **Blocks that aren't final.** A verified, proposed or certified block is kept in the cache, whether or not it is ever final,
//!   and its caller is answered which sync makes it durable, and once more as that has finished. Of an epoch that was pruned
//!   nothing is kept, and the answer says at once that there is nothing to wait for.
//! - **Notarizations.** One that consensus reports is kept in the cache, and with it its block, where that is at hand and wasn't
//!   verified in that round. Each has a sync, of which nobody is told. Of an epoch that was pruned nothing is kept.
//! - **Certifications.** Where the block of one that consensus reports is at hand, the commitments of that block and of its
//!   parent are known as certified, until a tip is at their height or above it or the life ends. Nothing is stored for it, and
//!   nothing goes by it yet.
//! - **Sends.** A proposed or a prepared block is handed to the buffer, which sends it, once and in its own step. A prepared one
//!   is not kept and nobody answered; a proposed one is sent before it is kept.
//! - **Hints.** The finalization of a height that some peers are said to hold is asked of these, unless it is stored or the height
//!   is processed.
//! - **An end says why.** A step that can't go on hands back what is left of the stores, and its fault names the store that
//!   failed or the value that it could not take. Whatever was durable is still there, and the next opening goes on from it.
//!
//! # When something becomes durable
//!
//! 1. A reported finalization whose block is at hand is put into the archives, block and finalization, and a sync of both
//!    is started. No disk is waited for: the step ends there.
//! 2. The caller says that the sync has finished (`Event::Sync`). What it covers is durable, and blocks are handed over, up
//!    to the first one that waits for another sync. The syncs of the cache have tickets of the same count, and finish so too.
//! 3. The application acknowledges (`Event::Ack`). The processed height, and the cutoff below which nothing is asked for any
//!    more, become durable together, in that step, and then the next block may be handed over. Where it drops an
//!    acknowledgement instead (`Event::Dropped`), the life ends once that block is the lowest that isn't acknowledged.
//!
//! A crash between two of these loses nothing that an earlier one made durable. Of what was written and not yet synced the
//! next opening finds whatever the disk kept, and what it finds is as good as if it were reported again.
//!
//! # Settings
//!
//! - `provider`, `epocher`: who may certify which epoch, and which heights an epoch has. The mapping must never change.
//! - `start`: the genesis. The same at each opening; another one is refused (`GenesisMismatch`).
//! - `max_pending_acks`: 1 hands over one block at a time. More hides the time that the application takes for a block, at
//!   the price of that many repeats after a crash, and of twice as many blocks in memory.
//! - `view_retention`: how many views below the round that was witnessed last the cache keeps as a newer one is.
//! - `max_repair`: how many of the lowest missing heights are asked for at once, at least 1.
//! - `mailbox_size`, `block_codec_config`: change nothing yet.
//!
//! # Storage and repair
//!
//! There are four stores: blocks, finalizations, metadata, and a cache of what isn't final. An opening reads them in that
//! order, stores the genesis where it is missing, and refuses stores that don't fit together (`Unbacked`, `Corrupt`). A
//! finalized block that isn't at hand is asked for by its commitment.
//!
//! Gaps above the processed height are filled at a start, and once a reported finalization is stored above that height: the
//! parent that the block right above the lowest gap names is stored from the buffer or the cache, with its finalization where
//! that is cached, and so on down. The first one that isn't at hand is asked for by commitment and height, and then at most
//! `max_repair` of the lowest missing heights. A start makes durable what it filled in before it hands blocks over.
//!
//! An opening takes the memory that the stores stand in while the life runs, and moving a node moves none of them.
//!
//! # Limits
//!
//! A block, a notarization or a finalization takes at most 1,048,576 bytes. The last height, 2^64 - 1, can't be stored
//! (`HeightLimit`), and a life gives out fewer than 2^64 tickets of each kind (`TicketLimit`). Certificates are taken as
//! consensus's word.
#![tactic(auto)]

mod acknowledge;
mod caching;
mod certified;
mod dispatch;
mod event;
mod filling;
mod life;
mod messages;
mod node;
mod notarize;
mod open;
mod report;
mod reporter;
mod send;
mod settings;
mod shown;
mod start;
mod sync;
mod take;
mod telling;

pub use event::Event;
pub use mar_life::{Ruins, Stores};
pub use mar_model::{
    Ended, Fault, Holds, HoldsNotarizations, ShownRuins, StoreName, StoresRuin, TicketKind,
};
pub use mar_parts::Shown;
pub use node::{Actor, Node};
pub use reporter::{Exact, Reporter, Update};
pub use settings::{Config, Start};
