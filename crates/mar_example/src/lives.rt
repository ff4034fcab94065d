//! What this program does: one life ends by a crash, and another goes on from there.
ghost use Rattle.mar_cert.specs.Finalization.{finalization_bytes};
ghost use Rattle.mar_store.specs.Sizes.{IsSmall};

use crate::closed::Why;
use crate::life::{Around, End, Left, acknowledged, begun, crashed, step};
use crate::service::Lived;
use mar_actor::{Event, HoldsNotarizations};
use mar_block::StandardBlocks;
use mar_cert::CommitsTo;
use mar_inbox::{Identifier, Message, Standing, Value};
use mar_types::Sha256Digest;

/// What consensus tells of three blocks, and what a node speaks to, where these blocks are at hand. What a node may store
/// of it is small enough for its stores.
#[derive(Drop)]
pub(crate) struct Told<F: CommitsTo<Sha256Digest>> {
    pub(crate) first: F,
    pub(crate) second: F,
    pub(crate) third: F,
    pub(crate) around: Around<F>,
    ghost small_first: { IsSmall (finalization_bytes (F.plain first)) },
    ghost small_second: { IsSmall (finalization_bytes (F.plain second)) },
    ghost small_third: { IsSmall (finalization_bytes (F.plain third)) },
}

/// What both lives came to: whether the first one owed a durable block as it crashed, and the newest finalized height that
/// the second one told.
#[derive(Drop)]
pub(crate) struct Outcome {
    pub(crate) first: Lived,
    pub(crate) is_owed: bool,
    pub(crate) second: Lived,
    pub(crate) newest: Option<u64>,
}

// A life in which blocks 1 and 2 are finalized and handed over. A crash ends it before block 2 is acknowledged, though the
// ledger has it. Says beside that whether block 2 was durable and owed.
fn first_life<S: HoldsNotarizations<StandardBlocks>>(
    nothing: Left<S::Ruins>,
    first: S::Finalization,
    second: S::Finalization,
    around: &mut Around<S::Finalization>,
) -> Result<(Lived, bool, Left<S::Ruins>), End<S::Ruins>>
    requires first { IsSmall (finalization_bytes (S.Finalization.plain first)) }
    requires second { IsSmall (finalization_bytes (S.Finalization.plain second)) }
{
    let life = begun::<S>(nothing, around);
    let life = acknowledged::<S>(life, around);
    let life = step::<S>(life, Event::Message(Message::Finalization(first)), around);
    let life = step::<S>(life, Event::Sync(0), around);
    let life = acknowledged::<S>(life, around);
    let life = step::<S>(life, Event::Message(Message::Finalization(second)), around);
    let living = step::<S>(life, Event::Sync(1), around)?;
    let is_owed = living.node.finished(1) & living.node.owes_ack(2);
    let (lived, left) = crashed::<S>(living);
    Ok((lived, is_owed, left))
}

// A life over what that one left. Block 2 is handed over again, and block 3 after it; then someone asks for the newest.
fn second_life<S: HoldsNotarizations<StandardBlocks>>(
    left: Left<S::Ruins>,
    third: S::Finalization,
    around: &mut Around<S::Finalization>,
) -> Result<(Lived, Left<S::Ruins>), End<S::Ruins>>
    requires third { IsSmall (finalization_bytes (S.Finalization.plain third)) }
{
    let query = Message::GetInfo {
        ticket: 0,
        identifier: Identifier::Latest,
    };
    let life = begun::<S>(left, around);
    let life = acknowledged::<S>(life, around);
    let life = step::<S>(life, Event::Message(Message::Finalization(third)), around);
    let life = step::<S>(life, Event::Sync(0), around);
    let life = acknowledged::<S>(life, around);
    let living = step::<S>(life, Event::Message(query), around)?;
    Ok(crashed::<S>(living))
}

// The height that was answered under ticket 0.
fn newest<F: Drop>(around: &Around<F>) -> Option<u64> {
    match around.answers.poll(0) {
        Standing::Value(Value::Info { height, .. }) => Some(height.get()),
        _other => None,
    }
}

/// Both lives: what they came to, or why one ended, and beside it what they leave.
pub(crate) fn lives<S: HoldsNotarizations<StandardBlocks>>(
    nothing: Left<S::Ruins>,
    told: Told<S::Finalization>,
) -> (Result<Outcome, Why>, Left<S::Ruins>) {
    let Told {
        first,
        second,
        third,
        mut around,
    } = told;
    let (first, is_owed, left) = match first_life::<S>(nothing, first, second, &mut around) {
        Ok(lived) => lived,
        Err(end) => return (Err(end.why), end.left),
    };
    match second_life::<S>(left, third, &mut around) {
        Ok((second, left)) => {
            let outcome = Outcome {
                first,
                is_owed,
                second,
                newest: newest(&around),
            };
            (Ok(outcome), left)
        }
        Err(end) => (Err(end.why), end.left),
    }
}
