//! Judging the deliveries of a batch of messages.
ghost use Rattle.std.specs.Prelude.{[], ◌++◌, ◌∷◌, ◌≡◌, IfOk, List, OnOk, filter, map, ℕ};
ghost use Rattle.std.specs.Vec.{vec_items};
ghost use Rattle.mar_cert.specs.Block.{Block as PlainBlock};
ghost use Rattle.mar_cert.specs.Finalization.{Finalization};
ghost use Rattle.mar_key.specs.Keys.{Annotation};
ghost use Rattle.mar_key.specs.PeerQueue.{PeerMessage};
ghost use Rattle.mar_key.specs.Received.{received};
ghost use Rattle.mar_key.specs.Views.{key_of};
ghost use Rattle.mar_model.specs.Config.{Config};
ghost use Rattle.mar_model.specs.Judge.{is_delivery};
ghost use Rattle.mar_judge.specs.Entered.{AreEntriesOf, JudgedAll, TellsOne};
ghost use Rattle.mar_judge.specs.EntryViews.{entries_of, is_waiting};
ghost use Rattle.mar_judge.specs.Found.{IsPlacedAs};
ghost use Rattle.mar_judge.specs.Groups.{AreGroups, claims_of, verdicts_on};
ghost use Rattle.mar_judge.specs.Rules.{settled};
ghost use Rattle.mar_judge.specs.Views.{JudgesEach, place_of, plain_verdict};

use crate::admitting::admit;
use crate::answer::Verdict;
use crate::concluding::conclude;
use crate::group::{Group, push, verify_all};
use crate::place::{Entry, Place};
use crate::seat::Judge;
use mar_key::Message;
use std::alloc::{AllocError, Global};

// Reads one message: a delivery has an entry more.
fn enter_message<J: Judge>(
    judge: &J,
    alloc: Global,
    groups: &mut Vec<Group<J::Scope, J::Claim>>,
    entries: &mut Vec<Entry<J::Commitment, J::Block, J::Finalization, J::Notarization>>,
    message: &Message<J::Commitment>,
) -> Result<(), AllocError>
    requires { AreGroups J.claimed (J.judges judge.now) (J.rules judge.now).scoped groups.old.items }
    ensures groups { OnOk result (AreGroups J.claimed (J.judges judge.now) (J.rules judge.now).scoped
        groups.new.items) }
    ensures entries { (config : Config) (before : List PeerMessage)
        → AreEntriesOf (J.rules judge.now) config (claims_of J.claimed groups.old.items) (filter is_delivery before)
        (entries_of J.Commitment.bytes J.plain J.finalization J.notarization entries.old.items)
        → OnOk result (AreEntriesOf (J.rules judge.now) config (claims_of J.claimed groups.new.items)
        (filter is_delivery (before ++ received J.Commitment.bytes message.now ∷ []))
        (entries_of J.Commitment.bytes J.plain J.finalization J.notarization entries.new.items)) }
{
    match message {
        Message::Deliver {
            ticket,
            delivery,
            value,
        } => {
            let annotations = delivery.annotations.as_slice();
            let place = admit(judge, alloc, groups, delivery.key, annotations, value)?;
            push(
                entries,
                Entry {
                    ticket: *ticket,
                    key: delivery.key,
                    place,
                },
            )?;
            Ok(())
        }
        Message::Produce { .. } => Ok(()),
    }
}

// Reads all messages.
fn enter_all<J: Judge>(
    judge: &J,
    alloc: Global,
    messages: &[Message<J::Commitment>],
    groups: &mut Vec<Group<J::Scope, J::Claim>>,
    entries: &mut Vec<Entry<J::Commitment, J::Block, J::Finalization, J::Notarization>>,
) -> Result<(), AllocError>
    requires groups { groups.old.items ≡ [] }
    requires entries { entries.old.items ≡ [] }
    ensures groups { OnOk result (AreGroups J.claimed (J.judges judge.now) (J.rules judge.now).scoped
        groups.new.items) }
    ensures entries { (config : Config) → OnOk result (AreEntriesOf (J.rules judge.now) config
        (claims_of J.claimed groups.new.items) (filter is_delivery (map (received J.Commitment.bytes) messages.now))
        (entries_of J.Commitment.bytes J.plain J.finalization J.notarization entries.new.items)) }
{
    'messages: for message in messages {
        enter_message(judge, alloc, groups, entries, message)?;
    }
    Ok(())
}

// Whether a delivery waits for a verdict.
fn waits<B, F, N>(place: &Place<B, F, N>) -> bool
    ensures { (plain : B → PlainBlock) (finalization : F → Finalization) (notarization : N → Finalization)
        → result ≡ is_waiting (place_of plain finalization notarization place.now) }
{
    match place {
        Place::Finished(_, _) => false,
        Place::Finalized(_, _, _) | Place::Notarized(_, _, _) => true,
    }
}

// The outcome of one delivery is told behind the others.
fn tell<J: Judge>(
    judge: &J,
    alloc: Global,
    groups: &[Group<J::Scope, J::Claim>],
    told: &[Vec<bool>],
    entry: Entry<J::Commitment, J::Block, J::Finalization, J::Notarization>,
    verdicts: &mut Vec<Verdict<J::Commitment, J::Block, J::Finalization, J::Notarization>>,
) -> Result<(), AllocError>
    ensures { (config : Config) (bytes : List ℕ) (annotations : List Annotation)
        → map vec_items told.now ≡ verdicts_on (J.rules judge.now) (claims_of J.claimed groups.now)
        → IsPlacedAs (J.rules judge.now) config (claims_of J.claimed groups.now)
        (key_of J.Commitment.bytes entry.key) bytes annotations
        (place_of J.plain J.finalization J.notarization entry.place)
        → OnOk result (TellsOne (J.rules judge.now) config bytes annotations entry.ticket
        (key_of J.Commitment.bytes entry.key)
        (map (plain_verdict J.Commitment.bytes J.plain J.finalization J.notarization) verdicts.old.items)
        (map (plain_verdict J.Commitment.bytes J.plain J.finalization J.notarization) verdicts.new.items)) }
{
    let Entry { ticket, key, place } = entry;
    let (outcome, answer) = conclude(judge, alloc, groups, told, place)?;
    let verdict = Verdict {
        ticket,
        key,
        outcome,
        answer,
    };
    match push(verdicts, verdict) {
        Ok(_place) => Ok(()),
        Err(error) => Err(error),
    }
}

// The verdicts on all deliveries: first those that came to none of a certificate, then the others, each in order.
fn tell_all<J: Judge>(
    judge: &J,
    alloc: Global,
    groups: &[Group<J::Scope, J::Claim>],
    told: &[Vec<bool>],
    entries: Vec<Entry<J::Commitment, J::Block, J::Finalization, J::Notarization>>,
) -> Result<Vec<Verdict<J::Commitment, J::Block, J::Finalization, J::Notarization>>, AllocError>
    ensures { (config : Config) (messages : List PeerMessage)
        → map vec_items told.now ≡ verdicts_on (J.rules judge.now) (claims_of J.claimed groups.now)
        → AreEntriesOf (J.rules judge.now) config (claims_of J.claimed groups.now) messages
        (entries_of J.Commitment.bytes J.plain J.finalization J.notarization entries.items)
        → IfOk result (λ v. JudgedAll (J.rules judge.now).reading (settled (J.rules judge.now) config) messages
        (map (plain_verdict J.Commitment.bytes J.plain J.finalization J.notarization) v.items)) }
{
    let mut first = Vec::new(alloc);
    let mut second = Vec::new(alloc);
    'entries: for entry in entries {
        if waits(&entry.place) {
            tell(judge, alloc, groups, told, entry, &mut second)?;
        } else {
            tell(judge, alloc, groups, told, entry, &mut first)?;
        }
    }
    match first.append(&mut second) {
        Ok(()) => Ok(first),
        Err(_) => Err(AllocError),
    }
}

/// Judges the deliveries among messages that were taken together. A block that came for its commitment, and what is
/// Ignored or Invalid before any verdict, is finished in the order in which it is read; the others follow, in order,
/// once the certificates were verified, an epoch at a time. The messages are only lent: where memory runs out nothing
/// of them is lost.
pub fn judge<J: Judge>(
    judge: &J,
    alloc: Global,
    messages: &[Message<J::Commitment>],
) -> Result<Vec<Verdict<J::Commitment, J::Block, J::Finalization, J::Notarization>>, AllocError>
    ensures { (config : Config) → IfOk result (λ v. JudgesEach (J.rules judge.now).reading (settled
        (J.rules judge.now) config)
        (map (received J.Commitment.bytes) messages.now)
        (map (plain_verdict J.Commitment.bytes J.plain J.finalization J.notarization) v.items)) }
{
    let mut groups = Vec::new(alloc);
    let mut entries = Vec::new(alloc);
    enter_all(judge, alloc, messages, &mut groups, &mut entries)?;
    let told = verify_all(judge, alloc, groups.as_slice())?;
    tell_all(judge, alloc, groups.as_slice(), told.as_slice(), entries)
}
