//! Blocks that are kept in the cache for callers, who are told which sync makes them durable, and that it has finished.
ghost use Rattle.std.specs.Prelude.{◌≡◌, ◌++◌, ◌∷◌, [], IfErr, List, OnErr, OnOk, Option, map, option_to_list, true};
ghost use Rattle.mar_block.specs.Recipients.{named};
ghost use Rattle.mar_block.specs.Sent.{Sends};
ghost use Rattle.mar_inbox.specs.Answers.{told};
ghost use Rattle.mar_inbox.specs.Views.{peers_of, sent_by, value_of};
ghost use Rattle.mar_key.specs.Keys.{Call};
ghost use Rattle.mar_model.specs.Acts.{finish_kept as finish_kept_act, keep_certified as keep_certified_act, keep_verified as keep_verified_act};
ghost use Rattle.mar_model.specs.Acts.{IsKeepFault, keeps_for, kept_value, says, send as send_act};
ghost use Rattle.mar_model.specs.OpenSyncs.{waits_for};
ghost use Rattle.mar_model.specs.Plans.{prepared_plan, sent_block};
ghost use Rattle.mar_model.specs.Promise.{heard_with};
ghost use Rattle.mar_model.specs.Ran.{Does, does};
ghost use Rattle.mar_model.specs.Scene.{Standing, Window, scene};
ghost use Rattle.mar_model.specs.Step.{Report};
ghost use Rattle.mar_model.specs.Answers.{Sent, TicketAnswer, to, true_value};
ghost use Rattle.mar_model.specs.Cache.{certified_covers, is_verified_of, notarized_where, verified_at};
ghost use Rattle.mar_model.specs.Cached.{notarized_entry, verified_entry};
ghost use Rattle.mar_model.specs.Faults.{want_of_memory};
ghost use Rattle.mar_model.specs.Held.{GoesOn, Held, IsUsual, nothing_written, written_entry};
ghost use Rattle.mar_model.specs.Moves.{FinishesCacheSync};
ghost use Rattle.mar_model.specs.Views.{fault_of};
ghost use Rattle.mar_store.specs.Sizes.{IsSmall};
ghost use Rattle.std.specs.List.{list_any};
ghost use Rattle.mar_actor.specs.Kept.{KeepsAndAnswers, SendsFront};

use crate::send::send;
use mar_block::{Buffer, Recipients, Variant};
use mar_inbox::{AnswerTable, Value};
use mar_model::{Fault, Holds};
use mar_rules::{keep_certified, keep_verified};
use mar_types::{Participant, Round};

/// Keeps a block that was verified in a round, and answers which sync makes it durable.
pub(crate) fn verify<V: Variant, S: Holds<V>>(
    stores: &mut S,
    ticket: u64,
    round: Round,
    block: V::Block,
    answers: &mut AnswerTable<Value<V::Digest, V::Block, S::Finalization>>,
) -> Result<(), Fault<V::Commitment>>
    requires small { IsSmall (V.plain block).encoded }
    requires intact { (S.held stores.old).intact ≡ true }
    ensures runs { (life : Window) (standing : Standing) (heard : Option (List Report)) (asks : Option (List Call)) (sends : Option (List Sent))
        → Does V.inner (fault_of V.Commitment.bytes) (does (keeps_for (keep_verified_act round (V.plain block) ticket)) ∷ [])
        (scene (S.held stores.old) life standing (heard_with heard asks sends
        (told (value_of V.Digest.bytes V.plain S.Finalization.plain) answers.old)))
        (scene (S.held stores.new) life standing (heard_with heard asks sends
        (told (value_of V.Digest.bytes V.plain S.Finalization.plain) answers.new))) result }
    ensures unanswered { OnErr result (answers.new ≡ answers.old) }
{
    let kept = keep_and_answer::<V, S>(stores, ticket, round, block, answers);
    stores.law();
    kept
}

// Keeps the block, and answers.
fn keep_and_answer<V: Variant, S: Holds<V>>(
    stores: &mut S,
    ticket: u64,
    round: Round,
    block: V::Block,
    answers: &mut AnswerTable<Value<V::Digest, V::Block, S::Finalization>>,
) -> Result<(), Fault<V::Commitment>>
    requires small { IsSmall (V.plain block).encoded }
    ensures keeps { OnOk result (KeepsAndAnswers round.epoch (verified_entry round (V.plain block) ∷ []) (is_verified_of round.epoch) ticket
        (S.held stores.old) (S.held stores.new) (told (value_of V.Digest.bytes V.plain S.Finalization.plain) answers.old)
        (told (value_of V.Digest.bytes V.plain S.Finalization.plain) answers.new)) }
    ensures unanswered { OnErr result (answers.new ≡ answers.old) }
    ensures goes_on { GoesOn (fault_of V.Commitment.bytes) (S.held stores.old) (written_entry (verified_entry round (V.plain block))) (S.held stores.new)
        result }
    ensures kind { IfErr result (λ e. IsKeepFault round.epoch (S.held stores.old) (fault_of V.Commitment.bytes e)) }
{
    match keep_verified(stores, round, block, ticket) {
        Ok(sync) => answer_kept::<V, S>(answers, ticket, sync),
        Err(fault) => Err(fault),
    }
}

/// Keeps a block that was certified in a round, and answers which sync makes it durable together with its notarization.
pub(crate) fn certify<V: Variant, S: Holds<V>>(
    stores: &mut S,
    ticket: u64,
    round: Round,
    block: V::Block,
    answers: &mut AnswerTable<Value<V::Digest, V::Block, S::Finalization>>,
) -> Result<(), Fault<V::Commitment>>
    requires small { IsSmall (V.plain block).encoded }
    requires intact { (S.held stores.old).intact ≡ true }
    ensures runs { (life : Window) (standing : Standing) (heard : Option (List Report)) (asks : Option (List Call)) (sends : Option (List Sent))
        → Does V.inner (fault_of V.Commitment.bytes) (does (keeps_for (keep_certified_act round (V.plain block) ticket)) ∷ [])
        (scene (S.held stores.old) life standing (heard_with heard asks sends
        (told (value_of V.Digest.bytes V.plain S.Finalization.plain) answers.old)))
        (scene (S.held stores.new) life standing (heard_with heard asks sends
        (told (value_of V.Digest.bytes V.plain S.Finalization.plain) answers.new))) result }
    ensures unanswered { OnErr result (answers.new ≡ answers.old) }
{
    let kept = certify_and_answer::<V, S>(stores, ticket, round, block, answers);
    stores.law();
    kept
}

// Keeps the block, and answers.
fn certify_and_answer<V: Variant, S: Holds<V>>(
    stores: &mut S,
    ticket: u64,
    round: Round,
    block: V::Block,
    answers: &mut AnswerTable<Value<V::Digest, V::Block, S::Finalization>>,
) -> Result<(), Fault<V::Commitment>>
    requires intact { (S.held stores.old).intact ≡ true }
    requires small { IsSmall (V.plain block).encoded }
    ensures keeps { OnOk result (KeepsAndAnswers round.epoch
        (notarized_where (list_any (verified_at round (V.plain block)) (S.held stores.old).cache.kept.held) round (V.plain block))
        (certified_covers round.epoch (list_any (verified_at round (V.plain block)) (S.held stores.old).cache.kept.held)) ticket
        (S.held stores.old) (S.held stores.new) (told (value_of V.Digest.bytes V.plain S.Finalization.plain) answers.old)
        (told (value_of V.Digest.bytes V.plain S.Finalization.plain) answers.new)) }
    ensures unanswered { OnErr result (answers.new ≡ answers.old) }
    ensures goes_on { GoesOn (fault_of V.Commitment.bytes) (S.held stores.old) (written_entry (notarized_entry round (V.plain block))) (S.held stores.new)
        result }
    ensures kind { IfErr result (λ e. IsKeepFault round.epoch (S.held stores.old) (fault_of V.Commitment.bytes e)) }
{
    match keep_certified(stores, round, block, ticket) {
        Ok(sync) => answer_kept::<V, S>(answers, ticket, sync),
        Err(fault) => Err(fault),
    }
}

/// Sends a block that was proposed here, and then keeps it as a verified one. Where it could not be kept it may have been sent.
pub(crate) fn propose<V: Variant, S: Holds<V>, B: Buffer<V>>(
    stores: &mut S,
    ticket: u64,
    round: Round,
    recipients: Recipients<Participant>,
    block: V::Block,
    buffer: &mut B,
    answers: &mut AnswerTable<Value<V::Digest, V::Block, S::Finalization>>,
) -> Result<(), Fault<V::Commitment>>
    requires small { IsSmall (V.plain block).encoded }
    requires intact { (S.held stores.old).intact ≡ true }
    ensures runs { (life : Window) (standing : Standing) (heard : Option (List Report)) (asks : Option (List Call))
        → Does V.inner (fault_of V.Commitment.bytes) (does (says (send_act (sent_block round (peers_of recipients) (V.plain block))))
        ∷ does (keeps_for (keep_verified_act round (V.plain block) ticket)) ∷ [])
        (scene (S.held stores.old) life standing (heard_with heard asks (sent_by (B.sent buffer.old))
        (told (value_of V.Digest.bytes V.plain S.Finalization.plain) answers.old)))
        (scene (S.held stores.new) life standing (heard_with heard asks (sent_by (B.sent buffer.new))
        (told (value_of V.Digest.bytes V.plain S.Finalization.plain) answers.new))) result }
    ensures unanswered { OnErr result (answers.new ≡ answers.old) }
    ensures sends { OnOk result (Sends (B.sent buffer.old) (record { round = round; block = V.plain block; peers = named recipients } ∷ [])
        (B.sent buffer.new)) }
    ensures sent { OnErr result (SendsFront (B.sent buffer.old) (record { round = round; block = V.plain block; peers = named recipients } ∷ [])
        (B.sent buffer.new)) }
    ensures blocks { B.blocks buffer.new ≡ B.blocks buffer.old }
    ensures notifies { B.notifies buffer.new ≡ B.notifies buffer.old }
{
    match send_copy::<V, B>(buffer, round, &block, recipients) {
        Ok(()) => verify::<V, S>(stores, ticket, round, block, answers),
        Err(fault) => Err(fault),
    }
}

// Has the buffer send another handle of a block.
fn send_copy<V: Variant, B: Buffer<V>>(
    buffer: &mut B,
    round: Round,
    block: &V::Block,
    recipients: Recipients<Participant>,
) -> Result<(), Fault<V::Commitment>>
    ensures sends { OnOk result (Sends (B.sent buffer.old) (record { round = round; block = V.plain block.now; peers = named recipients } ∷ [])
        (B.sent buffer.new)) }
    ensures unsent { OnErr result (Sends (B.sent buffer.old) [] (B.sent buffer.new)) }
    ensures blocks { B.blocks buffer.new ≡ B.blocks buffer.old }
    ensures notifies { B.notifies buffer.new ≡ B.notifies buffer.old }
    ensures runs { (held : Held) (life : Window) (standing : Standing) (told : Option (List Report)) (asks : Option (List Call)) (answers : List TicketAnswer)
        → Does V.inner (fault_of V.Commitment.bytes) (prepared_plan (sent_block round (peers_of recipients) (V.plain block.now)))
        (scene held life standing (heard_with told asks (sent_by (B.sent buffer.old)) answers))
        (scene held life standing (heard_with told asks (sent_by (B.sent buffer.new)) answers)) result }
{
    match V::try_clone(block) {
        Ok(copy) => send::<V, B>(buffer, round, copy, recipients),
        Err(_) => Err(Fault::Memory),
    }
}

// Answers which sync makes a block durable, or that there is nothing to wait for.
fn answer_kept<V: Variant, S: Holds<V>>(
    answers: &mut AnswerTable<Value<V::Digest, V::Block, S::Finalization>>,
    ticket: u64,
    sync: Option<u64>,
) -> Result<(), Fault<V::Commitment>>
    ensures answered { OnOk result (told (value_of V.Digest.bytes V.plain S.Finalization.plain) answers.new
        ≡ told (value_of V.Digest.bytes V.plain S.Finalization.plain) answers.old ++ to ticket (kept_value sync) ∷ []) }
    ensures unanswered { OnErr result (answers.new ≡ answers.old) }
    ensures memory { IfErr result (λ e. fault_of V.Commitment.bytes e ≡ want_of_memory) }
{
    let value = match sync {
        Some(sync) => Value::Sync(sync),
        None => Value::True,
    };
    match answers.put(ticket, value) {
        Ok(()) => Ok(()),
        Err(_) => Err(Fault::Memory),
    }
}

/// Finishes the sync of the cache of a ticket, and answers the caller that waits for it.
pub(crate) fn finish_kept<V: Variant, S: Holds<V>>(
    stores: &mut S,
    ticket: u64,
    answer: Option<u64>,
    answers: &mut AnswerTable<Value<V::Digest, V::Block, S::Finalization>>,
) -> Result<(), Fault<V::Commitment>>
    requires intact { (S.held stores.old).intact ≡ true }
    requires waits { waits_for ticket (S.held stores.old).cache.syncs ≡ answer }
    ensures runs { (life : Window) (standing : Standing) (heard : Option (List Report)) (asks : Option (List Call)) (sends : Option (List Sent))
        → Does V.inner (fault_of V.Commitment.bytes) (does (keeps_for (finish_kept_act ticket)) ∷ [])
        (scene (S.held stores.old) life standing (heard_with heard asks sends
        (told (value_of V.Digest.bytes V.plain S.Finalization.plain) answers.old)))
        (scene (S.held stores.new) life standing (heard_with heard asks sends
        (told (value_of V.Digest.bytes V.plain S.Finalization.plain) answers.new))) result }
    ensures unanswered { OnErr result (answers.new ≡ answers.old) }
{
    let finished = finish_and_answer::<V, S>(stores, ticket, answer, answers);
    stores.law();
    finished
}

// Finishes the sync, and answers.
fn finish_and_answer<V: Variant, S: Holds<V>>(
    stores: &mut S,
    ticket: u64,
    answer: Option<u64>,
    answers: &mut AnswerTable<Value<V::Digest, V::Block, S::Finalization>>,
) -> Result<(), Fault<V::Commitment>>
    ensures finishes { OnOk result (FinishesCacheSync ticket (S.held stores.old) (S.held stores.new)) }
    ensures answered { OnOk result (told (value_of V.Digest.bytes V.plain S.Finalization.plain) answers.new
        ≡ told (value_of V.Digest.bytes V.plain S.Finalization.plain) answers.old ++ map (λ a. to a true_value) (option_to_list answer)) }
    ensures unanswered { OnErr result (answers.new ≡ answers.old) }
    ensures goes_on { GoesOn (fault_of V.Commitment.bytes) (S.held stores.old) nothing_written (S.held stores.new) result }
    ensures usual { IfErr result (λ e. IsUsual (fault_of V.Commitment.bytes e)) }
{
    match stores.finish_cache_sync(ticket) {
        Ok(()) => answer_finished::<V, S>(answers, answer),
        Err(fault) => Err(fault),
    }
}

// Tells the caller that waits for a sync, where there is one, that it has finished.
fn answer_finished<V: Variant, S: Holds<V>>(
    answers: &mut AnswerTable<Value<V::Digest, V::Block, S::Finalization>>,
    answer: Option<u64>,
) -> Result<(), Fault<V::Commitment>>
    ensures answered { OnOk result (told (value_of V.Digest.bytes V.plain S.Finalization.plain) answers.new
        ≡ told (value_of V.Digest.bytes V.plain S.Finalization.plain) answers.old ++ map (λ a. to a true_value) (option_to_list answer)) }
    ensures unanswered { OnErr result (answers.new ≡ answers.old) }
    ensures memory { IfErr result (λ e. fault_of V.Commitment.bytes e ≡ want_of_memory) }
{
    let Some(ticket) = answer else {
        return Ok(());
    };
    match answers.put(ticket, Value::True) {
        Ok(()) => Ok(()),
        Err(_) => Err(Fault::Memory),
    }
}
