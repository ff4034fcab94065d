//! Syncs that are finished.
ghost use Rattle.std.specs.Prelude.{◌≡◌, List, Ok, OnErr, Option, false, true};
ghost use Rattle.mar_inbox.specs.Answers.{told};
ghost use Rattle.mar_inbox.specs.Views.{value_of};
ghost use Rattle.mar_key.specs.Keys.{Call};
ghost use Rattle.mar_model.specs.Answers.{Sent, TicketAnswer};
ghost use Rattle.mar_model.specs.OpenSyncs.{is_cache_sync};
ghost use Rattle.mar_model.specs.Plans.{finish_plan, sync_plan};
ghost use Rattle.mar_model.specs.Promise.{heard_with};
ghost use Rattle.mar_model.specs.Ran.{Does};
ghost use Rattle.mar_model.specs.Scene.{Standing, scene};
ghost use Rattle.mar_model.specs.Views.{fault_of};
ghost use Rattle.mar_model.specs.Writing.{is_open_sync};

use crate::caching::finish_kept;
use crate::dispatch::dispatch;
use crate::life::Window;
use crate::reporter::Reporter;
use mar_block::Variant;
use mar_inbox::{AnswerTable, Value};
use mar_model::{Fault, Holds};
use mar_rules::let_go;

/// Finishes the sync of a ticket: of blocks that were kept for a caller, who is answered, or of finalized ones, of which more
/// may be handed over. A ticket that isn't open changes nothing.
pub(crate) fn finish<V, S, A>(
    stores: &mut S,
    window: &mut Window,
    ticket: u64,
    answers: &mut AnswerTable<Value<V::Digest, V::Block, S::Finalization>>,
    application: &mut A,
) -> Result<(), Fault<V::Commitment>>
where
    V: Variant,
    S: Holds<V>,
    A: Reporter<V>,
    requires intact { (S.held stores.old).intact ≡ true }
    ensures runs { (standing : Standing) (asks : Option (List Call)) (sends : Option (List Sent))
        → Does V.inner (fault_of V.Commitment.bytes) (finish_plan (S.held stores.old) ticket)
        (scene (S.held stores.old) window.old standing (heard_with (A.told application.old) asks sends
        (told (value_of V.Digest.bytes V.plain S.Finalization.plain) answers.old)))
        (scene (S.held stores.new) window.new standing (heard_with (A.told application.new) asks sends
        (told (value_of V.Digest.bytes V.plain S.Finalization.plain) answers.new))) result }
    ensures unanswered { OnErr result (answers.new ≡ answers.old) }
    ensures idle { is_open_sync (S.held stores.old).writes.syncs ticket ≡ false → is_cache_sync (S.held stores.old).cache.syncs ticket ≡ false
        → (result ≡ Ok tt) × (S.held stores.new ≡ S.held stores.old) × (window.new ≡ window.old) }
{
    match stores.cache_syncs().find(ticket) {
        Some(open) => finish_kept::<V, S>(stores, ticket, open.answer, answers),
        None => finish_sync::<V, S, A>(stores, window, ticket, application),
    }
}

/// Finishes the sync of both archives of a ticket, which lets go the writes that it covers, and hands over what may follow. A
/// ticket that isn't open changes nothing; it is none of the cache.
fn finish_sync<V, S, A>(
    stores: &mut S,
    window: &mut Window,
    ticket: u64,
    application: &mut A,
) -> Result<(), Fault<V::Commitment>>
where
    V: Variant,
    S: Holds<V>,
    A: Reporter<V>,
    requires intact { (S.held stores.old).intact ≡ true }
    ensures runs { (standing : Standing) (asks : Option (List Call)) (sends : Option (List Sent)) (answers : List TicketAnswer)
        → Does V.inner (fault_of V.Commitment.bytes) (sync_plan (is_open_sync (S.held stores.old).writes.syncs ticket) ticket)
        (scene (S.held stores.old) window.old standing (heard_with (A.told application.old) asks sends answers))
        (scene (S.held stores.new) window.new standing (heard_with (A.told application.new) asks sends answers)) result }
    ensures idle { is_open_sync (S.held stores.old).writes.syncs ticket ≡ false
        → (result ≡ Ok tt) × (S.held stores.new ≡ S.held stores.old) × (window.new ≡ window.old) }
{
    if !let_go::<V, S>(stores, ticket)? {
        return Ok(());
    }
    dispatch::<V, S, A>(stores, window, application)
}
