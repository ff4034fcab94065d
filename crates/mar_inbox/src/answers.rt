//! What callers are answered, by their tickets.
ghost use Rattle.std.specs.Prelude.{◌≡◌, ◌==◌, ◌++◌, ◌∷◌, [], OnErr, OnOk, Some, if◌then◌else◌, not, option_copied, option_map, slice_get};
ghost use Rattle.std.specs.List.{list_any};
ghost use Rattle.mar_inbox.specs.Answers.{came_of, is_waiting, standing, stood_after};

use std::alloc::{AllocError, Global};
use std::collections::BTreeMap;
use std::marker::Model;

/// What comes for a ticket.
#[derive(Drop)]
pub enum Answer<V> {
    /// This is what its holder is answered.
    Value(V),
    /// Its holder waits no more. An answer that came before stays.
    Closed,
}

/// What came for a ticket.
#[derive(Drop)]
pub struct Answered<V> {
    pub ticket: u64,
    pub answer: Answer<V>,
}

/// How a ticket stands.
#[derive(Drop)]
pub enum Standing<'a, V> {
    /// Neither an answer nor a closing has come.
    Waiting,
    /// This is the answer, of several the latest.
    Value(&'a V),
    /// It was closed before an answer came, and none will.
    Closed,
}

/// What callers are answered, with values of the kind `V`: all answers and closings, in the order in which they came. A
/// contract sees the list of them.
///
/// A ticket may be answered more than once, as where a sync is started and then finished. The latest answer stands. A
/// closing ends a wait alone: it takes no answer away, and a ticket that was closed stays so.
#[derive(Drop)]
pub struct AnswerTable<V> {
    alloc: Global,
    answers: Vec<Answered<V>>,
    // The place of what stands for each ticket.
    places: BTreeMap<u64, usize>,
}

impl<V> Model for AnswerTable<V> {
    ghost use Rattle.std.specs.Prelude.{ℕ, List};
    ghost use Rattle.std.specs.BTreeMap.{get};
    ghost use Rattle.std.specs.Ordering.{nat_cmp};
    ghost use Rattle.mar_inbox.specs.Answers.{StandsAt};
    ghost use Rattle.mar_inbox.specs.declared.answers.Answered.{Answered};

    ghost Value = { List (Answered V) };

    ghost view = { λ t. t.answers.items };

    ghost invariant = { λ t. (ticket : ℕ) → StandsAt t.answers.items ticket (get nat_cmp t.places ticket) };
}

impl<V: Drop> AnswerTable<V> {
    /// Nothing has come yet.
    pub fn new(alloc: Global) -> Self
        ensures { result ≡ [] }
    {
        AnswerTable {
            alloc,
            answers: Vec::new(alloc),
            places: BTreeMap::new(alloc),
        }
    }

    /// Answers the holder of a ticket. Where memory runs out nothing changes.
    pub fn put(&mut self, ticket: u64, value: V) -> Result<(), AllocError>
        ensures ok { OnOk result (self.new ≡ self.old ++ record { ticket = ticket; answer = Answer.Value value } ∷ []) }
        ensures err { OnErr result (self.new ≡ self.old) }
    {
        self.push(Answered {
            ticket,
            answer: Answer::Value(value),
        })
    }

    /// Closes a ticket: where no answer has come, none will. Where memory runs out nothing changes.
    pub fn close(&mut self, ticket: u64) -> Result<(), AllocError>
        ensures ok { OnOk result (self.new ≡ self.old ++ record { ticket = ticket; answer = Answer.Closed } ∷ []) }
        ensures err { OnErr result (self.new ≡ self.old) }
    {
        self.push(Answered {
            ticket,
            answer: Answer::Closed,
        })
    }

    /// How a ticket stands: it waits exactly while neither an answer nor a closing has come for it.
    pub fn poll(&self, ticket: u64) -> Standing<'_, V>
        ensures standing { came_of result ≡ standing self.now ticket }
        ensures waiting { is_waiting result ≡ not (list_any (λ a. a.ticket == ticket) self.now) }
    {
        match self.standing(ticket) {
            None => Standing::Waiting,
            Some(Answer::Value(value)) => Standing::Value(value),
            Some(Answer::Closed) => Standing::Closed,
        }
    }

    /// All that came, in order.
    pub fn answers(&self) -> &[Answered<V>]
        ensures { result.now ≡ self.now }
    {
        self.answers.as_slice()
    }

    /// Hands over all that came, in order. Nothing is left behind that could be asked how a ticket stands, so that no
    /// ticket that was answered waits again.
    pub fn into_answers(self) -> Vec<Answered<V>>
        ensures { result.items ≡ self }
    {
        let AnswerTable { answers, .. } = self;
        answers
    }

    // What stands for a ticket.
    fn standing(&self, ticket: u64) -> Option<&Answer<V>>
        ensures { option_copied result ≡ standing self.now ticket }
    {
        match self.places.get(&ticket) {
            Some(place) => answer_at(&self.answers, *place),
            None => None,
        }
    }

    // Adds what came behind all else.
    fn push(&mut self, came: Answered<V>) -> Result<(), AllocError>
        ensures ok { OnOk result (self.new ≡ self.old ++ came ∷ []) }
        ensures err { OnErr result (self.new ≡ self.old) }
    {
        let place = self.answers.len();
        self.answers.reserve(1)?;
        if !takes_over(self.standing(came.ticket), &came.answer) {
            self.answers.push_reserved(came);
            return Ok(());
        }
        self.places.insert(came.ticket, place)?;
        self.answers.push_reserved(came);
        Ok(())
    }
}

// The answer at a place of the list.
fn answer_at<V>(answers: &[Answered<V>], place: usize) -> Option<&Answer<V>>
    ensures { option_copied result ≡ option_map (λ a. a.answer) (slice_get answers.now place) }
{
    match answers.get(place) {
        Some(answered) => Some(&answered.answer),
        None => None,
    }
}

// Whether what came for a ticket takes the place of what stands for it.
fn takes_over<V>(stood: Option<&Answer<V>>, came: &Answer<V>) -> bool
    ensures { stood_after (option_copied stood.entry) came.now ≡ (if result then Some came.now else option_copied stood.entry) }
{
    match (stood, came) {
        (None, _) => true,
        (Some(Answer::Value(_)), Answer::Value(_)) => true,
        _ => false,
    }
}
