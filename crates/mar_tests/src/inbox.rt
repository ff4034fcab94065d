//! What comes for tickets, and by what callers ask.
use crate::tell::*;
use mar_inbox::*;
use mar_types::Height;
use std::alloc::Global;
use std::process::Abort;

// Whether an answer and a closing stand, another ticket waits, and both are handed over.
fn answers_stand(rt: &impl Abort, alloc: Global) -> bool {
    let mut table: AnswerTable<u64> = AnswerTable::new(alloc);
    given(rt, table.put(7, 70));
    given(rt, table.close(8));
    let are_there = matches!(table.poll(7), Standing::Value(value) if *value == 70)
        & matches!(table.poll(8), Standing::Closed)
        & (table.answers().len() == 2);
    are_there & matches!(table.poll(9), Standing::Waiting) & (table.into_answers().len() == 2)
}

type Plain = Message<u64, u64, u64, u64>;

fn has_ticket(message: Plain, want: Option<u64>) -> bool {
    message.ticket() == want
}

// Whether heights, digests and the identifiers of stores are asked by as what they are.
fn are_identified() -> bool {
    let by_height: Identifier<u64> = Height::new(7).into();
    let by_digest: Identifier<u64> = (&5u64).into();
    let by_key: Identifier<u64> = mar_store::Identifier::Key(6).into();
    matches!(by_height, Identifier::Height(height) if height.get() == 7)
        & matches!(by_digest, Identifier::Digest(digest) if digest == 5)
        & matches!(by_key, Identifier::Digest(digest) if digest == 6)
}

#[test]
fn what_comes_for_tickets(rt: HostRuntime) {
    holds(&rt, answers_stand(&rt, rt.alloc()));
    holds(
        &rt,
        has_ticket(Message::GetProcessed { ticket: 4 }, Some(4)),
    );
    holds(&rt, has_ticket(Message::Notarization(1), None));
    holds(&rt, are_identified());
}
