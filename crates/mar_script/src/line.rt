//! The lines of a script behind the first.
ghost use Rattle.std.specs.Prelude.{◌≡◌, ℕ, IfOk};
ghost use Rattle.mar_script.specs.Lines.{IsLone, MadeOf, Parses, Spells, plain_line, row};
ghost use Rattle.mar_script.specs.Script.{IsSettings, Line as PlainLine};
ghost use Rattle.mar_script.specs.Words.{Yields};

use crate::block_line::block_of;
use crate::message_line::{MessageKind, ScriptMessage, parse_message};
use crate::settings::Settings;
use crate::words::{ParseError, look_up_first, number};
use mar_block::EmptyBlock;
use mar_inbox::Message;
use mar_model::StoreName;
use mar_types::{Digested, Sha256};
use std::alloc::Global;

/// A line of a script behind the first.
#[derive(Drop)]
pub enum Line {
    /// Opens a life from this block at height zero.
    OpenGenesis(Digested<EmptyBlock<Sha256>>),
    /// Puts a block into the buffer.
    Buffer(Digested<EmptyBlock<Sha256>>),
    /// Tells the node a message, under the next answer ticket where it takes one.
    Tell(ScriptMessage),
    /// The sync of this ticket finishes.
    Sync(u64),
    /// The block of this ticket is acknowledged.
    Ack(u64),
    /// The acknowledgement of this ticket is dropped.
    Drop(u64),
    /// The counted call of this store fails that is so many calls away, 1 being the next.
    Fail(StoreName, u64),
    /// The life ends at once, and the next opening has this luck.
    Crash(u64),
}

// What a line of several words is, by its first.
#[derive(Clone, Copy)]
enum Kind {
    Open,
    Buffer,
    Tell(MessageKind),
    Sync,
    Ack,
    Drop,
    Fail,
    Crash,
}

// The first word of each kind of line.
const KINDS: [(&[u8], Kind); 19] = [
    (b"open", Kind::Open),
    (b"buffer", Kind::Buffer),
    (b"final", Kind::Tell(MessageKind::Final)),
    (b"notar", Kind::Tell(MessageKind::Notar)),
    (b"certn", Kind::Tell(MessageKind::Certn)),
    (b"info", Kind::Tell(MessageKind::Info)),
    (b"block", Kind::Tell(MessageKind::Block)),
    (b"finalization", Kind::Tell(MessageKind::Finalization)),
    (b"getverified", Kind::Tell(MessageKind::GetVerified)),
    (b"verified", Kind::Tell(MessageKind::Verified)),
    (b"certified", Kind::Tell(MessageKind::Certified)),
    (b"proposed", Kind::Tell(MessageKind::Proposed)),
    (b"prepared", Kind::Tell(MessageKind::Prepared)),
    (b"hint", Kind::Tell(MessageKind::Hint)),
    (b"sync", Kind::Sync),
    (b"ack", Kind::Ack),
    (b"drop", Kind::Drop),
    (b"fail", Kind::Fail),
    (b"crash", Kind::Crash),
];

// What a life is opened from, by its word.
const BEGINS: [(&[u8], ()); 1] = [(b"genesis", ())];

// The stores, by their names.
const STORES: [(&[u8], StoreName); 4] = [
    (b"blocks", StoreName::Blocks),
    (b"certs", StoreName::Certs),
    (b"meta", StoreName::Meta),
    (b"cache", StoreName::Cache),
];

/// The line that these bytes spell, without its end.
pub fn parse_line(alloc: Global, settings: Settings, line: &[u8]) -> Result<Line, ParseError>
    requires { IsSettings settings }
    ensures found { IfOk result (λ l. Spells settings.members line.now (plain_line l)) }
    ensures only { (l : PlainLine) → Spells settings.members line.now l → Yields (λ found. plain_line found ≡ l) result }
{
    match look_up_first(&KINDS, line) {
        Some((kind, rest)) => parse_kind(alloc, settings.members as u32, kind, rest),
        None => lone_line(line),
    }
}

// The line of this one word.
fn lone_line(word: &[u8]) -> Result<Line, ParseError>
    ensures { Parses plain_line (IsLone word.now) result }
{
    if word == b"processed".as_slice() {
        return Ok(Line::Tell(Message::GetProcessed { ticket: 0 }));
    }
    if word == b"anchor".as_slice() {
        return Ok(Line::Tell(Message::GetAnchor { ticket: 0 }));
    }
    Err(ParseError::Grammar)
}

// The line of this kind, with these bytes behind its first word and a space.
fn parse_kind(alloc: Global, members: u32, kind: Kind, rest: &[u8]) -> Result<Line, ParseError>
    ensures { Parses plain_line (MadeOf members (row kind) rest.now) result }
{
    match kind {
        Kind::Open => open(alloc, rest),
        Kind::Buffer => block_of(alloc, rest).map(|block| Line::Buffer(block)),
        Kind::Tell(kind) => parse_message(alloc, members, kind, rest).map(|message| Line::Tell(
            message,
        )),
        Kind::Sync => number(rest).map(Line::Sync),
        Kind::Ack => number(rest).map(Line::Ack),
        Kind::Drop => number(rest).map(Line::Drop),
        Kind::Fail => fail(rest),
        Kind::Crash => number(rest).map(Line::Crash),
    }
}

// The line `open` with these words.
fn open(alloc: Global, words: &[u8]) -> Result<Line, ParseError>
    ensures { (n : ℕ) → Parses plain_line (MadeOf n (row Kind.Open) words.now) result }
{
    match look_up_first(&BEGINS, words) {
        Some((_genesis, rest)) => block_of(alloc, rest).map(|block| Line::OpenGenesis(block)),
        None => Err(ParseError::Grammar),
    }
}

// The line `fail` with these words.
fn fail(words: &[u8]) -> Result<Line, ParseError>
    ensures { (n : ℕ) → Parses plain_line (MadeOf n (row Kind.Fail) words.now) result }
{
    let Some((store, rest)) = look_up_first(&STORES, words) else {
        return Err(ParseError::Grammar);
    };
    match number(rest) {
        Ok(calls) => {
            if calls == 0 {
                return Err(ParseError::Grammar);
            }
            Ok(Line::Fail(store, calls))
        }
        Err(error) => Err(error),
    }
}
