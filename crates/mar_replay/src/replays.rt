//! Replays a script over the stores of a node.
ghost use Rattle.std.specs.Prelude.{◌≡◌, ◌+◌, ◌++◌, ◌<◌, ℕ, List, Option, Some, [], false, IfErr, IsErrOf, OnOk};
ghost use Rattle.mar_types.specs.Causes.{Rose};
ghost use Rattle.mar_key.specs.Asked.{Asked};
ghost use Rattle.mar_model.specs.Held.{Remains};
ghost use Rattle.mar_script.specs.Endings.{IsWritersEnd};
ghost use Rattle.mar_script.specs.Lines.{plain_line};
ghost use Rattle.mar_script.specs.Plays.{IsSmallLine};
ghost use Rattle.mar_replay.specs.Playing.{HasSmallBlocks, IsSetAs, TurnsLine, WritesText};
ghost use Rattle.mar_script.specs.Reading.{EndsByLine, IsFirstOutside, Reads, ReplaysWhereTold};
ghost use Rattle.mar_script.specs.Run.{HandsBack, IsShownAs};
ghost use Rattle.mar_script.specs.Script.{IsSettings, config_of, settings_bytes};
ghost use Rattle.mar_script.specs.Streams.{Gives, Takes};
ghost use Rattle.mar_script.specs.Text.{output_text, text};
ghost use Rattle.mar_replay.specs.Turn.{made_in, output_of, remains_in, state_with};

use crate::heard::Heard;
use crate::play::{Left, Outcome, ScriptHolds, State, play};
use crate::turn::{Page, push_turn};
use mar_script::{
    Line, MAX_LINES, ScriptReader, Settings, Sink, Source, Status, Why, first_line, next_line,
    write_text,
};
use std::alloc::Global;

/// How a run ended, and what is left of the stores that it was given.
#[derive(Drop)]
pub struct Finished<L> {
    pub status: Status,
    pub stores: L,
}

/// Reads a script to its end, does its lines one after another, and writes what each makes. All words that ask for it ask
/// for the same.
pub fn replay<S: Source, K: Sink, H: ScriptHolds>(
    alloc: Global,
    _words: &[String],
    source: &mut S,
    sink: &mut K,
    stores: H::Ruins,
) -> Finished<H::Ruins>
    ensures not_usage { result.status ≡ Status.Usage → ⊥ }
    ensures to_end { result.status ≡ Status.Ok → IsShownAs (S.left source.new) [] }
    ensures read_fault { result.status ≡ Status.ReadFault → Rose (S.faults source.old) (S.faults source.new) }
    ensures write_fault { result.status ≡ Status.WriteFault → Rose (K.faults sink.old) (K.faults sink.new) }
    ensures reads { Reads (S.left source.old) (S.left source.new) result.status }
    ensures script { (all : List ℕ) (n : ℕ) (why : Why) → S.left source.old ≡ Some all → result.status ≡ Status.Script n why → IsFirstOutside all n why }
    ensures source_calm { (result.status ≡ Status.ReadFault → ⊥) → S.faults source.new ≡ S.faults source.old }
    ensures sink_calm { (result.status ≡ Status.WriteFault → ⊥) → K.faults sink.new ≡ K.faults sink.old }
    ensures outside { (all : List ℕ) (n : ℕ) (why : Why) → S.left source.old ≡ Some all → IsFirstOutside all n why → EndsByLine n why result.status }
    ensures headline { ReplaysWhereTold (S.left source.old) (S.left source.new) (K.written sink.old) (K.written sink.new) result.status
        (H.Ruins.left stores) (H.Ruins.left result.stores) }
{
    let mut reader = ScriptReader::new(alloc);
    let settings = match first_line(alloc, &mut reader, source) {
        Ok(settings) => settings,
        Err(status) => return Finished { status, stores },
    };
    let state: State<H> = State::Stopped(Left { ruins: stores }, 0);
    let heard = Heard::new(alloc);
    let mut page = Page::new(alloc);
    let more = reader.has_line();
    if let Err(status) = write_turn(alloc, sink, &mut page, &heard, Outcome::Done, &state, more) {
        let stores = left_of(state);
        return Finished { status, stores };
    }
    let (state, status) = later_lines(alloc, settings, &mut reader, source, sink, &mut page, state);
    Finished {
        status,
        stores: left_of(state),
    }
}

// What a crash now leaves.
pub fn left_of<H: ScriptHolds>(state: State<H>) -> H::Ruins
    ensures left { H.Ruins.left result ≡ remains_in state }
    ensures hands_back { (asked : List Asked) → HandsBack (state_with asked state) (H.Ruins.left result).ended }
{
    match state {
        State::Running(actor, _buffer, _pending) => actor.wreck(),
        State::Stopped(left, _luck) => left.ruins,
    }
}

// The lines behind the first.
fn later_lines<S: Source, K: Sink, H: ScriptHolds>(
    alloc: Global,
    settings: Settings,
    reader: &mut ScriptReader,
    source: &mut S,
    sink: &mut K,
    page: &mut Page,
    state: State<H>,
) -> (State<H>, Status)
    requires settings { IsSettings settings }
    requires set { IsSetAs (config_of settings) state }
    requires small { HasSmallBlocks state }
    ensures not_usage { result.1 ≡ Status.Usage → ⊥ }
    ensures to_end { result.1 ≡ Status.Ok → IsShownAs (S.left source.new) [] }
    ensures read_fault { result.1 ≡ Status.ReadFault → Rose (S.faults source.old) (S.faults source.new) }
    ensures write_fault { result.1 ≡ Status.WriteFault → Rose (K.faults sink.old) (K.faults sink.new) }
    ensures source_calm { (result.1 ≡ Status.ReadFault → ⊥) → S.faults source.new ≡ S.faults source.old }
    ensures sink_calm { (result.1 ≡ Status.WriteFault → ⊥) → K.faults sink.new ≡ K.faults sink.old }
    ensures reads { (start : Option (List ℕ)) (taken : List ℕ) → Gives start taken (S.left source.old) → taken ≡ settings_bytes settings ++ reader.old
        → Reads start (S.left source.new) result.1 }
    ensures headline { (start : Option (List ℕ)) (taken : List ℕ) (sunk : Option (List ℕ)) (before : Remains) → Gives start taken (S.left source.old)
        → taken ≡ settings_bytes settings ++ reader.old → state ≡ State.Stopped before 0 → Takes sunk (text before.ended []) (K.written sink.old)
        → ((asked : List Asked) → HandsBack (state_with asked result.0) (remains_in result.0).ended)
        → ReplaysWhereTold start (S.left source.new) sunk (K.written sink.new) result.1 before (remains_in result.0) }
{
    let mut state = state;
    'lines: for number in 2..MAX_LINES + 2 {
        let line = match next_line(alloc, settings, reader, source, number) {
            Ok(Some(line)) => line,
            Ok(None) => return (state, Status::Ok),
            Err(status) => return (state, status),
        };
        let more = reader.has_line();
        let (next, written) = turn(alloc, settings, state, line, sink, page, more);
        state = next;
        if let Err(status) = written {
            return (state, status);
        }
    }
    (state, Status::Script(MAX_LINES + 1, Why::TooMany))
}

// Does one line, and writes what it makes. Where no more lines are at hand, all that was written is handed on.
pub fn turn<K: Sink, H: ScriptHolds>(
    alloc: Global,
    settings: Settings,
    state: State<H>,
    line: Line,
    sink: &mut K,
    page: &mut Page,
    more: bool,
) -> (State<H>, Result<(), Status>)
    requires settings { IsSettings settings }
    requires small_line { IsSmallLine (plain_line line) }
    requires small { HasSmallBlocks state }
    ensures end { IfErr result.1 IsWritersEnd }
    ensures calm { (IsErrOf result.1 Status.WriteFault → ⊥) → K.faults sink.new ≡ K.faults sink.old }
    ensures write_fault { IsErrOf result.1 Status.WriteFault → Rose (K.faults sink.old) (K.faults sink.new) }
    ensures turned { TurnsLine (config_of settings) state (plain_line line) (K.written sink.old) result.0 (K.written sink.new) result.1 }
    ensures handed { more ≡ false → OnOk result.1 (K.held_back sink.new ≡ 0) }
{
    let mut heard = Heard::new(alloc);
    let (state, outcome) = play(alloc, settings, state, line, &mut heard);
    let outcome = match outcome {
        Ok(outcome) => outcome,
        Err(_error) => return (state, Err(Status::Memory)),
    };
    if outcome.ran_out() {
        return (state, Err(Status::Memory));
    }
    let mut state = state;
    if state.take_in(heard.asked.asks()).is_err() {
        return (state, Err(Status::Memory));
    }
    let written = write_turn(alloc, sink, page, &heard, outcome, &state, more);
    (state, written)
}

// Writes what a line made.
pub fn write_turn<K: Sink, H: ScriptHolds>(
    alloc: Global,
    sink: &mut K,
    page: &mut Page,
    heard: &Heard,
    outcome: Outcome,
    state: &State<H>,
    more: bool,
) -> Result<(), Status>
    ensures end { IfErr result IsWritersEnd }
    ensures calm { (IsErrOf result Status.WriteFault → ⊥) → K.faults sink.new ≡ K.faults sink.old }
    ensures write_fault { IsErrOf result Status.WriteFault → Rose (K.faults sink.old) (K.faults sink.new) }
    ensures wrote { WritesText (K.written sink.old) (λ asked. output_text (output_of (made_in heard.now) outcome) (state_with asked state.now))
        (K.written sink.new) result }
    ensures handed { more ≡ false → OnOk result (K.held_back sink.new ≡ 0) }
{
    page.text.clear();
    if push_turn(
        alloc,
        &mut page.text,
        &mut page.ranges,
        heard,
        outcome,
        state,
    )
    .is_err()
    {
        return Err(Status::Memory);
    }
    write_text(sink, page.text.as_bytes(), more)
}
