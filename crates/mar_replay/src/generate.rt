//! The large run: a script that is made line by line, each line done as `replay` does it.
ghost use Rattle.std.specs.Prelude.{◌≡◌, ◌≤◌, ℕ, IfOk, List, None, Some, []};
ghost use Rattle.std.specs.List.{count_by};
ghost use Rattle.mar_types.specs.Causes.{Rose};
ghost use Rattle.mar_key.specs.Asked.{Asked};
ghost use Rattle.mar_gen.specs.Output.{IsOwed, blocks_in, node_words, processed_in, summary as summary_of};
ghost use Rattle.mar_gen.specs.Plan.{IsStepWithin, is_open, plan};
ghost use Rattle.mar_model.specs.Held.{Remains};
ghost use Rattle.mar_script.specs.Lines.{plain_line};
ghost use Rattle.mar_script.specs.Run.{HandsBack};
ghost use Rattle.mar_script.specs.Script.{config_of};
ghost use Rattle.mar_script.specs.Text.{text};
ghost use Rattle.mar_replay.specs.Gen.{ComesBehind, Generates, RunsTo, WritesLine, gen_settings, owed_line as line_owed, planned_line as line_planned};
ghost use Rattle.mar_replay.specs.Playing.{HasSmallBlocks, IsSetAs};
ghost use Rattle.mar_replay.specs.Turn.{remains_in, state_with};

use crate::heard::Heard;
use crate::play::{Left, Outcome, ScriptHolds, State};
use crate::replays::{Finished, left_of, turn, write_turn};
use crate::turn::Page;
use mar_gen::{Made, Owed, Planned, finalization, read_text, summary};
use mar_inbox::Message;
use mar_script::{Line, MAX_LINES, Settings, Sink, Status, write_text};
use mar_store::Miss;
use mar_types::{Digested, Digestible};
use std::alloc::{AllocError, Global};

// The settings of each made script.
fn settings() -> Settings
    ensures { result ≡ gen_settings }
{
    Settings {
        members: 4,
        epoch_length: 10,
        window: 4,
        max_repair: 4,
        retention: 5,
        capacity: 8,
        first_epoch: 0,
        last_epoch: 10_000,
    }
}

// The text of the latest line.
#[derive(Drop)]
struct Latest {
    text: Vec<u8>,
}

impl Sink for Latest {
    ghost use Rattle.std.specs.Prelude.{Some};

    ghost written = { λ s. Some s.text.items };

    ghost held_back = { λ _. 0 };

    ghost faults = { λ _. 0 };

    fn write(&mut self, bytes: &[u8]) -> Result<usize, Miss> {
        match self.text.extend_from_slice(bytes) {
            Ok(()) => Ok(bytes.len()),
            Err(_) => Err(Miss::Memory),
        }
    }

    fn flush(&mut self) -> Result<(), Miss> {
        Ok(())
    }
}

// The line that gives a node what it waits for.
fn owed_line(owed: Owed) -> Line
    ensures { plain_line result ≡ line_owed owed }
{
    match owed {
        Owed::Sync(ticket) => Line::Sync(ticket),
        Owed::Ack(ticket) => Line::Ack(ticket),
    }
}

// The line of a step that doesn't depend on the node.
fn planned_line(alloc: Global, made: &Made, step: Planned) -> Result<Line, AllocError>
    requires { IsStepWithin made.now.last step }
    ensures { IfOk result (λ line. plain_line line ≡ line_planned made.now.seed step) }
{
    match step {
        Planned::Open => {
            let block = made.block(0).clone()?;
            Ok(Line::OpenGenesis(Digested::compute(alloc, block)?))
        }
        Planned::Buffer(height) => {
            let block = made.block(height).clone()?;
            Ok(Line::Buffer(Digested::compute(alloc, block)?))
        }
        Planned::Final(height) => {
            let digest = made.block(height).digest();
            let finalization = finalization(alloc, height, digest)?;
            Ok(Line::Tell(Message::Finalization(finalization)))
        }
        Planned::Crash(luck) => Ok(Line::Crash(luck)),
    }
}

// What comes behind a text: a line, and the place that the plan has come to; or the end, and the processed height.
#[derive(Drop)]
enum Coming {
    Next(Line, usize),
    End(Vec<u8>),
}

// What comes behind a text, and how many blocks the text hands over.
fn coming_behind(
    alloc: Global,
    made: &Made,
    place: usize,
    text: &[u8],
) -> Result<(u64, Coming), AllocError>
    ensures delivered { IfOk result (λ r. r.0 ≡ blocks_in text.now) }
    ensures coming { IfOk result (λ r. ComesBehind made.now.seed made.now.last place text.now r.1) }
{
    let told = read_text(alloc, text)?;
    let coming = match told.owed {
        Some(owed) => Coming::Next(owed_line(owed), place),
        None => next_step(alloc, made, place, told.processed)?,
    };
    Ok((told.delivered, coming))
}

// The line of the next step, or the end.
fn next_step(
    alloc: Global,
    made: &Made,
    place: usize,
    processed: &[u8],
) -> Result<Coming, AllocError>
    ensures { (before : List ℕ) → IsOwed (node_words before) None → processed.now ≡ processed_in (node_words before)
        → IfOk result (ComesBehind made.now.seed made.now.last place before) }
{
    match made.step(place) {
        Some((step, after)) => Ok(Coming::Next(planned_line(alloc, made, step)?, after)),
        None => Ok(Coming::End(processed.to_vec(alloc)?)),
    }
}

// What a whole run came to: how many blocks were handed over, and the processed height as the node showed it last.
#[derive(Drop)]
struct Tally {
    delivered: u64,
    processed: Vec<u8>,
}

/// Makes the script of a seed and so many heights line by line, does each line, and writes how it went. What a line makes
/// is kept until the next one is made of it.
pub fn generate<K: Sink, H: ScriptHolds>(
    alloc: Global,
    seed: u64,
    last: u64,
    sink: &mut K,
    stores: H::Ruins,
) -> Finished<H::Ruins>
    requires least { 1 ≤ last }
    requires most { last ≤ 10_000 }
    ensures generates { Generates seed last (K.written sink.old) (K.written sink.new) result.status (H.Ruins.left stores)
        (H.Ruins.left result.stores) }
    ensures write_fault { result.status ≡ Status.WriteFault → Rose (K.faults sink.old) (K.faults sink.new) }
    ensures sink_calm { (result.status ≡ Status.WriteFault → ⊥) → K.faults sink.new ≡ K.faults sink.old }
{
    let made = match Made::new(alloc, seed, last) {
        Ok(made) => made,
        Err(_) => {
            return Finished {
                status: Status::Memory,
                stores,
            };
        }
    };
    let (stores, tally) = run_made::<H>(alloc, &made, stores);
    let status = finish(alloc, &made, tally, sink);
    Finished { status, stores }
}

// Writes the line that sums a whole run up.
fn finish<K: Sink>(alloc: Global, made: &Made, tally: Option<Tally>, sink: &mut K) -> Status
    ensures generates { (before after : Remains) → RunsTo made.now.seed made.now.last before after tally
        → Generates made.now.seed made.now.last (K.written sink.old) (K.written sink.new) result before after }
    ensures write_fault { result ≡ Status.WriteFault → Rose (K.faults sink.old) (K.faults sink.new) }
    ensures sink_calm { (result ≡ Status.WriteFault → ⊥) → K.faults sink.new ≡ K.faults sink.old }
{
    match tally {
        Some(tally) => sum_up(alloc, made, &tally, sink),
        None => Status::Memory,
    }
}

// Writes a line of so many blocks and this height.
fn sum_up<K: Sink>(alloc: Global, made: &Made, tally: &Tally, sink: &mut K) -> Status
    ensures writes { WritesLine (K.written sink.old) (summary_of made.now.seed made.now.last tally.now.delivered tally.now.processed.items
        (count_by is_open (plan made.now.seed made.now.last))) (K.written sink.new) result }
    ensures write_fault { result ≡ Status.WriteFault → Rose (K.faults sink.old) (K.faults sink.new) }
    ensures sink_calm { (result ≡ Status.WriteFault → ⊥) → K.faults sink.new ≡ K.faults sink.old }
{
    let line = summary(
        alloc,
        made.seed(),
        made.last(),
        tally.delivered,
        &tally.processed,
        made.openings(),
    );
    let line = match line {
        Ok(line) => line,
        Err(_) => return Status::Memory,
    };
    match write_text(sink, &line, false) {
        Ok(()) => Status::Ok,
        Err(status) => status,
    }
}

// Does the made lines, from the settings on.
fn run_made<H: ScriptHolds>(
    alloc: Global,
    made: &Made,
    stores: H::Ruins,
) -> (H::Ruins, Option<Tally>)
    ensures { RunsTo made.now.seed made.now.last (H.Ruins.left stores) (H.Ruins.left result.0) result.1 }
{
    let mut latest = Latest {
        text: Vec::new(alloc),
    };
    let heard = Heard::new(alloc);
    let mut page = Page::new(alloc);
    let state: State<H> = State::Stopped(Left { ruins: stores }, 0);
    let wrote = write_turn(
        alloc,
        &mut latest,
        &mut page,
        &heard,
        Outcome::Done,
        &state,
        true,
    );
    if let Err(_status) = wrote {
        return (left_of(state), None);
    }
    let (state, tally) = made_lines(alloc, made, state, latest, &mut page);
    (left_of(state), tally)
}

// Makes the lines behind the settings, each of the text of the one before, and does them. The script would be refused
// where it had more lines than are read; it has far fewer.
fn made_lines<H: ScriptHolds>(
    alloc: Global,
    made: &Made,
    state: State<H>,
    latest: Latest,
    page: &mut Page,
) -> (State<H>, Option<Tally>)
    requires set { IsSetAs (config_of gen_settings) state }
    requires small { HasSmallBlocks state }
    ensures { (before : Remains) → state ≡ State.Stopped before 0 → latest.text.items ≡ text before.ended []
        → ((asked : List Asked) → HandsBack (state_with asked result.0) (remains_in result.0).ended)
        → RunsTo made.now.seed made.now.last before (remains_in result.0) result.1 }
{
    let mut state = state;
    let mut latest = latest;
    let mut place: usize = 0;
    let mut delivered: u64 = 0;
    'lines: for _number in 2..MAX_LINES + 1 {
        let (more, coming) = match coming_behind(alloc, made, place, &latest.text) {
            Ok(found) => found,
            Err(_) => return (state, None),
        };
        delivered = delivered.saturating_add(more);
        let (line, after) = match coming {
            Coming::Next(line, after) => (line, after),
            Coming::End(processed) => {
                let tally = Tally {
                    delivered,
                    processed,
                };
                return (state, Some(tally));
            }
        };
        place = after;
        latest.text.clear();
        let (next, written) = turn(alloc, settings(), state, line, &mut latest, page, true);
        state = next;
        if let Err(_status) = written {
            return (state, None);
        }
    }
    (state, None)
}
