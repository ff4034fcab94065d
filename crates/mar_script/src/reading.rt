//! The lines of a script, read and parsed, and how a run ends where there is none.
ghost use Rattle.std.specs.Prelude.{◌≡◌, ◌+◌, ◌<◌, ◌≤◌, [], IfErr, IfNone, IfOk, IsErrOf};
ghost use Rattle.mar_types.specs.Causes.{Rose};
ghost use Rattle.mar_script.specs.Endings.{IsReadersEnd};
ghost use Rattle.mar_script.specs.Reading.{TakesFirst, TakesNext, missing_status, refused_at, refused_status};
ghost use Rattle.mar_script.specs.Run.{IsShownAs};
ghost use Rattle.mar_script.specs.Script.{IsSettings};

use crate::line::{Line, parse_line};
use crate::reader::{LineError, ScriptReader};
use crate::settings::{Settings, parse_settings};
use crate::source::Source;
use crate::status::{Status, Why};
use crate::words::{ParseError, begins_with};
use std::alloc::Global;

/// The most lines of a script.
pub const MAX_LINES: u64 = 1_000_000;

// The line of this number is refused; past the last that a script may have, it is one too many whatever it is.
fn refused(number: u64, why: Why) -> Status
    ensures { result ≡ refused_at number why }
{
    if number > MAX_LINES {
        Status::Script(number, Why::TooMany)
    } else {
        Status::Script(number, why)
    }
}

// Why there is no line, at the line of this number.
fn line_status(error: LineError, number: u64) -> Status
    ensures told { result ≡ missing_status number error }
    ensures end { IsReadersEnd result }
    ensures read_fault { result ≡ Status.ReadFault → error ≡ LineError.ReadFault }
{
    match error {
        LineError::Unended => refused(number, Why::Unended),
        LineError::TooLong => refused(number, Why::TooLong),
        LineError::ReadFault => Status::ReadFault,
        LineError::Memory => Status::Memory,
    }
}

// Why a line is refused, at the line of this number.
fn parse_status(error: ParseError, number: u64) -> Status
    ensures told { result ≡ refused_status number error }
    ensures end { IsReadersEnd result }
    ensures read_fault { result ≡ Status.ReadFault → ⊥ }
{
    match error {
        ParseError::Grammar => refused(number, Why::Grammar),
        ParseError::Memory => Status::Memory,
    }
}

/// What the first line sets, or how a run ends there.
pub fn first_line<S: Source>(
    alloc: Global,
    reader: &mut ScriptReader,
    source: &mut S,
) -> Result<Settings, Status>
    ensures first { TakesFirst (S.left source.old) reader.old result reader.new (S.left source.new) }
    ensures valid { IfOk result IsSettings }
    ensures end { IfErr result IsReadersEnd }
    ensures calm { (IsErrOf result Status.ReadFault → ⊥) → S.faults source.new ≡ S.faults source.old }
    ensures read_fault { IsErrOf result Status.ReadFault → Rose (S.faults source.old) (S.faults source.new) }
{
    let line = match reader.next_line(alloc, source) {
        Ok(Some(line)) => line,
        Ok(None) => return Err(Status::Script(1, Why::NoConfig)),
        Err(error) => return Err(line_status(error, 1)),
    };
    if !begins_with(&line, b"config") {
        return Err(Status::Script(1, Why::NoConfig));
    }
    match parse_settings(alloc, &line) {
        Ok(settings) => Ok(settings),
        Err(error) => Err(parse_status(error, 1)),
    }
}

/// The line of this number, None at the end of the script, or how a run ends there.
pub fn next_line<S: Source>(
    alloc: Global,
    settings: Settings,
    reader: &mut ScriptReader,
    source: &mut S,
    number: u64,
) -> Result<Option<Line>, Status>
    requires valid { IsSettings settings }
    requires later { 1 < number }
    requires number { number ≤ MAX_LINES + 1 }
    ensures next { TakesNext settings.members number (S.left source.old) reader.old result reader.new (S.left source.new) }
    ensures end { IfErr result IsReadersEnd }
    ensures to_end { IfOk result (λ o. IfNone o (IsShownAs (S.left source.new) [])) }
    ensures calm { (IsErrOf result Status.ReadFault → ⊥) → S.faults source.new ≡ S.faults source.old }
    ensures read_fault { IsErrOf result Status.ReadFault → Rose (S.faults source.old) (S.faults source.new) }
{
    let line = match reader.next_line(alloc, source) {
        Ok(Some(line)) => line,
        Ok(None) => return Ok(None),
        Err(error) => return Err(line_status(error, number)),
    };
    if number > MAX_LINES {
        return Err(refused(number, Why::TooMany));
    }
    match parse_line(alloc, settings, &line) {
        Ok(line) => Ok(Some(line)),
        Err(error) => Err(parse_status(error, number)),
    }
}
