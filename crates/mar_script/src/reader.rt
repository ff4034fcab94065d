//! The lines of a script, from a source that is read in pieces.
ghost use Rattle.std.specs.Prelude.{◌≡◌, ◌⊎◌, ◌≤◌, ◌<◌, ◌+◌, ◌++◌, ◌∷◌, ℕ, List, [], false, IfErr, IfOk, IfSome, None, OnErr, IsErrOf, take, drop, length};
ghost use Rattle.mar_types.specs.Causes.{Rose};
ghost use Rattle.mar_script.specs.Run.{IsShownAs};
ghost use Rattle.mar_script.specs.Refused.{IsUnended};
ghost use Rattle.mar_script.specs.Streams.{Gives, RaisedByFault, TakesLine};

use crate::source::Source;
use crate::words::first_place;
use mar_store::Miss;
use std::alloc::Global;
use std::marker::Model;

/// The most bytes of a line, without its end.
const MAX_LINE: usize = 65_536;

/// How many bytes are read at once.
const PIECE: usize = 8_192;

/// Why there is no next line.
#[derive(Clone, Copy, PartialEq)]
pub enum LineError {
    /// The input ends inside a line.
    Unended,
    /// The line has more than 65,536 bytes.
    TooLong,
    /// The source failed.
    ReadFault,
    /// Memory ran out.
    Memory,
}

/// Lines of a source. A contract sees the bytes that were taken from the source and not yet given.
#[derive(Drop)]
pub struct ScriptReader {
    // Those before `start` were given.
    bytes: Vec<u8>,
    start: usize,
    // What is read into.
    piece: Vec<u8>,
}

impl Model for ScriptReader {
    ghost use Rattle.std.specs.Prelude.{List, ℕ, drop, length, ◌≤◌};

    ghost Value = { List ℕ };

    ghost view = { λ r. drop r.start r.bytes.items };

    ghost invariant = { λ r. r.start ≤ length r.bytes.items };
}

impl ScriptReader {
    /// A reader that has taken nothing.
    pub fn new(alloc: Global) -> Self
        ensures { result ≡ [] }
    {
        ScriptReader {
            bytes: Vec::new(alloc),
            start: 0,
            piece: Vec::new(alloc),
        }
    }

    // What is pending behind the first `n` bytes.
    fn behind(&self, n: usize) -> &[u8]
        requires { n ≤ length self.now }
        ensures { result.now ≡ drop n self.now }
    {
        &self.bytes[self.start + n..]
    }

    fn len(&self) -> usize
        ensures { result ≡ length self.now }
    {
        self.bytes.len() - self.start
    }

    /// Whether the next line is at hand, so that none is read for it.
    pub fn has_line(&self) -> bool
        ensures { result ≡ false → IsUnended self.now }
    {
        first_place(self.behind(0), b'\n').is_some()
    }

    // Lets go what was given.
    fn forget_given(&mut self)
        ensures { self.new ≡ self.old }
    {
        self.bytes.drain(..self.start);
        self.start = 0;
    }

    // Takes a piece from the source.
    fn fill<S: Source>(&mut self, source: &mut S) -> Result<usize, Miss>
        ensures ok { IfOk result (λ n. (read : List ℕ) × (length read ≡ n) × (self.new ≡ self.old ++ read)
            × Gives (S.left source.old) read (S.left source.new)) }
        ensures end { IfOk result (λ n. n ≡ 0 → IsShownAs (S.left source.new) []) }
        ensures err { OnErr result ((self.new ≡ self.old) × Gives (S.left source.old) [] (S.left source.new)) }
        ensures later { S.faults source.old ≤ S.faults source.new }
        ensures cause { RaisedByFault (S.faults source.old) (S.faults source.new) result }
    {
        self.forget_given();
        if self.bytes.reserve(PIECE).is_err() || self.piece.resize(PIECE, 0).is_err() {
            return Err(Miss::Memory);
        }
        let n = match source.read(self.piece.as_mut_slice()) {
            Ok(n) => n,
            Err(miss) => return Err(miss),
        };
        if self.bytes.extend_from_slice(&self.piece[..n]).is_err() {
            return Err(Miss::Memory);
        }
        Ok(n)
    }

    // Gives the first bytes, unless they are too many, and lets the line's end behind them go.
    fn give(&mut self, alloc: Global, n: usize) -> Result<Option<Vec<u8>>, LineError>
        requires { n < length self.old }
        ensures line { IfOk result (λ o. IfSome o (λ line. (n ≤ MAX_LINE) × (line.items ≡ take n self.old) × (self.new ≡ drop (n + 1) self.old))) }
        ensures some { IfOk result (λ o. o ≡ None → ⊥) }
        ensures cause { IfErr result (λ e. ((e ≡ LineError.TooLong) × (MAX_LINE < n)) ⊎ (e ≡ LineError.Memory)) }
        ensures err { OnErr result (self.new ≡ self.old) }
    {
        if n > MAX_LINE {
            return Err(LineError::TooLong);
        }
        let Ok(line) = Vec::from_slice(alloc, &self.behind(0)[..n]) else {
            return Err(LineError::Memory);
        };
        self.start += n + 1;
        Ok(Some(line))
    }

    /// The next line without its end, or None at the end of the input. After an error but want of memory the bytes that
    /// were taken are still there.
    pub fn next_line<S: Source>(
        &mut self,
        alloc: Global,
        source: &mut S,
    ) -> Result<Option<Vec<u8>>, LineError>
        ensures line { TakesLine (S.left source.old) self.old result self.new (S.left source.new) }
        ensures later { S.faults source.old ≤ S.faults source.new }
        ensures fault { IsErrOf result LineError.ReadFault → Rose (S.faults source.old) (S.faults source.new) }
        ensures calm { (IsErrOf result LineError.ReadFault → ⊥) → S.faults source.new ≡ S.faults source.old }
    {
        let mut searched = 0;
        'pieces: loop {
            let held = self.len();
            if let Some(n) = first_place(self.behind(searched), b'\n') {
                let found = searched + n;
                return self.give(alloc, found);
            }
            if held > MAX_LINE {
                return Err(LineError::TooLong);
            }
            searched = held;
            match self.fill(source) {
                Ok(0) if held == 0 => return Ok(None),
                Ok(0) => return Err(LineError::Unended),
                Ok(_) => {}
                Err(Miss::Fault) => return Err(LineError::ReadFault),
                Err(Miss::Memory) => return Err(LineError::Memory),
            }
        }
    }
}
