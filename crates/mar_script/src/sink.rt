//! Where the output of a script goes.
ghost use Rattle.std.specs.Prelude.{◌≡◌, ◌≤◌, ◌<◌, ℕ, Option, List, [], Some, None, IfOk, OnOk, OnErr, take, length};
ghost use Rattle.mar_script.specs.Streams.{RaisedByFault, Takes, TakesFront};

use mar_store::Miss;
use std::alloc::Global;
use std::io::Write;

/// Bytes that are written at the end, and a count of the writes that failed. A sink may hold the last of them back until it
/// is flushed.
pub trait Sink {
    // The bytes that were written, where that is told.
    ghost written: { Self → Option (List ℕ) };

    // How many of these bytes, the last ones, are held back.
    ghost held_back: { Self → ℕ };

    // How many writes failed. The count stops at its last value.
    ghost faults: { Self → ℕ };

    /// Writes some bytes from the front of these and answers how many, at least one where there are some. A write that
    /// fails is the answer, and isn't tried again: want of memory, like a write, leaves the count.
    fn write(&mut self, bytes: &[u8]) -> Result<usize, Miss>
        ensures within { IfOk result (λ n. n ≤ length bytes.now) }
        ensures some { IfOk result (λ n. 0 < length bytes.now → 0 < n) }
        ensures ok { IfOk result (λ n. Takes (written self.old) (take n bytes.now) (written self.new)) }
        ensures err { OnErr result (Takes (written self.old) [] (written self.new)) }
        ensures later { faults self.old ≤ faults self.new }
        ensures cause { RaisedByFault (faults self.old) (faults self.new) result };

    /// Hands on the bytes that are held back. It writes no others. Where it fails, some of those that were held back may be
    /// lost, and it isn't tried again.
    fn flush(&mut self) -> Result<(), Miss>
        ensures same { Takes (written self.old) [] (written self.new) }
        ensures handed { OnOk result (held_back self.new ≡ 0) }
        ensures later { faults self.old ≤ faults self.new }
        ensures cause { RaisedByFault (faults self.old) (faults self.new) result };
}

/// Writes all of the bytes. A write that fails leaves a front of them written.
pub fn write_all<K: Sink>(sink: &mut K, bytes: &[u8]) -> Result<(), Miss>
    ensures ok { OnOk result (Takes (K.written sink.old) bytes.now (K.written sink.new)) }
    ensures err { OnErr result (TakesFront (K.written sink.old) bytes.now (K.written sink.new)) }
    ensures later { K.faults sink.old ≤ K.faults sink.new }
    ensures cause { RaisedByFault (K.faults sink.old) (K.faults sink.new) result }
{
    let mut rest = bytes;
    while !rest.is_empty() {
        let n = match sink.write(rest) {
            Ok(n) => n,
            Err(miss) => return Err(miss),
        };
        rest = rest.split_at(n).1;
    }
    Ok(())
}

/// So many bytes are gathered before they are handed to a writer.
const MOST_GATHERED: usize = 65_536;

/// A writer, of which nothing is told but its faults. What is written is gathered until there is much of it, or it is
/// flushed. It has failed where it takes nothing of a piece that isn't empty; then what was gathered is lost.
#[derive(Drop)]
pub struct Output<W: Write + Drop> {
    writer: W,
    gathered: Vec<u8>,
    faults: u64,
}

impl<W: Write + Drop> Output<W> {
    /// Of a writer that has not failed yet.
    pub fn new(alloc: Global, writer: W) -> Self
        ensures faults { ⟦<Output<W> as Sink>⟧.faults result ≡ 0 }
        ensures held_back { ⟦<Output<W> as Sink>⟧.held_back result ≡ 0 }
    {
        Output {
            writer,
            gathered: Vec::new(alloc),
            faults: 0,
        }
    }

    // Hands on what was gathered.
    fn hand_on(&mut self) -> Result<(), Miss>
        ensures handed { self.new.gathered.items ≡ [] }
        ensures later { self.old.faults ≤ self.new.faults }
        ensures cause { RaisedByFault self.old.faults self.new.faults result }
    {
        let done = takes_all(&mut self.writer, &self.gathered);
        self.gathered.clear();
        if done {
            return Ok(());
        }
        self.faults = self.faults.saturating_add(1);
        Err(Miss::Fault)
    }
}

// Whether a writer takes all of these bytes.
fn takes_all<W: Write + Drop>(writer: &mut W, bytes: &[u8]) -> bool {
    let mut rest = bytes;
    while !rest.is_empty() {
        match writer.write(rest) {
            Ok(n) if n > 0 => rest = rest.split_at(n).1,
            _ => return false,
        }
    }
    true
}

impl<W: Write + Drop> Sink for Output<W> {
    ghost use Rattle.std.specs.Prelude.{length};

    ghost written = { λ _. None };

    ghost held_back = { λ s. length s.gathered.items };

    ghost faults = { λ s. s.faults };

    fn write(&mut self, bytes: &[u8]) -> Result<usize, Miss> {
        if self.gathered.len() >= MOST_GATHERED {
            if let Err(miss) = self.hand_on() {
                return Err(miss);
            }
        }
        if self.gathered.extend_from_slice(bytes).is_err() {
            return Err(Miss::Memory);
        }
        Ok(bytes.len())
    }

    fn flush(&mut self) -> Result<(), Miss> {
        self.hand_on()
    }
}

/// Bytes in memory, which tell what was written. The writes fail whose numbers, counted from 0, are listed.
#[derive(Drop)]
pub struct Written<'a> {
    bytes: Vec<u8>,
    failing: &'a [u64],
    writes: u64,
    faults: u64,
}

impl<'a> Written<'a> {
    /// Of no bytes.
    pub fn new(alloc: Global, failing: &'a [u64]) -> Self
        ensures written { ⟦<Written<'a> as Sink>⟧.written result ≡ Some [] }
        ensures faults { ⟦<Written<'a> as Sink>⟧.faults result ≡ 0 }
        ensures failing { result.failing.now ≡ failing.now }
    {
        Written {
            bytes: Vec::new(alloc),
            failing,
            writes: 0,
            faults: 0,
        }
    }

    /// The bytes that were written.
    pub fn bytes(&self) -> &[u8]
        ensures { ⟦<Written<'a> as Sink>⟧.written self.now ≡ Some result.now }
    {
        &self.bytes
    }
}

impl Sink for Written<'_> {
    ghost written = { λ s. Some s.bytes.items };

    ghost held_back = { λ _. 0 };

    ghost faults = { λ s. s.faults };

    fn write(&mut self, bytes: &[u8]) -> Result<usize, Miss> {
        let number = self.writes;
        self.writes = self.writes.saturating_add(1);
        if self.failing.contains(&number) {
            self.faults = self.faults.saturating_add(1);
            return Err(Miss::Fault);
        }
        match self.bytes.extend_from_slice(bytes) {
            Ok(()) => Ok(bytes.len()),
            Err(_) => Err(Miss::Memory),
        }
    }

    fn flush(&mut self) -> Result<(), Miss> {
        Ok(())
    }
}
