//! Where the bytes of a script come from.
ghost use Rattle.std.specs.Prelude.{◌≡◌, ◌≤◌, ◌<◌, ℕ, Option, List, [], Some, None, IfOk, OnErr, take, length};
ghost use Rattle.mar_script.specs.Run.{IsShownAs};
ghost use Rattle.mar_script.specs.Streams.{Gives, RaisedByFault};

use mar_store::Miss;
use std::io::Read;

/// Bytes that are read from the front, and a count of the reads that failed.
pub trait Source {
    // The bytes that are left, where that is told.
    ghost left: { Self → Option (List ℕ) };

    // How many reads failed. The count stops at its last value.
    ghost faults: { Self → ℕ };

    /// Reads bytes into the front of the buffer and answers how many. None into a buffer that has room is the end of
    /// the input. A read that fails is the answer, and isn't tried again: want of memory, like a read, leaves the count.
    fn read(&mut self, buf: &mut [u8]) -> Result<usize, Miss>
        ensures within { IfOk result (λ n. n ≤ length buf.new) }
        ensures ok { IfOk result (λ n. Gives (left self.old) (take n buf.new) (left self.new)) }
        ensures err { OnErr result (Gives (left self.old) [] (left self.new)) }
        ensures end { IfOk result (λ n. n ≡ 0 → 0 < length buf.new → IsShownAs (left self.new) []) }
        ensures later { faults self.old ≤ faults self.new }
        ensures cause { RaisedByFault (faults self.old) (faults self.new) result };
}

/// A reader, of which nothing is told but its faults.
#[derive(Drop)]
pub struct Input<R: Read + Drop> {
    reader: R,
    faults: u64,
}

impl<R: Read + Drop> Input<R> {
    /// Of a reader that has not failed yet.
    pub fn new(reader: R) -> Self
        ensures { ⟦<Input<R> as Source>⟧.faults result ≡ 0 }
    {
        Input { reader, faults: 0 }
    }
}

impl<R: Read + Drop> Source for Input<R> {
    ghost left = { λ _. None };

    ghost faults = { λ s. s.faults };

    fn read(&mut self, buf: &mut [u8]) -> Result<usize, Miss> {
        match self.reader.read(buf) {
            Ok(n) => Ok(n),
            Err(_) => {
                self.faults = self.faults.saturating_add(1);
                Err(Miss::Fault)
            }
        }
    }
}

/// Bytes in memory, which tell what is left of them. The reads fail whose numbers, counted from 0, are listed.
#[derive(Drop)]
pub struct Bytes<'a> {
    left: &'a [u8],
    failing: &'a [u64],
    reads: u64,
    faults: u64,
}

impl<'a> Bytes<'a> {
    /// Of all these bytes, none of which was read yet.
    pub fn new(left: &'a [u8], failing: &'a [u64]) -> Self
        ensures left { ⟦<Bytes<'a> as Source>⟧.left result ≡ Some left.now }
        ensures faults { ⟦<Bytes<'a> as Source>⟧.faults result ≡ 0 }
        ensures failing { result.failing.now ≡ failing.now }
    {
        Bytes {
            left,
            failing,
            reads: 0,
            faults: 0,
        }
    }
}

impl Source for Bytes<'_> {
    ghost left = { λ s. Some s.left.now };

    ghost faults = { λ s. s.faults };

    fn read(&mut self, buf: &mut [u8]) -> Result<usize, Miss> {
        let number = self.reads;
        self.reads = self.reads.saturating_add(1);
        if self.failing.contains(&number) {
            self.faults = self.faults.saturating_add(1);
            return Err(Miss::Fault);
        }
        let n = buf.len().min(self.left.len());
        let (front, rest) = self.left.split_at(n);
        buf[..n].copy_from_slice(front);
        self.left = rest;
        Ok(n)
    }
}
