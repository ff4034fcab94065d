//! Random words, from a generator that is handed in.
ghost use Rattle.std.specs.Prelude.{ℕ, List};

/// A generator of random words.
pub trait Words {
    // From this state comes this word, and the generator goes on to that state.
    ghost gives_word: { Self → ℕ → Self → Type 0 };

    // The same of these bytes.
    ghost gives_bytes: { Self → List ℕ → Self → Type 0 };

    /// The next word.
    fn next_u32(&mut self) -> u32
        ensures { gives_word self.old result self.new };

    /// Fills the whole of `out` with bytes.
    fn fill(&mut self, out: &mut [u8])
        ensures { gives_bytes self.old out.new self.new };
}
