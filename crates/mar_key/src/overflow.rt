//! What waits behind the places of a queue.
ghost use Rattle.std.specs.Prelude.{Bool, IfErr, OnErr, OnOk, Option, ◌≡◌};

/// What waits behind the places of a queue, of messages of the kind `T`: what becomes of a message that finds no place, and
/// which one comes next into a free one.
pub trait Overflow<T>: Drop {
    // Nothing waits.
    ghost is_empty: { Self → Bool };

    // What waits once a message came.
    ghost takes_in: { Self → T → Self → Type 0 };

    // What comes into a free place, if something does, and what waits then.
    ghost gives: { Self → Option T → Self → Type 0 };

    /// Whether nothing waits.
    fn is_empty(&self) -> bool
        ensures { result ≡ is_empty self.now };

    /// Takes a message in. Where memory runs out it is handed back, and nothing changes.
    fn add(&mut self, item: T) -> Result<(), T>
        ensures ok { OnOk result (takes_in self.old item self.new) }
        ensures same { OnErr result (self.new ≡ self.old) }
        ensures back { IfErr result (λ back. back ≡ item) };

    /// The message that comes into a free place, None where none does.
    fn next(&mut self) -> Option<T>
        ensures { gives self.old result self.new };
}
