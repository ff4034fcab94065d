//! A sync that was started.
ghost use Rattle.std.specs.Prelude.{◌≡◌};

/// A sync that was started and isn't finished. Its number stops at `u64::MAX`: one that stands there covers
/// all that is accepted.
#[derive(Clone, Copy, Debug, PartialEq, Eq)]
pub struct SyncTicket {
    number: u64,
}

impl SyncTicket {
    pub const fn new(number: u64) -> Self
        ensures { result.number ≡ number }
    {
        SyncTicket { number }
    }

    pub const fn number(self) -> u64
        ensures { result ≡ self.number }
    {
        self.number
    }
}
