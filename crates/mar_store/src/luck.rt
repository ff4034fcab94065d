//! Which of the entries that a crash can leave an archive in memory keeps.
ghost use Rattle.std.specs.Prelude.{◌≡◌};
ghost use Rattle.mar_store.specs.Luck.{half_of, is_lucky};

/// Which 32 bits of a reopening's luck an archive in memory goes by. Two archives that are reopened with one number are
/// picked apart where they take different ones.
#[derive(Clone, Copy, Debug, PartialEq, Eq)]
pub enum LuckHalf {
    /// Bits 0 to 31.
    Low,
    /// Bits 32 to 63.
    High,
}

impl LuckHalf {
    /// These bits of a luck.
    pub const fn of(self, luck: u64) -> u64
        ensures { result ≡ half_of self luck }
    {
        match self {
            LuckHalf::Low => luck % 4_294_967_296,
            LuckHalf::High => luck / 4_294_967_296,
        }
    }
}

/// Whether these bits keep the entry at that place: its bit, counted modulo 32, is set.
pub const fn is_lucky(half: u64, place: usize) -> bool
    ensures { result ≡ is_lucky half place }
{
    (half >> (place % 32)) % 2 == 1
}
