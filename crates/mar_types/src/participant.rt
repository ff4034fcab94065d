//! Members of a committee, by number.
ghost use Rattle.std.specs.Prelude.{◌≡◌, ℕ, Some};
ghost use Rattle.std.specs.Fmt.{decimal};

use std::fmt;
use std::marker::Model;

/// A member of a committee, by its place in it.
#[derive(Clone, Copy, Debug, Default, PartialEq, Eq, PartialOrd, Ord, Hash)]
pub struct Participant(u32);

impl Model for Participant {
    ghost Value = { ℕ };

    ghost view = { λ participant. participant.0 };

    ghost inverse = { λ value. record { 0 = value } };
}

impl Participant {
    /// The member at this place.
    pub fn new(place: u32) -> Self
        ensures { result ≡ place }
    {
        Participant(place)
    }

    /// The member's place.
    pub fn get(self) -> u32
        ensures { result ≡ self }
    {
        self.0
    }
}

impl From<u32> for Participant {
    ghost from_gives = { λ place participant. participant ≡ place };

    fn from(place: u32) -> Participant {
        Participant(place)
    }
}

impl From<Participant> for u32 {
    ghost from_gives = { λ participant place. place ≡ participant };

    fn from(participant: Participant) -> u32 {
        participant.0
    }
}

impl fmt::Display for Participant {
    ghost output = { λ participant. Some (decimal participant) };

    fn fmt<W: fmt::Write>(&self, f: &mut fmt::Formatter<W>) -> fmt::Result {
        let place = self.0;
        write!(f, "{place}")
    }
}
