//! The first line of a script.
ghost use Rattle.std.specs.Prelude.{◌≡◌, ◌↔◌, ◌++◌, ◌∷◌, ℕ, List, [], Some, IfOk, IfSome, IsTrue};
ghost use Rattle.mar_script.specs.Script.{IsBetween, Settings, IsSettings, settings_bytes};
ghost use Rattle.mar_script.specs.Words.{Yields, numbers_of};

use crate::words::{ParseError, after, numbers, split_at_each};
use std::alloc::Global;
use std::marker::Model;

/// What the `config` line sets. A contract sees a record of the numbers.
#[derive(Clone, Copy)]
pub struct Settings {
    /// The members of the committee.
    pub members: u64,
    /// The heights of an epoch.
    pub epoch_length: u64,
    /// How many blocks may be handed over and not yet acknowledged.
    pub window: u64,
    /// How many missing heights are asked for at once.
    pub max_repair: u64,
    /// How many views the cache keeps.
    pub retention: u64,
    /// How many messages wait in order.
    pub capacity: u64,
    /// The first epoch whose scheme is known.
    pub first_epoch: u64,
    /// The last epoch whose scheme is known.
    pub last_epoch: u64,
}

impl Model for Settings {
    ghost use Rattle.mar_script.specs.Script.{Settings};

    ghost Value = { Settings };

    ghost view = { λ s. record {
      members = s.members;
      epoch_length = s.epoch_length;
      window = s.window;
      max_repair = s.max_repair;
      retention = s.retention;
      capacity = s.capacity;
      first_epoch = s.first_epoch;
      last_epoch = s.last_epoch;
    } };

    ghost inverse = { λ s. record {
      members = s.members;
      epoch_length = s.epoch_length;
      window = s.window;
      max_repair = s.max_repair;
      retention = s.retention;
      capacity = s.capacity;
      first_epoch = s.first_epoch;
      last_epoch = s.last_epoch;
    } };
}

impl Settings {
    /// Whether each number is within its limits.
    pub fn is_valid(self) -> bool
        ensures { IsTrue result ↔ IsSettings self }
    {
        if !is_between(1, self.members, 64) || self.epoch_length < 2 {
            return false;
        }
        if !is_between(1, self.window, 1024) || !is_between(1, self.max_repair, 1024) {
            return false;
        }
        is_between(1, self.capacity, 1024) && self.first_epoch <= self.last_epoch
    }

    // The settings of these numbers, if they are as many as the line has.
    fn from_numbers(numbers: &[u64]) -> Option<Settings>
        ensures found { IfSome result (λ s. numbers.now ≡ numbers_of s) }
        ensures only { (s : Settings) → numbers.now ≡ numbers_of s → result ≡ Some s }
    {
        match numbers {
            [
                members,
                epoch_length,
                window,
                max_repair,
                retention,
                capacity,
                first_epoch,
                last_epoch,
            ] => {
                Some(Settings {
                    members: *members,
                    epoch_length: *epoch_length,
                    window: *window,
                    max_repair: *max_repair,
                    retention: *retention,
                    capacity: *capacity,
                    first_epoch: *first_epoch,
                    last_epoch: *last_epoch,
                })
            }
            _ => None,
        }
    }
}

fn is_between(low: u64, value: u64, high: u64) -> bool
    ensures { IsTrue result ↔ IsBetween low high value }
{
    low <= value && value <= high
}

/// The settings that a line spells, without its end.
pub fn parse_settings(alloc: Global, line: &[u8]) -> Result<Settings, ParseError>
    ensures found { IfOk result (λ s. line.now ++ 10 ∷ [] ≡ settings_bytes s) }
    ensures valid { IfOk result IsSettings }
    ensures only { (s : Settings) → IsSettings s → line.now ++ 10 ∷ [] ≡ settings_bytes s → Yields (λ found. found ≡ s) result }
{
    let Some(rest) = after(line, b"config") else {
        return Err(ParseError::Grammar);
    };
    let words = split_at_each(alloc, rest, b' ')?;
    let numbers = match numbers(alloc, words.as_slice()) {
        Ok(numbers) => numbers,
        Err(error) => return Err(error),
    };
    let Some(settings) = Settings::from_numbers(numbers.as_slice()) else {
        return Err(ParseError::Grammar);
    };
    if settings.is_valid() {
        Ok(settings)
    } else {
        Err(ParseError::Grammar)
    }
}
