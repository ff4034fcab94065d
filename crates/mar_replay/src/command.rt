//! The words of the command line.
ghost use Rattle.std.specs.Prelude.{◌≡◌, ◌↔◌, ◌∷◌, ℕ, List, Some, [], IfSome, IsSomeAnd, IsTrue, codes, decimal, map, string_bytes};
ghost use Rattle.mar_replay.specs.Commands.{AsksGen, IsAsked};

use mar_gen::number;

/// What a run is asked to do.
#[derive(Clone, Copy)]
pub enum Command {
    /// Read a script and write its output.
    Replay,
    /// Make the script of this seed and so many heights, do it, and write what it came to.
    Generate(u64, u64),
}

impl Command {
    /// The command that these words ask for, if they are one.
    pub fn parse(words: &[String]) -> Option<Command>
        ensures found { IfSome result (IsAsked (map string_bytes words.now)) }
        ensures only { (command : Command) → IsAsked (map string_bytes words.now) command → result ≡ Some command }
    {
        if are_only(words, "replay") {
            return Some(Command::Replay);
        }
        let (seed, last) = asked_script(words)?;
        Some(Command::Generate(seed, last))
    }
}

// The seed and the number of heights of the script that the words ask for.
fn asked_script(words: &[String]) -> Option<(u64, u64)>
    ensures found { IfSome result (λ asked. AsksGen (map string_bytes words.now) asked.0 asked.1) }
    ensures only { (seed n : ℕ) → AsksGen (map string_bytes words.now) seed n → result ≡ Some (seed, n) }
{
    let (seed, last) = two_behind(words, "gen")?;
    let seed = number(seed)?;
    let last = number(last)?;
    if last >= 1 && last <= 10_000 {
        Some((seed, last))
    } else {
        None
    }
}

// The two words behind this one, where there are just those.
fn two_behind<'a>(words: &'a [String], first: &str) -> Option<(&'a [u8], &'a [u8])>
    ensures found { IfSome result (λ two. map string_bytes words.now ≡ first.now ∷ two.0.now ∷ two.1.now ∷ []) }
    ensures only { (second third : List ℕ) → map string_bytes words.now ≡ first.now ∷ second ∷ third ∷ []
        → IsSomeAnd result (λ two. (two.0.now ≡ second) × (two.1.now ≡ third)) }
{
    match words {
        [word, second, third] => {
            if word.as_str() == first {
                Some((second.as_bytes(), third.as_bytes()))
            } else {
                None
            }
        }
        _ => None,
    }
}

/// Whether the words are this one alone.
pub fn are_only(words: &[String], word: &str) -> bool
    ensures { IsTrue result ↔ (map string_bytes words.now ≡ word.now ∷ []) }
{
    match words {
        [only] => only.as_str() == word,
        _ => false,
    }
}
