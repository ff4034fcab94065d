//! The words that name peers.
ghost use Rattle.std.specs.Prelude.{◌≡◌, ◌<◌, ◌^◌, ℕ, List, IfOk, decimal, length, map};
ghost use Rattle.std.specs.List.{join_with_byte};
ghost use Rattle.mar_inbox.specs.Views.{peers_of};
ghost use Rattle.mar_model.specs.Messages.{Peers};
ghost use Rattle.mar_script.specs.Script.{ArePeers, IsPeers, comma_numbers, peers_text};
ghost use Rattle.mar_script.specs.Words.{Yields, words_of};

use crate::words::{ParseError, number, split_at_each};
use mar_block::Recipients;
use mar_types::Participant;
use std::alloc::Global;

/// To which peers a word sends: `all`, `-` for none, or numbers with a comma between, all different.
pub fn recipients(alloc: Global, word: &[u8]) -> Result<Recipients<Participant>, ParseError>
    ensures are_peers { IfOk result (λ r. IsPeers (peers_of r)) }
    ensures found { IfOk result (λ r. word.now ≡ peers_text (peers_of r)) }
    ensures only { (p : Peers) → IsPeers p → word.now ≡ peers_text p → Yields (λ r. peers_of r ≡ p) result }
{
    if word == b"all".as_slice() {
        return Ok(Recipients::All);
    }
    if word == b"-".as_slice() {
        return Ok(Recipients::Some(Vec::new(alloc)));
    }
    match members(alloc, word) {
        Ok(members) => Ok(Recipients::Some(members)),
        Err(error) => Err(error),
    }
}

/// The members that a word spells with a comma between, at least one, all different.
pub fn members(alloc: Global, word: &[u8]) -> Result<Vec<Participant>, ParseError>
    ensures are_peers { IfOk result (λ ms. ArePeers ms.items) }
    ensures found { IfOk result (λ ms. word.now ≡ comma_numbers ms.items) }
    ensures only { (ps : List ℕ) → ArePeers ps → 0 < length ps → word.now ≡ comma_numbers ps → Yields (λ ms. ms.items ≡ ps) result }
{
    let parts = split_at_each(alloc, word, b',')?;
    members_of(alloc, parts.as_slice())
}

// The members that these words spell, all different.
fn members_of(alloc: Global, words: &[&[u8]]) -> Result<Vec<Participant>, ParseError>
    ensures are_peers { IfOk result (λ ms. ArePeers ms.items) }
    ensures found { IfOk result (λ ms. words_of words.now ≡ map decimal ms.items) }
    ensures only { (ps : List ℕ) → ArePeers ps → words_of words.now ≡ map decimal ps → Yields (λ ms. ms.items ≡ ps) result }
{
    let mut members = Vec::new(alloc);
    for word in words {
        let member = match member(word) {
            Ok(member) => member,
            Err(error) => return Err(error),
        };
        if members.contains(&member) {
            return Err(ParseError::Grammar);
        }
        if members.push(member).is_err() {
            return Err(ParseError::Memory);
        }
    }
    Ok(members)
}

// The member whose number a word spells.
fn member(word: &[u8]) -> Result<Participant, ParseError>
    ensures fits { IfOk result (λ m. m < 2 ^ 32) }
    ensures found { IfOk result (λ m. word.now ≡ decimal m) }
    ensures only { (n : ℕ) → n < 2 ^ 32 → word.now ≡ decimal n → Yields (λ m. m ≡ n) result }
{
    let number = match number(word) {
        Ok(number) => number,
        Err(error) => return Err(error),
    };
    if number > u32::MAX as u64 {
        return Err(ParseError::Grammar);
    }
    Ok(Participant::new(number as u32))
}
