//! The lines of what the resolver was asked.
ghost use Rattle.std.specs.Prelude.{◌≡◌, ◌++◌, ◌∷◌, OnOk, codes, map, option_map, string_bytes};
ghost use Rattle.std.specs.List.{flat_map};
ghost use Rattle.mar_key.specs.Keys.{above_round, fetch, retain};
ghost use Rattle.mar_key.specs.Recorded.{ask_of};
ghost use Rattle.mar_key.specs.Views.{annotation_of, cutoff_of, key_of, retain_of};
ghost use Rattle.mar_script.specs.Script.{hex};
ghost use Rattle.mar_script.specs.Text.{annotation_words, ask_words, line_of, target_words};

use crate::word::{Word, push_line};
use mar_key::{Annotation, Ask, Cutoff, Fetch, Retain};
use mar_types::{Encode, Sha256Digest};
use std::alloc::{AllocError, Global};

// Appends the line of a request by the bytes of its key, of these peers alone where there are some.
fn push_request<'a>(
    alloc: Global,
    text: &mut String,
    key: &'a [u8],
    annotation: Annotation,
    peers: Option<&'a [u32]>,
) -> Result<(), AllocError>
    ensures { OnOk result (string_bytes text.new ≡ string_bytes text.old
        ++ line_of (codes "fetch" ∷ hex key.now ∷ annotation_words (annotation_of annotation) ++ target_words (option_map (λ p. p.now) peers.entry))) }
{
    match peers {
        None => {
            let words = [Word::Hex(key), Word::Subscriber(annotation)];
            push_line(alloc, text, "fetch", &words)?;
            Ok(())
        }
        Some(peers) => {
            let words = [
                Word::Hex(key),
                Word::Subscriber(annotation),
                Word::Plain("to"),
                Word::Peers(peers),
            ];
            push_line(alloc, text, "fetch", &words)?;
            Ok(())
        }
    }
}

fn push_fetch(
    alloc: Global,
    text: &mut String,
    asked: &Fetch<Sha256Digest>,
    peers: Option<&[u32]>,
) -> Result<(), AllocError>
    ensures { OnOk result (string_bytes text.new ≡ string_bytes text.old
        ++ line_of (ask_words (fetch (key_of (λ d. d.bytes) asked.now.key) (annotation_of asked.now.subscriber) (option_map (λ p. p.now) peers.entry)))) }
{
    let key = asked.key.encode(alloc)?;
    push_request(alloc, text, key.as_slice(), asked.subscriber, peers)?;
    Ok(())
}

fn push_above_round(alloc: Global, text: &mut String, cutoff: Cutoff) -> Result<(), AllocError>
    ensures { OnOk result (string_bytes text.new ≡ string_bytes text.old ++ line_of (ask_words (retain (above_round (cutoff_of cutoff))))) }
{
    match cutoff {
        Cutoff::Round(round) => {
            let words = [Word::Plain("round"), Word::Round(round)];
            push_line(alloc, text, "retain", &words)
        }
        Cutoff::Epoch(epoch) => {
            let words = [Word::Plain("epoch"), Word::Number(epoch.get())];
            push_line(alloc, text, "retain", &words)
        }
    }
}

fn push_retain(alloc: Global, text: &mut String, keep: Retain) -> Result<(), AllocError>
    ensures { OnOk result (string_bytes text.new ≡ string_bytes text.old ++ line_of (ask_words (retain (retain_of keep)))) }
{
    match keep {
        Retain::AboveHeight(height) => {
            let words = [Word::Plain("height"), Word::Number(height.get())];
            push_line(alloc, text, "retain", &words)
        }
        Retain::AboveRound(cutoff) => push_above_round(alloc, text, cutoff),
    }
}

fn push_ask(alloc: Global, text: &mut String, ask: &Ask<Sha256Digest>) -> Result<(), AllocError>
    ensures { OnOk result (string_bytes text.new ≡ string_bytes text.old ++ line_of (ask_words (ask_of (λ d. d.bytes) ask.now))) }
{
    match ask {
        Ask::Fetch(asked) => push_fetch(alloc, text, asked, None),
        Ask::Targeted(asked, peers) => push_fetch(alloc, text, asked, Some(peers.as_slice())),
        Ask::Retain(keep) => push_retain(alloc, text, *keep),
    }
}

/// Appends the lines of what the resolver was asked, in order.
pub fn push_asks(
    alloc: Global,
    text: &mut String,
    asks: &[Ask<Sha256Digest>],
) -> Result<(), AllocError>
    ensures { OnOk result (string_bytes text.new ≡ string_bytes text.old ++ flat_map (λ a. line_of (ask_words a)) (map (ask_of (λ d. d.bytes)) asks.now)) }
{
    for ask in asks {
        push_ask(alloc, text, ask)?;
    }
    Ok(())
}
