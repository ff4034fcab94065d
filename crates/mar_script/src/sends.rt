//! The lines of what was sent.
ghost use Rattle.std.specs.Prelude.{◌≡◌, ◌++◌, OnOk, map, string_bytes};
ghost use Rattle.std.specs.List.{flat_map};
ghost use Rattle.mar_inbox.specs.Views.{peers_of};
ghost use Rattle.mar_script.specs.Lines.{plain_sent};
ghost use Rattle.mar_script.specs.Text.{line_of, sent_words};

use crate::word::{Word, push_line};
use mar_block::{EmptyBlock, Recipients, Sent};
use mar_types::{Digested, Participant, Round, Sha256};
use std::alloc::{AllocError, Global};
use std::convert::AsSlice;

// Appends the line of a block, by its digest.
fn push_to<'a>(
    alloc: Global,
    text: &mut String,
    round: Round,
    digest: &'a [u8],
    recipients: &'a Recipients<Participant>,
) -> Result<(), AllocError>
    ensures { OnOk result (string_bytes text.new ≡ string_bytes text.old
        ++ line_of (sent_words (record { round = round; digest = digest.now; peers = peers_of recipients.now }))) }
{
    let words = [
        Word::Round(round),
        Word::Hex(digest),
        Word::Recipients(recipients),
    ];
    push_line(alloc, text, "send", &words)
}

fn push_sent(
    alloc: Global,
    text: &mut String,
    sent: &Sent<Digested<EmptyBlock<Sha256>>>,
) -> Result<(), AllocError>
    ensures { OnOk result (string_bytes text.new ≡ string_bytes text.old ++ line_of (sent_words (plain_sent sent.now))) }
{
    let digest = sent.block.digest();
    push_to(alloc, text, sent.round, digest.as_slice(), &sent.recipients)
}

/// Appends the lines of what was sent, in order.
pub fn push_sends(
    alloc: Global,
    text: &mut String,
    sends: &[Sent<Digested<EmptyBlock<Sha256>>>],
) -> Result<(), AllocError>
    ensures { OnOk result (string_bytes text.new ≡ string_bytes text.old ++ flat_map (λ s. line_of (sent_words s)) (map plain_sent sends.now)) }
{
    for sent in sends {
        push_sent(alloc, text, sent)?;
    }
    Ok(())
}
