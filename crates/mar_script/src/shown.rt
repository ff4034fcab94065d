//! The line that shows a node, and the one that shows what is left of it.
ghost use Rattle.std.specs.Prelude.{◌≡◌, ◌++◌, ◌∷◌, IfOk, OnOk, codes, decimal, map, option_map, string_bytes};
ghost use Rattle.mar_key.specs.Views.{cutoff_of, processed_of};
ghost use Rattle.mar_model.specs.Pool.{syncs_of};
ghost use Rattle.mar_parts.specs.Views.{outstanding_of};
ghost use Rattle.mar_script.specs.Script.{comma_numbers};
ghost use Rattle.mar_script.specs.Text.{comma_list, cutoff_text, line_of, or_dash, outstanding_text, processed_text, sync_text};
ghost use Rattle.mar_script.specs.Shown.{ended_shown_words, ranges_shown, shown_words};

use crate::lists::{push_ack_list, push_heights, push_numbers, push_syncs};
use crate::pieces::{push_cutoff, push_height, push_processed};
use crate::range_text::RangeText;
use mar_model::{OpenTicket, ShownRuins, Writes};
use mar_parts::{PendingAck, PendingAcks, Shown};
use mar_store::RangeSet;
use std::alloc::{AllocError, Global};

/// The text of the ranges of a node's stores, or of what is left of them, kept from line to line. It has no say in what
/// is written.
#[derive(Drop)]
pub struct RangeTexts {
    blocks: RangeText,
    blocks_sure: RangeText,
    certs: RangeText,
    certs_sure: RangeText,
}

impl RangeTexts {
    /// Of no ranges. No clause speaks of what is kept here, since nothing that is written depends on it.
    pub fn new(alloc: Global) -> Self {
        RangeTexts {
            blocks: RangeText::new(alloc),
            blocks_sure: RangeText::new(alloc),
            certs: RangeText::new(alloc),
            certs_sure: RangeText::new(alloc),
        }
    }
}

// The acknowledgements in order.
fn listed(alloc: Global, acks: &PendingAcks) -> Result<Vec<PendingAck>, AllocError>
    ensures { IfOk result (λ list. map outstanding_of list.items ≡ acks.now.entries) }
{
    let mut list = Vec::new(alloc);
    for place in 0..acks.len() {
        if let Some(ack) = acks.get(place) {
            list.push(ack)?;
        }
    }
    Ok(list)
}

fn push_acks(alloc: Global, text: &mut String, acks: &PendingAcks) -> Result<(), AllocError>
    ensures { OnOk result (string_bytes text.new ≡ string_bytes text.old ++ comma_list (map outstanding_text acks.now.entries)) }
{
    let list = listed(alloc, acks)?;
    push_ack_list(text, &list)
}

// A word of a name and ranges, with a space before it.
fn push_field(
    text: &mut String,
    kept: &mut RangeText,
    name: &str,
    ranges: &RangeSet,
) -> Result<(), AllocError>
    ensures { OnOk result (string_bytes text.new ≡ string_bytes text.old ++ (32 ∷ (name.now ++ ranges_shown ranges.now))) }
{
    kept.set(ranges.as_slice())?;
    let shown = kept.shown();
    write!(text, " {name}{shown}")
}

fn push_node_front(alloc: Global, text: &mut String, node: &Shown<'_>) -> Result<(), AllocError>
    ensures { OnOk result (string_bytes text.new ≡ string_bytes text.old ++ (codes "node p="
        ++ (or_dash (option_map processed_text (option_map processed_of node.now.processed))
        ++ (codes " o=" ++ comma_list (map outstanding_text node.now.acks.now.entries))))) }
{
    text.push_str("node p=")?;
    push_processed(text, node.processed)?;
    text.push_str(" o=")?;
    push_acks(alloc, text, node.acks)?;
    Ok(())
}

fn push_node_ranges(
    text: &mut String,
    kept: &mut RangeTexts,
    node: &Shown<'_>,
) -> Result<(), AllocError>
    ensures { OnOk result (string_bytes text.new ≡ string_bytes text.old ++ ((32 ∷ (codes "b=" ++ ranges_shown node.now.blocks_held.now))
        ++ ((32 ∷ (codes "bs=" ++ ranges_shown node.now.blocks_sure.now))
        ++ ((32 ∷ (codes "f=" ++ ranges_shown node.now.certs_held.now)) ++ (32 ∷ (codes "fs=" ++ ranges_shown node.now.certs_sure.now)))))) }
{
    push_field(text, &mut kept.blocks, "b=", node.blocks_held)?;
    push_field(text, &mut kept.blocks_sure, "bs=", node.blocks_sure)?;
    push_field(text, &mut kept.certs, "f=", node.certs_held)?;
    push_field(text, &mut kept.certs_sure, "fs=", node.certs_sure)?;
    Ok(())
}

// The writes that wait for a sync, and the open syncs.
fn push_writes(text: &mut String, writes: &Writes) -> Result<(), AllocError>
    ensures { OnOk result (string_bytes text.new ≡ string_bytes text.old ++ (codes " u=" ++ (comma_numbers writes.now.uncovered
        ++ (codes " s=" ++ comma_list (map sync_text (syncs_of writes.now.pooled)))))) }
{
    let (front, back) = writes.uncovered();
    text.push_str(" u=")?;
    push_heights(text, front, back)?;
    text.push_str(" s=")?;
    push_syncs(text, writes.syncs())?;
    Ok(())
}

// The open syncs of the cache, with which the line ends.
fn push_tickets(text: &mut String, tickets: &[OpenTicket]) -> Result<(), AllocError>
    ensures { OnOk result (string_bytes text.new ≡ string_bytes text.old
        ++ (codes " y=" ++ (comma_numbers (map (λ o. o.number) tickets.now) ++ codes "\n"))) }
{
    text.push_str(" y=")?;
    push_numbers(text, tickets)?;
    text.push_str("\n")?;
    Ok(())
}

/// Appends the line that shows a node.
pub fn push_node(
    alloc: Global,
    text: &mut String,
    kept: &mut RangeTexts,
    node: &Shown<'_>,
) -> Result<(), AllocError>
    ensures { OnOk result (string_bytes text.new ≡ string_bytes text.old ++ line_of (shown_words (option_map processed_of node.now.processed)
        node.now.acks.now.entries (cutoff_of node.now.cutoff)
        node.now.blocks_held.now node.now.blocks_sure.now node.now.certs_held.now node.now.certs_sure.now
        node.now.writes.now.uncovered (syncs_of node.now.writes.now.pooled) (map (λ o. o.number) node.now.tickets.now))) }
{
    push_node_front(alloc, text, node)?;
    text.push_str(" c=")?;
    push_cutoff(text, node.cutoff)?;
    text.push_str(" w=-")?;
    push_node_ranges(text, kept, node)?;
    push_writes(text, node.writes)?;
    push_tickets(text, node.tickets)?;
    Ok(())
}

fn push_ended_front(text: &mut String, ended: &ShownRuins<'_>) -> Result<(), AllocError>
    ensures { OnOk result (string_bytes text.new ≡ string_bytes text.old ++ (codes "node end p="
        ++ (or_dash (option_map decimal ended.now.processed) ++ (codes " c=" ++ cutoff_text (cutoff_of ended.now.cutoff))))) }
{
    text.push_str("node end p=")?;
    push_height(text, ended.processed)?;
    text.push_str(" c=")?;
    push_cutoff(text, ended.cutoff)?;
    Ok(())
}

fn push_ended_ranges(
    text: &mut String,
    kept: &mut RangeTexts,
    ended: &ShownRuins<'_>,
) -> Result<(), AllocError>
    ensures { OnOk result (string_bytes text.new ≡ string_bytes text.old ++ ((32 ∷ (codes "bs=" ++ ranges_shown ended.now.blocks_sure.now))
        ++ ((32 ∷ (codes "bm=" ++ ranges_shown ended.now.blocks_may.now))
        ++ ((32 ∷ (codes "fs=" ++ ranges_shown ended.now.certs_sure.now)) ++ (32 ∷ (codes "fm=" ++ ranges_shown ended.now.certs_may.now)))))) }
{
    push_field(text, &mut kept.blocks_sure, "bs=", ended.blocks_sure)?;
    push_field(text, &mut kept.blocks, "bm=", ended.blocks_may)?;
    push_field(text, &mut kept.certs_sure, "fs=", ended.certs_sure)?;
    push_field(text, &mut kept.certs, "fm=", ended.certs_may)?;
    Ok(())
}

/// Appends the line that shows what is left where no life runs.
pub fn push_ended(
    text: &mut String,
    kept: &mut RangeTexts,
    ended: &ShownRuins<'_>,
) -> Result<(), AllocError>
    ensures { OnOk result (string_bytes text.new ≡ string_bytes text.old ++ line_of (ended_shown_words ended.now.processed (cutoff_of ended.now.cutoff)
        ended.now.blocks_sure.now ended.now.blocks_may.now ended.now.certs_sure.now ended.now.certs_may.now)) }
{
    push_ended_front(text, ended)?;
    push_ended_ranges(text, kept, ended)?;
    text.push_str("\n")?;
    Ok(())
}
