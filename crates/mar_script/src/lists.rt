//! Lists in the lines of the output: with a comma between, or `-` for none.
ghost use Rattle.std.specs.Prelude.{◌≡◌, ◌++◌, ◌∷◌, OnOk, decimal, map, string_bytes};
ghost use Rattle.std.specs.List.{flat_map};
ghost use Rattle.mar_model.specs.Pool.{syncs_of};
ghost use Rattle.mar_model.specs.Views.{pooled_of};
ghost use Rattle.mar_parts.specs.Views.{mark_of, outstanding_of};
ghost use Rattle.mar_inbox.specs.Views.{peers_of};
ghost use Rattle.mar_script.specs.Script.{comma_numbers, peers_text};
ghost use Rattle.mar_script.specs.Text.{comma_list, mark_text, outstanding_text, sync_text};

use crate::pieces::push_number;
use mar_block::Recipients;
use mar_model::{OpenSync, OpenTicket};
use mar_parts::{Mark, PendingAck};
use mar_types::{Height, Participant};
use std::alloc::AllocError;

// Peers, each with a comma before it.
fn push_more_peers(text: &mut String, peers: &[u32]) -> Result<(), AllocError>
    ensures { OnOk result (string_bytes text.new ≡ string_bytes text.old ++ flat_map (λ p. 44 ∷ decimal p) peers.now) }
{
    for peer in peers {
        write!(text, ",{peer}")?;
    }
    Ok(())
}

/// Appends peers.
pub fn push_peers(text: &mut String, peers: &[u32]) -> Result<(), AllocError>
    ensures { OnOk result (string_bytes text.new ≡ string_bytes text.old ++ comma_numbers peers.now) }
{
    if peers.is_empty() {
        return text.push_str("-");
    }
    let first = peers[0];
    write!(text, "{first}")?;
    push_more_peers(text, peers.split_at(1).1)?;
    Ok(())
}

// Members, each with a comma before it.
fn push_more_members(text: &mut String, members: &[Participant]) -> Result<(), AllocError>
    ensures { OnOk result (string_bytes text.new ≡ string_bytes text.old ++ flat_map (λ m. 44 ∷ decimal m) members.now) }
{
    for member in members {
        text.push_str(",")?;
        push_number(text, member.get() as u64)?;
    }
    Ok(())
}

fn push_members(text: &mut String, members: &[Participant]) -> Result<(), AllocError>
    ensures { OnOk result (string_bytes text.new ≡ string_bytes text.old ++ comma_numbers members.now) }
{
    if members.is_empty() {
        return text.push_str("-");
    }
    push_number(text, members[0].get() as u64)?;
    push_more_members(text, members.split_at(1).1)?;
    Ok(())
}

/// Appends to whom something is sent: `all`, or members.
pub fn push_recipients(
    text: &mut String,
    recipients: &Recipients<Participant>,
) -> Result<(), AllocError>
    ensures { OnOk result (string_bytes text.new ≡ string_bytes text.old ++ peers_text (peers_of recipients.now)) }
{
    match recipients {
        Recipients::All => text.push_str("all"),
        Recipients::Some(members) => push_members(text, members),
    }
}

// Heights, each with a comma before it.
fn push_more_heights(text: &mut String, heights: &[Height]) -> Result<(), AllocError>
    ensures { OnOk result (string_bytes text.new ≡ string_bytes text.old ++ flat_map (λ h. 44 ∷ decimal h) heights.now) }
{
    for height in heights {
        text.push_str(",")?;
        push_number(text, height.get())?;
    }
    Ok(())
}

fn push_height_list(text: &mut String, heights: &[Height]) -> Result<(), AllocError>
    ensures { OnOk result (string_bytes text.new ≡ string_bytes text.old ++ comma_numbers heights.now) }
{
    if heights.is_empty() {
        return text.push_str("-");
    }
    push_number(text, heights[0].get())?;
    push_more_heights(text, heights.split_at(1).1)?;
    Ok(())
}

/// Appends heights in two parts.
pub fn push_heights(text: &mut String, front: &[Height], back: &[Height]) -> Result<(), AllocError>
    ensures { OnOk result (string_bytes text.new ≡ string_bytes text.old ++ comma_numbers (front.now ++ back.now)) }
{
    if front.is_empty() {
        return push_height_list(text, back);
    }
    push_height_list(text, front)?;
    push_more_heights(text, back)?;
    Ok(())
}

// The numbers of open syncs of the cache, each with a comma before it.
fn push_more_numbers(text: &mut String, tickets: &[OpenTicket]) -> Result<(), AllocError>
    ensures { OnOk result (string_bytes text.new ≡ string_bytes text.old ++ flat_map (λ o. 44 ∷ decimal o.number) tickets.now) }
{
    for open in tickets {
        text.push_str(",")?;
        push_number(text, open.number)?;
    }
    Ok(())
}

/// Appends the numbers of open syncs of the cache.
pub fn push_numbers(text: &mut String, tickets: &[OpenTicket]) -> Result<(), AllocError>
    ensures { OnOk result (string_bytes text.new ≡ string_bytes text.old ++ comma_numbers (map (λ o. o.number) tickets.now)) }
{
    if tickets.is_empty() {
        return text.push_str("-");
    }
    push_number(text, tickets[0].number)?;
    push_more_numbers(text, tickets.split_at(1).1)?;
    Ok(())
}

fn mark_letter(mark: Mark) -> &'static str
    ensures { result.now ≡ mark_text (mark_of mark) }
{
    match mark {
        Mark::Waiting => "",
        Mark::Given => "+",
        Mark::Dropped => "x",
    }
}

fn push_ack(text: &mut String, ack: PendingAck) -> Result<(), AllocError>
    ensures { OnOk result (string_bytes text.new ≡ string_bytes text.old ++ outstanding_text (outstanding_of ack)) }
{
    let (ticket, height) = (ack.ticket, ack.height.get());
    let mark = mark_letter(ack.mark);
    write!(text, "{ticket}:{height}{mark}")
}

// Acknowledgements, each with a comma before it.
fn push_more_acks(text: &mut String, acks: &[PendingAck]) -> Result<(), AllocError>
    ensures { OnOk result (string_bytes text.new ≡ string_bytes text.old ++ flat_map (λ a. 44 ∷ outstanding_text (outstanding_of a)) acks.now) }
{
    for ack in acks {
        text.push_str(",")?;
        push_ack(text, *ack)?;
    }
    Ok(())
}

/// Appends outstanding acknowledgements, with a comma between, or `-` for none.
pub fn push_ack_list(text: &mut String, acks: &[PendingAck]) -> Result<(), AllocError>
    ensures { OnOk result (string_bytes text.new ≡ string_bytes text.old ++ comma_list (map outstanding_text (map outstanding_of acks.now))) }
{
    if acks.is_empty() {
        return text.push_str("-");
    }
    push_ack(text, acks[0])?;
    push_more_acks(text, acks.split_at(1).1)?;
    Ok(())
}

fn push_sync(text: &mut String, sync: OpenSync) -> Result<(), AllocError>
    ensures { OnOk result (string_bytes text.new ≡ string_bytes text.old ++ sync_text (pooled_of sync).sync) }
{
    let (ticket, position) = (sync.ticket, sync.position);
    write!(text, "{ticket}:{position}")
}

// Open syncs, each with a comma before it.
fn push_more_syncs(text: &mut String, syncs: &[OpenSync]) -> Result<(), AllocError>
    ensures { OnOk result (string_bytes text.new ≡ string_bytes text.old ++ flat_map (λ s. 44 ∷ sync_text (pooled_of s).sync) syncs.now) }
{
    for sync in syncs {
        text.push_str(",")?;
        push_sync(text, *sync)?;
    }
    Ok(())
}

/// Appends open syncs.
pub fn push_syncs(text: &mut String, syncs: &[OpenSync]) -> Result<(), AllocError>
    ensures { OnOk result (string_bytes text.new ≡ string_bytes text.old ++ comma_list (map sync_text (syncs_of (map pooled_of syncs.now)))) }
{
    if syncs.is_empty() {
        return text.push_str("-");
    }
    push_sync(text, syncs[0])?;
    push_more_syncs(text, syncs.split_at(1).1)?;
    Ok(())
}
