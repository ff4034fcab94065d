//! The lines of the output.
ghost use Rattle.std.specs.Prelude.{◌≡◌, ◌++◌, ◌∷◌, [], OnOk, codes, decimal, string_bytes};
ghost use Rattle.mar_model.specs.Step.{new_tip};
ghost use Rattle.mar_script.specs.Script.{hex, store_name};
ghost use Rattle.mar_script.specs.Text.{fault_words, kind_name, line_of, remark_words, report_words};
ghost use Rattle.mar_model.specs.Views.{kind_of, store_name_of};
ghost use Rattle.mar_script.specs.Shown.{plain_fault, remark_of};

use crate::word::{Word, push_line};
use mar_model::{Fault, StoreName, TicketKind};
use mar_types::{Height, Round, Sha256Digest};
use std::alloc::{AllocError, Global};
use std::convert::AsSlice;

/// Why a line did nothing.
#[derive(Clone, Copy)]
pub enum RemarkShown {
    /// The ticket isn't open or outstanding.
    Ignored,
    /// No life runs.
    Stopped,
    /// A life runs already.
    Running,
}

/// Appends the line of a new tip.
pub fn push_tip(
    alloc: Global,
    text: &mut String,
    round: Round,
    height: Height,
    digest: &[u8],
) -> Result<(), AllocError>
    ensures { OnOk result (string_bytes text.new ≡ string_bytes text.old ++ line_of (report_words (new_tip round height digest.now))) }
{
    let words = [
        Word::Round(round),
        Word::Number(height.get()),
        Word::Hex(digest),
    ];
    push_line(alloc, text, "tip", &words)
}

/// Appends the line of a block that was handed over under this ticket.
pub fn push_block(
    alloc: Global,
    text: &mut String,
    ticket: u64,
    height: Height,
    digest: &[u8],
) -> Result<(), AllocError>
    ensures { OnOk result (string_bytes text.new ≡ string_bytes text.old ++ line_of (codes "block" ∷ decimal ticket ∷ decimal height ∷ hex digest.now ∷ [])) }
{
    let words = [
        Word::Number(ticket),
        Word::Number(height.get()),
        Word::Hex(digest),
    ];
    push_line(alloc, text, "block", &words)
}

/// Appends why a line did nothing.
pub fn push_remark(text: &mut String, remark: RemarkShown) -> Result<(), AllocError>
    ensures { OnOk result (string_bytes text.new ≡ string_bytes text.old ++ line_of (remark_words (remark_of remark))) }
{
    text.push_str(match remark {
        RemarkShown::Ignored => "ignored\n",
        RemarkShown::Stopped => "stopped\n",
        RemarkShown::Running => "running\n",
    })
}

fn store_text(store: StoreName) -> &'static str
    ensures { result.now ≡ store_name (store_name_of store) }
{
    match store {
        StoreName::Blocks => "blocks",
        StoreName::Certs => "certs",
        StoreName::Meta => "meta",
        StoreName::Cache => "cache",
    }
}

fn kind_text(kind: TicketKind) -> &'static str
    ensures { result.now ≡ kind_name (kind_of kind) }
{
    match kind {
        TicketKind::Sync => "sync",
        TicketKind::Ack => "ack",
    }
}

// Appends a fault that a height tells.
fn push_fault_at(
    alloc: Global,
    text: &mut String,
    name: &'static str,
    height: Height,
) -> Result<(), AllocError>
    ensures { OnOk result (string_bytes text.new ≡ string_bytes text.old ++ line_of (codes "fault" ∷ name.now ∷ decimal height ∷ [])) }
{
    let words = [Word::Plain(name), Word::Number(height.get())];
    push_line(alloc, text, "fault", &words)
}

// Appends a fault that two letters tell.
fn push_fault_named(
    alloc: Global,
    text: &mut String,
    name: &'static str,
    of: &'static str,
) -> Result<(), AllocError>
    ensures { OnOk result (string_bytes text.new ≡ string_bytes text.old ++ line_of (codes "fault" ∷ name.now ∷ of.now ∷ [])) }
{
    let words = [Word::Plain(name), Word::Plain(of)];
    push_line(alloc, text, "fault", &words)
}

fn push_mismatch<'a>(
    alloc: Global,
    text: &mut String,
    configured: &'a [u8],
    stored: &'a [u8],
) -> Result<(), AllocError>
    ensures { OnOk result (string_bytes text.new ≡ string_bytes text.old
        ++ line_of (codes "fault" ∷ codes "GenesisMismatch" ∷ hex configured.now ∷ hex stored.now ∷ [])) }
{
    let words = [
        Word::Plain("GenesisMismatch"),
        Word::Hex(configured),
        Word::Hex(stored),
    ];
    push_line(alloc, text, "fault", &words)
}

fn push_corrupt<'a>(
    alloc: Global,
    text: &mut String,
    height: Height,
    block: &'a [u8],
    payload: &'a [u8],
) -> Result<(), AllocError>
    ensures { OnOk result (string_bytes text.new ≡ string_bytes text.old
        ++ line_of (codes "fault" ∷ codes "Corrupt" ∷ decimal height ∷ hex block.now ∷ hex payload.now ∷ [])) }
{
    let words = [
        Word::Plain("Corrupt"),
        Word::Number(height.get()),
        Word::Hex(block),
        Word::Hex(payload),
    ];
    push_line(alloc, text, "fault", &words)
}

/// Appends why a life ended.
pub fn push_fault(
    alloc: Global,
    text: &mut String,
    fault: Fault<Sha256Digest>,
) -> Result<(), AllocError>
    ensures { OnOk result (string_bytes text.new ≡ string_bytes text.old ++ line_of (codes "fault" ∷ fault_words (plain_fault fault))) }
{
    match fault {
        Fault::StoreFault(store) => push_fault_named(alloc, text, "StoreFault", store_text(store)),
        Fault::GenesisHeight(height) => push_fault_at(alloc, text, "GenesisHeight", height),
        Fault::GenesisMismatch(configured, stored) => {
            push_mismatch(alloc, text, configured.as_slice(), stored.as_slice())
        }
        Fault::Corrupt(height, block, payload) => push_corrupt(
            alloc,
            text,
            height,
            block.as_slice(),
            payload.as_slice(),
        ),
        Fault::Unbacked(height) => push_fault_at(alloc, text, "Unbacked", height),
        Fault::HeightLimit(height) => push_fault_at(alloc, text, "HeightLimit", height),
        Fault::AckDropped(height) => push_fault_at(alloc, text, "AckDropped", height),
        Fault::TicketLimit(kind) => push_fault_named(alloc, text, "TicketLimit", kind_text(kind)),
        Fault::Memory => text.push_str("fault Memory\n"),
    }
}
