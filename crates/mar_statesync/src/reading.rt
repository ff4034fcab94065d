//! Reading a snapshot.
ghost use Rattle.std.specs.Prelude.{◌≡◌, ◌++◌, ◌+◌, ◌≤◌, ◌⊎◌, ◌↔◌, IfErr, IfOk, IsTrue};
ghost use Rattle.mar_types.specs.Codec.{HasNoFront, Takes};
ghost use Rattle.mar_types.specs.Varint.{IsVarint, varint};
ghost use Rattle.mar_cert.specs.Finalization.{finalization_bytes};
ghost use Rattle.mar_cert.specs.Grammar.{SpellsMockFinalization};
ghost use Rattle.mar_cert.specs.MockScheme.{IsFinalization};
ghost use Rattle.mar_statesync.specs.Plain.{plain_finalization};
ghost use Rattle.mar_statesync.specs.Reading.{HasNoNumbers, HasNoState, IsReadAs, Refuses, TakesNumbers, TakesState};
ghost use Rattle.mar_statesync.specs.Snapshots.{IsNoSnapshot, IsSnapshot, Snapshot, snapshot_bytes};

use crate::decode_error::DecodeError;
use crate::snapshot::Snapshot;
use bytes::Buf;
use mar_cert::MockFinalization;
use mar_ledger::Books;
use mar_types::{Error, Height, Read, UInt};
use std::alloc::Global;

// A number, from the front.
fn read_number<B: Buf>(alloc: Global, buf: &mut B) -> Result<u64, Error>
    ensures ok { IfOk result (λ n. Takes IsVarint (varint n) (B.unread buf.old) (B.unread buf.new)) }
    ensures err { IfErr result (λ e. (e ≡ Error.Memory) ⊎ HasNoFront IsVarint (B.unread buf.old)) }
{
    match UInt::read_cfg(alloc, buf, &()) {
        Ok(number) => Ok(number.0),
        Err(error) => Err(error),
    }
}

// Sixteen balances, from the front.
fn read_balances<B: Buf>(alloc: Global, buf: &mut B) -> Result<[u64; 16], Error>
    ensures ok { IfOk result (λ b. TakesNumbers 16 b (B.unread buf.old) (B.unread buf.new)) }
    ensures err { IfErr result (λ e. (e ≡ Error.Memory) ⊎ HasNoNumbers 16 (B.unread buf.old)) }
{
    let mut balances = [0; 16];
    for account in 0..16 {
        match read_number(alloc, buf) {
            Ok(balance) => balances[account] = balance,
            Err(error) => return Err(error),
        }
    }
    Ok(balances)
}

// Whether no more were rejected than were entered up to a height.
fn are_within(rejected: u64, height: u64) -> bool
    ensures { IsTrue result ↔ (rejected ≤ height + 1) }
{
    rejected.saturating_sub(1) <= height
}

// A height and the books behind it, from the front.
fn read_state<B: Buf>(alloc: Global, buf: &mut B) -> Result<(Height, Books), DecodeError>
    ensures ok { IfOk result (λ p. TakesState p.0 p.1 (B.unread buf.old) (B.unread buf.new)) }
    ensures err { IfErr result (Refuses (HasNoState (B.unread buf.old)) (B.unread buf.old)) }
{
    let height = match read_number(alloc, buf) {
        Ok(height) => height,
        Err(error) => return Err(DecodeError::Part(error)),
    };
    let rejected = match read_number(alloc, buf) {
        Ok(rejected) => rejected,
        Err(error) => return Err(DecodeError::Part(error)),
    };
    let balances = match read_balances(alloc, buf) {
        Ok(balances) => balances,
        Err(error) => return Err(DecodeError::Part(error)),
    };
    let books = match Books::of(balances, rejected) {
        Some(books) => books,
        None => return Err(DecodeError::Balances),
    };
    if !are_within(rejected, height) {
        return Err(DecodeError::Rejected);
    }
    Ok((Height::new(height), books))
}

// A finalization of so many members, from the front.
fn read_finalization<B: Buf>(
    alloc: Global,
    members: u32,
    buf: &mut B,
) -> Result<MockFinalization, Error>
    ensures is { IfOk result (λ f. IsFinalization members (plain_finalization f)) }
    ensures taken { IfOk result (λ f. B.unread buf.old
        ≡ finalization_bytes (plain_finalization f) ++ B.unread buf.new) }
    ensures err { IfErr result (λ e. (e ≡ Error.Memory)
        ⊎ HasNoFront (SpellsMockFinalization members) (B.unread buf.old)) }
{
    match MockFinalization::read_cfg(alloc, buf, &members) {
        Ok(finalization) => {
            finalization.is_finalization(members);
            Ok(finalization)
        }
        Err(error) => Err(error),
    }
}

/// The snapshot that the bytes spell from the first to the last, with a certificate of so many members.
pub fn decode(alloc: Global, members: u32, bytes: &[u8]) -> Result<Snapshot, DecodeError>
    ensures found { IfOk result (λ s. IsSnapshot members s × (bytes.now ≡ snapshot_bytes s)) }
    ensures only { (s : Snapshot) → IsSnapshot members s → bytes.now ≡ snapshot_bytes s → IsReadAs s result }
    ensures refused { IfErr result (Refuses (IsNoSnapshot members bytes.now) bytes.now) }
{
    let mut rest = bytes;
    let (height, books) = match read_state(alloc, &mut rest) {
        Ok(state) => state,
        Err(error) => return Err(error),
    };
    let finalization = match read_finalization(alloc, members, &mut rest) {
        Ok(finalization) => finalization,
        Err(error) => return Err(DecodeError::Part(error)),
    };
    if !rest.is_empty() {
        return Err(DecodeError::Part(Error::ExtraData));
    }
    Ok(Snapshot::of(height, books, finalization))
}
