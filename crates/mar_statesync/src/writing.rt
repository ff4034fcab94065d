//! Writing a snapshot.
ghost use Rattle.std.specs.Prelude.{◌≡◌, ◌++◌, IfOk, OnOk};
ghost use Rattle.std.specs.List.{flat_map};
ghost use Rattle.mar_types.specs.Varint.{varint};
ghost use Rattle.mar_statesync.specs.Snapshots.{snapshot_bytes};

use crate::snapshot::Snapshot;
use bytes::BufMut;
use mar_types::{UInt, Write};
use std::alloc::{AllocError, Global};

// Appends the balances, in the order of the accounts.
fn write_balances<B: BufMut>(balances: &[u64; 16], buf: &mut B) -> Result<(), AllocError>
    ensures { OnOk result (B.written buf.new ≡ B.written buf.old ++ flat_map varint balances.now) }
{
    'balances: for balance in balances {
        UInt(*balance).write(buf)?;
    }
    Ok(())
}

/// Appends a snapshot's spelling. Where it fails, a part of the spelling may stand at the end.
pub fn write<B: BufMut>(snapshot: &Snapshot, buf: &mut B) -> Result<(), AllocError>
    ensures { OnOk result (B.written buf.new ≡ B.written buf.old ++ snapshot_bytes snapshot.now) }
{
    UInt(snapshot.height().get()).write(buf)?;
    UInt(snapshot.books().rejected()).write(buf)?;
    let balances = snapshot.books().balances();
    write_balances(&balances, buf)?;
    snapshot.finalization().write(buf)
}

/// A snapshot's spelling. It fails only by memory.
pub fn encode(alloc: Global, snapshot: &Snapshot) -> Result<Vec<u8>, AllocError>
    ensures { IfOk result (λ bytes. bytes.items ≡ snapshot_bytes snapshot.now) }
{
    let mut bytes = Vec::new(alloc);
    write(snapshot, &mut bytes)?;
    Ok(bytes)
}
