//! What a snapshot's bytes say, whoever wrote them.
ghost use Rattle.std.specs.Prelude.{◌≡◌, ℕ};
ghost use Rattle.mar_statesync.specs.Snapshots.{IsSnapshot, Snapshot, snapshot_bytes};

/// Two snapshots of the same bytes are one, whatever committees they were read with.
pub fn snapshots_are_spelled_once()
    ensures { (n m : ℕ) (s t : Snapshot) → IsSnapshot n s → IsSnapshot m t
        → snapshot_bytes s ≡ snapshot_bytes t → s ≡ t }
{}
