//! Calls that are armed to fail, and how often calls failed.
ghost use Rattle.std.specs.Prelude.{◌≡◌, ◌+◌, ◌-◌, ◌^◌, ◌++◌, [], ◌∷◌, min, if◌then◌else◌, OnOk, OnErr};
ghost use Rattle.mar_store.specs.Watch.{is_due, after_call};

use std::alloc::{AllocError, Global};

/// How many counted calls away each armed one is, and how often calls have failed. The count stays at its greatest value
/// once it is there, so that it never falls.
#[derive(Drop)]
pub struct Alarm {
    due: Vec<u64>,
    faults: u64,
}

impl Alarm {
    /// Nothing is armed, and nothing has failed.
    pub fn new(alloc: Global) -> Self
        ensures due { result.due.items ≡ [] }
        ensures faults { result.faults ≡ 0 }
    {
        Alarm {
            due: Vec::new(alloc),
            faults: 0,
        }
    }

    /// Arms the counted call that is so many calls away, 1 being the next.
    pub fn arm(&mut self, calls: u64) -> Result<(), AllocError>
        ensures ok { OnOk result (self.new.due.items ≡ self.old.due.items ++ calls ∷ []) }
        ensures err { OnErr result (self.new.due.items ≡ self.old.due.items) }
        ensures faults { self.new.faults ≡ self.old.faults }
    {
        self.due.push(calls)?;
        Ok(())
    }

    /// Counts a fault that no armed call is the cause of: that of a store which this one stands on.
    pub fn fail(&mut self)
        ensures due { self.new.due.items ≡ self.old.due.items }
        ensures faults { self.new.faults ≡ min (self.old.faults + 1) (2 ^ 64 - 1) }
    {
        self.faults = self.faults.saturating_add(1);
    }

    /// Counts one call. Says whether it was armed, and then counts a fault.
    pub fn rings(&mut self) -> bool
        ensures rings { result ≡ is_due self.old.due.items }
        ensures due { self.new.due.items ≡ after_call self.old.due.items }
        ensures faults { self.new.faults ≡ (if result then min (self.old.faults + 1) (2 ^ 64 - 1) else self.old.faults) }
    {
        let rings = pass(&mut self.due);
        if rings {
            self.faults = self.faults.saturating_add(1);
        }
        rings
    }
}

// Brings each armed call one call nearer. Says whether one was the next, and drops it.
fn pass(due: &mut Vec<u64>) -> bool
    ensures rings { result ≡ is_due due.old.items }
    ensures due { due.new.items ≡ after_call due.old.items }
{
    let mut rings = false;
    let mut place = 0;
    while place < due.len() {
        let calls = due[place];
        if calls > 1 {
            due[place] = calls - 1;
            place += 1;
        } else {
            rings = rings || calls == 1;
            due.remove(place);
        }
    }
    rings
}
