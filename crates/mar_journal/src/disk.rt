//! A disk as a journal sees it: what a read gives, and what a crash may leave.
ghost use Rattle.std.specs.Prelude.{◌≡◌, ◌≤◌, ◌<◌, ◌^◌, List, ℕ, length, take, drop, IfOk, OnOk};
ghost use Rattle.mar_journal.specs.Disk.{Only, Follows, Narrows, Torn, Holds, Elapses, Answers};

use mar_store::Miss;
use std::alloc::{AllocError, Global};

/// Bytes that outlive the process. Between two syncs each written range, and the part past the old end up to the new
/// one, may hold any bytes after a crash; all others stay.
pub trait Disk: Drop {
    /// The bytes that a read gives.
    ghost seen: { Self → List ℕ };

    /// What a crash at this moment may leave.
    ghost may_leave: { Self → List ℕ → Type 0 };

    /// The moment, as a number that doesn't fall. Each write and each sync is one.
    ghost moment: { Self → ℕ };

    /// What a crash at some moment from that one on might have left, in a call or between two.
    ghost left_since: { Self → ℕ → List ℕ → Type 0 };

    /// How often it has failed.
    ghost faults: { Self → ℕ };

    /// How many bytes it has.
    fn len(&mut self) -> Result<usize, Miss>
        ensures size { IfOk result (λ n. n ≡ length (seen self.old)) }
        ensures same { seen self.new ≡ seen self.old }
        ensures crash { Narrows (may_leave self.old) (may_leave self.new) }
        ensures time { Elapses (moment self.old) (moment self.new) (left_since self.old) (left_since self.new) (may_leave self.new) }
        ensures cause { Answers (faults self.old) (faults self.new) result };

    /// So many bytes from a place on, or all there are.
    fn read(&mut self, alloc: Global, at: usize, size: usize) -> Result<Vec<u8>, Miss>
        ensures bytes { IfOk result (λ bytes. bytes.items ≡ take size (drop at (seen self.old))) }
        ensures same { seen self.new ≡ seen self.old }
        ensures crash { Narrows (may_leave self.old) (may_leave self.new) }
        ensures time { Elapses (moment self.old) (moment self.new) (left_since self.old) (left_since self.new) (may_leave self.new) }
        ensures cause { Answers (faults self.old) (faults self.new) result };

    /// Writes over what is there, and past the end.
    fn write_at(&mut self, at: usize, bytes: &[u8]) -> Result<(), Miss>
        requires { at ≤ length (seen self.old) }
        ensures written { OnOk result (Holds (seen self.old) at bytes.now (seen self.new)) }
        ensures crash { Follows (Torn at (length bytes.now)) (may_leave self.old) (may_leave self.new) }
        ensures time { Elapses (moment self.old) (moment self.new) (left_since self.old) (left_since self.new) (may_leave self.new) }
        ensures cause { Answers (faults self.old) (faults self.new) result };

    /// After it a crash leaves what a read gives.
    fn sync(&mut self) -> Result<(), Miss>
        ensures durable { OnOk result (Only (seen self.old) (may_leave self.new)) }
        ensures same { seen self.new ≡ seen self.old }
        ensures crash { Narrows (may_leave self.old) (may_leave self.new) }
        ensures time { Elapses (moment self.old) (moment self.new) (left_since self.old) (left_since self.new) (may_leave self.new) }
        ensures cause { Answers (faults self.old) (faults self.new) result };

    /// Where a crash can be played, it has one by this luck: from then on it has what that left. Else it stays as it is.
    fn crash(&mut self, luck: u64) -> Result<(), AllocError>
        ensures crash { Narrows (may_leave self.old) (may_leave self.new) }
        ensures time { Elapses (moment self.old) (moment self.new) (left_since self.old) (left_since self.new) (may_leave self.new) }
        ensures cause { faults self.new ≡ faults self.old };

    /// As it reads it is one of its images.
    ghost is_image: { (disk : Self) → may_leave disk (seen disk) };

    /// A write that would end past this fails.
    ghost short: { (disk : Self) → length (seen disk) < 2 ^ 63 };

    /// This moment is one of those since an earlier one.
    ghost counts_now: { (disk : Self) (t : ℕ) (c : List ℕ) → t ≤ moment disk → may_leave disk c → left_since disk t c };

    /// Since this moment there is no other.
    ghost only_now: { (disk : Self) (c : List ℕ) → left_since disk (moment disk) c → may_leave disk c };
}
