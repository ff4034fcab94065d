//! What files stand for: a law that callers rest on.
ghost use Rattle.std.specs.Prelude.{◌≡◌, ℕ, List};
ghost use Rattle.mar_journal.specs.Format.{IsDamaged, Stands, first_version, second_version};
ghost use Rattle.mar_journal.specs.Framing as framing;
ghost use Rattle.mar_journal.specs.Framing.{IsVersion, Version};

use crate::Record;

/// A file stands for one list of records at most, and for none where it is damaged; it is damaged at one place at most.
pub fn files_have_one_meaning<R: Record>()
    ensures one { (records other : List R) (file : List ℕ) → Stands R.spelled R.valid records file
        → Stands R.spelled R.valid other file → records ≡ other }
    ensures whole { (records : List R) (at : ℕ) (file : List ℕ) → Stands R.spelled R.valid records file
        → IsDamaged R.spelled R.valid at file → ⊥ }
    ensures place { (at other : ℕ) (file : List ℕ) → IsDamaged R.spelled R.valid at file
        → IsDamaged R.spelled R.valid other file → at ≡ other }
{}

/// The same of any version that tells lengths apart, as both that there are do.
pub fn versions_have_one_meaning<R: Record>()
    ensures one { (version : Version) (records other : List R) (file : List ℕ) → IsVersion version
        → framing.Stands version R.spelled R.valid records file
        → framing.Stands version R.spelled R.valid other file → records ≡ other }
    ensures whole { (version : Version) (records : List R) (at : ℕ) (file : List ℕ) → IsVersion version
        → framing.Stands version R.spelled R.valid records file
        → framing.IsDamaged version R.spelled R.valid at file → ⊥ }
    ensures place { (version : Version) (at other : ℕ) (file : List ℕ) → IsVersion version
        → framing.IsDamaged version R.spelled R.valid at file
        → framing.IsDamaged version R.spelled R.valid other file → at ≡ other }
    ensures first { IsVersion first_version }
    ensures second { IsVersion second_version }
{}
