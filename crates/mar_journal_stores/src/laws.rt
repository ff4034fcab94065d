//! How moments add up, and what a ticket writes: laws that callers rest on, each the contract of a function.
ghost use Rattle.std.specs.Prelude.{◌≡◌, ◌<◌, ◌≤◌, ◌++◌, ℕ, List, length, take};
ghost use Rattle.std.specs.List.{AllByRecursion};
ghost use Rattle.mar_store.specs.Changes.{KeepsValues, Within};
ghost use Rattle.mar_store.specs.Kept.{At};
ghost use Rattle.mar_store.specs.Values.{Values};
ghost use Rattle.mar_store.specs.declared.Entry.{Entry};
ghost use Rattle.mar_journal.specs.Disk.{LeavesOnly};
ghost use Rattle.mar_journal_stores.specs.ArchiveStore.{IsFront, StaysFound, aside_after};
ghost use Rattle.mar_journal_stores.specs.MetaStore.{IsMetaFile};

use mar_journal::{Disk, JournalItem};

/// How the moments of an archive's calls add up to those of a run of them: of one call and of those behind it a crash leaves
/// a file in which a reopening finds what is sure all along, and nothing but what may be left at some time.
pub fn archive_moments_add_up<T: JournalItem, D: Disk>()
    ensures { (old mid new : D) (sure may less more still all : List (At T))
        → StaysFound T.name T.spelled T.fits D.moment D.left_since old mid sure may
        → StaysFound T.name T.spelled T.fits D.moment D.left_since mid new less more
        → KeepsValues still sure → KeepsValues still less → Within may all → Within more all
        → StaysFound T.name T.spelled T.fits D.moment D.left_since old new still all }
{}

/// The same of metadata.
pub fn metadata_moments_add_up<D: Disk>()
    ensures { (old mid new : D) (left later all : List Values) → LeavesOnly D.moment D.left_since old mid (IsMetaFile left)
        → LeavesOnly D.moment D.left_since mid new (IsMetaFile later) → Within left all → Within later all
        → LeavesOnly D.moment D.left_since old new (IsMetaFile all) }
{}

/// Of what was pruned a ticket that finishes lets go what was so before it was made, and nothing that was pruned later, where
/// it makes something sure (`finish`: `let_go`). What stood aside as it was made has numbers up to its own (`start_sync`:
/// `aside`), and what a prune sets aside later has a number above it (`prune`: `aside`).
pub fn tickets_let_go_what_was_pruned_before<T: JournalItem>()
    ensures { (t : ℕ) (before later : List (Entry T)) → AllByRecursion (λ e. e.number ≤ t) before → AllByRecursion (λ e. t < e.number) later
        → aside_after t (before ++ later) ≡ later }
{}

/// A ticket that finishes writes the records that waited when it was given out, and no more. Of those before it the marks
/// are up to its number (`start_sync`: `waiting`), of the puts behind it they are above (`put`: `marked`); and just those up
/// to its number are written (`finish`: `written`).
pub fn tickets_write_what_came_before()
    ensures { (t count : ℕ) (before later : List ℕ) → AllByRecursion (λ n. n ≤ t) before → AllByRecursion (λ n. t < n) later
        → IsFront t (before ++ later) count → AllByRecursion (λ n. n ≤ t) (take count (before ++ later)) → count ≡ length before }
{}
