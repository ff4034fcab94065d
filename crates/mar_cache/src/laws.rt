//! What calls that change single epochs make of all entries together. A node sees the cache as one list of entries; a shelf
//! keeps them by epochs. Each function does nothing: its contract is a law.

ghost use Rattle.mar_cache.specs.Laws.{FindsOverAll, HoldsOverAll, LeavesOverAll, LoadsOverAll, PrunesOverAll, PutsNowOverAll, PutsOverAll};

/// A put keeps the first entry of each place, and the first block that was verified in each round.
pub fn puts_over_all()
    ensures { PutsOverAll }
{}

/// The same of a put whose archive is synced: what that archive holds is sure.
pub fn puts_now_over_all()
    ensures { PutsNowOverAll }
{}

/// A prune by view takes what lies below its round, and nothing else.
pub fn prunes_over_all()
    ensures { PrunesOverAll }
{}

/// A search finds the soonest entry that passes: of the newest epoch, there of the earliest archive, there at the lowest view
/// or height, and of several the one that was put first.
pub fn finds_over_all()
    ensures { FindsOverAll }
{}

/// What one archive of one epoch holds stands among all entries in the same order.
pub fn holds_over_all()
    ensures { HoldsOverAll }
{}

/// A start takes up one list with all that was sure, of what might be left.
pub fn loads_over_all()
    ensures { LoadsOverAll }
{}

/// Where a call fails, what was sure is sure, and no more may be left but what was to be put.
pub fn leaves_over_all()
    ensures { LeavesOverAll }
{}
