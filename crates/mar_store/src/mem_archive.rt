//! An archive in memory.
ghost use Rattle.std.specs.Prelude.{◌≡◌, ◌==◌, ◌≤◌, ◌+◌, ℕ, IfErr, IfOk, MatchResult, [], bytes_eq, filter, is_some, length, map, nat_le, take, Some};
ghost use Rattle.std.specs.Option.{ForSome};
ghost use Rattle.std.specs.Ordering.{nat_cmp};
ghost use Rattle.std.specs.BTreeMap.{get};
ghost use Rattle.mar_types.specs.Places.{first_place};
ghost use Rattle.mar_store.specs.Changes.{Fails, Prunes, left_of, pruned_store};
ghost use Rattle.mar_store.specs.Kept.{reopened_store};
ghost use Rattle.mar_store.specs.Entries.{covered_by, kept_of, seen};
ghost use Rattle.mar_store.specs.Named.{value_found};
ghost use Rattle.mar_store.specs.Tickets.{KeepsCovers, KeepsCoversFrom};
ghost use Rattle.mar_store.specs.Lost.{wreck_of};
ghost use Rattle.mar_store.specs.Watch.{Heeds, HeedsRead};
ghost use Rattle.mar_store.specs.Alarms.{alarm_watch, fresh_watch};
ghost use Rattle.mar_store.specs.Watch.{by_half};
ghost use Rattle.mar_store.specs.Nested.{covers_last, front_begins, front_within, kept_nested, kept_queue};

use crate::alarm::Alarm;
use crate::entries::Entries;
use crate::pile::Pile;
use crate::places::EntryPlaces;
use crate::{Archive, ArchiveRuin, Identifier, Item, Lost, LuckHalf, Miss, RangeSet, SyncTicket};
use std::alloc::{AllocError, Global};

/// Values in memory, in the order of their puts, of which a front is sure. Of the values that may be left and aren't
/// sure, numbered from 0 in the order of their puts, a reopening keeps value k where bit k mod 32 of the archive's half
/// of luck is set.
#[derive(Drop)]
pub struct MemArchive<T: Item> {
    entries: Entries<T>,
    half: LuckHalf,
    alarm: Alarm,
}

/// What is left of a `MemArchive`, with the places of its entries where memory didn't run out,
/// and whether it ran out as a put that failed was to leave its value.
#[derive(Drop)]
pub struct MemArchiveWreck<T: Item> {
    pile: Pile<T>,
    places: Option<EntryPlaces<T::Key>>,
    short: bool,
    half: LuckHalf,
    alarm: Alarm,
    ghost by_index: { ForSome places (λ p. (h : ℕ) → get nat_cmp p.by_index h ≡ first_place (λ e. e.index == h) pile.items.items) },
    ghost by_key: { ForSome places (λ p. (k : T.Key) → get T.Key.cmp p.by_key k
        ≡ first_place (λ e. bytes_eq (T.name e.item) (T.Key.bytes k)) pile.items.items) },
}

impl<T: Item> MemArchive<T> {
    /// An archive with no values, which goes by this half of a reopening's luck.
    pub fn new(alloc: Global, half: LuckHalf) -> Self
        ensures stored { ⟦<MemArchive<T> as Archive<T>>⟧.stored result ≡ reopened_store [] }
        ensures watch { ⟦<MemArchive<T> as Archive<T>>⟧.watch result ≡ fresh_watch (Some (by_half half)) }
        ensures number { ⟦<MemArchive<T> as Archive<T>>⟧.number result ≡ 0 }
    {
        MemArchive {
            entries: Entries::new(alloc),
            half,
            alarm: Alarm::new(alloc),
        }
    }

    // What a call leaves that failed and did nothing.
    fn failed(self) -> MemArchiveWreck<T>
        ensures left { Fails (left_of (kept_of self.entries.pile.items.items self.entries.pile.synced)) []
            (left_of (kept_of result.pile.items.items result.pile.synced)) }
        ensures still { left_of (kept_of result.pile.items.items result.pile.synced)
            ≡ left_of (kept_of self.entries.pile.items.items self.entries.pile.synced) }
        ensures number { result.pile.accepted ≡ self.entries.pile.accepted }
        ensures half { result.half ≡ self.half }
        ensures alarm { result.alarm ≡ self.alarm }
    {
        let Entries { pile, places } = self.entries;
        MemArchiveWreck {
            pile,
            places: Some(places),
            short: false,
            half: self.half,
            alarm: self.alarm,
        }
    }
}

impl<T: Item> MemArchiveWreck<T> {
    // The archive as it was, where the places of its entries are there; else what is left.
    fn standing(self) -> Result<MemArchive<T>, Self>
        ensures pile { MatchResult result (λ s. s.entries.pile ≡ self.pile) (λ w. w.pile ≡ self.pile) }
        ensures half { MatchResult result (λ s. s.half ≡ self.half) (λ w. w.half ≡ self.half) }
        ensures alarm { MatchResult result (λ s. s.alarm ≡ self.alarm) (λ w. w.alarm ≡ self.alarm) }
    {
        let MemArchiveWreck {
            pile,
            places,
            short,
            half,
            alarm,
        } = self;
        match places {
            Some(places) => Ok(MemArchive {
                entries: Entries { pile, places },
                half,
                alarm,
            }),
            None => Err(MemArchiveWreck {
                pile,
                places: None,
                short,
                half,
                alarm,
            }),
        }
    }
}

impl<T: Item> ArchiveRuin<T> for MemArchiveWreck<T> {
    ghost left = { λ w. left_of (kept_of w.pile.items.items w.pile.synced) };

    ghost watch = { λ w. alarm_watch (Some (by_half w.half)) w.alarm };

    ghost number = { λ w. w.pile.accepted };

    ghost short = { λ w. w.short };

    ghost front = { λ w. front_begins w.pile.synced (map seen w.pile.items.items) };

    ghost within = { λ w. front_within w.pile.synced (map seen w.pile.items.items) };

    fn sure_ranges(&self) -> &RangeSet {
        self.pile.sure()
    }

    fn may_ranges(&self) -> &RangeSet {
        self.pile.held()
    }

    fn arm(&mut self, calls: u64) -> Result<(), AllocError> {
        self.alarm.arm(calls)
    }
}

impl<T: Item> Archive<T> for MemArchive<T> {
    type Wreck = MemArchiveWreck<T>;

    ghost stored = { λ s. kept_of s.entries.pile.items.items s.entries.pile.synced };

    ghost watch = { λ s. alarm_watch (Some (by_half s.half)) s.alarm };

    ghost number = { λ s. s.entries.pile.accepted };

    ghost covers = { λ s. covered_by s.entries.pile.items.items };

    ghost nested = { λ s. kept_nested s.entries.pile.items.items s.entries.pile.synced s.entries.pile.once };

    ghost queued = { λ s. kept_queue s.entries.pile.items.items s.entries.pile.synced };

    ghost named = { λ s. s.entries.pile.named };

    ghost fitting = { λ s. s.entries.pile.fits };

    ghost last = { λ s. covers_last s.entries.pile.items.items };

    fn get(&mut self, identifier: Identifier<T::Key>) -> Result<Option<T>, Miss>
        ensures found { IfOk result (λ o. o ≡ value_found T.name T.Key.bytes (map seen self.old.entries.pile.items.items) identifier) }
        ensures same { kept_of self.new.entries.pile.items.items self.new.entries.pile.synced
            ≡ kept_of self.old.entries.pile.items.items self.old.entries.pile.synced }
        ensures tickets { self.new.entries.pile.accepted ≡ self.old.entries.pile.accepted }
        ensures covers { KeepsCovers self.old.entries.pile.accepted (covered_by self.old.entries.pile.items.items)
            (covered_by self.new.entries.pile.items.items) }
        ensures watched { HeedsRead (alarm_watch (Some (by_half self.old.half)) self.old.alarm)
            (alarm_watch (Some (by_half self.new.half)) self.new.alarm) result }
    {
        if self.alarm.rings() {
            return Err(Miss::Fault);
        }
        match self.entries.find(&identifier) {
            None => Ok(None),
            Some(entry) => match entry.item.try_clone() {
                Ok(item) => Ok(Some(item)),
                Err(_) => Err(Miss::Memory),
            },
        }
    }

    fn has(&mut self, identifier: Identifier<T::Key>) -> Result<bool, Miss>
        ensures found { IfOk result (λ b. b ≡ is_some (value_found T.name T.Key.bytes (map seen self.old.entries.pile.items.items) identifier)) }
        ensures same { kept_of self.new.entries.pile.items.items self.new.entries.pile.synced
            ≡ kept_of self.old.entries.pile.items.items self.old.entries.pile.synced }
        ensures tickets { self.new.entries.pile.accepted ≡ self.old.entries.pile.accepted }
        ensures covers { KeepsCovers self.old.entries.pile.accepted (covered_by self.old.entries.pile.items.items)
            (covered_by self.new.entries.pile.items.items) }
        ensures watched { HeedsRead (alarm_watch (Some (by_half self.old.half)) self.old.alarm)
            (alarm_watch (Some (by_half self.new.half)) self.new.alarm) result }
    {
        if self.alarm.rings() {
            return Err(Miss::Fault);
        }
        Ok(self.entries.find(&identifier).is_some())
    }

    fn put(self, index: u64, item: T) -> Result<Self, Lost<MemArchiveWreck<T>>> {
        let mut archive = self;
        if archive.alarm.rings() {
            let (pile, short) = archive.entries.put_in_part(index, item);
            return Err(Lost::Fault(MemArchiveWreck {
                pile,
                places: None,
                short,
                half: archive.half,
                alarm: archive.alarm,
            }));
        }
        match archive.entries.put(index, item) {
            Ok(entries) => Ok(MemArchive { entries, ..archive }),
            Err(pile) => Err(Lost::Memory(MemArchiveWreck {
                pile,
                places: None,
                short: false,
                half: archive.half,
                alarm: archive.alarm,
            })),
        }
    }

    fn sync(self) -> Result<Self, Lost<MemArchiveWreck<T>>> {
        let mut archive = self;
        if archive.alarm.rings() {
            return Err(Lost::Fault(archive.failed()));
        }
        match archive.entries.sync() {
            Ok(entries) => Ok(MemArchive { entries, ..archive }),
            Err(pile) => Err(Lost::Memory(MemArchiveWreck {
                pile,
                places: None,
                short: false,
                half: archive.half,
                alarm: archive.alarm,
            })),
        }
    }

    fn start_sync(self) -> Result<(Self, SyncTicket), Lost<MemArchiveWreck<T>>> {
        let mut archive = self;
        if archive.alarm.rings() {
            return Err(Lost::Fault(archive.failed()));
        }
        let ticket = archive.entries.pile.ticket();
        Ok((archive, ticket))
    }

    fn finish(self, ticket: SyncTicket) -> Result<Self, Lost<MemArchiveWreck<T>>> {
        let mut archive = self;
        if archive.alarm.rings() {
            return Err(Lost::Fault(archive.failed()));
        }
        match archive.entries.finish(ticket.number()) {
            Ok(entries) => Ok(MemArchive { entries, ..archive }),
            Err(pile) => Err(Lost::Memory(MemArchiveWreck {
                pile,
                places: None,
                short: false,
                half: archive.half,
                alarm: archive.alarm,
            })),
        }
    }

    fn prune(self, min: u64) -> Result<Self, Lost<MemArchiveWreck<T>>>
        ensures done { MatchResult result
            (λ s. Prunes min (kept_of self.entries.pile.items.items self.entries.pile.synced) (kept_of s.entries.pile.items.items s.entries.pile.synced))
            (λ l. Fails (left_of (kept_of self.entries.pile.items.items self.entries.pile.synced)) []
            (left_of (kept_of (wreck_of l).pile.items.items (wreck_of l).pile.synced))) }
        ensures still { IfErr result (λ l. left_of (kept_of (wreck_of l).pile.items.items (wreck_of l).pile.synced)
            ≡ left_of (kept_of self.entries.pile.items.items self.entries.pile.synced)) }
        ensures exact { IfOk result (λ s. kept_of s.entries.pile.items.items s.entries.pile.synced
            ≡ pruned_store min (kept_of self.entries.pile.items.items self.entries.pile.synced)) }
        ensures counted { MatchResult result (λ s. s.entries.pile.accepted ≤ self.entries.pile.accepted + 1)
            (λ l. (wreck_of l).pile.accepted ≤ self.entries.pile.accepted + 1) }
        ensures tickets { IfOk result (λ s. self.entries.pile.accepted ≤ s.entries.pile.accepted) }
        ensures covers { IfOk result (λ s. KeepsCoversFrom min self.entries.pile.accepted (covered_by self.entries.pile.items.items)
            (covered_by s.entries.pile.items.items)) }
        ensures watched { Heeds (λ s. alarm_watch (Some (by_half s.half)) s.alarm) (λ w. alarm_watch (Some (by_half w.half)) w.alarm)
            (alarm_watch (Some (by_half self.half)) self.alarm) result }
        ensures cut { IfOk result (λ s. s.entries.pile.items.items ≡ filter (λ e. nat_le min e.index) self.entries.pile.items.items) }
        ensures synced { IfOk result (λ s. s.entries.pile.synced ≡ length (filter (λ e. nat_le min e.index)
            (take self.entries.pile.synced self.entries.pile.items.items))) }
    {
        let mut archive = self;
        if archive.alarm.rings() {
            return Err(Lost::Fault(archive.failed()));
        }
        match archive.entries.prune(min) {
            Ok(entries) => Ok(MemArchive { entries, ..archive }),
            Err(pile) => Err(Lost::Memory(MemArchiveWreck {
                pile,
                places: None,
                short: false,
                half: archive.half,
                alarm: archive.alarm,
            })),
        }
    }

    fn wreck(self) -> MemArchiveWreck<T> {
        let Entries { pile, places } = self.entries;
        MemArchiveWreck {
            pile,
            places: Some(places),
            short: false,
            half: self.half,
            alarm: self.alarm,
        }
    }

    fn reopen(wreck: MemArchiveWreck<T>, luck: u64) -> Result<Self, Lost<MemArchiveWreck<T>>> {
        let mut wreck = wreck;
        if wreck.alarm.rings() {
            return Err(Lost::Fault(wreck));
        }
        match wreck.standing() {
            Ok(archive) => match archive.entries.drawn(archive.half.of(luck)) {
                Ok(entries) => Ok(MemArchive {
                    entries,
                    half: archive.half,
                    alarm: archive.alarm,
                }),
                Err(pile) => Err(Lost::Memory(MemArchiveWreck {
                    pile,
                    places: None,
                    short: false,
                    half: archive.half,
                    alarm: archive.alarm,
                })),
            },
            Err(wreck) => match Entries::open(wreck.pile, wreck.half.of(luck)) {
                Ok(entries) => Ok(MemArchive {
                    entries,
                    half: wreck.half,
                    alarm: wreck.alarm,
                }),
                Err(pile) => Err(Lost::Memory(MemArchiveWreck {
                    pile,
                    places: None,
                    short: false,
                    half: wreck.half,
                    alarm: wreck.alarm,
                })),
            },
        }
    }

    fn arm(&mut self, calls: u64) -> Result<(), AllocError> {
        self.alarm.arm(calls)
    }

    fn last_index(&self) -> Option<u64> {
        self.entries.pile.last_index()
    }

    fn held_ranges(&self) -> &RangeSet {
        self.entries.pile.held()
    }

    fn sure_ranges(&self) -> &RangeSet {
        self.entries.pile.sure()
    }
}
