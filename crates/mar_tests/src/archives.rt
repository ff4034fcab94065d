//! The calls of stores of blocks: of one that keeps what it was asked, over one that prunes an archive; and what it was asked,
//! in its own words. A store that keeps all is one of mar_example. Each function makes few calls, and none has a clause.
use crate::light::{Plates, plate_at};
use crate::tell::*;
use mar_life::{BlockItem, Blocks, Keeps};
use mar_mocks::Recording;
use mar_shelf::prunable;
use mar_store::{Archive, ArchiveRuin, LuckHalf, MemArchive, RangeSet};
use mar_types::Height;
use std::alloc::Global;

type Item = BlockItem<Plates>;

// Puts the blocks at heights 1 and 4.
fn put<S: Blocks<Plates>>(store: S) -> Option<S> {
    let (low, high) = (plate_at(1), plate_at(4));
    let store = store.put(&low.digest, &low).ok()?;
    store.put(&high.digest, &high).ok()
}

// Makes sure what is held, at once and by a ticket.
fn synced<S: Keeps<Item>>(store: S) -> Option<S> {
    let (store, ticket) = store.sync().ok()?.start_sync().ok()?;
    store.finish(ticket).ok()
}

// Whether the lower block is found by its digest and its height, and the gap behind it, which has two heights.
fn is_found<S: Blocks<Plates>>(alloc: Global, store: &mut S) -> bool {
    let block = plate_at(1);
    let (end, start) = store.next_gap(block.height);
    let gap = end.is_some() & start.is_some() & store.last_index().is_some();
    let found = matches!(store.find(&block.digest), Ok(Some(_)));
    let got = matches!(store.get(block.height), Ok(Some(_)));
    let missing =
        matches!(store.missing_items(alloc, block.height, 4), Ok(heights) if heights.len() == 2);
    gap & found & got & missing
}

fn count(ranges: &RangeSet) -> usize {
    ranges.as_slice().len()
}

// The store without the lower block.
fn pruned<S: Keeps<Item>>(store: S) -> Option<S> {
    let mut store = store.prune(Height::new(4)).ok()?.sync().ok()?;
    store.arm(9).ok()?;
    let is_left = (count(store.held_ranges()) == 1) & (count(store.sure_ranges()) == 1);
    if is_left { Some(store) } else { None }
}

// The store that is opened over what is left of this one.
fn reopened<S: Keeps<Item>>(store: S) -> Option<S> {
    let mut wreck = store.wreck();
    wreck.arm(9).ok()?;
    if count(wreck.sure_ranges()) == count(wreck.may_ranges()) {
        S::reopen(wreck, 0).ok()
    } else {
        None
    }
}

// What a store was asked, in its own words.
fn text_of_ops<B>(alloc: Global, store: &Recording<B>) -> Option<String> {
    let ops = store.ops();
    format!(in alloc; "{ops:?}").ok()
}

fn lived<S: Blocks<Plates>>(alloc: Global, store: S) -> Option<S> {
    let mut store = synced(put(store)?)?;
    if !is_found(alloc, &mut store) {
        return None;
    }
    reopened(pruned(store)?)
}

// What a store is asked in one life.
fn text_of_asked<S: Blocks<Plates>>(alloc: Global, store: S) -> Option<String> {
    let store = lived(alloc, Recording::new(alloc, store))?;
    text_of_ops(alloc, &store)
}

fn over_archive<A: Archive<Item>>(alloc: Global, archive: A) -> Option<String> {
    let store: prunable::Archive<A> = prunable::Archive::new(archive);
    text_of_asked(alloc, store)
}

// Only the functions here name the archive: a proof of a call at it costs more than one by its bound.
fn archive(alloc: Global) -> MemArchive<Item> {
    MemArchive::new(alloc, LuckHalf::Low)
}

fn over_memory(alloc: Global) -> Option<String> {
    over_archive(alloc, archive(alloc))
}

const ASKED: &str = "[Put(Height(1)), Put(Height(4)), Get(None), Get(Some(Height(1)))]";

#[test]
fn stores_of_blocks(rt: HostRuntime) {
    let is_told = matches!(over_memory(rt.alloc()), Some(text) if text.as_str() == ASKED);
    holds(&rt, is_told);
}
