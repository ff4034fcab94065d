//! Replays a script of events over stores in memory, and writes what the node makes of it.
#![tactic(auto)]

ghost use Rattle.std.specs.IoError.{error_kind};
ghost use Rattle.std.specs.Prelude.{◌≡◌, ◌↔◌, ◌&&◌, ◌∷◌, [], map, string_bytes};
ghost use Rattle.mar_store.specs.Kept.{reopened_store};
ghost use Rattle.mar_store.specs.Values.{no_values};
ghost use Rattle.mar_script.specs.Accounts.{fresh_watches};
ghost use Rattle.mar_script.specs.Run.{fresh_stores};
ghost use Rattle.mar_cache.specs.AsOne.{kept_of};
ghost use Rattle.mar_cache.specs.Bounds.{bounds_of};
ghost use Rattle.mar_cache.specs.Shelved.{shelf_watch};
ghost use Rattle.marshal.specs.Commands.{IsCommand};
ghost use Rattle.marshal.specs.Empty.{nothing_kept};

mod help;

use crate::help::{show, text_for};
use mar_block::StandardBlocks;
use mar_cache::{CacheEntry, EpochCache, Epochs, KeptEntry, KeyedEntry, Shelf, empty_shelf};
use mar_cert::MockFinalization;
use mar_life::{
    BlockItem, Blocks, CacheInPlace, CertificateItem, Certificates, LifeNotarizations, Ruins,
};
use mar_replay::{ScriptRuins, run};
use mar_script::{Input as InputSource, Output, Sink, Status};
use mar_shelf::prunable::Archive;
use mar_store::{LuckHalf, MemArchive, MemMeta, Meta};
use std::io::ErrorKind;
use std::process::ExitCode;
use std::rt::Env;
use std::{env, io};

/// Blocks in memory.
type BlockStore = Archive<MemArchive<BlockItem<StandardBlocks>>>;

/// Certificates in memory.
type CertificateStore = Archive<MemArchive<CertificateItem<StandardBlocks, MockFinalization>>>;

/// The words of the command line behind the program's name.
fn words_of(rt: &(impl Env + AllocGlobal)) -> io::Result<Vec<String>> {
    let mut words = Vec::new(rt.alloc());
    for word in env::args(rt)?.skip(1) {
        words.push(word)?;
    }
    Ok(words)
}

/// What is kept in the cache; a notarization is of the type of a finalization.
type Kept = CacheEntry<StandardBlocks, MockFinalization, MockFinalization>;

/// Does what the words ask for, over standard input and output and stores in memory.
fn run_words(rt: &(impl AllocGlobal + Input + Print), words: &[String]) -> Status
    ensures usage { result ≡ Status.Usage ↔ (IsCommand (map string_bytes words.now) → ⊥) }
{
    run_over_entries::<Kept>(rt, words)
}

/// The same over a cache that keeps such entries. What a cache is made of is put in step by step, since all that a bound
/// asks for is proved anew wherever it is met at a type with parameters.
fn run_over_entries<
    E: KeptEntry<StandardBlocks, MockFinalization, Notarization = MockFinalization> + KeyedEntry,
>(rt: &(impl AllocGlobal + Input + Print), words: &[String]) -> Status
    ensures usage { result ≡ Status.Usage ↔ (IsCommand (map string_bytes words.now) → ⊥) }
{
    run_over_epochs(rt, words, empty_shelf::<E>(rt.alloc()))
}

/// The same over a cache of any epochs that is new.
fn run_over_epochs<S: Epochs, M: Meta>(
    rt: &(impl AllocGlobal + Input + Print),
    words: &[String],
    cache: EpochCache<S, M>,
) -> Status
where
    S::Entry: KeptEntry<StandardBlocks, MockFinalization, Notarization = MockFinalization>,
    requires kept { kept_of (S.states cache.manager.epochs) (bounds_of (M.current cache.manager.meta)).highest ≡ nothing_kept }
    requires lowest { (bounds_of (M.current cache.manager.meta)).lowest ≡ 0 }
    requires watch { shelf_watch S.keeps cache.manager.alarm (S.calm cache.manager.epochs && (M.watch cache.manager.meta).only_armed)
        ≡ fresh_watches.cache }
    ensures usage { result ≡ Status.Usage ↔ (IsCommand (map string_bytes words.now) → ⊥) }
{
    run_over_shelf(rt, words, cache)
}

/// The same over any cache that is new.
fn run_over_shelf<H: Shelf<StandardBlocks, MockFinalization, Notarization = MockFinalization>>(
    rt: &(impl AllocGlobal + Input + Print),
    words: &[String],
    cache: H,
) -> Status
    requires kept { H.kept cache ≡ nothing_kept }
    requires lowest { H.lowest cache ≡ 0 }
    requires watch { H.watch cache ≡ fresh_watches.cache }
    ensures usage { result ≡ Status.Usage ↔ (IsCommand (map string_bytes words.now) → ⊥) }
{
    run_over_cache(rt, words, CacheInPlace::new(cache))
}

/// The same over any cache of a life that is new.
fn run_over_cache<
    H: LifeNotarizations<StandardBlocks, MockFinalization, Notarization = MockFinalization>,
>(rt: &(impl AllocGlobal + Input + Print), words: &[String], cache: H) -> Status
    requires kept { (H.held cache).kept ≡ nothing_kept }
    requires lowests { H.lowests cache ≡ 0 ∷ [] }
    requires watch { H.watch cache ≡ fresh_watches.cache }
    ensures usage { result ≡ Status.Usage ↔ (IsCommand (map string_bytes words.now) → ⊥) }
{
    let alloc = rt.alloc();
    let blocks = BlockStore::new(MemArchive::new(alloc, LuckHalf::Low));
    let certs = CertificateStore::new(MemArchive::new(alloc, LuckHalf::High));
    run_over(rt, words, blocks, certs, MemMeta::new(alloc), cache)
}

/// The same over any stores that are new. Only the call of this function names the types of the stores, since all that a
/// bound asks for is proved anew wherever it is met at a type with parameters.
fn run_over<
    FB: Blocks<StandardBlocks>,
    FC: Certificates<StandardBlocks, MockFinalization>,
    M: Meta,
    H: LifeNotarizations<StandardBlocks, MockFinalization, Notarization = MockFinalization>,
>(
    rt: &(impl AllocGlobal + Input + Print),
    words: &[String],
    blocks: FB,
    certs: FC,
    meta: M,
    cache: H,
) -> Status
    requires blocks { FB.stored blocks ≡ reopened_store [] }
    requires certs { FC.stored certs ≡ reopened_store [] }
    requires meta { M.left meta ≡ no_values ∷ [] }
    requires blocks_watch { FB.watch blocks ≡ fresh_watches.blocks }
    requires certs_watch { FC.watch certs ≡ fresh_watches.certs }
    requires meta_watch { M.watch meta ≡ fresh_watches.meta }
    requires cache { (H.held cache).kept ≡ nothing_kept }
    requires cache_lowests { H.lowests cache ≡ 0 ∷ [] }
    requires cache_watch { H.watch cache ≡ fresh_watches.cache }
    ensures usage { result ≡ Status.Usage ↔ (IsCommand (map string_bytes words.now) → ⊥) }
{
    let alloc = rt.alloc();
    let mut sink = Output::new(alloc, io::writer(rt));
    if let Some(text) = text_for(words) {
        return show(&mut sink, text);
    }
    let mut source = InputSource::new(rt.reader());
    let stores = empty_stores(blocks, certs, meta, cache);
    let status = run(rt, alloc, words, &mut source, &mut sink, stores).status;
    handed_on(&mut sink, status)
}

/// How a run ends once all that was written is handed on. What a run ended in before that goes first, but a line that is
/// refused stands behind what is written of the lines before it.
fn handed_on<K: Sink>(sink: &mut K, status: Status) -> Status
    ensures usage { result ≡ Status.Usage ↔ status ≡ Status.Usage }
    ensures handed { result ≡ Status.Ok → K.held_back sink.new ≡ 0 }
{
    match (sink.flush(), status) {
        (Ok(()), _) => status,
        (Err(_), Status::Usage | Status::Memory | Status::ReadFault) => status,
        (Err(_), _) => Status::WriteFault,
    }
}

/// What is left of stores that are new: that hold nothing, and that never failed.
fn empty_stores<
    FB: Blocks<StandardBlocks>,
    FC: Certificates<StandardBlocks, MockFinalization>,
    M: Meta,
    H: LifeNotarizations<StandardBlocks, MockFinalization, Notarization = MockFinalization>,
>(blocks: FB, certs: FC, meta: M, cache: H) -> ScriptRuins<FB, FC, M, H>
    requires blocks { FB.stored blocks ≡ reopened_store [] }
    requires certs { FC.stored certs ≡ reopened_store [] }
    requires meta { M.left meta ≡ no_values ∷ [] }
    requires blocks_watch { FB.watch blocks ≡ fresh_watches.blocks }
    requires certs_watch { FC.watch certs ≡ fresh_watches.certs }
    requires meta_watch { M.watch meta ≡ fresh_watches.meta }
    requires cache { (H.held cache).kept ≡ nothing_kept }
    requires cache_lowests { H.lowests cache ≡ 0 ∷ [] }
    requires cache_watch { H.watch cache ≡ fresh_watches.cache }
    ensures { result ≡ fresh_stores }
{
    Ruins {
        blocks: blocks.wreck(),
        certs: certs.wreck(),
        meta: meta.wreck(),
        cache: cache.wreck(),
    }
}

/// The end of a run whose words can't be told.
fn untold(error: &io::Error) -> Status
    ensures memory { error_kind error.now ≡ ErrorKind.OutOfMemory → result ≡ Status.Memory }
    ensures usage { (error_kind error.now ≡ ErrorKind.OutOfMemory → ⊥) → result ≡ Status.Usage }
{
    if error.kind() == ErrorKind::OutOfMemory {
        Status::Memory
    } else {
        Status::Usage
    }
}

fn main(rt: HostRuntime) -> ExitCode {
    let status = match words_of(&rt) {
        Ok(words) => run_words(&rt, &words),
        Err(error) => untold(&error),
    };
    let code = status.exit_code();
    if code != 0 {
        let _ = eprintln!(rt; "{status}");
    }
    ExitCode::from(code)
}
