//! What the words of the command line ask for.
ghost use Rattle.std.specs.Prelude.{◌≡◌, ℕ, List, Some, [], map, string_bytes};
ghost use Rattle.mar_types.specs.Causes.{Rose};
ghost use Rattle.mar_script.specs.Reading.{EndsByLine, IsFirstOutside, Reads, ReplaysWhereTold};
ghost use Rattle.mar_script.specs.Run.{IsShownAs};
ghost use Rattle.mar_script.specs.declared.Why.{Why};
ghost use Rattle.mar_replay.specs.Commands.{AsksGen, AsksReplay, IsKnown};
ghost use Rattle.mar_replay.specs.Gen.{Generates};

use crate::command::Command;
use crate::generate::generate;
use crate::replays::{Finished, replay};
use mar_block::StandardBlocks;
use mar_cert::MockFinalization;
use mar_life::{Blocks, Certificates, LifeNotarizations, Ruins, Stores};
use mar_script::{Sink, Source, Status};
use mar_store::Meta;
use std::alloc::Global;

/// The stores of a node that a script drives.
pub type ScriptStores<FB, FC, M, H> = Stores<StandardBlocks, MockFinalization, FB, FC, M, H>;

/// What is left of the stores of a node that a script drives.
pub type ScriptRuins<FB, FC, M, H> = Ruins<StandardBlocks, MockFinalization, FB, FC, M, H>;

/// Does what the words ask for, reading from the source and writing to the sink. No command needs the runtime yet.
pub fn run<
    R,
    S: Source,
    K: Sink,
    FB: Blocks<StandardBlocks>,
    FC: Certificates<StandardBlocks, MockFinalization>,
    M: Meta,
    H: LifeNotarizations<StandardBlocks, MockFinalization, Notarization = MockFinalization>,
>(
    _rt: &R,
    alloc: Global,
    words: &[String],
    source: &mut S,
    sink: &mut K,
    stores: ScriptRuins<FB, FC, M, H>,
) -> Finished<ScriptRuins<FB, FC, M, H>>
    ensures usage { (IsKnown (map string_bytes words.now) → ⊥) → result.status ≡ Status.Usage }
    ensures not_usage { IsKnown (map string_bytes words.now) → result.status ≡ Status.Usage → ⊥ }
    ensures untouched { result.status ≡ Status.Usage → (result.stores ≡ stores) × (S.left source.new ≡ S.left source.old)
        × (S.faults source.new ≡ S.faults source.old) × (K.written sink.new ≡ K.written sink.old) × (K.faults sink.new ≡ K.faults sink.old) }
    ensures to_end { AsksReplay (map string_bytes words.now) → result.status ≡ Status.Ok → IsShownAs (S.left source.new) [] }
    ensures read_fault { result.status ≡ Status.ReadFault → Rose (S.faults source.old) (S.faults source.new) }
    ensures write_fault { result.status ≡ Status.WriteFault → Rose (K.faults sink.old) (K.faults sink.new) }
    ensures reads { AsksReplay (map string_bytes words.now) → Reads (S.left source.old) (S.left source.new) result.status }
    ensures script { (all : List ℕ) (n : ℕ) (why : Why) → S.left source.old ≡ Some all → result.status ≡ Status.Script n why → IsFirstOutside all n why }
    ensures source_calm { (result.status ≡ Status.ReadFault → ⊥) → S.faults source.new ≡ S.faults source.old }
    ensures sink_calm { (result.status ≡ Status.WriteFault → ⊥) → K.faults sink.new ≡ K.faults sink.old }
    ensures outside { AsksReplay (map string_bytes words.now) → (all : List ℕ) (n : ℕ) (why : Why) → S.left source.old ≡ Some all
        → IsFirstOutside all n why → EndsByLine n why result.status }
    ensures headline { AsksReplay (map string_bytes words.now) → ReplaysWhereTold (S.left source.old) (S.left source.new) (K.written sink.old)
        (K.written sink.new) result.status stores result.stores }
    ensures generates { (seed n : ℕ) → AsksGen (map string_bytes words.now) seed n → Generates seed n (K.written sink.old) (K.written sink.new)
        result.status stores result.stores }
    ensures unread { (seed n : ℕ) → AsksGen (map string_bytes words.now) seed n → (S.left source.new ≡ S.left source.old)
        × (S.faults source.new ≡ S.faults source.old) }
{
    match Command::parse(words) {
        Some(Command::Replay) => {
            replay::<_, _, ScriptStores<FB, FC, M, H>>(alloc, words, source, sink, stores)
        }
        Some(Command::Generate(seed, last)) => {
            generate::<_, ScriptStores<FB, FC, M, H>>(alloc, seed, last, sink, stores)
        }
        None => Finished {
            status: Status::Usage,
            stores,
        },
    }
}
