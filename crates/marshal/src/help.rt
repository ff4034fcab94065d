//! What the program says of itself.
ghost use Rattle.std.specs.Prelude.{◌≡◌, ◌∷◌, ◌↔◌, ◌⊎◌, [], IsSome, codes, map, string_bytes};
ghost use Rattle.mar_types.specs.Causes.{Rose};
ghost use Rattle.mar_script.specs.Endings.{IsWritersEnd};
ghost use Rattle.mar_script.specs.Streams.{Takes, TakesFront};

use mar_replay::are_only;
use mar_script::{Sink, Status, write_text};

const HELP: &str = "usage: marshal COMMAND

marshal reads events from standard input, a line each, and writes what a node makes of them.

commands:
  replay          replays a script over stores in memory
  gen SEED N      makes a script of N heights from a number, replays it, and writes what it came to

  --help          writes this text
  --version       writes the version

the lines of a script behind its settings, `config` and eight numbers:
  open genesis HEX    begins a life from this block at height zero
  buffer HEX          a block arrives
  final HEX           consensus reports a finalization
  notar HEX           consensus reports a notarization: it is kept, and so is its block where that is at hand
  certn HEX           consensus reports a certification: a block that is at hand and its parent are known as certified
  ack T               the application acknowledges the block of ticket T
  drop T              the application drops it: the life ends once that block is the lowest that isn't acknowledged
  sync T              a sync finishes
  info ID             asks for height and digest of a finalized block; ID is hN (a height), dHEX (a digest) or latest
  block ID            asks for a block
  finalization H      asks for the finalization at this height
  processed           asks for the processed height
  anchor              asks for it and the block that backs it
  getverified E V     asks for the block that was first verified in the round of epoch E and view V
  verified E V HEX    a block was verified in the round of epoch E and view V: it is kept, and answered as it is durable
  certified E V HEX   a block was certified in that round: the same
  proposed E V PEERS HEX
                      a block was proposed in that round: it is sent to PEERS, and kept as a verified one;
                      PEERS is all, -, or members with commas between
  prepared E V PEERS HEX
                      sends a block in the round of epoch E and view V to PEERS
  hint H PEERS        PEERS, at least one, hold the finalization of height H: it is asked of them where it is wanted
  fail STORE N        the Nth counted call of this store from here on fails: blocks, certs, meta or cache
  crash N             ends the life; of what a crash may leave, the next opening finds what N picks

exit status: 0 the input was read to its end, 1 out of memory, 2 usage, 3 a line is outside the grammar,
4 standard input failed, 5 standard output failed
";

const VERSION: &str = "marshal 0.1.0\n";

/// The text that a lone `--help` or `--version` asks for.
pub fn text_for(words: &[String]) -> Option<&'static str>
    ensures { IsSome result ↔ ((map string_bytes words.now ≡ codes "--help" ∷ []) ⊎ (map string_bytes words.now ≡ codes "--version" ∷ [])) }
{
    if are_only(words, "--help") {
        return Some(HELP);
    }
    if are_only(words, "--version") {
        return Some(VERSION);
    }
    None
}

/// Writes the text to the sink.
pub fn show<K: Sink>(sink: &mut K, text: &str) -> Status
    ensures end { (result ≡ Status.Ok) ⊎ IsWritersEnd result }
    ensures written { result ≡ Status.Ok → Takes (K.written sink.old) text.now (K.written sink.new) }
    ensures front { TakesFront (K.written sink.old) text.now (K.written sink.new) }
    ensures fault { result ≡ Status.WriteFault → Rose (K.faults sink.old) (K.faults sink.new) }
    ensures calm { (result ≡ Status.WriteFault → ⊥) → K.faults sink.new ≡ K.faults sink.old }
{
    match write_text(sink, text.as_bytes(), false) {
        Ok(()) => Status::Ok,
        Err(status) => status,
    }
}
