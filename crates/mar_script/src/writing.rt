//! A text written whole, and how a run ends where it isn't.
ghost use Rattle.std.specs.Prelude.{◌≡◌, false, IfErr, IsErrOf, OnErr, OnOk};
ghost use Rattle.mar_types.specs.Causes.{Rose};
ghost use Rattle.mar_script.specs.Endings.{IsWritersEnd};
ghost use Rattle.mar_script.specs.Streams.{Takes, TakesFront};

use crate::sink::{Sink, write_all};
use crate::status::Status;
use mar_store::Miss;

/// Writes a text whole. Where no more comes before the next read, or at all, all that was written is handed on.
pub fn write_text<K: Sink>(sink: &mut K, text: &[u8], more: bool) -> Result<(), Status>
    ensures end { IfErr result IsWritersEnd }
    ensures calm { (IsErrOf result Status.WriteFault → ⊥) → K.faults sink.new ≡ K.faults sink.old }
    ensures write_fault { IsErrOf result Status.WriteFault → Rose (K.faults sink.old) (K.faults sink.new) }
    ensures ok { OnOk result (Takes (K.written sink.old) text.now (K.written sink.new)) }
    ensures err { OnErr result (TakesFront (K.written sink.old) text.now (K.written sink.new)) }
    ensures handed { more ≡ false → OnOk result (K.held_back sink.new ≡ 0) }
{
    if let Err(miss) = write_all(sink, text) {
        return Err(writers_end(miss));
    }
    if more {
        return Ok(());
    }
    match sink.flush() {
        Ok(()) => Ok(()),
        Err(miss) => Err(writers_end(miss)),
    }
}

// How a run ends where a write failed.
fn writers_end(miss: Miss) -> Status
    ensures end { IsWritersEnd result }
    ensures fault { result ≡ Status.WriteFault → miss ≡ Miss.Fault }
    ensures memory { (result ≡ Status.WriteFault → ⊥) → miss ≡ Miss.Memory }
{
    match miss {
        Miss::Fault => Status::WriteFault,
        Miss::Memory => Status::Memory,
    }
}
