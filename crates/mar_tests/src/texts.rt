//! A source and a sink in memory, and the texts that no script of tests/cli makes.
use crate::tell::*;
use mar_key::{Cutoff, Processed};
use mar_parts::{Mark, PendingAck};
use mar_script::{
    Bytes, LineError, ScriptReader, Sink, Status, Written, push_ack_list, push_cutoff, push_hex,
    push_processed, write_all,
};
use mar_store::Miss;
use mar_types::{Epoch, Height};

#[test]
fn a_read_that_fails(rt: HostRuntime) {
    let mut source = Bytes::new(b"a\nb", &[1]);
    let mut reader = ScriptReader::new(rt.alloc());
    let first = matches!(reader.next_line(rt.alloc(), &mut source), Ok(Some(_)));
    let fails = matches!(
        reader.next_line(rt.alloc(), &mut source),
        Err(LineError::ReadFault)
    );
    holds(&rt, first & fails);
}

#[test]
fn a_write_that_fails(rt: HostRuntime) {
    let mut sink = Written::new(rt.alloc(), &[1]);
    let first = matches!(write_all(&mut sink, b"ab"), Ok(()));
    let fails = matches!(write_all(&mut sink, b"cd"), Err(Miss::Fault));
    let other = matches!(sink.write(b"ef"), Ok(2));
    let is_there = sink.bytes() == b"abef".as_slice();
    holds(&rt, first & fails & other & is_there);
}

#[test]
fn want_of_memory_is_told(rt: HostRuntime) {
    let text = given(&rt, Status::Memory.to_string(rt.alloc()));
    holds(&rt, text.as_str() == "marshal: memory");
    holds(&rt, Status::Memory.exit_code() == 1);
}

const TEXT: &str = "0.*-a18446744073709551615 7:0,8:0+,18446744073709551615:18446744073709551615x";

const fn outstanding(ticket: u64, height: u64, mark: Mark) -> PendingAck {
    PendingAck {
        ticket,
        height: Height::new(height),
        mark,
    }
}

#[test]
fn texts_that_no_script_makes(rt: HostRuntime) {
    let mut text = String::new(rt.alloc());
    given(&rt, push_cutoff(&mut text, Cutoff::Epoch(Epoch::zero())));
    given(&rt, push_hex(rt.alloc(), &mut text, b""));
    let absent = Processed::Absent(Height::new(u64::MAX));
    given(&rt, push_processed(&mut text, Some(absent)));
    given(&rt, text.push_str(" "));
    let acks = [
        outstanding(7, 0, Mark::Waiting),
        outstanding(8, 0, Mark::Given),
        outstanding(u64::MAX, u64::MAX, Mark::Dropped),
    ];
    given(&rt, push_ack_list(&mut text, &acks));
    holds(&rt, text.as_str() == TEXT);
}
