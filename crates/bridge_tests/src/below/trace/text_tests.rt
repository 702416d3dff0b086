#![tactic(auto, using(tl_lanes::proofs::Widths::width_4))]

ghost use Rattle.std.specs.Prelude.{◌≡◌};

use crate::five::{FIVE, has_one_each};
use crate::lending::holds_at;
use crate::values::ack;
use std::alloc::Global;
use tl_msg::{ChD, ChE, HeadD};
use tl_trace::{HeadText, ScriptReader, TraceFault, TraceKind, line_of, read, write_trace};

/// The number of bytes of the header of [`FIVE`], with its LF.
const HEADER: usize = 36;

/// Reads lines in two pieces; the second begins with the bytes that the first one left. Returns
/// their first fault, if there is one.
fn fault_in_pieces(
    reader: &mut ScriptReader<4, 8>,
    lines: &[u8],
    first: usize,
) -> Option<TraceFault>
    requires version { reader.old.version ≡ 1 }
    requires line { reader.old.line ≡ 1 }
{
    let used = match reader.read(&lines[..first.min(lines.len())]) {
        Ok(used) => used,
        Err(fault) => return Some(fault),
    };
    let rest = &lines[used..];
    match reader.read(rest) {
        Ok(used) => reader.end_fault(&rest[used..]),
        Err(fault) => Some(fault),
    }
}

/// Returns whether the lines of [`FIVE`], read in two pieces, have no fault and give its script.
fn is_read_in_pieces(alloc: Global, lines: &[u8], first: usize) -> bool {
    let mut reader = ScriptReader::<4, 8>::new(alloc, 1);
    fault_in_pieces(&mut reader, lines, first).is_none() & has_one_each(&reader.script)
}

/// The pieces are divided at each byte in turn.
#[test]
fn scripts_are_read_in_pieces(rt: HostRuntime) {
    let lines = FIVE.as_bytes().get(HEADER..).unwrap_or(&[]);
    for first in 0..=lines.len() {
        holds_at(&rt, is_read_in_pieces(rt.alloc(), lines, first), first);
    }
}

/// Returns the fault of a last line that is read in two pieces and has no LF.
fn fault_of_last_line(alloc: Global) -> Option<TraceFault> {
    let mut reader = ScriptReader::<4, 8>::new(alloc, 1);
    fault_in_pieces(&mut reader, b"E 07", 2)
}

const NO_END: TraceFault = TraceFault {
    line: 2,
    kind: TraceKind::NoEnd,
};

/// Returns whether a text is read as a trace that is written as the same text.
fn is_kept(alloc: Global, text: &[u8]) -> bool {
    match read(alloc, text) {
        Ok(trace) => {
            let written = write_trace(alloc, &trace);
            drop(trace);
            matches!(written, Ok(again) if again.as_slice() == text)
        }
        Err(_) => false,
    }
}

/// A request on lanes 4 to 7, two sinks that differ only above the eighth bit, and mask bits on
/// both halves of the widest bus.
const KEPT: [&str; 3] = [
    "tilelink-trace 1 client 8 manager 4\nA 4 0 2 07 0000000000001004 f0 1122334455667788 0\n",
    "tilelink-trace 2 client 8 manager 4\nE 0107\nE 0007\n",
    "tilelink-trace 2 client 128 manager 64\nA 1 0 7 0001 0000000000000080 8000000000000001c000000000000003 7f7e7d7c7b7a797877767574737271706f6e6d6c6b6a696867666564636261605f5e5d5c5b5a595857565554535251504f4e4d4c4b4a494847464544434241403f3e3d3c3b3a393837363534333231302f2e2d2c2b2a292827262524232221201f1e1d1c1b1a191817161514131211100f0e0d0c0b0a09080706050403020100 0\n",
];

#[test]
fn reads_and_writes_lines(rt: HostRuntime) {
    for (number, text) in KEPT.iter().enumerate() {
        holds_at(&rt, is_kept(rt.alloc(), text.as_bytes()), number);
    }
}

/// An upper-case digit in the third line.
const UPPER_CASE: &[u8] = b"tilelink-trace 1 client 2 manager 2\nE 0a\nE 0A\n";

const SHAPE: TraceFault = TraceFault {
    line: 3,
    kind: TraceKind::Shape,
};

/// Also for a last line without an LF.
#[test]
fn refuses_the_first_fault(rt: HostRuntime) {
    let fault = read(rt.alloc(), UPPER_CASE).err();
    assert!(rt; (fault == Some(SHAPE)) & (fault_of_last_line(rt.alloc()) == Some(NO_END)));
}

/// The head of one of the lines of [`FIVE`].
const HEAD: HeadD = HeadD {
    opcode: 4,
    param: 0,
    size: 6,
    source: 1,
    sink: 7,
    denied: false,
};

/// Returns whether a GrantAck of sink 2a is written as this line in a trace of this version.
fn is_line(version: u8, line: &[u8]) -> bool {
    line_of::<ChE, 4>(&ack(0x2a), version).as_slice() == line
}

/// Returns whether [`HEAD`] is written as this text in a trace of version 1.
fn is_head(text: &[u8]) -> bool {
    ChD::head_text(&HEAD, 1).as_slice() == text
}

#[test]
fn a_line_and_a_head(rt: HostRuntime) {
    assert!(rt; is_line(1, b"E 2a\n") & is_line(2, b"E 002a\n") & is_head(b"D 4 0 6 01 07 0"));
}
