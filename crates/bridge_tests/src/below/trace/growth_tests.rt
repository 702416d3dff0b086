//! The result of each call if an allocation fails. It is the call's own memory error, which is then
//! also the result of the test, and the arguments are unchanged. `tests/program/test_refusals.py` makes each
//! allocation fail in turn. If none fails, the tests pass.
#![tactic(auto, using(tl_lanes::proofs::Widths::width_4, tl_lanes::proofs::Widths::width_8))]

use crate::five::{FIVE, has_one_each, script_of_five};
use crate::lending::passes;
use crate::values::ack;
use std::alloc::Global;
use std::test::Fail;
use tl_msg::{ChE, SideFault, Verdict};
use tl_trace::{OutOfMemory, Trace, read, script_of, write_far, write_report, write_trace};

/// Returns whether the text was read, or its memory error.
fn is_read(alloc: Global) -> Result<bool, Fail> {
    match script_of_five(alloc) {
        Ok(script) => Ok(has_one_each(&script)),
        Err(fault) => Err(Fail::new(fault)),
    }
}

#[test]
fn read_script_wants_memory(rt: HostRuntime) -> Result<(), Fail> {
    passes(is_read(rt.alloc()))
}

/// Returns whether a trace is converted to its script.
fn is_made(alloc: Global, trace: &Trace) -> Result<bool, Fail> {
    if trace.client != 4 || trace.manager != 8 {
        return Ok(false);
    }
    match script_of::<4, 8>(alloc, trace) {
        Ok(script) => Ok(has_one_each(&script)),
        Err(fault) => Err(Fail::new(fault)),
    }
}

/// Returns whether a trace is written as this text.
fn is_written_as(alloc: Global, trace: &Trace, text: &[u8]) -> Result<bool, Fail> {
    match write_trace(alloc, trace) {
        Ok(written) => Ok(written.as_slice() == text),
        Err(fault) => Err(Fail::new(fault)),
    }
}

/// Returns whether a trace is converted to its script, and written as its text.
fn is_made_and_written(alloc: Global, trace: &Trace) -> Result<bool, Fail> {
    match is_made(alloc, trace) {
        Ok(true) => is_written_as(alloc, trace, FIVE.as_bytes()),
        other => other,
    }
}

/// Returns whether the text was read, and its trace converted and written.
fn is_read_made_and_written(alloc: Global) -> Result<bool, Fail> {
    match read(alloc, FIVE.as_bytes()) {
        Ok(trace) => {
            let is_so = is_made_and_written(alloc, &trace);
            drop(trace);
            is_so
        }
        Err(fault) => Err(Fail::new(fault)),
    }
}

/// The allocations of `read`, then those of `script_of`, and then those of `write_trace`.
#[test]
fn a_trace_wants_memory(rt: HostRuntime) -> Result<(), Fail> {
    passes(is_read_made_and_written(rt.alloc()))
}

/// Returns the result of a test of a call that appends to a text: whether `out` is then `text`, or
/// its memory error, if `out` is unchanged.
fn judged(ended: Result<(), OutOfMemory>, out: &[u8], text: &[u8]) -> Result<bool, Fail> {
    match ended {
        Ok(()) => Ok(out == text),
        Err(fault) if out == b"before ".as_slice() => Err(Fail::new(fault)),
        Err(_) => Ok(false),
    }
}

/// Writes three lines. Returns whether the text is the expected one.
fn three_are_written(out: &mut Vec<u8>) -> Result<bool, Fail> {
    let ended = write_far::<ChE, 4>(out, &[ack(7), ack(8), ack(9)], 1);
    judged(ended, out, b"before E 07\nE 08\nE 09\n")
}

#[test]
fn write_far_wants_memory(rt: HostRuntime) -> Result<(), Fail> {
    let mut out = Vec::from_slice(rt.alloc(), b"before ")?;
    let is_so = three_are_written(&mut out);
    drop(out);
    passes(is_so)
}

/// A verdict on a source in use.
const WAITING: Verdict = Verdict::Waiting {
    at: 3,
    fault: SideFault::SourceBusy,
};

/// Writes a verdict. Returns whether the text is the expected one.
fn is_reported(out: &mut Vec<u8>) -> Result<bool, Fail> {
    let ended = write_report(out, b'A', &WAITING);
    judged(ended, out, b"before = A waiting 3 SourceBusy\n")
}

#[test]
fn write_report_wants_memory(rt: HostRuntime) -> Result<(), Fail> {
    let mut out = Vec::from_slice(rt.alloc(), b"before ")?;
    let is_so = is_reported(&mut out);
    drop(out);
    passes(is_so)
}
