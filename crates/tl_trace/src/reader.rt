//! Reads a text as a trace.
ghost use Rattle.std.specs.Prelude.{ℕ, ◌≡◌, ◌≢◌, ◌≤◌, ◌<◌, ◌+◌, None, Some, ◌∷◌, drop, map, length, slice_index, IfOk, IfErr, MatchResult};
ghost use Rattle.tl_trace.specs.Texts.{Tells};
ghost use Rattle.tl_trace.specs.Faults.{cut, faults, body_fault, later_fault, IsFirstFault, IsReadableTo};
ghost use Rattle.tl_trace.specs.Inner.Reading.{AreLines, CanRead, IsFaultOf, IsReadLine};
ghost use Rattle.tl_trace.specs.declared.fault.TraceKind.TheVariants.{OutOfMemory};

use crate::fault::{TraceFault, TraceKind};
use crate::header::{Header, header_of};
use crate::line::Line;
use crate::line_reader::read_beat;
use crate::trace::Trace;
use std::alloc::Global;
use tl_lanes::WIDEST;
use tl_msg::{ChA, ChB, ChC, ChD, ChE};

/// Returns the position of the first LF from `at` on, or the length of the text if there is none.
pub fn line_end(text: &[u8], at: usize) -> usize
    requires { at ≤ length text.now }
    ensures from { at ≤ result }
    ensures to { result ≤ length text.now }
    ensures free { (k : ℕ) → at + k < result → slice_index text.now (at + k) ≢ 10 }
    ensures end { result < length text.now → slice_index text.now result ≡ 10 }
{
    let mut end = at;
    while end < text.len() {
        if text[end] == b'\n' {
            return end;
        }
        end += 1;
    }
    end
}

/// Returns the first byte of a line, or 0 if it is empty.
fn letter_of(text: &[u8]) -> u8
    ensures { result ≡ slice_index text.now 0 }
{
    if text.is_empty() { 0 } else { text[0] }
}

/// Turns a beat that was read into a line.
macro_rules! read_as {
    ($line:ident, $read:expr) => {
        match $read {
            Ok(beat) => Ok(Line::$line(beat)),
            Err(kind) => Err(kind),
        }
    };
}

/// Returns the beat of a line after the header, without its LF.
fn read_line_in<const VERSION: u8>(
    text: &[u8],
    client: usize,
    manager: usize,
) -> Result<Line, TraceKind>
    requires { CanRead VERSION client manager }
    ensures { MatchResult result (IsReadLine VERSION client manager text.now)
        (λ kind. body_fault VERSION client manager text.now ≡ Some kind) }
{
    match letter_of(text) {
        b'A' => read_as!(A, read_beat::<ChA, WIDEST, VERSION>(text, client)),
        b'B' => read_as!(B, read_beat::<ChB, WIDEST, VERSION>(text, manager)),
        b'C' => read_as!(C, read_beat::<ChC, WIDEST, VERSION>(text, client)),
        b'D' => read_as!(D, read_beat::<ChD, WIDEST, VERSION>(text, manager)),
        b'E' => read_as!(E, read_beat::<ChE, WIDEST, VERSION>(text, client)),
        _ => Err(TraceKind::Channel),
    }
}

/// Returns the beat of a line after the header, without its LF, if the version is known only at run
/// time.
#[inline(never)]
pub fn read_line(text: &[u8], version: u8, client: usize, manager: usize) -> Result<Line, TraceKind>
    requires { CanRead version client manager }
    ensures { MatchResult result (IsReadLine version client manager text.now)
        (λ kind. body_fault version client manager text.now ≡ Some kind) }
{
    match version {
        1 => read_line_in::<1>(text, client, manager),
        _ => read_line_in::<2>(text, client, manager),
    }
}

/// Returns the beats of the lines from `start` on, the first of which is line 2.
fn read_lines(
    alloc: Global,
    text: &[u8],
    start: usize,
    header: Header,
) -> Result<Vec<Line>, TraceFault>
    requires can { CanRead header.version header.client header.manager }
    requires start { (1 ≤ start) × (start ≤ length text.now) }
    requires header { faults text.now ≡ None ∷
        map (later_fault header.version header.client header.manager) (cut (drop start text.now)) }
    ensures { MatchResult result (λ lines. AreLines header.version header.client header.manager
        lines.items (drop start text.now)) (IsFaultOf text.now) }
{
    let mut lines = Vec::new(alloc);
    let mut at = start;
    let mut before = 1u64;
    while at < text.len() {
        let line = before + 1;
        let end = line_end(text, at);
        let read = read_line(
            &text[at..end],
            header.version,
            header.client,
            header.manager,
        );
        let beat = match read {
            Ok(beat) => beat,
            Err(kind) => return Err(TraceFault { line, kind }),
        };
        if end == text.len() {
            let kind = TraceKind::NoEnd;
            return Err(TraceFault { line, kind });
        }
        if lines.push(beat).is_err() {
            let kind = TraceKind::OutOfMemory;
            return Err(TraceFault { line, kind });
        }
        at = end + 1;
        before = line;
    }
    Ok(lines)
}

/// Reads a text of version 1 or 2. Returns the trace of the text. Errors: the first fault of the
/// text, with its line. `OutOfMemory` names a line after the header; no line up to it has a fault.
pub fn read(alloc: Global, text: &[u8]) -> Result<Trace, TraceFault>
    ensures told { IfOk result (λ t.
        Tells text.now t.version t.client t.manager t.lines.items) }
    ensures fault { IfErr result (λ e. e.kind ≢ OutOfMemory → IsFirstFault text.now e.line e.kind) }
    ensures memory { IfErr result (λ e. e.kind ≡ OutOfMemory → IsReadableTo text.now e.line) }
{
    let end = line_end(text, 0);
    let Some(header) = header_of(&text[..end]) else {
        return Err(TraceFault {
            line: 1,
            kind: TraceKind::Header,
        });
    };
    if end >= text.len() {
        return Err(TraceFault {
            line: 1,
            kind: TraceKind::NoEnd,
        });
    }
    let lines = match read_lines(alloc, text, end + 1, header) {
        Ok(lines) => lines,
        Err(fault) => return Err(fault),
    };
    Ok(Trace {
        version: header.version,
        client: header.client,
        manager: header.manager,
        lines,
    })
}
