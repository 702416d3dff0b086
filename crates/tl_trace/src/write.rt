//! Functions that write lines, reports and traces.
ghost use Rattle.std.specs.Prelude.{◌≡◌, ◌≤◌, ◌<◌, ◌+◌, ◌*◌, ◌++◌, ◌∷◌, [], take, length, decimal, OnOk, OnErr, IfOk};
ghost use Rattle.tl_lanes.specs.declared.limits.TheConstants.{WIDEST};
ghost use Rattle.arrayvec.specs.ArrayVec.{array_vec_len};
ghost use Rattle.tl_lanes.specs.Lanes.{IsWidth};
ghost use Rattle.tl_trace.specs.Lines.{head_text, line_text, beats_text};
ghost use Rattle.tl_trace.specs.Texts.{newline, text_of_line, trace_text};
ghost use Rattle.tl_trace.specs.Reports.{verdict_text, report_line};
ghost use Rattle.tl_trace.specs.Inner.LineRests.{mask_text, mask_length, rest_text, rest_length};
ghost use Rattle.tl_trace.specs.declared.places.TheConstants.{LONGEST_HEAD, LONGEST_LINE};

use crate::head_text::HeadText;
use crate::header::header_text;
use crate::line::Line;
use crate::places::{LONGEST_LINE, mask_digits, rest_len};
use crate::text::{
    LineBuffer, Text, fill, fill_field, fill_lanes, fill_mask_field, put, put_byte, put_decimal,
};
use crate::trace::Trace;
use arrayvec::ArrayVec;
use std::alloc::Global;
use tl_lanes::{Mask, WIDEST};
use tl_msg::{Beat, BeatOf, ChA, ChB, ChC, ChD, ChE, OutOfMemory, Verdict};

/// Writes the mask, if the channel has one. Returns the position after it.
#[inline(always)]
fn fill_mask(line: &mut [u8], at: usize, masked: bool, mask: Mask, w: usize) -> usize
    requires width { w ≤ WIDEST }
    requires room { at + mask_length masked w ≤ length line.old }
    ensures items { take result line.new ≡ take at line.old ++ mask_text masked w mask }
    ensures end { result ≡ at + mask_length masked w }
{
    if !masked {
        return at;
    }
    fill_mask_field(line, at, mask, mask_digits(w))
}

/// Writes the part of a beat's line after its head, on the first `w` of its lanes, with its LF.
/// Returns the length of the line. `masked` and `has_data` are arguments so that one function
/// serves all channels.
#[inline(always)]
fn fill_rest<H, const N: usize>(
    line: &mut [u8],
    at: usize,
    beat: &BeatOf<H, N>,
    masked: bool,
    has_data: bool,
    w: usize,
) -> usize
    requires width { w ≤ WIDEST }
    requires lanes { w ≤ N }
    requires room { at + rest_length masked has_data w ≤ length line.old }
    ensures items { take result line.new ≡
        take at line.old ++ rest_text masked has_data w beat.now }
    ensures end { result ≡ at + rest_length masked has_data w }
{
    let mask = fill_mask(line, at, masked, beat.mask, w);
    if !has_data {
        return fill(line, mask, b"\n");
    }
    let lanes = fill_lanes(line, mask, &beat.lanes, w);
    let data = fill_field(line, lanes, beat.corrupt as u64, 1);
    fill(line, data, b"\n")
}

/// Writes the line of a beat on the first `w` of its lanes, with its LF. Returns its length.
#[inline(always)]
fn fill_line<K: HeadText, const N: usize>(
    line: &mut LineBuffer,
    beat: &Beat<K, N>,
    w: usize,
    version: u8,
) -> usize
    requires width { w ≤ WIDEST }
    requires lanes { w ≤ N }
    ensures items { take result line.new ≡ line_text (K.form version) w beat.now ++ newline }
    ensures end { result ≤ LONGEST_LINE }
{
    let head = K::fill_head(line, &beat.head, version);
    fill_rest(line, head, beat, K::MASKED, K::HAS_DATA, w)
}

/// Returns the line of a beat on `W` lanes in a trace of this version, with its LF. It has at most
/// [`LONGEST_LINE`] bytes, the length of A and B on the widest bus in version 2. Ids have two
/// digits in version 1, otherwise four. Each field is written by its lowest digits, so a beat that
/// is writable in this version is written as its line. Requires: `W` is a width.
pub fn line_of<K: HeadText, const W: usize>(
    beat: &Beat<K, W>,
    version: u8,
) -> ArrayVec<u8, LONGEST_LINE>
    requires { IsWidth W }
    ensures { result.items ≡ line_text (K.form version) W beat.now ++ newline }
{
    let mut line = [0; LONGEST_LINE];
    let end = fill_line::<K, W>(&mut line, beat, W, version);
    let mut text = ArrayVec::new();
    put(&mut text, &line[..end]);
    text
}

/// Writes another head over the head of a line.
#[inline(never)]
fn fill_other_head<K: HeadText>(line: &mut LineBuffer, head: &K::Head, version: u8) -> usize
    ensures items { take result line.new ≡ head_text (K.form version) head.now }
    ensures end { result ≤ LONGEST_HEAD }
{
    K::fill_head(line, head, version)
}

/// Makes the line, whose head ends at `at`, begin with the head `next`.
#[inline(always)]
fn change_head<K: HeadText>(
    line: &mut LineBuffer,
    at: usize,
    head: &mut K::Head,
    next: &K::Head,
    version: u8,
)
    requires { (at ≤ LONGEST_HEAD) × (take at line.old ≡ head_text (K.form version) head.old) }
    ensures head { head.new ≡ next.now }
    ensures items { take at line.new ≡ head_text (K.form version) head.new }
{
    if *next != *head {
        *head = *next;
        fill_other_head::<K>(line, head, version);
    }
}

/// Appends the line of a beat. `other` is a line of its channel with the same head, which ends at
/// `at`; it is copied and stays as it is. The parts that are written in small pieces are not read
/// back, which would be slow.
#[inline(always)]
fn append_line<H, const W: usize>(
    out: &mut Vec<u8>,
    other: &LineBuffer,
    at: usize,
    beat: &BeatOf<H, W>,
    masked: bool,
    has_data: bool,
) -> Result<(), OutOfMemory>
    requires { IsWidth W × (at ≤ LONGEST_HEAD) }
    ensures ok { OnOk result (out.new.items ≡
        out.old.items ++ (take at other.now ++ rest_text masked has_data W beat.now)) }
    ensures err { OnErr result (out.new.items ≡ out.old.items) }
{
    let start = out.len();
    let len = at + rest_len(masked, has_data, W) + 1;
    if out.extend_from_slice(&other[..len]).is_err() {
        return Err(OutOfMemory);
    }
    fill_rest(
        &mut out.as_mut_slice()[start..],
        at,
        beat,
        masked,
        has_data,
        W,
    );
    Ok(())
}

/// Appends lines like `write_far`. The version may be a constant that the compiler knows.
#[inline(always)]
fn write_lines<K: HeadText, const W: usize>(
    out: &mut Vec<u8>,
    beats: &[Beat<K, W>],
    version: u8,
) -> Result<(), OutOfMemory>
    requires { IsWidth W }
    ensures ok { OnOk result
        (out.new.items ≡ out.old.items ++ beats_text (K.form version) W beats.now) }
    ensures err { OnErr result (out.new.items ≡ out.old.items) }
{
    let Some(first) = beats.first() else {
        return Ok(());
    };
    let masked = K::MASKED;
    let has_data = K::HAS_DATA;
    let start = out.len();
    let mut line = [0; LONGEST_LINE];
    let mut head = first.head;
    let at = K::fill_head(&mut line, &head, version);
    let len = at + rest_len(masked, has_data, W) + 1;
    if out.reserve(beats.len().saturating_mul(len)).is_err() {
        return Err(OutOfMemory);
    }
    for beat in beats {
        change_head::<K>(&mut line, at, &mut head, &beat.head, version);
        if append_line(out, &line, at, beat, masked, has_data).is_err() {
            out.truncate(start);
            return Err(OutOfMemory);
        }
    }
    Ok(())
}

/// Appends the lines of beats in order, each as `line_of` returns it. Errors: `OutOfMemory`; the
/// contents stay as they were. Requires: `W` is a width.
pub fn write_far<K: HeadText, const W: usize>(
    out: &mut Vec<u8>,
    beats: &[Beat<K, W>],
    version: u8,
) -> Result<(), OutOfMemory>
    requires { IsWidth W }
    ensures ok { OnOk result
        (out.new.items ≡ out.old.items ++ beats_text (K.form version) W beats.now) }
    ensures err { OnErr result (out.new.items ≡ out.old.items) }
{
    // Both branches do the same. In each, the compiler knows the number of digits of an id, and so
    // the position of every field.
    if version == 1 {
        return write_lines::<K, W>(out, beats, 1);
    }
    write_lines::<K, W>(out, beats, version)
}

/// Appends a word, the number of near beats and the number of far beats.
fn put_counts(text: &mut Text, word: &[u8], near: u64, far: u64)
    requires { array_vec_len text.old + length word.now ≤ 100 }
    ensures items { text.new.items ≡
        text.old.items ++ (word.now ++ decimal near ++ 32 ∷ decimal far) }
    ensures len { array_vec_len text.new ≤ 200 }
{
    put(text, word);
    put_decimal(text, near);
    put_byte(text, b' ');
    put_decimal(text, far);
}

/// Appends a word, the number of near beats and the name of a fault.
fn put_fault(text: &mut Text, word: &[u8], at: u64, name: &str)
    requires room { array_vec_len text.old + length word.now ≤ 100 }
    requires short { length name.now ≤ 50 }
    ensures items { text.new.items ≡ text.old.items ++ (word.now ++ decimal at ++ 32 ∷ name.now) }
    ensures len { array_vec_len text.new ≤ 200 }
{
    put(text, word);
    put_decimal(text, at);
    put_byte(text, b' ');
    put(text, name.as_bytes());
}

/// Appends the part of a report line that describes a verdict.
fn put_verdict(text: &mut Text, verdict: &Verdict)
    requires { array_vec_len text.old ≤ 50 }
    ensures items { text.new.items ≡ text.old.items ++ verdict_text verdict.now }
    ensures len { array_vec_len text.new ≤ 200 }
{
    match verdict {
        Verdict::Done { near, far } => put_counts(text, b"done ", *near, *far),
        Verdict::Cut { near, far } => put_counts(text, b"cut ", *near, *far),
        Verdict::Refused { at, fault } => put_fault(text, b"refused ", *at, fault.name()),
        Verdict::Waiting { at, fault } => put_fault(text, b"waiting ", *at, fault.name()),
    }
}

/// Appends the report line of the channel with this letter, with its LF. The letter may be any
/// byte. Errors: `OutOfMemory`; the contents stay as they were.
pub fn write_report(out: &mut Vec<u8>, letter: u8, verdict: &Verdict) -> Result<(), OutOfMemory>
    ensures ok { OnOk result (out.new.items ≡ out.old.items ++ report_line letter verdict.now) }
    ensures err { OnErr result (out.new.items ≡ out.old.items) }
{
    let mut text = ArrayVec::new();
    put(&mut text, b"= ");
    put_byte(&mut text, letter);
    put_byte(&mut text, b' ');
    put_verdict(&mut text, verdict);
    put_byte(&mut text, b'\n');
    match out.extend_from_slice(text.as_slice()) {
        Ok(()) => Ok(()),
        Err(_) => Err(OutOfMemory),
    }
}

/// Writes the line of a beat of a trace of this version and these widths, with its LF. Returns its
/// length.
fn fill_line_of(
    room: &mut LineBuffer,
    line: &Line,
    version: u8,
    client: usize,
    manager: usize,
) -> usize
    requires client { client ≤ WIDEST }
    requires manager { manager ≤ WIDEST }
    ensures items { take result room.new ≡
        text_of_line version client manager line.now ++ newline }
    ensures end { result ≤ LONGEST_LINE }
{
    match line {
        Line::A(beat) => fill_line::<ChA, WIDEST>(room, beat, client, version),
        Line::B(beat) => fill_line::<ChB, WIDEST>(room, beat, manager, version),
        Line::C(beat) => fill_line::<ChC, WIDEST>(room, beat, client, version),
        Line::D(beat) => fill_line::<ChD, WIDEST>(room, beat, manager, version),
        Line::E(beat) => fill_line::<ChE, WIDEST>(room, beat, client, version),
    }
}

/// Appends the text of a trace to an empty list. If an allocation fails, part of the text may have
/// been appended.
fn append_trace(out: &mut Vec<u8>, trace: &Trace) -> Result<(), OutOfMemory>
    requires { out.old.items ≡ [] }
    ensures { OnOk result (out.new.items ≡ trace_text trace.now.version trace.now.client
        trace.now.manager trace.now.lines.items) }
{
    let (version, client, manager) = (trace.version, trace.client, trace.manager);
    let header = header_text(version, client, manager);
    let Ok(()) = out.extend_from_slice(header.as_slice()) else {
        return Err(OutOfMemory);
    };
    let Ok(()) = out.push(b'\n') else {
        return Err(OutOfMemory);
    };
    let mut room = [0; LONGEST_LINE];
    for line in &trace.lines {
        let end = fill_line_of(&mut room, line, version, client, manager);
        let Ok(()) = out.extend_from_slice(&room[..end]) else {
            return Err(OutOfMemory);
        };
    }
    Ok(())
}

/// Returns the text of a trace, in its version. Reading this text returns the same trace, unless
/// memory runs out. Errors: `OutOfMemory`.
pub fn write_trace(alloc: Global, trace: &Trace) -> Result<Vec<u8>, OutOfMemory>
    ensures { IfOk result (λ text. text.items ≡
        trace_text trace.now.version trace.now.client trace.now.manager trace.now.lines.items) }
{
    let mut out = Vec::new(alloc);
    match append_trace(&mut out, trace) {
        Ok(()) => Ok(out),
        Err(fault) => Err(fault),
    }
}
