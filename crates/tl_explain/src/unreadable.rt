//! A text that is not a valid trace: its first faulty line, the place of the fault, and what was
//! expected.
use crate::letters::form_of;
use crate::likeness::{header_page, is_trace, put_length};
use crate::places::{put_expected, put_no_channel, put_no_header, put_range};
use arrayvec::ArrayVec;
use std::alloc::{AllocError, Global};
use tl_lanes::WIDEST_POWER;
use tl_text::Piece::{Number, Text};
use tl_text::TextBuf;
use tl_trace::{Header, LONGEST_LINE, TraceFault, TraceKind, header_of_text};

/// The number of bytes of a line that are shown: the length of the longest line of a trace, so that
/// the position of a beat's fault is among them.
pub const SHOWN: usize = LONGEST_LINE;

/// The number of possible widths of a bus: the powers of two from 1 on.
const WIDTHS: u32 = WIDEST_POWER + 1;

/// The digits of a line.
const DIGITS: &[u8; 16] = b"0123456789abcdef";

/// Returns the line with this number, without its LF.
pub fn line_at(text: &[u8], number: u64) -> &[u8] {
    let mut lines = text.split(|byte| *byte == b'\n');
    lines.nth(number.saturating_sub(1) as usize).unwrap_or(&[])
}

/// A trace of one line, for trying bytes in it.
#[derive(Drop)]
struct Trial {
    trace: TextBuf,
    /// The position of the line.
    start: usize,
}

impl Trial {
    /// Returns the trace with this header and a line of this form.
    fn new(alloc: Global, header: &[u8], form: &[u8]) -> Trial {
        let mut trace = TextBuf::new(alloc, false);
        trace.put_bytes(header);
        trace.put_bytes(b"\n");
        let start = trace.text.len();
        trace.put_bytes(form);
        trace.put_bytes(b"\n");
        Trial { trace, start }
    }

    /// Puts a byte at this position of the line. Returns whether the result is a valid trace.
    fn takes(&mut self, alloc: Global, at: usize, byte: u8) -> bool {
        if let Some(place) = self.trace.text.get_mut(self.start.saturating_add(at)) {
            *place = byte;
        }
        is_trace(alloc, &self.trace.text)
    }

    /// Returns the first position at which this line does not fit the form, among at most `most`
    /// bytes. Puts its bytes up to that one into the trial line.
    fn bad_place(&mut self, alloc: Global, line: &[u8], most: usize) -> usize {
        for at in 0..line.len().min(most) {
            if !self.takes(alloc, at, line[at]) {
                return at;
            }
        }
        line.len().min(most)
    }

    /// Returns the largest digit that is allowed at this position.
    fn largest_digit(&mut self, alloc: Global, at: usize) -> u8 {
        let mut digits = DIGITS.iter().rev();
        let largest = digits.find(|digit| self.takes(alloc, at, **digit));
        largest.copied().unwrap_or(b'0')
    }
}

/// Returns the length of the common beginning of a line and a text.
fn same_bytes(line: &[u8], text: &[u8]) -> usize {
    line.iter().zip(text).take_while(|(a, b)| a == b).count()
}

/// Returns the length of the longest common beginning of a line and a valid header.
fn header_place(out: &mut TextBuf, alloc: Global, line: &[u8]) -> usize {
    let mut most = 0;
    for i in 0..2 * WIDTHS * WIDTHS {
        let header = Header {
            version: 1 + (i / (WIDTHS * WIDTHS)) as u8,
            client: 1 << (i / WIDTHS % WIDTHS),
            manager: 1 << (i % WIDTHS),
        };
        let page = header_page(alloc, &header);
        out.out_of_memory |= page.out_of_memory;
        // not every version has every width
        if header_of_text(&page.text).is_some() {
            most = same_bytes(line, &page.text).max(most);
        }
    }
    most
}

/// Writes the first bytes of a line. A byte that is not printable ASCII is written as a question
/// mark.
fn put_shown(out: &mut TextBuf, line: &[u8]) {
    out.put_text("    ");
    for byte in line.get(..SHOWN).unwrap_or(line) {
        let is_printable = matches!(byte, b' '..=b'~');
        out.put_bytes(&[if is_printable { *byte } else { b'?' }]);
    }
    out.put_text("\n");
}

/// Writes a line, and below it a mark under this position.
fn put_marked(out: &mut TextBuf, line: &[u8], at: usize) {
    out.put_text("\n");
    put_shown(out, line);
    out.put_text("    ");
    for _ in 0..at.min(SHOWN) {
        out.put_text(" ");
    }
    out.put_text("^\n");
}

/// Returns the position of a line's fault, and the largest digit that is allowed there. The form is
/// empty if the line has none.
fn place_of(
    out: &mut TextBuf,
    alloc: Global,
    text: &[u8],
    line: &[u8],
    form: &[u8],
    kind: TraceKind,
) -> (usize, u8) {
    match kind {
        TraceKind::Header => (header_place(out, alloc, line), 0),
        TraceKind::NoEnd if form.is_empty() => (line.len(), 0),
        _ => {
            let mut trial = Trial::new(alloc, line_at(text, 1), form);
            out.out_of_memory |= trial.trace.out_of_memory;
            let at = trial.bad_place(alloc, line, form.len());
            (at, trial.largest_digit(alloc, at))
        }
    }
}

/// Writes what was expected in a line of this form. Returns the position of its fault.
pub fn put_fault(
    out: &mut TextBuf,
    alloc: Global,
    text: &[u8],
    line: &[u8],
    form: &[u8],
    kind: TraceKind,
) -> usize {
    let (at, largest) = place_of(out, alloc, text, line, form, kind);
    match kind {
        TraceKind::Header => put_no_header(out, line),
        TraceKind::Channel => put_no_channel(out, line),
        TraceKind::Length => put_length(out, alloc, text, line, form, at),
        TraceKind::Range => put_range(out, line, form, at, largest),
        TraceKind::NoEnd => out.put_text("the line has to end with a newline (LF)"),
        _ => put_expected(out, line, form, at),
    }
    at
}

/// Returns the form of a line's channel. Empty if the line is the first one or its channel is not
/// known.
pub fn form_at(text: &[u8], number: u64, line: &[u8]) -> ArrayVec<u8, LONGEST_LINE> {
    match (header_of_text(text), line.first()) {
        (Some(header), Some(letter)) if number != 1 => form_of(*letter, &header),
        _ => ArrayVec::new(),
    }
}

/// Returns the fault of a text that is not a valid trace in words: what was expected, the faulty
/// line, a mark below the place of the fault, and the form of the line if its length is wrong.
/// Errors: `AllocError` if the allocator fails.
pub fn show_fault(alloc: Global, text: &[u8], fault: &TraceFault) -> Result<Vec<u8>, AllocError> {
    let line = line_at(text, fault.line);
    let form = form_at(text, fault.line, line);
    let form = form.as_slice().trim_ascii_end();
    let mut out = TextBuf::new(alloc, false);
    let number = fault.number() as u64;
    out.say(
        "line #: # #: ",
        &[Number(fault.line), Number(number), Text(fault.name())],
    );
    let at = put_fault(&mut out, alloc, text, line, form, fault.kind);
    put_marked(&mut out, line, at);
    if let TraceKind::Length = fault.kind {
        put_shown(&mut out, form);
    }
    out.into_text()
}
