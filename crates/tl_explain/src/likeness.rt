//! Other forms that a line of the wrong length has.
use crate::places::{put_blank_end, put_expected};
use crate::walk::LETTERS;
use std::alloc::Global;
use tl_lanes::WIDEST_POWER;
use tl_text::Piece::{Letter, Number, Text};
use tl_text::TextBuf;
use tl_trace::{Header, header_of_text, id_digits, read};

/// Returns a buffer with the header of a trace.
pub fn header_page(alloc: Global, header: &Header) -> TextBuf {
    let mut page = TextBuf::new(alloc, false);
    page.say(
        "tilelink-trace # client # manager #",
        &[
            Number(header.version as u64),
            Number(header.client as u64),
            Number(header.manager as u64),
        ],
    );
    page
}

/// Returns whether a text is a valid trace.
pub fn is_trace(alloc: Global, text: &[u8]) -> bool {
    read(alloc, text).is_ok()
}

/// Returns whether a trace with this header can have this line, if it began with this letter.
fn fits(out: &mut TextBuf, alloc: Global, header: &Header, letter: u8, line: &[u8]) -> bool {
    let mut trace = header_page(alloc, header);
    trace.put_bytes(&[b'\n', letter]);
    trace.put_bytes(line.get(1..).unwrap_or(&[]));
    trace.put_bytes(b"\n");
    out.out_of_memory |= trace.out_of_memory;
    is_trace(alloc, &trace.text)
}

/// Writes that the line has the form of the other version, with another number of id digits, if
/// that is so. Returns whether it is.
fn put_version(out: &mut TextBuf, alloc: Global, header: &Header, letter: u8, line: &[u8]) -> bool {
    let version = if header.version == 1 { 2 } else { 1 };
    let other = Header { version, ..*header };
    let is_like = fits(out, alloc, &other, letter, line);
    if is_like {
        out.say(
            "; it has the form of version #, in which an id has # digits",
            &[Number(version as u64), Number(id_digits(version) as u64)],
        );
    }
    is_like
}

/// Returns the side that sends on the channel with this letter, and its width.
fn side_of(header: &Header, letter: u8) -> (&'static str, usize) {
    match letter {
        b'B' | b'D' => ("manager", header.manager),
        _ => ("client", header.client),
    }
}

/// Writes that the line has the form of its channel at another width, if that is so, and whether
/// the header gave this width in bits. Returns whether the line has that form.
fn put_width(out: &mut TextBuf, alloc: Global, header: &Header, letter: u8, line: &[u8]) -> bool {
    let width = (0..=WIDEST_POWER)
        .map(|power| 1usize << power)
        .find(|width| {
            let other = Header {
                client: *width,
                manager: *width,
                ..*header
            };
            fits(out, alloc, &other, letter, line)
        });
    let Some(width) = width else {
        return false;
    };
    let (side, said) = side_of(header, letter);
    let why = if width.saturating_mul(8) == said {
        ": the widths of the header are bytes, and not bits"
    } else {
        ""
    };
    out.say(
        "; it has the form of a line of # for # ##",
        &[Letter(letter), Text(side), Number(width as u64), Text(why)],
    );
    true
}

/// Writes that the line has the form of another channel, if that is so. Returns whether it is.
fn put_channel(out: &mut TextBuf, alloc: Global, header: &Header, line: &[u8]) -> bool {
    let other = LETTERS
        .iter()
        .find(|letter| fits(out, alloc, header, **letter, line));
    if let Some(letter) = other {
        out.say("; it has the form of a line of #", &[Letter(*letter)]);
    }
    other.is_some()
}

/// Writes that the line has the form of another version, width or channel, if that is so. Returns
/// whether it is.
fn put_alike(out: &mut TextBuf, alloc: Global, header: &Header, letter: u8, line: &[u8]) -> bool {
    put_version(out, alloc, header, letter, line)
        || put_width(out, alloc, header, letter, line)
        || put_channel(out, alloc, header, line)
}

/// Writes that a line has another length than this form, and the likely cause: a line of another
/// version, width or channel, or one with bytes after its end. Otherwise writes the fault at the
/// first position that does not fit the form.
pub fn put_length(
    out: &mut TextBuf,
    alloc: Global,
    text: &[u8],
    line: &[u8],
    form: &[u8],
    at: usize,
) {
    out.say(
        "the line has # characters, expected #, in the form below the mark",
        &[Number(line.len() as u64), Number(form.len() as u64)],
    );
    let (Some(header), [letter, .., last]) = (header_of_text(text), line) else {
        return;
    };
    if put_alike(out, alloc, &header, *letter, line) {
        return;
    }
    let goes_on = line.len() > form.len() && at == form.len();
    if goes_on && last.is_ascii_graphic() {
        out.put_text("; nothing may follow the last field: a trace has no comments");
    } else if goes_on {
        put_blank_end(out, *last);
    } else {
        out.put_text("; at the mark ");
        put_expected(out, line, form, at);
    }
}
