//! The expected and the actual byte at a position of a line.
use tl_text::Piece::{Byte, Letter, Text};
use tl_text::TextBuf;

/// The text on the expected line 1.
const HEADER: &str =
    "expected the header 'tilelink-trace V client C manager M', where V is the version, 1 or 2, and C and M are bytes, each 1, 2, 4, 8, 16, 32, 64 or, in version 2, 128";

/// The fields of a line of A or B, of C, of D and of E, from the channel's letter on.
const MASKED: &[&str] = &[
    "channel", "opcode", "param", "size", "source", "address", "mask", "data", "corrupt",
];

const UNMASKED: &[&str] = &[
    "channel", "opcode", "param", "size", "source", "address", "data", "corrupt",
];

const ON_D: &[&str] = &[
    "channel", "opcode", "param", "size", "source", "sink", "denied", "data", "corrupt",
];

const ON_E: &[&str] = &["channel", "sink"];

/// Returns the name of a byte: a word for a byte that is invisible or easily mistaken, otherwise
/// `#`, which is replaced by the byte.
fn byte_name(byte: u8) -> &'static str {
    match byte {
        b'\t' => "a tab",
        b'\r' => "a carriage return (CR)",
        b' ' => "a space",
        0 => "a zero byte",
        0xa0 => "the byte a0, as in a no-break space",
        b'!'..=b'~' => "'#'",
        _ => "the byte #, which is no ASCII",
    }
}

/// Writes the byte at a position of a line.
fn put_found(out: &mut TextBuf, line: &[u8], at: usize) {
    let Some(byte) = line.get(at) else {
        return out.put_text(", but the line ends here");
    };
    let piece = if byte.is_ascii_graphic() {
        Letter(*byte)
    } else {
        Byte(*byte)
    };
    out.put_text(", found ");
    out.say(byte_name(*byte), &[piece]);
}

/// Returns the fields of the lines of a form.
fn fields_of(form: &[u8]) -> &'static [&'static str] {
    match form.first() {
        Some(b'C') => UNMASKED,
        Some(b'D') => ON_D,
        Some(b'E') => ON_E,
        _ => MASKED,
    }
}

/// Returns the name of the field at a position of a form.
fn field_at(form: &[u8], at: usize) -> &'static str {
    let before = form.get(..at).unwrap_or(form);
    let field = before.iter().filter(|byte| **byte == b' ').count();
    fields_of(form).get(field).copied().unwrap_or("line")
}

/// Writes the expected byte at a position of a line of this form, and the actual one.
pub fn put_expected(out: &mut TextBuf, line: &[u8], form: &[u8], at: usize) {
    let sentence = match form.get(at) {
        Some(b' ') => "expected a space",
        Some(_) => "expected a digit, 0 to 9 or a to f, of the field #",
        None => "expected the end of the line",
    };
    out.say(sentence, &[Text(field_at(form, at))]);
    put_found(out, line, at);
    if let Some(b'A'..=b'F') = line.get(at) {
        out.put_text(": digits are of lower case");
    }
}

/// Writes the digits that are allowed at a position of a line of this form, and the actual one.
pub fn put_range(out: &mut TextBuf, line: &[u8], form: &[u8], at: usize, largest: u8) {
    let field = Text(field_at(form, at));
    out.say(
        "expected a digit from 0 to #, of the field #",
        &[Letter(largest), field],
    );
    put_found(out, line, at);
}

/// Writes that a line does not begin with the letter of a channel, and its first byte.
pub fn put_no_channel(out: &mut TextBuf, line: &[u8]) {
    out.put_text("expected a channel's letter, A to E");
    match line.first() {
        None => out.put_text(": the line is blank, and a trace has no blank lines"),
        Some(b'#' | b'/' | b';') => out.put_text(": a trace has no comments"),
        Some(b'a'..=b'e') => out.put_text(", of upper case"),
        Some(_) => put_found(out, line, 0),
    }
}

/// Writes the expected line 1, and why this line is not a valid header, if its beginning or end
/// shows that.
pub fn put_no_header(out: &mut TextBuf, line: &[u8]) {
    out.put_text(HEADER);
    out.put_text(match line {
        [] => "; the first line is blank",
        [0xef, 0xbb, 0xbf, ..] =>
            "; the text begins with a byte order mark (ef bb bf), and a trace is plain ASCII",
        [0xff, 0xfe, ..] =>
            "; the text begins with the byte order mark of UTF-16 (ff fe), and a trace is plain ASCII",
        [0xfe, 0xff, ..] =>
            "; the text begins with the byte order mark of UTF-16 (fe ff), and a trace is plain ASCII",
        [b'A'..=b'E', b' ', ..] => "; the header is missing: this is the line of a beat",
        [b'#' | b'/' | b';', ..] => "; a trace has no comments",
        _ if line.starts_with(b"tilelink-far") => "; this is an answer, and no trace",
        [.., last] => return put_blank_end(out, *last),
    });
}

/// Writes that a line ends with an invisible byte, if it does.
pub fn put_blank_end(out: &mut TextBuf, last: u8) {
    if let b' ' | b'\t' | b'\r' = last {
        out.say("; the line ends with #", &[Text(byte_name(last))]);
    }
}
