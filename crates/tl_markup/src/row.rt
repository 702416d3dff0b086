//! The lines of a trace. Successive lines of different channels are side by side.
use crate::line::{put_body, put_heading};
use tl_explain::{BeatOutcome, Entry, PageModel};
use tl_text::Piece::{Letter, Number, Text};
use tl_text::TextBuf;

/// The number of colours for exchanges.
const HUES: u64 = 12;

/// Returns the class of a line whose beat had this outcome.
fn class_of(fate: BeatOutcome) -> &'static str {
    match fate {
        BeatOutcome::Accepted => "accepted",
        BeatOutcome::Refused(_) => "refused",
        BeatOutcome::Waiting(_) => "waits",
        BeatOutcome::NotOffered => "not-offered",
    }
}

/// Writes the exchange of a message, and its colour, into the tag of the message.
fn put_exchange(out: &mut TextBuf, exchange: u64) {
    if exchange != 0 {
        out.say(
            " data-exchange=\"#\" style=\"--hue:#\"",
            &[Number(exchange), Number(exchange % HUES)],
        );
    }
}

/// Writes a line with its beats. A message from line `first` to line `last` is folded to the
/// heading of its first line.
fn put_line(out: &mut TextBuf, scene: &PageModel, entry: &Entry, first: u64, last: u64) {
    let line = entry.record.line;
    if line == first {
        let to = if last == first { 0 } else { last };
        out.put_text("<summary>");
        put_heading(out, scene, entry, to);
        out.put_text("</summary>");
    }
    out.say("<article class=\"beat\" id=\"line-#\">", &[Number(line)]);
    if line != first {
        put_heading(out, scene, entry, 0);
    }
    put_body(out, scene, entry);
    out.put_text("</article>");
}

/// Returns whether a line is of the message of this line.
fn is_of(entry: &Entry, first: &Entry) -> bool {
    entry.record.message == first.record.message
}

/// Returns these entries up to the last one of the message of the first entry. Entries of other
/// channels can be among them.
fn up_to_last<'a>(entries: &'a [Entry], first: &Entry) -> &'a [Entry] {
    let mut count = 1usize;
    for at in 1..entries.len() {
        let entry = &entries[at];
        if is_of(entry, first) & (first.record.message != 0) {
            count = at.saturating_add(1);
        } else if entry.record.beat.letter == first.record.beat.letter {
            break;
        }
    }
    entries.get(..count).unwrap_or(&[])
}

/// Writes the message that begins with the first of these entries. It is open if one of its lines
/// has a fault or a remark, or its beat was not offered.
fn put_message(out: &mut TextBuf, scene: &PageModel, entries: &[Entry], first: &Entry) {
    let entries = up_to_last(entries, first);
    let class = Text(class_of(first.record.fate));
    out.say(
        "<details class=\"message # #\"",
        &[class, Letter(first.record.beat.letter)],
    );
    put_exchange(out, scene.exchange(first.record.message));
    let (mut is_open, mut last) = (false, first.record.line);
    for entry in entries {
        is_open |= is_of(entry, first) & entry.record.is_problem();
        last = entry.record.line;
    }
    out.put_text(if is_open { " open>" } else { ">" });
    for entry in entries {
        if is_of(entry, first) {
            put_line(out, scene, entry, first.record.line, last);
        }
    }
    out.put_text("</details>");
}

/// Writes several lines whose beats were not offered.
fn put_several(out: &mut TextBuf, scene: &PageModel, entry: &Entry) {
    let line = Number(entry.record.line);
    out.say("<p class=\"run\" id=\"line-#\">", &[line]);
    entry.put(out, &scene.walk);
    out.put_text("</p>");
}

/// Returns whether an entry is not of the last message of its channel. Records its message, for each
/// channel.
fn begins(messages: &mut [u64; 5], entry: &Entry) -> bool {
    let (letter, message) = (entry.record.beat.letter, entry.record.message);
    let Some(last) = messages.get_mut(letter.wrapping_sub(b'A') as usize) else {
        return true;
    };
    let is_other = (message == 0) | (message != *last);
    *last = message;
    is_other
}

/// Writes the message that begins with the first of these entries, or the lines of that entry if
/// their beats were not offered. Returns the letter after which the row continues, which was `last`
/// before: a row continues while each message is of a channel after that of the message before.
fn put_entry(
    out: &mut TextBuf,
    scene: &PageModel,
    entries: &[Entry],
    entry: &Entry,
    last: u8,
) -> u8 {
    let is_several = entry.count > 1;
    if is_several | (entry.record.beat.letter <= last) {
        out.put_text("</div><div class=\"row\">");
    }
    if is_several {
        put_several(out, scene, entry);
        return b'E';
    }
    put_message(out, scene, entries, entry);
    entry.record.beat.letter
}

/// Writes all lines, in the order of their messages.
pub fn put_rows(out: &mut TextBuf, scene: &PageModel) {
    let mut last = 0;
    let mut messages = [0u64; 5];
    let entries = scene.entries();
    for at in 0..entries.len() {
        let entry = entries[at];
        if begins(&mut messages, &entry) {
            let rest = entries.get(at..).unwrap_or(&[]);
            last = put_entry(out, scene, rest, &entry, last);
        }
    }
}
