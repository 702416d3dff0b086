//! The sentences on a whole trace: its messages, its faults, and its remarks.
use tl_explain::{LETTERS, PageModel, Position};
use tl_msg::Verdict;
use tl_remarks::accepted;
use tl_text::Piece::{Letter, Number, Text};
use tl_text::TextBuf;

/// Returns the name of one message of the channel with this letter, and of several.
fn names_on(letter: u8) -> (&'static str, &'static str) {
    match letter {
        b'A' | b'B' => ("request", "requests"),
        b'C' => ("message", "messages"),
        b'D' => ("response", "responses"),
        _ => ("GrantAck", "GrantAcks"),
    }
}

/// Writes a number, and the first of these words for 1 and the second for any other number.
fn put_count(out: &mut TextBuf, count: u64, names: (&'static str, &'static str)) {
    let (one, several) = names;
    out.put_number(count);
    out.put_text(" ");
    out.put_text(if count == 1 { one } else { several });
}

/// The numbers of accepted beats, of messages, and of channels that stopped.
#[derive(Clone, Copy, Default)]
struct Totals {
    accepted: u64,
    messages: u64,
    stops: u64,
}

/// Returns the numbers for all channels.
fn totals_of(channels: &[Position; 5]) -> Totals {
    let mut totals = Totals::default();
    for channel in channels {
        let near = accepted(&channel.verdict) as u64;
        totals.accepted = totals.accepted.saturating_add(near);
        totals.messages = totals.messages.saturating_add(channel.messages);
        totals.stops = totals.stops.saturating_add((channel.stop != 0) as u64);
    }
    totals
}

/// Writes the number of messages, and for each channel the number on that channel.
fn put_messages(out: &mut TextBuf, channels: &[Position; 5], totals: &Totals) {
    let names = if totals.stops == 0 {
        ("message", "messages")
    } else {
        ("accepted message", "accepted messages")
    };
    put_count(out, totals.messages, names);
    let mut before = ": ";
    for channel in channels {
        if channel.messages > 0 {
            out.put_text(before);
            put_count(out, channel.messages, names_on(channel.letter));
            out.say(" on #", &[Letter(channel.letter)]);
            before = ", ";
        }
    }
}

/// Returns the first line after this one in which a channel stops; `u64::MAX` if there is none.
fn next_stop(channels: &[Position; 5], line: u64) -> u64 {
    let mut first = u64::MAX;
    for channel in channels {
        if line < channel.stop {
            first = first.min(channel.stop);
        }
    }
    first
}

/// Writes the line in which a channel stopped, what happened there, and the fault.
fn put_stop(out: &mut TextBuf, channel: &Position) {
    channel.put_stop(out);
    if let Verdict::Refused { fault, .. } | Verdict::Waiting { fault, .. } = channel.verdict {
        let number = Number(fault.number() as u64);
        out.say(" (# #)", &[number, Text(fault.name())]);
    }
}

/// Writes the fault of the channel that stops in this line, if one does, after this text.
fn put_stop_in(out: &mut TextBuf, channels: &[Position; 5], line: u64, before: &str) {
    for channel in channels {
        if channel.stop == line {
            out.put_text(before);
            put_stop(out, channel);
        }
    }
}

/// Writes the faults in the order of their lines.
fn put_stops(out: &mut TextBuf, channels: &[Position; 5], stops: u64) {
    put_count(out, stops, ("fault", "faults"));
    let mut line = 0;
    for at in 0..LETTERS.len() {
        line = next_stop(channels, line);
        put_stop_in(out, channels, line, if at == 0 { ": " } else { ", " });
    }
}

/// Writes the faults, and the number of beats that were not offered, of `lines` beats.
fn put_faults(out: &mut TextBuf, channels: &[Position; 5], totals: &Totals, lines: u64) {
    if totals.stops == 0 {
        return out.put_text(match lines {
            0 => "There are no beats",
            _ => "All beats were accepted",
        });
    }
    put_stops(out, channels, totals.stops);
    let held = lines.saturating_sub(totals.accepted);
    let not_offered = held.saturating_sub(totals.stops);
    if not_offered > 0 {
        out.put_text("; ");
        let names = ("beat was not offered", "beats were not offered");
        put_count(out, not_offered, names);
    }
}

/// Writes which channels end within a burst.
fn put_cuts(out: &mut TextBuf, channels: &[Position; 5]) {
    for channel in channels {
        if let Verdict::Cut { .. } = channel.verdict {
            let letter = Letter(channel.letter);
            out.say("; # ends within a burst", &[letter]);
        }
    }
}

/// Writes the number of remarks, and the line of the first one.
fn put_number_of_remarks(out: &mut TextBuf, scene: &PageModel) {
    let remarks = &scene.walk.remarks;
    let Some(first) = remarks.first() else {
        return out.put_text(" No remarks.");
    };
    let names = ("remark, in ", "remarks, the first in ");
    out.put_text(" ");
    put_count(out, remarks.len() as u64, names);
    out.put_line(first.message.line);
    out.put_text(".");
}

/// Writes the sentences on the whole trace: the numbers of its lines and messages, its faults, and
/// its remarks if they were requested.
pub fn put_overview(out: &mut TextBuf, scene: &PageModel) {
    let channels = &scene.walk.channels;
    let totals = totals_of(channels);
    let lines = scene.walk.lines() as u64;
    put_count(out, lines.saturating_add(1), ("line", "lines"));
    out.put_text(", ");
    put_messages(out, channels, &totals);
    out.put_text(". ");
    put_faults(out, channels, &totals, lines);
    put_cuts(out, channels);
    out.put_text(".");
    if scene.has_remarks {
        put_number_of_remarks(out, scene);
    }
}
