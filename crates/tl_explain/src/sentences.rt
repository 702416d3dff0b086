//! The sentence on a line, from its record: its number and time, its beat, and what happened to the
//! beat.
use crate::beat_outcome::BeatOutcome;
use crate::faults::put_fault;
use crate::record::LineRecord;
use crate::walk::Walk;
use tl_msg::Verdict;
use tl_remarks::put_remark;
use tl_text::Piece::{self, Coloured, Letter, Line, Name, Number, Opcode, Text};
use tl_text::{BeatFields, Colour, TextBuf};

/// Writes the number of a line, and its time if that is known. For several lines, `last` is the
/// number of the last one; otherwise it is 0.
pub fn put_place(out: &mut TextBuf, walk: &Walk, record: &LineRecord, last: u64) {
    out.put_line(record.line);
    if last != 0 {
        out.put_text(" to ");
        out.put_number(last);
    }
    let time = walk.times.at(record.time);
    if !time.is_empty() {
        out.put_text(", time ");
        out.put_bytes(time);
    }
}

/// Returns the message's name, as the standard spells it.
pub fn name_of(beat: &BeatFields) -> Piece<'static> {
    match beat.kind {
        Some(kind) => Name(kind),
        None if beat.letter == b'E' => Text("GrantAck"),
        None => Opcode(beat.opcode),
    }
}

/// Writes a beat's channel and the name of its message.
pub fn put_name(out: &mut TextBuf, beat: &BeatFields) {
    out.put_bytes(&[beat.letter, b' ']);
    out.put(name_of(beat));
}

/// Writes the fields that identify a beat, and whether it is denied or corrupt.
fn put_head(out: &mut TextBuf, beat: &BeatFields) {
    if beat.letter == b'E' {
        out.put_text("sink ");
        return out.put_id(beat.sink, beat.version);
    }
    out.put_text("source ");
    out.put_id(beat.source, beat.version);
    out.put_text(", ");
    out.put_length(beat.size);
    if beat.letter != b'D' {
        out.put_text(" at ");
        out.put_address(beat.address);
    }
    if beat.denied {
        out.put_text(", denied");
    }
    if beat.corrupt {
        out.put_text(", corrupt");
    }
}

/// Writes the fields of a line's beat, and its number in its message if that has several beats.
pub fn put_fields(out: &mut TextBuf, record: &LineRecord) {
    put_head(out, &record.beat);
    if record.beats > 1 {
        out.put_text(", beat ");
        out.put_number(record.index);
        out.put_text(" of ");
        out.put_number(record.beats);
    }
}

/// Writes how many bytes of the next far beat exist. (Piece by piece, because it is written for most
/// beats of a narrow bus.)
fn put_staged(out: &mut TextBuf, record: &LineRecord) {
    out.put_text(", staged: far beat ");
    out.put_number(record.far);
    out.put_text(" has ");
    out.put_number(record.staged as u64);
    out.put_text(" of its ");
    out.put_number(record.far_bytes as u64);
    out.put_text(" bytes");
}

/// Writes the far beats that an accepted beat completed, or how many bytes of the next one exist.
fn put_far(out: &mut TextBuf, record: &LineRecord) {
    match record.far_count {
        0 => put_staged(out, record),
        1 => {
            out.put_text(", far beat ");
            out.put_number(record.far);
        }
        count => {
            let last = record.far.saturating_add(count).saturating_sub(1);
            out.put_text(", far beats ");
            out.put_number(record.far);
            out.put_text(" to ");
            out.put_number(last);
        }
    }
}

/// Writes that a beat was accepted, the far beats that it completed, and the line of the request
/// that it answers.
fn put_accepted(out: &mut TextBuf, record: &LineRecord) {
    out.put_coloured(Colour::Green, "accepted");
    put_far(out, record);
    if record.answers() != 0 {
        out.put_text(", answers ");
        out.put_line(record.answers());
    }
}

/// Writes what happened to a line's beat.
pub fn put_fate(out: &mut TextBuf, walk: &Walk, record: &LineRecord) {
    let (word, fault) = match record.fate {
        BeatOutcome::Accepted => return put_accepted(out, record),
        BeatOutcome::Refused(fault) => (Coloured(Colour::Red, "refused"), fault),
        BeatOutcome::Waiting(fault) => (Coloured(Colour::Yellow, "waiting"), fault),
        BeatOutcome::NotOffered => {
            out.put_text("not offered, since ");
            return walk.channel_of(record.beat.letter).put_stop(out);
        }
    };
    let number = Number(fault.number() as u64);
    out.say("#, # #: ", &[word, number, Text(fault.name())]);
    put_fault(out, walk, &record.beat, fault);
}

/// Writes the sentence on a line.
pub fn put_sentence(out: &mut TextBuf, walk: &Walk, record: &LineRecord) {
    put_place(out, walk, record, 0);
    out.put_text(": ");
    put_name(out, &record.beat);
    out.put_text(", ");
    put_fields(out, record);
    out.put_text(": ");
    put_fate(out, walk, record);
}

/// For each channel whose lines end within a burst, writes how many beats of the burst exist,
/// between these two texts.
pub fn put_cuts(out: &mut TextBuf, walk: &Walk, before: &str, behind: &str) {
    for channel in &walk.channels {
        if let Verdict::Cut { .. } = channel.verdict {
            let first = walk.first_of(channel.letter);
            out.put_text(before);
            out.say(
                "# ends within the burst that # begins: # of its # beats are there",
                &[
                    Letter(channel.letter),
                    Line(first.line),
                    Number(channel.accepted),
                    Number(first.beats),
                ],
            );
            out.put_text(behind);
        }
    }
}

/// Writes the remarks on a line, each between these two texts.
pub fn put_remarks(
    out: &mut TextBuf,
    walk: &Walk,
    record: &LineRecord,
    before: &str,
    behind: &str,
) {
    for remark in walk.remarks_at(record) {
        out.put_text(before);
        put_remark(out, remark, walk.version);
        out.put_text(behind);
    }
}
