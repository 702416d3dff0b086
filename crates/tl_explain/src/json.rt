//! Output as JSON Lines: an object for the outcome of each line of a trace, and one for the whole
//! trace. A text that is not a valid trace has one object, for its fault.
ghost use Rattle.std.specs.Prelude.{◌≤◌, false, length, IfOk, IfErr};
ghost use Rattle.tl_stream.specs.Inputs.{most_bytes};
ghost use Rattle.tl_explain.specs.Explained.{ShowsAnswer, IsUntold};

use crate::beat_outcome::BeatOutcome;
use crate::display_options::{DisplayOptions, Format};
use crate::explain::explanation_of;
use crate::faults::put_fault as put_fault_sentence;
use crate::links::Links;
use crate::picture::{Cell, Picture};
use crate::record::{BeatRecord, LineRecord};
use crate::unreadable::{SHOWN, form_at, line_at, put_fault as put_trace_fault};
use crate::walk::{Position, Walk};
use std::alloc::{AllocError, Global};
use std::io::Write;
use tl_answer::TextFault;
use tl_msg::{SideFault, Verdict};
use tl_remarks::{Remark, put_sentence_of};
use tl_text::Piece::{Address, Byte, Letter, Name, Number, Text};
use tl_text::{BeatFields, Piece, TextBuf};
use tl_trace::{TraceFault, TraceKind};

/// Writes bytes as a JSON string. A byte that is not printable ASCII is written as the character
/// with its number.
pub fn put_string(out: &mut TextBuf, bytes: &[u8]) {
    out.put_text("\"");
    for byte in bytes {
        match *byte {
            b'"' => out.put_text("\\\""),
            b'\\' => out.put_text("\\\\"),
            b' '..=b'~' => out.put_bytes(&[*byte]),
            _ => {
                out.put_text("\\u00");
                out.put(Byte(*byte));
            }
        }
    }
    out.put_text("\"");
}

/// Returns a truth value in words.
fn truth(is_so: bool) -> Piece<'static> {
    Text(if is_so { "true" } else { "false" })
}

/// Writes the channel of a beat and the name of its message, `null` if the channel has no such
/// opcode.
fn put_message(out: &mut TextBuf, beat: &BeatFields) {
    out.say(",\"channel\":\"#\",\"message\":", &[Letter(beat.letter)]);
    match beat.kind {
        Some(kind) => out.say("\"#\"", &[Name(kind)]),
        None if beat.letter == b'E' => out.put_text("\"GrantAck\""),
        None => out.put_text("null"),
    }
}

/// Writes the fields that the channel of a beat has.
fn put_fields(out: &mut TextBuf, beat: &BeatFields) {
    put_message(out, beat);
    let (source, sink) = (Number(beat.source as u64), Number(beat.sink as u64));
    if beat.letter == b'E' {
        return out.say(",\"sink\":#", &[sink]);
    }
    let (opcode, param) = (Number(beat.opcode as u64), Number(beat.param as u64));
    let size = Number(beat.size as u64);
    out.say(
        ",\"opcode\":#,\"param\":#,\"size\":#,\"source\":#",
        &[opcode, param, size, source],
    );
    if beat.letter == b'D' {
        out.say(",\"sink\":#,\"denied\":#", &[sink, truth(beat.denied)]);
    } else {
        out.say(",\"address\":\"#\"", &[Address(beat.address)]);
    }
    out.say(",\"corrupt\":#", &[truth(beat.corrupt)]);
}

/// Writes the line of an accepted beat's message, the number of the beat in that message, and how
/// many bytes of the next far beat are staged.
fn put_accepted(out: &mut TextBuf, record: &LineRecord) {
    out.say(
        ",\"fate\":\"accepted\",\"message_line\":#,\"beat\":#,\"beats\":#",
        &[
            Number(record.message),
            Number(record.index),
            Number(record.beats),
        ],
    );
    if record.staged > 0 {
        out.say(
            ",\"staged\":{\"far\":#,\"bytes\":#,\"of\":#}",
            &[
                Number(record.far),
                Number(record.staged as u64),
                Number(record.far_bytes as u64),
            ],
        );
    }
}

/// Writes the number and the name of a fault. Does not close the fault's object.
fn put_fault(out: &mut TextBuf, number: u8, name: &'static str) {
    let number = Number(number as u64);
    out.say(
        ",\"fault\":{\"number\":#,\"name\":\"#\"",
        &[number, Text(name)],
    );
}

/// Writes the line of the message to which a message responds, and the line of its response, if
/// they exist.
fn put_ties(out: &mut TextBuf, ties: Links) {
    if ties.asked_in != 0 {
        out.say(",\"answers\":#", &[Number(ties.asked_in)]);
    }
    if ties.answered_in != 0 {
        out.say(",\"answered_in\":#", &[Number(ties.answered_in)]);
    }
}

/// Writes the contents of a lane as a picture in text shows them.
fn put_cell(out: &mut TextBuf, cell: Cell) {
    match cell {
        Cell::Byte(byte) => out.put(Byte(byte)),
        Cell::Idle => out.put_text(".."),
        Cell::Wrong => out.put_text("!!"),
        Cell::Masked => out.put_text("--"),
        Cell::Empty => out.put_text("##"),
    }
}

/// Writes the contents of a beat's lanes, lane 0 first, if the beat has a mask or data and the lanes
/// of its bytes are known. If its message carries data, writes before them which of its bytes the
/// beat has: the index of the first byte, its lane, and the number of bytes.
fn put_lanes(out: &mut TextBuf, beat: &BeatRecord, lanes: &[u8]) {
    if beat.fields.carries_data() & (beat.message != 0) {
        out.say(
            ",\"first_byte\":#,\"first_lane\":#,\"bytes\":#",
            &[
                Number(beat.first_byte as u64),
                Number(beat.first_lane as u64),
                Number(beat.bytes as u64),
            ],
        );
    }
    let Some(picture) = Picture::of(&beat.fields, lanes, beat.home) else {
        return;
    };
    out.put_text(",\"lanes\":[");
    for lane in 0..picture.lanes.len() {
        out.put_text(if lane == 0 { "\"" } else { "\",\"" });
        put_cell(out, picture.cell(lane));
    }
    out.put_text("\"]");
}

/// Writes the verdict of a channel.
fn put_verdict(out: &mut TextBuf, walk: &Walk, channel: &Position) {
    match channel.verdict {
        Verdict::Done { near, far } => out.say(
            "{\"verdict\":\"done\",\"near\":#,\"far\":#}",
            &[Number(near), Number(far)],
        ),
        Verdict::Cut { near, far } => {
            let first = walk.first_of(channel.letter);
            out.say(
                "{\"verdict\":\"cut\",\"near\":#,\"far\":#,\"message_line\":#,\"beat\":#,\"beats\":#}",
                &[
                    Number(near),
                    Number(far),
                    Number(first.line),
                    Number(channel.accepted),
                    Number(first.beats),
                ],
            );
        }
        Verdict::Refused { at, fault } => put_stopped(out, "refused", at, fault),
        Verdict::Waiting { at, fault } => put_stopped(out, "waiting", at, fault),
    }
}

/// Writes the verdict of a channel that stopped at a beat, after `near` accepted beats, for this
/// fault.
fn put_stopped(out: &mut TextBuf, verdict: &'static str, near: u64, fault: SideFault) {
    out.say(
        "{\"verdict\":\"#\",\"near\":#",
        &[Text(verdict), Number(near)],
    );
    put_fault(out, fault.number(), fault.name());
    out.put_text("}}");
}

/// Writes the status of a beat that was not accepted, and the fault that is the reason.
fn put_held(
    out: &mut TextBuf,
    walk: &Walk,
    beat: &BeatFields,
    fate: &'static str,
    fault: SideFault,
) {
    out.say(",\"fate\":\"#\"", &[Text(fate)]);
    put_fault(out, fault.number(), fault.name());
    out.put_text(",\"said\":\"");
    put_fault_sentence(out, walk, beat, fault);
    out.put_text("\"}");
}

/// Writes what happened to a line's beat.
fn put_fate(out: &mut TextBuf, walk: &Walk, record: &LineRecord) {
    match record.fate {
        BeatOutcome::Accepted => {
            put_accepted(out, record);
            put_ties(out, record.links);
        }
        BeatOutcome::Refused(fault) => put_held(out, walk, &record.beat, "refused", fault),
        BeatOutcome::Waiting(fault) => put_held(out, walk, &record.beat, "waiting", fault),
        BeatOutcome::NotOffered => {
            let line = walk.channel_of(record.beat.letter).stop;
            out.say(
                ",\"fate\":\"not offered\",\"since_line\":#",
                &[Number(line)],
            );
        }
    }
}

/// Begins the object of a line: writes everything before the lanes of its beat.
pub fn begin_object(out: &mut TextBuf, walk: &Walk, record: &LineRecord) {
    out.say("{\"line\":#", &[Number(record.line)]);
    let time = walk.times.at(record.time);
    if !time.is_empty() {
        out.put_text(",\"time\":\"");
        out.put_bytes(time);
        out.put_text("\"");
    }
    put_fields(out, &record.beat);
    put_fate(out, walk, record);
}

/// Writes the lanes of the near beat of a line, or a far beat, which has this text.
pub fn put_json_beat(
    out: &mut TextBuf,
    record: &LineRecord,
    beat: &BeatRecord,
    lanes: &[u8],
    text: &[u8],
) {
    if !beat.is_far {
        put_lanes(out, beat, lanes);
        return out.put_text(",\"far\":[");
    }
    out.put_text(if beat.number == record.far { "" } else { "," });
    out.say("{\"number\":#,\"text\":", &[Number(beat.number)]);
    put_string(out, text.trim_ascii_end());
    out.say(",\"corrupt\":#", &[truth(beat.fields.corrupt)]);
    put_lanes(out, beat, lanes);
    out.put_text("}");
}

/// Writes a remark.
fn put_remark(out: &mut TextBuf, remark: &Remark, version: u8) {
    let rule = remark.rule;
    out.say(
        "{\"number\":#,\"name\":\"#\",\"partner\":#,\"said\":\"",
        &[
            Number(rule.number() as u64),
            Text(rule.name()),
            Number(remark.partner.line),
        ],
    );
    put_sentence_of(out, remark, version);
    out.put_text("\"}");
}

/// Writes the remarks on a line, and ends its object.
pub fn put_json_remarks(out: &mut TextBuf, walk: &Walk, record: &LineRecord) {
    out.put_text("],\"remarks\":[");
    let mut before = "";
    for remark in walk.remarks_at(record) {
        out.put_text(before);
        put_remark(out, remark, walk.version);
        before = ",";
    }
    out.put_text("]}\n");
}

/// Writes the object of the whole trace.
pub fn put_summary(out: &mut TextBuf, walk: &Walk) {
    let (client, manager) = (walk.channels[0].w, walk.channels[0].v);
    out.say(
        "{\"summary\":{\"version\":#,\"client\":#,\"manager\":#,\"lines\":#,\"remarks\":#",
        &[
            Number(walk.version as u64),
            Number(client as u64),
            Number(manager as u64),
            Number((walk.lines() as u64).saturating_add(1)),
            Number(walk.remarks.len() as u64),
        ],
    );
    for channel in &walk.channels {
        out.say(",\"#\":", &[Letter(channel.letter)]);
        put_verdict(out, walk, channel);
    }
    out.put_text("}}\n");
}

/// Writes the outcome of each line of a text as JSON Lines: an object for each line that is shown,
/// in the order of the lines, and one for the whole trace. Returns true if and only if all five
/// channels are done. Errors: as for `explain_to`.
pub fn records_to<W: Write>(
    alloc: Global,
    text: &[u8],
    look: &DisplayOptions,
    times: &[u8],
    writer: &mut W,
) -> Result<bool, TextFault>
    requires few { length text.now ≤ most_bytes }
    ensures ok { IfOk result
        (ShowsAnswer text.now (W.contents writer.old) (W.contents writer.new)) }
    ensures err { IfErr result
        (IsUntold false text.now (W.contents writer.old) (W.contents writer.new)) }
{
    let look = DisplayOptions {
        format: Format::Json,
        colour: false,
        ..*look
    };
    let telling = explanation_of::<W>(alloc, text, &look, times, writer)?;
    let all_done = telling.answer.all_done;
    Ok(all_done)
}

/// Writes the first bytes of a line as a string.
fn put_line_string(out: &mut TextBuf, line: &[u8]) {
    put_string(out, line.get(..SHOWN).unwrap_or(line));
}

/// Returns the fault of a text that is not a valid trace as a line of JSON. Errors: `AllocError` if
/// the allocator fails. The object has
/// - the line, number and name of the fault, and what was expected;
/// - the place in the line, counted from 0, and the first bytes of the line;
/// - the form of the line, if its length is wrong.
pub fn fault_record(alloc: Global, text: &[u8], fault: &TraceFault) -> Result<Vec<u8>, AllocError> {
    let line = line_at(text, fault.line);
    let form = form_at(text, fault.line, line);
    let form = form.as_slice().trim_ascii_end();
    let mut said = TextBuf::new(alloc, false);
    let at = put_trace_fault(&mut said, alloc, text, line, form, fault.kind);
    let mut out = TextBuf::new(alloc, false);
    let number = fault.number() as u64;
    out.say(
        "{\"line\":#,\"fault\":{\"number\":#,\"name\":\"#\",\"said\":",
        &[Number(fault.line), Number(number), Text(fault.name())],
    );
    put_string(&mut out, &said.text);
    let place = Number(at.min(SHOWN) as u64);
    out.say("},\"place\":#,\"text\":", &[place]);
    put_line_string(&mut out, line);
    if let TraceKind::Length = fault.kind {
        out.put_text(",\"form\":");
        put_line_string(&mut out, form);
    }
    out.put_text("}\n");
    out.out_of_memory |= said.out_of_memory;
    out.into_text()
}
