//! The faults of a beat in sentences: the field, its value, and the value that it must have. If a
//! request or a response is missing, the sentence names that.
use crate::held::Held;
use crate::lane_list::{lanes_of, put_lanes};
use crate::record::LineRecord;
use crate::sentences::name_of;
use crate::walk::Walk;
use tl_msg::{BeatFault, Kind, SideFault};
use tl_text::Piece::{self, Address, Id, Length, Letter, Line, Number, Text};
use tl_text::{BeatFields, TextBuf};

/// Returns the sentence on a wrong opcode.
fn opcode_fault(letter: u8) -> &'static str {
    match letter {
        b'C' => "the opcode is #, but channel # has only the opcodes 0, 1, 2 and 4 to 7",
        b'D' => "the opcode is #, but channel # has only the opcodes 0, 1, 2 and 4 to 6",
        _ => "the opcode is #, but channel # has only the opcodes 0 to 7",
    }
}

/// Returns the sentence on a wrong param of a message that has `params` params.
fn param_fault(params: u8) -> &'static str {
    if params < 2 {
        "the param is #, but # has only the param 0"
    } else {
        "the param is #, but # has only the params 0 to #"
    }
}

/// Writes the sentence on a wrong field of a beat, except the mask.
fn put_field(out: &mut TextBuf, beat: &BeatFields, fault: BeatFault) {
    match fault {
        BeatFault::Opcode => {
            let opcode = Number(beat.opcode as u64);
            out.say(opcode_fault(beat.letter), &[opcode, Letter(beat.letter)]);
        }
        BeatFault::Param => {
            let params = beat.kind.map_or(0, Kind::params);
            let (param, most) = (Number(beat.param as u64), params.saturating_sub(1));
            let pieces = [param, name_of(beat), Number(most as u64)];
            out.say(param_fault(params), &pieces);
        }
        BeatFault::Size => out.say(
            "the size is #, but it may be at most 12: a message has at most 4096 bytes",
            &[Number(beat.size as u64)],
        ),
        BeatFault::Unaligned => out.say(
            "the address # is not a multiple of the message's #",
            &[Address(beat.address), Length(beat.size)],
        ),
        _ => out.say(
            "corrupt is 1, but # carries no data, so it has to be 0",
            &[name_of(beat)],
        ),
    }
}

/// Writes the sentence on a wrong mask on `w` lanes.
fn put_mask(out: &mut TextBuf, beat: &BeatFields, w: usize) {
    let Some(lanes) = lanes_of(beat.address, beat.size, w) else {
        return out.put_text("the mask is wrong");
    };
    let (wrong, rule) = if beat.kind.is_some_and(Kind::is_partial) {
        let rule = ", but it may have only active lanes, which are ";
        (beat.mask & !lanes, rule)
    } else {
        let rule = ", expected the active lanes, which are ";
        (beat.mask, rule)
    };
    out.put_text("the mask has ");
    put_lanes(out, wrong);
    out.put_text(rule);
    put_lanes(out, lanes);
}

/// Returns the first field of a head in which two beats of a burst differ, and its two values.
fn changed_field(is: &BeatFields, was: &BeatFields) -> [Piece<'static>; 3] {
    let number = |name, is: u8, was: u8| [Text(name), Number(is as u64), Number(was as u64)];
    let id = |name, of: u16, was_of: u16| [Text(name), Id(of, is.version), Id(was_of, is.version)];
    if is.opcode != was.opcode {
        number("the opcode", is.opcode, was.opcode)
    } else if is.param != was.param {
        number("the param", is.param, was.param)
    } else if is.size != was.size {
        number("the size", is.size, was.size)
    } else if is.source != was.source {
        id("the source", is.source, was.source)
    } else if is.address != was.address {
        [
            Text("the address"),
            Address(is.address),
            Address(was.address),
        ]
    } else if is.sink != was.sink {
        id("the sink", is.sink, was.sink)
    } else {
        number("denied", is.denied as u8, was.denied as u8)
    }
}

/// Writes which field of a beat differs from that of its burst's first beat, its value, and the
/// first one.
fn put_change(out: &mut TextBuf, beat: &BeatFields, first: &LineRecord) {
    let [field, is, was] = changed_field(beat, &first.beat);
    let pieces = [Line(first.line), field, is, was];
    out.say("inside the burst that # begins, # is # and was #", &pieces);
}

/// Returns a beat's source.
fn source_of(beat: &BeatFields) -> Piece<'static> {
    Id(beat.source, beat.version)
}

/// Writes the line of a beat that its channel did not accept, and what happened to it.
fn put_held(out: &mut TextBuf, walk: &Walk, held: Held) {
    let channel = walk.channel_of(held.letter);
    if held.line != channel.stop {
        out.say("# was not offered, since ", &[Line(held.line)]);
    }
    channel.put_stop(out);
}

/// Writes that the source of a beat of A is still busy with its last request.
fn put_busy(out: &mut TextBuf, walk: &Walk, beat: &BeatFields) {
    let still = "source # still waits for the response to its request";
    out.say(still, &[source_of(beat)]);
    if let Some(request) = walk.last_request(beat.source) {
        out.say(" in #", &[Line(request.line)]);
    }
    match walk.held.response {
        Some(response) => {
            out.put_text(": its response in ");
            put_held(out, walk, response);
        }
        None => out.put_text(": answer it on D, or use another source"),
    }
}

/// Writes that no request with the source of a beat of D waits for a response, and why.
fn put_none_waits(out: &mut TextBuf, walk: &Walk, beat: &BeatFields) {
    out.say(
        "no request of source # waits for a response",
        &[source_of(beat)],
    );
    if let Some(held) = walk.held.request {
        out.put_text(": the request in ");
        return put_held(out, walk, held);
    }
    if let Some(last) = walk.last_request(beat.source) {
        return out.say(": its last one, in #, is answered", &[Line(last.line)]);
    }
    out.put_text(": send one on A, or correct the source");
    if let Some(request) = walk.open_request(None) {
        let waits = "; the oldest outstanding request has source #, in #";
        out.say(waits, &[Id(request.id, beat.version), Line(request.line)]);
    }
}

/// Writes why a beat of D waits: no request of its source that waits for a response has arrived.
fn put_no_request(out: &mut TextBuf, walk: &Walk, beat: &BeatFields) {
    match walk.open_request(Some(beat.source)) {
        Some(request) => out.say(
            "the request of source # in # is incomplete: its first far beat still needs bytes",
            &[source_of(beat), Line(request.line)],
        ),
        None => put_none_waits(out, walk, beat),
    }
}

/// Writes why a beat of D is refused: its size is not that of its request.
fn put_mismatch(out: &mut TextBuf, walk: &Walk, beat: &BeatFields) {
    out.say("the response has #, but its request", &[Length(beat.size)]);
    match walk.open_request(Some(beat.source)) {
        Some(request) => out.say(", in #, has #", &[Line(request.line), Length(request.size)]),
        None => out.put_text(" has another size"),
    }
}

/// Writes why the beat of a channel with these fields was not accepted.
pub fn put_fault(out: &mut TextBuf, walk: &Walk, beat: &BeatFields, fault: SideFault) {
    match fault {
        SideFault::Beat(BeatFault::Mask) => put_mask(out, beat, walk.channel_of(beat.letter).w),
        SideFault::Beat(BeatFault::HeadChanged) => {
            put_change(out, beat, walk.first_of(beat.letter));
        }
        SideFault::Beat(fault) => put_field(out, beat, fault),
        SideFault::SourceBusy => put_busy(out, walk, beat),
        SideFault::NoRequest => put_no_request(out, walk, beat),
        SideFault::SizeMismatch => put_mismatch(out, walk, beat),
    }
}
