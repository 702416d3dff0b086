//! The sentences of remarks.
use crate::remark::{Message, Remark, Rule};
use tl_msg::Kind;
use tl_text::Piece::{self, Id, Line, Name, Text};
use tl_text::{Colour, TextBuf};

/// The params of an Acquire, of a Grant or a probe, and of a report, as the standard spells them.
const GROWTHS: &[&str] = &["NtoB", "NtoT", "BtoT"];

const CAPS: &[&str] = &["toT", "toB", "toN"];

const REPORTS: &[&str] = &["TtoB", "TtoN", "BtoN", "TtoT", "BtoB", "NtoN"];

/// The sentence of each rule, in the order of [`Rule`].
const SENTENCES: &[&str; 9] = &[
    "it is not a valid response to #, in # (TileLink 1.8: #)",
    "it grants #, but #, in #, asks for # (TileLink 1.8: Grant)",
    "it reports #, but #, in #, leaves # (TileLink 1.8: ProbeAck)",
    "no # # answers it (TileLink 1.8: #)",
    "there is no # # for it (TileLink 1.8: #)",
    "a ReleaseAck cannot be denied (TileLink 1.8: #)",
    "data that are denied have to be corrupt (TileLink 1.8: #)",
    "an AcquirePerm has to ask for NtoT or BtoT, not for NtoB (TileLink 1.8: #)",
    "# # is still in use by #, in # (TileLink 1.8: #)",
];

/// The sentence on a message that has no response before its partner, which has the same id.
const NOT_BEFORE: &str = "no # # answers it before # uses the # again (TileLink 1.8: #)";

/// Returns the word for a param; `?` if there is none.
fn word(words: &[&'static str], param: u8) -> Piece<'static> {
    Text(words.get(param as usize).copied().unwrap_or("?"))
}

/// Returns the name of a message. A message without an opcode is a GrantAck.
fn name(message: &Message) -> Piece<'static> {
    match message.kind {
        Some(kind) => Name(kind),
        None => Text("GrantAck"),
    }
}

/// Returns the name of the response to a message, and the id by which they are matched.
fn answer_to(message: &Message) -> &'static str {
    match message.kind {
        Some(Kind::Grant | Kind::GrantData) => "GrantAck of sink",
        Some(Kind::Release | Kind::ReleaseData) => "ReleaseAck of source",
        Some(Kind::ProbeBlock | Kind::ProbePerm) => "ProbeAck of source",
        _ => "response of source",
    }
}

/// Returns the name of the message to which a response belongs, and the id by which they are
/// matched.
fn asked_by(message: &Message) -> &'static str {
    match message.kind {
        None => "Grant of sink",
        Some(Kind::ReleaseAck) => "Release of source",
        Some(Kind::ProbeAck | Kind::ProbeAckData) => "probe of this address of source",
        _ if message.letter == b'D' => "request of source",
        _ => "request of this address of source",
    }
}

/// Returns whether the partner of a remark is in another line.
fn is_before(remark: &Remark) -> bool {
    remark.partner.line != remark.message.line
}

/// Returns the name of the id by which a message and its response are matched.
fn id_name(message: &Message) -> Piece<'static> {
    Text(if message.asked_on == b'D' {
        "sink"
    } else {
        "source"
    })
}

/// Returns the pieces for the sentence of a remark, in a trace of this version. Pieces that the
/// sentence does not have are arbitrary. (A remark on one message has that message as its partner.)
fn pieces_of(remark: &Remark, version: u8) -> [Piece<'static>; 5] {
    let (message, partner) = (&remark.message, &remark.partner);
    let (asked, line) = (name(partner), Line(partner.line));
    let id = Id(message.id, version);
    match remark.rule {
        Rule::OtherResponse => [asked, line, asked, asked, asked],
        Rule::OtherCap => {
            let cap = word(CAPS, message.param);
            [cap, asked, line, word(GROWTHS, partner.param), asked]
        }
        Rule::LeavesMore => {
            let report = word(REPORTS, message.param);
            [report, asked, line, word(CAPS, partner.param), asked]
        }
        Rule::NotAnswered if is_before(remark) => {
            let answer = Text(answer_to(message));
            [answer, id, line, id_name(message), name(message)]
        }
        Rule::NotAnswered => [Text(answer_to(message)), id, asked, asked, asked],
        Rule::AnswersNothing => [Text(asked_by(message)), id, asked, asked, asked],
        Rule::IdInUse => [id_name(message), id, asked, line, name(message)],
        Rule::DeniedAck | Rule::DeniedData | Rule::PermToRead => [asked; 5],
    }
}

/// Writes the sentence of a remark. The `version` of the trace determines the number of digits of
/// an id.
pub fn put_sentence_of(out: &mut TextBuf, remark: &Remark, version: u8) {
    let sentence = match remark.rule {
        Rule::NotAnswered if is_before(remark) => NOT_BEFORE,
        rule => SENTENCES[rule as usize],
    };
    out.say(sentence, &pieces_of(remark, version));
}

/// Writes a remark. The `version` of the trace determines the number of digits of an id.
pub fn put_remark(out: &mut TextBuf, remark: &Remark, version: u8) {
    out.put_coloured(Colour::Yellow, "remark");
    out.put_text(": ");
    put_sentence_of(out, remark, version);
}
