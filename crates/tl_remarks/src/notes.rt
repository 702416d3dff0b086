//! From the beats of a script to remarks.
ghost use Rattle.tl_lanes.specs.Lanes.{IsWidth};

use crate::exchange::{Stops, judge};
use crate::fits::N_TO_B;
use crate::lines::Cursor;
use crate::remark::{Message, Noted, Rule};
use std::alloc::Global;
use tl_msg::{Beat, ChA, ChB, ChC, ChD, ChE, Kind, Verdict};
use tl_text::{BeatFields, Describe, beat_fields_of};
use tl_trace::Script;

/// The messages of the accepted beats, and those that begin with a beat at which a channel stops.
#[derive(Drop)]
struct Notes {
    /// Messages that need a response, and the responses: a Grant is one of both.
    asks: Vec<Message>,
    answers: Vec<Message>,
    stops: Stops,
    noted: Noted,
}

/// Returns the letter of the channel of the first message in the exchange that a beat belongs to: a
/// request on A and its response on D, a probe or request on B and its response on C, a release on
/// C and its ReleaseAck on D, or a Grant on D and its GrantAck on E.
fn asked_on(beat: &BeatFields) -> u8 {
    match (beat.letter, beat.kind) {
        (b'E', _) => b'D',
        (_, Some(Kind::Release | Kind::ReleaseData | Kind::ReleaseAck)) => b'C',
        (b'B' | b'C', _) => b'B',
        _ => b'A',
    }
}

/// Returns the message of a beat, in the exchange whose first message is on channel `asked_on`.
fn message_of(beat: &BeatFields, line: u64, asked_on: u8) -> Message {
    Message {
        line,
        letter: beat.letter,
        asked_on,
        kind: beat.kind,
        param: beat.param,
        size: beat.size,
        denied: beat.denied,
        id: if asked_on == b'D' {
            beat.sink
        } else {
            beat.source
        },
        address: beat.address,
        is_accepted: true,
    }
}

/// Returns the rule that a beat breaks, independent of the beats before and after it. A message
/// without data has only one beat.
fn rule_alone(beat: &BeatFields) -> Option<Rule> {
    match beat.kind {
        Some(Kind::AcquirePerm) if beat.param == N_TO_B => Some(Rule::PermToRead),
        Some(Kind::ReleaseAck) if beat.denied => Some(Rule::DeniedAck),
        _ if beat.denied & !beat.corrupt & beat.carries_data() => Some(Rule::DeniedData),
        _ => None,
    }
}

impl Notes {
    /// Adds a message.
    fn add(&mut self, message: Message) {
        let added = if message.letter == message.asked_on {
            self.asks.push(message)
        } else {
            self.answers.push(message)
        };
        self.noted.out_of_memory |= added.is_err();
    }

    /// Adds a beat, and if `begins` is true the message that it begins. A Grant is also added as a
    /// message that needs a response.
    fn add_beat(&mut self, beat: &BeatFields, line: u64, begins: bool) {
        let message = message_of(beat, line, asked_on(beat));
        self.noted.push_remark(rule_alone(beat), &message, &message);
        if begins {
            self.add(message);
            if matches!(beat.kind, Some(Kind::Grant | Kind::GrantData)) {
                self.add(message_of(beat, line, b'D'));
            }
        }
    }

    /// Records that a channel stops at this beat, and the message that it begins if `begins` is
    /// true. A beat whose opcode its channel does not have begins no message.
    fn add_stop(&mut self, beat: &BeatFields, line: u64, begins: bool) {
        if let Some(stop) = self.stops.get_mut(beat.letter.wrapping_sub(b'A') as usize) {
            *stop = line;
        }
        if begins && (beat.kind.is_some() || beat.letter == b'E') {
            self.add(Message {
                is_accepted: false,
                ..message_of(beat, line, asked_on(beat))
            });
        }
    }

    /// Matches messages and responses, and adds remarks on both. Sorts the remarks by line, and the
    /// exchanges by the line of the response.
    fn judge(&mut self, in_order: bool) {
        let asks = self.asks.sort_by_key(Message::rank);
        let answers = self.answers.sort_by_key(Message::rank);
        let noted = &mut self.noted;
        judge(&self.asks, &self.answers, &self.stops, in_order, noted);
        let remarks = noted.remarks.sort_by_key(|remark| remark.message.line);
        let exchanges = noted.exchanges.sort_by_key(|exchange| exchange.answer);
        let ties = noted.ties.sort_by_key(|tie| tie.answer);
        let sorted = asks.and(answers).and(remarks).and(exchanges).and(ties);
        noted.out_of_memory |= sorted.is_err();
    }
}

/// Returns the number of beats of a channel that were accepted.
pub fn accepted(verdict: &Verdict) -> usize {
    match *verdict {
        Verdict::Done { near, .. } | Verdict::Cut { near, .. } => near as usize,
        Verdict::Refused { at, .. } | Verdict::Waiting { at, .. } => at as usize,
    }
}

/// Adds the accepted beats of a channel.
fn add_channel<K: Describe, const W: usize>(
    notes: &mut Notes,
    letters: &[u8],
    verdict: &Verdict,
    beats: &[Beat<K, W>],
) {
    let mut cursor = Cursor::default();
    let mut left = 0usize;
    let stop = accepted(verdict).min(beats.len());
    for at in 0..stop {
        let seen = beat_fields_of::<K, W>(&beats[at], 1);
        cursor.seek(letters, seen.letter);
        let begins = left == 0;
        if begins {
            left = seen.beats(W);
        }
        left = left.saturating_sub(1);
        notes.add_beat(&seen, cursor.line(), begins);
    }
    if let Some(beat) = beats.get(stop) {
        let seen = beat_fields_of::<K, W>(beat, 1);
        cursor.seek(letters, seen.letter);
        notes.add_stop(&seen, cursor.line(), left == 0);
    }
}

/// Adds the accepted beats of all channels.
fn add_script<const C: usize, const M: usize>(
    notes: &mut Notes,
    letters: &[u8],
    script: &Script<C, M>,
    verdicts: &[Verdict; 5],
)
    requires { IsWidth C × IsWidth M }
{
    let [a, b, c, d, e] = verdicts;
    add_channel::<ChA, C>(notes, letters, a, &script.a);
    add_channel::<ChB, M>(notes, letters, b, &script.b);
    add_channel::<ChC, C>(notes, letters, c, &script.c);
    add_channel::<ChD, M>(notes, letters, d, &script.d);
    add_channel::<ChE, C>(notes, letters, e, &script.e);
}

/// Returns which accepted messages of a script belong together, and the remarks on them if
/// `wants_remarks` is true. `verdicts` are those of the channels, from A to E. `letters` are the
/// first bytes of the lines from line 2 on.
///
/// Messages and responses are matched by their order within source, sink, or source and address. A
/// missing partner gets a remark only if all beats of its channel were accepted.
///
/// If `in_order` is true, the lines are in the order of time. A response then belongs to the last
/// message before it with its id. An id that is used again before its response gets a remark. If
/// that response is late but not missing, messages share the id, and a response belongs to the
/// first of them that it fits. A channel is judged up to the line at which it, or the channel of its
/// responses, stops.
pub fn notes_of<const C: usize, const M: usize>(
    alloc: Global,
    letters: &[u8],
    script: &Script<C, M>,
    verdicts: &[Verdict; 5],
    wants_remarks: bool,
    in_order: bool,
) -> Noted
    requires { IsWidth C × IsWidth M }
{
    let mut notes = Notes {
        asks: Vec::new(alloc),
        answers: Vec::new(alloc),
        stops: [u64::MAX; 5],
        noted: Noted::new(alloc, wants_remarks),
    };
    add_script::<C, M>(&mut notes, letters, script, verdicts);
    notes.judge(in_order);
    notes.noted
}
