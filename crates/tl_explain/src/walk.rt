//! The walk over the lines of a trace, which makes the record of each line.
ghost use Rattle.std.specs.Prelude.{◌≤◌};

use crate::beat_outcome::{BeatOutcome, fate_at};
use crate::held::{HeldPair, line_of};
use crate::links::{Links, index_of, links_at, links_of};
use crate::record::{LineRecord, Span, bytes_of};
use crate::times::Times;
use std::alloc::{AllocError, Global};
use tl_msg::{SourceId, Verdict};
use tl_remarks::{Exchange, Message, Noted, Remark, accepted};
use tl_text::Piece::{Line, Text};
use tl_text::{BeatFields, TextBuf};
use tl_trace::Header;

/// The letters of the channels.
pub const LETTERS: &[u8; 5] = b"ABCDE";

/// Returns the index of the channel with this letter among all five; for any other byte that of E.
pub fn place(letter: u8) -> usize
    ensures { result ≤ 4 }
{
    (letter.wrapping_sub(b'A') as usize).min(4)
}

/// A channel, and the position in its beats.
#[derive(Clone, Copy)]
pub struct Position {
    pub letter: u8,
    pub verdict: Verdict,
    /// The line of the first beat that it does not accept; 0 if it accepts all.
    pub stop: u64,
    /// The width, in bytes, of the bus of the near beats, and of that of the far beats.
    pub w: usize,
    pub v: usize,
    /// The numbers of near beats, of far beats, and of messages of which a beat was accepted.
    pub near: usize,
    pub far: u64,
    pub messages: u64,
    /// The number of beats of the last message that were accepted.
    pub accepted: u64,
}

impl Position {
    /// Returns the position before the first beat of the channel with this letter and this verdict,
    /// from a bus of `w` bytes to one of `v`. The letters are those of the lines from line 2 on.
    fn new(letters: &[u8], letter: u8, verdict: &Verdict, w: usize, v: usize) -> Position {
        let stop = match verdict {
            Verdict::Refused { .. } | Verdict::Waiting { .. } => {
                line_of(letters, letter, accepted(verdict))
            }
            Verdict::Done { .. } | Verdict::Cut { .. } => 0,
        };
        Position {
            letter,
            verdict: *verdict,
            stop,
            w,
            v,
            near: 0,
            far: 0,
            messages: 0,
            accepted: 0,
        }
    }

    /// Writes the line of the first beat that the channel did not accept, and what happened to it.
    pub fn put_stop(&self, out: &mut TextBuf) {
        let how = match self.verdict {
            Verdict::Waiting { .. } => "waits",
            _ => "was refused",
        };
        out.say("# #", &[Line(self.stop), Text(how)]);
    }
}

/// The facts about all lines of a trace, and the position in them.
#[derive(Drop)]
pub struct Walk {
    /// The version of the trace, and the first letter of each line from line 2 on.
    pub version: u8,
    letters: Vec<u8>,
    pub times: Times,
    /// The remarks in the order of lines, and the number of those up to the current line.
    pub remarks: Vec<Remark>,
    remarks_passed: usize,
    /// The messages that belong together, for each line from line 2 on, and the number of exchanges
    /// up to the current line.
    pub links: Vec<Links>,
    begun: u64,
    /// The exchanges as the bridge matches them, and the beats for which others wait.
    exchanges: Vec<Exchange>,
    pub held: HeldPair,
    /// The positions in the channels, from A to E.
    pub channels: [Position; 5],
    /// The record of the first beat of the last message of each channel, from A to E.
    firsts: [LineRecord; 5],
    /// The number of the last line that has a record.
    line: u64,
}

impl Walk {
    /// Returns the walk at the position before line 2 of a text with this header. Its lines have
    /// these letters, its channels these verdicts, and its messages these remarks and exchanges.
    /// Errors: `AllocError` if the allocator fails.
    #[inline(never)]
    pub fn new(
        alloc: Global,
        header: &Header,
        verdicts: &[Verdict; 5],
        letters: Vec<u8>,
        noted: Noted,
        held: HeldPair,
        in_order: bool,
        times: &[u8],
    ) -> Result<Walk, AllocError> {
        let [on_a, on_b, on_c, on_d, on_e] = verdicts;
        let (c, m) = (header.client, header.manager);
        let channels = [
            Position::new(&letters, b'A', on_a, c, m),
            Position::new(&letters, b'B', on_b, m, c),
            Position::new(&letters, b'C', on_c, c, m),
            Position::new(&letters, b'D', on_d, m, c),
            Position::new(&letters, b'E', on_e, c, 1),
        ];
        if noted.out_of_memory {
            return Err(AllocError);
        }
        let links = links_of(alloc, letters.len(), &noted, in_order)?;
        let times = Times::new(alloc, times)?;
        Ok(Walk {
            version: header.version,
            times,
            remarks: noted.remarks,
            remarks_passed: 0,
            links,
            begun: 0,
            exchanges: noted.exchanges,
            held,
            channels,
            firsts: [LineRecord::default(); 5],
            line: 1,
            letters,
        })
    }

    /// Returns the number of lines from line 2 on.
    pub fn lines(&self) -> usize {
        self.letters.len()
    }

    /// Returns the remarks on a line.
    pub fn remarks_at(&self, record: &LineRecord) -> &[Remark] {
        let Span { from, to } = record.remarks;
        self.remarks.get(from..to).unwrap_or(&[])
    }

    /// Returns the position in the channel with this letter.
    pub fn channel_of(&self, letter: u8) -> &Position {
        &self.channels[place(letter)]
    }

    /// Returns the record of the first beat of the last message of the channel with this letter.
    pub fn first_of(&self, letter: u8) -> &LineRecord {
        &self.firsts[place(letter)]
    }

    /// Returns the letter of the line at this index, counted from line 2.
    pub fn letter_at(&self, at: usize) -> u8 {
        self.letters.get(at).copied().unwrap_or(b'E')
    }

    /// Advances past the remarks on the current line. Returns their position.
    fn pass_remarks(&mut self) -> Span {
        let (from, line) = (self.remarks_passed, self.line);
        let rest = self.remarks.get(from..).unwrap_or(&[]).iter();
        let count = rest
            .take_while(|remark| remark.message.line == line)
            .count();
        self.remarks_passed = from.saturating_add(count);
        Span {
            from,
            to: self.remarks_passed,
        }
    }

    /// Advances to the next line, whose beat has these fields. Returns its record, which is not
    /// complete if the beat was accepted.
    pub fn next_record(&mut self, beat: &BeatFields) -> LineRecord {
        let line = self.line.saturating_add(1);
        self.line = line;
        let links = links_at(&self.links, line);
        let channel = &mut self.channels[place(beat.letter)];
        let fate = fate_at(channel.near as u64, &channel.verdict);
        channel.near = channel.near.saturating_add(1);
        let home = match (beat.letter, fate) {
            (b'D', BeatOutcome::Accepted) => Some(links.home),
            (b'D', _) => None,
            _ => Some(beat.address),
        };
        let time = self.times.advance();
        let remarks = self.pass_remarks();
        LineRecord {
            line,
            time,
            beat: *beat,
            fate,
            remarks,
            home,
            links,
            ..LineRecord::default()
        }
    }

    /// Records that a message begins in the line of this record. Numbers the exchange that it begins.
    fn begin_message(&mut self, record: &LineRecord) {
        let at = place(record.beat.letter);
        self.firsts[at] = *record;
        self.channels[at].messages = self.channels[at].messages.saturating_add(1);
        if record.links.asked_in == 0 {
            self.begun = self.begun.saturating_add(1);
            if let Some(links) = self.links.get_mut(index_of(record.line)) {
                links.exchange = self.begun;
            }
        }
    }

    /// Completes the record of an accepted beat, which is beat `index` of its message and completed
    /// `count` far beats.
    pub fn accept(&mut self, record: &mut LineRecord, index: u32, count: usize) {
        let at = place(record.beat.letter);
        let Position { w, v, far, .. } = self.channels[at];
        if index == 0 {
            record.message = record.line;
            record.beats = record.beat.beats(w) as u64;
            record.far_bytes = bytes_of(&record.beat, v);
            self.begin_message(record);
        } else {
            let first = &self.firsts[at];
            record.message = first.line;
            record.beats = first.beats;
            record.far_bytes = first.far_bytes;
            record.home = first.home;
            record.links = first.links;
        }
        let bytes = bytes_of(&record.beat, w);
        record.index = index as u64;
        record.first_byte = (index as usize).saturating_mul(bytes);
        record.staged = record.first_byte.saturating_add(bytes) % record.far_bytes.max(1);
        record.far = far;
        record.far_count = count as u64;
        self.channels[at].far = far.saturating_add(record.far_count);
        self.channels[at].accepted = record.index.saturating_add(1);
    }

    /// Returns the first outstanding request of A, of this source if one is given.
    pub fn open_request(&self, source: Option<SourceId>) -> Option<Message> {
        let open = self.exchanges.iter().filter(|exchange| exchange.is_open());
        open.map(|exchange| exchange.ask)
            .filter(|ask| ask.letter == b'A' && source.unwrap_or(ask.id) == ask.id)
            .min_by_key(|ask| ask.line)
    }

    /// Returns the last request of A of this source.
    pub fn last_request(&self, source: SourceId) -> Option<Message> {
        let asks = self.exchanges.iter().map(|exchange| exchange.ask);
        asks.filter(|ask| ask.letter == b'A' && ask.id == source)
            .max_by_key(|ask| ask.line)
    }
}
