//! The lines that are shown, in their order.
use crate::beat_outcome::BeatOutcome;
use crate::display_options::LineFilter;
use crate::record::{LineRecord, Span};
use crate::walk::{LETTERS, Walk, place};
use tl_text::Piece::{Letter, Number};
use tl_text::TextBuf;

/// A line that is shown, or several lines whose beats were not offered.
#[derive(Clone, Copy, Default)]
pub struct Entry {
    /// The record of the line, or of the first of several lines.
    pub record: LineRecord,
    /// The number of the last line, and the number of lines.
    pub last: u64,
    pub count: u64,
    /// The channels that have one of these lines, from A to E.
    channels: [bool; 5],
    /// The position of the line's beats among all that a page shows.
    pub beats: Span,
}

impl Entry {
    /// Returns whether its lines are of beats that were not offered, and a line with this record can
    /// be added to them.
    pub fn takes(&self, record: &LineRecord) -> bool {
        self.is_held() && matches!(record.fate, BeatOutcome::NotOffered)
    }

    /// Returns whether its lines are of beats that were not offered.
    pub fn is_held(&self) -> bool {
        self.count > 0 && matches!(self.record.fate, BeatOutcome::NotOffered)
    }

    /// Adds a line.
    pub fn add(&mut self, record: &LineRecord) {
        if self.count == 0 {
            self.record = *record;
        }
        self.last = record.line;
        self.count = self.count.saturating_add(1);
        self.channels[place(record.beat.letter)] = true;
    }

    /// Writes the sentence on several lines.
    pub fn put(&self, out: &mut TextBuf, walk: &Walk) {
        out.say(
            "lines # to #, # beats: not offered",
            &[
                Number(self.record.line),
                Number(self.last),
                Number(self.count),
            ],
        );
        for letter in LETTERS {
            if self.channels[place(*letter)] {
                out.say(", # since ", &[Letter(*letter)]);
                walk.channel_of(*letter).put_stop(out);
            }
        }
    }
}

impl LineFilter {
    /// Returns whether the line with this record is shown.
    pub fn shows(&self, record: &LineRecord) -> bool {
        let (line, beat) = (record.line, &record.beat);
        let is_of_source = match self.source {
            Some(wanted) => beat.letter != b'E' && beat.source == wanted,
            None => true,
        };
        is_of_source
            && self.from.unwrap_or(0) <= line
            && line <= self.to.unwrap_or(u64::MAX)
            && self.channel.unwrap_or(beat.letter) == beat.letter
            && (record.is_problem() || !self.only_problems)
    }
}
