//! The record of a line, from which text, JSON and page are printed.
ghost use Rattle.std.specs.Prelude.{◌≤◌};

use crate::beat_outcome::BeatOutcome;
use crate::links::Links;
use tl_lanes::{MAX_SIZE, beat_bytes, is_width, lane};
use tl_text::BeatFields;

/// A part of a list: the items from index `from` up to, but not including, index `to`.
#[derive(Clone, Copy, Default)]
pub struct Span {
    pub from: usize,
    pub to: usize,
}

/// The facts about a line. The fields from `message` on are those of an accepted beat;
/// otherwise they are 0.
#[derive(Clone, Copy, Default)]
pub struct LineRecord {
    pub line: u64,
    /// The part of the text of times that has its time; empty if the time is not known.
    pub time: Span,
    pub beat: BeatFields,
    pub fate: BeatOutcome,
    /// The remarks on the line, a part of all remarks.
    pub remarks: Span,
    /// The address that determines the lanes of the message's bytes: its own, and on D that of its
    /// request. It is not known for a response that was not accepted.
    pub home: Option<u64>,
    /// The line of the first beat of its message, the number of the beat in the message, from 0, and
    /// the number of beats of the message.
    pub message: u64,
    pub index: u64,
    pub beats: u64,
    /// The messages that belong to its message.
    pub links: Links,
    /// The index, in its message, of its first byte.
    pub first_byte: usize,
    /// The number, on the channel, of the first far beat that it completed, and the number of far
    /// beats that it completed.
    pub far: u64,
    pub far_count: u64,
    /// The number of bytes of the next far beat so far, and the number that completes it.
    pub staged: usize,
    pub far_bytes: usize,
}

/// A near or a far beat of a line.
#[derive(Clone, Copy, Default)]
pub struct BeatRecord {
    pub is_far: bool,
    pub fields: BeatFields,
    /// The number of a far beat on its channel.
    pub number: u64,
    /// The line of the first beat of its message; 0 if it was not accepted.
    pub message: u64,
    pub home: Option<u64>,
    /// The index, in its message, of its first byte, the lane of that byte, and the number of bytes.
    pub first_byte: usize,
    pub first_lane: usize,
    pub bytes: usize,
}

/// Returns the number of bytes in a beat on a bus of `w` bytes. A beat without data counts as one
/// byte.
pub fn bytes_of(beat: &BeatFields, w: usize) -> usize
    ensures { 1 ≤ result }
{
    if beat.size > MAX_SIZE || !beat.carries_data() || !is_width(w) {
        return 1;
    }
    beat_bytes(beat.size, w).max(1)
}

impl LineRecord {
    /// Returns whether its beat was not accepted, or it has remarks.
    pub fn is_problem(&self) -> bool {
        !matches!(self.fate, BeatOutcome::Accepted) || self.remarks.from < self.remarks.to
    }

    /// Returns the line of the request of A to which the beat begins the response; 0 if there is
    /// none.
    pub fn answers(&self) -> u64 {
        if (self.index == 0) & self.beat.answers_request() {
            self.links.asked_in
        } else {
            0
        }
    }

    /// Returns a beat of the line with these fields, whose first byte has this index in its message,
    /// on a bus of `w` bytes.
    fn beat_with(&self, fields: &BeatFields, first_byte: usize, w: usize) -> BeatRecord {
        BeatRecord {
            is_far: false,
            fields: *fields,
            number: 0,
            message: self.message,
            home: self.home,
            first_byte,
            first_lane: if is_width(w) {
                lane(self.home.unwrap_or(0), first_byte, w)
            } else {
                0
            },
            bytes: 1usize.wrapping_shl(fields.size as u32).min(w),
        }
    }

    /// Returns its near beat, on a bus of `w` bytes.
    pub fn near_beat(&self, w: usize) -> BeatRecord {
        self.beat_with(&self.beat, self.first_byte, w)
    }

    /// Returns far beat `number`, from 0, of those that the near beat completed. It has these fields,
    /// on a bus of `w` bytes.
    pub fn far_beat(&self, number: usize, fields: &BeatFields, w: usize) -> BeatRecord {
        let before = self.first_byte / self.far_bytes.max(1);
        let first_byte = before.saturating_add(number).saturating_mul(self.far_bytes);
        BeatRecord {
            is_far: true,
            number: self.far.saturating_add(number as u64),
            ..self.beat_with(fields, first_byte, w)
        }
    }
}
