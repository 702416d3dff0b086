//! Pictures of lanes.
use crate::lane_list::{has_lane, lanes_of};
use crate::record::BeatRecord;
use tl_lanes::Mask;
use tl_text::Piece::{Byte, Text};
use tl_text::{BeatFields, Piece, TextBuf};

/// The number of lanes in a row.
pub const ROW: usize = 16;

/// The most lanes of a bus whose numbers have at most two digits.
const TWO_DIGITS: usize = 100;

/// The contents of a lane.
#[derive(Clone, Copy)]
pub enum Cell {
    /// It is not active.
    Idle,
    /// It is not active, but the mask has it.
    Wrong,
    /// It is active, but the mask does not have it.
    Masked,
    /// It is active, and the message carries no data.
    Empty,
    Byte(u8),
}

/// The lanes of a beat.
#[derive(Clone, Copy)]
pub struct Picture<'a> {
    pub lanes: &'a [u8],
    /// The lanes with bytes of the message.
    active: Mask,
    /// The lanes whose bytes are written; all active ones on a channel without masks.
    mask: Mask,
    /// The lanes, if the message carries data; otherwise empty.
    data: &'a [u8],
}

impl<'a> Picture<'a> {
    /// Returns the picture of a beat with these lanes, if it has a mask or data. `home` is the
    /// address that determines the lanes of the message's bytes, if it is known.
    pub fn of(beat: &BeatFields, lanes: &'a [u8], home: Option<u64>) -> Option<Picture<'a>> {
        let (is_masked, has_data) = (beat.is_masked(), beat.carries_data());
        if !is_masked && !has_data {
            return None;
        }
        let active = lanes_of(home?, beat.size, lanes.len())?;
        Some(Picture {
            lanes,
            active,
            mask: if is_masked { beat.mask } else { active },
            data: if has_data { lanes } else { &[] },
        })
    }

    /// Returns the contents of this lane.
    pub fn cell(&self, lane: usize) -> Cell {
        let (is_active, is_masked) = (has_lane(self.active, lane), has_lane(self.mask, lane));
        match (is_active, is_masked, self.data.get(lane)) {
            (false, false, _) => Cell::Idle,
            (false, true, _) => Cell::Wrong,
            (true, false, _) => Cell::Masked,
            (true, true, None) => Cell::Empty,
            (true, true, Some(byte)) => Cell::Byte(*byte),
        }
    }

    /// Returns the text for a lane:
    /// - its byte, or `##` if the message carries no data;
    /// - `--` if it is active but not in the mask;
    /// - `..` if it is not active;
    /// - `!!` if it is not active but in the mask.
    fn lane(&self, lane: usize) -> Piece<'static> {
        Text(match self.cell(lane) {
            Cell::Idle => "..",
            Cell::Wrong => "!!",
            Cell::Masked => "--",
            Cell::Empty => "##",
            Cell::Byte(byte) => return Byte(byte),
        })
    }

    /// Returns the spaces before a byte below the number of its lane. A lane's column is one wider
    /// than the number of digits of the last lane, and at least three.
    fn blanks(&self) -> &'static str {
        if self.lanes.len() <= TWO_DIGITS {
            " "
        } else {
            "  "
        }
    }

    /// Writes up to one row of lanes, from lane `from` on, highest first: their numbers, and below
    /// them their bytes.
    fn put_row(&self, out: &mut TextBuf, name: &str, from: usize) {
        let (blanks, to) = (self.blanks(), from.saturating_add(ROW));
        out.put_text("    lane");
        for lane in (from..to.min(self.lanes.len())).rev() {
            out.put_column(lane as u64, blanks.len().saturating_add(1));
        }
        out.put_text("\n    ");
        out.put_text(name);
        for lane in (from..to.min(self.lanes.len())).rev() {
            out.put_text(blanks);
            out.put(self.lane(lane));
        }
        out.put_text("\n");
    }
}

/// Writes the picture of a beat with these bytes on its lanes, highest first, in rows of 16. Writes
/// nothing if it has no mask and no data, or the lanes of its bytes are not known.
pub fn put_picture(out: &mut TextBuf, beat: &BeatRecord, lanes: &[u8]) {
    if let Some(picture) = Picture::of(&beat.fields, lanes, beat.home) {
        let name = if beat.is_far { "far " } else { "near" };
        for row in (0..lanes.len().div_ceil(ROW)).rev() {
            picture.put_row(out, name, row.saturating_mul(ROW));
        }
    }
}
