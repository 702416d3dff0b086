//! The output on the lines of a text, in sentences or as JSON; or what a page shows of them.
use crate::beat_outcome::BeatOutcome;
use crate::blocks::BLOCK_CAPACITY;
use crate::display_options::{DisplayOptions, Format};
use crate::entry::Entry;
use crate::json::{begin_object, put_json_beat, put_json_remarks, put_summary};
use crate::page_model::Kept;
use crate::picture::put_picture;
use crate::record::{BeatRecord, LineRecord};
use crate::sentences::{put_cuts, put_remarks, put_sentence};
use crate::walk::Walk;
use std::alloc::{AllocError, Global};
use tl_lanes::WIDEST;
use tl_text::TextBuf;
use tl_trace::LONGEST_LINE;

/// Returns the line with this number, from 0, of lines that all have this length.
fn line_in(lines: &[u8], length: usize, number: usize) -> &[u8] {
    let from = number.saturating_mul(length);
    lines.get(from..from.saturating_add(length)).unwrap_or(&[])
}

/// The output on the lines of a text, which is made line by line.
#[derive(Drop)]
pub struct Story {
    pub walk: Walk,
    pub look: DisplayOptions,
    /// The output that is not written yet.
    pub page: TextBuf,
    /// The last lines whose beats were not offered, or for a page the last line that is shown, and the
    /// position of their sentence in the output.
    pub entry: Entry,
    from: usize,
    /// The texts of beats, as lines of a trace. All have the same length.
    pub lines: Vec<u8>,
    pub line_length: usize,
    /// What a page shows.
    pub kept: Kept,
}

impl Story {
    /// Returns the story before the first line. All memory that it needs is allocated here, except
    /// for a page. Errors: `AllocError` if the allocator fails.
    #[inline(never)]
    pub fn new(alloc: Global, walk: Walk, look: &DisplayOptions) -> Result<Story, AllocError> {
        let mut story = Story {
            walk,
            look: *look,
            page: TextBuf::new(alloc, look.colour),
            entry: Entry::default(),
            from: 0,
            lines: Vec::new(alloc),
            line_length: 0,
            kept: Kept::new(alloc),
        };
        if !look.format.is_page() {
            story.page.text.reserve(BLOCK_CAPACITY)?;
            story.lines.reserve(WIDEST * LONGEST_LINE)?;
        }
        Ok(story)
    }

    /// Begins the output on a line that is shown. Returns whether its beats are shown: not if it is
    /// one of several lines whose beats were not offered.
    fn begin(&mut self, record: &LineRecord) -> bool {
        if let Format::Json = self.look.format {
            begin_object(&mut self.page, &self.walk, record);
            return true;
        }
        if self.entry.takes(record) {
            self.page.text.truncate(self.from);
            self.entry.add(record);
            return false;
        }
        self.end_entry();
        let is_page = self.look.format.is_page();
        if is_page || matches!(record.fate, BeatOutcome::NotOffered) {
            self.entry.add(record);
            self.entry.beats.from = self.kept.len();
            self.from = self.page.text.len();
        }
        if !is_page {
            put_sentence(&mut self.page, &self.walk, record);
            self.page.put_text("\n");
        }
        true
    }

    /// Begins the output on a line, if it is shown. Returns whether its beats are shown.
    pub fn begin_shown(&mut self, record: &LineRecord) -> bool {
        self.look.choice.shows(record) && self.begin(record)
    }

    /// Ends the last entry. Several lines whose beats were not offered have one sentence, which is
    /// written after the last one.
    fn end_entry(&mut self) {
        if self.entry.count == 0 {
            return;
        }
        if self.look.format.is_page() {
            self.kept.add_entry(&self.entry);
        } else if self.entry.count > 1 {
            self.entry.put(&mut self.page, &self.walk);
            self.page.put_text("\n");
        }
        self.entry = Entry::default();
    }

    /// Returns whether the lanes of beats are part of the output.
    pub fn has_lanes(&self) -> bool {
        self.look.lanes || !matches!(self.look.format, Format::Text)
    }

    /// Adds the text of a far beat: line `number`, from 0, of `lines`.
    pub fn put_far_line(&mut self, number: usize) {
        self.page.put_text("    ");
        self.page
            .put_bytes(line_in(&self.lines, self.line_length, number));
    }

    /// Adds a beat of a line, with these lanes. Its text is line `number`, from 0, of `lines`.
    pub fn put_beat(
        &mut self,
        record: &LineRecord,
        beat: &BeatRecord,
        lanes: &[u8],
        number: usize,
    ) {
        let text = line_in(&self.lines, self.line_length, number);
        match self.look.format {
            Format::Text => {}
            Format::Json => return put_json_beat(&mut self.page, record, beat, lanes, text),
            Format::Page => return self.kept.add_beat(beat, lanes, text),
        }
        if beat.is_far {
            self.put_far_line(number);
        }
        if self.look.lanes {
            put_picture(&mut self.page, beat, lanes);
        }
    }

    /// Ends the output on a line whose beats are shown: adds the remarks.
    pub fn end_shown(&mut self, record: &LineRecord) {
        match self.look.format {
            Format::Text => put_remarks(&mut self.page, &self.walk, record, "    ", "\n"),
            Format::Json => put_json_remarks(&mut self.page, &self.walk, record),
            Format::Page => {}
        }
    }

    /// Adds the text after the last line.
    #[inline(never)]
    pub fn end(&mut self) {
        self.end_entry();
        match self.look.format {
            Format::Text => put_cuts(&mut self.page, &self.walk, "", "\n"),
            Format::Json => put_summary(&mut self.page, &self.walk),
            Format::Page => {}
        }
    }
}
