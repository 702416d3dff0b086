//! The contents of a page: the records of the lines that are shown, and their beats.
ghost use Rattle.std.specs.Io.KnownBytes.{Keeps};
ghost use Rattle.std.specs.Prelude.{◌≡◌, ◌≤◌, true, length, IfOk, OnOk, IfErr};
ghost use Rattle.tl_answer.specs.Texts.{IsAnswer};
ghost use Rattle.tl_stream.specs.Inputs.{most_bytes};
ghost use Rattle.tl_explain.specs.Explained.{IsUntold};

use crate::beat_outcome::BeatOutcome;
use crate::display_options::{DisplayOptions, Format};
use crate::entry::Entry;
use crate::explain::{Explanation, explanation_of};
use crate::links::{Links, index_of, links_at};
use crate::picture::Picture;
use crate::record::{BeatRecord, LineRecord, Span};
use crate::walk::Walk;
use std::alloc::{AllocError, Global};
use std::io::Write;
use tl_answer::{Answer, TextFault};
use tl_remarks::Remark;

/// A beat on a page, with the positions of its lanes and of its text in the bytes of all beats.
#[derive(Clone, Copy, Default)]
pub struct Drawn {
    pub beat: BeatRecord,
    lanes: Span,
    text: Span,
}

/// The contents of a page: the lines that it shows, their beats, and the bytes of the beats. Each
/// near beat comes before the far beats that it completed.
#[derive(Drop)]
pub struct Kept {
    entries: Vec<Entry>,
    beats: Vec<Drawn>,
    bytes: Vec<u8>,
    out_of_memory: bool,
}

impl Kept {
    /// Returns an empty value.
    pub fn new(alloc: Global) -> Kept {
        Kept {
            entries: Vec::new(alloc),
            beats: Vec::new(alloc),
            bytes: Vec::new(alloc),
            out_of_memory: false,
        }
    }

    /// Returns the number of beats.
    pub fn len(&self) -> usize {
        self.beats.len()
    }

    /// Adds these bytes. Returns their position.
    fn add_bytes(&mut self, bytes: &[u8]) -> Span {
        let from = self.bytes.len();
        self.out_of_memory |= self.bytes.extend_from_slice(bytes).is_err();
        Span {
            from,
            to: self.bytes.len(),
        }
    }

    /// Adds a beat with these lanes and this text, which ends with an LF.
    pub fn add_beat(&mut self, beat: &BeatRecord, lanes: &[u8], text: &[u8]) {
        let drawn = Drawn {
            beat: *beat,
            lanes: self.add_bytes(lanes),
            text: self.add_bytes(text.trim_ascii_end()),
        };
        self.out_of_memory |= self.beats.push(drawn).is_err();
    }

    /// Adds an entry, whose beats are those that were added last. Does nothing if the entry has no
    /// lines.
    pub fn add_entry(&mut self, entry: &Entry) {
        if entry.count > 0 {
            let mut entry = *entry;
            entry.beats.to = self.beats.len();
            self.out_of_memory |= self.entries.push(entry).is_err();
        }
    }
}

/// The largest number of messages in an exchange: a request, its response, and the acknowledgement
/// of that.
const LONGEST_EXCHANGE: usize = 3;

/// Returns the number of the exchange of the message that begins in this line, from 1 in the order
/// of first lines; 0 if there is none.
pub fn exchange_of(links: &[Links], line: u64) -> u64 {
    let mut first = links_at(links, line);
    for _ in 1..LONGEST_EXCHANGE {
        if first.asked_in != 0 {
            first = links_at(links, first.asked_in);
        }
    }
    first.exchange
}

impl LineRecord {
    /// Returns whether its channel stops at the beat, which breaks a rule or waits.
    pub fn is_fault(&self) -> bool {
        matches!(self.fate, BeatOutcome::Refused(_) | BeatOutcome::Waiting(_))
    }
}

/// The contents of a page on a trace.
#[derive(Drop)]
pub struct PageModel {
    /// The facts about all lines.
    pub walk: Walk,
    /// Whether remarks were requested.
    pub has_remarks: bool,
    kept: Kept,
    /// The answer of a check.
    pub answer: Answer,
}

impl PageModel {
    /// Returns the lines that are shown, in their order.
    pub fn entries(&self) -> &[Entry] {
        &self.kept.entries
    }

    /// Returns the beats of an entry.
    pub fn beats(&self, entry: &Entry) -> &[Drawn] {
        let Span { from, to } = entry.beats;
        self.kept.beats.get(from..to).unwrap_or(&[])
    }

    /// Returns the remarks on an entry.
    pub fn remarks(&self, entry: &Entry) -> &[Remark] {
        self.walk.remarks_at(&entry.record)
    }

    /// Returns the bytes at this position.
    fn bytes(&self, place: Span) -> &[u8] {
        self.kept.bytes.get(place.from..place.to).unwrap_or(&[])
    }

    /// Returns the text of a beat.
    pub fn text(&self, drawn: &Drawn) -> &[u8] {
        self.bytes(drawn.text)
    }

    /// Returns the lanes of a beat, if it has a mask or data and the lanes of its bytes are known.
    pub fn picture(&self, drawn: &Drawn) -> Option<Picture<'_>> {
        Picture::of(&drawn.beat.fields, self.bytes(drawn.lanes), drawn.beat.home)
    }

    /// Returns the messages that belong to the one that begins in this line.
    pub fn links(&self, line: u64) -> Links {
        links_at(&self.walk.links, line)
    }

    /// Returns the number of the exchange of the message that begins in this line, from 1 in the
    /// order of first lines; 0 if there is none.
    pub fn exchange(&self, line: u64) -> u64 {
        exchange_of(&self.walk.links, line)
    }

    /// Returns for each line from line 2 on whether the page shows it, by itself or as the first of
    /// several. Errors: `AllocError` if the allocator fails.
    pub fn shown(&self, alloc: Global) -> Result<Vec<bool>, AllocError> {
        let mut shown = vec![in alloc; false; self.walk.lines()]?;
        for entry in &self.kept.entries {
            if let Some(line) = shown.get_mut(index_of(entry.record.line)) {
                *line = true;
            }
        }
        Ok(shown)
    }
}

/// Returns the contents of a page on a text that was explained completely. Errors: `AllocError` if
/// the allocator failed for a part of it.
fn model_with(telling: Explanation) -> Result<PageModel, AllocError>
    ensures { IfOk result (λ made. made.answer ≡ telling.answer) }
{
    let Explanation { story, answer } = telling;
    if story.page.out_of_memory | story.kept.out_of_memory {
        return Err(AllocError);
    }
    Ok(PageModel {
        walk: story.walk,
        has_remarks: story.look.remarks,
        kept: story.kept,
        answer,
    })
}

/// Returns the contents of a page on a text: the records of the lines that are shown, the beats with
/// their lanes, and the answer of `tlbridge check`. Writes nothing. `times` has the time of each
/// beat, or is empty.
///
/// Errors: `Trace` with the text's first fault and its line, or `OutOfMemory`.
pub fn page_model_of<W: Write>(
    alloc: Global,
    text: &[u8],
    look: &DisplayOptions,
    times: &[u8],
    writer: &mut W,
) -> Result<PageModel, TextFault>
    requires few { length text.now ≤ most_bytes }
    ensures ok { IfOk result (λ made.
        IsAnswer text.now true made.answer.text.items made.answer.all_done) }
    ensures out { OnOk result (Keeps (W.contents writer.old) (W.contents writer.new)) }
    ensures err { IfErr result
        (IsUntold true text.now (W.contents writer.old) (W.contents writer.new)) }
{
    let look = DisplayOptions {
        format: Format::Page,
        colour: false,
        ..*look
    };
    let telling = explanation_of::<W>(alloc, text, &look, times, writer)?;
    Ok(model_with(telling)?)
}
