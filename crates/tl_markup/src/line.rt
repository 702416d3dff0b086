//! A line of a trace, from its record.
use crate::beat::put_beat;
use tl_explain::{
    Entry, PageModel, put_fate, put_fields, put_name, put_place, put_remarks, put_sentence,
};
use tl_remarks::put_remark;
use tl_text::TextBuf;

/// Writes the heading of a line: its beat, the line, and the beat's fields. The heading of a message
/// is that of its first line, with its last line, which is otherwise 0.
pub fn put_heading(out: &mut TextBuf, scene: &PageModel, entry: &Entry, last: u64) {
    out.put_text("<h3>");
    put_name(out, &entry.record.beat);
    out.put_text(" <small>");
    put_place(out, &scene.walk, &entry.record, last);
    out.put_text("</small></h3> <span class=\"fields\">");
    put_fields(out, &entry.record);
    out.put_text("</span>");
}

/// Writes what happened to a line's beat, and the line in which the response to the message that it
/// begins begins, if the page shows that.
fn put_outcome(out: &mut TextBuf, scene: &PageModel, entry: &Entry) {
    out.put_text("<p class=\"came\">");
    put_fate(out, &scene.walk, &entry.record);
    let answered_in = scene.links(entry.record.line).answered_in;
    if out.is_shown(answered_in) {
        out.put_text(", answered in ");
        out.put_line(answered_in);
    }
    out.put_text("</p>");
}

/// Writes a line after its heading: what happened to its beat, its beats, and the remarks on it.
pub fn put_body(out: &mut TextBuf, scene: &PageModel, entry: &Entry) {
    put_outcome(out, scene, entry);
    for drawn in scene.beats(entry) {
        put_beat(out, scene, drawn);
    }
    let begin = "<p class=\"remark\">";
    put_remarks(out, &scene.walk, &entry.record, begin, "</p>");
}

/// Writes the fault of a line and the remarks on it, each as an item of a list. Returns the number
/// of items.
pub fn put_problems_of(out: &mut TextBuf, scene: &PageModel, entry: &Entry) -> usize {
    let mut count = 0usize;
    if entry.record.is_fault() {
        out.put_text("<li>");
        put_sentence(out, &scene.walk, &entry.record);
        out.put_text("</li>");
        count = 1;
    }
    for remark in scene.remarks(entry) {
        out.put_text("<li>");
        out.put_line(entry.record.line);
        out.put_text(", ");
        put_remark(out, remark, scene.walk.version);
        out.put_text("</li>");
        count = count.saturating_add(1);
    }
    count
}
