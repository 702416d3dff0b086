//! A beat with its lanes.
use crate::text::{ascii, put_escaped};
use tl_explain::{BeatRecord, Cell, Drawn, PageModel, Picture, ROW};
use tl_text::Piece::{Byte, Number, Text};
use tl_text::TextBuf;

/// The number of lanes in a row of a narrow column.
const NARROW_ROW: usize = 8;

/// Writes a lane.
fn put_cell(out: &mut TextBuf, cell: Cell) {
    match cell {
        Cell::Byte(byte) => {
            out.put_text("<td>");
            out.put(Byte(byte));
            out.put_text("</td>");
        }
        Cell::Idle => out.put_text("<td class=\"idle\"></td>"),
        Cell::Wrong => out.put_text("<td class=\"wrong\">!!</td>"),
        Cell::Masked => out.put_text("<td class=\"masked\">--</td>"),
        Cell::Empty => out.put_text("<td class=\"empty\"></td>"),
    }
}

/// Writes the lanes of a picture, highest first. The style breaks them into rows.
fn put_cells(out: &mut TextBuf, picture: &Picture<'_>) {
    let width = picture.lanes.len();
    for back in 0..width {
        put_cell(out, picture.cell(width - 1 - back));
    }
}

/// Writes which bytes of its message a beat has: the index of the first byte, its lane, and the
/// number of bytes.
fn put_bytes(out: &mut TextBuf, beat: &BeatRecord) {
    out.say(
        " data-message=\"#\" data-byte=\"#\" data-lane=\"#\" data-count=\"#\"",
        &[
            Number(beat.message),
            Number(beat.first_byte as u64),
            Number(beat.first_lane as u64),
            Number(beat.bytes as u64),
        ],
    );
}

/// Ends the tag of a table with its number of lanes, and the number of lanes in a row of a narrow
/// column and of a wide one.
fn put_row_style(out: &mut TextBuf, width: usize) {
    let (narrow, wide) = (width.min(NARROW_ROW), width.min(ROW));
    out.say(
        " style=\"--width:#;--row:#;--wide:#\"><tbody><tr>",
        &[
            Number(width as u64),
            Number(narrow as u64),
            Number(wide as u64),
        ],
    );
}

/// Writes the lanes of a beat, if it has any to show.
fn put_lanes(out: &mut TextBuf, scene: &PageModel, drawn: &Drawn) {
    let Some(picture) = scene.picture(drawn) else {
        return;
    };
    out.put_text("<table");
    if drawn.beat.message != 0 {
        put_bytes(out, &drawn.beat);
    }
    put_row_style(out, picture.lanes.len());
    put_cells(out, &picture);
    out.put_text("</tr></tbody></table>");
}

/// Writes a beat: its line, and its lanes if it has any to show.
pub fn put_beat(out: &mut TextBuf, scene: &PageModel, drawn: &Drawn) {
    let side = Text(if drawn.beat.is_far { "far" } else { "near" });
    out.say(
        "<figure class=\"#\"><figcaption><span>#</span> <code>",
        &[side, side],
    );
    put_escaped(out, ascii(scene.text(drawn)));
    out.put_text("</code>");
    if drawn.beat.fields.corrupt {
        out.put_text(" <em>corrupt</em>");
    }
    out.put_text("</figcaption>");
    put_lanes(out, scene, drawn);
    out.put_text("</figure>");
}
