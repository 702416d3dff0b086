//! The parts of a page on the whole trace.
use crate::line::put_problems_of;
use crate::overview::put_overview;
use crate::text::{ascii, put_escaped};
use tl_explain::{PageModel, Position};
use tl_msg::Verdict;
use tl_text::Piece::{Letter, Number, Text};
use tl_text::TextBuf;

/// Returns the direction of the beats of the channel with this letter.
fn way_of(letter: u8) -> &'static str {
    match letter {
        b'B' | b'D' => "manager to client",
        _ => "client to manager",
    }
}

/// Returns whether a channel has a line on the page, by itself.
fn has_line(scene: &PageModel, channel: &Position) -> bool {
    for entry in scene.entries() {
        if (entry.count == 1) & (entry.record.beat.letter == channel.letter) {
            return true;
        }
    }
    false
}

/// Writes the column of each channel that has a line.
pub fn put_columns(out: &mut TextBuf, scene: &PageModel) {
    let mut count = 0u64;
    out.put_text("<main style=\"");
    for channel in &scene.walk.channels {
        if has_line(scene, channel) {
            count = count.saturating_add(1);
            out.say("--#:#;", &[Letter(channel.letter), Number(count)]);
        }
    }
    out.say("--count:#\">", &[Number(count.max(1))]);
}

/// Writes the verdict of a channel, as in an answer.
fn put_verdict(out: &mut TextBuf, verdict: &Verdict) {
    match *verdict {
        Verdict::Done { near, far } => out.say("done # #", &[Number(near), Number(far)]),
        Verdict::Cut { near, far } => out.say("cut # #", &[Number(near), Number(far)]),
        Verdict::Refused { at, fault } => {
            out.say("refused # #", &[Number(at), Text(fault.name())]);
        }
        Verdict::Waiting { at, fault } => {
            out.say("waiting # #", &[Number(at), Text(fault.name())]);
        }
    }
}

/// Writes the heads of the channels that have a line: the direction and the verdict of each.
pub fn put_heads(out: &mut TextBuf, scene: &PageModel) {
    out.put_text("<div class=\"heads row\">");
    for channel in &scene.walk.channels {
        if has_line(scene, channel) {
            let letter = Letter(channel.letter);
            out.say(
                "<h2 class=\"#\"># <small>#, ",
                &[letter, letter, Text(way_of(channel.letter))],
            );
            put_verdict(out, &channel.verdict);
            out.put_text("</small></h2>");
        }
    }
    out.put_text("</div>");
}

/// Writes the sentences on the whole trace, and its answer.
pub fn put_answer(out: &mut TextBuf, scene: &PageModel) {
    out.put_text("<header><h1>What happened to each beat</h1><p class=\"overview\">");
    put_overview(out, scene);
    out.put_text("</p><pre class=\"answer\">");
    put_escaped(out, ascii(&scene.answer.text));
    out.put_text("</pre></header>");
}

/// The number of faults and remarks after which their list ends.
const MOST_LISTED: usize = 200;

/// Writes a list of the faults and remarks of all lines, or that there are none. A list ends after
/// the line with which it reaches `MOST_LISTED` items, and then says that there may be others.
pub fn put_problems(out: &mut TextBuf, scene: &PageModel) {
    let mut count = 0usize;
    out.put_text("<nav class=\"problems\"><h2>Faults and remarks</h2><ul>");
    for entry in scene.entries() {
        if count < MOST_LISTED {
            count = count.saturating_add(put_problems_of(out, scene, entry));
        }
    }
    out.put_text(match count {
        0 => "<li>none</li></ul></nav>",
        MOST_LISTED.. => "<li>and perhaps others below</li></ul></nav>",
        _ => "</ul></nav>",
    });
}
