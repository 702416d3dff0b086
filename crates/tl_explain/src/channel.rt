//! The lines of a channel: the record of each, with the far beats that its beat completed.
ghost use Rattle.std.specs.Prelude.{◌≡◌, true};
ghost use Rattle.tl_lanes.specs.Lanes.{IsWidth};

use crate::beat_outcome::BeatOutcome;
use crate::record::LineRecord;
use crate::story::Story;
use arrayvec::ArrayVec;
use std::slice;
use tl_convert::Converter;
use tl_lanes::{WIDEST, is_width};
use tl_msg::{Beat, Channel};
use tl_text::{Describe, beat_fields_of};
use tl_trace::write_far;

/// Returns whether both are widths.
fn are_widths(w: usize, v: usize) -> bool
    ensures { result ≡ true → IsWidth w × IsWidth v }
{
    is_width(w) && is_width(v)
}

/// Replaces the contents of `far` by the far beats that an accepted near beat completes. Returns the
/// number of the near beat in its message, from 0.
fn feed<K: Channel, const W: usize, const V: usize>(
    converter: &mut Converter<K, W, V>,
    beat: &Beat<K, W>,
    home: u64,
    far: &mut ArrayVec<Beat<K, V>, WIDEST>,
) -> u32
    // (one clause, because the checker proves each clause separately at each call)
    requires { IsWidth W × IsWidth V }
{
    far.clear();
    let Ok(place) = converter.check(beat) else {
        return 0;
    };
    let index = place.index;
    converter.feed_at(beat, place, home, far);
    index
}

/// Does the same as [`feed`] if both are widths. This is a test, because a clause would have to be
/// proved at each call.
#[inline(never)]
fn pass<K: Channel, const W: usize, const V: usize>(
    converter: &mut Converter<K, W, V>,
    beat: &Beat<K, W>,
    home: u64,
    far: &mut ArrayVec<Beat<K, V>, WIDEST>,
) -> u32 {
    if are_widths(W, V) {
        feed::<K, W, V>(converter, beat, home, far)
    } else {
        0
    }
}

/// Keeps the lines of these beats instead of those kept before.
fn keep_lines<K: Describe, const W: usize>(story: &mut Story, beats: &[Beat<K, W>]) {
    let version = story.walk.version;
    story.lines.clear();
    // (tested here as well)
    let are_kept = is_width(W) && write_far::<K, W>(&mut story.lines, beats, version).is_ok();
    story.page.out_of_memory |= !are_kept;
    story.line_length = story.lines.len() / beats.len().max(1);
}

/// Adds the beats of a line: the near beat, and the far beats that it completed.
fn put_beats<K: Describe, const W: usize, const V: usize>(
    story: &mut Story,
    record: &LineRecord,
    beat: &Beat<K, W>,
    far: &[Beat<K, V>],
) {
    let has_lanes = story.has_lanes();
    if has_lanes {
        if story.look.format.is_page() {
            keep_lines::<K, W>(story, slice::from_ref(beat));
        }
        story.put_beat(record, &record.near_beat(W), &beat.lanes, 0);
    }
    if far.is_empty() {
        return;
    }
    keep_lines::<K, V>(story, far);
    for number in 0..far.len() {
        let beat = &far[number];
        if has_lanes {
            let fields = beat_fields_of::<K, V>(beat, story.walk.version);
            let far_beat = record.far_beat(number, &fields, V);
            story.put_beat(record, &far_beat, &beat.lanes, number);
        } else {
            story.put_far_line(number);
        }
    }
}

/// Makes the record of the next line, which has the next of these beats of a channel, and adds it to
/// the output. The channel's converter makes the far beats that the beat completes; `far` holds
/// them.
#[inline(never)]
pub fn tell<K: Describe, const W: usize, const V: usize>(
    story: &mut Story,
    beats: &[Beat<K, W>],
    converter: &mut Converter<K, W, V>,
    far: &mut ArrayVec<Beat<K, V>, WIDEST>,
) {
    let Some(beat) = beats.get(story.walk.channel_of(K::LETTER).near) else {
        return;
    };
    let fields = beat_fields_of::<K, W>(beat, story.walk.version);
    let mut record = story.walk.next_record(&fields);
    far.clear();
    if let BeatOutcome::Accepted = record.fate {
        let index = pass::<K, W, V>(converter, beat, record.home.unwrap_or(0), far);
        story.walk.accept(&mut record, index, far.len());
    }
    if story.begin_shown(&record) {
        put_beats::<K, W, V>(story, &record, beat, far.as_slice());
        story.end_shown(&record);
    }
}
