//! The functions that move the bytes of a near beat with data into far beats.

ghost use Rattle.std.specs.Prelude.{◌≡◌, ◌≤◌, ◌<◌, ◌+◌, ◌/◌, [], min};
ghost use Rattle.tl_lanes.specs.declared.limits.TheConstants.{MAX_SIZE, WIDEST};
ghost use Rattle.tl_lanes.specs.Lanes.{IsWidth, bytes_per_beat};
ghost use Rattle.tl_msg.specs.declared.beat.BeatOf.{BeatOf};
ghost use Rattle.tl_burst.specs.Messages.{Message, per_beat};
ghost use Rattle.tl_convert.specs.Inner.Pouring.{Poured, Source, Pours, IsBlank, CanPour};

use arrayvec::ArrayVec;
use tl_lanes::{WIDEST, beat_bytes, beats_filled, move_lanes, move_mask};
use tl_msg::{Beat, Channel};

// Adds `count` bytes of a near beat, the first of which has address `at`, to a far beat, with their
// mask bits and the corrupt bit.
pub(crate) fn add_bytes<K: Channel, const W: usize, const V: usize>(
    beat: &Beat<K, W>,
    far: &mut Beat<K, V>,
    at: u64,
    count: usize,
)
    requires { IsWidth W × IsWidth V × (count ≤ W) × (count ≤ V) }
    ensures { Poured K.rules.masked beat.now far.old far.new at count }
{
    move_lanes::<W, V>(&beat.lanes, &mut far.lanes, at, count);
    if K::MASKED {
        far.mask = move_mask(beat.mask, W, far.mask, V, at, count);
    }
    far.corrupt |= beat.corrupt;
}

// Returns a far beat without bytes.
pub(crate) fn blank<K: Channel, const V: usize>(head: K::Head) -> Beat<K, V>
    ensures { IsBlank head result }
{
    Beat::<K, V> {
        head,
        mask: 0,
        lanes: [0; V],
        corrupt: false,
    }
}

// Returns how many bytes of a message of this size are moved at once: as many as the narrower of
// the two beats carries.
fn bytes_on_both<const W: usize, const V: usize>(size: u8) -> usize
    requires { IsWidth W × IsWidth V × (size ≤ MAX_SIZE) }
    ensures bytes { result ≡ min (bytes_per_beat size W) (bytes_per_beat size V) }
    ensures near { result ≤ W }
    ensures far { result ≤ V }
{
    beat_bytes(size, W).min(beat_bytes(size, V))
}

// Returns the number of far beats that a near beat fills, if a far beat carries no more bytes than
// a near one. The number is 1, known at compile time, if the far bus is at least as wide as the
// near one.
fn whole_beats<const W: usize, const V: usize>(size: u8) -> usize
    requires { IsWidth W × IsWidth V × (size ≤ MAX_SIZE) }
    ensures count { bytes_per_beat size V ≤ bytes_per_beat size W →
        result ≡ bytes_per_beat size W / bytes_per_beat size V }
    ensures few { result ≤ WIDEST }
{
    if W <= V {
        1
    } else {
        beats_filled(beat_bytes(size, W), size, V)
    }
}

// Moves the bytes of a near beat with data into far beats, all of which become whole, because a far
// beat carries no more bytes than a near one. `first` is the number of the beat's first byte in its
// message. No far beat is begun, so `partial` is blank. Each far beat begins as a copy of `partial`
// in `out` and is filled there, because a beat that was written in small pieces is slow to copy.
pub(crate) fn pour_whole<K: Channel, const W: usize, const V: usize>(
    beat: &Beat<K, W>,
    partial: &Beat<K, V>,
    home: u64,
    first: usize,
    out: &mut ArrayVec<Beat<K, V>, WIDEST>,
)
    requires { CanPour K.rules beat.now first out.old.items }
    ensures { per_beat K.rules beat.now.head V ≤ per_beat K.rules beat.now.head W →
        (m : Message K.Head) → Source K.rules m home first beat.now →
        Pours K.rules m V first first partial.now [] →
        Pours K.rules m V first (first + per_beat K.rules m.head W) partial.now out.new.items }
{
    let size = K::size(&beat.head);
    let wide = bytes_on_both::<W, V>(size);
    let count = whole_beats::<W, V>(size);
    for t in 0..count {
        let done = first + t * wide;
        out.push(*partial);
        let far = &mut out.as_mut_slice()[t];
        add_bytes::<K, W, V>(beat, far, home.wrapping_add(done as u64), wide);
    }
}

// Adds the bytes of a near beat with data to `partial`, the far beat that earlier beats have begun:
// a far beat carries more bytes than a near one. `first` is the number of the beat's first byte in
// its message. A far beat that becomes whole is moved to `out`.
pub(crate) fn pour_part<K: Channel, const W: usize, const V: usize>(
    beat: &Beat<K, W>,
    partial: &mut Beat<K, V>,
    home: u64,
    first: usize,
    out: &mut ArrayVec<Beat<K, V>, WIDEST>,
)
    requires { CanPour K.rules beat.now first out.old.items }
    ensures { per_beat K.rules beat.now.head W < per_beat K.rules beat.now.head V →
        (m : Message K.Head) → Source K.rules m home first beat.now →
        Pours K.rules m V first first partial.old [] →
        Pours K.rules m V first (first + per_beat K.rules m.head W) partial.new out.new.items }
{
    let size = K::size(&beat.head);
    let near = bytes_on_both::<W, V>(size);
    let at = home.wrapping_add(first as u64);
    // the bytes per beat are a power of two, so this is the remainder of a division by them
    if (first + near) & (beat_bytes(size, V) - 1) != 0 {
        add_bytes::<K, W, V>(beat, partial, at, near);
        return;
    }
    out.push(*partial);
    let far = &mut out.as_mut_slice()[0];
    add_bytes::<K, W, V>(beat, far, at, near);
    *partial = blank::<K, V>(beat.head);
}
