//! The far beats that a near beat completes.

ghost use Rattle.std.specs.Prelude.{◌≡◌, ◌≤◌, ◌<◌, ◌*◌, ◌%◌, ◌^◌, List, [], true, false};
ghost use Rattle.tl_lanes.specs.declared.limits.TheConstants.{MAX_SIZE};
ghost use Rattle.tl_lanes.specs.Lanes.{IsWidth};
ghost use Rattle.tl_msg.specs.declared.beat.BeatOf.{BeatOf};
ghost use Rattle.tl_burst.specs.Messages.{layout, per_beat};
ghost use Rattle.tl_convert.specs.Inner.Giving.{Run, Given, GivenData, CanGive, of_head};

use crate::pouring::{blank, pour_part, pour_whole};
use arrayvec::ArrayVec;
use tl_lanes::{WIDEST, active, beat_bytes};
use tl_msg::{Beat, Channel};

// Returns the number, within its message, of the first byte of a near beat, before which `index`
// beats of the message came.
fn first_byte<K: Channel, const W: usize>(head: &K::Head, index: u32) -> usize
    requires { IsWidth W × (K.rules.size head.now ≤ MAX_SIZE) }
    ensures is { result ≡ index * per_beat K.rules head.now W }
    ensures whole { result % per_beat K.rules head.now W ≡ 0 }
    ensures room { result < 2 ^ 40 }
{
    index as usize * beat_bytes(K::size(head), W)
}

// Writes the far beats that a near beat with data completes, before which `index` beats of its
// message came.
fn give_data<K: Channel, const W: usize, const V: usize>(
    beat: &Beat<K, W>,
    partial: &mut Beat<K, V>,
    home: u64,
    index: u32,
    out: &mut ArrayVec<Beat<K, V>, WIDEST>,
)
    requires { CanGive K.rules beat.now out.old.items }
    ensures { K.rules.carries beat.now.head ≡ true → (bs : List (BeatOf K.Head W)) →
        Run K.rules index home beat.now partial.old bs →
        GivenData K.rules home beat.now partial.new bs out.new.items }
{
    if index == 0 {
        *partial = blank::<K, V>(beat.head);
    }
    let size = K::size(&beat.head);
    let near = beat_bytes(size, W);
    let first = first_byte::<K, W>(&beat.head, index);
    if beat_bytes(size, V) <= near {
        pour_whole::<K, W, V>(beat, partial, home, first, out);
    } else {
        pour_part::<K, W, V>(beat, partial, home, first, out);
    }
}

// Writes the far beat of a message without data.
fn give_head<K: Channel, const V: usize>(
    head: K::Head,
    home: u64,
    out: &mut ArrayVec<Beat<K, V>, WIDEST>,
)
    requires { IsWidth V × (K.rules.size head ≤ MAX_SIZE) × (out.old.items ≡ []) }
    ensures { K.rules.carries head ≡ false → out.new.items ≡ layout K.rules (of_head head home) V }
{
    let mut beat = blank::<K, V>(head);
    if K::MASKED {
        beat.mask = active(home, K::size(&head), V);
    }
    out.push(beat);
}

// Writes the far beats that a near beat completes, before which `index` beats of its message came.
// `partial` is the far beat that they have begun.
pub(crate) fn give<K: Channel, const W: usize, const V: usize>(
    beat: &Beat<K, W>,
    partial: &mut Beat<K, V>,
    home: u64,
    index: u32,
    out: &mut ArrayVec<Beat<K, V>, WIDEST>,
)
    requires { CanGive K.rules beat.now out.old.items }
    ensures { (bs : List (BeatOf K.Head W)) → Run K.rules index home beat.now partial.old bs →
        Given K.rules home beat.now partial.new bs out.new.items }
{
    if K::carries_data(&beat.head) {
        give_data::<K, W, V>(beat, partial, home, index, out);
    } else {
        give_head::<K, V>(beat.head, home, out);
    }
}
