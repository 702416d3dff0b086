ghost use Rattle.std.specs.Prelude.{◌≡◌, ◌≤◌, ◌^◌, ℕ, None, List, length};
ghost use Rattle.tl_lanes.specs.declared.limits.TheConstants.{MAX_SIZE, WIDEST};
ghost use Rattle.tl_lanes.specs.Lanes.{IsWidth};
ghost use Rattle.tl_convert.specs.Due.{due};
ghost use Rattle.tl_convert.specs.Accepted.{accepted_of};
ghost use Rattle.tl_convert.specs.Counting.{Gives};

use tl_burst::{Place, Tracker};
use tl_lanes::{beat_bytes, beats_filled};
use tl_msg::{Beat, Channel};

/// Returns the number of far beats that a near beat at this place completes, at most 128: those far
/// beats of its message whose last byte it carries. A message without data has one far beat.
///
/// `Tracker::check` returns the place; `far_count` adds these numbers over a list. Requires: `W`
/// and `V` are widths, and the size of the message is at most 12.
pub fn far_beats_at<K: Channel, const W: usize, const V: usize>(place: &Place<K>) -> usize
    requires near { IsWidth W }
    requires far { IsWidth V }
    requires small { K.rules.size place.now.head ≤ MAX_SIZE }
    ensures gives { Gives K.rules W V place.now.head place.now.index result }
    ensures few { result ≤ WIDEST }
{
    far_beats_between(place, W, V)
}

/// Returns the same number as [`far_beats_at`], between two widths that are arguments.
///
/// A program that has every pair of widths contains this function once for each channel.
pub fn far_beats_between<K: Channel>(place: &Place<K>, near: usize, far: usize) -> usize
    requires near { IsWidth near }
    requires far { IsWidth far }
    requires small { K.rules.size place.now.head ≤ MAX_SIZE }
    ensures gives { Gives K.rules near far place.now.head place.now.index result }
    ensures few { result ≤ WIDEST }
{
    if !K::carries_data(&place.head) {
        return 1;
    }
    let size = K::size(&place.head);
    let near_bytes = beat_bytes(size, near);
    let far_bytes = beat_bytes(size, far);
    if near_bytes >= far_bytes {
        return beats_filled(near_bytes, size, far);
    }
    let index = place.index as usize;
    let before = beats_filled(index * near_bytes, size, far);
    let after = beats_filled((index + 1) * near_bytes, size, far);
    after - before
}

/// Returns the number of far beats that a list of near beats completes, up to the first beat that
/// is refused.
///
/// The homes of the messages do not matter. `accepted_of` is the part of the list that is counted;
/// by `laws::accepted_is_longest` it is the longest first part that is handed. Requires: `W` and
/// `V` are widths, and the list has at most `2^40` beats.
pub fn far_count<K: Channel, const W: usize, const V: usize>(beats: &[Beat<K, W>]) -> usize
    requires near { IsWidth W }
    requires far { IsWidth V }
    requires few { length beats.now ≤ 2 ^ 40 }
    ensures { (homes : List ℕ) →
        result ≡ length (due K.rules W V (accepted_of K.rules beats.now) homes) }
{
    count_until_refused::<K, W>(Tracker::new(), beats, V)
}

// The same count, with a new tracker and with the far width as an argument.
#[inline(never)]
fn count_until_refused<K: Channel, const W: usize>(
    mut tracker: Tracker<K, W>,
    beats: &[Beat<K, W>],
    far: usize,
) -> usize
    requires { (tracker ≡ None) × IsWidth W × IsWidth far × (length beats.now ≤ 2 ^ 40) }
    ensures { (homes : List ℕ) →
        result ≡ length (due K.rules W far (accepted_of K.rules beats.now) homes) }
{
    let mut count = 0;
    for beat in beats {
        let Ok(place) = tracker.check(beat) else {
            return count;
        };
        count += far_beats_between(&place, W, far);
        tracker.advance(place);
    }
    count
}
