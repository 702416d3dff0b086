//! The two ways to copy lanes or mask bits from one bus to another. A run that does not wrap around
//! on either bus is copied all at once, any other run byte by byte.

ghost use Rattle.std.specs.Prelude.{◌≡◌, ◌≢◌, ◌≤◌, ◌<◌, ◌+◌, ◌⊎◌, ℕ, length, slice_index};
ghost use Rattle.std.specs.Int.{bit_at};
ghost use Rattle.tl_lanes.specs.declared.limits.TheConstants.{WIDEST};
ghost use Rattle.tl_lanes.specs.Lanes.{IsWidth, lane_of};

use crate::lane;
use crate::limits::Mask;
use crate::runs::{ones, run_of_lanes};

// Copies `count` lanes, starting at lane `near`, to the lanes starting at `far`.
pub(crate) fn move_run(from: &[u8], near: usize, to: &mut [u8], far: usize, count: usize)
    requires fits_source { near + count ≤ length from.now }
    requires fits_destination { far + count ≤ length to.old }
    ensures size { length to.new ≡ length to.old }
    ensures moved { (k : ℕ) → k < count →
        slice_index to.new (far + k) ≡ slice_index from.now (near + k) }
    ensures kept { (l : ℕ) → (l < far) ⊎ (far + count ≤ l) →
        slice_index to.new l ≡ slice_index to.old l }
{
    to[far..far + count].copy_from_slice(&from[near..near + count]);
}

// Copies the lanes of `count` bytes, starting at address `at`, byte by byte.
pub(crate) fn move_each<const W: usize, const V: usize>(
    from: &[u8; W],
    to: &mut [u8; V],
    at: u64,
    count: usize,
)
    requires near { IsWidth W }
    requires far { IsWidth V }
    requires fits_source { count ≤ W }
    requires fits_destination { count ≤ V }
    ensures size { length to.new ≡ V }
    ensures moved { (k : ℕ) → k < count →
        slice_index to.new (lane_of at k V) ≡ slice_index from.now (lane_of at k W) }
    ensures kept { (l : ℕ) → ((k : ℕ) → k < count → lane_of at k V ≢ l) →
        slice_index to.new l ≡ slice_index to.old l }
{
    for k in 0..count {
        to[lane(at, k, V)] = from[lane(at, k, W)];
    }
}

// Returns the mask `to` with `count` bits copied from `from`. The bits start at bit `near` of
// `from` and at bit `far` of the result.
pub(crate) fn move_run_of_bits(from: Mask, near: usize, to: Mask, far: usize, count: usize) -> Mask
    requires near_inside { near < WIDEST }
    requires far_inside { far < WIDEST }
    requires fits_destination { far + count ≤ WIDEST }
    ensures moved { (k : ℕ) → k < count → bit_at result (far + k) ≡ bit_at from (near + k) }
    ensures kept { (l : ℕ) → (l < far) ⊎ (far + count ≤ l) → bit_at result l ≡ bit_at to l }
{
    let moved = from >> near & ones(count);
    to & !run_of_lanes(far, count) | moved << far
}

// Returns the mask `to` with the bits of `count` bytes, starting at address `at`, copied byte by
// byte.
pub(crate) fn move_each_bit(from: Mask, w: usize, to: Mask, v: usize, at: u64, count: usize) -> Mask
    requires near { IsWidth w }
    requires far { IsWidth v }
    requires fits_source { count ≤ w }
    requires fits_destination { count ≤ v }
    ensures moved { (k : ℕ) → k < count →
        bit_at result (lane_of at k v) ≡ bit_at from (lane_of at k w) }
    ensures kept { (l : ℕ) → ((k : ℕ) → k < count → lane_of at k v ≢ l) →
        bit_at result l ≡ bit_at to l }
{
    let mut mask = to;
    for k in 0..count {
        let far = lane(at, k, v);
        if from >> lane(at, k, w) & 1 == 1 {
            mask |= 1 << far;
        } else {
            mask &= !(1 << far);
        }
    }
    mask
}
