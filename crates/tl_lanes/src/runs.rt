//! Masks of contiguous lanes.

ghost use Rattle.std.specs.Prelude.{◌≡◌, ◌≤◌, ◌<◌, ◌+◌, ◌-◌, ◌^◌};
ghost use Rattle.tl_lanes.specs.declared.limits.TheConstants.{WIDEST};

use crate::limits::{Mask, WIDEST};

// Returns the mask of the lowest `count` lanes.
pub(crate) fn ones(count: usize) -> Mask
    requires { count ≤ WIDEST }
    ensures { result ≡ 2 ^ count - 1 }
{
    if count == WIDEST {
        Mask::MAX
    } else {
        (1 << count) - 1
    }
}

// Returns the mask of `count` lanes, starting at lane `first`.
pub(crate) fn run_of_lanes(first: usize, count: usize) -> Mask
    requires inside { first < WIDEST }
    requires room { first + count ≤ WIDEST }
    ensures { result ≡ 2 ^ (first + count) - 2 ^ first }
{
    ones(count) << first
}
