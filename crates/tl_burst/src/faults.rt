ghost use Rattle.std.specs.Prelude.{◌≡◌, ◌≤◌, None};
ghost use Rattle.tl_lanes.specs.Lanes.{IsWidth};
ghost use Rattle.tl_msg.specs.Faults as faults;
ghost use Rattle.tl_burst.specs.Inner.Holding.{IsHeld, fits_held};

use crate::held::{Held, held_by};
use tl_lanes::Mask;
use tl_msg::{Beat, BeatFault, Channel};

/// Returns the first fault of a beat outside a burst: a fault of its head, then `Mask`, then
/// `Corrupt`.
pub fn opening_fault<K: Channel, const W: usize>(beat: &Beat<K, W>) -> Option<BeatFault>
    requires { IsWidth W }
    ensures { result ≡ faults.opening_fault K.rules beat.now }
{
    if let Some(fault) = K::fault(&beat.head) {
        return Some(fault);
    }
    let fits = mask_fits(K::MASKED, beat.mask, &held_by::<K, W>(&beat.head));
    // corrupt is clear on a message without data, and not read on E
    let clean = (K::LETTER == b'E') | K::carries_data(&beat.head) | !beat.corrupt;
    let corrupt = (!clean).then_some(BeatFault::Corrupt);
    (!fits).then_some(BeatFault::Mask).or(corrupt)
}

/// Returns the first fault of a beat inside a burst with this head: `HeadChanged`, then `Mask`.
pub fn continuing_fault<K: Channel, const W: usize>(
    head: &K::Head,
    held: &Held,
    beat: &Beat<K, W>,
) -> Option<BeatFault>
    requires { IsHeld K.rules W head.now held.now }
    ensures { result ≡ faults.continuing_fault K.rules head.now beat.now }
{
    let same = beat.head == *head;
    if !same {
        return Some(BeatFault::HeadChanged);
    }
    let fits = mask_fits(K::MASKED, beat.mask, held);
    (!fits).then_some(BeatFault::Mask)
}

/// Returns whether the mask is one that the message may have: on PutPartialData any of the active
/// lanes, on other messages exactly the active lanes. On C, D and E the mask is not read.
fn mask_fits(masked: bool, mask: Mask, held: &Held) -> bool
    ensures { result ≡ fits_held masked held.now mask }
{
    if !masked {
        return true;
    }
    if held.partial {
        mask & held.lanes == mask
    } else {
        mask == held.lanes
    }
}
