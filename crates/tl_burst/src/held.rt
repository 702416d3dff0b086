//! The facts that stay the same through a burst, kept so that they are not computed again for each
//! beat.
ghost use Rattle.std.specs.Prelude.{◌≡◌, None};
ghost use Rattle.tl_lanes.specs.Lanes.{IsWidth};
ghost use Rattle.tl_burst.specs.Inner.Holding.{IsHeld};

use tl_lanes::{Mask, active, beats};
use tl_msg::Channel;

/// The facts that all beats of a message share, besides its head.
#[derive(Clone, Copy, Drop)]
pub struct Held {
    /// The active lanes of each beat (TileLink: masks).
    pub lanes: Mask,
    /// The number of beats of the message.
    pub beats: usize,
    /// Whether a mask may leave out active lanes: true for PutPartialData only.
    pub partial: bool,
}

/// Returns the facts that the beats of a message with this head share.
pub fn held_by<K: Channel, const W: usize>(head: &K::Head) -> Held
    requires { IsWidth W × (K.rules.fault head.now ≡ None) }
    ensures { IsHeld K.rules W head.now result }
{
    let size = K::size(head);
    Held {
        lanes: active(K::lane_address(head, 0), size, W),
        beats: beats(K::carries_data(head), size, W),
        partial: K::partial(head),
    }
}
