//! The number of far beats at each place of a crossing.
ghost use Rattle.std.specs.Prelude.{◌≡◌, ◌≤◌, length};
ghost use Rattle.tl_ring.specs.declared.queue.TheConstants.{STAGE_CAPACITY};

use crate::inbox::Inbox;
use crate::outbox::Outbox;
use tl_msg::Channel;

/// The number of far beats at each place between the two ends.
#[derive(Clone, Copy, PartialEq, Eq, Debug, Default)]
pub struct Standing {
    /// Beats that wait for a free position in the ring, at most [`STAGE_CAPACITY`].
    pub staged: usize,
    /// Beats in the ring, at most 4,096.
    pub in_ring: usize,
    /// Beats that were fetched and are not yet taken, at most [`STAGE_CAPACITY`].
    pub inbox: usize,
}

impl Standing {
    /// Returns the number of far beats in the stage of an outbox, in the ring after it, which holds
    /// `in_ring`, and in an inbox.
    pub fn between<K: Channel, const W: usize, const V: usize>(
        outbox: &Outbox<K, W, V>,
        in_ring: usize,
        inbox: &Inbox<K, V>,
    ) -> Standing
        ensures staged { result.staged ≡ length outbox.now.stage }
        ensures in_ring { result.in_ring ≡ in_ring }
        ensures inbox { result.inbox ≡ length inbox.now }
        ensures most { (result.staged ≤ STAGE_CAPACITY) × (result.inbox ≤ STAGE_CAPACITY) }
    {
        Standing {
            staged: outbox.staged(),
            in_ring,
            inbox: inbox.len(),
        }
    }
}
