//! Both ends of a crossing: making them, and inspecting them together.
ghost use Rattle.std.specs.Prelude.{◌≡◌, ◌≤◌, ◌<◌, ◌+◌, ◌↔◌, ◌⊎◌, [], List, length, IsOk, IfOk, IfErr};
ghost use Rattle.rtrb.specs.Ring as rtrb;
ghost use Rattle.tl_lanes.specs.Lanes.{IsWidth};
ghost use Rattle.tl_msg.specs.declared.beat.BeatOf.{BeatOf};
ghost use Rattle.tl_ring.specs.Crossing.{World, empty};
ghost use Rattle.tl_ring.specs.Ends.{Sends, Takes, Met, Meets, ArePair, known_free, known_items};
ghost use Rattle.tl_ring.specs.declared.queue.TheConstants.{STAGE_CAPACITY};
ghost use Rattle.tl_ring.specs.declared.pipe.TheConstants.{MAX_RING};

use crate::ends::{ClosingEnd, SendEnd, TakeEnd};
use crate::fault::BuildFault;
use crate::halves::{RingReader, new_ring, observe_both};
use crate::inbox::Inbox;
use crate::outbox::Outbox;
use crate::standing::Standing;
use std::alloc::Allocator;
use tl_msg::Channel;

/// Creates the two ends of one channel's crossing, over a ring of `ring` beats, the only memory
/// that is allocated. Each end can be moved to its own thread.
///
/// Errors: `RingSize` if and only if `ring` is 0 or above 4,096; otherwise `OutOfMemory` if the
/// allocator fails. Requires: `W` and `V` are widths.
pub fn ring_pair<K: Channel, const W: usize, const V: usize, A: Allocator + Copy>(
    alloc: A,
    ring: usize,
) -> Result<(SendEnd<K, W, V, A>, TakeEnd<K, W, V, A>), BuildFault>
    requires near { IsWidth W }
    requires far { IsWidth V }
    ensures pair { IfOk result (λ ends. ArePair ends.0 ends.1) }
    ensures send { IfOk result (λ ends. Sends K.rules {w = W} ends.0 (empty ring)) }
    ensures take { IfOk result (λ ends. Takes ends.1 []) }
    // a new pair knows every position of its ring to be free
    ensures known { IfOk result (λ ends.
        (known_free ends.0 ≡ ring) × (known_items ends.1 ≡ []) × (ends.1.inbox ≡ [])) }
    ensures size { IsOk result → (1 ≤ ring) × (ring ≤ MAX_RING) }
    ensures ring_size { IfErr result (λ fault.
        (fault ≡ BuildFault.RingSize) ↔ ((ring ≡ 0) ⊎ (MAX_RING < ring))) }
{
    match new_ring(alloc, ring) {
        Ok((send, take)) => Ok((
            SendEnd {
                outbox: Outbox::new(),
                producer: send,
            },
            TakeEnd {
                inbox: Inbox::new(),
                intake: RingReader::from_half(take),
            },
        )),
        Err(fault) => Err(fault),
    }
}

/// Inspects both ends of a pair together, in one thread. Returns the number of far beats in the
/// stage, the ring and the inbox. The beats taken, followed by those in the inbox, the ring and the
/// stage, are the far layout of the accepted beats: each beat once, in order. No beat moves. The
/// taking end then knows every beat in the ring, and the sending end every free position. Both
/// ends, and the ring between them, form one crossing, like a `SyncPipe`. Requires: the ends are a
/// pair.
pub fn meet<K: Channel, const W: usize, const V: usize, A: Allocator>(
    send: &mut SendEnd<K, W, V, A>,
    take: &mut TakeEnd<K, W, V, A>,
) -> Standing
    requires { ArePair send.old take.old }
    ensures met { Met send.old take.old send.new take.new }
    ensures staged { result.staged ≡ length send.new.stage }
    ensures in_ring { result.in_ring ≡ length (known_items take.new) }
    ensures inbox { result.inbox ≡ length take.new.inbox }
    ensures most { (result.staged ≤ STAGE_CAPACITY) × (result.inbox ≤ STAGE_CAPACITY) }
    // for every crossing that the sending end represents, and every list that was taken
    ensures meets { (x : World K.Head W V) (taken : List (BeatOf K.Head V)) →
        Sends K.rules send.old x → Takes take.old taken →
        Meets K.rules send.new take.new x taken }
{
    let in_ring = observe_both(&mut send.producer, &mut take.intake.half);
    Standing::between(&send.outbox, in_ring, &take.inbox)
}

/// Inspects both ends as [`meet`] does, for a sending end that is closed. The beats taken, followed
/// by those in the inbox, the ring and the stage, are the far layout of the accepted beats: each
/// beat once, in order.
pub fn meet_closing<K: Channel, const W: usize, const V: usize, A: Allocator>(
    send: &mut ClosingEnd<K, W, V, A>,
    take: &mut TakeEnd<K, W, V, A>,
) -> Standing
    requires { ArePair send.old take.old }
    ensures met { Met send.old take.old send.new take.new }
    ensures staged { result.staged ≡ length send.new.stage }
    ensures in_ring { result.in_ring ≡ length (known_items take.new) }
    ensures inbox { result.inbox ≡ length take.new.inbox }
    ensures most { (result.staged ≤ STAGE_CAPACITY) × (result.inbox ≤ STAGE_CAPACITY) }
    // for every crossing that the sending end represents, and every list that was taken
    ensures meets { (x : World K.Head W V) (taken : List (BeatOf K.Head V)) →
        Sends K.rules send.old x → Takes take.old taken →
        Meets K.rules send.new take.new x taken }
{
    let in_ring = observe_both(&mut send.producer, &mut take.intake.half);
    Standing::between(&send.outbox, in_ring, &take.inbox)
}
