//! The ring between an outbox and an inbox within one thread.
ghost use Rattle.std.specs.Prelude.{◌≡◌, ◌≤◌, ◌<◌, ◌+◌, ◌-◌, ◌++◌, ◌↔◌, ◌⊎◌, [], length, min, drop, take, IsOk, IsTrue, IfOk, IfErr};
ghost use Rattle.circular_buffer.specs.Buffer.{buffer};
ghost use Rattle.tl_ring.specs.Boxes.{AreLawful};
ghost use Rattle.tl_ring.specs.Crossing.{inbox_room};
ghost use Rattle.tl_ring.specs.declared.pipe.TheConstants.{MAX_RING};
ghost use Rattle.tl_ring.specs.declared.queue.TheConstants.{STAGE_CAPACITY};

use crate::fault::BuildFault;
use crate::inbox::Inbox;
use crate::outbox::Outbox;
use crate::pipe::MAX_RING;
use crate::queue::{Queue, STAGE_CAPACITY};
use circular_buffer::HeapCircularBuffer;
use std::alloc::{Allocator, Global};
use std::marker::Model;
use tl_msg::{Beat, Channel};

/// The ring of one channel within one thread. It holds the far beats that were sent and are not yet
/// in the inbox.
#[derive(Drop)]
pub struct Ring<K: Channel, const V: usize, A: Allocator = Global> {
    buffer: HeapCircularBuffer<Beat<K, V>, A>,
}

impl<K: Channel, const V: usize, A: Allocator> Model for Ring<K, V, A> {
    ghost use Rattle.std.specs.Prelude.{◌≤◌};
    ghost use Rattle.circular_buffer.specs.Buffer.{Buffer};
    ghost use Rattle.tl_msg.specs.declared.beat.BeatOf.{BeatOf};
    ghost use Rattle.tl_ring.specs.Boxes.{AreLawful};
    ghost use Rattle.tl_ring.specs.declared.pipe.TheConstants.{MAX_RING};

    ghost Value = { Buffer (BeatOf K.Head V) };

    ghost view = { λ r. r.buffer };

    ghost invariant = { λ r. (1 ≤ r.buffer.capacity) × (r.buffer.capacity ≤ MAX_RING) ×
        AreLawful K.rules r.buffer.items };
}

// Returns whether a ring may hold `ring` beats.
pub(crate) fn is_ring_size(ring: usize) -> bool
    ensures { IsTrue result ↔ ((1 ≤ ring) × (ring ≤ MAX_RING)) }
{
    1 <= ring && ring <= MAX_RING
}

impl<K: Channel, const V: usize, A: Allocator> Ring<K, V, A> {
    /// Creates a ring of `size` beats, the only memory that is allocated.
    ///
    /// Errors: `RingSize` if and only if `size` is 0 or above 4,096; otherwise `OutOfMemory` if the
    /// allocator fails.
    pub fn new(alloc: A, size: usize) -> Result<Self, BuildFault>
        ensures new { IfOk result (λ ring. ring ≡ buffer [] size) }
        ensures size { IsOk result → (1 ≤ size) × (size ≤ MAX_RING) }
        ensures ring_size { IfErr result (λ fault.
            (fault ≡ BuildFault.RingSize) ↔ ((size ≡ 0) ⊎ (MAX_RING < size))) }
    {
        if !is_ring_size(size) {
            return Err(BuildFault::RingSize);
        }
        let Ok(buffer) = HeapCircularBuffer::with_capacity(alloc, size) else {
            return Err(BuildFault::OutOfMemory);
        };
        Ok(Ring { buffer })
    }

    /// Returns the number of beats in the ring.
    pub fn len(&self) -> usize
        ensures count { result ≡ length self.now.items }
        ensures most { result ≤ MAX_RING }
    {
        self.buffer.len()
    }
}

// Appends items to a ring, as many as it has room for, and returns their number. A single item, the
// usual case in a stage, needs no call that copies many.
fn write_back<T: Copy, A: Allocator>(ring: &mut HeapCircularBuffer<T, A>, items: &[T]) -> usize
    ensures count { result ≡
        min (length items.now) (ring.old.capacity - length ring.old.items) }
    ensures ring { ring.new ≡
        buffer (ring.old.items ++ take result items.now) ring.old.capacity }
{
    if let [item] = items {
        return match ring.try_push_back(*item) {
            Ok(()) => 1,
            Err(_) => 0,
        };
    }
    ring.fill_from_slice(items)
}

// Moves the first items of a queue to the end of a ring, as many as it has room for, and returns
// their number. It depends only on the far width, so a program has one copy for each channel and
// far width.
fn write_queue<T: Copy, A: Allocator>(
    ring: &mut HeapCircularBuffer<T, A>,
    queue: &mut Queue<T>,
) -> usize
    ensures count { result ≡
        min (length queue.old) (ring.old.capacity - length ring.old.items) }
    ensures ring { ring.new ≡
        buffer (ring.old.items ++ take result queue.old) ring.old.capacity }
    ensures queue { queue.new ≡ drop result queue.old }
    ensures most { result ≤ STAGE_CAPACITY }
{
    if queue.len() == 0 {
        return 0;
    }
    let count = write_back(ring, queue.as_slice());
    queue.drop_front(count);
    count
}

// Moves the first items of a ring to the end of a queue, as many as it has room for, and returns
// their number. It also depends only on the far width.
fn read_queue<T: Copy + Default, A: Allocator>(
    ring: &mut HeapCircularBuffer<T, A>,
    queue: &mut Queue<T>,
) -> usize
    ensures count { result ≡ min (length ring.old.items) (STAGE_CAPACITY - length queue.old) }
    ensures ring { ring.new ≡ buffer (drop result ring.old.items) ring.old.capacity }
    ensures queue { queue.new ≡ queue.old ++ take result ring.old.items }
    ensures most { result ≤ STAGE_CAPACITY }
{
    let count = ring.len().min(STAGE_CAPACITY - queue.len());
    if count == 0 {
        return 0;
    }
    let (front, back) = ring.as_slices();
    let from_front = count.min(front.len());
    queue.append(&front[..from_front]);
    if from_front < count {
        queue.append(&back[..count - from_front]);
    }
    ring.truncate_front(ring.len() - count);
    count
}

/// Moves the first staged beats of an outbox into the ring, as many as it has room for. Returns
/// their number.
pub fn pump<K: Channel, const W: usize, const V: usize, A: Allocator>(
    outbox: &mut Outbox<K, W, V>,
    ring: &mut Ring<K, V, A>,
) -> usize
    ensures count { result ≡
        min (length outbox.old.stage) (ring.old.capacity - length ring.old.items) }
    ensures outbox { outbox.new ≡
        record outbox.old { stage = drop result outbox.old.stage } }
    ensures ring { ring.new ≡
        buffer (ring.old.items ++ take result outbox.old.stage) ring.old.capacity }
    ensures most { result ≤ STAGE_CAPACITY }
{
    write_queue(&mut ring.buffer, &mut outbox.stage)
}

/// Moves the first beats of a ring into the inbox, as many as it has room for. Returns their
/// number.
pub fn fetch<K: Channel, const V: usize, A: Allocator>(
    ring: &mut Ring<K, V, A>,
    inbox: &mut Inbox<K, V>,
) -> usize
    ensures count { result ≡ min (length ring.old.items) (inbox_room - length inbox.old) }
    ensures ring { ring.new ≡ buffer (drop result ring.old.items) ring.old.capacity }
    ensures inbox { inbox.new ≡ inbox.old ++ take result ring.old.items }
    ensures most { result ≤ STAGE_CAPACITY }
{
    read_queue(&mut ring.buffer, &mut inbox.queue)
}
