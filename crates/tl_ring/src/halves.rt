//! The two halves of the ring between two threads, and the functions that move beats between a half
//! and an outbox or an inbox.
ghost use Rattle.std.specs.Prelude.{◌≡◌, ◌≤◌, ◌<◌, ◌+◌, ◌-◌, ◌++◌, ◌↔◌, ◌⊎◌, [], List, All, true, length, min, drop, take, IsOk, IsTrue, IfOk, IfErr, IfSome};
ghost use Rattle.rtrb.specs.Ring as rtrb;
ghost use Rattle.tl_msg.specs.declared.beat.BeatOf.{BeatOf};
ghost use Rattle.tl_ring.specs.Counts.{IsNumberOf};
ghost use Rattle.tl_ring.specs.Crossing.{World, inbox_room};
ghost use Rattle.tl_ring.specs.Ends.{Sends, Takes, Pushed, Fetched, IsNewRing, sending_of, taking_of, passed, known_items};
ghost use Rattle.tl_ring.specs.Halves.{all_stamped, stamped};
ghost use Rattle.tl_ring.specs.declared.stamped.Stamped.{Stamped};
ghost use Rattle.tl_ring.specs.Ends.{taken_count, Finishes, IsReceiptFor, IsReceiptOf, LookedAfter, Shows, Shown};
ghost use Rattle.tl_ring.specs.declared.pipe.TheConstants.{MAX_RING};
ghost use Rattle.tl_ring.specs.declared.queue.TheConstants.{STAGE_CAPACITY};

use crate::clock::Clock;
use crate::counting::{
    CountingConsumer, CountingProducer, counting_ends, pop_stamped, push_stamped,
};
use crate::ends::Receipt;
use crate::fault::BuildFault;
use crate::inbox::Inbox;
use crate::lawful::LawfulAt;
use crate::outbox::Outbox;
use crate::queue::{Queue, STAGE_CAPACITY};
use crate::ring::is_ring_size;
use crate::stamped::Stamped;
use rtrb::{Protocol, RingBuffer};
use std::alloc::{Allocator, Global};
use tl_msg::{Beat, Channel};

/// The half of a ring that belongs to its sending end. Each beat in the ring carries the time at
/// which it was sent, which exists only in proofs.
pub type SendHalf<K, const V: usize, A> = CountingProducer<Stamped<Beat<K, V>>, A, LawfulAt<K, V>>;

/// The half of a ring that belongs to its taking end, with the clock of its side.
pub type TakeHalf<K, const V: usize, A> = CountingConsumer<Stamped<Beat<K, V>>, A, LawfulAt<K, V>>;

/// Creates a ring of `size` beats, the only memory that is allocated. Returns both halves.
///
/// Errors: `RingSize` if and only if `size` is 0 or above 4,096; otherwise `OutOfMemory` if the
/// allocator fails.
pub fn new_ring<K: Channel, const V: usize, A: Allocator + Copy>(
    alloc: A,
    size: usize,
) -> Result<(SendHalf<K, V, A>, TakeHalf<K, V, A>), BuildFault>
    ensures new { IfOk result (λ halves. IsNewRing size halves.0 halves.1) }
    ensures size { IsOk result → (1 ≤ size) × (size ≤ MAX_RING) }
    ensures ring_size { IfErr result (λ fault.
        (fault ≡ BuildFault.RingSize) ↔ ((size ≡ 0) ⊎ (MAX_RING < size))) }
{
    if !is_ring_size(size) {
        return Err(BuildFault::RingSize);
    }
    // (no result of ends that count: it would be one more type for each channel and width)
    let Ok((producer, consumer)) = RingBuffer::with_protocol::<A, LawfulAt<K, V>>(alloc, size)
    else {
        return Err(BuildFault::OutOfMemory);
    };
    Ok(counting_ends(producer, consumer, size))
}

/// The taking half of a ring, with an array for the beats on their way from the ring into an inbox.
#[derive(Drop)]
pub struct RingReader<K: Channel, const V: usize, A: Allocator = Global> {
    /// The half.
    pub half: TakeHalf<K, V, A>,
    // (used only within a call of `receive`)
    passing: [Beat<K, V>; STAGE_CAPACITY],
}

impl<K: Channel, const V: usize, A: Allocator> RingReader<K, V, A> {
    /// Creates the reader from its half of a new ring ([`new_ring`]).
    pub fn from_half(half: TakeHalf<K, V, A>) -> Self
        ensures { result.half ≡ half }
    {
        RingReader {
            half,
            passing: [Beat::<K, V>::default(); STAGE_CAPACITY],
        }
    }
}

/// Moves beats from a ring into the inbox, in order. Returns their number: at least the smaller of
/// the number of beats that are known to be in the ring and the number of free places in the inbox,
/// and never more than the latter. After [`observe_both`] it knows every beat in the ring.
pub fn receive<K: Channel, const V: usize, A: Allocator>(
    intake: &mut RingReader<K, V, A>,
    inbox: &mut Inbox<K, V>,
) -> usize
    ensures least { min (length (known_items (taking_of inbox.old intake.old.half)))
        (inbox_room - length inbox.old) ≤ result }
    ensures most { result ≤ inbox_room - length inbox.old }
    ensures fetched { Fetched (taking_of inbox.old intake.old.half) result
        (taking_of inbox.new intake.new.half) }
    ensures takes { (taken : List (BeatOf K.Head V)) →
        Takes (taking_of inbox.old intake.old.half) taken →
        Takes (taking_of inbox.new intake.new.half) taken }
{
    let room = STAGE_CAPACITY - inbox.len();
    let count = pop_stamped(&mut intake.half, &mut intake.passing[..room]);
    inbox.queue.append(&intake.passing[..count]);
    count
}

/// Returns the number of beats that were taken from the inbox: those that came out of the ring and
/// are in the inbox no more. It is exact if they are fewer than 2^63.
pub fn taken_count<K: Channel, const V: usize, A: Allocator>(
    intake: &RingReader<K, V, A>,
    inbox: &Inbox<K, V>,
) -> u64
    ensures count { result ≡ taken_count (taking_of inbox.now intake.now.half) }
    // for every list that was taken
    ensures exact { (taken : List (BeatOf K.Head V)) →
        Takes (taking_of inbox.now intake.now.half) taken → IsNumberOf result taken }
{
    intake.half.count().saturating_sub(inbox.len() as u64)
}

// Moves the first items of a queue into a ring, each with the clock's time, as many as fit, and
// returns their number. It depends only on the far width, so a program has one copy for each
// channel and far width.
#[inline(never)]
fn push_queue<T: Copy + Drop, A: Allocator, P: Protocol<Stamped<T>>>(
    producer: &mut CountingProducer<Stamped<T>, A, P>,
    queue: &mut Queue<T>,
    clock: &Clock,
) -> usize
    requires { (before : List (Stamped T)) →
        All (λ x. P.allows before (stamped x clock.now.time)) queue.old }
    ensures least { min (length queue.old) (rtrb.known_free producer.old) ≤ result }
    ensures most { (result ≤ length queue.old) × (result ≤ STAGE_CAPACITY) }
    ensures queue { queue.new ≡ drop result queue.old }
    ensures ring { rtrb.SameProducer producer.old producer.new }
    ensures sent { rtrb.sent producer.new ≡
        rtrb.sent producer.old ++ all_stamped clock.now.time (take result queue.old) }
    ensures known { rtrb.known_free producer.old ≤ rtrb.known_free producer.new + result }
{
    let count = push_stamped(producer, queue.as_slice(), clock);
    queue.drop_front(count);
    count
}

/// Moves staged beats of an outbox into a ring, in order. Returns their number: at least the number
/// of free positions that the half knows of, or all staged beats if these are fewer. After [`observe_both`]
/// it knows every free position. Each beat carries the time of `clock`, the clock of the side that
/// sends.
pub fn send_staged<K: Channel, const W: usize, const V: usize, A: Allocator>(
    outbox: &mut Outbox<K, W, V>,
    producer: &mut SendHalf<K, V, A>,
    clock: &Clock,
) -> usize
    ensures least { min (length outbox.old.stage) (rtrb.known_free producer.old) ≤ result }
    ensures most { (result ≤ length outbox.old.stage) × (result ≤ STAGE_CAPACITY) }
    ensures pushed { Pushed (sending_of outbox.old producer.old) result
        (sending_of outbox.new producer.new) }
    ensures times { rtrb.sent producer.new ≡
        rtrb.sent producer.old ++ all_stamped clock.now.time (take result outbox.old.stage) }
    ensures stands { (x : World K.Head W V) → Sends K.rules (sending_of outbox.old producer.old) x →
        Sends K.rules (sending_of outbox.new producer.new) (passed result x) }
{
    push_queue(producer, &mut outbox.stage, clock)
}

/// Inspects a ring from both its halves, in one thread. Returns the number of items in the ring.
/// The taking half then knows each of them, and the sending half each free position. No item moves.
/// Requires: the halves are a pair. (The function is generic in the item, because the checker needs
/// far more time for a call that is generic in the channel and requires a pair.)
pub fn observe_both<T, A: Allocator, P: Protocol<T>>(
    producer: &mut CountingProducer<T, A, P>,
    consumer: &mut CountingConsumer<T, A, P>,
) -> usize
    requires { rtrb.IsPair producer.old consumer.old.end }
    ensures producer { rtrb.ProducerLooked producer.old producer.new }
    ensures consumer { rtrb.ConsumerLooked consumer.old.end consumer.new.end }
    ensures clock { consumer.new.clock ≡ consumer.old.clock }
    ensures count { result ≡ length (rtrb.known_items consumer.new.end) }
    ensures fifo { rtrb.received consumer.new.end ++ rtrb.known_items consumer.new.end ≡
        rtrb.sent producer.new }
    // each position without an item is known to be free, and there are no more items than positions
    ensures places { (result ≤ rtrb.producer_capacity producer.old) ×
        (rtrb.producer_capacity producer.old ≤ rtrb.known_free producer.new + result) }
{
    producer.slots_beside(consumer);
    consumer.slots_beside(producer)
}

/// Gives up the sending half of a ring together with its outbox. Returns the receipt that shows the
/// taking half all beats that were sent. If it returns `None`, there is no receipt, and beats that
/// were sent can still be fetched. No contract says when it returns `None`. Requires: the outbox is
/// closed and has nothing staged.
pub fn finish<K: Channel, const W: usize, const V: usize, A: Allocator>(
    outbox: Outbox<K, W, V>,
    producer: SendHalf<K, V, A>,
) -> Option<Receipt<K, W, V, A>>
    requires { (outbox.stage ≡ []) × (outbox.closed ≡ true) }
    ensures receipt { IfSome result (λ receipt. Finishes (sending_of outbox producer) receipt) }
    // the taking half of the same ring can be asked with it
    ensures taker { IfSome result (λ receipt. IsReceiptFor (sending_of outbox producer) receipt) }
    // for every crossing that both represent
    ensures shows { (x : World K.Head W V) → Sends K.rules (sending_of outbox producer) x →
        IfSome result (λ receipt. Shows K.rules receipt x) }
{
    match producer.finish() {
        Some(finished) => Some(Receipt { finished }),
        None => None,
    }
}

/// Returns whether ring and inbox are empty. The beats taken, followed by those in the inbox and
/// the ring, are the far layout of all accepted beats: each beat once, in order. If both are empty,
/// the beats taken are that layout. The half then knows every beat in the ring. No beat moves.
/// Requires: the receipt is of the other half of this ring.
pub fn is_drained<K: Channel, const W: usize, const V: usize, A: Allocator>(
    intake: &mut RingReader<K, V, A>,
    inbox: &Inbox<K, V>,
    receipt: &mut Receipt<K, W, V, A>,
) -> bool
    requires { IsReceiptOf receipt.old (taking_of inbox.now intake.old.half) }
    ensures looked { LookedAfter receipt.old (taking_of inbox.now intake.old.half) receipt.new
        (taking_of inbox.now intake.new.half) }
    ensures drained { IsTrue result ↔ ((inbox.now ≡ []) ×
        (known_items (taking_of inbox.now intake.new.half) ≡ [])) }
    // for every crossing that the receipt shows
    ensures shown { (x : World K.Head W V) (taken : List (BeatOf K.Head V)) →
        Shows K.rules receipt.old x → Takes (taking_of inbox.now intake.old.half) taken →
        Shown K.rules receipt.new (taking_of inbox.now intake.new.half) x taken }
{
    let in_ring = intake.half.slots_after(&mut receipt.finished);
    let waiting = inbox.len();
    let ring_is_empty = in_ring == 0;
    ring_is_empty & (waiting == 0)
}
