//! The ends of a ring between two threads, which count what passes through them.
ghost use Rattle.std.specs.Prelude.{◌≡◌, ◌≤◌, ◌<◌, ◌+◌, ◌++◌, [], List, All, drop, take, length, IfSome};
ghost use Rattle.rtrb.specs.Ring.{sent, known_free, producer_capacity, received, known_items, consumer_capacity, all_sent, IsPair, Finishes, IsFinishedOf, SameProducer, SameConsumer, ProducerLooked, ConsumerLooked};
ghost use Rattle.tl_ring.specs.Counts.{counted};
ghost use Rattle.tl_ring.specs.Halves.{Popped, all_stamped, stamped};
ghost use Rattle.tl_ring.specs.declared.stamped.Stamped.{Stamped};

use crate::clock::Clock;
use crate::stamped::Stamped;
use rtrb::{Consumer, Finished, Producer, Protocol};
use std::alloc::Allocator;
use std::marker::Model;

/// The end of a ring that pushes, and counts the items that it has pushed.
#[derive(Drop)]
pub struct CountingProducer<T, A: Allocator, P: Protocol<T>> {
    end: Producer<T, A, P>,
    count: u64,
}

impl<T, A: Allocator, P: Protocol<T>> Model for CountingProducer<T, A, P> {
    ghost use Rattle.std.specs.Prelude.{◌≡◌, length};
    ghost use Rattle.rtrb.specs.Ring.{sent};
    ghost use Rattle.rtrb.specs.declared.producer.Producer.{Producer};
    ghost use Rattle.tl_ring.specs.Counts.{counted};

    ghost Value = { Producer T A P };

    ghost view = { λ p. p.end };

    ghost invariant = { λ p. p.count ≡ counted (length (sent p.end)) };
}

/// The end of a ring that pops, and counts the items that it has popped. It has the clock of its
/// side.
#[derive(Drop)]
pub struct CountingConsumer<T, A: Allocator, P: Protocol<T>> {
    end: Consumer<T, A, P>,
    count: u64,
    clock: Clock,
}

impl<T, A: Allocator, P: Protocol<T>> Model for CountingConsumer<T, A, P> {
    ghost use Rattle.std.specs.Prelude.{◌≡◌, length};
    ghost use Rattle.rtrb.specs.Ring.{received};
    ghost use Rattle.tl_ring.specs.Counts.{counted};
    ghost use Rattle.tl_ring.specs.Halves.{Receiver};

    ghost Value = { Receiver T A P };

    ghost view = { λ c. record { end = c.end; clock = c.clock.time } };

    ghost invariant = { λ c. c.count ≡ counted (length (received c.end)) };
}

/// Proof of what a dropped producer pushed, and of how many items these are.
#[derive(Drop)]
pub struct CountedFinish<T, A: Allocator, P: Protocol<T>> {
    end: Finished<T, A, P>,
    pub(crate) count: u64,
}

impl<T, A: Allocator, P: Protocol<T>> Model for CountedFinish<T, A, P> {
    ghost use Rattle.std.specs.Prelude.{◌≡◌, length};
    ghost use Rattle.rtrb.specs.Ring.{all_sent};
    ghost use Rattle.rtrb.specs.declared.finished.Finished.{Finished};
    ghost use Rattle.tl_ring.specs.Counts.{counted};

    ghost Value = { Finished T A P };

    ghost view = { λ f. f.end };

    ghost invariant = { λ f. f.count ≡ counted (length (all_sent f.end)) };
}

/// Returns the two ends of a new ring of `_capacity` items as ends that count.
pub(crate) fn counting_ends<T: Drop, A: Allocator + Copy, P: Protocol<T>>(
    producer: Producer<T, A, P>,
    consumer: Consumer<T, A, P>,
    _capacity: usize,
) -> (CountingProducer<T, A, P>, CountingConsumer<T, A, P>)
    requires { IsPair producer consumer × (sent producer ≡ []) × (known_free producer ≡ _capacity) ×
        (producer_capacity producer ≡ _capacity) × (received consumer ≡ []) ×
        (known_items consumer ≡ []) × (consumer_capacity consumer ≡ _capacity) }
    ensures pair { IsPair result.0 result.1.end }
    ensures producer { (sent result.0 ≡ []) × (known_free result.0 ≡ _capacity) ×
        (producer_capacity result.0 ≡ _capacity) }
    ensures consumer { (received result.1.end ≡ []) × (known_items result.1.end ≡ []) ×
        (consumer_capacity result.1.end ≡ _capacity) }
    ensures clock { result.1.clock ≡ 0 }
{
    (
        CountingProducer {
            end: producer,
            count: 0,
        },
        CountingConsumer {
            end: consumer,
            count: 0,
            clock: Clock::new(),
        },
    )
}

impl<T, A: Allocator, P: Protocol<T>> CountingProducer<T, A, P> {
    /// Returns the number of items that it has pushed, or 2^64 - 1 if there were more.
    pub fn count(&self) -> u64
        ensures { result ≡ counted (length (sent self.now)) }
    {
        self.count
    }

    /// Returns the number of free slots, for a thread that holds both ends. Every slot that holds
    /// no item is then known to be free.
    pub(crate) fn slots_beside(&mut self, consumer: &mut CountingConsumer<T, A, P>) -> usize
        requires { IsPair self.old consumer.old.end }
        ensures looked { ProducerLooked self.old self.new }
        ensures consumer { ConsumerLooked consumer.old.end consumer.new.end }
        ensures clock { consumer.new.clock ≡ consumer.old.clock }
        ensures value { result ≡ known_free self.new }
        ensures all_free { result + length (sent self.new) ≡
            producer_capacity self.new + length (received consumer.new.end) }
    {
        self.end.slots_beside(&mut consumer.end)
    }

    /// Consumes the end. Returns the proof of what it pushed, or `None` if the other end is closed.
    pub(crate) fn finish(self) -> Option<CountedFinish<T, A, P>>
    where
        T: Drop,
        ensures { IfSome result (λ f. Finishes self f) }
    {
        let CountingProducer { end, count } = self;
        match end.finish() {
            Some(end) => Some(CountedFinish { end, count }),
            None => None,
        }
    }
}

impl<T, A: Allocator, P: Protocol<T>> CountingConsumer<T, A, P> {
    /// Returns the number of items that it has popped, or 2^64 - 1 if there were more.
    pub fn count(&self) -> u64
        ensures { result ≡ counted (length (received self.now.end)) }
    {
        self.count
    }

    /// Returns the clock of its side.
    pub fn clock(&self) -> &Clock
        ensures { result.now.time ≡ self.now.clock }
    {
        &self.clock
    }

    /// Returns the number of items in the ring, for a thread that holds both ends. The end then
    /// knows each of them.
    pub(crate) fn slots_beside(&mut self, producer: &mut CountingProducer<T, A, P>) -> usize
        requires { IsPair producer.old self.old.end }
        ensures looked { ConsumerLooked self.old.end self.new.end }
        ensures clock { self.new.clock ≡ self.old.clock }
        ensures producer { ProducerLooked producer.old producer.new }
        ensures value { result ≡ length (known_items self.new.end) }
        ensures fifo { received self.new.end ++ known_items self.new.end ≡ sent producer.new }
    {
        self.end.slots_beside(&mut producer.end)
    }

    /// Returns the number of items in the ring once the producer was given up. The end then knows
    /// each of them.
    pub(crate) fn slots_after(&mut self, finished: &mut CountedFinish<T, A, P>) -> usize
        requires { IsFinishedOf finished.old self.old.end }
        ensures looked { ConsumerLooked self.old.end self.new.end }
        ensures clock { self.new.clock ≡ self.old.clock }
        ensures finished { IsFinishedOf finished.new self.new.end ×
            (all_sent finished.new ≡ all_sent finished.old) }
        ensures value { result ≡ length (known_items self.new.end) }
        ensures fifo { received self.new.end ++ known_items self.new.end ≡
            all_sent finished.old }
    {
        self.end.slots_after(&mut finished.end)
    }
}

// Pushes the first items of a slice, each with the clock's time, as many as there is room for, and
// returns their number.
fn push_all<T: Copy + Drop, A: Allocator, P: Protocol<Stamped<T>>>(
    producer: &mut Producer<Stamped<T>, A, P>,
    slice: &[T],
    clock: &Clock,
) -> usize
    requires { (before : List (Stamped T)) →
        All (λ x. P.allows before (stamped x clock.now.time)) slice.now }
    ensures ring { SameProducer producer.old producer.new }
    ensures count { result ≤ length slice.now }
    ensures sent { sent producer.new ≡
        sent producer.old ++ all_stamped clock.now.time (take result slice.now) }
    ensures known { known_free producer.old ≤ known_free producer.new + result }
    ensures most { result < length slice.now → known_free producer.new ≡ 0 }
{
    for i in 0..slice.len() {
        let item = slice[i];
        let stamp = Clock::same(clock);
        if producer.push(Stamped { item, stamp }).is_err() {
            return i;
        }
    }
    slice.len()
}

/// Pushes the first items of the slice, each with the clock's time, as many as there is room for.
/// Returns their number.
pub(crate) fn push_stamped<T: Copy + Drop, A: Allocator, P: Protocol<Stamped<T>>>(
    producer: &mut CountingProducer<Stamped<T>, A, P>,
    slice: &[T],
    clock: &Clock,
) -> usize
    requires { (before : List (Stamped T)) →
        All (λ x. P.allows before (stamped x clock.now.time)) slice.now }
    ensures ring { SameProducer producer.old producer.new }
    ensures count { result ≤ length slice.now }
    ensures sent { sent producer.new ≡
        sent producer.old ++ all_stamped clock.now.time (take result slice.now) }
    ensures known { known_free producer.old ≤ known_free producer.new + result }
    ensures most { result < length slice.now → known_free producer.new ≡ 0 }
{
    let count = push_all(&mut producer.end, slice, clock);
    producer.count = producer.count.saturating_add(count as u64);
    count
}

// Pops the oldest items into the slice, as many as there are and as it has room for, moves the
// clock on past their times, and returns their number.
fn pop_all<T: Copy + Drop, A: Allocator, P: Protocol<Stamped<T>>>(
    consumer: &mut Consumer<Stamped<T>, A, P>,
    slice: &mut [T],
    clock: &mut Clock,
) -> usize
    ensures ring { SameConsumer consumer.old consumer.new }
    ensures count { result ≤ length slice.old }
    ensures popped { Popped P.allows (received consumer.old) (received consumer.new)
        (known_items consumer.old) (known_items consumer.new) (take result slice.new)
        clock.old.time clock.new.time }
    ensures rest { drop result slice.new ≡ drop result slice.old }
    ensures most { result < length slice.old → length (known_items consumer.new) ≡ 0 }
{
    for i in 0..slice.len() {
        let Ok(stamped) = consumer.pop() else {
            return i;
        };
        let Stamped { item, stamp } = stamped;
        *clock = Clock::after(clock, &stamp);
        slice[i] = item;
    }
    slice.len()
}

/// Pops the oldest items into the slice, as many as there are and as it has room for, and moves the
/// clock on past their times. Returns their number.
pub(crate) fn pop_stamped<T: Copy + Drop, A: Allocator, P: Protocol<Stamped<T>>>(
    consumer: &mut CountingConsumer<Stamped<T>, A, P>,
    slice: &mut [T],
) -> usize
    ensures ring { SameConsumer consumer.old.end consumer.new.end }
    ensures count { result ≤ length slice.old }
    ensures popped { Popped P.allows (received consumer.old.end) (received consumer.new.end)
        (known_items consumer.old.end) (known_items consumer.new.end) (take result slice.new)
        consumer.old.clock consumer.new.clock }
    ensures rest { drop result slice.new ≡ drop result slice.old }
    ensures most { result < length slice.old → length (known_items consumer.new.end) ≡ 0 }
{
    let count = pop_all(&mut consumer.end, slice, &mut consumer.clock);
    consumer.count = consumer.count.saturating_add(count as u64);
    count
}
