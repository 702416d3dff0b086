//! The receiver's part of a crossing, after any ring.
ghost use Rattle.std.specs.Prelude.{◌≡◌, ◌≤◌, ◌++◌, [], List, drop, take, length, slice_get, IfSome};
ghost use Rattle.tl_msg.specs.Faults.{IsLawfulBeat};
ghost use Rattle.tl_msg.specs.declared.beat.BeatOf.{BeatOf};
ghost use Rattle.tl_ring.specs.Boxes.{AreLawful, HasTaken};
ghost use Rattle.tl_ring.specs.Crossing.{inbox_room};

use crate::queue::Queue;
use std::marker::Model;
use tl_msg::{Beat, Channel};

/// The far beats of one channel's crossing that arrived at the receiver, on a bus of `V` bytes, and
/// are not yet taken, in order. They are at most [`crate::STAGE_CAPACITY`], and each is lawful by itself. An
/// inbox does not depend on the ring that brings the beats.
#[derive(Drop)]
pub struct Inbox<K: Channel, const V: usize> {
    pub(crate) queue: Queue<Beat<K, V>>,
}

impl<K: Channel, const V: usize> Model for Inbox<K, V> {
    ghost use Rattle.std.specs.Prelude.{List};
    ghost use Rattle.tl_msg.specs.declared.beat.BeatOf.{BeatOf};
    ghost use Rattle.tl_ring.specs.Boxes.{AreLawful};

    ghost Value = { List (BeatOf K.Head V) };

    ghost view = { λ i. i.queue };

    ghost invariant = { λ i. AreLawful K.rules i.queue };
}

impl<K: Channel, const V: usize> Inbox<K, V> {
    /// Creates an empty inbox.
    pub fn new() -> Self
        ensures { result ≡ [] }
    {
        Inbox {
            queue: Queue::new(),
        }
    }

    /// Returns the number of beats in the inbox.
    pub fn len(&self) -> usize
        ensures count { result ≡ length self.now }
        ensures most { result ≤ inbox_room }
    {
        self.queue.len()
    }

    /// Returns the beats, in order, for use with [`Inbox::take_all`].
    pub fn as_slice(&self) -> &[Beat<K, V>]
        ensures beats { result.now ≡ self.now }
        ensures lawful { AreLawful K.rules result.now }
    {
        self.queue.as_slice()
    }

    /// Removes and returns the first beat. Returns `None` if and only if the inbox is empty. Each
    /// beat is lawful by itself: a new tracker of its width does not refuse it.
    pub fn take(&mut self) -> Option<Beat<K, V>>
        ensures beat { result ≡ slice_get self.old 0 }
        ensures lawful { IfSome result (λ beat. IsLawfulBeat K.rules beat) }
        ensures rest { self.new ≡ drop 1 self.old }
        // for all beats that arrived and were taken
        ensures taken { (received taken : List (BeatOf K.Head V)) →
            HasTaken self.old received taken →
            HasTaken self.new received (taken ++ take 1 self.old) }
    {
        self.queue.pop_front()
    }

    /// Removes all beats, those that [`Inbox::as_slice`] returns.
    pub fn take_all(&mut self)
        ensures { self.new ≡ [] }
    {
        let count = self.queue.len();
        self.queue.drop_front(count);
    }
}
