//! The two ends of a crossing between two threads.
ghost use Rattle.std.specs.Prelude.{◌≡◌, ◌≤◌, ◌-◌, ◌↔◌, ◌++◌, [], List, length, min, take, slice_get, Some, IsOk, IsTrue, IfOk, IfErr, IfSome, OnOk, OnErr};
ghost use Rattle.rtrb.specs.Ring as rtrb;
ghost use Rattle.tl_lanes.specs.Lanes.{IsWidth};
ghost use Rattle.tl_msg.specs.Faults.{IsLawfulBeat};
ghost use Rattle.tl_msg.specs.declared.beat.BeatOf.{BeatOf};
ghost use Rattle.tl_burst.specs.Handing.{IsAdmitted, rest_of, fault_after};
ghost use Rattle.tl_ring.specs.Crossing.{World, offered, shut, inbox_room};
ghost use Rattle.tl_ring.specs.Counts.{IsNumberOf, counted};
ghost use Rattle.tl_ring.specs.Ends.{Sends, Takes, all_sent, taken_count, Pushed, Fetched, Shows, Shown, LookedAfter, IsReceiptOf, IsReceiptFor, Finishes, sending_of, taking_of, known_free, known_items, passed, closing, took_first};
ghost use Rattle.tl_ring.specs.declared.queue.TheConstants.{STAGE_CAPACITY};

use crate::clock::Clock;
use crate::counting::CountedFinish;
use crate::fault::EndFault;
use crate::halves::{RingReader, SendHalf, finish, is_drained, receive, send_staged, taken_count};
use crate::inbox::Inbox;
use crate::lawful::LawfulAt;
use crate::outbox::Outbox;
use crate::queue::STAGE_CAPACITY;
use crate::stamped::Stamped;
use std::alloc::{Allocator, Global};
use std::marker::Model;
use tl_msg::{Beat, BeatFault, Channel};

/// The sending end of one channel's crossing, from a bus of `W` bytes to a bus of `V` bytes.
///
/// Accepts near beats, and sends the resulting far beats through a ring: `offer` fills
/// the stage, which holds at most [`STAGE_CAPACITY`] beats, and `pump` moves beats from there into the ring.
/// The end can be moved to its own thread. No call waits for the other end (this project's
/// choice, after a crossing between two clocks).
#[derive(Drop)]
pub struct SendEnd<K: Channel, const W: usize, const V: usize, A: Allocator = Global> {
    pub(crate) outbox: Outbox<K, W, V>,
    pub(crate) producer: SendHalf<K, V, A>,
}

impl<K: Channel, const W: usize, const V: usize, A: Allocator> Model for SendEnd<K, W, V, A> {
    ghost use Rattle.std.specs.Prelude.{◌≡◌, false};
    ghost use Rattle.tl_ring.specs.Ends.{Sending, sending_of};

    ghost Value = { Sending K A K.Head V };

    ghost view = { λ s. sending_of s.outbox s.producer };

    ghost invariant = { λ s. s.outbox.closed ≡ false };
}

impl<K: Channel, const W: usize, const V: usize, A: Allocator> SendEnd<K, W, V, A> {
    /// Returns whether a beat may be offered, that is, whether nothing is staged.
    pub fn ready(&self) -> bool
        ensures { IsTrue result ↔ (self.now.stage ≡ []) }
    {
        self.outbox.ready()
    }

    /// Returns the number of staged far beats, at most [`STAGE_CAPACITY`].
    pub fn staged(&self) -> usize
        ensures count { result ≡ length self.now.stage }
        ensures most { result ≤ STAGE_CAPACITY }
    {
        self.outbox.staged()
    }

    /// Offers a near beat. If it is accepted, the far beats that it completes, at most [`STAGE_CAPACITY`],
    /// are staged. `home` is read only at a first beat of D. It is the address of the request
    /// to which the message responds.
    ///
    /// Errors: the first fault of the beat, if and only if it interrupts a burst or breaks a rule
    /// of the link after the beats accepted before. The end is then unchanged. Requires: `W` and
    /// `V` are widths, and nothing is staged.
    pub fn offer(&mut self, beat: Beat<K, W>, home: u64) -> Result<(), BeatFault>
        requires near { IsWidth W }
        requires far { IsWidth V }
        requires ready { self.old.stage ≡ [] }
        // for every crossing that the end represents
        ensures admitted { (x : World K.Head W V) → Sends K.rules self.old x →
            IsOk result ↔ IsAdmitted K.rules x.accepted beat }
        ensures accepted { (x : World K.Head W V) → Sends K.rules self.old x →
            OnOk result (Sends K.rules self.new (offered K.rules beat home x)) }
        ensures first_fault { (x : World K.Head W V) → Sends K.rules self.old x →
            IfErr result (λ fault. fault_after K.rules x.accepted beat ≡ Some fault) }
        // for every end
        ensures ring { self.new.producer ≡ self.old.producer }
        ensures refused { OnErr result (self.new ≡ self.old) }
    {
        self.outbox.offer(&beat, home)
    }

    /// Moves staged beats into the ring, in order. Returns their number: at least the number of
    /// free positions that the end knows of, or all staged beats if these are fewer. After a
    /// meeting it knows every free position.
    pub fn pump(&mut self) -> usize
        ensures least { min (length self.old.stage) (known_free self.old) ≤ result }
        ensures most { (result ≤ length self.old.stage) × (result ≤ STAGE_CAPACITY) }
        ensures pushed { Pushed self.old result self.new }
        // for every crossing that the end represents
        ensures stands { (x : World K.Head W V) → Sends K.rules self.old x →
            Sends K.rules self.new (passed result x) }
    {
        send_staged(&mut self.outbox, &mut self.producer, &Clock::new())
    }

    /// Ends the offers. Beats in the stage stay there, and still cross.
    ///
    /// Errors: `MidBurst` and the unchanged end, if and only if a burst is unfinished.
    pub fn close(self) -> Result<ClosingEnd<K, W, V, A>, (SendEnd<K, W, V, A>, EndFault)>
        // for every crossing that the end represents
        ensures between { (x : World K.Head W V) → Sends K.rules self x →
            IsOk result ↔ (rest_of K.rules W x.accepted ≡ []) }
        ensures stands { (x : World K.Head W V) → Sends K.rules self x →
            IfOk result (λ end. Sends K.rules end (shut x)) }
        // for every end
        ensures closed { IfOk result (λ end. end ≡ closing self) }
        ensures refused { IfErr result (λ refusal. refusal.0 ≡ self) }
    {
        let SendEnd {
            mut outbox,
            producer,
        } = self;
        match outbox.close() {
            Ok(()) => Ok(ClosingEnd { outbox, producer }),
            Err(fault) => Err((SendEnd { outbox, producer }, fault)),
        }
    }
}

/// A sending end that accepts no more beats. Staged beats still cross: `pump` sends them, and
/// `finish` then gives up the end.
#[derive(Drop)]
pub struct ClosingEnd<K: Channel, const W: usize, const V: usize, A: Allocator = Global> {
    pub(crate) outbox: Outbox<K, W, V>,
    pub(crate) producer: SendHalf<K, V, A>,
}

impl<K: Channel, const W: usize, const V: usize, A: Allocator> Model for ClosingEnd<K, W, V, A> {
    ghost use Rattle.std.specs.Prelude.{◌≡◌, true};
    ghost use Rattle.tl_ring.specs.Ends.{Sending, sending_of};

    ghost Value = { Sending K A K.Head V };

    ghost view = { λ c. sending_of c.outbox c.producer };

    ghost invariant = { λ c. c.outbox.closed ≡ true };
}

impl<K: Channel, const W: usize, const V: usize, A: Allocator> ClosingEnd<K, W, V, A> {
    /// Returns the number of staged far beats, at most [`STAGE_CAPACITY`].
    pub fn staged(&self) -> usize
        ensures count { result ≡ length self.now.stage }
        ensures most { result ≤ STAGE_CAPACITY }
    {
        self.outbox.staged()
    }

    /// Moves staged beats into the ring, as [`SendEnd::pump`] does. Returns their number.
    pub fn pump(&mut self) -> usize
        ensures least { min (length self.old.stage) (known_free self.old) ≤ result }
        ensures most { (result ≤ length self.old.stage) × (result ≤ STAGE_CAPACITY) }
        ensures pushed { Pushed self.old result self.new }
        // for every crossing that the end represents
        ensures stands { (x : World K.Head W V) → Sends K.rules self.old x →
            Sends K.rules self.new (passed result x) }
    {
        let ClosingEnd { outbox, producer } = self;
        send_staged(outbox, producer, &Clock::new())
    }

    /// Gives up the end. Returns the receipt that shows the taking end all beats that were sent. If
    /// it returns `None`, there is no receipt, and beats that were sent can still be fetched. No
    /// contract says when it returns `None`. Requires: nothing is staged.
    pub fn finish(self) -> Option<Receipt<K, W, V, A>>
        requires { self.stage ≡ [] }
        ensures receipt { IfSome result (λ receipt. Finishes self receipt) }
        // the taking end of the same ring can be asked with it
        ensures taker { IfSome result (λ receipt. IsReceiptFor self receipt) }
        // for every crossing that the end represents
        ensures shows { (x : World K.Head W V) → Sends K.rules self x →
            IfSome result (λ receipt. Shows K.rules receipt x) }
    {
        let ClosingEnd { outbox, producer } = self;
        finish(outbox, producer)
    }
}

/// The receipt that a sending end leaves. It shows the taking end all beats that were sent before
/// the sending end was given up. It can be moved to the thread of the taking end.
#[derive(Drop)]
pub struct Receipt<K: Channel, const W: usize, const V: usize, A: Allocator = Global> {
    pub(crate) finished: CountedFinish<Stamped<Beat<K, V>>, A, LawfulAt<K, V>>,
}

impl<K: Channel, const W: usize, const V: usize, A: Allocator> Model for Receipt<K, W, V, A> {
    ghost use Rattle.tl_ring.specs.Ends.{Ended};

    ghost Value = { Ended K A K.Head V };

    ghost view = { λ r. record { finished = r.finished } };
}

impl<K: Channel, const W: usize, const V: usize, A: Allocator> Receipt<K, W, V, A> {
    /// Returns the number of beats that the sending end has sent, or 2^64 - 1 if there were more.
    pub fn sent(&self) -> u64
        ensures { result ≡ counted (length (all_sent self.now)) }
    {
        self.finished.count
    }
}

/// The taking end of one channel's crossing, from a bus of `W` bytes to a bus of `V` bytes.
///
/// `fetch` moves far beats from the ring into the inbox, which holds at most [`STAGE_CAPACITY`] beats, and
/// `take` removes them from there, each once and in order. The end can be moved to a thread of its
/// own. No call waits for the other end (this project's choice, after a crossing between two
/// clocks).
#[derive(Drop)]
pub struct TakeEnd<K: Channel, const W: usize, const V: usize, A: Allocator = Global> {
    pub(crate) inbox: Inbox<K, V>,
    pub(crate) intake: RingReader<K, V, A>,
}

impl<K: Channel, const W: usize, const V: usize, A: Allocator> Model for TakeEnd<K, W, V, A> {
    ghost use Rattle.tl_ring.specs.Ends.{Taking, taking_of};

    ghost Value = { Taking K A K.Head V };

    ghost view = { λ t. taking_of t.inbox t.intake.half };
}

impl<K: Channel, const W: usize, const V: usize, A: Allocator> TakeEnd<K, W, V, A> {
    /// Creates the end from an inbox and its half of a ring.
    pub fn from_parts(inbox: Inbox<K, V>, intake: RingReader<K, V, A>) -> Self
        ensures { result ≡ taking_of inbox intake.half }
    {
        TakeEnd { inbox, intake }
    }

    /// Moves beats from the ring to the inbox, in order. Returns their number: at least the smaller
    /// of the number of beats that are known to be in the ring and the number of free places in the
    /// inbox, and never more than the latter. After a meeting it knows every beat in the ring.
    pub fn fetch(&mut self) -> usize
        ensures least { min (length (known_items self.old))
            (inbox_room - length self.old.inbox) ≤ result }
        ensures most { result ≤ inbox_room - length self.old.inbox }
        ensures fetched { Fetched self.old result self.new }
        ensures takes { (taken : List (BeatOf K.Head V)) →
            Takes self.old taken → Takes self.new taken }
    {
        receive(&mut self.intake, &mut self.inbox)
    }

    /// Removes and returns the first beat of the inbox. Returns `None` if and only if the inbox is
    /// empty. Each beat is lawful by itself: a new tracker of the far width does not refuse it.
    pub fn take(&mut self) -> Option<Beat<K, V>>
        ensures beat { result ≡ slice_get self.old.inbox 0 }
        ensures lawful { IfSome result (λ beat. IsLawfulBeat K.rules beat) }
        ensures rest { self.new ≡ took_first self.old }
        ensures takes { (taken : List (BeatOf K.Head V)) → Takes self.old taken →
            Takes self.new (taken ++ take 1 self.old.inbox) }
    {
        self.inbox.take()
    }

    /// Returns the number of beats that were taken from this end. It is exact if they are fewer
    /// than 2^63.
    pub fn taken(&self) -> u64
        ensures count { result ≡ taken_count self.now }
        // for every list that was taken
        ensures exact { (taken : List (BeatOf K.Head V)) → Takes self.now taken →
            IsNumberOf result taken }
    {
        taken_count(&self.intake, &self.inbox)
    }

    /// Returns whether ring and inbox are empty. The beats taken, followed by those in the inbox
    /// and the ring, are the far layout of all accepted beats: each beat once, in order. If both
    /// are empty, the beats taken are that layout. This is a meeting, after which the end knows
    /// every beat in the ring. No beat moves. Requires: the receipt is of the other end of this
    /// ring.
    pub fn drained(&mut self, receipt: &mut Receipt<K, W, V, A>) -> bool
        requires { IsReceiptOf receipt.old self.old }
        ensures looked { LookedAfter receipt.old self.old receipt.new self.new }
        ensures drained { IsTrue result ↔ ((self.new.inbox ≡ []) × (known_items self.new ≡ [])) }
        // for every crossing that the receipt shows
        ensures shown { (x : World K.Head W V) (taken : List (BeatOf K.Head V)) →
            Shows K.rules receipt.old x → Takes self.old taken →
            Shown K.rules receipt.new self.new x taken }
    {
        is_drained(&mut self.intake, &self.inbox, receipt)
    }
}
