//! The crossing of one channel within one thread.
ghost use Rattle.std.specs.Prelude.{◌≡◌, ◌≤◌, ◌<◌, ◌-◌, ◌↔◌, ◌⊎◌, [], length, min, slice_get, true, Some, IsOk, IsTrue, IfOk, IfErr, IfSome, OnOk, OnErr};
ghost use Rattle.tl_lanes.specs.Lanes.{IsWidth};
ghost use Rattle.tl_msg.specs.Faults.{IsLawfulBeat};
ghost use Rattle.tl_burst.specs.Handing.{IsAdmitted, rest_of, fault_after};
ghost use Rattle.tl_ring.specs.Crossing.{World, empty, offered, pushed, popped, took, shut, inbox_room};
ghost use Rattle.tl_ring.specs.Pipe.{StandsFor, IsReady, IsDrained};
ghost use Rattle.tl_ring.specs.declared.queue.TheConstants.{STAGE_CAPACITY};
ghost use Rattle.tl_ring.specs.declared.pipe.TheConstants.{MAX_RING};

use crate::fault::{BuildFault, EndFault};
use crate::inbox::Inbox;
use crate::outbox::Outbox;
use crate::ring::{Ring, fetch, pump};
use crate::standing::Standing;
use std::alloc::{Allocator, Global};
use std::marker::Model;
use tl_msg::{Beat, BeatFault, Channel};

/// The most beats that a ring may hold (this project's choice).
pub const MAX_RING: usize = 4096;

const _: () = prove!(MAX_RING == 4096);

/// The crossing of one channel within one thread, from a bus of `W` bytes to a bus of `V` bytes.
///
/// Near beats are offered at one end, and the far beats that become due are taken at the other.
/// After each call the beats taken, followed by those in the inbox, the ring and the stage, are the
/// far layout of the accepted beats: each beat once, in order. Between the ends are a stage, a ring
/// and an inbox: `offer` fills the stage, `pump` moves beats from the stage into the ring, `fetch`
/// moves them from the ring into the inbox, and `take` removes them from there. Stage and inbox
/// hold at most [`STAGE_CAPACITY`] beats each, and the ring as many as `new` was asked for (this project's
/// choice, after a crossing between two clocks).
#[derive(Drop)]
pub struct SyncPipe<K: Channel, const W: usize, const V: usize, A: Allocator = Global> {
    outbox: Outbox<K, W, V>,
    ring: Ring<K, V, A>,
    inbox: Inbox<K, V>,
}

impl<K: Channel, const W: usize, const V: usize, A: Allocator> Model for SyncPipe<K, W, V, A> {
    ghost use Rattle.tl_ring.specs.Pipe.{Pipe};

    ghost Value = { Pipe K.Head V };

    ghost view = { λ p. record {
      converter = p.outbox.converter;
      room = p.ring.capacity;
      stage = p.outbox.stage;
      ring = p.ring.items;
      inbox = p.inbox;
      closed = p.outbox.closed;
    } };
}

impl<K: Channel, const W: usize, const V: usize, A: Allocator> SyncPipe<K, W, V, A> {
    /// Creates a pipe with a ring of `ring` beats, the only memory that it allocates.
    ///
    /// Errors: `RingSize` if and only if `ring` is 0 or above 4,096; otherwise `OutOfMemory` if the
    /// allocator fails. Requires: `W` and `V` are widths.
    pub fn new(alloc: A, ring: usize) -> Result<Self, BuildFault>
        requires near { IsWidth W }
        requires far { IsWidth V }
        ensures new { IfOk result (λ pipe. StandsFor K.rules {w = W} pipe (empty ring)) }
        ensures size { IsOk result → (1 ≤ ring) × (ring ≤ MAX_RING) }
        ensures ring_size { IfErr result (λ fault.
            (fault ≡ BuildFault.RingSize) ↔ ((ring ≡ 0) ⊎ (MAX_RING < ring))) }
    {
        match Ring::new(alloc, ring) {
            Ok(ring) => Ok(SyncPipe {
                outbox: Outbox::new(),
                ring,
                inbox: Inbox::new(),
            }),
            Err(fault) => Err(fault),
        }
    }

    /// Returns whether a beat may be offered: nothing is staged and the pipe is not closed.
    pub fn ready(&self) -> bool
        ensures { IsTrue result ↔ IsReady self.now }
    {
        self.outbox.ready()
    }

    /// Offers a near beat. If it is accepted, the far beats that it completes, at most [`STAGE_CAPACITY`],
    /// are staged. `home` is read only at a first beat of D. It is the address of the request
    /// to which the message responds.
    ///
    /// Errors: the first fault of the beat, if and only if it interrupts a burst or breaks a rule
    /// of the link after the beats accepted before. The pipe is then unchanged. Requires: `W` and
    /// `V` are widths, and the pipe is ready.
    pub fn offer(&mut self, beat: Beat<K, W>, home: u64) -> Result<(), BeatFault>
        requires near { IsWidth W }
        requires far { IsWidth V }
        requires ready { IsReady self.old }
        // for every crossing that the pipe represents
        ensures admitted { (x : World K.Head W V) → StandsFor K.rules self.old x →
            IsOk result ↔ IsAdmitted K.rules x.accepted beat }
        ensures accepted { (x : World K.Head W V) → StandsFor K.rules self.old x →
            OnOk result (StandsFor K.rules self.new (offered K.rules beat home x)) }
        ensures first_fault { (x : World K.Head W V) → StandsFor K.rules self.old x →
            IfErr result (λ fault. fault_after K.rules x.accepted beat ≡ Some fault) }
        // for every pipe
        ensures refused { OnErr result (self.new ≡ self.old) }
    {
        self.outbox.offer(&beat, home)
    }

    /// Moves staged beats to the ring, as many as it has room for. Returns their number.
    pub fn pump(&mut self) -> usize
        ensures count { result ≡
            min (length self.old.stage) (self.old.room - length self.old.ring) }
        ensures moved { (x : World K.Head W V) → StandsFor K.rules self.old x →
            StandsFor K.rules self.new (pushed result x) }
        ensures most { result ≤ STAGE_CAPACITY }
    {
        pump(&mut self.outbox, &mut self.ring)
    }

    /// Moves beats from the ring to the inbox, as many as it has room for. Returns their number.
    pub fn fetch(&mut self) -> usize
        ensures count { result ≡ min (length self.old.ring) (inbox_room - length self.old.inbox) }
        ensures moved { (x : World K.Head W V) → StandsFor K.rules self.old x →
            StandsFor K.rules self.new (popped result x) }
        ensures most { result ≤ STAGE_CAPACITY }
    {
        fetch(&mut self.ring, &mut self.inbox)
    }

    /// Removes and returns the first beat of the inbox. Returns `None` if and only if the inbox is
    /// empty. Each beat is lawful by itself: a new tracker of the far width does not refuse it.
    pub fn take(&mut self) -> Option<Beat<K, V>>
        ensures beat { result ≡ slice_get self.old.inbox 0 }
        ensures lawful { IfSome result (λ beat. IsLawfulBeat K.rules beat) }
        ensures taken { (x : World K.Head W V) → StandsFor K.rules self.old x →
            StandsFor K.rules self.new (took x) }
    {
        self.inbox.take()
    }

    /// Ends the offers. Beats in the stage stay there, and still cross. Closing again returns `Ok`
    /// and changes nothing.
    ///
    /// Errors: `MidBurst` if and only if a burst is unfinished; nothing changes then.
    pub fn close(&mut self) -> Result<(), EndFault>
        // for every crossing that the pipe represents
        ensures between { (x : World K.Head W V) → StandsFor K.rules self.old x →
            IsOk result ↔ (rest_of K.rules W x.accepted ≡ []) }
        ensures closed { (x : World K.Head W V) → StandsFor K.rules self.old x →
            OnOk result (StandsFor K.rules self.new (shut x)) }
        // for every pipe
        ensures again { self.old.closed ≡ true → IsOk result × (self.new ≡ self.old) }
        ensures refused { OnErr result (self.new ≡ self.old) }
    {
        self.outbox.close()
    }

    /// Returns whether the pipe is closed and nothing is under way. The beats taken are then the
    /// far layout of all accepted beats.
    pub fn drained(&self) -> bool
        ensures { IsTrue result ↔ IsDrained self.now }
    {
        let at = self.standing();
        self.outbox.closed & (at.staged + at.in_ring + at.inbox == 0)
    }

    /// Returns the number of far beats in the stage, in the ring and in the inbox.
    pub fn standing(&self) -> Standing
        ensures staged { result.staged ≡ length self.now.stage }
        ensures in_ring { result.in_ring ≡ length self.now.ring }
        ensures inbox { result.inbox ≡ length self.now.inbox }
        ensures most { (result.staged ≤ STAGE_CAPACITY) × (result.in_ring ≤ MAX_RING) ×
            (result.inbox ≤ STAGE_CAPACITY) }
    {
        Standing::between(&self.outbox, self.ring.len(), &self.inbox)
    }
}
