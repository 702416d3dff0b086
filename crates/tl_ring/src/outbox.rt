//! The sender's part of a crossing, before any ring.
ghost use Rattle.std.specs.Prelude.{◌≡◌, ◌≤◌, ◌<◌, ◌++◌, ◌∷◌, ◌↔◌, [], List, ℕ, true, false, length, Some, IsOk, IsTrue, IfOk, IfErr, OnOk, OnErr};
ghost use Rattle.tl_lanes.specs.Lanes.{IsWidth};
ghost use Rattle.tl_msg.specs.declared.beat.BeatOf.{BeatOf};
ghost use Rattle.tl_burst.specs.Handing.{IsAdmitted, rest_of, fault_after, homes_with};
ghost use Rattle.tl_burst.specs.Tracking.{IsPlaceOf};
ghost use Rattle.tl_ring.specs.Boxes.{AreLawful, HasSent, IsOpen, IsSentOut};
ghost use Rattle.tl_ring.specs.declared.queue.TheConstants.{STAGE_CAPACITY};

use crate::fault::EndFault;
use crate::queue::Queue;
use crate::stage::stage_beat;
use std::marker::Model;
use tl_burst::Place;
use tl_convert::Converter;
use tl_msg::{Beat, BeatFault, Channel};

/// The sender's part of one channel's crossing, from a bus of `W` bytes to a bus of `V` bytes.
///
/// Near beats are offered to it, and the far beats that become due are staged, at most
/// [`crate::STAGE_CAPACITY`], until the caller has sent them. An outbox does not depend on the ring that
/// carries them.
#[derive(Drop)]
pub struct Outbox<K: Channel, const W: usize, const V: usize> {
    converter: Converter<K, W, V>,
    pub(crate) stage: Queue<Beat<K, V>>,
    pub(crate) closed: bool,
}

impl<K: Channel, const W: usize, const V: usize> Model for Outbox<K, W, V> {
    ghost use Rattle.tl_ring.specs.Boxes.{Outgoing, AreLawful};

    ghost Value = { Outgoing K.Head V };

    ghost view = { λ o. record { converter = o.converter; stage = o.stage; closed = o.closed } };

    ghost invariant = { λ o. AreLawful K.rules o.stage };
}

impl<K: Channel, const W: usize, const V: usize> Outbox<K, W, V> {
    /// Creates an outbox. It has no precondition on the widths; its postconditions apply only to
    /// valid ones.
    pub fn new() -> Self
        ensures stands { IsWidth W → IsWidth V → HasSent K.rules {w = W} result [] [] [] }
        ensures ready { IsOpen result }
    {
        Outbox {
            converter: Converter::new(),
            stage: Queue::new(),
            closed: false,
        }
    }

    /// Returns whether a beat may be offered: nothing is staged and the outbox is not closed.
    pub fn ready(&self) -> bool
        ensures { IsTrue result ↔ IsOpen self.now }
    {
        (self.stage.len() == 0) & !self.closed
    }

    /// Returns whether the outbox is closed and nothing is staged.
    pub fn is_sent_out(&self) -> bool
        ensures { IsTrue result ↔ IsSentOut self.now }
    {
        (self.stage.len() == 0) & self.closed
    }

    /// Returns the number of staged far beats.
    pub fn staged(&self) -> usize
        ensures count { result ≡ length self.now.stage }
        ensures most { result ≤ STAGE_CAPACITY }
    {
        self.stage.len()
    }

    /// Checks whether `beat` may be the next near beat. Returns its place in its message. Nothing
    /// changes.
    ///
    /// Errors: the first fault of the beat, if and only if it interrupts a burst or breaks a rule
    /// of the link after the beats accepted before. Requires: `W` is a width.
    #[inline(always)]
    pub fn check(&self, beat: &Beat<K, W>) -> Result<Place<K>, BeatFault>
        requires { IsWidth W }
        // for all beats that the outbox accepted and sent
        ensures admitted { (bs : List (BeatOf K.Head W)) (homes : List ℕ) (sent : List (BeatOf K.Head V)) →
            HasSent K.rules self.now bs homes sent →
            IsOk result ↔ IsAdmitted K.rules bs beat.now }
        ensures first_fault { (bs : List (BeatOf K.Head W)) (homes : List ℕ) (sent : List (BeatOf K.Head V)) →
            HasSent K.rules self.now bs homes sent →
            IfErr result (λ fault. fault_after K.rules bs beat.now ≡ Some fault) }
        ensures index { (bs : List (BeatOf K.Head W)) (homes : List ℕ) (sent : List (BeatOf K.Head V)) →
            HasSent K.rules self.now bs homes sent →
            IfOk result (λ place. place.index ≡ length (rest_of K.rules W bs)) }
        // for every outbox
        ensures place { IfOk result (IsPlaceOf K.rules W self.now.converter.burst beat.now) }
    {
        self.converter.check(beat)
    }

    /// Offers a near beat at `place`, which [`Outbox::check`] returned. The far beats that it
    /// completes, at most [`crate::STAGE_CAPACITY`], are then staged. `home` is read only at a first beat of
    /// D. It is the address of the request to which the message responds. Requires: `W` and `V` are
    /// widths, the outbox is ready, and `place` is the place of the beat.
    pub fn offer_at(&mut self, beat: &Beat<K, W>, place: Place<K>, home: u64)
        // (one clause, because the checker proves each clause separately at each call)
        requires { IsWidth W × IsWidth V × IsOpen self.old ×
            IsPlaceOf K.rules W self.old.converter.burst beat.now place }
        // for all beats that the outbox accepted and sent
        ensures accepted { (bs : List (BeatOf K.Head W)) (homes : List ℕ) (sent : List (BeatOf K.Head V)) →
            HasSent K.rules self.old bs homes sent →
            HasSent K.rules self.new (bs ++ beat.now ∷ []) (homes_with K.rules bs homes beat.now home) sent }
        // for every outbox
        ensures still { self.new.closed ≡ false }
    {
        stage_beat(&mut self.converter, beat, place, home, &mut self.stage);
    }

    /// Offers a near beat. It is accepted if and only if [`Outbox::check`] admits it, with the
    /// effect of [`Outbox::offer_at`].
    ///
    /// Errors: the first fault of the beat; the outbox is then unchanged. Requires: `W` and `V` are
    /// widths, and the outbox is ready.
    pub fn offer(&mut self, beat: &Beat<K, W>, home: u64) -> Result<(), BeatFault>
        requires { IsWidth W × IsWidth V × IsOpen self.old }
        // for all beats that the outbox accepted and sent
        ensures admitted { (bs : List (BeatOf K.Head W)) (homes : List ℕ) (sent : List (BeatOf K.Head V)) →
            HasSent K.rules self.old bs homes sent →
            IsOk result ↔ IsAdmitted K.rules bs beat.now }
        ensures accepted { (bs : List (BeatOf K.Head W)) (homes : List ℕ) (sent : List (BeatOf K.Head V)) →
            HasSent K.rules self.old bs homes sent →
            OnOk result (HasSent K.rules self.new (bs ++ beat.now ∷ []) (homes_with K.rules bs homes beat.now home) sent) }
        ensures first_fault { (bs : List (BeatOf K.Head W)) (homes : List ℕ) (sent : List (BeatOf K.Head V)) →
            HasSent K.rules self.old bs homes sent →
            IfErr result (λ fault. fault_after K.rules bs beat.now ≡ Some fault) }
        // for every outbox
        ensures still { self.new.closed ≡ false }
        ensures refused { OnErr result (self.new ≡ self.old) }
    {
        let place = match self.check(beat) {
            Ok(place) => place,
            Err(fault) => return Err(fault),
        };
        self.offer_at(beat, place, home);
        Ok(())
    }

    /// Ends the offers. Beats in the stage stay there. Closing again returns `Ok` and changes
    /// nothing.
    ///
    /// Errors: `MidBurst` if and only if a burst is unfinished; nothing changes then.
    pub fn close(&mut self) -> Result<(), EndFault>
        // for all beats that the outbox accepted and sent
        ensures between { (bs : List (BeatOf K.Head W)) (homes : List ℕ) (sent : List (BeatOf K.Head V)) →
            HasSent K.rules self.old bs homes sent →
            IsOk result ↔ (rest_of K.rules W bs ≡ []) }
        ensures stands { (bs : List (BeatOf K.Head W)) (homes : List ℕ) (sent : List (BeatOf K.Head V)) →
            HasSent K.rules self.old bs homes sent →
            OnOk result (HasSent K.rules self.new bs homes sent) }
        // for every outbox
        ensures closed { OnOk result (self.new ≡ record self.old { closed = true }) }
        ensures again { self.old.closed ≡ true → IsOk result × (self.new ≡ self.old) }
        ensures refused { OnErr result (self.new ≡ self.old) }
    {
        let may_close = self.closed | self.converter.at_boundary();
        if !may_close {
            return Err(EndFault::MidBurst);
        }
        self.closed = true;
        Ok(())
    }
}
