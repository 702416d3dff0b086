ghost use Rattle.std.specs.Prelude.{◌≡◌, ◌+◌, ◌↔◌, ◌++◌, ◌∷◌, [], ℕ, None, Some, List, length, IfOk, IfErr, IsOk, IsTrue};
ghost use Rattle.tl_lanes.specs.Lanes.{IsWidth};
ghost use Rattle.tl_msg.specs.declared.beat.BeatOf.{BeatOf};
ghost use Rattle.tl_burst.specs.Messages.{beats_of};
ghost use Rattle.tl_burst.specs.Handing.{IsHanded, IsAdmitted, rest_of, burst_after, fault_in, fault_after};
ghost use Rattle.tl_burst.specs.Tracking.{IsOpen, IsPlace, burst_with};

use crate::faults::{continuing_fault, opening_fault};
use crate::held::{Held, held_by};
use crate::place::Place;
use std::marker::Model;
use tl_msg::{Beat, BeatFault, Channel, ranges_of_beat};

/// A checker of the bursts of one channel, `W` bytes wide.
///
/// It keeps no beats. It keeps only the head of the open burst, the number of its accepted beats,
/// and the facts that follow from the head for all beats. In contracts its value is the pair of
/// head and number, or `None` if no burst is open. It represents a list of accepted beats if this
/// value is `burst_after` of the list. A new tracker represents the empty list, and `advance` adds
/// one beat to the list.
#[derive(Drop)]
pub struct Tracker<K: Channel, const W: usize> {
    burst: Option<(K::Head, u32)>,
    // of the open burst; not read if no burst is open
    held: Held,
}

impl<K: Channel, const W: usize> Model for Tracker<K, W> {
    ghost use Rattle.std.specs.Prelude.{ℕ, Option};
    ghost use Rattle.tl_burst.specs.Tracking.{IsOpen};
    ghost use Rattle.tl_burst.specs.Inner.Holding.{IsHeldIn};

    ghost Value = { Option (K.Head × ℕ) };

    ghost view = { λ t. t.burst };

    ghost invariant = { λ t. IsOpen K.rules W t.burst × IsHeldIn K.rules W t.burst t.held };
}

impl<K: Channel, const W: usize> Tracker<K, W> {
    /// Creates a tracker that has seen no beat, so no burst is open.
    pub fn new() -> Self
        ensures { result ≡ None }
    {
        Tracker {
            burst: None,
            held: Held {
                lanes: 0,
                beats: 0,
                partial: false,
            },
        }
    }

    /// Checks whether the link admits `beat` next. Changes nothing.
    ///
    /// Returns the beat's place if it is admitted: its head, the number of beats of its message
    /// before it, and whether it is the last. `advance` takes this place.
    ///
    /// Errors: the beat's first fault. Outside a burst the order is `Opcode`, `Param`, `Size`,
    /// `Unaligned`, `Mask`, `Corrupt`; inside a burst it is `HeadChanged`, `Mask`. On C, D and E
    /// the mask is not read. A beat of E is never refused.
    ///
    /// Requires: `W` is a width (1, 2, 4, 8, 16, 32, 64 or 128 bytes). TileLink: burst rules, byte
    /// lanes, masks, signal descriptions, opcode and param tables. This project's choice: the order
    /// of the faults, and that the mask has all active lanes except on PutPartialData.
    // inlined, so that its large result does not pass through memory
    #[inline(always)]
    pub fn check(&self, beat: &Beat<K, W>) -> Result<Place<K>, BeatFault>
        requires { IsWidth W }

        // in terms of the open burst
        ensures accepts { IsOk result ↔ (fault_in K.rules self.now beat.now ≡ None) }
        ensures fault { IfErr result (λ fault. fault_in K.rules self.now beat.now ≡ Some fault) }
        ensures head { IfOk result (λ place. place.head ≡ beat.now.head) }
        ensures place { IfOk result (IsPlace K.rules W self.now) }
        ensures last { IfOk result (λ place.
            IsTrue place.last ↔ (place.index + 1 ≡ beats_of K.rules beat.now.head W)) }

        // for every list of accepted beats that the tracker represents
        ensures admitted { (bs : List (BeatOf K.Head W)) →
            IsHanded K.rules bs → self.now ≡ burst_after K.rules bs →
            IsOk result ↔ IsAdmitted K.rules bs beat.now }
        ensures first_fault { (bs : List (BeatOf K.Head W)) → self.now ≡ burst_after K.rules bs →
            IfErr result (λ fault. fault_after K.rules bs beat.now ≡ Some fault) }
        ensures index { (bs : List (BeatOf K.Head W)) → self.now ≡ burst_after K.rules bs →
            IfOk result (λ place. place.index ≡ length (rest_of K.rules W bs)) }
    {
        ranges_of_beat::<K, W>(beat);
        match self.first_fault(beat) {
            Some(fault) => Err(fault),
            None => Ok(self.place(beat.head)),
        }
    }

    /// Moves the tracker past an accepted beat, whose place is `place`.
    ///
    /// Afterwards the burst of the place's head is open, with one accepted beat more than before.
    /// After the last beat no burst is open. Requires: `W` is a width, and `place` is the place of
    /// a beat that is admitted in this state, as `check` returns it. TileLink: burst rules.
    pub fn advance(&mut self, place: Place<K>)
        requires width { IsWidth W }
        requires place { IsPlace K.rules W self.old place }
        ensures burst { self.new ≡ burst_with place }
        ensures stands { (bs : List (BeatOf K.Head W)) (b : BeatOf K.Head W) →
            self.old ≡ burst_after K.rules bs → b.head ≡ place.head →
            self.new ≡ burst_after K.rules (bs ++ b ∷ []) }
    {
        if place.last {
            self.burst = None;
            return;
        }
        match &mut self.burst {
            Some((_, count)) => *count = place.index + 1,
            None => {
                self.held = held_by::<K, W>(&place.head);
                self.burst = Some((place.head, 1));
            }
        }
    }

    /// Returns the head of the open burst and the number of its accepted beats, which is at least 1
    /// and less than the number of beats of the message. Returns `None` if no burst is open.
    pub fn in_burst(&self) -> Option<(K::Head, u32)>
        ensures burst { result ≡ self.now }
        ensures begun { IsOpen K.rules W self.now }
    {
        self.burst
    }

    /// Returns the first fault of a beat in this state.
    fn first_fault(&self, beat: &Beat<K, W>) -> Option<BeatFault>
        requires { IsWidth W }
        ensures fault { result ≡ fault_in K.rules self.now beat.now }
        ensures begun { IsOpen K.rules W self.now }
    {
        match &self.burst {
            Some((head, _)) => continuing_fault::<K, W>(head, &self.held, beat),
            None => opening_fault::<K, W>(beat),
        }
    }

    /// Returns the place of a beat with this head that has no fault in this state.
    fn place(&self, head: K::Head) -> Place<K>
        requires width { IsWidth W }
        requires lawful { K.rules.fault head ≡ None }
        requires held { (h : K.Head) (count : ℕ) → self.now ≡ Some (h, count) → head ≡ h }
        ensures head { result.head ≡ head }
        ensures place { IsPlace K.rules W self.now result }
    {
        match self.burst {
            Some((_, count)) => Place {
                head,
                index: count,
                last: count as usize + 1 == self.held.beats,
            },
            None => {
                let beats = held_by::<K, W>(&head).beats;
                Place {
                    head,
                    index: 0,
                    last: 1 == beats,
                }
            }
        }
    }
}
