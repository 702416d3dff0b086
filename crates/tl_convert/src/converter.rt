ghost use Rattle.std.specs.Prelude.{◌≡◌, ◌≤◌, ◌↔◌, ◌++◌, ◌∷◌, [], ℕ, Some, List, All, IfOk, IfErr, IsOk, OnOk, OnErr, IsTrue, length};
ghost use Rattle.tl_lanes.specs.declared.limits.TheConstants.{MAX_SIZE};
ghost use Rattle.tl_lanes.specs.Lanes.{IsWidth};
ghost use Rattle.tl_msg.specs.Faults.{IsLawfulBeat};
ghost use Rattle.tl_msg.specs.declared.beat.BeatOf.{BeatOf};
ghost use Rattle.tl_burst.specs.Handing.{IsAdmitted, rest_of, fault_after, homes_with};
ghost use Rattle.tl_burst.specs.Tracking.{IsPlace, IsPlaceOf};
ghost use Rattle.tl_convert.specs.Due.{due};
ghost use Rattle.tl_convert.specs.Converting.{StandsFor};

use crate::giving::give;
use arrayvec::ArrayVec;
use std::marker::Model;
use tl_burst::{Place, Tracker};
use tl_lanes::WIDEST;
use tl_msg::{Beat, BeatFault, Channel, ranges_of_beat};

/// Converts the beats of one channel from a bus of `W` bytes to a bus of `V` bytes.
///
/// It holds at most one far beat that is not yet whole. In contracts its value is a `Progress`: the
/// open burst, its home, and that far beat. `StandsFor` relates a converter to the near beats that
/// it was fed, with their homes.
///
/// The home of a message is the address that decides the lanes of its bytes. It is the address
/// field on A, B and C, and 0 on E. On D it is the address of the request that the message responds
/// to.
#[derive(Drop)]
pub struct Converter<K: Channel, const W: usize, const V: usize> {
    tracker: Tracker<K, W>,
    home: u64,
    partial: Beat<K, V>,
}

impl<K: Channel, const W: usize, const V: usize> Model for Converter<K, W, V> {
    ghost use Rattle.tl_convert.specs.Converting.{Progress, IsFed};

    ghost Value = { Progress K.Head V };

    ghost view = { λ c. record { burst = c.tracker; home = c.home; partial = c.partial } };

    ghost invariant = { λ c. IsFed K.rules W
        (record { burst = c.tracker; home = c.home; partial = c.partial }) };
}

impl<K: Channel, const W: usize, const V: usize> Converter<K, W, V> {
    /// Creates a converter that was fed nothing. Does not allocate.
    pub fn new() -> Self
        ensures { StandsFor {w = W} K.rules result [] [] }
    {
        Converter {
            tracker: Tracker::new(),
            home: 0,
            partial: Default::default(),
        }
    }

    /// Checks whether `beat` may be the next near beat. Changes nothing.
    ///
    /// Returns its place in its message. Errors: the first fault of the beat, if and only if it is
    /// not admitted after the beats that were fed. Outside a burst the order is Opcode, Param,
    /// Size, Unaligned, Mask, Corrupt; inside a burst it is HeadChanged, Mask. Requires: `W` is a
    /// width.
    #[inline(always)]
    pub fn check(&self, beat: &Beat<K, W>) -> Result<Place<K>, BeatFault>
        requires { IsWidth W }

        // for all near beats, with their homes, that the converter represents
        ensures admitted { (bs : List (BeatOf K.Head W)) (homes : List ℕ) →
            StandsFor K.rules self.now bs homes → IsOk result ↔ IsAdmitted K.rules bs beat.now }
        ensures fault { (bs : List (BeatOf K.Head W)) (homes : List ℕ) →
            StandsFor K.rules self.now bs homes →
            IfErr result (λ fault. fault_after K.rules bs beat.now ≡ Some fault) }
        ensures index { (bs : List (BeatOf K.Head W)) (homes : List ℕ) →
            StandsFor K.rules self.now bs homes →
            IfOk result (λ place. place.index ≡ length (rest_of K.rules W bs)) }

        // for every converter
        ensures place { IfOk result (IsPlaceOf K.rules W self.now.burst beat.now) }
    {
        self.tracker.check(beat)
    }

    /// Takes the next near beat at its place, which [`Converter::check`] returned. Writes the far
    /// beats that it completes, at most [`WIDEST`], to the caller's empty list `out`.
    ///
    /// `home` is used only on D, at the first beat of a message. It may be any number: the bytes
    /// then wrap around from the last lane to lane 0. Requires: `W` and `V` are widths, `place` is
    /// the place of `beat`, and `out` is empty.
    pub fn feed_at(
        &mut self,
        beat: &Beat<K, W>,
        place: Place<K>,
        home: u64,
        out: &mut ArrayVec<Beat<K, V>, WIDEST>,
    )
        requires near { IsWidth W }
        requires far { IsWidth V }
        requires place { IsPlaceOf K.rules W self.old.burst beat.now place }
        requires empty { out.old.items ≡ [] }

        // for all near beats, with their homes, that the converter represents
        ensures stands { (bs : List (BeatOf K.Head W)) (homes : List ℕ) →
            StandsFor K.rules self.old bs homes →
            StandsFor K.rules self.new (bs ++ beat.now ∷ [])
            (homes_with K.rules bs homes beat.now home) }
        ensures due { (bs : List (BeatOf K.Head W)) (homes : List ℕ) →
            StandsFor K.rules self.old bs homes →
            due K.rules W V (bs ++ beat.now ∷ []) (homes_with K.rules bs homes beat.now home) ≡
            due K.rules W V bs homes ++ out.new.items }

        // for every converter
        ensures lawful { All (λ b. IsLawfulBeat K.rules b) out.new.items }
    {
        ranges_of_beat::<K, W>(beat);
        self.place_is_lawful(beat, &place);
        let at = if place.index == 0 {
            K::lane_address(&beat.head, home)
        } else {
            self.home
        };
        self.home = at;
        give::<K, W, V>(beat, &mut self.partial, at, place.index, out);
        self.tracker.advance(place);
    }

    /// Lemma: a beat that may come next has a head without a fault, also inside a burst. Does
    /// nothing.
    fn place_is_lawful(&self, beat: &Beat<K, W>, place: &Place<K>)
        requires width { IsWidth W }
        requires place { IsPlaceOf K.rules W self.now.burst beat.now place.now }
        ensures place { IsPlace K.rules W self.now.burst place.now }
        ensures small { K.rules.size beat.now.head ≤ MAX_SIZE }
    {
        // (reading a field makes the invariant of the converter known)
        let _home = self.home;
    }

    /// Takes the next near beat if [`Converter::check`] admits it. Returns the far beats that it
    /// completes, at most [`WIDEST`]. `home` is used as in [`Converter::feed_at`]. Errors: the
    /// first fault of the beat; nothing changes. Requires: `W` and `V` are widths.
    pub fn feed(
        &mut self,
        beat: Beat<K, W>,
        home: u64,
    ) -> Result<ArrayVec<Beat<K, V>, WIDEST>, BeatFault>
        requires near { IsWidth W }
        requires far { IsWidth V }

        // for all near beats, with their homes, that the converter represents
        ensures admitted { (bs : List (BeatOf K.Head W)) (homes : List ℕ) →
            StandsFor K.rules self.old bs homes → IsOk result ↔ IsAdmitted K.rules bs beat }
        ensures fault { (bs : List (BeatOf K.Head W)) (homes : List ℕ) →
            StandsFor K.rules self.old bs homes →
            IfErr result (λ fault. fault_after K.rules bs beat ≡ Some fault) }
        ensures stands { (bs : List (BeatOf K.Head W)) (homes : List ℕ) →
            StandsFor K.rules self.old bs homes →
            OnOk result (StandsFor K.rules self.new (bs ++ beat ∷ [])
            (homes_with K.rules bs homes beat home)) }
        ensures due { (bs : List (BeatOf K.Head W)) (homes : List ℕ) →
            StandsFor K.rules self.old bs homes →
            IfOk result (λ out.
            due K.rules W V (bs ++ beat ∷ []) (homes_with K.rules bs homes beat home) ≡
            due K.rules W V bs homes ++ out.items) }

        // for every converter
        ensures lawful { IfOk result (λ out. All (λ b. IsLawfulBeat K.rules b) out.items) }
        ensures unchanged { OnErr result (self.new ≡ self.old) }
    {
        let place = match self.check(&beat) {
            Ok(place) => place,
            Err(fault) => return Err(fault),
        };
        let mut out = ArrayVec::new();
        self.feed_at(&beat, place, home, &mut out);
        Ok(out)
    }

    /// Returns whether no burst is unfinished: every message whose first beat was fed is whole.
    pub fn at_boundary(&self) -> bool
        ensures { (bs : List (BeatOf K.Head W)) (homes : List ℕ) →
            StandsFor K.rules self.now bs homes → IsTrue result ↔ (rest_of K.rules W bs ≡ []) }
    {
        self.tracker.in_burst().is_none()
    }
}
