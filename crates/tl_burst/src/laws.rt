//! Laws over the definitions of handed lists, for callers' proofs. Each function does nothing; its
//! contract is the law, for every channel and every width.
ghost use Rattle.std.specs.Prelude.{◌≡◌, ◌<◌, ◌↔◌, ◌^◌, ◌++◌, ◌∷◌, [], ℕ, Option, None, List, map};
ghost use Rattle.tl_lanes.specs.Lanes.{IsWidth};
ghost use Rattle.tl_msg.specs.declared.beat.BeatOf.{BeatOf};
ghost use Rattle.tl_msg.specs.declared.head.HeadE.{HeadE};
ghost use Rattle.tl_msg.specs.Beats.{IsBeat};
ghost use Rattle.tl_msg.specs.Tables.{rules_e};
ghost use Rattle.tl_burst.specs.Messages.{Message};
ghost use Rattle.tl_burst.specs.Handing.{Handed, IsHanded, IsHandedWith, IsAdmitted, rest_of, homes_with, fault_after};
ghost use Rattle.tl_burst.specs.Tracking.{IsOpen, IsPlace, IsPlaceOf};
ghost use Rattle.tl_burst.specs.declared.place.Place.{Place};
ghost use Rattle.tl_burst.specs.Begun.{heads, left, rest_heads};

use tl_msg::Channel;

/// Lemma: after beats that are handed, a beat has no fault if and only if it is admitted, that is,
/// if the list with this beat is also handed.
pub fn faults_are_exact<K: Channel, const W: usize>()
    requires { IsWidth W }
    ensures { (bs : List (BeatOf K.Head W)) (b : BeatOf K.Head W) →
        IsHanded K.rules bs → IsBeat K.rules b →
        (fault_after K.rules bs b ≡ None) ↔ IsAdmitted K.rules bs b }
{}

/// Lemma: if beats are handed with some homes, and the next beat has no fault, then the longer list
/// is handed with these homes. If the beat opens a message, its own home is added to them.
pub fn homes_are_kept<K: Channel, const W: usize>()
    requires { IsWidth W }
    ensures { (bs : List (BeatOf K.Head W)) (homes : List ℕ) (b : BeatOf K.Head W) (home : ℕ) →
        IsHandedWith K.rules bs homes → IsBeat K.rules b → fault_after K.rules bs b ≡ None →
        K.rules.lane_address b.head home < 2 ^ 64 →
        IsHandedWith K.rules (bs ++ b ∷ []) (homes_with K.rules bs homes b home) }
{}

/// Lemma: the first beats of a handed list are handed. So, with `faults_are_exact`, a list of beats
/// in the ranges of their types is handed if and only if no beat has a fault after those before it.
pub fn fronts_are_handed<K: Channel, const W: usize>()
    ensures { (bs cs : List (BeatOf K.Head W)) → IsHanded K.rules (bs ++ cs) → IsHanded K.rules bs }
{}

/// Lemma: the unfinished rest of handed beats is determined by the sizes in their heads. So there
/// is only one rest, however the beats are read.
pub fn rest_is_computed<K: Channel, const W: usize>()
    ensures { (bs : List (BeatOf K.Head W)) (homes : List ℕ)
        (ms : List (Message K.Head)) (rest : List (BeatOf K.Head W)) →
        Handed K.rules W bs homes ms rest → rest ≡ rest_of K.rules W bs }
{}

/// Lemma: the sizes in the heads of handed beats determine the beats that begin a message, and
/// whether the last message is unfinished.
pub fn beginnings_are_computed<K: Channel, const W: usize>()
    requires { IsWidth W }
    ensures heads { (bs : List (BeatOf K.Head W)) (homes : List ℕ)
        (ms : List (Message K.Head)) (rest : List (BeatOf K.Head W)) →
        Handed K.rules W bs homes ms rest →
        heads K.rules W bs ≡ map (λ m. m.head) ms ++ rest_heads K.rules W rest }
    ensures left { (bs : List (BeatOf K.Head W)) →
        IsHanded K.rules bs → (left K.rules W bs ≡ 0) ↔ (rest_of K.rules W bs ≡ []) }
{}

/// Lemma: for a given state of the burst, a place meets the precondition of `Tracker::advance` if
/// and only if it is the place of a beat that has no fault in this state.
pub fn places_are_exact<K: Channel, const W: usize>()
    requires { IsWidth W }
    ensures { (burst : Option (K.Head × ℕ)) (place : Place K K.Head) → IsOpen K.rules W burst →
        IsPlace K.rules W burst place ↔ (b : BeatOf K.Head W) × IsPlaceOf K.rules W burst b place }
{}

/// Lemma: a beat of E has no fault, after any beats of E.
pub fn e_is_never_refused<const W: usize>()
    ensures { (bs : List (BeatOf HeadE W)) (b : BeatOf HeadE W) → fault_after rules_e bs b ≡ None }
{}
