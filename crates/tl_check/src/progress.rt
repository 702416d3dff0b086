//! The progress of one channel.
ghost use Rattle.std.specs.Prelude.{◌≡◌, ◌+◌, ◌≤◌, ◌<◌, ◌*◌, ◌^◌, ◌++◌, ◌∷◌, [], ℕ, None, Some, List, slice_get, take};
ghost use Rattle.tl_lanes.specs.declared.limits.TheConstants.{WIDEST};
ghost use Rattle.tl_lanes.specs.Lanes.{IsWidth};
ghost use Rattle.tl_msg.specs.declared.beat.BeatOf.{BeatOf};
ghost use Rattle.tl_burst.specs.Begun.{left};
ghost use Rattle.tl_burst.specs.Handing.{IsHanded, fault_in};
ghost use Rattle.tl_burst.specs.Tracking.{IsPlace};
ghost use Rattle.tl_settle.specs.Outcomes.{verdict_of};
ghost use Rattle.tl_check.specs.Inner.Passing.{HasCome};

use tl_burst::{Place, Tracker};
use tl_convert::far_beats_between;
use tl_msg::{Channel, SideFault, Verdict};

/// The progress of a channel: the unfinished burst, the number of accepted near beats, and the
/// number of far beats that they make due.
#[derive(Drop)]
pub(crate) struct Progress<K: Channel, const W: usize> {
    /// The unfinished burst, if there is one.
    pub(crate) tracker: Tracker<K, W>,
    /// The number of accepted near beats.
    pub(crate) at: usize,
    /// The number of far beats that they make due.
    pub(crate) far: usize,
}

impl<K: Channel, const W: usize> Progress<K, W> {
    // Returns the progress of a channel that has accepted nothing yet.
    pub(crate) fn new() -> Self
        ensures come { (v : ℕ) (bs : List (BeatOf K.Head W)) →
            HasCome K.rules v bs result.tracker result.at result.far }
        ensures begins { result.at ≡ 0 }
        ensures none { result.far ≡ 0 }
    {
        Progress {
            tracker: Tracker::new(),
            at: 0,
            far: 0,
        }
    }

    // Advances by the next beat, which is accepted and is at this place of its message. Returns the
    // number of beats of the far width that it makes due.
    pub(crate) fn accept(&mut self, place: Place<K>, far_width: usize) -> usize
        requires { IsWidth W × IsWidth far_width × IsPlace K.rules W self.old.tracker place ×
            (self.old.at < 2 ^ 40) × (self.old.far ≤ WIDEST * self.old.at) }
        ensures at { self.new.at ≡ self.old.at + 1 }
        ensures far { self.new.far ≡ self.old.far + result }
        ensures few_far { self.new.far ≤ WIDEST * self.new.at }
        ensures come { (bs : List (BeatOf K.Head W)) (b : BeatOf K.Head W) →
            HasCome K.rules far_width bs self.old.tracker self.old.at self.old.far →
            slice_get bs self.old.at ≡ Some b → place.head ≡ b.head →
            fault_in K.rules self.old.tracker b ≡ None →
            IsHanded K.rules (take self.old.at bs ++ b ∷ []) →
            HasCome K.rules far_width bs self.new.tracker self.new.at self.new.far }
    {
        let given = far_beats_between(&place, W, far_width);
        self.tracker.advance(place);
        self.at += 1;
        self.far += given;
        given
    }

    // Returns the channel's verdict, if its next beat is refused for this reason, or if there is
    // none.
    pub(crate) fn verdict(&self, stopped_by: Option<SideFault>) -> Verdict
        ensures { (v : ℕ) (bs : List (BeatOf K.Head W)) →
            HasCome K.rules v bs self.now.tracker self.now.at self.now.far →
            result ≡ verdict_of self.now.at self.now.far (left K.rules W (take self.now.at bs))
            stopped_by }
    {
        let (near, far) = (self.at as u64, self.far as u64);
        let Some(fault) = stopped_by else {
            return match self.tracker.in_burst() {
                None => Verdict::Done { near, far },
                Some(_) => Verdict::Cut { near, far },
            };
        };
        match fault {
            SideFault::Beat(_) | SideFault::SizeMismatch => Verdict::Refused { at: near, fault },
            SideFault::SourceBusy | SideFault::NoRequest => Verdict::Waiting { at: near, fault },
        }
    }
}
