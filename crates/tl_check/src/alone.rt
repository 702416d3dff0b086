//! A channel that does not depend on another channel: B, C or E.
ghost use Rattle.std.specs.Prelude.{◌≡◌, List, length, take};
ghost use Rattle.tl_lanes.specs.Lanes.{IsWidth};
ghost use Rattle.tl_msg.specs.declared.beat.BeatOf.{BeatOf};
ghost use Rattle.tl_burst.specs.Begun.{left};
ghost use Rattle.tl_burst.specs.Handing.{fault_after};
ghost use Rattle.tl_settle.specs.Outcomes.{verdict_alone, verdict_of};
ghost use Rattle.tl_check.specs.Inner.Passing.{HasCome, IsWithin};
ghost use Rattle.tl_parts.specs.Parts.{IsEnd, IsPart};
ghost use Rattle.tl_parts.specs.Stopping.{IsStuck};

use crate::progress::Progress;
use tl_msg::{Beat, Channel, SideFault};

// Advances a channel that does not depend on another channel, up to the first beat that is refused.
// `discarded` beats of its list were discarded, and `beats` are held. Returns the reason why the next
// beat is refused, or `None` if no beat is left.
#[inline(never)]
pub(crate) fn judge_alone<K: Channel, const W: usize>(
    beats: &[Beat<K, W>],
    discarded: usize,
    progress: &mut Progress<K, W>,
    far_width: usize,
) -> Option<SideFault>
    requires { IsWidth W × IsWidth far_width ×
        IsWithin discarded progress.old.at progress.old.far (length beats.now) }
    ensures within { IsWithin discarded progress.new.at progress.new.far (length beats.now) }
    ensures come { (bs : List (BeatOf K.Head W)) → IsPart discarded beats.now bs →
        HasCome K.rules far_width bs progress.old.tracker progress.old.at progress.old.far →
        HasCome K.rules far_width bs progress.new.tracker progress.new.at progress.new.far }
    ensures stopped { (bs : List (BeatOf K.Head W)) → IsEnd discarded beats.now bs →
        HasCome K.rules far_width bs progress.old.tracker progress.old.at progress.old.far →
        verdict_of progress.new.at progress.new.far (left K.rules W (take progress.new.at bs))
        result ≡ verdict_alone K.rules far_width bs }
    ensures stuck { (bs : List (BeatOf K.Head W)) → IsPart discarded beats.now bs →
        HasCome K.rules far_width bs progress.old.tracker progress.old.at progress.old.far →
        IsStuck discarded progress.new.at beats.now (fault_after K.rules (take progress.new.at bs)) }
{
    'beats: while let Some(beat) = beats.get(progress.at - discarded) {
        match progress.tracker.check(beat) {
            Ok(place) => progress.accept(place, far_width),
            Err(fault) => return Some(SideFault::Beat(fault)),
        };
    }
    None
}
