//! The outcome of the five channels in a round of a run.
ghost use Rattle.std.specs.Prelude.{◌≡◌, IfSome, IsNone};
ghost use Rattle.tl_sides.specs.declared.per_channel.PerChannel.{PerChannel};
ghost use Rattle.tl_run.specs.Inner.Running.{AreStopped, HaveRoomToCount, all_stopped, counted};

use tl_offer::{Offered, Stop};
use tl_sides::PerChannel;

// Returns the reason why each of the five channels offers no more beats, from the outcomes of a
// round. Returns `None` if one of them may offer more: its beat was accepted, or it was not ready.
pub(crate) fn all_stops(offers: &PerChannel<Offered>) -> Option<PerChannel<Stop>>
    ensures stops { IfSome result (λ stops. offers.now ≡ all_stopped stops) }
    ensures goes { IsNone result → AreStopped offers.now → ⊥ }
{
    let (
        Offered::Stopped(a),
        Offered::Stopped(b),
        Offered::Stopped(c),
        Offered::Stopped(d),
        Offered::Stopped(e),
    ) = (offers.a, offers.b, offers.c, offers.d, offers.e) else {
        return None;
    };
    Some(PerChannel { a, b, c, d, e })
}

// Adds the beats that a round accepted to `at`, which has the number accepted before on each
// channel. Requires: each number is below `2^41`.
pub(crate) fn add_accepted(at: &mut PerChannel<usize>, offers: &PerChannel<Offered>)
    requires few { HaveRoomToCount at.old }
    ensures { at.new ≡ counted at.old offers.now }
{
    at.a += offers.a.steps();
    at.b += offers.b.steps();
    at.c += offers.c.steps();
    at.d += offers.d.steps();
    at.e += offers.e.steps();
}
