//! The result of the turns of each side of a run in two threads, and the condition for the end of
//! such a run.
ghost use Rattle.std.specs.Prelude.{◌≡◌, ◌≢◌, ◌⊎◌, ◌↔◌, true, IfSome, IsNone};
ghost use Rattle.tl_sides.specs.declared.per_channel.PerChannel.{PerChannel};
ghost use Rattle.tl_offer.specs.declared.offered.Offered.{Offered};
ghost use Rattle.tl_run.specs.Inner.Running.{AreStopped, HaveRoomToCount, all_standing, all_steps, all_stopped, counted, of_both};

use crate::channel_state::{add_accepted, all_stops};
use crate::rounds::are_empty;
use tl_offer::{Offered, Stop};
use tl_sides::{PerChannel, Standings};

/// The result of some turns of a side: the number of accepted beats of each channel after them, the
/// outcomes of its next beats in the last one, whether it accepted a beat in any, and whether it
/// accepted, pumped or fetched one (this project's choice).
#[derive(Drop)]
pub struct Turn {
    pub at: PerChannel<usize>,
    pub offers: PerChannel<Offered>,
    pub accepted: bool,
    pub moved: bool,
}

// Returns whether at least one of the two is true.
fn either(one: bool, other: bool) -> bool
    ensures { (result ≡ true) ↔ ((one ≡ true) ⊎ (other ≡ true)) }
{
    one | other
}

impl Turn {
    /// Returns the result of one turn, before which `at` beats were accepted, with these outcomes
    /// of its offers, in which `others` beats were pumped and fetched. Requires: the counts are
    /// below `2^41`.
    pub fn new(at: &PerChannel<usize>, offers: PerChannel<Offered>, others: usize) -> Turn
        requires few { HaveRoomToCount at.now }
        ensures at { result.at ≡ counted at.now offers }
        ensures offers { result.offers ≡ offers }
        ensures accepted { (result.accepted ≡ true) ↔ (all_steps offers ≢ 0) }
        ensures moved { (result.moved ≡ true) ↔ ((all_steps offers ≢ 0) ⊎ (others ≢ 0)) }
    {
        let accepted = offers.a.is_accepted()
            | offers.b.is_accepted()
            | offers.c.is_accepted()
            | offers.d.is_accepted()
            | offers.e.is_accepted();
        let mut at = *at;
        add_accepted(&mut at, &offers);
        Turn {
            at,
            offers,
            accepted,
            moved: accepted | (others != 0),
        }
    }

    /// Returns the result of these turns followed by another one.
    pub fn then(self, last: &Turn) -> Turn
        ensures at { result.at ≡ last.now.at }
        ensures offers { result.offers ≡ last.now.offers }
        ensures accepted { (result.accepted ≡ true) ↔
            ((self.accepted ≡ true) ⊎ (last.now.accepted ≡ true)) }
        ensures moved { (result.moved ≡ true) ↔ ((self.moved ≡ true) ⊎
            (last.now.moved ≡ true)) }
    {
        Turn {
            at: last.at,
            offers: last.offers,
            accepted: either(self.accepted, last.accepted),
            moved: either(self.moved, last.moved),
        }
    }

    /// Returns the result of both sides in a round, from the turns of the client's side and those
    /// of the manager's. Each side offers on its own channels.
    pub fn beside(&self, manager: &Turn) -> Turn
        ensures at { result.at ≡ of_both self.now.at manager.now.at }
        ensures offers { result.offers ≡ of_both self.now.offers manager.now.offers }
        ensures accepted { (result.accepted ≡ true) ↔
            ((self.now.accepted ≡ true) ⊎ (manager.now.accepted ≡ true)) }
        ensures moved { (result.moved ≡ true) ↔
            ((self.now.moved ≡ true) ⊎ (manager.now.moved ≡ true)) }
    {
        Turn {
            at: PerChannel {
                a: self.at.a,
                b: manager.at.b,
                c: self.at.c,
                d: manager.at.d,
                e: self.at.e,
            },
            offers: PerChannel {
                a: self.offers.a,
                b: manager.offers.b,
                c: self.offers.c,
                d: manager.offers.d,
                e: self.offers.e,
            },
            accepted: either(self.accepted, manager.accepted),
            moved: either(self.moved, manager.moved),
        }
    }

    /// Returns the reason why each channel offers no more beats after the turns of both sides, if
    /// no beat was accepted in them and nothing is under way at the meeting after them. Returns
    /// `None` if the run continues.
    pub fn stops_at(&self, standings: &Standings) -> Option<PerChannel<Stop>>
        ensures stops { IfSome result (λ stops. self.now.offers ≡ all_stopped stops) }
        ensures rests { IfSome result (λ _. all_standing standings.now ≡ 0) }
        ensures none_accepted { IfSome result (λ _. self.now.accepted ≢ true) }
        ensures goes { IsNone result → self.now.accepted ≢ true → AreStopped self.now.offers →
            all_standing standings.now ≡ 0 → ⊥ }
    {
        if self.accepted || !are_empty(standings) {
            return None;
        }
        all_stops(&self.offers)
    }
}
