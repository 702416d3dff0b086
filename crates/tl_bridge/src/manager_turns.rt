//! The part of the manager's side in a round of a run in two threads.
ghost use Rattle.std.specs.Prelude.{◌≡◌};
ghost use Rattle.tl_sides.specs.Sides.{ManagerPast, ManagerStandsFor};
ghost use Rattle.tl_parts.specs.Parts.{near_beats};
ghost use Rattle.tl_offer.specs.declared.offered.Offered.TheVariants.{NotReady};
ghost use Rattle.tl_offer.specs.Widths.{AreWidths};
ghost use Rattle.tl_bridge.specs.Inner.Sides.{SameManagerEnds, ManagerHasOffered, manager_playing};

use crate::inboxes::append;
use crate::sizes::{beat_fits, sides_fit};
use crate::turns::PlaysRounds;
use tl_msg::{Beat, ChA, ChB, ChC, ChD, ChE};
use tl_run::{Offered, Offers, Turn};
use tl_sides::{ManagerSide, PerChannel};
use tl_trace::Script;

/// The state of the manager's thread for a whole run: its side, and the far beats that it has
/// taken, in lists that never grow.
#[derive(Drop)]
pub(crate) struct ManagerRun<const C: usize, const M: usize> {
    pub side: ManagerSide<C, M>,
    pub far_a: Vec<Beat<ChA, M>>,
    pub far_c: Vec<Beat<ChC, M>>,
    pub far_e: Vec<Beat<ChE, M>>,
}

// Offers the next beat of each channel of the manager's side, in alphabetical order. Returns the
// outcomes.
fn offer_each<const C: usize, const M: usize>(
    side: &mut ManagerSide<C, M>,
    script: &Script<C, M>,
    at: &PerChannel<usize>,
) -> PerChannel<Offered>
    requires { AreWidths C M }
    ensures offers { (x : ManagerPast C M) → ManagerStandsFor side.old x →
        ManagerHasOffered (near_beats script.now) at.now x side.new result }
    ensures ends { SameManagerEnds side.old side.new }
    ensures others { (result.a ≡ NotReady) × (result.c ≡ NotReady) × (result.e ≡ NotReady) }
{
    beat_fits::<M>();
    let b = side.offer_next(&script.b, at.b);
    let d = side.offer_next(&script.d, at.d);
    PerChannel {
        a: Offered::NotReady,
        b,
        c: Offered::NotReady,
        d,
        e: Offered::NotReady,
    }
}

impl<const C: usize, const M: usize> PlaysRounds<C, M> for ManagerRun<C, M> {
    ghost playing = { manager_playing };

    fn take_each(&mut self) {
        sides_fit::<C, M>();
        beat_fits::<M>();
        append(&mut self.far_a, self.side.inbox_a());
        append(&mut self.far_c, self.side.inbox_c());
        append(&mut self.far_e, self.side.inbox_e());
        self.side.take_all();
    }

    fn turn(&mut self, script: &Script<C, M>, at: &PerChannel<usize>) -> Turn {
        sides_fit::<C, M>();
        let offers = offer_each(&mut self.side, script, at);
        let pumped = self.side.pump();
        let fetched = self.side.fetch();
        Turn::new(at, offers, pumped + fetched)
    }
}
