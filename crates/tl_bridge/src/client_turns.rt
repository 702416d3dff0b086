//! The part of the client's side in a round of a run in two threads.
ghost use Rattle.std.specs.Prelude.{◌≡◌};
ghost use Rattle.tl_sides.specs.Sides.{ClientPast, ClientStandsFor};
ghost use Rattle.tl_parts.specs.Parts.{near_beats};
ghost use Rattle.tl_offer.specs.declared.offered.Offered.TheVariants.{NotReady};
ghost use Rattle.tl_offer.specs.Widths.{AreWidths};
ghost use Rattle.tl_bridge.specs.Inner.Sides.{SameClientEnds, ClientHasOffered, client_playing};

use crate::inboxes::append;
use crate::sizes::{beat_fits, sides_fit};
use crate::turns::PlaysRounds;
use tl_msg::{Beat, ChA, ChB, ChC, ChD, ChE};
use tl_run::{Offered, Offers, Turn};
use tl_sides::{ClientSide, PerChannel};
use tl_trace::Script;

/// The state of the client's thread for a whole run: its side, and the far beats that it has taken,
/// in lists that never grow.
#[derive(Drop)]
pub(crate) struct ClientRun<const C: usize, const M: usize> {
    pub side: ClientSide<C, M>,
    pub far_b: Vec<Beat<ChB, C>>,
    pub far_d: Vec<Beat<ChD, C>>,
}

// Offers the next beat of each channel of the client's side, in alphabetical order. Returns the
// outcomes.
fn offer_each<const C: usize, const M: usize>(
    side: &mut ClientSide<C, M>,
    script: &Script<C, M>,
    at: &PerChannel<usize>,
) -> PerChannel<Offered>
    requires { AreWidths C M }
    ensures offers { (x : ClientPast C M) → ClientStandsFor side.old x →
        ClientHasOffered (near_beats script.now) at.now x side.new result }
    ensures ends { SameClientEnds side.old side.new }
    ensures others { (result.b ≡ NotReady) × (result.d ≡ NotReady) }
{
    beat_fits::<C>();
    let a = side.offer_next(&script.a, at.a);
    let c = side.offer_next(&script.c, at.c);
    let e = side.offer_next(&script.e, at.e);
    PerChannel {
        a,
        b: Offered::NotReady,
        c,
        d: Offered::NotReady,
        e,
    }
}

impl<const C: usize, const M: usize> PlaysRounds<C, M> for ClientRun<C, M> {
    ghost playing = { client_playing };

    fn take_each(&mut self) {
        sides_fit::<C, M>();
        beat_fits::<C>();
        append(&mut self.far_b, self.side.inbox_b());
        append(&mut self.far_d, self.side.inbox_d());
        self.side.take_all();
    }

    fn turn(&mut self, script: &Script<C, M>, at: &PerChannel<usize>) -> Turn {
        sides_fit::<C, M>();
        let offers = offer_each(&mut self.side, script, at);
        let pumped = self.side.pump();
        let fetched = self.side.fetch();
        Turn::new(at, offers, pumped + fetched)
    }
}
