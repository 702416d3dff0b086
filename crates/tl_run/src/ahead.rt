//! Advances the channels of a run in one thread, one after another, as far as the held beats allow.
ghost use Rattle.std.specs.Prelude.{◌≡◌, length};
ghost use Rattle.tl_sides.specs.Bridges.{Past, StandsFor};
ghost use Rattle.tl_parts.specs.Parts.{AreBetween, IsBetween, near_beats};
ghost use Rattle.tl_run.specs.Running.{as_counts};
ghost use Rattle.tl_offer.specs.Widths.{AreWidths};
ghost use Rattle.tl_run.specs.Inner.Going.{AllRest, AreOn, GoesAhead, HavePassed, behind};

use tl_msg::SideFault;
use tl_offer::{Offered, Offers};
use tl_sides::{Forward, PerChannel, SyncBridge};
use tl_trace::{Counts, Script};

// Offers the held beats after the first `at` of a list, of which `discarded` were discarded, up to the
// first one that is not accepted. The far beats of each are forwarded at once, and `at` counts it.
// Returns the fault for which the last one was refused, if it was. (The function takes the whole
// list: with slices, a caller would have more to prove for each.)
fn go_ahead<B, S: Offers<B> + Forward<B>>(
    side: &mut S,
    held: &Vec<B>,
    discarded: usize,
    at: &mut usize,
) -> Option<SideFault>
    requires { S.CanOffer × IsBetween discarded at.old (length held.now.items) }
    ensures within { IsBetween discarded at.new (length held.now.items) }
    ensures ahead { GoesAhead S.Becomes S.Passes discarded held.now.items at.old side.old at.new side.new result }
{
    'beats: while *at - discarded < held.len() {
        let offered = side.offer_next(held, *at - discarded);
        let Offered::Accepted = offered else {
            return offered.refused_by();
        };
        side.forward_staged();
        *at += 1;
    }
    None
}

// Advances each channel by itself as far as the held beats allow, and counts the accepted beats.
// Returns, for each channel, the fault for which its next beat is refused, if it is.
pub(crate) fn all_go_ahead<const C: usize, const M: usize>(
    bridge: &mut SyncBridge<C, M>,
    held: &Script<C, M>,
    discarded: &Counts,
    at: &mut PerChannel<usize>,
) -> PerChannel<Option<SideFault>>
    requires { AreWidths C M × AreBetween discarded.now (as_counts at.old) held.now }
    ensures within { AreBetween discarded.now (as_counts at.new) held.now }
    ensures on { AreOn at.old at.new }
    ensures passes { (x : Past C M) → StandsFor bridge.old x →
        HavePassed discarded.now held.now at.old x at.new bridge.new }
    ensures stays { at.new ≡ at.old → (x : Past C M) → StandsFor bridge.old x →
        StandsFor bridge.new x }
    ensures rests { at.new ≡ at.old → (x : Past C M) → StandsFor bridge.old x →
        AllRest (near_beats held.now) (behind discarded.now at.old) x result }
{
    let b = go_ahead(bridge, &held.b, discarded.b, &mut at.b);
    let c = go_ahead(bridge, &held.c, discarded.c, &mut at.c);
    let e = go_ahead(bridge, &held.e, discarded.e, &mut at.e);
    let a = go_ahead(bridge, &held.a, discarded.a, &mut at.a);
    let d = go_ahead(bridge, &held.d, discarded.d, &mut at.d);
    PerChannel { a, b, c, d, e }
}
