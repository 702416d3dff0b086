//! The rounds of a run in one thread, and how each channel ends.
ghost use Rattle.std.specs.Prelude.{◌≡◌, ◌↔◌, ◌≤◌, ℕ, IsTrue, IfSome, IsNone};
ghost use Rattle.tl_lanes.specs.Lanes.{IsWidth};
ghost use Rattle.tl_settle.specs.Outcomes.{Beats, verdicts};
ghost use Rattle.tl_sides.specs.Bridges.{Bridge, Past, StandsFor, nothing_yet};
ghost use Rattle.tl_run.specs.Arrivals.{no_beats};
ghost use Rattle.tl_run.specs.InRounds.{TakesRounds};
ghost use Rattle.tl_run.specs.Scripts.{AreBelow, EndsIn, near_counts};
ghost use Rattle.tl_parts.specs.Parts.{HasShortLists, near_beats};
ghost use Rattle.tl_offer.specs.Widths.{AreWidths};
ghost use Rattle.tl_run.specs.Inner.Arriving.{HasRoomFor, beats_of};
ghost use Rattle.tl_run.specs.Running.{IsAt, IsNew, IsUnderWay, all_under_way, lengths};
ghost use Rattle.tl_run.specs.Inner.Running.{HasRound, HasEnded, AreStopped, counted, standing_count, all_standing, all_stopped};

use crate::channel_state::{add_accepted, all_stops};
use crate::outcome::{Outcome, verdict};
use crate::taken::{outcome_of, take_from_each};
use tl_msg::Verdict;
use tl_offer::{Offered, Offers, Stop};
use tl_ring::Standing;
use tl_sides::{PerChannel, Standings, SyncBridge};
use tl_trace::Script;

/// The end of a run: the number of accepted beats of each channel, the reason why it offers no
/// more, and the number of rounds (this project's choice).
#[derive(Drop)]
pub struct End {
    pub at: PerChannel<usize>,
    pub stops: PerChannel<Stop>,
    pub rounds: u64,
}

// Returns whether nothing is under way on a channel.
fn is_empty(standing: &Standing) -> bool
    ensures { IsTrue result ↔ (standing_count standing.now ≡ 0) }
{
    (standing.staged == 0) & (standing.in_ring == 0) & (standing.inbox == 0)
}

// Returns whether nothing is under way: the stages, rings and inboxes of all channels are empty.
pub(crate) fn are_empty(standings: &Standings) -> bool
    ensures { IsTrue result ↔ (all_standing standings.now ≡ 0) }
{
    is_empty(&standings.a)
        & is_empty(&standings.b)
        & is_empty(&standings.c)
        & is_empty(&standings.d)
        & is_empty(&standings.e)
}

// Offers the next beat of a list and returns its outcome. (The function takes the whole list: with
// a slice, a caller would have more to prove.)
#[inline(always)]
fn offer_of<B, S: Offers<B>>(side: &mut S, list: &Vec<B>, at: usize) -> Offered
    requires { S.CanOffer }
    ensures { S.Becomes list.now.items at side.old result side.new }
{
    side.offer_next(list, at)
}

// Runs one round. First both sides take all beats of their inboxes, which are appended to the far
// beats of the lists. Then each offers the next beat of each of its channels, first the client's
// side, then the manager's, each in alphabetical order, and `at` counts the accepted beats. Then
// staged beats and beats in the rings move on, as far as there is room. Returns the outcome on each
// channel.
fn round<const C: usize, const M: usize>(
    bridge: &mut SyncBridge<C, M>,
    script: &Script<C, M>,
    at: &mut PerChannel<usize>,
    far: &mut Script<M, C>,
) -> PerChannel<Offered>
    requires { AreWidths C M × HasShortLists script.now ×
        HasRoomFor (near_beats script.now) far.old ×
        IsUnderWay (near_beats script.now) at.old (beats_of far.old) bridge.old }
    ensures round { (x : Past C M) → StandsFor bridge.old x →
        IsAt (near_beats script.now) at.old (beats_of far.old) x →
        HasRound (near_beats script.now) at.old (beats_of far.new) x bridge.new result }
    ensures counted { at.new ≡ counted at.old result }
    ensures room { HasRoomFor (near_beats script.now) far.new }
{
    // never fails: the lists have room for all far beats
    let _ = take_from_each(bridge, far);
    let a = offer_of(bridge, &script.a, at.a);
    let c = offer_of(bridge, &script.c, at.c);
    let e = offer_of(bridge, &script.e, at.e);
    let b = offer_of(bridge, &script.b, at.b);
    let d = offer_of(bridge, &script.d, at.d);
    let offers = PerChannel { a, b, c, d, e };
    add_accepted(at, &offers);
    bridge.pump();
    bridge.fetch();
    offers
}

// Returns the reason why each channel offers no more beats after a round, if nothing is under way.
// Returns `None` if there is another round.
fn stops_at_rest<const C: usize, const M: usize>(
    bridge: &SyncBridge<C, M>,
    offers: &PerChannel<Offered>,
) -> Option<PerChannel<Stop>>
    requires { AreWidths C M }
    ensures stops { IfSome result (λ stops. offers.now ≡ all_stopped stops) }
    ensures rests { (x : Past C M) → StandsFor bridge.now x →
        IfSome result (λ _. all_under_way x ≡ 0) }
    ensures goes { (x : Past C M) → StandsFor bridge.now x → IsNone result →
        AreStopped offers.now → all_under_way x ≡ 0 → ⊥ }
{
    let Some(stops) = all_stops(offers) else {
        return None;
    };
    if !are_empty(&bridge.standings()) {
        return None;
    }
    Some(stops)
}

// Returns the verdicts of a run that has ended with these counts and reasons, after `taken` far
// beats of each channel.
pub(crate) fn verdicts_at(
    at: &PerChannel<usize>,
    stops: &PerChannel<Stop>,
    taken: &PerChannel<usize>,
) -> [Verdict; 5]
    ensures { (C M : ℕ) (near : Beats C M) (far : Beats M C) (s : Bridge C M) (rounds : ℕ) →
        IsWidth C → IsWidth M → taken.now ≡ lengths far →
        HasEnded near at.now far s stops.now rounds → result ≡ verdicts near }
{
    [
        verdict(&stops.a, at.a, taken.a),
        verdict(&stops.b, at.b, taken.b),
        verdict(&stops.c, at.c, taken.c),
        verdict(&stops.d, at.d, taken.d),
        verdict(&stops.e, at.e, taken.e),
    ]
}

// Runs rounds, up to the first one in which no channel could offer more, and after which nothing is
// under way. The far beats go into lists that have room for all of them.
pub(crate) fn run_rounds<const C: usize, const M: usize>(
    bridge: &mut SyncBridge<C, M>,
    script: &Script<C, M>,
    far: &mut Script<M, C>,
) -> End
    requires { AreWidths C M × HasShortLists script.now × IsNew bridge.old ×
        (beats_of far.old ≡ no_beats) × HasRoomFor (near_beats script.now) far.old }
    ensures ended { HasEnded (near_beats script.now) result.at (beats_of far.new) bridge.new
        result.stops result.rounds }
    ensures each { AreBelow result.at result.rounds }
    ensures exact { (ring : ℕ) → 1 ≤ ring → StandsFor bridge.old (nothing_yet ring) →
        TakesRounds (near_beats script.now) ring result.rounds }
{
    let mut at = PerChannel {
        a: 0,
        b: 0,
        c: 0,
        d: 0,
        e: 0,
    };
    let mut rounds = 0;
    'rounds: loop {
        let offers = round(bridge, script, &mut at, far);
        rounds += 1;
        if let Some(stops) = stops_at_rest(bridge, &offers) {
            return End { at, stops, rounds };
        }
    }
}

/// Returns the outcome of a run from its end and the far beats that it took: these, the verdict of
/// each channel and the number of rounds (this project's choice). Requires: `C` and `M` are widths.
pub fn outcome_at<const C: usize, const M: usize>(end: End, far: Script<M, C>) -> Outcome<C, M>
    requires { AreWidths C M }
    ensures outcome { (near : Beats C M) (s : Bridge C M) →
        HasEnded near end.at (beats_of far.entry) s end.stops end.rounds → EndsIn near result }
    ensures counts { (near : Beats C M) (s : Bridge C M) →
        HasEnded near end.at (beats_of far.entry) s end.stops end.rounds → end.at ≡ near_counts near }
    ensures rounds { result.rounds ≡ end.rounds }
{
    let taken = PerChannel {
        a: far.a.len(),
        b: far.b.len(),
        c: far.c.len(),
        d: far.d.len(),
        e: far.e.len(),
    };
    let verdicts = verdicts_at(&end.at, &end.stops, &taken);
    outcome_of(far, verdicts, end.rounds)
}
