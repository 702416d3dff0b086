//! The verdicts of a script that is read incrementally.
ghost use Rattle.std.specs.Prelude.{◌≡◌, []};
ghost use Rattle.tl_lanes.specs.Lanes.{IsWidth};
ghost use Rattle.tl_settle.specs.Outcomes.{Beats, verdicts};
ghost use Rattle.tl_settle.specs.Books.{KnowsClient, KnowsManager};
ghost use Rattle.tl_trace.specs.Scripts.{HasCounts, HasRemoved};
ghost use Rattle.tl_parts.specs.Parts.{AreEnd, AreGoing, ArePart, AreWaiting, AreDiscarded, none_counted, HasShortLists};
ghost use Rattle.tl_parts.specs.Stopping.{AreStuck};
ghost use Rattle.tl_check.specs.Inner.Ending.{EndsWith};
ghost use Rattle.tl_check.specs.Judging.{CanJudge, HasJudged, places};

use crate::alone::judge_alone;
use crate::coupled::judge_coupled;
use crate::progress::Progress;
use tl_msg::{ChA, ChB, ChC, ChD, ChE, SideFault, Verdict};
use tl_parts::count_discardable;
use tl_settle::{ClientBook, ManagerBook};
use tl_trace::{Counts, Script};

/// Finds the verdicts of a script whose near beats are read incrementally. Accepted beats need not
/// be held any longer.
///
/// In contracts (`HasJudged`), it has judged a part of a script's near beats; the script includes
/// those that are still to come. A beat of A or D that waits for the other channel is held until
/// that one has advanced, and is tested again at each call.
#[derive(Drop)]
pub struct Judge<const C: usize, const M: usize> {
    /// The book of the client's side for its own beats of A and D.
    client: ClientBook<C>,
    /// The book of the manager's side for its own beats of A and D.
    manager: ManagerBook<M>,
    /// The progress of A.
    a: Progress<ChA, C>,
    /// The progress of B.
    b: Progress<ChB, M>,
    /// The progress of C.
    c: Progress<ChC, C>,
    /// The progress of D.
    d: Progress<ChD, M>,
    /// The progress of E.
    e: Progress<ChE, C>,
    /// The number of beats of each channel that are no longer held.
    discarded: Counts,
}

// The reason why the next beat of each channel is refused, or `None` if no beat is left.
#[derive(Clone, Copy)]
struct Stops {
    a: Option<SideFault>,
    b: Option<SideFault>,
    c: Option<SideFault>,
    d: Option<SideFault>,
    e: Option<SideFault>,
}

// Advances each channel until all are stopped, and returns why.
fn go_through<const C: usize, const M: usize>(judge: &mut Judge<C, M>, held: &Script<C, M>) -> Stops
    requires { IsWidth C × IsWidth M × CanJudge judge.old held.now }
    ensures discarded { judge.new.discarded ≡ judge.old.discarded }
    ensures within { CanJudge judge.new held.now }
    ensures judged { (near : Beats C M) → ArePart judge.old.discarded held.now near →
        HasJudged near judge.old → HasJudged near judge.new }
    ensures stopped { (near : Beats C M) → AreEnd judge.old.discarded held.now near →
        HasJudged near judge.old → EndsWith near judge.new result }
    ensures stuck { (near : Beats C M) → ArePart judge.old.discarded held.now near →
        HasJudged near judge.old → AreStuck near judge.old.discarded (places judge.new) held.now }
{
    let b = judge_alone::<ChB, M>(&held.b, judge.discarded.b, &mut judge.b, C);
    let c = judge_alone::<ChC, C>(&held.c, judge.discarded.c, &mut judge.c, M);
    let e = judge_alone::<ChE, C>(&held.e, judge.discarded.e, &mut judge.e, M);
    let (a, d) = judge_coupled(
        &mut judge.client,
        &mut judge.manager,
        &held.a,
        &held.d,
        &judge.discarded,
        &mut judge.a,
        &mut judge.d,
    );
    Stops { a, b, c, d, e }
}

impl<const C: usize, const M: usize> Judge<C, M> {
    /// Creates a judge that has judged nothing yet. Requires: the books are of two sides that have
    /// accepted and taken nothing.
    pub fn new(client: ClientBook<C>, manager: ManagerBook<M>) -> Self
        requires client { KnowsClient {w = C} client [] }
        requires manager { KnowsManager {w = M} manager [] }
        ensures judged { (near : Beats C M) → HasJudged near result }
        ensures begins { (held : Script C M) → HasShortLists held → CanJudge result held }
        ensures none { result.discarded ≡ none_counted }
    {
        Judge {
            client,
            manager,
            a: Progress::new(),
            b: Progress::new(),
            c: Progress::new(),
            d: Progress::new(),
            e: Progress::new(),
            discarded: Counts {
                a: 0,
                b: 0,
                c: 0,
                d: 0,
                e: 0,
            },
        }
    }

    /// Advances as far as the held beats allow; these come after the beats discarded before.
    /// Afterwards each channel has used them up, or its next beat is refused. Returns how many
    /// beats of each channel must be discarded before the next call: all done beats if they are at
    /// least half of those held, and otherwise none. So discarding costs no more than reading, and
    /// fewer done beats remain than waiting ones. Requires: `C` and `M` are widths, and the judge
    /// can judge `held`.
    pub fn advance(&mut self, held: &Script<C, M>) -> Counts
        requires client { IsWidth C }
        requires manager { IsWidth M }
        requires held { CanJudge self.old held.now }
        ensures counts { HasCounts result held.now }
        ensures going { AreGoing self.old.discarded (places self.new) held.now result }
        ensures discarded { AreDiscarded self.old.discarded result self.new.discarded }
        ensures held { (rest : Script C M) → HasRemoved result held.now rest →
            CanJudge self.new rest }
        ensures waiting { (rest : Script C M) → HasRemoved result held.now rest →
            AreWaiting self.new.discarded (places self.new) rest }

        // for every script of which the held beats are a part
        ensures judged { (near : Beats C M) → ArePart self.old.discarded held.now near →
            HasJudged near self.old → HasJudged near self.new }
        ensures stuck { (near : Beats C M) → ArePart self.old.discarded held.now near →
            HasJudged near self.old →
            AreStuck near self.old.discarded (places self.new) held.now }
    {
        go_through(self, held);
        let at = Counts {
            a: self.a.at,
            b: self.b.at,
            c: self.c.at,
            d: self.d.at,
            e: self.e.at,
        };
        count_discardable(&mut self.discarded, held, &at)
    }

    /// Returns the verdicts, from A to E, of the script that ends with the held beats. Requires:
    /// `C` and `M` are widths, and the judge can judge `held`.
    #[inline(never)]
    pub fn end(&mut self, held: &Script<C, M>) -> [Verdict; 5]
        requires client { IsWidth C }
        requires manager { IsWidth M }
        requires held { CanJudge self.old held.now }

        // for the script that ends with the held beats
        ensures { (near : Beats C M) → AreEnd self.old.discarded held.now near →
            HasJudged near self.old → result ≡ verdicts near }
    {
        let stops = go_through(self, held);
        [
            self.a.verdict(stops.a),
            self.b.verdict(stops.b),
            self.c.verdict(stops.c),
            self.d.verdict(stops.d),
            self.e.verdict(stops.e),
        ]
    }
}
