//! The run in one thread of a script that comes piece by piece.
ghost use Rattle.std.specs.Prelude.{◌≡◌, ℕ, IsOk, IfOk, OnOk};
ghost use Rattle.tl_lanes.specs.Lanes.{IsWidth};
ghost use Rattle.tl_settle.specs.Outcomes.{Beats, far_beats, verdicts};
ghost use Rattle.tl_sides.specs.Bridges.{Past, StandsFor};
ghost use Rattle.tl_sides.specs.declared.per_channel.PerChannel.{PerChannel as PerChannelOf};
ghost use Rattle.tl_trace.specs.Scripts.{HasCounts, HasRemoved};
ghost use Rattle.tl_parts.specs.Parts.{AreEnd, AreGoing, ArePart, AreWaiting, AreDiscarded, none_counted, HasShortLists};
ghost use Rattle.tl_parts.specs.Stopping.{AreStuck};
ghost use Rattle.tl_run.specs.Running.{IsNew, IsRunning, as_counts};
ghost use Rattle.tl_run.specs.Streaming.{CanRun, HasBegun, HasRoomForAll, HasRun, IsAtRest};
ghost use Rattle.tl_run.specs.Inner.Going.{AreStopsOf, HasStopped, IsSound, all_counts, stop_by};
ghost use Rattle.tl_run.specs.Inner.Running.{HaveRoomToCount};
ghost use Rattle.tl_offer.specs.Widths.{AreWidths};

use crate::ahead::all_go_ahead;
use crate::far_sink::FarSink;
use crate::rounds::{are_empty, verdicts_at};
use crate::taken::{add_counts, take_from_each};
use std::alloc::AllocError;
use tl_msg::{SideFault, Verdict};
use tl_offer::Stop;
use tl_parts::count_discardable;
use tl_ring::EndFault;
use tl_sides::{PerChannel, SyncBridge};
use tl_trace::{Counts, Script};

/// A run in one thread of a script whose near beats are read incrementally. Accepted beats need not
/// be held any longer.
///
/// In turns, each channel offers its held beats, up to the first one that is refused. Then all
/// beats under way go through the rings and are taken by both sides, until no more beats are
/// accepted. A channel whose beats are used up waits until more come. The settled state is the same
/// for every such order (this order is this project's choice).
///
/// In contracts (`HasRun`), it has run a part of a script's near beats; the script includes those
/// that are still to come.
#[derive(Drop)]
pub struct SyncRun<const C: usize, const M: usize> {
    bridge: SyncBridge<C, M>,
    at: PerChannel<usize>,
    taken: PerChannel<usize>,
    /// The number of beats of each channel that are no longer held.
    discarded: Counts,
}

// Returns the number of beats of all channels together.
fn total(at: &PerChannel<usize>) -> usize
    requires { HaveRoomToCount at.now }
    ensures { result ≡ all_counts at.now }
{
    at.a + at.b + at.c + at.d + at.e
}

// Moves all beats under way through the rings to both sides. The rings' beats move to the inboxes,
// all beats there go to `far` and are counted in `taken`, and staged beats move into the rings,
// until none are staged. Errors: `AllocError` if `far` runs out of memory.
fn empty<F: FarSink<C, M>, const C: usize, const M: usize>(
    bridge: &mut SyncBridge<C, M>,
    far: &mut F,
    taken: &mut PerChannel<usize>,
) -> Result<(), AllocError>
    requires { AreWidths C M × IsSound bridge.old }
    ensures rests { OnOk result (IsAtRest bridge.new) }
    ensures on { (near : Beats C M) (n : PerChannelOf ℕ) → HaveRoomToCount n →
        IsRunning F.Holds near n taken.old far.old bridge.old →
        OnOk result (IsRunning F.Holds near n taken.new far.new bridge.new) }
    ensures memory { (near : Beats C M) (n : PerChannelOf ℕ) → HaveRoomToCount n →
        IsRunning F.Holds near n taken.old far.old bridge.old → HasRoomForAll F.HasRoom near far.old →
        IsOk result × HasRoomForAll F.HasRoom near far.new }
    ensures same { OnOk result (F.made_with far.new ≡ F.made_with far.old) }
{
    'moves: while !are_empty(&bridge.standings()) {
        bridge.fetch();
        let Ok(more) = take_from_each(bridge, far) else {
            return Err(AllocError);
        };
        add_counts(taken, &more);
        bridge.pump();
    }
    Ok(())
}

// Runs turns, up to the first one in which no beat is accepted. Returns, for each channel, the
// fault for which its next beat is refused, or `None` if none of the held beats is left. Errors:
// `AllocError` if `far` runs out of memory.
fn go_through<F: FarSink<C, M>, const C: usize, const M: usize>(
    run: &mut SyncRun<C, M>,
    held: &Script<C, M>,
    far: &mut F,
) -> Result<PerChannel<Option<SideFault>>, AllocError>
    requires { AreWidths C M × CanRun run.old held.now }
    ensures can { OnOk result (CanRun run.new held.now) }
    ensures discarded { run.new.discarded ≡ run.old.discarded }
    ensures on { (near : Beats C M) → ArePart run.old.discarded held.now near →
        HasRun F.Holds near far.old run.old → OnOk result (HasRun F.Holds near far.new run.new) }
    ensures stopped { (near : Beats C M) → AreEnd run.old.discarded held.now near →
        HasRun F.Holds near far.old run.old → IfOk result (λ stopped_by.
        HasStopped F.Holds near run.new.at run.new.taken far.new run.new.bridge stopped_by) }
    ensures stuck { (near : Beats C M) → ArePart run.old.discarded held.now near →
        HasRun F.Holds near far.old run.old →
        IfOk result (λ _. AreStuck near run.old.discarded (as_counts run.new.at) held.now) }
    ensures memory { (near : Beats C M) → ArePart run.old.discarded held.now near →
        HasRun F.Holds near far.old run.old → HasRoomForAll F.HasRoom near far.old →
        IsOk result × HasRoomForAll F.HasRoom near far.new }
    ensures same { OnOk result (F.made_with far.new ≡ F.made_with far.old) }
{
    'turns: loop {
        let before = total(&run.at);
        let stopped_by = all_go_ahead(&mut run.bridge, held, &run.discarded, &mut run.at);
        if total(&run.at) == before {
            return Ok(stopped_by);
        }
        let Ok(()) = empty(&mut run.bridge, far, &mut run.taken) else {
            return Err(AllocError);
        };
    }
}

// Returns the reason why a channel offers no more beats: the fault for which its next beat is
// refused or, if none is left, the result of closing it.
fn stop_of(stopped_by: Option<SideFault>, closed: Result<(), EndFault>) -> Stop
    ensures { result ≡ stop_by stopped_by closed }
{
    match stopped_by {
        Some(fault) => Stop::Refused(fault),
        None => match closed {
            Ok(()) => Stop::Done,
            Err(_) => Stop::Cut,
        },
    }
}

// Closes the channels. Returns the reason why each offers no more beats, given the faults for which
// their next beats are refused.
fn close_each<const C: usize, const M: usize>(
    bridge: &mut SyncBridge<C, M>,
    stopped_by: &PerChannel<Option<SideFault>>,
) -> PerChannel<Stop>
    requires { AreWidths C M }
    ensures { (x : Past C M) → StandsFor bridge.old x → AreStopsOf x stopped_by.now result }
{
    PerChannel {
        a: stop_of(stopped_by.a, bridge.close_a()),
        b: stop_of(stopped_by.b, bridge.close_b()),
        c: stop_of(stopped_by.c, bridge.close_c()),
        d: stop_of(stopped_by.d, bridge.close_d()),
        e: stop_of(stopped_by.e, bridge.close_e()),
    }
}

impl<const C: usize, const M: usize> SyncRun<C, M> {
    /// Creates a run over a new bridge. Requires: the bridge is new.
    pub fn new(bridge: SyncBridge<C, M>) -> Self
        requires new { IsNew bridge }
        ensures running { (near : Beats C M) → HasBegun near result }
        ensures begins { (held : Script C M) → HasShortLists held → CanRun result held }
        ensures none { result.discarded ≡ none_counted }
    {
        let none = PerChannel {
            a: 0,
            b: 0,
            c: 0,
            d: 0,
            e: 0,
        };
        SyncRun {
            bridge,
            at: none,
            taken: none,
            discarded: Counts {
                a: 0,
                b: 0,
                c: 0,
                d: 0,
                e: 0,
            },
        }
    }

    /// Advances as far as the held beats allow; these come after the beats discarded before.
    /// Afterwards each channel has used them up, or its next beat is refused. The far beats go to
    /// `far` as both sides take them. Returns how many beats of each channel must be discarded
    /// before the next call: all done beats if they are at least half of those held, and otherwise
    /// none. So discarding costs no more than reading, and fewer done beats remain than waiting
    /// ones.
    ///
    /// Errors: `AllocError` if `far` runs out of memory; nothing is promised of the run afterwards.
    /// Requires: `C` and `M` are widths, and the run can run `held`.
    pub fn advance<F: FarSink<C, M>>(
        &mut self,
        held: &Script<C, M>,
        far: &mut F,
    ) -> Result<Counts, AllocError>
        requires client { IsWidth C }
        requires manager { IsWidth M }
        requires held { CanRun self.old held.now }
        ensures counts { IfOk result (λ counts. HasCounts counts held.now) }
        ensures going { IfOk result (AreGoing self.old.discarded (as_counts self.new.at) held.now) }
        ensures discarded { IfOk result (λ counts. AreDiscarded self.old.discarded counts self.new.discarded) }
        ensures held { IfOk result (λ counts. (rest : Script C M) →
            HasRemoved counts held.now rest → CanRun self.new rest) }
        ensures waiting { IfOk result (λ counts. (rest : Script C M) →
            HasRemoved counts held.now rest → AreWaiting self.new.discarded (as_counts self.new.at) rest) }
        ensures same { OnOk result (F.made_with far.new ≡ F.made_with far.old) }

        // for every script of which the held beats are a part
        ensures on { (near : Beats C M) → ArePart self.old.discarded held.now near →
            HasRun F.Holds near far.old self.old →
            OnOk result (HasRun F.Holds near far.new self.new) }
        ensures stuck { (near : Beats C M) → ArePart self.old.discarded held.now near →
            HasRun F.Holds near far.old self.old →
            IfOk result (λ _. AreStuck near self.old.discarded (as_counts self.new.at) held.now) }
        ensures memory { (near : Beats C M) → ArePart self.old.discarded held.now near →
            HasRun F.Holds near far.old self.old → HasRoomForAll F.HasRoom near far.old →
            IsOk result × HasRoomForAll F.HasRoom near far.new }
    {
        let Ok(_) = go_through(self, held, far) else {
            return Err(AllocError);
        };
        let at = Counts {
            a: self.at.a,
            b: self.at.b,
            c: self.at.c,
            d: self.at.d,
            e: self.at.e,
        };
        Ok(count_discardable(&mut self.discarded, held, &at))
    }

    /// Ends the run of the script that ends with the held beats. Passes the remaining far beats to
    /// `far`. Returns the verdicts from A to E. Afterwards nothing is promised of the run.
    ///
    /// Errors: `AllocError` if `far` runs out of memory. Requires: `C` and `M` are widths, and the
    /// run can run `held`.
    pub fn end<F: FarSink<C, M>>(
        &mut self,
        held: &Script<C, M>,
        far: &mut F,
    ) -> Result<[Verdict; 5], AllocError>
        requires client { IsWidth C }
        requires manager { IsWidth M }
        requires held { CanRun self.old held.now }
        ensures same { OnOk result (F.made_with far.new ≡ F.made_with far.old) }

        // for the script that ends with the held beats
        ensures verdicts { (near : Beats C M) → AreEnd self.old.discarded held.now near →
            HasRun F.Holds near far.old self.old → IfOk result (λ found. found ≡ verdicts near) }
        ensures far { (near : Beats C M) → AreEnd self.old.discarded held.now near →
            HasRun F.Holds near far.old self.old → OnOk result (F.Holds far.new (far_beats near)) }
        ensures memory { (near : Beats C M) → AreEnd self.old.discarded held.now near →
            HasRun F.Holds near far.old self.old → HasRoomForAll F.HasRoom near far.old →
            IsOk result × HasRoomForAll F.HasRoom near far.new }
    {
        let Ok(stopped_by) = go_through(self, held, far) else {
            return Err(AllocError);
        };
        let stops = close_each(&mut self.bridge, &stopped_by);
        Ok(verdicts_at(&self.at, &stops, &self.taken))
    }

    /// Discards the run with its bridge. Requires: `C` and `M` are widths.
    // (the crates above call it, because a function that drops a bridge is expensive to check)
    pub fn discard(self)
        requires client { IsWidth C }
        requires manager { IsWidth M }
    {
        self.bridge.discard();
    }
}
