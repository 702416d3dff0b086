//! The run of a whole script in one thread.
ghost use Rattle.std.specs.Prelude.{◌≡◌, ◌≢◌, ◌≤◌, ◌<◌, ◌⊎◌, ◌↔◌, IsOk, IfOk, IfErr};
ghost use Rattle.tl_ring.specs.declared.pipe.TheConstants.{MAX_RING};
ghost use Rattle.tl_lanes.specs.Lanes.{IsWidth};
ghost use Rattle.tl_run.specs.declared.outcome.RunFault.TheVariants.{RingSize, OutOfMemory, Stalled};
ghost use Rattle.tl_sides.specs.Bridges.{Bridge};
ghost use Rattle.tl_run.specs.Arrivals.{no_beats};
ghost use Rattle.tl_run.specs.InRounds.{TakesRounds};
ghost use Rattle.tl_run.specs.Scripts.{AreBelow, SettlesTo, near_counts};
ghost use Rattle.tl_parts.specs.Parts.{HasShortLists, near_beats};
ghost use Rattle.tl_run.specs.Inner.Arriving.{HasRoomFor, beats_of};
ghost use Rattle.tl_run.specs.Inner.Running.{HasEnded};
ghost use Rattle.tl_offer.specs.Widths.{AreWidths};

use crate::outcome::{Outcome, RunFault};
use crate::rounds::{End, outcome_at, run_rounds};
use crate::taken::{no_far_beats, reserve_far};
use std::alloc::Global;
use tl_ring::MAX_RING;
use tl_sides::SyncBridge;
use tl_trace::Script;

/// Runs a script over a bridge in one thread, to its end. Returns the far beats and the verdicts that
/// the script settles to, and the number of rounds.
///
/// In each round, both sides take all beats in their inboxes. Then each side, the client's first, offers
/// the next beat of each of its channels that is ready. Then staged beats move into the rings, and beats
/// of the rings into the inboxes, as many as there is room for. A refused beat stays next. A channel
/// whose list is used up between two messages is closed. The run ends after the first round in which no
/// channel could offer more and after which nothing is under way. `TakesRounds` says which round that is
/// (this project's choice).
///
/// Errors: `RingSize` if and only if `ring` is 0 or above 4,096, which is tested first. `OutOfMemory` if
/// there is no memory for the bridge or for the far beats; all of it is reserved before the first round.
/// `Stalled` never occurs.
///
/// Requires: each list has at most `2^40` beats.
pub fn run_sync<const C: usize, const M: usize>(
    alloc: Global,
    script: &Script<C, M>,
    ring: usize,
) -> Result<Outcome<C, M>, RunFault>
    requires client { IsWidth C }
    requires manager { IsWidth M }
    requires short { HasShortLists script.now }
    ensures outcome { IfOk result (SettlesTo script.now) }
    ensures rounds { IfOk result (λ outcome.
        AreBelow (near_counts (near_beats script.now)) outcome.rounds) }
    ensures exact { IfOk result (λ outcome.
        TakesRounds (near_beats script.now) ring outcome.rounds) }
    ensures size { IsOk result → (1 ≤ ring) × (ring ≤ MAX_RING) }
    ensures ring_size { IfErr result (λ fault. (fault ≡ RingSize) ↔
        ((ring ≡ 0) ⊎ (MAX_RING < ring))) }
    ensures never_stalled { IfErr result (λ fault. fault ≢ Stalled) }
{
    // the lists are allocated first, and then the rings
    if ring == 0 || ring > MAX_RING {
        return Err(RunFault::RingSize);
    }
    let mut far = no_far_beats::<C, M>(alloc);
    let Ok(()) = reserve_far(&mut far, script) else {
        return Err(RunFault::OutOfMemory);
    };
    match run_into_lists(alloc, script, ring, &mut far) {
        Ok(end) => Ok(outcome_at(end, far)),
        Err(fault) => Err(fault),
    }
}

// Runs a script over a new bridge. The far beats go into lists that have room for all of them, so
// the rounds allocate nothing. The size of the rings was tested before, so the only error is
// `OutOfMemory`. (The rounds borrow the bridge, so that only one return path drops it.)
fn run_into_lists<const C: usize, const M: usize>(
    alloc: Global,
    script: &Script<C, M>,
    ring: usize,
    far: &mut Script<M, C>,
) -> Result<End, RunFault>
    requires { AreWidths C M × HasShortLists script.now × (beats_of far.old ≡ no_beats) ×
        HasRoomFor (near_beats script.now) far.old }
    ensures ended { IfOk result (λ end. (s : Bridge C M) ×
        HasEnded (near_beats script.now) end.at (beats_of far.new) s end.stops end.rounds) }
    ensures each { IfOk result (λ end. AreBelow end.at end.rounds) }
    ensures exact { IfOk result (λ end. TakesRounds (near_beats script.now) ring end.rounds) }
    ensures size { IsOk result → (1 ≤ ring) × (ring ≤ MAX_RING) }
    ensures memory { IfErr result (λ fault. fault ≡ OutOfMemory) }
{
    let Ok(mut bridge) = SyncBridge::new(alloc, ring) else {
        return Err(RunFault::OutOfMemory);
    };
    let end = run_rounds(&mut bridge, script, far);
    bridge.discard();
    Ok(end)
}
