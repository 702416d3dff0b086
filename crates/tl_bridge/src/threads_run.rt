//! The run of a whole script in two threads.
ghost use Rattle.std.specs.Prelude.{◌≡◌, ◌≢◌, ◌≤◌, ◌<◌, ◌⊎◌, ◌↔◌, ◌+◌, ℕ, IsOk, IfOk, IfErr};
ghost use Rattle.tl_ring.specs.declared.pipe.TheConstants.{MAX_RING};
ghost use Rattle.tl_lanes.specs.Lanes.{IsWidth};
ghost use Rattle.tl_run.specs.declared.outcome.RunFault.TheVariants.{RingSize, Stalled};
ghost use Rattle.tl_run.specs.Scripts.{SettlesTo};
ghost use Rattle.tl_parts.specs.Parts.{HasShortLists};
ghost use Rattle.tl_offer.specs.Widths.{AreWidths};
ghost use Rattle.tl_bridge.specs.Inner.Arriving.{taken_of};

use crate::client_turns::ClientRun;
use crate::gates::Gate;
use crate::manager_turns::ManagerRun;
use crate::sizes::{runs_fit, sides_fit};
use crate::thread_rounds::play_rounds;
use std::alloc::Global;
use std::thread::Threads;
use tl_ring::MAX_RING;
use tl_run::{Outcome, RunFault, no_far_beats, outcome_at, reserve_far};
use tl_trace::Script;

// Returns the lists of far beats, when both sides are finished.
fn lists_of<const C: usize, const M: usize>(
    client: ClientRun<C, M>,
    manager: ManagerRun<C, M>,
) -> Script<M, C>
    requires { AreWidths C M }
    ensures { result ≡ taken_of client.entry manager.entry }
{
    Script {
        a: manager.far_a,
        b: client.far_b,
        c: manager.far_c,
        d: client.far_d,
        e: manager.far_e,
    }
}

/// Runs a script over a bridge whose two sides are each in a thread of their own, to its end.
/// Returns the far beats and the verdicts of the script's settled state, whatever the size of the
/// rings, the number of turns and the interleaving of the two threads. So they are those of
/// [`run_sync`](crate::run_sync).
///
/// The run is made of rounds. In each round, each side first calls its gate, and takes all beats
/// that were in its inboxes at the last meeting. Then it makes up to `turns` turns, until one in
/// which nothing moves. In a turn it offers the next beat of each of its channels that is ready,
/// moves staged beats into its rings, and moves beats of the other side's rings into its inboxes.
/// Both sides do so concurrently; then they meet. A refused beat stays next. A channel whose list
/// is used up between two messages is closed. The run ends after the first round in which no beat
/// was accepted and after which nothing is under way. The outcome's `rounds` is the number of
/// rounds, that is, of calls of each gate.
///
/// Errors: `RingSize` if and only if `ring`, the size of each ring in beats, is 0 or above 4,096;
/// otherwise `OutOfMemory` if the allocator fails for the bridge or for the far beats. All memory
/// is allocated before the first round. `Stalled` is never returned. Requires: `C` and `M` are
/// widths, `turns` is at least 1, and each list has at most `2^40` beats.
#[inline(never)]
pub fn run_threads<R: Threads, G: Gate + Send, H: Gate + Send, const C: usize, const M: usize>(
    rt: &R,
    alloc: Global,
    script: &Script<C, M>,
    ring: usize,
    turns: usize,
    client_gate: &mut G,
    manager_gate: &mut H,
) -> Result<Outcome<C, M>, RunFault>
    requires client { IsWidth C }
    requires manager { IsWidth M }
    requires short { HasShortLists script.now }
    requires turns { 1 ≤ turns }
    ensures outcome { IfOk result (SettlesTo script.now) }
    ensures client_rounds { (n : ℕ) → G.HasPassed n client_gate.old →
        IfOk result (λ outcome. G.HasPassed (n + outcome.rounds) client_gate.new) }
    ensures manager_rounds { (n : ℕ) → H.HasPassed n manager_gate.old →
        IfOk result (λ outcome. H.HasPassed (n + outcome.rounds) manager_gate.new) }
    ensures some_round { IfOk result (λ outcome. 1 ≤ outcome.rounds) }
    ensures size { IsOk result → (1 ≤ ring) × (ring ≤ MAX_RING) }
    ensures ring_size { IfErr result (λ fault. (fault ≡ RingSize) ↔
        ((ring ≡ 0) ⊎ (MAX_RING < ring))) }
    ensures never_stalled { IfErr result (λ fault. fault ≢ Stalled) }
{
    // the lists are allocated first, and then the rings
    if ring == 0 || ring > MAX_RING {
        return Err(RunFault::RingSize);
    }
    let mut far = no_far_beats::<C, M>(alloc);
    let Ok(()) = reserve_far(&mut far, script) else {
        return Err(RunFault::OutOfMemory);
    };
    sides_fit::<C, M>();
    let Ok((client, manager)) = tl_sides::bridge::<C, M, Global>(alloc, ring) else {
        return Err(RunFault::OutOfMemory);
    };
    runs_fit::<C, M>();
    let Script { a, b, c, d, e } = far;
    let mut client = ClientRun {
        side: client,
        far_b: b,
        far_d: d,
    };
    let mut manager = ManagerRun {
        side: manager,
        far_a: a,
        far_c: c,
        far_e: e,
    };
    let end = play_rounds(
        rt,
        &mut client,
        &mut manager,
        script,
        turns,
        client_gate,
        manager_gate,
    );
    Ok(outcome_at(end, lists_of(client, manager)))
}
