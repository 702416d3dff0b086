//! The rounds of a run in two threads.
ghost use Rattle.std.specs.Prelude.{◌≡◌, ◌≤◌, ◌+◌, ℕ};
ghost use Rattle.tl_run.specs.Arrivals.{no_beats};
ghost use Rattle.tl_parts.specs.Parts.{HasShortLists, near_beats};
ghost use Rattle.tl_offer.specs.Widths.{AreWidths};
ghost use Rattle.tl_run.specs.Inner.Arriving.{HasRoomFor, beats_of};
ghost use Rattle.tl_bridge.specs.Inner.Arriving.{KeepsRoom, taken_of};
ghost use Rattle.tl_run.specs.Inner.Running.{HasEnded};
ghost use Rattle.tl_sides.specs.Sides.{AreSides};
ghost use Rattle.tl_bridge.specs.Inner.Sides.{MayPlay, HasPlayedTurns, HasMet, HasPlayed, AreNew};
ghost use Rattle.tl_bridge.specs.Inner.Sides.{WereSides, bridge_of};

use crate::client_turns::ClientRun;
use crate::gates::Gate;
use crate::manager_turns::ManagerRun;
use crate::sizes::sides_fit;
use crate::turns::{PlaysRounds, play};
use std::thread::{Threads, join_mut};
use tl_run::{End, Turn};
use tl_sides::{ClientSide, ManagerSide, PerChannel, Standings, meet_sides};
use tl_trace::Script;

// Runs both sides of a round concurrently. The function is generic in the two sides; otherwise the
// checker would expand the whole types of the two sides at each step of both closures.
fn play_both<
    R: Threads,
    X: PlaysRounds<C, M> + Send,
    Y: PlaysRounds<C, M> + Send,
    G: Gate + Send,
    H: Gate + Send,
    const C: usize,
    const M: usize,
>(
    rt: &R,
    client: &mut X,
    manager: &mut Y,
    script: &Script<C, M>,
    at: &PerChannel<usize>,
    turns: usize,
    client_gate: &mut G,
    manager_gate: &mut H,
) -> (Turn, Turn)
    requires { AreWidths C M × HasShortLists script.now ×
        MayPlay X.playing (near_beats script.now) at.now client.old ×
        MayPlay Y.playing (near_beats script.now) at.now manager.old }
    ensures client { HasPlayedTurns X.playing (near_beats script.now) at.now client.old
        client.new result.0 }
    ensures manager { HasPlayedTurns Y.playing (near_beats script.now) at.now manager.old
        manager.new result.1 }
    ensures client_passed { (n : ℕ) → G.HasPassed n client_gate.old →
        G.HasPassed (n + 1) client_gate.new }
    ensures manager_passed { (n : ℕ) → H.HasPassed n manager_gate.old →
        H.HasPassed (n + 1) manager_gate.new }
{
    join_mut(
        rt,
        &mut || -> Turn
            requires { AreWidths C M × HasShortLists script.now ×
                MayPlay X.playing (near_beats script.now) at.now client.now }
            ensures { HasPlayedTurns X.playing (near_beats script.entry.now) at.entry.now
                client.entry.now client.exit.now result × ((n : ℕ) →
                G.HasPassed n client_gate.entry.now → G.HasPassed (n + 1) client_gate.exit.now) }
        { play(client, script, at, turns, client_gate) },
        &mut || -> Turn
            requires { AreWidths C M × HasShortLists script.now ×
                MayPlay Y.playing (near_beats script.now) at.now manager.now }
            ensures { HasPlayedTurns Y.playing (near_beats script.entry.now) at.entry.now
                manager.entry.now manager.exit.now result × ((n : ℕ) →
                H.HasPassed n manager_gate.entry.now → H.HasPassed (n + 1) manager_gate.exit.now) }
        { play(manager, script, at, turns, manager_gate) },
    )
}

// Lemma: two sides of one bridge that each advanced by itself are still sides of one bridge. Does
// nothing at run time.
fn are_sides<const C: usize, const M: usize>(client: &ClientSide<C, M>, manager: &ManagerSide<C, M>)
    requires { WereSides client.now manager.now }
    ensures { AreSides client.now manager.now }
{}

// Runs a round and the meeting after it. Returns the result of both sides, and the number of beats
// at each place afterwards.
fn round<R: Threads, G: Gate + Send, H: Gate + Send, const C: usize, const M: usize>(
    rt: &R,
    client: &mut ClientRun<C, M>,
    manager: &mut ManagerRun<C, M>,
    script: &Script<C, M>,
    at: &PerChannel<usize>,
    turns: usize,
    client_gate: &mut G,
    manager_gate: &mut H,
) -> (Turn, Standings)
    requires { AreWidths C M × HasShortLists script.now ×
        HasRoomFor (near_beats script.now) (taken_of client.old manager.old) ×
        HasMet (near_beats script.now) at.now (beats_of (taken_of client.old manager.old))
        client.old.side manager.old.side }
    ensures round { HasPlayed (near_beats script.now) at.now client.old.side manager.old.side result.0
        result.1 (beats_of (taken_of client.new manager.new)) client.new.side manager.new.side }
    ensures capacity { KeepsRoom (taken_of client.old manager.old)
        (taken_of client.new manager.new) }
    ensures client_passed { (n : ℕ) → G.HasPassed n client_gate.old →
        G.HasPassed (n + 1) client_gate.new }
    ensures manager_passed { (n : ℕ) → H.HasPassed n manager_gate.old →
        H.HasPassed (n + 1) manager_gate.new }
{
    let (there, back) = play_both(
        rt,
        client,
        manager,
        script,
        at,
        turns,
        client_gate,
        manager_gate,
    );
    sides_fit::<C, M>();
    are_sides(&client.side, &manager.side);
    let standings = meet_sides(&mut client.side, &mut manager.side);
    (there.beside(&back), standings)
}

// Runs rounds, up to the first one in which no beat was accepted and after which nothing is under
// way. That is at the latest the first round in which nothing moves.
#[inline(never)]
pub(crate) fn play_rounds<
    R: Threads,
    G: Gate + Send,
    H: Gate + Send,
    const C: usize,
    const M: usize,
>(
    rt: &R,
    client: &mut ClientRun<C, M>,
    manager: &mut ManagerRun<C, M>,
    script: &Script<C, M>,
    turns: usize,
    client_gate: &mut G,
    manager_gate: &mut H,
) -> End
    requires { AreWidths C M × HasShortLists script.now ×
        HasRoomFor (near_beats script.now) (taken_of client.old manager.old) ×
        AreNew client.old.side manager.old.side ×
        (beats_of (taken_of client.old manager.old) ≡ no_beats) }
    ensures ended { HasEnded (near_beats script.now) result.at
        (beats_of (taken_of client.new manager.new)) (bridge_of client.new.side manager.new.side)
        result.stops result.rounds }
    ensures client_passed { (n : ℕ) → G.HasPassed n client_gate.old →
        G.HasPassed (n + result.rounds) client_gate.new }
    ensures manager_passed { (n : ℕ) → H.HasPassed n manager_gate.old →
        H.HasPassed (n + result.rounds) manager_gate.new }
    ensures some_round { 1 ≤ result.rounds }
{
    let mut at = PerChannel {
        a: 0,
        b: 0,
        c: 0,
        d: 0,
        e: 0,
    };
    let mut rounds = 0;
    sides_fit::<C, M>();
    meet_sides(&mut client.side, &mut manager.side);
    'rounds: loop {
        let (played, standings) = round(
            rt,
            client,
            manager,
            script,
            &at,
            turns,
            client_gate,
            manager_gate,
        );
        at = played.at;
        rounds += 1;
        if let Some(stops) = played.stops_at(&standings) {
            return End { at, stops, rounds };
        }
    }
}
