//! Tests that the run of a script in two threads agrees with its run in one.
#![tactic(auto, using(tl_lanes::proofs::Widths::width_4))]

ghost use Rattle.tl_parts.specs.Parts.{HasShortLists};

use crate::five::is_short;
use std::alloc::Global;
use std::thread::Threads;
use tl_bridge::{Gate, Outcome, RunFault, run_sync, run_threads};
use tl_trace::Script;

/// Returns whether two lists are the same.
fn are_equal<T: PartialEq>(one: &Vec<T>, other: &Vec<T>) -> bool {
    one.as_slice() == other.as_slice()
}

/// Returns whether both runs have the same lists and verdicts.
fn are_same(one: &Outcome<4, 4>, other: &Outcome<4, 4>) -> bool {
    are_equal(&one.a, &other.a)
        & are_equal(&one.b, &other.b)
        & are_equal(&one.c, &other.c)
        & are_equal(&one.d, &other.d)
        & are_equal(&one.e, &other.e)
        & (one.verdicts == other.verdicts)
}

/// Returns the number of rounds in two threads of two runs of one script, if both have the same
/// lists and verdicts.
fn rounds_of(
    threads: &Result<Outcome<4, 4>, RunFault>,
    sync: &Result<Outcome<4, 4>, RunFault>,
) -> Option<u64> {
    match (threads, sync) {
        (Ok(threads), Ok(sync)) if are_same(threads, sync) => Some(threads.rounds),
        _ => None,
    }
}

/// Runs a script both ways, with one turn in each round, over rings of the same size. Returns the
/// number of rounds in two threads, if both have the same lists and verdicts.
fn run_both<R: Threads, G: Gate + Send, H: Gate + Send>(
    rt: &R,
    alloc: Global,
    script: &Script<4, 4>,
    ring: usize,
    client_gate: &mut G,
    manager_gate: &mut H,
) -> Option<u64>
    requires short { HasShortLists script.now }
{
    let sync = run_sync::<4, 4>(alloc, script, ring);
    let threads = run_threads::<R, G, H, 4, 4>(
        rt,
        alloc,
        script,
        ring,
        1,
        client_gate,
        manager_gate,
    );
    rounds_of(&threads, &sync)
}

/// The same for a script in which no list has more than 4,096 beats.
pub fn run_short<R: Threads, G: Gate + Send, H: Gate + Send>(
    rt: &R,
    alloc: Global,
    script: &Script<4, 4>,
    ring: usize,
    client_gate: &mut G,
    manager_gate: &mut H,
) -> Option<u64> {
    if !is_short(script) {
        return None;
    }
    run_both(rt, alloc, script, ring, client_gate, manager_gate)
}
