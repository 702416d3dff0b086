//! The result of both runs if an allocation or the start of a thread fails. It is `OutOfMemory`,
//! which is then also the result of the test, or the whole outcome. The script is unchanged.
//! `tests/program/test_refusals.py` makes each fail in turn. If none fails, the tests pass.
#![tactic(auto, using(tl_lanes::proofs::Widths::width_4, tl_lanes::proofs::Widths::width_8))]

ghost use Rattle.tl_parts.specs.Parts.{HasShortLists};

use crate::five::{has_one_each, script_of_five};
use std::alloc::Global;
use std::test::Fail;
use std::thread::Threads;
use tl_bridge::{NoGate, Outcome, RunFault, run_sync, run_threads};
use tl_msg::Verdict;
use tl_trace::Script;

/// Returns whether each beat of the script arrives.
fn has_all_five(outcome: &Outcome<4, 8>) -> bool {
    (outcome.a.len() == 1)
        & (outcome.b.len() == 1)
        & (outcome.c.len() == 1)
        & (outcome.d.len() == 1)
        & (outcome.e.len() == 1)
        & (outcome.verdicts == [Verdict::Done { near: 1, far: 1 }; 5])
}

/// Whether each beat of a script arrived in its run, or the fault of the run.
type Ended = Result<bool, RunFault>;

/// The expected result of a run with an invalid ring size.
const NO_RING: Ended = Err(RunFault::RingSize);

fn ended_so(ended: &Result<Outcome<4, 8>, RunFault>) -> Ended {
    match ended {
        Ok(outcome) => Ok(has_all_five(outcome)),
        Err(fault) => Err(*fault),
    }
}

/// Returns the result of the run in one thread.
fn ended_in_one(alloc: Global, script: &Script<4, 8>, ring: usize) -> Ended
    requires short { HasShortLists script.now }
{
    let ended = run_sync::<4, 8>(alloc, script, ring);
    ended_so(&ended)
}

/// Returns the result of the run in two threads.
fn ended_in_two<R: Threads>(rt: &R, alloc: Global, script: &Script<4, 8>, ring: usize) -> Ended
    requires short { HasShortLists script.now }
{
    let (client_gate, manager_gate) = (&mut NoGate, &mut NoGate);
    let ended = run_threads::<R, NoGate, NoGate, 4, 8>(
        rt,
        alloc,
        script,
        ring,
        1,
        client_gate,
        manager_gate,
    );
    ended_so(&ended)
}

/// Returns the result of the run in one thread, or in two.
fn ended_in<R: Threads>(
    rt: &R,
    alloc: Global,
    script: &Script<4, 8>,
    ring: usize,
    threads: bool,
) -> Ended
    requires short { HasShortLists script.now }
{
    if threads {
        ended_in_two(rt, alloc, script, ring)
    } else {
        ended_in_one(alloc, script, ring)
    }
}

/// Returns the result of a test whose run had this result.
fn judged(ended: Ended) -> Result<(), Fail> {
    match ended {
        Ok(true) => Ok(()),
        Ok(false) => Err(Fail::from("another outcome")),
        Err(fault) => Err(Fail::new(fault)),
    }
}

/// Runs the script over rings of 0 and of 4,097 beats, and of 1. Returns the result of the test.
fn judge<R: Threads>(
    rt: &R,
    alloc: Global,
    script: &Script<4, 8>,
    threads: bool,
) -> Result<(), Fail>
    requires short { HasShortLists script.now }
{
    let has_no_ring = (ended_in(rt, alloc, script, 0, threads) == NO_RING)
        & (ended_in(rt, alloc, script, 4097, threads) == NO_RING);
    let ended = ended_in(rt, alloc, script, 1, threads);
    if !has_no_ring {
        return Err(Fail::from("a ring of 0 or of 4,097 beats is no RingSize"));
    }
    if !has_one_each(script) {
        return Err(Fail::from("another script"));
    }
    judged(ended)
}

/// Reads the script and runs it. Returns the result of the test.
fn read_and_judge<R: Threads>(rt: &R, alloc: Global, threads: bool) -> Result<(), Fail> {
    match script_of_five(alloc) {
        Ok(script) => {
            let judged = judge(rt, alloc, &script, threads);
            drop(script);
            judged
        }
        Err(fault) => Err(Fail::from(fault)),
    }
}

#[test]
fn run_sync_wants_memory(rt: HostRuntime) -> Result<(), Fail> {
    read_and_judge(&rt, rt.alloc(), false)
}

#[test]
fn run_threads_wants_memory(rt: HostRuntime) -> Result<(), Fail> {
    read_and_judge(&rt, rt.alloc(), true)
}
