//! A gate that counts its calls: a run in two threads calls each gate as many times as there
//! are rounds.
#![tactic(auto, using(tl_lanes::proofs::Widths::width_4))]

ghost use Rattle.std.specs.Prelude.{◌≡◌, ◌<◌, IsOkAnd, IfSome};
ghost use Rattle.tl_parts.specs.Parts.{HasShortLists};

use crate::five::{empty, is_short};
use crate::run::gate_tests::use_twice;
use std::alloc::Global;
use std::thread::Threads;
use tl_bridge::{Gate, Outcome, RunFault, run_threads};
use tl_trace::Script;

/// A gate that counts its calls.
#[derive(Drop)]
struct CountingGate {
    calls: u64,
}

impl Gate for CountingGate {
    // the count is exact as long as it fits
    ghost HasPassed = { λ n gate. n < 18446744073709551616 → gate.calls ≡ n };

    fn pass(&mut self) {
        if self.calls < u64::MAX {
            self.calls += 1;
        }
    }
}

/// Lemma: a number of 64 bits is below 2^64. Does nothing at run time.
fn lemma_in_range(number: u64)
    ensures { number < 18446744073709551616 }
{}

/// Returns the number of rounds of a run, or `None` if it ended in a fault.
fn rounds_in(ended: &Result<Outcome<4, 4>, RunFault>) -> Option<u64>
    ensures { IfSome result (λ rounds. IsOkAnd ended.now (λ outcome. outcome.rounds ≡ rounds) ×
        (rounds < 18446744073709551616)) }
{
    match ended {
        Ok(outcome) => {
            lemma_in_range(outcome.rounds);
            Some(outcome.rounds)
        }
        Err(_) => None,
    }
}

/// Runs a script in two threads over new gates. Returns the number of rounds, and how often the
/// client's gate and the manager's were called.
fn count_calls<R: Threads>(rt: &R, alloc: Global, script: &Script<4, 4>) -> Option<(u64, u64, u64)>
    requires short { HasShortLists script.now }
    // each gate was called as many times as there were rounds
    ensures counts { IfSome result (λ n. (n.1 ≡ n.0) × (n.2 ≡ n.0)) }
{
    let mut client = CountingGate { calls: 0 };
    let mut manager = CountingGate { calls: 0 };
    let ended = run_threads::<R, CountingGate, CountingGate, 4, 4>(
        rt,
        alloc,
        script,
        4,
        1,
        &mut client,
        &mut manager,
    );
    match rounds_in(&ended) {
        Some(rounds) => Some((rounds, client.calls, manager.calls)),
        None => None,
    }
}

/// Returns the counts of a short script.
fn count_short<R: Threads>(
    rt: &R,
    alloc: Global,
    script: &Script<4, 4>,
) -> Option<(u64, u64, u64)> {
    if !is_short(script) {
        return None;
    }
    count_calls(rt, alloc, script)
}

/// Two requests by one source and two responses take more than one round.
#[test]
fn each_gate_is_called_once_for_each_round(rt: HostRuntime) {
    let mut script = empty::<4, 4>(rt.alloc());
    let is_made = use_twice(&mut script);
    let counts = count_short(&rt, rt.alloc(), &script);
    drop(script);
    assert!(rt; is_made & matches!(counts, Some((n, m, k)) if n > 1 && m == n && k == n));
}
