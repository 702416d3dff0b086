//! Tests of the number of rounds of a run.
#![tactic(auto, using(tl_lanes::proofs::Widths::width_64, tl_lanes::proofs::Widths::width_128))]

ghost use Rattle.tl_lanes.specs.Lanes.{IsWidth};

use crate::five::{empty, is_short};
use crate::values::{ack, put};
use std::alloc::Global;
use std::thread::Threads;
use tl_bridge::{NoGate, Outcome, RunFault, run_sync, run_threads};
use tl_lanes::{Mask, is_width};
use tl_msg::{Beat, ChA, ChE};
use tl_trace::Script;

/// Returns the number of rounds of a run, or `None` if it ended in a fault.
fn rounds_in<const C: usize, const M: usize>(
    ended: &Result<Outcome<C, M>, RunFault>,
) -> Option<u64> {
    match ended {
        Ok(outcome) => Some(outcome.rounds),
        Err(_) => None,
    }
}

/// Returns the number of rounds of the run in two threads, over the largest rings.
fn rounds<const C: usize, const M: usize, R: Threads>(
    rt: &R,
    alloc: Global,
    script: &Script<C, M>,
    turns: usize,
) -> Option<u64> {
    if !(is_width(C) & is_width(M) & (turns != 0) & is_short(script)) {
        return None;
    }
    let (client_gate, manager_gate) = (&mut NoGate, &mut NoGate);
    let ended = run_threads::<R, NoGate, NoGate, C, M>(
        rt,
        alloc,
        script,
        4096,
        turns,
        client_gate,
        manager_gate,
    );
    rounds_in(&ended)
}

/// Returns the number of rounds of the run in one thread.
fn sync_rounds<const C: usize, const M: usize>(
    alloc: Global,
    script: &Script<C, M>,
    ring: usize,
) -> Option<u64> {
    if !(is_width(C) & is_width(M) & is_short(script)) {
        return None;
    }
    let ended = run_sync(alloc, script, ring);
    rounds_in(&ended)
}

/// Returns whether a run ended in at least `least` and at most `most` rounds.
fn are_from(rounds: Option<u64>, least: u64, most: u64) -> bool {
    match rounds {
        Some(rounds) => (least <= rounds) & (rounds <= most),
        None => false,
    }
}

#[test]
fn no_beat_takes_one_round(rt: HostRuntime) {
    let script = empty::<8, 8>(rt.alloc());
    let in_two = rounds(&rt, rt.alloc(), &script, 4);
    let in_one = sync_rounds(rt.alloc(), &script, 16);
    drop(script);
    assert!(rt; (in_two == Some(1)) & (in_one == Some(1)));
}

/// Appends a GrantAck of each sink from 00 to c7. Returns whether there was memory.
fn acknowledge(list: &mut Vec<Beat<ChE, 4>>) -> bool {
    let mut has_room = true;
    for sink in 0..200 {
        has_room &= list.push(ack(sink)).is_ok();
    }
    has_room
}

/// Returns the number of rounds of 200 beats of E in two threads.
fn rounds_of_acks<R: Threads>(rt: &R, alloc: Global, turns: usize) -> Option<u64> {
    let mut script = empty::<4, 8>(alloc);
    let is_made = acknowledge(&mut script.e);
    let taken = rounds(rt, alloc, &script, turns);
    drop(script);
    if is_made { taken } else { None }
}

/// 200 beats go through rings of 4,096 in few rounds of many turns, and in many rounds of one turn.
#[test]
fn a_run_heeds_its_turns(rt: HostRuntime) {
    let few = rounds_of_acks(&rt, rt.alloc(), 1000);
    let many = rounds_of_acks(&rt, rt.alloc(), 1);
    assert!(rt; are_from(few, 1, 6) & are_from(many, 201, u64::MAX));
}

/// Appends a PutFullData of 4,096 bytes, in `count` beats. Returns whether there was memory.
fn put_all<const W: usize>(list: &mut Vec<Beat<ChA, W>>, count: usize, mask: Mask) -> bool {
    let mut has_room = true;
    for _ in 0..count {
        has_room &= list.push(put(12, 0, mask, [0xa5; W])).is_ok();
    }
    has_room
}

/// Returns the number of rounds of these beats in one thread, to the narrowest bus.
fn rounds_of_puts<const C: usize>(
    alloc: Global,
    count: usize,
    mask: Mask,
    ring: usize,
) -> Option<u64>
    requires client { IsWidth C }
{
    let mut script = empty::<C, 1>(alloc);
    let is_made = put_all(&mut script.a, count, mask);
    let taken = sync_rounds(alloc, &script, ring);
    drop(script);
    if is_made { taken } else { None }
}

/// Each round moves one of 4,096 far beats through a ring of 1, and 64 through one of 64.
#[test]
fn a_run_heeds_its_rings(rt: HostRuntime) {
    let many = rounds_of_puts::<64>(rt.alloc(), 64, Mask::MAX >> 64, 1);
    let few = rounds_of_puts::<64>(rt.alloc(), 64, Mask::MAX >> 64, 64);
    assert!(rt; are_from(many, 4097, u64::MAX) & are_from(few, 1, 65));
}

/// Each round moves 128 far beats from the widest bus through a ring of 128.
#[test]
fn a_run_from_the_widest_bus_heeds_its_rings(rt: HostRuntime) {
    let few = rounds_of_puts::<128>(rt.alloc(), 32, Mask::MAX, 128);
    assert!(rt; are_from(few, 1, 33));
}
