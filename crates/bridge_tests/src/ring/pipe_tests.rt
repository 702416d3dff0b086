//! The one-thread pipe, step by step.
#![tactic(auto, using(tl_lanes::proofs::Widths::width_1, tl_lanes::proofs::Widths::width_4, tl_lanes::proofs::Widths::width_8, tl_lanes::proofs::Widths::width_64))]

use crate::lending::{come_of, lent};
use crate::values::{at, put};
use std::alloc::Global;
use tl_msg::{BeatOf, ChA, ChC, HeadC};
use tl_ring::{EndFault, Standing, SyncPipe};

/// A step of a pipe from 8 bytes to 4, and its expected result.
enum Step {
    /// It accepts a message of the bytes 0 to 7, which is two far beats.
    Offers,
    /// This number of beats is moved.
    Pumps(usize),
    Fetches(usize),
    /// It returns the far beat with these bytes.
    Takes([u8; 4]),
    TakesNothing,
    Closes,
    IsReady(bool),
    IsDrained(bool),
    /// This number of beats is in the stage, and no others are under way.
    Stages(usize),
}

/// Returns whether it accepts a message of the bytes 0 to 7.
fn offers(pipe: &mut SyncPipe<ChA, 8, 4>) -> bool {
    pipe.ready()
        && pipe
            .offer(put(3, 16, 0xff, [0, 1, 2, 3, 4, 5, 6, 7]), 0)
            .is_ok()
}

/// Returns whether it returns the far beat with these bytes.
fn takes(pipe: &mut SyncPipe<ChA, 8, 4>, lanes: [u8; 4]) -> bool {
    pipe.take() == Some(put(3, 16, 0xf, lanes))
}

/// Returns whether a step has its expected result.
fn play(pipe: &mut SyncPipe<ChA, 8, 4>, step: &Step) -> bool {
    match step {
        Step::Offers => offers(pipe),
        Step::Pumps(count) => pipe.pump() == *count,
        Step::Fetches(count) => pipe.fetch() == *count,
        Step::Takes(lanes) => takes(pipe, *lanes),
        Step::TakesNothing => pipe.take().is_none(),
        Step::Closes => pipe.close().is_ok(),
        Step::IsReady(wanted) => pipe.ready() == *wanted,
        Step::IsDrained(wanted) => pipe.drained() == *wanted,
        Step::Stages(count) => pipe.standing() == at(*count, 0, 0),
    }
}

/// Returns whether these steps have their expected results over a ring of one beat.
fn steps_come_of(alloc: Global, steps: &[Step]) -> bool {
    come_of(SyncPipe::new(alloc, 1), play, steps)
}

const CLOSED_LAST: [Step; 15] = [
    Step::Offers,
    Step::IsReady(false),
    Step::Stages(2),
    Step::Pumps(1),
    Step::Pumps(0),
    Step::Fetches(1),
    Step::Pumps(1),
    Step::Fetches(1),
    Step::IsReady(true),
    Step::Takes([0, 1, 2, 3]),
    Step::Takes([4, 5, 6, 7]),
    Step::TakesNothing,
    Step::Closes,
    Step::IsDrained(true),
    Step::IsReady(false),
];

const CLOSED_FIRST: [Step; 16] = [
    Step::Offers,
    Step::Closes,
    Step::Closes,
    Step::Stages(2),
    Step::IsDrained(false),
    Step::Pumps(1),
    Step::Pumps(0),
    Step::Fetches(1),
    Step::Pumps(1),
    Step::Fetches(1),
    Step::IsDrained(false),
    Step::Takes([0, 1, 2, 3]),
    Step::IsDrained(false),
    Step::Takes([4, 5, 6, 7]),
    Step::IsDrained(true),
    Step::TakesNothing,
];

/// One pipe is closed at the end, and another one while both are staged.
#[test]
fn two_far_beats_pass_a_ring_of_one(rt: HostRuntime) {
    assert!(rt; steps_come_of(rt.alloc(), &CLOSED_LAST) & steps_come_of(rt.alloc(), &CLOSED_FIRST));
}

/// Offers half of a message of 8 bytes. Returns whether it was accepted.
fn half_offered(pipe: &mut SyncPipe<ChA, 4, 8>, lanes: [u8; 4]) -> bool {
    pipe.ready() && pipe.offer(put(3, 16, 0xf, lanes), 0).is_ok()
}

/// Returns whether closing is refused after the first half, and the far beat is staged after the
/// second one.
fn close_after_each_half(pipe: &mut SyncPipe<ChA, 4, 8>) -> bool {
    let is_open = half_offered(pipe, [0, 1, 2, 3]) & (pipe.close() == Err(EndFault::MidBurst));
    let is_empty = pipe.standing() == at(0, 0, 0);
    let is_closed = half_offered(pipe, [4, 5, 6, 7]) & pipe.close().is_ok();
    is_open & is_empty & is_closed & (pipe.standing() == at(1, 0, 0))
}

#[test]
fn a_close_waits_for_the_end_of_a_burst(rt: HostRuntime) {
    assert!(rt; lent(SyncPipe::new(rt.alloc(), 1), close_after_each_half));
}

/// A beat of ReleaseData of 128 bytes, which is two beats.
const RELEASE: BeatOf<HeadC, 64> = BeatOf {
    head: HeadC {
        opcode: 7,
        param: 1,
        size: 7,
        source: 3,
        address: 256,
    },
    mask: 0,
    lanes: [9; 64],
    corrupt: false,
};

/// Offers beats of [`RELEASE`]. Returns whether these numbers of far beats are pumped and fetched
/// for each.
fn are_moved(pipe: &mut SyncPipe<ChC, 64, 1>, moved: &[[usize; 2]]) -> bool {
    let mut are_so = true;
    for count in moved {
        are_so &= pipe.ready()
            && pipe.offer(RELEASE, 0).is_ok()
            && [pipe.pump(), pipe.fetch()] == *count;
    }
    are_so
}

/// Returns whether 128 beats are in the inbox and this number in the ring, this number is fetched
/// after a take, and the beats are then at these places.
fn is_full(
    pipe: &mut SyncPipe<ChC, 64, 1>,
    in_ring: usize,
    fetched: usize,
    then: Standing,
) -> bool {
    let is_full = pipe.standing() == at(0, in_ring, 128);
    let is_fetched = pipe.take().is_some() & (pipe.fetch() == fetched);
    is_full & is_fetched & (pipe.standing() == then)
}

/// Returns whether two beats fill the inbox, and the far beats of two more stay in the ring, except
/// one after each take.
fn two_fill_it(pipe: &mut SyncPipe<ChC, 64, 1>) -> bool {
    let two = are_moved(pipe, &[[64, 64], [64, 64]]) & is_full(pipe, 0, 0, at(0, 0, 127));
    let more = are_moved(pipe, &[[64, 1], [64, 0]]) & is_full(pipe, 127, 1, at(0, 126, 128));
    two & more
}

/// With the largest ring.
#[test]
fn an_inbox_holds_128_beats(rt: HostRuntime) {
    assert!(rt; lent(SyncPipe::new(rt.alloc(), 4096), two_fill_it));
}
