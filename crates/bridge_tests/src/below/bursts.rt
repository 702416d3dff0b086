#![tactic(auto, using(tl_lanes::proofs::Widths::width_4))]

use crate::values::blank;
use tl_burst::{BurstCounter, Tracker};
use tl_lanes::Mask;
use tl_msg::{BeatFault, ChA, Channel, HeadA};

/// The head of PutFullData of 8 bytes, which is two beats on 4 lanes.
const PUT: HeadA = HeadA {
    opcode: 0,
    param: 0,
    size: 3,
    source: 1,
    address: 16,
};

/// The same message from another source.
const OTHER: HeadA = HeadA { source: 2, ..PUT };

fn is_refused(tracker: &Tracker<ChA, 4>, head: HeadA, mask: Mask, fault: BeatFault) -> bool {
    tracker.check(&blank(head, mask)).err() == Some(fault)
}

/// Returns whether it advances by a beat of [`PUT`] with this index, which is the last one or not.
fn passes(tracker: &mut Tracker<ChA, 4>, index: u32, last: bool) -> bool {
    match tracker.check(&blank(PUT, 0xf)) {
        Ok(place) => {
            let is_there = (place.index == index) & (place.last == last);
            tracker.advance(place);
            is_there
        }
        Err(_) => false,
    }
}

/// Returns whether one beat of [`PUT`] was accepted.
fn is_inside(tracker: &Tracker<ChA, 4>) -> bool {
    match tracker.in_burst() {
        Some((head, count)) => (head == PUT) & (count == 1),
        None => false,
    }
}

/// Refuses a mask with a bit beyond the bus, a mask with a lane missing, and another head, which is
/// the fault reported first.
fn bring_a_put(tracker: &mut Tracker<ChA, 4>) -> bool {
    let is_held = is_refused(tracker, PUT, 0x1f, BeatFault::Mask);
    let is_begun = passes(tracker, 0, false) & is_inside(tracker);
    let is_kept = is_refused(tracker, PUT, 7, BeatFault::Mask)
        & is_refused(tracker, OTHER, 7, BeatFault::HeadChanged);
    let is_ended = passes(tracker, 1, true) & tracker.in_burst().is_none();
    is_held & is_begun & is_kept & is_ended
}

/// Returns whether the next beat is the first of a message before two beats of [`PUT`] and after
/// them, and not between them.
fn is_counted(counter: &mut BurstCounter<ChA, 4>) -> bool {
    if ChA::fault(&PUT).is_some() {
        return false;
    }
    let before = counter.first();
    counter.pass(&PUT);
    let inside = counter.first();
    counter.pass(&PUT);
    before & !inside & counter.first()
}

#[test]
fn a_burst_of_two_beats(rt: HostRuntime) {
    assert!(rt; bring_a_put(&mut Tracker::new()) & is_counted(&mut BurstCounter::new()));
}
