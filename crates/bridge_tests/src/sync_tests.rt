//! The bridge in one thread, call by call.
#![tactic(auto, using(tl_lanes::proofs::Widths::width_4, tl_lanes::proofs::Widths::width_16))]

use crate::calls::{ANSWERED, Call, Said, TWICE};
use crate::lending::{come_of, lent};
use crate::values::{blank, data, get};
use std::alloc::Global;
use tl_bridge::{Standings, SyncBridge};
use tl_msg::{HeadB, HeadC, HeadE};

/// Returns whether a Get of source 11 from this address is offered, with this result.
fn asks(bridge: &mut SyncBridge<4, 16>, address: u64, said: &Said) -> bool {
    bridge.ready_a() && bridge.offer_a(get(0x11, address, 0xf)) == *said
}

/// Returns whether a response to source 11 is offered, with this result.
fn answers(
    bridge: &mut SyncBridge<4, 16>,
    opcode: u8,
    size: u8,
    lanes: &[u8; 16],
    said: &Said,
) -> bool {
    bridge.ready_d() && bridge.offer_d(data(opcode, size, 0x11, *lanes)) == *said
}

/// Returns whether a call has its expected result.
fn play(bridge: &mut SyncBridge<4, 16>, call: &Call) -> bool {
    match call {
        Call::Asks(address, said) => asks(bridge, *address, said),
        Call::Answers(opcode, size, lanes, said) => answers(bridge, *opcode, *size, lanes, said),
        Call::ClientPumps | Call::ManagerPumps => bridge.pump() == 1,
        Call::ClientFetches | Call::ManagerFetches => bridge.fetch() == 1,
        Call::TakesAsk(address, mask) => bridge.take_a() == Some(get(0x11, *address, *mask)),
        Call::TakesAnswer(lanes) => bridge.take_d() == Some(data(1, 2, 0x11, *lanes)),
        Call::TakesNothing => bridge.take_d().is_none(),
    }
}

/// Returns whether these calls have their expected results over rings of `ring` beats.
fn calls_come_of(alloc: Global, ring: usize, calls: &[Call]) -> bool {
    come_of(SyncBridge::new(alloc, ring), play, calls)
}

/// Returns whether a Get of source 1 from this address is accepted between buses of 4 bytes.
fn asks_across(bridge: &mut SyncBridge<4, 4>, address: u64) -> bool {
    bridge.ready_a() && bridge.offer_a(get(1, address, 0xf)).is_ok()
}

/// Returns whether a response to it, of 4 bytes like this one, is accepted.
fn answers_across(bridge: &mut SyncBridge<4, 4>, byte: u8) -> bool {
    bridge.ready_d() && bridge.offer_d(data(1, 2, 1, [byte; 4])).is_ok()
}

/// Returns whether one beat is moved.
fn moves_one(bridge: &mut SyncBridge<4, 4>) -> bool {
    (bridge.pump() == 1) & (bridge.fetch() == 1)
}

/// Returns whether the request and its response both cross.
fn ask_and_answer(bridge: &mut SyncBridge<4, 4>, address: u64, byte: u8) -> bool {
    let is_there = asks_across(bridge, address) & moves_one(bridge);
    let is_taken = bridge.take_a() == Some(get(1, address, 0xf));
    let is_back = answers_across(bridge, byte) & moves_one(bridge);
    is_there & is_taken & is_back & (bridge.take_d() == Some(data(1, 2, 1, [byte; 4])))
}

/// Returns whether source 1 sends two requests and receives two responses.
fn both_cross_twice(bridge: &mut SyncBridge<4, 4>) -> bool {
    ask_and_answer(bridge, 0, 0x11) & ask_and_answer(bridge, 4, 0x22)
}

/// Also for a source that is used twice, and between equal widths.
#[test]
fn a_request_and_its_response(rt: HostRuntime) {
    let come = calls_come_of(rt.alloc(), 4, &ANSWERED) & calls_come_of(rt.alloc(), 1, &TWICE);
    assert!(rt; come & lent(SyncBridge::new(rt.alloc(), 1), both_cross_twice));
}

const PROBE: HeadB = HeadB {
    opcode: 6,
    param: 2,
    size: 2,
    source: 0,
    address: 0x80,
};

const PROBE_ACK: HeadC = HeadC {
    opcode: 4,
    param: 1,
    size: 2,
    source: 0,
    address: 0x80,
};

const GRANT_ACK: HeadE = HeadE { sink: 7 };

/// Offers a beat of B, one of C and one of E. Returns whether they were accepted.
fn all_offered(bridge: &mut SyncBridge<4, 16>) -> bool {
    if !(bridge.ready_b() & bridge.ready_c() & bridge.ready_e()) {
        return false;
    }
    bridge.offer_b(blank(PROBE, 0xf)).is_ok()
        & bridge.offer_c(blank(PROBE_ACK, 0)).is_ok()
        & bridge.offer_e(blank(GRANT_ACK, 0)).is_ok()
}

/// Returns whether these three are taken.
fn all_taken(bridge: &mut SyncBridge<4, 16>) -> bool {
    (bridge.take_b() == Some(blank(PROBE, 0xf)))
        & (bridge.take_c() == Some(blank(PROBE_ACK, 0)))
        & (bridge.take_e() == Some(blank(GRANT_ACK, 0)))
}

/// Closes each channel. Returns whether each was closed, and is then not ready.
fn closes_each(bridge: &mut SyncBridge<4, 16>) -> bool {
    let a = bridge.close_a().is_ok() & !bridge.ready_a();
    let b = bridge.close_b().is_ok() & !bridge.ready_b();
    let c = bridge.close_c().is_ok() & !bridge.ready_c();
    let d = bridge.close_d().is_ok() & !bridge.ready_d();
    let e = bridge.close_e().is_ok() & !bridge.ready_e();
    a & b & c & d & e
}

/// Returns whether these three cross, no channel has a beat afterwards, and each closes.
fn cross_and_close(bridge: &mut SyncBridge<4, 16>) -> bool {
    let is_moved = all_offered(bridge) & (bridge.pump() == 3) & (bridge.fetch() == 3);
    let is_there = bridge.standings().c.inbox == 1;
    let is_empty = all_taken(bridge) & (bridge.standings() == Standings::default());
    is_moved & is_there & is_empty & closes_each(bridge)
}

#[test]
fn probes_releases_and_acknowledgements(rt: HostRuntime) {
    assert!(rt; lent(SyncBridge::new(rt.alloc(), 1), cross_and_close));
}
