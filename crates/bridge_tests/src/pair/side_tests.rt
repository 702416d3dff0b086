//! The two sides of a bridge, call by call in one thread.
#![tactic(auto, using(tl_lanes::proofs::Widths::width_4, tl_lanes::proofs::Widths::width_16))]

ghost use Rattle.tl_sides.specs.Sides.{AreSides, SameClient, SameManager};

use crate::calls::{ANSWERED, Call, Said, TWICE};
use crate::lending::let_both_go;
use crate::values::{data, get};
use std::alloc::Global;
use tl_lanes::Mask;
use tl_sides::{ClientSide, ManagerSide, bridge, meet_sides};

/// Returns whether a Get of source 11 from this address is offered, with this result.
fn asks(client: &mut ClientSide<4, 16>, address: u64, said: &Said) -> bool
    ensures { SameClient client.old client.new }
{
    client.ready_a() && client.offer_a(get(0x11, address, 0xf)) == *said
}

/// Returns whether a response to source 11 is offered, with this result.
fn answers(
    manager: &mut ManagerSide<4, 16>,
    opcode: u8,
    size: u8,
    lanes: &[u8; 16],
    said: &Said,
) -> bool
    ensures { SameManager manager.old manager.new }
{
    manager.ready_d() && manager.offer_d(data(opcode, size, 0x11, *lanes)) == *said
}

/// Returns whether the Get from this address is taken, and has this mask.
fn takes_ask(manager: &mut ManagerSide<4, 16>, address: u64, mask: Mask) -> bool
    ensures { SameManager manager.old manager.new }
{
    manager.take_a() == Some(get(0x11, address, mask))
}

/// Returns whether a response of 4 bytes with these lanes is taken.
fn takes_answer(client: &mut ClientSide<4, 16>, lanes: [u8; 4]) -> bool
    ensures { SameClient client.old client.new }
{
    client.take_d() == Some(data(1, 2, 0x11, lanes))
}

/// Returns whether one call of one side has its expected result.
fn play(client: &mut ClientSide<4, 16>, manager: &mut ManagerSide<4, 16>, call: &Call) -> bool
    ensures client { SameClient client.old client.new }
    ensures manager { SameManager manager.old manager.new }
{
    match call {
        Call::Asks(address, said) => asks(client, *address, said),
        Call::Answers(opcode, size, lanes, said) => answers(manager, *opcode, *size, lanes, said),
        Call::ClientPumps => client.pump() == 1,
        Call::ClientFetches => client.fetch() == 1,
        Call::ManagerPumps => manager.pump() == 1,
        Call::ManagerFetches => manager.fetch() == 1,
        Call::TakesAsk(address, mask) => takes_ask(manager, *address, *mask),
        Call::TakesAnswer(lanes) => takes_answer(client, *lanes),
        Call::TakesNothing => client.take_d().is_none(),
    }
}

/// The same, followed by a meeting.
fn play_and_meet(
    client: &mut ClientSide<4, 16>,
    manager: &mut ManagerSide<4, 16>,
    call: &Call,
) -> bool
    requires { AreSides client.old manager.old }
    ensures { AreSides client.new manager.new }
{
    let said = play(client, manager, call);
    meet_sides(client, manager);
    said
}

/// Returns whether these calls, one after another, have their expected results.
fn play_all(
    client: &mut ClientSide<4, 16>,
    manager: &mut ManagerSide<4, 16>,
    calls: &[Call],
) -> bool
    requires { AreSides client.old manager.old }
{
    let mut are_so = true;
    for call in calls {
        are_so &= play_and_meet(client, manager, call);
    }
    are_so
}

/// Returns whether these calls have their expected results over rings of `ring` beats.
fn sides_come_of(alloc: Global, ring: usize, calls: &[Call]) -> bool {
    match bridge::<4, 16, _>(alloc, ring) {
        Ok((mut client, mut manager)) => {
            let is_so = play_all(&mut client, &mut manager, calls);
            let_both_go(client, manager);
            is_so
        }
        Err(_) => false,
    }
}

/// Returns whether a Get of source 11 from this address is accepted between buses of 4 bytes.
fn asks_across(client: &mut ClientSide<4, 4>, address: u64) -> bool {
    client.ready_a() && client.offer_a(get(0x11, address, 0xf)).is_ok()
}

/// Returns whether a response to it, of 4 bytes like this one, is accepted.
fn answers_across(manager: &mut ManagerSide<4, 4>, byte: u8) -> bool {
    manager.ready_d() && manager.offer_d(data(1, 2, 0x11, [byte; 4])).is_ok()
}

/// Returns whether that Get is taken.
fn takes_ask_across(manager: &mut ManagerSide<4, 4>, address: u64) -> bool {
    manager.take_a() == Some(get(0x11, address, 0xf))
}

/// Returns whether that response is taken.
fn takes_answer_across(client: &mut ClientSide<4, 4>, byte: u8) -> bool {
    client.take_d() == Some(data(1, 2, 0x11, [byte; 4]))
}

/// Returns whether the request and its response both cross.
fn ask_and_answer(
    client: &mut ClientSide<4, 4>,
    manager: &mut ManagerSide<4, 4>,
    address: u64,
    byte: u8,
) -> bool {
    let is_asked = asks_across(client, address);
    let is_there = (client.pump() == 1) & (manager.fetch() == 1);
    let is_taken = takes_ask_across(manager, address);
    let is_answered = answers_across(manager, byte);
    let is_back = (manager.pump() == 1) & (client.fetch() == 1);
    let is_kept = takes_answer_across(client, byte);
    is_asked & is_there & is_taken & is_answered & is_back & is_kept
}

/// Returns whether source 11 sends two requests and receives two responses.
fn both_cross_twice(alloc: Global) -> bool {
    match bridge::<4, 4, _>(alloc, 1) {
        Ok((mut client, mut manager)) => {
            let once = ask_and_answer(&mut client, &mut manager, 0, 0x11);
            let again = ask_and_answer(&mut client, &mut manager, 4, 0x22);
            let_both_go(client, manager);
            once & again
        }
        Err(_) => false,
    }
}

/// Also for a source that is used twice, and between equal widths.
#[test]
fn a_request_and_its_response(rt: HostRuntime) {
    let come = sides_come_of(rt.alloc(), 4, &ANSWERED) & sides_come_of(rt.alloc(), 1, &TWICE);
    assert!(rt; come & both_cross_twice(rt.alloc()));
}
