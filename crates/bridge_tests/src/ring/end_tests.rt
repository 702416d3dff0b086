//! The two ends of a ring, step by step in one thread.
#![tactic(auto, using(tl_lanes::proofs::Widths::width_4, tl_lanes::proofs::Widths::width_8))]

ghost use Rattle.std.specs.Prelude.{◌≡◌, IfSome};
ghost use Rattle.tl_ring.specs.Ends.{ArePair, SameSend, IsReceiptOf};

use crate::values::{ack, at, put};
use std::alloc::Global;
use tl_msg::{ChA, ChE, SinkId};
use tl_ring::{EndFault, Receipt, SendEnd, Standing, TakeEnd, meet, meet_closing, ring_pair};

/// Offers a quarter of a message of 16 bytes. Returns whether it was accepted.
fn quarter_offered(send: &mut SendEnd<ChA, 4, 8>, lanes: [u8; 4]) -> bool {
    send.ready() && send.offer(put(4, 32, 0xf, lanes), 0).is_ok()
}

/// Offers a message of 8 bytes, which is two beats on 4 lanes. Returns whether it was accepted.
fn offered(send: &mut SendEnd<ChA, 8, 4>) -> bool
    ensures { send.new.producer ≡ send.old.producer }
{
    send.ready()
        && send
            .offer(put(3, 16, 0xff, [0, 1, 2, 3, 4, 5, 6, 7]), 0)
            .is_ok()
}

/// Returns whether pumping, or otherwise fetching, moves one beat, and the beats are then at these
/// places.
fn moves_one(
    send: &mut SendEnd<ChA, 8, 4>,
    take: &mut TakeEnd<ChA, 8, 4>,
    pumps: bool,
    standing: Standing,
) -> bool
    requires { ArePair send.old take.old }
    ensures { ArePair send.new take.new }
{
    let count = if pumps { send.pump() } else { take.fetch() };
    (count == 1) & (meet(send, take) == standing)
}

/// Returns for each of three takes whether it returned a beat.
fn taken(take: &mut TakeEnd<ChA, 8, 4>) -> [bool; 3]
    ensures { take.new.consumer ≡ take.old.consumer }
{
    [
        take.take().is_some(),
        take.take().is_some(),
        take.take().is_some(),
    ]
}

/// Returns whether one far beat enters the ring after the second of three quarters of a message,
/// and none after the others.
fn bring_three_quarters(send: &mut SendEnd<ChA, 4, 8>) -> bool {
    let first = quarter_offered(send, [0, 1, 2, 3]) & (send.pump() == 0);
    let second = quarter_offered(send, [4, 5, 6, 7]) & (send.pump() == 1);
    first & second & quarter_offered(send, [8, 9, 10, 11]) & (send.pump() == 0)
}

/// Returns whether the end stays open within the message, and is closed after its last quarter.
fn closes_at_the_end(send: SendEnd<ChA, 4, 8>) -> bool {
    let Err((mut send, fault)) = send.close() else {
        return false;
    };
    let is_brought = quarter_offered(&mut send, [12, 13, 14, 15])
        & (fault == EndFault::MidBurst)
        & (send.staged() == 1);
    match send.close().ok() {
        Some(closing) => is_brought & (closing.staged() == 1),
        None => false,
    }
}

#[test]
fn a_half_brought_message_keeps_its_end_open(rt: HostRuntime) {
    let ends = ring_pair::<ChA, 4, 8, Global>(rt.alloc(), 1);
    let (mut send, take) = ends.expect(&rt, "they are made");
    let is_brought = bring_three_quarters(&mut send);
    let is_closed = closes_at_the_end(send);
    drop(take);
    assert!(rt; is_brought & is_closed);
}

/// A row: whether the sending end pumps (otherwise the taking end fetches), and the number of beats
/// in the stage, the ring and the inbox afterwards.
const MOVES: [(bool, usize, usize, usize); 4] = [
    (true, 1, 1, 0),
    (false, 1, 0, 1),
    (true, 0, 1, 1),
    (false, 0, 0, 2),
];

/// Returns whether two far beats pass a ring of one, and no third one.
fn pass_a_ring_of_one(send: &mut SendEnd<ChA, 8, 4>, take: &mut TakeEnd<ChA, 8, 4>) -> bool
    requires { ArePair send.old take.old }
    ensures { ArePair send.new take.new }
{
    let mut is_so = offered(send) & (meet(send, take) == at(2, 0, 0));
    for &(pumps, staged, in_ring, inbox) in &MOVES {
        is_so &= moves_one(send, take, pumps, at(staged, in_ring, inbox));
    }
    is_so & (taken(take) == [true, true, false])
}

/// Returns whether the end is closed, and all its beats were taken.
fn closes_with_nothing_left(send: SendEnd<ChA, 8, 4>, take: &mut TakeEnd<ChA, 8, 4>) -> bool
    requires { ArePair send take.old }
{
    match send.close().ok() {
        Some(mut closing) => meet_closing(&mut closing, take) == at(0, 0, 0),
        None => false,
    }
}

#[test]
fn two_far_beats_pass_a_ring_of_one_between_ends(rt: HostRuntime) {
    let ends = ring_pair::<ChA, 8, 4, Global>(rt.alloc(), 1);
    let (mut send, mut take) = ends.expect(&rt, "they are made");
    let have_passed = pass_a_ring_of_one(&mut send, &mut take);
    let is_closed = closes_with_nothing_left(send, &mut take);
    drop(take);
    assert!(rt; have_passed & is_closed);
}

/// Offers a GrantAck. Returns whether it was accepted and staged, and this number of beats then
/// entered the ring.
fn sends(send: &mut SendEnd<ChE, 4, 8>, sink: SinkId, moved: usize) -> bool
    ensures { SameSend send.old send.new }
{
    let is_accepted = send.ready() && send.offer(ack(sink), 0).is_ok();
    is_accepted & (send.staged() == 1) & (send.pump() == moved)
}

/// Returns whether a receipt shows that a beat is in the ring, then that it is in the inbox, and,
/// after it was taken and is this GrantAck, that nothing is left.
fn is_emptied(take: &mut TakeEnd<ChE, 4, 8>, receipt: &mut Receipt<ChE, 4, 8>, sink: SinkId) -> bool
    requires { IsReceiptOf receipt.old take.old }
{
    if take.drained(receipt) || take.fetch() != 1 || take.drained(receipt) {
        return false;
    }
    match take.take() {
        Some(beat) => beat.head.sink == sink && take.drained(receipt),
        None => false,
    }
}

/// Closes the end and meets the other one. Returns the receipt, if one beat is in the ring and
/// nothing is staged.
fn receipt_for_one(
    send: SendEnd<ChE, 4, 8>,
    take: &mut TakeEnd<ChE, 4, 8>,
) -> Option<Receipt<ChE, 4, 8>>
    requires { ArePair send take.old }
    ensures { IfSome result (λ receipt. IsReceiptOf receipt take.new) }
{
    match send.close().ok() {
        Some(mut closing) => {
            let is_sent = meet_closing(&mut closing, take) == at(0, 1, 0);
            if is_sent && closing.staged() == 0 {
                closing.finish()
            } else {
                None
            }
        }
        None => None,
    }
}

/// Returns whether the receipt of an end that has sent one GrantAck shows what is left.
fn shows_what_is_left(mut send: SendEnd<ChE, 4, 8>, take: &mut TakeEnd<ChE, 4, 8>) -> bool
    requires { ArePair send take.old }
{
    if !sends(&mut send, 0x2a, 1) {
        return false;
    }
    match receipt_for_one(send, take) {
        Some(mut receipt) => is_emptied(take, &mut receipt, 0x2a),
        None => false,
    }
}

#[test]
fn a_receipt_shows_what_is_left(rt: HostRuntime) {
    let ends = ring_pair::<ChE, 4, 8, Global>(rt.alloc(), 2);
    let (send, mut take) = ends.expect(&rt, "they are made");
    let is_so = shows_what_is_left(send, &mut take);
    drop(take);
    assert!(rt; is_so);
}

/// Returns whether two beats enter the ring of two, and one more stays in the stage of the closed
/// end, after the taking end was dropped.
fn sends_in_vain(mut send: SendEnd<ChE, 4, 8>) -> bool {
    let are_sent = sends(&mut send, 7, 1) & sends(&mut send, 7, 1) & sends(&mut send, 7, 0);
    let is_full = !send.ready();
    match send.close().ok() {
        Some(closing) => are_sent & is_full & (closing.staged() == 1),
        None => false,
    }
}

/// Offers a message of two beats, of which one enters the ring, and drops the end. Returns whether
/// that succeeded.
fn leaves_one(mut send: SendEnd<ChA, 8, 4>) -> bool {
    offered(&mut send) && send.pump() == 1
}

/// Returns whether the beat in the ring still arrives after the sending end was dropped.
fn take_what_is_left(take: &mut TakeEnd<ChA, 8, 4>) -> bool {
    let is_there = (take.fetch() == 1) & take.take().is_some();
    is_there & (take.fetch() == 0) & take.take().is_none()
}

#[test]
fn a_sending_end_fills_the_ring_alone(rt: HostRuntime) {
    let ends = ring_pair::<ChE, 4, 8, Global>(rt.alloc(), 2);
    let (send, take) = ends.expect(&rt, "they are made");
    drop(take);
    assert!(rt; sends_in_vain(send));
}

#[test]
fn a_taking_end_empties_the_ring_alone(rt: HostRuntime) {
    let ends = ring_pair::<ChA, 8, 4, Global>(rt.alloc(), 1);
    let (send, mut take) = ends.expect(&rt, "they are made");
    let is_so = leaves_one(send) & take_what_is_left(&mut take);
    drop(take);
    assert!(rt; is_so);
}
