//! A ring between two threads.
#![tactic(auto, using(tl_lanes::proofs::Widths::width_4, tl_lanes::proofs::Widths::width_8))]

ghost use Rattle.std.specs.Prelude.{IfSome};
ghost use Rattle.tl_ring.specs.Ends.{ArePair, SameSend, SameTake, IsReceiptFor, IsReceiptOf};

use crate::lending::let_both_go;
use crate::values::{ack, at};
use arrayvec::ArrayVec;
use std::alloc::Global;
use std::thread::{Threads, join, join_mut};
use tl_msg::{ChE, SinkId};
use tl_ring::{ClosingEnd, Receipt, SendEnd, TakeEnd, meet, ring_pair};

/// The number of beats that go through the ring between two threads.
const COUNT: SinkId = 200;

/// Offers and sends the sinks from this one on, until all are sent or the turns are over. Returns
/// the sink after those that were offered.
fn send_from(send: &mut SendEnd<ChE, 4, 8>, first: SinkId, turns: usize) -> SinkId
    ensures { SameSend send.old send.new }
{
    let mut next = first;
    for _ in 0..turns {
        if send.ready() {
            if next == COUNT || send.offer(ack(next), 0).is_err() {
                return next;
            }
            next = next.wrapping_add(1);
        }
        send.pump();
    }
    next
}

/// Fetches and takes beats, until all are taken or the turns are over, and records their sinks.
fn take_all(take: &mut TakeEnd<ChE, 4, 8>, sinks: &mut ArrayVec<SinkId, 200>, turns: usize)
    ensures { SameTake take.old take.new }
{
    for _ in 0..turns {
        take.fetch();
        if let Some(beat) = take.take() {
            if sinks.try_push(beat.head.sink).is_err() || sinks.is_full() {
                return;
            }
        }
    }
}

/// Sends staged beats, until none are left or the turns are over.
fn pump_all(closing: &mut ClosingEnd<ChE, 4, 8>, turns: usize)
    ensures { SameSend closing.old closing.new }
{
    for _ in 0..turns {
        if closing.staged() == 0 {
            return;
        }
        closing.pump();
    }
}

/// Offers and sends the sinks from 0 on, then closes the end and sends the staged beats. Returns
/// the receipt, if all of that was done before the turns were over.
fn send_and_finish(mut send: SendEnd<ChE, 4, 8>, turns: usize) -> Option<Receipt<ChE, 4, 8>>
    ensures { IfSome result (λ receipt. IsReceiptFor send receipt) }
{
    send_from(&mut send, 0, turns);
    let Ok(mut closing) = send.close() else {
        return None;
    };
    pump_all(&mut closing, turns);
    if closing.staged() == 0 {
        closing.finish()
    } else {
        None
    }
}

/// Returns whether these are the sinks from 0 on, each once and in order.
fn in_order(sinks: &ArrayVec<SinkId, 200>) -> bool {
    let mut next = 0;
    for &sink in sinks.as_slice() {
        if sink != next {
            return false;
        }
        next = next.wrapping_add(1);
    }
    next == COUNT
}

/// Sends the sinks that two threads did not, from this one on, with a meeting after each step,
/// until all are taken. Returns whether they arrived in order, and nothing is left.
fn bring_the_rest(
    send: &mut SendEnd<ChE, 4, 8>,
    take: &mut TakeEnd<ChE, 4, 8>,
    sinks: &mut ArrayVec<SinkId, 200>,
    offered: SinkId,
) -> bool
    requires { ArePair send.old take.old }
{
    let mut next = offered;
    for _ in 0..1_000 {
        next = send_from(send, next, 1);
        meet(send, take);
        take_all(take, sinks, 1);
        let standing = meet(send, take);
        if sinks.is_full() {
            return in_order(sinks) & (standing == at(0, 0, 0));
        }
    }
    false
}

/// Sends in one thread and takes in another, and records the beats taken. Returns the sink after
/// those that were offered.
fn send_and_take<R: Threads>(
    rt: &R,
    send: &mut SendEnd<ChE, 4, 8>,
    take: &mut TakeEnd<ChE, 4, 8>,
    sinks: &mut ArrayVec<SinkId, 200>,
) -> SinkId
    ensures send { SameSend send.old send.new }
    ensures take { SameTake take.old take.new }
{
    let (offered, _) = join_mut(
        rt,
        &mut || -> SinkId
            ensures { SameSend send.entry.now send.exit.now }
        { send_from(send, 0, 1_000_000) },
        &mut || -> ()
            ensures { SameTake take.entry.now take.exit.now }
        { take_all(take, sinks, 1_000_000) },
    );
    offered
}

/// Returns whether all sinks that two threads and then one thread send arrive in order, and nothing
/// is left.
fn lose_nothing<R: Threads>(
    rt: &R,
    send: &mut SendEnd<ChE, 4, 8>,
    take: &mut TakeEnd<ChE, 4, 8>,
) -> bool
    requires { ArePair send.old take.old }
{
    let mut sinks = ArrayVec::<SinkId, 200>::new();
    let offered = send_and_take(rt, send, take, &mut sinks);
    meet(send, take);
    bring_the_rest(send, take, &mut sinks, offered)
}

#[test]
fn two_threads_lose_nothing(rt: HostRuntime) {
    let ends = ring_pair::<ChE, 4, 8, Global>(rt.alloc(), 4);
    let (mut send, mut take) = ends.expect(&rt, "they are made");
    let is_so = lose_nothing(&rt, &mut send, &mut take);
    let_both_go(send, take);
    assert!(rt; is_so);
}

/// Takes the remaining beats. Returns whether all arrived in order, once the receipt shows that
/// nothing is left.
fn take_the_rest(
    take: &mut TakeEnd<ChE, 4, 8>,
    receipt: &mut Receipt<ChE, 4, 8>,
    sinks: &mut ArrayVec<SinkId, 200>,
) -> bool
    requires { IsReceiptOf receipt.old take.old }
{
    for _ in 0..1_000 {
        if take.drained(receipt) {
            return in_order(sinks);
        }
        take_all(take, sinks, 1);
    }
    false
}

#[test]
fn a_receipt_goes_from_thread_to_thread(rt: HostRuntime) {
    let ends = ring_pair::<ChE, 4, 8, Global>(rt.alloc(), 4);
    let (send, take) = ends.expect(&rt, "they are made");
    let (receipt, (take, sinks)) = join(
        &rt,
        move || -> Option<Receipt<ChE, 4, 8>>
            ensures { IfSome result (λ receipt. IsReceiptFor send receipt) }
        { send_and_finish(send, 500_000_000) },
        move || -> (TakeEnd<ChE, 4, 8>, ArrayVec<SinkId, 200>)
            ensures { SameTake take result.0 }
        {
            let (mut take, mut sinks) = (take, ArrayVec::new());
            take_all(&mut take, &mut sinks, 500_000_000);
            (take, sinks)
        },
    );
    let mut receipt = receipt.expect(&rt, "the end was closed and given up");
    let (mut take, mut sinks) = (take, sinks);
    let is_so = take_the_rest(&mut take, &mut receipt, &mut sinks);
    drop(take);
    assert!(rt; is_so);
}
