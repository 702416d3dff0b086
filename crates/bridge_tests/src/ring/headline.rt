//! The beats taken and those under way are the far layout of the accepted beats, tested on real
//! beats: of a crossing between two threads at a meeting, and of a closed one with its receipt.
#![tactic(auto, using(tl_lanes::proofs::Widths::width_4, tl_lanes::proofs::Widths::width_8))]

ghost use Rattle.std.specs.Prelude.{◌≡◌, ◌+◌, ◌++◌, ◌∷◌, [], List, ℕ, length, IfSome};
ghost use Rattle.tl_msg.specs.Tables.{rules_a};
ghost use Rattle.tl_msg.specs.declared.head.HeadA.{HeadA};
ghost use Rattle.tl_msg.specs.declared.beat.BeatOf.{BeatOf};
ghost use Rattle.tl_burst.specs.Messages.{Message};
ghost use Rattle.tl_burst.specs.Handing.{Handed, homes_with};
ghost use Rattle.tl_convert.specs.Due.{due, layouts};
ghost use Rattle.tl_ring.specs.Crossing.{World, empty, offered, shut};
ghost use Rattle.tl_ring.specs.Ends.{ArePair, IsReceiptFor, IsReceiptOf, SameSend, SameTake, Sends, Shows, Takes, passed};

use crate::lending::let_both_go;
use crate::values::{at, put};
use std::alloc::Global;
use std::thread::{Threads, join_mut};
use tl_msg::{Beat, ChA};
use tl_ring::{Receipt, SendEnd, Standing, TakeEnd, meet, ring_pair};

/// The number of turns after which the receiver gives up.
const TURNS: usize = 500_000_000;

/// Offers a beat if nothing is staged, and sends the far beats that it makes due. Returns the
/// number of far beats that entered the ring, or `None` if the beat was refused.
fn send_one(send: &mut SendEnd<ChA, 8, 4>, beat: Beat<ChA, 8>) -> Option<usize>
    ensures same { SameSend send.old send.new }
    // for every crossing that the end represents
    ensures sent { (x : World HeadA 8 4) → Sends rules_a send.old x →
        IfSome result (λ count. Sends rules_a send.new (passed count (offered rules_a beat 0 x))) }
{
    if !send.ready() {
        return None;
    }
    match send.offer(beat, 0) {
        Ok(()) => Some(send.pump()),
        Err(_) => None,
    }
}

/// Fetches beats, and returns the first far beat, if one arrives before the turns are over.
fn take_one(take: &mut TakeEnd<ChA, 8, 4>) -> Option<Beat<ChA, 4>>
    ensures same { SameTake take.old take.new }
    // for all beats taken before
    ensures taken { (taken : List (BeatOf HeadA 4)) → Takes take.old taken →
        IfSome result (λ beat. Takes take.new (taken ++ beat ∷ [])) }
{
    for _ in 0..TURNS {
        take.fetch();
        if let Some(beat) = take.take() {
            return Some(beat);
        }
    }
    None
}

/// Offers a beat and sends it in one thread, and takes in another one.
fn send_and_take<R: Threads>(
    rt: &R,
    send: &mut SendEnd<ChA, 8, 4>,
    take: &mut TakeEnd<ChA, 8, 4>,
    beat: Beat<ChA, 8>,
) -> (Option<usize>, Option<Beat<ChA, 4>>)
    ensures same { SameSend send.old send.new × SameTake take.old take.new }
    ensures sent { (x : World HeadA 8 4) → Sends rules_a send.old x → IfSome result.0
        (λ count. Sends rules_a send.new (passed count (offered rules_a beat 0 x))) }
    ensures taken { (taken : List (BeatOf HeadA 4)) → Takes take.old taken →
        IfSome result.1 (λ beat. Takes take.new (taken ++ beat ∷ [])) }
{
    join_mut(
        rt,
        &mut || -> Option<usize>
            ensures same { SameSend send.entry.now send.exit.now }
            ensures sent { (x : World HeadA 8 4) → Sends rules_a send.entry.now x → IfSome result
                (λ count. Sends rules_a send.exit.now (passed count (offered rules_a beat 0 x))) }
        { send_one(send, beat) },
        &mut || -> Option<Beat<ChA, 4>>
            ensures same { SameTake take.entry.now take.exit.now }
            ensures taken { (taken : List (BeatOf HeadA 4)) → Takes take.entry.now taken →
                IfSome result (λ beat. Takes take.exit.now (taken ++ beat ∷ [])) }
        { take_one(take) },
    )
}

/// One thread offers a beat, and another takes the first far beat of it; then both ends meet. That
/// far beat, and the beats under way, are the far layout of the one that was offered.
fn cross_in_two_threads<R: Threads>(
    rt: &R,
    send: &mut SendEnd<ChA, 8, 4>,
    take: &mut TakeEnd<ChA, 8, 4>,
    beat: Beat<ChA, 8>,
) -> Option<(Beat<ChA, 4>, Standing)>
    requires new { ArePair send.old take.old × Sends rules_a send.old (empty {w = 8} 4) ×
        Takes take.old [] }
    ensures headline { IfSome result (λ answer. (under_way : List (BeatOf HeadA 4)) ×
        (answer.0 ∷ under_way ≡
        due rules_a 8 4 (beat ∷ []) (homes_with rules_a {w = 8} [] [] beat 0)) ×
        (length under_way ≡ answer.1.staged + answer.1.in_ring + answer.1.inbox)) }
{
    let (sent, first) = send_and_take(rt, send, take, beat);
    let standing = meet(send, take);
    match sent {
        Some(_) => match first {
            Some(first) => Some((first, standing)),
            None => None,
        },
        None => None,
    }
}

/// Offers a beat and sends it, closes the end, and gives it up. Returns the receipt, if nothing is
/// left in the stage.
fn send_whole(mut send: SendEnd<ChA, 8, 4>, beat: Beat<ChA, 8>) -> Option<Receipt<ChA, 8, 4>>
    requires { Sends rules_a send (empty {w = 8} 4) }
    ensures taker { IfSome result (λ receipt. IsReceiptFor send receipt) }
    ensures shows { IfSome result (λ receipt. (count : ℕ) ×
        Shows rules_a receipt (shut (passed count (offered rules_a beat 0 (empty {w = 8} 4))))) }
{
    send_one(&mut send, beat)?;
    let Ok(closing) = send.close() else {
        return None;
    };
    if closing.staged() == 0 {
        closing.finish()
    } else {
        None
    }
}

/// Takes two far beats. Returns them, if the receipt then shows that nothing is left.
fn take_whole(
    take: &mut TakeEnd<ChA, 8, 4>,
    receipt: &mut Receipt<ChA, 8, 4>,
) -> Option<(Beat<ChA, 4>, Beat<ChA, 4>)>
    requires { IsReceiptOf receipt.old take.old }
    // for every crossing that the receipt shows, if nothing of it was taken before
    ensures { (x : World HeadA 8 4) → Shows rules_a receipt.old x → Takes take.old [] →
        IfSome result (λ far. (messages : List (Message HeadA)) ×
        Handed rules_a 8 x.accepted x.homes messages [] × (far.0 ∷ far.1 ∷ [] ≡ layouts rules_a 4 messages)) }
{
    let first = take_one(take)?;
    let second = take_one(take)?;
    if take.drained(receipt) {
        Some((first, second))
    } else {
        None
    }
}

/// A beat is offered and sent, and its end is closed and given up; then two far beats are taken,
/// and the receipt is asked. If it shows that nothing is left, they are the far layout of whole
/// messages.
fn cross_whole(
    send: SendEnd<ChA, 8, 4>,
    take: &mut TakeEnd<ChA, 8, 4>,
    beat: Beat<ChA, 8>,
) -> Option<(Beat<ChA, 4>, Beat<ChA, 4>)>
    requires new { ArePair send take.old × Sends rules_a send (empty {w = 8} 4) × Takes take.old [] }
    ensures headline { IfSome result (λ far. (messages : List (Message HeadA)) ×
        Handed rules_a 8 (beat ∷ []) (homes_with rules_a {w = 8} [] [] beat 0) messages [] ×
        (far.0 ∷ far.1 ∷ [] ≡ layouts rules_a 4 messages)) }
{
    let mut receipt = send_whole(send, beat)?;
    take_whole(take, &mut receipt)
}

/// Returns whether this is the first half of the beat, and the other one is under way.
fn is_half(shown: Option<(Beat<ChA, 4>, Standing)>) -> bool {
    match shown {
        Some((first, standing)) => {
            let one_left = (standing == at(1, 0, 0))
                | (standing == at(0, 1, 0))
                | (standing == at(0, 0, 1));
            (first.lanes == [0, 1, 2, 3]) & one_left
        }
        None => false,
    }
}

#[test]
fn a_meeting_shows_what_is_under_way(rt: HostRuntime) {
    let ends = ring_pair::<ChA, 8, 4, Global>(rt.alloc(), 4);
    let (mut send, mut take) = ends.expect(&rt, "they are made");
    let beat = put(3, 16, 0xff, [0, 1, 2, 3, 4, 5, 6, 7]);
    let shown = cross_in_two_threads(&rt, &mut send, &mut take, beat);
    let_both_go(send, take);
    assert!(rt; is_half(shown));
}

/// Returns whether these are both halves of the beat.
fn is_whole(shown: Option<(Beat<ChA, 4>, Beat<ChA, 4>)>) -> bool {
    match shown {
        Some((first, second)) => (first.lanes == [0, 1, 2, 3]) & (second.lanes == [4, 5, 6, 7]),
        None => false,
    }
}

#[test]
fn a_receipt_shows_a_whole_layout(rt: HostRuntime) {
    let ends = ring_pair::<ChA, 8, 4, Global>(rt.alloc(), 4);
    let (send, mut take) = ends.expect(&rt, "they are made");
    let beat = put(3, 16, 0xff, [0, 1, 2, 3, 4, 5, 6, 7]);
    let shown = cross_whole(send, &mut take, beat);
    drop(take);
    assert!(rt; is_whole(shown));
}
