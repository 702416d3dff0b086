//! The headline on real beats, with two sides over rings of one beat: a far beat that is taken, and
//! the far beats under way that a meeting counts, are the far layout of the beat that was accepted.
#![tactic(auto, using(tl_lanes::proofs::Widths::width_4, tl_lanes::proofs::Widths::width_8))]

ghost use Rattle.std.specs.Prelude.{◌≡◌, ◌+◌, ◌∷◌, [], List, length, IfSome};
ghost use Rattle.tl_msg.specs.Tables.{rules_a};
ghost use Rattle.tl_msg.specs.declared.head.HeadA.{HeadA};
ghost use Rattle.tl_msg.specs.declared.beat.BeatOf.{BeatOf};
ghost use Rattle.tl_burst.specs.Handing.{homes_with};
ghost use Rattle.tl_convert.specs.Due.{due};
ghost use Rattle.tl_sides.specs.Sides.{AreSides, SameClient, SameManager};
ghost use Rattle.tl_sides.specs.Sides.{ClientPast, ManagerPast, ClientStandsFor, ManagerStandsFor, new_client, new_manager, manager_takes_a};

use crate::lending::let_both_go;
use crate::values::{at, put};
use std::alloc::Global;
use tl_msg::{Beat, ChA};
use tl_sides::{ClientSide, ManagerSide, Standings, bridge, meet_sides};

/// Offers a request to a new side, and sends far beats of it. Returns the number of far beats that
/// entered the rings, or `None` if the request was refused.
fn sends_first(client: &mut ClientSide<8, 4>, request: Beat<ChA, 8>) -> Option<usize>
    ensures same { SameClient client.old client.new }
    ensures sent { ClientStandsFor client.old (new_client 1) →
        IfSome result (λ count. (x : ClientPast 8 4) × ClientStandsFor client.new x ×
        (x.a.accepted ≡ request ∷ []) × (x.a.homes ≡ homes_with rules_a {w = 8} [] [] request 0)) }
{
    if !client.ready_a() {
        return None;
    }
    match client.offer_a(request) {
        Ok(()) => Some(client.pump()),
        Err(_) => None,
    }
}

/// Fetches beats, and takes the first beat of a request.
fn takes_first(manager: &mut ManagerSide<8, 4>) -> Option<Beat<ChA, 4>>
    ensures same { SameManager manager.old manager.new }
    // for every past that the side represents
    ensures taken { (y : ManagerPast 8 4) → ManagerStandsFor manager.old y →
        IfSome result (λ first. ManagerStandsFor manager.new (manager_takes_a (first ∷ []) y)) }
{
    manager.fetch();
    manager.take_a()
}

/// A beat of A is offered and sent, and its first far beat is taken; then both sides meet. That far
/// beat, and the beats under way, are the far layout of the one that was offered.
fn cross_first(
    client: &mut ClientSide<8, 4>,
    manager: &mut ManagerSide<8, 4>,
    request: Beat<ChA, 8>,
) -> Option<(Beat<ChA, 4>, Standings)>
    requires sides { AreSides client.old manager.old }
    requires client { ClientStandsFor client.old (new_client 1) }
    requires manager { ManagerStandsFor manager.old (new_manager 1) }
    ensures headline { IfSome result (λ answer. (under_way : List (BeatOf HeadA 4)) ×
        (answer.0 ∷ under_way ≡
        due rules_a 8 4 (request ∷ []) (homes_with rules_a {w = 8} [] [] request 0)) ×
        (length under_way ≡ answer.1.a.staged + answer.1.a.in_ring + answer.1.a.inbox)) }
{
    let sent = sends_first(client, request);
    let first = takes_first(manager);
    let standings = meet_sides(client, manager);
    match sent {
        Some(_) => match first {
            Some(first) => Some((first, standings)),
            None => None,
        },
        None => None,
    }
}

/// Returns whether this is the first half of the beat, and the other half is staged.
fn is_first(shown: Option<(Beat<ChA, 4>, Standings)>) -> bool {
    match shown {
        Some((first, standings)) => {
            (first.lanes == [0xa0, 0xa1, 0xa2, 0xa3]) & (standings.a == at(1, 0, 0))
        }
        None => false,
    }
}

/// Returns whether half of a beat is taken, and the other half is under way.
fn crosses_first(alloc: Global) -> bool {
    match bridge::<8, 4, _>(alloc, 1) {
        Ok((mut client, mut manager)) => {
            let lanes = [0xa0, 0xa1, 0xa2, 0xa3, 0xa4, 0xa5, 0xa6, 0xa7];
            let request = put(4, 0x1000, 0xff, lanes);
            let shown = cross_first(&mut client, &mut manager, request);
            let_both_go(client, manager);
            is_first(shown)
        }
        Err(_) => false,
    }
}

#[test]
fn a_meeting_of_sides_shows_what_is_under_way(rt: HostRuntime) {
    assert!(rt; crosses_first(rt.alloc()));
}
