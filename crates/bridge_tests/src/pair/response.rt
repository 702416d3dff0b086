//! The headline on channel D, whose lanes depend on another channel: a response of 4 bytes goes
//! from a bus of 16 bytes to one of 4. The beats taken and those under way, which a meeting counts,
//! are the far layout of the accepted beat, whose home is the address of its request. The receipt
//! of the manager's side shows the same once nothing is under way.
#![tactic(auto, using(tl_lanes::proofs::Widths::width_4, tl_lanes::proofs::Widths::width_16))]

ghost use Rattle.std.specs.Prelude.{◌≡◌, ◌+◌, ◌∷◌, [], List, false, length, IfSome, IsTrue};
ghost use Rattle.tl_msg.specs.Tables.{rules_d};
ghost use Rattle.tl_msg.specs.declared.head.HeadA.{HeadA};
ghost use Rattle.tl_msg.specs.declared.head.HeadD.{HeadD};
ghost use Rattle.tl_msg.specs.declared.beat.BeatOf.{BeatOf};
ghost use Rattle.tl_burst.specs.Messages.{Message};
ghost use Rattle.tl_burst.specs.Handing.{Handed};
ghost use Rattle.tl_convert.specs.Due.{due, layouts};
ghost use Rattle.tl_settle.specs.Histories.{answered};
ghost use Rattle.tl_settle.specs.Requests.{is_release_ack};
ghost use Rattle.tl_sides.specs.Receipts.{AreManagersReceipts, ShowsManager};
ghost use Rattle.tl_sides.specs.Sides.{AreSides, ClientState, SameClient, SameManager};
ghost use Rattle.std.specs.Global.{Global};
ghost use Rattle.tl_sides.specs.Sides.{ClientPast, ManagerPast, ClientStandsFor, ManagerStandsFor, new_client, new_manager, client_takes_d, manager_takes_a};

use crate::lending::let_both_go;
use crate::pair::receipt_tests::finished_manager;
use crate::values::{at, get};
use std::alloc::Global;
use tl_msg::{Beat, BeatOf, ChA, ChD, HeadD};
use tl_sides::{ClientSide, ManagerReceipt, ManagerSide, Standings, bridge, meet_sides};

/// Offers a request to a new side, and sends it. Returns whether it was accepted.
fn asks(client: &mut ClientSide<4, 16>, request: Beat<ChA, 4>) -> bool
    ensures same { SameClient client.old client.new }
    ensures asked { ClientStandsFor client.old (new_client 1) → IsTrue result →
        (x : ClientPast 4 16) × ClientStandsFor client.new x × (answered x.history ≡ []) }
{
    if !client.ready_a() {
        return false;
    }
    match client.offer_a(request) {
        Ok(()) => {
            client.pump();
            true
        }
        Err(_) => false,
    }
}

/// Fetches beats, and takes the first beat of a request.
fn takes_request(manager: &mut ManagerSide<4, 16>) -> Option<Beat<ChA, 16>>
    ensures same { SameManager manager.old manager.new }
    ensures taken { ManagerStandsFor manager.old (new_manager 1) → IfSome result
        (λ request. ManagerStandsFor manager.new (manager_takes_a (request ∷ []) (new_manager 1))) }
{
    manager.fetch();
    manager.take_a()
}

/// Offers a response and sends it. Returns whether it was accepted.
fn sends(manager: &mut ManagerSide<4, 16>, response: Beat<ChD, 16>) -> bool
    requires response { is_release_ack response.head ≡ false }
    ensures same { SameManager manager.old manager.new }
    // its home is the address of the request that was taken before
    ensures sent { (request : BeatOf HeadA 16) →
        ManagerStandsFor manager.old (manager_takes_a (request ∷ []) (new_manager 1)) →
        IsTrue result → (y : ManagerPast 4 16) × ManagerStandsFor manager.new y ×
        (y.d.accepted ≡ response ∷ []) × (y.d.homes ≡ request.head.address ∷ []) }
{
    if !manager.ready_d() {
        return false;
    }
    match manager.offer_d(response) {
        Ok(()) => {
            manager.pump();
            true
        }
        Err(_) => false,
    }
}

/// Takes a request and sends a response to it. Returns the far beat of the request, if both
/// crossed.
fn responds(manager: &mut ManagerSide<4, 16>, response: Beat<ChD, 16>) -> Option<Beat<ChA, 16>>
    requires response { is_release_ack response.head ≡ false }
    ensures same { SameManager manager.old manager.new }
    ensures sent { ManagerStandsFor manager.old (new_manager 1) → IfSome result
        (λ request. (y : ManagerPast 4 16) × ManagerStandsFor manager.new y ×
        (y.d.accepted ≡ response ∷ []) × (y.d.homes ≡ request.head.address ∷ [])) }
{
    let request = takes_request(manager)?;
    if sends(manager, response) {
        Some(request)
    } else {
        None
    }
}

/// Fetches beats, and takes the first beat of a response.
fn takes_response(client: &mut ClientSide<4, 16>) -> Option<Beat<ChD, 4>>
    ensures same { SameClient client.old client.new }
    // for every past that the side represents
    ensures taken { (x : ClientPast 4 16) → ClientStandsFor client.old x →
        IfSome result (λ first. ClientStandsFor client.new (client_takes_d (first ∷ []) x)) }
{
    client.fetch();
    client.take_d()
}

/// A request crosses to the manager's side, and the first beat of a response to it back; then both
/// sides meet. That beat, and those under way on D, are the far layout of the response, whose home
/// is the address of the request.
fn cross_back(
    client: &mut ClientSide<4, 16>,
    manager: &mut ManagerSide<4, 16>,
    request: Beat<ChA, 4>,
    response: Beat<ChD, 16>,
) -> Option<(Beat<ChA, 16>, Beat<ChD, 4>, Standings)>
    requires sides { AreSides client.old manager.old }
    requires client { ClientStandsFor client.old (new_client 1) }
    requires manager { ManagerStandsFor manager.old (new_manager 1) }
    requires response { is_release_ack response.head ≡ false }
    ensures headline { IfSome result (λ answer. (under_way : List (BeatOf HeadD 4)) ×
        (answer.1 ∷ under_way ≡
        due rules_d 16 4 (response ∷ []) (answer.0.head.address ∷ [])) ×
        (length under_way ≡ answer.2.d.staged + answer.2.d.in_ring + answer.2.d.inbox)) }
{
    let has_asked = asks(client, request);
    let request = responds(manager, response);
    let first = takes_response(client);
    let standings = meet_sides(client, manager);
    if !has_asked {
        return None;
    }
    match request {
        Some(request) => match first {
            Some(first) => Some((request, first, standings)),
            None => None,
        },
        None => None,
    }
}

/// Closes both channels of a side. Returns whether they are closed.
fn closes(manager: &mut ManagerSide<4, 16>) -> bool
    ensures same { SameManager manager.old manager.new }
    // for every past that the side represents
    ensures closed { (y : ManagerPast 4 16) → ManagerStandsFor manager.old y → IsTrue result →
        (z : ManagerPast 4 16) × ManagerStandsFor manager.new z ×
        (z.d.accepted ≡ y.d.accepted) × (z.d.homes ≡ y.d.homes) }
{
    match manager.close_b() {
        Ok(()) => match manager.close_d() {
            Ok(()) => true,
            Err(_) => false,
        },
        Err(_) => false,
    }
}

/// Takes a request, sends a response to it, and finishes. Returns the far beat of the request and
/// the receipts of the side, if both crossed and nothing is staged.
fn ends(
    mut manager: ManagerSide<4, 16>,
    response: Beat<ChD, 16>,
) -> Option<(Beat<ChA, 16>, ManagerReceipt<4, 16>)>
    requires response { is_release_ack response.head ≡ false }
    requires manager { ManagerStandsFor manager (new_manager 1) }
    ensures taker { (s : ClientState Global 4 16) → AreSides s manager →
        IfSome result (λ ended. AreManagersReceipts ended.1 s) }
    ensures shows { IfSome result (λ ended. (y : ManagerPast 4 16) × ShowsManager ended.1 y ×
        (y.d.accepted ≡ response ∷ []) × (y.d.homes ≡ ended.0.head.address ∷ [])) }
{
    let request = responds(&mut manager, response);
    let are_closed = closes(&mut manager);
    let receipt = finished_manager(manager);
    if !are_closed {
        return None;
    }
    match request {
        Some(request) => match receipt {
            Some(receipt) => Some((request, receipt)),
            None => None,
        },
        None => None,
    }
}

/// Takes a far beat of D. Returns it, if the receipts then show that nothing is left.
fn takes_last(
    client: &mut ClientSide<4, 16>,
    receipt: &mut ManagerReceipt<4, 16>,
) -> Option<Beat<ChD, 4>>
    requires { AreManagersReceipts receipt.old client.old }
    // for every past that the receipts show, if no response was taken before
    ensures { (y : ManagerPast 4 16) (x : ClientPast 4 16) → ShowsManager receipt.old y →
        ClientStandsFor client.old x → answered x.history ≡ [] → IfSome result
        (λ last. (messages : List (Message HeadD)) ×
        Handed rules_d 16 y.d.accepted y.d.homes messages [] ×
        (last ∷ [] ≡ layouts rules_d 4 messages)) }
{
    let last = takes_response(client)?;
    if client.drained(receipt) {
        Some(last)
    } else {
        None
    }
}

/// A request crosses to the manager's side, which sends a response and finishes; then a far beat is
/// taken. If the receipts show that nothing is left, it is the far layout of whole messages, whose
/// home is the address of the request.
fn cross_back_whole(
    client: &mut ClientSide<4, 16>,
    manager: ManagerSide<4, 16>,
    request: Beat<ChA, 4>,
    response: Beat<ChD, 16>,
) -> Option<(Beat<ChA, 16>, Beat<ChD, 4>)>
    requires sides { AreSides client.old manager }
    requires client { ClientStandsFor client.old (new_client 1) }
    requires manager { ManagerStandsFor manager (new_manager 1) }
    requires response { is_release_ack response.head ≡ false }
    ensures headline { IfSome result (λ answer. (messages : List (Message HeadD)) ×
        Handed rules_d 16 (response ∷ []) (answer.0.head.address ∷ []) messages [] ×
        (answer.1 ∷ [] ≡ layouts rules_d 4 messages)) }
{
    let has_asked = asks(client, request);
    if !has_asked {
        drop(manager);
        return None;
    }
    let ended = ends(manager, response)?;
    let (request, mut receipt) = ended;
    let last = takes_last(client, &mut receipt)?;
    Some((request, last))
}

/// The lanes of the response at its own bus, of which its address selects lanes 4 to 7, and at the
/// other one.
const NEAR: [u8; 16] = [0, 0, 0, 0, 0xa0, 0xa1, 0xa2, 0xa3, 0, 0, 0, 0, 0, 0, 0, 0];

const FAR: [u8; 4] = [0xa0, 0xa1, 0xa2, 0xa3];

/// Returns an AccessAckData of 4 bytes.
fn answer() -> Beat<ChD, 16>
    ensures { is_release_ack result.head ≡ false }
{
    let head = HeadD {
        opcode: 1,
        param: 0,
        size: 2,
        source: 1,
        sink: 0,
        denied: false,
    };
    BeatOf {
        head,
        mask: 0,
        lanes: NEAR,
        corrupt: false,
    }
}

/// Returns whether the whole response is taken at a meeting.
fn crosses_back(alloc: Global) -> bool {
    match bridge::<4, 16, _>(alloc, 1) {
        Ok((mut client, mut manager)) => {
            let request = get(1, 0x1004, 0xf);
            let shown = cross_back(&mut client, &mut manager, request, answer());
            let_both_go(client, manager);
            match shown {
                Some((_, first, standings)) => (first.lanes == FAR) & (standings.d == at(0, 0, 0)),
                None => false,
            }
        }
        Err(_) => false,
    }
}

#[test]
fn a_meeting_of_sides_shows_the_home_of_a_response(rt: HostRuntime) {
    assert!(rt; crosses_back(rt.alloc()));
}

/// Returns whether the whole response is taken, and the receipt shows it.
fn crosses_back_whole(alloc: Global) -> bool {
    match bridge::<4, 16, _>(alloc, 1) {
        Ok((mut client, manager)) => {
            let request = get(1, 0x1004, 0xf);
            let shown = cross_back_whole(&mut client, manager, request, answer());
            drop(client);
            match shown {
                Some((_, last)) => last.lanes == FAR,
                None => false,
            }
        }
        Err(_) => false,
    }
}

#[test]
fn a_receipt_of_a_side_shows_the_home_of_a_response(rt: HostRuntime) {
    assert!(rt; crosses_back_whole(rt.alloc()));
}
