//! Receipts of both sides, on beats, in one thread.
#![tactic(auto, using(tl_lanes::proofs::Widths::width_4, tl_lanes::proofs::Widths::width_16))]

ghost use Rattle.std.specs.Prelude.{IfSome};
ghost use Rattle.std.specs.Global.{Global};
ghost use Rattle.tl_sides.specs.Receipts.{AreClientsReceipts, AreManagersReceipts, ClientLeaves, LeftShowsManager, ManagerLeaves, ShowsManager};
ghost use Rattle.tl_sides.specs.Sides.{AreSides, ClientState, ManagerPast, ManagerStandsFor, ManagerState, SameClient, SameManager};

use crate::lending::let_both_go;
use crate::values::{ack, blank};
use std::alloc::Global;
use tl_msg::{HeadB, SinkId, SourceId};
use tl_sides::{
    ClientReceipt, ClientSide, FinishedClient, FinishedManager, ManagerReceipt, ManagerSide, bridge,
};

/// Returns whether a GrantAck is offered.
fn offers(client: &mut ClientSide<4, 16>, sink: SinkId) -> bool
    ensures { SameClient client.old client.new }
{
    client.ready_e() && client.offer_e(ack(sink)).is_ok()
}

/// Returns whether two GrantAcks are offered, and one of them is sent.
fn sends_one(client: &mut ClientSide<4, 16>) -> bool
    ensures { SameClient client.old client.new }
{
    let first = offers(client, 1);
    let is_sent = client.pump() == 1;
    first & is_sent & offers(client, 2)
}

/// Returns whether A is closed.
fn closes_a(client: &mut ClientSide<4, 16>) -> bool
    ensures { SameClient client.old client.new }
{
    client.close_a().is_ok()
}

/// Returns whether C is closed.
fn closes_c(client: &mut ClientSide<4, 16>) -> bool
    ensures { SameClient client.old client.new }
{
    client.close_c().is_ok()
}

/// Returns whether E is closed.
fn closes_e(client: &mut ClientSide<4, 16>) -> bool
    ensures { SameClient client.old client.new }
{
    client.close_e().is_ok()
}

/// Returns whether A, C and E are closed.
fn closes(client: &mut ClientSide<4, 16>) -> bool
    ensures { SameClient client.old client.new }
{
    let are_two = closes_a(client) & closes_c(client);
    are_two & closes_e(client)
}

/// Returns whether the side may not finish while a GrantAck is staged.
fn may_not_finish(client: &mut ClientSide<4, 16>) -> bool
    ensures { SameClient client.old client.new }
{
    let is_sent = sends_one(client);
    let are_closed = closes(client);
    is_sent & are_closed & !client.is_sent_out()
}

/// Returns whether the second GrantAck is sent once the first one was fetched.
fn sends_the_other(client: &mut ClientSide<4, 16>, manager: &mut ManagerSide<4, 16>) -> bool
    ensures client { SameClient client.old client.new }
    ensures manager { SameManager manager.old manager.new }
{
    (manager.fetch() == 1) & (client.pump() == 1) & client.is_sent_out() & (client.totals().e == 2)
}

/// Returns the receipts of a client's side that has finished, if there is one for each channel.
fn client_receipt(left: FinishedClient<4, 16>) -> Option<ClientReceipt<4, 16>>
    ensures { (t : ManagerState Global 4 16) → ClientLeaves left t →
        IfSome result (λ receipt. AreClientsReceipts receipt t) }
{
    let FinishedClient { a, b, c, d, e } = left;
    let_both_go(b, d);
    match (a, c, e) {
        (Some(a), Some(c), Some(e)) => Some(ClientReceipt { a, c, e }),
        _ => None,
    }
}

/// Finishes a client's side that has sent everything.
fn finished_client(client: ClientSide<4, 16>) -> Option<ClientReceipt<4, 16>>
    ensures { (t : ManagerState Global 4 16) → AreSides client t →
        IfSome result (λ receipt. AreClientsReceipts receipt t) }
{
    if client.is_sent_out() {
        client_receipt(client.finish())
    } else {
        drop(client);
        None
    }
}

/// Returns whether the manager's side has taken all that the receipt counts.
fn has_all(manager: &mut ManagerSide<4, 16>, receipt: &mut ClientReceipt<4, 16>) -> bool
    requires { AreClientsReceipts receipt.old manager.old }
    ensures receipt { AreClientsReceipts receipt.new manager.new }
{
    manager.drained(receipt)
}

/// Returns whether a GrantAck was taken and this number of others were fetched.
fn takes_one(manager: &mut ManagerSide<4, 16>, fetched: usize) -> bool
    ensures { SameManager manager.old manager.new }
{
    let is_taken = manager.take_e().is_some();
    is_taken & (manager.fetch() == fetched)
}

/// Takes a GrantAck. Returns whether the manager's side has taken all that the receipt counts only
/// after that.
fn has_all_after_one(
    manager: &mut ManagerSide<4, 16>,
    receipt: &mut ClientReceipt<4, 16>,
    fetched: usize,
) -> bool
    requires { AreClientsReceipts receipt.old manager.old }
    ensures receipt { AreClientsReceipts receipt.new manager.new }
{
    let not_yet = !has_all(manager, receipt);
    let is_taken = takes_one(manager, fetched);
    not_yet & is_taken
}

/// Returns whether the manager's side has both GrantAcks only after it took the second one.
fn has_both(manager: &mut ManagerSide<4, 16>, receipt: &mut ClientReceipt<4, 16>) -> bool
    requires { AreClientsReceipts receipt.old manager.old }
{
    let first = has_all_after_one(manager, receipt, 1);
    let second = has_all_after_one(manager, receipt, 0);
    first & second & has_all(manager, receipt) & (manager.totals().e == 2) & (receipt.e.sent() == 2)
}

/// Returns whether both GrantAcks are sent, and the side may finish only then.
fn sends_both(client: &mut ClientSide<4, 16>, manager: &mut ManagerSide<4, 16>) -> bool
    requires { AreSides client.old manager.old }
    ensures { AreSides client.new manager.new }
{
    let one = may_not_finish(client);
    let other = sends_the_other(client, manager);
    one & other
}

/// Returns whether a client's side that has sent two GrantAcks finishes, and the manager's side
/// finds out that it took both.
fn finishes(client: ClientSide<4, 16>, manager: &mut ManagerSide<4, 16>) -> bool
    requires { AreSides client manager.old }
{
    match finished_client(client) {
        Some(mut receipt) => has_both(manager, &mut receipt),
        None => false,
    }
}

/// Returns whether the client's side sends two GrantAcks and finishes, over a ring of one beat.
fn client_finishes(alloc: Global) -> bool {
    match bridge::<4, 16, _>(alloc, 1) {
        Ok((mut client, mut manager)) => {
            let are_sent = sends_both(&mut client, &mut manager);
            let has_both = finishes(client, &mut manager);
            drop(manager);
            are_sent & has_both
        }
        Err(_) => false,
    }
}

/// Returns whether a ProbeBlock is offered.
fn probes(manager: &mut ManagerSide<4, 16>, source: SourceId) -> bool
    ensures { SameManager manager.old manager.new }
{
    let head = HeadB {
        opcode: 6,
        param: 0,
        size: 2,
        source,
        address: 0,
    };
    manager.ready_b() && manager.offer_b(blank(head, 0xf)).is_ok()
}

/// Returns whether B is closed.
fn closes_b(manager: &mut ManagerSide<4, 16>) -> bool
    ensures { SameManager manager.old manager.new }
{
    manager.close_b().is_ok()
}

/// Returns whether D is closed.
fn closes_d(manager: &mut ManagerSide<4, 16>) -> bool
    ensures { SameManager manager.old manager.new }
{
    manager.close_d().is_ok()
}

/// Returns whether a ProbeBlock is offered, the side may not finish while it is staged, and it is
/// then sent.
fn sends_a_probe(manager: &mut ManagerSide<4, 16>) -> bool
    ensures { SameManager manager.old manager.new }
{
    let is_offered = probes(manager, 1);
    let are_closed = closes_b(manager) & closes_d(manager);
    let is_staged = !manager.is_sent_out();
    is_offered & are_closed & is_staged & (manager.pump() == 1)
}

/// Returns the receipts of a manager's side that has finished, if there is one for each channel.
fn manager_receipt(left: FinishedManager<4, 16>) -> Option<ManagerReceipt<4, 16>>
    ensures taker { (s : ClientState Global 4 16) → ManagerLeaves left s →
        IfSome result (λ receipt. AreManagersReceipts receipt s) }
    ensures shows { (y : ManagerPast 4 16) → LeftShowsManager left y →
        IfSome result (λ receipt. ShowsManager receipt y) }
{
    let FinishedManager { a, b, c, d, e } = left;
    let_both_go(a, c);
    drop(e);
    match (b, d) {
        (Some(b), Some(d)) => Some(ManagerReceipt { b, d }),
        _ => None,
    }
}

/// Finishes a manager's side that has sent everything.
pub fn finished_manager(manager: ManagerSide<4, 16>) -> Option<ManagerReceipt<4, 16>>
    ensures taker { (s : ClientState Global 4 16) → AreSides s manager →
        IfSome result (λ receipt. AreManagersReceipts receipt s) }
    // for every past that the side represents
    ensures shows { (y : ManagerPast 4 16) → ManagerStandsFor manager y →
        IfSome result (λ receipt. ShowsManager receipt y) }
{
    if manager.is_sent_out() {
        manager_receipt(manager.finish())
    } else {
        drop(manager);
        None
    }
}

/// Returns whether the client's side has taken all that the receipt counts.
fn has_all_probes(client: &mut ClientSide<4, 16>, receipt: &mut ManagerReceipt<4, 16>) -> bool
    requires { AreManagersReceipts receipt.old client.old }
    ensures { AreManagersReceipts receipt.new client.new }
{
    client.drained(receipt)
}

/// Returns whether a ProbeBlock was fetched and taken.
fn takes_a_probe(client: &mut ClientSide<4, 16>) -> bool
    ensures { SameClient client.old client.new }
{
    let is_fetched = client.fetch() == 1;
    is_fetched & client.take_b().is_some()
}

/// Returns whether the client's side has the ProbeBlock only after it took it.
fn has_the_probe(client: &mut ClientSide<4, 16>, receipt: &mut ManagerReceipt<4, 16>) -> bool
    requires { AreManagersReceipts receipt.old client.old }
{
    let not_yet = !has_all_probes(client, receipt);
    let is_taken = takes_a_probe(client);
    not_yet & is_taken & has_all_probes(client, receipt) & (receipt.b.sent() == client.totals().b)
}

/// Returns whether a manager's side that has sent a ProbeBlock finishes, and the client's side finds
/// out that it took it.
fn manager_ends(manager: ManagerSide<4, 16>, client: &mut ClientSide<4, 16>) -> bool
    requires { AreSides client.old manager }
{
    match finished_manager(manager) {
        Some(mut receipt) => has_the_probe(client, &mut receipt),
        None => false,
    }
}

/// Returns whether the ProbeBlock is sent. (The client's side does nothing.)
fn probe_is_sent(client: &mut ClientSide<4, 16>, manager: &mut ManagerSide<4, 16>) -> bool
    requires { AreSides client.old manager.old }
    ensures { AreSides client.new manager.new }
{
    sends_a_probe(manager)
}

/// Returns whether the manager's side sends a ProbeBlock and finishes.
fn manager_finishes(alloc: Global) -> bool {
    match bridge::<4, 16, _>(alloc, 1) {
        Ok((mut client, mut manager)) => {
            let is_sent = probe_is_sent(&mut client, &mut manager);
            let has_it = manager_ends(manager, &mut client);
            drop(client);
            is_sent & has_it
        }
        Err(_) => false,
    }
}

#[test]
fn a_client_finishes_and_the_manager_has_all(rt: HostRuntime) {
    assert!(rt; client_finishes(rt.alloc()));
}

#[test]
fn a_manager_finishes_and_the_client_has_all(rt: HostRuntime) {
    assert!(rt; manager_finishes(rt.alloc()));
}
