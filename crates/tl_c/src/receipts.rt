//! How many beats passed on each channel, and the receipts of sides.
ghost use Rattle.tl_sides.specs.Receipts.{ClientIsSentOut, ManagerIsSentOut, client_totals, manager_totals};
ghost use Rattle.tl_c_beats.specs.Receipts.{Counts, GivesReceipt, Drains, beat_totals, client_took, manager_took, TotalsOfClient, TotalsOfManager, ClientTook, ManagerTook};
ghost use Rattle.tl_c_beats.specs.declared.totals.TheConstants.{NOT_FINISHED, CLIENT_FINISHED, MANAGER_FINISHED};
ghost use Rattle.tl_c.specs.Calls.{HoldsClient, HoldsManager, KeepsClient, KeepsManager};

use crate::client_handle::ClientHandle;
use crate::manager_handle::ManagerHandle;
use std::alloc::Global;
use tl_c_beats::{
    BeatTotals, NOT_OPEN, count_client, count_manager, drained_client, drained_manager,
    finish_client, finish_manager, on_held,
};

/// Writes how many beats the client's side has sent on A, C and E, and how many were taken from it on
/// B and D. Each number is exact if it is below 2^63. They are no receipt. No beat moves.
///
/// Returns 0, or `NOT_OPEN` if the handle holds no side. Nothing is written then.
#[unsafe(no_mangle)]
pub extern "C" fn tl_count_client(
    alloc: Global,
    client: &mut ClientHandle,
    totals: &mut BeatTotals,
) -> u8
    ensures counts { Counts HoldsClient (λ h. beat_totals client.old.bridge NOT_FINISHED (client_totals h.side)) TotalsOfClient
        client.old.owned.held client.new.owned.held totals.old totals.new result }
    ensures kept { KeepsClient client.old client.new }
{
    let bridge = client.bridge;
    *totals = on_held!(
        client,
        alloc,
        NOT_OPEN,
        |held| count_client(&held.side, bridge)
    );
    0
}

/// Writes the receipt of the client's side, if it has sent everything: A, C and E are closed, and
/// nothing of them is staged. The receipt says how many beats it has sent on each. The side still
/// takes B and D. No beat moves.
///
/// Returns 0 if the receipt is written. Otherwise writes nothing and returns `NOT_SENT` if a channel
/// is open or beats are staged, or `NOT_OPEN` if the handle holds no side.
#[unsafe(no_mangle)]
pub extern "C" fn tl_finish_client(
    alloc: Global,
    client: &mut ClientHandle,
    receipt: &mut BeatTotals,
) -> u8
    ensures receipt { GivesReceipt HoldsClient (λ h. ClientIsSentOut h.side) (λ h. beat_totals client.old.bridge CLIENT_FINISHED (client_totals h.side)) TotalsOfClient
        client.old.owned.held client.new.owned.held receipt.old receipt.new result }
    ensures kept { KeepsClient client.old client.new }
{
    let bridge = client.bridge;
    on_held!(
        client,
        alloc,
        NOT_OPEN,
        |held| finish_client(&held.side, bridge, receipt)
    )
}

/// Compares how many beats of B and D were taken from the client's side with the receipt of the
/// manager's side. As many as the receipt counts are all that the manager's side has sent
/// ([`tl_sides::laws::as_many_are_all`]). No beat moves.
///
/// Returns 0 if all were taken, and `NOT_TAKEN` if not. Errors: `WRONG_RECEIPT` if it is no receipt
/// of that side, or one of another opening. `BRIDGE_MISMATCH` if it has another number of a bridge.
/// `NOT_OPEN` if the handle holds no side.
#[unsafe(no_mangle)]
pub extern "C" fn tl_drained_client(
    alloc: Global,
    client: &mut ClientHandle,
    receipt: &BeatTotals,
) -> u8
    ensures drained { Drains HoldsClient (λ h. client_took (client_totals h.side) receipt.now)
        (ClientTook receipt.now) client.old.bridge MANAGER_FINISHED receipt.now
        client.old.owned.held client.new.owned.held result }
    ensures kept { KeepsClient client.old client.new }
{
    let bridge = client.bridge;
    on_held!(
        client,
        alloc,
        NOT_OPEN,
        |held| drained_client(&held.side, bridge, receipt)
    )
}

/// Writes how many beats the manager's side has sent on B and D, and how many were taken from it on
/// A, C and E. Each number is exact if it is below 2^63. They are no receipt. No beat moves.
///
/// Returns 0, or `NOT_OPEN` if the handle holds no side. Nothing is written then.
#[unsafe(no_mangle)]
pub extern "C" fn tl_count_manager(
    alloc: Global,
    manager: &mut ManagerHandle,
    totals: &mut BeatTotals,
) -> u8
    ensures counts { Counts HoldsManager (λ h. beat_totals manager.old.bridge NOT_FINISHED (manager_totals h.side)) TotalsOfManager
        manager.old.owned.held manager.new.owned.held totals.old totals.new result }
    ensures kept { KeepsManager manager.old manager.new }
{
    let bridge = manager.bridge;
    *totals = on_held!(
        manager,
        alloc,
        NOT_OPEN,
        |held| count_manager(&held.side, bridge)
    );
    0
}

/// Writes the receipt of the manager's side, if it has sent everything: B and D are closed, and
/// nothing of them is staged. The receipt says how many beats it has sent on each. The side still
/// takes A, C and E. No beat moves.
///
/// Returns 0 if the receipt is written. Otherwise writes nothing and returns `NOT_SENT` if a channel
/// is open or beats are staged, or `NOT_OPEN` if the handle holds no side.
#[unsafe(no_mangle)]
pub extern "C" fn tl_finish_manager(
    alloc: Global,
    manager: &mut ManagerHandle,
    receipt: &mut BeatTotals,
) -> u8
    ensures receipt { GivesReceipt HoldsManager (λ h. ManagerIsSentOut h.side) (λ h. beat_totals manager.old.bridge MANAGER_FINISHED (manager_totals h.side)) TotalsOfManager
        manager.old.owned.held manager.new.owned.held receipt.old receipt.new result }
    ensures kept { KeepsManager manager.old manager.new }
{
    let bridge = manager.bridge;
    on_held!(
        manager,
        alloc,
        NOT_OPEN,
        |held| finish_manager(&held.side, bridge, receipt)
    )
}

/// Compares how many beats of A, C and E were taken from the manager's side with the receipt of the
/// client's side. As many as the receipt counts are all that the client's side has sent
/// ([`tl_sides::laws::as_many_are_all`]). No beat moves.
///
/// Returns 0 if all were taken, and `NOT_TAKEN` if not. Errors: `WRONG_RECEIPT` if it is no receipt
/// of that side, or one of another opening. `BRIDGE_MISMATCH` if it has another number of a bridge.
/// `NOT_OPEN` if the handle holds no side.
#[unsafe(no_mangle)]
pub extern "C" fn tl_drained_manager(
    alloc: Global,
    manager: &mut ManagerHandle,
    receipt: &BeatTotals,
) -> u8
    ensures drained { Drains HoldsManager (λ h. manager_took (manager_totals h.side) receipt.now)
        (ManagerTook receipt.now) manager.old.bridge CLIENT_FINISHED receipt.now
        manager.old.owned.held manager.new.owned.held result }
    ensures kept { KeepsManager manager.old manager.new }
{
    let bridge = manager.bridge;
    on_held!(
        manager,
        alloc,
        NOT_OPEN,
        |held| drained_manager(&held.side, bridge, receipt)
    )
}
