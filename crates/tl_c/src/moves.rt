//! Calls that move the beats of a side.
ghost use Rattle.std.specs.Prelude.{◌≤◌, ◌*◌};
ghost use Rattle.tl_ring.specs.declared.queue.TheConstants.{STAGE_CAPACITY};
ghost use Rattle.tl_c.specs.Calls.{HoldsClient, HoldsManager, KeepsOfClient, KeepsOfManager, Moves, ClientPumps, ManagerPumps, ClientFetches, ManagerFetches, client_pumped, manager_pumped, same_but_client_sends, same_but_client_takes, same_but_manager_sends, same_but_manager_takes};

use crate::client_handle::ClientHandle;
use crate::manager_handle::ManagerHandle;
use std::alloc::Global;
use tl_c_beats::on_held;

/// Moves staged beats of A, C and E into their rings. Returns their total number: at most three
/// times [`tl_ring::STAGE_CAPACITY`], and 0 if no side is held. On each channel it moves at least all
/// beats that are known to fit. Nothing else of the side changes.
#[unsafe(no_mangle)]
pub extern "C" fn tl_pump_client(alloc: Global, client: &mut ClientHandle) -> usize
    ensures moves { Moves HoldsClient ClientPumps client_pumped
        client.old.owned.held client.new.owned.held result }
    ensures most { result ≤ 3 * STAGE_CAPACITY }
    ensures kept { KeepsOfClient same_but_client_sends client.old client.new }
{
    on_held!(client, alloc, 0, |held| held.side.pump())
}

/// Moves beats of B and D from their rings into the inboxes. Returns their total number: at most
/// twice [`tl_ring::STAGE_CAPACITY`], and 0 if no side is held. On each channel it moves at least all
/// beats that are known to be in the ring, up to the free places of the inbox. Nothing else of the
/// side changes.
#[unsafe(no_mangle)]
pub extern "C" fn tl_fetch_client(alloc: Global, client: &mut ClientHandle) -> usize
    ensures moves { Moves HoldsClient ClientFetches (λ s t x. x)
        client.old.owned.held client.new.owned.held result }
    ensures most { result ≤ 2 * STAGE_CAPACITY }
    ensures kept { KeepsOfClient same_but_client_takes client.old client.new }
{
    on_held!(client, alloc, 0, |held| held.side.fetch())
}

/// Moves staged beats of B and D into their rings. Returns their total number: at most twice
/// [`tl_ring::STAGE_CAPACITY`], and 0 if no side is held. On each channel it moves at least all beats
/// that are known to fit. Nothing else of the side changes.
#[unsafe(no_mangle)]
pub extern "C" fn tl_pump_manager(alloc: Global, manager: &mut ManagerHandle) -> usize
    ensures moves { Moves HoldsManager ManagerPumps manager_pumped
        manager.old.owned.held manager.new.owned.held result }
    ensures most { result ≤ 2 * STAGE_CAPACITY }
    ensures kept { KeepsOfManager same_but_manager_sends manager.old manager.new }
{
    on_held!(manager, alloc, 0, |held| held.side.pump())
}

/// Moves beats of A, C and E from their rings into the inboxes. Returns their total number: at most
/// three times [`tl_ring::STAGE_CAPACITY`], and 0 if no side is held. On each channel it moves at least all
/// beats that are known to be in the ring, up to the free places of the inbox. Nothing else of
/// the side changes.
#[unsafe(no_mangle)]
pub extern "C" fn tl_fetch_manager(alloc: Global, manager: &mut ManagerHandle) -> usize
    ensures moves { Moves HoldsManager ManagerFetches (λ s t x. x)
        manager.old.owned.held manager.new.owned.held result }
    ensures most { result ≤ 3 * STAGE_CAPACITY }
    ensures kept { KeepsOfManager same_but_manager_takes manager.old manager.new }
{
    on_held!(manager, alloc, 0, |held| held.side.fetch())
}
