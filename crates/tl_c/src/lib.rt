//! The bridge for C, each side behind a handle, in one thread or in two: the calls of `ClientSide`
//! and `ManagerSide`, with numbers and with pointers to bytes, for one pair of widths.
//!
//! The client's side offers beats of A, C and E and takes those of B and D; the manager's side
//! offers beats of B and D and takes those of A, C and E. The contract of a call names the event
//! that it adds to the side's past, and the status that it returns, given that past. No call waits
//! for the other side. `include/tlbridge.h` lists the obligations of a caller that is not proved.
#![tactic(auto)]

mod answers;
mod client_handle;
mod closes;
mod example;
mod held;
mod inboxes;
mod manager_handle;
mod meetings;
mod moves;
mod offers;
mod receipts;
mod takes;
mod widths;

ghost use Rattle.std.specs.Prelude.{◌≡◌, ◌≢◌, ◌<◌, ◌⊎◌, ◌↔◌, IfSome, None};
ghost use Rattle.tl_ring.specs.declared.pipe.TheConstants.{MAX_RING};
ghost use Rattle.tl_sides.specs.Sides.{ClientPast, IsNewClient, IsNewManager, ManagerPast, new_client, new_manager};
ghost use Rattle.tl_c_beats.specs.Receipts.{IsLater, without_number};
ghost use Rattle.tl_c.specs.Calls.{HoldsClient, HoldsManager, HoldSides};

use crate::client_handle::ClientHandle;
use crate::held::{ClientHeld, ManagerHeld};
use crate::manager_handle::ManagerHandle;
use crate::widths::{CLIENT, MANAGER};
use std::alloc::Global;
use tl_c_beats::{BridgeId, boxed};

/// Creates a bridge with five rings of `ring` beats and puts its sides into the two handles, with
/// `bridge`, the caller's number of it, and a number of this opening, which is higher than those
/// before in both handles. Sides that the handles held before are freed first. Each side knows that
/// its rings are empty.
///
/// Returns 0 if the bridge is made. Otherwise both handles hold no side. Errors: 12 if and only if
/// `ring` is 0 or above 4,096; 13 if the allocator fails.
#[unsafe(no_mangle)]
pub extern "C" fn tl_open(
    alloc: Global,
    client: &mut ClientHandle,
    manager: &mut ManagerHandle,
    ring: usize,
    bridge: u64,
) -> u8
    ensures sides { result ≡ 0 → HoldSides client.new.owned.held manager.new.owned.held }
    ensures client { result ≡ 0 → HoldsClient client.new.owned.held (new_client ring) }
    ensures manager { result ≡ 0 → HoldsManager manager.new.owned.held (new_manager ring) }
    ensures ring_size { (result ≡ 12) ↔ ((ring ≡ 0) ⊎ (MAX_RING < ring)) }
    ensures faults { (result ≡ 0) ⊎ ((result ≡ 12) ⊎ (result ≡ 13)) }
    ensures refused { result ≢ 0 →
        (client.new.owned.held ≡ None) × (manager.new.owned.held ≡ None) }
    ensures knows { result ≡ 0 → IfSome client.new.owned.held (λ h. IsNewClient ring h.side) ×
        IfSome manager.new.owned.held (λ h. IsNewManager ring h.side) }
    ensures numbers { result ≡ 0 →
        (client.new.bridge.number ≡ bridge) × (manager.new.bridge ≡ client.new.bridge) }
    ensures opening { result ≡ 0 → IsLater client.old.bridge.opening manager.old.bridge.opening client.new.bridge.opening }
    ensures no_numbers { result ≢ 0 → (client.new.bridge ≡ without_number client.old.bridge) ×
        (manager.new.bridge ≡ without_number manager.old.bridge) }
{
    client.free(alloc);
    manager.free(alloc);
    let next = BridgeId::next(bridge, client.bridge.opening, manager.bridge.opening);
    let (client_side, manager_side) = match tl_sides::bridge::<CLIENT, MANAGER, Global>(
        alloc, ring,
    ) {
        Ok(sides) => sides,
        Err(fault) => return fault.number(),
    };
    let client_made = boxed(alloc, ClientHeld { side: client_side });
    let manager_made = boxed(alloc, ManagerHeld { side: manager_side });
    match client_made {
        Ok(client_held) => match manager_made {
            Ok(manager_held) => {
                client.put(client_held);
                manager.put(manager_held);
                client.bridge = next;
                manager.bridge = next;
                0
            }
            Err(fault) => fault,
        },
        Err(fault) => fault,
    }
}

/// Frees the client's side, if the handle holds one. The handle then holds none, and keeps the
/// number of its opening. The manager's side stays usable.
#[unsafe(no_mangle)]
pub extern "C" fn tl_free_client(alloc: Global, client: &mut ClientHandle)
    ensures none { client.new.owned.held ≡ None }
    ensures number { client.new.bridge ≡ without_number client.old.bridge }
{
    client.free(alloc);
}

/// Frees the manager's side, if the handle holds one. The handle then holds none, and keeps the
/// number of its opening. The client's side stays usable.
#[unsafe(no_mangle)]
pub extern "C" fn tl_free_manager(alloc: Global, manager: &mut ManagerHandle)
    ensures none { manager.new.owned.held ≡ None }
    ensures number { manager.new.bridge ≡ without_number manager.old.bridge }
{
    manager.free(alloc);
}
