//! The offers of each channel.
ghost use Rattle.tl_c_beats.specs.Calls.{Asks, Offers};
ghost use Rattle.tl_c_beats.specs.Fields.{beat_a, beat_b, beat_c, beat_d, beat_e};
ghost use Rattle.tl_c.specs.Calls.{HoldsClient, HoldsManager, KeepsClient, KeepsManager, KeepsOfClient, KeepsOfManager, sends_a, sends_b, sends_c, sends_d, sends_e};

use crate::client_handle::ClientHandle;
use crate::manager_handle::ManagerHandle;
use crate::widths::{CLIENT, MANAGER};
use std::alloc::Global;
use tl_c_beats::{
    BeatFields, NOT_OPEN, beat_a, beat_b, beat_c, beat_d, beat_e, offer_held, on_held,
};

/// Returns whether the client's side may offer a beat of A: the side is held, nothing of A is
/// staged, and A is not closed.
#[unsafe(no_mangle)]
pub extern "C" fn tl_ready_a(alloc: Global, client: &mut ClientHandle) -> bool
    ensures ask { Asks HoldsClient (λ x. x.a) client.old.owned.held client.new.owned.held result }
    ensures kept { KeepsClient client.old client.new }
{
    on_held!(client, alloc, false, |held| held.side.ready_a())
}

/// Offers a beat of A from the client's side.
///
/// Returns 0 if it is accepted. Otherwise nothing changes. Errors: the number of its fault,
/// `NOT_READY` if A is not ready for a beat, or `NOT_OPEN`.
#[unsafe(no_mangle)]
pub extern "C" fn tl_offer_a(
    alloc: Global,
    client: &mut ClientHandle,
    beat: &BeatFields,
    lanes: &[u8; CLIENT],
) -> u8
    ensures offer { Offers HoldsClient NOT_OPEN sends_a (beat_a beat.now lanes.now)
        client.old.owned.held client.new.owned.held result }
    ensures kept { KeepsOfClient sends_a.Keeps client.old client.new }
{
    let beat = beat_a(beat, lanes);
    offer_held!(client, alloc, NOT_OPEN, side.ready_a, offer_a(beat))
}

/// Returns whether the manager's side may offer a beat of B: the side is held, nothing of B is
/// staged, and B is not closed.
#[unsafe(no_mangle)]
pub extern "C" fn tl_ready_b(alloc: Global, manager: &mut ManagerHandle) -> bool
    ensures ask { Asks HoldsManager (λ x. x.b) manager.old.owned.held manager.new.owned.held result }
    ensures kept { KeepsManager manager.old manager.new }
{
    on_held!(manager, alloc, false, |held| held.side.ready_b())
}

/// Offers a beat of B from the manager's side.
///
/// Returns 0 if it is accepted. Otherwise nothing changes. Errors: the number of its fault,
/// `NOT_READY` if B is not ready for a beat, or `NOT_OPEN`.
#[unsafe(no_mangle)]
pub extern "C" fn tl_offer_b(
    alloc: Global,
    manager: &mut ManagerHandle,
    beat: &BeatFields,
    lanes: &[u8; MANAGER],
) -> u8
    ensures offer { Offers HoldsManager NOT_OPEN sends_b (beat_b beat.now lanes.now)
        manager.old.owned.held manager.new.owned.held result }
    ensures kept { KeepsOfManager sends_b.Keeps manager.old manager.new }
{
    let beat = beat_b(beat, lanes);
    offer_held!(manager, alloc, NOT_OPEN, side.ready_b, offer_b(beat))
}

/// Returns whether the client's side may offer a beat of C: the side is held, nothing of C is
/// staged, and C is not closed.
#[unsafe(no_mangle)]
pub extern "C" fn tl_ready_c(alloc: Global, client: &mut ClientHandle) -> bool
    ensures ask { Asks HoldsClient (λ x. x.c) client.old.owned.held client.new.owned.held result }
    ensures kept { KeepsClient client.old client.new }
{
    on_held!(client, alloc, false, |held| held.side.ready_c())
}

/// Offers a beat of C from the client's side.
///
/// Returns 0 if it is accepted. Otherwise nothing changes. Errors: the number of its fault,
/// `NOT_READY` if C is not ready for a beat, or `NOT_OPEN`.
#[unsafe(no_mangle)]
pub extern "C" fn tl_offer_c(
    alloc: Global,
    client: &mut ClientHandle,
    beat: &BeatFields,
    lanes: &[u8; CLIENT],
) -> u8
    ensures offer { Offers HoldsClient NOT_OPEN sends_c (beat_c beat.now lanes.now)
        client.old.owned.held client.new.owned.held result }
    ensures kept { KeepsOfClient sends_c.Keeps client.old client.new }
{
    let beat = beat_c(beat, lanes);
    offer_held!(client, alloc, NOT_OPEN, side.ready_c, offer_c(beat))
}

/// Returns whether the manager's side may offer a beat of D: the side is held, nothing of D is
/// staged, and D is not closed.
#[unsafe(no_mangle)]
pub extern "C" fn tl_ready_d(alloc: Global, manager: &mut ManagerHandle) -> bool
    ensures ask { Asks HoldsManager (λ x. x.d) manager.old.owned.held manager.new.owned.held result }
    ensures kept { KeepsManager manager.old manager.new }
{
    on_held!(manager, alloc, false, |held| held.side.ready_d())
}

/// Offers a beat of D from the manager's side.
///
/// Returns 0 if it is accepted. Otherwise nothing changes. Errors: the number of its fault,
/// `NOT_READY` if D is not ready for a beat, or `NOT_OPEN`.
#[unsafe(no_mangle)]
pub extern "C" fn tl_offer_d(
    alloc: Global,
    manager: &mut ManagerHandle,
    beat: &BeatFields,
    lanes: &[u8; MANAGER],
) -> u8
    ensures offer { Offers HoldsManager NOT_OPEN sends_d (beat_d beat.now lanes.now)
        manager.old.owned.held manager.new.owned.held result }
    ensures kept { KeepsOfManager sends_d.Keeps manager.old manager.new }
{
    let beat = beat_d(beat, lanes);
    offer_held!(manager, alloc, NOT_OPEN, side.ready_d, offer_d(beat))
}

/// Returns whether the client's side may offer a beat of E: the side is held, nothing of E is
/// staged, and E is not closed.
#[unsafe(no_mangle)]
pub extern "C" fn tl_ready_e(alloc: Global, client: &mut ClientHandle) -> bool
    ensures ask { Asks HoldsClient (λ x. x.e) client.old.owned.held client.new.owned.held result }
    ensures kept { KeepsClient client.old client.new }
{
    on_held!(client, alloc, false, |held| held.side.ready_e())
}

/// Offers a beat of E from the client's side.
///
/// Returns 0 if it is accepted. Otherwise nothing changes. Errors: the number of its fault,
/// `NOT_READY` if E is not ready for a beat, or `NOT_OPEN`.
#[unsafe(no_mangle)]
pub extern "C" fn tl_offer_e(
    alloc: Global,
    client: &mut ClientHandle,
    beat: &BeatFields,
    lanes: &[u8; CLIENT],
) -> u8
    ensures offer { Offers HoldsClient NOT_OPEN sends_e (beat_e beat.now lanes.now)
        client.old.owned.held client.new.owned.held result }
    ensures kept { KeepsOfClient sends_e.Keeps client.old client.new }
{
    let beat = beat_e(beat, lanes);
    offer_held!(client, alloc, NOT_OPEN, side.ready_e, offer_e(beat))
}
