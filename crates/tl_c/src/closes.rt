//! The closing of each channel.
ghost use Rattle.tl_c_beats.specs.Calls.{Closes};
ghost use Rattle.tl_c.specs.Calls.{HoldsClient, HoldsManager, KeepsOfClient, KeepsOfManager, sends_a, sends_b, sends_c, sends_d, sends_e};

use crate::client_handle::ClientHandle;
use crate::manager_handle::ManagerHandle;
use std::alloc::Global;
use tl_c_beats::{NOT_OPEN, close_a, close_b, close_c, close_d, close_e, on_held};

/// Ends the offers of A by the client's side.
///
/// Returns 0 if the channel is closed, now or before. Otherwise nothing changes. Errors: 11 if a
/// burst is unfinished, or `NOT_OPEN`.
#[unsafe(no_mangle)]
pub extern "C" fn tl_close_a(alloc: Global, client: &mut ClientHandle) -> u8
    ensures close { Closes HoldsClient NOT_OPEN sends_a client.old.owned.held client.new.owned.held result }
    ensures kept { KeepsOfClient sends_a.Keeps client.old client.new }
{
    on_held!(client, alloc, NOT_OPEN, |held| close_a(&mut held.side))
}

/// Ends the offers of B by the manager's side.
///
/// Returns 0 if the channel is closed, now or before. Otherwise nothing changes. Errors: 11 if a
/// burst is unfinished, or `NOT_OPEN`.
#[unsafe(no_mangle)]
pub extern "C" fn tl_close_b(alloc: Global, manager: &mut ManagerHandle) -> u8
    ensures close { Closes HoldsManager NOT_OPEN sends_b manager.old.owned.held manager.new.owned.held result }
    ensures kept { KeepsOfManager sends_b.Keeps manager.old manager.new }
{
    on_held!(manager, alloc, NOT_OPEN, |held| close_b(&mut held.side))
}

/// Ends the offers of C by the client's side.
///
/// Returns 0 if the channel is closed, now or before. Otherwise nothing changes. Errors: 11 if a
/// burst is unfinished, or `NOT_OPEN`.
#[unsafe(no_mangle)]
pub extern "C" fn tl_close_c(alloc: Global, client: &mut ClientHandle) -> u8
    ensures close { Closes HoldsClient NOT_OPEN sends_c client.old.owned.held client.new.owned.held result }
    ensures kept { KeepsOfClient sends_c.Keeps client.old client.new }
{
    on_held!(client, alloc, NOT_OPEN, |held| close_c(&mut held.side))
}

/// Ends the offers of D by the manager's side.
///
/// Returns 0 if the channel is closed, now or before. Otherwise nothing changes. Errors: 11 if a
/// burst is unfinished, or `NOT_OPEN`.
#[unsafe(no_mangle)]
pub extern "C" fn tl_close_d(alloc: Global, manager: &mut ManagerHandle) -> u8
    ensures close { Closes HoldsManager NOT_OPEN sends_d manager.old.owned.held manager.new.owned.held result }
    ensures kept { KeepsOfManager sends_d.Keeps manager.old manager.new }
{
    on_held!(manager, alloc, NOT_OPEN, |held| close_d(&mut held.side))
}

/// Ends the offers of E by the client's side.
///
/// Returns 0 if the channel is closed, now or before. Otherwise nothing changes. Errors: 11 if a
/// burst is unfinished, or `NOT_OPEN`.
#[unsafe(no_mangle)]
pub extern "C" fn tl_close_e(alloc: Global, client: &mut ClientHandle) -> u8
    ensures close { Closes HoldsClient NOT_OPEN sends_e client.old.owned.held client.new.owned.held result }
    ensures kept { KeepsOfClient sends_e.Keeps client.old client.new }
{
    on_held!(client, alloc, NOT_OPEN, |held| close_e(&mut held.side))
}
