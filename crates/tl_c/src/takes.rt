//! The calls that take a beat from each channel.
ghost use Rattle.tl_msg.specs.Tables.{rules_a, rules_b, rules_c, rules_d, rules_e};
ghost use Rattle.tl_sides.specs.Sides.{client_takes_b, client_takes_d, manager_takes_a, manager_takes_c, manager_takes_e};
ghost use Rattle.tl_c_beats.specs.Fields.{fields_a, fields_b, fields_c, fields_d, fields_e};
ghost use Rattle.tl_c.specs.Calls.{HoldsClient, HoldsManager, KeepsOfClient, KeepsOfManager, Takes, inbox_a, inbox_b, inbox_c, inbox_d, inbox_e, takes_a, takes_b, takes_c, takes_d, takes_e};

use crate::client_handle::ClientHandle;
use crate::manager_handle::ManagerHandle;
use crate::widths::{CLIENT, MANAGER};
use std::alloc::Global;
use tl_c_beats::{BeatFields, on_held, write_a, write_b, write_c, write_d, write_e};

/// Removes the first beat of A's inbox at the manager's side, and writes it. Returns whether there
/// was one. If there was none, nothing changes.
#[unsafe(no_mangle)]
pub extern "C" fn tl_take_a(
    alloc: Global,
    manager: &mut ManagerHandle,
    beat: &mut BeatFields,
    lanes: &mut [u8; MANAGER],
) -> bool
    ensures take { Takes HoldsManager rules_a fields_a inbox_a manager_takes_a
        manager.old.owned.held manager.new.owned.held beat.old beat.new lanes.old lanes.new result }
    ensures kept { KeepsOfManager takes_a.Keeps manager.old manager.new }
{
    let far = on_held!(manager, alloc, false, |held| held.side.take_a());
    write_a(far, beat, lanes)
}

/// Removes the first beat of B's inbox at the client's side, and writes it. Returns whether there
/// was one. If there was none, nothing changes.
#[unsafe(no_mangle)]
pub extern "C" fn tl_take_b(
    alloc: Global,
    client: &mut ClientHandle,
    beat: &mut BeatFields,
    lanes: &mut [u8; CLIENT],
) -> bool
    ensures take { Takes HoldsClient rules_b fields_b inbox_b client_takes_b
        client.old.owned.held client.new.owned.held beat.old beat.new lanes.old lanes.new result }
    ensures kept { KeepsOfClient takes_b.Keeps client.old client.new }
{
    let far = on_held!(client, alloc, false, |held| held.side.take_b());
    write_b(far, beat, lanes)
}

/// Removes the first beat of C's inbox at the manager's side, and writes it. Returns whether there
/// was one. If there was none, nothing changes.
#[unsafe(no_mangle)]
pub extern "C" fn tl_take_c(
    alloc: Global,
    manager: &mut ManagerHandle,
    beat: &mut BeatFields,
    lanes: &mut [u8; MANAGER],
) -> bool
    ensures take { Takes HoldsManager rules_c fields_c inbox_c manager_takes_c
        manager.old.owned.held manager.new.owned.held beat.old beat.new lanes.old lanes.new result }
    ensures kept { KeepsOfManager takes_c.Keeps manager.old manager.new }
{
    let far = on_held!(manager, alloc, false, |held| held.side.take_c());
    write_c(far, beat, lanes)
}

/// Removes the first beat of D's inbox at the client's side, and writes it. Returns whether there
/// was one. If there was none, nothing changes.
#[unsafe(no_mangle)]
pub extern "C" fn tl_take_d(
    alloc: Global,
    client: &mut ClientHandle,
    beat: &mut BeatFields,
    lanes: &mut [u8; CLIENT],
) -> bool
    ensures take { Takes HoldsClient rules_d fields_d inbox_d client_takes_d
        client.old.owned.held client.new.owned.held beat.old beat.new lanes.old lanes.new result }
    ensures kept { KeepsOfClient takes_d.Keeps client.old client.new }
{
    let far = on_held!(client, alloc, false, |held| held.side.take_d());
    write_d(far, beat, lanes)
}

/// Removes the first beat of E's inbox at the manager's side, and writes it. Returns whether there
/// was one. If there was none, nothing changes.
#[unsafe(no_mangle)]
pub extern "C" fn tl_take_e(
    alloc: Global,
    manager: &mut ManagerHandle,
    beat: &mut BeatFields,
    lanes: &mut [u8; MANAGER],
) -> bool
    ensures take { Takes HoldsManager rules_e fields_e inbox_e manager_takes_e
        manager.old.owned.held manager.new.owned.held beat.old beat.new lanes.old lanes.new result }
    ensures kept { KeepsOfManager takes_e.Keeps manager.old manager.new }
{
    let far = on_held!(manager, alloc, false, |held| held.side.take_e());
    write_e(far, beat, lanes)
}
