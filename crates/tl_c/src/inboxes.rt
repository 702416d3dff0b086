//! The calls that take the beats of an inbox into an array.
ghost use Rattle.tl_msg.specs.Tables.{rules_a, rules_b, rules_c, rules_d, rules_e};
ghost use Rattle.tl_sides.specs.Sides.{client_takes_b, client_takes_d, manager_takes_a, manager_takes_c, manager_takes_e};
ghost use Rattle.tl_c_beats.specs.Fields.{fields_a, fields_b, fields_c, fields_d, fields_e};
ghost use Rattle.tl_c.specs.Calls.{HoldsClient, HoldsManager, KeepsOfClient, KeepsOfManager, inbox_a, inbox_b, inbox_c, inbox_d, inbox_e, takes_a, takes_b, takes_c, takes_d, takes_e};
ghost use Rattle.tl_c.specs.Inboxes.{TakesAll, TakesBeats, client_beat, manager_beat, Left, left_a, left_b, left_c, left_d, left_e};

use crate::client_handle::ClientHandle;
use crate::manager_handle::ManagerHandle;
use crate::widths::{CLIENT, MANAGER};
use std::alloc::Global;
use tl_c_beats::{BeatFields, fields_a, fields_b, fields_c, fields_d, fields_e, on_held};
use tl_sides::{ClientSide, ManagerSide};

/// A beat with its lanes, as it is taken from an inbox of the client's side.
#[repr(C)]
#[derive(Drop)]
pub struct ClientBeat {
    pub beat: BeatFields,
    pub lanes: [u8; CLIENT],
}

/// A beat with its lanes, as it is taken from an inbox of the manager's side.
#[repr(C)]
#[derive(Drop)]
pub struct ManagerBeat {
    pub beat: BeatFields,
    pub lanes: [u8; MANAGER],
}

// C gets these sizes only from the header.
const _: () = prove!(size_of::<ClientBeat>() == 40 + (CLIENT + 7) / 8 * 8);

const _: () = prove!(size_of::<ManagerBeat>() == 40 + (MANAGER + 7) / 8 * 8);

// Takes beats of A until its inbox is empty or the array is full. Returns their number.
fn fill_a(side: &mut ManagerSide<CLIENT, MANAGER>, beats: &mut [ManagerBeat]) -> usize
    ensures { TakesBeats takes_a manager_takes_a left_a (manager_beat fields_a)
        side.old side.new beats.old beats.new result }
{
    for i in 0..beats.len() {
        let Some(far) = side.take_a() else {
            return i;
        };
        beats[i] = ManagerBeat {
            beat: fields_a(&far),
            lanes: far.lanes,
        };
    }
    beats.len()
}

/// Takes the beats of A's inbox at the manager's side, in order, until the inbox is empty or the array
/// is full, and writes each as [`tl_take_a`](crate::takes::tl_take_a) does. Returns their number.
/// Elements of the array past that number are unchanged.
#[unsafe(no_mangle)]
pub extern "C" fn tl_take_all_a(
    alloc: Global,
    manager: &mut ManagerHandle,
    beats: &mut [ManagerBeat],
) -> usize
    ensures take { TakesAll HoldsManager rules_a (manager_beat fields_a) inbox_a manager_takes_a
        manager.old.owned.held manager.new.owned.held beats.old beats.new result }
    ensures kept { KeepsOfManager (Left takes_a left_a result) manager.old manager.new }
{
    on_held!(manager, alloc, 0, |held| fill_a(&mut held.side, beats))
}

// Takes beats of B until its inbox is empty or the array is full. Returns their number.
fn fill_b(side: &mut ClientSide<CLIENT, MANAGER>, beats: &mut [ClientBeat]) -> usize
    ensures { TakesBeats takes_b client_takes_b left_b (client_beat fields_b)
        side.old side.new beats.old beats.new result }
{
    for i in 0..beats.len() {
        let Some(far) = side.take_b() else {
            return i;
        };
        beats[i] = ClientBeat {
            beat: fields_b(&far),
            lanes: far.lanes,
        };
    }
    beats.len()
}

/// Takes the beats of B's inbox at the client's side, in order, until the inbox is empty or the array
/// is full, and writes each as [`tl_take_b`](crate::takes::tl_take_b) does. Returns their number.
/// Elements of the array past that number are unchanged.
#[unsafe(no_mangle)]
pub extern "C" fn tl_take_all_b(
    alloc: Global,
    client: &mut ClientHandle,
    beats: &mut [ClientBeat],
) -> usize
    ensures take { TakesAll HoldsClient rules_b (client_beat fields_b) inbox_b client_takes_b
        client.old.owned.held client.new.owned.held beats.old beats.new result }
    ensures kept { KeepsOfClient (Left takes_b left_b result) client.old client.new }
{
    on_held!(client, alloc, 0, |held| fill_b(&mut held.side, beats))
}

// Takes beats of C until its inbox is empty or the array is full. Returns their number.
fn fill_c(side: &mut ManagerSide<CLIENT, MANAGER>, beats: &mut [ManagerBeat]) -> usize
    ensures { TakesBeats takes_c manager_takes_c left_c (manager_beat fields_c)
        side.old side.new beats.old beats.new result }
{
    for i in 0..beats.len() {
        let Some(far) = side.take_c() else {
            return i;
        };
        beats[i] = ManagerBeat {
            beat: fields_c(&far),
            lanes: far.lanes,
        };
    }
    beats.len()
}

/// Takes the beats of C's inbox at the manager's side, in order, until the inbox is empty or the array
/// is full, and writes each as [`tl_take_c`](crate::takes::tl_take_c) does. Returns their number.
/// Elements of the array past that number are unchanged.
#[unsafe(no_mangle)]
pub extern "C" fn tl_take_all_c(
    alloc: Global,
    manager: &mut ManagerHandle,
    beats: &mut [ManagerBeat],
) -> usize
    ensures take { TakesAll HoldsManager rules_c (manager_beat fields_c) inbox_c manager_takes_c
        manager.old.owned.held manager.new.owned.held beats.old beats.new result }
    ensures kept { KeepsOfManager (Left takes_c left_c result) manager.old manager.new }
{
    on_held!(manager, alloc, 0, |held| fill_c(&mut held.side, beats))
}

// Takes beats of D until its inbox is empty or the array is full. Returns their number.
fn fill_d(side: &mut ClientSide<CLIENT, MANAGER>, beats: &mut [ClientBeat]) -> usize
    ensures { TakesBeats takes_d client_takes_d left_d (client_beat fields_d)
        side.old side.new beats.old beats.new result }
{
    for i in 0..beats.len() {
        let Some(far) = side.take_d() else {
            return i;
        };
        beats[i] = ClientBeat {
            beat: fields_d(&far),
            lanes: far.lanes,
        };
    }
    beats.len()
}

/// Takes the beats of D's inbox at the client's side, in order, until the inbox is empty or the array
/// is full, and writes each as [`tl_take_d`](crate::takes::tl_take_d) does. Returns their number.
/// Elements of the array past that number are unchanged.
#[unsafe(no_mangle)]
pub extern "C" fn tl_take_all_d(
    alloc: Global,
    client: &mut ClientHandle,
    beats: &mut [ClientBeat],
) -> usize
    ensures take { TakesAll HoldsClient rules_d (client_beat fields_d) inbox_d client_takes_d
        client.old.owned.held client.new.owned.held beats.old beats.new result }
    ensures kept { KeepsOfClient (Left takes_d left_d result) client.old client.new }
{
    on_held!(client, alloc, 0, |held| fill_d(&mut held.side, beats))
}

// Takes beats of E until its inbox is empty or the array is full. Returns their number.
fn fill_e(side: &mut ManagerSide<CLIENT, MANAGER>, beats: &mut [ManagerBeat]) -> usize
    ensures { TakesBeats takes_e manager_takes_e left_e (manager_beat fields_e)
        side.old side.new beats.old beats.new result }
{
    for i in 0..beats.len() {
        let Some(far) = side.take_e() else {
            return i;
        };
        beats[i] = ManagerBeat {
            beat: fields_e(&far),
            lanes: far.lanes,
        };
    }
    beats.len()
}

/// Takes the beats of E's inbox at the manager's side, in order, until the inbox is empty or the array
/// is full, and writes each as [`tl_take_e`](crate::takes::tl_take_e) does. Returns their number.
/// Elements of the array past that number are unchanged.
#[unsafe(no_mangle)]
pub extern "C" fn tl_take_all_e(
    alloc: Global,
    manager: &mut ManagerHandle,
    beats: &mut [ManagerBeat],
) -> usize
    ensures take { TakesAll HoldsManager rules_e (manager_beat fields_e) inbox_e manager_takes_e
        manager.old.owned.held manager.new.owned.held beats.old beats.new result }
    ensures kept { KeepsOfManager (Left takes_e left_e result) manager.old manager.new }
{
    on_held!(manager, alloc, 0, |held| fill_e(&mut held.side, beats))
}
