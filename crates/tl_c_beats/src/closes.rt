//! The closing of each channel, with the statuses that C receives.
ghost use Rattle.tl_sides.specs.Sides.{client_side, manager_side};
ghost use Rattle.tl_sides.specs.Ports.{sends_a, sends_b, sends_c, sends_d, sends_e};
ghost use Rattle.tl_c_beats.specs.Calls.{ClosesNumbered};

use crate::answers::close_number;
use std::alloc::Allocator;
use tl_sides::{ClientSide, ManagerSide};

/// Ends the offers of A. Returns 0 if it is closed, otherwise the number of the fault.
pub fn close_a<const C: usize, const M: usize, A: Allocator>(client: &mut ClientSide<C, M, A>) -> u8
    ensures { ClosesNumbered (sends_a client_side) client.old result client.new }
{
    let closed = client.close_a();
    close_number(closed)
}

/// Ends the offers of B, as [`close_a`] does.
pub fn close_b<const C: usize, const M: usize, A: Allocator>(
    manager: &mut ManagerSide<C, M, A>,
) -> u8
    ensures { ClosesNumbered (sends_b manager_side) manager.old result manager.new }
{
    let closed = manager.close_b();
    close_number(closed)
}

/// Ends the offers of C, as [`close_a`] does.
pub fn close_c<const C: usize, const M: usize, A: Allocator>(client: &mut ClientSide<C, M, A>) -> u8
    ensures { ClosesNumbered (sends_c client_side) client.old result client.new }
{
    let closed = client.close_c();
    close_number(closed)
}

/// Ends the offers of D, as [`close_a`] does.
pub fn close_d<const C: usize, const M: usize, A: Allocator>(
    manager: &mut ManagerSide<C, M, A>,
) -> u8
    ensures { ClosesNumbered (sends_d manager_side) manager.old result manager.new }
{
    let closed = manager.close_d();
    close_number(closed)
}

/// Ends the offers of E, as [`close_a`] does.
pub fn close_e<const C: usize, const M: usize, A: Allocator>(client: &mut ClientSide<C, M, A>) -> u8
    ensures { ClosesNumbered (sends_e client_side) client.old result client.new }
{
    let closed = client.close_e();
    close_number(closed)
}
