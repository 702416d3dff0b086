//! The remains of a side that has sent all of its beats: receipts for the other side, and the ends
//! that still take beats.

use std::alloc::{Allocator, Global};
use tl_msg::{ChA, ChB, ChC, ChD, ChE};
use tl_ring::{Receipt, TakeEnd};

/// The receipts that show the manager's side all beats that the client's side sent. They can be
/// moved to the other side's thread.
#[derive(Drop)]
pub struct ClientReceipt<const C: usize, const M: usize, A: Allocator = Global> {
    /// The receipt of channel A.
    pub a: Receipt<ChA, C, M, A>,
    /// The receipt of channel C.
    pub c: Receipt<ChC, C, M, A>,
    /// The receipt of channel E.
    pub e: Receipt<ChE, C, M, A>,
}

/// The receipts that show the client's side all beats that the manager's side sent. They can be
/// moved to the other side's thread.
#[derive(Drop)]
pub struct ManagerReceipt<const C: usize, const M: usize, A: Allocator = Global> {
    /// The receipt of channel B.
    pub b: Receipt<ChB, M, C, A>,
    /// The receipt of channel D.
    pub d: Receipt<ChD, M, C, A>,
}

/// The remains of a client's side that has sent all of its beats: the receipts of the channels that
/// it sent, and the ends that still take beats.
#[derive(Drop)]
pub struct FinishedClient<const C: usize, const M: usize, A: Allocator = Global> {
    /// The receipt of channel A.
    pub a: Option<Receipt<ChA, C, M, A>>,
    /// The end of channel B.
    pub b: TakeEnd<ChB, M, C, A>,
    /// The receipt of channel C.
    pub c: Option<Receipt<ChC, C, M, A>>,
    /// The end of channel D.
    pub d: TakeEnd<ChD, M, C, A>,
    /// The receipt of channel E.
    pub e: Option<Receipt<ChE, C, M, A>>,
}

/// The remains of a manager's side that has sent all of its beats: the receipts of the channels
/// that it sent, and the ends that still take beats.
#[derive(Drop)]
pub struct FinishedManager<const C: usize, const M: usize, A: Allocator = Global> {
    /// The end of channel A.
    pub a: TakeEnd<ChA, C, M, A>,
    /// The receipt of channel B.
    pub b: Option<Receipt<ChB, M, C, A>>,
    /// The end of channel C.
    pub c: TakeEnd<ChC, C, M, A>,
    /// The receipt of channel D.
    pub d: Option<Receipt<ChD, M, C, A>>,
    /// The end of channel E.
    pub e: TakeEnd<ChE, C, M, A>,
}
