//! A line of a trace.
use tl_lanes::WIDEST;
use tl_msg::{Beat, ChA, ChB, ChC, ChD, ChE};

/// One beat of a trace, on the lanes of the widest bus. Lanes from its sender's width on are 0.
/// Fields that a line of its channel does not have are 0: the mask on C, D and E, and lanes and
/// corrupt on E.
#[derive(Clone, Copy, PartialEq, Eq, Debug)]
pub enum Line {
    A(Beat<ChA, WIDEST>),
    B(Beat<ChB, WIDEST>),
    C(Beat<ChC, WIDEST>),
    D(Beat<ChD, WIDEST>),
    E(Beat<ChE, WIDEST>),
}
