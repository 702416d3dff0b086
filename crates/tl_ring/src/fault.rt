ghost use Rattle.std.specs.Prelude.{◌≡◌, Some};
ghost use Rattle.tl_msg.specs.Names.{numbered};
ghost use Rattle.tl_ring.specs.Names.{build_fault_number, build_fault_name, end_fault_number, end_fault_name};

use std::fmt;
use thiserror::Error;

/// The reason why no ring was made. `RingSize` is tested first.
#[derive(Clone, Copy, PartialEq, Eq, Debug, Error)]
pub enum BuildFault {
    /// 12: the size of the ring is 0 or more than 4,096 beats (this project's choice).
    RingSize,
    /// 13: the allocator refused memory for a ring or, if a whole bridge is made, for a side's
    /// table.
    OutOfMemory,
}

impl BuildFault {
    /// Returns the number of the fault, 12 or 13 (this project's choice).
    pub fn number(&self) -> u8
        ensures { result ≡ build_fault_number self.now }
    {
        match self {
            BuildFault::RingSize => 12,
            BuildFault::OutOfMemory => 13,
        }
    }

    /// Returns the name of the fault, spelled like the variant (this project's choice).
    pub fn name(&self) -> &'static str
        ensures { result.now ≡ build_fault_name self.now }
    {
        match self {
            BuildFault::RingSize => "RingSize",
            BuildFault::OutOfMemory => "OutOfMemory",
        }
    }
}

// Prints the number and the name, for example `12 RingSize`.
impl fmt::Display for BuildFault {
    ghost output = { λ fault. Some (numbered (build_fault_number fault) (build_fault_name fault)) };

    fn fmt<W: fmt::Write>(&self, f: &mut fmt::Formatter<W>) -> fmt::Result {
        write!(f, "{} {}", self.number(), self.name())
    }
}

/// The reason why a sending end is not closed.
#[derive(Clone, Copy, PartialEq, Eq, Debug, Error)]
pub enum EndFault {
    /// 11: a burst is unfinished, and closing would cut it (the number is this project's choice;
    /// TileLink's burst rules forbid an unfinished burst).
    MidBurst,
}

impl EndFault {
    /// Returns the number of the fault, 11 (this project's choice).
    pub fn number(&self) -> u8
        ensures { result ≡ end_fault_number self.now }
    {
        match self {
            EndFault::MidBurst => 11,
        }
    }

    /// Returns the name of the fault, spelled like the variant (this project's choice).
    pub fn name(&self) -> &'static str
        ensures { result.now ≡ end_fault_name self.now }
    {
        match self {
            EndFault::MidBurst => "MidBurst",
        }
    }
}

// Prints the number and the name, for example `11 MidBurst`.
impl fmt::Display for EndFault {
    ghost output = { λ fault. Some (numbered (end_fault_number fault) (end_fault_name fault)) };

    fn fmt<W: fmt::Write>(&self, f: &mut fmt::Formatter<W>) -> fmt::Result {
        write!(f, "{} {}", self.number(), self.name())
    }
}
