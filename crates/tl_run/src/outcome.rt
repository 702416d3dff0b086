//! The outcome of a run, or the reason why there is none.
ghost use Rattle.std.specs.Prelude.{◌≡◌, Some};
ghost use Rattle.tl_msg.specs.Names.{numbered};
ghost use Rattle.tl_run.specs.Inner.Running.{stop_verdict};
ghost use Rattle.tl_run.specs.Names.{run_fault_number, run_fault_name};

use std::fmt;
use thiserror::Error;
use tl_msg::{Beat, ChA, ChB, ChC, ChD, ChE, SideFault, Verdict};
use tl_offer::Stop;

/// The outcome of a script: the far beats that each side took, one verdict for each channel from A
/// to E, and the number of rounds of the run. The manager's side takes A, C and E, on `M` lanes;
/// the client's side takes B and D, on `C` lanes.
#[derive(Drop)]
pub struct Outcome<const C: usize, const M: usize> {
    pub a: Vec<Beat<ChA, M>>,
    pub b: Vec<Beat<ChB, C>>,
    pub c: Vec<Beat<ChC, M>>,
    pub d: Vec<Beat<ChD, C>>,
    pub e: Vec<Beat<ChE, M>>,
    pub verdicts: [Verdict; 5],
    pub rounds: u64,
}

/// The reason why a script was not run. `RingSize` is tested first.
#[derive(Clone, Copy, PartialEq, Eq, Debug, Error)]
pub enum RunFault {
    /// 12: the size of the rings is 0 or more than 4,096 beats (this project's choice).
    RingSize,
    /// 13: the allocator failed for the bridge or for the far beats.
    OutOfMemory,
    /// 20: the two sides stopped moving before all beats had arrived. No run ends in this way; the
    /// name is kept for its number.
    Stalled,
}

impl RunFault {
    /// Returns the number of the fault: 12, 13 or 20 (this project's choice).
    pub fn number(&self) -> u8
        ensures { result ≡ run_fault_number self.now }
    {
        match self {
            RunFault::RingSize => 12,
            RunFault::OutOfMemory => 13,
            RunFault::Stalled => 20,
        }
    }

    /// Returns the name of the fault, spelled like the variant (this project's choice).
    pub fn name(&self) -> &'static str
        ensures { result.now ≡ run_fault_name self.now }
    {
        match self {
            RunFault::RingSize => "RingSize",
            RunFault::OutOfMemory => "OutOfMemory",
            RunFault::Stalled => "Stalled",
        }
    }
}

// Prints the number and the name, for example `12 RingSize`.
impl fmt::Display for RunFault {
    ghost output = { λ fault. Some (numbered (run_fault_number fault) (run_fault_name fault)) };

    fn fmt<W: fmt::Write>(&self, f: &mut fmt::Formatter<W>) -> fmt::Result {
        write!(f, "{} {}", self.number(), self.name())
    }
}

// Returns the verdict of a channel that offers no more beats, after `near` accepted near beats and
// `far` taken far beats.
pub(crate) fn verdict(stop: &Stop, near: usize, far: usize) -> Verdict
    ensures { result ≡ stop_verdict stop.now near far }
{
    let (near, far) = (near as u64, far as u64);
    match *stop {
        Stop::Done => Verdict::Done { near, far },
        Stop::Cut => Verdict::Cut { near, far },
        Stop::Refused(fault) => match fault {
            SideFault::Beat(_) | SideFault::SizeMismatch => Verdict::Refused { at: near, fault },
            SideFault::SourceBusy | SideFault::NoRequest => Verdict::Waiting { at: near, fault },
        },
    }
}
