//! The reason why there is no explanation.
ghost use Rattle.std.specs.Prelude.{◌≡◌};
ghost use Rattle.tl_formats.specs.declared.fault.ExplainFault.TheVariants as faults;
ghost use Rattle.tl_stream.specs.declared.fault.TextFault.TheVariants.{OutOfMemory};

use std::alloc::AllocError;
use tl_answer::TextFault;
use tl_times::TimesFault;

/// The reason why there is no explanation.
#[derive(Clone, Copy, PartialEq, Eq, Debug)]
pub enum ExplainFault {
    /// Any fault except one of the times.
    Text(TextFault),
    /// A fault of the times.
    Times(TimesFault),
}

impl From<TextFault> for ExplainFault {
    ghost from_gives = { λ fault e. e ≡ faults.Text fault };

    fn from(fault: TextFault) -> ExplainFault {
        ExplainFault::Text(fault)
    }
}

impl From<AllocError> for ExplainFault {
    ghost from_gives = { λ _ e. e ≡ faults.Text OutOfMemory };

    fn from(_e: AllocError) -> ExplainFault {
        ExplainFault::Text(TextFault::OutOfMemory)
    }
}

impl From<TimesFault> for ExplainFault {
    ghost from_gives = { λ fault e. e ≡ faults.Times fault };

    fn from(fault: TimesFault) -> ExplainFault {
        ExplainFault::Times(fault)
    }
}
