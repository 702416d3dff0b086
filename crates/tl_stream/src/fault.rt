//! The faults of a text, with their numbers and names.
ghost use Rattle.std.specs.Prelude.{◌≡◌, Some};
ghost use Rattle.tl_stream.specs.Faults.{text_fault_line, text_fault_number, text_fault_name, of_trace};
ghost use Rattle.tl_stream.specs.Statuses.{fault_words};
ghost use Rattle.tl_stream.specs.declared.fault.TextFault.TheVariants.{OutOfMemory};

use std::alloc::{AllocError, AllocFailed};
use std::fmt;
use thiserror::Error;
use tl_trace::{OutOfMemory as NoMemory, TraceFault, TraceKind};

/// The reasons why there is no answer to a text.
#[derive(Clone, Copy, Debug, PartialEq, Eq, Error)]
pub enum TextFault {
    /// 14 to 19, the number of the trace's fault: the text is not a valid trace.
    Trace(TraceFault),
    /// 20 (this project's choice): the two sides stopped moving before all beats had arrived.
    Stalled,
    /// 21 (this project's choice): a read failed or was interrupted.
    Read,
    /// 22 (this project's choice): a write failed, was interrupted or took no byte.
    Write,
    /// 23 (this project's choice): the text has more than 67,108,864 bytes.
    TooLong,
    /// 13 (this project's choice): an allocation failed.
    OutOfMemory,
}

impl TextFault {
    /// Returns the number of the fault; for `Trace`, the number of the trace's fault.
    pub fn number(&self) -> u8
        ensures { result ≡ text_fault_number self.now }
    {
        match self {
            TextFault::Trace(fault) => fault.number(),
            TextFault::Stalled => 20,
            TextFault::Read => 21,
            TextFault::Write => 22,
            TextFault::TooLong => 23,
            TextFault::OutOfMemory => 13,
        }
    }

    /// Returns the name of the fault; for `Trace`, the name of the trace's fault.
    pub fn name(&self) -> &'static str
        ensures { result.now ≡ text_fault_name self.now }
    {
        match self {
            TextFault::Trace(fault) => fault.name(),
            TextFault::Stalled => "Stalled",
            TextFault::Read => "Read",
            TextFault::Write => "Write",
            TextFault::TooLong => "TooLong",
            TextFault::OutOfMemory => "OutOfMemory",
        }
    }

    /// Returns the line of the trace's fault, counted from 1, or `None` for any other fault.
    pub fn line(&self) -> Option<u64>
        ensures { result ≡ text_fault_line self.now }
    {
        match self {
            TextFault::Trace(fault) => Some(fault.line),
            _ => None,
        }
    }
}

// Prints for example `line 3: 18 Range` or `23 TooLong`.
impl fmt::Display for TextFault {
    ghost output = { λ fault. Some (fault_words fault) };

    fn fmt<W: fmt::Write>(&self, f: &mut fmt::Formatter<W>) -> fmt::Result {
        let (number, name) = (self.number(), self.name());
        match self.line() {
            Some(line) => write!(f, "line {line}: {number} {name}"),
            None => write!(f, "{number} {name}"),
        }
    }
}

impl From<AllocError> for TextFault {
    ghost from_gives = { λ _ e. e ≡ OutOfMemory };

    fn from(_e: AllocError) -> TextFault {
        TextFault::OutOfMemory
    }
}

impl<T: Drop> From<AllocFailed<T>> for TextFault {
    ghost from_gives = { λ _ e. e ≡ OutOfMemory };

    fn from(_e: AllocFailed<T>) -> TextFault {
        TextFault::OutOfMemory
    }
}

impl From<NoMemory> for TextFault {
    ghost from_gives = { λ _ e. e ≡ OutOfMemory };

    fn from(_e: NoMemory) -> TextFault {
        TextFault::OutOfMemory
    }
}

impl From<TraceFault> for TextFault {
    ghost from_gives = { λ fault e. e ≡ of_trace fault };

    fn from(fault: TraceFault) -> TextFault {
        match fault.kind {
            TraceKind::OutOfMemory => TextFault::OutOfMemory,
            _ => TextFault::Trace(fault),
        }
    }
}
