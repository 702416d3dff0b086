//! The end of a program: its exit status, and the line on standard error if there is no answer.
ghost use Rattle.std.specs.Prelude.{◌≡◌, Some};
ghost use Rattle.tl_stream.specs.Statuses.{status_of, fault_text};

use crate::fault::TextFault;
use std::fmt;

/// Returns the exit status of a program that answers a text (this project's choice):
/// - 0 if and only if all five channels are done
/// - 1 if one of them is not
/// - 3 if the text is not a valid trace
/// - 4 for every other fault
///
/// (An invalid command line ends the program with status 2.)
pub fn exit_status(ending: &Result<bool, TextFault>) -> u8
    ensures { result ≡ status_of ending.now }
{
    match ending {
        Ok(true) => 0,
        Ok(false) => 1,
        Err(TextFault::Trace(_)) => 3,
        Err(_) => 4,
    }
}

/// The line on standard error if there is no answer (this project's choice). It has the program's
/// name and `: `, then `line L: ` for a fault of a trace, then the fault's number and name, and the
/// LF.
#[derive(Clone, Copy)]
pub struct FaultLine {
    /// The name of the program.
    pub program: &'static str,
    pub fault: TextFault,
}

impl fmt::Display for FaultLine {
    ghost output = { λ line. Some (fault_text line.program.now line.fault) };

    fn fmt<W: fmt::Write>(&self, f: &mut fmt::Formatter<W>) -> fmt::Result {
        writeln!(f, "{}: {}", self.program, self.fault)
    }
}
