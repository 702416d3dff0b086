//! The program that explains each line of a TileLink trace. It decides only which file to read and
//! whether to use colours. The text and the result come from the libraries that it calls.
#![tactic(auto)]

mod words;

use clap::Error;
use either::{Either, Left, Right};
use std::alloc::AllocError;
use std::fs::File;
use std::io::{self, IsTerminal, Stdin};
use std::process::ExitCode;
use tl_answer::{FaultLine, TextFault, exit_status, read_all};
use tl_explain::{DisplayOptions, FAULTS, meaning};
use tl_formats::{ExplainFault, run_explain};
use tl_times::TimesFault;
use words::{Command, command_of, not_utf8};

/// The program's name, with which its lines on standard error begin.
const PROGRAM: &str = "tlexplain";

/// Returns the words of the command line.
fn words_of(rt: &HostRuntime) -> Result<Vec<String>, Error> {
    match std::env::args(rt) {
        Ok(words) => words.collect(rt.alloc()).map_err(Error::from),
        Err(error) if error.kind() == io::ErrorKind::OutOfMemory => Err(Error::from(AllocError)),
        Err(_) => Err(not_utf8(rt.alloc())),
    }
}

/// Returns the file that the command line names, or otherwise standard input. Errors: `Read` if the
/// file cannot be opened.
fn source_of(rt: &HostRuntime, file: Option<&str>) -> Result<Either<Stdin, File>, TextFault> {
    let Some(path) = file else {
        return Ok(Left(rt.stdin()));
    };
    match File::open(rt, path) {
        Ok(file) => Ok(Right(file)),
        Err(error) if error.kind() == io::ErrorKind::OutOfMemory => Err(TextFault::OutOfMemory),
        Err(_) => Err(TextFault::Read),
    }
}

/// Prints the line of a fault, and its meaning if no line of the trace shows it.
fn report(rt: &HostRuntime, fault: TextFault) {
    let program = PROGRAM;
    let _ = eprint!(rt; "{}", FaultLine { program, fault });
    if !matches!(fault, TextFault::Trace(_)) {
        let _ = eprintln!(rt; "    {}", meaning(&fault));
    }
}

/// Reports the fault of a result, if there is one. Returns the exit status.
fn status(rt: &HostRuntime, ending: Result<bool, TextFault>) -> ExitCode {
    if let Err(fault) = ending {
        report(rt, fault);
    }
    ExitCode::from(exit_status(&ending))
}

/// Prints clap's message on the command line. Returns status 0 for help or the version, and
/// otherwise 2.
fn refuse(rt: &HostRuntime, error: &Error) -> ExitCode {
    if error.print(rt).is_err() && !error.use_stderr() {
        return status(rt, Err(TextFault::Write));
    }
    ExitCode::from(error.exit_code() as u8)
}

/// Prints the meaning of each fault.
fn print_faults(rt: &HostRuntime) -> Result<bool, TextFault> {
    match print!(rt; "{FAULTS}") {
        Ok(()) => Ok(true),
        Err(_) => Err(TextFault::Write),
    }
}

/// Returns whether colours are shown: standard output is a terminal, and NO_COLOR is not set or is
/// empty.
fn has_colours(rt: &HostRuntime) -> bool {
    rt.stdout().is_terminal()
        && match std::env::var(rt, "NO_COLOR") {
            Ok(value) => value.is_empty(),
            Err(_) => true,
        }
}

/// Prints the fault of the file of times and its line. Returns status 3.
fn refuse_times(rt: &HostRuntime, path: &str, fault: TimesFault) -> ExitCode {
    let (line, said) = (fault.line, fault.sentence());
    let _ = eprintln!(rt; "{PROGRAM}: {path}, line {line}: {said}");
    ExitCode::from(3)
}

/// Prints the reason why the file of times was not read. Returns the exit status, 4.
fn refuse_file(rt: &HostRuntime, path: &str, fault: TextFault) -> ExitCode {
    let said = match fault {
        TextFault::Read => "the file of the times could not be read",
        _ => meaning(&fault),
    };
    let _ = eprintln!(rt; "{PROGRAM}: {path}: {fault}\n    {said}");
    ExitCode::from(exit_status(&Err(fault)))
}

/// Returns the bytes of the file at this path. Errors: as for `source_of` and `read_all`.
fn bytes_of(rt: &HostRuntime, path: &str) -> Result<Vec<u8>, TextFault> {
    let mut source = source_of(rt, Some(path))?;
    read_all(rt.alloc(), &mut source)
}

/// Explains the trace of a file, or that on standard input. `times` has the times of its beats, if
/// these are known, and `path` is the path of their file. Returns the exit status.
fn explain(
    rt: &HostRuntime,
    file: Option<&str>,
    path: &str,
    times: Option<&[u8]>,
    look: &DisplayOptions,
) -> ExitCode {
    let look = DisplayOptions {
        colour: has_colours(rt),
        ..*look
    };
    let mut source = match source_of(rt, file) {
        Ok(source) => source,
        Err(fault) => return status(rt, Err(fault)),
    };
    match run_explain(rt.alloc(), &mut source, &mut rt.stdout(), &look, times) {
        Ok(all_done) => status(rt, Ok(all_done)),
        Err(ExplainFault::Text(fault)) => status(rt, Err(fault)),
        Err(ExplainFault::Times(fault)) => refuse_times(rt, path, fault),
    }
}

/// Executes a command. Returns the exit status.
fn execute(rt: &HostRuntime, command: &Command<'_>) -> ExitCode {
    match *command {
        Command::Explain { file, times, look } => {
            let Some(path) = times else {
                return explain(rt, file, "", None, &look);
            };
            match bytes_of(rt, path) {
                Ok(times) => explain(rt, file, path, Some(&times), &look),
                Err(fault) => refuse_file(rt, path, fault),
            }
        }
        Command::Faults => status(rt, print_faults(rt)),
    }
}

/// Executes the command in these words of a command line. Returns the exit status.
fn run(rt: &HostRuntime, words: &[String]) -> ExitCode {
    match command_of(rt.alloc(), words) {
        Ok(command) => execute(rt, &command),
        Err(error) => refuse(rt, &error),
    }
}

fn main(rt: HostRuntime) -> ExitCode {
    match words_of(&rt) {
        Ok(words) => run(&rt, &words),
        Err(error) => refuse(&rt, &error),
    }
}
