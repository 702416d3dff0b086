//! The program: a bridge for TileLink links, applied to a trace. The program itself only opens the
//! file that the command line names. The libraries that it calls parse the command line, make the
//! answer, and choose the exit status and the line on standard error.
#![tactic(auto)]

ghost use Rattle.tl_order.specs.Orders.{IsInRange};

use clap::Error;
use either::{Either, Left, Right};
use std::alloc::AllocError;
use std::fs::File;
use std::io;
use std::io::Stdin;
use std::process::ExitCode;
use std::thread::Threads;
use tl_answer::{FaultLine, TextFault, exit_status, run_text};
use tl_words::{CommandLine, command_line_of, not_utf8};

/// The program's name, which begins its lines on standard error.
const PROGRAM: &str = "tlbridge";

/// Returns the words of the command line, the first of which is the program's name. Errors: a word
/// is not UTF-8, or memory ran out.
fn words_of(rt: &HostRuntime) -> Result<Vec<String>, Error> {
    match std::env::args(rt) {
        Ok(words) => Ok(words.collect(rt.alloc())?),
        Err(error) if error.kind() == io::ErrorKind::OutOfMemory => Err(Error::from(AllocError)),
        Err(_) => Err(not_utf8(rt.alloc())?),
    }
}

/// Returns the file that the command line names, or standard input. Errors: `Read` if the file
/// cannot be opened, or `OutOfMemory`.
fn source_of(rt: &HostRuntime, file: Option<&str>) -> Result<Either<Stdin, File>, TextFault> {
    let Some(path) = file else {
        return Ok(Left(rt.stdin()));
    };
    match File::open(rt, path) {
        Ok(file) => Ok(Right(file)),
        Err(error) if error.kind() == io::ErrorKind::OutOfMemory => Err(TextFault::OutOfMemory),
        Err(_) => Err(TextFault::Read),
    }
}

/// Reads the trace and writes the answer to standard output. Returns whether all channels are done.
fn answer(
    rt: &HostRuntime,
    threads: &impl Threads,
    line: &CommandLine<'_>,
) -> Result<bool, TextFault>
    requires { IsInRange line.now.order }
{
    let mut source = source_of(rt, line.file)?;
    run_text(
        threads,
        rt.alloc(),
        &mut source,
        &mut rt.stdout(),
        &line.order,
    )
}

/// Writes the line of a fault, if any, to standard error. Returns the exit status, which also shows
/// the fault if standard error cannot be written.
fn status(rt: &HostRuntime, ending: Result<bool, TextFault>) -> ExitCode {
    if let Err(fault) = ending {
        let _ = eprint!(rt;
            "{}",
            FaultLine {
                program: PROGRAM,
                fault
            }
        );
    }
    ExitCode::from(exit_status(&ending))
}

/// Prints clap's message about the command line. Returns status 0 if help or the version was
/// requested, otherwise 2.
fn refuse(rt: &HostRuntime, error: &Error) -> ExitCode {
    if error.print(rt).is_err() && !error.use_stderr() {
        return status(rt, Err(TextFault::Write));
    }
    ExitCode::from(error.exit_code() as u8)
}

/// Executes the command line. Returns the exit status. Errors: clap's error for the command line.
fn exit_code(rt: &HostRuntime, threads: &impl Threads) -> Result<ExitCode, Error> {
    let words = words_of(rt)?;
    let words: Vec<&str> = words.iter().map(|word| word.as_str()).collect(rt.alloc())?;
    let line = command_line_of(rt.alloc(), &words)?;
    Ok(status(rt, answer(rt, threads, &line)))
}

fn main(rt: HostRuntime) -> ExitCode {
    match exit_code(&rt, &rt) {
        Ok(code) => code,
        Err(error) => refuse(&rt, &error),
    }
}
