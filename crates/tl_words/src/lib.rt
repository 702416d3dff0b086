//! The command line: the order and the file that its words name, or the error for words that are
//! refused.
#![tactic(auto)]

ghost use Rattle.std.specs.Prelude.{◌≡◌, ◌≤◌, ◌++◌, ◌∷◌, [], IfErr, IfOk, IsOkAnd, OnOk, codes, map, option_map};
ghost use Rattle.clap.specs.Kinds.{HasKind};
ghost use Rattle.clap.specs.Values.{kind_of};
ghost use Rattle.clap.specs.declared.error.kind.ErrorKind.TheVariants.{ValueValidation};
ghost use Rattle.clap.specs.Words.{app_of, found_of, rows_of, subcommand_rows_of};
ghost use Rattle.tl_order.specs.Orders.{IsInRange};
ghost use Rattle.tl_words.specs.CommandLines.{IsOrderOf, IsRunOf, called_by, check_shape, faults_in, file_of, file_rule, refused_kinds};
ghost use Rattle.tl_words.specs.CommandLines.{IsNumberOf, number_rule, program, run_shape, sync_rule};
ghost use Rattle.tl_words.specs.Inner.Rules.{HasRule, HasShape, bare};

use clap::error::{Error, ErrorKind};
use clap::{Arg, ArgAction, ArgMatches, Command};
use std::alloc::{AllocError, Global};
use tl_order::{MAX_RING, MAX_TURNS, Order};

/// The program's version.
const VERSION: &str = "0.7.0";

/// The contents of a valid command line.
#[derive(Clone, Copy, Debug, PartialEq, Eq)]
pub struct CommandLine<'a> {
    /// The command to execute on the trace.
    pub order: Order,
    /// The file to read the trace from; standard input if `None`.
    pub file: Option<&'a str>,
}

/// Returns an option with a number. `number_of` checks the range of the number.
fn number_option<'a>(alloc: Global, name: &'a str, default: &'a str, help: &'a str) -> Arg<'a>
    ensures { HasRule (number_rule name.entry.now default.entry.now) result }
{
    Arg::new(alloc, name)
        .long(name)
        .value_name("N")
        .help(help)
        .default_value(default)
}

fn sync_option<'a>(alloc: Global) -> Arg<'a>
    ensures { HasRule sync_rule result }
{
    Arg::new(alloc, "sync")
        .long("sync")
        .help(
            "Runs both sides in one thread, which is fastest; --turns has no effect, and the output is the same",
        )
        .action(ArgAction::SetTrue)
}

fn file_argument<'a>(alloc: Global) -> Arg<'a>
    ensures { HasRule file_rule result }
{
    Arg::new(alloc, "file")
        .value_name("FILE")
        .help("Trace file to read [default: standard input]")
}

/// Appends an item to a list, unless the item is an error. (The function is generic because one
/// that takes a `Command` from a result is slow to check.)
fn put<T: Drop>(list: &mut Vec<T>, item: Result<T, AllocError>) -> Result<(), AllocError>
    ensures { OnOk result (IsOkAnd item (λ x. list.new.items ≡ list.old.items ++ x ∷ [])) }
{
    list.push(item?)?;
    Ok(())
}

fn run_command<'a>(alloc: Global) -> Result<Command<'a>, AllocError>
    ensures { IfOk result (HasShape run_shape) }
{
    let ring =
        "Number of beats that the ring of each channel holds, 1 to 4096; the output does not depend on it";
    let turns =
        "Number of turns of each side between two meetings of the threads, 1 to 1000; the output does not depend on it";
    let about =
        "Prints the beats that arrive across the bridge, and a report line for each channel. Each side runs in its own thread. On a long trace, use --sync, which is faster.";
    let arguments = vec![in alloc;
        number_option(alloc, "ring", "16", ring),
        number_option(alloc, "turns", "4", turns),
        sync_option(alloc),
        file_argument(alloc),
    ]?;
    Command::new(alloc, "run").about(about).args(arguments)
}

fn check_command<'a>(alloc: Global) -> Result<Command<'a>, AllocError>
    ensures { IfOk result (HasShape check_shape) }
{
    let bare = Command::new(alloc, "check").about("Prints only the report lines.");
    bare.arg(file_argument(alloc))
}

/// Returns the command without its subcommands.
fn bare_command<'a>(alloc: Global) -> Command<'a>
    ensures { app_of result ≡ bare }
{
    let about =
        "Computes which beats come out of a TileLink width adapter or clock crossing. Reads a trace of those that go in from a file or from standard input, and writes the output to standard output.";
    Command::new(alloc, "tlbridge")
        .about(about)
        .version(VERSION)
        .subcommand_required(true)
}

fn command<'a>(alloc: Global) -> Result<Command<'a>, AllocError>
    ensures { IfOk result (λ c. app_of c ≡ program) }
{
    let mut below = Vec::new(alloc);
    let run = put(&mut below, run_command(alloc));
    let check = put(&mut below, check_command(alloc));
    match run.and(check) {
        Ok(()) => bare_command(alloc).subcommands(below),
        Err(error) => Err(error),
    }
}

/// Returns the matches of the words of a command line.
fn matches_of<'a>(alloc: Global, words: &'a [&'a str]) -> Result<ArgMatches<'a>, Error>
    ensures called { IfOk result (λ m. subcommand_rows_of m ≡ called_by (map (λ w. w.now) words.entry.now)) }
    ensures taken { IfOk result (λ _. faults_in (map (λ w. w.now) words.entry.now) ≡ []) }
    ensures refused { IfErr result (HasKind (faults_in (map (λ w. w.now) words.entry.now))) }
{
    match command(alloc) {
        Ok(command) => command.try_get_matches_from(words),
        Err(error) => Err(Error::from(error)),
    }
}

/// Returns an error with this message, followed by the usage. Its `exit_code` is 2.
fn refusal(alloc: Global, message: &str) -> Result<Error, AllocError>
    ensures { IfOk result (λ e. kind_of e ≡ ValueValidation) }
{
    match command(alloc) {
        Ok(mut command) => {
            let refused = command.error(ErrorKind::ValueValidation, message);
            drop(command);
            refused
        }
        Err(error) => Err(error),
    }
}

/// Returns the error for an option whose word is not a number from 1 to `max`.
fn out_of_range(alloc: Global, name: &str, word: &str, max: usize) -> Result<Error, AllocError>
    ensures { IfOk result (λ e. kind_of e ≡ ValueValidation) }
{
    let message = format!(in alloc;
        "invalid value '{word}' for '--{name} <N>': it has to be a number from 1 to {max}"
    )?;
    refusal(alloc, &message)
}

/// Returns the number of an option. Errors: the word is not a number from 1 to `max`.
fn number_of(
    alloc: Global,
    matches: &ArgMatches<'_>,
    name: &str,
    max: usize,
) -> Result<usize, Error>
    ensures range { IfOk result (λ n. (1 ≤ n) × (n ≤ max)) }
    ensures said { IfOk result (IsNumberOf name.now (rows_of (found_of matches.now))) }
    ensures refused { IfErr result (HasKind (ValueValidation ∷ [])) }
{
    let word = matches.get_str(name).unwrap_or("");
    match word.parse::<usize>() {
        Ok(number) if 1 <= number && number <= max => Ok(number),
        _ => Err(out_of_range(alloc, name, word, max)?),
    }
}

/// Returns the order of the words of `run`.
fn run_order(alloc: Global, matches: &ArgMatches<'_>) -> Result<Order, Error>
    ensures range { IfOk result IsInRange }
    ensures said { IfOk result (IsRunOf (rows_of (found_of matches.now))) }
    ensures refused { IfErr result (HasKind (ValueValidation ∷ [])) }
{
    Ok(Order::Run {
        ring: number_of(alloc, matches, "ring", MAX_RING)?,
        turns: number_of(alloc, matches, "turns", MAX_TURNS)?,
        sync: matches.get_flag("sync"),
    })
}

/// Returns the order of a command line that calls `check`. Errors: it calls another command, which
/// clap has refused before.
fn check_order(alloc: Global, matches: &ArgMatches<'_>) -> Result<Order, Error>
    ensures range { IfOk result IsInRange }
    ensures said { IfOk result (IsOrderOf (subcommand_rows_of matches.now)) }
    ensures refused { IfErr result (HasKind (ValueValidation ∷ [])) }
{
    match matches.subcommand_matches("check") {
        Some(_) => Ok(Order::Check),
        None => Err(refusal(alloc, "the command has to be run or check")?),
    }
}

/// Returns the order of a command line that calls `run` or `check`.
fn order_in(alloc: Global, matches: &ArgMatches<'_>) -> Result<Order, Error>
    ensures range { IfOk result IsInRange }
    ensures said { IfOk result (IsOrderOf (subcommand_rows_of matches.now)) }
    ensures refused { IfErr result (HasKind (ValueValidation ∷ [])) }
{
    match matches.subcommand_matches("run") {
        Some(inner) => run_order(alloc, inner),
        None => check_order(alloc, matches),
    }
}

/// Returns the file that the command line names, or `None`.
fn file_in<'a>(matches: &ArgMatches<'a>) -> Option<&'a str>
    ensures { option_map (λ s. s.now) result ≡ file_of (subcommand_rows_of matches.now) }
{
    match matches.subcommand() {
        Some((_, inner)) => inner.get_str("file"),
        None => None,
    }
}

/// Parses the words of a command line, the first of which is the program's name. Returns the order
/// and the file that they name.
///
/// Errors: clap's error, for every other command line and if memory runs out. A request for help or
/// the version is also returned as an error: its `exit_code` is 0, and `print` writes the text to
/// standard output. For every other error the `exit_code` is 2, and `print` writes it to standard
/// error.
pub fn command_line_of<'a>(alloc: Global, words: &'a [&'a str]) -> Result<CommandLine<'a>, Error>
    ensures taken { IfOk result (λ _. faults_in (map (λ w. w.now) words.entry.now) ≡ []) }
    ensures range { IfOk result (λ line. IsInRange line.order) }
    ensures order { IfOk result (λ line. IsOrderOf (called_by (map (λ w. w.now) words.entry.now)) line.order) }
    ensures file { IfOk result (λ line. option_map (λ s. s.now) line.file ≡ file_of (called_by (map (λ w. w.now) words.entry.now))) }
    ensures refused { IfErr result (HasKind (refused_kinds (map (λ w. w.now) words.entry.now))) }
{
    let matches = match matches_of(alloc, words) {
        Ok(matches) => matches,
        Err(error) => return Err(error),
    };
    let order = order_in(alloc, &matches);
    let file = file_in(&matches);
    drop(matches);
    match order {
        Ok(order) => Ok(CommandLine { order, file }),
        Err(error) => Err(error),
    }
}

/// Parses the words of a command line and returns the order, whichever file they name. Errors: as
/// `command_line_of`.
pub fn order_of<'a>(alloc: Global, words: &'a [&'a str]) -> Result<Order, Error>
    ensures taken { IfOk result (λ _. faults_in (map (λ w. w.now) words.entry.now) ≡ []) }
    ensures range { IfOk result IsInRange }
    ensures said { IfOk result (IsOrderOf (called_by (map (λ w. w.now) words.entry.now))) }
    ensures refused { IfErr result (HasKind (refused_kinds (map (λ w. w.now) words.entry.now))) }
{
    match command_line_of(alloc, words) {
        Ok(line) => Ok(line.order),
        Err(error) => Err(error),
    }
}

/// Returns the error for a command line with a word that is not UTF-8. Its `exit_code` is 2.
pub fn not_utf8(alloc: Global) -> Result<Error, AllocError>
    ensures { IfOk result (λ e. kind_of e ≡ ValueValidation) }
{
    refusal(alloc, "a word of the command line is not UTF-8")
}
