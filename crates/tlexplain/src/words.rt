//! The command line.
use clap::builder::ValueParser;
use clap::error::{Error, ErrorKind};
use clap::{Arg, ArgAction, ArgGroup, ArgMatches};
use std::alloc::{AllocError, Global};
use tl_explain::{DisplayOptions, Format, LineFilter};

/// The program's version.
const VERSION: &str = "0.7.0";

/// The description of the program in the help.
const ABOUT: &str =
    "Explains what happened to each beat of a TileLink trace on its way across a clock and width bridge.";

/// A command of the command line.
#[derive(Clone, Copy)]
pub enum Command<'a> {
    /// Explain the trace of this file, or that on standard input, with the times in another file,
    /// and with these options.
    Explain {
        file: Option<&'a str>,
        times: Option<&'a str>,
        look: DisplayOptions,
    },
    /// Print the meaning of each fault.
    Faults,
}

/// The form of a word on the command line.
enum Form {
    /// A value by itself. Its name is the one in the help.
    Bare,
    /// `--` and its name.
    Flag,
    /// A value after `--` and its name. The help uses the name given here for the value, and clap
    /// accepts a value if the parser does.
    Named(&'static str, ValueParser<'static>),
}

/// A word that the command line can have.
struct Word {
    name: &'static str,
    form: Form,
    help: &'static str,
}

// A table of words: the name, the form and the help of each.
macro_rules! words {
    ($($name:literal, $form:expr, $help:literal;)*) => {
        &[$(Word { name: $name, form: $form, help: $help }),*]
    };
}

/// All words, in the order of the help.
const WORDS: &[Word; 13] = words! {
    "FILE", Form::Bare, "Trace file to read [default: standard input]";
    "lanes", Form::Flag,
        "Shows the lanes of each beat, highest first: '..' is not active, '--' masked out, '##' active without data, '!!' in the mask but not active";
    "times", Form::Named("TIMES", ValueParser::String),
        "Shows the simulation time of each line, from this file, as tl_trace_monitor and tlbridge-trace write it; implies --in-order";
    "in-order", Form::Flag, "Says that the lines are in the order of time";
    "only", Form::Named("WHAT", ValueParser::Names(&["problems"])),
        "Shows only beats that were not accepted or have remarks";
    "from", Form::Named("LINE", ValueParser::Unsigned(0, u64::MAX)),
        "Shows only this line and later ones";
    "to", Form::Named("LINE", ValueParser::Unsigned(0, u64::MAX)),
        "Shows only this line and earlier ones";
    "source", Form::Named("ID", ValueParser::String),
        "Shows only beats of this source, with as many digits as in the trace";
    "channel", Form::Named("LETTER", ValueParser::Names(&["A", "B", "C", "D", "E"])),
        "Shows only beats of this channel";
    "no-remarks", Form::Flag,
        "Leaves out the remarks, which a protocol monitor would make on accepted beats";
    "html", Form::Flag, "Writes a page for a browser, with the lanes of each beat, instead of text";
    "json", Form::Flag,
        "Writes JSON Lines instead of text: an object for each line, and one for the whole trace";
    "faults", Form::Flag, "Prints what each fault means, and reads no trace";
};

fn argument<'a>(alloc: Global, word: &Word) -> Arg<'a> {
    let made = Arg::new(alloc, word.name).help(word.help);
    match word.form {
        Form::Bare => made,
        Form::Flag => made.long(word.name).action(ArgAction::SetTrue),
        Form::Named(value, parser) => made.long(word.name).value_name(value).value_parser(parser),
    }
}

/// Returns clap's description of the command line.
fn grammar<'a>(alloc: Global) -> Result<clap::Command<'a>, AllocError> {
    let mut grammar = clap::Command::new(alloc, "tlexplain")
        .about(ABOUT)
        .version(VERSION);
    for word in WORDS {
        grammar = grammar.arg(argument(alloc, word))?;
    }
    grammar.group(ArgGroup::new(alloc, "output").arg("html")?.arg("json")?)
}

/// Returns an error with this message, followed by the usage.
fn refusal(alloc: Global, message: &str) -> Result<Error, AllocError> {
    grammar(alloc)?.error(ErrorKind::ValueValidation, message)
}

/// Returns the error for a wrong value of `--source`.
fn wrong_source(alloc: Global, word: &str) -> Result<Error, AllocError> {
    let message = format!(in alloc;
        "invalid value '{word}' for '--source <ID>': it has to be up to 4 hexadecimal digits"
    )?;
    refusal(alloc, &message)
}

/// Returns the source given by `--source`.
fn source_of(alloc: Global, matches: &ArgMatches<'_>) -> Result<Option<u16>, Error> {
    let Some(word) = matches.get_str("source") else {
        return Ok(None);
    };
    match u16::from_str_radix(word, 16) {
        Ok(source) => Ok(Some(source)),
        Err(_) => Err(wrong_source(alloc, word).unwrap_or_else(Error::from)),
    }
}

/// Returns the letter of the channel given by `--channel`, if there is one.
fn channel_of(matches: &ArgMatches<'_>) -> Option<u8> {
    matches.get_str("channel")?.as_bytes().first().copied()
}

/// Returns the format of the output. The command line has at most one of its options.
fn format_of(matches: &ArgMatches<'_>) -> Format {
    if matches.get_flag("html") {
        Format::Page
    } else if matches.get_flag("json") {
        Format::Json
    } else {
        Format::Text
    }
}

/// Returns the options of the explanation, with only the lines of this source, if there is one.
fn look_of(matches: &ArgMatches<'_>, source: Option<u16>) -> DisplayOptions {
    DisplayOptions {
        lanes: matches.get_flag("lanes"),
        format: format_of(matches),
        colour: false,
        in_order: matches.get_flag("in-order") || matches.contains_id("times"),
        remarks: !matches.get_flag("no-remarks"),
        choice: LineFilter {
            only_problems: matches.contains_id("only"),
            from: matches.get_one::<u64>("from"),
            to: matches.get_one::<u64>("to"),
            source,
            channel: channel_of(matches),
        },
    }
}

/// Returns the command in the words of a command line that `grammar` accepts.
fn command_in<'a>(alloc: Global, matches: &ArgMatches<'a>) -> Result<Command<'a>, Error> {
    if matches.get_flag("faults") {
        return Ok(Command::Faults);
    }
    let source = source_of(alloc, matches)?;
    Ok(Command::Explain {
        file: matches.get_str("FILE"),
        times: matches.get_str("times"),
        look: look_of(matches, source),
    })
}

/// Returns the command in the words of a command line. The first word is the program's name.
/// Errors: clap's error for any other command line; also help and the version.
pub fn command_of<'a>(alloc: Global, words: &'a [String]) -> Result<Command<'a>, Error> {
    let matches = grammar(alloc)?.try_get_matches_from(words)?;
    command_in(alloc, &matches)
}

/// Returns the error for a command line with a word that is not UTF-8.
pub fn not_utf8(alloc: Global) -> Error {
    refusal(alloc, "a word of the command line is not UTF-8").unwrap_or_else(Error::from)
}
