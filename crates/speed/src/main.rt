//! Measures reading, conversion and writing of traces, and one crossing between its two ends.
//! `bench/run` runs it on traces that `tools/make-trace` makes. `bench/programs` measures whole
//! runs as processes of `tlbridge`.
//!
//! - `speed measure` reads a trace of A or E lines from standard input. Each line of its output is
//!   a name and a number: a time in nanoseconds, a peak of memory in KiB or a count. `speed pass`
//!   measures plain passes over such a text.
//! - `speed ends CHANNEL WIDTH RING BEATS` sends `BEATS` beats of A or E through the two ends of a
//!   crossing at equal widths, and through a plain `rtrb` ring, in one thread and in two. Its
//!   output is like that of `measure`.
//!
//! A word that should be a number and is not, or is missing, counts as 0. If nothing can be
//! measured, the program prints the reason and ends with status 1.
#![tactic(auto)]

mod ends;
mod figures;
mod measure;

use figures::Figures;
use std::process::ExitCode;
use std::thread::Threads;
use std::{env, io};

/// Returns the word at this position, or an empty one after the last.
fn word_at(words: &[String], at: usize) -> &str {
    match words.get(at) {
        Some(word) => word.as_str(),
        None => "",
    }
}

/// Returns the number at this position, or 0.
fn number_at(words: &[String], at: usize) -> usize {
    word_at(words, at).parse().unwrap_or(0)
}

/// Returns the names of the figures that the first word asks for, in their order.
fn names_of(word: &str) -> &'static [&'static str] {
    match word {
        "pass" => &measure::OF_PASS,
        "measure" => &measure::OF_TRACE,
        "ends" => &ends::OF_ENDS,
        _ => &[],
    }
}

/// Prints the usage.
fn print_usage(rt: &HostRuntime) {
    let _ = println!(rt;
        "usage: speed ends A|E WIDTH RING BEATS, speed measure < TRACE, or speed pass < TRACE"
    );
}

/// Measures what the words of the command line ask for, after the program's own name.
fn measure_by(rt: &HostRuntime, threads: &impl Threads, words: &[String], figures: &mut Figures) {
    let (width, ring, count) = (
        number_at(words, 3),
        number_at(words, 4),
        number_at(words, 5),
    );
    match word_at(words, 1) {
        "pass" => measure::pass(rt, &mut rt.stdin(), figures),
        "measure" => measure::measure(rt, &mut rt.stdin(), figures),
        "ends" => ends::measure(rt, threads, word_at(words, 2), width, ring, count, figures),
        _ => print_usage(rt),
    }
}

fn main(rt: HostRuntime) -> io::Result<ExitCode> {
    let words: Vec<String> = env::args(&rt)?.collect(rt.alloc())?;
    let mut figures = Figures::new();
    measure_by(&rt, &rt, &words, &mut figures);
    Ok(ExitCode::from(!figures.print(&rt, names_of(word_at(&words, 1))) as u8))
}
