//! The times of a trace's beats: whether a text has a time for each beat, and otherwise its first
//! faulty line.
#![tactic(auto)]

mod time;
mod times;

pub use times::{TimesFault, TimesKind, beats_of, check_times};
