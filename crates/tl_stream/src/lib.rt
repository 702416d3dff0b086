//! Input and output of the programs. A text is read incrementally, and its near beats are passed to
//! a [`BeatConsumer`] while it is read. A [`TextFault`] is the reason why there is no answer.
#![tactic(auto)]

mod beat_consumer;
mod bytes;
mod fault;
mod input;
mod keep_all;
mod later_lines;
mod status;

pub use beat_consumer::BeatConsumer;
pub use bytes::{flush, read_all, write_all, write_bytes};
pub use fault::TextFault;
pub use input::{Input, MAX_BYTES};
pub use later_lines::{read_through, script_of_input};
pub use status::{FaultLine, exit_status};
