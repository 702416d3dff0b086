//! The answer to a text: from the bytes of a trace to the bytes of the program's output.
//! `tl_stream` reads the text and defines the reasons to refuse it; its names are exported here as
//! well.
#![tactic(auto)]

mod answer;
mod check_input;
mod crossing;
mod far_text;
pub mod laws;
mod one_thread;
mod parts;
mod text;
mod threads;
mod widths;

pub use answer::{Answer, check_of};
pub use one_thread::answer_sync;
pub use text::run_text;
pub use tl_order::Order;
pub use tl_stream::{
    FaultLine, Input, MAX_BYTES, TextFault, exit_status, read_all, script_of_input, write_all,
};
pub use widths::known_header;
