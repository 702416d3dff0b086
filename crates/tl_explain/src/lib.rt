//! The record of each line of a trace, with the outcome of its beat: the beats that were accepted
//! and their far beats, the beat that was held back and the reason, and the beats that were not
//! offered. Also its printers, in sentences and as JSON, and the fault of a text that is not a valid
//! trace.
#![tactic(auto)]

mod beat_outcome;
mod blocks;
mod channel;
mod display_options;
mod entry;
mod explain;
mod faults;
mod held;
mod json;
mod lane_list;
mod letters;
mod likeness;
mod links;
mod meanings;
mod page_model;
mod picture;
mod places;
mod record;
mod sentences;
mod story;
mod times;
mod unreadable;
mod walk;

pub use beat_outcome::BeatOutcome;
pub use display_options::{DisplayOptions, Format, LineFilter};
pub use entry::Entry;
pub use explain::explain_to;
pub use json::{fault_record, records_to};
pub use links::Links;
pub use meanings::{FAULTS, meaning};
pub use page_model::{Drawn, PageModel, page_model_of};
pub use picture::{Cell, Picture, ROW};
pub use record::{BeatRecord, LineRecord};
pub use sentences::{
    put_cuts, put_fate, put_fields, put_name, put_place, put_remarks, put_sentence,
};
pub use unreadable::show_fault;
pub use walk::{LETTERS, Position, Walk};
