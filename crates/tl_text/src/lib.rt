//! The text buffer into which all sentences are written, and the fields of a beat that they name.
#![tactic(auto)]

mod beat_fields;
mod text_buf;

pub use beat_fields::{BeatFields, Describe, beat_fields_of};
pub use text_buf::{Colour, Piece, TextBuf};
