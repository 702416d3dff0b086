//! The remarks that a protocol monitor would make on the beats that a bridge accepts: which
//! response belongs to which message, and what is wrong with it.
#![tactic(auto)]

mod exchange;
mod fits;
mod in_order;
mod lines;
mod notes;
mod remark;
mod sentences;

pub use lines::Cursor;
pub use notes::{accepted, notes_of};
pub use remark::{Exchange, Message, Noted, Remark, Rule};
pub use sentences::{put_remark, put_sentence_of};
