//! The markup of a page on a trace: its beats side by side, with the sentences on them.
#![tactic(auto)]

mod beat;
mod line;
mod overview;
mod page;
mod row;
mod style;
mod summary;
mod text;

pub use page::{fault_markup, markup_of};
