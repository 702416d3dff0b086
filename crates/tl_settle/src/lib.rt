//! The knowledge of each side about the requests under way, and the final state of a script of A
//! and D, whatever the two sides do.
#![tactic(auto)]

mod books;
pub mod laws;
mod tables;

pub use books::{ClientBook, ManagerBook};
pub use tables::{Request, RequestTable, SourceTable};
