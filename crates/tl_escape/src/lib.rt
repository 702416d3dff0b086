//! Escapes any text for an HTML page.
#![tactic(auto)]

mod escape;

pub use escape::put_escaped;
