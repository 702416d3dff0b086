//! From the input bytes to their explanation: in sentences, as JSON, or as a page for a browser, one
//! file that loads nothing else.
#![tactic(auto)]

mod fault;
mod run;

pub use fault::ExplainFault;
pub use run::run_explain;
