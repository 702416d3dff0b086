//! A script that is read incrementally, as the run and the check of it both see it: how many of
//! its beats may be discarded. The definitions of its parts, and of how far its channels advance,
//! are in `specs/`.
#![tactic(auto)]

// A function that is public only for the run and the check has one `requires`, because the checker
// proves each clause separately at each call.

mod leaving;

pub use leaving::count_discardable;
