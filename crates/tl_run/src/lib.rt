//! The run of a script over a bridge in one thread: of a whole script (`run_sync`), and of one that
//! is read incrementally (`SyncRun`). Also the parts shared with the run in two threads, in
//! `tl_bridge`: the destination of far beats, and the end and the outcome of a run. The outcome of
//! a channel's next beat is in `tl_offer`. Callers of a bridge need only `tl_bridge`, which
//! re-exports the names of these runs.
#![tactic(auto)]

// A private function has one `requires`, because the checker proves each clause separately at each
// call. The same holds for functions that are public only for the run in two threads.

mod ahead;
mod channel_state;
mod far_sink;
pub mod laws;
mod outcome;
mod rounds;
mod streaming;
mod sync_run;
mod taken;
mod turn;

pub use far_sink::FarSink;
pub use outcome::{Outcome, RunFault};
pub use rounds::{End, outcome_at};
pub use streaming::SyncRun;
pub use sync_run::run_sync;
pub use taken::{no_far_beats, reserve_far};
pub use tl_offer::{Offered, Offers, Stop};
pub use turn::Turn;
