//! The run of a whole script over a bridge whose two sides are each in a thread of their own
//! (`run_threads`). The crate also re-exports all names of the crates below that callers of a
//! bridge need: `SyncBridge`, the two sides, the laws of the settled state of a script, and from
//! `tl_run` the run in one thread (`run_sync`, `SyncRun`), the destination of far beats, and the
//! outcome of a run.
#![tactic(auto)]

// A private function has one `requires`, because the checker proves each clause separately at each
// call.

mod client_turns;
mod gates;
mod inboxes;
mod manager_turns;
mod sizes;
mod thread_rounds;
mod threads_run;
mod turns;

pub use gates::{Gate, NoGate};
pub use threads_run::run_threads;
pub use tl_run::{FarSink, Outcome, RunFault, SyncRun, run_sync};
pub use tl_settle::{Request, RequestTable, SourceTable, laws};
pub use tl_sides::{
    ClientSide, ManagerSide, PerChannel, Standings, SyncBridge, bridge, meet_sides,
};
