//! The verdict of a script on each channel, found without a crossing. The near beats are checked in
//! order, the far beats that each makes due are counted, and the books of both sides are kept.
#![tactic(auto)]

// A private function has one `requires`, because the checker proves each clause separately at each
// call.

mod alone;
mod coupled;
mod judge;
mod progress;
mod verdicts;

pub use judge::Judge;
pub use verdicts::verdicts_of;
