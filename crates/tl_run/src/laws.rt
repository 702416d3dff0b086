//! Laws of the definitions, for the proofs of the crates above. Each function does nothing; its
//! contract is the law.
ghost use Rattle.tl_settle.specs.Outcomes.{Beats};
ghost use Rattle.tl_run.specs.Arrivals.{no_beats};
ghost use Rattle.tl_run.specs.Streaming.{HasBegun, HasRun};

use crate::far_sink::FarSink;
use crate::streaming::SyncRun;

/// Lemma: a new run of a script satisfies `HasRun` with every sink that holds no far beats yet.
pub fn a_new_run_has_run<F: FarSink<C, M>, const C: usize, const M: usize>(
    run: &SyncRun<C, M>,
    far: &F,
)
    ensures { (near : Beats C M) → HasBegun near run.now → F.Holds far.now no_beats →
        HasRun F.Holds near far.now run.now }
{}
