//! The verdicts of a script.
ghost use Rattle.std.specs.Prelude.{◌≡◌, IfOk};
ghost use Rattle.tl_lanes.specs.Lanes.{IsWidth};
ghost use Rattle.tl_settle.specs.Outcomes.{verdicts};
ghost use Rattle.tl_parts.specs.Parts.{HasShortLists, near_beats};

use crate::judge::Judge;
use std::alloc::Global;
use tl_msg::{OutOfMemory, Verdict};
use tl_settle::{ClientBook, ManagerBook};
use tl_trace::Script;

/// Returns the verdict of a script on each channel, from A to E. These are the verdicts of
/// `run_sync`, found without a crossing.
///
/// The near beats are checked in order, and no far beat is made: only their numbers, which the
/// verdicts need, are counted. A beat of A or D that waits for the other channel is checked and
/// tested again once that one has advanced.
///
/// Errors: `OutOfMemory` if the allocator fails for the tables of sources of the two sides, before
/// the first beat is read. Requires: `C` and `M` are widths, and each list has at most `2^40`
/// beats.
pub fn verdicts_of<const C: usize, const M: usize>(
    alloc: Global,
    script: &Script<C, M>,
) -> Result<[Verdict; 5], OutOfMemory>
    requires client { IsWidth C }
    requires manager { IsWidth M }
    requires short { HasShortLists script.now }
    ensures { IfOk result (λ found. found ≡ verdicts (near_beats script.now)) }
{
    let Ok(client) = ClientBook::<C, Global>::new(alloc) else {
        return Err(OutOfMemory);
    };
    let Ok(manager) = ManagerBook::<M, Global>::new(alloc) else {
        return Err(OutOfMemory);
    };
    let mut judge = Judge::new(client, manager);
    Ok(judge.end(script))
}
