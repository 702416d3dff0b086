//! The number of beats of a script, read incrementally, that may be discarded.
ghost use Rattle.std.specs.Prelude.{◌≡◌, ◌+◌, ◌-◌, ◌≤◌};
ghost use Rattle.tl_trace.specs.Scripts.{HasCounts, HasRemoved};
ghost use Rattle.tl_parts.specs.Parts.{AreBetween, AreGoing, AreWaiting, AreDiscarded, IsBetween, going};

use tl_trace::{Counts, Script};

// Returns how many of the held beats, which come after `discarded` discarded ones, may be discarded if
// the first `at` are done. Those are all done beats if they are at least half of the held ones, and
// otherwise none. Adds the number to `discarded`.
fn leaving(held: usize, discarded: &mut usize, at: usize) -> usize
    requires { IsBetween discarded.old at held }
    ensures counted { discarded.new ≡ discarded.old + result }
    ensures past { discarded.new ≤ at }
    ensures all { result ≡ going (at - discarded.old) held }
{
    let past = at - *discarded;
    let count = if past >= held - past { past } else { 0 };
    *discarded += count;
    count
}

/// Returns how many of the held beats of a script, read incrementally, must be discarded now, and
/// adds them to `discarded`, which counts those discarded before. On each channel, the first `at` are done.
/// The result is all done beats if they are at least half of the held ones, and otherwise none. So
/// discarding costs no more than reading, and fewer done beats remain than waiting ones (this
/// project's choice).
pub fn count_discardable<const C: usize, const M: usize>(
    discarded: &mut Counts,
    held: &Script<C, M>,
    at: &Counts,
) -> Counts
    requires { AreBetween discarded.old at.now held.now }
    ensures counts { HasCounts result held.now }
    ensures going { AreGoing discarded.old at.now held.now result }
    ensures discarded { AreDiscarded discarded.old result discarded.new }
    ensures rest { (rest : Script C M) → HasRemoved result held.now rest →
        AreBetween discarded.new at.now rest }
    ensures waiting { (rest : Script C M) → HasRemoved result held.now rest →
        AreWaiting discarded.new at.now rest }
{
    Counts {
        a: leaving(held.a.len(), &mut discarded.a, at.a),
        b: leaving(held.b.len(), &mut discarded.b, at.b),
        c: leaving(held.c.len(), &mut discarded.c, at.c),
        d: leaving(held.d.len(), &mut discarded.d, at.d),
        e: leaving(held.e.len(), &mut discarded.e, at.e),
    }
}
