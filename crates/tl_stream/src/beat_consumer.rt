//! The interface to the near beats of a text while it is read.
ghost use Rattle.std.specs.Prelude.{ℕ, IfOk};
ghost use Rattle.tl_lanes.specs.Lanes.{IsWidth};
ghost use Rattle.tl_trace.specs.Scripts.{Discarded, HasCounts, HasGrown, HasRemoved, more_discarded};
ghost use Rattle.tl_trace.specs.declared.script.Script.{Script as TheScript};
ghost use Rattle.tl_trace.specs.declared.script.Counts.{Counts as TheCounts};
ghost use Rattle.tl_stream.specs.Consuming.{AreFew};

use std::alloc::AllocError;
use tl_trace::{Counts, Script};

/// A consumer of the near beats of a text while it is read. The beats that it no longer needs are
/// removed from memory (this project's choice).
///
/// `By` is any type of the crate that implements the trait. It allows a crate to implement the
/// trait for a type of another crate. (A wrapper struct would add one type for each pair of
/// widths.)
pub trait BeatConsumer<By, const C: usize, const M: usize> {
    // in a trace of this version the consumer no longer needs the beats that were removed, and has
    // perhaps advanced over some of those that the script holds
    ghost HasConsumed: { (version : ℕ) → Self → Discarded C M → TheScript C M → Type 0 };

    // the effect of a call of `consume`: the consumer before and after it, the beats that the script
    // holds, and how many of these are to be removed
    ghost ConsumesOn: { (before : Self) → (after : Self) → TheScript C M → TheCounts → Type 0 };

    /// Advances over the beats that the script holds, as far as they allow. Returns how many of
    /// them are to be removed before more is read. Errors: an allocation failed, which ends the
    /// reading.
    fn consume(&mut self, held: &Script<C, M>) -> Result<Counts, AllocError>
        requires { IsWidth C × IsWidth M ×
            ((version : ℕ) × (discarded : Discarded C M) × HasConsumed version self.old discarded held.now) }
        ensures counts { IfOk result (λ counts. HasCounts counts held.now) }
        ensures consumed { IfOk result (ConsumesOn self.old self.new held.now) }

        // for any beats that are left of them, and that are read after them
        ensures on { (version : ℕ) (discarded : Discarded C M) → HasConsumed version self.old discarded held.now →
            IfOk result (λ counts. (rest more : Script C M) → HasRemoved counts held.now rest →
            HasGrown rest more → AreFew (more_discarded discarded counts held.now) more →
            HasConsumed version self.new (more_discarded discarded counts held.now) more) };
}
