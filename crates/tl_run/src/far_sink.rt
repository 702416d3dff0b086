//! The destination of the far beats of a run.
ghost use Rattle.std.specs.Prelude.{◌≡◌, ℕ, IsOk, OnOk};
ghost use Rattle.tl_lanes.specs.Lanes.{IsWidth};
ghost use Rattle.tl_settle.specs.Outcomes.{Beats};
ghost use Rattle.tl_sides.specs.declared.per_channel.PerChannel.{PerChannel};
ghost use Rattle.tl_run.specs.Arrivals.{Fit, joined};

use std::alloc::AllocError;
use tl_msg::{Beat, ChA, ChB, ChC, ChD, ChE};

/// The destination of the far beats of a run in one thread, between a client's bus of `C` bytes and
/// a manager's of `M`: lists, or the lines of a text.
pub trait FarSink<const C: usize, const M: usize> {
    // it holds these far beats, those of each channel in the order in which they arrived
    ghost Holds: { Self → Beats M C → Type 0 };

    // it has room for this number of far beats of each channel, including those that it holds
    ghost HasRoom: { Self → PerChannel ℕ → Type 0 };

    // the value that it was made with, which never changes
    ghost made_with: { Self → ℕ };

    /// Appends beats of the five channels to those that arrived before. Errors: `AllocError` if the
    /// allocator fails, which ends the run; never if there is room for the beats. Requires: `C` and
    /// `M` are widths.
    fn take(
        &mut self,
        a: &[Beat<ChA, M>],
        b: &[Beat<ChB, C>],
        c: &[Beat<ChC, M>],
        d: &[Beat<ChD, C>],
        e: &[Beat<ChE, M>],
    ) -> Result<(), AllocError>
        requires client { IsWidth C }
        requires manager { IsWidth M }
        ensures far { (far : Beats M C) → Holds self.old far → OnOk result (Holds self.new
            (joined far (record { a = a.now; b = b.now; c = c.now; d = d.now; e = e.now }))) }
        ensures room { (far : Beats M C) (room : PerChannel ℕ) → Holds self.old far →
            HasRoom self.old room → Fit (joined far
            (record { a = a.now; b = b.now; c = c.now; d = d.now; e = e.now })) room →
            IsOk result × HasRoom self.new room }
        ensures same { OnOk result (made_with self.new ≡ made_with self.old) };
}
