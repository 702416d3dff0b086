//! Lemmas: the state of the sides of a run fits in memory, whatever the two widths are. These
//! functions do nothing; callers use their contracts in proofs.
ghost use Rattle.std.specs.Prelude.{◌<◌};
ghost use Rattle.tl_lanes.specs.Lanes.{IsWidth};
ghost use Rattle.tl_bridge.specs.Inner.Sizes.{beat_size, client_size, manager_size};
ghost use Rattle.tl_bridge.specs.Inner.Sizes.{client_run_size, manager_run_size};

// Lemma: each side fits in memory.
pub(crate) fn sides_fit<const C: usize, const M: usize>()
    requires { IsWidth C × IsWidth M }
    ensures client { client_size C M < 9223372036854775808 }
    ensures manager { manager_size C M < 9223372036854775808 }
{}

// Lemma: the state of each side's thread fits in memory.
pub(crate) fn runs_fit<const C: usize, const M: usize>()
    requires { IsWidth C × IsWidth M }
    ensures client { client_run_size C M < 9223372036854775808 }
    ensures manager { manager_run_size C M < 9223372036854775808 }
{}

// Lemma: a beat on a bus of this width fits in memory, on each channel.
pub(crate) fn beat_fits<const W: usize>()
    requires { IsWidth W }
    ensures { beat_size W < 9223372036854775808 }
{}
