//! The hook that a side of a run calls at the beginning of each round.
ghost use Rattle.std.specs.Prelude.{◌+◌, ℕ};

/// A hook that a side of a run in two threads calls at the beginning of each round, in its own
/// thread (this project's choice). A run does not depend on what it does.
pub trait Gate {
    // it was called this number of times, as far as the gate counts that
    ghost HasPassed: { ℕ → Self → Type 0 } = { λ _ _. Unit {0} };

    /// Called once in each round, before the side takes or offers a beat.
    fn pass(&mut self)
        ensures passed { (n : ℕ) → HasPassed n self.old → HasPassed (n + 1) self.new };
}

/// A gate that does nothing.
#[derive(Clone, Copy, PartialEq, Eq, Debug, Default)]
pub struct NoGate;

impl Gate for NoGate {
    fn pass(&mut self) {}
}
