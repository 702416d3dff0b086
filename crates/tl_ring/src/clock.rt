//! A clock that exists only in proofs.
ghost use Rattle.std.specs.Prelude.{◌≡◌, ℕ, suc, max};
ghost use Rattle.std.specs.Borrow.{ftrue};

use std::marker::Model;

/// A logical clock. It exists only in proofs, and takes no memory.
///
/// Each side of a bridge has one. A beat that it sends carries the clock's time, and a beat that it
/// receives moves its clock on past the beat's time (Lamport's logical clocks). So the times show
/// which beats a side can have seen before it acts.
#[derive(Drop)]
pub struct Clock {
    /// The time.
    pub ghost time: { ℕ },
}

impl Model for Clock {
    ghost also_owns = { λ _. ftrue };
}

// A struct with `also_owns` is not `Send` by itself. This one owns nothing.
unsafe impl Send for Clock {}

impl Clock {
    /// Creates a clock at time 0.
    pub fn new() -> Clock
        ensures { result.time ≡ 0 }
    {
        Clock {}
    }

    /// Returns a clock with the same time.
    pub fn same(_one: &Clock) -> Clock
        ensures { result.time ≡ _one.now.time }
    {
        Clock {}
    }

    /// Returns a clock that is past the times of both.
    pub fn after(_one: &Clock, _other: &Clock) -> Clock
        ensures { result.time ≡ suc (max _one.now.time _other.now.time) }
    {
        Clock {}
    }
}
