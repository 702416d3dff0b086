//! An item of a ring with the time at which it was sent.

use crate::clock::Clock;

/// An item of a ring and the time at which it was sent. The time exists only in proofs.
#[derive(Drop)]
pub struct Stamped<T> {
    /// The item.
    pub item: T,
    /// The time.
    pub stamp: Clock,
}
