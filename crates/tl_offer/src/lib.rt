//! The outcome of the next beat of a channel's list. A bridge in one thread, or a side in its own,
//! offers the beat if the channel is ready, and closes the channel if no beat is left.
#![tactic(auto)]

mod offered;
mod offers;

pub use offered::{Offered, Stop};
pub use offers::Offers;
