//! The two sides of the bridge: together in one thread, and each for its own thread.
#![tactic(auto)]

// The value of a call that succeeds. If it fails, discards the rings named after it and returns the
// fault to the caller. A `?` would convert the fault, which adds a call to check and one more type
// for each pair of widths.
macro_rules! given {
    ($result:expr $(, $made:ident)*) => {
        match $result {
            Ok(given) => given,
            Err(fault) => {
                $($made.discard();)*
                return Err(fault);
            }
        }
    };
}

mod channel_calls;
mod client_port;
mod client_side;
pub mod laws;
mod making;
mod manager_port;
mod manager_side;
mod noting;
mod offering;
mod per_channel;
mod receipts;
mod sides;
mod sync_bridge;
mod taking;

pub use channel_calls::Forward;
pub use client_side::ClientSide;
pub use manager_side::ManagerSide;
pub use per_channel::PerChannel;
pub use receipts::{ClientReceipt, FinishedClient, FinishedManager, ManagerReceipt};
pub use sides::{bridge, meet_sides};
pub use sync_bridge::{Standings, SyncBridge};
