//! Tests of lanes, messages, bursts, the converter and traces, of the crossing, from one channel's
//! pipe and ends to both sides of the bridge and the runs of a script, and of parts of the program,
//! in a crate of their own. A crate with tests is proved twice, and each proof spends half a minute
//! only on loading.
#![tactic(auto)]

#[cfg(test)]
mod below;
#[cfg(test)]
mod build_tests;
#[cfg(test)]
mod calls;
#[cfg(test)]
mod fault_tests;
#[cfg(test)]
mod five;
#[cfg(test)]
mod lending;
#[cfg(test)]
mod pair;
#[cfg(test)]
mod program;
#[cfg(test)]
mod ring;
#[cfg(test)]
mod run;
#[cfg(test)]
mod sync_tests;
#[cfg(test)]
mod tests;
#[cfg(test)]
mod values;

use tl_bridge::SyncBridge;
use tl_msg::ChA;
use tl_ring::{SendEnd, SyncPipe};
use tl_sides::{ClientSide, ManagerSide};

/// Does nothing, for a type whose values can be dropped.
fn can_be_let_go<T: Drop>() {}

/// Names the largest types whose values the tests drop. Dropping them has proofs in `proofs/`, and
/// a check without the tests refuses proofs of a function that does not exist.
pub fn name_what_is_let_go() {
    can_be_let_go::<SyncBridge<4, 16>>();
    can_be_let_go::<ClientSide<4, 16>>();
    can_be_let_go::<ManagerSide<4, 16>>();
    can_be_let_go::<SyncPipe<ChA, 8, 4>>();
    can_be_let_go::<SendEnd<ChA, 8, 4>>();
}
