//! How many beats passed on each channel, and the receipts of sides, as C gets them.
ghost use Rattle.std.specs.Prelude.{◌≡◌, ◌≢◌, ◌↔◌, true};
ghost use Rattle.tl_sides.specs.Receipts.{ClientIsSentOut, ManagerIsSentOut, client_totals, manager_totals};
ghost use Rattle.tl_sides.specs.Sides.{ClientPast, ManagerPast, ClientStandsFor, ManagerStandsFor};
ghost use Rattle.tl_c_beats.specs.Receipts.{beat_totals, drained_answer, client_took, manager_took, IsReceipt, TotalsOfClient, TotalsOfManager, ClientTook, ManagerTook};
ghost use Rattle.tl_c_beats.specs.declared.answers.TheConstants.{NOT_SENT};
ghost use Rattle.tl_c_beats.specs.declared.totals.TheConstants.{NOT_FINISHED, CLIENT_FINISHED, MANAGER_FINISHED};

use crate::answers::{BRIDGE_MISMATCH, NOT_SENT, NOT_TAKEN, WRONG_RECEIPT};
use crate::bridge_id::BridgeId;
use std::alloc::Allocator;
use tl_sides::{ClientSide, ManagerSide, PerChannel};

/// [`BeatTotals::finished`] of a count, which is no receipt.
pub const NOT_FINISHED: u64 = 0;

/// [`BeatTotals::finished`] of a receipt of the client's side.
pub const CLIENT_FINISHED: u64 = 1;

/// [`BeatTotals::finished`] of a receipt of the manager's side.
pub const MANAGER_FINISHED: u64 = 2;

/// How many beats a side has sent on each channel that it sends, and how many were taken from it on
/// each of the others. A receipt of a side has these numbers, too.
#[repr(C)]
#[derive(Drop)]
pub struct BeatTotals {
    /// The numbers of the side's bridge.
    pub bridge: BridgeId,
    /// The side whose receipt this is, as it has sent everything: [`CLIENT_FINISHED`] or
    /// [`MANAGER_FINISHED`]. [`NOT_FINISHED`] if this is no receipt.
    pub finished: u64,
    pub a: u64,
    pub b: u64,
    pub c: u64,
    pub d: u64,
    pub e: u64,
}

// C gets this size, and these numbers, only from the header.
const _: () = prove!(size_of::<BeatTotals>() == 64);

const _: () = prove!(CLIENT_FINISHED == 1);

const _: () = prove!(MANAGER_FINISHED == 2);

fn beat_totals(bridge: BridgeId, finished: u64, totals: PerChannel<u64>) -> BeatTotals
    ensures { result ≡ beat_totals bridge finished totals }
{
    BeatTotals {
        bridge,
        finished,
        a: totals.a,
        b: totals.b,
        c: totals.c,
        d: totals.d,
        e: totals.e,
    }
}

/// Returns how many beats the client's side has sent on A, C and E, and how many were taken from it
/// on B and D. Each number is exact if it is below 2^63. They are no receipt.
pub fn count_client<const C: usize, const M: usize, A: Allocator>(
    client: &ClientSide<C, M, A>,
    bridge: BridgeId,
) -> BeatTotals
    ensures totals { result ≡ beat_totals bridge NOT_FINISHED (client_totals client.now) }
    ensures exact { (x : ClientPast C M) → ClientStandsFor client.now x → TotalsOfClient result x }
{
    beat_totals(bridge, NOT_FINISHED, client.totals())
}

/// Returns how many beats the manager's side has sent on B and D, and how many were taken from it
/// on A, C and E. Each number is exact if it is below 2^63. They are no receipt.
pub fn count_manager<const C: usize, const M: usize, A: Allocator>(
    manager: &ManagerSide<C, M, A>,
    bridge: BridgeId,
) -> BeatTotals
    ensures totals { result ≡ beat_totals bridge NOT_FINISHED (manager_totals manager.now) }
    ensures exact { (y : ManagerPast C M) → ManagerStandsFor manager.now y → TotalsOfManager result y }
{
    beat_totals(bridge, NOT_FINISHED, manager.totals())
}

/// Writes the receipt of the client's side and returns 0 if A, C and E are closed and nothing of
/// them is staged. Otherwise writes nothing and returns `NOT_SENT`.
pub fn finish_client<const C: usize, const M: usize, A: Allocator>(
    client: &ClientSide<C, M, A>,
    bridge: BridgeId,
    receipt: &mut BeatTotals,
) -> u8
    ensures sent { (result ≡ 0) ↔ ClientIsSentOut client.now }
    ensures not_sent { result ≢ 0 → result ≡ NOT_SENT }
    ensures receipt { result ≡ 0 →
        receipt.new ≡ beat_totals bridge CLIENT_FINISHED (client_totals client.now) }
    ensures exact { (x : ClientPast C M) → ClientStandsFor client.now x →
        result ≡ 0 → TotalsOfClient receipt.new x }
    ensures refused { result ≢ 0 → receipt.new ≡ receipt.old }
{
    if client.is_sent_out() {
        *receipt = beat_totals(bridge, CLIENT_FINISHED, client.totals());
        0
    } else {
        NOT_SENT
    }
}

/// Writes the receipt of the manager's side and returns 0 if B and D are closed and nothing of them
/// is staged. Otherwise writes nothing and returns `NOT_SENT`.
pub fn finish_manager<const C: usize, const M: usize, A: Allocator>(
    manager: &ManagerSide<C, M, A>,
    bridge: BridgeId,
    receipt: &mut BeatTotals,
) -> u8
    ensures sent { (result ≡ 0) ↔ ManagerIsSentOut manager.now }
    ensures not_sent { result ≢ 0 → result ≡ NOT_SENT }
    ensures receipt { result ≡ 0 →
        receipt.new ≡ beat_totals bridge MANAGER_FINISHED (manager_totals manager.now) }
    ensures exact { (y : ManagerPast C M) → ManagerStandsFor manager.now y →
        result ≡ 0 → TotalsOfManager receipt.new y }
    ensures refused { result ≢ 0 → receipt.new ≡ receipt.old }
{
    if manager.is_sent_out() {
        *receipt = beat_totals(bridge, MANAGER_FINISHED, manager.totals());
        0
    } else {
        NOT_SENT
    }
}

// Whether as many beats were taken as the receipt of the manager's side counts.
fn client_took(totals: &PerChannel<u64>, receipt: &BeatTotals) -> bool
    ensures { result ≡ client_took totals.now receipt.now }
{
    (totals.b == receipt.b) & (totals.d == receipt.d)
}

// Whether as many beats were taken as the receipt of the client's side counts.
fn manager_took(totals: &PerChannel<u64>, receipt: &BeatTotals) -> bool
    ensures { result ≡ manager_took totals.now receipt.now }
{
    (totals.a == receipt.a) & ((totals.c == receipt.c) & (totals.e == receipt.e))
}

// Returns the status of a comparison with the receipt that the side `other` of this bridge has to
// have given, if as many beats were taken as it counts, or not.
fn drained_answer(receipt: &BeatTotals, bridge: BridgeId, other: u64, as_many: bool) -> u8
    ensures answer { result ≡ drained_answer bridge other receipt.now as_many }
    ensures right { result ≡ 0 → IsReceipt bridge other receipt.now }
    ensures as_many { result ≡ 0 → as_many ≡ true }
{
    if receipt.finished != other {
        return WRONG_RECEIPT;
    }
    if receipt.bridge.number != bridge.number {
        return BRIDGE_MISMATCH;
    }
    if receipt.bridge.opening != bridge.opening {
        return WRONG_RECEIPT;
    }
    if as_many { 0 } else { NOT_TAKEN }
}

/// Returns 0 if as many beats of B and D were taken from the client's side as the manager's receipt
/// counts, and `NOT_TAKEN` otherwise. Returns `BRIDGE_MISMATCH` if the receipt has another number
/// of a bridge, and `WRONG_RECEIPT` if it is no receipt of the manager's side, or of another
/// opening.
pub fn drained_client<const C: usize, const M: usize, A: Allocator>(
    client: &ClientSide<C, M, A>,
    bridge: BridgeId,
    receipt: &BeatTotals,
) -> u8
    ensures drained { result ≡ drained_answer bridge MANAGER_FINISHED receipt.now
        (client_took (client_totals client.now) receipt.now) }
    ensures right { result ≡ 0 → IsReceipt bridge MANAGER_FINISHED receipt.now }
    ensures taken { (x : ClientPast C M) → ClientStandsFor client.now x →
        result ≡ 0 → ClientTook receipt.now x }
{
    let as_many = client_took(&client.totals(), receipt);
    drained_answer(receipt, bridge, MANAGER_FINISHED, as_many)
}

/// Returns 0 if as many beats of A, C and E were taken from the manager's side as the client's
/// receipt counts, and `NOT_TAKEN` otherwise. Returns `BRIDGE_MISMATCH` if the receipt has another
/// number of a bridge, and `WRONG_RECEIPT` if it is no receipt of the client's side, or of another
/// opening.
pub fn drained_manager<const C: usize, const M: usize, A: Allocator>(
    manager: &ManagerSide<C, M, A>,
    bridge: BridgeId,
    receipt: &BeatTotals,
) -> u8
    ensures drained { result ≡ drained_answer bridge CLIENT_FINISHED receipt.now
        (manager_took (manager_totals manager.now) receipt.now) }
    ensures right { result ≡ 0 → IsReceipt bridge CLIENT_FINISHED receipt.now }
    ensures taken { (y : ManagerPast C M) → ManagerStandsFor manager.now y →
        result ≡ 0 → ManagerTook receipt.now y }
{
    let as_many = manager_took(&manager.totals(), receipt);
    drained_answer(receipt, bridge, CLIENT_FINISHED, as_many)
}
