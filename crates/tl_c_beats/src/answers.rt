//! The statuses that calls return.
ghost use Rattle.std.specs.Prelude.{◌≡◌};
ghost use Rattle.tl_c_beats.specs.Answers.{offer_number, close_number};

use tl_msg::SideFault;
use tl_ring::EndFault;

/// The status of a comparison with a receipt that counts other numbers of beats than were taken
/// (this project's choice).
pub const NOT_TAKEN: u8 = 249;

/// The status of a comparison with numbers that are no receipt of the other side for this opening of
/// the bridge (this project's choice).
pub const WRONG_RECEIPT: u8 = 250;

/// The status of a call that is given two sides, or a side and a receipt, whose numbers of the
/// bridge differ (this project's choice).
pub const BRIDGE_MISMATCH: u8 = 251;

/// The status of a call whose handle holds no side of a bridge (this project's choice).
pub const NOT_OPEN: u8 = 252;

/// The status of a request for the receipt of a side that has not sent everything: a channel that it
/// sends is open, or far beats are staged (this project's choice).
pub const NOT_SENT: u8 = 253;

/// The status of an offer whose channel accepts no beat now: far beats are staged, or the channel
/// is closed (this project's choice).
pub const NOT_READY: u8 = 254;

/// The status of a failed allocation.
pub const OUT_OF_MEMORY: u8 = 13;

/// The version of the libraries. It grows with each change of a call, or of a structure that is
/// passed to calls (this project's choice).
pub const VERSION: u32 = 7;

// C gets these numbers only from the header.
const _: () = prove!(NOT_TAKEN == 249);

const _: () = prove!(WRONG_RECEIPT == 250);

const _: () = prove!(BRIDGE_MISMATCH == 251);

const _: () = prove!(NOT_OPEN == 252);

const _: () = prove!(NOT_SENT == 253);

const _: () = prove!(NOT_READY == 254);

const _: () = prove!(OUT_OF_MEMORY == 13);

const _: () = prove!(VERSION == 7);

/// Returns 0 if an offer was accepted, otherwise the number of its fault.
pub fn offer_number(offered: Result<(), SideFault>) -> u8
    ensures { result ≡ offer_number offered }
{
    match offered {
        Ok(()) => 0,
        Err(fault) => fault.number(),
    }
}

/// Returns 0 if a channel was closed, otherwise the number of its fault.
pub fn close_number(closed: Result<(), EndFault>) -> u8
    ensures { result ≡ close_number closed }
{
    match closed {
        Ok(()) => 0,
        Err(fault) => fault.number(),
    }
}
