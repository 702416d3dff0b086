//! Requests by source 11 and responses to it, as calls of a bridge of 4 and 16 bytes or of its two sides.

use tl_lanes::Mask;
use tl_msg::{BeatFault, SideFault};

/// The result of an offer.
pub type Said = Result<(), SideFault>;

/// A call, and its expected result.
pub enum Call {
    /// The client offers a Get of 4 bytes from this address, with this result.
    Asks(u64, Said),
    /// The manager offers a response of this opcode and size with these lanes, with this result.
    Answers(u8, u8, [u8; 16], Said),
    /// One beat is moved.
    ClientPumps,
    ClientFetches,
    ManagerPumps,
    ManagerFetches,
    /// The manager takes the Get from this address, which has this mask.
    TakesAsk(u64, Mask),
    /// The client takes a response of 4 bytes with these lanes.
    TakesAnswer([u8; 4]),
    /// There is no response for the client.
    TakesNothing,
}

/// The bytes 88 to dd, of which the last four are on the lanes of address 100c.
const LANES: [u8; 16] = [
    0x88, 0x99, 0x00, 0x11, 0x22, 0x33, 0x44, 0x55, 0x66, 0x77, 0x88, 0x99, 0xaa, 0xbb, 0xcc, 0xdd,
];

/// A request and its response, and a second request after the response was taken.
pub const ANSWERED: [Call; 16] = [
    Call::Answers(3, 2, LANES, Err(SideFault::Beat(BeatFault::Opcode))),
    Call::Answers(1, 2, LANES, Err(SideFault::NoRequest)),
    Call::Asks(0x100c, Ok(())),
    Call::ClientPumps,
    Call::ManagerFetches,
    Call::TakesAsk(0x100c, 0xf000),
    Call::Answers(1, 3, LANES, Err(SideFault::SizeMismatch)),
    Call::Answers(1, 2, LANES, Ok(())),
    Call::ManagerPumps,
    Call::Answers(1, 2, LANES, Err(SideFault::NoRequest)),
    Call::Asks(0x100c, Err(SideFault::SourceBusy)),
    Call::ClientFetches,
    Call::Asks(0x100c, Err(SideFault::SourceBusy)),
    Call::TakesAnswer([0xaa, 0xbb, 0xcc, 0xdd]),
    Call::Asks(0x100c, Ok(())),
    Call::TakesNothing,
];

/// Two requests, each with its response.
pub const TWICE: [Call; 16] = [
    Call::Asks(0, Ok(())),
    Call::ClientPumps,
    Call::ManagerFetches,
    Call::TakesAsk(0, 0xf),
    Call::Answers(1, 2, [0x11; 16], Ok(())),
    Call::ManagerPumps,
    Call::ClientFetches,
    Call::TakesAnswer([0x11; 4]),
    Call::Asks(4, Ok(())),
    Call::ClientPumps,
    Call::ManagerFetches,
    Call::TakesAsk(4, 0xf0),
    Call::Answers(1, 2, [0x22; 16], Ok(())),
    Call::ManagerPumps,
    Call::ClientFetches,
    Call::TakesAnswer([0x22; 4]),
];
