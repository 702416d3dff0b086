//! The limits of a link, each stated once.

/// The widest bus has `2^WIDEST_POWER` bytes (this project's choice).
pub const WIDEST_POWER: u32 = 7;

/// The number of bytes of the widest bus: 128. A mask has at most this many bits, and one near beat
/// makes at most this many far beats of one byte each.
pub const WIDEST: usize = 1 << WIDEST_POWER;

/// The largest size of a message: `2^12` = 4,096 bytes (this project's choice).
pub const MAX_SIZE: u8 = 12;

// the proofs hold for this number only
const _: () = prove!(MAX_SIZE == 12);

/// One bit for each lane of a bus, lane 0 lowest (TileLink: masks). It has [`WIDEST`] bits.
pub type Mask = u128;
