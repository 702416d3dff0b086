//! Beats and standings that several tests use.

use tl_lanes::Mask;
use tl_msg::{Beat, BeatOf, ChD, HeadA, HeadD, HeadE, SinkId, SourceId};
use tl_ring::Standing;

/// Returns a beat whose lanes are zero.
pub fn blank<H, const W: usize>(head: H, mask: Mask) -> BeatOf<H, W> {
    BeatOf {
        head,
        mask,
        lanes: [0; W],
        corrupt: false,
    }
}

/// Returns a Get of 4 bytes.
pub fn get<const W: usize>(source: SourceId, address: u64, mask: Mask) -> BeatOf<HeadA, W> {
    let head = HeadA {
        opcode: 4,
        param: 0,
        size: 2,
        source,
        address,
    };
    blank(head, mask)
}

/// Returns a beat of a response with data, of 2 to the power of `size` bytes.
pub fn data<const W: usize>(
    opcode: u8,
    size: u8,
    source: SourceId,
    lanes: [u8; W],
) -> Beat<ChD, W> {
    BeatOf {
        head: HeadD {
            opcode,
            param: 0,
            size,
            source,
            sink: 0,
            denied: false,
        },
        mask: 0,
        lanes,
        corrupt: false,
    }
}

/// Returns a beat of PutFullData of 2 to the power of `size` bytes.
pub fn put<const W: usize>(size: u8, address: u64, mask: Mask, lanes: [u8; W]) -> BeatOf<HeadA, W> {
    BeatOf {
        head: HeadA {
            opcode: 0,
            param: 0,
            size,
            source: 1,
            address,
        },
        mask,
        lanes,
        corrupt: false,
    }
}

/// Returns a beat of GrantAck.
pub fn ack(sink: SinkId) -> BeatOf<HeadE, 4> {
    blank(HeadE { sink }, 0)
}

/// Returns these numbers of beats in the stage, in the ring and in the inbox.
pub fn at(staged: usize, in_ring: usize, inbox: usize) -> Standing {
    Standing {
        staged,
        in_ring,
        inbox,
    }
}
