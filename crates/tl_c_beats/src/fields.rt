//! The fields of a beat, as C passes them.
ghost use Rattle.std.specs.Prelude.{◌≡◌};
ghost use Rattle.tl_c_beats.specs.Fields.{beat_a, beat_b, beat_c, beat_d, beat_e, fields_a, fields_b, fields_c, fields_d, fields_e, bare_fields};

use crate::masks::{high_word, low_word, whole_mask};
use tl_lanes::Mask;
use tl_msg::{BeatOf, HeadA, HeadB, HeadC, HeadD, HeadE, SinkId, SourceId};

/// The number of bytes of a beat's fields that are not used yet (this project's choice).
pub const RESERVED: usize = 7;

/// The fields of a beat on any of the five channels, without its lanes: 40 bytes, with no gap
/// between two fields. A field that the channel does not have is not read, and is written as 0.
/// `denied` and `corrupt` are true if they are not 0, and true is written as 1. `reserved` is not
/// read, and is written as 0, so that each of the 40 bytes has a value.
#[repr(C)]
#[derive(Drop)]
pub struct BeatFields {
    pub address: u64,
    /// The mask bits of lanes 0 to 63.
    pub mask: u64,
    pub source: SourceId,
    pub sink: SinkId,
    pub opcode: u8,
    pub param: u8,
    pub size: u8,
    pub denied: u8,
    pub corrupt: u8,
    pub reserved: [u8; RESERVED],
    /// The mask bits of the lanes from 64 on.
    pub mask_high: u64,
}

// C gets this size only from the header.
const _: () = prove!(size_of::<BeatFields>() == 40);

const _: () = prove!(RESERVED == 7);

// The beat with a head, and with the mask, lanes and corrupt bit of these fields and lanes.
macro_rules! beat_with {
    ($head:expr, $fields:ident, $lanes:ident) => {
        BeatOf {
            head: $head,
            mask: whole_mask($fields.mask, $fields.mask_high),
            lanes: *$lanes,
            corrupt: $fields.corrupt != 0,
        }
    };
}

// The head in these fields on A, B or C, whose heads have the same fields.
macro_rules! head_with {
    ($head:ident, $fields:ident) => {
        $head {
            opcode: $fields.opcode,
            param: $fields.param,
            size: $fields.size,
            source: $fields.source,
            address: $fields.address,
        }
    };
}

// The fields of a beat of A, B or C.
macro_rules! fields_with {
    ($beat:ident) => {
        BeatFields {
            address: $beat.head.address,
            source: $beat.head.source,
            opcode: $beat.head.opcode,
            param: $beat.head.param,
            size: $beat.head.size,
            ..bare_fields($beat.mask, $beat.corrupt)
        }
    };
}

// Returns the fields of a beat with this mask and corrupt bit, and a head of zeros.
fn bare_fields(mask: Mask, corrupt: bool) -> BeatFields
    ensures { result ≡ bare_fields mask corrupt }
{
    BeatFields {
        address: 0,
        mask: low_word(mask),
        source: 0,
        sink: 0,
        opcode: 0,
        param: 0,
        size: 0,
        denied: 0,
        corrupt: u8::from(corrupt),
        reserved: [0; RESERVED],
        mask_high: high_word(mask),
    }
}

/// Returns the beat of A with these fields and lanes.
pub fn beat_a<const W: usize>(fields: &BeatFields, lanes: &[u8; W]) -> BeatOf<HeadA, W>
    ensures { result ≡ beat_a fields.now lanes.now }
{
    beat_with!(head_with!(HeadA, fields), fields, lanes)
}

/// Returns the fields of this beat of A.
pub fn fields_a<const W: usize>(beat: &BeatOf<HeadA, W>) -> BeatFields
    ensures { result ≡ fields_a beat.now }
{
    fields_with!(beat)
}

/// Returns the beat of B with these fields and lanes.
pub fn beat_b<const W: usize>(fields: &BeatFields, lanes: &[u8; W]) -> BeatOf<HeadB, W>
    ensures { result ≡ beat_b fields.now lanes.now }
{
    beat_with!(head_with!(HeadB, fields), fields, lanes)
}

/// Returns the fields of this beat of B.
pub fn fields_b<const W: usize>(beat: &BeatOf<HeadB, W>) -> BeatFields
    ensures { result ≡ fields_b beat.now }
{
    fields_with!(beat)
}

/// Returns the beat of C with these fields and lanes.
pub fn beat_c<const W: usize>(fields: &BeatFields, lanes: &[u8; W]) -> BeatOf<HeadC, W>
    ensures { result ≡ beat_c fields.now lanes.now }
{
    beat_with!(head_with!(HeadC, fields), fields, lanes)
}

/// Returns the fields of this beat of C.
pub fn fields_c<const W: usize>(beat: &BeatOf<HeadC, W>) -> BeatFields
    ensures { result ≡ fields_c beat.now }
{
    fields_with!(beat)
}

/// Returns the beat of D with these fields and lanes.
pub fn beat_d<const W: usize>(fields: &BeatFields, lanes: &[u8; W]) -> BeatOf<HeadD, W>
    ensures { result ≡ beat_d fields.now lanes.now }
{
    let head = HeadD {
        opcode: fields.opcode,
        param: fields.param,
        size: fields.size,
        source: fields.source,
        sink: fields.sink,
        denied: fields.denied != 0,
    };
    beat_with!(head, fields, lanes)
}

/// Returns the fields of this beat of D.
pub fn fields_d<const W: usize>(beat: &BeatOf<HeadD, W>) -> BeatFields
    ensures { result ≡ fields_d beat.now }
{
    BeatFields {
        source: beat.head.source,
        sink: beat.head.sink,
        opcode: beat.head.opcode,
        param: beat.head.param,
        size: beat.head.size,
        denied: u8::from(beat.head.denied),
        ..bare_fields(beat.mask, beat.corrupt)
    }
}

/// Returns the beat of E with these fields and lanes.
pub fn beat_e<const W: usize>(fields: &BeatFields, lanes: &[u8; W]) -> BeatOf<HeadE, W>
    ensures { result ≡ beat_e fields.now lanes.now }
{
    beat_with!(HeadE { sink: fields.sink }, fields, lanes)
}

/// Returns the fields of this beat of E.
pub fn fields_e<const W: usize>(beat: &BeatOf<HeadE, W>) -> BeatFields
    ensures { result ≡ fields_e beat.now }
{
    BeatFields {
        sink: beat.head.sink,
        ..bare_fields(beat.mask, beat.corrupt)
    }
}
