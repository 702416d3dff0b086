//! Writes the first beat of an inbox for C.
ghost use Rattle.tl_c_beats.specs.Calls.{Told};
ghost use Rattle.tl_c_beats.specs.Fields.{fields_a, fields_b, fields_c, fields_d, fields_e};

use crate::fields::{BeatFields, fields_a, fields_b, fields_c, fields_d, fields_e};
use tl_msg::{BeatOf, HeadA, HeadB, HeadC, HeadD, HeadE};

// Writes the fields and lanes of a beat, if there is one. Evaluates to whether there is one.
macro_rules! write_fields {
    ($far:ident, $fields_of:ident, $beat:ident, $lanes:ident) => {{
        let Some(far) = $far else {
            return false;
        };
        *$beat = $fields_of(&far);
        *$lanes = far.lanes;
        true
    }};
}

/// Writes a beat of A, if there is one. Returns whether there is one. If there is none, nothing
/// changes.
pub fn write_a<const W: usize>(
    far: Option<BeatOf<HeadA, W>>,
    beat: &mut BeatFields,
    lanes: &mut [u8; W],
) -> bool
    ensures { Told fields_a far.entry beat.old beat.new lanes.old lanes.new result }
{
    write_fields!(far, fields_a, beat, lanes)
}

/// Writes a beat of B, if there is one. Returns whether there is one. If there is none, nothing
/// changes.
pub fn write_b<const W: usize>(
    far: Option<BeatOf<HeadB, W>>,
    beat: &mut BeatFields,
    lanes: &mut [u8; W],
) -> bool
    ensures { Told fields_b far.entry beat.old beat.new lanes.old lanes.new result }
{
    write_fields!(far, fields_b, beat, lanes)
}

/// Writes a beat of C, if there is one. Returns whether there is one. If there is none, nothing
/// changes.
pub fn write_c<const W: usize>(
    far: Option<BeatOf<HeadC, W>>,
    beat: &mut BeatFields,
    lanes: &mut [u8; W],
) -> bool
    ensures { Told fields_c far.entry beat.old beat.new lanes.old lanes.new result }
{
    write_fields!(far, fields_c, beat, lanes)
}

/// Writes a beat of D, if there is one. Returns whether there is one. If there is none, nothing
/// changes.
pub fn write_d<const W: usize>(
    far: Option<BeatOf<HeadD, W>>,
    beat: &mut BeatFields,
    lanes: &mut [u8; W],
) -> bool
    ensures { Told fields_d far.entry beat.old beat.new lanes.old lanes.new result }
{
    write_fields!(far, fields_d, beat, lanes)
}

/// Writes a beat of E, if there is one. Returns whether there is one. If there is none, nothing
/// changes.
pub fn write_e<const W: usize>(
    far: Option<BeatOf<HeadE, W>>,
    beat: &mut BeatFields,
    lanes: &mut [u8; W],
) -> bool
    ensures { Told fields_e far.entry beat.old beat.new lanes.old lanes.new result }
{
    write_fields!(far, fields_e, beat, lanes)
}
