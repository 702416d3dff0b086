//! The positions of the fields in a line, and its length. After the letter come the fields, each
//! with a space and its digits. So all positions and lengths follow from the numbers of digits,
//! which depend on the version of the trace.
ghost use Rattle.std.specs.Prelude.{◌≡◌, ◌≤◌, ◌<◌, ◌+◌, ◌/◌};
ghost use Rattle.tl_lanes.specs.declared.limits.TheConstants.{WIDEST};
ghost use Rattle.tl_trace.specs.Fields.{id_digits, common, addressed, length_of};
ghost use Rattle.tl_trace.specs.Inner.LineRests.{mask_length, data_length};
ghost use Rattle.tl_trace.specs.declared.places.TheConstants.{MOST_ID_DIGITS, LONGEST_COMMON, LONGEST_HEAD, LONGEST_LINE};

use tl_lanes::WIDEST;

/// The number of digits of an address.
pub const ADDRESS_DIGITS: usize = 16;

/// The position of the first field of a line, after its letter: the opcode, or the sink on E.
pub const FIRST_AT: usize = 1;

/// The position of the param, after the one digit of the opcode.
pub const PARAM_AT: usize = FIRST_AT + 2;

/// The position of the size, after the one digit of the param.
pub const SIZE_AT: usize = PARAM_AT + 2;

/// The position of the source, after the one digit of the size.
pub const SOURCE_AT: usize = SIZE_AT + 2;

/// The largest number of digits of a source or sink: that of version 2.
pub const MOST_ID_DIGITS: usize = 4;

/// The largest number of bytes of the beginning of a head of A to D, from the letter to the source.
pub const LONGEST_COMMON: usize = SOURCE_AT + 1 + MOST_ID_DIGITS;

/// The largest number of bytes of a head: that of A, B and C in version 2.
pub const LONGEST_HEAD: usize = LONGEST_COMMON + 1 + ADDRESS_DIGITS;

/// The largest number of bytes of a mask, with its space: one digit for four lanes.
pub const LONGEST_MASK: usize = 1 + WIDEST / 4;

/// The largest number of bytes of data and corrupt, each with its space: two digits for a lane, and
/// one.
pub const LONGEST_DATA: usize = 1 + 2 * WIDEST + 2;

/// The number of bytes of the longest line with its LF: that of A or B on the widest bus in version
/// 2
/// (this project's choice).
pub const LONGEST_LINE: usize = LONGEST_HEAD + LONGEST_MASK + LONGEST_DATA + 1;

/// Returns the number of digits of a source or sink in a trace of this version: two in version 1,
/// otherwise four (this project's choice).
#[inline]
pub fn id_digits(version: u8) -> usize
    ensures digits { result ≡ id_digits version }
    ensures few { result ≤ MOST_ID_DIGITS }
{
    if version == 1 { 2 } else { 4 }
}

/// Returns the position after the fields that the heads of A to D begin with. The address comes
/// there on A, B and C, the sink on D.
#[inline]
pub fn common_end(version: u8) -> usize
    ensures end { result ≡ 1 + length_of 0 (common version) }
    ensures few { result ≤ LONGEST_COMMON }
{
    SOURCE_AT + 1 + id_digits(version)
}

/// Returns the position after a head with an address.
#[inline]
pub fn addressed_end(version: u8) -> usize
    ensures end { result ≡ 1 + length_of 0 (addressed version) }
    ensures few { result ≤ LONGEST_HEAD }
{
    common_end(version) + 1 + ADDRESS_DIGITS
}

/// Returns the number of digits of a mask of `w` lanes.
pub fn mask_digits(w: usize) -> usize
    requires { w ≤ WIDEST }
    ensures { result ≡ (w + 3) / 4 }
{
    (w + 3) / 4
}

/// Returns the number of bytes after the head in a line on `w` lanes, without its LF.
#[inline(always)]
pub fn rest_len(masked: bool, has_data: bool, w: usize) -> usize
    requires { w ≤ WIDEST }
    ensures long { result ≡ mask_length masked w + data_length has_data w }
    ensures few { LONGEST_HEAD + result < LONGEST_LINE }
{
    let mask = if masked { 1 + mask_digits(w) } else { 0 };
    let data = if has_data { 1 + 2 * w + 2 } else { 0 };
    mask + data
}
