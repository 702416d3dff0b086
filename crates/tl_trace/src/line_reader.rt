//! Readers of a line whose channel is known.
ghost use Rattle.std.specs.Prelude.{◌≡◌, ◌≤◌, ◌+◌, ◌^◌, ◌&&◌, false, length, nat_lt, Some, MatchResult};
ghost use Rattle.tl_lanes.specs.declared.limits.TheConstants.{WIDEST};
ghost use Rattle.tl_trace.specs.Faults.{form_fault};
ghost use Rattle.tl_trace.specs.Inner.LineRests.{mask_length};
ghost use Rattle.tl_trace.specs.Inner.Reading.{CanReadBeat, CanReadRest, IsPart, IsRead, IsRest, fields_of_mask, mask_values};

use crate::digits::{MaskNumber, field, lanes_field, mask_field};
use crate::fault::TraceKind;
use crate::head_reader::ReadHead;
use crate::places::{mask_digits, rest_len};
use tl_lanes::{Mask, WIDEST};
use tl_msg::{Beat, BeatOf};

/// Returns whether the mask has no bit from `w` on, and corrupt is 0 or 1.
#[inline(always)]
pub fn are_in_range(mask: Mask, corrupt: u64, w: usize) -> bool
    requires { w ≤ WIDEST }
    ensures { result ≡ (nat_lt mask (2 ^ w) && nat_lt corrupt 2) }
{
    (w >= WIDEST || mask < (1 as Mask) << w) && corrupt < 2
}

/// Returns the mask at `at`, or 0 if the channel has none.
#[inline(always)]
fn read_mask(text: &[u8], at: usize, masked: bool, w: usize) -> MaskNumber
    requires width { w ≤ WIDEST }
    requires room { at + mask_length masked w ≤ length text.now }
    ensures part { IsPart w text.now at (fields_of_mask masked) (mask_values masked result.value)
        result.bad }
    ensures none { masked ≡ false → result.value ≡ 0 }
{
    if !masked {
        return MaskNumber { value: 0, bad: 0 };
    }
    mask_field(text, at, mask_digits(w))
}

/// Mask and corrupt as numbers, 0 if the channel has none. If `bad` is above 15, the text of mask,
/// corrupt or lanes does not have its shape.
#[derive(Clone, Copy)]
pub struct Rest {
    pub mask: Mask,
    pub corrupt: u64,
    pub bad: u8,
}

/// Reads the fields after the head in a line on `w` lanes, starting at `at`: those that the channel
/// has.
#[inline(always)]
pub fn read_rest<const N: usize>(
    text: &[u8],
    at: usize,
    masked: bool,
    has_data: bool,
    w: usize,
    lanes: &mut [u8],
) -> Rest
    requires { CanReadRest masked has_data N w text.now at lanes.old }
    ensures { IsRest masked has_data N w text.now at lanes.old lanes.new result }
{
    let mask = read_mask(text, at, masked, w);
    if !has_data {
        return Rest {
            mask: mask.value,
            corrupt: 0,
            bad: mask.bad,
        };
    }
    // after the mask
    let data_at = at + rest_len(masked, false, w);
    let bad = lanes_field::<N>(text, data_at, w, lanes);
    let corrupt = field(text, data_at + 1 + 2 * w, 1);
    Rest {
        mask: mask.value,
        corrupt: corrupt.value,
        bad: mask.bad | (bad | corrupt.bad),
    }
}

/// Returns the beat of a line of the channel on `w` lanes, without its LF. Errors: `Length`,
/// `Shape` or `Range`, the first that applies.
#[inline(always)]
pub fn read_beat<K: ReadHead, const N: usize, const VERSION: u8>(
    text: &[u8],
    w: usize,
) -> Result<Beat<K, N>, TraceKind>
    requires { CanReadBeat (K.form VERSION) N w text.now }
    ensures { MatchResult result (IsRead (K.form VERSION) w text.now)
        (λ kind. form_fault (K.form VERSION) w text.now ≡ Some kind) }
{
    let masked = K::MASKED;
    let has_data = K::HAS_DATA;
    let rest_at = K::head_end(VERSION);
    if text.len() != rest_at + rest_len(masked, has_data, w) {
        return Err(TraceKind::Length);
    }
    let fields = K::read_head(text, VERSION);
    let mut lanes = [0u8; N];
    let rest = read_rest::<N>(text, rest_at, masked, has_data, w, &mut lanes);
    if (fields.bad | rest.bad) > 15 {
        return Err(TraceKind::Shape);
    }
    let Some(head) = K::head_of(&fields) else {
        return Err(TraceKind::Range);
    };
    if !are_in_range(rest.mask, rest.corrupt, w) {
        return Err(TraceKind::Range);
    }
    Ok(BeatOf {
        head,
        mask: rest.mask,
        lanes,
        corrupt: rest.corrupt == 1,
    })
}
